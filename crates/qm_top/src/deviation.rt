//! The deviation of the lengths that a benchmark keeps.

ghost use Rattle.std.specs.Prelude.{◌≡◌, ◌<◌, ◌^◌, ◌<ℤ◌, pos, length, IfOk, IfErr, OnOk};
ghost use Rattle.def_certtext.specs.declared.certs.Rising.TheVariants.{Never};
ghost use Rattle.def_remesh.specs.Refusals.{IsLayoutFail};
ghost use Rattle.def_remesh.specs.Tasks.{old_lengths};
ghost use Rattle.def_run.specs.Bench.{bench_settings};
ghost use Rattle.qm_top.specs.Deviation.{IsKeptDeviation};

use def_certtext::{Rising, Terms};
use def_flow::{Settings, Weight};
use def_layoutnet::NetFail;
use def_remesh::LayoutFail;
use qm_layoutnet::net_of;
use qm_net::deviation;
use qm_remesh::keep;
use qm_stages::CutMesh;
use std::alloc::Global;

/// The deviation of the lengths that a remesh of this layout keeps, with the settings of a benchmark.
///
/// The time is that of `keep`.
pub(crate) fn kept_deviation(alloc: Global, cut: &CutMesh) -> Result<i128, LayoutFail>
    ensures kept { IfOk result (IsKeptDeviation cut.now.layout) }
    ensures small { IfOk result (λ deviation. deviation <ℤ pos (2 ^ 127)) }
    ensures few { OnOk result ((length cut.now.layout.patches < 2 ^ 32) × (length cut.now.layout.arcs < 2 ^ 32)) }
    ensures refused { IfErr result (IsLayoutFail old_lengths cut.now.layout bench_settings Never) }
{
    let settings = half();
    let terms = Terms {
        settings,
        rising: Rising::Never,
    };
    let kept = keep(alloc, cut, terms)?;
    let t = cut.layout();
    let net = match net_of(alloc, t, &settings) {
        Ok(net) => net,
        Err(NetFail::Tangled { count }) => return Err(LayoutFail::Tangled { count }),
        Err(NetFail::Memory) => return Err(LayoutFail::Memory),
    };
    Ok(deviation(&net, &kept.used_cert().x))
}

/// Half of the old lengths, at least 1, all arcs alike.
fn half() -> Settings
    ensures { result ≡ bench_settings }
{
    Settings {
        p: 1,
        q: 2,
        floor: 1,
        weight: Weight::Plain,
    }
}
