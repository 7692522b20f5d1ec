//! What a fit asks of a network, and what `size` asks for as a fit.

ghost use Rattle.std.specs.Prelude.{◌≡◌, false};
ghost use Rattle.def_fit.specs.Aims.{fit_settings};

use def_fit::{Aim, Fit, Keep, Patches, Spacing};
use def_flow::{Settings, Weight};
use def_metric::EDGE_PARTS;
use def_text::Micro;

/// The settings of the network of a fit.
pub fn fit_settings(fit: &Fit) -> Settings
    ensures { result ≡ fit_settings fit.now }
{
    let (p, q) = match fit.aim {
        Aim::Scale { p, q } => (p, q),
        _ => (1, EDGE_PARTS),
    };
    Settings {
        p,
        q,
        floor: fit.floor,
        weight: fit.weight,
    }
}

/// New edges of this length over the motorcycle graph, all arcs alike, with points evenly along the old edges.
pub fn edge_fit(edge: Micro, floor: u32) -> Fit
    ensures { result ≡ record {
      keep = Keep.Nothing;
      patches = Patches.Traced;
      aim = Aim.Edge edge;
      floor = floor;
      auto = false;
      weight = Weight.Plain;
      spacing = Spacing.Even;
    } }
{
    Fit {
        keep: Keep::Nothing,
        patches: Patches::Traced,
        aim: Aim::Edge { edge },
        floor,
        auto: false,
        weight: Weight::Plain,
        spacing: Spacing::Even,
    }
}
