//! The conforming cut: lines go straight on as far as they can.

ghost use Rattle.std.specs.Prelude.{◌≡◌, ◌<◌, true, false, IfOk, length, map};
ghost use Rattle.def_cut.specs.FullCut.{is_on};
ghost use Rattle.def_feature.specs.Conforming.{IsConforming};
ghost use Rattle.def_feature.specs.Marks.{AreMarks};
ghost use Rattle.def_mesh.specs.Darts.{all_darts, darts, twin_of};
ghost use Rattle.def_mesh.specs.Sources.{AreSources};
ghost use Rattle.feature_laws.specs.Leads.{AreLed, IsClosed, IsLedFrom, IsNext, is_led_edge};

use crate::Memory;
use crate::breaking::breaks;
use crate::tracing::{mark_starts, marked_starts};
use def_mesh::Starts;
use qm_mesh::Mesh;
use qm_sing::follower;
use std::alloc::Global;

/// The conforming cut of a mesh beside marked edges, a mark for each dart. Linear in the darts.
pub fn conforming(
    alloc: Global,
    mesh: &Mesh,
    src: &Starts,
    marks: &[bool],
) -> Result<Vec<bool>, Memory>
    requires sources { AreSources mesh.now src.now }
    requires marks { AreMarks mesh.now marks.now }
    ensures { IfOk result (λ cut. IsConforming mesh.now marks.now cut.items) }
{
    let _known = mesh.faces();
    let breaks = breaks(alloc, mesh, marks)?;
    let starts = marked_starts(alloc, mesh, &src.starts, marks, &breaks)?;
    let mut sources = Vec::from_slice(alloc, marks)?;
    mark_starts(&starts, &mut sources);
    let led = all_led(alloc, mesh, &sources)?;
    let lines = Lines { mesh, led: &led };
    lines.edges(alloc)
}

/// The darts to which lines lead from these. Linear in the darts.
fn all_led(alloc: Global, mesh: &Mesh, sources: &[bool]) -> Result<Vec<bool>, Memory>
    requires long { length sources.now ≡ darts mesh.now }
    ensures { IfOk result (λ led. AreLed mesh.now sources.now led.items (darts mesh.now)) }
{
    let darts = 4 * mesh.faces().len();
    let mut led = vec![in alloc; false; darts]?;
    lead_all(mesh, sources, &mut led);
    Ok(led)
}

fn lead_all(mesh: &Mesh, sources: &[bool], led: &mut [bool])
    requires long { length sources.now ≡ darts mesh.now }
    requires none { AreLed mesh.now sources.now led.old 0 }
    ensures { AreLed mesh.now sources.now led.new (darts mesh.now) }
{
    for d in 0..4 * mesh.faces().len() as u32 {
        lead_if(mesh, sources[d as usize], d, led);
    }
}

fn lead_if(mesh: &Mesh, test: bool, d: u32, led: &mut [bool])
    requires long { length led.old ≡ darts mesh.now }
    requires dart { d < darts mesh.now }
    requires closed { IsClosed mesh.now led.old }
    ensures on { test ≡ true → IsLedFrom mesh.now d led.old led.new }
    ensures off { test ≡ false → led.new ≡ led.old }
{
    if test {
        lead(mesh, d, led);
    }
}

/// Marks the line from d, up to where it is marked. Linear in what it marks.
fn lead(mesh: &Mesh, d: u32, led: &mut [bool])
    requires long { length led.old ≡ darts mesh.now }
    requires dart { d < darts mesh.now }
    requires closed { IsClosed mesh.now led.old }
    ensures { IsLedFrom mesh.now d led.old led.new }
{
    led[d as usize] = true;
    let mut at = d;
    while let Some(next) = unled_after(mesh, led, at) {
        led[next as usize] = true;
        at = next;
    }
}

/// The dart after d in its line, unless it is marked.
fn unled_after(mesh: &Mesh, led: &[bool], d: u32) -> Option<u32>
    requires long { length led.now ≡ darts mesh.now }
    requires dart { d < darts mesh.now }
    ensures { IsNext mesh.now led.now d result }
{
    let next = follower(mesh, d)?;
    if led[next as usize] { None } else { Some(next) }
}

/// Lines of a mesh, told by marks of their darts.
#[derive(Clone, Copy)]
struct Lines<'a> {
    mesh: &'a Mesh,
    led: &'a [bool],
    ghost long: { length led.now ≡ darts mesh.now },
}

impl Lines<'_> {
    /// The edges at the boundary and those that are marked in either direction.
    fn edges(&self, alloc: Global) -> Result<Vec<bool>, Memory>
        ensures { IfOk result (λ cut. cut.items
            ≡ map (λ d. is_led_edge self.now.led.now d (twin_of self.now.mesh.now d)) (all_darts self.now.mesh.now)) }
    {
        let darts = 4 * self.mesh.faces().len();
        let mut cut = Vec::with_capacity(alloc, darts)?;
        for d in 0..darts as u32 {
            cut.push(self.has_edge(d))?;
        }
        Ok(cut)
    }

    /// Whether the edge of d lies at the boundary or is marked in either direction.
    fn has_edge(&self, d: u32) -> bool
        requires { d < darts self.now.mesh.now }
        ensures { result ≡ is_led_edge self.now.led.now d (twin_of self.now.mesh.now d) }
    {
        match self.mesh.twin(d) {
            None => true,
            Some(t) => self.led[d as usize] || self.led[t as usize],
        }
    }
}
