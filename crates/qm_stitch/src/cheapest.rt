//! The arcs of the cheapest remedy of each doubled pair.

ghost use Rattle.std.specs.Prelude.{◌≡◌, ◌<◌, length, IfOk};
ghost use Rattle.std.specs.List.{All};
ghost use Rattle.std.specs.List.Sorted.{IsPermutation};
ghost use Rattle.def_layout.specs.Layouts.{layout_of};
ghost use Rattle.qm_stitch.specs.Remedies.{AreInOrder, AreMarksOf, IsArcOf, IsFirstUpto, IsFirstWith, IsRunIn};
ghost use Rattle.qm_stitch.specs.Tight.{AddsMarks};
ghost use Rattle.qm_stitch.specs.declared.remedy.Remedy.{Remedy as AnyRemedy};

use crate::numbered::Numbered;
use crate::remedy::{Remedy, Run};
use crate::tight::mark_side;
use std::alloc::{AllocError, Global};

/// Whether each arc is one of the cheapest remedy of its pair, the first such one where several cost as much. n log n.
pub(crate) fn cheapest_arcs(
    alloc: Global,
    numbered: &Numbered,
    remedies: Vec<Remedy>,
) -> Result<Vec<bool>, AllocError>
    requires { All (λ (remedy : AnyRemedy). IsRunIn (layout_of numbered.now.t.now) remedy.run) remedies.items }
    ensures { IfOk result (λ chosen. AreMarksOf (layout_of numbered.now.t.now) remedies.items chosen.items) }
{
    let mut sorted = remedies;
    sort(&mut sorted);
    let mut chosen = vec![in alloc; false; numbered.t.arcs.len()]?;
    mark_firsts(&mut chosen, numbered, &sorted);
    Ok(chosen)
}

/// Sorts remedies by their keys, then by what they cost.
fn sort(remedies: &mut Vec<Remedy>)
    ensures moved { IsPermutation remedies.old.items remedies.new.items }
    ensures ordered { AreInOrder remedies.new.items }
{
    remedies.sort_unstable();
}

/// Marks the arcs of the first remedy of each pair, of remedies in order.
fn mark_firsts(chosen: &mut [bool], numbered: &Numbered, remedies: &[Remedy])
    requires long { length chosen.old ≡ length numbered.now.t.now.arcs.items }
    requires runs { All (λ (remedy : AnyRemedy). IsRunIn (layout_of numbered.now.t.now) remedy.run) remedies.now }
    ensures { AddsMarks chosen.old chosen.new
        (IsFirstUpto (layout_of numbered.now.t.now) remedies.now (length remedies.now)) }
{
    for k in 0..remedies.len() {
        mark_first(chosen, numbered, remedies, k);
    }
}

/// Marks the arcs of a remedy where it is the first one of its pair.
fn mark_first(chosen: &mut [bool], numbered: &Numbered, remedies: &[Remedy], k: usize)
    requires long { length chosen.old ≡ length numbered.now.t.now.arcs.items }
    requires runs { All (λ (remedy : AnyRemedy). IsRunIn (layout_of numbered.now.t.now) remedy.run) remedies.now }
    requires low { k < length remedies.now }
    ensures { AddsMarks chosen.old chosen.new (IsFirstWith (layout_of numbered.now.t.now) remedies.now k) }
{
    let remedy = remedies[k];
    if k == 0 || remedies[k - 1].key != remedy.key {
        mark_run(chosen, numbered, remedy.run);
    }
}

/// Marks arcs along an edge.
fn mark_run(chosen: &mut [bool], numbered: &Numbered, run: Run)
    requires long { length chosen.old ≡ length numbered.now.t.now.arcs.items }
    requires run { IsRunIn (layout_of numbered.now.t.now) run }
    ensures { AddsMarks chosen.old chosen.new (IsArcOf (layout_of numbered.now.t.now) run) }
{
    match run {
        Run::Arc(arc) => chosen[arc] = true,
        Run::Side { patch, side } => mark_side(chosen, numbered, patch, side),
    }
}
