//! The darts that are noted in the open instant of a motion.

ghost use Rattle.std.specs.Prelude.{◌≡◌, ◌<◌, ℕ, cond, false, true, length, replicate, slice_set, Some, None, IfOk};
ghost use Rattle.def_cut.specs.Events.{darts_in, note_at};
ghost use Rattle.def_cut.specs.FullCut.{is_on};
ghost use Rattle.def_cut.specs.Motion.{is_among};
ghost use Rattle.def_mesh.specs.Darts.{darts, to_of};
ghost use Rattle.def_mesh.specs.Vertices.{vertex_count};
ghost use Rattle.qm_trace.specs.Motions.{AreNotes};
ghost use Rattle.qm_trace.specs.Tables.{AreEachOnce};

use crate::Memory;
use qm_mesh::Mesh;
use std::alloc::Global;

/// The dart that each rider has ridden in the open instant; for each dart whether it is noted, and for which rider; and
/// the riders that have ridden, in the order of their rides.
#[derive(Debug, Drop)]
pub(crate) struct Notes {
    pub(crate) noted: Vec<Option<u32>>,
    pub(crate) taken: Vec<bool>,
    pub(crate) places: Vec<u32>,
    pub(crate) queue: Vec<u32>,
}

/// No notes, with room for one of each rider. Linear in the darts.
pub(crate) fn no_notes(alloc: Global, riders: usize, darts: usize) -> Result<Notes, Memory>
    ensures notes { IfOk result AreNotes }
    ensures none { IfOk result (λ notes. notes.noted.items ≡ replicate riders None) }
    ensures long { IfOk result (λ notes. length notes.taken.items ≡ darts) }
{
    let noted = vec![in alloc; None; riders]?;
    let taken = vec![in alloc; false; darts]?;
    let places = vec![in alloc; 0; darts]?;
    let queue = Vec::with_capacity(alloc, riders)?;
    Ok(Notes {
        noted,
        taken,
        places,
        queue,
    })
}

/// Notes dart d for rider r.
pub(crate) fn note(notes: &mut Notes, r: u32, d: u32)
    requires notes { AreNotes notes.old }
    requires rider { r < length notes.old.noted.items }
    requires dart { d < length notes.old.taken.items }
    requires fresh { note_at notes.old.noted.items r ≡ None }
    requires alone { is_among d (darts_in notes.old.noted.items) ≡ false }
    ensures noted { notes.new.noted.items ≡ slice_set notes.old.noted.items r (Some d) }
    ensures notes { AreNotes notes.new }
    ensures long { length notes.new.taken.items ≡ length notes.old.taken.items }
{
    notes.noted[r as usize] = Some(d);
    notes.taken[d as usize] = true;
    notes.places[d as usize] = r;
    notes.queue.push(r).unwrap();
}

/// Ends the instant: no dart is noted, and no vertex settled. Linear in the notes.
pub(crate) fn clear(mesh: &Mesh, notes: &mut Notes, settled: &mut Vec<bool>)
    requires notes { AreNotes notes.old }
    requires long { length notes.old.taken.items ≡ darts mesh.now }
    requires low { (d : ℕ) → is_among d (darts_in notes.old.noted.items) ≡ true → d < darts mesh.now }
    requires settled_long { length settled.old.items ≡ vertex_count mesh.now }
    requires settled { (v : ℕ) → is_on settled.old.items v ≡ true
        → (r : ℕ) × (d : ℕ) × (note_at notes.old.noted.items r ≡ Some d) × (to_of mesh.now d ≡ v) }
    ensures noted { notes.new.noted.items ≡ replicate (length notes.old.noted.items) None }
    ensures settled { settled.new.items ≡ replicate (length settled.old.items) false }
    ensures notes { AreNotes notes.new }
    ensures long { length notes.new.taken.items ≡ length notes.old.taken.items }
{
    clear_each(
        mesh,
        &notes.queue,
        &mut notes.noted,
        &mut notes.taken,
        settled,
    );
    notes.queue.clear();
}

/// Takes the notes of these riders back, and what stands at their darts and the ends of these.
fn clear_each(
    mesh: &Mesh,
    queue: &[u32],
    noted: &mut Vec<Option<u32>>,
    taken: &mut Vec<bool>,
    settled: &mut Vec<bool>,
)
    requires queue { AreEachOnce queue.now }
    requires notes { (r : ℕ) → is_among r queue.now ≡ true
        → (d : ℕ) × (note_at noted.old.items r ≡ Some d) × (d < darts mesh.now) }
    requires long { (length taken.old.items ≡ darts mesh.now) × (length settled.old.items ≡ vertex_count mesh.now) }
    requires taken { (d : ℕ) → is_on taken.old.items d ≡ true → (r : ℕ) × (note_at noted.old.items r ≡ Some d) }
    requires settled { (v : ℕ) → is_on settled.old.items v ≡ true
        → (r : ℕ) × (d : ℕ) × (note_at noted.old.items r ≡ Some d) × (to_of mesh.now d ≡ v) }
    ensures long { length noted.new.items ≡ length noted.old.items }
    ensures taken_long { length taken.new.items ≡ length taken.old.items }
    ensures settled_long { length settled.new.items ≡ length settled.old.items }
    ensures noted { (r : ℕ) → note_at noted.new.items r ≡ cond (is_among r queue.now) None (note_at noted.old.items r) }
    ensures taken { (d : ℕ) → is_on taken.new.items d ≡ true → (r : ℕ) × (note_at noted.new.items r ≡ Some d) }
    ensures settled { (v : ℕ) → is_on settled.new.items v ≡ true
        → (r : ℕ) × (d : ℕ) × (note_at noted.new.items r ≡ Some d) × (to_of mesh.now d ≡ v) }
{
    for r in queue {
        let d = noted[*r as usize].unwrap();
        noted[*r as usize] = None;
        taken[d as usize] = false;
        settled[mesh.to(d) as usize] = false;
    }
}
