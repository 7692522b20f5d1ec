//! The vertices that some face names.

ghost use Rattle.std.specs.Prelude.{◌≡◌, ◌≤◌, ◌<◌, ◌-◌, ◌||◌, ◌&&◌, ◌==◌, ◌++◌, ◌∷◌, [], ◌+◌, ℕ};
ghost use Rattle.std.specs.Prelude.{suc, false, nat_lt, nat_le, length, map};
ghost use Rattle.std.specs.Prelude.{slice_index, slice_index_or, slice_set, IsTrue, IfOk, OnOk};
ghost use Rattle.std.specs.List.{list_all, list_any};
ghost use Rattle.def_text.specs.Text.{face_set, position_of};
ghost use Rattle.qm_obj.specs.Kept.{are_numbers, chosen, first_late, IsCounted, IsMarked};

use crate::Memory;
use def_text::{MAX_V_LINES, Micro, Soup};
use std::alloc::Global;

/// The line of the first face that names a `v` line above the last.
#[tactic(auto, using(crate::proofs::SoupLemmas::late_more))]
pub(crate) fn late_line(vertices: u32, faces: &[[u32; 4]], lines: &[u32]) -> Option<u32>
    requires { length lines.now ≡ length faces.now }
    ensures { result ≡ first_late vertices faces.now lines.now }
{
    for (i, face) in faces.iter().enumerate() {
        if is_late(vertices, face) {
            return Some(lines[i]);
        }
    }
    None
}

fn is_late(vertices: u32, face: &[u32; 4]) -> bool
    ensures { result ≡ list_any (λ corner. nat_lt vertices corner) face.now }
{
    face.iter().any(|corner| vertices < *corner)
}

/// The soup of positions and of faces over their numbers from 1. Positions that no face names are dropped, and the
/// names of the others are their numbers. Linear.
pub fn soup_of(
    alloc: Global,
    positions: Vec<[Micro; 3]>,
    faces: Vec<[u32; 4]>,
) -> Result<Soup, Memory>
    requires few { length positions.items ≤ MAX_V_LINES }
    requires known { IsTrue
        (list_all (list_all (λ corner. nat_lt 0 corner && nat_le corner (length positions.items))) faces.items) }
    ensures { IfOk result (λ soup. soup ≡ face_set positions.items faces.items) }
{
    let mut pos = positions;
    let mut faces = faces;
    let marks = used_marks(alloc, pos.len(), &faces)?;
    let kept = keep_marked(alloc, &mut pos, &marks)?;
    renumber(&mut faces, &kept.vertices);
    let names = kept.names;
    Ok(Soup { pos, faces, names })
}

/// The numbers in the file of the positions that are kept, and for each position how many of them stand before it.
#[derive(Drop)]
struct Kept {
    names: Vec<u32>,
    vertices: Vec<u32>,
}

fn used_marks(alloc: Global, vertices: usize, faces: &[[u32; 4]]) -> Result<Vec<bool>, Memory>
    requires { IsTrue (list_all (are_numbers vertices) faces.now) }
    ensures { IfOk result (λ marks. IsMarked faces.now vertices marks.items) }
{
    let mut marks = vec![in alloc; false; vertices]?;
    for face in faces {
        mark_face(&mut marks, face);
    }
    Ok(marks)
}

fn mark_face(marks: &mut [bool], face: &[u32; 4])
    requires { IsTrue (are_numbers (length marks.old) face.now) }
    ensures { (k : ℕ) → k < length marks.old → slice_index_or marks.new k false
        ≡ (slice_index_or marks.old k false || list_any (λ corner. corner == suc k) face.now) }
{
    for corner in face {
        marks[(*corner - 1) as usize] = true;
    }
}

fn keep_marked(
    alloc: Global,
    positions: &mut Vec<[Micro; 3]>,
    marks: &[bool],
) -> Result<Kept, Memory>
    requires few { length marks.now ≤ MAX_V_LINES }
    requires each { length positions.old.items ≡ length marks.now }
    ensures names { IfOk result (λ kept. kept.names.items ≡ chosen marks.now (length marks.now)) }
    ensures positions { IfOk result (λ kept.
        positions.new.items ≡ map (position_of positions.old.items) (chosen marks.now (length marks.now))) }
    ensures vertices { IfOk result (λ kept. IsCounted marks.now kept.vertices.items) }
{
    let mut names = Vec::new(alloc);
    let mut vertices = Vec::with_capacity(alloc, marks.len())?;
    for k in 0..marks.len() {
        vertices.push(names.len() as u32)?;
        if marks[k] {
            keep_position(positions, &mut names, k)?;
        }
    }
    positions.truncate(names.len());
    Ok(Kept { names, vertices })
}

fn keep_position(
    positions: &mut Vec<[Micro; 3]>,
    names: &mut Vec<u32>,
    k: usize,
) -> Result<(), Memory>
    requires there { k < length positions.old.items }
    requires few { length positions.old.items ≤ MAX_V_LINES }
    requires room { length names.old.items ≤ k }
    ensures positions { OnOk result (positions.new.items
        ≡ slice_set positions.old.items (length names.old.items) (slice_index_or positions.old.items k [])) }
    ensures names { OnOk result (names.new.items ≡ names.old.items ++ (k + 1) ∷ []) }
{
    let position = positions[k];
    let kept = names.len();
    positions[kept] = position;
    names.push(k as u32 + 1)?;
    Ok(())
}

fn renumber(faces: &mut Vec<[u32; 4]>, vertices: &[u32])
    requires { IsTrue (list_all (are_numbers (length vertices.now)) faces.old.items) }
    ensures { faces.new.items
        ≡ map (λ corners. map (λ corner. slice_index vertices.now (corner - 1)) corners) faces.old.items }
{
    for f in 0..faces.len() {
        faces[f] = new_corners(faces[f], vertices);
    }
}

fn new_corners(face: [u32; 4], vertices: &[u32]) -> [u32; 4]
    requires { IsTrue (are_numbers (length vertices.now) face) }
    ensures { result ≡ map (λ corner. slice_index vertices.now (corner - 1)) face }
{
    let [a, b, c, d] = face;
    [
        vertices[a as usize - 1],
        vertices[b as usize - 1],
        vertices[c as usize - 1],
        vertices[d as usize - 1],
    ]
}
