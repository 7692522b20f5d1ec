//! The lengths that the `#w` lines of a text wish for the edges of its mesh.

ghost use Rattle.std.specs.Prelude.{◌≡◌, ◌≢◌, ◌≤◌, ◌<◌, ◌^◌, ◌||◌, ◌∷◌, [], nat_lt, true};
ghost use Rattle.std.specs.Prelude.{Ok, Err, IfOk, IfErr, OnOk, ℕ};
ghost use Rattle.std.specs.Prelude.{if◌then◌else◌, length, slice_index_or, take};
ghost use Rattle.std.specs.List.{All};
ghost use Rattle.def_fit.specs.WishLines.{said_fails, wished_by, wishes_of};
ghost use Rattle.def_fit.specs.declared.fit.TheConstants.{MAX_WISH};
ghost use Rattle.def_io.specs.Lines.{lines_of};
ghost use Rattle.def_marks.specs.Chains.{is_edge, runs_between};
ghost use Rattle.def_mesh.specs.Darts.{darts, from_of, to_of};
ghost use Rattle.qm_marks.specs.Keys.{AreEnds};
ghost use Rattle.qm_marks.specs.Wishing.{pieces_of, AreKeyed, TakesWish};

use crate::corners::{Names, vertex_at};
use crate::ends::{FEW, edge_dart, sorted_ends};
use crate::lines::count_vertex_lines;
use crate::said::{Said, read_said};
use def_fit::MAX_WISH;
use def_marks::MarkFail;
use def_metric::EDGE_PARTS;
use def_text::{MAX_V_LINES, Soup};
use qm_io::Lines;
use qm_mesh::Mesh;
use std::alloc::Global;

/// A wish for each dart, in thousandths: that of the last of the first `after` lines that wishes for its edge, or one
/// whole edge. Else the first refusal of these lines. They are those of the soup, whose faces are the mesh. Linear but
/// for searches, which are logarithmic.
pub fn read_wishes(
    alloc: Global,
    lines: &Lines,
    after: u32,
    soup: &Soup,
    mesh: &Mesh,
) -> Result<Vec<u32>, MarkFail>
    requires within { after ≤ length (lines_of lines.now) }
    requires few { length soup.now.names ≤ MAX_V_LINES }
    requires mesh { mesh.now ≡ soup.now.faces }
    ensures wishes { IfOk result (λ wishes. wishes_of soup.now (take after (lines_of lines.now)) ≡ Ok wishes.items) }
    ensures long { IfOk result (λ wishes. length wishes.items ≡ darts mesh.now) }
    ensures small { IfOk result (λ wishes. All (λ wish. wish ≤ MAX_WISH) wishes.items) }
    ensures refused { IfErr result (λ fail. fail ≢ MarkFail.Memory
        → wishes_of soup.now (take after (lines_of lines.now)) ≡ Err fail) }
{
    let known = mesh.faces();
    let keys = sorted_ends(alloc, mesh)?;
    let places = Places {
        all: count_vertex_lines(alloc, lines, 0, after)?,
        keys: &keys,
        soup,
        mesh,
    };
    let mut wishes = vec![in alloc; EDGE_PARTS; 4 * known.len()]?;
    for i in 0..after {
        if let Some(rest) = lines.line(i).strip_prefix(b"#w ") {
            take_wish(&places, i + 1, rest, &mut wishes)?;
        }
    }
    Ok(wishes)
}

/// How many `v` lines a text has, its soup and mesh, and the table in which darts are found by their ends.
#[derive(Clone, Copy)]
struct Places<'a> {
    all: u32,
    keys: &'a [u128],
    soup: &'a Soup,
    mesh: &'a Mesh,
}

/// Takes the words behind the front of a line, or answers why they are refused.
fn take_wish(places: &Places, number: u32, text: &[u8], wishes: &mut [u32]) -> Result<(), MarkFail>
    requires keyed { AreKeyed places.now.soup.now places.now.mesh.now places.now.keys.now }
    requires long { length wishes.old ≡ darts places.now.mesh.now }
    ensures long { length wishes.new ≡ darts places.now.mesh.now }
    ensures took { OnOk result
        (TakesWish places.now.soup.now places.now.all number (pieces_of text.now) wishes.old wishes.new) }
    ensures refused { IfErr result (λ fail. said_fails places.now.soup.now places.now.all number
        (wished_by (pieces_of text.now)) ≡ fail ∷ []) }
{
    let Some(said) = read_said(text) else {
        return Err(MarkFail::Syntax { line: number });
    };
    if is_far(places.all, &said) {
        return Err(MarkFail::Range { line: number });
    }
    let soup = places.soup;
    let names = Names { all: &soup.names };
    let wish = Wish {
        u: vertex_at(&names, said.u as u32),
        v: vertex_at(&names, said.v as u32),
        wish: said.wish as u32,
    };
    if put_wish(places.mesh, places.keys, wish, wishes) {
        Ok(())
    } else {
        Err(MarkFail::NotEdge { line: number })
    }
}

/// Whether some number names no `v` line, or the wish is too great.
fn is_far(all: u32, said: &Said) -> bool
    ensures far { result ≡ (nat_lt all said.now.u || nat_lt all said.now.v || nat_lt MAX_WISH said.now.wish) }
    ensures few { all < 2 ^ 32 }
{
    said.u > u64::from(all) || said.v > u64::from(all) || said.wish > u64::from(MAX_WISH)
}

/// A wish for the edge between two vertices of the mesh.
#[derive(Clone, Copy)]
struct Wish {
    u: u32,
    v: u32,
    wish: u32,
}

/// Puts a wish at the darts of its edge, or answers that there is none.
fn put_wish(mesh: &Mesh, keys: &[u128], wish: Wish, wishes: &mut [u32]) -> bool
    requires ends { AreEnds mesh.now FEW keys.now }
    requires long { length wishes.old ≡ darts mesh.now }
    ensures long { length wishes.new ≡ darts mesh.now }
    ensures edge { result ≡ is_edge mesh.now wish.u wish.v }
    ensures wishes { result ≡ true → (x : ℕ) → x < darts mesh.now → slice_index_or wishes.new x 0
        ≡ (if runs_between mesh.now wish.u wish.v x then wish.wish else slice_index_or wishes.old x 0) }
{
    match edge_dart(mesh, keys, wish.u, wish.v) {
        None => false,
        Some(d) => {
            put(mesh, d, wish.wish, wishes);
            true
        }
    }
}

/// Puts a wish at dart d and its twin, where it has one.
fn put(mesh: &Mesh, d: u32, wish: u32, wishes: &mut [u32])
    requires dart { d < darts mesh.now }
    requires long { length wishes.old ≡ darts mesh.now }
    ensures long { length wishes.new ≡ darts mesh.now }
    ensures wishes { (x : ℕ) → x < darts mesh.now → slice_index_or wishes.new x 0
        ≡ (if runs_between mesh.now (from_of mesh.now d) (to_of mesh.now d) x then wish
        else slice_index_or wishes.old x 0) }
{
    let _known = mesh.faces();
    wishes[d as usize] = wish;
    if let Some(t) = mesh.twin(d) {
        wishes[t as usize] = wish;
    }
}
