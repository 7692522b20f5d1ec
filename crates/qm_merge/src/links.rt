//! The corners of the patches of a cut, each linked with the next one.

ghost use Rattle.std.specs.Prelude.{◌≡◌, ◌+◌, ◌^◌, ◌<◌, ◌↔◌, IsTrue, IfOk};
ghost use Rattle.def_mesh.specs.Darts.{darts};
ghost use Rattle.def_mesh.specs.HalfEdges.{half_edges};
ghost use Rattle.def_cut.specs.Cuts.{IsCorner};
ghost use Rattle.def_cut.specs.FullCut.{is_on};
ghost use Rattle.def_merge.specs.Joins.{AreInOne};
ghost use Rattle.qm_merge.specs.Links.{AreSides, AreTied, HasRoom, IsJoined, IsRound};
ghost use Rattle.qm_merge.specs.Walks.{IsNextCorner};

use crate::corners::side_from;
use qm_grid::Cutting;
use std::alloc::{AllocError, Global};

/// For each corner the next one round its patch, and how many edges its side has; and for each name of an arc a corner
/// where one of its sides begins.
#[derive(Debug, Drop)]
pub(crate) struct Links {
    pub(crate) next: Vec<u32>,
    pub(crate) long: Vec<u32>,
    pub(crate) starts: Vec<u32>,
}

/// The corners that follow a first one round its patch.
#[derive(Clone, Copy, Debug, PartialEq, Eq)]
pub(crate) struct Round {
    pub(crate) second: u32,
    pub(crate) third: u32,
    pub(crate) fourth: u32,
}

/// A cut with the links of its corners.
#[derive(Clone, Copy)]
pub(crate) struct Linked<'a> {
    pub(crate) cut: &'a Cutting<'a>,
    pub(crate) links: &'a Links,
    pub(crate) ghost tied: { AreTied (half_edges cut.now.faces) (is_on cut.now.marks) links.now },
}

/// The links of all corners. Linear in the darts.
pub(crate) fn all_links(alloc: Global, cut: &Cutting) -> Result<Links, AllocError>
    ensures { IfOk result (AreTied (half_edges cut.now.faces) (is_on cut.now.marks)) }
{
    cut.is_full();
    let darts = cut.darts();
    let mut links = Links {
        next: vec![in alloc; 0; darts as usize]?,
        long: vec![in alloc; 0; darts as usize]?,
        starts: vec![in alloc; 0; darts as usize]?,
    };
    for c in 0..darts {
        link_from(cut, &mut links, c);
    }
    Ok(links)
}

/// Links c with the next corner, if it is one.
fn link_from(cut: &Cutting, links: &mut Links, c: u32)
    requires dart { c < darts cut.now.faces }
    requires sides { AreSides (half_edges cut.now.faces) (is_on cut.now.marks)
        links.old.next.items links.old.long.items c }
    ensures sides { AreSides (half_edges cut.now.faces) (is_on cut.now.marks)
        links.new.next.items links.new.long.items (c + 1) }
    ensures starts { links.new.starts.items ≡ links.old.starts.items }
{
    if cut.is_corner(c) {
        let side = side_from(cut, c);
        links.next[c as usize] = side.next;
        links.long[c as usize] = side.long;
    }
}

impl Linked<'_> {
    /// The next corner of the patch. Takes constant time.
    fn next_corner(&self, corner: u32) -> u32
        requires { IsCorner (half_edges self.now.cut.now.faces) (is_on self.now.cut.now.marks) corner }
        ensures next { IsNextCorner (half_edges self.now.cut.now.faces) (is_on self.now.cut.now.marks) corner result }
        ensures corner { IsCorner (half_edges self.now.cut.now.faces) (is_on self.now.cut.now.marks) result }
    {
        self.cut.is_full();
        self.links.next[corner as usize]
    }

    /// The corners that follow s round its patch. Takes constant time.
    pub(crate) fn round_from(&self, s: u32) -> Round
        requires { IsCorner (half_edges self.now.cut.now.faces) (is_on self.now.cut.now.marks) s }
        ensures { IsRound (half_edges self.now.cut.now.faces) (is_on self.now.cut.now.marks) s result }
    {
        let second = self.next_corner(s);
        let third = self.next_corner(second);
        let fourth = self.next_corner(third);
        Round {
            second,
            third,
            fourth,
        }
    }

    /// Whether t is one of the four corners of the patch at corner s. Takes constant time.
    pub(crate) fn is_around(&self, s: u32, t: u32) -> bool
        requires corner { IsCorner (half_edges self.now.cut.now.faces) (is_on self.now.cut.now.marks) s }
        requires other { IsCorner (half_edges self.now.cut.now.faces) (is_on self.now.cut.now.marks) t }
        ensures { IsTrue result ↔ AreInOne (half_edges self.now.cut.now.faces) (is_on self.now.cut.now.marks) s t }
    {
        self.cut.is_full();
        let round = self.round_from(s);
        [s, round.second, round.third, round.fourth].contains(&t)
    }
}

/// Links the corners of two patches anew, as they become one across the sides from the first corners of both.
pub(crate) fn join_rounds(links: &mut Links, near: Round, far: Round)
    requires { HasRoom links.old near far (2 ^ 32) }
    ensures { IsJoined links.old links.new near far }
{
    let near_long = links.long[near.fourth as usize] + links.long[far.second as usize];
    let far_long = links.long[far.fourth as usize] + links.long[near.second as usize];
    links.next[near.fourth as usize] = far.third;
    links.next[far.fourth as usize] = near.third;
    links.long[near.fourth as usize] = near_long;
    links.long[far.fourth as usize] = far_long;
}
