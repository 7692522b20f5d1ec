//! Gathering a ring of outermost blossoms into one set: the smaller parts' vertices get the greatest one's handle.

ghost use Rattle.std.specs.Prelude.{◌≡◌, ◌+◌, ◌^◌, ◌<◌, ◌≤◌, ◌⊎◌, ◌==◌, if◌then◌else◌, ℕ, pos};
ghost use Rattle.std.specs.Prelude.{Some, None, length, count_by, is_some, slice_index, slice_index_or, unsigned_abs};
ghost use Rattle.def_forest.specs.Forests.{Blossom, walk};
ghost use Rattle.def_forest.specs.Tables.{forest_of};
ghost use Rattle.forest_laws.specs.Walks.{listed};
ghost use Rattle.qm_forest.specs.Gathers.{HasRenamed, IsRow, HasListAt, HasListsOf, HasRenamedRow};
ghost use Rattle.qm_forest.specs.Gathers.{TookSet, IsFreeRing, IsGathered, root_around};
ghost use Rattle.qm_forest.specs.Ties.{fixed_of};
ghost use Rattle.qm_forest.specs.Gathers.{HasLeaders, differ_by, AreJoinable, AreJoined, IsRowOf, AreEnclosed};

use crate::forest::Forest;
use crate::numbers::read;
use crate::tables::{Handles, Lists, Rings};
use qm_pool::{Node, Pool};

/// A blossom of a ring that has the most vertices.
#[tactic(auto, using(crate::proofs::RenamedRows::row_place))]
fn largest(after: &[u32], rank: &[u32], front: u32, many: u32) -> u32
    requires row { IsRow (length after.now) after.now front many }
    requires ranks { length rank.now ≡ length after.now }
    ensures on { (k : ℕ) × (k < many) × (walk (slice_index after.now) front k ≡ result) }
    ensures most { (k : ℕ) → k < many
        → slice_index rank.now (walk (slice_index after.now) front k) ≤ slice_index rank.now result }
{
    let mut x = front;
    let mut best = x;
    for _ in 0..many {
        best = larger(rank, best, x);
        x = after[x as usize];
    }
    best
}

/// Of two blossoms the one with more vertices.
fn larger(rank: &[u32], x: u32, y: u32) -> u32
    ensures either { (result ≡ x) ⊎ (result ≡ y) }
    ensures most { (slice_index rank.now x ≤ slice_index rank.now result)
        × (slice_index rank.now y ≤ slice_index rank.now result) }
{
    if read(rank, x, 0) < read(rank, y, 0) {
        y
    } else {
        x
    }
}

/// The vertices of a blossom get another handle, and their numbers change by as much as the handles differ.
pub(crate) fn rename(handles: &mut Handles, lists: &Lists, x: u32, handle: u32, more: i128)
    requires lists { HasListAt handles.old lists.now x }
    requires more { unsigned_abs more ≤ 2 ^ 100 }
    ensures { HasRenamed handles.old handles.new lists.now x handle more }
{
    let mut v = lists.first[x as usize];
    for _ in 0..lists.rank[x as usize] {
        handles.hand[v as usize] = handle;
        handles.q[v as usize] += more;
        v = lists.following[v as usize];
    }
}

/// The vertices of a blossom get the handle of another. Their potentials stay.
#[tactic(auto, using(crate::proofs::RenamedRows::kept_handle))]
fn rename_to(handles: &mut Handles, lists: &Lists, x: u32, big: u32)
    requires lists { HasListAt handles.old lists.now x }
    requires leaders { HasLeaders handles.old lists.now x big }
    ensures { HasRenamed handles.old handles.new lists.now x (slice_index lists.now.leader.items big)
        (differ_by handles.old lists.now x big) }
{
    if x != big {
        let handle = lists.leader[big as usize];
        let more = off_at(handles, lists.leader[x as usize]) - off_at(handles, handle);
        rename(handles, lists, x, handle, more);
    }
}

/// What a handle adds to the potentials.
pub(crate) fn off_at(handles: &Handles, handle: u32) -> i128
    ensures { result ≡ slice_index_or handles.now.off.items handle (pos 0) }
{
    read(&handles.off, handle, 0)
}

/// The vertices of all blossoms of a ring get the handle of the one that has the most. Their potentials stay.
pub(crate) fn rename_row(
    handles: &mut Handles,
    lists: &Lists,
    after: &[u32],
    front: u32,
    many: u32,
) -> u32
    requires { HasListsOf handles.old lists.now after.now front many }
    ensures on { (k : ℕ) × (k < many) × (walk (slice_index after.now) front k ≡ result) }
    ensures renamed { HasRenamedRow handles.old handles.new lists.now after.now front many result }
{
    let big = largest(after, &lists.rank, front, many);
    let mut x = front;
    for _ in 0..many {
        rename_to(handles, lists, x, big);
        x = after[x as usize];
    }
    big
}

/// The lists of the blossoms of a ring become one list, that of a set.
pub(crate) fn join_lists(lists: &mut Lists, after: &[u32], front: u32, many: u32, set: u32)
    requires lists { AreJoinable lists.old after.now front many }
    requires set { set < length after.now }
    ensures { AreJoined lists.old lists.new after.now front many set }
{
    let mut x = front;
    let mut total = lists.rank[x as usize];
    for _ in 0..many - 1 {
        let next = after[x as usize];
        let end = lists.last[x as usize];
        lists.following[end as usize] = lists.first[next as usize];
        total += lists.rank[next as usize];
        x = next;
    }
    lists.first[set as usize] = lists.first[front as usize];
    lists.last[set as usize] = lists.last[x as usize];
    lists.rank[set as usize] = total;
}

/// The blossoms of a ring get a set around them.
pub(crate) fn enclose(rings: &mut Rings, front: u32, many: u32, set: u32)
    requires { IsRowOf rings.old front many set }
    ensures { AreEnclosed rings.old rings.new front many set }
{
    let mut x = front;
    for _ in 0..many {
        rings.up[x as usize] = set;
        x = rings.after[x as usize];
    }
    rings.head[set as usize] = front;
    rings.parts[set as usize] = many;
}

/// The number of a set that is not in use. The pool keeps which are.
fn take_set(pool: &mut Pool, vertices: u32, front: u32) -> u32
    requires room { count_by is_some pool.old < length pool.old }
    requires few { vertices + length pool.old ≤ 2 ^ 26 }
    ensures { TookSet pool.old pool.new vertices result }
{
    let node = Node {
        weight: 0,
        up: 0,
        head: front,
        after: 0,
        edge: 0,
    };
    match pool.take(node) {
        Some(id) => vertices + id.0,
        None => unreachable!(),
    }
}

/// The root, or the set that has come around it.
fn enclosed_root(root: Option<u32>, up: &[u32], set: u32) -> Option<u32>
    ensures { result ≡ root_around up.now set root }
{
    match root {
        Some(r) => Some(if read(up, r, 0) == set { set } else { r }),
        None => None,
    }
}

impl Forest {
    /// Gathers a ring of outermost blossoms, all outside the tree, into one set, and answers its number.
    pub(crate) fn gather(&mut self, front: u32, many: u32) -> u32
        requires { IsFreeRing self.old front many }
        ensures gathered { IsGathered (length self.old.hand) (forest_of self.old) (forest_of self.new)
            (listed (slice_index self.old.after) front many) front many result }
        ensures root { (r : Blossom) → self.old.root ≡ Some r → self.new.root
            ≡ Some (if listed (slice_index self.old.after) front many r then result else r) }
        ensures none { self.old.root ≡ None → self.new.root ≡ None }
        ensures hand { length self.new.hand ≡ length self.old.hand }
        ensures fixed { fixed_of self.new ≡ fixed_of self.old }
    {
        let set = take_set(&mut self.pool, self.handles.hand.len() as u32, front);
        let big = rename_row(
            &mut self.handles,
            &self.lists,
            &self.rings.after,
            front,
            many,
        );
        let leader = self.lists.leader[big as usize];
        self.handles.top[leader as usize] = set;
        join_lists(&mut self.lists, &self.rings.after, front, many, set);
        self.lists.leader[set as usize] = leader;
        enclose(&mut self.rings, front, many, set);
        self.tree.root = enclosed_root(self.tree.root, &self.rings.up, set);
        set
    }
}
