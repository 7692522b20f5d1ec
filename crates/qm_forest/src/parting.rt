//! Parting a set: the blossoms of its ring become outermost, each with its own leader as the handle.

ghost use Rattle.std.specs.Prelude.{◌≡◌, ◌+◌, ℕ, Some, None, length, slice_get, slice_index, slice_set};
ghost use Rattle.def_forest.specs.Tables.{forest_of};
ghost use Rattle.forest_laws.specs.Walks.{listed};
ghost use Rattle.qm_forest.specs.Gathers.{HasListAt, IsRowOf};
ghost use Rattle.qm_forest.specs.Parts.{HasOwnLeader, HasHandedOver, HasPartLists, HasHandedRow, AreOpened};
ghost use Rattle.qm_forest.specs.Parts.{IsPartable, IsParted};
ghost use Rattle.qm_forest.specs.Ties.{fixed_of};
ghost use Rattle.qm_pool.specs.declared.pool.Node.{Node};

use crate::forest::Forest;
use crate::gathering::{off_at, rename};
use crate::tables::{Handles, Lists, Rings};
use qm_pool::{NodeId, Pool};

/// Blossoms that follow each other, from the first one on.
#[derive(Clone, Copy, Debug, PartialEq, Eq)]
struct Row {
    front: u32,
    many: u32,
}

/// The vertices of a part get its leader as their handle, which adds to the potentials what that of the set did.
fn hand_over(handles: &mut Handles, lists: &Lists, x: u32, set: u32)
    requires lists { HasListAt handles.old lists.now x }
    requires leaders { HasOwnLeader handles.old lists.now x set }
    ensures { HasHandedOver handles.old handles.new lists.now x set }
{
    let handle = lists.leader[x as usize];
    let old = lists.leader[set as usize];
    let more = off_at(handles, old);
    if handle != old {
        rename(handles, lists, x, handle, 0);
    }
    handles.top[handle as usize] = x;
    handles.off[handle as usize] = more;
}

/// The vertices of all parts of a set get their own leaders as handles. Their potentials stay.
fn hand_over_row(handles: &mut Handles, lists: &Lists, after: &[u32], row: Row, set: u32)
    requires { HasPartLists handles.old lists.now after.now row.front row.many set }
    ensures { HasHandedRow handles.old handles.new lists.now after.now row.front row.many set }
{
    let mut x = row.front;
    for _ in 0..row.many {
        hand_over(handles, lists, x, set);
        x = after[x as usize];
    }
}

/// The blossoms of a ring have no set around them any more.
fn open_ring(rings: &mut Rings, front: u32, many: u32, set: u32)
    requires { IsRowOf rings.old front many set }
    ensures { AreOpened rings.old rings.new front many set }
{
    let mut x = front;
    for _ in 0..many {
        rings.up[x as usize] = x;
        x = rings.after[x as usize];
    }
    rings.parts[set as usize] = 0;
}

/// The number of a set is free again.
fn give_set(pool: &mut Pool, vertices: u32, set: u32)
    requires { (id : ℕ) × (set ≡ vertices + id) × (node : Node) × (slice_get pool.old id ≡ Some (Some node)) }
    ensures { (id : ℕ) × (set ≡ vertices + id) × (pool.new ≡ slice_set pool.old id None) }
{
    let _ = pool.give(NodeId(set - vertices));
}

impl Forest {
    /// Parts an outermost set of weight 0 outside the tree: the blossoms of its ring become outermost.
    pub(crate) fn part(&mut self, b: u32)
        requires { IsPartable self.old b }
        ensures parted { IsParted (length self.old.hand) (forest_of self.old) (forest_of self.new)
            (listed (slice_index self.old.after) (slice_index self.old.head b) (slice_index self.old.parts b)) b }
        ensures root { self.new.root ≡ self.old.root }
        ensures hand { length self.new.hand ≡ length self.old.hand }
        ensures fixed { fixed_of self.new ≡ fixed_of self.old }
    {
        let front = self.rings.head[b as usize];
        let many = self.rings.parts[b as usize];
        open_ring(&mut self.rings, front, many, b);
        let row = Row { front, many };
        hand_over_row(&mut self.handles, &self.lists, &self.rings.after, row, b);
        give_set(&mut self.pool, self.handles.hand.len() as u32, b);
    }
}
