//! The forest's tables and what can be read from them at once.

ghost use Rattle.std.specs.Prelude.{◌≡◌, ◌^◌, ◌<◌, ◌≤◌};
ghost use Rattle.std.specs.Prelude.{◌⊎◌, length};
ghost use Rattle.std.specs.Prelude.{unsigned_abs, is_some, Option};
ghost use Rattle.def_forest.specs.Forests.{Blossom};
ghost use Rattle.def_forest.specs.Tables.{forest_of, IsOutermostIn};
ghost use Rattle.qm_forest.specs.Ties.{potential};

use crate::numbers::{added_at, hand_of, label_of, read, sum_at, top_of, weight_from};
use crate::room::Room;
use crate::start::greater_of;
use crate::tables::{Handles, Lists, Rings, Trail, Tree, Weights};
use def_forest::Label;
use qm_pool::Pool;
use std::marker::Model;

/// The matching, the duals, the blossoms as odd rings of blossoms, and at most one alternating tree.
///
/// A single vertex is a blossom and has the vertex's number; a set has a number from `n` upwards. A shift touches
/// one number, since weights and potentials are kept without what the shifts of this search changed of them. The
/// vertices of an outermost blossom have one handle.
#[derive(Drop)]
pub struct Forest {
    pub(crate) handles: Handles,
    pub(crate) lists: Lists,
    pub(crate) rings: Rings,
    pub(crate) trail: Trail,
    pub(crate) weights: Weights,
    pub(crate) tree: Tree,
    /// The numbers of sets that are in use.
    pub(crate) pool: Pool,
    /// Room for what the forest comes to.
    pub(crate) room: Option<Room>,
}

impl Model for Forest {
    ghost use Rattle.def_forest.specs.Tables.{ForestTables};
    ghost use Rattle.qm_forest.specs.Ties.{AreTied};
    ghost use Rattle.qm_forest.specs.Views.{tables_of, hidden_of};

    ghost Value = { ForestTables };

    ghost view = { λ f. record {
      hand = f.handles.hand.items;
      top = f.handles.top.items;
      base = f.weights.base.items;
      delta = f.weights.delta;
      label = f.tree.label.items;
      mate = f.tree.mate.items;
      link = f.tree.link.items;
      root = f.tree.root;
      up = f.rings.up.items;
      after = f.rings.after.items;
      joint = f.rings.joint.items;
      head = f.rings.head.items;
      parts = f.rings.parts.items;
      rank = f.lists.rank.items;
      trail = f.trail.vertices.items;
      near = f.tree.near.items;
      room = f.room;
    } };

    ghost invariant = { λ f. AreTied (tables_of f.handles f.lists f.rings f.trail f.weights f.tree f.room)
        (hidden_of f.handles f.lists f.trail f.pool) };
}

impl Forest {
    /// The outermost blossom of a vertex.
    pub fn outermost(&self, v: u32) -> u32
        requires { v < length self.now.hand }
        ensures value { result ≡ (forest_of self.now).out v }
        ensures outermost { IsOutermostIn self.now result }
        ensures low { result < length self.now.up }
    {
        top_of(&self.handles.hand, &self.handles.top, v)
    }

    /// Where a blossom stands.
    pub fn label(&self, b: u32) -> Label
        ensures { result ≡ (forest_of self.now).label b }
    {
        label_of(&self.tree.label, b)
    }

    /// Whether an outermost blossom is matched.
    pub fn matched(&self, b: u32) -> bool
        ensures { result ≡ is_some ((forest_of self.now).mate b) }
    {
        self.mate(b).is_some()
    }

    /// The weight of a blossom, also of one within a set.
    pub fn weight(&self, b: u32) -> i64
        ensures { result ≡ (forest_of self.now).weight b }
    {
        weight_from(&self.weights.base, &self.tree.label, self.weights.delta, b) as i64
    }

    /// The greatest weight of a blossom, up or down. Linear.
    pub fn greatest_weight(&self) -> u64
        ensures above { (b : Blossom) → b < length self.now.up → unsigned_abs ((forest_of self.now).weight b) ≤ result }
        ensures attained { (result ≡ 0) ⊎ ((b : Blossom) × (unsigned_abs ((forest_of self.now).weight b) ≡ result)) }
    {
        let mut most = 0;
        for b in 0..self.numbers() {
            most = greater_of(most, self.weight_size(b));
        }
        most
    }

    /// The weight of a blossom without its sign.
    fn weight_size(&self, b: u32) -> u64
        ensures { result ≡ unsigned_abs ((forest_of self.now).weight b) }
    {
        self.weight(b).unsigned_abs()
    }

    /// How many vertices there are.
    pub(crate) fn vertices(&self) -> u32
        ensures { result ≡ length self.now.hand }
    {
        self.handles.hand.len() as u32
    }

    /// The dart by which an outermost blossom is matched.
    pub fn mate(&self, b: u32) -> Option<u32>
        ensures { result ≡ (forest_of self.now).mate b }
    {
        read(&self.tree.mate, b, None)
    }

    /// The dart from an inner blossom towards the root.
    pub(crate) fn link(&self, b: u32) -> u32
        ensures { result ≡ (forest_of self.now).link b }
    {
        read(&self.tree.link, b, 0)
    }

    /// The sum of the weights of the blossoms around a vertex.
    pub(crate) fn potential(&self, v: u32) -> i128
        requires { v < length self.now.hand }
        ensures value { result ≡ potential (forest_of self.now) v }
        ensures small { unsigned_abs result ≤ 2 ^ 90 }
    {
        let handle = hand_of(&self.handles.hand, v);
        let label = label_of(
            &self.tree.label,
            top_of(&self.handles.hand, &self.handles.top, v),
        );
        let more = added_at(&self.handles.off, handle, label, self.weights.delta);
        sum_at(&self.handles.q, v, more)
    }
}
