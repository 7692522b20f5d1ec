//! Nodes under identities, in room that is made once.

ghost use Rattle.std.specs.Prelude.{◌≡◌, ◌+◌, ◌<◌, ◌↔◌, ℕ, length, count_by, is_some, replicate, slice_get};
ghost use Rattle.std.specs.Prelude.{slice_index, slice_set, IfOk, IsNone, OnOk, OnErr, MatchOption};

use std::alloc::{AllocError, Global};
use std::marker::Model;

/// Want of memory.
pub type Memory = AllocError;

/// The identity of a node in its pool, a number below the capacity.
#[derive(Clone, Copy, Debug, PartialEq, Eq)]
pub struct NodeId(pub u32);

/// A set of a matching's forest: its dual weight, the set around it, one of its parts, the next part of the set
/// around it, and the edge to that part.
#[derive(Clone, Copy, Debug, PartialEq, Eq)]
pub struct Node {
    pub weight: i64,
    pub up: u32,
    pub head: u32,
    pub after: u32,
    pub edge: u32,
}

/// A pool, seen as a list with one place for each identity: the node that lives under it, or `None`. The list's
/// length is the capacity.
#[derive(Drop)]
pub struct Pool {
    nodes: Vec<Option<Node>>,
    /// The first `left` entries are the identities that are not live.
    free: Vec<u32>,
    left: u32,
}

impl Model for Pool {
    ghost use Rattle.std.specs.Prelude.{List, Option};
    ghost use Rattle.qm_pool.specs.Free.{AreFree};
    ghost use Rattle.qm_pool.specs.declared.pool.Node.{Node};

    ghost Value = { List (Option Node) };

    ghost view = { λ p. p.nodes.items };

    ghost invariant = { λ p. AreFree p.nodes.items p.free.items p.left };
}

impl Pool {
    /// A pool of capacity 0.
    pub fn new(alloc: Global) -> Self
        ensures { length result ≡ 0 }
    {
        Pool {
            nodes: Vec::new(alloc),
            free: Vec::new(alloc),
            left: 0,
        }
    }

    /// Makes room for `cap` nodes. No later call takes memory.
    pub fn reserve(&mut self, cap: u32) -> Result<(), Memory>
        requires { count_by is_some self.old ≡ 0 }
        ensures ok { OnOk result (self.new ≡ replicate cap None) }
        ensures memory { OnErr result (self.new ≡ self.old) }
    {
        let alloc = *self.nodes.allocator();
        let nodes = vec![in alloc; None; cap as usize]?;
        let free = numbers_below(alloc, cap)?;
        self.nodes = nodes;
        self.free = free;
        self.left = cap;
        Ok(())
    }

    /// Adds a node under an identity that was not live, or answers `None` where the pool is full.
    pub fn take(&mut self, node: Node) -> Option<NodeId>
        ensures full { IsNone result ↔ (count_by is_some self.old ≡ length self.old) }
        ensures taken { MatchOption result (self.new ≡ self.old)
            (λ id. (slice_get self.old id.0 ≡ Some None) × (self.new ≡ slice_set self.old id.0 (Some node))) }
    {
        if self.left == 0 {
            return None;
        }
        self.left -= 1;
        let id = self.free[self.left as usize];
        self.nodes[id as usize] = Some(node);
        Some(NodeId(id))
    }

    /// Ends a node that is live, and hands it back.
    pub fn give(&mut self, id: NodeId) -> Node
        requires { (node : Node) × (slice_get self.old id.0 ≡ Some (Some node)) }
        ensures node { slice_get self.old id.0 ≡ Some (Some result) }
        ensures ended { self.new ≡ slice_set self.old id.0 None }
    {
        let node = node_at(&self.nodes, id.0);
        self.nodes[id.0 as usize] = None;
        self.free[self.left as usize] = id.0;
        self.left += 1;
        node
    }

    /// The node under an identity that is live.
    pub fn get(&self, id: NodeId) -> &Node
        requires { (node : Node) × (slice_get self.now id.0 ≡ Some (Some node)) }
        ensures { slice_get self.now id.0 ≡ Some (Some result.now) }
    {
        match &self.nodes[id.0 as usize] {
            Some(node) => node,
            None => unreachable!(),
        }
    }

    /// Puts another node under an identity that is live.
    pub fn set(&mut self, id: NodeId, node: Node)
        requires { (old : Node) × (slice_get self.old id.0 ≡ Some (Some old)) }
        ensures { self.new ≡ slice_set self.old id.0 (Some node) }
    {
        self.nodes[id.0 as usize] = Some(node);
    }
}

/// The node at a place that has one.
fn node_at(nodes: &[Option<Node>], place: u32) -> Node
    requires { (node : Node) × (slice_get nodes.now place ≡ Some (Some node)) }
    ensures { slice_get nodes.now place ≡ Some (Some result) }
{
    match nodes[place as usize] {
        Some(node) => node,
        None => unreachable!(),
    }
}

/// The numbers below a bound, in increasing order.
fn numbers_below(alloc: Global, n: u32) -> Result<Vec<u32>, Memory>
    ensures length { IfOk result (λ v. length v.items ≡ n) }
    ensures each { IfOk result (λ v. (k : ℕ) → k < n → slice_index v.items k ≡ k) }
{
    let mut numbers = Vec::with_capacity(alloc, n as usize)?;
    for i in 0..n {
        numbers.push(i)?;
    }
    Ok(numbers)
}
