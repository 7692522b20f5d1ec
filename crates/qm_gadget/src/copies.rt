//! The copies of the nodes, which are the first vertices of a matching graph.

ghost use Rattle.std.specs.Prelude.{◌≡◌, ◌+◌, ◌^◌, ◌<◌, length, IfOk};
ghost use Rattle.def_math.specs.Counts.{count_below};
ghost use Rattle.qm_gadget.specs.Layout.{copies_in, AreFirsts};

use std::alloc::{AllocError, Global};

/// How many copies each node has, and the first of them. They stand in a row, in order of the nodes.
#[derive(Drop)]
pub(crate) struct Copies {
    pub counts: Vec<u32>,
    pub firsts: Vec<u32>,
    ghost laid_out: { AreFirsts counts.items firsts.items },
}

impl Copies {
    /// The copies, by how many each node has. Linear in the nodes.
    pub(crate) fn new(alloc: Global, counts: Vec<u32>) -> Result<Self, AllocError>
        requires { count_below (copies_in counts.items) (length counts.items) < 2 ^ 26 }
        ensures { IfOk result (λ copies. copies.counts.items ≡ counts.items) }
    {
        let firsts = first_copies(alloc, &counts)?;
        Ok(Copies { counts, firsts })
    }
}

/// The first copy of each node, and past the last node the number of all copies.
#[tactic(auto, using(table_laws::proofs::Ranges::part_low))]
fn first_copies(alloc: Global, counts: &[u32]) -> Result<Vec<u32>, AllocError>
    requires { count_below (copies_in counts.now) (length counts.now) < 2 ^ 26 }
    ensures { IfOk result (λ firsts. AreFirsts counts.now firsts.items) }
{
    let mut firsts = Vec::with_capacity(alloc, counts.len() + 1)?;
    let mut copies = 0u32;
    for count in counts {
        firsts.push(copies)?;
        copies += *count;
    }
    firsts.push(copies)?;
    Ok(firsts)
}

/// How many copies there are.
pub(crate) fn all_copies(copies: &Copies) -> u32
    ensures value { result ≡ count_below (copies_in copies.now.counts.items) (length copies.now.counts.items) }
    ensures few { result < 2 ^ 26 }
{
    copies.firsts[copies.counts.len()]
}
