//! What is wished of a first dual: the prices of the nodes at their copies, and at the units what follows from these.

ghost use Rattle.std.specs.Prelude.{◌≡◌, length, IfOk};
ghost use Rattle.qm_initial.specs.Lowered.{AreNear};

use def_flow::{Arc, End, Gadget, Net};
use qm_initial::MAX_WISH;
use std::alloc::{AllocError, Global};

/// Numbers for the vertices of a matching graph, in order, none too far from 0. Those so far have their wishes, and the
/// others 0.
#[derive(Drop)]
struct Wishes {
    numbers: Vec<i64>,
    next: usize,
    ghost near: { AreNear numbers.items },
}

/// The wishes for the matching graph of a list. Its vertices are the copies of the nodes, then those of the units of
/// the arcs, and then the chain. A copy has the price of its node; a unit takes what its copies leave to it, and with
/// one end no more than its edge to the chain leaves. Linear in the graph.
///
/// Any wish is lawful: a poor one leaves the matching more to do.
pub(crate) fn wishes_of(
    alloc: Global,
    net: &Net,
    gadget: &Gadget,
    prices: &[i64],
) -> Result<Vec<i64>, AllocError>
    ensures long { IfOk result (λ numbers. length numbers.items ≡ gadget.now.graph.n) }
    ensures wishes { IfOk result (λ numbers. AreNear numbers.items) }
{
    let copies = copies_of(alloc, net, gadget)?;
    let numbers = vec![in alloc; 0i64; gadget.graph.n as usize]?;
    let mut wishes = Wishes { numbers, next: 0 };
    put_copies(&mut wishes, &copies, prices);
    for (k, arc) in net.arcs.iter().enumerate() {
        put_units(&mut wishes, net, gadget, k, arc);
    }
    Ok(wishes.numbers)
}

/// How many copies each node has: as many as active ends.
fn copies_of(alloc: Global, net: &Net, gadget: &Gadget) -> Result<Vec<u32>, AllocError> {
    let mut copies = vec![in alloc; 0u32; net.nodes as usize]?;
    for (k, arc) in net.arcs.iter().enumerate() {
        let cap = cap_at(gadget, k);
        let down = cap.saturating_sub(2);
        count_active(&mut copies, &arc.left, down, cap - down);
        if let Some(right) = &arc.right {
            count_active(&mut copies, right, down, cap - down);
        }
    }
    Ok(copies)
}

/// How many units an arc has.
fn cap_at(gadget: &Gadget, k: usize) -> u32 {
    gadget.cap.get(k).copied().unwrap_or(0)
}

/// Counts the active ends of an arc's units at one node: an end with a plus is active where the unit is on.
fn count_active(copies: &mut [u32], end: &End, on: u32, off: u32) {
    if let Some(many) = copies.get_mut(end.node as usize) {
        *many = many.saturating_add(if end.plus { on } else { off });
    }
}

/// The prices of the nodes, at their copies.
fn put_copies(wishes: &mut Wishes, copies: &[u32], prices: &[i64])
    ensures { length wishes.new.numbers.items ≡ length wishes.old.numbers.items }
{
    for (node, many) in copies.iter().enumerate() {
        let price = prices.get(node).copied().unwrap_or(0);
        for _ in 0..*many {
            put(wishes, price);
        }
    }
}

/// The wishes for the units of an arc.
fn put_units(wishes: &mut Wishes, net: &Net, gadget: &Gadget, k: usize, arc: &Arc)
    ensures { length wishes.new.numbers.items ≡ length wishes.old.numbers.items }
{
    let most = MAX_WISH as i64;
    let mut lower = gadget.low.get(k).copied().unwrap_or(0);
    for _ in 0..cap_at(gadget, k) {
        let upper = lower.saturating_add(gadget.step);
        match &arc.right {
            Some(right) => {
                put(wishes, most);
                if right.plus == arc.left.plus {
                    put(wishes, most);
                }
            }
            None => {
                let most_alone = if arc.left.plus {
                    0
                } else {
                    twice_the_rise(net, arc, lower, upper)
                };
                put(wishes, most_alone);
                put(wishes, 0);
            }
        }
        lower = upper;
    }
}

/// Twice what an arc's deviation rises by from one length to the next, as far as a wish goes.
fn twice_the_rise(net: &Net, arc: &Arc, lower: u64, upper: u64) -> i64 {
    let from = deviation_at(net, arc, lower);
    let to = deviation_at(net, arc, upper);
    let much = from.abs_diff(to).saturating_mul(2).min(MAX_WISH) as i64;
    if from <= to { much } else { -much }
}

/// How far an arc of this length is from what is wanted, as far as the type goes.
fn deviation_at(net: &Net, arc: &Arc, length: u64) -> u64 {
    let wanted = u64::from(net.p) * u64::from(arc.old);
    let far = u64::from(net.q).saturating_mul(length).abs_diff(wanted);
    u64::from(arc.weight).saturating_mul(far)
}

/// The wish of the next vertex, or the nearest that may be wished.
fn put(wishes: &mut Wishes, wish: i64)
    ensures { length wishes.new.numbers.items ≡ length wishes.old.numbers.items }
{
    let most = MAX_WISH as i64;
    if wishes.next < wishes.numbers.len() {
        wishes.numbers[wishes.next] = wish.max(-most).min(most);
        wishes.next += 1;
    }
}
