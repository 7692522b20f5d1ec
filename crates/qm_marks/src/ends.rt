//! The dart that runs between two vertices. Where few faces meet at a vertex, its darts are looked at one after
//! another, and elsewhere it is found in a table of ends that is sorted once.

ghost use Rattle.std.specs.Prelude.{◌≡◌, ◌≢◌, ◌<◌, ◌+◌, ◌*◌, ◌^◌, None, ℕ, IfOk, IfSome};
ghost use Rattle.std.specs.Prelude.{filter, false, length, map, nat_lt, true};
ghost use Rattle.std.specs.List.Sorted.{IsNonDecreasing, IsPermutation};
ghost use Rattle.def_marks.specs.Chains.{is_edge, runs_between};
ghost use Rattle.def_mesh.specs.Darts.{all_darts, darts, from_of, to_of};
ghost use Rattle.def_mesh.specs.Vertices.{faces_at, vertex_count};
ghost use Rattle.qm_marks.specs.Keys.{AreEnds, IsBetween, IsLeastPlace, IsNoneBetween};
ghost use Rattle.qm_marks.specs.Keys.{dart_key, is_busy as is_busy_at, key_of};

use crate::Memory;
use qm_mesh::Mesh;
use std::alloc::Global;

/// So many faces at a vertex are few.
pub(crate) const FEW: u32 = 16;

/// The number of keys for each second end, and of second ends for each first one.
const SPAN: u128 = 4_294_967_296;

/// The keys of the darts that leave vertices with more than a few faces, in rising order. n log n in these darts, and
/// linear in all.
pub(crate) fn sorted_ends(alloc: Global, mesh: &Mesh) -> Result<Vec<u128>, Memory>
    ensures { IfOk result (λ keys. AreEnds mesh.now FEW keys.items) }
{
    let _known = mesh.faces();
    let mut keys = busy_keys(alloc, mesh)?;
    sort(&mut keys);
    Ok(keys)
}

/// The keys of the darts that leave vertices with more than a few faces.
fn busy_keys(alloc: Global, mesh: &Mesh) -> Result<Vec<u128>, Memory>
    ensures { IfOk result (λ keys.
        keys.items ≡ map (dart_key mesh.now) (filter (is_busy_at mesh.now FEW) (all_darts mesh.now))) }
{
    let mut keys = Vec::new(alloc);
    for d in 0..4 * mesh.faces().len() as u32 {
        if is_busy(mesh, d) {
            keys.push(key_for(mesh.from(d), mesh.to(d), d))?;
        }
    }
    Ok(keys)
}

/// Whether more than a few faces meet where d begins.
fn is_busy(mesh: &Mesh, d: u32) -> bool
    requires { d < darts mesh.now }
    ensures { result ≡ is_busy_at mesh.now FEW d }
{
    mesh.faces_at(mesh.from(d)) > FEW
}

/// The key of a dart by its ends, so that darts with the same ends stand together.
fn key_for(from: u32, to: u32, d: u32) -> u128
    ensures { result ≡ key_of from to d }
{
    (u128::from(from) * SPAN + u128::from(to)) * SPAN + u128::from(d)
}

/// Sorts keys.
fn sort(keys: &mut Vec<u128>)
    ensures moved { IsPermutation keys.old.items keys.new.items }
    ensures rising { IsNonDecreasing keys.new.items }
{
    keys.sort_unstable();
}

/// A dart that runs between u and v, from either.
pub(crate) fn edge_dart(mesh: &Mesh, keys: &[u128], u: u32, v: u32) -> Option<u32>
    requires { AreEnds mesh.now FEW keys.now }
    ensures some { IfSome result (λ d. (d < darts mesh.now) × (runs_between mesh.now u v d ≡ true)) }
    ensures none { result ≡ None → is_edge mesh.now u v ≡ false }
{
    match dart_between(mesh, keys, u, v) {
        Some(d) => Some(d),
        None => dart_between(mesh, keys, v, u),
    }
}

/// The dart from u to v.
fn dart_between(mesh: &Mesh, keys: &[u128], u: u32, v: u32) -> Option<u32>
    requires { AreEnds mesh.now FEW keys.now }
    ensures some { IfSome result (IsBetween mesh.now u v) }
    ensures none { result ≡ None → IsNoneBetween mesh.now u v }
{
    if u >= mesh.vertices() {
        return None;
    }
    if mesh.faces_at(u) > FEW {
        dart_in_table(mesh, keys, u, v)
    } else {
        dart_in_fan(mesh, u, v)
    }
}

/// The dart from u to v, of those that leave u.
fn dart_in_fan(mesh: &Mesh, u: u32, v: u32) -> Option<u32>
    requires { u < vertex_count mesh.now }
    ensures some { IfSome result (IsBetween mesh.now u v) }
    ensures none { result ≡ None → IsNoneBetween mesh.now u v }
{
    let _known = mesh.faces();
    for d in mesh.fan(u) {
        if mesh.to(*d) == v {
            return Some(*d);
        }
    }
    None
}

/// The dart from u to v, where more than a few faces meet at u. Logarithmic.
fn dart_in_table(mesh: &Mesh, keys: &[u128], u: u32, v: u32) -> Option<u32>
    requires ends { AreEnds mesh.now FEW keys.now }
    requires busy { nat_lt FEW (faces_at mesh.now u) ≡ true }
    ensures some { IfSome result (IsBetween mesh.now u v) }
    ensures none { result ≡ None → IsNoneBetween mesh.now u v }
{
    let _known = mesh.faces();
    let _count = mesh.vertices();
    let key = key_for(u, v, 0);
    let place = place_of(keys, key);
    if place < keys.len() && keys[place] / SPAN == key / SPAN {
        Some((keys[place] % SPAN) as u32)
    } else {
        None
    }
}

/// The place of the least key that is not below this one, or that of the end where there is none. Logarithmic.
fn place_of(keys: &[u128], key: u128) -> usize
    requires { IsNonDecreasing keys.now }
    ensures { IsLeastPlace keys.now key result }
{
    match keys.binary_search(&key) {
        Ok(place) => place,
        Err(place) => place,
    }
}
