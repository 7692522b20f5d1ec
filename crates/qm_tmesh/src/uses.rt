//! Where each use of an arc begins: forward with its first dart, against it with the twin of its last one.

ghost use Rattle.std.specs.Prelude.{◌≤◌, length, map, IfOk};
ghost use Rattle.def_mesh.specs.Darts.{darts};
ghost use Rattle.def_layout.specs.Arcs.{path};
ghost use Rattle.qm_tmesh.specs.Tables.{IsMarked};
ghost use Rattle.qm_tmesh.specs.Uses.{AreNamed, HasUsesBelow};

use def_layout::{SideArc, TArc};
use qm_mesh::Mesh;
use std::alloc::{AllocError, Global};

/// The use that begins with each dart. Linear in the darts.
pub(crate) fn uses(
    alloc: Global,
    mesh: &Mesh,
    cut: &[bool],
    nodes: &[bool],
    arcs: &[TArc],
) -> Result<Vec<SideArc>, AllocError>
    requires marked { IsMarked mesh.now cut.now nodes.now }
    requires arcs { AreNamed mesh.now cut.now (map path arcs.now) }
    requires few { length arcs.now ≤ darts mesh.now }
    ensures { IfOk result (λ uses. HasUsesBelow mesh.now (map path arcs.now) (length arcs.now) uses.items) }
{
    let none = SideArc {
        arc: 0,
        forward: true,
    };
    let mut uses = vec![in alloc; none; cut.len()]?;
    for (a, arc) in arcs.iter().enumerate() {
        let first = arc.darts[0];
        let last = arc.darts[arc.darts.len() - 1];
        uses[first as usize] = SideArc {
            arc: a as u32,
            forward: true,
        };
        if let Some(t) = mesh.twin(last) {
            uses[t as usize] = SideArc {
                arc: a as u32,
                forward: false,
            };
        }
    }
    Ok(uses)
}
