//! One run of the cut, from a node to the next one.

ghost use Rattle.std.specs.Prelude.{◌≡◌, ◌<◌, true, length, IfOk};
ghost use Rattle.def_mesh.specs.Darts.{darts, from_of};
ghost use Rattle.def_mesh.specs.HalfEdges.{half_edges};
ghost use Rattle.def_cut.specs.FullCut.{is_on};
ghost use Rattle.def_layout.specs.Arcs.{IsRun};
ghost use Rattle.def_layout.specs.Nodes.{is_node};
ghost use Rattle.layout_laws.specs.Named.{run_list};
ghost use Rattle.qm_tmesh.specs.Tables.{IsMarked};

use qm_mesh::Mesh;
use std::alloc::{AllocError, Global};

/// A dart of a cut that begins at a node.
#[derive(Clone, Copy)]
pub(crate) struct Start<'a> {
    pub(crate) mesh: &'a Mesh,
    pub(crate) cut: &'a [bool],
    pub(crate) dart: u32,
    pub(crate) ghost low: { dart < darts mesh.now },
    pub(crate) ghost on: { is_on cut.now dart ≡ true },
    pub(crate) ghost begins: { is_node mesh.now cut.now (from_of mesh.now dart) ≡ true },
}

/// The darts of the run that begins there.
pub(crate) fn run(alloc: Global, start: &Start, nodes: &[bool]) -> Result<Vec<u32>, AllocError>
    requires marked { IsMarked start.now.mesh.now start.now.cut.now nodes.now }
    ensures run { IfOk result (λ ds. IsRun (half_edges start.now.mesh.now) (is_on start.now.cut.now)
        (is_node start.now.mesh.now start.now.cut.now) start.now.dart (length ds.items)) }
    ensures darts { IfOk result (λ ds.
        ds.items ≡ run_list (half_edges start.now.mesh.now) start.now.dart (length ds.items)) }
{
    let mut darts = Vec::new(alloc);
    let mut d = start.dart;
    'steps: for _ in 0..start.cut.len() {
        darts.push(d)?;
        if nodes[start.mesh.to(d) as usize] {
            return Ok(darts);
        }
        d = start.mesh.straight(d).unwrap();
    }
    unreachable!()
}
