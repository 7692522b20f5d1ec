//! The arcs in order of their names, and where each use of an arc begins.

ghost use Rattle.std.specs.Prelude.{map, IfOk};
ghost use Rattle.def_mesh.specs.Darts.{darts};
ghost use Rattle.def_layout.specs.Arcs.{path};
ghost use Rattle.qm_tmesh.specs.Tables.{IsMarked, AreStarts};
ghost use Rattle.qm_tmesh.specs.Arcs.{IsArcFrom, AreArcsBelow};

use crate::nodes::Nodes;
use crate::runs::{Start, run};
use def_layout::TArc;
use qm_mesh::Mesh;
use std::alloc::{AllocError, Global};

/// All arcs. Linear in the darts.
pub(crate) fn arcs(
    alloc: Global,
    mesh: &Mesh,
    cut: &[bool],
    nodes: &Nodes,
    starts: &[u32],
) -> Result<Vec<TArc>, AllocError>
    requires marked { IsMarked mesh.now cut.now nodes.now.marks.items }
    requires starts { AreStarts mesh.now cut.now (darts mesh.now) starts.now }
    ensures { IfOk result (λ arcs.
        AreArcsBelow mesh.now cut.now nodes.now.listed.list.items (darts mesh.now) (map path arcs.items)) }
{
    let mut arcs = Vec::new(alloc);
    for start in starts {
        if *start as usize != cut.len() {
            let begin = Start {
                mesh,
                cut,
                dart: *start,
            };
            let arc = arc_from(alloc, &begin, nodes)?;
            arcs.push(arc)?;
        }
    }
    Ok(arcs)
}

/// The arc of the run that begins there.
fn arc_from(alloc: Global, start: &Start, nodes: &Nodes) -> Result<TArc, AllocError>
    requires marked { IsMarked start.now.mesh.now start.now.cut.now nodes.now.marks.items }
    ensures { IfOk result (λ arc. IsArcFrom start.now.mesh.now start.now.cut.now
        nodes.now.listed.list.items start.now.dart (path arc)) }
{
    let darts = run(alloc, start, &nodes.marks)?;
    let end = darts[darts.len() - 1];
    let first = nodes.listed.places[start.mesh.from(start.dart) as usize];
    let last = nodes.listed.places[start.mesh.to(end) as usize];
    Ok(TArc { first, last, darts })
}
