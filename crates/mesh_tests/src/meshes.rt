//! A cube through all queries.

use qm_mesh::{MeshFail, build};

const CUBE: [[u32; 4]; 6] = [
    [3, 2, 1, 0],
    [4, 5, 6, 7],
    [0, 1, 5, 4],
    [1, 2, 6, 5],
    [2, 3, 7, 6],
    [3, 0, 4, 7],
];

#[test]
fn a_cube_is_a_mesh(rt: HostRuntime) {
    match build(rt.alloc(), 8, &CUBE) {
        Ok(mesh) => {
            let darts = mesh.faces().len() * 4;
            assert_eq!(rt; darts, 24);
            assert_eq!(rt; mesh.vertices(), 8);
            assert!(rt; darts > 13 && mesh.vertices() > 7);
            assert_eq!(rt; mesh.from(13), 2);
            assert_eq!(rt; mesh.to(13), 6);
            assert_eq!(rt; mesh.next(3), 0);
            assert_eq!(rt; mesh.prev(4), 7);
            assert_eq!(rt; mesh.twin(0), Some(16));
            assert_eq!(rt; mesh.straight(0), Some(13));
            assert_eq!(rt; mesh.faces_at(7), 3);
            assert!(rt; mesh.is_inner(7));
            assert_eq!(rt; mesh.fan(0).last().copied(), Some(21));
        }
        Err(fail) => assert_eq!(rt; fail, MeshFail::Memory),
    }
}
