//! The blocks of a mesh.

ghost use Rattle.std.specs.Prelude.{◌≡◌, length, None};

use def_blocks::Link;
use def_cuttext::Chosen;
use qm_stages::Regridded;

/// The blocks of a mesh: how its cut was chosen, if it was, how many parts each old edge has, the new mesh of their
/// points, which are evenly spaced, and the links of each block.
#[derive(Drop)]
pub struct Blocks {
    pub chosen: Option<Chosen>,
    pub by: u32,
    pub points: Regridded,
    pub links: Vec<Vec<Link>>,
    pub ghost linked: { length links.items ≡ length points.layout.patches },
    pub ghost even: { points.shares ≡ None },
}
