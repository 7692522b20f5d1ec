//! The commands and their limits.

use def_fit::Fit;
use def_flow::Settings;
use def_patches::{Keep, Patches};
use def_text::Micro;

/// The greatest multiple of `refine` and `blocks`.
pub const MAX_MULTIPLE: u32 = 1000;

/// The greatest size of `bench`.
pub const MAX_SIZE: u32 = 10_000;

/// More bytes than any word of an accepted line has.
pub const MAX_WORD: usize = 256;

/// `=`, between the name of an option and its value.
pub const EQUALS: u8 = b'=';

/// What a command line asks for.
#[derive(Clone, Copy, Debug, PartialEq, Eq)]
pub enum Command {
    Tidy,
    Graph,
    /// Each length is this multiple of the old one.
    Refine {
        by: u32,
    },
    /// With `auto` the floor of the settings is 1, and rises where it must.
    Remesh {
        settings: Settings,
        auto: bool,
    },
    Check,
    Bench {
        size: u32,
    },
    /// The edges that `l` lines mark are kept in the cut.
    Crease {
        settings: Settings,
    },
    /// Edges of this length are wanted, and no arc shorter than the floor.
    Size {
        edge: Micro,
        floor: u32,
    },
    /// The patches are merged first.
    Coarse {
        settings: Settings,
    },
    /// The patches are told as blocks, at this multiple of the old lengths.
    Blocks {
        by: u32,
    },
    /// Each vertex and each face of a new mesh is told by where it lies in the old one.
    Map,
    /// The cut, the aim and the weights are chosen one by one.
    Fit {
        fit: Fit,
    },
    /// The layout of a chosen cut is told, with all vertices of its arcs.
    LayOut {
        keep: Keep,
        patches: Patches,
    },
    /// The patches of a chosen cut are told as blocks, at this multiple of the old lengths.
    Grids {
        keep: Keep,
        patches: Patches,
        by: u32,
    },
}
