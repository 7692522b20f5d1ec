//! Reading OBJ text into a soup, line by line or in pieces, and writing the canonical text.
#![tactic(auto)]

mod corner;
mod feed;
mod joiner;
mod joining;
mod law;
mod line;
mod piece;
mod position;
mod progress;
mod read;
mod reader;
mod row;
mod soup;
mod text;
mod used;
mod words;

pub use corner::read_index;
pub use def_text::{Index, Micro, ObjFail, Soup, SoupFail, Which};
pub use feed::ObjFeed;
pub use joining::logical;
pub use law::reads_back;
pub use piece::Logical;
pub use read::read_obj;
pub use soup::read_soup;
pub use text::{obj_text, put_face, put_position, put_soup};
pub use used::soup_of;

/// Want of memory.
pub type Memory = std::alloc::AllocError;
