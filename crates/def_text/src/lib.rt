//! The text of a mesh: what its lines say, the soup that it has or its first refusal, and the canonical text.
#![tactic(auto)]

mod decimal;
mod index;
mod letters;
mod limits;
mod micro;
mod reading;
mod refusal;
mod soup;

pub use decimal::DecFail;
pub use index::Index;
pub use letters::{
    BACKSLASH, FACE, HASH, LARGE_E, MINUS, PLUS, POINT, SLASH, SMALL_E, SPACE, TAB, VERTEX, ZERO,
};
pub use limits::{MAX_BYTES, MAX_DECIMAL, MAX_F_LINES, MAX_LINE, MAX_MICRO, MAX_PART, MAX_V_LINES};
pub use micro::Micro;
pub use reading::Reading;
pub use refusal::{ObjFail, SoupFail, Which};
pub use soup::Soup;
