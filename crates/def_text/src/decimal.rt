//! Why a word is no decimal.

use thiserror::Error;

/// Why a word is not read as a decimal.
#[derive(Clone, Copy, Debug, PartialEq, Eq, Error)]
pub enum DecFail {
    #[error("not a decimal")]
    Syntax,
    #[error("number out of range")]
    Range,
}
