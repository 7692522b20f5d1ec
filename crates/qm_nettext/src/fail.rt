//! Why no network was read.

use std::alloc::AllocError;

/// Why a text gave no network.
#[derive(Debug, Drop, thiserror::Error)]
pub enum NetFail {
    /// It is not the text of a network.
    #[error("no network")]
    NoNetwork,
    /// Memory was refused.
    #[error("memory")]
    Memory(#[from] AllocError),
}
