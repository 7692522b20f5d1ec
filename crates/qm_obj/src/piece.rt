//! A logical line, and where the next one begins.

/// The bytes that are left to read of a logical line, and the first physical line that is not joined to it.
#[derive(Drop)]
pub struct Logical {
    pub bytes: Vec<u8>,
    pub next: u32,
}
