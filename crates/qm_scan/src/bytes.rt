//! Bytes of a text by their positions.

ghost use Rattle.std.specs.Prelude.{◌≡◌, ◌≤◌, ◌==◌, drop, length};
ghost use Rattle.std.specs.List.{position_or_len};

/// The position of the first such byte, or the length. Linear.
pub fn find_byte(text: &[u8], wanted: u8) -> usize
    ensures exact { result ≡ position_or_len (λ byte. byte == wanted) text.now }
    ensures within { result ≤ length text.now }
{
    for (i, byte) in text.iter().enumerate() {
        if *byte == wanted {
            return i;
        }
    }
    text.len()
}

/// The text without its first byte.
pub fn behind_first(text: &[u8]) -> &[u8]
    ensures { result.now ≡ drop 1 text.now }
{
    match text {
        [] => text,
        [_, rest @ ..] => rest,
    }
}
