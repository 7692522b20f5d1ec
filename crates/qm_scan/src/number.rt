//! Numbers that digits write.

ghost use Rattle.std.specs.Prelude.{◌≡◌, ◌≤◌, ◌-◌, ◌^◌, length, min, Some, None, if◌then◌else◌};
ghost use Rattle.def_text.specs.Digits.{is_number, number_written};

/// The number that digits write, or `u64::MAX` where it is greater; `None` where the word is no number.
pub fn read_number(word: &[u8]) -> Option<u64>
    ensures { result ≡ (if is_number word.now then Some (min (number_written word.now) (2 ^ 64 - 1)) else None) }
{
    if word.len() <= 18 {
        read_short(word)
    } else {
        read_long(word)
    }
}

/// A number that needs no clamp, which is nearly every one.
fn read_short(word: &[u8]) -> Option<u64>
    requires { length word.now ≤ 18 }
    ensures { result ≡ (if is_number word.now then Some (number_written word.now) else None) }
{
    if word.is_empty() {
        return None;
    }
    let mut n: u64 = 0;
    for byte in word {
        if !byte.is_ascii_digit() {
            return None;
        }
        n = n * 10 + u64::from(*byte - b'0');
    }
    Some(n)
}

fn read_long(word: &[u8]) -> Option<u64>
    ensures { result ≡ (if is_number word.now then Some (min (number_written word.now) (2 ^ 64 - 1)) else None) }
{
    if word.is_empty() {
        return None;
    }
    let mut n: u64 = 0;
    for byte in word {
        if !byte.is_ascii_digit() {
            return None;
        }
        n = n.saturating_mul(10).saturating_add(u64::from(*byte - b'0'));
    }
    Some(n)
}
