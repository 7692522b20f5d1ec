//! The size of a decimal in millionths, or the least size that is out of range.
ghost use Rattle.std.specs.Prelude.{◌≡◌, ◌≤◌, ◌+◌, ◌*◌, ◌-◌, ◌^◌, ◌++◌, ◌<◌, pos, negsuc, ◌-ℤ◌, IsTrue, length, map};
ghost use Rattle.std.specs.Prelude.{slice_index, take};
ghost use Rattle.std.specs.Char.{is_ascii_digit};
ghost use Rattle.std.specs.Int.Digits.{number_from_digits_after};
ghost use Rattle.std.specs.List.{list_all};
ghost use Rattle.def_text.specs.Decimal.{scaled};
ghost use Rattle.def_text.specs.Digits.{number_written};
ghost use Rattle.qm_dec.specs.Sizes.{clamped};

/// The least number of millionths that is out of range.
pub(crate) const FAR: u64 = 1_000_000_000_000_000;

/// The size of the digits before and behind the point times 10^up / 10^down.
pub(crate) fn size_of(whole: &[u8], fraction: &[u8], up: u32, down: u32) -> u64
    requires whole { IsTrue (list_all is_ascii_digit whole.now) }
    requires fraction { IsTrue (list_all is_ascii_digit fraction.now) }
    requires short { length whole.now + length fraction.now ≤ 64 }
    ensures { result ≡ clamped (scaled (number_written (whole.now ++ fraction.now)) (pos up -ℤ pos down)) }
{
    if down <= up {
        let digits = number_after(number_after(0, whole), fraction);
        return times_power(digits, up - down);
    }
    round_at(whole, fraction, down - up)
}

/// The number that more digits make of one.
pub(crate) fn number_after(value: u64, digits: &[u8]) -> u64
    requires small { value ≤ 10 ^ 15 }
    requires digits { IsTrue (list_all is_ascii_digit digits.now) }
    ensures { result ≡ clamped (number_from_digits_after 10 value (map (λ digit. digit - 48) digits.now)) }
{
    let mut value = value;
    for digit in digits {
        value = (value * 10 + u64::from(*digit - b'0')).min(FAR);
    }
    value
}

/// A number times a power of ten.
#[tactic(auto, using(crate::proofs::Digits::ten_power))]
fn times_power(value: u64, power: u32) -> u64
    requires { value ≤ 10 ^ 15 }
    ensures { result ≡ clamped (value * 10 ^ power) }
{
    let mut value = value;
    let mut power = power;
    while power > 0 && value > 0 && value < FAR {
        value = (value * 10).min(FAR);
        power -= 1;
    }
    value
}

/// The digits without the last ones, one more where the first of these is 5 or above.
fn round_at(whole: &[u8], fraction: &[u8], last: u32) -> u64
    requires whole { IsTrue (list_all is_ascii_digit whole.now) }
    requires fraction { IsTrue (list_all is_ascii_digit fraction.now) }
    requires short { length whole.now + length fraction.now ≤ 64 }
    requires some { 1 ≤ last }
    ensures { result ≡ clamped (scaled (number_written (whole.now ++ fraction.now)) (negsuc (last - 1))) }
{
    let count = whole.len() + fraction.len();
    let last = last as usize;
    if last > count {
        return 0;
    }
    let kept = count - last;
    let value = first_digits(whole, fraction, kept);
    if digit_at(whole, fraction, kept) < b'5' {
        value
    } else {
        (value + 1).min(FAR)
    }
}

/// The number that the first digits of the two runs make.
#[tactic(auto, using(crate::proofs::Digits::digits_split))]
fn first_digits(whole: &[u8], fraction: &[u8], kept: usize) -> u64
    requires whole { IsTrue (list_all is_ascii_digit whole.now) }
    requires fraction { IsTrue (list_all is_ascii_digit fraction.now) }
    requires kept { kept ≤ length whole.now + length fraction.now }
    ensures { result ≡ clamped (number_written (take kept (whole.now ++ fraction.now))) }
{
    if kept <= whole.len() {
        return number_after(0, &whole[..kept]);
    }
    number_after(number_after(0, whole), &fraction[..kept - whole.len()])
}

fn digit_at(whole: &[u8], fraction: &[u8], i: usize) -> u8
    requires { i < length whole.now + length fraction.now }
    ensures { result ≡ slice_index (whole.now ++ fraction.now) i }
{
    if i < whole.len() {
        whole[i]
    } else {
        fraction[i - whole.len()]
    }
}
