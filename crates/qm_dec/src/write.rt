//! The canonical text of a number of millionths.

ghost use Rattle.std.specs.Prelude.{◌≡◌, ◌≤◌, ◌<◌, ◌+◌, ◌^◌, ◌++◌, length, take};
ghost use Rattle.def_text.specs.Canonical.{fraction_text, micro_text, minus_text, six_digits, without_zeros};

use def_text::Micro;
use itoa::Buffer;
use qm_scan::behind_first;

/// Writes the text at the front of `out` and tells its length, at most 17.
#[tactic(auto, using(crate::proofs::ReadBack::whole_short, crate::proofs::ReadBack::fraction_short))]
pub fn write_micro(out: &mut [u8; 24], m: Micro) -> usize
    ensures short { result ≤ 17 }
    ensures text { take result out.new ≡ micro_text m }
{
    let size = m.n.unsigned_abs();
    let mut buffer = Buffer::new();
    let sign = write_sign(out, m);
    let whole = put(out, sign, buffer.format(size / 1_000_000).as_bytes());
    write_fraction(out, whole, size % 1_000_000)
}

#[tactic(auto, using(crate::proofs::ReadBack::first_of_write))]
fn write_sign(out: &mut [u8], m: Micro) -> usize
    requires { 1 ≤ length out.old }
    ensures short { result ≤ 1 }
    ensures text { take result out.new ≡ minus_text m }
{
    if m.n < 0 {
        out[0] = b'-';
        return 1;
    }
    0
}

/// Writes the point and the digits behind it.
fn write_fraction(out: &mut [u8], at: usize, rest: u64) -> usize
    requires room { at + 7 ≤ length out.old }
    requires small { rest < 10 ^ 6 }
    ensures end { result ≡ at + length (fraction_text rest) }
    ensures text { take result out.new ≡ take at out.old ++ fraction_text rest }
{
    if rest == 0 {
        return at;
    }
    let mut buffer = Buffer::new();
    let point = put(out, at, b".");
    put(out, point, strip_zeros(six_digits(&mut buffer, rest)))
}

fn six_digits(buffer: &mut Buffer, rest: u64) -> &[u8]
    requires { rest < 10 ^ 6 }
    ensures { result.now ≡ six_digits rest }
{
    behind_first(buffer.format(1_000_000 + rest).as_bytes())
}

/// Writes the piece from `at` on and tells where it ends.
fn put(out: &mut [u8], at: usize, piece: &[u8]) -> usize
    requires { at + length piece.now ≤ length out.old }
    ensures end { result ≡ at + length piece.now }
    ensures text { take result out.new ≡ take at out.old ++ piece.now }
{
    let end = at + piece.len();
    out[at..end].copy_from_slice(piece);
    end
}

#[tactic(auto, using(crate::proofs::ReadBack::trims))]
fn strip_zeros(digits: &[u8]) -> &[u8]
    ensures { result.now ≡ without_zeros digits.now }
{
    let mut left = digits;
    while let [prefix @ .., b'0'] = left {
        left = prefix;
    }
    left
}
