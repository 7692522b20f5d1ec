//! The position of a `v` line.

ghost use Rattle.std.specs.Prelude.{◌≡◌, Some, None, if◌then◌else◌};
ghost use Rattle.def_text.specs.Decimal.{is_decimal};
ghost use Rattle.qm_obj.specs.Positions.{all_near, coordinate};

use def_text::Micro;
use qm_dec::{DecFail, read_micro};

/// A decimal of a `v` line: its millionths, or that they are out of range.
#[derive(Clone, Copy)]
pub(crate) enum Coordinate {
    Near(Micro),
    Far,
}

/// A number of a `v` line; `None` where the word is no decimal.
pub(crate) fn read_coordinate(word: &[u8]) -> Option<Coordinate>
    ensures { result ≡ (if is_decimal word.now then Some (coordinate word.now) else None) }
{
    match read_micro(word) {
        Ok(number) => Some(Coordinate::Near(number)),
        Err(DecFail::Range) => Some(Coordinate::Far),
        Err(DecFail::Syntax) => None,
    }
}

/// Three coordinates, where none is out of range.
pub(crate) fn read_position(coordinates: &[Coordinate; 3]) -> Option<[Micro; 3]>
    ensures { result ≡ all_near coordinates.now }
{
    match coordinates {
        [
            Coordinate::Near(x),
            Coordinate::Near(y),
            Coordinate::Near(z),
        ] => Some([*x, *y, *z]),
        _ => None,
    }
}
