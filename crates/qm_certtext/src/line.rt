//! One line of a certificate.

ghost use Rattle.std.specs.Prelude.{◌≡◌, ◌∷◌, MatchOption};
ghost use Rattle.def_certtext.specs.Reading.{may_name, Says};
ghost use Rattle.def_certtext.specs.declared.CertLine.{CertLine as AnyLine};
ghost use Rattle.def_certtext.specs.declared.certs.Rising.{Rising as AnyRising};

use crate::numbers::{read_count, read_numbered, read_rise};
use def_certtext::{CertLine, DUAL_VERTEX, FLOOR, LENGTH, RISE, Rising, SET};
use def_flow::MAX_LENGTH;
use def_text::{HASH, SPACE};

/// What a line says, where it is a certificate line and floors rise so.
pub(crate) fn read_line(line: &[u8], rising: Rising) -> Option<CertLine>
    ensures { MatchOption result ((said : AnyLine) → ¬ Says rising line.now said) (Says rising line.now) }
{
    match line {
        [b'#', letter, b' ', rest @ ..] => read_kind(*letter, rest, rising),
        _ => None,
    }
}

/// The same of a line with this letter and this rest.
fn read_kind(letter: u8, rest: &[u8], rising: Rising) -> Option<CertLine>
    ensures { MatchOption result
        ((said : AnyLine) → ¬ Says rising (HASH ∷ letter ∷ SPACE ∷ rest.now) said)
        (Says rising (HASH ∷ letter ∷ SPACE ∷ rest.now)) }
{
    match letter {
        LENGTH => read_length(rest),
        DUAL_VERTEX => read_vertex(rest),
        SET => read_set(rest),
        FLOOR => read_floor(rest, rising),
        RISE => read_raised(rest, rising),
        _ => None,
    }
}

fn read_length(rest: &[u8]) -> Option<CertLine>
    ensures { (rising : AnyRising) → MatchOption result
        ((said : AnyLine) → ¬ Says rising (HASH ∷ LENGTH ∷ SPACE ∷ rest.now) said)
        (Says rising (HASH ∷ LENGTH ∷ SPACE ∷ rest.now)) }
{
    match read_count(rest, MAX_LENGTH) {
        Some(n) => Some(CertLine::Length { n }),
        None => None,
    }
}

fn read_vertex(rest: &[u8]) -> Option<CertLine>
    ensures { (rising : AnyRising) → MatchOption result
        ((said : AnyLine) → ¬ Says rising (HASH ∷ DUAL_VERTEX ∷ SPACE ∷ rest.now) said)
        (Says rising (HASH ∷ DUAL_VERTEX ∷ SPACE ∷ rest.now)) }
{
    match read_numbered(rest) {
        Some(read) => Some(CertLine::Vertex {
            number: read.number,
            up: read.up,
        }),
        None => None,
    }
}

fn read_set(rest: &[u8]) -> Option<CertLine>
    ensures { (rising : AnyRising) → MatchOption result
        ((said : AnyLine) → ¬ Says rising (HASH ∷ SET ∷ SPACE ∷ rest.now) said)
        (Says rising (HASH ∷ SET ∷ SPACE ∷ rest.now)) }
{
    match read_numbered(rest) {
        Some(read) => Some(CertLine::Set {
            number: read.number,
            up: read.up,
        }),
        None => None,
    }
}

/// A floor, which is named in a text of `auto` alone.
fn read_floor(rest: &[u8], rising: Rising) -> Option<CertLine>
    ensures { MatchOption result
        ((said : AnyLine) → ¬ Says rising (HASH ∷ FLOOR ∷ SPACE ∷ rest.now) said)
        (Says rising (HASH ∷ FLOOR ∷ SPACE ∷ rest.now)) }
{
    match read_count(rest, 3) {
        Some(floor) if may_name(rising, floor as u32) => Some(CertLine::Floor {
            floor: floor as u32,
        }),
        _ => None,
    }
}

/// Whether a line may name this floor where floors rise so.
fn may_name(rising: Rising, floor: u32) -> bool
    ensures { result ≡ may_name rising floor }
{
    match rising {
        Rising::Never => false,
        Rising::Third => floor == 1 || floor == 3,
        Rising::Rounds => floor == 1,
    }
}

/// The floor of an arc that rises, where floors rise in rounds.
fn read_raised(rest: &[u8], rising: Rising) -> Option<CertLine>
    ensures { MatchOption result
        ((said : AnyLine) → ¬ Says rising (HASH ∷ RISE ∷ SPACE ∷ rest.now) said)
        (Says rising (HASH ∷ RISE ∷ SPACE ∷ rest.now)) }
{
    if rising != Rising::Rounds {
        return None;
    }
    match read_rise(rest) {
        Some(rise) => Some(CertLine::Rise { rise }),
        None => None,
    }
}
