//! Lines of words and numbers at the end of a text.

ghost use Rattle.std.specs.Prelude.{◌≡◌, ◌++◌, OnOk, decimal};
ghost use Rattle.std.specs.Fmt.{signed_decimal};
ghost use Rattle.def_report.specs.GraphText.{numbers_line, numbers_text};

use crate::Memory;
use def_io::LINE_FEED;
use qm_print::{push_number, push_signed, push_spaced};

/// Puts a line of a word and numbers at the end of a text.
pub(crate) fn push_line(text: &mut Vec<u8>, word: &[u8], numbers: &[u64]) -> Result<(), Memory>
    ensures { OnOk result (text.new.items ≡ text.old.items ++ numbers_line word.now numbers.now) }
{
    text.extend_from_slice(word)?;
    push_numbers(text, numbers)?;
    text.push(LINE_FEED)?;
    Ok(())
}

/// Puts numbers, each after a space, at the end of a text.
pub(crate) fn push_numbers(text: &mut Vec<u8>, numbers: &[u64]) -> Result<(), Memory>
    ensures { OnOk result (text.new.items ≡ text.old.items ++ numbers_text numbers.now) }
{
    for number in numbers {
        push_spaced(text, *number)?;
    }
    Ok(())
}

/// Puts a name and a count at the end of a text.
pub(crate) fn push_count(text: &mut Vec<u8>, name: &[u8], count: u32) -> Result<(), Memory>
    ensures { OnOk result (text.new.items ≡ text.old.items ++ name.now ++ decimal count) }
{
    text.extend_from_slice(name)?;
    push_number(text, u64::from(count))
}

/// Puts a name and a whole number, which may be below 0, at the end of a text.
pub(crate) fn push_named(text: &mut Vec<u8>, name: &[u8], number: i128) -> Result<(), Memory>
    ensures { OnOk result (text.new.items ≡ text.old.items ++ name.now ++ signed_decimal number) }
{
    text.extend_from_slice(name)?;
    push_signed(text, number)
}
