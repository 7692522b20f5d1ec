//! The lines of a certificate.

ghost use Rattle.std.specs.Prelude.{◌≡◌, ◌++◌, ◌∷◌, [], decimal, length, map, IfOk, OnOk};
ghost use Rattle.def_certtext.specs.CertLines.{
  cert_lines,
  dual_line,
  line_text,
  lists_of,
  dual_lines,
  text_of,
  HasUps,
};
ghost use Rattle.def_certtext.specs.declared.CertLine.TheVariants.{Length, Rise as RiseLine, Set, Vertex};

use crate::Memory;
use def_certtext::{CertLine, DUAL_VERTEX, FLOOR, LENGTH, RISE, Rise, SET};
use def_flow::Cert;
use def_io::LINE_FEED;
use def_text::{HASH, SPACE};
use qm_print::{push_number, push_signed, push_spaced};
use std::alloc::Global;

/// The lines of a certificate: its lengths, the numbers of its vertices, those of its sets. Linear.
pub fn cert_text(alloc: Global, cert: &Cert) -> Result<Vec<u8>, Memory>
    requires { HasUps (lists_of cert.now) }
    ensures { IfOk result (λ text. text.items ≡ cert_lines cert.now) }
{
    let mut text = Vec::new(alloc);
    push_cert(&mut text, cert)?;
    Ok(text)
}

/// The same at the end of a text.
pub(crate) fn push_cert(text: &mut Vec<u8>, cert: &Cert) -> Result<(), Memory>
    requires { HasUps (lists_of cert.now) }
    ensures { OnOk result (text.new.items ≡ text.old.items ++ cert_lines cert.now) }
{
    let (vertices, sets) = cert.dual.up.split_at(cert.dual.y.len());
    push_lengths(text, &cert.x)?;
    push_vertices(text, &cert.dual.y, vertices)?;
    push_sets(text, &cert.dual.z, sets)
}

fn push_lengths(text: &mut Vec<u8>, lengths: &[u64]) -> Result<(), Memory>
    ensures { OnOk result (text.new.items ≡ text.old.items ++ text_of (map Length lengths.now)) }
{
    for n in lengths {
        push_line(text, CertLine::Length { n: *n })?;
    }
    Ok(())
}

/// A line for each number of a vertex and its `up`.
fn push_vertices(text: &mut Vec<u8>, numbers: &[i64], ups: &[u32]) -> Result<(), Memory>
    requires { length ups.now ≡ length numbers.now }
    ensures { OnOk result (text.new.items ≡ text.old.items ++ text_of (dual_lines Vertex numbers.now ups.now)) }
{
    for (i, number) in numbers.iter().enumerate() {
        push_line(
            text,
            CertLine::Vertex {
                number: *number,
                up: ups[i],
            },
        )?;
    }
    Ok(())
}

/// A line for each number of a set and its `up`.
fn push_sets(text: &mut Vec<u8>, numbers: &[i64], ups: &[u32]) -> Result<(), Memory>
    requires { length ups.now ≡ length numbers.now }
    ensures { OnOk result (text.new.items ≡ text.old.items ++ text_of (dual_lines Set numbers.now ups.now)) }
{
    for (i, number) in numbers.iter().enumerate() {
        push_line(
            text,
            CertLine::Set {
                number: *number,
                up: ups[i],
            },
        )?;
    }
    Ok(())
}

/// A line for each floor that rises.
pub(crate) fn push_rises(text: &mut Vec<u8>, rises: &[Rise]) -> Result<(), Memory>
    ensures { OnOk result (text.new.items ≡ text.old.items ++ text_of (map RiseLine rises.now)) }
{
    for rise in rises {
        push_line(text, CertLine::Rise { rise: *rise })?;
    }
    Ok(())
}

/// One line and its end.
pub(crate) fn push_line(text: &mut Vec<u8>, line: CertLine) -> Result<(), Memory>
    ensures { OnOk result (text.new.items ≡ text.old.items ++ line_text line ++ LINE_FEED ∷ []) }
{
    match line {
        CertLine::Length { n } => push_count(text, LENGTH, n)?,
        CertLine::Vertex { number, up } => push_dual(text, DUAL_VERTEX, number, up)?,
        CertLine::Set { number, up } => push_dual(text, SET, number, up)?,
        CertLine::Floor { floor } => push_count(text, FLOOR, u64::from(floor))?,
        CertLine::Rise { rise } => {
            push_count(text, RISE, u64::from(rise.arc) + 1)?;
            push_spaced(text, u64::from(rise.floor))?;
        }
    }
    text.push(LINE_FEED)?;
    Ok(())
}

fn push_count(text: &mut Vec<u8>, letter: u8, n: u64) -> Result<(), Memory>
    ensures { OnOk result (text.new.items ≡ text.old.items ++ HASH ∷ letter ∷ SPACE ∷ decimal n) }
{
    text.push(HASH)?;
    text.push(letter)?;
    push_spaced(text, n)
}

fn push_dual(text: &mut Vec<u8>, letter: u8, number: i64, up: u32) -> Result<(), Memory>
    ensures { OnOk result (text.new.items ≡ text.old.items ++ dual_line letter number up) }
{
    text.push(HASH)?;
    text.push(letter)?;
    text.push(SPACE)?;
    push_signed(text, number)?;
    push_spaced(text, u64::from(up))
}
