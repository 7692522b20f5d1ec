//! What a written text says of how it was made.

ghost use Rattle.std.specs.Prelude.{◌≡◌, ◌<◌, ◌+◌, ◌^◌, List, [], drop, length, slice_index_or, IfOk, IfErr, OnOk};
ghost use Rattle.def_io.specs.Lines.{lines_of};
ghost use Rattle.def_certtext.specs.CertLines.{certificates_of};
ghost use Rattle.def_certtext.specs.Reading.{certificates_in, is_hash_line, made_of, IsBehindFail, IsCertFail};
ghost use Rattle.def_certtext.specs.Reading.{TellCerts, TellHow};
ghost use Rattle.def_certtext.specs.Risings.{third_if};
ghost use Rattle.def_certtext.specs.declared.CertLine.{CertLine};
ghost use Rattle.def_certtext.specs.declared.certs.Rising.TheVariants.{Rounds};
ghost use Rattle.qm_certtext.specs.Parts.{HoldSome, IsLineFail, ReadSome, TakesText};

use crate::Memory;
use crate::head::read_head;
use crate::line::read_line;
use crate::parts::Found;
use def_certtext::{CertFail, Certs, Rising, Written};
use qm_io::{Lines, cut_line};
use std::alloc::Global;

/// Reads the head line `first`, from 0, and all later lines that begin with `#`. Lengths and numbers stand in the order
/// of their lines; `up` has those of all vertices and then those of all sets. Linear.
#[tactic(auto, using(crate::proofs::Found::few_lines, crate::proofs::Found::tail_fails))]
pub fn read_written(alloc: Global, lines: &Lines, first: u32) -> Result<Written, CertFail>
    requires { first < length (lines_of lines.now) }
    ensures reads { IfOk result (λ written. TellHow (slice_index_or (lines_of lines.now) first [])
        (drop (first + 1) (lines_of lines.now)) (made_of written)) }
    ensures fails { IfErr result (IsCertFail (slice_index_or (lines_of lines.now) first []) (first + 2)
        (drop (first + 1) (lines_of lines.now))) }
{
    let _count = lines.count();
    read_tail(alloc, lines.tail(first), first)
}

/// The same of the bytes of a text from its line `first` on.
pub fn read_tail(alloc: Global, tail: &[u8], first: u32) -> Result<Written, CertFail>
    requires { first + length (lines_of tail.now) < 2 ^ 32 }
    ensures reads { IfOk result (λ written. TellHow (slice_index_or (lines_of tail.now) 0 [])
        (drop 1 (lines_of tail.now)) (made_of written)) }
    ensures fails { IfErr result (IsCertFail (slice_index_or (lines_of tail.now) 0 []) (first + 2)
        (drop 1 (lines_of tail.now))) }
{
    let Some((line, behind)) = cut_line(tail) else {
        return Err(CertFail::Head);
    };
    let Some(asked) = read_head(line) else {
        return Err(CertFail::Head);
    };
    let certs = read_certs(alloc, behind, first + 1, third_if(asked.auto))?;
    Ok(Written { asked, certs })
}

/// How floors rise in a remesh.
pub fn third_if(auto: bool) -> Rising
    ensures { result ≡ third_if auto }
{
    if auto { Rising::Third } else { Rising::Never }
}

/// The certificates that the lines behind a head line say, where floors rise so. The first is line `from` of a whole,
/// from 0. Linear.
pub fn read_certs(
    alloc: Global,
    behind: &[u8],
    from: u32,
    rising: Rising,
) -> Result<Certs, CertFail>
    requires { from + length (lines_of behind.now) < 2 ^ 32 }
    ensures reads { IfOk result (λ certs. TellCerts rising (lines_of behind.now) (certificates_of certs)) }
    ensures fails { IfErr result (IsBehindFail rising (from + 1) (lines_of behind.now)) }
{
    let found = read_behind(alloc, behind, from, rising)?;
    Ok(certs_of(alloc, rising, found)?)
}

/// What the lines of a text say. The first is line `from` of a whole, from 0.
#[tactic(auto, using(qm_io::proofs::Cuts::cut_ended, std::proofs::lemmas::List::take_all))]
fn read_behind(alloc: Global, text: &[u8], from: u32, rising: Rising) -> Result<Found, CertFail>
    requires { from + length (lines_of text.now) < 2 ^ 32 }
    ensures reads { IfOk result (ReadSome rising (lines_of text.now)) }
    ensures fails { IfErr result (IsBehindFail rising (from + 1) (lines_of text.now)) }
{
    let mut found = Found::new(alloc);
    let mut rest = text;
    let mut i = from;
    'lines: while let Some((line, behind)) = cut_line(rest) {
        i += 1;
        take_text(alloc, &mut found, line, rising, i)?;
        rest = behind;
    }
    Ok(found)
}

/// Takes the next line, which has this number.
fn take_text(
    alloc: Global,
    found: &mut Found,
    line: &[u8],
    rising: Rising,
    number: u32,
) -> Result<(), CertFail>
    ensures taken { OnOk result (TakesText rising line.now found.old found.new) }
    ensures fails { IfErr result (IsLineFail rising line.now number) }
{
    if !is_marked(line) {
        return Ok(());
    }
    let Some(said) = read_line(line, rising) else {
        return Err(CertFail::Line { line: number });
    };
    found.take(alloc, rising, said)?;
    Ok(())
}

fn is_marked(line: &[u8]) -> bool
    ensures { result ≡ is_hash_line line.now }
{
    match line {
        [b'#', ..] => true,
        _ => false,
    }
}

/// The certificates that were found.
fn certs_of(alloc: Global, rising: Rising, found: Found) -> Result<Certs, Memory>
    ensures { IfOk result (λ certs. (said : List CertLine) → HoldSome rising found said
        → certificates_of certs ≡ certificates_in rising said) }
{
    if rising == Rising::Rounds {
        return rounds_of(alloc, found);
    }
    let Found { first, last, .. } = found;
    let cert = last.into_cert()?;
    match first {
        Some(parts) => Ok(Certs::Raised {
            first: parts.into_cert()?,
            cert,
        }),
        None => Ok(Certs::Alone { cert }),
    }
}

/// The same of rounds.
fn rounds_of(alloc: Global, found: Found) -> Result<Certs, Memory>
    ensures { IfOk result (λ certs. (said : List CertLine) → HoldSome Rounds found said
        → certificates_of certs ≡ certificates_in Rounds said) }
{
    let mut ended = found;
    ended.end_round(alloc)?;
    let Found { rounds, last, .. } = ended;
    let cert = last.into_cert()?;
    Ok(Certs::Risen { rounds, cert })
}
