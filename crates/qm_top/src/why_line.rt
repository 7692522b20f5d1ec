//! The line that says why `check` accepts nothing.

ghost use Rattle.std.specs.Prelude.{◌≡◌, ◌≤◌, ◌+◌, ◌++◌, ◌==◌, ◌/◌, ◌%◌, codes, decimal, length};
ghost use Rattle.arrayvec.specs.ArrayString.{array_string_len};
ghost use Rattle.def_run.specs.ErrorLines.{dual_verdict_text, unequal_text, verdict_text, why_text};

use def_flow::CertVerdict;
use def_matching::Verdict;
use def_run::Why;
use qm_print::{Line, line_of, push_integer, push_numbered};

/// The reason, behind words that say that nothing is accepted.
pub(crate) fn why_of(why: &Why) -> Line
    ensures text { result.bytes ≡ codes "not accepted: " ++ why_text why.now }
    ensures short { array_string_len result ≤ 300 }
{
    let mut line = line_of("not accepted: ");
    match *why {
        Why::NoHead => line.push_str("no head line"),
        Why::Head => line.push_str("head"),
        Why::CertLine { line: at } => push_counted(&mut line, "certificate line ", u64::from(at)),
        Why::Verdict { verdict } => push_verdict(&mut line, verdict),
        Why::TooFine { faces } => {
            line.push_str("faces ");
            push_integer(&mut line, faces, "");
        }
        Why::Doubled { u, v } => {
            push_counted(&mut line, "doubled ", u64::from(u) + 1);
            push_counted(&mut line, " ", u64::from(v) + 1);
        }
        Why::Rises { round } => {
            push_counted(&mut line, "round ", round);
            line.push_str(" rises");
        }
        Why::Byte { at } => push_counted(&mut line, "byte ", u64::from(at)),
    }
    line
}

/// Puts a text and a number at the end of a line.
fn push_counted(line: &mut Line, before: &str, number: u64)
    requires { array_string_len line.old + length before.now ≤ 300 }
    ensures text { line.new.bytes ≡ line.old.bytes ++ before.now ++ decimal number }
    ensures short { array_string_len line.new ≤ array_string_len line.old + length before.now + 20 }
{
    line.push_str(before);
    push_numbered(line, number, "");
}

/// Puts what is wrong with a certificate at the end of a line.
fn push_verdict(line: &mut Line, verdict: CertVerdict)
    requires { array_string_len line.old ≤ 60 }
    ensures text { line.new.bytes ≡ line.old.bytes ++ verdict_text verdict }
    ensures short { array_string_len line.new ≤ 300 }
{
    match verdict {
        CertVerdict::Yes { .. } => {}
        CertVerdict::Count { arcs, given } => {
            push_counted(line, "arcs ", u64::from(arcs));
            push_counted(line, " given ", u64::from(given));
        }
        CertVerdict::Below { arc, length } => {
            push_counted(line, "arc ", u64::from(arc) + 1);
            push_counted(line, " length ", length);
        }
        CertVerdict::Unequal { node, plus, minus } => push_unequal(line, node, plus, minus),
        CertVerdict::Dual { verdict } => push_dual(line, verdict),
        CertVerdict::Sums { dual, cost } => {
            line.push_str("sums ");
            push_integer(line, dual, " ");
            push_integer(line, cost, "");
        }
    }
}

/// Puts a patch and two opposite sides of it that differ at the end of a line.
fn push_unequal(line: &mut Line, node: u32, plus: u128, minus: u128)
    requires { array_string_len line.old ≤ 60 }
    ensures text { line.new.bytes ≡ line.old.bytes ++ unequal_text node plus minus }
    ensures short { array_string_len line.new ≤ 300 }
{
    push_counted(line, "patch ", u64::from(node / 2) + 1);
    if node % 2 == 0 {
        line.push_str(" south ");
        push_integer(line, plus, " north ");
    } else {
        line.push_str(" east ");
        push_integer(line, plus, " west ");
    }
    push_integer(line, minus, "");
}

/// Puts what is wrong with a dual at the end of a line.
fn push_dual(line: &mut Line, verdict: Verdict)
    requires { array_string_len line.old ≤ 60 }
    ensures text { line.new.bytes ≡ line.old.bytes ++ dual_verdict_text verdict }
    ensures short { array_string_len line.new ≤ 300 }
{
    match verdict {
        Verdict::Yes { .. } => {}
        Verdict::Shape { index } => push_counted(line, "shape ", u64::from(index) + 1),
        Verdict::Even { set, size } => {
            push_counted(line, "set ", u64::from(set) + 1);
            push_counted(line, " size ", u64::from(size));
        }
        Verdict::Negative { set } => {
            push_counted(line, "set ", u64::from(set) + 1);
            line.push_str(" negative");
        }
        Verdict::Short { edge, load, cost } => {
            push_counted(line, "edge ", u64::from(edge) + 1);
            line.push_str(" load ");
            push_integer(line, load, " cost ");
            push_integer(line, cost, "");
        }
    }
}
