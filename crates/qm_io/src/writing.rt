//! Writing a piece whole.

ghost use Rattle.std.specs.Prelude.{◌≡◌, ◌≤◌, ◌<◌, length, take, IfOk, OnOk, OnErr};
ghost use Rattle.def_io.specs.Faults.{HasCause};
ghost use Rattle.def_io.specs.Moves.{took, TookPrefix};

use crate::traits::Sink;
use def_io::WriteFail;

/// Hands the whole piece to the sink. It takes no memory beyond the sink's own.
pub fn write_all<K: Sink>(sink: &mut K, piece: &[u8]) -> Result<(), WriteFail>
    ensures whole { OnOk result ((K.state sink.new).told ≡ took (K.state sink.old).told piece.now) }
    ensures prefix { OnErr result (TookPrefix (K.state sink.old).told (K.state sink.new).told piece.now) }
    ensures cause { HasCause (K.state sink.old).faults (K.state sink.new).faults result }
{
    let mut rest = piece;
    while !rest.is_empty() {
        let count = write_some(sink, rest)?;
        rest = &rest[count..];
    }
    Ok(())
}

/// Hands the piece to the sink once, and says how much of it the sink took.
fn write_some<K: Sink>(sink: &mut K, piece: &[u8]) -> Result<usize, WriteFail>
    requires { 0 < length piece.now }
    ensures more { IfOk result (λ n. 0 < n) }
    ensures fits { IfOk result (λ n. n ≤ length piece.now) }
    ensures takes { IfOk result (λ n. (K.state sink.new).told ≡ took (K.state sink.old).told (take n piece.now)) }
    ensures still { OnErr result ((K.state sink.new).told ≡ (K.state sink.old).told) }
    ensures cause { HasCause (K.state sink.old).faults (K.state sink.new).faults result }
{
    Ok(sink.write(piece)?)
}
