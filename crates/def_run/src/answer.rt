//! How a run ends, and the status of each end.

ghost use Rattle.std.specs.Prelude.{◌≡◌};
ghost use Rattle.def_run.specs.Status.{status_of};

use def_flow::{Cert, CertVerdict};
use def_mesh::Place;
use def_remesh::Kept;
use def_text::Which;

/// How a run ended. Lines count from 1; faces, vertices, patches and arcs from 0.
#[derive(Debug, Drop)]
pub enum Answer {
    Done,
    /// What `check` read is no text of a finished remesh behind the old text.
    NotAccepted { why: Why },
    Usage,
    Syntax { line: u32 },
    NotQuad { line: u32, corners: u32 },
    Range { line: u32 },
    Limit { which: Which, line: u32 },
    NotManifold { place: Place },
    /// An `l` line names two vertices one after the other that are not the ends of an edge.
    NotEdge { line: u32 },
    /// The tangle number of the network is above the limit.
    Tangled { count: u64 },
    /// The kept lengths give so many faces, more than a new mesh may have.
    TooFine { faces: u128, kept: Kept },
    /// The kept lengths double the edge between two vertices of the new mesh.
    Doubled { u: u32, v: u32, cert: Cert },
    ReadFault,
    WriteFault,
    Memory,
    /// The lengths that are wanted of all arcs add up to more than the limit.
    Far { sum: u128 },
}

/// Why `check` accepts nothing. `CertLine` counts from the first line of the input, and `Byte` from the head line.
#[derive(Clone, Copy, Debug, PartialEq, Eq)]
pub enum Why {
    /// No line begins as a head line does.
    NoHead,
    /// The last line that begins so is no head line.
    Head,
    /// The line behind the head line is no line of a certificate.
    CertLine { line: u32 },
    /// The certificate shows nothing.
    Verdict { verdict: CertVerdict },
    /// Its lengths give so many faces, more than a new mesh may have.
    TooFine { faces: u128 },
    /// Its lengths double the edge between two vertices of the new mesh.
    Doubled { u: u32, v: u32 },
    /// The floors that rise in this round, which counts from 1, are not those that have to.
    Rises { round: u64 },
    /// The text is another one from this byte on, which counts from 1.
    Byte { at: u32 },
}

impl Answer {
    /// The exit status of the program.
    pub fn status(&self) -> u8
        ensures { result ≡ status_of self.now }
    {
        match self {
            Answer::Done => 0,
            Answer::NotAccepted { .. } => 1,
            Answer::Usage => 2,
            Answer::Syntax { .. } => 3,
            Answer::NotQuad { .. } => 4,
            Answer::Range { .. } => 5,
            Answer::Limit { .. } => 6,
            Answer::NotManifold { .. } => 7,
            Answer::Tangled { .. } => 9,
            Answer::TooFine { .. } => 10,
            Answer::Doubled { .. } => 11,
            Answer::ReadFault => 12,
            Answer::WriteFault => 13,
            Answer::Memory => 14,
            Answer::NotEdge { .. } => 16,
            Answer::Far { .. } => 17,
        }
    }
}
