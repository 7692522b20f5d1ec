//! The lists of the certificates whose lines are being read.

ghost use Rattle.std.specs.Prelude.{◌≡◌, ◌&&◌, ◌++◌, [], not, is_some, None, IfOk, OnOk};
ghost use Rattle.def_certtext.specs.CertLines.{lists_of};
ghost use Rattle.def_certtext.specs.Reading.{is_third, length_in, set_in, set_up_in, vertex_in, vertex_up_in};
ghost use Rattle.def_certtext.specs.declared.certs.Rising.TheVariants.{Rounds};
ghost use Rattle.qm_certtext.specs.Parts.{lists_in_parts, EndsRound, TakesLine};

use crate::Memory;
use def_certtext::{CertLine, Rise, Rising, Round};
use def_flow::Cert;
use def_matching::Dual;
use std::alloc::Global;
use std::mem;

/// The lists of one certificate, those of vertices and of sets apart.
#[derive(Drop)]
pub(crate) struct Parts {
    pub(crate) lengths: Vec<u64>,
    pub(crate) vertices: Vec<i64>,
    pub(crate) vertex_ups: Vec<u32>,
    pub(crate) sets: Vec<i64>,
    pub(crate) set_ups: Vec<u32>,
}

impl Parts {
    pub(crate) fn new(alloc: Global) -> Parts
        ensures lengths { result.lengths.items ≡ [] }
        ensures vertices { (result.vertices.items ≡ []) × (result.vertex_ups.items ≡ []) }
        ensures sets { (result.sets.items ≡ []) × (result.set_ups.items ≡ []) }
    {
        Parts {
            lengths: Vec::new(alloc),
            vertices: Vec::new(alloc),
            vertex_ups: Vec::new(alloc),
            sets: Vec::new(alloc),
            set_ups: Vec::new(alloc),
        }
    }

    fn take(&mut self, line: CertLine) -> Result<(), Memory>
        ensures lengths { OnOk result (self.new.lengths.items ≡ self.old.lengths.items ++ length_in line) }
        ensures vertices { OnOk result (self.new.vertices.items ≡ self.old.vertices.items ++ vertex_in line) }
        ensures vertex_ups { OnOk result (self.new.vertex_ups.items ≡ self.old.vertex_ups.items ++ vertex_up_in line) }
        ensures sets { OnOk result (self.new.sets.items ≡ self.old.sets.items ++ set_in line) }
        ensures set_ups { OnOk result (self.new.set_ups.items ≡ self.old.set_ups.items ++ set_up_in line) }
    {
        match line {
            CertLine::Length { n } => self.lengths.push(n)?,
            CertLine::Vertex { number, up } => {
                self.vertices.push(number)?;
                self.vertex_ups.push(up)?;
            }
            CertLine::Set { number, up } => {
                self.sets.push(number)?;
                self.set_ups.push(up)?;
            }
            CertLine::Floor { .. } | CertLine::Rise { .. } => {}
        }
        Ok(())
    }

    /// The certificate of these lists.
    pub(crate) fn into_cert(self) -> Result<Cert, Memory>
        ensures { IfOk result (λ cert. lists_of cert ≡ lists_in_parts self) }
    {
        let Parts {
            lengths,
            vertices,
            vertex_ups: mut up,
            sets,
            set_ups,
        } = self;
        up.extend_from_slice(&set_ups)?;
        Ok(Cert {
            x: lengths,
            dual: Dual {
                y: vertices,
                z: sets,
                up,
            },
        })
    }
}

/// What was found so far: the certificate before the first `#f 3`, where there is one, or the rounds whose floors rose;
/// and the last certificate, with the floors that rise behind it.
#[derive(Drop)]
pub(crate) struct Found {
    pub(crate) first: Option<Parts>,
    pub(crate) rounds: Vec<Round>,
    pub(crate) last: Parts,
    pub(crate) rises: Vec<Rise>,
}

impl Found {
    pub(crate) fn new(alloc: Global) -> Found
        ensures first { result.first ≡ None }
        ensures rounds { (result.rounds.items ≡ []) × (result.rises.items ≡ []) }
        ensures lengths { result.last.lengths.items ≡ [] }
        ensures vertices { (result.last.vertices.items ≡ []) × (result.last.vertex_ups.items ≡ []) }
        ensures sets { (result.last.sets.items ≡ []) × (result.last.set_ups.items ≡ []) }
    {
        Found {
            first: None,
            rounds: Vec::new(alloc),
            last: Parts::new(alloc),
            rises: Vec::new(alloc),
        }
    }

    /// Takes the next line.
    pub(crate) fn take(
        &mut self,
        alloc: Global,
        rising: Rising,
        line: CertLine,
    ) -> Result<(), Memory>
        ensures { OnOk result (TakesLine rising self.old self.new line) }
    {
        if rising == Rising::Rounds {
            return self.take_in_round(alloc, line);
        }
        if self.starts_third(line) {
            self.first = Some(mem::replace(&mut self.last, Parts::new(alloc)));
            return Ok(());
        }
        self.last.take(line)
    }

    /// Takes the next line of rounds: behind floors that rise, each other line begins the next round.
    fn take_in_round(&mut self, alloc: Global, line: CertLine) -> Result<(), Memory>
        ensures { OnOk result (TakesLine Rounds self.old self.new line) }
    {
        if let CertLine::Rise { rise } = line {
            self.rises.push(rise)?;
            return Ok(());
        }
        self.end_round(alloc)?;
        self.last.take(line)
    }

    /// Ends the round behind whose certificate floors rise.
    pub(crate) fn end_round(&mut self, alloc: Global) -> Result<(), Memory>
        ensures { OnOk result (EndsRound self.old self.new) }
    {
        if self.rises.is_empty() {
            return Ok(());
        }
        let last = mem::replace(&mut self.last, Parts::new(alloc));
        let rises = mem::replace(&mut self.rises, Vec::new(alloc));
        let cert = last.into_cert()?;
        self.rounds.push(Round { cert, rises })?;
        Ok(())
    }

    /// Whether the line is the first `#f 3`.
    fn starts_third(&self, line: CertLine) -> bool
        ensures { result ≡ (not (is_some self.now.first) && is_third line) }
    {
        self.first.is_none() && is_third(line)
    }
}

fn is_third(line: CertLine) -> bool
    ensures { result ≡ is_third line }
{
    matches!(line, CertLine::Floor { floor: 3 })
}
