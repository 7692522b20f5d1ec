//! Certificates and the verdict on one.

use def_matching::{Dual, Verdict};

/// A list of lengths, one for each arc, and a dual over its matching graph that shows it to be least.
#[derive(Debug, Drop)]
pub struct Cert {
    pub x: Vec<u64>,
    pub dual: Dual,
}

/// What a certificate shows for a network: the first fault, or that its list is least, with its deviation.
#[derive(Clone, Copy, Debug, PartialEq, Eq)]
pub enum CertVerdict {
    Yes { deviation: i128 },
    Count { arcs: u32, given: u32 },
    Below { arc: u32, length: u64 },
    Unequal { node: u32, plus: u128, minus: u128 },
    Dual { verdict: Verdict },
    Sums { dual: i128, cost: i128 },
}
