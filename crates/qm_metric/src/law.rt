//! What whole square roots are, and where the descent may begin.

ghost use Rattle.def_metric.specs.Roots.{WholeRootLaw};
ghost use Rattle.def_metric.specs.Starts.{StartLaw};

/// A number below 2^128 has one whole square root, which can be computed digit by digit.
pub fn root_law()
    ensures { WholeRootLaw }
{}

/// The old lengths times the floor are a start of the descent, whatever lengths are wished for.
pub fn start_law()
    ensures { StartLaw }
{}
