//! Small examples of the definitions, counted by hand. The body is empty: the contract is what is
//! said.

ghost use Rattle.sym_step.specs.Samples.{SamplesAreCounted};

/// The work functions of one time of an AND of two variables have 7 nodes; with a guard and a latch
/// they have 9.
pub fn samples_are_counted()
    ensures { SamplesAreCounted }
{}
