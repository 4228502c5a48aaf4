//! The law of this crate: the contract of a function that does nothing.

ghost use Rattle.counter_run.specs.Runs.{OneRunOn};

/// There is one run with given bits at most.
pub fn one_run_on()
    ensures { OneRunOn }
{}
