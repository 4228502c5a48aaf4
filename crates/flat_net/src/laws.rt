//! The laws of this crate: each is the contract of a function that does nothing.

ghost use Rattle.flat_net.specs.Corresponds.{RunsCorrespond};

/// The runs of a hierarchy and those of its flat net correspond one to one, net by net.
pub fn runs_correspond()
    ensures { RunsCorrespond }
{}
