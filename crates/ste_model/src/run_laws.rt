//! The laws of printed runs: each is the contract of a function that does nothing.

ghost use Rattle.ste_model.specs.Shown.{DueBreaks};

/// A run that is due meets the antecedent, and breaks the consequent.
pub fn due_breaks()
    ensures { DueBreaks }
{}
