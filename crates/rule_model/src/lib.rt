//! The rules by which assertions are derived from assertions, and that they are sound: laws, each
//! of which is the contract of a function that does nothing. Begin with `specs/Rules.antt`.
#![tactic(auto)]

ghost use Rattle.rule_model.specs.Claims.{ClaimsAreAssertions};
ghost use Rattle.rule_model.specs.Rules.{DerivedHolds};

/// An assertion holds exactly where what it claims holds.
pub fn claims_are_assertions()
    ensures { ClaimsAreAssertions }
{}

/// In a net that is no loop and drives no net twice, what is derived from claims that hold holds.
pub fn derived_holds()
    ensures { DerivedHolds }
{}
