//! What is found so far, by references; begin with `Broken`.

use dd_nodes::Ref;

/// Where some quintuple of the antecedent is broken so far, and where one of the consequent is.
#[derive(Clone, Copy, PartialEq, Eq, Drop)]
pub struct Broken {
    pub ant: Ref,
    pub con: Ref,
}

/// The assignments and choices that make a counterexample, the exactly strong assignments, and the
/// exactly contradictory ones.
#[derive(Clone, Copy, PartialEq, Eq, Drop)]
pub struct ExactResults {
    pub counter: Ref,
    pub strong: Ref,
    pub contradictory: Ref,
}
