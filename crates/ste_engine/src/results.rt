//! What is found so far, by references; begin with `Found`.

use dd_nodes::Ref;

/// Where some consequent so far is found strong, and where one is found weak.
#[derive(Clone, Copy, PartialEq, Eq, Drop)]
pub struct Found {
    pub strong: Ref,
    pub weak: Ref,
}
