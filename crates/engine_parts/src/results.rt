//! The results of a task, by references; begin with `Results`.

use dd_nodes::Ref;

/// The assignments that are strong, weak and contradictory.
#[derive(Clone, Copy, PartialEq, Eq, Drop)]
pub struct Results {
    pub strong: Ref,
    pub weak: Ref,
    pub contradictory: Ref,
}
