//! Sets of bits under all assignments; begin with `Rails`.

use dd_nodes::Ref;

/// A set of bits under each assignment: it has 0 where `can0` is 1, and 1 where `can1` is 1.
#[derive(Clone, Copy, PartialEq, Eq, Drop)]
pub struct Rails {
    pub can0: Ref,
    pub can1: Ref,
}
