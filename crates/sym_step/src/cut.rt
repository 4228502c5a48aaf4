//! What is asked of nets; begin with `Cut`.

use dd_nodes::Ref;
use ste_base::NodeId;

/// What is asked of a net at one time: where the guard is 1, the net has the value.
#[derive(Clone, Copy, PartialEq, Eq, Drop)]
pub struct Cut {
    pub node: NodeId,
    pub guard: Ref,
    pub value: Ref,
}
