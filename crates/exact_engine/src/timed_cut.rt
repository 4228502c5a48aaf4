//! What a quintuple asks, by references; begin with `Ask`.

use dd_nodes::Ref;
use ste_base::{NodeId, Time};

/// What a quintuple asks, by references: where the guard is 1 the net has the value's bit, from
/// when on, and up to when.
#[derive(Clone, Copy, PartialEq, Eq, Drop)]
pub struct TimedCut {
    pub node: NodeId,
    pub guard: Ref,
    pub value: Ref,
    pub from: Time,
    pub to: Time,
}
