//! What a step gives; begin with `Step`.

use dd_nodes::Ref;
use dual_rail::Rails;
use ste_base::Items;

/// The sets of one time: that of each net, where some net's set is empty, and the sets of the latch
/// inputs, which the latches have one time later.
#[derive(Drop)]
pub struct Step {
    pub nets: Items<Rails>,
    pub contradictory: Ref,
    pub next: Items<Rails>,
}
