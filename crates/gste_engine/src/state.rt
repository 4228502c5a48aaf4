//! What a table says of a vertex; begin with `State`.

use dd_nodes::Ref;
use dual_rail::Rails;
use ste_base::Items;

/// What a table says of a vertex under all assignments: where it is reached, and a set for each
/// latch, by number.
#[derive(Drop)]
pub struct State {
    pub reached: Ref,
    pub latches: Items<Rails>,
}
