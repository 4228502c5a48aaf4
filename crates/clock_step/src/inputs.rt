//! The bits that an input file gives; begin with `Inputs`.

ghost use Rattle.std.specs.Prelude.{◌≡◌, ◌≢◌, All, AllPairs, length};

use ste_base::{Items, NodeId};

/// Bits for some nets, time by time. The nets are different, and each row has a bit for each of
/// them, in their order.
#[derive(Drop)]
pub struct Inputs {
    pub nodes: Items<NodeId>,
    pub rows: Items<Items<bool>>,
    ghost different: { AllPairs (λ one other. one.0 ≢ other.0) nodes },
    ghost wide: { All (λ row. length row ≡ length nodes) rows },
}
