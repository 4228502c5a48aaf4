//! A two-valued run as data; begin with `Run`.

use ste_base::Items;

/// A run of so many time steps: a row for each net, in the order of `NodeId`, with one bit for each
/// time step.
#[derive(Debug, Drop)]
pub struct Run {
    pub length: u32,
    pub rows: Items<Items<bool>>,
}
