//! Vectors that each time uses; begin with `Vectors`.

use crate::demands::CutLinks;
use crate::latches::LatchSet;
use gate_sets::Scratch;
use std::alloc::Global;
use ste_base::NodeId;

/// Vectors that one time fills and the next one fills again, so that a time takes no memory: where
/// the cuts of each net stand, nets, flags of weakened nets, sets of latches, and what the
/// recursion for a gate takes. What they hold between times says nothing.
#[derive(Drop)]
pub struct Vectors {
    pub links: CutLinks,
    pub asked: Vec<NodeId>,
    pub weak: Vec<bool>,
    pub sets: Vec<LatchSet>,
    pub scratch: Scratch,
}

impl Vectors {
    /// Vectors without memory.
    pub fn none(alloc: Global) -> Vectors {
        Vectors {
            links: CutLinks::none(alloc),
            asked: Vec::new(alloc),
            weak: Vec::new(alloc),
            sets: Vec::new(alloc),
            scratch: Scratch::none(alloc),
        }
    }
}
