//! What is known of an edge of an assertion graph under one assignment: `Hop`.

/// An edge under one assignment: the vertices at its ends, whether it is feasible, and whether,
/// where it is, a consequent of it fails.
#[derive(Clone, Copy, PartialEq, Eq, Drop)]
pub struct Hop {
    pub from: u32,
    pub to: u32,
    pub feasible: bool,
    pub fails: bool,
}
