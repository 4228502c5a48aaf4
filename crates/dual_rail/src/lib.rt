//! Sets of bits under all assignments at once, as pairs of diagrams: constants, cuts, unions, the
//! exact set of a gate, and where a set is empty (the dual rail of Seger and Bryant 1995). Begin
//! with `Rails` and `gate`.
#![tactic(auto)]

mod first;
pub mod gates;
pub mod rails;
pub mod sets;

pub use first::{are_constant, both, either, opposite};
pub use gates::gate;
pub use rails::Rails;
pub use sets::{cut, empty, free, join, one, zero};
