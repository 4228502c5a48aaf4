//! One time step of a whole net, under all assignments at once: the possible sets of all nets
//! (`Frame`), from what is asked (`Cut`) and the sets of the time before. The program calls
//! `renew`, which changes a frame in place; `advance` is the same with a result of its own, and
//! `step` is the same from nothing. What one gate gives is in `gate_sets`.
#![tactic(auto)]

mod board;
pub mod cut;
mod cuts;
mod demands;
pub mod frame;
mod latches;
pub mod laws;
pub mod made;
mod marks;
mod place;
mod readers;
mod source;
pub mod time;
mod vectors;

pub use cut::Cut;
pub use frame::Frame;
pub use gate_sets::GateRows;
pub use made::Step;
pub use time::{advance, renew, step};
