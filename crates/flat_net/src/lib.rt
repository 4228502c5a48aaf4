//! The flat net of a netlist: its nets are numbered, and each gate and latch drives the nets of its
//! signals. Begin with `flatten`.
#![tactic(auto)]

mod clocks;
mod covers;
mod drivers;
pub mod flat;
mod gates;
mod instance;
pub mod laws;
mod parts;

pub use flat::flatten;
