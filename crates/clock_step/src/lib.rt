//! Plain simulation: the bits that an input file gives to nets, and the outputs of the one run on
//! them. Begin with `read_inputs` and `simulate`.
#![tactic(auto)]

pub mod fault;
pub mod inputs;
pub mod laws;
mod order;
pub mod read;
pub mod readers;
pub mod resettle;
mod rows;
pub mod settle;
pub mod simulation;

pub use fault::InputFault;
pub use inputs::Inputs;
pub use read::read_inputs;
pub use simulation::simulate;
