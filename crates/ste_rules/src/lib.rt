//! Derivations: from logical lines to the steps that they give, or to the first faulty line; and
//! the text of the last step. Begin with `read_proof`.
#![tactic(auto)]

mod covers;
pub mod fault;
pub mod form;
mod forms;
mod given;
mod moved;
mod numbers;
pub mod print;
pub mod proof;
pub mod read;
mod rules;
mod sizes;
mod special;
mod step;
mod steps;

pub use fault::ProofFault;
pub use print::print_derived;
pub use proof::Proof;
pub use read::read_proof;
