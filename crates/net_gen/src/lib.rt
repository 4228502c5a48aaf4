//! The texts of a pipeline, made from a number of stages; begin with `pipeline`.
#![tactic(auto)]

mod netlist;
mod pieces;
mod task;
pub mod texts;

pub use texts::pipeline;
