//! All that the program does, over files and sinks that are handed in: begin with `run::run`.
#![tactic(auto)]

mod bench;
mod check;
mod command;
mod info;
mod judging;
pub mod laws;
mod message;
mod netlist;
pub mod refusal;
mod report;
pub mod run;
mod simulated;
mod texts;
