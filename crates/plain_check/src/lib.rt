//! The plain checker: one assignment after another, and a gate's set over all choices of bits.
//! Begin with `verdict` and `plain_check_graph`.
#![tactic(auto)]

pub mod checker;
mod choices;
pub mod found;
mod gates;
pub mod graph_checker;
mod hops;
mod paths;
mod rounds;
mod sources;
mod table;

pub use checker::verdict;
pub use found::Outcome;
pub use graph_checker::{GraphFound, Shown, plain_check_graph};
