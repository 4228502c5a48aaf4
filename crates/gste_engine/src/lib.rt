//! The symbolic engine for assertion graphs: the report of a graph over all assignments at once, on
//! decision diagrams; rounds come to the least closed table, and on it the consequents are looked
//! at. Begin with `check_graph`.
#![tactic(auto)]

mod binds;
pub mod edge;
pub mod engine;
mod failing;
mod feasible_sets;
mod found;
mod hops;
mod judged;
mod links;
mod reports;
pub mod rounds;
mod same;
mod seen;
mod shown;
pub mod state;
mod sums;
mod taken;
mod waiting;

pub use edge::{EdgeFound, edge_found};
pub use engine::check_graph;
pub use rounds::settle;
pub use state::State;
