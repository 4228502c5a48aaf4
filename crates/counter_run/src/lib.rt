//! Two-valued runs of nets: the one run with given bits, and the run that is printed for a failure
//! of an assertion or of an assertion graph. Begin with `two_valued`, `ste_run` and `graph_run`.
#![tactic(auto)]

// `along`, `printed` and `undriven` are public for the tests, which stand in another crate.
pub mod along;
mod asked;
mod block;
mod completion;
pub mod laws;
mod matrix;
pub mod printed;
mod row;
mod simple;
pub mod undriven;

pub use along::graph_run;
pub use printed::ste_run;
pub use simple::two_valued;
