//! Questions to decision diagrams, over every store of nodes: the value under an assignment, the
//! least assignment at which a function is 1, and the cubes of the assignments at which it is 1. No
//! question makes a node. Begin with `eval`, `least` and `cubes`.
#![tactic(auto)]

mod evaluation;
mod first;
mod paths;

pub use evaluation::eval;
pub use first::least;
pub use paths::cubes;
