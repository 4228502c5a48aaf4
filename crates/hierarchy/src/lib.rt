//! Hierarchies: what the lines of models say of their signals, the instances of models, and what a
//! hierarchy is refused for before any instance is built. Begin with `refuse`.
#![tactic(auto)]

mod checks;
mod circles;
// Public for its tests, which stand in another crate.
pub mod components;
mod counts;
mod depth;
pub mod fault;
mod formals;
mod gates;
pub mod lines;
mod ranks;
mod reach;
pub mod refusals;
pub mod signals;
mod unbound;
pub mod uses;
mod weights;

pub use fault::NetFault;
pub use refusals::refuse;
