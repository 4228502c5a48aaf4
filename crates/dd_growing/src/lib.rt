//! A store of diagram nodes for one thread, which grows as nodes are made: begin with
//! `GrowingNodes`. What each task of several makes is counted apart (`begin`).
#![tactic(auto)]

pub mod nodes;
mod slots;

pub use nodes::GrowingNodes;
