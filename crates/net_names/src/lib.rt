//! The names of a flat net: what its nets are called, and which net a text names. Begin with
//! `NetNames`.
#![tactic(auto)]

pub mod laws;
pub mod names;
mod number;
mod text;

pub use names::NetNames;
