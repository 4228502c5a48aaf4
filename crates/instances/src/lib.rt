//! The instances of a hierarchy in preorder, and in each the numbers of its signals' nets. Begin
//! with `instance_rows`.
#![tactic(auto)]

mod above;
pub mod bounds;
pub mod numbers;
mod own_names;
pub mod table;

pub use numbers::{Numbered, instance_numbers};
pub use table::{Row, instance_rows};
