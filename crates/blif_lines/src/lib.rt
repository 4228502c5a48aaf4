//! The logical lines of a text: physical lines without their comments, joined where one ends with a
//! backslash, and split at blanks into words. Netlists, task files and input files are read by
//! them. Begin with `logical_lines`.
#![tactic(auto)]

pub mod laws;
pub mod lines;
mod scan;

pub use lines::{Line, logical_lines};
