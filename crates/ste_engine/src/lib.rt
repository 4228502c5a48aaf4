//! The symbolic engine for assertions: the report of an assertion over all assignments at once,
//! time after time, on decision diagrams. Begin with `check_ste`.
#![tactic(auto)]

pub mod engine;
mod find;
mod finish;
mod firsts;
mod merge;
mod place;
mod reports;
mod results;
mod shown;
mod timed_cuts;
mod timeline;
mod turn;
mod weakened;

pub use engine::{check_ste, check_ste_from, ste_results};
