//! What the tests of the top call are built on: words, files and sinks in memory for one run of the
//! program, and texts that several tests use. Begin with `Fixture`.
#![tactic(auto)]

pub mod fixture;
pub mod texts;

pub use fixture::{Failing, Fixture, NONE, NOTHING, run_on};
