//! The words of the command line, cut by `clap`: what they ask for. Begin with `command_of`.
#![tactic(auto)]

pub mod command;
pub mod laws;
pub mod number;
mod reader;

pub use command::{Action, Command};
pub use reader::command_of;
