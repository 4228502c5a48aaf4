//! The text of a report: the lines of each task, as bytes. Begin with `render`; `put_codes` serves
//! other texts with bits.
#![tactic(auto)]

mod cubes;
mod failure;
mod marks;
mod pieces;
mod rendering;
mod runs;

pub use pieces::put_codes;
pub use rendering::render;
