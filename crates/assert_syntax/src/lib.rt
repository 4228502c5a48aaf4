//! The grammar of task files: from logical lines to tasks with the names of their nodes, or to the
//! first faulty line. Begin with `read_tasks`.
#![tactic(auto)]

pub mod clauses;
mod draft;
pub mod exprs;
pub mod fault;
pub mod form;
mod forms;
mod known;
pub mod laws;
pub mod position;
pub mod read;
pub mod tasks;
pub mod words;

pub use fault::TaskFault;
pub use read::read_tasks;
pub use tasks::{RawBind, RawEdge, RawMark, RawQuint, RawTask, RawTasks, RawWeak};
