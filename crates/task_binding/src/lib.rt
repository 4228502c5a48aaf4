//! Binding of tasks: from tasks with the names of their nodes to tasks over the nets of a netlist.
//! Begin with `bind_tasks`.
#![tactic(auto)]

mod bind;
pub mod fault;
mod sizes;
pub mod tasks;
pub mod unknown;

pub use fault::BindFault;
pub use tasks::bind_tasks;
