//! An append-only table of diagram nodes that any number of threads share without a lock. Begin
//! with `SharedTable::open`, which makes one, with its first session; `TableNodes::on` puts a
//! session on its table, and is a store of nodes that can be split.
#![tactic(auto)]

mod calls;
pub mod laws;
pub mod nodes;
mod rule;
mod search;
pub mod session;
mod steps;
pub mod table;
mod views;
mod word;

pub use nodes::TableNodes;
pub use session::Session;
pub use table::SharedTable;
