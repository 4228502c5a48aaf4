//! The reader of ASCII AIGER texts: from bytes to a model as BLIF netlists have it, or to the first
//! faulty line. What a text means is said in `aig_model`. Begin with `read_aig`.
#![tactic(auto)]

mod header;
mod items;
mod line;
mod naming;
mod netlist;
mod opposites;
mod places;
mod read;
mod scan;
mod text;
mod words;

pub use aig_model::AigFault;
pub use read::read_aig;
