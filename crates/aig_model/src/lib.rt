//! What an ASCII AIGER text means: its grammar by lines, what it says as numbers, its literal runs,
//! and the model that it is read as, whose runs are the literal runs. Begin with `Aig`, and with
//! `specs/Answer.antt`.
#![tactic(auto)]

pub mod aig;
pub mod fault;
pub mod laws;
pub mod line;

pub use aig::{Aig, AigAnd, AigLatch, AigOutput, Kind, Symbol};
pub use fault::AigFault;
pub use line::{Entry, Head, Header, Literals, Said};
