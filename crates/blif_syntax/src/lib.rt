//! The grammar of BLIF netlists: from logical lines to models, or to the first faulty line. Begin
//! with `read_models`.
#![tactic(auto)]

mod draft;
pub mod fault;
pub mod form;
pub mod laws;
pub mod models;
pub mod open_cover;
pub mod read;
mod words;

pub use fault::BlifFault;
pub use models::{Item, LatchKind, Model, Models, What};
pub use read::read_models;
