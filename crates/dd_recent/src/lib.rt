//! What a store of nodes remembers of operations: results that were put in, some of which are found
//! again. Begin with `RecentMemo`.
#![tactic(auto)]

pub mod recent;

pub use recent::{Joined, RecentMemo};
