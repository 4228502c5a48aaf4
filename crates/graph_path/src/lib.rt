//! The path that a failure of an assertion graph shows, found on plain data; begin with `path_of`.
#![tactic(auto)]

mod distances;
pub mod hop;
pub mod route;

pub use hop::Hop;
pub use route::path_of;
