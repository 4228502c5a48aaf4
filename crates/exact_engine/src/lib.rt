//! The symbolic engine for assertions on two-valued runs: every choice that an assertion leaves
//! open has a variable of its own. Begin with `choices`, `check_exact` and `check_exact_with`.
#![tactic(auto)]

mod adding;
mod breaking;
mod by_sets;
pub mod check;
mod choosing;
mod copying;
mod counting;
pub mod engine;
mod finishing;
mod gates;
mod quick;
mod reporting;
pub mod results;
mod running;
mod settling;
mod showing;
mod sources;
pub mod timed_cut;
mod timed_cuts;
mod times;
pub mod with_scratch;

pub use check::check_exact;
pub use counting::choices;
pub use engine::exact_results;
pub use results::ExactResults;
pub use with_scratch::check_exact_with;
