//! What the engines for assertions and for graphs do alike, on decision diagrams: the diagram of an
//! expression, the first sets of the latches, where a set is the opposite of a value, how a
//! consequent fails by constants, and the parts of a report. Begin with `build`.
#![tactic(auto)]

mod expr;
pub mod failing;
mod latches;
mod refuting;
mod reporting;
pub mod results;

pub use expr::build;
pub use failing::{Failure, constant, first_failing, first_failing_in};
pub use latches::first_sets;
pub use refuting::{but_not, refuted};
pub use reporting::{budget_report, guards_of, verdict_of};
pub use results::Results;
