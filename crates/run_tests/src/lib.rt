//! Tests of runs with given bits, and of the runs that are printed for failures, worked out by
//! hand. Nothing else is here, so that `counter_run` itself is proved once.
#![tactic(auto)]

#[cfg(test)]
mod netlists;
#[cfg(test)]
mod tests;
