//! Tests of steps of nets that are read from texts, against the plain checker. Nothing else is
//! here, so that `sym_step` itself is proved once, and below it.
#![tactic(auto)]

#[cfg(test)]
mod tests;
