//! Tests of the symbolic engine for assertions, over nets that are read from texts. Nothing else is
//! here, so that `ste_engine` itself is proved once, and below it.
#![tactic(auto)]

#[cfg(test)]
mod tests;
