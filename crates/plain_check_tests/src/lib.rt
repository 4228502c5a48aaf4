//! Tests of the plain checker on assertions and assertion graphs that are worked out by hand.
//! Nothing else is here, so that `plain_check` itself is proved once.
#![tactic(auto)]

#[cfg(test)]
mod tests;
