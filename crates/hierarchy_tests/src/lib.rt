//! Tests of what hierarchies are refused for, over texts of netlists. Nothing else is here, so that
//! `hierarchy` itself is proved once.
#![tactic(auto)]

#[cfg(test)]
mod tests;
