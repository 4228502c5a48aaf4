//! Tests of the symbolic engine on two-valued runs, over nets that are read from texts.
#![tactic(auto)]

#[cfg(test)]
mod tests;
