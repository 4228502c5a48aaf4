//! Tests of the symbolic engine for assertion graphs against the plain checker, one assignment at a
//! time, and the graphs that they are made with. They stand here so that `gste_engine` itself is
//! proved once, and below it.
#![tactic(auto)]

pub mod cases;
#[cfg(test)]
mod tests;
