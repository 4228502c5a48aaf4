//! Tests of the readers of logical lines, expressions and command lines, over texts with what each
//! is answered with. Nothing else is here, so that each reader itself is proved once.
#![tactic(auto)]

#[cfg(test)]
mod commands;
#[cfg(test)]
mod expressions;
#[cfg(test)]
mod lines;
