//! Tests of the top call on words: over files and sinks in memory they compare what it writes and
//! answers for each action, option and number of workers with answers from outside. Nothing else is
//! here, so that `ste_program` itself is proved once.
#![tactic(auto)]

#[cfg(test)]
mod commands;
#[cfg(test)]
mod workers;
