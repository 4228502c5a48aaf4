//! Tests of the top call on texts: over files and sinks in memory they compare what it writes and
//! answers on netlists and tasks with answers from outside. Nothing else is here, so that
//! `ste_program` itself is proved once.
#![tactic(auto)]

#[cfg(test)]
mod aiger;
#[cfg(test)]
mod hierarchies;
#[cfg(test)]
mod orders;
#[cfg(test)]
mod task_files;
#[cfg(test)]
mod tests;
