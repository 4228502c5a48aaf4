//! Tests of names, of the texts of pipelines, of paths in graphs, of covers and of the order of
//! gates. Nothing else is here, so that each crate below is proved once.
#![tactic(auto)]

#[cfg(test)]
mod names;
#[cfg(test)]
mod nets;
#[cfg(test)]
mod paths;
#[cfg(test)]
mod pipelines;
#[cfg(test)]
mod written;
