//! Tests of the operations on diagrams, of the questions to them, and of sets of bits as pairs of
//! diagrams. Nothing else is here, so that each crate below is proved once.
#![tactic(auto)]

#[cfg(test)]
mod bound;
#[cfg(test)]
mod operations;
#[cfg(test)]
mod questions;
#[cfg(test)]
mod rails;
#[cfg(test)]
mod shelf;
#[cfg(test)]
mod shown;
#[cfg(test)]
mod tables;
