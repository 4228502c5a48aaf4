//! Tests of the reader and the printer of derivations, over texts with what each is answered with.
//! Nothing else is here, so that these are proved once.
#![tactic(auto)]

#[cfg(test)]
mod answers;
#[cfg(test)]
mod netlists;
#[cfg(test)]
mod table;
