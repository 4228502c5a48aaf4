//! Tests of the stores of nodes: the plain one, the one that grows, and the table that threads
//! share. Nothing else is here, so that each crate below is proved once.
#![tactic(auto)]

#[cfg(test)]
mod growing_store;
#[cfg(test)]
mod made_once;
#[cfg(test)]
mod plain_store;
#[cfg(test)]
mod shared_table;
