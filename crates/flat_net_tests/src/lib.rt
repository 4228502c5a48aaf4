//! Tests of `flatten` on netlists as texts: flat nets with the names of their nets, what texts name
//! in them, and refusals, all worked out by hand. Nothing else is here, so that `net_names` and
//! `flat_net` themselves are proved once.
#![tactic(auto)]

#[cfg(test)]
mod names;
#[cfg(test)]
mod netlists;
#[cfg(test)]
mod shown;
