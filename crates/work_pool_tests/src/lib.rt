//! Tests of the tasks that are shared out to workers. Nothing else is here, so that `work_pool`
//! itself is proved once.
#![tactic(auto)]

#[cfg(test)]
mod exact;
#[cfg(test)]
mod tests;
