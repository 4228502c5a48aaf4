//! Tests of the readers of netlists, task files and input files, and of the binding of tasks, over
//! texts with what each is answered with. Nothing else is here, so that each reader itself is
//! proved once.
#![tactic(auto)]

#[cfg(test)]
mod bindings;
#[cfg(test)]
mod inputs;
#[cfg(test)]
mod netlists;
#[cfg(test)]
mod task_files;
#[cfg(test)]
mod words;
