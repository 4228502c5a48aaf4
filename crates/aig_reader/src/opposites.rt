//! The variables whose opposites latches take; begin with `opposites`.

ghost use Rattle.std.specs.Prelude.{◌≡◌, IfOk};
ghost use Rattle.std.specs.List.{filter_map};
ghost use Rattle.aig_model.specs.Netlist.{opposites};
ghost use Rattle.aig_reader.specs.private.Taken.{taken_opposite};

use crate::words::{is_odd, variable_of};
use aig_model::{Aig, AigLatch};
use std::alloc::{AllocError, Global};

/// The variable whose opposite a latch takes, where it takes one.
fn taken_opposite(latch: &AigLatch) -> Option<u32>
    ensures { result ≡ taken_opposite latch.now }
{
    if is_odd(latch.next) {
        Some(variable_of(latch.next))
    } else {
        None
    }
}

/// The variables whose opposites latches take, in their order.
fn all_taken(alloc: Global, latches: &[AigLatch]) -> Result<Vec<u32>, AllocError>
    ensures { IfOk result (λ vars. vars.items ≡ filter_map taken_opposite latches.now) }
{
    latches
        .iter()
        .filter_map(|latch| taken_opposite(latch))
        .collect(alloc)
}

/// The variables whose opposites latches take, in increasing order.
pub fn opposites(alloc: Global, aig: &Aig) -> Result<Vec<u32>, AllocError>
    ensures { IfOk result (λ vars. vars.items ≡ opposites aig.now) }
{
    let mut vars = all_taken(alloc, aig.latches.as_slice())?;
    vars.sort()?;
    vars.dedup();
    Ok(vars)
}
