//! The first sets of the latches; begin with `first_sets`.

ghost use Rattle.std.specs.Prelude.{◌≡◌, IfOk, map};
ghost use Rattle.engine_parts.specs.Latches.{first_rails};

use dual_rail::{Rails, free, one, zero};
use net_core::{Init, Latch, Net};
use std::alloc::{AllocError, Global};
use ste_base::Items;

/// The first set of a latch.
fn first(reset: bool, latch: Latch) -> Rails
    ensures { result ≡ first_rails reset latch }
{
    if !reset {
        return free();
    }
    match latch.init {
        Init::Zero => zero(),
        Init::One => one(),
        Init::Free => free(),
    }
}

/// The first sets of the latches.
pub fn first_sets(alloc: Global, net: &Net, reset: bool) -> Result<Items<Rails>, AllocError>
    ensures { IfOk result (λ sets. sets ≡ map (first_rails reset) net.now.raw.latches) }
{
    let mut sets = Vec::new(alloc);
    for latch in net.latches() {
        sets.push(first(reset, *latch))?;
    }
    Ok(Items::from(sets))
}
