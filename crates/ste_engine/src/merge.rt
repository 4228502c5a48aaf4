//! Two lists of what is asked as one, by place; begin with `merge`.

ghost use Rattle.std.specs.Prelude.{◌≡◌, IfOk};
ghost use Rattle.ste_engine.specs.private.TimedCuts.{merge as merge_of};

use crate::timed_cuts::TimedCut;
use std::alloc::{AllocError, Global};

/// Two lists whose places rise, as one whose places rise.
pub fn merge(alloc: Global, xs: &[TimedCut], ys: &[TimedCut]) -> Result<Vec<TimedCut>, AllocError>
    ensures { IfOk result (λ timed_cuts. timed_cuts.items ≡ merge_of xs.now ys.now) }
{
    let mut timed_cuts = Vec::new(alloc);
    let mut i = 0;
    let mut j = 0;
    while i < xs.len() && j < ys.len() {
        if xs[i].place < ys[j].place {
            timed_cuts.push(xs[i])?;
            i += 1;
        } else {
            timed_cuts.push(ys[j])?;
            j += 1;
        }
    }
    timed_cuts.extend_from_slice(&xs[i..])?;
    timed_cuts.extend_from_slice(&ys[j..])?;
    Ok(timed_cuts)
}
