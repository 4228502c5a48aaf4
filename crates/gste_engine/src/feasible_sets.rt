//! Sets where a function is 1, and no bit elsewhere; begin with `feasible_sets`.

ghost use Rattle.std.specs.Prelude.{◌<◌, ◌∷◌, [], List, All, length, map};
ghost use Rattle.std.specs.List.{AllZip};
ghost use Rattle.ste_base.specs.Functions.{Function};
ghost use Rattle.dd_nodes.specs.Stores.{IsRef, Means};
ghost use Rattle.net_core.specs.Work.{SymbolicSet};
ghost use Rattle.dual_rail.specs.Rail.{AreRails, AreRefs, Built, HasSet};
ghost use Rattle.sym_step.specs.Frame.{input_rails, nets_of};
ghost use Rattle.ste_model.specs.GraphWork.{gated_set, sets_functions};
ghost use Rattle.gste_engine.specs.private.Given.{gated_sets};

use dd_nodes::{Nodes, Ref};
use dd_ops::{OpFault, Ops};
use dual_rail::{Rails, both};
use net_core::Latch;
use std::alloc::Global;
use ste_base::Items;
use sym_step::Frame;

/// The set where the function is 1, and no bit elsewhere.
fn feasible_set<N: Nodes>(ops: &Ops, nodes: &mut N, r: Rails, gate: Ref) -> Result<Rails, OpFault>
    requires rails { AreRefs (N.store nodes.old) r }
    requires gate { IsRef (N.store nodes.old) gate }
    ensures { (w : SymbolicSet) (f : Function)
        → AreRails (N.store nodes.old) w r → Means (N.store nodes.old) f gate
        → Built (sets_functions (gated_set w f ∷ [])) (HasSet (gated_set w f))
        (N.store nodes.old) (N.store nodes.new) result }
{
    let can0 = both(ops, nodes, r.can0, gate)?;
    let can1 = both(ops, nodes, r.can1, gate)?;
    Ok(Rails { can0, can1 })
}

/// The same of the set of each latch's input at the time of a frame, in order.
pub fn feasible_sets<N: Nodes>(
    alloc: Global,
    ops: &Ops,
    nodes: &mut N,
    latches: &[Latch],
    frame: &Frame,
    gate: Ref,
) -> Result<Items<Rails>, OpFault>
    requires inside { All (λ latch. latch.input.0 < length (nets_of frame.now)) latches.now }
    requires nets { All (AreRefs (N.store nodes.old)) (nets_of frame.now) }
    requires gate { IsRef (N.store nodes.old) gate }
    ensures { (ws : List SymbolicSet) (f : Function)
        → AllZip (AreRails (N.store nodes.old)) ws
        (map (input_rails (nets_of frame.now)) latches.now)
        → Means (N.store nodes.old) f gate
        → Built (sets_functions (gated_sets f ws))
        (λ t all. AllZip (AreRails t) (gated_sets f ws) all)
        (N.store nodes.old) (N.store nodes.new) result }
{
    let mut all = Vec::with_capacity(alloc, latches.len())?;
    for k in 0..latches.len() {
        let one = feasible_set(ops, nodes, frame.rails(latches[k].input), gate)?;
        match all.push(one) {
            Ok(()) => {}
            Err(_) => return Err(OpFault::OutOfMemory),
        }
    }
    Ok(Items::from(all))
}
