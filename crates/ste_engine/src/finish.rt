//! The results of all times; begin with `finish`.

ghost use Rattle.ste_base.specs.Functions.{Function};
ghost use Rattle.dd_nodes.specs.Stores.{IsRef, Means};
ghost use Rattle.dual_rail.specs.Rail.{Built};
ghost use Rattle.ste_engine.specs.private.Finds.{AreFound, AreFoundRefs, AreLast, last_work};

use crate::results::Found;
use dd_nodes::{Nodes, Ref};
use dd_ops::{OpFault, Ops};
use engine_parts::{Results, but_not};

/// The strong, the weak and the contradictory assignments, from the sums over all times.
pub fn finish<N: Nodes>(
    ops: &Ops,
    nodes: &mut N,
    contradictory: Ref,
    found: Found,
) -> Result<Results, OpFault>
    requires contradictory { IsRef (N.store nodes.old) contradictory }
    requires found { AreFoundRefs (N.store nodes.old) found }
    ensures { (c f h : Function) → Means (N.store nodes.old) c contradictory
        → AreFound f h (N.store nodes.old) found
        → Built (last_work c f h) (AreLast c f h) (N.store nodes.old) (N.store nodes.new) result }
{
    let strong = but_not(ops, nodes, found.strong, contradictory)?;
    let unsure = but_not(ops, nodes, found.weak, contradictory)?;
    let weak = but_not(ops, nodes, unsure, strong)?;
    Ok(Results {
        strong,
        weak,
        contradictory,
    })
}
