//! The results of all times; begin with `finish`.

ghost use Rattle.std.specs.Prelude.{◌≡◌, ◌≤◌, ◌-◌};
ghost use Rattle.ste_base.specs.Functions.{Function};
ghost use Rattle.dd_nodes.specs.Stores.{IsRef, Means};
ghost use Rattle.dual_rail.specs.Rail.{Built};
ghost use Rattle.exact_engine.specs.private.Finishing.{AreResults, finish_work};

use crate::choosing::some_choices;
use crate::results::{Broken, ExactResults};
use dd_nodes::Nodes;
use dd_ops::{OpFault, Ops};
use dual_rail::{both, opposite};
use std::alloc::Global;

/// The results, from where the quintuples of the antecedent and of the consequent are broken.
pub fn finish<N: Nodes>(
    alloc: Global,
    ops: &Ops,
    nodes: &mut N,
    broken: Broken,
    vars: u32,
) -> Result<ExactResults, OpFault>
    requires ant { IsRef (N.store nodes.old) broken.ant }
    requires con { IsRef (N.store nodes.old) broken.con }
    requires vars { vars ≤ (N.store nodes.old).vars }
    ensures { (a b : Function)
        → Means (N.store nodes.old) a broken.ant → Means (N.store nodes.old) b broken.con
        → Built (finish_work vars ((N.store nodes.old).vars - vars) a b)
        (AreResults vars ((N.store nodes.old).vars - vars) a b)
        (N.store nodes.old) (N.store nodes.new) result }
{
    let met = opposite(ops, nodes, broken.ant)?;
    let counter = both(ops, nodes, met, broken.con)?;
    let strong = some_choices(alloc, nodes, counter, vars)?;
    let allowed = some_choices(alloc, nodes, met, vars)?;
    let contradictory = opposite(ops, nodes, allowed)?;
    Ok(ExactResults {
        counter,
        strong,
        contradictory,
    })
}
