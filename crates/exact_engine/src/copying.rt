//! The diagrams of sets of one store, made in another; begin with `copied`.

ghost use Rattle.std.specs.Prelude.{◌≡◌, ◌∷◌, [], OnOk};
ghost use Rattle.dd_nodes.specs.Stores.{IsRef, function};
ghost use Rattle.dual_rail.specs.Rail.{Built, HasFunction};
ghost use Rattle.engine_parts.specs.Reporting.{AreResultRefs};
ghost use Rattle.exact_engine.specs.private.Copying.{AreCopied, AreCopies};

use crate::choosing::{remember, split_at};
use dd_nodes::{Nodes, Ref};
use dd_ops::OpFault;
use engine_parts::Results;
use std::alloc::Global;
use std::collections::HashMap;

/// The function of a reference of the source, with what was copied before. Each node that is made
/// is one of the function's own, and calls are as deep as there are variables.
fn copy_of<M: Nodes, N: Nodes>(
    source: &mut M,
    nodes: &mut N,
    met: &mut HashMap<Ref, Ref>,
    r: Ref,
) -> Result<Ref, OpFault>
    requires held { IsRef (M.store source.old) r }
    requires vars { (M.store source.old).vars ≡ (N.store nodes.old).vars }
    requires met { AreCopied (M.store source.old) (N.store nodes.old) met.old }
    ensures built { Built (function (M.store source.old) r ∷ [])
        (HasFunction (function (M.store source.old) r))
        (N.store nodes.old) (N.store nodes.new) result }
    ensures source { M.store source.new ≡ M.store source.old }
    ensures met { OnOk result (AreCopied (M.store source.old) (N.store nodes.new) met.new) }
{
    if r.0 < 2 {
        return Ok(r);
    }
    if let Some(found) = met.get(&r) {
        return Ok(*found);
    }
    let node = source.node(r);
    let lo = copy_of(source, nodes, met, node.lo)?;
    let hi = copy_of(source, nodes, met, node.hi)?;
    let made = split_at(nodes, node.var, lo, hi)?;
    remember(met, r, made)?;
    Ok(made)
}

/// The exactly strong and the exactly contradictory assignments that references of the source tell,
/// by references of the other store. A node that both sets have is looked at once.
pub fn copied<M: Nodes, N: Nodes>(
    alloc: Global,
    source: &mut M,
    nodes: &mut N,
    r: Results,
) -> Result<Results, OpFault>
    requires refs { AreResultRefs (M.store source.old) r }
    requires vars { (M.store source.old).vars ≡ (N.store nodes.old).vars }
    ensures built { Built (function (M.store source.old) r.strong
        ∷ function (M.store source.old) r.contradictory ∷ [])
        (AreCopies (M.store source.old) r)
        (N.store nodes.old) (N.store nodes.new) result }
    ensures source { M.store source.new ≡ M.store source.old }
{
    let mut met = HashMap::new(alloc);
    let strong = copy_of(source, nodes, &mut met, r.strong)?;
    let contradictory = copy_of(source, nodes, &mut met, r.contradictory)?;
    Ok(Results {
        strong,
        weak: Ref::FALSE,
        contradictory,
    })
}
