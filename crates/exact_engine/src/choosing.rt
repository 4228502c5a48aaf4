//! Where some choices make a function 1; begin with `some_choices`.

ghost use Rattle.std.specs.Prelude.{◌≡◌, ◌<◌, ◌≤◌, ◌+◌, ◌∷◌, [], Some, OnOk, cond};
ghost use Rattle.std.specs.HashMap.{get};
ghost use Rattle.ste_base.specs.Functions.{Function};
ghost use Rattle.dd_nodes.specs.Diagram.{IsFrom, same_ref};
ghost use Rattle.dd_nodes.specs.Stores.{IsRef};
ghost use Rattle.dd_ops.specs.Answer.{Answer};
ghost use Rattle.dd_ops.specs.Splitting.{Splits};
ghost use Rattle.dual_rail.specs.Rail.{Built, HasFunction};
ghost use Rattle.exact_engine.specs.private.Choosing.{AreMet, some_behind};
ghost use Rattle.dd_nodes.specs.declared.node.Ref.{Ref};

use dd_nodes::{Nodes, Ref};
use dd_ops::OpFault;
use std::alloc::{AllocError, Global};
use std::collections::HashMap;

/// The function that is `lo` where the variable is 0, and `hi` where it is 1.
pub fn split_at<N: Nodes>(nodes: &mut N, var: u32, lo: Ref, hi: Ref) -> Result<Ref, OpFault>
    requires var { var < (N.store nodes.old).vars }
    requires lo { IsFrom (N.store nodes.old).held (var + 1) lo }
    requires hi { IsFrom (N.store nodes.old).held (var + 1) hi }
    ensures { (f : Function) → Splits (N.store nodes.old) var lo hi f
        → Answer f (N.store nodes.old) (N.store nodes.new) result }
{
    Ok(nodes.mk(var, lo, hi)?)
}

/// Remembers what was found for a reference.
pub fn remember(met: &mut HashMap<Ref, Ref>, r: Ref, found: Ref) -> Result<(), AllocError>
    ensures { OnOk result ((p : Ref) → get same_ref met.new p
        ≡ cond (same_ref r p) (Some found) (get same_ref met.old p)) }
{
    match met.insert(r, found) {
        Ok(_) => Ok(()),
        Err(_) => Err(AllocError),
    }
}

/// Where some bits of the variables from `vars` on make the function 1, with what was met before.
/// Each node that is made is one of the result's own, and calls are as deep as there are variables.
fn some_of<N: Nodes>(
    nodes: &mut N,
    met: &mut HashMap<Ref, Ref>,
    r: Ref,
    vars: u32,
) -> Result<Ref, OpFault>
    requires held { IsRef (N.store nodes.old) r }
    requires vars { vars ≤ (N.store nodes.old).vars }
    requires met { AreMet (N.store nodes.old) vars met.old }
    ensures built { Built (some_behind vars (N.store nodes.old) r ∷ [])
        (HasFunction (some_behind vars (N.store nodes.old) r))
        (N.store nodes.old) (N.store nodes.new) result }
    ensures met { OnOk result (AreMet (N.store nodes.new) vars met.new) }
{
    if r.0 < 2 {
        return Ok(r);
    }
    let node = nodes.node(r);
    if node.var >= vars {
        return Ok(Ref::TRUE);
    }
    if let Some(found) = met.get(&r) {
        return Ok(*found);
    }
    let lo = some_of(nodes, met, node.lo, vars)?;
    let hi = some_of(nodes, met, node.hi, vars)?;
    let made = split_at(nodes, node.var, lo, hi)?;
    remember(met, r, made)?;
    Ok(made)
}

/// Where some choices make the function 1: they are the variables from `vars` on, which stand
/// behind all others.
pub fn some_choices<N: Nodes>(
    alloc: Global,
    nodes: &mut N,
    r: Ref,
    vars: u32,
) -> Result<Ref, OpFault>
    requires held { IsRef (N.store nodes.old) r }
    requires vars { vars ≤ (N.store nodes.old).vars }
    ensures { Built (some_behind vars (N.store nodes.old) r ∷ [])
        (HasFunction (some_behind vars (N.store nodes.old) r))
        (N.store nodes.old) (N.store nodes.new) result }
{
    let mut met = HashMap::new(alloc);
    some_of(nodes, &mut met, r, vars)
}
