//! Constant sets, cuts, unions, and where a set is empty; begin with `free` and `cut`.

ghost use Rattle.std.specs.Prelude.{◌≡◌, ◌∷◌, [], Bool, List, length, IfOk};
ghost use Rattle.ste_base.specs.Functions.{Function};
ghost use Rattle.dd_nodes.specs.Stores.{IsRef, Means};
ghost use Rattle.net_core.specs.Work.{SymbolicSet, cut_set, cut_work, empty_work, negation, union, union_work, no_bit};
ghost use Rattle.dual_rail.specs.Rail.{AreRefs, AreRails, Built, HasFunction, HasSet};
ghost use Rattle.dual_rail.specs.private.Parts.{without, without_work};

use crate::first::{both, either, except};
use crate::rails::Rails;
use dd_nodes::{Nodes, Ref};
use dd_ops::{OpFault, Ops};

/// The set of 0 alone, under every assignment. Like the other constants it takes no memory.
pub fn zero() -> Rails
    ensures { result ≡ record { can0 = Ref.TRUE; can1 = Ref.FALSE } }
{
    Rails {
        can0: Ref::TRUE,
        can1: Ref::FALSE,
    }
}

/// The set of 1 alone.
pub fn one() -> Rails
    ensures { result ≡ record { can0 = Ref.FALSE; can1 = Ref.TRUE } }
{
    Rails {
        can0: Ref::FALSE,
        can1: Ref::TRUE,
    }
}

/// The set of both bits, an unknown.
pub fn free() -> Rails
    ensures { result ≡ record { can0 = Ref.TRUE; can1 = Ref.TRUE } }
{
    Rails {
        can0: Ref::TRUE,
        can1: Ref::TRUE,
    }
}

/// The set without the opposite of `value` where `guard` is 1. `StepsOut` comes only where all
/// steps are spent and a node of the cut's functions is not held; after any error what was held
/// stays.
pub fn cut<N: Nodes>(
    ops: &Ops,
    nodes: &mut N,
    r: Rails,
    guard: Ref,
    value: Ref,
) -> Result<Rails, OpFault>
    requires rails { AreRefs (N.store nodes.old) r }
    requires guard { IsRef (N.store nodes.old) guard }
    requires value { IsRef (N.store nodes.old) value }
    ensures { (w : SymbolicSet) (g x : Function)
        → AreRails (N.store nodes.old) w r
        → Means (N.store nodes.old) g guard → Means (N.store nodes.old) x value
        → Built (cut_work w g x) (HasSet (cut_set w g x))
        (N.store nodes.old) (N.store nodes.new) result }
{
    let can0 = without(ops, nodes, r.can0, guard, value)?;
    let can1 = without_opposite(ops, nodes, r.can1, guard, value)?;
    Ok(Rails { can0, can1 })
}

/// `rail` where not both `guard` and `value` are 1.
fn without<N: Nodes>(
    ops: &Ops,
    nodes: &mut N,
    rail: Ref,
    guard: Ref,
    value: Ref,
) -> Result<Ref, OpFault>
    requires rail { IsRef (N.store nodes.old) rail }
    requires guard { IsRef (N.store nodes.old) guard }
    requires value { IsRef (N.store nodes.old) value }
    ensures { (f g x : Function)
        → Means (N.store nodes.old) f rail
        → Means (N.store nodes.old) g guard → Means (N.store nodes.old) x value
        → Built (without_work f g x) (HasFunction (without f g x))
        (N.store nodes.old) (N.store nodes.new) result }
{
    let asked = both(ops, nodes, guard, value)?;
    except(ops, nodes, rail, asked)
}

/// `rail` where not `guard` is 1 and `value` is 0.
fn without_opposite<N: Nodes>(
    ops: &Ops,
    nodes: &mut N,
    rail: Ref,
    guard: Ref,
    value: Ref,
) -> Result<Ref, OpFault>
    requires rail { IsRef (N.store nodes.old) rail }
    requires guard { IsRef (N.store nodes.old) guard }
    requires value { IsRef (N.store nodes.old) value }
    ensures { (f g x : Function)
        → Means (N.store nodes.old) f rail
        → Means (N.store nodes.old) g guard → Means (N.store nodes.old) x value
        → Built (without_work f g (negation x)) (HasFunction (without f g (negation x)))
        (N.store nodes.old) (N.store nodes.new) result }
{
    let asked = except(ops, nodes, guard, value)?;
    except(ops, nodes, rail, asked)
}

/// The union of two sets. `StepsOut` comes only where all steps are spent and a node of its two
/// sums is not held.
pub fn join<N: Nodes>(ops: &Ops, nodes: &mut N, a: Rails, b: Rails) -> Result<Rails, OpFault>
    requires left { AreRefs (N.store nodes.old) a }
    requires right { AreRefs (N.store nodes.old) b }
    ensures { (v w : SymbolicSet)
        → AreRails (N.store nodes.old) v a → AreRails (N.store nodes.old) w b
        → Built (union_work v w) (HasSet (union v w))
        (N.store nodes.old) (N.store nodes.new) result }
{
    let can0 = either(ops, nodes, a.can0, b.can0)?;
    let can1 = either(ops, nodes, a.can1, b.can1)?;
    Ok(Rails { can0, can1 })
}

/// 1 exactly where the set is empty. `StepsOut` comes only where all steps are spent and a node of
/// `z | o` or of its negation is not held.
pub fn empty<N: Nodes>(ops: &Ops, nodes: &mut N, r: Rails) -> Result<Ref, OpFault>
    requires { AreRefs (N.store nodes.old) r }
    ensures { (w : SymbolicSet) → AreRails (N.store nodes.old) w r
        → Built (empty_work w) (HasFunction (no_bit w))
        (N.store nodes.old) (N.store nodes.new) result }
{
    let some = either(ops, nodes, r.can0, r.can1)?;
    ops.not(nodes, some)
}
