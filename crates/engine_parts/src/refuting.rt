//! Where a set is exactly the opposite of a value; begin with `refuted`.

ghost use Rattle.ste_base.specs.Functions.{Function};
ghost use Rattle.dd_nodes.specs.Stores.{IsRef, Means};
ghost use Rattle.net_core.specs.Work.{SymbolicSet, conjunction, negation};
ghost use Rattle.dual_rail.specs.Rail.{AreRails, AreRefs, Built, HasFunction};
ghost use Rattle.ste_model.specs.Work.{refutes};
ghost use Rattle.engine_parts.specs.Refuting.{both_except_work, except, except_work, opposite_except_work, refutes_work};

use dd_nodes::{Nodes, Ref};
use dd_ops::{OpFault, Ops};
use dual_rail::{Rails, both, either};

/// Where the one is 1 and the other is 0.
pub fn but_not<N: Nodes>(ops: &Ops, nodes: &mut N, one: Ref, other: Ref) -> Result<Ref, OpFault>
    requires one { IsRef (N.store nodes.old) one }
    requires other { IsRef (N.store nodes.old) other }
    ensures { (f h : Function)
        → Means (N.store nodes.old) f one → Means (N.store nodes.old) h other
        → Built (except_work f h) (HasFunction (except f h))
        (N.store nodes.old) (N.store nodes.new) result }
{
    let not = ops.not(nodes, other)?;
    both(ops, nodes, one, not)
}

/// Where the value is 1 and a set has the one bit alone: `one` is where it has this bit, `other`
/// where it has the other.
fn refuted_one<N: Nodes>(
    ops: &Ops,
    nodes: &mut N,
    value: Ref,
    one: Ref,
    other: Ref,
) -> Result<Ref, OpFault>
    requires value { IsRef (N.store nodes.old) value }
    requires one { IsRef (N.store nodes.old) one }
    requires other { IsRef (N.store nodes.old) other }
    ensures { (x f h : Function) → Means (N.store nodes.old) x value
        → Means (N.store nodes.old) f one → Means (N.store nodes.old) h other
        → Built (both_except_work x f h) (HasFunction (conjunction x (except f h)))
        (N.store nodes.old) (N.store nodes.new) result }
{
    let not = ops.not(nodes, other)?;
    let alone = both(ops, nodes, one, not)?;
    both(ops, nodes, value, alone)
}

/// The same where the value is 0.
fn refuted_zero<N: Nodes>(
    ops: &Ops,
    nodes: &mut N,
    value: Ref,
    one: Ref,
    other: Ref,
) -> Result<Ref, OpFault>
    requires value { IsRef (N.store nodes.old) value }
    requires one { IsRef (N.store nodes.old) one }
    requires other { IsRef (N.store nodes.old) other }
    ensures { (x f h : Function) → Means (N.store nodes.old) x value
        → Means (N.store nodes.old) f one → Means (N.store nodes.old) h other
        → Built (opposite_except_work x f h) (HasFunction (conjunction (negation x) (except f h)))
        (N.store nodes.old) (N.store nodes.new) result }
{
    let opposite = ops.not(nodes, value)?;
    refuted_one(ops, nodes, opposite, one, other)
}

/// Where a set is exactly the opposite of the value, by where the value is 1 and where it is 0.
fn refuted_either<N: Nodes>(ops: &Ops, nodes: &mut N, r: Rails, value: Ref) -> Result<Ref, OpFault>
    requires rails { AreRefs (N.store nodes.old) r }
    requires value { IsRef (N.store nodes.old) value }
    ensures { (w : SymbolicSet) (x : Function)
        → AreRails (N.store nodes.old) w r → Means (N.store nodes.old) x value
        → Built (refutes_work w x) (HasFunction (refutes w x))
        (N.store nodes.old) (N.store nodes.new) result }
{
    let low = refuted_one(ops, nodes, value, r.can0, r.can1)?;
    let high = refuted_zero(ops, nodes, value, r.can1, r.can0)?;
    either(ops, nodes, low, high)
}

/// Where a set is exactly the opposite of the value. It is so nowhere, and nothing is called, where
/// the set has 1 just where the value is 1, as that of a net that passes has.
pub fn refuted<N: Nodes>(ops: &Ops, nodes: &mut N, r: Rails, value: Ref) -> Result<Ref, OpFault>
    requires rails { AreRefs (N.store nodes.old) r }
    requires value { IsRef (N.store nodes.old) value }
    ensures { (w : SymbolicSet) (x : Function)
        → AreRails (N.store nodes.old) w r → Means (N.store nodes.old) x value
        → Built (refutes_work w x) (HasFunction (refutes w x))
        (N.store nodes.old) (N.store nodes.new) result }
{
    if r.can1 == value {
        return Ok(Ref::FALSE);
    }
    refuted_either(ops, nodes, r, value)
}
