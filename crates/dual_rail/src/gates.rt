//! The exact set of a gate's outputs; begin with `gate`.

ghost use Rattle.std.specs.Prelude.{◌≡◌, ◌↔◌, not, ◌∷◌, [], Bool, List, length, map, All, IfOk};
ghost use Rattle.std.specs.List.{AllZip};
ghost use Rattle.ste_base.specs.Functions.{Function};
ghost use Rattle.dd_nodes.specs.Stores.{IsRef, Means};
ghost use Rattle.net_core.specs.Cover.{some_matches};
ghost use Rattle.net_core.specs.Possible.{MayGive};
ghost use Rattle.net_core.specs.Sets.{IsIn};
ghost use Rattle.net_core.specs.Work.{AreWide, SymbolicSet, conjunction, disjunction, factor, factors, product, some_bit, sum, row_products, rows_work, gate_set, gate_work};
ghost use Rattle.dual_rail.specs.Rail.{AreRefs, AreRails, Built, HasFunction, HasSet, set_of};
ghost use Rattle.dual_rail.specs.private.Parts.{row_work};

use crate::first::{both, either};
use crate::rails::Rails;
use dd_nodes::{Nodes, Ref};
use dd_ops::{OpFault, Ops};
use net_core::{Lit, Row};

/// The product so far with what a literal asks of one more input.
fn times<N: Nodes>(ops: &Ops, nodes: &mut N, all: Ref, lit: Lit, r: Rails) -> Result<Ref, OpFault>
    requires all { IsRef (N.store nodes.old) all }
    requires rails { AreRefs (N.store nodes.old) r }
    ensures { (f : Function) (w : SymbolicSet)
        → Means (N.store nodes.old) f all → AreRails (N.store nodes.old) w r
        → Built (some_bit w ∷ conjunction f (factor lit w) ∷ [])
        (HasFunction (conjunction f (factor lit w)))
        (N.store nodes.old) (N.store nodes.new) result }
{
    match lit {
        Lit::Zero => both(ops, nodes, all, r.can0),
        Lit::One => both(ops, nodes, all, r.can1),
        Lit::Any => {
            let some = either(ops, nodes, r.can0, r.can1)?;
            both(ops, nodes, all, some)
        }
    }
}

/// Where some choice from the inputs' sets is matched by the row.
fn row_product<N: Nodes>(
    ops: &Ops,
    nodes: &mut N,
    row: &[Lit],
    inputs: &[Rails],
) -> Result<Ref, OpFault>
    requires wide { length row.now ≡ length inputs.now }
    requires refs { All (AreRefs (N.store nodes.old)) inputs.now }
    ensures { (sets : List SymbolicSet) → AllZip (AreRails (N.store nodes.old)) sets inputs.now
        → Built (row_work row.now sets) (HasFunction (product (factors row.now sets)))
        (N.store nodes.old) (N.store nodes.new) result }
{
    let mut all = Ref::TRUE;
    for k in 0..row.len() {
        all = times(ops, nodes, all, row[k], inputs[k])?;
    }
    Ok(all)
}

/// The sum so far with the product of one more row.
fn add_row<N: Nodes>(
    ops: &Ops,
    nodes: &mut N,
    sum: Ref,
    row: &[Lit],
    inputs: &[Rails],
) -> Result<Ref, OpFault>
    requires sum { IsRef (N.store nodes.old) sum }
    requires wide { length row.now ≡ length inputs.now }
    requires refs { All (AreRefs (N.store nodes.old)) inputs.now }
    ensures { (f : Function) (sets : List SymbolicSet)
        → Means (N.store nodes.old) f sum → AllZip (AreRails (N.store nodes.old)) sets inputs.now
        → Built (disjunction f (product (factors row.now sets)) ∷ row_work row.now sets)
        (HasFunction (disjunction f (product (factors row.now sets))))
        (N.store nodes.old) (N.store nodes.new) result }
{
    let all = row_product(ops, nodes, row, inputs)?;
    either(ops, nodes, sum, all)
}

/// Where some choice from the inputs' sets is matched by some row.
fn rows_sum<N: Nodes>(
    ops: &Ops,
    nodes: &mut N,
    rows: &[Row],
    inputs: &[Rails],
) -> Result<Ref, OpFault>
    requires wide { AreWide rows.now (length inputs.now) }
    requires refs { All (AreRefs (N.store nodes.old)) inputs.now }
    ensures { (sets : List SymbolicSet) → AllZip (AreRails (N.store nodes.old)) sets inputs.now
        → Built (rows_work rows.now sets) (HasFunction (sum (row_products rows.now sets)))
        (N.store nodes.old) (N.store nodes.new) result }
{
    let mut sum = Ref::FALSE;
    for row in rows {
        sum = add_row(ops, nodes, sum, row.as_slice(), inputs)?;
    }
    Ok(sum)
}

/// The exact set of a gate's outputs over all choices of one bit from each input's set; it is empty
/// where an input's set is. `on` are the rows that match where the gate's bit is 1, `off` those
/// where it is 0. `StepsOut` comes only where all steps are spent and a node of the gate's
/// functions is not held; after any error what was held stays.
pub fn gate<N: Nodes>(
    ops: &Ops,
    nodes: &mut N,
    on: &[Row],
    off: &[Row],
    inputs: &[Rails],
) -> Result<Rails, OpFault>
    requires on { AreWide on.now (length inputs.now) }
    requires off { AreWide off.now (length inputs.now) }
    requires apart { (bits : List Bool) → length bits ≡ length inputs.now
        → some_matches off.now bits ≡ not (some_matches on.now bits) }
    requires refs { All (AreRefs (N.store nodes.old)) inputs.now }
    ensures exact { IfOk result (λ r.
        (bits : List Bool) → length bits ≡ (N.store nodes.old).vars → (bit : Bool) →
        IsIn bit (set_of (N.store nodes.new) bits r)
        ↔ MayGive (some_matches on.now) (map (set_of (N.store nodes.old) bits) inputs.now) bit) }
    ensures built { (sets : List SymbolicSet)
        → AllZip (AreRails (N.store nodes.old)) sets inputs.now
        → Built (gate_work on.now off.now sets) (HasSet (gate_set on.now off.now sets))
        (N.store nodes.old) (N.store nodes.new) result }
{
    let can1 = rows_sum(ops, nodes, on, inputs)?;
    let can0 = rows_sum(ops, nodes, off, inputs)?;
    Ok(Rails { can0, can1 })
}
