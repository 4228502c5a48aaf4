//! Gates whose cover has one row, over inputs that are nowhere empty: one chain of products and one
//! of sums. `only_rising` finds such a cover, and `by_row` gives the set.

ghost use Rattle.std.specs.Prelude.{◌≡◌, ◌≤◌, ◌<◌, ◌∷◌, ◌++◌, [], ℕ, List, All, IfOk, IfSome, IsTrue, length, drop};
ghost use Rattle.ste_base.specs.Functions.{Function};
ghost use Rattle.dd_nodes.specs.Stores.{IsRef, Keeps, Means};
ghost use Rattle.net_core.specs.Cases.{has_only_any};
ghost use Rattle.net_core.specs.Work.{SymbolicSet, never, row_products, rows_work, sum};
ghost use Rattle.dual_rail.specs.Rail.{Built, HasFunction, HasSet};
ghost use Rattle.gate_sets.specs.private.Refused.{is_rising, refused_sums, refused_total};
ghost use Rattle.gate_sets.specs.NetSets.{AreNetRails, AreNetRefs, HaveInputs, sets_at};

use crate::net_rails::NetRails;
use crate::row_list::RowList;
use crate::sums::rows_sum;
use dd_nodes::{Nodes, Ref};
use dd_ops::{OpFault, Ops};
use dual_rail::{Rails, either};
use net_core::{Cover, Lit};
use std::alloc::Global;
use ste_base::NodeId;

/// Whether there are only `-` from `from` on.
fn only_any(row: &[Lit], from: usize) -> bool
    requires { from ≤ length row.now }
    ensures { result ≡ has_only_any (drop from row.now) }
{
    for k in from..row.len() {
        if row[k] != Lit::Any {
            return false;
        }
    }
    true
}

/// Whether each literal but the last one that is no `-` is 1 or `-`.
fn rises(row: &[Lit]) -> bool
    ensures { result ≡ is_rising row.now }
{
    for k in 0..row.len() {
        if row[k] == Lit::Zero {
            return only_any(row, k + 1);
        }
    }
    true
}

/// The only row of a cover, where each of its literals but the last one that is no `-` is 1 or `-`.
pub fn only_rising(cover: &Cover) -> Option<&[Lit]>
    ensures row { IfSome result (λ row. cover.now.rows ≡ row.now ∷ []) }
    ensures rises { IfSome result (λ row. IsTrue (is_rising row.now)) }
{
    match cover.rows.as_slice() {
        [row] if rises(row.as_slice()) => Some(row.as_slice()),
        _ => None,
    }
}

/// The sum so far with what a literal refuses of one more input.
fn add_refused<N: Nodes>(
    ops: &Ops,
    nodes: &mut N,
    sum: Ref,
    lit: Lit,
    r: NetRails,
) -> Result<Ref, OpFault>
    requires sum { IsRef (N.store nodes.old) sum }
    requires rails { AreNetRefs (N.store nodes.old) r }
    ensures keeps { Keeps (N.store nodes.old) (N.store nodes.new) }
    ensures ref_of { IfOk result (λ p. IsRef (N.store nodes.new) p) }
    ensures built { (f : Function) (w : SymbolicSet)
        → Means (N.store nodes.old) f sum → AreNetRails (N.store nodes.old) w r
        → Built (refused_sums f (lit ∷ []) (w ∷ []))
        (HasFunction (refused_total f (lit ∷ []) (w ∷ [])))
        (N.store nodes.old) (N.store nodes.new) result }
{
    match lit {
        Lit::Zero => either(ops, nodes, sum, r.can1),
        Lit::One => either(ops, nodes, sum, r.can0),
        Lit::Any => Ok(sum),
    }
}

/// Where some literal of the row refuses some bit of its input.
fn refused_sum<N: Nodes>(
    ops: &Ops,
    nodes: &mut N,
    row: &[Lit],
    nets: &[NetRails],
    inputs: &[NodeId],
) -> Result<Ref, OpFault>
    requires wide { length row.now ≡ length inputs.now }
    requires inside { All (λ input. input.0 < length nets.now) inputs.now }
    requires refs { All (AreNetRefs (N.store nodes.old)) nets.now }
    ensures { (sets : ℕ → SymbolicSet)
        → HaveInputs (N.store nodes.old) sets nets.now inputs.now
        → Built (refused_sums never row.now (sets_at sets inputs.now))
        (HasFunction (refused_total never row.now (sets_at sets inputs.now)))
        (N.store nodes.old) (N.store nodes.new) result }
{
    let mut sum = Ref::FALSE;
    for k in 0..row.len() {
        let r = nets[inputs[k].0 as usize];
        sum = add_refused(ops, nodes, sum, row[k], r)?;
    }
    Ok(sum)
}

/// Where the only row of a list matches, and where it does not. `products` lends room for the
/// products of its first literals.
pub fn by_row<N: Nodes>(
    alloc: Global,
    ops: &Ops,
    nodes: &mut N,
    rows: &RowList,
    row: &[Lit],
    products: &mut [Ref],
    nets: &[NetRails],
    inputs: &[NodeId],
) -> Result<Rails, OpFault>
    requires width { rows.now.width ≡ length inputs.now }
    requires wide { length row.now ≡ length inputs.now }
    requires room { length inputs.now < length products.old }
    requires inside { All (λ input. input.0 < length nets.now) inputs.now }
    requires refs { All (AreNetRefs (N.store nodes.old)) nets.now }
    ensures room { length products.new ≡ length products.old }
    ensures built { (sets : ℕ → SymbolicSet)
        → HaveInputs (N.store nodes.old) sets nets.now inputs.now
        → Built (rows_work rows.now.list (sets_at sets inputs.now)
        ++ refused_sums never row.now (sets_at sets inputs.now))
        (HasSet (record {
          zero = refused_total never row.now (sets_at sets inputs.now);
          one = sum (row_products rows.now.list (sets_at sets inputs.now));
        }))
        (N.store nodes.old) (N.store nodes.new) result }
{
    let can1 = rows_sum(alloc, ops, nodes, rows, products, nets, inputs)?;
    let can0 = refused_sum(ops, nodes, row, nets, inputs)?;
    Ok(Rails { can0, can1 })
}
