//! Sums of the products of rows, piece by piece of a list; begin with `rows_sum`. Long lists are
//! summed by halves (`by_halves.rt`).

ghost use Rattle.std.specs.Prelude.{◌≡◌, ◌≤◌, ◌<◌, ◌∷◌, [], ℕ, List, length, take, All, IfOk, slice_index_or};
ghost use Rattle.ste_base.specs.Functions.{Function};
ghost use Rattle.dd_nodes.specs.Stores.{IsRef, Keeps, Means};
ghost use Rattle.net_core.specs.declared.cover.Lit.{Lit};
ghost use Rattle.net_core.specs.declared.cover.Lit.TheVariants.{Any};
ghost use Rattle.net_core.specs.Work.{SymbolicSet, conjunction, disjunction, factor, factors, product, products, sum, row_products, rows_work};
ghost use Rattle.dual_rail.specs.Rail.{Built, HasFunction};
ghost use Rattle.gate_sets.specs.NetSets.{AreNetRails, AreNetRefs, HaveInputs, sets_at};

use crate::by_halves::{rows_to_halve, sum_by_halves};
use crate::net_rails::NetRails;
use crate::piece::Piece;
use crate::row_list::RowList;
use dd_nodes::{Nodes, Ref};
use dd_ops::{OpFault, Ops};
use dual_rail::{both, either};
use net_core::Lit;
use std::alloc::Global;
use ste_base::NodeId;

/// The product so far with what a literal asks of one more input.
fn times<N: Nodes>(
    ops: &Ops,
    nodes: &mut N,
    all: Ref,
    lit: Lit,
    r: NetRails,
) -> Result<Ref, OpFault>
    requires all { IsRef (N.store nodes.old) all }
    requires rails { AreNetRefs (N.store nodes.old) r }
    ensures keeps { Keeps (N.store nodes.old) (N.store nodes.new) }
    ensures ref_of { IfOk result (λ p. IsRef (N.store nodes.new) p) }
    ensures built { (f : Function) (w : SymbolicSet)
        → Means (N.store nodes.old) f all → AreNetRails (N.store nodes.old) w r
        → Built (conjunction f (factor lit w) ∷ []) (HasFunction (conjunction f (factor lit w)))
        (N.store nodes.old) (N.store nodes.new) result }
{
    both(ops, nodes, all, r.factor(lit))
}

/// The product of a row of which only `-` are left from `from` on.
fn row_product<N: Nodes>(
    ops: &Ops,
    nodes: &mut N,
    all: Ref,
    from: usize,
    nets: &[NetRails],
    inputs: &[NodeId],
) -> Result<Ref, OpFault>
    requires all { IsRef (N.store nodes.old) all }
    requires from { from ≤ length inputs.now }
    requires inside { All (λ input. input.0 < length nets.now) inputs.now }
    requires refs { All (AreNetRefs (N.store nodes.old)) nets.now }
    ensures keeps { Keeps (N.store nodes.old) (N.store nodes.new) }
    ensures ref_of { IfOk result (λ r. IsRef (N.store nodes.new) r) }
    ensures built { (sets : ℕ → SymbolicSet) (row : List Lit)
        → length row ≡ length inputs.now
        → ((k : ℕ) → from ≤ k → k < length row → slice_index_or row k Any ≡ Any)
        → HaveInputs (N.store nodes.old) sets nets.now inputs.now
        → Means (N.store nodes.old)
        (product (take from (factors row (sets_at sets inputs.now)))) all
        → Built (products (factors row (sets_at sets inputs.now)))
        (HasFunction (product (factors row (sets_at sets inputs.now))))
        (N.store nodes.old) (N.store nodes.new) result }
{
    let mut whole = all;
    for k in from..inputs.len() {
        whole = times(ops, nodes, whole, Lit::Any, nets[inputs[k].0 as usize])?;
    }
    Ok(whole)
}

/// The sum so far with the product of a row of which only `-` are left.
fn add_row_product<N: Nodes>(
    ops: &Ops,
    nodes: &mut N,
    sum: Ref,
    all: Ref,
    from: usize,
    nets: &[NetRails],
    inputs: &[NodeId],
) -> Result<Ref, OpFault>
    requires sum { IsRef (N.store nodes.old) sum }
    requires all { IsRef (N.store nodes.old) all }
    requires from { from ≤ length inputs.now }
    requires inside { All (λ input. input.0 < length nets.now) inputs.now }
    requires refs { All (AreNetRefs (N.store nodes.old)) nets.now }
    ensures keeps { Keeps (N.store nodes.old) (N.store nodes.new) }
    ensures ref_of { IfOk result (λ r. IsRef (N.store nodes.new) r) }
    ensures built { (sets : ℕ → SymbolicSet) (row : List Lit) (f : Function)
        → length row ≡ length inputs.now
        → ((k : ℕ) → from ≤ k → k < length row → slice_index_or row k Any ≡ Any)
        → HaveInputs (N.store nodes.old) sets nets.now inputs.now
        → Means (N.store nodes.old) f sum
        → Means (N.store nodes.old)
        (product (take from (factors row (sets_at sets inputs.now)))) all
        → Built (disjunction f (product (factors row (sets_at sets inputs.now)))
        ∷ products (factors row (sets_at sets inputs.now)))
        (HasFunction (disjunction f (product (factors row (sets_at sets inputs.now)))))
        (N.store nodes.old) (N.store nodes.new) result }
{
    let whole = row_product(ops, nodes, all, from, nets, inputs)?;
    either(ops, nodes, sum, whole)
}

/// The sum of the products of the rows, one row after another.
fn row_by_row<N: Nodes>(
    ops: &Ops,
    nodes: &mut N,
    rows: &RowList,
    products: &mut [Ref],
    nets: &[NetRails],
    inputs: &[NodeId],
) -> Result<Ref, OpFault>
    requires width { rows.now.width ≡ length inputs.now }
    requires room { length inputs.now < length products.old }
    requires inside { All (λ input. input.0 < length nets.now) inputs.now }
    requires refs { All (AreNetRefs (N.store nodes.old)) nets.now }
    ensures room { length products.new ≡ length products.old }
    ensures built { (sets : ℕ → SymbolicSet)
        → HaveInputs (N.store nodes.old) sets nets.now inputs.now
        → Built (rows_work rows.now.list (sets_at sets inputs.now))
        (HasFunction (sum (row_products rows.now.list (sets_at sets inputs.now))))
        (N.store nodes.old) (N.store nodes.new) result }
{
    let mut sum = Ref::FALSE;
    let mut begun = 0;
    products[0] = Ref::TRUE;
    for piece in rows.pieces() {
        match *piece {
            Piece::Put(lit) => {
                let r = nets[inputs[begun].0 as usize];
                let all = times(ops, nodes, products[begun], lit, r)?;
                begun += 1;
                products[begun] = all;
            }
            Piece::Close(kept) => {
                sum = add_row_product(ops, nodes, sum, products[begun], begun, nets, inputs)?;
                begun = kept as usize;
            }
        }
    }
    Ok(sum)
}

/// The sum of the products of the rows: where some choice from the inputs' sets is matched by some
/// row. The inputs are nets by number. `products` lends room for the products of the first literals
/// of a row. A long list without `-` over variables in order is summed by halves.
pub fn rows_sum<N: Nodes>(
    alloc: Global,
    ops: &Ops,
    nodes: &mut N,
    rows: &RowList,
    products: &mut [Ref],
    nets: &[NetRails],
    inputs: &[NodeId],
) -> Result<Ref, OpFault>
    requires width { rows.now.width ≡ length inputs.now }
    requires room { length inputs.now < length products.old }
    requires inside { All (λ input. input.0 < length nets.now) inputs.now }
    requires refs { All (AreNetRefs (N.store nodes.old)) nets.now }
    ensures room { length products.new ≡ length products.old }
    ensures built { (sets : ℕ → SymbolicSet)
        → HaveInputs (N.store nodes.old) sets nets.now inputs.now
        → Built (rows_work rows.now.list (sets_at sets inputs.now))
        (HasFunction (sum (row_products rows.now.list (sets_at sets inputs.now))))
        (N.store nodes.old) (N.store nodes.new) result }
{
    match rows_to_halve(alloc, nodes, rows, nets, inputs)? {
        Some(full) => sum_by_halves(alloc, nodes, full.as_slice(), nets, inputs),
        None => row_by_row(ops, nodes, rows, products, nets, inputs),
    }
}
