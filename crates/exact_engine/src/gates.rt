//! The bits of gates, from those of their inputs; begin with `cover_ref`.

ghost use Rattle.std.specs.Prelude.{◌≡◌, ◌<◌, ℕ, All, Some, length};
ghost use Rattle.ste_base.specs.Functions.{Function};
ghost use Rattle.dd_nodes.specs.Stores.{IsRef, Means};
ghost use Rattle.net_core.specs.Work.{AreWide, chain, conjunction, disjunction, product, products, sum, whole};
ghost use Rattle.dual_rail.specs.Rail.{Built, HasFunction};
ghost use Rattle.exact_model.specs.ExactWork.{literal_factors, row_factors};
ghost use Rattle.exact_engine.specs.private.Bits.{AreAt, added_work, cover_function, cover_work, of_nodes, row_sums, rows_work};

use dd_nodes::{Nodes, Ref};
use dd_ops::{OpFault, Ops};
use dual_rail::{both, either, opposite};
use net_core::{Cover, Lit, Row};
use ste_base::NodeId;

/// The product so far with what a literal asks of one more bit. No negation is made.
fn times<N: Nodes>(ops: &Ops, nodes: &mut N, all: Ref, lit: Lit, bit: Ref) -> Result<Ref, OpFault>
    requires all { IsRef (N.store nodes.old) all }
    requires bit { IsRef (N.store nodes.old) bit }
    ensures { (f b : Function) → Means (N.store nodes.old) f all → Means (N.store nodes.old) b bit
        → Built (chain conjunction f (literal_factors lit b))
        (HasFunction (whole conjunction f (literal_factors lit b)))
        (N.store nodes.old) (N.store nodes.new) result }
{
    match lit {
        Lit::Zero => ops.ite(nodes, bit, Ref::FALSE, all),
        Lit::One => both(ops, nodes, all, bit),
        Lit::Any => Ok(all),
    }
}

/// Where a row matches the bits of these nets.
fn row_product<N: Nodes>(
    ops: &Ops,
    nodes: &mut N,
    row: &[Lit],
    inputs: &[NodeId],
    bits: &[Ref],
) -> Result<Ref, OpFault>
    requires wide { length row.now ≡ length inputs.now }
    requires within { All (λ input. input.0 < length bits.now) inputs.now }
    requires refs { All (IsRef (N.store nodes.old)) bits.now }
    ensures { (bit : ℕ → Function) → AreAt (N.store nodes.old) bit bits.now inputs.now
        → Built (products (row_factors row.now (of_nodes bit inputs.now)))
        (HasFunction (product (row_factors row.now (of_nodes bit inputs.now))))
        (N.store nodes.old) (N.store nodes.new) result }
{
    let mut all = Ref::TRUE;
    for k in 0..row.len() {
        all = times(ops, nodes, all, row[k], bits[inputs[k].0 as usize])?;
    }
    Ok(all)
}

/// The sum so far with the product of one more row.
fn add_row<N: Nodes>(
    ops: &Ops,
    nodes: &mut N,
    sum: Ref,
    row: &[Lit],
    inputs: &[NodeId],
    bits: &[Ref],
) -> Result<Ref, OpFault>
    requires sum { IsRef (N.store nodes.old) sum }
    requires wide { length row.now ≡ length inputs.now }
    requires within { All (λ input. input.0 < length bits.now) inputs.now }
    requires refs { All (IsRef (N.store nodes.old)) bits.now }
    ensures { (f : Function) (bit : ℕ → Function)
        → Means (N.store nodes.old) f sum → AreAt (N.store nodes.old) bit bits.now inputs.now
        → Built (added_work f (row_factors row.now (of_nodes bit inputs.now)))
        (HasFunction (disjunction f (product (row_factors row.now (of_nodes bit inputs.now)))))
        (N.store nodes.old) (N.store nodes.new) result }
{
    let all = row_product(ops, nodes, row, inputs, bits)?;
    either(ops, nodes, sum, all)
}

/// Where some row matches the bits of these nets.
fn rows_sum<N: Nodes>(
    ops: &Ops,
    nodes: &mut N,
    rows: &[Row],
    inputs: &[NodeId],
    bits: &[Ref],
) -> Result<Ref, OpFault>
    requires wide { AreWide rows.now (length inputs.now) }
    requires within { All (λ input. input.0 < length bits.now) inputs.now }
    requires refs { All (IsRef (N.store nodes.old)) bits.now }
    ensures { (bit : ℕ → Function) → AreAt (N.store nodes.old) bit bits.now inputs.now
        → Built (rows_work rows.now (of_nodes bit inputs.now))
        (HasFunction (sum (row_sums rows.now (of_nodes bit inputs.now))))
        (N.store nodes.old) (N.store nodes.new) result }
{
    let mut sum = Ref::FALSE;
    for row in rows {
        sum = add_row(ops, nodes, sum, row.as_slice(), inputs, bits)?;
    }
    Ok(sum)
}

/// The bit of a cover over the bits of these nets.
pub fn cover_ref<N: Nodes>(
    ops: &Ops,
    nodes: &mut N,
    cover: &Cover,
    inputs: &[NodeId],
    bits: &[Ref],
) -> Result<Ref, OpFault>
    requires wide { AreWide cover.now.rows (length inputs.now) }
    requires within { All (λ input. input.0 < length bits.now) inputs.now }
    requires refs { All (IsRef (N.store nodes.old)) bits.now }
    ensures { (bit : ℕ → Function) → AreAt (N.store nodes.old) bit bits.now inputs.now
        → Built (cover_work (Some cover.now) (of_nodes bit inputs.now))
        (HasFunction (cover_function (Some cover.now) (of_nodes bit inputs.now)))
        (N.store nodes.old) (N.store nodes.new) result }
{
    let sum = rows_sum(ops, nodes, cover.rows.as_slice(), inputs, bits)?;
    if cover.on {
        return Ok(sum);
    }
    opposite(ops, nodes, sum)
}
