//! Sums of long lists of rows whose inputs are variables in order, made from the last variable up:
//! each half of the rows gives one half of the sum. `rows_to_halve` says whether a list goes so,
//! and `sum_by_halves` sums it; `rows_sum` in `sums.rt` asks for both.

ghost use Rattle.std.specs.Prelude.{◌≡◌, ◌≢◌, ◌↔◌, ◌+◌, ◌<◌, ◌≤◌, ◌∷◌, [], ℕ, List, All, IfOk, IfSome, IsTrue, OnOk, drop, length, map, take, if◌then◌else◌};
ghost use Rattle.ste_base.specs.Functions.{Function};
ghost use Rattle.dd_nodes.specs.Diagram.{IsFrom};
ghost use Rattle.dd_ops.specs.Answer.{Answer};
ghost use Rattle.dd_ops.specs.Splitting.{Splits};
ghost use Rattle.std.specs.List.{flat_map, list_any};
ghost use Rattle.net_core.specs.declared.cover.Lit.{Lit};
ghost use Rattle.net_core.specs.Cases.{begins_with, half_of_rows, without_first};
ghost use Rattle.net_core.specs.Work.{AreWide, SymbolicSet, row_products, sum};
ghost use Rattle.dual_rail.specs.Rail.{Built, HasFunction};
ghost use Rattle.gate_sets.specs.NetSets.{AreNetRefs, HaveInputs, net_at, sets_at};
ghost use Rattle.gate_sets.specs.private.Ordered.{AreOrdered, IsFree, IsVariable};

use crate::net_rails::NetRails;
use crate::piece::Piece;
use crate::row_list::RowList;
use dd_nodes::{Nodes, Ref};
use dd_ops::OpFault;
use net_core::Lit;
use std::alloc::{AllocError, Global};
use ste_base::NodeId;

/// A list of at least so many pieces is long.
const LONG: usize = 256;

/// Whether the set has both bits everywhere.
fn is_free(r: NetRails) -> bool
    ensures { IsTrue result ↔ IsFree r }
{
    r.can0 == Ref::TRUE && r.can1 == Ref::TRUE
}

/// The set of an input.
fn set_of(nets: &[NetRails], input: NodeId) -> NetRails
    requires { input.0 < length nets.now }
    ensures { result ≡ net_at nets.now input.0 }
{
    nets[input.0 as usize]
}

/// The variable that a net has as its only bit; none where it has another set.
fn variable_of<N: Nodes>(nodes: &mut N, r: NetRails) -> Option<u32>
    requires { AreNetRefs (N.store nodes.old) r }
    ensures store { N.store nodes.new ≡ N.store nodes.old }
    ensures variable { IfSome result (λ v. IsVariable (N.store nodes.old) v r) }
{
    if !r.known || r.can1 == Ref::FALSE || r.can1 == Ref::TRUE {
        return None;
    }
    let node = nodes.node(r.can1);
    if node.lo == Ref::FALSE && node.hi == Ref::TRUE {
        Some(node.var)
    } else {
        None
    }
}

/// Whether each input is free, or a variable that comes before those of the inputs behind it.
fn are_ordered<N: Nodes>(nodes: &mut N, nets: &[NetRails], inputs: &[NodeId]) -> bool
    requires inside { All (λ input. input.0 < length nets.now) inputs.now }
    requires refs { All (AreNetRefs (N.store nodes.old)) nets.now }
    ensures store { N.store nodes.new ≡ N.store nodes.old }
    ensures ordered { IsTrue result → AreOrdered (N.store nodes.old) nets.now 0 inputs.now }
{
    let mut least = u32::MAX;
    let mut k = inputs.len();
    while k > 0 {
        k -= 1;
        let r = set_of(nets, inputs[k]);
        if !is_free(r) {
            match variable_of(nodes, r) {
                Some(v) if v < least => least = v,
                _ => return false,
            }
        }
    }
    true
}

/// The literals of a list's rows, row behind row; none where a `-` stands in some row.
fn full_rows(alloc: Global, rows: &RowList, width: usize) -> Result<Option<Vec<Lit>>, AllocError>
    requires { rows.now.width ≡ width }
    ensures literals { IfOk result (λ full. IfSome full
        (λ lits. lits.items ≡ flat_map (λ row. row) rows.now.list)) }
    ensures wide { IfOk result (λ full. IfSome full (λ lits. AreWide rows.now.list width)) }
{
    let mut full = Vec::new(alloc);
    let mut begun = Vec::with_capacity(alloc, width)?;
    for piece in rows.pieces() {
        match *piece {
            Piece::Put(lit) => {
                if lit == Lit::Any {
                    return Ok(None);
                }
                begun.push(lit)?;
            }
            Piece::Close(kept) => {
                if begun.len() != width {
                    return Ok(None);
                }
                full.extend_from_slice(begun.as_slice())?;
                begun.truncate(kept as usize);
            }
        }
    }
    Ok(Some(full))
}

/// The literals of the rows of a long list without `-`, row behind row, where there are inputs, and
/// they are variables in order, or free; none where they are not, or the list is another.
pub fn rows_to_halve<N: Nodes>(
    alloc: Global,
    nodes: &mut N,
    rows: &RowList,
    nets: &[NetRails],
    inputs: &[NodeId],
) -> Result<Option<Vec<Lit>>, AllocError>
    requires width { rows.now.width ≡ length inputs.now }
    requires inside { All (λ input. input.0 < length nets.now) inputs.now }
    requires refs { All (AreNetRefs (N.store nodes.old)) nets.now }
    ensures store { N.store nodes.new ≡ N.store nodes.old }
    ensures literals { IfOk result (λ found. IfSome found
        (λ full. full.items ≡ flat_map (λ row. row) rows.now.list)) }
    ensures wide { IfOk result (λ found. IfSome found
        (λ full. AreWide rows.now.list (length inputs.now))) }
    ensures inputs { IfOk result (λ found. IfSome found (λ full. 0 < length inputs.now)) }
    ensures some { IfOk result (λ found. IfSome found (λ full. rows.now.list ≢ [])) }
    ensures ordered { IfOk result (λ found. IfSome found
        (λ full. AreOrdered (N.store nodes.old) nets.now 0 inputs.now)) }
{
    if rows.size() < LONG {
        return Ok(None);
    }
    if inputs.is_empty() {
        return Ok(None);
    }
    if !are_ordered(nodes, nets, inputs) {
        return Ok(None);
    }
    full_rows(alloc, rows, inputs.len())
}

/// The rows whose literals these are, as slices of `width` literals each.
fn slices_of<'a>(alloc: Global, lits: &'a [Lit], width: usize) -> Result<Vec<&'a [Lit]>, AllocError>
    requires { 0 < width }
    ensures { (rows : List (List Lit)) → AreWide rows width
        → lits.now ≡ flat_map (λ row. row) rows
        → IfOk result (λ slices. map (λ row. row.now) slices.items ≡ rows) }
{
    let mut slices = Vec::with_capacity(alloc, lits.len() / width)?;
    let mut rest = lits;
    while rest.len() >= width {
        let (row, others) = rest.split_at(width);
        slices.push(row)?;
        rest = others;
    }
    Ok(slices)
}

/// The rows of a stack from a place on.
fn rows_from<'a, 'b>(stack: &'b Vec<&'a [Lit]>, begin: usize) -> &'b [&'a [Lit]]
    requires { begin ≤ length stack.now.items }
    ensures { result.now ≡ drop begin stack.now.items }
{
    &stack.as_slice()[begin..]
}

/// Whether a row begins with a literal that admits the bit, or has none.
fn begins_with(row: &[Lit], bit: bool) -> bool
    ensures { result ≡ begins_with bit row.now }
{
    match row.first() {
        Some(lit) => lit.admits(bit),
        None => true,
    }
}

/// The constant 1 where some row begins with a literal that admits the bit, and else the constant
/// 0.
fn some_admits(rows: &[&[Lit]], bit: bool) -> Ref
    ensures { result ≡ (if list_any (begins_with bit) (map (λ row. row.now) rows.now)
        then Ref.TRUE else Ref.FALSE) }
{
    for row in rows {
        if begins_with(*row, bit) {
            return Ref::TRUE;
        }
    }
    Ref::FALSE
}

/// A row without its first literal.
fn without_first<'a>(row: &'a [Lit]) -> &'a [Lit]
    ensures { result.now ≡ without_first row.now }
{
    match row.split_first() {
        Some((_, rest)) => rest,
        None => row,
    }
}

/// Adds to a stack, of its rows from a place on, those that begin with a literal that admits the
/// bit, each without it.
fn add_half(stack: &mut Vec<&[Lit]>, begin: usize, bit: bool) -> Result<(), AllocError>
    requires { begin ≤ length stack.old.items }
    ensures kept { OnOk result (take (length stack.old.items) stack.new.items ≡ stack.old.items) }
    ensures half { OnOk result (map (λ row. row.now) (drop (length stack.old.items) stack.new.items)
        ≡ half_of_rows bit (map (λ row. row.now) (drop begin stack.old.items))) }
{
    for place in begin..stack.len() {
        let row = stack[place];
        if begins_with(row, bit) {
            stack.push(without_first(row))?;
        }
    }
    Ok(())
}

/// Adds to a stack its rows from a place on, each without its first literal.
fn add_behind(stack: &mut Vec<&[Lit]>, begin: usize) -> Result<(), AllocError>
    requires { begin ≤ length stack.old.items }
    ensures kept { OnOk result (take (length stack.old.items) stack.new.items ≡ stack.old.items) }
    ensures rest { OnOk result (map (λ row. row.now) (drop (length stack.old.items) stack.new.items)
        ≡ map without_first (map (λ row. row.now) (drop begin stack.old.items))) }
{
    for place in begin..stack.len() {
        let row = stack[place];
        stack.push(without_first(row))?;
    }
    Ok(())
}

/// The function that is `lo` where the variable is 0, and `hi` where it is 1.
pub(crate) fn split_at<N: Nodes>(nodes: &mut N, var: u32, lo: Ref, hi: Ref) -> Result<Ref, OpFault>
    requires var { var < (N.store nodes.old).vars }
    requires lo { IsFrom (N.store nodes.old).held (var + 1) lo }
    requires hi { IsFrom (N.store nodes.old).held (var + 1) hi }
    ensures { (f : Function) → Splits (N.store nodes.old) var lo hi f
        → Answer f (N.store nodes.old) (N.store nodes.new) result }
{
    Ok(nodes.mk(var, lo, hi)?)
}

/// The sum of the products of the rows of a stack, from a place on, over inputs that are variables
/// in order, or free. Each node that is made is one of the sum's own, and calls are as deep as
/// there are inputs. The stack lends room for halves; it is left as it was.
fn sum_of<N: Nodes>(
    nodes: &mut N,
    stack: &mut Vec<&[Lit]>,
    begin: usize,
    nets: &[NetRails],
    inputs: &[NodeId],
) -> Result<Ref, OpFault>
    requires begin { begin ≤ length stack.old.items }
    requires inside { All (λ input. input.0 < length nets.now) inputs.now }
    requires refs { All (AreNetRefs (N.store nodes.old)) nets.now }
    requires ordered { (from : ℕ) × AreOrdered (N.store nodes.old) nets.now from inputs.now }
    ensures same { OnOk result (stack.new.items ≡ stack.old.items) }
    ensures built { (sets : ℕ → SymbolicSet)
        → HaveInputs (N.store nodes.old) sets nets.now inputs.now
        → Built (sum (row_products (map (λ row. row.now) (drop begin stack.old.items))
        (sets_at sets inputs.now)) ∷ [])
        (HasFunction (sum (row_products (map (λ row. row.now) (drop begin stack.old.items))
        (sets_at sets inputs.now))))
        (N.store nodes.old) (N.store nodes.new) result }
{
    if begin == stack.len() {
        return Ok(Ref::FALSE);
    }
    let Some((input, others)) = inputs.split_first() else {
        return Ok(Ref::TRUE)
    };
    let r = set_of(nets, *input);
    let end = stack.len();
    if is_free(r) {
        add_behind(stack, begin)?;
        let sum = sum_of(nodes, stack, end, nets, others);
        stack.truncate(end);
        return sum;
    }
    if others.is_empty() {
        let rows = rows_from(stack, begin);
        let lo = some_admits(rows, false);
        let hi = some_admits(rows, true);
        let var = nodes.node(r.can1).var;
        return split_at(nodes, var, lo, hi);
    }
    add_half(stack, begin, false)?;
    let lo = sum_of(nodes, stack, end, nets, others)?;
    stack.truncate(end);
    add_half(stack, begin, true)?;
    let hi = sum_of(nodes, stack, end, nets, others)?;
    stack.truncate(end);
    let var = nodes.node(r.can1).var;
    split_at(nodes, var, lo, hi)
}

/// The sum of the products of the rows whose literals these are, over inputs that are variables in
/// order, or free. Each node that is made is one of the sum's own. Each row is looked at once for
/// each input, and calls are as deep as there are inputs.
pub fn sum_by_halves<N: Nodes>(
    alloc: Global,
    nodes: &mut N,
    lits: &[Lit],
    nets: &[NetRails],
    inputs: &[NodeId],
) -> Result<Ref, OpFault>
    requires some { 0 < length inputs.now }
    requires inside { All (λ input. input.0 < length nets.now) inputs.now }
    requires refs { All (AreNetRefs (N.store nodes.old)) nets.now }
    requires ordered { (from : ℕ) × AreOrdered (N.store nodes.old) nets.now from inputs.now }
    ensures { (rows : List (List Lit)) → AreWide rows (length inputs.now)
        → lits.now ≡ flat_map (λ row. row) rows
        → (sets : ℕ → SymbolicSet)
        → HaveInputs (N.store nodes.old) sets nets.now inputs.now
        → Built (sum (row_products rows (sets_at sets inputs.now)) ∷ [])
        (HasFunction (sum (row_products rows (sets_at sets inputs.now))))
        (N.store nodes.old) (N.store nodes.new) result }
{
    let mut stack = slices_of(alloc, lits, inputs.len())?;
    sum_of(nodes, &mut stack, 0, nets, inputs)
}
