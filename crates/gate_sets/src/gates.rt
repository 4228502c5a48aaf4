//! Ways of few operations: a pair of literals (`pair`), an exclusive OR (`exclusive`), one sum and
//! its negation (`by_shorter`), and the sums of both lists of rows (`by_rows`), which is the way of
//! all gates that no other way fits. A sum of rows is `rows_sum` in `sums.rt`. Which of them is
//! taken says `cover_set` in `ways.rt`.

ghost use Rattle.std.specs.Prelude.{◌≡◌, ◌≢◌, ◌<◌, ◌∷◌, [], ℕ, Bool, true, List, All, IfSome, IsTrue, length, not};
ghost use Rattle.net_core.specs.declared.cover.Lit.TheVariants.{Any};
ghost use Rattle.net_core.specs.Cover.{some_matches};
ghost use Rattle.net_core.specs.Work.{AreWide, SymbolicSet, conjunction, disjunction, factor, gate_set, gate_work};
ghost use Rattle.dd_nodes.specs.Stores.{IsRef, Means};
ghost use Rattle.dual_rail.specs.Rail.{Built, HasFunction, HasSet};
ghost use Rattle.gate_sets.specs.private.Refused.{agree, differ, exclusive_rows, flipped, list_set, list_work, other_factor};
ghost use Rattle.gate_sets.specs.NetSets.{AreNetRails, AreNetRefs, HaveInputs, net_at, sets_at};

use crate::net_rails::NetRails;
use crate::piece::Piece;
use crate::row_list::RowList;
use crate::rows::CoverRows;
use crate::sums::rows_sum;
use dd_nodes::{Nodes, Ref};
use dd_ops::{OpFault, Ops};
use dual_rail::{Rails, are_constant, both, either, opposite};
use net_core::Lit;
use std::alloc::Global;
use ste_base::NodeId;

/// The literals of the only row of a list over two inputs; none where there are more rows, or the
/// second literal is `-`.
pub fn only_pair(rows: &RowList) -> Option<(Lit, Lit)>
    requires { rows.now.width ≡ 2 }
    ensures row { IfSome result (λ p. rows.now.list ≡ (p.0 ∷ p.1 ∷ []) ∷ []) }
    ensures some { IfSome result (λ p. p.1 ≢ Any) }
{
    match rows.pieces() {
        [Piece::Put(x), Piece::Put(y), Piece::Close(_)] if *y != Lit::Any => Some((*x, *y)),
        _ => None,
    }
}

/// From a row of two literals: where both admit some bit of their inputs, and where one of them
/// refuses some bit.
pub fn pair<N: Nodes>(
    ops: &Ops,
    nodes: &mut N,
    x: Lit,
    y: Lit,
    a: NetRails,
    b: NetRails,
) -> Result<Rails, OpFault>
    requires first { AreNetRefs (N.store nodes.old) a }
    requires second { AreNetRefs (N.store nodes.old) b }
    ensures { (v w : SymbolicSet)
        → AreNetRails (N.store nodes.old) v a → AreNetRails (N.store nodes.old) w b
        → Built (conjunction (factor x v) (factor y w)
        ∷ disjunction (other_factor x v) (other_factor y w) ∷ [])
        (HasSet (record {
          zero = disjunction (other_factor x v) (other_factor y w);
          one = conjunction (factor x v) (factor y w);
        }))
        (N.store nodes.old) (N.store nodes.new) result }
{
    let can1 = both(ops, nodes, a.factor(x), b.factor(y))?;
    let can0 = refused_by_pair(ops, nodes, x, y, a, b, can1)?;
    Ok(Rails { can0, can1 })
}

/// Where one of two literals refuses some bit, `can1` being where both admit some. Where each input
/// has exactly one bit, and one literal decides alone, nothing is called; nor is it where both
/// refuse constants.
fn refused_by_pair<N: Nodes>(
    ops: &Ops,
    nodes: &mut N,
    x: Lit,
    y: Lit,
    a: NetRails,
    b: NetRails,
    can1: Ref,
) -> Result<Ref, OpFault>
    requires first { AreNetRefs (N.store nodes.old) a }
    requires second { AreNetRefs (N.store nodes.old) b }
    requires admitted { IsRef (N.store nodes.old) can1 }
    ensures { (v w : SymbolicSet)
        → AreNetRails (N.store nodes.old) v a → AreNetRails (N.store nodes.old) w b
        → Means (N.store nodes.old) (conjunction (factor x v) (factor y w)) can1
        → Built (disjunction (other_factor x v) (other_factor y w) ∷ [])
        (HasFunction (disjunction (other_factor x v) (other_factor y w)))
        (N.store nodes.old) (N.store nodes.new) result }
{
    let first = a.other(x);
    let second = b.other(y);
    if a.known && b.known && !are_constant(first, second) {
        if can1 == a.factor(x) {
            return Ok(first);
        }
        if can1 == b.factor(y) {
            return Ok(second);
        }
    }
    either(ops, nodes, first, second)
}

/// Whether one literal is 0 and the other 1.
fn are_opposed(x: Lit, y: Lit) -> bool
    ensures { IsTrue result → (y ≡ flipped x) × (x ≢ Any) }
{
    match (x, y) {
        (Lit::Zero, Lit::One) => true,
        (Lit::One, Lit::Zero) => true,
        _ => false,
    }
}

/// The literals of the first row of an exclusive OR, or of its opposite.
pub fn only_exclusive(rows: &RowList) -> Option<(Lit, Lit)>
    requires { rows.now.width ≡ 2 }
    ensures rows { IfSome result (λ p. rows.now.list ≡ exclusive_rows p.0 p.1) }
    ensures first { IfSome result (λ p. p.0 ≢ Any) }
    ensures second { IfSome result (λ p. p.1 ≢ Any) }
{
    match rows.pieces() {
        [
            Piece::Put(x),
            Piece::Put(y),
            Piece::Close(0),
            Piece::Put(v),
            Piece::Put(w),
            Piece::Close(_),
        ] if are_opposed(*x, *v) && are_opposed(*y, *w) => Some((*x, *y)),
        _ => None,
    }
}

/// The set of an exclusive OR of two inputs that each have exactly one bit, by the literals of its
/// first row: where what the first one asks differs from what the second one refuses, and where it
/// differs from what the second one asks. Where the first one asks for a constant nothing is
/// called.
pub fn exclusive<N: Nodes>(
    ops: &Ops,
    nodes: &mut N,
    x: Lit,
    y: Lit,
    a: NetRails,
    b: NetRails,
) -> Result<Rails, OpFault>
    requires first { AreNetRefs (N.store nodes.old) a }
    requires second { AreNetRefs (N.store nodes.old) b }
    requires known { b.known ≡ true }
    ensures { (v w : SymbolicSet)
        → AreNetRails (N.store nodes.old) v a → AreNetRails (N.store nodes.old) w b
        → Built (differ x y v w ∷ agree x y v w ∷ [])
        (HasSet (record { zero = agree x y v w; one = differ x y v w }))
        (N.store nodes.old) (N.store nodes.new) result }
{
    let test = a.factor(x);
    let admitted = b.factor(y);
    let refused = b.other(y);
    if test == Ref::TRUE {
        return Ok(Rails {
            can0: refused,
            can1: admitted,
        });
    }
    if test == Ref::FALSE {
        return Ok(Rails {
            can0: admitted,
            can1: refused,
        });
    }
    let can1 = ops.xor(nodes, test, refused)?;
    let can0 = ops.xor(nodes, test, admitted)?;
    Ok(Rails { can0, can1 })
}

/// Where some row of a list matches, and where none does, of inputs that each have exactly one bit:
/// one sum, and its negation.
fn by_list<N: Nodes>(
    alloc: Global,
    ops: &Ops,
    nodes: &mut N,
    rows: &RowList,
    products: &mut [Ref],
    nets: &[NetRails],
    inputs: &[NodeId],
) -> Result<Rails, OpFault>
    requires width { rows.now.width ≡ length inputs.now }
    requires room { length inputs.now < length products.old }
    requires inside { All (λ input. input.0 < length nets.now) inputs.now }
    requires refs { All (AreNetRefs (N.store nodes.old)) nets.now }
    ensures room { length products.new ≡ length products.old }
    ensures built { (sets : ℕ → SymbolicSet)
        → HaveInputs (N.store nodes.old) sets nets.now inputs.now
        → Built (list_work rows.now.list (sets_at sets inputs.now))
        (HasSet (list_set rows.now.list (sets_at sets inputs.now)))
        (N.store nodes.old) (N.store nodes.new) result }
{
    let can1 = rows_sum(alloc, ops, nodes, rows, products, nets, inputs)?;
    let can0 = opposite(ops, nodes, can1)?;
    Ok(Rails { can0, can1 })
}

/// The set that a gate gives, where each input has exactly one bit everywhere: the sum of its
/// shorter list of rows, and the negation of this.
pub fn by_shorter<N: Nodes>(
    alloc: Global,
    ops: &Ops,
    nodes: &mut N,
    rows: &CoverRows,
    products: &mut [Ref],
    nets: &[NetRails],
    inputs: &[NodeId],
) -> Result<Rails, OpFault>
    requires on { rows.now.on.width ≡ length inputs.now }
    requires off { rows.now.off.width ≡ length inputs.now }
    requires wide_on { AreWide rows.now.on.list (length inputs.now) }
    requires wide_off { AreWide rows.now.off.list (length inputs.now) }
    requires apart { (bits : List Bool) → length bits ≡ length inputs.now
        → some_matches rows.now.off.list bits ≡ not (some_matches rows.now.on.list bits) }
    requires known { All (λ input. (net_at nets.now input.0).known ≡ true) inputs.now }
    requires room { length inputs.now < length products.old }
    requires inside { All (λ input. input.0 < length nets.now) inputs.now }
    requires refs { All (AreNetRefs (N.store nodes.old)) nets.now }
    ensures room { length products.new ≡ length products.old }
    ensures built { (sets : ℕ → SymbolicSet)
        → HaveInputs (N.store nodes.old) sets nets.now inputs.now
        → Built (gate_work rows.now.on.list rows.now.off.list (sets_at sets inputs.now))
        (HasSet (gate_set rows.now.on.list rows.now.off.list (sets_at sets inputs.now)))
        (N.store nodes.old) (N.store nodes.new) result }
{
    if rows.on.size() <= rows.off.size() {
        return by_list(alloc, ops, nodes, &rows.on, products, nets, inputs);
    }
    let opposed = by_list(alloc, ops, nodes, &rows.off, products, nets, inputs)?;
    Ok(Rails {
        can0: opposed.can1,
        can1: opposed.can0,
    })
}

/// The set that a gate gives, by the sums of both its lists of rows.
pub fn by_rows<N: Nodes>(
    alloc: Global,
    ops: &Ops,
    nodes: &mut N,
    rows: &CoverRows,
    products: &mut [Ref],
    nets: &[NetRails],
    inputs: &[NodeId],
) -> Result<Rails, OpFault>
    requires on { rows.now.on.width ≡ length inputs.now }
    requires off { rows.now.off.width ≡ length inputs.now }
    requires room { length inputs.now < length products.old }
    requires inside { All (λ input. input.0 < length nets.now) inputs.now }
    requires refs { All (AreNetRefs (N.store nodes.old)) nets.now }
    ensures room { length products.new ≡ length products.old }
    ensures built { (sets : ℕ → SymbolicSet)
        → HaveInputs (N.store nodes.old) sets nets.now inputs.now
        → Built (gate_work rows.now.on.list rows.now.off.list (sets_at sets inputs.now))
        (HasSet (gate_set rows.now.on.list rows.now.off.list (sets_at sets inputs.now)))
        (N.store nodes.old) (N.store nodes.new) result }
{
    let can1 = rows_sum(alloc, ops, nodes, &rows.on, products, nets, inputs)?;
    let can0 = rows_sum(alloc, ops, nodes, &rows.off, products, nets, inputs)?;
    Ok(Rails { can0, can1 })
}
