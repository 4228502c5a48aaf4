//! Which way the set that a gate gives is found. `cover_set` chooses among the ways, which are in
//! `gates.rt`, `one_row.rt`, `by_table.rt` and `sums.rt`; the list above it has them in their
//! order. `gate_set` asks it for a gate of a net. `constant_set` is the first way, which is tried
//! before a store is asked for anything.

ghost use Rattle.std.specs.Prelude.{◌≡◌, ◌≢◌, ◌<◌, ◌≤◌, ◌∷◌, [], not, ℕ, Bool, List, All, IfSome, IsTrue, None, Some, length, slice_get};
ghost use Rattle.dd_nodes.specs.Diagram.{IsDiagram};
ghost use Rattle.dd_nodes.specs.Stores.{Store};
ghost use Rattle.net_core.specs.declared.cover.Cover.{Cover as ACover};
ghost use Rattle.net_core.specs.Cases.{on_rows, off_rows};
ghost use Rattle.net_core.specs.Cover.{IsCover, some_matches};
ghost use Rattle.net_core.specs.Work.{AreWide, SymbolicSet, cover_work, gate_set, gate_work, input_sets, output_set};
ghost use Rattle.dual_rail.specs.Rail.{Built, HasSet};
ghost use Rattle.gate_sets.specs.declared.filling.Filling.TheVariants.{MayBeEmpty};
ghost use Rattle.gate_sets.specs.Fillings.{AreFilled};
ghost use Rattle.gate_sets.specs.Lists.{rows_of};
ghost use Rattle.gate_sets.specs.NetSets.{AreNetRails, AreNetRefs, HaveInputs, net_at, sets_at};
ghost use Rattle.gate_sets.specs.Constants.{HaveChoice};
ghost use Rattle.gate_sets.specs.private.Refused.{is_rising};
ghost use Rattle.gate_sets.specs.private.TruthTables.{AreTables, HaveTables};

use crate::by_table::{Scratch, by_table};
use crate::choices::{CHOICES, choice_of};
use crate::compiled::Compiled;
use crate::filling::Filling;
use crate::gates::{by_rows, by_shorter, exclusive, only_exclusive, only_pair, pair};
use crate::net_rails::NetRails;
use crate::one_row::{by_row, only_rising};
use crate::rows::CoverRows;
use crate::truth_table::{MOST_INPUTS, TruthTables};
use dd_nodes::{Nodes, Ref};
use dd_ops::{OpFault, Ops};
use dual_rail::Rails;
use net_core::{Cover, Gate, Lit};
use std::alloc::Global;
use ste_base::NodeId;

/// The set that a gate of this cover gives. Of the ways of this list the first one is taken that
/// fits:
///
/// | Way | Where | What it takes | File |
/// |---|---|---|---|
/// | constants | at most three inputs, whose sets are constants (`constant_set`) | a look at a word | `choices.rt` |
/// | pair | two inputs, a list of one row with two literals | a product and a sum | `gates.rt` |
/// | exclusive | two inputs of two values, an exclusive OR or its opposite | two differences | `gates.rt` |
/// | one row | three inputs or more, not all of two values, one row: ones but for its last literal | two chains | `one_row.rt` |
/// | tables | three to six inputs, several rows | a recursion of few steps, or what follows | `by_table.rt` |
/// | shorter | none or several inputs of two values | a sum and a negation | `gates.rt` |
/// | rows | any other | two sums | `gates.rt` |
///
/// Where an input may be empty only constants and rows fit. A sum of rows is made by halves where
/// its list is long, has no `-` and its inputs are variables in order, else row by row (`sums.rt`).
/// `products` lends room for the products of the first literals of a row.
fn cover_set<N: Nodes>(
    alloc: Global,
    ops: &Ops,
    nodes: &mut N,
    cover: &Cover,
    rows: &CoverRows,
    tables: TruthTables,
    products: &mut [Ref],
    scratch: &mut Scratch,
    nets: &[NetRails],
    inputs: &[NodeId],
    filling: Filling,
) -> Result<Rails, OpFault>
    requires sound { IsCover cover.now }
    requires width { cover.now.inputs ≡ length inputs.now }
    requires rows { rows.now ≡ rows_of cover.now }
    requires tables { HaveTables rows.now tables }
    requires filled { AreFilled filling nets.now inputs.now }
    requires room { length inputs.now < length products.old }
    requires inside { All (λ input. input.0 < length nets.now) inputs.now }
    requires refs { All (AreNetRefs (N.store nodes.old)) nets.now }
    ensures room { length products.new ≡ length products.old }
    ensures built { (sets : ℕ → SymbolicSet)
        → HaveInputs (N.store nodes.old) sets nets.now inputs.now
        → Built (gate_work (on_rows cover.now) (off_rows cover.now) (sets_at sets inputs.now))
        (HasSet (gate_set (on_rows cover.now) (off_rows cover.now) (sets_at sets inputs.now)))
        (N.store nodes.old) (N.store nodes.new) result }
{
    let full = filling.is_full();
    if full && inputs.len() == 2 {
        let a = nets[inputs[0].0 as usize];
        let b = nets[inputs[1].0 as usize];
        if let Some((x, y)) = only_pair(&rows.on) {
            return pair(ops, nodes, x, y, a, b);
        }
        if let Some((x, y)) = only_pair(&rows.off) {
            let swapped = pair(ops, nodes, x, y, a, b)?;
            return Ok(Rails {
                can0: swapped.can1,
                can1: swapped.can0,
            });
        }
        if a.known && b.known {
            if let Some((x, y)) = only_exclusive(&rows.on) {
                return exclusive(ops, nodes, x, y, a, b);
            }
        }
    }
    if full && !filling.is_known() && inputs.len() > 2 {
        if let Some(row) = only_rising(cover) {
            return rising_gate(alloc, ops, nodes, cover, rows, row, products, nets, inputs);
        }
    }
    if full && is_few(inputs.len(), cover, rows) {
        return few_gate(
            alloc, ops, nodes, rows, tables, products, scratch, nets, inputs, filling,
        );
    }
    by_sums(alloc, ops, nodes, rows, products, nets, inputs, filling)
}

/// The set that a gate gives whose cover has this row alone, with ones but for its last literal,
/// where no input is empty.
fn rising_gate<N: Nodes>(
    alloc: Global,
    ops: &Ops,
    nodes: &mut N,
    cover: &Cover,
    rows: &CoverRows,
    row: &[Lit],
    products: &mut [Ref],
    nets: &[NetRails],
    inputs: &[NodeId],
) -> Result<Rails, OpFault>
    requires sound { IsCover cover.now }
    requires width { cover.now.inputs ≡ length inputs.now }
    requires rows { rows.now ≡ rows_of cover.now }
    requires row { cover.now.rows ≡ row.now ∷ [] }
    requires rises { IsTrue (is_rising row.now) }
    requires full { All (λ input. (net_at nets.now input.0).some ≡ Ref.TRUE) inputs.now }
    requires room { length inputs.now < length products.old }
    requires inside { All (λ input. input.0 < length nets.now) inputs.now }
    requires refs { All (AreNetRefs (N.store nodes.old)) nets.now }
    ensures room { length products.new ≡ length products.old }
    ensures built { (sets : ℕ → SymbolicSet)
        → HaveInputs (N.store nodes.old) sets nets.now inputs.now
        → Built (gate_work (on_rows cover.now) (off_rows cover.now) (sets_at sets inputs.now))
        (HasSet (gate_set (on_rows cover.now) (off_rows cover.now) (sets_at sets inputs.now)))
        (N.store nodes.old) (N.store nodes.new) result }
{
    if cover.on {
        return by_row(alloc, ops, nodes, &rows.on, row, products, nets, inputs);
    }
    let swapped = by_row(alloc, ops, nodes, &rows.off, row, products, nets, inputs)?;
    Ok(Rails {
        can0: swapped.can1,
        can1: swapped.can0,
    })
}

/// The set that a gate of few inputs gives, none of which is empty anywhere: by its tables where
/// few steps give it, else by sums of the rows of its cover.
fn few_gate<N: Nodes>(
    alloc: Global,
    ops: &Ops,
    nodes: &mut N,
    rows: &CoverRows,
    tables: TruthTables,
    products: &mut [Ref],
    scratch: &mut Scratch,
    nets: &[NetRails],
    inputs: &[NodeId],
    filling: Filling,
) -> Result<Rails, OpFault>
    requires few { length inputs.now ≤ 6 }
    requires on { rows.now.on.width ≡ length inputs.now }
    requires off { rows.now.off.width ≡ length inputs.now }
    requires wide_on { AreWide rows.now.on.list (length inputs.now) }
    requires wide_off { AreWide rows.now.off.list (length inputs.now) }
    requires some_on { rows.now.on.list ≢ [] }
    requires some_off { rows.now.off.list ≢ [] }
    requires apart { (bits : List Bool) → length bits ≡ length inputs.now
        → some_matches rows.now.off.list bits ≡ not (some_matches rows.now.on.list bits) }
    requires tables { AreTables rows.now.on.list rows.now.off.list (length inputs.now) tables }
    requires full { filling ≢ MayBeEmpty }
    requires filled { AreFilled filling nets.now inputs.now }
    requires room { length inputs.now < length products.old }
    requires inside { All (λ input. input.0 < length nets.now) inputs.now }
    requires refs { All (AreNetRefs (N.store nodes.old)) nets.now }
    ensures room { length products.new ≡ length products.old }
    ensures built { (sets : ℕ → SymbolicSet)
        → HaveInputs (N.store nodes.old) sets nets.now inputs.now
        → Built (gate_work rows.now.on.list rows.now.off.list (sets_at sets inputs.now))
        (HasSet (gate_set rows.now.on.list rows.now.off.list (sets_at sets inputs.now)))
        (N.store nodes.old) (N.store nodes.new) result }
{
    let found = by_table(alloc, nodes, tables, scratch, nets, inputs)?;
    match found {
        Some(rails) => Ok(rails),
        None => by_sums(alloc, ops, nodes, rows, products, nets, inputs, filling),
    }
}

/// Whether a gate of so many inputs is tried by tables first: one of more than two, whose cover has
/// several rows.
fn is_few(inputs: usize, cover: &Cover, rows: &CoverRows) -> bool
    ensures few { IsTrue result → inputs ≤ 6 }
    ensures on { IsTrue result → rows.now.on.list ≢ [] }
    ensures off { IsTrue result → rows.now.off.list ≢ [] }
{
    2 < inputs
        && inputs <= MOST_INPUTS
        && 1 < cover.rows.len()
        && 0 < rows.on.size()
        && 0 < rows.off.size()
}

/// The set that a gate gives, by sums of the rows of its cover: of the shorter list, where each of
/// two inputs or more has exactly one bit, else of both. One input's rails are held already, so
/// that nothing is called for a buffer or an inverter.
fn by_sums<N: Nodes>(
    alloc: Global,
    ops: &Ops,
    nodes: &mut N,
    rows: &CoverRows,
    products: &mut [Ref],
    nets: &[NetRails],
    inputs: &[NodeId],
    filling: Filling,
) -> Result<Rails, OpFault>
    requires on { rows.now.on.width ≡ length inputs.now }
    requires off { rows.now.off.width ≡ length inputs.now }
    requires wide_on { AreWide rows.now.on.list (length inputs.now) }
    requires wide_off { AreWide rows.now.off.list (length inputs.now) }
    requires apart { (bits : List Bool) → length bits ≡ length inputs.now
        → some_matches rows.now.off.list bits ≡ not (some_matches rows.now.on.list bits) }
    requires filled { AreFilled filling nets.now inputs.now }
    requires room { length inputs.now < length products.old }
    requires inside { All (λ input. input.0 < length nets.now) inputs.now }
    requires refs { All (AreNetRefs (N.store nodes.old)) nets.now }
    ensures room { length products.new ≡ length products.old }
    ensures built { (sets : ℕ → SymbolicSet)
        → HaveInputs (N.store nodes.old) sets nets.now inputs.now
        → Built (gate_work rows.now.on.list rows.now.off.list (sets_at sets inputs.now))
        (HasSet (gate_set rows.now.on.list rows.now.off.list (sets_at sets inputs.now)))
        (N.store nodes.old) (N.store nodes.new) result }
{
    if filling.is_known() && inputs.len() != 1 {
        return by_shorter(alloc, ops, nodes, rows, products, nets, inputs);
    }
    by_rows(alloc, ops, nodes, rows, products, nets, inputs)
}

/// The set that a gate of a net gives, before any cut of its output, where its inputs have these
/// sets, and so much is known of them.
pub fn gate_set<N: Nodes>(
    alloc: Global,
    ops: &Ops,
    nodes: &mut N,
    net: &Compiled,
    products: &mut [Ref],
    scratch: &mut Scratch,
    nets: &[NetRails],
    g: &Gate,
    filling: Filling,
) -> Result<Rails, OpFault>
    requires width { (cover : ACover) → slice_get net.now.raw.covers g.now.cover ≡ Some cover
        → cover.inputs ≡ length g.now.inputs }
    requires cover { g.now.cover < length net.now.raw.covers }
    requires filled { AreFilled filling nets.now g.now.inputs }
    requires room { length g.now.inputs < length products.old }
    requires inside { All (λ input. input.0 < length nets.now) g.now.inputs }
    requires refs { All (AreNetRefs (N.store nodes.old)) nets.now }
    ensures room { length products.new ≡ length products.old }
    ensures built { (sets : ℕ → SymbolicSet)
        → HaveInputs (N.store nodes.old) sets nets.now g.now.inputs
        → Built (cover_work (slice_get net.now.raw.covers g.now.cover) (input_sets sets g.now))
        (HasSet (output_set net.now.raw sets g.now))
        (N.store nodes.old) (N.store nodes.new) result }
{
    let number = g.cover as usize;
    let cover = net.cover(number);
    let rows = net.lists(number);
    let tables = net.tables(number);
    let inputs = g.inputs.as_slice();
    cover_set(
        alloc, ops, nodes, cover, rows, tables, products, scratch, nets, inputs, filling,
    )
}

/// The set of a gate's output by the first way of `cover_set`, where no cut is of it: it is read
/// from a word of the gate's cover, where the inputs are at most three, and their sets are
/// constants. Nothing is called, whatever the rows are.
#[inline]
pub fn constant_set(net: &Compiled, nets: &[NetRails], g: &Gate) -> Option<NetRails>
    requires width { (cover : ACover) → slice_get net.now.raw.covers g.now.cover ≡ Some cover
        → cover.inputs ≡ length g.now.inputs }
    requires cover { g.now.cover < length net.now.raw.covers }
    requires inside { All (λ input. input.0 < length nets.now) g.now.inputs }
    ensures set { IfSome result (λ r. (s : Store) (sets : ℕ → SymbolicSet)
        → IsDiagram s.held s.vars → HaveInputs s sets nets.now g.now.inputs
        → AreNetRails s (output_set net.now.raw sets g.now) r) }
    ensures none { result ≡ None → HaveChoice nets.now g.now.inputs → ⊥ }
{
    let choice = choice_of(nets, g.inputs.as_slice());
    if choice >= CHOICES {
        return None;
    }
    Some(net.choices(g.cover as usize).net(choice))
}
