//! Gates of three to six inputs, by truth tables: both rails in one recursion over the variables,
//! which makes no node but the result's own, and gives up after 1,024 steps. Begin with `by_table`;
//! what a table says alone is in `truth_table.rt`, what was found on the way in `gate_memo.rt`.

ghost use Rattle.std.specs.Prelude.{◌≡◌, ◌≤◌, ◌<◌, ◌+◌, ◌∷◌, [], ℕ, All, IfOk, OnOk, drop, length, map, take};
ghost use Rattle.ste_base.specs.Functions.{Function};
ghost use Rattle.dd_nodes.specs.Diagram.{IsFrom, child};
ghost use Rattle.dd_nodes.specs.Stores.{IsRef, Keeps};
ghost use Rattle.dd_ops.specs.Splitting.{Splits};
ghost use Rattle.dual_rail.specs.Rail.{AreRefs, Built, HasSet};
ghost use Rattle.net_core.specs.Work.{SymbolicSet};
ghost use Rattle.gate_sets.specs.NetSets.{AreNetRefs, HaveInputs, net_at, sets_at};
ghost use Rattle.gate_sets.specs.private.TruthTables.{AreAlike, AreFrom, AreMet, HasSetOrNot, IsFull, choice_of_rails, half_rails, rails_of, set_by_tables, table_choice};

use crate::by_halves::split_at;
use crate::gate_memo::{GateMemo, slot_of};
use crate::net_rails::NetRails;
use crate::truth_table::{TruthTables, decided_set, settle};
use dd_nodes::{Nodes, Ref};
use dd_ops::OpFault;
use dual_rail::Rails;
use std::alloc::{AllocError, Global};
use ste_base::NodeId;

/// The first variable that a reference reads, or the given one where that comes before it, or there
/// is none.
fn first_of<N: Nodes>(nodes: &mut N, r: Ref, least: u32) -> u32
    requires refs { IsRef (N.store nodes.old) r }
    ensures store { N.store nodes.new ≡ N.store nodes.old }
    ensures from { IsFrom (N.store nodes.old).held result r }
    ensures most { result ≤ least }
{
    if r.0 < 2 {
        return least;
    }
    let var = nodes.node(r).var;
    if var < least { var } else { least }
}

/// The first variable that some reference reads, or a number that is none.
fn first_variable<N: Nodes>(nodes: &mut N, operands: &[Rails]) -> u32
    requires refs { All (AreRefs (N.store nodes.old)) operands.now }
    ensures store { N.store nodes.new ≡ N.store nodes.old }
    ensures from { All (AreFrom (N.store nodes.old).held result) operands.now }
{
    let mut var = u32::MAX;
    for r in operands {
        var = first_of(nodes, r.can0, var);
        var = first_of(nodes, r.can1, var);
    }
    var
}

/// The reference with a variable fixed to a bit. It reads no earlier variable.
fn child_of<N: Nodes>(nodes: &mut N, r: Ref, var: u32, bit: bool) -> Ref
    requires refs { IsRef (N.store nodes.old) r }
    ensures store { N.store nodes.new ≡ N.store nodes.old }
    ensures child { result ≡ child (N.store nodes.old).held var bit r }
{
    if r.0 < 2 {
        return r;
    }
    let node = nodes.node(r);
    if node.var != var {
        return r;
    }
    if bit { node.hi } else { node.lo }
}

/// Adds to a stack, of its references from a place on, those with a variable fixed to a bit.
fn add_half<N: Nodes>(
    nodes: &mut N,
    stack: &mut Vec<Rails>,
    begin: usize,
    var: u32,
    bit: bool,
) -> Result<(), AllocError>
    requires begin { begin ≤ length stack.old.items }
    requires refs { All (AreRefs (N.store nodes.old)) (drop begin stack.old.items) }
    ensures store { N.store nodes.new ≡ N.store nodes.old }
    ensures kept { OnOk result (take (length stack.old.items) stack.new.items ≡ stack.old.items) }
    ensures half { OnOk result (drop (length stack.old.items) stack.new.items
        ≡ map (half_rails (N.store nodes.old).held var bit) (drop begin stack.old.items)) }
{
    for place in begin..stack.len() {
        let r = stack[place];
        let can0 = child_of(nodes, r.can0, var, bit);
        let can1 = child_of(nodes, r.can1, var, bit);
        stack.push(Rails { can0, can1 })?;
    }
    Ok(())
}

/// The part of a stack from a place on.
fn operands_from(stack: &Vec<Rails>, begin: usize) -> &[Rails]
    requires { begin ≤ length stack.now.items }
    ensures { result.now ≡ drop begin stack.now.items }
{
    &stack.as_slice()[begin..]
}

/// The same as `settle` for the references of a stack from a place on.
fn settle_from(tables: TruthTables, stack: &mut Vec<Rails>, begin: usize) -> TruthTables
    requires begin { begin ≤ length stack.old.items }
    requires few { length (drop begin stack.old.items) ≤ 6 }
    ensures kept { take begin stack.new.items ≡ take begin stack.old.items }
    ensures long { length stack.new.items ≡ length stack.old.items }
    ensures alike { AreAlike tables result (drop begin stack.old.items)
        (drop begin stack.new.items) }
{
    settle(tables, &mut stack.as_mut_slice()[begin..])
}

/// The set that is `lo` where the variable is 0, and `hi` where it is 1.
fn split_set<N: Nodes>(nodes: &mut N, var: u32, lo: Rails, hi: Rails) -> Result<Rails, OpFault>
    requires var { var < (N.store nodes.old).vars }
    requires lo { AreFrom (N.store nodes.old).held (var + 1) lo }
    requires hi { AreFrom (N.store nodes.old).held (var + 1) hi }
    ensures { (f g : Function)
        → Splits (N.store nodes.old) var lo.can0 hi.can0 f
        → Splits (N.store nodes.old) var lo.can1 hi.can1 g
        → Built (f ∷ g ∷ []) (HasSet (record { zero = f; one = g }))
        (N.store nodes.old) (N.store nodes.new) result }
{
    let can0 = split_at(nodes, var, lo.can0, hi.can0)?;
    let can1 = split_at(nodes, var, lo.can1, hi.can1)?;
    Ok(Rails { can0, can1 })
}

/// The set of a gate with these tables, whose inputs have the sets of the references of a stack
/// from a place on, none of which is empty anywhere; none where it takes recursion deeper than
/// this, or more steps of it in all. Each node that is made is one of the set's own. The stack
/// lends room for halves, and what it holds from that place on is lost; `met` is asked for what it
/// has, and gets what is found.
#[cycle(halving)]
fn sum_of<N: Nodes>(
    nodes: &mut N,
    tables: TruthTables,
    stack: &mut Vec<Rails>,
    begin: usize,
    met: &mut GateMemo,
    depth: u32,
    left: &mut u32,
) -> Result<Option<Rails>, OpFault>
    requires begin { begin ≤ length stack.old.items }
    requires few { length (drop begin stack.old.items) ≤ 6 }
    requires refs { All (AreRefs (N.store nodes.old)) (drop begin stack.old.items) }
    requires full { All (IsFull (N.store nodes.old)) (drop begin stack.old.items) }
    requires met { AreMet (N.store nodes.old) (length (drop begin stack.old.items)) met.old }
    ensures kept { OnOk result (take begin stack.new.items ≡ take begin stack.old.items) }
    ensures long { OnOk result (length stack.new.items ≡ length stack.old.items) }
    ensures met { OnOk result
        (AreMet (N.store nodes.new) (length (drop begin stack.old.items)) met.new) }
    ensures built { Built
        (choice_of_rails tables.can0 (N.store nodes.old) (drop begin stack.old.items)
        ∷ choice_of_rails tables.can1 (N.store nodes.old) (drop begin stack.old.items) ∷ [])
        (HasSetOrNot (set_by_tables tables (N.store nodes.old) (drop begin stack.old.items)))
        (N.store nodes.old) (N.store nodes.new) result }
{
    let tables = settle_from(tables, stack, begin);
    if let Some(r) = decided_set(tables, operands_from(stack, begin)) {
        return Ok(Some(r));
    }
    let slot = slot_of(tables, operands_from(stack, begin));
    if let Some(r) = met.find(slot, tables, operands_from(stack, begin)) {
        return Ok(Some(r));
    }
    let var = first_variable(nodes, operands_from(stack, begin));
    if depth == 0 || *left == 0 || var >= nodes.vars() {
        return Ok(None);
    }
    *left -= 1;
    let Some(r) = sum_at(nodes, tables, stack, begin, var, met, depth, left)? else {
        return Ok(None);
    };
    met.put(slot, tables, operands_from(stack, begin), r)?;
    Ok(Some(r))
}

/// The same where none of the references reads a variable before this one: from the sets with it 0
/// and 1. The stack is left as it was.
#[cycle(halving)]
fn sum_at<N: Nodes>(
    nodes: &mut N,
    tables: TruthTables,
    stack: &mut Vec<Rails>,
    begin: usize,
    var: u32,
    met: &mut GateMemo,
    depth: u32,
    left: &mut u32,
) -> Result<Option<Rails>, OpFault>
    requires begin { begin ≤ length stack.old.items }
    requires few { length (drop begin stack.old.items) ≤ 6 }
    requires refs { All (AreRefs (N.store nodes.old)) (drop begin stack.old.items) }
    requires full { All (IsFull (N.store nodes.old)) (drop begin stack.old.items) }
    requires met { AreMet (N.store nodes.old) (length (drop begin stack.old.items)) met.old }
    requires var { var < (N.store nodes.old).vars }
    requires from { All (AreFrom (N.store nodes.old).held var) (drop begin stack.old.items) }
    requires deep { 0 < depth }
    ensures same { OnOk result (stack.new.items ≡ stack.old.items) }
    ensures met { OnOk result
        (AreMet (N.store nodes.new) (length (drop begin stack.old.items)) met.new) }
    ensures built { Built
        (choice_of_rails tables.can0 (N.store nodes.old) (drop begin stack.old.items)
        ∷ choice_of_rails tables.can1 (N.store nodes.old) (drop begin stack.old.items) ∷ [])
        (HasSetOrNot (set_by_tables tables (N.store nodes.old) (drop begin stack.old.items)))
        (N.store nodes.old) (N.store nodes.new) result }
{
    let end = stack.len();
    add_half(nodes, stack, begin, var, false)?;
    let lo = sum_of(nodes, tables, stack, end, met, depth - 1, left)?;
    stack.truncate(end);
    let Some(lo) = lo else {
        return Ok(None);
    };
    add_half(nodes, stack, begin, var, true)?;
    let hi = sum_of(nodes, tables, stack, end, met, depth - 1, left)?;
    stack.truncate(end);
    let Some(hi) = hi else {
        return Ok(None);
    };
    Ok(Some(split_set(nodes, var, lo, hi)?))
}

/// How many steps of the recursion are taken for a gate before its rows are gone through.
const MOST_STEPS: u32 = 1024;

/// Scratch that the recursion by tables takes, and that is used again at the next gate: a stack of
/// inputs' sets with their halves, and what was found. What it holds between gates says nothing.
#[derive(Drop)]
pub struct Scratch {
    pub stack: Vec<Rails>,
    pub met: GateMemo,
}

impl Scratch {
    /// Scratch without memory.
    pub fn none(alloc: Global) -> Scratch {
        Scratch {
            stack: Vec::new(alloc),
            met: GateMemo::none(alloc),
        }
    }
}

/// Puts the sets of inputs into a stack, in place of what it holds.
fn put_operands(
    stack: &mut Vec<Rails>,
    nets: &[NetRails],
    inputs: &[NodeId],
) -> Result<(), AllocError>
    requires { All (λ input. input.0 < length nets.now) inputs.now }
    ensures { OnOk result (stack.new.items
        ≡ map (λ input. rails_of (net_at nets.now input.0)) inputs.now) }
{
    stack.clear();
    for input in inputs {
        let r = nets[input.0 as usize];
        stack.push(Rails {
            can0: r.can0,
            can1: r.can1,
        })?;
    }
    Ok(())
}

/// The same as `by_table` where the stack holds the inputs' sets already, and nothing is met.
fn set_of<N: Nodes>(
    nodes: &mut N,
    tables: TruthTables,
    scratch: &mut Scratch,
    nets: &[NetRails],
    inputs: &[NodeId],
) -> Result<Option<Rails>, OpFault>
    requires stack { scratch.old.stack.items
        ≡ map (λ input. rails_of (net_at nets.now input.0)) inputs.now }
    requires met { scratch.old.met.entries.items ≡ [] }
    requires few { length inputs.now ≤ 6 }
    requires full { All (λ input. (net_at nets.now input.0).some ≡ Ref.TRUE) inputs.now }
    requires inside { All (λ input. input.0 < length nets.now) inputs.now }
    requires refs { All (AreNetRefs (N.store nodes.old)) nets.now }
    ensures keeps { Keeps (N.store nodes.old) (N.store nodes.new) }
    ensures built { (sets : ℕ → SymbolicSet)
        → HaveInputs (N.store nodes.old) sets nets.now inputs.now
        → Built (table_choice tables.can0 (sets_at sets inputs.now)
        ∷ table_choice tables.can1 (sets_at sets inputs.now) ∷ [])
        (HasSetOrNot (record {
          zero = table_choice tables.can0 (sets_at sets inputs.now);
          one = table_choice tables.can1 (sets_at sets inputs.now);
        }))
        (N.store nodes.old) (N.store nodes.new) result }
{
    let _ = nets;
    let _ = inputs;
    let mut left = MOST_STEPS;
    sum_of(
        nodes,
        tables,
        &mut scratch.stack,
        0,
        &mut scratch.met,
        MOST_STEPS,
        &mut left,
    )
}

/// The set of a gate by its tables, where its inputs have these sets, none of which is empty
/// anywhere: where it can be 0, and where it can be 1; none where this takes too many steps of the
/// recursion. Each node that is made is one of the set's own.
pub fn by_table<N: Nodes>(
    alloc: Global,
    nodes: &mut N,
    tables: TruthTables,
    scratch: &mut Scratch,
    nets: &[NetRails],
    inputs: &[NodeId],
) -> Result<Option<Rails>, OpFault>
    requires few { length inputs.now ≤ 6 }
    requires full { All (λ input. (net_at nets.now input.0).some ≡ Ref.TRUE) inputs.now }
    requires inside { All (λ input. input.0 < length nets.now) inputs.now }
    requires refs { All (AreNetRefs (N.store nodes.old)) nets.now }
    ensures keeps { Keeps (N.store nodes.old) (N.store nodes.new) }
    ensures built { (sets : ℕ → SymbolicSet)
        → HaveInputs (N.store nodes.old) sets nets.now inputs.now
        → Built (table_choice tables.can0 (sets_at sets inputs.now)
        ∷ table_choice tables.can1 (sets_at sets inputs.now) ∷ [])
        (HasSetOrNot (record {
          zero = table_choice tables.can0 (sets_at sets inputs.now);
          one = table_choice tables.can1 (sets_at sets inputs.now);
        }))
        (N.store nodes.old) (N.store nodes.new) result }
{
    put_operands(&mut scratch.stack, nets, inputs)?;
    scratch.met.forget(alloc)?;
    set_of(nodes, tables, scratch, nets, inputs)
}
