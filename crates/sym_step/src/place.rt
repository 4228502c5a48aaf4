//! The sets of the gates' outputs, in settled order; begin with `place_gates`, which goes through
//! the gates that are due. The set of one gate is `gate_set` and `constant_set` of `gate_sets`; its
//! cuts are in `cuts.rt`.

ghost use Rattle.std.specs.Prelude.{◌≡◌, ◌<◌, ◌≤◌, ◌∷◌, ◌++◌, false, ℕ, List, All, OnOk, Some, length, map, set, slice_get};
ghost use Rattle.std.specs.List.{AllZip};
ghost use Rattle.dd_nodes.specs.Stores.{IsRef};
ghost use Rattle.net_core.specs.declared.cover.Cover.{Cover};
ghost use Rattle.net_core.specs.Flat.{IsSettledOrder};
ghost use Rattle.net_core.specs.Work.{ArePossibleEach, SymbolicSet, SymbolicCut, after_cuts, cover_work, cuts_work, input_sets, output_set, some_bit, time_work};
ghost use Rattle.dual_rail.specs.Rail.{Built, Whatever};
ghost use Rattle.gate_sets.specs.NetSets.{AreNetRails, AreNetRefs, HasNetSet, HaveInputs, net_at};
ghost use Rattle.sym_step.specs.Step.{IsCutBy};
ghost use Rattle.sym_step.specs.private.Boards.{Follows};
ghost use Rattle.sym_step.specs.private.Demands.{nodes_of};
ghost use Rattle.sym_step.specs.private.Frames.{AreSpared, IsSpared};
ghost use Rattle.sym_step.specs.private.Readers.{flag_at};
ghost use Rattle.sym_step.specs.private.Parts.{HaveGates, asks, placed_set, placed_work};

use crate::board::Board;
use crate::cuts::cut_full;
use crate::demands::Demands;
use dd_nodes::{Nodes, Ref};
use dd_ops::{OpFault, Ops};
use dual_rail::free;
use gate_sets::{Compiled, Filling, NetRails, Scratch, constant_set, filling_of, gate_set};
use net_core::Gate;
use std::alloc::Global;

/// The set of a gate's output that is not weakened, where its inputs have these sets.
fn driven<N: Nodes>(
    alloc: Global,
    ops: &Ops,
    nodes: &mut N,
    net: &Compiled,
    demands: &Demands,
    products: &mut [Ref],
    scratch: &mut Scratch,
    nets: &[NetRails],
    g: &Gate,
) -> Result<NetRails, OpFault>
    requires width { (cover : Cover) → slice_get net.now.raw.covers g.now.cover ≡ Some cover
        → cover.inputs ≡ length g.now.inputs }
    requires cover { g.now.cover < length net.now.raw.covers }
    requires output { g.now.output.0 < demands.now.nets }
    requires room { length g.now.inputs < length products.old }
    requires inside { All (λ input. input.0 < length nets.now) g.now.inputs }
    requires refs { All (AreNetRefs (N.store nodes.old)) nets.now }
    requires guards { All (λ c. IsRef (N.store nodes.old) c.guard) demands.now.cuts }
    requires values { All (λ c. IsRef (N.store nodes.old) c.value) demands.now.cuts }
    ensures room { length products.new ≡ length products.old }
    ensures built { (ds : List SymbolicCut) (before sets : ℕ → SymbolicSet)
        → AllZip (IsCutBy (N.store nodes.old)) ds demands.now.cuts
        → HaveInputs (N.store nodes.old) sets nets.now g.now.inputs
        → before g.now.output.0 ≡ output_set net.now.raw sets g.now
        → Built (some_bit (after_cuts ds before g.now.output.0)
        ∷ (cover_work (slice_get net.now.raw.covers g.now.cover) (input_sets sets g.now)
        ++ cuts_work ds before))
        (HasNetSet (after_cuts ds before g.now.output.0))
        (N.store nodes.old) (N.store nodes.new) result }
{
    let filling = filling_of(nets, g.inputs.as_slice());
    let given = gate_set(alloc, ops, nodes, net, products, scratch, nets, g, filling)?;
    cut_full(ops, nodes, demands, g.output.0, given, filling)
}

/// The set of a gate's output, where its inputs have these sets. Where the output is weakened, its
/// inputs are not looked at.
fn place<N: Nodes>(
    alloc: Global,
    ops: &Ops,
    nodes: &mut N,
    net: &Compiled,
    demands: &Demands,
    products: &mut [Ref],
    scratch: &mut Scratch,
    nets: &[NetRails],
    g: &Gate,
) -> Result<NetRails, OpFault>
    requires width { (cover : Cover) → slice_get net.now.raw.covers g.now.cover ≡ Some cover
        → cover.inputs ≡ length g.now.inputs }
    requires cover { g.now.cover < length net.now.raw.covers }
    requires output { g.now.output.0 < demands.now.nets }
    requires room { length g.now.inputs < length products.old }
    requires inside { All (λ input. input.0 < length nets.now) g.now.inputs }
    requires refs { All (AreNetRefs (N.store nodes.old)) nets.now }
    requires guards { All (λ c. IsRef (N.store nodes.old) c.guard) demands.now.cuts }
    requires values { All (λ c. IsRef (N.store nodes.old) c.value) demands.now.cuts }
    ensures room { length products.new ≡ length products.old }
    ensures built { (ds : List SymbolicCut) (before sets : ℕ → SymbolicSet)
        → AllZip (IsCutBy (N.store nodes.old)) ds demands.now.cuts
        → HaveInputs (N.store nodes.old) sets nets.now g.now.inputs
        → before g.now.output.0 ≡ placed_set demands.now.weak net.now.raw sets g.now
        → Built (some_bit (after_cuts ds before g.now.output.0)
        ∷ (placed_work demands.now.weak net.now.raw sets g.now
        ++ cuts_work ds before))
        (HasNetSet (after_cuts ds before g.now.output.0))
        (N.store nodes.old) (N.store nodes.new) result }
{
    if demands.is_weak(g.output.0) {
        return cut_full(ops, nodes, demands, g.output.0, free(), Filling::NonEmpty);
    }
    driven(alloc, ops, nodes, net, demands, products, scratch, nets, g)
}

/// Gives a gate's output its set, where its inputs have these sets; a gate that is not due keeps
/// that of before, and nothing is called. `number` is the gate's.
fn renew<N: Nodes>(
    alloc: Global,
    ops: &Ops,
    nodes: &mut N,
    net: &Compiled,
    demands: &Demands,
    products: &mut [Ref],
    scratch: &mut Scratch,
    board: &mut Board,
    number: usize,
    g: &Gate,
) -> Result<(), OpFault>
    requires width { (cover : Cover) → slice_get net.now.raw.covers g.now.cover ≡ Some cover
        → cover.inputs ≡ length g.now.inputs }
    requires cover { g.now.cover < length net.now.raw.covers }
    requires number { number < length board.old.due.flags.items }
    requires output { g.now.output.0 < length board.old.nets.items }
    requires room { length g.now.inputs < length products.old }
    requires inside { All (λ input. input.0 < length board.old.nets.items) g.now.inputs }
    requires refs { All (AreNetRefs (N.store nodes.old)) board.old.nets.items }
    requires guards { All (λ c. IsRef (N.store nodes.old) c.guard) demands.now.cuts }
    requires values { All (λ c. IsRef (N.store nodes.old) c.value) demands.now.cuts }
    requires over { demands.now.nets ≡ length board.old.nets.items }
    requires spared { flag_at board.old.due.flags.items number ≡ false
        → IsSpared (N.store nodes.old) net.now.raw (nodes_of demands.now.weak demands.now.cuts)
        board.old number g.now }
    ensures room { length products.new ≡ length products.old }
    ensures nets { OnOk result (board.new.nets.items
        ≡ set board.old.nets.items g.now.output.0 (net_at board.new.nets.items g.now.output.0)) }
    ensures follows { OnOk result (Follows board.old board.new) }
    ensures built { (ds : List SymbolicCut) (before sets : ℕ → SymbolicSet)
        → AllZip (IsCutBy (N.store nodes.old)) ds demands.now.cuts
        → HaveInputs (N.store nodes.old) sets board.old.nets.items g.now.inputs
        → before g.now.output.0 ≡ placed_set demands.now.weak net.now.raw sets g.now
        → Built (some_bit (after_cuts ds before g.now.output.0)
        ∷ (placed_work demands.now.weak net.now.raw sets g.now
        ++ cuts_work ds before)) Whatever
        (N.store nodes.old) (N.store nodes.new) result }
    ensures have { OnOk result (
        (ds : List SymbolicCut) (before sets : ℕ → SymbolicSet)
        → AllZip (IsCutBy (N.store nodes.old)) ds demands.now.cuts
        → HaveInputs (N.store nodes.old) sets board.old.nets.items g.now.inputs
        → before g.now.output.0 ≡ placed_set demands.now.weak net.now.raw sets g.now
        → AreNetRails (N.store nodes.new) (after_cuts ds before g.now.output.0)
        (net_at board.new.nets.items g.now.output.0)) }
{
    if !board.due.is_marked(number) {
        return Ok(());
    }
    let nets = board.nets.as_slice();
    if let Some(r) = constant_set(net, nets, g) {
        if !demands.is_asked(g.output.0) {
            board.put(g.output.0, r);
            return Ok(());
        }
    }
    let r = place(alloc, ops, nodes, net, demands, products, scratch, nets, g)?;
    board.put(g.output.0, r);
    Ok(())
}

/// Gives the gates' outputs their sets, one after another; those that are not due keep them.
pub fn place_gates<N: Nodes>(
    alloc: Global,
    ops: &Ops,
    nodes: &mut N,
    net: &Compiled,
    demands: &Demands,
    products: &mut [Ref],
    scratch: &mut Scratch,
    board: &mut Board,
) -> Result<(), OpFault>
    requires long { length board.old.nets.items ≡ net.now.raw.nets }
    requires due { length net.now.raw.gates ≤ length board.old.due.flags.items }
    requires order { IsSettledOrder net.now.raw board.old.due.order.items }
    requires room { All (λ gate. length gate.inputs < length products.old) net.now.raw.gates }
    requires refs { All (AreNetRefs (N.store nodes.old)) board.old.nets.items }
    requires guards { All (λ c. IsRef (N.store nodes.old) c.guard) demands.now.cuts }
    requires values { All (λ c. IsRef (N.store nodes.old) c.value) demands.now.cuts }
    requires over { demands.now.nets ≡ net.now.raw.nets }
    requires spared { AreSpared (N.store nodes.old) net.now.raw
        (nodes_of demands.now.weak demands.now.cuts)
        board.old }
    ensures room { OnOk result (length products.new ≡ length products.old) }
    ensures refs { OnOk result (All (AreNetRefs (N.store nodes.new)) board.new.nets.items) }
    ensures follows { OnOk result (Follows board.old board.new) }
    ensures built { (ls : List SymbolicSet) (ds : List SymbolicCut) (sets : ℕ → SymbolicSet)
        → length ls ≡ length net.now.raw.latches
        → ArePossibleEach (N.store nodes.old).vars net.now.raw ls (asks demands.now.weak ds) sets
        → AllZip (IsCutBy (N.store nodes.old)) ds demands.now.cuts
        → HaveGates net.now.raw board.old.due.order.items sets (N.store nodes.old) 0
        board.old.nets.items
        → Built (time_work net.now.raw ls (asks demands.now.weak ds) sets) Whatever
        (N.store nodes.old) (N.store nodes.new) result }
    ensures have { OnOk result (
        (ls : List SymbolicSet) (ds : List SymbolicCut) (sets : ℕ → SymbolicSet)
        → length ls ≡ length net.now.raw.latches
        → ArePossibleEach (N.store nodes.old).vars net.now.raw ls (asks demands.now.weak ds) sets
        → AllZip (IsCutBy (N.store nodes.old)) ds demands.now.cuts
        → HaveGates net.now.raw board.old.due.order.items sets (N.store nodes.old) 0
        board.old.nets.items
        → HaveGates net.now.raw board.old.due.order.items sets (N.store nodes.new)
        (length board.old.due.order.items) board.new.nets.items) }
{
    let mut place = board.due.next(0);
    while place < net.gates().len() {
        let number = board.due.number_at(place);
        let g = &net.gates()[number];
        renew(
            alloc, ops, nodes, net, demands, products, scratch, board, number, g,
        )?;
        place = board.due.next(place + 1);
    }
    Ok(())
}
