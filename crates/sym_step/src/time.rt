//! One time step of the whole net, for all assignments at once. The engines call `renew`, which
//! changes a `Frame` in place: first the nets that no gate drives (`source.rt`), then the gates
//! that are due, in a settled order (`place.rt`). What is due, and when, is in `frame.rt`, the sets
//! that latches get in `latches.rt`, and what is asked in `demands.rt`. `advance` copies the result
//! out of the frame, and `step` does it from an empty one.

ghost use Rattle.std.specs.Prelude.{◌≡◌, ◌<◌, ◌∷◌, ◌++◌, [], ◌≤◌, ℕ, List, All, IfOk, None, OnOk, length, map};
ghost use Rattle.std.specs.List.{AllZip};
ghost use Rattle.ste_base.specs.Functions.{Function};
ghost use Rattle.dd_nodes.specs.Diagram.{IsDiagram};
ghost use Rattle.dd_nodes.specs.Stores.{Store, IsRef, Keeps, Means};
ghost use Rattle.net_core.specs.Flat.{IsSettledOrder};
ghost use Rattle.net_core.specs.Work.{ArePossibleEach, SymbolicSet, SymbolicAsked, disjunction, no_bit, some_bit, sum, sums, time_work};
ghost use Rattle.dual_rail.specs.Rail.{AreRefs, AreRails, Built, HasFunction, Whatever};
ghost use Rattle.sym_step.specs.Step.{ForPossible, IsCutOf, IsCutBy, IsPossibleStep, IsStep, ids_of};
ghost use Rattle.gate_sets.specs.Lists.{rows_of};
ghost use Rattle.sym_step.specs.private.Boards.{Follows};
ghost use Rattle.sym_step.specs.Frame.{AreOpen, IsFrame, input_rails, next_of, nets_of, step_of};
ghost use Rattle.sym_step.specs.private.Frames.{AreSpared};
ghost use Rattle.sym_step.specs.private.Demands.{nodes_of};
ghost use Rattle.sym_step.specs.private.Latches.{AreGiven, Begins, IsLatchSet};
ghost use Rattle.gate_sets.specs.NetSets.{AreNetRails, AreNetRefs};
ghost use Rattle.sym_step.specs.private.Parts.{HaveNets};

use crate::board::Board;
use crate::cut::Cut;
use crate::demands::{CutLinks, Demands, links_of, weak_flags};
use crate::frame::{Frame, asked_nets, knows_full, make_due, own_sets};
use crate::latches::{LatchSet, latch_sets};
use crate::made::Step;
use crate::place::place_gates;
use crate::source::sources;
use crate::vectors::Vectors;
use dd_nodes::{Nodes, Ref};
use dd_ops::{OpFault, Ops};
use dual_rail::{Rails, either};
use gate_sets::{Compiled, GateRows, NetRails, Scratch};
use net_core::Net;
use std::alloc::{AllocError, Global};
use std::mem::replace;
use ste_base::{Items, NodeId};

/// The sum so far with where one more net is empty. `some` is where it has a bit; nothing is called
/// where that is everywhere.
fn add_empty<N: Nodes>(ops: &Ops, nodes: &mut N, sum: Ref, some: Ref) -> Result<Ref, OpFault>
    requires sum { IsRef (N.store nodes.old) sum }
    requires some { IsRef (N.store nodes.old) some }
    ensures { (f : Function) (w : SymbolicSet)
        → Means (N.store nodes.old) f sum → Means (N.store nodes.old) (some_bit w) some
        → Built (disjunction f (no_bit w) ∷ no_bit w ∷ []) (HasFunction (disjunction f (no_bit w)))
        (N.store nodes.old) (N.store nodes.new) result }
{
    if some == Ref::TRUE {
        return Ok(sum);
    }
    let none = ops.not(nodes, some)?;
    either(ops, nodes, sum, none)
}

/// Where some net is empty.
fn some_empty<N: Nodes>(ops: &Ops, nodes: &mut N, nets: &[NetRails]) -> Result<Ref, OpFault>
    requires { All (AreNetRefs (N.store nodes.old)) nets.now }
    ensures { (sets : List SymbolicSet)
        → AllZip (AreNetRails (N.store nodes.old)) sets nets.now
        → Built (map some_bit sets ++ (map no_bit sets ++ sums (map no_bit sets)))
        (HasFunction (sum (map no_bit sets)))
        (N.store nodes.old) (N.store nodes.new) result }
{
    let mut sum = Ref::FALSE;
    for r in nets {
        sum = add_empty(ops, nodes, sum, r.some)?;
    }
    Ok(sum)
}

/// The sets without where they have a bit.
fn rails_of(alloc: Global, nets: &[NetRails]) -> Result<Items<Rails>, AllocError>
    ensures { IfOk result (λ rails. rails
        ≡ map (λ r. record { can0 = r.can0; can1 = r.can1 }) nets.now) }
{
    let mut rails = Vec::with_capacity(alloc, nets.len())?;
    for r in nets {
        rails.push(r.rails())?;
    }
    Ok(Items::from(rails))
}

/// What a frame has of its time, as a step.
fn step_in_frame(
    alloc: Global,
    net: &Compiled,
    frame: &Frame,
    contradictory: Ref,
) -> Result<Step, AllocError>
    requires { length frame.now.board.nets.items ≡ net.now.raw.nets }
    ensures nets { IfOk result (λ r. r.nets ≡ nets_of frame.now) }
    ensures contradictory { IfOk result (λ r. r.contradictory ≡ contradictory) }
    ensures next { IfOk result (λ r. r.next
        ≡ map (input_rails (nets_of frame.now)) net.now.raw.latches) }
{
    let nets = rails_of(alloc, &frame.board.nets)?;
    let next = own_sets(alloc, frame, net.latches())?;
    Ok(Step {
        nets,
        contradictory,
        next,
    })
}

/// Gives all nets their sets: first those that no gate drives, and then the gates' outputs.
/// `latches` are the sets of the latches that do not have theirs yet, and `before` are the nets
/// that were cut or weakened at the time before.
fn set_nets<N: Nodes>(
    alloc: Global,
    ops: &Ops,
    nodes: &mut N,
    net: &Compiled,
    latches: &[LatchSet],
    demands: &Demands,
    before: &[NodeId],
    products: &mut [Ref],
    scratch: &mut Scratch,
    board: &mut Board,
) -> Result<(), OpFault>
    requires latches { All (IsLatchSet (N.store nodes.old) net.now.raw) latches.now }
    requires guards { All (λ c. IsRef (N.store nodes.old) c.guard) demands.now.cuts }
    requires values { All (λ c. IsRef (N.store nodes.old) c.value) demands.now.cuts }
    requires over { demands.now.nets ≡ net.now.raw.nets }
    requires before { All (λ node. node.0 < net.now.raw.nets) before.now }
    requires undriven { AreOpen (N.store nodes.old) net.now.raw before.now board.old.nets.items }
    requires room { All (λ gate. length gate.inputs < length products.old) net.now.raw.gates }
    requires nets { length board.old.nets.items ≡ net.now.raw.nets }
    requires refs { All (AreNetRefs (N.store nodes.old)) board.old.nets.items }
    requires due { length net.now.raw.gates ≤ length board.old.due.flags.items }
    requires order { IsSettledOrder net.now.raw board.old.due.order.items }
    requires spared { AreSpared (N.store nodes.old) net.now.raw
        (nodes_of demands.now.weak demands.now.cuts) board.old }
    ensures room { OnOk result (length products.new ≡ length products.old) }
    ensures refs { OnOk result (All (AreNetRefs (N.store nodes.new)) board.new.nets.items) }
    ensures follows { OnOk result (Follows board.old board.new) }
    ensures built { (ls : List SymbolicSet) (asked : SymbolicAsked) (sets : ℕ → SymbolicSet)
        → AreGiven (N.store nodes.old) net.now.raw demands.now.weak ls sets latches.now
        board.old.nets.items
        → AllZip (IsCutBy (N.store nodes.old)) asked.cuts demands.now.cuts
        → asked.weak ≡ ids_of demands.now.weak
        → ArePossibleEach (N.store nodes.old).vars net.now.raw ls asked sets
        → Built (time_work net.now.raw ls asked sets) Whatever
        (N.store nodes.old) (N.store nodes.new) result }
    ensures have { OnOk result (
        (ls : List SymbolicSet) (asked : SymbolicAsked) (sets : ℕ → SymbolicSet)
        → AreGiven (N.store nodes.old) net.now.raw demands.now.weak ls sets latches.now
        board.old.nets.items
        → AllZip (IsCutBy (N.store nodes.old)) asked.cuts demands.now.cuts
        → asked.weak ≡ ids_of demands.now.weak
        → ArePossibleEach (N.store nodes.old).vars net.now.raw ls asked sets
        → HaveNets net.now.raw sets (N.store nodes.new) board.new.nets.items) }
{
    sources(ops, nodes, net, latches, demands, before, board)?;
    place_gates(alloc, ops, nodes, net, demands, products, scratch, board)
}

/// Begins a time: the gates and latches whose outputs are cut or weakened now or were before are
/// due, and the result is the sets of the latches that do not have theirs yet, in the memory of
/// `used`. The frame is then no longer before a first time.
fn begin_time(
    alloc: Global,
    net: &Compiled,
    used: Vec<LatchSet>,
    demands: &Demands,
    frame: &mut Frame,
) -> Result<Vec<LatchSet>, AllocError>
    requires over { demands.now.nets ≡ net.now.raw.nets }
    requires frame { (s : Store) × IsFrame s net.now.raw frame.old }
    ensures begins { OnOk result ((s : Store) → IsFrame s net.now.raw frame.old
        → Begins s net.now.raw (nodes_of demands.now.weak demands.now.cuts) frame.new) }
    ensures held { IfOk result (λ sets. (s : Store) → IsDiagram s.held s.vars
        → IsFrame s net.now.raw frame.old → All (IsLatchSet s net.now.raw) sets.items) }
    ensures given { IfOk result (λ sets.
        (s : Store) (ls : List SymbolicSet) (asked : SymbolicAsked) (family : ℕ → SymbolicSet)
        → IsDiagram s.held s.vars → IsFrame s net.now.raw frame.old
        → AllZip (AreRails s) ls (next_of net.now.raw frame.old)
        → AllZip (IsCutBy s) asked.cuts demands.now.cuts
        → asked.weak ≡ ids_of demands.now.weak
        → ArePossibleEach s.vars net.now.raw ls asked family
        → AreGiven s net.now.raw demands.now.weak ls family sets.items frame.new.board.nets.items) }
    ensures first { OnOk result (frame.new.first ≡ None) }
{
    make_due(alloc, net, demands, frame)?;
    latch_sets(used, net, demands, frame)
}

/// Gives all nets of a frame their sets, with these vectors. The marks of latches stay for the next
/// time.
fn renew_with<N: Nodes>(
    alloc: Global,
    ops: &Ops,
    nodes: &mut N,
    net: &Compiled,
    weak: &[NodeId],
    cuts: &[Cut],
    vectors: &mut Vectors,
    frame: &mut Frame,
) -> Result<(), OpFault>
    requires weak { All (λ node. node.0 < net.now.raw.nets) weak.now }
    requires cuts { All (IsCutOf (N.store nodes.old) net.now.raw) cuts.now }
    requires frame { IsFrame (N.store nodes.old) net.now.raw frame.old }
    ensures frame { OnOk result (IsFrame (N.store nodes.new) net.now.raw frame.new) }
    ensures first { OnOk result (frame.new.first ≡ None) }
    ensures built { ForPossible (N.store nodes.old) net.now.raw
        (next_of net.now.raw frame.old) weak.now cuts.now
        (λ ls asked sets. Built (time_work net.now.raw ls asked sets) Whatever
        (N.store nodes.old) (N.store nodes.new) result) }
    ensures have { OnOk result (ForPossible (N.store nodes.old) net.now.raw
        (next_of net.now.raw frame.old) weak.now cuts.now
        (λ ls asked sets. HaveNets net.now.raw sets
        (N.store nodes.new) frame.new.board.nets.items)) }
{
    let links = replace(&mut vectors.links, CutLinks::none(alloc));
    let links = links_of(alloc, links, weak, cuts, net.nets())?;
    let flags = replace(&mut vectors.weak, Vec::new(alloc));
    let flags = weak_flags(alloc, flags, weak, net.nets())?;
    let asked = asked_nets(replace(&mut vectors.asked, Vec::new(alloc)), weak, cuts)?;
    let used = replace(&mut vectors.sets, Vec::new(alloc));
    let demands = Demands {
        cuts,
        weak,
        nodes: &asked,
        is_asked: &links.is_asked,
        is_weak: &flags,
        first: &links.first,
        next: &links.next,
    };
    let latches = begin_time(alloc, net, used, &demands, frame)?;
    set_nets(
        alloc,
        ops,
        nodes,
        net,
        &latches,
        &demands,
        &frame.asked,
        &mut frame.products,
        &mut vectors.scratch,
        &mut frame.board,
    )?;
    frame.board.due.clear_gates();
    vectors.links = links;
    vectors.weak = flags;
    vectors.asked = replace(&mut frame.asked, Vec::new(alloc));
    frame.asked = asked;
    vectors.sets = latches;
    frame.begun = true;
    Ok(())
}

/// Gives all nets of a frame their sets, with the frame's own vectors.
fn renew_frame<N: Nodes>(
    alloc: Global,
    ops: &Ops,
    nodes: &mut N,
    net: &Compiled,
    weak: &[NodeId],
    cuts: &[Cut],
    frame: &mut Frame,
) -> Result<(), OpFault>
    requires weak { All (λ node. node.0 < net.now.raw.nets) weak.now }
    requires cuts { All (IsCutOf (N.store nodes.old) net.now.raw) cuts.now }
    requires frame { IsFrame (N.store nodes.old) net.now.raw frame.old }
    ensures frame { OnOk result (IsFrame (N.store nodes.new) net.now.raw frame.new) }
    ensures first { OnOk result (frame.new.first ≡ None) }
    ensures built { ForPossible (N.store nodes.old) net.now.raw
        (next_of net.now.raw frame.old) weak.now cuts.now
        (λ ls asked sets. Built (time_work net.now.raw ls asked sets) Whatever
        (N.store nodes.old) (N.store nodes.new) result) }
    ensures have { OnOk result (ForPossible (N.store nodes.old) net.now.raw
        (next_of net.now.raw frame.old) weak.now cuts.now
        (λ ls asked sets. HaveNets net.now.raw sets
        (N.store nodes.new) frame.new.board.nets.items)) }
{
    let mut vectors = replace(&mut frame.vectors, Vectors::none(alloc));
    renew_with(alloc, ops, nodes, net, weak, cuts, &mut vectors, frame)?;
    frame.vectors = vectors;
    Ok(())
}

/// The sets of one time in the frame, and where some net is empty, by the work functions of one
/// time. The frame is then no longer before a first time.
fn time_at<N: Nodes>(
    alloc: Global,
    ops: &Ops,
    nodes: &mut N,
    net: &Compiled,
    weak: &[NodeId],
    cuts: &[Cut],
    frame: &mut Frame,
) -> Result<Ref, OpFault>
    requires weak { All (λ node. node.0 < net.now.raw.nets) weak.now }
    requires cuts { All (IsCutOf (N.store nodes.old) net.now.raw) cuts.now }
    requires frame { IsFrame (N.store nodes.old) net.now.raw frame.old }
    ensures frame { OnOk result (IsFrame (N.store nodes.new) net.now.raw frame.new) }
    ensures first { OnOk result (frame.new.first ≡ None) }
    ensures built { ForPossible (N.store nodes.old) net.now.raw
        (next_of net.now.raw frame.old) weak.now cuts.now
        (λ ls asked sets. Built (time_work net.now.raw ls asked sets)
        (λ t r. IsStep net.now.raw sets t (step_of net.now.raw frame.new r))
        (N.store nodes.old) (N.store nodes.new) result) }
{
    renew_frame(alloc, ops, nodes, net, weak, cuts, frame)?;
    frame.board.full = knows_full(frame.board.full, &frame.board.nets);
    if frame.board.full {
        return Ok(Ref::FALSE);
    }
    let contradictory = some_empty(ops, nodes, frame.board.nets.as_slice())?;
    Ok(contradictory)
}

/// The step, by the work functions of one time.
fn made_at<N: Nodes>(
    alloc: Global,
    ops: &Ops,
    nodes: &mut N,
    net: &Compiled,
    latches: &[Rails],
    weak: &[NodeId],
    cuts: &[Cut],
    frame: &mut Frame,
) -> Result<Step, OpFault>
    requires long { length latches.now ≡ length net.now.raw.latches }
    requires latches { All (AreRefs (N.store nodes.old)) latches.now }
    requires weak { All (λ node. node.0 < net.now.raw.nets) weak.now }
    requires cuts { All (IsCutOf (N.store nodes.old) net.now.raw) cuts.now }
    requires frame { IsFrame (N.store nodes.old) net.now.raw frame.old }
    ensures frame { OnOk result (IsFrame (N.store nodes.new) net.now.raw frame.new) }
    ensures built { ForPossible (N.store nodes.old) net.now.raw latches.now weak.now cuts.now
        (λ ls asked sets. Built (time_work net.now.raw ls asked sets) (IsStep net.now.raw sets)
        (N.store nodes.old) (N.store nodes.new) result) }
{
    frame.first = Some(Items::from(latches.to_vec(alloc)?));
    let contradictory = time_at(alloc, ops, nodes, net, weak, cuts, frame)?;
    let made = step_in_frame(alloc, net, frame, contradictory)?;
    Ok(made)
}

/// The possible sets of one time for every assignment at once, left in the frame, from what was
/// kept of the time before: the result is where some set is empty. The latches have the sets of
/// their inputs at the time before, or at a first time those that the frame starts with. `rows` are
/// those of the net, and it is asked that the nets of `weak` are weakened, and cut by `cuts`.
/// `StepsOut` comes only where all steps are spent and a node of the work functions of this time is
/// not held; after any error what was held stays, and the frame is not to be used.
pub fn renew<N: Nodes>(
    alloc: Global,
    ops: &Ops,
    nodes: &mut N,
    net: &Net,
    rows: &GateRows,
    weak: &[NodeId],
    cuts: &[Cut],
    frame: &mut Frame,
) -> Result<Ref, OpFault>
    requires rows { rows.now.covers ≡ map rows_of net.now.raw.covers }
    requires weak { All (λ node. node.0 < net.now.raw.nets) weak.now }
    requires cuts { All (IsCutOf (N.store nodes.old) net.now.raw) cuts.now }
    requires frame { IsFrame (N.store nodes.old) net.now.raw frame.old }
    ensures keeps { Keeps (N.store nodes.old) (N.store nodes.new) }
    ensures ref_of { IfOk result (λ r. IsRef (N.store nodes.new) r) }
    ensures built { ForPossible (N.store nodes.old) net.now.raw
        (next_of net.now.raw frame.old) weak.now cuts.now
        (λ ls asked sets. Built (time_work net.now.raw ls asked sets)
        (λ t r. IsStep net.now.raw sets t (step_of net.now.raw frame.new r))
        (N.store nodes.old) (N.store nodes.new) result) }
    ensures frame { OnOk result (IsFrame (N.store nodes.new) net.now.raw frame.new) }
{
    let compiled = Compiled { net, rows };
    time_at(alloc, ops, nodes, &compiled, weak, cuts, frame)
}

/// The possible sets of one time for every assignment at once, where some set is empty, and the
/// next latch sets, from what was kept of the time before; the frame then keeps this time. `rows`
/// are those of the net, `latches` are the latches' sets, and it is asked that the nets of `weak`
/// are weakened, and cut by `cuts`. `StepsOut` comes only where all steps are spent and a node of
/// the work functions of this time is not held; after any error what was held stays, and the frame
/// is not to be used.
pub fn advance<N: Nodes>(
    alloc: Global,
    ops: &Ops,
    nodes: &mut N,
    net: &Net,
    rows: &GateRows,
    latches: &[Rails],
    weak: &[NodeId],
    cuts: &[Cut],
    frame: &mut Frame,
) -> Result<Step, OpFault>
    requires rows { rows.now.covers ≡ map rows_of net.now.raw.covers }
    requires long { length latches.now ≡ length net.now.raw.latches }
    requires latches { All (AreRefs (N.store nodes.old)) latches.now }
    requires weak { All (λ node. node.0 < net.now.raw.nets) weak.now }
    requires cuts { All (IsCutOf (N.store nodes.old) net.now.raw) cuts.now }
    requires frame { IsFrame (N.store nodes.old) net.now.raw frame.old }
    ensures keeps { Keeps (N.store nodes.old) (N.store nodes.new) }
    ensures refs { IfOk result (λ r. All (AreRefs (N.store nodes.new)) r.nets
        × IsRef (N.store nodes.new) r.contradictory × All (AreRefs (N.store nodes.new)) r.next) }
    ensures possible { IfOk result (λ r. IsPossibleStep net.now.raw latches.now weak.now cuts.now
        (N.store nodes.old) (N.store nodes.new) r) }
    ensures built { ForPossible (N.store nodes.old) net.now.raw latches.now weak.now cuts.now
        (λ ls asked sets. Built (time_work net.now.raw ls asked sets) (IsStep net.now.raw sets)
        (N.store nodes.old) (N.store nodes.new) result) }
    ensures frame { OnOk result (IsFrame (N.store nodes.new) net.now.raw frame.new) }
{
    let compiled = Compiled { net, rows };
    made_at(alloc, ops, nodes, &compiled, latches, weak, cuts, frame)
}

/// The possible sets of one time for every assignment at once, where some set is empty, and the
/// next latch sets. `rows` are those of the net, `latches` are the latches' sets, and it is asked
/// that the nets of `weak` are weakened, and cut by `cuts`. `StepsOut` comes only where all steps
/// are spent and a node of the work functions of this time is not held; after any error what was
/// held stays.
pub fn step<N: Nodes>(
    alloc: Global,
    ops: &Ops,
    nodes: &mut N,
    net: &Net,
    rows: &GateRows,
    latches: &[Rails],
    weak: &[NodeId],
    cuts: &[Cut],
) -> Result<Step, OpFault>
    requires rows { rows.now.covers ≡ map rows_of net.now.raw.covers }
    requires long { length latches.now ≡ length net.now.raw.latches }
    requires latches { All (AreRefs (N.store nodes.old)) latches.now }
    requires weak { All (λ node. node.0 < net.now.raw.nets) weak.now }
    requires cuts { All (IsCutOf (N.store nodes.old) net.now.raw) cuts.now }
    ensures keeps { Keeps (N.store nodes.old) (N.store nodes.new) }
    ensures refs { IfOk result (λ r. All (AreRefs (N.store nodes.new)) r.nets
        × IsRef (N.store nodes.new) r.contradictory × All (AreRefs (N.store nodes.new)) r.next) }
    ensures possible { IfOk result (λ r. IsPossibleStep net.now.raw latches.now weak.now cuts.now
        (N.store nodes.old) (N.store nodes.new) r) }
    ensures built { ForPossible (N.store nodes.old) net.now.raw latches.now weak.now cuts.now
        (λ ls asked sets. Built (time_work net.now.raw ls asked sets) (IsStep net.now.raw sets)
        (N.store nodes.old) (N.store nodes.new) result) }
{
    let mut frame = Frame::blank(alloc, net)?;
    advance(
        alloc, ops, nodes, net, rows, latches, weak, cuts, &mut frame,
    )
}
