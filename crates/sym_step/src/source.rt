//! The sets of the nets that no gate drives: latches' outputs, and the nets that nothing drives;
//! begin with `sources`. The sets that latches get are in `latches.rt`.

ghost use Rattle.std.specs.Prelude.{◌≡◌, ◌<◌, ◌∷◌, ℕ, List, All, IsTrue, OnOk, false, length, map};
ghost use Rattle.std.specs.List.{AllZip};
ghost use Rattle.dd_nodes.specs.Stores.{IsRef, Keeps};
ghost use Rattle.net_core.specs.Work.{ArePossibleEach, SymbolicSet, SymbolicCut, after_cuts, cuts_work, some_bit, time_work, set_before_cuts};
ghost use Rattle.dual_rail.specs.Rail.{AreRefs, AreRails, Built, Whatever};
ghost use Rattle.sym_step.specs.Step.{IsCutBy, ids_of};
ghost use Rattle.sym_step.specs.private.Boards.{Follows};
ghost use Rattle.sym_step.specs.Frame.{AreOpen, is_listed};
ghost use Rattle.sym_step.specs.private.Frames.{HaveLatches, HaveOpen, IsOpened, StayRight};
ghost use Rattle.sym_step.specs.private.Latches.{AreGiven, IsLatchSet};
ghost use Rattle.gate_sets.specs.NetSets.{AreNetRefs, HasNetSet};
ghost use Rattle.sym_step.specs.private.Parts.{HaveSources, asks};

use crate::board::Board;
use crate::cuts::cut_net;
use crate::demands::Demands;
use crate::latches::LatchSet;
use dd_nodes::Nodes;
use dd_ops::{OpFault, Ops};
use dual_rail::{Rails, free};
use gate_sets::{Compiled, NetRails};
use net_core::Source;
use ste_base::NodeId;

/// The set of a latch's output behind its cuts, where the latch has the set `r`. Where its input
/// had `r` at the time before, with where it had a bit, and nothing is asked of the output, nothing
/// is called.
fn latch_source<N: Nodes>(
    ops: &Ops,
    nodes: &mut N,
    demands: &Demands,
    id: u32,
    r: Rails,
    given: NetRails,
) -> Result<NetRails, OpFault>
    requires rails { AreRefs (N.store nodes.old) r }
    requires given { AreNetRefs (N.store nodes.old) given }
    requires guards { All (λ c. IsRef (N.store nodes.old) c.guard) demands.now.cuts }
    requires values { All (λ c. IsRef (N.store nodes.old) c.value) demands.now.cuts }
    requires id { id < demands.now.nets }
    ensures { (ds : List SymbolicCut) (sets : ℕ → SymbolicSet)
        → AllZip (IsCutBy (N.store nodes.old)) ds demands.now.cuts
        → AreRails (N.store nodes.old) (sets id) r
        → Built (some_bit (after_cuts ds sets id) ∷ cuts_work ds sets)
        (HasNetSet (after_cuts ds sets id))
        (N.store nodes.old) (N.store nodes.new) result }
{
    if !demands.is_asked(id) && given.can0 == r.can0 && given.can1 == r.can1 {
        return Ok(given);
    }
    cut_net(ops, nodes, demands, id, r)
}

/// Gives the outputs of these latches their sets; any other latch has its own already.
fn latch_sources<N: Nodes>(
    ops: &Ops,
    nodes: &mut N,
    net: &Compiled,
    latches: &[LatchSet],
    demands: &Demands,
    board: &mut Board,
) -> Result<(), OpFault>
    requires latches { All (IsLatchSet (N.store nodes.old) net.now.raw) latches.now }
    requires guards { All (λ c. IsRef (N.store nodes.old) c.guard) demands.now.cuts }
    requires values { All (λ c. IsRef (N.store nodes.old) c.value) demands.now.cuts }
    requires over { demands.now.nets ≡ net.now.raw.nets }
    requires nets { length board.old.nets.items ≡ net.now.raw.nets }
    requires refs { All (AreNetRefs (N.store nodes.old)) board.old.nets.items }
    ensures keeps { OnOk result (Keeps (N.store nodes.old) (N.store nodes.new)) }
    ensures refs { OnOk result (All (AreNetRefs (N.store nodes.new)) board.new.nets.items) }
    ensures follows { OnOk result (Follows board.old board.new) }
    ensures built { (ls : List SymbolicSet) (ds : List SymbolicCut) (sets : ℕ → SymbolicSet)
        → AreGiven (N.store nodes.old) net.now.raw demands.now.weak ls sets latches.now
        board.old.nets.items
        → ArePossibleEach (N.store nodes.old).vars net.now.raw ls (asks demands.now.weak ds) sets
        → AllZip (IsCutBy (N.store nodes.old)) ds demands.now.cuts
        → Built (time_work net.now.raw ls (asks demands.now.weak ds) sets) Whatever
        (N.store nodes.old) (N.store nodes.new) result }
    ensures have { OnOk result (
        (ls : List SymbolicSet) (ds : List SymbolicCut) (sets : ℕ → SymbolicSet)
        → AreGiven (N.store nodes.old) net.now.raw demands.now.weak ls sets latches.now
        board.old.nets.items
        → ArePossibleEach (N.store nodes.old).vars net.now.raw ls (asks demands.now.weak ds) sets
        → AllZip (IsCutBy (N.store nodes.old)) ds demands.now.cuts
        → HaveLatches net.now.raw sets (N.store nodes.new)
        (length net.now.raw.latches) board.new.nets.items
        × StayRight sets (N.store nodes.old) board.old.nets.items
        (N.store nodes.new) board.new.nets.items) }
{
    let _ = net;
    for latch in latches {
        let id = latch.output.0;
        let r = latch_source(ops, nodes, demands, id, latch.rails, latch.given)?;
        board.put(id, r);
    }
    Ok(())
}

/// The set of a net behind its cuts, where nothing drives it. Any other net keeps the set that it
/// has.
fn open_source<N: Nodes>(
    ops: &Ops,
    nodes: &mut N,
    net: &Compiled,
    demands: &Demands,
    id: u32,
    now: NetRails,
) -> Result<NetRails, OpFault>
    requires id { id < net.now.raw.nets }
    requires guards { All (λ c. IsRef (N.store nodes.old) c.guard) demands.now.cuts }
    requires values { All (λ c. IsRef (N.store nodes.old) c.value) demands.now.cuts }
    requires over { demands.now.nets ≡ net.now.raw.nets }
    requires now { AreNetRefs (N.store nodes.old) now }
    ensures { (ls : List SymbolicSet) (ds : List SymbolicCut) (sets : ℕ → SymbolicSet)
        → AllZip (IsCutBy (N.store nodes.old)) ds demands.now.cuts
        → Built (some_bit (after_cuts ds
        (set_before_cuts net.now.raw (ids_of demands.now.weak) ls sets) id)
        ∷ cuts_work ds (set_before_cuts net.now.raw (ids_of demands.now.weak) ls sets))
        (IsOpened net.now.raw (after_cuts ds
        (set_before_cuts net.now.raw (ids_of demands.now.weak) ls sets) id)
        (N.store nodes.old) now id)
        (N.store nodes.old) (N.store nodes.new) result }
{
    match net.source(NodeId(id)) {
        Source::Gate(_) => Ok(now),
        Source::Latch(_) => Ok(now),
        Source::Input => cut_net(ops, nodes, demands, id, free()),
        Source::Free => cut_net(ops, nodes, demands, id, free()),
    }
}

/// Gives those of these nets that nothing drives their sets.
fn open_sources<N: Nodes>(
    ops: &Ops,
    nodes: &mut N,
    net: &Compiled,
    demands: &Demands,
    ids: &[NodeId],
    board: &mut Board,
) -> Result<(), OpFault>
    requires guards { All (λ c. IsRef (N.store nodes.old) c.guard) demands.now.cuts }
    requires values { All (λ c. IsRef (N.store nodes.old) c.value) demands.now.cuts }
    requires over { demands.now.nets ≡ net.now.raw.nets }
    requires ids { All (λ node. node.0 < net.now.raw.nets) ids.now }
    requires nets { length board.old.nets.items ≡ net.now.raw.nets }
    requires refs { All (AreNetRefs (N.store nodes.old)) board.old.nets.items }
    ensures keeps { OnOk result (Keeps (N.store nodes.old) (N.store nodes.new)) }
    ensures refs { OnOk result (All (AreNetRefs (N.store nodes.new)) board.new.nets.items) }
    ensures follows { OnOk result (Follows board.old board.new) }
    ensures built { (ls : List SymbolicSet) (ds : List SymbolicCut) (sets : ℕ → SymbolicSet)
        → length ls ≡ length net.now.raw.latches
        → ArePossibleEach (N.store nodes.old).vars net.now.raw ls (asks demands.now.weak ds) sets
        → AllZip (IsCutBy (N.store nodes.old)) ds demands.now.cuts
        → Built (time_work net.now.raw ls (asks demands.now.weak ds) sets) Whatever
        (N.store nodes.old) (N.store nodes.new) result }
    ensures have { OnOk result (
        (ls : List SymbolicSet) (ds : List SymbolicCut) (sets : ℕ → SymbolicSet)
        → length ls ≡ length net.now.raw.latches
        → ArePossibleEach (N.store nodes.old).vars net.now.raw ls (asks demands.now.weak ds) sets
        → AllZip (IsCutBy (N.store nodes.old)) ds demands.now.cuts
        → HaveOpen net.now.raw sets (N.store nodes.new) ids.now (length ids.now)
        board.new.nets.items
        × StayRight sets (N.store nodes.old) board.old.nets.items
        (N.store nodes.new) board.new.nets.items) }
{
    for node in ids {
        let id = node.0;
        let now = board.nets[id as usize];
        let r = open_source(ops, nodes, net, demands, id, now)?;
        board.put(id, r);
    }
    Ok(())
}

/// Whether both are the same nets, in the same order.
fn are_same_nets(a: &[NodeId], b: &[NodeId]) -> bool
    ensures { IsTrue result → a.now ≡ b.now }
{
    if a.len() != b.len() {
        return false;
    }
    for k in 0..a.len() {
        if a[k].0 != b[k].0 {
            return false;
        }
    }
    true
}

/// Of the nets of which something was asked at the time before, those that are to be looked at
/// beside the ones of now: none where they are the same.
fn left_open<'a>(before: &'a [NodeId], asked: &[NodeId]) -> &'a [NodeId]
    ensures nodes { (nets : ℕ) → All (λ node. node.0 < nets) before.now
        → All (λ node. node.0 < nets) result.now }
    ensures left { (id : ℕ) → is_listed asked.now id ≡ false
        → is_listed result.now id ≡ is_listed before.now id }
{
    if are_same_nets(before, asked) {
        return &before[..0];
    }
    before
}

/// Gives all nets that no gate drives their sets. `latches` are the sets of the latches that do not
/// have theirs yet, and `before` are the nets that were cut or weakened at the time before; a net
/// that nothing drives, and that is not among them nor cut now, has both bits already.
pub fn sources<N: Nodes>(
    ops: &Ops,
    nodes: &mut N,
    net: &Compiled,
    latches: &[LatchSet],
    demands: &Demands,
    before: &[NodeId],
    board: &mut Board,
) -> Result<(), OpFault>
    requires latches { All (IsLatchSet (N.store nodes.old) net.now.raw) latches.now }
    requires guards { All (λ c. IsRef (N.store nodes.old) c.guard) demands.now.cuts }
    requires values { All (λ c. IsRef (N.store nodes.old) c.value) demands.now.cuts }
    requires over { demands.now.nets ≡ net.now.raw.nets }
    requires before { All (λ node. node.0 < net.now.raw.nets) before.now }
    requires nets { length board.old.nets.items ≡ net.now.raw.nets }
    requires refs { All (AreNetRefs (N.store nodes.old)) board.old.nets.items }
    requires undriven { AreOpen (N.store nodes.old) net.now.raw before.now board.old.nets.items }
    ensures keeps { OnOk result (Keeps (N.store nodes.old) (N.store nodes.new)) }
    ensures refs { OnOk result (All (AreNetRefs (N.store nodes.new)) board.new.nets.items) }
    ensures follows { OnOk result (Follows board.old board.new) }
    ensures built { (ls : List SymbolicSet) (ds : List SymbolicCut) (sets : ℕ → SymbolicSet)
        → AreGiven (N.store nodes.old) net.now.raw demands.now.weak ls sets latches.now
        board.old.nets.items
        → ArePossibleEach (N.store nodes.old).vars net.now.raw ls (asks demands.now.weak ds) sets
        → AllZip (IsCutBy (N.store nodes.old)) ds demands.now.cuts
        → Built (time_work net.now.raw ls (asks demands.now.weak ds) sets) Whatever
        (N.store nodes.old) (N.store nodes.new) result }
    ensures have { OnOk result (
        (ls : List SymbolicSet) (ds : List SymbolicCut) (sets : ℕ → SymbolicSet)
        → AreGiven (N.store nodes.old) net.now.raw demands.now.weak ls sets latches.now
        board.old.nets.items
        → ArePossibleEach (N.store nodes.old).vars net.now.raw ls (asks demands.now.weak ds) sets
        → AllZip (IsCutBy (N.store nodes.old)) ds demands.now.cuts
        → HaveSources net.now.raw sets (N.store nodes.new) net.now.raw.nets board.new.nets.items) }
{
    latch_sources(ops, nodes, net, latches, demands, board)?;
    let asked = demands.nodes();
    let left = left_open(before, asked);
    open_sources(ops, nodes, net, demands, left, board)?;
    open_sources(ops, nodes, net, demands, asked, board)
}
