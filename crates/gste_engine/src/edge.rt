//! One edge on a table; begin with `edge_found`.

ghost use Rattle.std.specs.Prelude.{◌≡◌, ◌<◌, ℕ, List, All, IfOk, map};
ghost use Rattle.std.specs.List.{AllZip};
ghost use Rattle.ste_base.specs.Functions.{Function};
ghost use Rattle.dd_nodes.specs.Stores.{IsRef, Means, Store};
ghost use Rattle.net_core.specs.declared.raw.RawNet.{RawNet};
ghost use Rattle.net_core.specs.Work.{ArePossibleEach, SymbolicSet};
ghost use Rattle.dual_rail.specs.Rail.{AreRails, Built};
ghost use Rattle.sym_step.specs.Step.{IsStep};
ghost use Rattle.gate_sets.specs.Lists.{rows_of};
ghost use Rattle.sym_step.specs.Frame.{IsFrame, next_of, step_of};
ghost use Rattle.ste_model.specs.GraphNeed.{BindsReadBelow};
ghost use Rattle.ste_model.specs.GraphWork.{SymbolicState, edge_work, symbolic_asked_on};
ghost use Rattle.gste_engine.specs.Tables.{AreStateRefs, IsEdgeFound};
ghost use Rattle.gste_engine.specs.private.Given.{given_work};

use crate::binds::cuts_of;
use crate::feasible_sets::feasible_sets;
use crate::state::State;
use dd_nodes::{Nodes, Ref};
use dd_ops::{OpFault, Ops};
use dual_rail::{Rails, both};
use net_core::Net;
use std::alloc::{AllocError, Global};
use ste_base::Items;
use ste_model::Edge;
use sym_step::{Frame, GateRows, renew};

/// What one edge gives on a table: a frame of its time step, which has the sets of all nets, where
/// it is feasible, and the sets of the latch inputs where it is, with no bit elsewhere.
#[derive(Drop)]
pub struct EdgeFound {
    pub frame: Frame,
    pub feasible: Ref,
    pub next: Items<Rails>,
}

/// A frame before a time at which the latches have the sets that a table says of a vertex, from a
/// frame of any time.
fn frame_at(alloc: Global, source: &State, frame: Frame) -> Result<Frame, AllocError>
    ensures frame { IfOk result (λ begun. (s : Store) (net : RawNet)
        → IsFrame s net frame → AreStateRefs s net source.now → IsFrame s net begun) }
    ensures next { IfOk result (λ begun. (net : RawNet) → next_of net begun ≡ source.now.latches) }
{
    let latches = source.latches.as_slice().to_vec(alloc)?;
    Ok(frame.before_first_time(Items::from(latches)))
}

/// Where the edge is feasible, and what it gives, from the frame of its time step. `empty` is where
/// some net has no bit.
fn found_from_frame<N: Nodes>(
    alloc: Global,
    ops: &Ops,
    nodes: &mut N,
    net: &Net,
    reached: Ref,
    empty: Ref,
    frame: Frame,
) -> Result<EdgeFound, OpFault>
    requires reached { IsRef (N.store nodes.old) reached }
    requires empty { IsRef (N.store nodes.old) empty }
    requires frame { IsFrame (N.store nodes.old) net.now.raw frame }
    ensures found { (source : SymbolicState) (sets : ℕ → SymbolicSet)
        → Means (N.store nodes.old) source.reached reached
        → IsStep net.now.raw sets (N.store nodes.old) (step_of net.now.raw frame empty)
        → Built (given_work net.now.raw source sets) (IsEdgeFound net.now.raw source sets)
        (N.store nodes.old) (N.store nodes.new) result }
    ensures frame { IfOk result (λ found. found.frame ≡ frame) }
{
    let clear = ops.not(nodes, empty)?;
    let feasible = both(ops, nodes, reached, clear)?;
    let next = feasible_sets(alloc, ops, nodes, net.latches(), &frame, feasible)?;
    Ok(EdgeFound {
        frame,
        feasible,
        next,
    })
}

/// What one edge gives, for all assignments at once, on a table that says this of its source, from
/// a frame of any time: what has the same sets there is not evaluated again. `rows` are those of
/// the net, the bindings and the weakenings name nets of it, and their variables are below the
/// store's. Where the edge is not feasible the sets are built all the same. The consequents are not
/// looked at.
///
/// Each node that is made is a node of the edge's work functions, and `StepsOut` comes only where
/// all steps are spent and such a node is not held. After any error what was held stays, and the
/// frame is gone.
pub fn edge_found<N: Nodes>(
    alloc: Global,
    nodes: &mut N,
    net: &Net,
    rows: &GateRows,
    edge: &Edge,
    source: &State,
    frame: Frame,
) -> Result<EdgeFound, OpFault>
    requires rows { rows.now.covers ≡ map rows_of net.now.raw.covers }
    requires nets { All (λ bind. bind.node.0 < net.now.raw.nets) edge.now.ant }
    requires weak { All (λ node. node.0 < net.now.raw.nets) edge.now.weak }
    requires reads { BindsReadBelow (N.store nodes.old).vars edge.now.ant }
    requires source { AreStateRefs (N.store nodes.old) net.now.raw source.now }
    requires frame { IsFrame (N.store nodes.old) net.now.raw frame }

    // The possible sets of the edge's time step, where it is feasible, and its next sets.
    ensures found { (r : Function) (ls : List SymbolicSet) (sets : ℕ → SymbolicSet)
        → Means (N.store nodes.old) r source.now.reached
        → AllZip (AreRails (N.store nodes.old)) ls source.now.latches
        → ArePossibleEach (N.store nodes.old).vars net.now.raw ls (symbolic_asked_on edge.now) sets
        → Built (edge_work net.now.raw edge.now (record { reached = r; latches = ls }) sets)
        (IsEdgeFound net.now.raw (record { reached = r; latches = ls }) sets)
        (N.store nodes.old) (N.store nodes.new) result }

    // The frame is one of this time step.
    ensures frame { IfOk result (λ found. IsFrame (N.store nodes.new) net.now.raw found.frame) }
{
    let ops = Ops::new(alloc);
    let cuts = cuts_of(alloc, &ops, nodes, edge.ant.as_slice())?;
    let mut begun = frame_at(alloc, source, frame)?;
    let empty = renew(
        alloc,
        &ops,
        nodes,
        net,
        rows,
        edge.weak.as_slice(),
        cuts.as_slice(),
        &mut begun,
    )?;
    let found = found_from_frame(alloc, &ops, nodes, net, source.reached, empty, begun)?;
    Ok(found)
}
