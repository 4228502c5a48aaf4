//! What is known of each edge under one assignment; begin with `hops_of`.

ghost use Rattle.std.specs.Prelude.{◌≡◌, ◌<◌, ℕ, All, IfOk, OnOk, length, map};
ghost use Rattle.gate_sets.specs.Lists.{rows_of};
ghost use Rattle.sym_step.specs.Frame.{IsFrame};
ghost use Rattle.engine_parts.specs.Failing.{FailsBy, MakesNothing};
ghost use Rattle.ste_model.specs.GraphHops.{AreEdgeHops, IsEdgeHop};
ghost use Rattle.ste_model.specs.GraphWork.{SymbolicState};
ghost use Rattle.gste_engine.specs.Tables.{AreConsequentsOver, AreStateRefs, HasStates, IsGraphOver, IsState};
ghost use Rattle.gste_engine.specs.private.Taken.{table_at};

use crate::state::State;
use crate::taken::taken_on;
use dd_nodes::Nodes;
use engine_parts::Failure;
use graph_path::Hop;
use net_core::Net;
use std::alloc::{AllocError, Global};
use ste_model::{Edge, Graph};
use sym_step::{Frame, GateRows};

/// What is known of an edge under an assignment, from the state of its source and a frame of any
/// time.
fn hop_of<N: Nodes>(
    alloc: Global,
    nodes: &mut N,
    net: &Net,
    rows: &GateRows,
    edge: &Edge,
    source: &State,
    bits: &[bool],
    failure: Failure,
    frame: &mut Frame,
) -> Result<Hop, AllocError>
    requires rows { rows.now.covers ≡ map rows_of net.now.raw.covers }
    requires ant { All (λ bind. bind.node.0 < net.now.raw.nets) edge.now.ant }
    requires weak { All (λ node. node.0 < net.now.raw.nets) edge.now.weak }
    requires con { All (λ bind. bind.node.0 < net.now.raw.nets) edge.now.con }
    requires source { AreStateRefs (N.store nodes.old) net.now.raw source.now }
    requires long { length bits.now ≡ (N.store nodes.old).vars }
    requires frame { IsFrame (N.store nodes.old) net.now.raw frame.old }
    ensures hop { IfOk result (λ hop. (states : ℕ → SymbolicState)
        → IsState (N.store nodes.old) (states edge.now.from) source.now
        → IsEdgeHop (FailsBy failure) net.now.raw bits.now (table_at bits.now states)
        edge.now hop) }
    ensures same { MakesNothing (N.store nodes.old) (N.store nodes.new) }
    ensures frame { OnOk result (IsFrame (N.store nodes.new) net.now.raw frame.new) }
{
    let told = taken_on(alloc, nodes, net, rows, edge, source, bits, failure, frame)?;
    Ok(Hop {
        from: edge.from,
        to: edge.to,
        feasible: told.feasible,
        fails: told.first.is_some(),
    })
}

/// What is known of each edge under an assignment, by number: its ends, whether it is feasible, and
/// whether a consequent of it fails so. No node is made, and the only error is out of memory.
pub fn hops_of<N: Nodes>(
    alloc: Global,
    nodes: &mut N,
    net: &Net,
    rows: &GateRows,
    graph: &Graph,
    table: &[State],
    bits: &[bool],
    failure: Failure,
) -> Result<Vec<Hop>, AllocError>
    requires rows { rows.now.covers ≡ map rows_of net.now.raw.covers }
    requires graph { IsGraphOver net.now.raw (N.store nodes.old).vars graph.now }
    requires con { AreConsequentsOver net.now.raw (N.store nodes.old).vars graph.now }
    requires table { All (AreStateRefs (N.store nodes.old) net.now.raw) table.now }
    requires vertices { length table.now ≡ length graph.now.vertices }
    requires long { length bits.now ≡ (N.store nodes.old).vars }
    ensures hops { IfOk result (λ hops. (states : ℕ → SymbolicState)
        → HasStates states (length graph.now.vertices) (N.store nodes.old) table.now
        → AreEdgeHops (FailsBy failure) net.now.raw bits.now (table_at bits.now states)
        graph.now.edges hops.items) }
    ensures same { MakesNothing (N.store nodes.old) (N.store nodes.new) }
{
    let edges = graph.edges.as_slice();
    let mut hops = Vec::new(alloc);
    let mut frame = Frame::blank(alloc, net)?;
    for k in 0..edges.len() {
        let edge = &edges[k];
        let source = &table[edge.from as usize];
        let hop = hop_of(
            alloc, nodes, net, rows, edge, source, bits, failure, &mut frame,
        )?;
        hops.push(hop)?;
    }
    Ok(hops)
}
