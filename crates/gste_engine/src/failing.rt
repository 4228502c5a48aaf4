//! Where a graph fails under one assignment: the path and its failing place; begin with
//! `path_shown`.

ghost use Rattle.std.specs.Prelude.{◌≡◌, ◌<◌, IfOk, length, map};
ghost use Rattle.gate_sets.specs.Lists.{rows_of};
ghost use Rattle.engine_parts.specs.Failing.{FailsBy, MakesNothing};
ghost use Rattle.ste_model.specs.GraphFound.{IsGraphFound};
ghost use Rattle.ste_model.specs.GraphReport.{IsGraphPlace};
ghost use Rattle.ste_model.specs.GraphShown.{IsShownPath};
ghost use Rattle.gste_engine.specs.Tables.{AreConsequentsOver, IsGraphOver};
ghost use Rattle.gste_engine.specs.private.Judged.{IsSettledTable};

use crate::hops::hops_of;
use crate::state::State;
use crate::taken::taken_on;
use dd_nodes::Nodes;
use engine_parts::Failure;
use graph_path::path_of;
use net_core::{Net, settles};
use std::alloc::{AllocError, Global};
use ste_base::{Items, NodeId, Time};
use ste_model::Graph;
use sym_step::{Frame, GateRows};

/// The path that a failure shows under an assignment that is found so, by the numbers of its edges.
/// The only error is out of memory, and a graph of 2^32 vertices or edges counts as such.
pub fn path_shown<N: Nodes>(
    alloc: Global,
    nodes: &mut N,
    net: &Net,
    rows: &GateRows,
    graph: &Graph,
    table: &[State],
    bits: &[bool],
    failure: Failure,
) -> Result<Items<u32>, AllocError>
    requires rows { rows.now.covers ≡ map rows_of net.now.raw.covers }
    requires graph { IsGraphOver net.now.raw (N.store nodes.old).vars graph.now }
    requires con { AreConsequentsOver net.now.raw (N.store nodes.old).vars graph.now }
    requires table { IsSettledTable net.now.raw graph.now (N.store nodes.old) table.now }
    requires long { length bits.now ≡ (N.store nodes.old).vars }
    requires found { IsGraphFound (FailsBy failure) net.now.raw graph.now bits.now }
    ensures path { IfOk result (λ path.
        IsShownPath (FailsBy failure) net.now.raw graph.now bits.now path) }
    ensures short { IfOk result (λ path. length path < 4294967296) }
    ensures same { MakesNothing (N.store nodes.old) (N.store nodes.new) }
{
    settles(net);
    let Ok(vertices) = u32::try_from(graph.vertices.len()) else {
        return Err(AllocError);
    };
    if graph.edges.len() > 4294967295 {
        return Err(AllocError);
    }
    let hops = hops_of(alloc, nodes, net, rows, graph, table, bits, failure)?;
    match path_of(alloc, vertices, hops.as_slice())? {
        Some(path) => Ok(path),
        // What is found has a candidate, so there is a path.
        None => unreachable!(),
    }
}

/// The failing place of the path that a failure shows: the net of the first consequent of its last
/// edge that fails so, and that edge's time step. The last edge is done once more.
pub fn place_on<N: Nodes>(
    alloc: Global,
    nodes: &mut N,
    net: &Net,
    rows: &GateRows,
    graph: &Graph,
    table: &[State],
    path: &[u32],
    bits: &[bool],
    failure: Failure,
) -> Result<(NodeId, Time), AllocError>
    requires rows { rows.now.covers ≡ map rows_of net.now.raw.covers }
    requires graph { IsGraphOver net.now.raw (N.store nodes.old).vars graph.now }
    requires con { AreConsequentsOver net.now.raw (N.store nodes.old).vars graph.now }
    requires table { IsSettledTable net.now.raw graph.now (N.store nodes.old) table.now }
    requires long { length bits.now ≡ (N.store nodes.old).vars }
    requires path { IsShownPath (FailsBy failure) net.now.raw graph.now bits.now path.now }
    requires short { length path.now < 4294967296 }
    ensures place { IfOk result (λ place.
        IsGraphPlace (FailsBy failure) net.now.raw graph.now bits.now path.now place) }
    ensures same { MakesNothing (N.store nodes.old) (N.store nodes.new) }
{
    settles(net);
    let time = path.len() - 1;
    let edge = &graph.edges.as_slice()[path[time] as usize];
    let source = &table[edge.from as usize];
    let mut frame = Frame::blank(alloc, net)?;
    let told = taken_on(
        alloc, nodes, net, rows, edge, source, bits, failure, &mut frame,
    )?;
    match told.first {
        Some(node) => Ok((node, time as u32)),
        // The last edge of the path has a consequent that fails so.
        None => unreachable!(),
    }
}
