//! The tables of a graph under one assignment, round by round; begin with `least_table`.

ghost use Rattle.std.specs.Prelude.{◌≡◌, ◌<◌, ◌++◌, ◌∷◌, [], ℕ, suc, true, List, length, map, All, IfOk, OnOk, None, Some};
ghost use Rattle.net_core.specs.Sets.{neither, next_sets};
ghost use Rattle.ste_model.specs.declared.task.Edge.{Edge as AnEdge};
ghost use Rattle.ste_model.specs.declared.task.Graph.{Graph as AGraph};
ghost use Rattle.ste_model.specs.Edges.{IsGraph};
ghost use Rattle.ste_model.specs.GraphTable.{IsLeastClosed, IsNext, VertexState};
ghost use Rattle.plain_check.specs.private.Choices.{AreChoices};
ghost use Rattle.plain_check.specs.private.Sets.{set_at};
ghost use Rattle.plain_check.specs.States.{AreStates, IsEdgeRow, IsGraphOver, latch_unions, start, state_of, states_of, unreached, with_edges};

use crate::found::row_has_empty;
use crate::table::{first_sets, next_sets, sets_on};
use net_core::{BitSet, Net, settles};
use std::alloc::{AllocError, Global};
use ste_base::Items;
use ste_model::{Edge, Graph};

/// What a table says of a vertex: whether it is reached, and what each latch holds there.
#[derive(Drop)]
pub struct State {
    pub reached: bool,
    pub latches: Items<BitSet>,
}

/// No bit for any latch.
fn no_sets(alloc: Global, net: &Net) -> Result<Vec<BitSet>, AllocError>
    ensures { IfOk result (λ sets. sets.items ≡ map (λ latch. neither) net.now.raw.latches) }
{
    net.latches()
        .iter()
        .map(|_| BitSet {
            zero: false,
            one: false,
        })
        .collect(alloc)
}

/// What a table says of a vertex that is not reached.
fn unreached(alloc: Global, net: &Net) -> Result<State, AllocError>
    ensures { IfOk result (λ state. state ≡ unreached net.now.raw) }
{
    let latches = Items::from(no_sets(alloc, net)?);
    Ok(State {
        reached: false,
        latches,
    })
}

/// The table of the first round: vertex 0 is reached with the first values, and nothing else is.
fn starts(alloc: Global, net: &Net, graph: &Graph) -> Result<Vec<State>, AllocError>
    requires { IsGraph graph.now }
    ensures states { IfOk result (λ states. AreStates net.now.raw graph.now states.items) }
    ensures first { IfOk result (λ states.
        states_of net.now.raw states.items 0
        ≡ state_of net.now.raw (Some (start net.now.raw graph.now.reset))) }
    ensures others { IfOk result (λ states. (vertex : ℕ) →
        states_of net.now.raw states.items (suc vertex) ≡ state_of net.now.raw None) }
{
    let mut states = Vec::new(alloc);
    for _ in 0..graph.vertices.len() {
        states.push(unreached(alloc, net)?)?;
    }
    let latches = Items::from(first_sets(alloc, net, graph.reset)?);
    states[0] = State {
        reached: true,
        latches,
    };
    Ok(states)
}

/// The possible sets of an edge's time step, from what is known of its source, where it is
/// feasible: where its source is reached, and no net is empty.
pub fn edge_row(
    alloc: Global,
    net: &Net,
    choices: &[Items<Items<bool>>],
    source: &State,
    edge: &Edge,
    bits: &[bool],
) -> Result<Option<Items<BitSet>>, AllocError>
    requires choices { AreChoices choices.now }
    requires widths { All (λ gate. length gate.inputs < length choices.now) net.now.raw.gates }
    requires held { length source.now.latches ≡ length net.now.raw.latches }
    requires in_range { All (λ bind. bind.node.0 < net.now.raw.nets) edge.now.ant }
    ensures { IfOk result (λ row. (table : ℕ → VertexState) →
        table edge.now.from ≡ state_of net.now.raw (Some source.now) →
        IsEdgeRow net.now.raw bits.now table edge.now row) }
{
    settles(net);
    if !source.reached {
        return Ok(None);
    }
    let row = sets_on(alloc, net, choices, source.latches.as_slice(), edge, bits)?;
    if row_has_empty(row.as_slice()) {
        return Ok(None);
    }
    Ok(Some(row))
}

/// The bits that are in one of the sets, latch by latch.
fn latch_unions(alloc: Global, one: &[BitSet], other: &[BitSet]) -> Result<Vec<BitSet>, AllocError>
    ensures { IfOk result (λ sets. sets.items ≡ latch_unions one.now other.now) }
{
    one.iter()
        .zip(other)
        .map(|(a, b)| BitSet {
            zero: a.zero || b.zero,
            one: a.one || b.one,
        })
        .collect(alloc)
}

/// What is known of a vertex once an edge with these sets has led to it.
fn with_arrival(
    alloc: Global,
    net: &Net,
    state: &State,
    row: &[BitSet],
) -> Result<State, AllocError>
    ensures reached { IfOk result (λ after. after.reached ≡ true) }
    ensures latches { IfOk result (λ after.
        after.latches ≡ latch_unions state.now.latches (next_sets net.now.raw (set_at row.now))) }
{
    let next = next_sets(alloc, net, row)?;
    let latches = Items::from(latch_unions(alloc, state.latches.as_slice(), &next)?);
    Ok(State {
        reached: true,
        latches,
    })
}

/// Follows an edge: where it is feasible, its next sets come to its target. `next` is the table of
/// the next round, by the edges before this one.
fn follow(
    alloc: Global,
    net: &Net,
    choices: &[Items<Items<bool>>],
    source: &State,
    edge: &Edge,
    bits: &[bool],
    next: &mut Vec<State>,
) -> Result<(), AllocError>
    requires choices { AreChoices choices.now }
    requires widths { All (λ gate. length gate.inputs < length choices.now) net.now.raw.gates }
    requires held { length source.now.latches ≡ length net.now.raw.latches }
    requires in_range { All (λ bind. bind.node.0 < net.now.raw.nets) edge.now.ant }
    requires to { edge.now.to < length next.old.items }

    ensures states { OnOk result ((graph : AGraph) →
        AreStates net.now.raw graph next.old.items → AreStates net.now.raw graph next.new.items) }
    // whatever graph has these edges, and whatever table has this state at the edge's source
    ensures next { OnOk result ((graph : AGraph) (edges : List AnEdge) (table : ℕ → VertexState) →
        table edge.now.from ≡ state_of net.now.raw (Some source.now) →
        IsNext net.now.raw (with_edges graph edges) bits.now table
        (states_of net.now.raw next.old.items) →
        IsNext net.now.raw (with_edges graph (edges ++ edge.now ∷ [])) bits.now table
        (states_of net.now.raw next.new.items)) }
{
    settles(net);
    let Some(row) = edge_row(alloc, net, choices, source, edge, bits)? else {
        return Ok(());
    };
    let to = edge.to as usize;
    let state = with_arrival(alloc, net, &next[to], row.as_slice())?;
    next[to] = state;
    Ok(())
}

/// The table of the next round.
fn round(
    alloc: Global,
    net: &Net,
    choices: &[Items<Items<bool>>],
    graph: &Graph,
    bits: &[bool],
    table: &[State],
) -> Result<Vec<State>, AllocError>
    requires choices { AreChoices choices.now }
    requires widths { All (λ gate. length gate.inputs < length choices.now) net.now.raw.gates }
    requires graph { IsGraphOver net.now.raw graph.now }
    requires table { AreStates net.now.raw graph.now table.now }

    ensures states { IfOk result (λ next. AreStates net.now.raw graph.now next.items) }
    ensures next { IfOk result (λ next. IsNext net.now.raw graph.now bits.now
        (states_of net.now.raw table.now) (states_of net.now.raw next.items)) }
{
    let mut next = starts(alloc, net, graph)?;
    for edge in graph.edges.as_slice() {
        let source = &table[edge.from as usize];
        follow(alloc, net, choices, source, edge, bits, &mut next)?;
    }
    Ok(next)
}

/// The least closed table, after as many rounds as settle it. Nothing is reached in round 0, so no
/// edge is feasible there, and the first round is where it starts.
pub fn least_table(
    alloc: Global,
    net: &Net,
    choices: &[Items<Items<bool>>],
    graph: &Graph,
    bits: &[bool],
) -> Result<Vec<State>, AllocError>
    requires choices { AreChoices choices.now }
    requires widths { All (λ gate. length gate.inputs < length choices.now) net.now.raw.gates }
    requires graph { IsGraphOver net.now.raw graph.now }

    ensures states { IfOk result (λ table. AreStates net.now.raw graph.now table.items) }
    ensures least { IfOk result (λ table.
        IsLeastClosed net.now.raw graph.now bits.now (states_of net.now.raw table.items)) }
{
    settles(net);
    let mut table = starts(alloc, net, graph)?;
    for _ in 0..graph.vertices.len() {
        for _ in 0..net.latches().len() * 2 + 1 {
            table = round(alloc, net, choices, graph, bits, &table)?;
        }
    }
    Ok(table)
}
