//! What is found of a graph under one assignment, and what a failure shows; begin with
//! `plain_check_graph`.

ghost use Rattle.std.specs.Prelude.{◌≡◌, ◌<◌, ◌≤◌, length, All, IfOk};
ghost use Rattle.ste_model.specs.GraphTable.{IsLeastClosed};
ghost use Rattle.plain_check.specs.private.Choices.{AreChoices};
ghost use Rattle.plain_check.specs.private.Hops.{AreHops};
ghost use Rattle.plain_check.specs.private.Shown.{IsFoundBy, IsShownIf, failure_of};
ghost use Rattle.plain_check.specs.States.{AreStates, IsGraphOver, states_of};

use crate::checker::all_choices;
use crate::found::{Failure, Outcome, first_failing};
use crate::hops::{Hop, hops_of, outcome_of};
use crate::paths::shortest_path;
use crate::rounds::{State, edge_row, least_table};
use net_core::{Net, settles};
use std::alloc::{AllocError, Global};
use ste_base::Items;
use ste_model::Graph;

/// What a failure shows: the numbers of the path's edges, the time of its last edge, and the number
/// of the first consequent of that edge that fails.
#[derive(Drop)]
pub struct Shown {
    pub path: Items<usize>,
    pub time: usize,
    pub consequent: usize,
}

/// What is found of a graph under one assignment, and for a failure what it shows.
#[derive(Drop)]
pub struct GraphFound {
    pub outcome: Outcome,
    pub shown: Option<Shown>,
}

/// The way to fail that an outcome says.
fn failure_of(outcome: Outcome) -> Option<Failure>
    ensures { result ≡ failure_of outcome }
{
    match outcome {
        Outcome::Strong => Some(Failure::Strong),
        Outcome::Weak => Some(Failure::Weak),
        Outcome::Contradictory => None,
        Outcome::Fine => None,
    }
}

/// What a failure shows, from the least closed table and what is known of the edges on it.
fn failure_shown(
    alloc: Global,
    net: &Net,
    choices: &[Items<Items<bool>>],
    graph: &Graph,
    bits: &[bool],
    table: &[State],
    hops: &[Hop],
    failure: Failure,
) -> Result<Option<Shown>, AllocError>
    requires choices { AreChoices choices.now }
    requires widths { All (λ gate. length gate.inputs < length choices.now) net.now.raw.gates }
    requires graph { IsGraphOver net.now.raw graph.now }

    requires table { AreStates net.now.raw graph.now table.now }
    requires least { IsLeastClosed net.now.raw graph.now bits.now
        (states_of net.now.raw table.now) }
    requires hops { AreHops net.now.raw bits.now (states_of net.now.raw table.now)
        graph.now.edges hops.now }
    ensures { IfOk result (λ shown. IsShownIf net.now.raw graph.now bits.now failure shown) }
{
    settles(net);
    let path = shortest_path(
        alloc,
        failure,
        hops,
        graph.vertices.len(),
        net.latches().len(),
    )?;
    let length = path.len();
    if length == 0 {
        return Ok(None);
    }
    let time = length - 1;
    let edge = &graph.edges.as_slice()[path.as_slice()[time]];
    let source = &table[edge.from as usize];
    let Some(row) = edge_row(alloc, net, choices, source, edge, bits)? else {
        return Ok(None);
    };
    let Some(consequent) = first_failing(failure, row.as_slice(), edge.con.as_slice(), bits) else {
        return Ok(None);
    };
    Ok(Some(Shown {
        path,
        time,
        consequent,
    }))
}

/// What is found of a graph under an assignment, and for a failure the path, its last time and the
/// consequent that fails there. A gate may have at most eight inputs.
pub fn plain_check_graph(
    alloc: Global,
    net: &Net,
    graph: &Graph,
    bits: &[bool],
) -> Result<GraphFound, AllocError>
    requires widths { All (λ gate. length gate.inputs ≤ 8) net.now.raw.gates }
    requires graph { IsGraphOver net.now.raw graph.now }
    ensures { IfOk result (λ found. IsFoundBy net.now.raw graph.now bits.now found) }
{
    settles(net);
    let choices = all_choices(alloc)?;
    let table = least_table(alloc, net, &choices, graph, bits)?;
    let hops = hops_of(alloc, net, &choices, graph, bits, &table)?;
    let outcome = outcome_of(&hops);
    let Some(failure) = failure_of(outcome) else {
        return Ok(GraphFound {
            outcome,
            shown: None,
        });
    };
    let shown = failure_shown(alloc, net, &choices, graph, bits, &table, &hops, failure)?;
    Ok(GraphFound { outcome, shown })
}
