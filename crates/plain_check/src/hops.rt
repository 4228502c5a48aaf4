//! What is found at the edges of a graph under one assignment; begin with `hops_of`.

ghost use Rattle.std.specs.Prelude.{◌≡◌, ◌<◌, ℕ, length, All, IfOk, Some};
ghost use Rattle.std.specs.List.{list_any};
ghost use Rattle.ste_model.specs.GraphTable.{VertexState};
ghost use Rattle.plain_check.specs.private.Choices.{AreChoices};
ghost use Rattle.plain_check.specs.private.Hops.{AreHops, IsHopOf, hop_fails, is_feasible, outcome_of};
ghost use Rattle.plain_check.specs.States.{AreStates, IsGraphOver, state_of, states_of};

use crate::found::{Failure, Outcome, some_bind_fails};
use crate::rounds::{State, edge_row};
use net_core::{Net, settles};
use std::alloc::{AllocError, Global};
use ste_base::Items;
use ste_model::{Edge, Graph};

/// What is known of an edge under one assignment: its ends, whether it is feasible, and whether
/// some consequent of it is found strong, and found weak.
#[derive(Clone, Copy, PartialEq, Eq)]
pub struct Hop {
    pub from: u32,
    pub to: u32,
    pub feasible: bool,
    pub strong: bool,
    pub weak: bool,
}

impl Hop {
    /// Whether some consequent fails so.
    pub fn fails(self, failure: Failure) -> bool
        ensures { result ≡ hop_fails failure self }
    {
        match failure {
            Failure::Strong => self.strong,
            Failure::Weak => self.weak,
        }
    }
}

/// What is known of an edge, from what is known of its source.
fn hop_of(
    alloc: Global,
    net: &Net,
    choices: &[Items<Items<bool>>],
    source: &State,
    edge: &Edge,
    bits: &[bool],
) -> Result<Hop, AllocError>
    requires choices { AreChoices choices.now }
    requires widths { All (λ gate. length gate.inputs < length choices.now) net.now.raw.gates }
    requires held { length source.now.latches ≡ length net.now.raw.latches }
    requires in_range { All (λ bind. bind.node.0 < net.now.raw.nets) edge.now.ant }
    ensures { IfOk result (λ hop. (table : ℕ → VertexState) →
        table edge.now.from ≡ state_of net.now.raw (Some source.now) →
        IsHopOf net.now.raw bits.now table edge.now hop) }
{
    settles(net);
    let Some(row) = edge_row(alloc, net, choices, source, edge, bits)? else {
        return Ok(Hop {
            from: edge.from,
            to: edge.to,
            feasible: false,
            strong: false,
            weak: false,
        });
    };
    let strong = some_bind_fails(Failure::Strong, row.as_slice(), edge.con.as_slice(), bits);
    let weak = some_bind_fails(Failure::Weak, row.as_slice(), edge.con.as_slice(), bits);
    Ok(Hop {
        from: edge.from,
        to: edge.to,
        feasible: true,
        strong,
        weak,
    })
}

/// What is known of each edge on a table, by number.
pub fn hops_of(
    alloc: Global,
    net: &Net,
    choices: &[Items<Items<bool>>],
    graph: &Graph,
    bits: &[bool],
    table: &[State],
) -> Result<Vec<Hop>, AllocError>
    requires choices { AreChoices choices.now }
    requires widths { All (λ gate. length gate.inputs < length choices.now) net.now.raw.gates }
    requires graph { IsGraphOver net.now.raw graph.now }
    requires table { AreStates net.now.raw graph.now table.now }
    ensures { IfOk result (λ hops.
        AreHops net.now.raw bits.now (states_of net.now.raw table.now) graph.now.edges hops.items) }
{
    let mut hops = Vec::new(alloc);
    for edge in graph.edges.as_slice() {
        let source = &table[edge.from as usize];
        hops.push(hop_of(alloc, net, choices, source, edge, bits)?)?;
    }
    Ok(hops)
}

/// Whether some edge is feasible.
fn some_feasible(hops: &[Hop]) -> bool
    ensures { result ≡ list_any is_feasible hops.now }
{
    hops.iter().any(|hop| hop.feasible)
}

/// Whether some consequent fails so.
fn some_fails(failure: Failure, hops: &[Hop]) -> bool
    ensures { result ≡ list_any (hop_fails failure) hops.now }
{
    hops.iter().any(|hop| hop.fails(failure))
}

/// What is found of a graph.
pub fn outcome_of(hops: &[Hop]) -> Outcome
    ensures { result ≡ outcome_of hops.now }
{
    if !some_feasible(hops) {
        Outcome::Contradictory
    } else if some_fails(Failure::Strong, hops) {
        Outcome::Strong
    } else if some_fails(Failure::Weak, hops) {
        Outcome::Weak
    } else {
        Outcome::Fine
    }
}
