//! What comes to a vertex, summed in the order of the edges; begin with `sum_of`.

ghost use Rattle.std.specs.Prelude.{◌≡◌, ◌<◌, List, All, IfOk, length, map, replicate};
ghost use Rattle.std.specs.List.{AllZip};
ghost use Rattle.dd_nodes.specs.Stores.{IsRef};
ghost use Rattle.net_core.specs.Work.{SymbolicSet};
ghost use Rattle.dual_rail.specs.Rail.{AreRails, AreRefs, Built};
ghost use Rattle.ste_model.specs.declared.task.Edge.{Edge as AnEdge};
ghost use Rattle.ste_model.specs.GraphWork.{SymbolicState, sets_functions};
ghost use Rattle.gste_engine.specs.declared.links.End.TheVariants.{To};
ghost use Rattle.gste_engine.specs.Tables.{IsState};
ghost use Rattle.gste_engine.specs.private.Links.{AreLinks};
ghost use Rattle.gste_engine.specs.private.Sums.{HaveFunctions, arrivals_work, first_table, first_state, no_rails, state_functions, summed_at, unions, unreached, with_state};

use crate::links::Links;
use crate::state::State;
use dd_nodes::{Nodes, Ref};
use dd_ops::{OpFault, Ops};
use dual_rail::{Rails, either, join};
use engine_parts::first_sets;
use net_core::Net;
use std::alloc::{AllocError, Global};
use ste_base::Items;
use ste_model::Graph;

/// No bit for any latch.
fn no_sets(alloc: Global, net: &Net) -> Result<Vec<Rails>, AllocError>
    ensures { IfOk result (λ sets. sets.items ≡ map (λ latch. no_rails) net.now.raw.latches) }
{
    let none = Rails {
        can0: Ref::FALSE,
        can1: Ref::FALSE,
    };
    let sets = vec![in alloc; none; net.latches().len()]?;
    Ok(sets)
}

/// What a table says of a vertex that is not reached under any assignment.
fn unreached(alloc: Global, net: &Net) -> Result<State, AllocError>
    ensures { IfOk result (λ state. state ≡ unreached net.now.raw) }
{
    let latches = Items::from(no_sets(alloc, net)?);
    Ok(State {
        reached: Ref::FALSE,
        latches,
    })
}

/// The table of round 0, in which nothing is reached.
pub fn nothing(alloc: Global, net: &Net, graph: &Graph) -> Result<Vec<State>, AllocError>
    ensures { IfOk result (λ table. table.items
        ≡ replicate (length graph.now.vertices) (unreached net.now.raw)) }
{
    let mut table = Vec::with_capacity(alloc, graph.vertices.len())?;
    for _ in 0..graph.vertices.len() {
        let state = unreached(alloc, net)?;
        table.push(state)?;
    }
    Ok(table)
}

/// What each edge gives where nothing is reached: nothing.
pub fn nothing_given(alloc: Global, net: &Net, graph: &Graph) -> Result<Vec<State>, AllocError>
    ensures { IfOk result (λ givens. givens.items
        ≡ replicate (length graph.now.edges) (unreached net.now.raw)) }
{
    let mut givens = Vec::with_capacity(alloc, graph.edges.len())?;
    for _ in 0..graph.edges.len() {
        let state = unreached(alloc, net)?;
        givens.push(state)?;
    }
    Ok(givens)
}

/// What comes to a vertex before any edge: to vertex 0 the first values, and nothing to the others.
fn first_state(alloc: Global, net: &Net, graph: &Graph, vertex: usize) -> Result<State, AllocError>
    ensures { IfOk result (λ state. state ≡ first_state net.now.raw graph.now.reset vertex) }
{
    if vertex != 0 {
        return unreached(alloc, net);
    }
    let latches = first_sets(alloc, net, graph.reset)?;
    Ok(State {
        reached: Ref::TRUE,
        latches,
    })
}

/// The table of round 1: what comes to each vertex before any edge.
pub fn first_table(alloc: Global, net: &Net, graph: &Graph) -> Result<Vec<State>, AllocError>
    requires { 0 < length graph.now.vertices }
    ensures { IfOk result (λ table. table.items
        ≡ first_table net.now.raw graph.now.reset (length graph.now.vertices)) }
{
    let mut table = nothing(alloc, net, graph)?;
    let first = first_state(alloc, net, graph, 0)?;
    table[0] = first;
    Ok(table)
}

/// The unions of the sets, latch by latch, in the list that has the first ones.
fn join_all<N: Nodes>(
    ops: &Ops,
    nodes: &mut N,
    a: Items<Rails>,
    b: &[Rails],
) -> Result<Items<Rails>, OpFault>
    requires long { length a ≡ length b.now }
    requires left { All (AreRefs (N.store nodes.old)) a }
    requires right { All (AreRefs (N.store nodes.old)) b.now }
    ensures { (vs ws : List SymbolicSet) → AllZip (AreRails (N.store nodes.old)) vs a
        → AllZip (AreRails (N.store nodes.old)) ws b.now
        → Built (sets_functions (unions vs ws)) (λ t all. AllZip (AreRails t) (unions vs ws) all)
        (N.store nodes.old) (N.store nodes.new) result }
{
    let mut all = Vec::from(a);
    for k in 0..b.len() {
        let one = join(ops, nodes, all[k], b[k])?;
        all[k] = one;
    }
    Ok(Items::from(all))
}

/// A state with what one more edge gives.
fn with_state<N: Nodes>(
    ops: &Ops,
    nodes: &mut N,
    state: State,
    more: &State,
) -> Result<State, OpFault>
    requires long { length state.latches ≡ length more.now.latches }
    requires reached { IsRef (N.store nodes.old) state.reached }
    requires latches { All (AreRefs (N.store nodes.old)) state.latches }
    requires more_reached { IsRef (N.store nodes.old) more.now.reached }
    requires more_latches { All (AreRefs (N.store nodes.old)) more.now.latches }
    ensures { (x y : SymbolicState) → IsState (N.store nodes.old) x state
        → IsState (N.store nodes.old) y more.now
        → Built (state_functions (with_state x y)) (λ t r. IsState t (with_state x y) r)
        (N.store nodes.old) (N.store nodes.new) result }
{
    let reached = either(ops, nodes, state.reached, more.reached)?;
    let latches = join_all(ops, nodes, state.latches, more.latches.as_slice())?;
    Ok(State { reached, latches })
}

/// What comes to a vertex in all, from what each edge gives, by number: that of the edges that lead
/// to it, in order.
pub fn sum_of<N: Nodes>(
    alloc: Global,
    nodes: &mut N,
    net: &Net,
    graph: &Graph,
    into: &Links,
    givens: &[State],
    vertex: usize,
) -> Result<State, OpFault>
    requires inside { vertex < length graph.now.vertices }
    requires into { AreLinks To (length graph.now.vertices) graph.now.edges into.now }
    requires givens { HaveFunctions (N.store nodes.old) net.now.raw graph.now.edges givens.now }
    ensures { (given : AnEdge → SymbolicState)
        → AllZip (λ edge r. IsState (N.store nodes.old) (given edge) r) graph.now.edges givens.now
        → Built (arrivals_work net.now.raw graph.now given)
        (λ t r. IsState t (summed_at net.now.raw graph.now.reset given graph.now.edges vertex) r)
        (N.store nodes.old) (N.store nodes.new) result }
{
    let ops = Ops::new(alloc);
    let first = first_state(alloc, net, graph, vertex)?;
    let mut sum = first;
    let mut k = into.first[vertex];
    while k < givens.len() {
        sum = with_state(&ops, nodes, sum, &givens[k])?;
        k = into.next[k];
    }
    Ok(sum)
}
