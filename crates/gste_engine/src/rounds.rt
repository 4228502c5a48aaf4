//! The rounds, for all assignments at once, up to the least closed table; begin with `settle`.

ghost use Rattle.std.specs.Prelude.{◌≡◌, ◌<◌, ◌≤◌, ◌+◌, [], ℕ, All, IfOk, drop, length, map};
ghost use Rattle.std.specs.List.{AllZip};
ghost use Rattle.net_core.specs.Work.{ArePossibleEach, SymbolicSet};
ghost use Rattle.dual_rail.specs.Rail.{Built};
ghost use Rattle.gate_sets.specs.Lists.{rows_of};
ghost use Rattle.sym_step.specs.Frame.{nets_of};
ghost use Rattle.ste_model.specs.declared.task.Edge.{Edge as AnEdge};
ghost use Rattle.ste_model.specs.GraphNeed.{AreWholeRounds};
ghost use Rattle.ste_model.specs.GraphTable.{enough};
ghost use Rattle.ste_model.specs.GraphWork.{SymbolicState, given_by, symbolic_asked_on};
ghost use Rattle.gste_engine.specs.declared.links.End.TheVariants.{From, To};
ghost use Rattle.gste_engine.specs.Tables.{AreStateRefs, HasStates, IsGraphOver, IsState, rounds_work};
ghost use Rattle.gste_engine.specs.private.Links.{AreLinks};
ghost use Rattle.gste_engine.specs.private.Rounds.{AreEnds, AtStart, IsBetween, IsLast, IsProgress, IsSettledOn, IsSwept, IsTurn, AreEdgeResults, IsWithGiven, IsWithSum, edges_work, one_round_work};
ghost use Rattle.gste_engine.specs.private.Seen.{rails_of};
ghost use Rattle.gste_engine.specs.private.Sums.{HaveFunctions, arrivals_work};
ghost use Rattle.gste_engine.specs.private.Waiting.{IsWaiting};

use crate::edge::edge_found;
use crate::links::{End, Links, links_of};
use crate::same::same_state;
use crate::seen::seen_by;
use crate::state::State;
use crate::sums::{first_table, nothing_given, sum_of};
use crate::waiting::{Waiting, with_vertex};
use dd_nodes::Nodes;
use dd_ops::OpFault;
use dual_rail::Rails;
use net_core::{Net, settles};
use std::alloc::{AllocError, Global};
use ste_base::Items;
use ste_model::{Edge, Graph};
use sym_step::{Frame, GateRows};

/// What each edge gives, by number, the sets of the nets that its consequents name, where it has
/// been evaluated, and the vertices to which an edge gives something else than before; beside them
/// the frame of the edge that was evaluated last.
#[derive(Drop)]
struct EdgeResults {
    givens: Vec<State>,
    seen: Vec<Items<Rails>>,
    waiting: Waiting,
    frame: Frame,
}

/// The same where the edge `k` gives this to a vertex, which waits from then on if that is
/// something else than before.
fn with_given(
    edge_results: EdgeResults,
    k: usize,
    to: usize,
    given: State,
    seen: Items<Rails>,
) -> Result<EdgeResults, AllocError>
    requires known { k < length edge_results.givens.items }
    requires count { k < length edge_results.seen.items }
    requires waiting { IsWaiting edge_results.waiting }
    requires to { to < length edge_results.waiting.flags.items }
    ensures { IfOk result (λ more. IsWithGiven edge_results k to given seen more) }
{
    let mut more = edge_results;
    more.seen[k] = seen;
    if same_state(&more.givens[k], &given) {
        return Ok(more);
    }
    more.givens[k] = given;
    more.waiting = with_vertex(more.waiting, to)?;
    Ok(more)
}

/// The same with what is found of the edge `k`. What its consequents name is read from its frame,
/// which the results have already.
fn with_edge(
    alloc: Global,
    net: &Net,
    edge: &Edge,
    k: usize,
    given: State,
    edge_results: EdgeResults,
) -> Result<EdgeResults, AllocError>
    requires known { k < length edge_results.givens.items }
    requires count { k < length edge_results.seen.items }
    requires waiting { IsWaiting edge_results.waiting }
    requires to { edge.now.to < length edge_results.waiting.flags.items }
    requires nets { length (nets_of edge_results.frame) ≡ net.now.raw.nets }
    ensures { IfOk result (λ more. IsWithGiven edge_results k edge.now.to given
        (map (rails_of (nets_of edge_results.frame)) edge.now.con) more) }
{
    let seen = seen_by(alloc, net, &edge_results.frame, edge.con.as_slice())?;
    with_given(edge_results, k, edge.to as usize, given, seen)
}

/// What each edge gives, where those that begin at the `i`-th changed vertex are evaluated on the
/// table. They are known for the edges from vertices that have not changed, and from those in front
/// of this one.
fn evaluate_from<N: Nodes>(
    alloc: Global,
    nodes: &mut N,
    net: &Net,
    rows: &GateRows,
    graph: &Graph,
    from: &Links,
    table: &[State],
    changed: &[usize],
    i: usize,
    known: EdgeResults,
) -> Result<EdgeResults, OpFault>
    requires rows { rows.now.covers ≡ map rows_of net.now.raw.covers }
    requires graph { IsGraphOver net.now.raw (N.store nodes.old).vars graph.now }
    requires from { AreLinks From (length graph.now.vertices) graph.now.edges from.now }
    requires table { All (AreStateRefs (N.store nodes.old) net.now.raw) table.now }
    requires long { length table.now ≡ length graph.now.vertices }
    requires changed { All (λ v. v < length graph.now.vertices) changed.now }
    requires inside { i < length changed.now }
    requires known { AreEdgeResults (N.store nodes.old) net.now.raw graph.now table.now
        (drop i changed.now) 0 (length graph.now.edges) known }
    ensures { (states : ℕ → SymbolicState) (sets : AnEdge → ℕ → SymbolicSet)
        → HasStates states (length table.now) (N.store nodes.old) table.now
        → All (λ edge. ArePossibleEach (N.store nodes.old).vars net.now.raw
        (states edge.from).latches (symbolic_asked_on edge) (sets edge)) graph.now.edges
        → Built (edges_work net.now.raw states sets graph.now.edges)
        (λ t r. AreEdgeResults t net.now.raw graph.now table.now (drop (i + 1) changed.now)
        0 (length graph.now.edges) r)
        (N.store nodes.old) (N.store nodes.new) result }
{
    settles(net);
    let edges = graph.edges.as_slice();
    let mut edge_results = known;
    let mut k = from.first[changed[i]];
    while k < edges.len() {
        let edge = &edges[k];
        let source = &table[edge.from as usize];
        let found = edge_found(alloc, nodes, net, rows, edge, source, edge_results.frame)?;
        edge_results.frame = found.frame;
        let given = State {
            reached: found.feasible,
            latches: found.next,
        };
        edge_results = with_edge(alloc, net, edge, k, given, edge_results)?;
        k = from.next[k];
    }
    Ok(edge_results)
}

/// What each edge gives on a table, where it is known for the edges from vertices that have not
/// changed.
fn evaluate_changed<N: Nodes>(
    alloc: Global,
    nodes: &mut N,
    net: &Net,
    rows: &GateRows,
    graph: &Graph,
    from: &Links,
    table: &[State],
    changed: &[usize],
    known: EdgeResults,
) -> Result<EdgeResults, OpFault>
    requires rows { rows.now.covers ≡ map rows_of net.now.raw.covers }
    requires graph { IsGraphOver net.now.raw (N.store nodes.old).vars graph.now }
    requires from { AreLinks From (length graph.now.vertices) graph.now.edges from.now }
    requires table { All (AreStateRefs (N.store nodes.old) net.now.raw) table.now }
    requires long { length table.now ≡ length graph.now.vertices }
    requires changed { All (λ v. v < length graph.now.vertices) changed.now }
    requires known { AreEdgeResults (N.store nodes.old) net.now.raw graph.now table.now
        changed.now 0 (length graph.now.edges) known }
    ensures { (states : ℕ → SymbolicState) (sets : AnEdge → ℕ → SymbolicSet)
        → HasStates states (length table.now) (N.store nodes.old) table.now
        → All (λ edge. ArePossibleEach (N.store nodes.old).vars net.now.raw
        (states edge.from).latches (symbolic_asked_on edge) (sets edge)) graph.now.edges
        → Built (edges_work net.now.raw states sets graph.now.edges)
        (λ t r. AreEdgeResults t net.now.raw graph.now table.now [] 0 (length graph.now.edges) r)
        (N.store nodes.old) (N.store nodes.new) result }
{
    settles(net);
    let mut edge_results = known;
    for i in 0..changed.len() {
        edge_results = evaluate_from(
            alloc,
            nodes,
            net,
            rows,
            graph,
            from,
            table,
            changed,
            i,
            edge_results,
        )?;
    }
    Ok(edge_results)
}

/// A table, the vertices whose references have changed, and the flags of those that still wait.
#[derive(Drop)]
struct Sweep {
    table: Vec<State>,
    flags: Vec<bool>,
    changed: Vec<usize>,
}

/// The same with this state of a vertex, which waits no longer.
fn with_sum(sweep: Sweep, vertex: usize, sum: State) -> Result<Sweep, AllocError>
    requires table { vertex < length sweep.table.items }
    requires flags { vertex < length sweep.flags.items }
    ensures { IfOk result (λ more. IsWithSum sweep vertex sum more) }
{
    let mut more = sweep;
    more.flags[vertex] = false;
    if same_state(&more.table[vertex], &sum) {
        return Ok(more);
    }
    more.table[vertex] = sum;
    more.changed.push(vertex)?;
    Ok(more)
}

/// The table where each waiting vertex is summed again, from what each edge gives.
fn sum_waiting<N: Nodes>(
    alloc: Global,
    nodes: &mut N,
    net: &Net,
    graph: &Graph,
    into: &Links,
    givens: &[State],
    list: &[usize],
    start: Sweep,
) -> Result<Sweep, OpFault>
    requires into { AreLinks To (length graph.now.vertices) graph.now.edges into.now }
    requires givens { HaveFunctions (N.store nodes.old) net.now.raw graph.now.edges givens.now }
    requires list { All (λ v. v < length graph.now.vertices) list.now }
    requires start { IsSwept (N.store nodes.old) net.now.raw graph.now givens.now
        start.table.items list.now start }
    ensures { (given : AnEdge → SymbolicState)
        → AllZip (λ edge r. IsState (N.store nodes.old) (given edge) r) graph.now.edges givens.now
        → Built (arrivals_work net.now.raw graph.now given)
        (λ t r. IsSwept t net.now.raw graph.now givens.now start.table.items [] r)
        (N.store nodes.old) (N.store nodes.new) result }
{
    settles(net);
    let mut sweep = start;
    for i in 0..list.len() {
        let vertex = list[i];
        let sum = sum_of(alloc, nodes, net, graph, into, givens, vertex)?;
        sweep = with_sum(sweep, vertex, sum)?;
    }
    Ok(sweep)
}

/// A table, what each edge gives and what is seen of it but for those from vertices that changed in
/// the last round, these vertices, a flag for each vertex, which is not set, and the frame of the
/// edge that was evaluated last.
#[derive(Drop)]
struct Progress {
    table: Vec<State>,
    givens: Vec<State>,
    seen: Vec<Items<Rails>>,
    changed: Vec<usize>,
    flags: Vec<bool>,
    frame: Frame,
}

/// The table of the next round, from what each edge gives on a table: the vertices that wait are
/// summed again.
fn next_progress<N: Nodes>(
    alloc: Global,
    nodes: &mut N,
    net: &Net,
    graph: &Graph,
    into: &Links,
    table: Vec<State>,
    edge_results: EdgeResults,
) -> Result<Progress, OpFault>
    requires graph { IsGraphOver net.now.raw (N.store nodes.old).vars graph.now }
    requires into { AreLinks To (length graph.now.vertices) graph.now.edges into.now }
    requires long { length table.items ≡ length graph.now.vertices }
    requires table { All (AreStateRefs (N.store nodes.old) net.now.raw) table.items }
    requires known { AreEdgeResults (N.store nodes.old) net.now.raw graph.now table.items
        [] 0 (length graph.now.edges) edge_results }
    ensures { (states : ℕ → SymbolicState) (sets : AnEdge → ℕ → SymbolicSet)
        → HasStates states (length graph.now.vertices) (N.store nodes.old) table.items
        → All (λ edge. ArePossibleEach (N.store nodes.old).vars net.now.raw
        (states edge.from).latches (symbolic_asked_on edge) (sets edge)) graph.now.edges
        → Built (arrivals_work net.now.raw graph.now
        (λ edge. given_by net.now.raw (states edge.from) (sets edge)))
        (IsTurn net.now.raw graph.now states sets)
        (N.store nodes.old) (N.store nodes.new) result }
{
    settles(net);
    let EdgeResults {
        givens,
        seen,
        waiting,
        frame,
    } = edge_results;
    let Waiting { flags, list } = waiting;
    let start = Sweep {
        table,
        flags,
        changed: Vec::new(alloc),
    };
    let sweep = sum_waiting(
        alloc,
        nodes,
        net,
        graph,
        into,
        givens.as_slice(),
        list.as_slice(),
        start,
    )?;
    Ok(Progress {
        table: sweep.table,
        givens,
        seen,
        changed: sweep.changed,
        flags: sweep.flags,
        frame,
    })
}

/// The edges of a graph by both ends.
#[derive(Drop)]
struct Ends {
    from: Links,
    into: Links,
}

/// The edges that begin at each vertex, and those that lead to it.
fn ends_of(alloc: Global, graph: &Graph) -> Result<Ends, AllocError>
    requires from { All (λ edge. edge.from < length graph.now.vertices) graph.now.edges }
    requires into { All (λ edge. edge.to < length graph.now.vertices) graph.now.edges }
    ensures { IfOk result (λ ends. AreEnds graph.now ends) }
{
    let vertices = graph.vertices.len();
    let edges = graph.edges.as_slice();
    let from = links_of(alloc, vertices, edges, End::From)?;
    let into = links_of(alloc, vertices, edges, End::To)?;
    Ok(Ends { from, into })
}

/// The table of the next round: the edges from changed vertices are evaluated, and then the
/// vertices to which one of them gives something else are summed again.
fn round<N: Nodes>(
    alloc: Global,
    nodes: &mut N,
    net: &Net,
    rows: &GateRows,
    graph: &Graph,
    ends: &Ends,
    start: Progress,
) -> Result<Progress, OpFault>
    requires rows { rows.now.covers ≡ map rows_of net.now.raw.covers }
    requires graph { IsGraphOver net.now.raw (N.store nodes.old).vars graph.now }
    requires ends { AreEnds graph.now ends.now }
    requires start { IsBetween (N.store nodes.old) net.now.raw graph.now start }
    ensures { (states : ℕ → SymbolicState) (sets : AnEdge → ℕ → SymbolicSet)
        → HasStates states (length graph.now.vertices) (N.store nodes.old) start.table.items
        → All (λ edge. ArePossibleEach (N.store nodes.old).vars net.now.raw
        (states edge.from).latches (symbolic_asked_on edge) (sets edge)) graph.now.edges
        → Built (one_round_work net.now.raw graph.now states sets)
        (IsTurn net.now.raw graph.now states sets)
        (N.store nodes.old) (N.store nodes.new) result }
{
    settles(net);
    let waiting = Waiting {
        flags: start.flags,
        list: Vec::new(alloc),
    };
    let known = EdgeResults {
        givens: start.givens,
        seen: start.seen,
        waiting,
        frame: start.frame,
    };
    let table = start.table;
    let edge_results = evaluate_changed(
        alloc,
        nodes,
        net,
        rows,
        graph,
        &ends.from,
        table.as_slice(),
        start.changed.as_slice(),
        known,
    )?;
    next_progress(alloc, nodes, net, graph, &ends.into, table, edge_results)
}

/// Nothing is seen of any edge.
fn nothing_seen(alloc: Global, graph: &Graph) -> Result<Vec<Items<Rails>>, AllocError>
    ensures { IfOk result (λ seen. length seen.items ≡ length graph.now.edges) }
{
    let mut seen = Vec::with_capacity(alloc, graph.edges.len())?;
    for _ in 0..graph.edges.len() {
        seen.push(Items::new(alloc))?;
    }
    Ok(seen)
}

/// Round 1: vertex 0 is reached, and nothing is given yet.
fn first_round(alloc: Global, net: &Net, graph: &Graph) -> Result<Progress, AllocError>
    requires { 0 < length graph.now.vertices }
    ensures { IfOk result (λ start. AtStart net.now.raw graph.now start) }
{
    let table = first_table(alloc, net, graph)?;
    let givens = nothing_given(alloc, net, graph)?;
    let seen = nothing_seen(alloc, graph)?;
    let changed = vec![in alloc; 0; 1]?;
    let flags = vec![in alloc; false; graph.vertices.len()]?;
    let frame = Frame::blank(alloc, net)?;
    Ok(Progress {
        table,
        givens,
        seen,
        changed,
        flags,
        frame,
    })
}

/// The table after so many more rounds, or after the first one of them that changes nothing.
fn more_rounds<N: Nodes>(
    alloc: Global,
    nodes: &mut N,
    net: &Net,
    rows: &GateRows,
    graph: &Graph,
    ends: &Ends,
    start: Progress,
    count: usize,
) -> Result<Progress, OpFault>
    requires rows { rows.now.covers ≡ map rows_of net.now.raw.covers }
    requires graph { IsGraphOver net.now.raw (N.store nodes.old).vars graph.now }
    requires ends { AreEnds graph.now ends.now }
    requires start { IsBetween (N.store nodes.old) net.now.raw graph.now start }
    ensures { (tables : ℕ → ℕ → SymbolicState) (sets : ℕ → AnEdge → ℕ → SymbolicSet) (n : ℕ)
        → AreWholeRounds net.now.raw (N.store nodes.old).vars graph.now tables sets
        → n + count ≤ enough net.now.raw graph.now
        → HasStates (tables n) (length graph.now.vertices) (N.store nodes.old) start.table.items
        → Built (rounds_work net.now.raw graph.now tables sets)
        (IsProgress net.now.raw graph.now tables (n + count))
        (N.store nodes.old) (N.store nodes.new) result }
{
    settles(net);
    let mut progress = start;
    for _ in 0..count {
        if progress.changed.is_empty() {
            return Ok(progress);
        }
        progress = round(alloc, nodes, net, rows, graph, ends, progress)?;
    }
    Ok(progress)
}

/// The table of the round that settles, what each edge gives on it, and the sets of the nets that
/// its consequents name, where its source is reached.
#[derive(Drop)]
pub struct Known {
    pub table: Vec<State>,
    pub givens: Vec<State>,
    pub seen: Vec<Items<Rails>>,
}

/// The table with what is known on it: what edges from changed vertices give is evaluated once
/// more.
fn known_on<N: Nodes>(
    alloc: Global,
    nodes: &mut N,
    net: &Net,
    rows: &GateRows,
    graph: &Graph,
    ends: &Ends,
    last: Progress,
) -> Result<Known, OpFault>
    requires rows { rows.now.covers ≡ map rows_of net.now.raw.covers }
    requires graph { IsGraphOver net.now.raw (N.store nodes.old).vars graph.now }
    requires ends { AreEnds graph.now ends.now }
    requires last { IsBetween (N.store nodes.old) net.now.raw graph.now last }
    ensures { (states : ℕ → SymbolicState) (sets : AnEdge → ℕ → SymbolicSet)
        → HasStates states (length graph.now.vertices) (N.store nodes.old) last.table.items
        → All (λ edge. ArePossibleEach (N.store nodes.old).vars net.now.raw
        (states edge.from).latches (symbolic_asked_on edge) (sets edge)) graph.now.edges
        → Built (edges_work net.now.raw states sets graph.now.edges)
        (IsSettledOn net.now.raw graph.now states)
        (N.store nodes.old) (N.store nodes.new) result }
{
    settles(net);
    let waiting = Waiting {
        flags: last.flags,
        list: Vec::new(alloc),
    };
    let known = EdgeResults {
        givens: last.givens,
        seen: last.seen,
        waiting,
        frame: last.frame,
    };
    let table = last.table;
    let edge_results = evaluate_changed(
        alloc,
        nodes,
        net,
        rows,
        graph,
        &ends.from,
        table.as_slice(),
        last.changed.as_slice(),
        known,
    )?;
    Ok(Known {
        table,
        givens: edge_results.givens,
        seen: edge_results.seen,
    })
}

/// As many rounds behind round 1 as settle the table, or up to the first one that changes nothing.
fn all_rounds<N: Nodes>(
    alloc: Global,
    nodes: &mut N,
    net: &Net,
    rows: &GateRows,
    graph: &Graph,
    ends: &Ends,
    start: Progress,
) -> Result<Progress, OpFault>
    requires rows { rows.now.covers ≡ map rows_of net.now.raw.covers }
    requires graph { IsGraphOver net.now.raw (N.store nodes.old).vars graph.now }
    requires ends { AreEnds graph.now ends.now }
    requires start { IsBetween (N.store nodes.old) net.now.raw graph.now start }
    requires first { (tables : ℕ → ℕ → SymbolicState) (sets : ℕ → AnEdge → ℕ → SymbolicSet)
        → AreWholeRounds net.now.raw (N.store nodes.old).vars graph.now tables sets
        → HasStates (tables 1) (length graph.now.vertices) (N.store nodes.old) start.table.items }
    ensures { (tables : ℕ → ℕ → SymbolicState) (sets : ℕ → AnEdge → ℕ → SymbolicSet)
        → AreWholeRounds net.now.raw (N.store nodes.old).vars graph.now tables sets
        → Built (rounds_work net.now.raw graph.now tables sets)
        (IsLast net.now.raw graph.now (tables (enough net.now.raw graph.now)))
        (N.store nodes.old) (N.store nodes.new) result }
{
    settles(net);
    let each = net.latches().len() * 2 + 1;
    let mut progress = start;
    for _ in 0..graph.vertices.len() {
        progress = more_rounds(alloc, nodes, net, rows, graph, ends, progress, each)?;
        if progress.changed.is_empty() {
            return Ok(progress);
        }
    }
    Ok(progress)
}

/// The same as `settle`, with what is known of each edge on the table.
pub fn settled_table<N: Nodes>(
    alloc: Global,
    nodes: &mut N,
    net: &Net,
    rows: &GateRows,
    graph: &Graph,
) -> Result<Known, OpFault>
    requires rows { rows.now.covers ≡ map rows_of net.now.raw.covers }
    requires graph { IsGraphOver net.now.raw (N.store nodes.old).vars graph.now }
    ensures { (tables : ℕ → ℕ → SymbolicState) (sets : ℕ → AnEdge → ℕ → SymbolicSet)
        → AreWholeRounds net.now.raw (N.store nodes.old).vars graph.now tables sets
        → Built (rounds_work net.now.raw graph.now tables sets)
        (IsSettledOn net.now.raw graph.now (tables (enough net.now.raw graph.now)))
        (N.store nodes.old) (N.store nodes.new) result }
{
    settles(net);
    let ends = ends_of(alloc, graph)?;
    let start = first_round(alloc, net, graph)?;
    let last = all_rounds(alloc, nodes, net, rows, graph, &ends, start)?;
    known_on(alloc, nodes, net, rows, graph, &ends, last)
}

/// The least closed table of a graph, for all assignments at once: the rounds until no reference
/// changes, or as many as settle it. `rows` are those of the net, and `IsGraphOver` says what is
/// asked of the graph.
///
/// Each node that is made is a node of the work functions of the rounds, with those of each guard
/// and value that an antecedent has, and `StepsOut` comes only where all steps are spent and such a
/// node is not held. After any error what was held stays. The guards and values of consequents are
/// not built.
pub fn settle<N: Nodes>(
    alloc: Global,
    nodes: &mut N,
    net: &Net,
    rows: &GateRows,
    graph: &Graph,
) -> Result<Items<State>, OpFault>
    requires rows { rows.now.covers ≡ map rows_of net.now.raw.covers }
    requires graph { IsGraphOver net.now.raw (N.store nodes.old).vars graph.now }

    // The table's references have the functions of the round that settles.
    ensures { (tables : ℕ → ℕ → SymbolicState) (sets : ℕ → AnEdge → ℕ → SymbolicSet)
        → AreWholeRounds net.now.raw (N.store nodes.old).vars graph.now tables sets
        → Built (rounds_work net.now.raw graph.now tables sets)
        (HasStates (tables (enough net.now.raw graph.now)) (length graph.now.vertices))
        (N.store nodes.old) (N.store nodes.new) result }
{
    let last = settled_table(alloc, nodes, net, rows, graph)?;
    Ok(Items::from(last.table))
}
