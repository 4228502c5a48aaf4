//! What is found on the least closed table of a graph; begin with `judge`.

ghost use Rattle.std.specs.Prelude.{◌≡◌, ◌≢◌, ◌<◌, ℕ, List, All, length, map};
ghost use Rattle.std.specs.List.{AllZip};
ghost use Rattle.ste_base.specs.Functions.{Function};
ghost use Rattle.dd_nodes.specs.Stores.{Means};
ghost use Rattle.net_core.specs.Work.{ArePossibleEach, SymbolicSet};
ghost use Rattle.dual_rail.specs.Rail.{AreRails, Built};
ghost use Rattle.gate_sets.specs.Lists.{rows_of};
ghost use Rattle.ste_model.specs.declared.task.Edge.{Edge as AnEdge};
ghost use Rattle.ste_model.specs.GraphNeed.{AreWholeRounds, BindsReadBelow};
ghost use Rattle.ste_model.specs.GraphTable.{enough};
ghost use Rattle.ste_model.specs.GraphWork.{SymbolicState, graph_work, symbolic_asked_on};
ghost use Rattle.gste_engine.specs.Tables.{AreConsequentsOver, AreEdgesOver, AreStateRefs, HasStates, IsGraphOver};
ghost use Rattle.gste_engine.specs.private.EdgeFinds.{AreAllFound, AreEndings, AreFindings, AreFindingsRefs, IsAsked, IsWithEdge, all_found_work, asked_work, ending_work, with_edge_work};
ghost use Rattle.gste_engine.specs.private.Judged.{AreGraphResults};
ghost use Rattle.gste_engine.specs.private.Rounds.{AreGivenFrom, IsGivenFrom};
ghost use Rattle.gste_engine.specs.private.Seen.{AreSeen, IsSeenFrom};

use crate::binds::cuts_of;
use crate::edge::edge_found;
use crate::found::{Findings, with_found};
use crate::rounds::settled_table;
use crate::seen::seen_by;
use crate::state::State;
use dd_nodes::{Nodes, Ref};
use dd_ops::{OpFault, Ops};
use dual_rail::Rails;
use engine_parts::{Results, but_not};
use net_core::{Net, settles};
use std::alloc::Global;
use ste_base::Items;
use ste_model::{Edge, Graph};
use sym_step::{Cut, Frame, GateRows};

/// The table of the round that settles, and the strong, the weak and the contradictory assignments
/// on it.
#[derive(Drop)]
pub struct Judged {
    pub table: Items<State>,
    pub results: Results,
}

/// The references of an edge's consequents. The guards and values of its antecedent are built too,
/// and stay held.
fn asked_on<N: Nodes>(
    alloc: Global,
    ops: &Ops,
    nodes: &mut N,
    edge: &Edge,
) -> Result<Vec<Cut>, OpFault>
    requires given { BindsReadBelow (N.store nodes.old).vars edge.now.ant }
    requires wanted { BindsReadBelow (N.store nodes.old).vars edge.now.con }
    ensures { Built (asked_work edge.now) (λ t cuts. IsAsked edge.now t cuts.items)
        (N.store nodes.old) (N.store nodes.new) result }
{
    let given = cuts_of(alloc, ops, nodes, edge.ant.as_slice())?;
    drop(given);
    cuts_of(alloc, ops, nodes, edge.con.as_slice())
}

/// What is found so far, with what one more edge gives. Where its source is reached somewhere,
/// `given` and `seen` have been found of it; else it is evaluated.
fn with_edge<N: Nodes>(
    alloc: Global,
    nodes: &mut N,
    net: &Net,
    rows: &GateRows,
    edge: &Edge,
    source: &State,
    given: &State,
    seen: &[Rails],
    found: Findings,
) -> Result<Findings, OpFault>
    requires rows { rows.now.covers ≡ map rows_of net.now.raw.covers }
    requires nets { All (λ bind. bind.node.0 < net.now.raw.nets) edge.now.ant }
    requires weak { All (λ node. node.0 < net.now.raw.nets) edge.now.weak }
    requires reads { BindsReadBelow (N.store nodes.old).vars edge.now.ant }
    requires wanted { All (λ bind. bind.node.0 < net.now.raw.nets) edge.now.con }
    requires reads_wanted { BindsReadBelow (N.store nodes.old).vars edge.now.con }
    requires source { AreStateRefs (N.store nodes.old) net.now.raw source.now }
    requires given { IsGivenFrom (N.store nodes.old) net.now.raw edge.now source.now given.now }
    requires seen { source.now.reached.0 ≢ 0
        → IsSeenFrom (N.store nodes.old) net.now.raw edge.now source.now seen.now }
    requires found { AreFindingsRefs (N.store nodes.old) found }
    ensures { (r : Function) (ls : List SymbolicSet) (sets : ℕ → SymbolicSet) (f h e : Function)
        → Means (N.store nodes.old) r source.now.reached
        → AllZip (AreRails (N.store nodes.old)) ls source.now.latches
        → ArePossibleEach (N.store nodes.old).vars net.now.raw ls (symbolic_asked_on edge.now) sets
        → AreFindings f h e (N.store nodes.old) found
        → Built (with_edge_work net.now.raw edge.now
        (record { reached = r; latches = ls }) sets f h e)
        (IsWithEdge net.now.raw edge.now (record { reached = r; latches = ls }) sets f h e)
        (N.store nodes.old) (N.store nodes.new) result }
{
    let ops = Ops::new(alloc);
    let wanted = asked_on(alloc, &ops, nodes, edge)?;
    let cuts = wanted.as_slice();
    if source.reached != Ref::FALSE {
        return with_found(&ops, nodes, seen, cuts, given.reached, found);
    }
    let frame = Frame::blank(alloc, net)?;
    let made = edge_found(alloc, nodes, net, rows, edge, source, frame)?;
    let sets = seen_by(alloc, net, &made.frame, edge.con.as_slice())?;
    with_found(&ops, nodes, sets.as_slice(), cuts, made.feasible, found)
}

/// What is found on all edges, on a table.
fn all_found<N: Nodes>(
    alloc: Global,
    nodes: &mut N,
    net: &Net,
    rows: &GateRows,
    edges: &[Edge],
    table: &[State],
    givens: &[State],
    seen: &[Items<Rails>],
) -> Result<Findings, OpFault>
    requires rows { rows.now.covers ≡ map rows_of net.now.raw.covers }
    requires edges { AreEdgesOver net.now.raw (N.store nodes.old).vars
        (length table.now) edges.now }
    requires wanted { All (λ edge. All (λ bind. bind.node.0 < net.now.raw.nets) edge.con
        × BindsReadBelow (N.store nodes.old).vars edge.con) edges.now }
    requires table { All (AreStateRefs (N.store nodes.old) net.now.raw) table.now }
    requires givens { AreGivenFrom (N.store nodes.old) net.now.raw
        edges.now table.now givens.now }
    requires seen { AreSeen (N.store nodes.old) net.now.raw edges.now table.now seen.now }
    ensures { (states : ℕ → SymbolicState) (sets : AnEdge → ℕ → SymbolicSet)
        → HasStates states (length table.now) (N.store nodes.old) table.now
        → All (λ edge. ArePossibleEach (N.store nodes.old).vars net.now.raw
        (states edge.from).latches (symbolic_asked_on edge) (sets edge)) edges.now
        → Built (all_found_work net.now.raw states sets edges.now)
        (AreAllFound net.now.raw states sets edges.now)
        (N.store nodes.old) (N.store nodes.new) result }
{
    settles(net);
    let mut found = Findings {
        strong: Ref::FALSE,
        weak: Ref::FALSE,
        feasible: Ref::FALSE,
    };
    for k in 0..edges.len() {
        let edge = &edges[k];
        let source = &table[edge.from as usize];
        let sets = seen[k].as_slice();
        found = with_edge(
            alloc, nodes, net, rows, edge, source, &givens[k], sets, found,
        )?;
    }
    Ok(found)
}

/// The strong, the weak and the contradictory assignments, from what is found on all edges.
fn ending<N: Nodes>(ops: &Ops, nodes: &mut N, found: Findings) -> Result<Results, OpFault>
    requires found { AreFindingsRefs (N.store nodes.old) found }
    ensures { (f h e : Function) → AreFindings f h e (N.store nodes.old) found
        → Built (ending_work f h e) (AreEndings f h e)
        (N.store nodes.old) (N.store nodes.new) result }
{
    let weak = but_not(ops, nodes, found.weak, found.strong)?;
    let contradictory = ops.not(nodes, found.feasible)?;
    Ok(Results {
        strong: found.strong,
        weak,
        contradictory,
    })
}

/// The least closed table of a graph, and what is found on it, for all assignments at once. Every
/// guard and value is built. `rows` are those of the net, the bindings name nets of it, and their
/// variables are below the store's.
///
/// Each node that is made is a node of the graph's work functions, and `StepsOut` comes only where
/// all steps are spent and such a node is not held. After any error what was held stays. Every node
/// of the kept functions has a reference afterwards.
pub fn judge<N: Nodes>(
    alloc: Global,
    nodes: &mut N,
    net: &Net,
    rows: &GateRows,
    graph: &Graph,
) -> Result<Judged, OpFault>
    requires rows { rows.now.covers ≡ map rows_of net.now.raw.covers }
    requires graph { IsGraphOver net.now.raw (N.store nodes.old).vars graph.now }
    requires consequents { AreConsequentsOver net.now.raw (N.store nodes.old).vars graph.now }

    // The table's references have the functions of the round that settles, and the others those of
    // the results on it.
    ensures { (tables : ℕ → ℕ → SymbolicState) (sets : ℕ → AnEdge → ℕ → SymbolicSet)
        → AreWholeRounds net.now.raw (N.store nodes.old).vars graph.now tables sets
        → Built (graph_work net.now.raw graph.now tables sets)
        (λ t r. AreGraphResults net.now.raw graph.now (tables (enough net.now.raw graph.now))
        (sets (enough net.now.raw graph.now)) t r.table r.results)
        (N.store nodes.old) (N.store nodes.new) result }
{
    settles(net);
    let last = settled_table(alloc, nodes, net, rows, graph)?;
    let found = all_found(
        alloc,
        nodes,
        net,
        rows,
        graph.edges.as_slice(),
        last.table.as_slice(),
        last.givens.as_slice(),
        last.seen.as_slice(),
    )?;
    let ops = Ops::new(alloc);
    let results = ending(&ops, nodes, found)?;
    let table = Items::from(last.table);
    Ok(Judged { table, results })
}
