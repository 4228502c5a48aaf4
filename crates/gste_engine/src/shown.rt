//! What a failure of a graph shows; begin with `shown_of`.

ghost use Rattle.std.specs.Prelude.{◌≡◌, ◌<◌, IfOk, Some, length, map};
ghost use Rattle.dd_nodes.specs.Stores.{IsRef, function};
ghost use Rattle.gate_sets.specs.Lists.{rows_of};
ghost use Rattle.engine_parts.specs.Failing.{FailsBy, MakesNothing};
ghost use Rattle.ste_model.specs.declared.task.Task.TheVariants.{Gste};
ghost use Rattle.ste_model.specs.Assignments.{SomeAssignment, Tells};
ghost use Rattle.ste_model.specs.Found.{FailsStrongly};
ghost use Rattle.ste_model.specs.declared.verdict.Verdict.TheVariants.{Strong, Weak};
ghost use Rattle.ste_model.specs.GraphFound.{IsGraphStrong, IsGraphVerdict, IsGraphWeak};
ghost use Rattle.ste_model.specs.GraphReport.{IsGraphShown};
ghost use Rattle.ste_model.specs.GraphShown.{IsShownPath};
ghost use Rattle.ste_model.specs.Shown.{AsksOfNets};
ghost use Rattle.gste_engine.specs.Tables.{AreConsequentsOver, IsGraphOver};
ghost use Rattle.gste_engine.specs.private.Due.{IsGraphRunDue};
ghost use Rattle.gste_engine.specs.private.Judged.{IsGraphFailureOf, IsGraphFoundBy, IsSettledTable, TellGraphFindings};

use crate::failing::{path_shown, place_on};
use crate::state::State;
use counter_run::graph_run;
use dd_nodes::{Nodes, Ref};
use dd_query::least;
use engine_parts::{Failure, Results};
use net_core::Net;
use std::alloc::{AllocError, Global};
use ste_base::{Items, NodeId, Time};
use ste_model::{Graph, Run, Verdict, are_edges_free};
use sym_step::GateRows;

/// The least assignment that is strong, or weak, and under it the path and the failing place.
#[derive(Drop)]
struct LeastFailure {
    bits: Items<bool>,
    path: Items<u32>,
    place: (NodeId, Time),
}

/// What a failure shows: the least assignment, and under it the path by the numbers of its edges,
/// the failing place, and the run where one is due. Where there is no failure the path is empty and
/// all else is None.
#[derive(Drop)]
pub struct Shown {
    pub least: Option<Items<bool>>,
    pub path: Items<u32>,
    pub fails: Option<(NodeId, Time)>,
    pub run: Option<Run>,
}

/// The least of the assignments that a reference tells, of which there is one, and under it the
/// path and the failing place.
fn least_failure<N: Nodes>(
    alloc: Global,
    nodes: &mut N,
    net: &Net,
    rows: &GateRows,
    graph: &Graph,
    table: &[State],
    found: Ref,
    failure: Failure,
) -> Result<LeastFailure, AllocError>
    requires rows { rows.now.covers ≡ map rows_of net.now.raw.covers }
    requires graph { IsGraphOver net.now.raw (N.store nodes.old).vars graph.now }
    requires con { AreConsequentsOver net.now.raw (N.store nodes.old).vars graph.now }
    requires table { IsSettledTable net.now.raw graph.now (N.store nodes.old) table.now }
    requires held { IsRef (N.store nodes.old) found }

    // The reference tells the assignments that are so, and there is one.
    requires told { Tells (N.store nodes.old).vars (function (N.store nodes.old) found)
        (IsGraphFoundBy failure net.now.raw graph.now) }
    requires some { SomeAssignment (N.store nodes.old).vars
        (IsGraphFoundBy failure net.now.raw graph.now) }

    ensures shown { IfOk result (λ least. IsGraphShown
        (IsGraphFoundBy failure net.now.raw graph.now) (FailsBy failure) net.now.raw
        (N.store nodes.old).vars graph.now (Some least.bits) least.path (Some least.place)) }
    ensures path { IfOk result (λ least.
        IsShownPath (FailsBy failure) net.now.raw graph.now least.bits least.path) }
    ensures short { IfOk result (λ least. length least.path < 4294967296) }
    ensures same { MakesNothing (N.store nodes.old) (N.store nodes.new) }
{
    let bits = match least(alloc, nodes, found)? {
        Some(bits) => bits,
        None => unreachable!(),
    };
    let path = path_shown(
        alloc,
        nodes,
        net,
        rows,
        graph,
        table,
        bits.as_slice(),
        failure,
    )?;
    let place = place_on(
        alloc,
        nodes,
        net,
        rows,
        graph,
        table,
        path.as_slice(),
        bits.as_slice(),
        failure,
    )?;
    Ok(LeastFailure { bits, path, place })
}

/// The printed run along the path of a strong failure, where the antecedents are bindable.
fn run_due(
    alloc: Global,
    net: &Net,
    graph: &Graph,
    path: &[u32],
    bits: &[bool],
) -> Result<Option<Run>, AllocError>
    requires nets { AsksOfNets net.now.raw (Gste graph.now) }
    requires path { IsShownPath FailsStrongly net.now.raw graph.now bits.now path.now }
    requires short { length path.now < 4294967296 }
    ensures { IfOk result (λ run. IsGraphRunDue net.now.raw graph.now bits.now path.now run) }
{
    if !are_edges_free(net, graph.edges.as_slice()) {
        return Ok(None);
    }
    let run = graph_run(alloc, net, graph, path, bits)?;
    Ok(Some(run))
}

/// What is shown of a failure, with the run that is printed.
fn with_run(first: LeastFailure, run: Option<Run>) -> Shown
    ensures { result ≡ record {
      least = Some first.bits;
      path = first.path;
      fails = Some first.place;
      run = run;
    } }
{
    Shown {
        least: Some(first.bits),
        path: first.path,
        fails: Some(first.place),
        run,
    }
}

/// What a strong failure shows, with the run where one is due.
fn strong_shown<N: Nodes>(
    alloc: Global,
    nodes: &mut N,
    net: &Net,
    rows: &GateRows,
    graph: &Graph,
    table: &[State],
    strong: Ref,
) -> Result<Shown, AllocError>
    requires rows { rows.now.covers ≡ map rows_of net.now.raw.covers }
    requires graph { IsGraphOver net.now.raw (N.store nodes.old).vars graph.now }
    requires con { AreConsequentsOver net.now.raw (N.store nodes.old).vars graph.now }
    requires table { IsSettledTable net.now.raw graph.now (N.store nodes.old) table.now }
    requires held { IsRef (N.store nodes.old) strong }
    requires told { Tells (N.store nodes.old).vars (function (N.store nodes.old) strong)
        (IsGraphStrong net.now.raw graph.now) }
    requires some { SomeAssignment (N.store nodes.old).vars (IsGraphStrong net.now.raw graph.now) }
    ensures shown { IfOk result (λ shown. IsGraphFailureOf net.now.raw (N.store nodes.old).vars
        graph.now Strong shown.least shown.path shown.fails shown.run) }
    ensures same { MakesNothing (N.store nodes.old) (N.store nodes.new) }
{
    let first = least_failure(
        alloc,
        nodes,
        net,
        rows,
        graph,
        table,
        strong,
        Failure::Strong,
    )?;
    let run = run_due(
        alloc,
        net,
        graph,
        first.path.as_slice(),
        first.bits.as_slice(),
    )?;
    Ok(with_run(first, run))
}

/// What a weak failure shows.
fn weak_shown<N: Nodes>(
    alloc: Global,
    nodes: &mut N,
    net: &Net,
    rows: &GateRows,
    graph: &Graph,
    table: &[State],
    weak: Ref,
) -> Result<Shown, AllocError>
    requires rows { rows.now.covers ≡ map rows_of net.now.raw.covers }
    requires graph { IsGraphOver net.now.raw (N.store nodes.old).vars graph.now }
    requires con { AreConsequentsOver net.now.raw (N.store nodes.old).vars graph.now }
    requires table { IsSettledTable net.now.raw graph.now (N.store nodes.old) table.now }
    requires held { IsRef (N.store nodes.old) weak }
    requires told { Tells (N.store nodes.old).vars (function (N.store nodes.old) weak)
        (IsGraphWeak net.now.raw graph.now) }
    requires some { SomeAssignment (N.store nodes.old).vars (IsGraphWeak net.now.raw graph.now) }
    ensures shown { IfOk result (λ shown. IsGraphFailureOf net.now.raw (N.store nodes.old).vars
        graph.now Weak shown.least shown.path shown.fails shown.run) }
    ensures same { MakesNothing (N.store nodes.old) (N.store nodes.new) }
{
    let first = least_failure(alloc, nodes, net, rows, graph, table, weak, Failure::Weak)?;
    Ok(with_run(first, None))
}

/// What a failure shows, from the verdict, the settled table and the references that tell the
/// findings. No node is made.
pub fn shown_of<N: Nodes>(
    alloc: Global,
    nodes: &mut N,
    net: &Net,
    rows: &GateRows,
    graph: &Graph,
    table: &[State],
    r: Results,
    verdict: Verdict,
) -> Result<Shown, AllocError>
    requires rows { rows.now.covers ≡ map rows_of net.now.raw.covers }
    requires graph { IsGraphOver net.now.raw (N.store nodes.old).vars graph.now }
    requires con { AreConsequentsOver net.now.raw (N.store nodes.old).vars graph.now }
    requires table { IsSettledTable net.now.raw graph.now (N.store nodes.old) table.now }
    requires told { TellGraphFindings (N.store nodes.old) net.now.raw graph.now r }
    requires judged { IsGraphVerdict net.now.raw (N.store nodes.old).vars graph.now verdict }
    ensures shown { IfOk result (λ shown. IsGraphFailureOf net.now.raw (N.store nodes.old).vars
        graph.now verdict shown.least shown.path shown.fails shown.run) }
    ensures same { MakesNothing (N.store nodes.old) (N.store nodes.new) }
{
    match verdict {
        Verdict::Strong => strong_shown(alloc, nodes, net, rows, graph, table, r.strong),
        Verdict::Weak => weak_shown(alloc, nodes, net, rows, graph, table, r.weak),
        _ => Ok(Shown {
            least: None,
            path: Items::new(alloc),
            fails: None,
            run: None,
        }),
    }
}
