//! The engine for assertion graphs; begin with `check_graph`.

ghost use Rattle.std.specs.Prelude.{◌≡◌, ◌≢◌, ℕ, IfOk, map};
ghost use Rattle.dd_nodes.specs.Functions.{IsCofactorOf};
ghost use Rattle.dd_nodes.specs.Stores.{Builds, Keeps};
ghost use Rattle.net_core.specs.Work.{SymbolicSet};
ghost use Rattle.gate_sets.specs.Lists.{rows_of};
ghost use Rattle.ste_model.specs.declared.task.Edge.{Edge as AnEdge};
ghost use Rattle.ste_model.specs.declared.verdict.Verdict.TheVariants.{Budget};
ghost use Rattle.ste_model.specs.GraphNeed.{AreWholeRounds};
ghost use Rattle.ste_model.specs.GraphReport.{IsGraphReportOf};
ghost use Rattle.ste_model.specs.GraphWork.{SymbolicState, graph_work};
ghost use Rattle.ste_model.specs.Report.{budget_report};
ghost use Rattle.gste_engine.specs.Engine.{IsGraphBudget, IsGraphKept};
ghost use Rattle.gste_engine.specs.Tables.{AreConsequentsOver, IsGraphOver};

use crate::judged::judge;
use crate::reports::report_of;
use dd_nodes::Nodes;
use dd_ops::OpFault;
use engine_parts::budget_report;
use net_core::Net;
use std::alloc::{AllocError, Global};
use ste_model::{Graph, Report};
use sym_step::GateRows;

/// The report of an assertion graph over the variables of the store, for all assignments at once,
/// with at most `cubes` cubes in each of its lists: see `Report`. `rows` are those of the net;
/// `IsGraphOver` and `AreConsequentsOver` say what is asked of the graph: there is a vertex, the
/// edges' vertices are in range, their nodes are nets of the net, and their variables are below the
/// store's. The only error is out of memory; a graph of 2^32 vertices or edges counts as such.
///
/// The verdict is `Budget` only where all steps are spent, and fewer were left at the start than
/// the graph needs; then nothing else is reported. With every other verdict each node of the kept
/// functions has a reference afterwards. Whatever the answer, each node that is made is a node of
/// the work functions, and what was held stays.
pub fn check_graph<N: Nodes>(
    alloc: Global,
    nodes: &mut N,
    net: &Net,
    rows: &GateRows,
    graph: &Graph,
    cubes: u32,
) -> Result<Report, AllocError>
    requires rows { rows.now.covers ≡ map rows_of net.now.raw.covers }
    requires graph { IsGraphOver net.now.raw (N.store nodes.old).vars graph.now }
    requires consequents { AreConsequentsOver net.now.raw (N.store nodes.old).vars graph.now }

    // The report is that of the definition, with at most so many cubes in each list.
    ensures report { IfOk result (λ report. report.verdict ≢ Budget
        → IsGraphReportOf net.now.raw (N.store nodes.old).vars cubes graph.now report) }

    // There is none where steps were out, and they were too few.
    ensures budget { IfOk result (λ report. report.verdict ≡ Budget
        → (report ≡ budget_report graph.now.name)
        × IsGraphBudget net.now.raw graph.now (N.store nodes.old) (N.store nodes.new)) }

    // What was held stays, and so does the limit; only nodes of the work functions are made.
    ensures keeps { Keeps (N.store nodes.old) (N.store nodes.new) }
    ensures limit { (N.store nodes.new).limit ≡ (N.store nodes.old).limit }
    ensures builds { (tables : ℕ → ℕ → SymbolicState) (sets : ℕ → AnEdge → ℕ → SymbolicSet)
        → AreWholeRounds net.now.raw (N.store nodes.old).vars graph.now tables sets
        → Builds
        (IsCofactorOf (N.store nodes.old).vars (graph_work net.now.raw graph.now tables sets))
        (N.store nodes.old) (N.store nodes.new) }

    // The nodes of the kept functions are there.
    ensures kept { IfOk result (λ report. report.verdict ≢ Budget
        → IsGraphKept net.now.raw graph.now (N.store nodes.new)) }
{
    match judge(alloc, nodes, net, rows, graph) {
        Ok(judged) => report_of(
            alloc,
            nodes,
            net,
            rows,
            graph,
            judged.table.as_slice(),
            judged.results,
            cubes,
        ),
        Err(OpFault::StepsOut) => budget_report(alloc, &graph.name),
        Err(OpFault::OutOfMemory) => Err(AllocError),
    }
}
