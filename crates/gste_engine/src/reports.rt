//! The report of a graph, from its settled table and its results; begin with `report_of`.

ghost use Rattle.std.specs.Prelude.{◌≡◌, IfOk, map};
ghost use Rattle.gate_sets.specs.Lists.{rows_of};
ghost use Rattle.engine_parts.specs.Failing.{MakesNothing};
ghost use Rattle.ste_model.specs.GraphReport.{IsGraphReportOf};
ghost use Rattle.gste_engine.specs.Tables.{AreConsequentsOver, IsGraphOver};
ghost use Rattle.gste_engine.specs.private.Judged.{IsSettledTable, TellGraphFindings};

use crate::shown::shown_of;
use crate::state::State;
use dd_nodes::Nodes;
use dd_ops::Ops;
use engine_parts::{Results, guards_of, verdict_of};
use net_core::Net;
use std::alloc::{AllocError, Global};
use ste_base::Name;
use ste_model::{Graph, Report};
use sym_step::GateRows;

/// The report, from the settled table and the references that tell the findings, with at most `max`
/// cubes in each of its lists. No node is made. The only error is out of memory, and a graph of
/// 2^32 vertices or edges counts as such.
pub fn report_of<N: Nodes>(
    alloc: Global,
    nodes: &mut N,
    net: &Net,
    rows: &GateRows,
    graph: &Graph,
    table: &[State],
    r: Results,
    max: u32,
) -> Result<Report, AllocError>
    requires rows { rows.now.covers ≡ map rows_of net.now.raw.covers }
    requires graph { IsGraphOver net.now.raw (N.store nodes.old).vars graph.now }
    requires con { AreConsequentsOver net.now.raw (N.store nodes.old).vars graph.now }
    requires table { IsSettledTable net.now.raw graph.now (N.store nodes.old) table.now }
    requires told { TellGraphFindings (N.store nodes.old) net.now.raw graph.now r }
    ensures report { IfOk result (λ report.
        IsGraphReportOf net.now.raw (N.store nodes.old).vars max graph.now report) }
    ensures same { MakesNothing (N.store nodes.old) (N.store nodes.new) }
{
    let ops = Ops::new(alloc);
    let verdict = verdict_of(&ops, nodes, r);
    let guards = guards_of(alloc, nodes, r, max)?;
    let shown = shown_of(alloc, nodes, net, rows, graph, table, r, verdict)?;
    let name = Name::from_bytes(alloc, graph.name.bytes())?;
    Ok(Report {
        name,
        verdict,
        guards,
        least: shown.least,
        path: shown.path,
        fails: shown.fails,
        run: shown.run,
    })
}
