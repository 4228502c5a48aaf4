//! The report of an assertion, from its results; begin with `report_of`.

ghost use Rattle.std.specs.Prelude.{◌≡◌, ◌<◌, All, IfOk, map};
ghost use Rattle.gate_sets.specs.Lists.{rows_of};
ghost use Rattle.ste_model.specs.Report.{IsReportOf};
ghost use Rattle.engine_parts.specs.Failing.{MakesNothing};
ghost use Rattle.ste_engine.specs.Findings.{TellFindings};
ghost use Rattle.ste_engine.specs.private.Firsts.{AreFirsts};

use crate::firsts::Firsts;
use crate::shown::shown_of;
use dd_nodes::Nodes;
use dd_ops::Ops;
use engine_parts::{Results, guards_of, verdict_of};
use net_core::Net;
use std::alloc::{AllocError, Global};
use ste_base::{Items, Name};
use ste_model::{Assertion, Report};
use sym_step::GateRows;

/// The report, from the references that tell the findings, and the places that are known.
pub fn report_of<N: Nodes>(
    alloc: Global,
    ops: &Ops,
    nodes: &mut N,
    net: &Net,
    rows: &GateRows,
    task: &Assertion,
    r: Results,
    firsts: Firsts,
    max: u32,
) -> Result<Report, AllocError>
    requires rows { rows.now.covers ≡ map rows_of net.now.raw.covers }
    requires ant { All (λ quint. quint.node.0 < net.now.raw.nets) task.now.ant }
    requires con { All (λ quint. quint.node.0 < net.now.raw.nets) task.now.con }
    requires weak { All (λ weakening. weakening.node.0 < net.now.raw.nets) task.now.weak }
    requires told { TellFindings (N.store nodes.old) net.now.raw task.now r }
    requires firsts { AreFirsts (N.store nodes.old).vars net.now.raw task.now firsts }
    ensures report { IfOk result (λ report.
        IsReportOf net.now.raw (N.store nodes.old).vars max task.now report) }
    ensures same { MakesNothing (N.store nodes.old) (N.store nodes.new) }
{
    let verdict = verdict_of(ops, nodes, r);
    let guards = guards_of(alloc, nodes, r, max)?;
    let shown = shown_of(alloc, ops, nodes, net, rows, task, r, firsts, verdict)?;
    let name = Name::from_bytes(alloc, task.name.bytes())?;
    Ok(Report {
        name,
        verdict,
        guards,
        least: shown.least,
        path: Items::new(alloc),
        fails: shown.fails,
        run: shown.run,
    })
}
