//! The exact report from its parts; begin with `report_with`.

ghost use Rattle.std.specs.Prelude.{◌≡◌, IfOk};
ghost use Rattle.exact_model.specs.ExactReport.{IsExactReportOf};
ghost use Rattle.exact_engine.specs.private.Reporting.{IsShownExactly, TellSets};

use crate::showing::Shown;
use dd_nodes::Nodes;
use engine_parts::{Results, guards_of};
use net_core::Net;
use std::alloc::{AllocError, Global};
use ste_base::{Items, Name};
use ste_model::{Assertion, Report};

/// The exact report, from the references that tell both sets, and what is shown of a failure.
pub fn report_with<N: Nodes>(
    alloc: Global,
    nodes: &mut N,
    net: &Net,
    task: &Assertion,
    vars: u32,
    sets: Results,
    shown: Shown,
    max: u32,
) -> Result<Report, AllocError>
    requires sets { TellSets net.now.raw vars task.now (N.store nodes.old) sets }
    requires shown { IsShownExactly net.now.raw vars task.now shown }
    ensures report { IfOk result (λ report. IsExactReportOf net.now.raw vars max task.now report) }
    ensures store { N.store nodes.new ≡ N.store nodes.old }
{
    let guards = guards_of(alloc, nodes, sets, max)?;
    let name = Name::from_bytes(alloc, task.name.bytes())?;
    Ok(Report {
        name,
        verdict: shown.verdict,
        guards,
        least: shown.least,
        path: Items::new(alloc),
        fails: shown.fails,
        run: shown.run,
    })
}
