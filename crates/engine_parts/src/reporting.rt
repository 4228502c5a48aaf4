//! The parts of a report that both engines make; begin with `guards_of`.

ghost use Rattle.std.specs.Prelude.{◌≡◌, IfOk};
ghost use Rattle.ste_model.specs.Report.{budget_report, no_cubes};
ghost use Rattle.engine_parts.specs.Reporting.{AreGuards, AreResultRefs, IsVerdictBy};

use crate::results::Results;
use dd_nodes::Nodes;
use dd_ops::Ops;
use dd_query::cubes;
use std::alloc::{AllocError, Global};
use ste_base::{Items, Name};
use ste_model::{CubeList, Guards, Report, Verdict};

/// The strong, the weak and the contradictory assignments, each as the first cubes of its list.
pub fn guards_of<N: Nodes>(
    alloc: Global,
    nodes: &mut N,
    r: Results,
    max: u32,
) -> Result<Guards, AllocError>
    requires { AreResultRefs (N.store nodes.old) r }
    ensures guards { IfOk result (λ guards. AreGuards max (N.store nodes.old) r guards) }
    ensures store { N.store nodes.new ≡ N.store nodes.old }
{
    let strong = cubes(alloc, nodes, r.strong, max)?;
    let weak = cubes(alloc, nodes, r.weak, max)?;
    let contradictory = cubes(alloc, nodes, r.contradictory, max)?;
    Ok(Guards {
        strong,
        weak,
        contradictory,
    })
}

/// The verdict, from the references that tell the strong, the weak and the contradictory
/// assignments. Nothing is made.
pub fn verdict_of<N: Nodes>(ops: &Ops, nodes: &N, r: Results) -> Verdict
    requires { AreResultRefs (N.store nodes.now) r }
    ensures { IsVerdictBy (N.store nodes.now) r result }
{
    if !ops.is_false(nodes, r.strong) {
        Verdict::Strong
    } else if !ops.is_false(nodes, r.weak) {
        Verdict::Weak
    } else if ops.is_true(nodes, r.contradictory) {
        Verdict::Vacuous
    } else {
        Verdict::Pass
    }
}

/// A list without cubes.
fn no_cubes(alloc: Global) -> CubeList
    ensures { result ≡ no_cubes }
{
    CubeList {
        cubes: Items::new(alloc),
        more: false,
    }
}

/// The report of a task of this name whose node steps were spent.
pub fn budget_report(alloc: Global, name: &Name) -> Result<Report, AllocError>
    ensures { IfOk result (λ report. report ≡ budget_report name.now) }
{
    let copy = Name::from_bytes(alloc, name.bytes())?;
    Ok(Report {
        name: copy,
        verdict: Verdict::Budget,
        guards: Guards {
            strong: no_cubes(alloc),
            weak: no_cubes(alloc),
            contradictory: no_cubes(alloc),
        },
        least: None,
        path: Items::new(alloc),
        fails: None,
        run: None,
    })
}
