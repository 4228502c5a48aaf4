//! The exact report of an assertion; begin with `check_exact`.

ghost use Rattle.std.specs.Prelude.{◌≡◌, ◌≢◌, ◌<◌, ◌≤◌, ◌+◌, ℕ, All, IfOk, length};
ghost use Rattle.ste_base.specs.Functions.{Function};
ghost use Rattle.dd_nodes.specs.Functions.{IsCofactorOf};
ghost use Rattle.dd_nodes.specs.Stores.{Builds, Keeps};
ghost use Rattle.ste_model.specs.declared.verdict.Verdict.TheVariants.{Budget};
ghost use Rattle.ste_model.specs.Need.{ReadBelow};
ghost use Rattle.ste_model.specs.Report.{budget_report};
ghost use Rattle.exact_model.specs.Choices.{choices};
ghost use Rattle.exact_model.specs.ExactReport.{IsExactReportOf};
ghost use Rattle.exact_model.specs.ExactWork.{AreExactBits, exact_work};
ghost use Rattle.exact_model.specs.Wider.{bits_over_more};
ghost use Rattle.exact_engine.specs.Check.{IsExactBudget, IsExactlyKept};
ghost use Rattle.exact_engine.specs.private.Reporting.{DoTell};

use crate::engine::exact_results;
use crate::reporting::report_with;
use crate::results::ExactResults;
use crate::showing::shown_of;
use dd_nodes::{Nodes, Ref};
use dd_ops::OpFault;
use dd_query::least;
use engine_parts::{Results, budget_report};
use net_core::Net;
use std::alloc::{AllocError, Global};
use ste_model::{Assertion, Report};

/// The results as those of a check that finds nothing weak.
fn without_weak(r: ExactResults) -> Results
    ensures { result ≡ record {
      strong = r.strong;
      weak = record { 0 = 0 };
      contradictory = r.contradictory;
    } }
{
    Results {
        strong: r.strong,
        weak: Ref::FALSE,
        contradictory: r.contradictory,
    }
}

/// The exact report, from the references that tell the findings.
fn report_of<N: Nodes>(
    alloc: Global,
    nodes: &mut N,
    net: &Net,
    task: &Assertion,
    vars: u32,
    r: ExactResults,
    max: u32,
) -> Result<Report, AllocError>
    requires told { DoTell net.now.raw vars task.now (N.store nodes.old) r }
    ensures report { IfOk result (λ report. IsExactReportOf net.now.raw vars max task.now report) }
    ensures store { N.store nodes.new ≡ N.store nodes.old }
{
    let found = least(alloc, nodes, r.counter)?;
    let shown = shown_of(alloc, net, task, vars, found)?;
    report_with(alloc, nodes, net, task, vars, without_weak(r), shown, max)
}

/// The exact report of an assertion over `vars` variables, by its two-valued runs, with at most
/// `cubes` cubes in each of its lists: see `Report`. No assignment is weak, and the assertion's
/// weakenings have no effect. The choices of the assertion are the variables of the store from
/// `vars` on, in their order; the store may have more. The task's nodes are nets of the net, and
/// its expressions read the first `vars` variables.
///
/// The verdict is `Budget` only where all steps are spent, and fewer were left at the start than
/// the assertion needs; then nothing else is reported. With every other verdict each node of the
/// two sets of assignments has a reference afterwards. Whatever the answer, each node that is made
/// is a node of the exact work functions, and what was held stays.
///
/// Limits: all variables stand before all choices, so that the number of nodes may grow by a factor
/// with each input that the antecedent binds to a variable.
pub fn check_exact<N: Nodes>(
    alloc: Global,
    nodes: &mut N,
    net: &Net,
    task: &Assertion,
    vars: u32,
    cubes: u32,
) -> Result<Report, AllocError>
    requires ant { All (λ quint. quint.node.0 < net.now.raw.nets) task.now.ant }
    requires con { All (λ quint. quint.node.0 < net.now.raw.nets) task.now.con }
    requires reads_ant { ReadBelow vars task.now.ant }
    requires reads_con { ReadBelow vars task.now.con }
    requires room { vars + length (choices net.now.raw task.now) ≤ (N.store nodes.old).vars }

    // The report is the exact one, with at most so many cubes in each list.
    ensures report { IfOk result (λ report. report.verdict ≢ Budget
        → IsExactReportOf net.now.raw vars cubes task.now report) }

    // There is none where steps were out, and they were too few.
    ensures budget { IfOk result (λ report. report.verdict ≡ Budget
        → (report ≡ budget_report task.now.name)
        × IsExactBudget net.now.raw vars task.now (N.store nodes.old) (N.store nodes.new)) }

    // What was held stays, and so does the limit.
    ensures keeps { Keeps (N.store nodes.old) (N.store nodes.new) }
    ensures limit { (N.store nodes.new).limit ≡ (N.store nodes.old).limit }

    // Only nodes of the exact work functions are made.
    ensures builds { (bit : ℕ → ℕ → Function) → AreExactBits net.now.raw vars task.now bit
        → Builds (IsCofactorOf (N.store nodes.old).vars (exact_work net.now.raw vars task.now
        (bits_over_more (vars + length (choices net.now.raw task.now)) bit)))
        (N.store nodes.old) (N.store nodes.new) }

    // The nodes of both sets of assignments are there.
    ensures kept { IfOk result (λ report. report.verdict ≢ Budget
        → IsExactlyKept net.now.raw vars task.now (N.store nodes.new)) }
{
    match exact_results(alloc, nodes, net, task, vars) {
        Ok(r) => report_of(alloc, nodes, net, task, vars, r, cubes),
        Err(OpFault::StepsOut) => budget_report(alloc, &task.name),
        Err(OpFault::OutOfMemory) => Err(AllocError),
    }
}
