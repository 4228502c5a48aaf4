//! The exact report of an assertion at the price of a plain check, where that decides it; begin
//! with `check_exact_with`.

ghost use Rattle.std.specs.Prelude.{◌≡◌, ◌≢◌, ◌<◌, ◌≤◌, ◌+◌, ℕ, All, IfOk, IfSome, length, map};
ghost use Rattle.ste_base.specs.Functions.{Function};
ghost use Rattle.dd_nodes.specs.Functions.{IsCofactorOf};
ghost use Rattle.dd_nodes.specs.Stores.{Builds, Keeps};
ghost use Rattle.gate_sets.specs.Lists.{rows_of};
ghost use Rattle.sym_step.specs.Frame.{IsFrame};
ghost use Rattle.ste_model.specs.declared.verdict.Verdict.TheVariants.{Budget};
ghost use Rattle.ste_model.specs.Need.{ReadBelow};
ghost use Rattle.ste_model.specs.Report.{budget_report};
ghost use Rattle.exact_model.specs.Choices.{choices};
ghost use Rattle.exact_model.specs.ExactReport.{IsExactReportOf};
ghost use Rattle.exact_model.specs.ExactWork.{AreExactBits, exact_work};
ghost use Rattle.exact_model.specs.Wider.{bits_over_more};
ghost use Rattle.exact_engine.specs.Check.{IsExactBudget, IsExactlyKept};
ghost use Rattle.exact_engine.specs.private.BySets.{IsQuick};

use crate::by_sets::tried_by_sets;
use crate::check::check_exact;
use crate::copying::copied;
use crate::quick::Quick;
use crate::reporting::report_with;
use dd_growing::GrowingNodes;
use dd_nodes::Nodes;
use dd_ops::OpFault;
use engine_parts::budget_report;
use net_core::Net;
use std::alloc::{AllocError, Global};
use ste_model::{Assertion, Report};
use sym_step::{Frame, GateRows};

/// The report of what was found in the scratch store. Both sets are made in the other one.
fn quick_report<N: Nodes>(
    alloc: Global,
    nodes: &mut N,
    scratch: &mut GrowingNodes,
    net: &Net,
    task: &Assertion,
    vars: u32,
    quick: Quick,
    cubes: u32,
) -> Result<Report, AllocError>
    requires ant { All (λ quint. quint.node.0 < net.now.raw.nets) task.now.ant }
    requires con { All (λ quint. quint.node.0 < net.now.raw.nets) task.now.con }
    requires reads_ant { ReadBelow vars task.now.ant }
    requires reads_con { ReadBelow vars task.now.con }
    requires room { vars + length (choices net.now.raw task.now) ≤ (N.store nodes.old).vars }
    requires width { (⟦<GrowingNodes as Nodes>⟧.store scratch.old).vars
        ≡ (N.store nodes.old).vars }
    requires quick { IsQuick net.now.raw vars task.now
        (⟦<GrowingNodes as Nodes>⟧.store scratch.old) quick }
    ensures report { IfOk result (λ report. report.verdict ≢ Budget
        → IsExactReportOf net.now.raw vars cubes task.now report) }
    ensures budget { IfOk result (λ report. report.verdict ≡ Budget
        → (report ≡ budget_report task.now.name)
        × IsExactBudget net.now.raw vars task.now (N.store nodes.old) (N.store nodes.new)) }
    ensures keeps { Keeps (N.store nodes.old) (N.store nodes.new) }
    ensures limit { (N.store nodes.new).limit ≡ (N.store nodes.old).limit }
    ensures builds { (bit : ℕ → ℕ → Function) → AreExactBits net.now.raw vars task.now bit
        → Builds (IsCofactorOf (N.store nodes.old).vars (exact_work net.now.raw vars task.now
        (bits_over_more (vars + length (choices net.now.raw task.now)) bit)))
        (N.store nodes.old) (N.store nodes.new) }
    ensures kept { IfOk result (λ report. report.verdict ≢ Budget
        → IsExactlyKept net.now.raw vars task.now (N.store nodes.new)) }
    ensures scratch { ⟦<GrowingNodes as Nodes>⟧.store scratch.new
        ≡ ⟦<GrowingNodes as Nodes>⟧.store scratch.old }
{
    match copied(alloc, scratch, nodes, quick.sets) {
        Ok(sets) => report_with(alloc, nodes, net, task, vars, sets, quick.shown, cubes),
        Err(OpFault::StepsOut) => budget_report(alloc, &task.name),
        Err(OpFault::OutOfMemory) => Err(AllocError),
    }
}

/// As `check_exact`, with a store to try in: what a check by sets of bits decides is taken from
/// there, at the price of a plain check, and the two sets of assignments are all that is made in
/// `nodes`. It decides where the antecedent is bindable and no assignment is weak. Any other
/// assertion is checked by `check_exact`, as is one for which the tried check does not end.
///
/// `rows` are those of the net. The scratch store has as many variables as `nodes`, and begins with
/// as many steps as `nodes` has left. The tried check begins with the last frame of another
/// assertion on the net in that store, where there is one, and leaves one, as `check_ste_from`
/// does.
pub fn check_exact_with<N: Nodes>(
    alloc: Global,
    nodes: &mut N,
    scratch: &mut GrowingNodes,
    net: &Net,
    rows: &GateRows,
    task: &Assertion,
    vars: u32,
    cubes: u32,
    last: &mut Option<Frame>,
) -> Result<Report, AllocError>
    requires rows { rows.now.covers ≡ map rows_of net.now.raw.covers }
    requires ant { All (λ quint. quint.node.0 < net.now.raw.nets) task.now.ant }
    requires con { All (λ quint. quint.node.0 < net.now.raw.nets) task.now.con }
    requires reads_ant { ReadBelow vars task.now.ant }
    requires reads_con { ReadBelow vars task.now.con }
    requires room { vars + length (choices net.now.raw task.now) ≤ (N.store nodes.old).vars }
    requires width { (⟦<GrowingNodes as Nodes>⟧.store scratch.old).vars
        ≡ (N.store nodes.old).vars }
    requires last { IfSome last.old
        (IsFrame (⟦<GrowingNodes as Nodes>⟧.store scratch.old) net.now.raw) }

    // The report is the exact one, with at most so many cubes in each list.
    ensures report { IfOk result (λ report. report.verdict ≢ Budget
        → IsExactReportOf net.now.raw vars cubes task.now report) }

    // There is none where steps were out, and they were too few.
    ensures budget { IfOk result (λ report. report.verdict ≡ Budget
        → (report ≡ budget_report task.now.name)
        × IsExactBudget net.now.raw vars task.now (N.store nodes.old) (N.store nodes.new)) }

    // What was held stays, and so does the limit.
    ensures keeps { Keeps (N.store nodes.old) (N.store nodes.new) }
    ensures limit { (N.store nodes.new).limit ≡ (N.store nodes.old).limit }

    // Only nodes of the exact work functions are made.
    ensures builds { (bit : ℕ → ℕ → Function) → AreExactBits net.now.raw vars task.now bit
        → Builds (IsCofactorOf (N.store nodes.old).vars (exact_work net.now.raw vars task.now
        (bits_over_more (vars + length (choices net.now.raw task.now)) bit)))
        (N.store nodes.old) (N.store nodes.new) }

    // The nodes of both sets of assignments are there.
    ensures kept { IfOk result (λ report. report.verdict ≢ Budget
        → IsExactlyKept net.now.raw vars task.now (N.store nodes.new)) }

    // The frame that is left is one of the scratch store, which keeps its variables.
    ensures last { IfSome last.new
        (IsFrame (⟦<GrowingNodes as Nodes>⟧.store scratch.new) net.now.raw) }
    ensures scratch_vars { (⟦<GrowingNodes as Nodes>⟧.store scratch.new).vars
        ≡ (⟦<GrowingNodes as Nodes>⟧.store scratch.old).vars }
{
    scratch.begin(nodes.limit() - nodes.used());
    match tried_by_sets(alloc, scratch, net, rows, task, vars, last)? {
        Some(quick) => quick_report(alloc, nodes, scratch, net, task, vars, quick, cubes),
        None => check_exact(alloc, nodes, net, task, vars, cubes),
    }
}
