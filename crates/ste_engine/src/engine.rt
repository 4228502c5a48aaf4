//! The engine; begin with `check_ste`.

ghost use Rattle.std.specs.Prelude.{◌≡◌, ◌≢◌, ◌<◌, ◌≤◌, ℕ, List, All, Err, IfOk, IfSome, OnOk, map};
ghost use Rattle.dd_nodes.specs.Functions.{IsCofactorOf};
ghost use Rattle.dd_nodes.specs.Stores.{Builds, Keeps};
ghost use Rattle.dd_ops.specs.declared.fault.OpFault.TheVariants.{StepsOut};
ghost use Rattle.net_core.specs.Work.{SymbolicSet};
ghost use Rattle.dual_rail.specs.Rail.{Built};
ghost use Rattle.gate_sets.specs.Lists.{rows_of};
ghost use Rattle.sym_step.specs.Frame.{IsFrame, next_of};
ghost use Rattle.ste_model.specs.declared.verdict.Verdict.TheVariants.{Budget};
ghost use Rattle.ste_model.specs.Need.{IsWholeTable, ReadBelow};
ghost use Rattle.ste_model.specs.Report.{IsReportOf, budget_report};
ghost use Rattle.ste_model.specs.Work.{quints_work, task_work};
ghost use Rattle.ste_engine.specs.Engine.{IsBudget, IsKept};
ghost use Rattle.ste_engine.specs.Findings.{TellFindings};
ghost use Rattle.ste_engine.specs.private.Firsts.{AreFirsts};
ghost use Rattle.engine_parts.specs.Latches.{first_rails};
ghost use Rattle.ste_engine.specs.private.Turns.{AreResults, IsLine};

use crate::finish::finish;
use crate::firsts::Firsts;
use crate::reports::report_of;
use crate::timed_cuts::timed_cuts_of;
use crate::timeline::Timeline;
use crate::turn::{at_start, frame_from, turn};
use crate::weakened::WeakLine;
use dd_nodes::Nodes;
use dd_ops::{OpFault, Ops};
use engine_parts::{Results, budget_report};
use net_core::Net;
use std::alloc::{AllocError, Global};
use ste_base::Time;
use ste_model::{Assertion, Quint, Report, depth};
use sym_step::{Frame, GateRows};

/// The references of quintuples, as a timeline before time 0.
fn line_of<N: Nodes>(
    alloc: Global,
    ops: &Ops,
    nodes: &mut N,
    quints: &[Quint],
    depth: Time,
) -> Result<Timeline, OpFault>
    requires reads { ReadBelow (N.store nodes.old).vars quints.now }
    requires within { All (λ quint. quint.to ≤ depth) quints.now }
    ensures { Built (quints_work quints.now) (λ t line. IsLine t quints.now depth 0 line)
        (N.store nodes.old) (N.store nodes.new) result }
{
    let timed_cuts = timed_cuts_of(alloc, ops, nodes, quints)?;
    Ok(Timeline::of(alloc, timed_cuts.as_slice(), depth)?)
}

/// The strong, the weak and the contradictory assignments, with the frame before time 0, which is
/// then that of the last time, and with the places that are found on the way. Every guard and value
/// is built before the first time.
fn results<N: Nodes>(
    alloc: Global,
    ops: &Ops,
    nodes: &mut N,
    net: &Net,
    rows: &GateRows,
    task: &Assertion,
    frame: &mut Frame,
    firsts: &mut Firsts,
) -> Result<Results, OpFault>
    requires rows { rows.now.covers ≡ map rows_of net.now.raw.covers }
    requires ant { All (λ quint. quint.node.0 < net.now.raw.nets) task.now.ant }
    requires con { All (λ quint. quint.node.0 < net.now.raw.nets) task.now.con }
    requires weak { All (λ weakening. weakening.node.0 < net.now.raw.nets) task.now.weak }
    requires reads_ant { ReadBelow (N.store nodes.old).vars task.now.ant }
    requires reads_con { ReadBelow (N.store nodes.old).vars task.now.con }
    requires frame { IsFrame (N.store nodes.old) net.now.raw frame.old }
    requires first { next_of net.now.raw frame.old
        ≡ map (first_rails task.now.reset) net.now.raw.latches }
    requires firsts { AreFirsts (N.store nodes.old).vars net.now.raw task.now firsts.old }
    ensures built { (table : ℕ → ℕ → SymbolicSet)
        → IsWholeTable net.now.raw (N.store nodes.old).vars task.now table
        → Built (task_work net.now.raw task.now table) (AreResults net.now.raw task.now table)
        (N.store nodes.old) (N.store nodes.new) result }
    ensures frame { OnOk result (IsFrame (N.store nodes.new) net.now.raw frame.new) }
    ensures firsts { OnOk result
        (AreFirsts (N.store nodes.old).vars net.now.raw task.now firsts.new) }
{
    let depth = depth(task);
    let mut ant = line_of(alloc, ops, nodes, task.ant.as_slice(), depth)?;
    let mut con = line_of(alloc, ops, nodes, task.con.as_slice(), depth)?;
    let mut weak = WeakLine::of(alloc, task.weak.as_slice(), depth)?;
    let mut reached = at_start();
    for t in 0..depth {
        ant.advance(alloc, t)?;
        con.advance(alloc, t)?;
        weak.advance(alloc, t)?;
        let before = reached.found;
        reached = turn(
            alloc,
            ops,
            nodes,
            net,
            rows,
            weak.nets(),
            ant.cuts(),
            con.cuts(),
            &reached,
            frame,
        )?;
        *firsts = firsts.with_time(frame, con.cuts(), before, reached.found, t);
    }
    finish(ops, nodes, reached.contradictory, reached.found)
}

/// The strong, the weak and the contradictory assignments, with the places that are found on the
/// way. It begins with the last frame of another assertion on the net, where there is one, and
/// leaves that of this one, but none where steps or memory are out.
fn results_from<N: Nodes>(
    alloc: Global,
    ops: &Ops,
    nodes: &mut N,
    net: &Net,
    rows: &GateRows,
    task: &Assertion,
    firsts: &mut Firsts,
    last: &mut Option<Frame>,
) -> Result<Results, OpFault>
    requires rows { rows.now.covers ≡ map rows_of net.now.raw.covers }
    requires ant { All (λ quint. quint.node.0 < net.now.raw.nets) task.now.ant }
    requires con { All (λ quint. quint.node.0 < net.now.raw.nets) task.now.con }
    requires weak { All (λ weakening. weakening.node.0 < net.now.raw.nets) task.now.weak }
    requires reads_ant { ReadBelow (N.store nodes.old).vars task.now.ant }
    requires reads_con { ReadBelow (N.store nodes.old).vars task.now.con }
    requires firsts { AreFirsts (N.store nodes.old).vars net.now.raw task.now firsts.old }
    requires last { IfSome last.old (IsFrame (N.store nodes.old) net.now.raw) }
    ensures built { (table : ℕ → ℕ → SymbolicSet)
        → IsWholeTable net.now.raw (N.store nodes.old).vars task.now table
        → Built (task_work net.now.raw task.now table) (AreResults net.now.raw task.now table)
        (N.store nodes.old) (N.store nodes.new) result }
    ensures firsts { OnOk result
        (AreFirsts (N.store nodes.old).vars net.now.raw task.now firsts.new) }
    ensures last { IfSome last.new (IsFrame (N.store nodes.new) net.now.raw) }
{
    let mut frame = frame_from(alloc, net, task.reset, last.take())?;
    let r = results(alloc, ops, nodes, net, rows, task, &mut frame, firsts)?;
    *last = Some(frame);
    Ok(r)
}

/// The strong, the weak and the contradictory assignments of an assertion over the variables of the
/// store, by references, for a check that makes a report of its own. The conditions are those of
/// `check_ste_from`, and it begins with the frame of another assertion, and leaves one, as that
/// does.
///
/// `StepsOut` comes only where all steps are spent, and fewer were left at the start than the
/// assertion needs. Whatever the answer, each node that is made is a node of the work functions,
/// and what was held stays.
pub fn ste_results<N: Nodes>(
    alloc: Global,
    nodes: &mut N,
    net: &Net,
    rows: &GateRows,
    task: &Assertion,
    last: &mut Option<Frame>,
) -> Result<Results, OpFault>
    requires rows { rows.now.covers ≡ map rows_of net.now.raw.covers }
    requires ant { All (λ quint. quint.node.0 < net.now.raw.nets) task.now.ant }
    requires con { All (λ quint. quint.node.0 < net.now.raw.nets) task.now.con }
    requires weak { All (λ weakening. weakening.node.0 < net.now.raw.nets) task.now.weak }
    requires reads_ant { ReadBelow (N.store nodes.old).vars task.now.ant }
    requires reads_con { ReadBelow (N.store nodes.old).vars task.now.con }
    requires last { IfSome last.old (IsFrame (N.store nodes.old) net.now.raw) }

    // The references tell the findings.
    ensures told { IfOk result (λ r. TellFindings (N.store nodes.new) net.now.raw task.now r) }

    // Where steps are out, all are spent, and they were too few.
    ensures short { result ≡ Err StepsOut
        → IsBudget net.now.raw task.now (N.store nodes.old) (N.store nodes.new) }

    // What was held stays, and so does the limit; only nodes of the work functions are made.
    ensures keeps { Keeps (N.store nodes.old) (N.store nodes.new) }
    ensures limit { (N.store nodes.new).limit ≡ (N.store nodes.old).limit }
    ensures builds { (table : ℕ → ℕ → SymbolicSet)
        → IsWholeTable net.now.raw (N.store nodes.old).vars task.now table
        → Builds (IsCofactorOf (N.store nodes.old).vars (task_work net.now.raw task.now table))
        (N.store nodes.old) (N.store nodes.new) }

    // The frame that is left is one.
    ensures last { IfSome last.new (IsFrame (N.store nodes.new) net.now.raw) }
{
    let mut firsts = Firsts::none();
    results_from(
        alloc,
        &Ops::new(alloc),
        nodes,
        net,
        rows,
        task,
        &mut firsts,
        last,
    )
}

/// The report of an assertion over the variables of the store, for all assignments at once, with at
/// most `cubes` cubes in each of its lists: see `Report`. `rows` are those of the net, the nodes of
/// the task and of its weakenings are nets of it, and its variables are below the store's.
///
/// The verdict is `Budget` only where all steps are spent, and fewer were left at the start than
/// the assertion needs; then nothing else is reported. With every other verdict each node of the
/// kept functions has a reference afterwards. Whatever the answer, each node that is made is a node
/// of the work functions, and what was held stays.
pub fn check_ste<N: Nodes>(
    alloc: Global,
    nodes: &mut N,
    net: &Net,
    rows: &GateRows,
    task: &Assertion,
    cubes: u32,
) -> Result<Report, AllocError>
    requires rows { rows.now.covers ≡ map rows_of net.now.raw.covers }
    requires ant { All (λ quint. quint.node.0 < net.now.raw.nets) task.now.ant }
    requires con { All (λ quint. quint.node.0 < net.now.raw.nets) task.now.con }
    requires weak { All (λ weakening. weakening.node.0 < net.now.raw.nets) task.now.weak }
    requires reads_ant { ReadBelow (N.store nodes.old).vars task.now.ant }
    requires reads_con { ReadBelow (N.store nodes.old).vars task.now.con }

    // The report is that of the definition, with at most so many cubes in each list.
    ensures report { IfOk result (λ report. report.verdict ≢ Budget
        → IsReportOf net.now.raw (N.store nodes.old).vars cubes task.now report) }

    // There is none where steps were out, and they were too few.
    ensures budget { IfOk result (λ report. report.verdict ≡ Budget
        → (report ≡ budget_report task.now.name)
        × IsBudget net.now.raw task.now (N.store nodes.old) (N.store nodes.new)) }

    // What was held stays, and so does the limit; only nodes of the work functions are made.
    ensures keeps { Keeps (N.store nodes.old) (N.store nodes.new) }
    ensures limit { (N.store nodes.new).limit ≡ (N.store nodes.old).limit }
    ensures builds { (table : ℕ → ℕ → SymbolicSet)
        → IsWholeTable net.now.raw (N.store nodes.old).vars task.now table
        → Builds (IsCofactorOf (N.store nodes.old).vars (task_work net.now.raw task.now table))
        (N.store nodes.old) (N.store nodes.new) }

    // The nodes of the kept functions are there.
    ensures kept { IfOk result (λ report. report.verdict ≢ Budget
        → IsKept net.now.raw task.now (N.store nodes.new)) }
{
    check_ste_from(alloc, nodes, net, rows, task, cubes, &mut None)
}

/// As `check_ste`, and begins with the last frame of another assertion on the net, where there is
/// one: what stays the same is not evaluated again. It leaves that of this one, but none where
/// steps or memory are out.
pub fn check_ste_from<N: Nodes>(
    alloc: Global,
    nodes: &mut N,
    net: &Net,
    rows: &GateRows,
    task: &Assertion,
    cubes: u32,
    last: &mut Option<Frame>,
) -> Result<Report, AllocError>
    requires rows { rows.now.covers ≡ map rows_of net.now.raw.covers }
    requires ant { All (λ quint. quint.node.0 < net.now.raw.nets) task.now.ant }
    requires con { All (λ quint. quint.node.0 < net.now.raw.nets) task.now.con }
    requires weak { All (λ weakening. weakening.node.0 < net.now.raw.nets) task.now.weak }
    requires reads_ant { ReadBelow (N.store nodes.old).vars task.now.ant }
    requires reads_con { ReadBelow (N.store nodes.old).vars task.now.con }
    requires last { IfSome last.old (IsFrame (N.store nodes.old) net.now.raw) }

    // The report is that of the definition, with at most so many cubes in each list.
    ensures report { IfOk result (λ report. report.verdict ≢ Budget
        → IsReportOf net.now.raw (N.store nodes.old).vars cubes task.now report) }

    // There is none where steps were out, and they were too few.
    ensures budget { IfOk result (λ report. report.verdict ≡ Budget
        → (report ≡ budget_report task.now.name)
        × IsBudget net.now.raw task.now (N.store nodes.old) (N.store nodes.new)) }

    // What was held stays, and so does the limit; only nodes of the work functions are made.
    ensures keeps { Keeps (N.store nodes.old) (N.store nodes.new) }
    ensures limit { (N.store nodes.new).limit ≡ (N.store nodes.old).limit }
    ensures builds { (table : ℕ → ℕ → SymbolicSet)
        → IsWholeTable net.now.raw (N.store nodes.old).vars task.now table
        → Builds (IsCofactorOf (N.store nodes.old).vars (task_work net.now.raw task.now table))
        (N.store nodes.old) (N.store nodes.new) }

    // The nodes of the kept functions are there.
    ensures kept { IfOk result (λ report. report.verdict ≢ Budget
        → IsKept net.now.raw task.now (N.store nodes.new)) }

    // The frame that is left is one.
    ensures last { IfSome last.new (IsFrame (N.store nodes.new) net.now.raw) }
{
    let ops = Ops::new(alloc);
    let mut firsts = Firsts::none();
    match results_from(alloc, &ops, nodes, net, rows, task, &mut firsts, last) {
        Ok(r) => report_of(alloc, &ops, nodes, net, rows, task, r, firsts, cubes),
        Err(OpFault::StepsOut) => budget_report(alloc, &task.name),
        Err(OpFault::OutOfMemory) => Err(AllocError),
    }
}
