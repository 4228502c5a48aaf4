//! The tasks one after another, over a store that grows; begin with `run_alone`.

ghost use Rattle.std.specs.Prelude.{◌≡◌, ◌*◌, ◌^◌, ◌<◌, ◌≤◌, length, map, All, IfOk, IfSome, OnOk};
ghost use Rattle.std.specs.List.{AllZip};
ghost use Rattle.ste_base.specs.Limits.{most_variables};
ghost use Rattle.gate_sets.specs.Lists.{rows_of};
ghost use Rattle.sym_step.specs.Frame.{IsFrame};
ghost use Rattle.ste_model.specs.declared.verdict.Verdict.TheVariants.{Budget};
ghost use Rattle.work_pool.specs.Pool.{AreMadeWithin, IsTaskOver, table_width};
ghost use Rattle.work_pool.specs.Told.{IsToldOf, budgets};
ghost use Rattle.work_pool.specs.private.Ready.{IsTaskReady};

use crate::batch::{Batch, batch_of, check};
use crate::gate::Gate;
use crate::mode::Mode;
use crate::pool::frame_to_carry;
use dd_growing::GrowingNodes;
use dd_nodes::Nodes;
use net_core::Net;
use std::alloc::{AllocError, Global};
use ste_model::{Report, Task, Tasks};
use sym_step::{Frame, GateRows};

/// The most nodes that tasks leave to the next one. Where they made more, that one begins with a
/// store of its own.
const MOST_NODES: u32 = 1000000;

/// The report of a task over a store, which begins anew with so many node steps, from the last
/// frame of another task, where there is one; it leaves one for the next, where there is one.
fn check_anew(
    alloc: Global,
    nodes: &mut GrowingNodes,
    batch: &Batch<'_>,
    task: &Task,
    steps: u32,
    last: &mut Option<Frame>,
) -> Result<Report, AllocError>
    requires ready { IsTaskReady batch.now.mode batch.now.net.now.raw batch.now.vars
        (⟦<GrowingNodes as Nodes>⟧.store nodes.old).vars task.now }
    requires last { IfSome last.old
        (IsFrame (⟦<GrowingNodes as Nodes>⟧.store nodes.old) batch.now.net.now.raw) }
    ensures told { IfOk result (IsToldOf batch.now.mode batch.now.net.now.raw batch.now.vars
        steps batch.now.cubes task.now) }
    ensures within { length (⟦<GrowingNodes as Nodes>⟧.store nodes.new).made ≤ steps }
    ensures full { IfOk result (λ report. report.verdict ≡ Budget
        → length (⟦<GrowingNodes as Nodes>⟧.store nodes.new).made ≡ steps) }
    ensures vars { (⟦<GrowingNodes as Nodes>⟧.store nodes.new).vars
        ≡ (⟦<GrowingNodes as Nodes>⟧.store nodes.old).vars }
    ensures last { IfSome last.new
        (IsFrame (⟦<GrowingNodes as Nodes>⟧.store nodes.new) batch.now.net.now.raw) }
{
    nodes.begin(steps);
    let report = check(alloc, nodes, batch, task, last);
    *last = frame_to_carry(alloc, batch.net, last.take());
    report
}

/// Replaces the store by one without nodes, and drops the frame, where the tasks so far made too
/// many nodes in it; the result is how many they made in the store that there is then.
fn replace_large_store(
    alloc: Global,
    net: &Net,
    vars: u32,
    made: u32,
    nodes: &mut GrowingNodes,
    last: &mut Option<Frame>,
) -> Result<u32, AllocError>
    requires vars { (⟦<GrowingNodes as Nodes>⟧.store nodes.old).vars ≡ vars }
    requires last { IfSome last.old
        (IsFrame (⟦<GrowingNodes as Nodes>⟧.store nodes.old) net.now.raw) }
    ensures vars { OnOk result ((⟦<GrowingNodes as Nodes>⟧.store nodes.new).vars ≡ vars) }
    ensures last { OnOk result (IfSome last.new
        (IsFrame (⟦<GrowingNodes as Nodes>⟧.store nodes.new) net.now.raw)) }
{
    let _ = net;
    if made <= MOST_NODES {
        return Ok(made);
    }
    *nodes = GrowingNodes::new(alloc, vars, 0)?;
    *last = None;
    Ok(0)
}

/// The reports in the order of the tasks, and how many nodes the tasks made, all together.
#[derive(Drop)]
pub struct AloneAnswer {
    pub reports: Vec<Report>,
    pub made: u64,
}

/// The reports of all tasks in their order, checked one after another by this thread, each with
/// `steps` node steps of its own, and with at most `cubes` cubes in each list of a report. The
/// tasks have a store that grows, in which each finds what those before it made, as far as it was
/// not dropped. A task makes no more nodes than its steps, and just as many where its verdict is
/// `Budget`. All else is as with
/// `run_tasks` by sets, and as with `run_exact` in exact mode.
pub fn run_alone<G: Gate>(
    alloc: Global,
    mode: Mode,
    net: &Net,
    rows: &GateRows,
    tasks: &Tasks,
    steps: u32,
    cubes: u32,
    gate: &G,
) -> Result<AloneAnswer, AllocError>
    requires rows { rows.now.covers ≡ map rows_of net.now.raw.covers }
    requires few { length tasks.now.tasks < 2 ^ 32 }
    requires vars { table_width mode net.now.raw tasks.now ≤ most_variables }
    requires over { All (IsTaskOver net.now.raw (length tasks.now.vars)) tasks.now.tasks }

    // For each task, in order, its report, or budget where the steps are too few.
    ensures told { IfOk result (λ answer. AllZip
        (IsToldOf mode net.now.raw (length tasks.now.vars) steps cubes) tasks.now.tasks
        answer.reports.items) }

    // What each task made: none more than its steps, and all of them where it says budget.
    ensures made { IfOk result (λ answer. AreMadeWithin steps answer.reports.items answer.made) }
    ensures bounds { IfOk result (λ answer. (budgets answer.reports.items * steps ≤ answer.made)
        × (answer.made ≤ length tasks.now.tasks * steps)) }
{
    let batch = batch_of(mode, net, rows, tasks, cubes);
    let mut nodes = GrowingNodes::new(alloc, batch.width, 0)?;
    let mut held = 0u32;
    let mut made = 0u64;
    let mut last = None;
    let mut reports = Vec::new(alloc);
    for number in 0..batch.tasks.len() as u32 {
        held = replace_large_store(alloc, net, batch.width, held, &mut nodes, &mut last)?;
        gate.at_task(number);
        let task = &batch.tasks[number as usize];
        let report = check_anew(alloc, &mut nodes, &batch, task, steps, &mut last)?;
        let used = nodes.used();
        held = held.saturating_add(used);
        made += used as u64;
        reports.push(report)?;
    }
    Ok(AloneAnswer { reports, made })
}
