//! The tasks over one shared table; begin with `run_tasks`.

ghost use Rattle.std.specs.Prelude.{◌≡◌, ◌*◌, ◌^◌, ◌<◌, ◌≤◌, [], List, length, map, All, IfOk};
ghost use Rattle.std.specs.List.{AllZip, range_with_len};
ghost use Rattle.ste_base.specs.Limits.{most_variables};
ghost use Rattle.dd_table.specs.Sessions.{store_of};
ghost use Rattle.gate_sets.specs.Lists.{rows_of};
ghost use Rattle.ste_model.specs.declared.task.Task.{Task as ATask};
ghost use Rattle.exact_model.specs.Choices.{exact_width};
ghost use Rattle.work_pool.specs.declared.mode.Mode.TheVariants.{Exact, Sets};
ghost use Rattle.work_pool.specs.Pool.{AreTasksOf, IsPooled, IsTaskOver, IsToldOfNumber, table_width};
ghost use Rattle.work_pool.specs.private.Jobs.{tasks_at};

use crate::batch::{Batch, batch_of};
use crate::gate::Gate;
use crate::mode::Mode;
use crate::pool::pooled_tasks;
use dd_table::{Session, SharedTable, TableNodes};
use net_core::Net;
use std::alloc::{AllocError, Global};
use std::thread::Threads;
use ste_model::{Report, Tasks};
use sym_step::GateRows;

/// The reports in the order of the tasks, the table, and the session in which all sessions are
/// merged.
#[derive(Drop)]
pub struct PoolAnswer {
    pub reports: Vec<Report>,
    pub table: SharedTable,
    pub session: Session,
    ghost of: { session.table ≡ table },
}

/// The numbers below this one, in order.
fn numbers_below(alloc: Global, count: u32) -> Result<Vec<u32>, AllocError>
    ensures { IfOk result (λ numbers. numbers.items ≡ range_with_len 0 count) }
{
    let mut numbers = Vec::new(alloc);
    for i in 0..count {
        numbers.push(i)?;
    }
    Ok(numbers)
}

/// The reports of all tasks, checked by so many workers over one table, each with `steps` node
/// steps of its own, and with at most `cubes` cubes in each list of a report. `rows` are those of
/// the net. The gate is called with the number of each task as a worker begins it. Where no thread
/// can be made, the tasks are checked one after another.
///
/// A task's verdict is `Budget` only where its steps are fewer than it needs. All sessions are
/// merged into the one that is handed back: it made as many nodes at least as the steps of the
/// tasks with the verdict `Budget`, and the nodes of the kept functions of all other tasks have
/// references in it.
pub fn run_tasks<R: Threads + Sync, G: Gate + Sync>(
    rt: &R,
    alloc: Global,
    workers: u32,
    net: &Net,
    rows: &GateRows,
    tasks: &Tasks,
    steps: u32,
    cubes: u32,
    gate: &G,
) -> Result<PoolAnswer, AllocError>
    requires rows { rows.now.covers ≡ map rows_of net.now.raw.covers }
    requires workers { (1 ≤ workers) × (workers ≤ 64) }
    requires some { 1 ≤ length tasks.now.tasks }
    requires steps { (1 ≤ steps) × (length tasks.now.tasks * steps ≤ 16000000) }
    requires vars { length tasks.now.vars ≤ most_variables }
    requires over { All (IsTaskOver net.now.raw (length tasks.now.vars)) tasks.now.tasks }

    // The reports of the tasks, and what the session made and holds.
    ensures answer { IfOk result (λ answer. IsPooled Sets net.now.raw (length tasks.now.vars)
        steps cubes tasks.now.tasks answer.reports.items (store_of answer.session)) }

    // The table is over the variables of the tasks, and has two slots for each step.
    ensures vars { IfOk result (λ answer. answer.session.vars ≡ length tasks.now.vars) }
    ensures slots { IfOk result
        (λ answer. answer.session.slots ≡ 2 * (length tasks.now.tasks * steps)) }
{
    run_all(
        rt,
        alloc,
        Mode::Sets,
        workers,
        net,
        rows,
        tasks,
        steps,
        cubes,
        gate,
    )
}

/// As `run_tasks`, but each assertion is checked on two-valued runs, with a variable for each bit
/// of a run that it leaves open: its report is the exact one, and its kept functions are the sets
/// of the exactly strong and of the exactly contradictory assignments. Graphs are checked by sets.
/// The table has the variables of the tasks, and behind them as many as the assertion with the most
/// choices has.
pub fn run_exact<R: Threads + Sync, G: Gate + Sync>(
    rt: &R,
    alloc: Global,
    workers: u32,
    net: &Net,
    rows: &GateRows,
    tasks: &Tasks,
    steps: u32,
    cubes: u32,
    gate: &G,
) -> Result<PoolAnswer, AllocError>
    requires rows { rows.now.covers ≡ map rows_of net.now.raw.covers }
    requires workers { (1 ≤ workers) × (workers ≤ 64) }
    requires some { 1 ≤ length tasks.now.tasks }
    requires steps { (1 ≤ steps) × (length tasks.now.tasks * steps ≤ 16000000) }
    requires vars { exact_width net.now.raw tasks.now ≤ most_variables }
    requires over { All (IsTaskOver net.now.raw (length tasks.now.vars)) tasks.now.tasks }

    // The reports of the tasks, and what the session made and holds.
    ensures answer { IfOk result (λ answer. IsPooled Exact net.now.raw (length tasks.now.vars)
        steps cubes tasks.now.tasks answer.reports.items (store_of answer.session)) }

    // The table is over as many variables as the task that takes most, and has two slots for each
    // step.
    ensures vars { IfOk result (λ answer. answer.session.vars ≡ exact_width net.now.raw tasks.now) }
    ensures slots { IfOk result
        (λ answer. answer.session.slots ≡ 2 * (length tasks.now.tasks * steps)) }
{
    run_all(
        rt,
        alloc,
        Mode::Exact,
        workers,
        net,
        rows,
        tasks,
        steps,
        cubes,
        gate,
    )
}

/// The reports of all tasks: `run_tasks` by sets, and `run_exact` in exact mode.
fn run_all<R: Threads + Sync, G: Gate + Sync>(
    rt: &R,
    alloc: Global,
    mode: Mode,
    workers: u32,
    net: &Net,
    rows: &GateRows,
    tasks: &Tasks,
    steps: u32,
    cubes: u32,
    gate: &G,
) -> Result<PoolAnswer, AllocError>
    requires rows { rows.now.covers ≡ map rows_of net.now.raw.covers }
    requires workers { (1 ≤ workers) × (workers ≤ 64) }
    requires some { 1 ≤ length tasks.now.tasks }
    requires steps { (1 ≤ steps) × (length tasks.now.tasks * steps ≤ 16000000) }
    requires vars { table_width mode net.now.raw tasks.now ≤ most_variables }
    requires over { All (IsTaskOver net.now.raw (length tasks.now.vars)) tasks.now.tasks }
    ensures answer { IfOk result (λ answer. IsPooled mode net.now.raw (length tasks.now.vars)
        steps cubes tasks.now.tasks answer.reports.items (store_of answer.session)) }
    ensures vars { IfOk result
        (λ answer. answer.session.vars ≡ table_width mode net.now.raw tasks.now) }
    ensures slots { IfOk result
        (λ answer. answer.session.slots ≡ 2 * (length tasks.now.tasks * steps)) }
{
    let numbers = numbers_below(alloc, tasks.tasks.len() as u32)?;
    run_numbers(
        rt,
        alloc,
        mode,
        workers,
        net,
        rows,
        tasks,
        numbers.as_slice(),
        steps,
        cubes,
        gate,
    )
}

/// The reports of the tasks of these numbers, in the order of the numbers, checked over a table of
/// their own, each with `steps` node steps. All else is as with `run_tasks` by sets, and as with
/// `run_exact` in exact mode: what it says of all tasks holds here of these. The table has the
/// variables that all tasks take.
pub fn run_some<R: Threads + Sync, G: Gate + Sync>(
    rt: &R,
    alloc: Global,
    mode: Mode,
    workers: u32,
    net: &Net,
    rows: &GateRows,
    tasks: &Tasks,
    numbers: &[u32],
    steps: u32,
    cubes: u32,
    gate: &G,
) -> Result<PoolAnswer, AllocError>
    requires rows { rows.now.covers ≡ map rows_of net.now.raw.covers }
    requires workers { (1 ≤ workers) × (workers ≤ 64) }
    requires some { 1 ≤ length numbers.now }
    requires numbers { All (λ number. number < length tasks.now.tasks) numbers.now }
    requires steps { (1 ≤ steps) × (length numbers.now * steps ≤ 16000000) }
    requires vars { table_width mode net.now.raw tasks.now ≤ most_variables }
    requires over { All (IsTaskOver net.now.raw (length tasks.now.vars)) tasks.now.tasks }

    // The reports of the tasks of these numbers, and what the session made and holds.
    ensures answer { (some : List ATask) → AreTasksOf tasks.now.tasks numbers.now some
        → IfOk result (λ answer. IsPooled mode net.now.raw (length tasks.now.vars)
        steps cubes some answer.reports.items (store_of answer.session)) }

    // The table is over the variables that the tasks take, and has two slots for each step.
    ensures vars { IfOk result
        (λ answer. answer.session.vars ≡ table_width mode net.now.raw tasks.now) }
    ensures slots { IfOk result
        (λ answer. answer.session.slots ≡ 2 * (length numbers.now * steps)) }

    // For each number, in order, the report of the task of that number, or budget.
    ensures told { IfOk result (λ answer. AllZip
        (IsToldOfNumber mode net.now.raw (length tasks.now.vars) steps cubes tasks.now.tasks)
        numbers.now answer.reports.items) }
{
    let answer = run_numbers(
        rt, alloc, mode, workers, net, rows, tasks, numbers, steps, cubes, gate,
    )?;
    Ok(answer)
}

/// The tasks of these numbers over a table of their own.
fn run_numbers<R: Threads + Sync, G: Gate + Sync>(
    rt: &R,
    alloc: Global,
    mode: Mode,
    workers: u32,
    net: &Net,
    rows: &GateRows,
    tasks: &Tasks,
    numbers: &[u32],
    steps: u32,
    cubes: u32,
    gate: &G,
) -> Result<PoolAnswer, AllocError>
    requires rows { rows.now.covers ≡ map rows_of net.now.raw.covers }
    requires workers { (1 ≤ workers) × (workers ≤ 64) }
    requires some { 1 ≤ length numbers.now }
    requires numbers { All (λ number. number < length tasks.now.tasks) numbers.now }
    requires steps { (1 ≤ steps) × (length numbers.now * steps ≤ 16000000) }
    requires vars { table_width mode net.now.raw tasks.now ≤ most_variables }
    requires over { All (IsTaskOver net.now.raw (length tasks.now.vars)) tasks.now.tasks }
    ensures answer { (task : ATask) → IfOk result (λ answer. IsPooled mode net.now.raw
        (length tasks.now.vars) steps cubes (tasks_at tasks.now.tasks numbers.now task)
        answer.reports.items (store_of answer.session)) }
    ensures vars { IfOk result
        (λ answer. answer.session.vars ≡ table_width mode net.now.raw tasks.now) }
    ensures slots { IfOk result
        (λ answer. answer.session.slots ≡ 2 * (length numbers.now * steps)) }
{
    let batch = batch_of(mode, net, rows, tasks, cubes);
    let all = numbers.len() as u32 * steps;
    let (table, session) = SharedTable::open(alloc, batch.width, 2 * all)?;
    let (reports, session) = run_on_table(
        rt, alloc, workers, &batch, numbers, steps, &table, session, gate,
    )?;
    Ok(PoolAnswer {
        reports,
        table,
        session,
    })
}

/// The tasks of these numbers over this table, beginning with this session of it.
fn run_on_table<R: Threads + Sync, G: Gate + Sync>(
    rt: &R,
    alloc: Global,
    workers: u32,
    batch: &Batch<'_>,
    numbers: &[u32],
    steps: u32,
    table: &SharedTable,
    session: Session,
    gate: &G,
) -> Result<(Vec<Report>, Session), AllocError>
    requires table { session.table ≡ table.now }
    requires workers { 0 < workers }
    requires few { length numbers.now < 2 ^ 32 }
    requires numbers { All (λ number. number < length batch.now.tasks.now) numbers.now }
    requires made { session.made ≡ [] }
    requires limit { session.limit ≡ length numbers.now * steps }
    requires width { session.vars ≡ batch.now.width }
    ensures table { IfOk result (λ r. r.1.table ≡ session.table) }
    ensures vars { IfOk result (λ r. r.1.vars ≡ session.vars) }
    ensures pooled { (task : ATask) → IfOk result (λ r. IsPooled batch.now.mode
        batch.now.net.now.raw batch.now.vars steps batch.now.cubes
        (tasks_at batch.now.tasks.now numbers.now task) r.0.items (store_of r.1)) }
{
    let nodes = TableNodes::on(table, session);
    let (reports, nodes) = pooled_tasks(rt, alloc, workers, batch, numbers, steps, nodes, gate)?;
    Ok((reports, nodes.into_session()))
}
