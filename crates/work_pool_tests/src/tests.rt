//! Tasks over one net; begin with `reports_stand_in_the_order_of_the_tasks`.

ghost use Rattle.std.specs.Prelude.{◌≡◌, ◌<◌, ◌≤◌, [], All, IfOk, length, map};
ghost use Rattle.net_core.specs.declared.raw.RawNet.{RawNet as ARawNet};
ghost use Rattle.net_core.specs.Flat.{HasOneDriver, IsInRange};
ghost use Rattle.ste_model.specs.Need.{ReadBelow};
ghost use Rattle.gate_sets.specs.Lists.{rows_of};
ghost use Rattle.work_pool.specs.Pool.{IsTaskOver};

use bool_expr::Expr;
use net_core::{Net, RawNet, order};
use std::alloc::{AllocError, Global};
use std::sync::atomic::{AtomicU64, Ordering};
use std::test::Fail;
use std::thread::Threads;
use ste_base::{Items, Name, NodeId, Time};
use ste_model::{Assertion, Quint, Report, Task, Tasks, Verdict};
use sym_step::GateRows;
use work_pool::{Gate, Mode, run_alone, run_some, run_tasks};

/// The bit that the net is given, the one that it has to have, and up to which time.
type Case = (Option<bool>, bool, Time);

/// The longest task stands in the middle.
const CASES: &[Case] = &[
    (Some(true), true, 1),
    (Some(true), false, 9),
    (None, true, 4),
];

/// The verdicts of all cases.
const ALL: &[Verdict] = &[Verdict::Pass, Verdict::Strong, Verdict::Weak];

/// Counts the tasks that were begun.
#[derive(Drop)]
struct Count {
    begun: AtomicU64,
}

impl Gate for Count {
    fn at_task(&self, _task: u32) {
        self.begun.fetch_add(1, Ordering::SeqCst);
    }
}

/// A net with its rows.
#[derive(Drop)]
struct Ready {
    net: Net,
    rows: GateRows,
    ghost fit: { rows.covers ≡ map rows_of net.raw.covers },
    ghost one: { net.raw.nets ≡ 1 },
}

/// One net that nothing drives.
fn one_net(alloc: Global) -> RawNet
    ensures nets { result.nets ≡ 1 }
    ensures covers { result.covers ≡ [] }
    ensures in_range { IsInRange result }
    ensures one_driver { HasOneDriver result }
{
    RawNet {
        nets: 1,
        inputs: Items::new(alloc),
        outputs: Items::new(alloc),
        gates: Items::new(alloc),
        latches: Items::new(alloc),
        covers: Items::new(alloc),
    }
}

/// The net with its rows.
fn net_with_rows(alloc: Global) -> Result<Ready, Fail> {
    match order(alloc, one_net(alloc)) {
        Ok(net) => {
            let rows = GateRows::of(alloc, &net)?;
            Ok(Ready { net, rows })
        }
        Err(_) => Err("no order".into()),
    }
}

/// That the net has this bit, from time 0 up to this one.
fn has(alloc: Global, bit: bool, to: Time) -> Result<Items<Quint>, AllocError>
    ensures nodes { IfOk result (λ quints. All (λ quint. quint.node.0 < 1) quints) }
    ensures reads { IfOk result (λ quints. ReadBelow 0 quints) }
{
    let quint = Quint {
        guard: Expr::Const(true),
        node: NodeId(0),
        value: Expr::Const(bit),
        from: 0,
        to,
    };
    Ok(Items::from(Vec::from_array(alloc, [quint])?))
}

/// The task of a case.
fn task_of(alloc: Global, case: &Case) -> Result<Task, AllocError>
    ensures { IfOk result (λ task. (net : ARawNet) → net.nets ≡ 1 → IsTaskOver net 0 task) }
{
    let ant = match case.0 {
        Some(bit) => has(alloc, bit, case.2)?,
        None => Items::new(alloc),
    };
    Ok(Task::Ste(Assertion {
        name: Name::from_bytes(alloc, b"t")?,
        reset: false,
        ant,
        con: has(alloc, case.1, case.2)?,
        weak: Items::new(alloc),
    }))
}

/// The tasks of all cases.
fn all_cases(alloc: Global) -> Result<Tasks, AllocError>
    ensures vars { IfOk result (λ tasks. tasks.vars ≡ []) }
    ensures long { IfOk result (λ tasks. length tasks.tasks ≡ 3) }
    ensures over { IfOk result (λ tasks. (net : ARawNet) → net.nets ≡ 1
        → All (IsTaskOver net 0) tasks.tasks) }
{
    let first = task_of(alloc, &CASES[0])?;
    let second = task_of(alloc, &CASES[1])?;
    let third = task_of(alloc, &CASES[2])?;
    Ok(Tasks {
        vars: Items::new(alloc),
        tasks: Items::from(Vec::from_array(alloc, [first, second, third])?),
    })
}

/// Whether reports have these verdicts, in order.
fn has_verdicts(reports: &[Report], verdicts: &[Verdict]) -> bool {
    reports.len() == verdicts.len()
        && reports
            .iter()
            .zip(verdicts)
            .all(|(report, verdict)| report.verdict == *verdict)
}

/// Whether so many workers give the verdicts of all cases, in order, and call the gate for three
/// tasks.
fn reports_tasks_in_order<R: Threads + Sync>(
    rt: &R,
    alloc: Global,
    workers: u32,
    ready: &Ready,
    tasks: &Tasks,
) -> Result<bool, Fail>
    requires workers { (1 ≤ workers) × (workers ≤ 64) }
    requires vars { tasks.now.vars ≡ [] }
    requires long { length tasks.now.tasks ≡ 3 }
    requires over { (net : ARawNet) → net.nets ≡ 1 → All (IsTaskOver net 0) tasks.now.tasks }
{
    let count = Count {
        begun: AtomicU64::new(0),
    };
    let Ready { net, rows } = ready;
    let answer = run_tasks(rt, alloc, workers, net, rows, tasks, 100, 4, &count)?;
    Ok(has_verdicts(&answer.reports, ALL) && count.begun.load(Ordering::SeqCst) == 3)
}

/// The same of the net and the tasks of all cases.
fn reports_in_order<R: Threads + Sync>(rt: &R, alloc: Global, workers: u32) -> Result<bool, Fail>
    requires { (1 ≤ workers) × (workers ≤ 64) }
{
    let ready = net_with_rows(alloc)?;
    let tasks = all_cases(alloc)?;
    reports_tasks_in_order(rt, alloc, workers, &ready, &tasks)
}

/// Whether two workers give the verdicts of the last task and of the first one, in this order, and
/// call the gate for two.
fn reports_two_tasks<R: Threads + Sync>(
    rt: &R,
    alloc: Global,
    ready: &Ready,
    tasks: &Tasks,
) -> Result<bool, Fail>
    requires vars { tasks.now.vars ≡ [] }
    requires long { length tasks.now.tasks ≡ 3 }
    requires over { (net : ARawNet) → net.nets ≡ 1 → All (IsTaskOver net 0) tasks.now.tasks }
{
    let count = Count {
        begun: AtomicU64::new(0),
    };
    let Ready { net, rows } = ready;
    let answer = run_some(
        rt,
        alloc,
        Mode::Sets,
        2,
        net,
        rows,
        tasks,
        &[2, 0],
        100,
        4,
        &count,
    )?;
    Ok(
        has_verdicts(&answer.reports, &[Verdict::Weak, Verdict::Pass])
            && count.begun.load(Ordering::SeqCst) == 2,
    )
}

/// The same of the net and the tasks of all cases.
fn reports_of_two<R: Threads + Sync>(rt: &R, alloc: Global) -> Result<bool, Fail> {
    let ready = net_with_rows(alloc)?;
    let tasks = all_cases(alloc)?;
    reports_two_tasks(rt, alloc, &ready, &tasks)
}

/// Whether one thread alone gives the verdicts of all cases, in order, and calls the gate for three
/// tasks.
fn reports_tasks_alone(alloc: Global, ready: &Ready, tasks: &Tasks) -> Result<bool, Fail>
    requires vars { tasks.now.vars ≡ [] }
    requires long { length tasks.now.tasks ≡ 3 }
    requires over { (net : ARawNet) → net.nets ≡ 1 → All (IsTaskOver net 0) tasks.now.tasks }
{
    let count = Count {
        begun: AtomicU64::new(0),
    };
    let Ready { net, rows } = ready;
    let answer = run_alone(alloc, Mode::Sets, net, rows, tasks, 100, 4, &count)?;
    Ok(
        has_verdicts(&answer.reports, ALL)
            && answer.made == 0
            && count.begun.load(Ordering::SeqCst) == 3,
    )
}

/// The same of the net and the tasks of all cases.
fn reports_alone(alloc: Global) -> Result<bool, Fail> {
    let ready = net_with_rows(alloc)?;
    let tasks = all_cases(alloc)?;
    reports_tasks_alone(alloc, &ready, &tasks)
}

#[test]
fn one_thread_alone_reports_the_tasks_in_their_order(rt: HostRuntime) -> Result<(), Fail> {
    let same = reports_alone(rt.alloc())?;
    assert!(rt; same);
    Ok(())
}

#[test]
fn some_tasks_are_reported_in_the_order_of_the_numbers(rt: HostRuntime) -> Result<(), Fail> {
    let same = reports_of_two(&rt, rt.alloc())?;
    assert!(rt; same);
    Ok(())
}

#[test]
fn reports_stand_in_the_order_of_the_tasks(rt: HostRuntime) -> Result<(), Fail> {
    for workers in 1..5 {
        let same = reports_in_order(&rt, rt.alloc(), workers)?;
        assert!(rt; same, "with {workers} workers");
    }
    Ok(())
}
