//! Tasks in exact mode; begin with `exact_reports_are_those_of_runs`.

ghost use Rattle.std.specs.Prelude.{◌≡◌, ◌<◌, ◌≤◌, [], All, IfOk, length, map};
ghost use Rattle.net_core.specs.declared.raw.RawNet.{RawNet as ARawNet};
ghost use Rattle.gate_sets.specs.Lists.{rows_of};
ghost use Rattle.ste_model.specs.GraphNeed.{BindsReadBelow};
ghost use Rattle.ste_model.specs.Need.{ReadBelow};
ghost use Rattle.work_pool.specs.Pool.{IsTaskOver};

use blif_lines::logical_lines;
use blif_syntax::read_models;
use bool_expr::Expr;
use flat_net::flatten;
use net_core::{Net, order};
use std::alloc::{AllocError, Global};
use std::test::Fail;
use std::thread::Threads;
use ste_base::{Items, Name, NodeId};
use ste_model::{Assertion, Bind, Edge, Graph, Quint, Report, Task, Tasks, Verdict};
use sym_step::GateRows;
use work_pool::{Mode, NoGate, run_alone, run_exact, run_tasks, table_width};

/// Net 1 is 1 whatever net 0 is, which by sets it may not be.
const ALWAYS: &[u8] =
    b".model t\n.inputs a\n.outputs y\n.names a n\n0 1\n.names a n y\n1- 1\n-1 1\n.end\n";

/// By sets all three tasks fail weakly.
const BY_SETS: &[Verdict] = &[Verdict::Weak, Verdict::Weak, Verdict::Weak];

/// On two-valued runs net 1 is 1, and net 0 need not be; the graph is checked by sets.
const EXACT: &[Verdict] = &[Verdict::Pass, Verdict::Strong, Verdict::Weak];

/// A net with its rows.
#[derive(Drop)]
struct Ready {
    net: Net,
    rows: GateRows,
    ghost fit: { rows.covers ≡ map rows_of net.raw.covers },
    ghost three: { net.raw.nets ≡ 3 },
}

/// The net of a text, which has three nets.
fn net_of(alloc: Global, text: &[u8]) -> Result<Ready, Fail>
    requires { length text.now ≤ 20000 }
{
    let lines = logical_lines(alloc, text)?;
    let Ok(models) = read_models(alloc, lines.as_slice()) else {
        return Err("no models".into());
    };
    let (raw, _) = match flatten(alloc, &models) {
        Ok(made) => made,
        Err(_) => return Err("no flat net".into()),
    };
    match order(alloc, raw) {
        Ok(net) => {
            let rows = GateRows::of(alloc, &net)?;
            if net.nets() != 3 {
                return Err("not three nets".into());
            }
            Ok(Ready { net, rows })
        }
        Err(_) => Err("no order".into()),
    }
}

/// The task that this net is 1 at time 0, whatever comes in.
fn is_one(alloc: Global, node: u32) -> Result<Task, AllocError>
    requires { node < 2 }
    ensures { IfOk result (λ task. (net : ARawNet) → net.nets ≡ 3 → IsTaskOver net 0 task) }
{
    let quint = Quint {
        guard: Expr::Const(true),
        node: NodeId(node),
        value: Expr::Const(true),
        from: 0,
        to: 1,
    };
    Ok(Task::Ste(Assertion {
        name: Name::from_bytes(alloc, b"t")?,
        reset: false,
        ant: Items::new(alloc),
        con: Items::from(Vec::from_array(alloc, [quint])?),
        weak: Items::new(alloc),
    }))
}

/// The task that net 0 is 1 on each path, whatever comes in.
fn is_one_on_paths(alloc: Global) -> Result<Task, AllocError>
    ensures { IfOk result (λ task. (net : ARawNet) → net.nets ≡ 3 → IsTaskOver net 0 task) }
{
    let bind = Bind {
        guard: Expr::Const(true),
        node: NodeId(0),
        value: Expr::Const(true),
    };
    let edge = Edge {
        from: 0,
        to: 0,
        ant: Items::new(alloc),
        con: Items::from(Vec::from_array(alloc, [bind])?),
        weak: Items::new(alloc),
    };
    let vertex = Name::from_bytes(alloc, b"v")?;
    Ok(Task::Gste(Graph {
        name: Name::from_bytes(alloc, b"g")?,
        reset: false,
        vertices: Items::from(Vec::from_array(alloc, [vertex])?),
        edges: Items::from(Vec::from_array(alloc, [edge])?),
    }))
}

/// That net 1 is 1, that net 0 is, and the latter on each path.
fn three_tasks(alloc: Global) -> Result<Tasks, AllocError>
    ensures vars { IfOk result (λ tasks. tasks.vars ≡ []) }
    ensures long { IfOk result (λ tasks. length tasks.tasks ≡ 3) }
    ensures over { IfOk result (λ tasks. (net : ARawNet) → net.nets ≡ 3
        → All (IsTaskOver net 0) tasks.tasks) }
{
    let first = is_one(alloc, 1)?;
    let second = is_one(alloc, 0)?;
    let third = is_one_on_paths(alloc)?;
    Ok(Tasks {
        vars: Items::new(alloc),
        tasks: Items::from(Vec::from_array(alloc, [first, second, third])?),
    })
}

/// Whether reports have these verdicts, in order.
fn has_verdicts(reports: &[Report], verdicts: &[Verdict]) -> bool {
    reports.len() == verdicts.len()
        && reports
            .iter()
            .zip(verdicts)
            .all(|(report, verdict)| report.verdict == *verdict)
}

/// Whether a report has the least assignment of no variable, and a run just where `due`, in which
/// net 0 is 0.
fn shows_zero(report: &Report, due: bool) -> bool {
    let Some(least) = &report.least else {
        return false;
    };
    if least.len() != 0 {
        return false;
    }
    match &report.run {
        Some(run) => due
            && match run.rows.as_slice().first() {
                Some(row) => row.as_slice() == [false].as_slice(),
                None => false,
            },
        None => !due,
    }
}

/// Whether the reports are the exact ones: net 0 is 0 in the run that is shown, and nothing is
/// shown of the variable of that choice.
fn are_exact(reports: &[Report]) -> bool {
    reports.len() == 3
        && has_verdicts(reports, EXACT)
        && shows_zero(&reports[1], true)
        && shows_zero(&reports[2], false)
}

/// Whether so many workers give the reports by sets and the exact ones, and a thread alone too; and
/// whether with a step the first task says budget.
fn reports_exactly<R: Threads + Sync>(
    rt: &R,
    alloc: Global,
    workers: u32,
    ready: &Ready,
    tasks: &Tasks,
) -> Result<bool, Fail>
    requires workers { (1 ≤ workers) × (workers ≤ 64) }
    requires vars { tasks.now.vars ≡ [] }
    requires long { length tasks.now.tasks ≡ 3 }
    requires over { (net : ARawNet) → net.nets ≡ 3 → All (IsTaskOver net 0) tasks.now.tasks }
{
    let Ready { net, rows } = ready;
    if table_width(Mode::Exact, net, tasks) > 4000 {
        return Err("too wide".into());
    }
    let sets = run_tasks(rt, alloc, workers, net, rows, tasks, 100, 4, &NoGate)?;
    let exact = run_exact(rt, alloc, workers, net, rows, tasks, 100, 4, &NoGate)?;
    let alone = run_alone(alloc, Mode::Exact, net, rows, tasks, 100, 4, &NoGate)?;
    let short = run_alone(alloc, Mode::Exact, net, rows, tasks, 1, 4, &NoGate)?;
    Ok(
        has_verdicts(&sets.reports, BY_SETS)
            && are_exact(&exact.reports)
            && are_exact(&alone.reports)
            && short.reports.len() == 3
            && short.reports[0].verdict == Verdict::Budget,
    )
}

/// The same of the net and the three tasks.
fn reports_of_three<R: Threads + Sync>(rt: &R, alloc: Global, workers: u32) -> Result<bool, Fail>
    requires { (1 ≤ workers) × (workers ≤ 64) }
{
    let ready = net_of(alloc, ALWAYS)?;
    let tasks = three_tasks(alloc)?;
    reports_exactly(rt, alloc, workers, &ready, &tasks)
}

#[test]
fn exact_reports_are_those_of_runs(rt: HostRuntime) -> Result<(), Fail> {
    for workers in 1..5 {
        let same = reports_of_three(&rt, rt.alloc(), workers)?;
        assert!(rt; same, "with {workers} workers");
    }
    Ok(())
}
