//! The reports of the tasks of a file; begin with `reports_of`.

ghost use Rattle.std.specs.Prelude.{◌≡◌, ◌*◌, ◌^◌, ◌<◌, ◌≤◌, ℕ, All, IfOk, IfSome, Option, is_some, length, map};
ghost use Rattle.std.specs.List.{AllZip, list_any};
ghost use Rattle.ste_base.specs.Limits.{most_variables};
ghost use Rattle.command_line.specs.Bounds.{IsBounded};
ghost use Rattle.gate_sets.specs.Lists.{rows_of};
ghost use Rattle.ste_program.specs.Check.{is_pass};
ghost use Rattle.ste_program.specs.private.Made.{IsCheckable};
ghost use Rattle.ste_program.specs.private.Tries.{budget_numbers, first_steps, is_budget, most_first_steps, next_steps, says_budget, with_replaced};
ghost use Rattle.work_pool.specs.declared.mode.Mode.TheVariants.{Sets};
ghost use Rattle.work_pool.specs.Told.{IsSharedCount, IsToldOf};

use command_line::Command;
use net_core::Net;
use std::alloc::{AllocError, Global};
use std::thread::Threads;
use ste_model::{Report, Tasks, Verdict};
use sym_step::GateRows;
use work_pool::{Gate, Mode, PoolAnswer, run_alone, run_some, run_tasks};

/// The node steps for each net that are tried first.
const FIRST_STEPS_A_NET: u32 = 12;

/// The node steps that are tried first where there are few nets.
const FIRST_STEPS_OF_FEW_NETS: u32 = 20480;

/// From so many variables on, a task is one over many.
const MANY_VARIABLES: u32 = 9;

/// The most node steps that are tried first where there are few variables, over which few nodes are
/// made.
const FIRST_STEPS_OF_FEW_VARIABLES: u32 = 4096;

/// The least node steps that are tried first, where so many are granted.
const LEAST_FIRST_STEPS: u32 = 1024;

/// The most node steps that are tried first for all tasks together: those of a table of 32 MB.
const MOST_FIRST_STEPS: u32 = 2097152;

/// How many times as many node steps are tried next.
const GROWTH: u32 = 12;

/// Whether the verdict is pass.
pub fn is_pass(verdict: Verdict) -> bool
    ensures { result ≡ is_pass verdict }
{
    matches!(verdict, Verdict::Pass)
}

/// The reports of tasks, one for each in their order, and the number of nodes that they share,
/// where it is asked for.
#[derive(Drop)]
pub struct Reports {
    pub reports: Vec<Report>,
    pub shared: Option<u32>,
}

/// Whether the verdict is budget.
fn is_budget(verdict: Verdict) -> bool
    ensures { result ≡ is_budget verdict }
{
    matches!(verdict, Verdict::Budget)
}

/// Whether some report says budget.
fn some_budget(reports: &[Report]) -> bool
    ensures { result ≡ list_any (λ report. is_budget report.verdict) reports.now }
{
    reports.iter().any(|report| is_budget(report.verdict))
}

/// The most node steps of a task over so many variables that are tried first.
fn most_first_steps(vars: u32) -> u32
    ensures { result ≡ most_first_steps vars }
{
    if vars < MANY_VARIABLES {
        FIRST_STEPS_OF_FEW_VARIABLES
    } else {
        MOST_FIRST_STEPS
    }
}

/// The node steps of each of so many tasks that are tried first, where so many are granted: by the
/// number of nets, but no more than its share of the most for all tasks together, and no more than
/// the most for so many variables.
fn first_steps(nets: u32, tasks: u32, vars: u32, steps: u32) -> u32
    requires { (1 ≤ tasks) × (1 ≤ steps) }
    ensures exact { result ≡ first_steps nets tasks vars steps }
    ensures within { (1 ≤ result) × (result ≤ steps) }
{
    let each = nets
        .saturating_mul(FIRST_STEPS_A_NET)
        .max(FIRST_STEPS_OF_FEW_NETS);
    let share = each.min(MOST_FIRST_STEPS / tasks);
    share
        .min(most_first_steps(vars))
        .max(LEAST_FIRST_STEPS)
        .min(steps)
}

/// The node steps of a task that are tried next.
fn next_steps(tried: u32, steps: u32) -> u32
    requires { 1 ≤ tried }
    ensures exact { result ≡ next_steps tried steps }
    ensures more { tried < steps → (tried < result) × (result ≤ steps) }
{
    tried.saturating_mul(GROWTH).min(steps)
}

/// Whether the report of this number says budget.
fn says_budget(reports: &[Report], number: u32) -> bool
    ensures { result ≡ says_budget reports.now number }
{
    match reports.get(number as usize) {
        Some(report) => is_budget(report.verdict),
        None => false,
    }
}

/// The numbers of the reports that say budget, in order.
fn budget_numbers(alloc: Global, reports: &[Report]) -> Result<Vec<u32>, AllocError>
    requires { length reports.now < 2 ^ 32 }
    ensures { IfOk result (λ numbers. numbers.items ≡ budget_numbers reports.now) }
{
    (0..reports.len() as u32)
        .filter(|number| says_budget(reports, *number))
        .collect::<Vec<u32>>(alloc)
}

/// The reports with new ones in the places of these numbers.
fn with_replaced(mut reports: Vec<Report>, numbers: &[u32], again: Vec<Report>) -> Vec<Report>
    requires long { length again.items ≡ length numbers.now }
    requires inside { All (λ number. number < length reports.items) numbers.now }
    ensures { result.items ≡ with_replaced reports.items numbers.now again.items }
{
    let mut place = 0;
    for report in again {
        reports[numbers[place] as usize] = report;
        place += 1;
    }
    reports
}

/// What is checked, and how: tasks over a net with the rows of its covers, by so many workers, with
/// so many cubes at most in each list of a report, and with or without the number of shared nodes.
#[derive(Drop)]
struct Checking<'a> {
    net: &'a Net,
    rows: &'a GateRows,
    tasks: &'a Tasks,
    workers: u32,
    cubes: u32,
    nodes: bool,
    ghost of_net: { rows.now.covers ≡ map rows_of net.now.raw.covers },
    ghost checkable: { All (IsCheckable net.now.raw.nets (length tasks.now.vars))
        tasks.now.tasks },
    ghost some: { 1 ≤ length tasks.now.tasks },
    ghost vars: { length tasks.now.vars ≤ most_variables },
    ghost bounded: { (1 ≤ workers) × (workers ≤ 64) },
}

/// The reports of tasks, with so many node steps for each.
///
/// One worker checks them over a store that grows, and so does the caller's thread where there is
/// but one task. More workers share one table, and so does one where the number of shared nodes is
/// asked for.
pub fn reports_of<R: Threads + Sync, G: Gate + Sync>(
    rt: &R,
    alloc: Global,
    asked: &Command<'_>,
    net: &Net,
    rows: &GateRows,
    tasks: &Tasks,
    steps: u32,
    gate: &G,
) -> Result<Reports, AllocError>
    requires bounded { IsBounded asked.now }
    requires rows { rows.now.covers ≡ map rows_of net.now.raw.covers }
    requires checkable { All (IsCheckable net.now.raw.nets (length tasks.now.vars))
        tasks.now.tasks }
    requires some { 1 ≤ length tasks.now.tasks }
    requires vars { length tasks.now.vars ≤ most_variables }
    requires steps { (1 ≤ steps) × (length tasks.now.tasks * steps ≤ 16000000) }
    ensures told { IfOk result (λ told. AllZip
        (IsToldOf Sets net.now.raw (length tasks.now.vars) steps asked.now.cubes) tasks.now.tasks
        told.reports.items) }
    ensures shown { IfOk result (λ told. is_some told.shared ≡ asked.now.nodes) }
    ensures counted { IfOk result (λ told. IfSome told.shared (IsSharedCount Sets net.now.raw
        (length tasks.now.vars) (length tasks.now.vars) steps tasks.now.tasks
        told.reports.items)) }
{
    if asked.nodes || (asked.workers > 1 && tasks.tasks.len() > 1) {
        let checking = Checking {
            net,
            rows,
            tasks,
            workers: asked.workers,
            cubes: asked.cubes,
            nodes: asked.nodes,
        };
        return check_with_growing_steps(rt, alloc, &checking, steps, gate);
    }
    let cubes = asked.cubes;
    let answer = run_alone(alloc, Mode::Sets, net, rows, tasks, steps, cubes, gate)?;
    Ok(Reports {
        reports: answer.reports,
        shared: None,
    })
}

/// The reports of tasks that are checked by workers over one table, with so many node steps for
/// each.
///
/// A table takes two words for each step, and to open a large one takes longer than most checks. So
/// few steps are tried first, and then more, for the tasks alone that said budget, each time over a
/// table of their own. The reports of the others stand: with more steps they would be the same.
/// Where the number of shared nodes is asked for, all tasks are checked again, since that number is
/// of one table.
fn check_with_growing_steps<R: Threads + Sync, G: Gate + Sync>(
    rt: &R,
    alloc: Global,
    checking: &Checking<'_>,
    steps: u32,
    gate: &G,
) -> Result<Reports, AllocError>
    requires steps { (1 ≤ steps) × (length checking.now.tasks.now.tasks * steps ≤ 16000000) }
    ensures told { IfOk result (λ told. AllZip (IsToldOf Sets checking.now.net.now.raw
        (length checking.now.tasks.now.vars) steps checking.now.cubes)
        checking.now.tasks.now.tasks told.reports.items) }
    ensures shown { IfOk result (λ told. is_some told.shared ≡ checking.now.nodes) }
    ensures counted { IfOk result (λ told. IfSome told.shared
        (IsSharedCount Sets checking.now.net.now.raw (length checking.now.tasks.now.vars)
        (length checking.now.tasks.now.vars) steps
        checking.now.tasks.now.tasks told.reports.items)) }
{
    let count = checking.tasks.tasks.len() as u32;
    let vars = checking.tasks.vars.len() as u32;
    let mut tried = first_steps(checking.net.nets(), count, vars, steps);
    let mut told = check_once(rt, alloc, checking, tried, gate)?;
    while tried < steps {
        if !some_budget(&told.reports) {
            return Ok(told);
        }
        let numbers = budget_numbers(alloc, &told.reports)?;
        tried = next_steps(tried, steps);
        told = recheck(rt, alloc, checking, told, &numbers, tried, gate)?;
    }
    Ok(told)
}

/// The reports of tasks, where those of these numbers said budget and are checked again, with so
/// many node steps for each; all tasks are, where the number of shared nodes is asked for.
fn recheck<R: Threads + Sync, G: Gate + Sync>(
    rt: &R,
    alloc: Global,
    checking: &Checking<'_>,
    told: Reports,
    numbers: &[u32],
    steps: u32,
    gate: &G,
) -> Result<Reports, AllocError>
    requires long { length told.reports.items ≡ length checking.now.tasks.now.tasks }
    requires numbers { numbers.now ≡ budget_numbers told.reports.items }
    requires some { 1 ≤ length numbers.now }
    requires steps { (1 ≤ steps) × (length checking.now.tasks.now.tasks * steps ≤ 16000000) }
    ensures told { (few : ℕ) → AllZip (IsToldOf Sets checking.now.net.now.raw
        (length checking.now.tasks.now.vars) few checking.now.cubes)
        checking.now.tasks.now.tasks told.reports.items →
        IfOk result (λ again. AllZip (IsToldOf Sets checking.now.net.now.raw
        (length checking.now.tasks.now.vars) steps checking.now.cubes)
        checking.now.tasks.now.tasks again.reports.items) }
    ensures shown { IfOk result (λ again. is_some again.shared ≡ checking.now.nodes) }
    ensures counted { IfOk result (λ again. IfSome again.shared
        (IsSharedCount Sets checking.now.net.now.raw (length checking.now.tasks.now.vars)
        (length checking.now.tasks.now.vars) steps
        checking.now.tasks.now.tasks again.reports.items)) }
{
    if checking.nodes {
        return check_once(rt, alloc, checking, steps, gate);
    }
    let again = run_some(
        rt,
        alloc,
        Mode::Sets,
        checking.workers,
        checking.net,
        checking.rows,
        checking.tasks,
        numbers,
        steps,
        checking.cubes,
        gate,
    )?;
    Ok(Reports {
        reports: with_replaced(told.reports, numbers, again.reports),
        shared: None,
    })
}

/// The reports of tasks that are checked once, with so many node steps for each.
fn check_once<R: Threads + Sync, G: Gate + Sync>(
    rt: &R,
    alloc: Global,
    checking: &Checking<'_>,
    steps: u32,
    gate: &G,
) -> Result<Reports, AllocError>
    requires steps { (1 ≤ steps) × (length checking.now.tasks.now.tasks * steps ≤ 16000000) }
    ensures told { IfOk result (λ told. AllZip (IsToldOf Sets checking.now.net.now.raw
        (length checking.now.tasks.now.vars) steps checking.now.cubes)
        checking.now.tasks.now.tasks told.reports.items) }
    ensures shown { IfOk result (λ told. is_some told.shared ≡ checking.now.nodes) }
    ensures counted { IfOk result (λ told. IfSome told.shared
        (IsSharedCount Sets checking.now.net.now.raw (length checking.now.tasks.now.vars)
        (length checking.now.tasks.now.vars) steps
        checking.now.tasks.now.tasks told.reports.items)) }
{
    let answer = run_tasks(
        rt,
        alloc,
        checking.workers,
        checking.net,
        checking.rows,
        checking.tasks,
        steps,
        checking.cubes,
        gate,
    )?;
    let PoolAnswer {
        reports,
        table,
        session,
    } = answer;
    let shared = if checking.nodes {
        Some(table.close(session))
    } else {
        None
    };
    Ok(Reports { reports, shared })
}
