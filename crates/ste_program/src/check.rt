//! What a check writes: `check` gives its bytes, and whether every task passes; `checked_texts` the
//! number of nets too.
ghost use Rattle.std.specs.Prelude.{◌≡◌, ◌*◌, ◌≤◌, ◌<◌, ℕ, List, All, IfOk, MatchResult, Ok, false, length};
ghost use Rattle.std.specs.List.{list_all};
ghost use Rattle.ste_base.specs.Limits.{most_variables};
ghost use Rattle.blif_syntax.specs.Covered.{AreCovered};
ghost use Rattle.blif_syntax.specs.declared.models.Model.{Model};
ghost use Rattle.command_line.specs.Bounds.{IsBounded};
ghost use Rattle.hierarchy.specs.Names.{net_named};
ghost use Rattle.hierarchy.specs.Nets.{nets};
ghost use Rattle.net_core.specs.Cases.{cases_of};
ghost use Rattle.task_binding.specs.Answer.{IsBindAnswer};
ghost use Rattle.ste_program.specs.Check.{IsCheck, IsReportOn, are_too_many, is_pass, task_steps};
ghost use Rattle.ste_program.specs.Netlist.{IsNetlist};
ghost use Rattle.ste_program.specs.Order.{IsFirstRefusal, check_stages, has_faulty_tasks};
ghost use Rattle.ste_program.specs.Report.{greatest};
ghost use Rattle.ste_program.specs.TaskFile.{AreTasks};
ghost use Rattle.ste_program.specs.private.Made.{IsCheckable, IsNetOf, IsNotBound};
ghost use Rattle.ste_program.specs.private.Prepared.{IsCheckOver, IsPrepared};
ghost use Rattle.ste_program.specs.private.Texts.{OrMemory};

use crate::judging::{Reports, is_pass, reports_of};
use crate::netlist::{FlatNet, models_of, net_of};
use crate::refusal::Refusal;
use crate::report::Written;
use assert_syntax::{RawTasks, read_tasks};
use blif_lines::logical_lines;
use blif_syntax::Models;
use command_line::Command;
use report_text::render;
use std::alloc::{AllocError, Global};
use std::thread::Threads;
use ste_model::{Report, Tasks};
use sym_step::GateRows;
use task_binding::bind_tasks;
use work_pool::Gate;

/// What is checked: a net with the names of its nets, and tasks over it.
#[derive(Drop)]
struct Prepared {
    flat: FlatNet,
    tasks: Tasks,
    ghost named: { length flat.names.own ≡ flat.net.raw.nets },
    ghost inputs: { All (λ cover. cover.inputs ≤ 1000) flat.net.raw.covers },
    ghost cases: { All (λ cover. cases_of cover.inputs cover.rows ≤ 65536) flat.net.raw.covers },
    ghost checkable: { All (IsCheckable flat.net.raw.nets (length tasks.vars)) tasks.tasks },
    ghost some: { 0 < length tasks.tasks },
    ghost few: { length tasks.vars ≤ most_variables },
    ghost few_tasks: { length tasks.tasks ≤ 256 },
}

/// The tasks that the text of a task file spells, whose nodes are names. The text is dropped once
/// its lines are there.
fn tasks_of(alloc: Global, text: Vec<u8>) -> Result<RawTasks, Refusal>
    requires { length text.items ≤ greatest }
    ensures { MatchResult result
        (λ raw. AreTasks text.items raw)
        (λ found. OrMemory (has_faulty_tasks text.items) found) }
{
    let lines = logical_lines(alloc, &text)?;
    drop(text);
    Ok(read_tasks(alloc, lines.as_slice())?)
}

/// The tasks over a netlist's net.
fn bound_tasks(alloc: Global, flat: &FlatNet, raw: &RawTasks) -> Result<Tasks, Refusal>
    ensures { (models : List Model) → IsNetOf models flat.now.net.raw flat.now.names →
        MatchResult result
        (λ tasks. IsBindAnswer (net_named models) (length (nets models)) raw.now (Ok tasks))
        (λ found. OrMemory (IsNotBound models raw.now) found) }
{
    Ok(bind_tasks(alloc, raw, &flat.names, flat.net.nets())?)
}

/// Whether these node steps of each task, where they are given, are too many over so many tasks.
fn are_too_many(steps: Option<u64>, tasks: usize) -> bool
    ensures { result ≡ are_too_many steps tasks }
{
    match steps {
        None => false,
        Some(steps) => steps.saturating_mul(tasks as u64) > 16_000_000,
    }
}

/// The tasks over a flat net, where their node steps are not too many.
fn tasks_on(
    alloc: Global,
    steps: Option<u64>,
    flat: &FlatNet,
    raw: &RawTasks,
) -> Result<Tasks, Refusal>
    ensures { (net_text task_text : List ℕ) (models : List Model) → IsNetlist net_text models →
        AreTasks task_text raw.now → IsNetOf models flat.now.net.raw flat.now.names →
        MatchResult result
        (λ tasks. IsBindAnswer (net_named models) (length (nets models)) raw.now (Ok tasks)
        × (are_too_many steps (length raw.now.tasks) ≡ false))
        (λ found. OrMemory (IsFirstRefusal (check_stages steps net_text task_text)) found) }
{
    let tasks = bound_tasks(alloc, flat, raw)?;
    if are_too_many(steps, raw.tasks.len()) {
        return Err(Refusal::TooManySteps);
    }
    Ok(tasks)
}

/// What a check with these node steps of each task needs, from the models and the tasks that its
/// texts spell.
fn prepared_of(
    alloc: Global,
    steps: Option<u64>,
    models: Models,
    raw: &RawTasks,
) -> Result<Prepared, Refusal>
    requires covered { AreCovered models.models }
    requires read { (net_text task_text : List ℕ) × (IsNetlist net_text models.models
        × AreTasks task_text raw.now) }
    ensures { (net_text task_text : List ℕ) → IsNetlist net_text models.models →
        AreTasks task_text raw.now → MatchResult result
        (λ made. IsPrepared steps net_text task_text made.flat.names.own made.flat.net.raw
        made.tasks)
        (λ found. OrMemory (IsFirstRefusal (check_stages steps net_text task_text)) found) }
{
    let flat = net_of(alloc, models)?;
    let tasks = tasks_on(alloc, steps, &flat, raw)?;
    Ok(Prepared { flat, tasks })
}

/// What a check with these node steps of each task needs, from its texts; or why there is nothing
/// to check.
fn prepare(
    alloc: Global,
    steps: Option<u64>,
    net_text: Vec<u8>,
    task_text: Vec<u8>,
) -> Result<Prepared, Refusal>
    requires net { length net_text.items ≤ greatest }
    requires tasks { length task_text.items ≤ greatest }
    ensures { MatchResult result
        (λ made. IsPrepared steps net_text.items task_text.items made.flat.names.own
        made.flat.net.raw made.tasks)
        (λ found. OrMemory (IsFirstRefusal (check_stages steps net_text.items task_text.items))
        found) }
{
    let models = models_of(alloc, net_text)?;
    let raw = tasks_of(alloc, task_text)?;
    prepared_of(alloc, steps, models, &raw)
}

/// The node steps of each of so many tasks.
fn task_steps(steps: Option<u64>, tasks: usize) -> u64
    requires { 0 < tasks }
    ensures { result ≡ task_steps steps tasks }
{
    match steps {
        Some(steps) => steps,
        None => (16_000_000 / tasks as u64).min(1_000_000),
    }
}

/// Whether every verdict is pass.
fn all_pass(reports: &[Report]) -> bool
    ensures { result ≡ list_all (λ report. is_pass report.verdict) reports.now }
{
    reports.iter().all(|report| is_pass(report.verdict))
}

/// The report of a check, whether every task passes, and how many nets the netlist has.
#[derive(Drop)]
pub struct Checked {
    pub text: Vec<u8>,
    pub passes: bool,
    pub nets: u32,
}

/// The report of a check on what is prepared, with so many steps for each task.
fn report_on<R: Threads + Sync, G: Gate + Sync>(
    rt: &R,
    alloc: Global,
    asked: &Command<'_>,
    steps: u32,
    prepared: &Prepared,
    gate: &G,
) -> Result<Checked, AllocError>
    requires bounded { IsBounded asked.now }
    requires steps { (1 ≤ steps) × (length prepared.now.tasks.tasks * steps ≤ 16000000) }
    ensures report { IfOk result (λ checked. IsReportOn prepared.now.flat.names.own
        prepared.now.flat.net.raw steps asked.now.cubes asked.now.wave asked.now.nodes
        prepared.now.tasks checked.passes checked.text.items) }
    ensures nets { IfOk result (λ checked. checked.nets ≡ prepared.now.flat.net.raw.nets) }
{
    let net = &prepared.flat.net;
    let tasks = &prepared.tasks;
    let rows = GateRows::of(alloc, net)?;
    let told = reports_of(rt, alloc, asked, net, &rows, tasks, steps, gate)?;
    let Reports { reports, shared } = told;
    let text = render(
        alloc,
        &prepared.flat.names,
        tasks,
        &reports,
        asked.wave,
        shared,
    )?;
    Ok(Checked {
        text,
        passes: all_pass(&reports),
        nets: net.nets(),
    })
}

/// The report of a check on the texts of a netlist and of a task file, with the steps, workers,
/// cubes and flags of a command. A run shows the nets that its task names, with `--wave` all nets.
/// The gate is called for each task as a worker begins it.
pub fn checked_texts<R: Threads + Sync, G: Gate + Sync>(
    rt: &R,
    alloc: Global,
    asked: &Command<'_>,
    net_text: Vec<u8>,
    task_text: Vec<u8>,
    gate: &G,
) -> Result<Checked, Refusal>
    requires bounded { IsBounded asked.now }
    requires net { length net_text.items ≤ greatest }
    requires tasks { length task_text.items ≤ greatest }
    ensures { MatchResult result
        (λ checked. IsCheckOver asked.now.steps asked.now.cubes asked.now.wave asked.now.nodes
        net_text.items task_text.items checked.passes checked.text.items checked.nets)
        (λ found. OrMemory (IsFirstRefusal
        (check_stages asked.now.steps net_text.items task_text.items)) found) }
{
    let prepared = prepare(alloc, asked.steps, net_text, task_text)?;
    let each = task_steps(asked.steps, prepared.tasks.tasks.len());
    Ok(report_on(rt, alloc, asked, each as u32, &prepared, gate)?)
}

/// What a check writes on the texts of a netlist and of a task file: its report.
pub fn check<R: Threads + Sync, G: Gate + Sync>(
    rt: &R,
    alloc: Global,
    asked: &Command<'_>,
    net_text: Vec<u8>,
    task_text: Vec<u8>,
    gate: &G,
) -> Result<Written, Refusal>
    requires bounded { IsBounded asked.now }
    requires net { length net_text.items ≤ greatest }
    requires tasks { length task_text.items ≤ greatest }
    ensures { MatchResult result
        (λ written. IsCheck asked.now.steps asked.now.cubes asked.now.wave asked.now.nodes
        net_text.items task_text.items written.passes written.bytes)
        (λ found. OrMemory (IsFirstRefusal
        (check_stages asked.now.steps net_text.items task_text.items)) found) }
{
    let checked = checked_texts(rt, alloc, asked, net_text, task_text, gate)?;
    Ok(Written {
        bytes: checked.text.into(),
        passes: checked.passes,
    })
}
