//! The text of a report; begin with `render`.

ghost use Rattle.std.specs.Prelude.{◌≡◌, ◌≤◌, ◌<◌, ◌++◌, All, IfOk, IfSome, Some, codes, flat_map, length, zip};
ghost use Rattle.report_text.specs.Text.{nodes_line, report_text, task_text, verdict_words};

use crate::cubes::put_guards;
use crate::failure::{put_fails, put_least, put_path};
use crate::pieces::put_number;
use crate::runs::put_run;
use net_names::NetNames;
use std::alloc::{AllocError, Global};
use ste_base::Name;
use ste_model::{Report, Task, Tasks, Verdict};

/// Puts the words of a verdict behind a text.
fn put_verdict(text: &mut Vec<u8>, verdict: Verdict) -> Result<(), AllocError>
    ensures { IfOk result (λ _. text.new.items ≡ text.old.items ++ verdict_words verdict) }
{
    match verdict {
        Verdict::Pass => text.extend_from_slice(b"pass"),
        Verdict::Weak => text.extend_from_slice(b"weak failure"),
        Verdict::Strong => text.extend_from_slice(b"strong failure"),
        Verdict::Vacuous => text.extend_from_slice(b"contradictory antecedent"),
        Verdict::Budget => text.extend_from_slice(b"budget"),
    }
}

/// Puts the line with the name and the verdict of a task behind a text.
fn put_head(text: &mut Vec<u8>, report: &Report) -> Result<(), AllocError>
    ensures { IfOk result (λ _. text.new.items ≡ text.old.items
        ++ (report.now.name ++ codes ": " ++ verdict_words report.now.verdict ++ codes "\n")) }
{
    text.extend_from_slice(report.name.bytes())?;
    text.extend_from_slice(b": ")?;
    put_verdict(text, report.verdict)?;
    text.push(b'\n')?;
    Ok(())
}

/// Puts the lines of a task behind a text.
fn put_task(
    alloc: Global,
    text: &mut Vec<u8>,
    names: &NetNames,
    vars: &[Name],
    wave: bool,
    task: &Task,
    report: &Report,
) -> Result<(), AllocError>
    requires fails { IfSome report.now.fails (λ place. place.0.0 < length names.now.own) }
    requires rows { IfSome report.now.run (λ run. length run.rows ≤ length names.now.own) }
    ensures { IfOk result (λ _. text.new.items ≡ text.old.items
        ++ task_text names.now.own vars.now wave (task.now, report.now)) }
{
    put_head(text, report)?;
    put_guards(text, vars, &report.guards)?;
    put_least(text, vars, &report.least)?;
    put_path(alloc, text, report.path.as_slice())?;
    put_fails(alloc, text, names, report.fails)?;
    put_run(alloc, text, names, wave, task, &report.run)?;
    Ok(())
}

/// Puts the lines of each task behind a text.
fn put_tasks(
    alloc: Global,
    text: &mut Vec<u8>,
    names: &NetNames,
    tasks: &Tasks,
    reports: &[Report],
    wave: bool,
) -> Result<(), AllocError>
    requires fails { All (λ report. IfSome report.fails
        (λ place. place.0.0 < length names.now.own)) reports.now }
    requires rows { All (λ report. IfSome report.run
        (λ run. length run.rows ≤ length names.now.own)) reports.now }
    ensures { IfOk result (λ _. text.new.items ≡ text.old.items
        ++ flat_map (task_text names.now.own tasks.now.vars wave)
        (zip tasks.now.tasks reports.now)) }
{
    let vars = tasks.vars.as_slice();
    for (place, report) in reports.iter().enumerate() {
        if let Some(task) = tasks.tasks.as_slice().get(place) {
            put_task(alloc, text, names, vars, wave, task, report)?;
        }
    }
    Ok(())
}

/// Puts the line of a number of shared nodes behind a text.
fn put_count(alloc: Global, text: &mut Vec<u8>, nodes: u32) -> Result<(), AllocError>
    ensures { IfOk result (λ _. text.new.items ≡ text.old.items ++ nodes_line (Some nodes)) }
{
    text.extend_from_slice(b"shared nodes: ")?;
    put_number(alloc, text, nodes)?;
    text.push(b'\n')?;
    Ok(())
}

/// Puts the line of the number of shared nodes behind a text, where it is asked for.
fn put_nodes(alloc: Global, text: &mut Vec<u8>, nodes: Option<u32>) -> Result<(), AllocError>
    ensures { IfOk result (λ _. text.new.items ≡ text.old.items ++ nodes_line nodes) }
{
    match nodes {
        Some(count) => put_count(alloc, text, count),
        None => Ok(()),
    }
}

/// The text of the reports of tasks, one for each task in order, over nets with these names. A run
/// shows the nets that its task names, with `wave` all nets. `nodes` is the number of shared nodes,
/// where it is asked for.
///
/// The time is linear in the text, in the tasks, and in the cells of the runs.
pub fn render(
    alloc: Global,
    names: &NetNames,
    tasks: &Tasks,
    reports: &[Report],
    wave: bool,
    nodes: Option<u32>,
) -> Result<Vec<u8>, AllocError>
    requires fails { All (λ report. IfSome report.fails
        (λ place. place.0.0 < length names.now.own)) reports.now }
    requires rows { All (λ report. IfSome report.run
        (λ run. length run.rows ≤ length names.now.own)) reports.now }
    ensures { IfOk result (λ text. text.items
        ≡ report_text names.now.own tasks.now.vars wave nodes tasks.now.tasks reports.now) }
{
    let mut text = Vec::new(alloc);
    put_tasks(alloc, &mut text, names, tasks, reports, wave)?;
    put_nodes(alloc, &mut text, nodes)?;
    Ok(text)
}
