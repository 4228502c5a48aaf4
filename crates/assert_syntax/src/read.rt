//! From lines to tasks; begin with `read_tasks`.

ghost use Rattle.std.specs.Prelude.{◌≡◌, []};
ghost use Rattle.assert_syntax.specs.Forms as form;
ghost use Rattle.assert_syntax.specs.Answer.{IsTasksAnswer, task_entries_of};
ghost use Rattle.assert_syntax.specs.Parses.{Parse, IsParse};
ghost use Rattle.assert_syntax.specs.Places.{Context, context_of};
ghost use Rattle.assert_syntax.specs.declared.draft.OpenTask.TheVariants as task;
ghost use Rattle.assert_syntax.specs.private.Drafts.{context_held, HasRoom};
ghost use Rattle.assert_syntax.specs.Held.{clause_held, form_held};
ghost use Rattle.assert_syntax.specs.private.Steps.{IsStep};

use crate::draft::{Draft, OpenTask, clause_added, edge_added, tasks_closed, weak_added};
use crate::exprs::exprs_of;
use crate::fault::TaskFault;
use crate::form::{Clause, Form, Span};
use crate::forms::form_of;
use crate::known::Known;
use crate::position::{Position, may_stand};
use crate::tasks::RawTasks;
use blif_lines::Line;
use std::alloc::Global;
use std::mem::replace;
use ste_base::{Items, Name, copies};

/// Reads a line that starts an assertion.
fn assertion_read(
    alloc: Global,
    known: &mut Known,
    draft: &mut Draft,
    line: u32,
    name: &Name,
    reset: bool,
) -> Result<(), TaskFault>
    ensures { (parse : Parse) → IsParse parse → IsStep parse (context_held known.old)
        (context_held known.new) draft.old draft.new
        (record { line = line; form = form.ste name.now reset }) result }
{
    known.start_assertion(line, name, reset)?;
    let next = OpenTask::Ste {
        head: line,
        name: name.clone()?,
        reset,
        ant: Items::new(alloc),
        con: Items::new(alloc),
        weak: Items::new(alloc),
    };
    let task = replace(&mut draft.task, next);
    tasks_closed(alloc, &mut draft.tasks, task, known.vertices.as_slice())?;
    Ok(())
}

/// Reads a line that starts a graph.
fn graph_read(
    alloc: Global,
    known: &mut Known,
    draft: &mut Draft,
    line: u32,
    name: &Name,
    vertex: &Name,
    reset: bool,
) -> Result<(), TaskFault>
    ensures { (parse : Parse) → IsParse parse → IsStep parse (context_held known.old)
        (context_held known.new) draft.old draft.new
        (record { line = line; form = form.gste name.now vertex.now reset }) result }
{
    let task = replace(&mut draft.task, OpenTask::Closed);
    tasks_closed(alloc, &mut draft.tasks, task, known.vertices.as_slice())?;
    known.start_graph(alloc, line, name, vertex, reset)?;
    draft.task = OpenTask::Gste {
        head: line,
        name: name.clone()?,
        reset,
        edges: Items::new(alloc),
        edge: None,
    };
    Ok(())
}

/// Reads a line that starts an edge.
fn edge_read(
    alloc: Global,
    known: &mut Known,
    draft: &mut Draft,
    line: u32,
    from: &Name,
    to: &Name,
) -> Result<(), TaskFault>
    requires room { HasRoom (context_held known.old) }
    ensures { (parse : Parse) → IsParse parse → IsStep parse (context_held known.old)
        (context_held known.new) draft.old draft.new
        (record { line = line; form = form.edge from.now to.now }) result }
{
    let (from, to) = known.start_edge(line, from.clone()?, to.clone()?)?;
    edge_added(alloc, &mut draft.task, line, from, to)?;
    Ok(())
}

/// Reads a clause.
fn clause_read(
    alloc: Global,
    known: &Known,
    draft: &mut Draft,
    line: u32,
    clause: &Clause,
) -> Result<(), TaskFault>
    requires room { HasRoom (context_held known.now) }
    ensures { (parse : Parse) → IsParse parse → IsStep parse (context_held known.now)
        (context_held known.now) draft.old draft.new
        (record { line = line; form = form.clause (clause_held clause.now) }) result }
{
    let (value, guard) = exprs_of(alloc, line, &known.vars, clause)?;
    clause_added(&mut draft.task, line, clause, value, guard)?;
    Ok(())
}

/// Reads a weakening.
fn weak_read(draft: &mut Draft, line: u32, node: &Name, times: Span) -> Result<(), TaskFault>
    ensures { (parse : Parse) (context : Context) → IsStep parse context context
        draft.old draft.new (record { line = line; form = form.weak node.now times }) result }
{
    match times {
        Span::Late => Err(TaskFault::TooMany { line }),
        _ => {
            weak_added(&mut draft.task, line, node, times)?;
            Ok(())
        }
    }
}

/// Reads a line that may stand where it does.
fn line_read(
    alloc: Global,
    known: &mut Known,
    draft: &mut Draft,
    line: u32,
    form: &Form,
) -> Result<(), TaskFault>
    requires room { HasRoom (context_held known.old) }
    ensures { (parse : Parse) → IsParse parse → IsStep parse (context_held known.old)
        (context_held known.new) draft.old draft.new
        (record { line = line; form = form_held form.now }) result }
{
    match form {
        Form::Vars(names) => {
            known.declare(line, names)?;
            Ok(())
        }
        Form::Ste(name, reset) => assertion_read(alloc, known, draft, line, name, *reset),
        Form::Gste(name, vertex, reset) => {
            graph_read(alloc, known, draft, line, name, vertex, *reset)
        }
        Form::Edge(from, to) => edge_read(alloc, known, draft, line, from, to),
        Form::Clause(clause) => clause_read(alloc, known, draft, line, clause),
        Form::Weak(node, times) => weak_read(draft, line, node, *times),
        Form::End => {
            known.position = Position::Ended;
            Ok(())
        }
        Form::Wrong => Ok(()),
    }
}

/// The tasks that lines spell, or the fault of the first faulty line, from where nothing is known
/// and no task is read.
fn tasks_from(
    alloc: Global,
    known: &mut Known,
    draft: &mut Draft,
    lines: &[Line],
) -> Result<RawTasks, TaskFault>
    requires known { context_held known.old ≡ context_of [] }
    requires tasks { draft.old.tasks ≡ [] }
    requires task { draft.old.task ≡ task.Closed }
    ensures { (parse : Parse) → IsParse parse →
        IsTasksAnswer parse (task_entries_of lines.now) result }
{
    for line in lines {
        let form = form_of(line.words.as_slice());
        if !may_stand(&form, known.position) {
            return Err(TaskFault::BadLine { line: line.number });
        }
        match line_read(alloc, known, draft, line.number, &form) {
            Ok(()) => {}
            Err(fault) => return Err(fault),
        }
    }
    let task = replace(&mut draft.task, OpenTask::Closed);
    tasks_closed(alloc, &mut draft.tasks, task, known.vertices.as_slice())?;
    if draft.tasks.len() == 0 {
        return Err(TaskFault::NoTask);
    }
    let vars = copies(alloc, known.vars.names())?;
    let tasks = replace(&mut draft.tasks, Items::new(alloc));
    Ok(RawTasks { vars, tasks })
}

/// The tasks that lines spell, or the fault of the first faulty line.
fn tasks_read(alloc: Global, lines: &[Line]) -> Result<RawTasks, TaskFault>
    ensures { (parse : Parse) → IsParse parse →
        IsTasksAnswer parse (task_entries_of lines.now) result }
{
    let mut known = Known::new(alloc);
    let mut draft = Draft {
        tasks: Items::new(alloc),
        task: OpenTask::Closed,
    };
    tasks_from(alloc, &mut known, &mut draft, lines)
}

/// Reads the tasks that a task file's lines spell. The errors come by the first line that has a
/// fault, and each has that line's number; where a line has several, the first of these:
///
/// - `BadLine` where the line has none of the forms, stands where it may not, or the text of an
///   expression is none.
/// - `TooDeep` where an expression is nested above 100.
/// - `DoubleName` where a variable is declared or a task is named a second time, with the first
///   such name.
/// - `UnknownVar` where an expression uses a variable that is not declared, with the first such in
///   the line.
/// - `TooMany` where with this line there are more than 4,000 variables, 256 tasks, or 1,000
///   vertices or 10,000 edges of a graph, or where a time is above 100,000.
///
/// `NoTask` comes where no line has a fault and none starts a task. `OutOfMemory` may come at any
/// lines. No call depth grows with the lines.
#[tactic(auto, using(crate::proofs::Turn::caused))]
pub fn read_tasks(alloc: Global, lines: &[Line]) -> Result<RawTasks, TaskFault>
    ensures exact { (parse : Parse) → IsParse parse →
        IsTasksAnswer parse (task_entries_of lines.now) result }
    ensures cause { (parse : Parse) × IsParse parse
        × IsTasksAnswer parse (task_entries_of lines.now) result }
{
    tasks_read(alloc, lines)
}
