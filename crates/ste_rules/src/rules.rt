//! The lines that give a step by a rule; begin with `read_leaf`.

ghost use Rattle.std.specs.Prelude.{◌≡◌, ◌<◌, ◌^◌, ℕ, List, Option, map, IfOk, IfErr, Ok, length, true, bytes_eq};
ghost use Rattle.std.specs.List.{list_all};
ghost use Rattle.ste_base.specs.Number.{number_of};
ghost use Rattle.blif_lines.specs.Laws.{text_of_words};
ghost use Rattle.bool_expr.specs.Grammar.{Expression};
ghost use Rattle.bool_expr.specs.Read.{number_in};
ghost use Rattle.assert_syntax.specs.Parses.{Parse, IsParse};
ghost use Rattle.assert_syntax.specs.Reads.{IsRead};
ghost use Rattle.assert_syntax.specs.Words.{is_number};
ghost use Rattle.ste_model.specs.declared.task.Tasks.{Tasks};
ghost use Rattle.rule_model.specs.Claims.{claim_of};
ghost use Rattle.ste_rules.specs.Forms as form;
ghost use Rattle.std.specs.Prelude.{position, IfSome};
ghost use Rattle.ste_rules.specs.Steps.{is_assertion_of, leaf_named, specialised, turn, variable_named};
ghost use Rattle.ste_rules.specs.private.Held.{steps_held};
ghost use Rattle.ste_rules.specs.private.Turns.{IsExpressionRead, IsTold, IsTurn};

use crate::covers::is_cut;
use crate::fault::ProofFault;
use crate::form::Growth;
use crate::moved::{amount_of, later_step, weaker_step};
use crate::special::{special_fits, special_step};
use crate::step::{both_step, cut_step, empty_step, same_step, task_step};
use crate::steps::Steps;
use assert_syntax::exprs::words_read;
use bool_expr::{Expr, ExprFault, Variables};
use std::alloc::Global;
use ste_base::Name;
use ste_model::{Assertion, Task};

/// Whether a task is an assertion of this name.
fn is_assertion_of(name: &Name, task: &Task) -> bool
    ensures { result ≡ is_assertion_of name.now task.now }
{
    match task {
        Task::Ste(task) => *name == task.name,
        Task::Gste(_) => false,
    }
}

/// The number of the first assertion of this name.
fn assertion_place(tasks: &[Task], name: &Name) -> Option<usize>
    ensures place { result ≡ position (is_assertion_of name.now) tasks.now }
    ensures within { IfSome result (λ place. place < length tasks.now) }
{
    tasks.iter().position(|task| is_assertion_of(name, task))
}

/// The assertion of a name, with the number of its task.
fn leaf_named<'a>(
    line: u32,
    tasks: &'a [Task],
    name: &Name,
) -> Result<(u32, &'a Assertion), ProofFault>
    requires few { length tasks.now < 2 ^ 32 }
    ensures ok { IfOk result (λ found. leaf_named tasks.now name.now
        ≡ Ok (found.0, claim_of found.1.now)) }
    ensures err { IfErr result (λ fault. IsTold line (leaf_named tasks.now name.now) fault) }
{
    if let Some(place) = assertion_place(tasks, name)
        && let Some(Task::Ste(task)) = tasks.get(place)
    {
        return Ok((place as u32, task));
    }
    Err(ProofFault::UnknownName {
        line,
        name: name.clone()?,
    })
}

/// Reads a line that takes a task as a step.
pub fn read_leaf(
    alloc: Global,
    steps: &mut Steps,
    line: u32,
    tasks: &[Task],
    name: &Name,
    task: &Name,
) -> Result<(), ProofFault>
    requires few { length tasks.now < 2 ^ 32 }
    ensures { (parse : Parse) (net_of : List ℕ → Option ℕ) (all : Tasks) → all.tasks ≡ tasks.now →
        IsTurn line (turn parse net_of all (steps_held steps.old) (form.leaf name.now task.now))
        (steps_held steps.new) result }
{
    if let Err(fault) = steps.fresh(line, name) {
        return Err(fault);
    }
    let (number, task) = match leaf_named(line, tasks, task) {
        Ok(found) => found,
        Err(fault) => return Err(fault),
    };
    let step = task_step(alloc, task)?;
    if let Err(fault) = steps.begin(line, name, step, Growth::Closed) {
        return Err(fault);
    }
    steps.leaves.push(number)?;
    Ok(())
}

/// Reads a line that begins a step with what the following lines give.
pub fn read_identity(
    alloc: Global,
    steps: &mut Steps,
    line: u32,
    name: &Name,
) -> Result<(), ProofFault>
    ensures { (parse : Parse) (net_of : List ℕ → Option ℕ) (tasks : Tasks) →
        IsTurn line (turn parse net_of tasks (steps_held steps.old) (form.identity name.now))
        (steps_held steps.new) result }
{
    match steps.fresh(line, name) {
        Ok(()) => steps.begin(line, name, empty_step(alloc), Growth::Both),
        Err(fault) => Err(fault),
    }
}

/// Reads a line that puts two steps together.
pub fn read_both(
    alloc: Global,
    steps: &mut Steps,
    line: u32,
    name: &Name,
    one: &Name,
    other: &Name,
) -> Result<(), ProofFault>
    ensures { (parse : Parse) (net_of : List ℕ → Option ℕ) (tasks : Tasks) →
        IsTurn line (turn parse net_of tasks (steps_held steps.old)
        (form.both name.now one.now other.now)) (steps_held steps.new) result }
{
    let (first, second) = match steps.two_named(line, name, one, other) {
        Ok(both) => both,
        Err(fault) => return Err(fault),
    };
    let step = both_step(alloc, first, second)?;
    steps.begin(line, name, step, Growth::Closed)
}

/// Reads a line that moves a step to later times.
pub fn read_shift(
    alloc: Global,
    steps: &mut Steps,
    line: u32,
    name: &Name,
    one: &Name,
    number: &Name,
) -> Result<(), ProofFault>
    requires { is_number number.now ≡ true }
    ensures { (parse : Parse) (net_of : List ℕ → Option ℕ) (tasks : Tasks) →
        IsTurn line (turn parse net_of tasks (steps_held steps.old)
        (form.shift name.now one.now (number_of number.now))) (steps_held steps.new) result }
{
    let step = match steps.one_named(line, name, one) {
        Ok(step) => step,
        Err(fault) => return Err(fault),
    };
    let has_reset = step.reset;
    if has_reset {
        return Err(ProofFault::HasReset { line });
    }
    let made = later_step(alloc, step, amount_of(number.bytes()))?;
    match made {
        Some(step) => steps.begin(line, name, step, Growth::Closed),
        None => Err(ProofFault::TooMany { line }),
    }
}

/// The number of a variable.
fn variable_named(line: u32, vars: &[Name], name: &Name) -> Result<u32, ProofFault>
    requires few { length vars.now < 2 ^ 32 }
    ensures ok { IfOk result (λ x. variable_named vars.now name.now ≡ Ok x) }
    ensures err { IfErr result (λ fault. IsTold line (variable_named vars.now name.now) fault) }
{
    match variable_place(vars, name) {
        Some(place) => Ok(place as u32),
        None => Err(ProofFault::UnknownVar {
            line,
            name: name.clone()?,
        }),
    }
}

/// The number of a variable, where it is declared.
fn variable_place(vars: &[Name], name: &Name) -> Option<usize>
    ensures number { result ≡ number_in vars.now name.now }
    ensures within { IfSome result (λ place. place < length vars.now) }
{
    name_place(vars, name)
}

/// The first place of a name among others.
fn name_place(vars: &[Name], name: &Name) -> Option<usize>
    ensures place { result ≡ position (λ other. bytes_eq other name.now) vars.now }
    ensures within { IfSome result (λ place. place < length vars.now) }
{
    vars.iter().position(|other| *other == *name)
}

/// An expression that was read, or the first variable of it that is not declared, where its text
/// spells one that is not nested too deep.
fn expression_read(
    line: u32,
    read: Result<Expr, ExprFault>,
) -> Result<Result<Expr, Name>, ProofFault>
    ensures { (vars : List (List ℕ)) (found : Option Expression) → IsRead vars found read →
        IsExpressionRead vars found line result }
{
    match read {
        Ok(expr) => Ok(Ok(expr)),
        Err(ExprFault::UnknownVar { name }) => Ok(Err(name)),
        Err(ExprFault::BadExpr) => Err(ProofFault::BadLine { line }),
        Err(ExprFault::TooDeep) => Err(ProofFault::TooDeep { line }),
        Err(ExprFault::OutOfMemory) => Err(ProofFault::OutOfMemory),
    }
}

/// Reads a line that puts an expression for a variable.
pub fn read_special(
    alloc: Global,
    steps: &mut Steps,
    line: u32,
    vars: &Variables,
    name: &Name,
    one: &Name,
    variable: &Name,
    words: &[Name],
) -> Result<(), ProofFault>
    requires few { length vars.now < 2 ^ 32 }
    ensures { (parse : Parse) → IsParse parse → IsTurn line
        (specialised parse vars.now (steps_held steps.old) name.now one.now variable.now
        (text_of_words words.now)) (steps_held steps.new) result }
{
    let read = match expression_read(line, words_read(alloc, words, vars)) {
        Ok(read) => read,
        Err(fault) => return Err(fault),
    };
    let step = match steps.one_named(line, name, one) {
        Ok(step) => step,
        Err(fault) => return Err(fault),
    };
    let x = match variable_named(line, vars.names(), variable) {
        Ok(x) => x,
        Err(fault) => return Err(fault),
    };
    let by = match read {
        Ok(by) => by,
        Err(name) => return Err(ProofFault::UnknownVar { line, name }),
    };
    if !special_fits(step, x, &by) {
        return Err(ProofFault::TooMany { line });
    }
    let step = special_step(alloc, step, x, &by)?;
    steps.begin(line, name, step, Growth::Closed)
}

/// Reads a line that begins a step with a longer antecedent.
pub fn read_stronger(
    alloc: Global,
    steps: &mut Steps,
    line: u32,
    name: &Name,
    one: &Name,
) -> Result<(), ProofFault>
    ensures { (parse : Parse) (net_of : List ℕ → Option ℕ) (tasks : Tasks) →
        IsTurn line (turn parse net_of tasks (steps_held steps.old)
        (form.stronger name.now one.now)) (steps_held steps.new) result }
{
    let step = match steps.one_named(line, name, one) {
        Ok(step) => step,
        Err(fault) => return Err(fault),
    };
    let step = same_step(alloc, step)?;
    steps.begin(line, name, step, Growth::Antecedent)
}

/// Reads a line that takes some consequents of a step.
pub fn read_weaker(
    alloc: Global,
    steps: &mut Steps,
    line: u32,
    name: &Name,
    one: &Name,
    numbers: &[Name],
) -> Result<(), ProofFault>
    requires { list_all is_number numbers.now ≡ true }
    ensures { (parse : Parse) (net_of : List ℕ → Option ℕ) (tasks : Tasks) →
        IsTurn line (turn parse net_of tasks (steps_held steps.old)
        (form.weaker name.now one.now (map number_of numbers.now))) (steps_held steps.new) result }
{
    let step = match steps.one_named(line, name, one) {
        Ok(step) => step,
        Err(fault) => return Err(fault),
    };
    let made = weaker_step(alloc, step, numbers)?;
    match made {
        Some(step) => steps.begin(line, name, step, Growth::Closed),
        None => Err(ProofFault::BadNumber { line }),
    }
}

/// Reads a line that takes the antecedent of a step with the consequent of another.
pub fn read_cut(
    alloc: Global,
    steps: &mut Steps,
    line: u32,
    name: &Name,
    one: &Name,
    other: &Name,
) -> Result<(), ProofFault>
    ensures { (parse : Parse) (net_of : List ℕ → Option ℕ) (tasks : Tasks) →
        IsTurn line (turn parse net_of tasks (steps_held steps.old)
        (form.cut name.now one.now other.now)) (steps_held steps.new) result }
{
    let (first, second) = match steps.two_named(line, name, one, other) {
        Ok(both) => both,
        Err(fault) => return Err(fault),
    };
    if !is_cut(first, second) {
        return Err(ProofFault::NotCovered { line });
    }
    let step = cut_step(alloc, first, second)?;
    steps.begin(line, name, step, Growth::Closed)
}
