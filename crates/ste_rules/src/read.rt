//! From lines to a derivation; begin with `read_proof`.

ghost use Rattle.std.specs.Prelude.{◌≡◌, ◌<◌, ◌^◌, length};
ghost use Rattle.assert_syntax.specs.Parses.{Parse, IsParse};
ghost use Rattle.net_names.specs.Names.{named_by};
ghost use Rattle.std.specs.Prelude.{Ok};
ghost use Rattle.ste_rules.specs.Answer.{IsAnswerOf, IsProofAnswer};
ghost use Rattle.ste_rules.specs.Forms.{step_entries_of};
ghost use Rattle.ste_rules.specs.Steps.{no_steps, turn};
ghost use Rattle.ste_rules.specs.private.Held.{IsFormed, step_form_held, steps_held};
ghost use Rattle.ste_rules.specs.private.Turns.{AreAligned, IsTurn};

use crate::fault::ProofFault;
use crate::form::Form;
use crate::forms::form_of;
use crate::given::read_given;
use crate::proof::Proof;
use crate::rules::{
    read_both, read_cut, read_identity, read_leaf, read_shift, read_special, read_stronger,
    read_weaker,
};
use crate::step::Step;
use crate::steps::Steps;
use blif_lines::Line;
use bool_expr::Variables;
use net_names::NetNames;
use std::alloc::Global;
use std::mem::replace;
use ste_base::Items;
use ste_model::{Assertion, Tasks};

/// Reads a line of this form.
fn line_read(
    alloc: Global,
    steps: &mut Steps,
    tasks: &Tasks,
    names: &NetNames,
    vars: &Variables,
    line: u32,
    form: &Form,
) -> Result<(), ProofFault>
    requires vars { vars.now ≡ tasks.now.vars }
    requires few_vars { length vars.now < 2 ^ 32 }
    requires few_tasks { length tasks.now.tasks < 2 ^ 32 }
    requires formed { IsFormed form.now }
    ensures { (parse : Parse) → IsParse parse →
        IsTurn line (turn parse (named_by names.now) tasks.now (steps_held steps.old)
        (step_form_held form.now)) (steps_held steps.new) result }
{
    match form {
        Form::Leaf(name, task) => {
            read_leaf(alloc, steps, line, tasks.tasks.as_slice(), name, task)
        }
        Form::Identity(name) => read_identity(alloc, steps, line, name),
        Form::Both(name, one, other) => read_both(alloc, steps, line, name, one, other),
        Form::Shift(name, one, number) => read_shift(alloc, steps, line, name, one, number),
        Form::Specialise(name, one, variable, words) => {
            read_special(alloc, steps, line, vars, name, one, variable, words)
        }
        Form::Stronger(name, one) => read_stronger(alloc, steps, line, name, one),
        Form::Weaker(name, one, numbers) => read_weaker(alloc, steps, line, name, one, numbers),
        Form::Cut(name, one, other) => read_cut(alloc, steps, line, name, one, other),
        Form::Given(clause) => read_given(alloc, steps, line, vars, names, clause),
        Form::Wrong => Err(ProofFault::BadLine { line }),
    }
}

/// The derivation that steps come to.
fn proof_of(alloc: Global, steps: &mut Steps) -> Result<Proof, ProofFault>
    ensures { AreAligned (steps_held steps.old) →
        IsAnswerOf (Ok (steps_held steps.old)) result }
{
    let Some(step) = steps.claims.pop() else {
        return Err(ProofFault::NoStep);
    };
    let name = match steps.names.last() {
        Some(name) => name,
        None => return Err(ProofFault::NoStep),
    };
    let Step { reset, ant, con } = step;
    let last = Assertion {
        name: name.clone()?,
        reset,
        ant,
        con,
        weak: Items::new(alloc),
    };
    let leaves = replace(&mut steps.leaves, Items::new(alloc));
    Ok(Proof { last, leaves })
}

/// The derivation of lines, from where no step is read.
fn proof_from(
    alloc: Global,
    steps: &mut Steps,
    lines: &[Line],
    tasks: &Tasks,
    names: &NetNames,
    vars: &Variables,
) -> Result<Proof, ProofFault>
    requires vars { vars.now ≡ tasks.now.vars }
    requires few_vars { length vars.now < 2 ^ 32 }
    requires few_tasks { length tasks.now.tasks < 2 ^ 32 }
    requires none { steps_held steps.old ≡ no_steps }
    ensures { (parse : Parse) → IsParse parse →
        IsProofAnswer parse (named_by names.now) tasks.now (step_entries_of lines.now) result }
{
    for line in lines {
        let form = form_of(line.words.as_slice());
        match line_read(alloc, steps, tasks, names, vars, line.number, &form) {
            Ok(()) => {}
            Err(fault) => return Err(fault),
        }
    }
    proof_of(alloc, steps)
}

/// The derivation of lines.
fn proof_read(
    alloc: Global,
    lines: &[Line],
    tasks: &Tasks,
    names: &NetNames,
) -> Result<Proof, ProofFault>
    requires few_vars { length tasks.now.vars < 2 ^ 32 }
    requires few_tasks { length tasks.now.tasks < 2 ^ 32 }
    ensures { (parse : Parse) → IsParse parse →
        IsProofAnswer parse (named_by names.now) tasks.now (step_entries_of lines.now) result }
{
    let vars = Variables::of(alloc, tasks.vars.as_slice())?;
    let mut steps = Steps::new(alloc);
    proof_from(alloc, &mut steps, lines, tasks, names, &vars)
}

/// Reads the derivation that lines give, over tasks and with the names of nets for nodes. The errors
/// come by the first line that has a fault, and each has that line's number; where a line has
/// several, the first of these:
///
/// - `BadLine` where the line has none of the forms, stands where it may not, has a text for an
///   expression that is none, or numbers that do not rise.
/// - `TooDeep` where an expression is nested above 100.
/// - `DoubleName` where the step's name was given before.
/// - `UnknownName` where a step or a task is named that is not there, with the first such name; a
///   graph is none.
/// - `UnknownVar` where a variable is not declared, with the first such.
/// - `UnknownNode` where a node names no net.
/// - `HasReset` where a step with `reset` is moved.
/// - `BadNumber` where there is no consequent of some number.
/// - `NotCovered` where an antecedent of the second step of a cut is covered by no quintuple of the
///   first.
/// - `TooMany` where with this line there are more than 1,000 steps, or its step has a time above
///   100,000, more than 20,000 items, or an expression of more than 1,000 levels.
///
/// `NoStep` comes where no line has a fault and there is none. `OutOfMemory` may come at any lines.
/// The depth of calls is at most the levels of an expression, 1,000.
#[tactic(auto, using(crate::proofs::Lines::caused))]
pub fn read_proof(
    alloc: Global,
    lines: &[Line],
    tasks: &Tasks,
    names: &NetNames,
) -> Result<Proof, ProofFault>
    requires few_vars { length tasks.now.vars < 2 ^ 32 }
    requires few_tasks { length tasks.now.tasks < 2 ^ 32 }
    ensures exact { (parse : Parse) → IsParse parse →
        IsProofAnswer parse (named_by names.now) tasks.now (step_entries_of lines.now) result }
    ensures cause { (parse : Parse) × IsParse parse
        × IsProofAnswer parse (named_by names.now) tasks.now (step_entries_of lines.now) result }
{
    proof_read(alloc, lines, tasks, names)
}
