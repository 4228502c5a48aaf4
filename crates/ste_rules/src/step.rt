//! What a step of a derivation claims, and how it is made of other steps; begin with `Step`.

ghost use Rattle.std.specs.Prelude.{◌≡◌, ◌++◌, map, IfOk, OnOk};
ghost use Rattle.ste_model.specs.Trees.{quint_tree};
ghost use Rattle.rule_model.specs.Claims.{claim_of};
ghost use Rattle.ste_rules.specs.Steps.{empty_claim, both_claim, cut_claim};
ghost use Rattle.ste_rules.specs.private.Held.{step_claim};

use bool_expr::copy_expr;
use std::alloc::{AllocError, Global};
use ste_base::Items;
use ste_model::{Assertion, Quint};

/// What a step claims: an assertion without a name and without weakenings.
#[derive(Drop)]
pub struct Step {
    pub reset: bool,
    pub ant: Items<Quint>,
    pub con: Items<Quint>,
}

/// The same quintuple again.
pub fn copy_quint(alloc: Global, quint: &Quint) -> Result<Quint, AllocError>
    ensures { IfOk result (λ copy. quint_tree copy ≡ quint_tree quint.now) }
{
    Ok(Quint {
        guard: copy_expr(alloc, &quint.guard)?,
        node: quint.node,
        value: copy_expr(alloc, &quint.value)?,
        from: quint.from,
        to: quint.to,
    })
}

/// Adds copies of quintuples behind others.
fn add_copies(alloc: Global, quints: &mut Items<Quint>, more: &[Quint]) -> Result<(), AllocError>
    ensures { OnOk result (map quint_tree quints.new
        ≡ map quint_tree quints.old ++ map quint_tree more.now) }
{
    for quint in more {
        quints.push(copy_quint(alloc, quint)?)?;
    }
    Ok(())
}

/// The same quintuples again.
pub fn copies_of(alloc: Global, quints: &[Quint]) -> Result<Items<Quint>, AllocError>
    ensures { IfOk result (λ copies. map quint_tree copies ≡ map quint_tree quints.now) }
{
    let mut copies = Items::new(alloc);
    add_copies(alloc, &mut copies, quints)?;
    Ok(copies)
}

/// The quintuples of two lists, one behind the other.
fn joined(alloc: Global, ones: &[Quint], others: &[Quint]) -> Result<Items<Quint>, AllocError>
    ensures { IfOk result (λ all. map quint_tree all
        ≡ map quint_tree ones.now ++ map quint_tree others.now) }
{
    let mut all = copies_of(alloc, ones)?;
    add_copies(alloc, &mut all, others)?;
    Ok(all)
}

/// The step that claims nothing.
pub fn empty_step(alloc: Global) -> Step
    ensures { step_claim result ≡ empty_claim }
{
    Step {
        reset: false,
        ant: Items::new(alloc),
        con: Items::new(alloc),
    }
}

/// The step that claims what a task does.
pub fn task_step(alloc: Global, task: &Assertion) -> Result<Step, AllocError>
    ensures { IfOk result (λ step. step_claim step ≡ claim_of task.now) }
{
    Ok(Step {
        reset: task.reset,
        ant: copies_of(alloc, task.ant.as_slice())?,
        con: copies_of(alloc, task.con.as_slice())?,
    })
}

/// The same step again.
pub fn same_step(alloc: Global, step: &Step) -> Result<Step, AllocError>
    ensures { IfOk result (λ copy. step_claim copy ≡ step_claim step.now) }
{
    Ok(Step {
        reset: step.reset,
        ant: copies_of(alloc, step.ant.as_slice())?,
        con: copies_of(alloc, step.con.as_slice())?,
    })
}

/// Two steps together.
pub fn both_step(alloc: Global, one: &Step, other: &Step) -> Result<Step, AllocError>
    ensures { IfOk result (λ step. step_claim step
        ≡ both_claim (step_claim one.now) (step_claim other.now)) }
{
    Ok(Step {
        reset: one.reset || other.reset,
        ant: joined(alloc, one.ant.as_slice(), other.ant.as_slice())?,
        con: joined(alloc, one.con.as_slice(), other.con.as_slice())?,
    })
}

/// The antecedent of a step with the consequent of another.
pub fn cut_step(alloc: Global, one: &Step, other: &Step) -> Result<Step, AllocError>
    ensures { IfOk result (λ step. step_claim step
        ≡ cut_claim (step_claim one.now) (step_claim other.now)) }
{
    Ok(Step {
        reset: one.reset || other.reset,
        ant: copies_of(alloc, one.ant.as_slice())?,
        con: copies_of(alloc, other.con.as_slice())?,
    })
}
