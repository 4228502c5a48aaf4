//! The lines that add to a step; begin with `read_given`.

ghost use Rattle.std.specs.Prelude.{◌≡◌, ◌<◌, ◌^◌, ◌++◌, ◌∷◌, [], ℕ, List, Option, length, map, IfOk, IfErr, Ok};
ghost use Rattle.assert_syntax.specs.Held.{clause_held};
ghost use Rattle.assert_syntax.specs.Parses.{Parse, IsParse};
ghost use Rattle.assert_syntax.specs.Reads.{IsFault};
ghost use Rattle.assert_syntax.specs.Spelled.{from_of, to_of};
ghost use Rattle.assert_syntax.specs.declared.form.LineFault.{LineFault};
ghost use Rattle.net_names.specs.Names.{named_by};
ghost use Rattle.ste_model.specs.Trees.{quint_tree};
ghost use Rattle.std.specs.Prelude.{OnOk};
ghost use Rattle.bool_expr.specs.Tree.{tree_of};
ghost use Rattle.assert_syntax.specs.Parses.{tree_over};
ghost use Rattle.assert_syntax.specs.Places.{clause_fault};
ghost use Rattle.assert_syntax.specs.declared.form.Span.TheVariants.{Absent};
ghost use Rattle.ste_rules.specs.Steps.{clause_told, grown, grown_claim, last_grown, is_in_time, may_grow, some_or, unresolved};
ghost use Rattle.ste_rules.specs.private.Held.{step_claim, steps_held};
ghost use Rattle.ste_rules.specs.private.Turns.{IsTold, IsTurn};

use crate::fault::ProofFault;
use crate::form::Growth;
use crate::sizes::step_fits;
use crate::step::{Step, copy_quint};
use crate::steps::Steps;
use assert_syntax::TaskFault;
use assert_syntax::exprs::exprs_of;
use assert_syntax::form::{Clause, Span};
use bool_expr::{Expr, Variables};
use net_names::NetNames;
use std::alloc::{AllocError, Global};
use ste_base::{Name, NodeId, Time};
use ste_model::Quint;

/// The fault of a derivation that a fault of a clause is.
fn clause_told(fault: TaskFault) -> ProofFault
    ensures { (line : ℕ) (flaw : Option LineFault) → IsFault line flaw fault →
        IsTold line (clause_told flaw) result }
{
    match fault {
        TaskFault::BadLine { line } => ProofFault::BadLine { line },
        TaskFault::TooDeep { line } => ProofFault::TooDeep { line },
        TaskFault::DoubleName { line, name } => ProofFault::DoubleName { line, name },
        TaskFault::UnknownVar { line, name } => ProofFault::UnknownVar { line, name },
        TaskFault::TooMany { line } => ProofFault::TooMany { line },
        TaskFault::NoTask => ProofFault::NoStep,
        TaskFault::OutOfMemory => ProofFault::OutOfMemory,
    }
}

/// The two times of a clause; without times both are 0.
fn times_of(span: Span) -> (Time, Time)
    ensures from { result.0 ≡ from_of span }
    ensures to { result.1 ≡ to_of span }
{
    match span {
        Span::During(from, to) => (from, to),
        _ => (0, 0),
    }
}

/// The expressions of a clause, whatever its times are.
fn exprs_given(
    alloc: Global,
    line: u32,
    vars: &Variables,
    clause: &Clause,
) -> Result<(Expr, Expr), ProofFault>
    requires few { length vars.now < 2 ^ 32 }
    ensures ok { IfOk result (λ both. (parse : Parse) → IsParse parse →
        (clause_told (clause_fault vars.now (parse (clause_held clause.now).value)
        (parse (clause_held clause.now).guard) Absent) ≡ Ok tt)
        × (tree_of both.0 ≡ tree_over vars.now (parse (clause_held clause.now).value))
        × (tree_of both.1 ≡ tree_over vars.now (parse (clause_held clause.now).guard))) }
    ensures err { IfErr result (λ fault. (parse : Parse) → IsParse parse →
        IsTold line (clause_told (clause_fault vars.now
        (parse (clause_held clause.now).value) (parse (clause_held clause.now).guard) Absent))
        fault) }
{
    let untimed = Clause {
        span: Span::Absent,
        ..*clause
    };
    match exprs_of(alloc, line, vars, &untimed) {
        Ok(both) => Ok(both),
        Err(fault) => Err(clause_told(fault)),
    }
}

/// The net of a node.
fn net_given(line: u32, names: &NetNames, node: &Name) -> Result<NodeId, ProofFault>
    ensures ok { IfOk result (λ net. some_or (unresolved node.now) (named_by names.now node.now)
        ≡ Ok net.0) }
    ensures err { IfErr result (λ fault.
        IsTold line (some_or (unresolved node.now) (named_by names.now node.now)) fault) }
{
    match names.resolve(node.bytes()) {
        Some(net) => Ok(net),
        None => Err(ProofFault::UnknownNode {
            line,
            name: node.clone()?,
        }),
    }
}

/// Adds a quintuple to a step.
fn grow_step(
    alloc: Global,
    growth: Growth,
    line: u32,
    step: &mut Step,
    quint: Quint,
) -> Result<(), ProofFault>
    ensures ok { OnOk result (grown_claim growth (quint_tree quint) (step_claim step.old)
        ≡ Ok (step_claim step.new)) }
    ensures err { IfErr result (λ fault.
        IsTold line (grown_claim growth (quint_tree quint) (step_claim step.old)) fault) }
{
    match growth {
        Growth::Closed => return Err(ProofFault::BadLine { line }),
        Growth::Antecedent => step.ant.push(quint)?,
        Growth::Both => {
            step.con.push(copy_quint(alloc, &quint)?)?;
            step.ant.push(quint)?;
        }
    }
    Ok(())
}

/// Adds a quintuple to the last step.
fn grow_last(alloc: Global, steps: &mut Steps, line: u32, quint: Quint) -> Result<(), ProofFault>
    ensures names { OnOk result (steps.new.names.keys ≡ steps.old.names.keys) }
    ensures leaves { OnOk result (steps.new.leaves ≡ steps.old.leaves) }
    ensures growth { OnOk result (steps.new.growth ≡ steps.old.growth) }
    ensures ok { OnOk result (last_grown steps.old.growth (quint_tree quint)
        (map step_claim steps.old.claims.items) ≡ Ok (map step_claim steps.new.claims.items)) }
    ensures err { IfErr result (λ fault. IsTold line (last_grown steps.old.growth
        (quint_tree quint) (map step_claim steps.old.claims.items)) fault) }
{
    let Some(mut step) = steps.claims.pop() else {
        return Err(ProofFault::BadLine { line });
    };
    if let Err(fault) = grow_step(alloc, steps.growth, line, &mut step, quint) {
        return Err(fault);
    }
    if !step_fits(&step) {
        return Err(ProofFault::TooMany { line });
    }
    steps.claims.push(step)?;
    Ok(())
}

/// Whether an `.ant` line may stand here.
fn may_grow(growth: Growth) -> bool
    ensures { result ≡ may_grow growth }
{
    match growth {
        Growth::Closed => false,
        Growth::Antecedent | Growth::Both => true,
    }
}

/// Whether no time is too late.
fn is_in_time(span: Span) -> bool
    ensures { result ≡ is_in_time span }
{
    match span {
        Span::Late => false,
        _ => true,
    }
}

/// Reads a line that adds to the step before it.
pub fn read_given(
    alloc: Global,
    steps: &mut Steps,
    line: u32,
    vars: &Variables,
    names: &NetNames,
    clause: &Clause,
) -> Result<(), ProofFault>
    requires few { length vars.now < 2 ^ 32 }
    ensures { (parse : Parse) → IsParse parse →
        IsTurn line (grown parse vars.now (named_by names.now) (steps_held steps.old)
        (clause_held clause.now)) (steps_held steps.new) result }
{
    if !may_grow(steps.growth) {
        return Err(ProofFault::BadLine { line });
    }
    let (value, guard) = match exprs_given(alloc, line, vars, clause) {
        Ok(both) => both,
        Err(fault) => return Err(fault),
    };
    let node = match net_given(line, names, clause.node) {
        Ok(node) => node,
        Err(fault) => return Err(fault),
    };
    if !is_in_time(clause.span) {
        return Err(ProofFault::TooMany { line });
    }
    let (from, to) = times_of(clause.span);
    let quint = Quint {
        guard,
        node,
        value,
        from,
        to,
    };
    grow_last(alloc, steps, line, quint)
}
