//! The verdict, by going through all assignments; begin with `verdict`.

ghost use Rattle.std.specs.Prelude.{◌≡◌, ◌<◌, ◌≤◌, ℕ, Bool, List, length, All, IfOk, slice_index_or};
ghost use Rattle.std.specs.List.{AllZip, list_all, list_any};
ghost use Rattle.ste_model.specs.Asked.{depth as depth_of, latest};
ghost use Rattle.ste_model.specs.Found.{IsTableOf, IsVerdictOf};
ghost use Rattle.plain_check.specs.private.Choices.{AreChoices, lists_of};
ghost use Rattle.plain_check.specs.private.Outcome.{IsOutcome, is_contradictory, is_strong, is_weak, table_of, verdict_of};

use crate::choices::lists_of;
use crate::found::{Failure, Outcome, fails_somewhere, has_empty};
use crate::table::table;
use net_core::{BitSet, Net};
use std::alloc::{AllocError, Global};
use ste_base::{Items, Time};
use ste_model::{Assertion, Quint, Verdict};

/// The greatest `to` of these quintuples, or 0.
fn latest(quints: &[Quint]) -> Time
    ensures { result ≡ latest quints.now }
{
    quints
        .iter()
        .map(|quint| quint.to)
        .fold(0, |greatest, to| greatest.max(to))
}

/// The depth of an assertion.
fn depth(task: &Assertion) -> Time
    ensures { result ≡ depth_of task.now }
{
    latest(task.ant.as_slice()).max(latest(task.con.as_slice()))
}

/// For each number of inputs from 0 to 8, all lists of so many bits.
pub fn all_choices(alloc: Global) -> Result<Vec<Items<Items<bool>>>, AllocError>
    ensures long { IfOk result (λ choices. length choices.items ≡ 9) }
    ensures each { IfOk result (λ choices. AreChoices choices.items) }
{
    let mut choices = Vec::new(alloc);
    for width in 0..9 {
        choices.push(Items::from(lists_of(alloc, width)?))?;
    }
    Ok(choices)
}

/// What is found of an assertion under one assignment, from the rows of its possible table.
fn outcome_of(
    net: &Net,
    task: &Assertion,
    bits: &[bool],
    rows: &[Items<BitSet>],
    depth: Time,
) -> Outcome
    requires depth { depth ≡ depth_of task.now }
    requires long { length rows.now ≡ depth }
    requires wide { All (λ row. length row ≡ net.now.raw.nets) rows.now }
    requires table { IsTableOf net.now.raw task.now bits.now (table_of rows.now) }
    ensures { IsOutcome net.now.raw task.now bits.now result }
{
    let _ = net;
    if has_empty(rows) {
        Outcome::Contradictory
    } else if fails_somewhere(Failure::Strong, rows, task.con.as_slice(), bits, depth) {
        Outcome::Strong
    } else if fails_somewhere(Failure::Weak, rows, task.con.as_slice(), bits, depth) {
        Outcome::Weak
    } else {
        Outcome::Fine
    }
}

/// What is found of an assertion under one assignment.
fn outcome(
    alloc: Global,
    net: &Net,
    choices: &[Items<Items<bool>>],
    task: &Assertion,
    bits: &[bool],
) -> Result<Outcome, AllocError>
    requires choices { AreChoices choices.now }
    requires widths { All (λ gate. length gate.inputs < length choices.now) net.now.raw.gates }
    requires in_range { All (λ quint. quint.node.0 < net.now.raw.nets) task.now.ant }
    ensures { IfOk result (λ outcome. IsOutcome net.now.raw task.now bits.now outcome) }
{
    let depth = depth(task);
    let rows = table(alloc, net, choices, task, bits, depth)?;
    Ok(outcome_of(net, task, bits, &rows, depth))
}

/// What is found under each assignment of so many variables, in order.
fn outcomes(
    alloc: Global,
    net: &Net,
    vars: u32,
    task: &Assertion,
) -> Result<Vec<Outcome>, AllocError>
    requires widths { All (λ gate. length gate.inputs ≤ 8) net.now.raw.gates }
    requires in_range { All (λ quint. quint.node.0 < net.now.raw.nets) task.now.ant }
    ensures { IfOk result (λ outcomes.
        AllZip (IsOutcome net.now.raw task.now) (lists_of vars) outcomes.items) }
{
    let choices = all_choices(alloc)?;
    let assignments = lists_of(alloc, vars)?;
    let mut outcomes = Vec::new(alloc);
    for bits in &assignments {
        outcomes.push(outcome(alloc, net, &choices, task, bits.as_slice())?)?;
    }
    Ok(outcomes)
}

/// Whether some outcome is strong.
fn some_strong(outcomes: &[Outcome]) -> bool
    ensures { result ≡ list_any is_strong outcomes.now }
{
    outcomes.iter().any(|outcome| outcome.is_strong())
}

/// Whether some outcome is weak.
fn some_weak(outcomes: &[Outcome]) -> bool
    ensures { result ≡ list_any is_weak outcomes.now }
{
    outcomes.iter().any(|outcome| outcome.is_weak())
}

/// Whether all outcomes are contradictory.
fn all_contradictory(outcomes: &[Outcome]) -> bool
    ensures { result ≡ list_all is_contradictory outcomes.now }
{
    outcomes.iter().all(|outcome| outcome.is_contradictory())
}

/// The verdict, from what is found under all assignments.
fn verdict_of(outcomes: &[Outcome]) -> Verdict
    ensures { result ≡ verdict_of outcomes.now }
{
    if some_strong(outcomes) {
        Verdict::Strong
    } else if some_weak(outcomes) {
        Verdict::Weak
    } else if all_contradictory(outcomes) {
        Verdict::Vacuous
    } else {
        Verdict::Pass
    }
}

/// The verdict of an assertion over so many variables, by going through all assignments. A gate may
/// have at most eight inputs.
pub fn verdict(alloc: Global, net: &Net, vars: u32, task: &Assertion) -> Result<Verdict, AllocError>
    requires widths { All (λ gate. length gate.inputs ≤ 8) net.now.raw.gates }
    requires in_range { All (λ quint. quint.node.0 < net.now.raw.nets) task.now.ant }
    ensures { IfOk result (λ verdict. IsVerdictOf net.now.raw vars task.now verdict) }
{
    Ok(verdict_of(&outcomes(alloc, net, vars, task)?))
}
