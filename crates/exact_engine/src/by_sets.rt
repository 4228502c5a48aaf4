//! The attempt by sets of bits, which decides most assertions at the price of a plain check; begin
//! with `tried_by_sets`.

ghost use Rattle.std.specs.Prelude.{◌≡◌, ◌↔◌, ◌≤◌, ◌<◌, All, IfOk, IfSome, IsTrue, map};
ghost use Rattle.dd_nodes.specs.Stores.{Keeps};
ghost use Rattle.gate_sets.specs.Lists.{rows_of};
ghost use Rattle.sym_step.specs.Frame.{IsFrame};
ghost use Rattle.ste_model.specs.Need.{ReadBelow};
ghost use Rattle.ste_engine.specs.Findings.{TellFindings};
ghost use Rattle.exact_engine.specs.private.BySets.{IsBoundBelow, IsLeastStrong, IsLeastStrongOf, IsQuick};
ghost use Rattle.exact_engine.specs.private.Reporting.{IsShownExactly};

use crate::quick::Quick;
use crate::showing::{Shown, broken_place, front, pass_shown};
use counter_run::ste_run;
use dd_nodes::{Nodes, Ref};
use dd_ops::OpFault;
use dd_query::least;
use engine_parts::Results;
use net_core::Net;
use std::alloc::{AllocError, Global};
use ste_base::Items;
use ste_engine::ste_results;
use ste_model::{Assertion, Verdict, Weakening, are_quints_bindable};
use sym_step::{Frame, GateRows};

/// What is shown under the least of the strong assignments: its printed run, and the place that
/// this run shows, which may be an earlier one than by sets.
fn printed_failure(
    alloc: Global,
    net: &Net,
    task: &Assertion,
    vars: u32,
    all: &[bool],
) -> Result<Shown, AllocError>
    requires bound { IsBoundBelow net.now.raw vars task.now }
    requires least { IsLeastStrong net.now.raw vars task.now all.now }
    ensures { IfOk result (λ shown. IsShownExactly net.now.raw vars task.now shown) }
{
    let bits = front(alloc, all, vars as usize)?;
    let told = ste_run(alloc, net, task, all)?;
    let place = broken_place(&told, bits.as_slice(), task);
    Ok(Shown {
        verdict: Verdict::Strong,
        least: Some(bits),
        fails: Some(place),
        run: Some(told),
    })
}

/// The verdict with what is shown, from the least of the strong assignments, where there is one.
fn shown_by_sets(
    alloc: Global,
    net: &Net,
    task: &Assertion,
    vars: u32,
    least: Option<Items<bool>>,
) -> Result<Shown, AllocError>
    requires bound { IsBoundBelow net.now.raw vars task.now }
    requires least { IsLeastStrongOf net.now.raw vars task.now least }
    ensures { IfOk result (λ shown. IsShownExactly net.now.raw vars task.now shown) }
{
    match least {
        Some(all) => printed_failure(alloc, net, task, vars, all.as_slice()),
        None => Ok(pass_shown()),
    }
}

/// What the findings by sets decide; None where some assignment is weak.
fn quick_by_sets<N: Nodes>(
    alloc: Global,
    nodes: &mut N,
    net: &Net,
    task: &Assertion,
    vars: u32,
    r: Results,
) -> Result<Option<Quick>, AllocError>
    requires bound { IsBoundBelow net.now.raw vars task.now }
    requires vars { vars ≤ (N.store nodes.old).vars }
    requires told { TellFindings (N.store nodes.old) net.now.raw task.now r }
    ensures quick { IfOk result (λ found. IfSome found
        (IsQuick net.now.raw vars task.now (N.store nodes.new))) }
    ensures store { N.store nodes.new ≡ N.store nodes.old }
{
    if r.weak != Ref::FALSE {
        return Ok(None);
    }
    let least = least(alloc, nodes, r.strong)?;
    let shown = shown_by_sets(alloc, net, task, vars, least)?;
    Ok(Some(Quick { sets: r, shown }))
}

/// Whether the weakened nets are nets of the net.
fn are_weakenings_in(net: &Net, weak: &[Weakening]) -> bool
    ensures { IsTrue result ↔ All (λ weakening. weakening.node.0 < net.now.raw.nets) weak.now }
{
    let nets = net.nets();
    weak.iter().all(|weakening| weakening.node.0 < nets)
}

/// What a check by sets decides, with the weakenings of the assertion; None where it does not end,
/// where some assignment is weak, or where the antecedent is not bindable.
pub fn tried_by_sets<N: Nodes>(
    alloc: Global,
    nodes: &mut N,
    net: &Net,
    rows: &GateRows,
    task: &Assertion,
    vars: u32,
    last: &mut Option<Frame>,
) -> Result<Option<Quick>, AllocError>
    requires rows { rows.now.covers ≡ map rows_of net.now.raw.covers }
    requires ant { All (λ quint. quint.node.0 < net.now.raw.nets) task.now.ant }
    requires con { All (λ quint. quint.node.0 < net.now.raw.nets) task.now.con }
    requires reads_ant { ReadBelow vars task.now.ant }
    requires reads_con { ReadBelow vars task.now.con }
    requires vars { vars ≤ (N.store nodes.old).vars }
    requires last { IfSome last.old (IsFrame (N.store nodes.old) net.now.raw) }
    ensures quick { IfOk result (λ found. IfSome found
        (IsQuick net.now.raw vars task.now (N.store nodes.new))) }
    ensures keeps { Keeps (N.store nodes.old) (N.store nodes.new) }
    ensures last { IfSome last.new (IsFrame (N.store nodes.new) net.now.raw) }
{
    let weak = task.weak.as_slice();
    if !are_weakenings_in(net, weak) || !are_quints_bindable(net, weak, task.ant.as_slice()) {
        return Ok(None);
    }
    match ste_results(alloc, nodes, net, rows, task, last) {
        Ok(r) => quick_by_sets(alloc, nodes, net, task, vars, r),
        Err(OpFault::StepsOut) => Ok(None),
        Err(OpFault::OutOfMemory) => Err(AllocError),
    }
}
