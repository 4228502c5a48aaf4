//! What a failure shows; begin with `shown_of`.

ghost use Rattle.std.specs.Prelude.{◌≡◌, ◌<◌, All, IfOk, IfSome, Some, length, map};
ghost use Rattle.dd_nodes.specs.Stores.{IsRef, function};
ghost use Rattle.gate_sets.specs.Lists.{rows_of};
ghost use Rattle.ste_model.specs.Assignments.{SomeAssignment, Tells};
ghost use Rattle.ste_model.specs.declared.verdict.Verdict.TheVariants.{Strong, Weak};
ghost use Rattle.ste_model.specs.Found.{IsFound, IsStrong, IsVerdictOf, IsWeak};
ghost use Rattle.ste_model.specs.Report.{IsFailingPlace, IsShown};
ghost use Rattle.engine_parts.specs.declared.failing.Failure.TheVariants as Failure;
ghost use Rattle.engine_parts.specs.Failing.{FailsBy, MakesNothing};
ghost use Rattle.ste_engine.specs.Findings.{TellFindings};
ghost use Rattle.ste_engine.specs.private.Firsts.{AreFirsts, IsFirstPlace};
ghost use Rattle.ste_engine.specs.private.Places.{IsFoundBy};
ghost use Rattle.ste_engine.specs.private.Reports.{IsFailureOf, IsRunDue};

use crate::firsts::Firsts;
use crate::place::failing_place;
use counter_run::ste_run;
use dd_nodes::{Nodes, Ref};
use dd_ops::Ops;
use dd_query::least;
use engine_parts::{Failure, Results};
use net_core::Net;
use std::alloc::{AllocError, Global};
use ste_base::{Items, NodeId, Time};
use ste_model::{Assertion, Run, Verdict, are_quints_bindable};
use sym_step::GateRows;

/// The least assignment that is strong, or weak, and the failing place under it.
#[derive(Drop)]
struct LeastFailure {
    bits: Items<bool>,
    place: (NodeId, Time),
}

/// What a failure shows: the least assignment, the failing place under it, and the run where one is
/// due. Where there is no failure all is None.
#[derive(Drop)]
pub struct Shown {
    pub least: Option<Items<bool>>,
    pub fails: Option<(NodeId, Time)>,
    pub run: Option<Run>,
}

/// The failing place under an assignment: where it is known, that of all assignments.
fn place_of<N: Nodes>(
    alloc: Global,
    ops: &Ops,
    nodes: &mut N,
    net: &Net,
    rows: &GateRows,
    task: &Assertion,
    bits: &[bool],
    failure: Failure,
    first: Option<(NodeId, Time)>,
) -> Result<(NodeId, Time), AllocError>
    requires rows { rows.now.covers ≡ map rows_of net.now.raw.covers }
    requires ant { All (λ quint. quint.node.0 < net.now.raw.nets) task.now.ant }
    requires con { All (λ quint. quint.node.0 < net.now.raw.nets) task.now.con }
    requires weak { All (λ weakening. weakening.node.0 < net.now.raw.nets) task.now.weak }
    requires found { IsFound (FailsBy failure) net.now.raw task.now bits.now }
    requires long { length bits.now ≡ (N.store nodes.old).vars }
    requires first { IfSome first
        (IsFirstPlace (N.store nodes.old).vars net.now.raw task.now failure) }
    ensures place { IfOk result (λ place.
        IsFailingPlace (FailsBy failure) net.now.raw task.now bits.now place) }
    ensures same { MakesNothing (N.store nodes.old) (N.store nodes.new) }
{
    if let Some(place) = first {
        return Ok(place);
    }
    failing_place(alloc, ops, nodes, net, rows, task, bits, failure)
}

/// The least of the assignments that a reference tells, of which there is one, and the failing
/// place under it. `first` is the place of all assignments, where it is known.
fn least_failure<N: Nodes>(
    alloc: Global,
    ops: &Ops,
    nodes: &mut N,
    net: &Net,
    rows: &GateRows,
    task: &Assertion,
    found: Ref,
    failure: Failure,
    first: Option<(NodeId, Time)>,
) -> Result<LeastFailure, AllocError>
    requires rows { rows.now.covers ≡ map rows_of net.now.raw.covers }
    requires ant { All (λ quint. quint.node.0 < net.now.raw.nets) task.now.ant }
    requires con { All (λ quint. quint.node.0 < net.now.raw.nets) task.now.con }
    requires weak { All (λ weakening. weakening.node.0 < net.now.raw.nets) task.now.weak }
    requires held { IsRef (N.store nodes.old) found }
    requires first { IfSome first
        (IsFirstPlace (N.store nodes.old).vars net.now.raw task.now failure) }

    // The reference tells the assignments that are so, and there is one.
    requires told { Tells (N.store nodes.old).vars (function (N.store nodes.old) found)
        (IsFoundBy failure net.now.raw task.now) }
    requires some { SomeAssignment (N.store nodes.old).vars
        (IsFoundBy failure net.now.raw task.now) }

    ensures shown { IfOk result (λ least. IsShown (IsFoundBy failure net.now.raw task.now)
        (FailsBy failure) net.now.raw (N.store nodes.old).vars task.now
        (Some least.bits) (Some least.place)) }
    ensures same { MakesNothing (N.store nodes.old) (N.store nodes.new) }
{
    let bits = match least(alloc, nodes, found)? {
        Some(bits) => bits,
        None => unreachable!(),
    };
    let place = place_of(
        alloc,
        ops,
        nodes,
        net,
        rows,
        task,
        bits.as_slice(),
        failure,
        first,
    )?;
    Ok(LeastFailure { bits, place })
}

/// The printed run under a strong assignment, where the antecedent is bindable.
fn run_due(
    alloc: Global,
    net: &Net,
    task: &Assertion,
    bits: &[bool],
) -> Result<Option<Run>, AllocError>
    requires ant { All (λ quint. quint.node.0 < net.now.raw.nets) task.now.ant }
    requires strong { IsStrong net.now.raw task.now bits.now }
    ensures { IfOk result (λ run. IsRunDue net.now.raw task.now bits.now run) }
{
    if !are_quints_bindable(net, task.weak.as_slice(), task.ant.as_slice()) {
        return Ok(None);
    }
    let run = ste_run(alloc, net, task, bits)?;
    Ok(Some(run))
}

/// What is shown of a failure, with the run that is reported.
fn with_run(first: LeastFailure, run: Option<Run>) -> Shown
    ensures { result ≡ record {
      least = Some first.bits;
      fails = Some first.place;
      run = run;
    } }
{
    Shown {
        least: Some(first.bits),
        fails: Some(first.place),
        run,
    }
}

/// What a strong failure shows, with the run where one is due. `first` is the place of all
/// assignments, where it is known.
fn strong_shown<N: Nodes>(
    alloc: Global,
    ops: &Ops,
    nodes: &mut N,
    net: &Net,
    rows: &GateRows,
    task: &Assertion,
    strong: Ref,
    first: Option<(NodeId, Time)>,
) -> Result<Shown, AllocError>
    requires rows { rows.now.covers ≡ map rows_of net.now.raw.covers }
    requires ant { All (λ quint. quint.node.0 < net.now.raw.nets) task.now.ant }
    requires con { All (λ quint. quint.node.0 < net.now.raw.nets) task.now.con }
    requires weak { All (λ weakening. weakening.node.0 < net.now.raw.nets) task.now.weak }
    requires held { IsRef (N.store nodes.old) strong }
    requires first { IfSome first
        (IsFirstPlace (N.store nodes.old).vars net.now.raw task.now Failure.Strong) }
    requires told { Tells (N.store nodes.old).vars (function (N.store nodes.old) strong)
        (IsStrong net.now.raw task.now) }
    requires some { SomeAssignment (N.store nodes.old).vars (IsStrong net.now.raw task.now) }
    ensures shown { IfOk result (λ shown. IsFailureOf net.now.raw (N.store nodes.old).vars task.now
        Strong shown.least shown.fails shown.run) }
    ensures same { MakesNothing (N.store nodes.old) (N.store nodes.new) }
{
    let least = least_failure(
        alloc,
        ops,
        nodes,
        net,
        rows,
        task,
        strong,
        Failure::Strong,
        first,
    )?;
    let run = run_due(alloc, net, task, least.bits.as_slice())?;
    Ok(with_run(least, run))
}

/// What a weak failure shows. `first` is the place of all assignments, where it is known.
fn weak_shown<N: Nodes>(
    alloc: Global,
    ops: &Ops,
    nodes: &mut N,
    net: &Net,
    rows: &GateRows,
    task: &Assertion,
    weak: Ref,
    first: Option<(NodeId, Time)>,
) -> Result<Shown, AllocError>
    requires rows { rows.now.covers ≡ map rows_of net.now.raw.covers }
    requires ant { All (λ quint. quint.node.0 < net.now.raw.nets) task.now.ant }
    requires con { All (λ quint. quint.node.0 < net.now.raw.nets) task.now.con }
    requires weak { All (λ weakening. weakening.node.0 < net.now.raw.nets) task.now.weak }
    requires held { IsRef (N.store nodes.old) weak }
    requires first { IfSome first
        (IsFirstPlace (N.store nodes.old).vars net.now.raw task.now Failure.Weak) }
    requires told { Tells (N.store nodes.old).vars (function (N.store nodes.old) weak)
        (IsWeak net.now.raw task.now) }
    requires some { SomeAssignment (N.store nodes.old).vars (IsWeak net.now.raw task.now) }
    ensures shown { IfOk result (λ shown. IsFailureOf net.now.raw (N.store nodes.old).vars task.now
        Weak shown.least shown.fails shown.run) }
    ensures same { MakesNothing (N.store nodes.old) (N.store nodes.new) }
{
    let least = least_failure(
        alloc,
        ops,
        nodes,
        net,
        rows,
        task,
        weak,
        Failure::Weak,
        first,
    )?;
    Ok(with_run(least, None))
}

/// What a failure shows, from the verdict, the references that tell the findings, and the places
/// that are known.
pub fn shown_of<N: Nodes>(
    alloc: Global,
    ops: &Ops,
    nodes: &mut N,
    net: &Net,
    rows: &GateRows,
    task: &Assertion,
    r: Results,
    firsts: Firsts,
    verdict: Verdict,
) -> Result<Shown, AllocError>
    requires rows { rows.now.covers ≡ map rows_of net.now.raw.covers }
    requires ant { All (λ quint. quint.node.0 < net.now.raw.nets) task.now.ant }
    requires con { All (λ quint. quint.node.0 < net.now.raw.nets) task.now.con }
    requires weak { All (λ weakening. weakening.node.0 < net.now.raw.nets) task.now.weak }
    requires told { TellFindings (N.store nodes.old) net.now.raw task.now r }
    requires firsts { AreFirsts (N.store nodes.old).vars net.now.raw task.now firsts }
    requires judged { IsVerdictOf net.now.raw (N.store nodes.old).vars task.now verdict }
    ensures shown { IfOk result (λ shown. IsFailureOf net.now.raw (N.store nodes.old).vars task.now
        verdict shown.least shown.fails shown.run) }
    ensures same { MakesNothing (N.store nodes.old) (N.store nodes.new) }
{
    match verdict {
        Verdict::Strong => {
            strong_shown(alloc, ops, nodes, net, rows, task, r.strong, firsts.strong)
        }
        Verdict::Weak => weak_shown(alloc, ops, nodes, net, rows, task, r.weak, firsts.weak),
        _ => Ok(Shown {
            least: None,
            fails: None,
            run: None,
        }),
    }
}
