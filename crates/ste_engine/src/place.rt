//! Where an assertion fails under one assignment; begin with `failing_place`.

ghost use Rattle.std.specs.Prelude.{◌≡◌, ◌<◌, ◌≤◌, All, IfOk, map};
ghost use Rattle.gate_sets.specs.Lists.{rows_of};
ghost use Rattle.ste_model.specs.Found.{IsFound};
ghost use Rattle.ste_model.specs.Report.{IsFailingPlace};
ghost use Rattle.engine_parts.specs.Failing.{FailsBy, MakesNothing};
ghost use Rattle.ste_engine.specs.private.Places.{fixed_timed_cut, fixed_timed_cuts};
ghost use Rattle.ste_engine.specs.private.Times.{IsTimeline};

use crate::timed_cuts::TimedCut;
use crate::timeline::Timeline;
use crate::turn::first_frame;
use crate::weakened::WeakLine;
use bool_expr::value;
use dd_nodes::Nodes;
use dd_ops::{OpFault, Ops};
use engine_parts::{Failure, constant, first_failing_in};
use net_core::Net;
use std::alloc::{AllocError, Global};
use ste_base::{NodeId, Time};
use ste_model::{Assertion, Quint, depth};
use sym_step::{Cut, GateRows, renew};

/// What a quintuple asks under an assignment, by constants.
fn fixed_timed_cut(quint: &Quint, bits: &[bool], place: usize) -> TimedCut
    ensures { result ≡ fixed_timed_cut bits.now place quint.now }
{
    TimedCut {
        cut: Cut {
            node: quint.node,
            guard: constant(value(&quint.guard, bits)),
            value: constant(value(&quint.value, bits)),
        },
        from: quint.from,
        to: quint.to,
        place,
    }
}

/// The same of all quintuples, in order.
fn fixed_timed_cuts(
    alloc: Global,
    quints: &[Quint],
    bits: &[bool],
) -> Result<Vec<TimedCut>, AllocError>
    ensures { IfOk result (λ timed_cuts. timed_cuts.items ≡
        fixed_timed_cuts bits.now 0 quints.now) }
{
    let mut timed_cuts = Vec::with_capacity(alloc, quints.len())?;
    for k in 0..quints.len() {
        timed_cuts.push(fixed_timed_cut(&quints[k], bits, k))?;
    }
    Ok(timed_cuts)
}

/// What quintuples ask under an assignment, as a timeline before time 0.
fn fixed_line(
    alloc: Global,
    quints: &[Quint],
    bits: &[bool],
    depth: Time,
) -> Result<Timeline, AllocError>
    requires { All (λ quint. quint.to ≤ depth) quints.now }
    ensures { IfOk result (λ line. IsTimeline
        (fixed_timed_cuts bits.now 0 quints.now) depth 0 line) }
{
    let timed_cuts = fixed_timed_cuts(alloc, quints, bits)?;
    Timeline::of(alloc, timed_cuts.as_slice(), depth)
}

/// The net of the first consequent that fails so under an assignment, and the time step: the least
/// at which any does. Each time is done once more, with constants in the place of guards and
/// values, so that no node is made.
pub fn failing_place<N: Nodes>(
    alloc: Global,
    ops: &Ops,
    nodes: &mut N,
    net: &Net,
    rows: &GateRows,
    task: &Assertion,
    bits: &[bool],
    failure: Failure,
) -> Result<(NodeId, Time), AllocError>
    requires rows { rows.now.covers ≡ map rows_of net.now.raw.covers }
    requires ant { All (λ quint. quint.node.0 < net.now.raw.nets) task.now.ant }
    requires con { All (λ quint. quint.node.0 < net.now.raw.nets) task.now.con }
    requires weak { All (λ weakening. weakening.node.0 < net.now.raw.nets) task.now.weak }
    requires found { IsFound (FailsBy failure) net.now.raw task.now bits.now }
    ensures place { IfOk result (λ place.
        IsFailingPlace (FailsBy failure) net.now.raw task.now bits.now place) }
    ensures same { MakesNothing (N.store nodes.old) (N.store nodes.new) }
{
    let depth = depth(task);
    let mut ant = fixed_line(alloc, task.ant.as_slice(), bits, depth)?;
    let mut con = fixed_line(alloc, task.con.as_slice(), bits, depth)?;
    let mut weak = WeakLine::of(alloc, task.weak.as_slice(), depth)?;
    let mut frame = first_frame(alloc, net, task.reset)?;
    for t in 0..depth {
        ant.advance(alloc, t)?;
        con.advance(alloc, t)?;
        weak.advance(alloc, t)?;
        match renew(
            alloc,
            ops,
            nodes,
            net,
            rows,
            weak.nets(),
            ant.cuts(),
            &mut frame,
        ) {
            Ok(_) => {}
            Err(OpFault::OutOfMemory) => return Err(AllocError),
            // Nothing has to be made, so no step is wanted.
            Err(OpFault::StepsOut) => unreachable!(),
        }
        if let Some(node) = first_failing_in(failure, &frame, con.cuts()) {
            return Ok((node, t));
        }
    }
    // Some consequent fails so at some time below the depth.
    unreachable!()
}
