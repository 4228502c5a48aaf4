//! One time of an assertion; begin with `turn`.

ghost use Rattle.std.specs.Prelude.{◌≡◌, ◌<◌, ℕ, List, All, IfOk, IfSome, OnOk, map};
ghost use Rattle.std.specs.List.{AllZip};
ghost use Rattle.ste_base.specs.Functions.{Function};
ghost use Rattle.dd_nodes.specs.Diagram.{IsDiagram};
ghost use Rattle.dd_nodes.specs.Stores.{Means, Store};
ghost use Rattle.net_core.specs.Work.{ArePossibleEach, SymbolicCut, SymbolicSet};
ghost use Rattle.dual_rail.specs.Rail.{AreRails, Built};
ghost use Rattle.sym_step.specs.Step.{HaveSets, IsCutBy, IsCutOf, ids_of};
ghost use Rattle.gate_sets.specs.Lists.{rows_of};
ghost use Rattle.sym_step.specs.Frame.{IsFrame, nets_of, next_of};
ghost use Rattle.engine_parts.specs.Latches.{first_rails};
ghost use Rattle.ste_engine.specs.private.Finds.{AreFound};
ghost use Rattle.ste_engine.specs.private.Turns.{AreTurnedRefs, IsTurned, asked_by, turned_work};

use crate::find::find_all;
use crate::results::Found;
use dd_nodes::{Nodes, Ref};
use dd_ops::{OpFault, Ops};
use dual_rail::either;
use engine_parts::first_sets;
use net_core::Net;
use std::alloc::{AllocError, Global};
use ste_base::NodeId;
use sym_step::{Cut, Frame, GateRows, renew};

/// What the times so far leave beside their frame: where some net was empty, and what is found.
#[derive(Drop)]
pub struct Turned {
    pub contradictory: Ref,
    pub found: Found,
}

/// The frame before time 0.
pub fn first_frame(alloc: Global, net: &Net, reset: bool) -> Result<Frame, AllocError>
    ensures frame { IfOk result (λ frame. (s : Store)
        → IsDiagram s.held s.vars → IsFrame s net.now.raw frame) }
    ensures next { IfOk result (λ frame.
        next_of net.now.raw frame ≡ map (first_rails reset) net.now.raw.latches) }
{
    let first = first_sets(alloc, net, reset)?;
    let frame = Frame::starting(alloc, net, first)?;
    Ok(frame)
}

/// The frame before time 0, which goes on from the last frame of another task, where there is one.
pub fn frame_from(
    alloc: Global,
    net: &Net,
    reset: bool,
    last: Option<Frame>,
) -> Result<Frame, AllocError>
    ensures frame { IfOk result (λ frame. (s : Store) → IsDiagram s.held s.vars
        → IfSome last (IsFrame s net.now.raw) → IsFrame s net.now.raw frame) }
    ensures next { IfOk result (λ frame.
        next_of net.now.raw frame ≡ map (first_rails reset) net.now.raw.latches) }
{
    match last {
        Some(frame) => {
            let first = first_sets(alloc, net, reset)?;
            Ok(frame.before_first_time(first))
        }
        None => first_frame(alloc, net, reset),
    }
}

/// What there is before time 0.
pub fn at_start() -> Turned
    ensures { result ≡ record {
      contradictory = Ref.FALSE;
      found = record { strong = Ref.FALSE; weak = Ref.FALSE };
    } }
{
    Turned {
        contradictory: Ref::FALSE,
        found: Found {
            strong: Ref::FALSE,
            weak: Ref::FALSE,
        },
    }
}

/// One time: its sets, and what is found there. `weak` are the weakened nets, `ant` is what is
/// given, `con` what is to follow; the frame keeps the time for the next.
pub fn turn<N: Nodes>(
    alloc: Global,
    ops: &Ops,
    nodes: &mut N,
    net: &Net,
    rows: &GateRows,
    weak: &[NodeId],
    ant: &[Cut],
    con: &[Cut],
    before: &Turned,
    frame: &mut Frame,
) -> Result<Turned, OpFault>
    requires rows { rows.now.covers ≡ map rows_of net.now.raw.covers }
    requires weak { All (λ node. node.0 < net.now.raw.nets) weak.now }
    requires ant { All (IsCutOf (N.store nodes.old) net.now.raw) ant.now }
    requires con { All (IsCutOf (N.store nodes.old) net.now.raw) con.now }
    requires before { AreTurnedRefs (N.store nodes.old) before.now }
    requires frame { IsFrame (N.store nodes.old) net.now.raw frame.old }
    ensures frame { OnOk result (IsFrame (N.store nodes.new) net.now.raw frame.new) }
    ensures built { (ls : List SymbolicSet) (weakened : List ℕ) (ds es : List SymbolicCut)
        (sets : ℕ → SymbolicSet) (c f h : Function)
        → AllZip (AreRails (N.store nodes.old)) ls (next_of net.now.raw frame.old)
        → weakened ≡ ids_of weak.now
        → AllZip (IsCutBy (N.store nodes.old)) ds ant.now
        → AllZip (IsCutBy (N.store nodes.old)) es con.now
        → ArePossibleEach (N.store nodes.old).vars net.now.raw ls (asked_by weakened ds) sets
        → Means (N.store nodes.old) c before.now.contradictory
        → AreFound f h (N.store nodes.old) before.now.found
        → Built (turned_work net.now.raw ls weakened ds es sets c f h)
        (IsTurned net.now.raw es sets c f h (next_of net.now.raw frame.new))
        (N.store nodes.old) (N.store nodes.new) result }
    ensures have { OnOk result ((ls : List SymbolicSet) (weakened : List ℕ)
        (ds : List SymbolicCut)
        (sets : ℕ → SymbolicSet)
        → AllZip (AreRails (N.store nodes.old)) ls (next_of net.now.raw frame.old)
        → weakened ≡ ids_of weak.now
        → AllZip (IsCutBy (N.store nodes.old)) ds ant.now
        → ArePossibleEach (N.store nodes.old).vars net.now.raw ls (asked_by weakened ds) sets
        → HaveSets net.now.raw sets (N.store nodes.new) (nets_of frame.new)) }
{
    let empty = renew(alloc, ops, nodes, net, rows, weak, ant, frame)?;
    let contradictory = either(ops, nodes, before.contradictory, empty)?;
    let found = find_all(ops, nodes, frame, con, before.found)?;
    Ok(Turned {
        contradictory,
        found,
    })
}
