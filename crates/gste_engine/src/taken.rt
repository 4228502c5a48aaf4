//! One edge under one assignment, by constants; begin with `taken_on`.

ghost use Rattle.std.specs.Prelude.{◌≡◌, ◌<◌, ℕ, All, IfOk, OnOk, length, map};
ghost use Rattle.dual_rail.specs.Rail.{AreRefs, set_of};
ghost use Rattle.gate_sets.specs.Lists.{rows_of};
ghost use Rattle.sym_step.specs.Frame.{IsFrame};
ghost use Rattle.engine_parts.specs.Failing.{MakesNothing};
ghost use Rattle.ste_model.specs.GraphWork.{SymbolicState};
ghost use Rattle.gste_engine.specs.Tables.{AreStateRefs, IsState};
ghost use Rattle.gste_engine.specs.private.Taken.{IsStepOn, IsTaken, fixed_bind, fixed_rails, table_at};

use crate::state::State;
use bool_expr::value;
use dd_nodes::{Nodes, Ref};
use dd_ops::{OpFault, Ops};
use dd_query::eval;
use dual_rail::Rails;
use engine_parts::{Failure, constant, first_failing};
use net_core::{Net, settles};
use std::alloc::{AllocError, Global};
use ste_base::NodeId;
use ste_model::{Bind, Edge};
use sym_step::{Cut, Frame, GateRows, Step, advance};

/// What is known of an edge under an assignment: whether it is feasible, and the net of its first
/// consequent that fails.
#[derive(Clone, Copy, PartialEq, Eq, Drop)]
pub struct Taken {
    pub feasible: bool,
    pub first: Option<NodeId>,
}

/// The constants of a set under an assignment.
fn fixed_rails<N: Nodes>(nodes: &mut N, r: Rails, bits: &[bool]) -> Rails
    requires held { AreRefs (N.store nodes.old) r }
    requires long { length bits.now ≡ (N.store nodes.old).vars }
    ensures fixed { result ≡ fixed_rails (N.store nodes.old) bits.now r }
    ensures store { N.store nodes.new ≡ N.store nodes.old }
{
    let can0 = constant(eval(nodes, r.can0, bits));
    let can1 = constant(eval(nodes, r.can1, bits));
    Rails { can0, can1 }
}

/// The same of each set, in order.
fn fixed_sets<N: Nodes>(
    alloc: Global,
    nodes: &mut N,
    sets: &[Rails],
    bits: &[bool],
) -> Result<Vec<Rails>, AllocError>
    requires held { All (AreRefs (N.store nodes.old)) sets.now }
    requires long { length bits.now ≡ (N.store nodes.old).vars }
    ensures fixed { IfOk result (λ all.
        all.items ≡ map (fixed_rails (N.store nodes.old) bits.now) sets.now) }
    ensures store { N.store nodes.new ≡ N.store nodes.old }
{
    let mut all = Vec::with_capacity(alloc, sets.len())?;
    for k in 0..sets.len() {
        let one = fixed_rails(nodes, sets[k], bits);
        all.push(one)?;
    }
    Ok(all)
}

/// What a binding asks under an assignment, by constants.
fn fixed_bind(bind: &Bind, bits: &[bool]) -> Cut
    ensures { result ≡ fixed_bind bits.now bind.now }
{
    Cut {
        node: bind.node,
        guard: constant(value(&bind.guard, bits)),
        value: constant(value(&bind.value, bits)),
    }
}

/// The same of all bindings, in order.
fn fixed_binds(alloc: Global, binds: &[Bind], bits: &[bool]) -> Result<Vec<Cut>, AllocError>
    ensures { IfOk result (λ cuts. cuts.items ≡ map (fixed_bind bits.now) binds.now) }
{
    let mut cuts = Vec::with_capacity(alloc, binds.len())?;
    for bind in binds {
        cuts.push(fixed_bind(bind, bits))?;
    }
    Ok(cuts)
}

/// The sets of an edge under an assignment, from the state of its source and a frame of any time.
/// All that is asked is constant, so no node is made.
fn fixed_step<N: Nodes>(
    alloc: Global,
    nodes: &mut N,
    net: &Net,
    rows: &GateRows,
    edge: &Edge,
    source: &State,
    bits: &[bool],
    frame: &mut Frame,
) -> Result<Step, AllocError>
    requires rows { rows.now.covers ≡ map rows_of net.now.raw.covers }
    requires nets { All (λ bind. bind.node.0 < net.now.raw.nets) edge.now.ant }
    requires weak { All (λ node. node.0 < net.now.raw.nets) edge.now.weak }
    requires source { AreStateRefs (N.store nodes.old) net.now.raw source.now }
    requires long { length bits.now ≡ (N.store nodes.old).vars }
    requires frame { IsFrame (N.store nodes.old) net.now.raw frame.old }
    ensures step { IfOk result (λ made. IsStepOn net.now.raw bits.now
        (map (set_of (N.store nodes.old) bits.now) source.now.latches) edge.now
        (N.store nodes.new) made) }
    ensures same { MakesNothing (N.store nodes.old) (N.store nodes.new) }
    ensures frame { OnOk result (IsFrame (N.store nodes.new) net.now.raw frame.new) }
{
    let latches = fixed_sets(alloc, nodes, source.latches.as_slice(), bits)?;
    let cuts = fixed_binds(alloc, edge.ant.as_slice(), bits)?;
    let ops = Ops::new(alloc);
    match advance(
        alloc,
        &ops,
        nodes,
        net,
        rows,
        latches.as_slice(),
        edge.weak.as_slice(),
        cuts.as_slice(),
        frame,
    ) {
        Ok(made) => Ok(made),
        Err(OpFault::OutOfMemory) => Err(AllocError),
        // Nothing has to be made, so no step is needed.
        Err(OpFault::StepsOut) => unreachable!(),
    }
}

/// What is known of an edge under an assignment, from the state of its source and a frame of any
/// time: whether it is feasible, and the net of its first consequent that fails so. The edge is
/// done once more, with constants in the place of guards, values and sets, so that no node is made.
/// The only error is out of memory; the frame is then not to be used.
pub fn taken_on<N: Nodes>(
    alloc: Global,
    nodes: &mut N,
    net: &Net,
    rows: &GateRows,
    edge: &Edge,
    source: &State,
    bits: &[bool],
    failure: Failure,
    frame: &mut Frame,
) -> Result<Taken, AllocError>
    requires rows { rows.now.covers ≡ map rows_of net.now.raw.covers }
    requires ant { All (λ bind. bind.node.0 < net.now.raw.nets) edge.now.ant }
    requires weak { All (λ node. node.0 < net.now.raw.nets) edge.now.weak }
    requires con { All (λ bind. bind.node.0 < net.now.raw.nets) edge.now.con }
    requires source { AreStateRefs (N.store nodes.old) net.now.raw source.now }
    requires long { length bits.now ≡ (N.store nodes.old).vars }
    requires frame { IsFrame (N.store nodes.old) net.now.raw frame.old }
    ensures taken { IfOk result (λ told. (states : ℕ → SymbolicState)
        → IsState (N.store nodes.old) (states edge.now.from) source.now
        → IsTaken failure net.now.raw bits.now (table_at bits.now states) edge.now told) }
    ensures same { MakesNothing (N.store nodes.old) (N.store nodes.new) }
    ensures frame { OnOk result (IsFrame (N.store nodes.new) net.now.raw frame.new) }
{
    settles(net);
    let nothing = Taken {
        feasible: false,
        first: None,
    };
    if !eval(nodes, source.reached, bits) {
        return Ok(nothing);
    }
    let made = fixed_step(alloc, nodes, net, rows, edge, source, bits, frame)?;
    if made.contradictory == Ref::TRUE {
        return Ok(nothing);
    }
    let wanted = fixed_binds(alloc, edge.con.as_slice(), bits)?;
    let first = first_failing(failure, made.nets.as_slice(), wanted.as_slice());
    Ok(Taken {
        feasible: true,
        first,
    })
}
