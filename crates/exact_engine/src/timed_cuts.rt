//! What quintuples ask, by references; begin with `asks_of`.

ghost use Rattle.std.specs.Prelude.{◌≡◌, ◌++◌, List, IsTrue, ◌&&◌};
ghost use Rattle.dual_rail.specs.Rail.{Built};
ghost use Rattle.ste_model.specs.Expressions.{reads, symbolic_value};
ghost use Rattle.ste_model.specs.Need.{ReadBelow};
ghost use Rattle.ste_model.specs.Work.{quints_work};
ghost use Rattle.exact_engine.specs.private.Asking.{AreTimedCutItems, quint_work};
ghost use Rattle.exact_engine.specs.private.TimedCuts.{IsTimedCut};

use crate::timed_cut::TimedCut;
use dd_nodes::Nodes;
use dd_ops::{OpFault, Ops};
use engine_parts::build;
use std::alloc::Global;
use ste_model::Quint;

/// The references of one quintuple.
fn timed_cut_of<N: Nodes>(ops: &Ops, nodes: &mut N, quint: &Quint) -> Result<TimedCut, OpFault>
    requires { IsTrue (reads (N.store nodes.old).vars quint.now.guard
        && reads (N.store nodes.old).vars quint.now.value) }
    ensures { Built (quint_work quint.now) (λ t timed_cut. IsTimedCut t quint.now timed_cut)
        (N.store nodes.old) (N.store nodes.new) result }
{
    let guard = build(ops, nodes, &quint.guard)?;
    let value = build(ops, nodes, &quint.value)?;
    Ok(TimedCut {
        node: quint.node,
        guard,
        value,
        from: quint.from,
        to: quint.to,
    })
}

/// The references of all quintuples, in order.
pub fn timed_cuts_of<N: Nodes>(
    alloc: Global,
    ops: &Ops,
    nodes: &mut N,
    quints: &[Quint],
) -> Result<Vec<TimedCut>, OpFault>
    requires { ReadBelow (N.store nodes.old).vars quints.now }
    ensures { Built (quints_work quints.now) (AreTimedCutItems quints.now)
        (N.store nodes.old) (N.store nodes.new) result }
{
    let mut timed_cuts = Vec::new(alloc);
    for k in 0..quints.len() {
        let timed_cut = timed_cut_of(ops, nodes, &quints[k])?;
        match timed_cuts.push(timed_cut) {
            Ok(()) => {}
            Err(_) => return Err(OpFault::OutOfMemory),
        }
    }
    Ok(timed_cuts)
}
