//! What quintuples ask, by references; begin with `asks_of`.

ghost use Rattle.std.specs.Prelude.{◌≡◌, ℕ, List};
ghost use Rattle.dual_rail.specs.Rail.{Built};
ghost use Rattle.ste_model.specs.Need.{ReadBelow};
ghost use Rattle.ste_model.specs.Work.{quints_work};
ghost use Rattle.ste_engine.specs.private.TimedCuts.{AreTimedCuts, DoesRead, IsTimedCut, quint_work};

use dd_nodes::{Nodes, Ref};
use dd_ops::{OpFault, Ops};
use engine_parts::build;
use std::alloc::Global;
use ste_base::Time;
use ste_model::Quint;
use sym_step::Cut;

/// What a quintuple asks, by references; from when on, and up to when; and its place in the text.
#[derive(Clone, Copy, PartialEq, Eq, Drop)]
pub struct TimedCut {
    pub cut: Cut,
    pub from: Time,
    pub to: Time,
    pub place: usize,
}

/// The references of one quintuple.
fn timed_cut_of<N: Nodes>(
    ops: &Ops,
    nodes: &mut N,
    quint: &Quint,
    place: usize,
) -> Result<TimedCut, OpFault>
    requires { DoesRead (N.store nodes.old).vars quint.now }
    ensures { Built (quint_work quint.now) (λ t timed_cut. IsTimedCut t place quint.now timed_cut)
        (N.store nodes.old) (N.store nodes.new) result }
{
    let guard = build(ops, nodes, &quint.guard)?;
    let value = build(ops, nodes, &quint.value)?;
    Ok(TimedCut {
        cut: Cut {
            node: quint.node,
            guard,
            value,
        },
        from: quint.from,
        to: quint.to,
        place,
    })
}

/// The references of all quintuples, in order.
pub fn timed_cuts_of<N: Nodes>(
    alloc: Global,
    ops: &Ops,
    nodes: &mut N,
    quints: &[Quint],
) -> Result<Vec<TimedCut>, OpFault>
    requires { ReadBelow (N.store nodes.old).vars quints.now }
    ensures { Built (quints_work quints.now)
        (λ t timed_cuts. AreTimedCuts t 0 quints.now timed_cuts.items)
        (N.store nodes.old) (N.store nodes.new) result }
{
    let mut timed_cuts = Vec::new(alloc);
    for k in 0..quints.len() {
        let timed_cut = timed_cut_of(ops, nodes, &quints[k], k)?;
        match timed_cuts.push(timed_cut) {
            Ok(()) => {}
            Err(_) => return Err(OpFault::OutOfMemory),
        }
    }
    Ok(timed_cuts)
}
