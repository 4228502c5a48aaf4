//! The nets that an assertion weakens, time after time; begin with `WeakLine`.

ghost use Rattle.std.specs.Prelude.{◌≡◌, ◌<◌, ◌≤◌, ℕ, List, IfOk, OnOk, length, map};
ghost use Rattle.ste_model.specs.declared.task.Weakening.{Weakening as AWeakening};
ghost use Rattle.ste_engine.specs.private.Weakened.{HasWeakened, IsWeakLine, weak_timed_cut, weak_timed_cuts};

use crate::timed_cuts::TimedCut;
use crate::timeline::Timeline;
use dd_nodes::Ref;
use std::alloc::{AllocError, Global};
use std::mem::replace;
use ste_base::{NodeId, Time};
use ste_model::Weakening;
use sym_step::Cut;

/// The weakenings as a timeline, and the nets of the time that it has come to, in text order.
#[derive(Drop)]
pub struct WeakLine {
    line: Timeline,
    nets: Vec<NodeId>,
}

/// A weakening as an entry of a timeline, which has the net and the times below the depth; what its
/// cut asks says nothing.
fn weak_timed_cut(weakening: &Weakening, depth: Time, place: usize) -> TimedCut
    ensures { result ≡ weak_timed_cut depth place weakening.now }
{
    TimedCut {
        cut: Cut {
            node: weakening.node,
            guard: Ref::FALSE,
            value: Ref::FALSE,
        },
        from: weakening.from,
        to: weakening.to.min(depth),
        place,
    }
}

/// The same of all weakenings, in order.
fn weak_timed_cuts(
    alloc: Global,
    weak: &[Weakening],
    depth: Time,
) -> Result<Vec<TimedCut>, AllocError>
    ensures { IfOk result (λ timed_cuts. timed_cuts.items ≡ weak_timed_cuts depth 0 weak.now) }
{
    let mut timed_cuts = Vec::with_capacity(alloc, weak.len())?;
    for k in 0..weak.len() {
        timed_cuts.push(weak_timed_cut(&weak[k], depth, k))?;
    }
    Ok(timed_cuts)
}

/// The nets of these cuts, in order, in this memory.
fn nets_of(used: Vec<NodeId>, cuts: &[Cut]) -> Result<Vec<NodeId>, AllocError>
    ensures { IfOk result (λ nets. nets.items ≡ map (λ c. c.node) cuts.now) }
{
    let mut nets = used;
    nets.clear();
    for c in cuts {
        nets.push(c.node)?;
    }
    Ok(nets)
}

impl WeakLine {
    /// The weakened nets, before time 0.
    pub fn of(alloc: Global, weak: &[Weakening], depth: Time) -> Result<WeakLine, AllocError>
        ensures { IfOk result (λ line. IsWeakLine weak.now depth 0 line) }
    {
        let timed_cuts = weak_timed_cuts(alloc, weak, depth)?;
        let line = Timeline::of(alloc, timed_cuts.as_slice(), depth)?;
        Ok(WeakLine {
            line,
            nets: Vec::new(alloc),
        })
    }

    /// Goes on to time t, whose turn it is. The line is not to be used where it fails.
    pub fn advance(&mut self, alloc: Global, t: Time) -> Result<(), AllocError>
        requires { t < length self.old.line.starts.items }
        ensures { OnOk result ((weak : List AWeakening) (depth : ℕ)
            → IsWeakLine weak depth t self.old → t < depth → HasWeakened weak depth t self.new) }
    {
        self.line.advance(alloc, t)?;
        let used = replace(&mut self.nets, Vec::new(alloc));
        self.nets = nets_of(used, self.line.cuts())?;
        Ok(())
    }

    /// The nets that are weakened at the time that it has come to, in text order. It takes no
    /// memory.
    pub fn nets(&self) -> &[NodeId]
        ensures { result.now ≡ self.now.nets.items }
    {
        &self.nets
    }
}
