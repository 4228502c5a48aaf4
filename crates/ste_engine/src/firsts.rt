//! Where each assignment fails first, as far as it is seen on the way; begin with `Firsts`.

ghost use Rattle.std.specs.Prelude.{◌≡◌, ◌<◌, ◌⊎◌, All, IfSome, None, Some, length};
ghost use Rattle.sym_step.specs.Frame.{nets_of};
ghost use Rattle.engine_parts.specs.declared.failing.Failure.TheVariants.{Strong, Weak};
ghost use Rattle.ste_engine.specs.private.Firsts.{IsFirstAt, are_fixed, first_at, is_fixed, place_or};

use crate::results::Found;
use dd_nodes::Ref;
use dual_rail::Rails;
use engine_parts::{Failure, first_failing_in};
use ste_base::{NodeId, Time};
use sym_step::{Cut, Frame};

/// For each way to fail the net of a consequent and the time step at which each assignment fails so
/// first, where it is known that there is such a place: all is constant there, and nothing was
/// found before.
#[derive(Clone, Copy, PartialEq, Eq, Drop)]
pub struct Firsts {
    pub strong: Option<(NodeId, Time)>,
    pub weak: Option<(NodeId, Time)>,
}

/// Whether a consequent's guard and value are constants, and so is the set of its net.
fn is_fixed(r: Rails, c: Cut) -> bool
    ensures { result ≡ is_fixed r c }
{
    r.can0.0.max(r.can1.0) < 2 && c.guard.0.max(c.value.0) < 2
}

/// Whether this is so of each of these consequents, on the sets of a frame.
fn are_fixed(frame: &Frame, cuts: &[Cut]) -> bool
    requires { All (λ c. c.node.0 < length (nets_of frame.now)) cuts.now }
    ensures { result ≡ are_fixed (nets_of frame.now) cuts.now }
{
    for c in cuts {
        if !is_fixed(frame.rails(c.node), *c) {
            return false;
        }
    }
    true
}

/// The net of the consequent that fails so first at a time under each assignment, where the sums
/// before and behind the time say that it is the first time, and all is constant.
fn first_at(
    failure: Failure,
    frame: &Frame,
    cuts: &[Cut],
    before: Ref,
    after: Ref,
) -> Option<NodeId>
    requires { All (λ c. c.node.0 < length (nets_of frame.now)) cuts.now }
    ensures { result ≡ first_at failure (nets_of frame.now) cuts.now before after }
{
    if before != Ref::FALSE || after == Ref::FALSE {
        return None;
    }
    if !are_fixed(frame, cuts) {
        return None;
    }
    first_failing_in(failure, frame, cuts)
}

/// The place of a net at a time, or else that of before.
fn place_or(
    node: Option<NodeId>,
    time: Time,
    first: Option<(NodeId, Time)>,
) -> Option<(NodeId, Time)>
    ensures { result ≡ place_or node time first }
{
    match node {
        Some(node) => Some((node, time)),
        None => first,
    }
}

impl Firsts {
    /// No place is known yet.
    pub fn none() -> Firsts
        ensures strong { result.strong ≡ None }
        ensures weak { result.weak ≡ None }
    {
        Firsts {
            strong: None,
            weak: None,
        }
    }

    /// The same behind one more time, whose sets the frame has, from what was found before it and
    /// with it.
    pub fn with_time(
        self,
        frame: &Frame,
        cuts: &[Cut],
        before: Found,
        after: Found,
        time: Time,
    ) -> Firsts
        requires { All (λ c. c.node.0 < length (nets_of frame.now)) cuts.now }

        // The place of this time where it is known, and else that of before.
        ensures is_strong { result.strong ≡ place_or
            (first_at Strong (nets_of frame.now) cuts.now before.strong after.strong)
            time self.strong }
        ensures is_weak { result.weak ≡ place_or
            (first_at Weak (nets_of frame.now) cuts.now before.weak after.weak)
            time self.weak }

        // So a place is that of before, or the first one under each assignment.
        ensures strong { IfSome result.strong (λ place. (self.strong ≡ Some place)
            ⊎ (IsFirstAt Strong (nets_of frame.now) cuts.now before.strong place.0
            × (place.1 ≡ time))) }
        ensures weak { IfSome result.weak (λ place. (self.weak ≡ Some place)
            ⊎ (IsFirstAt Weak (nets_of frame.now) cuts.now before.weak place.0
            × (place.1 ≡ time))) }
    {
        let strong = first_at(Failure::Strong, frame, cuts, before.strong, after.strong);
        let weak = first_at(Failure::Weak, frame, cuts, before.weak, after.weak);
        Firsts {
            strong: place_or(strong, time, self.strong),
            weak: place_or(weak, time, self.weak),
        }
    }
}
