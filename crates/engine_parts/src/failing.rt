//! How a consequent fails where all references are constants; begin with `first_failing`.

ghost use Rattle.std.specs.Prelude.{◌≡◌, ◌<◌, All, length};
ghost use Rattle.sym_step.specs.Frame.{nets_of};
ghost use Rattle.engine_parts.specs.Failing.{constant_ref, fails, first_failing};

use dd_nodes::Ref;
use dual_rail::Rails;
use ste_base::NodeId;
use sym_step::{Cut, Frame};

/// How a consequent fails: its net can only have the opposite bit, or can have both.
#[derive(Clone, Copy, PartialEq, Eq, Drop)]
pub enum Failure {
    Strong,
    Weak,
}

/// The constant of a bit.
pub fn constant(bit: bool) -> Ref
    ensures { result ≡ constant_ref bit }
{
    if bit { Ref::TRUE } else { Ref::FALSE }
}

/// Whether a consequent fails so on a set of its net.
fn fails(failure: Failure, r: Rails, c: Cut) -> bool
    ensures { result ≡ fails failure r c }
{
    let can0 = r.can0 == Ref::TRUE;
    let can1 = r.can1 == Ref::TRUE;
    if c.guard != Ref::TRUE {
        return false;
    }
    match failure {
        Failure::Strong => {
            if c.value == Ref::TRUE {
                can0 && !can1
            } else {
                can1 && !can0
            }
        }
        Failure::Weak => can0 && can1,
    }
}

/// The net of the first consequent that fails so, on the sets of all nets.
pub fn first_failing(failure: Failure, nets: &[Rails], cuts: &[Cut]) -> Option<NodeId>
    requires { All (λ c. c.node.0 < length nets.now) cuts.now }
    ensures { result ≡ first_failing failure nets.now cuts.now }
{
    for c in cuts {
        if fails(failure, nets[c.node.0 as usize], *c) {
            return Some(c.node);
        }
    }
    None
}

/// The net of the first consequent that fails so, on the sets of a frame.
pub fn first_failing_in(failure: Failure, frame: &Frame, cuts: &[Cut]) -> Option<NodeId>
    requires { All (λ c. c.node.0 < length (nets_of frame.now)) cuts.now }
    ensures { result ≡ first_failing failure (nets_of frame.now) cuts.now }
{
    for c in cuts {
        if fails(failure, frame.rails(c.node), *c) {
            return Some(c.node);
        }
    }
    None
}
