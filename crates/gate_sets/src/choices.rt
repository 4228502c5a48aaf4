//! The sets that gates of at most three inputs give where those of their inputs are constants: a
//! bit of a word for each choice of constants. `Choices::of` makes the words of a cover, and
//! `choice_of` finds the choice of some inputs. They are put together in `constant_set` of
//! `ways.rt`.

ghost use Rattle.std.specs.Prelude.{◌≡◌, ◌≢◌, ◌↔◌, ◌≤◌, ◌<◌, ◌^◌, ◌/◌, ℕ, All, IsTrue, length, max};
ghost use Rattle.std.specs.Int.{bit_at};
ghost use Rattle.net_core.specs.Work.{AreWide};
ghost use Rattle.gate_sets.specs.Constants.{AreConstant, HaveChoice};
ghost use Rattle.gate_sets.specs.private.Choices.{AreChoices, IsChoice, IsDigit};
ghost use Rattle.gate_sets.specs.NetSets.{net_at};

use crate::net_rails::NetRails;
use crate::words::{Digits, rows_word};
use dd_nodes::Ref;
use dual_rail::are_constant;
use net_core::Row;
use ste_base::NodeId;

/// The number of choices of constant sets for three inputs.
pub const CHOICES: usize = 64;

/// The most inputs of a cover with choices.
const MOST_INPUTS: u32 = 3;

/// For a cover of at most three inputs, whether its gate can be 0, and whether it can be 1, for
/// each choice of constant sets of the inputs: a bit of a word for each choice. The digits of a
/// choice to the base 4, from the lowest on, are the sets of the inputs, from the first on: 1 where
/// a set has 0, and 2 more where it has 1.
#[derive(Clone, Copy, Drop)]
pub struct Choices {
    pub can0: u64,
    pub can1: u64,
}

impl Choices {
    /// The choices of a cover with so many inputs, by the rows that match where it is 1, and where
    /// it is 0. Where there are more than three inputs the words say nothing.
    pub fn of(width: u32, on: &[Row], off: &[Row]) -> Choices
        requires on { AreWide on.now width }
        requires off { AreWide off.now width }
        ensures { width ≤ 3 → AreChoices on.now off.now result }
    {
        if width > MOST_INPUTS {
            return Choices { can0: 0, can1: 0 };
        }
        Choices {
            can0: rows_word(Digits::Sets, off),
            can1: rows_word(Digits::Sets, on),
        }
    }

    /// The set of the gate's output for this choice.
    pub fn net(self, choice: usize) -> NetRails
        requires { choice < 64 }
        ensures zero { result.can0.0 ≡ bit_at self.can0 choice }
        ensures one { result.can1.0 ≡ bit_at self.can1 choice }
        ensures some { result.some.0 ≡ max result.can0.0 result.can1.0 }
        ensures known { IsTrue result.known ↔ (result.can0.0 ≢ result.can1.0) }
    {
        let can0 = ((self.can0 >> choice) & 1) as u32;
        let can1 = ((self.can1 >> choice) & 1) as u32;
        NetRails {
            can0: Ref(can0),
            can1: Ref(can1),
            some: Ref(can0.max(can1)),
            known: can0 != can1,
        }
    }
}

/// The digit of a net whose set is a constant, and 64 where it is none.
fn digit(nets: &[NetRails], input: NodeId) -> usize
    requires { input.0 < length nets.now }
    ensures within { result ≤ 64 }
    ensures digit { result < 64 → IsDigit (net_at nets.now input.0) result }
    ensures constant { result < 64 ↔ AreConstant (net_at nets.now input.0) }
{
    let r = nets[input.0 as usize];
    if are_constant(r.can0, r.can1) {
        (r.can0.0 + 2 * r.can1.0) as usize
    } else {
        CHOICES
    }
}

/// The choice which the sets of these nets are, where they are at most three, and constants; else
/// no number below 64.
pub fn choice_of(nets: &[NetRails], inputs: &[NodeId]) -> usize
    requires { All (λ input. input.0 < length nets.now) inputs.now }
    ensures choice { result < 64 → IsChoice nets.now inputs.now result }
    ensures constant { result < 64 ↔ HaveChoice nets.now inputs.now }
{
    match inputs {
        [] => 0,
        [a] => digit(nets, *a),
        [a, b] => digit(nets, *a) + 4 * digit(nets, *b),
        [a, b, c] => digit(nets, *a) + 4 * digit(nets, *b) + 16 * digit(nets, *c),
        _ => CHOICES,
    }
}
