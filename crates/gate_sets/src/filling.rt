//! What is known of the sets of a gate's inputs; begin with `filling_of`.

ghost use Rattle.std.specs.Prelude.{◌≡◌, ◌≢◌, ◌<◌, ◌↔◌, All, IsTrue, length};
ghost use Rattle.gate_sets.specs.declared.filling.Filling.TheVariants.{MayBeEmpty, TwoValued};
ghost use Rattle.gate_sets.specs.Fillings.{AreFilled};

use crate::net_rails::NetRails;
use dd_nodes::Ref;
use ste_base::NodeId;

/// What is known of the sets of several nets, under every assignment. Each case promises what those
/// before it do.
#[derive(Clone, Copy, PartialEq, Eq, Drop)]
pub enum Filling {
    /// Nothing: a set may be empty.
    MayBeEmpty,
    /// Each set has some bit.
    NonEmpty,
    /// Each set has exactly one bit.
    TwoValued,
}

impl Filling {
    /// Whether each set has some bit.
    pub fn is_full(self) -> bool
        ensures { IsTrue result ↔ (self ≢ MayBeEmpty) }
    {
        self != Filling::MayBeEmpty
    }

    /// Whether each set has exactly one bit.
    pub fn is_known(self) -> bool
        ensures { IsTrue result ↔ (self ≡ TwoValued) }
    {
        self == Filling::TwoValued
    }
}

/// What is known of these nets.
pub fn filling_of(nets: &[NetRails], inputs: &[NodeId]) -> Filling
    requires { All (λ input. input.0 < length nets.now) inputs.now }
    ensures { AreFilled result nets.now inputs.now }
{
    let mut filling = Filling::TwoValued;
    for input in inputs {
        let r = nets[input.0 as usize];
        if r.some != Ref::TRUE {
            return Filling::MayBeEmpty;
        }
        if !r.known {
            filling = Filling::NonEmpty;
        }
    }
    filling
}
