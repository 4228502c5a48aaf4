//! The sets of nets with where they have a bit; begin with `NetRails`.

ghost use Rattle.std.specs.Prelude.{◌≡◌, false};
ghost use Rattle.dd_nodes.specs.Diagram.{IsDiagram};
ghost use Rattle.dd_nodes.specs.Stores.{Store, IsRef, Means};
ghost use Rattle.net_core.specs.Work.{SymbolicSet, factor};
ghost use Rattle.gate_sets.specs.private.Refused.{other_factor};
ghost use Rattle.gate_sets.specs.NetSets.{AreNetRails, AreNetRefs};

use dd_nodes::Ref;
use dual_rail::Rails;
use net_core::Lit;

/// The set of a net: it has 0 where `can0` is 1, 1 where `can1` is 1, and some bit where `some` is
/// 1. For nearly all nets `some` is the constant 1. A net that is `known` has exactly one bit under
/// each assignment.
#[derive(Clone, Copy, PartialEq, Eq, Drop)]
pub struct NetRails {
    pub can0: Ref,
    pub can1: Ref,
    pub some: Ref,
    pub known: bool,
}

impl NetRails {
    /// The set of both bits.
    pub fn free() -> NetRails
        ensures { result
            ≡ record { can0 = Ref.TRUE; can1 = Ref.TRUE; some = Ref.TRUE; known = false } }
    {
        NetRails {
            can0: Ref::TRUE,
            can1: Ref::TRUE,
            some: Ref::TRUE,
            known: false,
        }
    }

    /// The set without where it has a bit.
    pub fn rails(self) -> Rails
        ensures { result ≡ record { can0 = self.can0; can1 = self.can1 } }
    {
        Rails {
            can0: self.can0,
            can1: self.can1,
        }
    }

    /// What a literal asks of the set.
    pub fn factor(self, lit: Lit) -> Ref
        ensures ref_of { (s : Store) → AreNetRefs s self → IsRef s result }
        ensures means { (s : Store) (w : SymbolicSet) → AreNetRails s w self
            → Means s (factor lit w) result }
    {
        match lit {
            Lit::Zero => self.can0,
            Lit::One => self.can1,
            Lit::Any => self.some,
        }
    }

    /// What a literal refuses of the set.
    pub fn other(self, lit: Lit) -> Ref
        ensures ref_of { (s : Store) → IsDiagram s.held s.vars → AreNetRefs s self
            → IsRef s result }
        ensures means { (s : Store) (w : SymbolicSet) → IsDiagram s.held s.vars
            → AreNetRails s w self → Means s (other_factor lit w) result }
    {
        match lit {
            Lit::Zero => self.can1,
            Lit::One => self.can0,
            Lit::Any => Ref::FALSE,
        }
    }
}
