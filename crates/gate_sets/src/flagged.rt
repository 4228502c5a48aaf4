//! Sets of which it may be known that they have exactly one bit; begin with `FlaggedRails`.

ghost use Rattle.std.specs.Prelude.{◌≡◌, ◌↔◌, IsTrue};
ghost use Rattle.dd_nodes.specs.Diagram.{IsDiagram};
ghost use Rattle.dd_nodes.specs.Stores.{Store};
ghost use Rattle.net_core.specs.Work.{SymbolicSet};
ghost use Rattle.dual_rail.specs.Rail.{AreRails};
ghost use Rattle.gate_sets.specs.NetSets.{IsKnown};

use dd_nodes::Ref;
use dual_rail::Rails;

/// A set between its cuts. One that is `known` has exactly one bit under each assignment.
#[derive(Clone, Copy, PartialEq, Eq, Drop)]
pub struct FlaggedRails {
    pub rails: Rails,
    pub known: bool,
}

/// Whether the rails are those of one constant bit.
pub fn is_constant(r: Rails) -> bool
    ensures { IsTrue result → (s : Store) (w : SymbolicSet)
        → IsDiagram s.held s.vars → AreRails s w r → IsKnown s.vars w }
{
    if r.can0 == Ref::TRUE {
        r.can1 == Ref::FALSE
    } else {
        r.can0 == Ref::FALSE && r.can1 == Ref::TRUE
    }
}

/// Whether the set is known to have exactly one bit: it has one where `known` says so.
pub fn is_clear(known: bool, r: Rails) -> bool
    ensures { IsTrue result → (s : Store) (w : SymbolicSet)
        → IsDiagram s.held s.vars → AreRails s w r → (IsTrue known → IsKnown s.vars w)
        → IsKnown s.vars w }
{
    known || is_constant(r)
}

/// Whether the rails are those of an unknown.
pub fn is_free(r: Rails) -> bool
    ensures { IsTrue result ↔ (r ≡ record { can0 = Ref.TRUE; can1 = Ref.TRUE }) }
{
    r.can0 == Ref::TRUE && r.can1 == Ref::TRUE
}
