//! Products, sums and opposites of diagrams with a look at the constants first: `both`, `either`,
//! `opposite` and `except`.

ghost use Rattle.std.specs.Prelude.{◌≡◌, ◌↔◌, ◌<◌, ◌&&◌, ◌||◌, IsTrue, not};
ghost use Rattle.dd_nodes.specs.Stores.{IsRef, function};
ghost use Rattle.dd_ops.specs.Answer.{Answer};

use dd_nodes::{Nodes, Ref};
use dd_ops::{OpFault, Ops};

/// Whether both references are of constants.
pub fn are_constant(a: Ref, b: Ref) -> bool
    ensures { IsTrue result ↔ ((a.0 < 2) × (b.0 < 2)) }
{
    a.0.max(b.0) < 2
}

/// The product of two functions. Where one is a constant nothing is called.
pub fn both<N: Nodes>(ops: &Ops, nodes: &mut N, a: Ref, b: Ref) -> Result<Ref, OpFault>
    requires left { IsRef (N.store nodes.old) a }
    requires right { IsRef (N.store nodes.old) b }
    ensures { Answer
        (λ bits. function (N.store nodes.old) a bits && function (N.store nodes.old) b bits)
        (N.store nodes.old) (N.store nodes.new) result }
{
    if are_constant(a, b) {
        return Ok(Ref(a.0.min(b.0)));
    }
    if a == Ref::TRUE {
        return Ok(b);
    }
    if b == Ref::TRUE {
        return Ok(a);
    }
    if a == Ref::FALSE {
        return Ok(a);
    }
    if b == Ref::FALSE {
        return Ok(b);
    }
    ops.and(nodes, a, b)
}

/// The sum of two functions. Where one is a constant nothing is called.
pub fn either<N: Nodes>(ops: &Ops, nodes: &mut N, a: Ref, b: Ref) -> Result<Ref, OpFault>
    requires left { IsRef (N.store nodes.old) a }
    requires right { IsRef (N.store nodes.old) b }
    ensures { Answer
        (λ bits. function (N.store nodes.old) a bits || function (N.store nodes.old) b bits)
        (N.store nodes.old) (N.store nodes.new) result }
{
    if are_constant(a, b) {
        return Ok(Ref(a.0.max(b.0)));
    }
    if a == Ref::FALSE {
        return Ok(b);
    }
    if b == Ref::FALSE {
        return Ok(a);
    }
    if a == Ref::TRUE {
        return Ok(a);
    }
    if b == Ref::TRUE {
        return Ok(b);
    }
    ops.or(nodes, a, b)
}

/// The negation of a function. Of a constant it is the other one, and nothing is called.
pub fn opposite<N: Nodes>(ops: &Ops, nodes: &mut N, a: Ref) -> Result<Ref, OpFault>
    requires { IsRef (N.store nodes.old) a }
    ensures { Answer (λ bits. not (function (N.store nodes.old) a bits))
        (N.store nodes.old) (N.store nodes.new) result }
{
    if a == Ref::TRUE {
        return Ok(Ref::FALSE);
    }
    if a == Ref::FALSE {
        return Ok(Ref::TRUE);
    }
    ops.not(nodes, a)
}

/// The product of a function and the negation of another, in one call and without the negation.
pub fn except<N: Nodes>(ops: &Ops, nodes: &mut N, a: Ref, b: Ref) -> Result<Ref, OpFault>
    requires left { IsRef (N.store nodes.old) a }
    requires right { IsRef (N.store nodes.old) b }
    ensures { Answer
        (λ bits. function (N.store nodes.old) a bits && not (function (N.store nodes.old) b bits))
        (N.store nodes.old) (N.store nodes.new) result }
{
    ops.ite(nodes, b, Ref::FALSE, a)
}
