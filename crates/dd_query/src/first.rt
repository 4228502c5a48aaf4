//! The least assignment at which a diagram is 1; begin with `least`.

ghost use Rattle.std.specs.Prelude.{◌≡◌, ◌≢◌, IfOk, IsTrue};
ghost use Rattle.dd_nodes.specs.Diagram.{IsFrom};
ghost use Rattle.dd_nodes.specs.Stores.{IsRef, function};
ghost use Rattle.dd_query.specs.private.Leading.{Leads};
ghost use Rattle.ste_model.specs.Least.{IsLeast, IsLeastOf};

use dd_nodes::{Nodes, Ref};
use std::alloc::{AllocError, Global};
use ste_base::Items;

/// A bit of a variable, and what a diagram is with it.
#[derive(Clone, Copy, Drop)]
pub struct Lead {
    pub bit: bool,
    pub rest: Ref,
}

/// The lesser bit of the variable with which the diagram has a 1 anywhere.
fn first_half<N: Nodes>(nodes: &mut N, r: Ref, var: u32) -> Lead
    requires from { IsFrom (N.store nodes.old).held var r }
    requires open { r.0 ≢ 0 }
    ensures leads { Leads (N.store nodes.old).held var r result }
    ensures store { N.store nodes.new ≡ N.store nodes.old }
{
    if r.0 < 2 {
        return Lead {
            bit: false,
            rest: r,
        };
    }
    let node = nodes.node(r);
    if node.var != var {
        return Lead {
            bit: false,
            rest: r,
        };
    }
    if node.lo.0 == 0 {
        return Lead {
            bit: true,
            rest: node.hi,
        };
    }
    Lead {
        bit: false,
        rest: node.lo,
    }
}

/// The least assignment at which a diagram that is not `FALSE` is 1, variable by variable.
fn least_of<N: Nodes>(alloc: Global, nodes: &mut N, r: Ref) -> Result<Items<bool>, AllocError>
    requires held { IsRef (N.store nodes.old) r }
    requires open { r.0 ≢ 0 }
    ensures least { IfOk result (λ bits. IsLeast (N.store nodes.old).vars
        (λ other. IsTrue (function (N.store nodes.old) r other)) bits) }
    ensures store { N.store nodes.new ≡ N.store nodes.old }
{
    let mut at = r;
    let mut bits = Items::new(alloc);
    for var in 0..nodes.vars() {
        let next = first_half(nodes, at, var);
        bits.push(next.bit)?;
        at = next.rest;
    }
    Ok(bits)
}

/// The least assignment at which the function of a reference is 1, a bit for each variable of the
/// store, 0 before 1; None exactly where the function is 0 everywhere. It looks at a node for each
/// variable at most.
pub fn least<N: Nodes>(
    alloc: Global,
    nodes: &mut N,
    r: Ref,
) -> Result<Option<Items<bool>>, AllocError>
    requires held { IsRef (N.store nodes.old) r }
    ensures least { IfOk result (λ found. IsLeastOf (N.store nodes.old).vars
        (function (N.store nodes.old) r) found) }
    ensures store { N.store nodes.new ≡ N.store nodes.old }
{
    if r == Ref::FALSE {
        return Ok(None);
    }
    let bits = least_of(alloc, nodes, r)?;
    Ok(Some(bits))
}
