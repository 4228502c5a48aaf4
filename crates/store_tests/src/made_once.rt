//! What each store does with the diagrams of variables; begin with `is_made_once`.

ghost use Rattle.std.specs.Prelude.{◌≡◌, ◌<◌, IfOk, Some};
ghost use Rattle.dd_nodes.specs.Stores.{Keeps, node_of};

use dd_nodes::{MkFault, Node, Nodes, Ref};

/// The diagram of a variable.
pub fn variable<N: Nodes>(nodes: &mut N, var: u32) -> Result<Ref, MkFault>
    requires { var < (N.store nodes.old).vars }
    ensures keeps { Keeps (N.store nodes.old) (N.store nodes.new) }
    ensures limit { (N.store nodes.new).limit ≡ (N.store nodes.old).limit }
    ensures ok { IfOk result (λ r.
        (N.store nodes.new).held r ≡ Some (node_of var Ref.FALSE Ref.TRUE)) }
{
    nodes.mk(var, Ref::FALSE, Ref::TRUE)
}

/// Whether an empty store of two variables that may make one node makes the node of a variable
/// once, and no more.
pub fn is_made_once<N: Nodes>(nodes: &mut N) -> bool
    requires { (N.store nodes.old).vars ≡ 2 }
    ensures { (N.store nodes.new).table ≡ (N.store nodes.old).table }
{
    let Ok(first) = variable(nodes, 0) else {
        return false;
    };
    let again = variable(nodes, 0);
    let second = variable(nodes, 1);
    let held = nodes.node(first);
    let node = Node {
        var: 0,
        lo: Ref::FALSE,
        hi: Ref::TRUE,
    };
    again == Ok(first)
        && second == Err(MkFault::StepsOut)
        && held == node
        && (nodes.used(), nodes.limit(), nodes.vars()) == (1, 1, 2)
}
