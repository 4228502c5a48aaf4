//! The value of a diagram; begin with `eval`.

ghost use Rattle.std.specs.Prelude.{◌≡◌, length};
ghost use Rattle.dd_nodes.specs.Stores.{IsRef, function};

use dd_nodes::{Nodes, Ref};

/// The value of a reference under an assignment, which has a bit for each variable of the store. It
/// takes no memory, and looks at a node for each variable at most.
pub fn eval<N: Nodes>(nodes: &mut N, r: Ref, bits: &[bool]) -> bool
    requires held { IsRef (N.store nodes.old) r }
    requires long { length bits.now ≡ (N.store nodes.old).vars }
    ensures value { result ≡ function (N.store nodes.old) r bits.now }
    ensures store { N.store nodes.new ≡ N.store nodes.old }
{
    let mut at = r;
    while at.0 >= 2 {
        let node = nodes.node(at);
        at = if bits[node.var as usize] {
            node.hi
        } else {
            node.lo
        };
    }
    at == Ref::TRUE
}
