//! How a node lies in a word, and where the search for a word begins: all that depends on the
//! word's layout.

ghost use Rattle.std.specs.Prelude.{◌≡◌, ◌≢◌, ◌<◌, ◌^◌};
ghost use Rattle.ste_base.specs.Limits.{most_variables};
ghost use Rattle.dd_table.specs.Layout.{node_in_word, walk_slot};

use dd_nodes::{Node, Ref};

/// The word of a node. It is not 0 where the children differ.
pub(crate) fn word_of_node(node: Node) -> u64
    requires var { node.var < most_variables }
    requires lo { node.lo.0 < 2 ^ 26 }
    requires hi { node.hi.0 < 2 ^ 26 }
    ensures node { node_in_word result ≡ node }
    ensures some { node.lo.0 ≢ node.hi.0 → result ≢ 0 }
{
    (node.var as u64) * (1 << 52) + (node.lo.0 as u64) * (1 << 26) + node.hi.0 as u64
}

/// The node in a word.
pub(crate) fn node_of_word(word: u64) -> Node
    ensures { result ≡ node_in_word word }
{
    Node {
        var: (word >> 52) as u32,
        lo: Ref(((word >> 26) % (1 << 26)) as u32),
        hi: Ref((word % (1 << 26)) as u32),
    }
}

/// The first slot on the walk of a word.
pub(crate) fn home_of_word(word: u64, slots: u32) -> u32
    requires { 0 < slots }
    ensures { (result ≡ walk_slot slots word 0) × (result < slots) }
{
    let mixed = word.wrapping_mul(11400714819323198485) >> 32;
    (mixed % slots as u64) as u32
}
