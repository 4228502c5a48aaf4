//! Stores that share out their steps; begin with `Split`.

ghost use Rattle.std.specs.Prelude.{◌≡◌, ◌+◌, ◌≤◌, length};
ghost use Rattle.dd_nodes.specs.Stores.{Unites, gives_up, gets};

use crate::nodes::Nodes;

/// Stores over one table, between which the nodes that may be made are shared out. Neither
/// call takes memory.
pub trait Split: Nodes + Drop {
    /// Another store on the same table, with the same nodes. It has made nothing, and may make
    /// `quota` of the nodes that this one may still make.
    fn fork(&mut self, quota: u32) -> Self
        requires { quota + length (Self.store self.old).made ≤ (Self.store self.old).limit }
        ensures left { Self.store self.new ≡ gives_up quota (Self.store self.old) }
        ensures new { Self.store result ≡ gets quota (Self.store self.old) };

    /// Takes in the nodes of a store on the same table, and what it made and may make.
    fn merge(&mut self, other: Self)
        requires { (Self.store other).table ≡ (Self.store self.old).table }
        ensures { Unites (Self.store self.old) (Self.store other) (Self.store self.new) };
}
