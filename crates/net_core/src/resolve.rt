//! What names the nets of a netlist; begin with `Resolve`.

ghost use Rattle.std.specs.Prelude.{◌≡◌, ℕ, List, Option};
ghost use Rattle.std.specs.Option.{option_map};

use ste_base::NodeId;

/// The names of the nets of a netlist: a text names one net, or none.
pub trait Resolve {
    ghost net_of: { Self → List ℕ → Option ℕ };

    /// The net that a text names; None where it names none. It takes no memory.
    fn resolve(&self, text: &[u8]) -> Option<NodeId>
        ensures { option_map (λ id. id.0) result ≡ net_of self.now text.now };
}
