//! What a derivation comes to; begin with `Proof`.

ghost use Rattle.std.specs.Prelude.{◌≡◌};

use ste_base::{Items, Name};
use ste_model::Assertion;

/// A derivation: its last step, as an assertion of the step's name without weakenings, and the
/// numbers of the tasks of its leaves, in the order of the lines.
#[derive(Drop)]
pub struct Proof {
    pub(crate) last: Assertion,
    pub(crate) leaves: Items<u32>,
}

impl Proof {
    /// The numbers of the tasks of the leaves, in the order of their lines. It takes no memory.
    pub fn leaves(&self) -> &[u32]
        ensures { result.now ≡ self.now.leaves }
    {
        self.leaves.as_slice()
    }

    /// The assertion of the last step. It takes no memory.
    pub fn last(&self) -> &Assertion
        ensures { result.now ≡ self.now.last }
    {
        &self.last
    }

    /// The name of the last step. It takes no memory.
    pub fn last_name(&self) -> &Name
        ensures { result.now ≡ self.now.last.name }
    {
        &self.last.name
    }
}
