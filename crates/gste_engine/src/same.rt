//! Whether two states have the same references; begin with `same_state`.

ghost use Rattle.std.specs.Prelude.{◌≡◌, ◌↔◌, IsTrue};

use crate::state::State;
use dual_rail::Rails;

/// Whether two lists of sets have the same references.
fn same_sets(one: &[Rails], other: &[Rails]) -> bool
    ensures { IsTrue result ↔ one.now ≡ other.now }
{
    if one.len() != other.len() {
        return false;
    }
    for k in 0..one.len() {
        if one[k] != other[k] {
            return false;
        }
    }
    true
}

/// Whether two states have the same references.
pub fn same_state(one: &State, other: &State) -> bool
    ensures { IsTrue result ↔ one.now ≡ other.now }
{
    one.reached == other.reached && same_sets(one.latches.as_slice(), other.latches.as_slice())
}
