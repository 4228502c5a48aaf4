//! What a quicker attempt at an exact check comes to; see `Quick`.

use crate::showing::Shown;
use engine_parts::Results;

/// The exactly strong and the exactly contradictory assignments, by references of the store in
/// which the attempt was made, and what is shown of a failure. No assignment is weak.
#[derive(Drop)]
pub struct Quick {
    pub sets: Results,
    pub shown: Shown,
}
