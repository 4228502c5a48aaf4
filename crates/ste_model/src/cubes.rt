//! Sets of assignments as lists of cubes; begin with `CubeList`.

use ste_base::{Items, VarId};

/// The assignments in which some variables have these bits: different variables, in the order of
/// declaration. The blank cube has all assignments.
pub type Cube = Items<(VarId, bool)>;

/// The first cubes of a list of cubes, in its order, and whether it has more.
#[derive(Debug, Drop)]
pub struct CubeList {
    pub cubes: Items<Cube>,
    pub more: bool,
}
