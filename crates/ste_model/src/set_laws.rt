//! The laws of sets of assignments, their cubes and their least one: each is the contract of a
//! function that does nothing.

ghost use Rattle.ste_model.specs.Cubes.{CubesAreExact, CubesFollowCases};
ghost use Rattle.ste_model.specs.CubeSamples.{CubesOfTwoVariables};
ghost use Rattle.ste_model.specs.Least.{OneLeast};

/// The cubes of a set are nothing where it is empty, the blank cube where it is full, those of one
/// cofactor where both are the same, and else those of both.
pub fn cubes_follow_cases()
    ensures { CubesFollowCases }
{}

/// An assignment of the set is in exactly one cube, any other in none.
pub fn cubes_are_exact()
    ensures { CubesAreExact }
{}

/// The cubes of each set of assignments of two variables.
pub fn cubes_of_two_variables()
    ensures { CubesOfTwoVariables }
{}

/// A set has one least assignment at most.
pub fn one_least()
    ensures { OneLeast }
{}
