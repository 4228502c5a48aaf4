//! The laws of this crate: each is the contract of a function that does nothing.

ghost use Rattle.net_core.specs.Cases.{OthersComplement, RowsTellTheBit};
ghost use Rattle.net_core.specs.OneRun.{OneRun};
ghost use Rattle.net_core.specs.Possible.{OnePossible};
ghost use Rattle.net_core.specs.Sets.{FirstSetsAreStarts};
ghost use Rattle.net_core.specs.Weakened.{WeakenedSetsGrow};

/// The first values of a latch are the bits that it may start with.
pub fn first_values()
    ensures { FirstSetsAreStarts }
{}

/// There is exactly one run of each length with given bits at inputs and free nets and given first
/// values.
pub fn one_run()
    ensures { OneRun }
{}

/// In a net without loops there is exactly one family of possible sets of one time.
pub fn one_possible()
    ensures { OnePossible }
{}

/// In a net without loops, weakening more nets takes no bit out of the possible sets of one time.
pub fn weakened_sets_grow()
    ensures { WeakenedSetsGrow }
{}

/// The on-rows of a cover match exactly where its bit is 1, and the off-rows exactly where it is 0.
pub fn rows_tell_the_bit()
    ensures { RowsTellTheBit }
{}

/// The rows that a cover leaves out match exactly the bits that no row of it matches, and are at
/// most as many as its cases.
pub fn others_complement()
    ensures { OthersComplement }
{}
