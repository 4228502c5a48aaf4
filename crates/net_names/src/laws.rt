//! The laws of this crate: each is the contract of a function that does nothing.

ghost use Rattle.net_names.specs.Names.{NamedInRange, NamesAreResolved};

/// By the parts of the names of a hierarchy, a text names what it names in that hierarchy.
pub fn names_are_resolved()
    ensures { NamesAreResolved }
{}

/// What a text names in a hierarchy is the number of a net.
pub fn named_in_range()
    ensures { NamedInRange }
{}
