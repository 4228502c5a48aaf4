//! The law of this crate: the contract of a function that does nothing.

ghost use Rattle.command_line.specs.Bounds.{CommandsAreBounded};

/// The numbers of a command that words ask for are in their ranges.
pub fn commands_are_bounded()
    ensures { CommandsAreBounded }
{}
