//! The files that a command reads.
ghost use Rattle.std.specs.Prelude.{◌≡◌, option_map};
ghost use Rattle.command_line.specs.View.{view_of};
ghost use Rattle.ste_program.specs.Command.{file_name, file_of, net_file, second_file};

use crate::refusal::File;
use command_line::{Action, Command};

/// The name of the netlist's file of an action.
fn net_file<'a>(action: &Action<'a>) -> Option<&'a str>
    ensures { option_map (λ name. name.now) result ≡ net_file (view_of action.now) }
{
    match action {
        Action::Check { net, .. } => Some(*net),
        Action::Info { net } => Some(*net),
        Action::Sim { net, .. } => Some(*net),
        Action::Bench { .. } => None,
    }
}

/// The name of the second file of an action.
fn second_file<'a>(action: &Action<'a>) -> Option<&'a str>
    ensures { option_map (λ name. name.now) result ≡ second_file (view_of action.now) }
{
    match action {
        Action::Check { tasks, .. } => Some(*tasks),
        Action::Info { .. } => None,
        Action::Sim { inputs, .. } => Some(*inputs),
        Action::Bench { .. } => None,
    }
}

/// The name of a file of a command; none where its action has no such file.
pub fn file_of<'a>(command: &Command<'a>, which: File) -> Option<&'a str>
    ensures { option_map (λ name. name.now) result ≡ file_of command.now.action which }
{
    match which {
        File::Net => net_file(&command.action),
        File::Second => second_file(&command.action),
    }
}

/// The name of a file as messages have it.
pub fn file_name<'a>(command: &Option<Command<'a>>, which: File) -> &'a str
    ensures { result.now ≡ file_name command.now which }
{
    match command {
        None => "",
        Some(command) => match file_of(command, which) {
            None => "",
            Some(name) => name,
        },
    }
}
