//! From the words to the command: `command_of`.

ghost use Rattle.std.specs.Prelude.{◌≡◌, IfOk, codes, map, option_map, false, List, ℕ, Some};
ghost use Rattle.clap.specs.Words.{all_of, app_of, first_of, found_of, rows_of, rule_of};
ghost use Rattle.command_line.specs.App.{command_app, files_rule, flag_rule, option_rule};
ghost use Rattle.command_line.specs.Command.{
  action_in,
  action_of,
  command_in,
  command_of,
  is_set,
  number_or,
  steps_given,
  with_one,
  with_two,
};
ghost use Rattle.command_line.specs.View.{view_of};

use crate::command::{Action, Command};
use crate::number::number_given;
use clap::error::ErrorKind;
use clap::{Arg, ArgAction, ArgMatches};
use std::alloc::{AllocError, Global};

/// An option with one value.
fn option<'a>(alloc: Global, name: &'a str) -> Arg<'a>
    ensures rule { rule_of result ≡ option_rule name.now }
    ensures local { result.global ≡ false }
{
    Arg::new(alloc, name).long(name).action(ArgAction::Set)
}

/// A flag.
fn flag<'a>(alloc: Global, name: &'a str) -> Arg<'a>
    ensures rule { rule_of result ≡ flag_rule name.now }
    ensures local { result.global ≡ false }
{
    Arg::new(alloc, name).long(name).action(ArgAction::SetTrue)
}

/// The files, or the number of `bench`.
fn files<'a>(alloc: Global) -> Arg<'a>
    ensures rule { rule_of result ≡ files_rule }
    ensures local { result.global ≡ false }
{
    Arg::new(alloc, "FILES")
        .action(ArgAction::Append)
        .num_args(1..=2)
}

/// The command, as `clap` is to read it.
fn reader<'a>(alloc: Global) -> Result<clap::Command<'a>, AllocError>
    ensures { IfOk result (λ c. app_of c ≡ command_app) }
{
    clap::Command::new(alloc, "stework")
        .arg(Arg::new(alloc, "ACTION"))?
        .arg(files(alloc))?
        .arg(option(alloc, "workers"))?
        .arg(option(alloc, "steps"))?
        .arg(option(alloc, "cubes"))?
        .arg(flag(alloc, "wave"))?
        .arg(flag(alloc, "nodes"))
}

/// The text of an argument; none where it has none.
fn text_of<'a>(matches: &ArgMatches<'a>, id: &str) -> Option<&'a str>
    ensures { option_map (λ t. t.now) result ≡ first_of id.now (rows_of (found_of matches.now)) }
{
    matches.get_str(id)
}

/// Whether a flag is given.
fn is_set(matches: &ArgMatches, id: &str) -> bool
    ensures { result ≡ is_set id.now (rows_of (found_of matches.now)) }
{
    match text_of(matches, id) {
        Some(text) => text == "true",
        None => false,
    }
}

/// The one name, where there is exactly one.
fn one<'a>(names: &[&'a str]) -> Option<&'a str>
    ensures { option_map (λ t. t.now) result ≡ with_one (λ t. Some t) (map (λ t. t.now) names.now) }
{
    match names {
        [name] => Some(*name),
        _ => None,
    }
}

/// The two names, where there are exactly two.
fn two<'a>(names: &[&'a str]) -> Option<(&'a str, &'a str)>
    ensures { option_map {U = List ℕ × List ℕ} (λ p. (p.0.now, p.1.now)) result ≡
        with_two (λ s t. Some (s, t)) (map (λ t. t.now) names.now) }
{
    match names {
        [first, second] => Some((*first, *second)),
        _ => None,
    }
}

/// The action that a word names, with its files or its number.
fn action_of<'a>(word: &str, files: &[&'a str]) -> Option<Action<'a>>
    ensures { option_map view_of result ≡ action_of word.now (map (λ t. t.now) files.now) }
{
    if word == "check" {
        let (net, tasks) = two(files)?;
        Some(Action::Check { net, tasks })
    } else if word == "info" {
        let net = one(files)?;
        Some(Action::Info { net })
    } else if word == "sim" {
        let (net, inputs) = two(files)?;
        Some(Action::Sim { net, inputs })
    } else if word == "bench" {
        let stages = number_given(one(files)?, 1000)?;
        Some(Action::Bench { stages })
    } else {
        None
    }
}

/// The words behind the action; none where there are none.
fn files_of<'m, 'a>(matches: &'m ArgMatches<'a>) -> Option<&'m [&'a str]>
    ensures { option_map (λ s. map (λ t. t.now) s.now) result ≡
        all_of (codes "FILES") (rows_of (found_of matches.now)) }
{
    matches.get_strs("FILES")
}

/// The action that the matches ask for.
fn action_in<'a>(matches: &ArgMatches<'a>) -> Option<Action<'a>>
    ensures { option_map view_of result ≡ action_in (rows_of (found_of matches.now)) }
{
    let word = text_of(matches, "ACTION")?;
    action_of(word, files_of(matches)?)
}

/// The number of an option, the usual one where it is not given.
fn number_or(text: Option<&str>, usual: u32, greatest: u32) -> Option<u32>
    ensures { result ≡ number_or usual greatest (option_map (λ t. t.now) text.entry) }
{
    match text {
        Some(text) => {
            let number = number_given(text, u64::from(greatest))?;
            Some(number as u32)
        }
        None => Some(usual),
    }
}

/// The steps, where they are given.
fn steps_given(text: Option<&str>, greatest: u64) -> Option<Option<u64>>
    ensures { result ≡ steps_given greatest (option_map (λ t. t.now) text.entry) }
{
    match text {
        Some(text) => Some(Some(number_given(text, greatest)?)),
        None => Some(None),
    }
}

/// The command that the matches ask for.
fn command_in<'a>(matches: &ArgMatches<'a>) -> Option<Command<'a>>
    ensures { result ≡ command_in (rows_of (found_of matches.now)) }
{
    let action = action_in(matches)?;
    let workers = number_or(text_of(matches, "workers"), 4, 64)?;
    let steps = steps_given(text_of(matches, "steps"), 16_000_000)?;
    let cubes = number_or(text_of(matches, "cubes"), 8, 64)?;
    Some(Command {
        action,
        workers,
        steps,
        cubes,
        wave: is_set(matches, "wave"),
        nodes: is_set(matches, "nodes"),
    })
}

/// The command that the words ask for, the program's name first; none where they ask for none,
/// which is the usage refusal: where `clap`'s reading refuses the words (a request for help is one
/// of its refusals), the action is none of the four, its files are not as many as it takes, or a
/// number is out of its range. The only error is out of memory.
pub fn command_of<'a>(alloc: Global, words: &'a [String]) -> Result<Option<Command<'a>>, AllocError>
    ensures { IfOk result (λ found. found ≡ command_of words.now) }
{
    match reader(alloc)?.try_get_matches_from(words) {
        Ok(matches) => Ok(command_in(&matches)),
        Err(error) => {
            if error.kind() == ErrorKind::OutOfMemory {
                return Err(AllocError);
            }
            Ok(None)
        }
    }
}
