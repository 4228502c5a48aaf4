//! The texts of a command: `texts_of` fetches its files, in order.
ghost use Rattle.std.specs.Prelude.{MatchResult, Some, option_map};
ghost use Rattle.ste_program.specs.Answer.{WhyNoReport};
ghost use Rattle.ste_program.specs.private.Texts.{AreTexts, FileFails, IsAvailable, WhyNoFile};

use crate::command::file_of;
use crate::refusal::{File, Refusal};
use command_line::Command;
use std::alloc::Global;
use ste_io::{FetchFault, Files};

/// The greatest size of a file, in bytes.
const GREATEST: u64 = 67_108_864;

/// The texts of a command: the netlist's, and that of its second file, or nothing where it has
/// none.
#[derive(Drop)]
pub struct Texts {
    pub net: Vec<u8>,
    pub second: Vec<u8>,
}

/// The bytes of a file.
fn fetch<F: Files>(
    alloc: Global,
    files: &mut F,
    which: File,
    name: &str,
) -> Result<Vec<u8>, Refusal>
    ensures { MatchResult result
        (λ bytes. IsAvailable (Some name.now) (F.state files.old) (F.state files.new) bytes.items)
        (λ found. FileFails which name.now (F.state files.old) (F.state files.new) found) }
{
    match files.fetch(alloc, name, GREATEST) {
        Ok(bytes) => Ok(bytes),
        Err(FetchFault::Failed) => Err(Refusal::CannotRead(which)),
        Err(FetchFault::TooLarge { .. }) => Err(Refusal::TooLarge(which)),
        Err(FetchFault::OutOfMemory) => Err(Refusal::OutOfMemory),
    }
}

/// The bytes of a file where there is such a file, and nothing where there is none.
fn text_of<F: Files>(
    alloc: Global,
    files: &mut F,
    which: File,
    name: Option<&str>,
) -> Result<Vec<u8>, Refusal>
    ensures { MatchResult result
        (λ bytes. IsAvailable (option_map (λ n. n.now) name.entry)
        (F.state files.old) (F.state files.new) bytes.items)
        (λ found. WhyNoFile which (option_map (λ n. n.now) name.entry)
        (F.state files.old) (F.state files.new) found) }
{
    match name {
        None => Ok(Vec::new(alloc)),
        Some(name) => fetch(alloc, files, which, name),
    }
}

/// The texts of the command's files, the netlist's first.
pub fn texts_of<F: Files>(
    alloc: Global,
    command: &Command<'_>,
    files: &mut F,
) -> Result<Texts, Refusal>
    ensures { MatchResult result
        (λ texts. AreTexts command.now (F.state files.old) (F.state files.new)
        texts.net.items texts.second.items)
        (λ found. WhyNoReport (Some command.now) (F.state files.old) (F.state files.new) found) }
{
    let net = text_of(alloc, files, File::Net, file_of(command, File::Net))?;
    let second = text_of(alloc, files, File::Second, file_of(command, File::Second))?;
    Ok(Texts { net, second })
}
