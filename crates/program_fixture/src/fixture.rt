//! Runs of the program over files and sinks in memory; begin with `Fixture`.

ghost use Rattle.std.specs.Prelude.{◌<◌};

use std::alloc::{AllocError, Global};
use std::thread::Threads;
use ste_io::{MemoryFiles, MemorySink};
use ste_program::run::{Status, run};
use work_pool::Gate;

/// What fails, by numbers from 1: fetches of files, writes of the output, writes of the error sink.
pub type Failing<'a> = (&'a [u64], &'a [u64], &'a [u64]);

pub const NONE: &[u64] = &[];

pub const NOTHING: &Failing<'static> = &(NONE, NONE, NONE);

/// The words of a command, its files, and the sinks of its output and of its messages.
#[derive(Drop)]
pub struct Fixture {
    words: Vec<String>,
    files: MemoryFiles,
    output: MemorySink,
    errors: MemorySink,
}

/// The words, which stand behind the program's name with a blank between two.
fn words_of(alloc: Global, text: &str) -> Result<Vec<String>, AllocError> {
    let mut words = Vec::new(alloc);
    words.push(String::from_str(alloc, "stework")?)?;
    for word in text.split(' ') {
        words.push(String::from_str(alloc, word)?)?;
    }
    Ok(words)
}

/// The files of these names, of which these fetches fail.
fn files_of(
    alloc: Global,
    files: &[(&str, &[u8])],
    failing: &[u64],
) -> Result<MemoryFiles, AllocError> {
    let mut held = MemoryFiles::new(alloc, failing.to_vec(alloc)?);
    for (name, bytes) in files {
        held.add(name, bytes)?;
    }
    Ok(held)
}

/// A sink with room for so many bytes, which takes at most so many at a write, and of which these
/// writes fail.
fn sink(alloc: Global, room: usize, most: usize, failing: &[u64]) -> Result<MemorySink, AllocError>
    requires { 0 < most }
{
    MemorySink::new(alloc, room, most, failing.to_vec(alloc)?)
}

impl Fixture {
    /// The words of a command, files, the output's room, how many bytes it and the error sink take
    /// at a write, and what fails.
    pub fn new(
        alloc: Global,
        words: &str,
        files: &[(&str, &[u8])],
        room: usize,
        most: usize,
        failing: &Failing<'_>,
    ) -> Result<Fixture, AllocError>
        requires { 0 < most }
    {
        Ok(Fixture {
            words: words_of(alloc, words)?,
            files: files_of(alloc, files, failing.0)?,
            output: sink(alloc, room, most, failing.1)?,
            errors: sink(alloc, 200, most, failing.2)?,
        })
    }

    /// What the output has taken.
    pub fn out(&self) -> &[u8] {
        self.output.bytes()
    }

    /// What the error sink has taken.
    pub fn err(&self) -> &[u8] {
        self.errors.bytes()
    }
}

/// Runs the program on a fixture.
pub fn run_on<R: Threads + Sync, G: Gate + Sync>(
    rt: &R,
    alloc: Global,
    fixture: &mut Fixture,
    gate: &G,
) -> Status {
    run(
        rt,
        alloc,
        &fixture.words,
        &mut fixture.files,
        &mut fixture.output,
        &mut fixture.errors,
        gate,
    )
}
