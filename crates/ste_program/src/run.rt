//! The top call: `run` does all that the program does.
ghost use Rattle.std.specs.Prelude.{◌≡◌, ◌≢◌, ◌≤◌, ◌⊎◌, ℕ, IfSome, true, false, cond, take};
ghost use Rattle.ste_program.specs.Answer.{BrokeOff, IsDecided, NoneFell, NoneMoved, NoneRose, Reported, WasOutOfMemory, WasFaulted, WasRefused, WentOut};
ghost use Rattle.ste_program.specs.private.Endings.{IsEnded, IsMessageWritten};
ghost use Rattle.command_line.specs.Bounds.{IsBounded};
ghost use Rattle.command_line.specs.Command.{command_of};
ghost use Rattle.ste_program.specs.Command.{files_of};
ghost use Rattle.ste_program.specs.Message.{cannot_write};
ghost use Rattle.ste_io.specs.Outside.{with_names};
ghost use Rattle.ste_program.specs.Report.{ReportTellsLiterals, ReportedPassHolds, RunsBreak};

use crate::message::message_of;
use crate::refusal::Refusal;
use crate::report::{Written, report_of};
use command_line::{Command, command_of};
use std::alloc::Global;
use std::thread::Threads;
use ste_io::{Files, Sink, write_whole};
use work_pool::Gate;

/// How the program ended; its number is the exit status.
#[derive(Clone, Copy, Debug, PartialEq, Eq)]
pub enum Status {
    /// The report was written, and no task of a check has another verdict than pass.
    Passed = 0,
    /// The report of a check was written, and some verdict is not pass.
    NotPassed = 1,
    /// The words or the texts were refused.
    Refused = 2,
    /// A file could not be read, or a sink not be written to.
    Faulted = 3,
    /// The program was out of memory.
    NoMemory = 4,
}

/// Writes a message, and answers the status that goes with it.
fn write_message<E: Sink>(err: &mut E, message: &[u8], status: Status) -> Status
    ensures { IsMessageWritten message.now status result (E.state err.old) (E.state err.new) }
{
    match write_whole(err, message) {
        Ok(()) => status,
        Err(_) => Status::Faulted,
    }
}

/// Reports a refusal, or that there is no memory for its message.
fn refuse<E: Sink>(
    alloc: Global,
    command: &Option<Command<'_>>,
    refusal: &Refusal,
    err: &mut E,
) -> Status
    ensures { IsEnded command.now refusal.now result (E.state err.old) (E.state err.new) }
{
    let Ok(message) = message_of(alloc, command, refusal) else {
        return write_message(err, b"stework: out of memory\n", Status::NoMemory);
    };
    let status = match refusal {
        Refusal::CannotRead(_) => Status::Faulted,
        Refusal::OutOfMemory => Status::NoMemory,
        _ => Status::Refused,
    };
    write_message(err, message.as_slice(), status)
}

/// Writes the report, or the message that it could not be written.
fn write_report<O: Sink, E: Sink>(report: Written, out: &mut O, err: &mut E) -> Status
    ensures written { result ≢ Status.Faulted →
        WentOut report.bytes (O.state out.old) (O.state out.new)
        × (E.state err.new ≡ E.state err.old) }
    ensures status { result ≢ Status.Faulted →
        result ≡ cond report.passes Status.Passed Status.NotPassed }
    ensures faulted { result ≡ Status.Faulted →
        BrokeOff report.bytes (O.state out.old) (O.state out.new)
        × (WentOut cannot_write (E.state err.old) (E.state err.new)
        ⊎ BrokeOff cannot_write (E.state err.old) (E.state err.new)) }
{
    match write_whole(out, report.bytes.as_slice()) {
        Ok(()) => {
            if report.passes {
                Status::Passed
            } else {
                Status::NotPassed
            }
        }
        Err(_) => write_message(err, b"stework: cannot write the report\n", Status::Faulted),
    }
}

/// Does what the command asks for; without a command, refuses the words.
fn answer<R: Threads + Sync, F: Files, O: Sink, E: Sink, G: Gate + Sync>(
    rt: &R,
    alloc: Global,
    command: &Option<Command<'_>>,
    files: &mut F,
    out: &mut O,
    err: &mut E,
    gate: &G,
) -> Status
    requires bounded { IfSome command.now IsBounded }
    ensures holds { (F.state files.new).holds ≡ (F.state files.old).holds }
    ensures asked { (n : ℕ) × ((F.state files.new).asked
        ≡ with_names (F.state files.old).asked (take n (files_of command.now))) }
    ensures later { (F.state files.old).faults ≤ (F.state files.new).faults }
    ensures passed { result ≡ Status.Passed → Reported command.now true
        (F.state files.old) (F.state files.new) (O.state out.old) (O.state out.new)
        (E.state err.old) (E.state err.new) }
    ensures not_passed { result ≡ Status.NotPassed → Reported command.now false
        (F.state files.old) (F.state files.new) (O.state out.old) (O.state out.new)
        (E.state err.old) (E.state err.new) }
    ensures refused { result ≡ Status.Refused → WasRefused command.now
        (F.state files.old) (F.state files.new) (O.state out.old) (O.state out.new)
        (E.state err.old) (E.state err.new) }
    ensures faulted { result ≡ Status.Faulted → WasFaulted command.now
        (F.state files.old) (F.state files.new) (O.state out.old) (O.state out.new)
        (E.state err.old) (E.state err.new) }
    ensures no_memory { result ≡ Status.NoMemory → WasOutOfMemory
        (O.state out.old) (O.state out.new) (E.state err.old) (E.state err.new) }
{
    match report_of(rt, alloc, command, files, gate) {
        Ok(report) => write_report(report, out, err),
        Err(refusal) => refuse(alloc, command, &refusal, err),
    }
}

/// Does what the words ask for: checks the tasks of one file on the netlist of another, counts the
/// parts of a netlist, runs it on the inputs of a file, or makes a pipeline and checks it; writes
/// the report to `out`, or one message to `err`, and answers how it ended. The words begin with the
/// program's name. Tasks are shared out to the workers that the words ask for, over the threads of
/// the runtime; the gate is called for each task as a worker begins it.
pub fn run<R: Threads + Sync, F: Files, O: Sink, E: Sink, G: Gate + Sync>(
    rt: &R,
    alloc: Global,
    words: &[String],
    files: &mut F,
    out: &mut O,
    err: &mut E,
    gate: &G,
) -> Status
    // What the files hold never changes; they are asked for the command's names alone, in order.
    ensures holds { (F.state files.new).holds ≡ (F.state files.old).holds }
    ensures asked { (n : ℕ) × ((F.state files.new).asked
        ≡ with_names (F.state files.old).asked (take n (files_of (command_of words.now)))) }

    // Status 0 and 1: the whole report was written, and all tasks of a check pass, or one does not.
    ensures passed { result ≡ Status.Passed → Reported (command_of words.now) true
        (F.state files.old) (F.state files.new) (O.state out.old) (O.state out.new)
        (E.state err.old) (E.state err.new) }
    ensures not_passed { result ≡ Status.NotPassed → Reported (command_of words.now) false
        (F.state files.old) (F.state files.new) (O.state out.old) (O.state out.new)
        (E.state err.old) (E.state err.new) }

    // Where a report says pass, or contradictory antecedent, each two-valued run that meets the
    // antecedent meets the consequent.
    ensures pass_holds { ReportedPassHolds (command_of words.now) (F.state files.old) }
    // Each run that a report shows is a two-valued run, meets the antecedent of its task and breaks
    // the consequent, under the least assignment shown, of a graph along the path shown.
    ensures runs_break { RunsBreak (command_of words.now) (F.state files.old) }
    // Of an AIGER netlist both hold of the runs of its literals.
    ensures literals { ReportTellsLiterals (command_of words.now) (F.state files.old) }

    // Status 2: the first refusal was reported, and nothing is on the output.
    ensures refused { result ≡ Status.Refused → WasRefused (command_of words.now)
        (F.state files.old) (F.state files.new) (O.state out.old) (O.state out.new)
        (E.state err.old) (E.state err.new) }
    // Status 3: a file could not be read, or a sink not written to, as its count of faults shows.
    ensures faulted { result ≡ Status.Faulted → WasFaulted (command_of words.now)
        (F.state files.old) (F.state files.new) (O.state out.old) (O.state out.new)
        (E.state err.old) (E.state err.new) }
    // Status 4: nothing is on the output, and the error sink has the line `out of memory`.
    ensures no_memory { result ≡ Status.NoMemory → WasOutOfMemory
        (O.state out.old) (O.state out.new) (E.state err.old) (E.state err.new) }

    // No fault is swallowed: where one was counted the status is 3 or 4. No count falls.
    ensures unswallowed { result ≢ Status.Faulted → result ≢ Status.NoMemory → NoneMoved
        (F.state files.old) (F.state files.new) (O.state out.old) (O.state out.new)
        (E.state err.old) (E.state err.new) }
    ensures later { NoneFell (F.state files.old) (F.state files.new)
        (O.state out.old) (O.state out.new) (E.state err.old) (E.state err.new) }

    // Where nothing failed and the files are known, the first refusal is reported, or, where there
    // is none, the report is written; or memory is out. That `bench` has no refusal is not said.
    ensures decided { NoneRose (F.state files.old) (F.state files.new) (O.state out.old)
        (O.state out.new) (E.state err.old) (E.state err.new) → IsDecided (command_of words.now)
        (F.state files.old) result (E.state err.old) (E.state err.new) }
{
    match command_of(alloc, words) {
        Ok(command) => answer(rt, alloc, &command, files, out, err, gate),
        Err(_) => write_message(err, b"stework: out of memory\n", Status::NoMemory),
    }
}
