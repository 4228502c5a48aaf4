//! What a command writes, or why it writes nothing: begin with `report_of`.
ghost use Rattle.std.specs.Prelude.{◌≤◌, IfSome, MatchResult, length};
ghost use Rattle.command_line.specs.Bounds.{IsBounded};
ghost use Rattle.ste_program.specs.Answer.{WhyNoReport};
ghost use Rattle.ste_program.specs.Order.{IsFirstRefusal, text_stages};
ghost use Rattle.ste_program.specs.Report.{IsWritten, greatest};
ghost use Rattle.ste_program.specs.private.Made.{IsMade};
ghost use Rattle.ste_program.specs.private.Texts.{OrMemory};

use crate::bench::bench;
use crate::check::check;
use crate::info::info;
use crate::refusal::Refusal;
use crate::simulated::simulated;
use crate::texts::{Texts, texts_of};
use command_line::{Action, Command};
use std::alloc::Global;
use std::thread::Threads;
use ste_base::Items;
use ste_io::Files;
use work_pool::Gate;

/// What the program writes, and whether every task passes; where there is no task every one does.
#[derive(Drop)]
pub struct Written {
    pub bytes: Items<u8>,
    pub passes: bool,
}

/// What a command writes on its texts.
fn on_texts<R: Threads + Sync, G: Gate + Sync>(
    rt: &R,
    alloc: Global,
    command: &Command<'_>,
    texts: Texts,
    gate: &G,
) -> Result<Written, Refusal>
    requires bounded { IsBounded command.now }
    requires net { length texts.net.items ≤ greatest }
    requires second { length texts.second.items ≤ greatest }
    ensures { MatchResult result
        (λ written. IsWritten command.now.action command.now
        texts.net.items texts.second.items written.passes written.bytes)
        (λ found. OrMemory (IsFirstRefusal (text_stages command.now.action command.now.steps
        texts.net.items texts.second.items)) found) }
{
    let Texts { net, second } = texts;
    match command.action {
        Action::Check { .. } => check(rt, alloc, command, net, second, gate),
        Action::Info { .. } => info(alloc, net),
        Action::Sim { .. } => simulated(alloc, net, second),
        Action::Bench { stages } => bench(rt, alloc, command, stages, gate),
    }
}

/// What the command that the words ask for writes; or the first refusal.
pub fn report_of<R: Threads + Sync, F: Files, G: Gate + Sync>(
    rt: &R,
    alloc: Global,
    command: &Option<Command<'_>>,
    files: &mut F,
    gate: &G,
) -> Result<Written, Refusal>
    requires bounded { IfSome command.now IsBounded }
    ensures { MatchResult result
        (λ report. IsMade command.now (F.state files.old) (F.state files.new)
        report.passes report.bytes)
        (λ found. WhyNoReport command.now (F.state files.old) (F.state files.new) found) }
{
    let Some(asked) = command else {
        return Err(Refusal::Usage);
    };
    let texts = texts_of(alloc, asked, files)?;
    on_texts(rt, alloc, asked, texts, gate)
}
