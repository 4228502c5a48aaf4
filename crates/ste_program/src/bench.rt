//! What `bench` writes: the report of a check of a pipeline, and the number of its nets.
ghost use Rattle.std.specs.Prelude.{◌≡◌, ◌≤◌, ◌++◌, IfOk, MatchResult, codes};
ghost use Rattle.command_line.specs.Bounds.{IsBounded};
ghost use Rattle.net_gen.specs.Pipeline.{pipeline_net, pipeline_tasks};
ghost use Rattle.ste_program.specs.Bench.{IsBench};
ghost use Rattle.ste_program.specs.Info.{count_line};
ghost use Rattle.ste_program.specs.Order.{IsFirstRefusal, check_stages};
ghost use Rattle.ste_program.specs.private.Texts.{OrMemory};

use crate::check::{Checked, checked_texts};
use crate::info::put_count;
use crate::refusal::Refusal;
use crate::report::Written;
use command_line::Command;
use net_gen::pipeline;
use std::alloc::{AllocError, Global};
use std::thread::Threads;
use work_pool::Gate;

/// The report with a line for the number of nets behind it.
fn with_nets(alloc: Global, checked: Checked) -> Result<Written, AllocError>
    ensures bytes { IfOk result (λ written. written.bytes
        ≡ checked.text.items ++ count_line (codes "nets") checked.nets) }
    ensures passes { IfOk result (λ written. written.passes ≡ checked.passes) }
{
    let Checked { text, passes, nets } = checked;
    let mut bytes = text;
    put_count(alloc, &mut bytes, b"nets", nets as usize)?;
    Ok(Written {
        bytes: bytes.into(),
        passes,
    })
}

/// What `bench` writes for a pipeline of so many stages, which it makes and checks with the steps,
/// workers, cubes and flags of a command.
pub fn bench<R: Threads + Sync, G: Gate + Sync>(
    rt: &R,
    alloc: Global,
    asked: &Command<'_>,
    stages: u64,
    gate: &G,
) -> Result<Written, Refusal>
    requires bounded { IsBounded asked.now }
    requires stages { stages ≤ 1000 }
    ensures { MatchResult result
        (λ written. IsBench asked.now.steps asked.now.cubes asked.now.wave asked.now.nodes stages
        written.passes written.bytes)
        (λ found. OrMemory (IsFirstRefusal (check_stages asked.now.steps (pipeline_net stages)
        (pipeline_tasks stages))) found) }
{
    let (net, tasks) = pipeline(alloc, stages as u32)?;
    let made = checked_texts(rt, alloc, asked, net, tasks, gate)?;
    Ok(with_nets(alloc, made)?)
}
