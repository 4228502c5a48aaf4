//! From tasks with names to tasks over nets; begin with `bind_tasks`.

ghost use Rattle.std.specs.Prelude.{◌≡◌, ◌≤◌, ◌&&◌, map, IfOk, OnOk};
ghost use Rattle.std.specs.List.{list_all};
ghost use Rattle.ste_model.specs.Cells.{all_cells};
ghost use Rattle.ste_model.specs.Trees.{task_tree};
ghost use Rattle.task_binding.specs.Answer.{IsBindAnswer};
ghost use Rattle.task_binding.specs.Bound.{net_by, task_bound};
ghost use Rattle.task_binding.specs.Mentions.{mentions_of};
ghost use Rattle.task_binding.specs.Sizes.{most_cells};
ghost use Rattle.task_binding.specs.private.Known.{task_known};
ghost use Rattle.task_binding.specs.private.Leading.{Leads};

use crate::bind::bind_task;
use crate::fault::BindFault;
use crate::sizes::first_large;
use crate::unknown::{Mention, first_unknown};
use assert_syntax::{RawTask, RawTasks};
use net_core::Resolve;
use std::alloc::{AllocError, Global};
use ste_base::{Items, copies};
use ste_model::{Task, Tasks};

/// Tasks over nets, in order; `known` becomes false where a node names none.
fn bind_each<N: Resolve>(
    alloc: Global,
    names: &N,
    known: &mut bool,
    tasks: &[RawTask],
) -> Result<Items<Task>, AllocError>
    ensures bound { IfOk result (λ bound. map task_tree bound
        ≡ map (task_bound (net_by (N.net_of names.now))) tasks.now) }
    ensures known { OnOk result (known.new
        ≡ (known.old && list_all (task_known (N.net_of names.now)) tasks.now)) }
{
    let mut bound = Items::new(alloc);
    for task in tasks {
        bound.push(bind_task(alloc, names, known, task)?)?;
    }
    Ok(bound)
}

/// The first node that names no net, where `known` says whether each names one. Where each does, no
/// name is looked up.
#[tactic(auto, using(crate::proofs::Known::all_named))]
fn unknown_unless<N: Resolve>(
    known: bool,
    names: &N,
    tasks: &[RawTask],
) -> Result<Option<Mention>, AllocError>
    requires known { known ≡ list_all (task_known (N.net_of names.now)) tasks.now }
    ensures { IfOk result (λ found. Leads (N.net_of names.now) (mentions_of tasks.now) found) }
{
    if known {
        return Ok(None);
    }
    first_unknown(names, tasks)
}

/// The tasks that were read, over the nets that their nodes name in a netlist of so many nets.
///
/// - `UnknownNode` comes exactly where a node names no net, with the least number of such a line,
///   and the node.
/// - `TooLarge` comes exactly where each node names a net and the tasks have more than 100,000,000
///   cells, with the first line of the first task that goes above.
///
/// `OutOfMemory` may come at any tasks. An expression is copied by calls as deep as it is.
pub fn bind_tasks<N: Resolve>(
    alloc: Global,
    raw: &RawTasks,
    names: &N,
    nets: u32,
) -> Result<Tasks, BindFault>
    ensures exact { IsBindAnswer (N.net_of names.now) nets raw.now result }
    ensures fits { IfOk result (λ tasks. all_cells nets tasks ≤ most_cells) }
{
    let mut known = true;
    let tasks = bind_each(alloc, names, &mut known, raw.tasks.as_slice())?;
    if let Some(mention) = unknown_unless(known, names, raw.tasks.as_slice())? {
        return Err(BindFault::UnknownNode {
            line: mention.line,
            name: mention.node,
        });
    }
    if let Some(line) = first_large(nets, raw.tasks.as_slice()) {
        return Err(BindFault::TooLarge { line });
    }
    Ok(Tasks {
        vars: copies(alloc, raw.vars.as_slice())?,
        tasks,
    })
}
