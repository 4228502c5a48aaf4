//! One task of a batch, checked over a store; begin with `check`.

ghost use Rattle.std.specs.Prelude.{◌≡◌, ◌≤◌, [], length, map, All, IfSome};
ghost use Rattle.dd_nodes.specs.Stores.{Keeps};
ghost use Rattle.gate_sets.specs.Lists.{rows_of};
ghost use Rattle.sym_step.specs.Frame.{IsFrame};
ghost use Rattle.ste_model.specs.declared.task.Task.TheVariants.{Gste, Ste};
ghost use Rattle.exact_model.specs.WiderGraphs.{first_bits};
ghost use Rattle.ste_base.specs.Limits.{most_variables};
ghost use Rattle.work_pool.specs.Pool.{IsTaskOver, table_width};
ghost use Rattle.work_pool.specs.private.Jobs.{IsDone};
ghost use Rattle.work_pool.specs.private.Ready.{IsTaskReady, ready_props};

use crate::mode::Mode;
use crate::width::table_width;
use dd_nodes::Nodes;
use exact_engine::check_exact;
use gste_engine::check_graph;
use net_core::Net;
use std::alloc::{AllocError, Global};
use ste_base::Items;
use ste_engine::check_ste_from;
use ste_model::{Assertion, Graph, Report, Task, Tasks};
use sym_step::{Frame, GateRows};

/// What the checks of tasks have in common: the net with its rows, the tasks, by what assertions
/// are checked, how many variables the tasks are over, how many the stores have, and how many cubes
/// a list of a report may have.
#[derive(Drop)]
pub(crate) struct Batch<'a> {
    pub(crate) net: &'a Net,
    pub(crate) rows: &'a GateRows,
    pub(crate) tasks: &'a [Task],
    pub(crate) mode: Mode,
    pub(crate) vars: u32,
    pub(crate) width: u32,
    pub(crate) cubes: u32,
    ghost of_net: { rows.now.covers ≡ map rows_of net.now.raw.covers },
    ghost ready: { All (IsTaskReady mode net.now.raw vars width) tasks.now } by { Prim.hlevel ready_props },
}

/// The batch of all tasks of a file.
pub(crate) fn batch_of<'a>(
    mode: Mode,
    net: &'a Net,
    rows: &'a GateRows,
    tasks: &'a Tasks,
    cubes: u32,
) -> Batch<'a>
    requires rows { rows.now.covers ≡ map rows_of net.now.raw.covers }
    requires vars { table_width mode net.now.raw tasks.now ≤ most_variables }
    requires over { All (IsTaskOver net.now.raw (length tasks.now.vars)) tasks.now.tasks }
    ensures net { result.net.now ≡ net.now }
    ensures tasks { result.tasks.now ≡ tasks.now.tasks }
    ensures mode { result.mode ≡ mode }
    ensures vars { result.vars ≡ length tasks.now.vars }
    ensures width { result.width ≡ table_width mode net.now.raw tasks.now }
    ensures cubes { result.cubes ≡ cubes }
{
    Batch {
        net,
        rows,
        tasks: tasks.tasks.as_slice(),
        mode,
        vars: tasks.vars.len() as u32,
        width: table_width(mode, net, tasks) as u32,
        cubes,
    }
}

/// The first `vars` bits, where there is an assignment.
fn first_bits(least: Option<Items<bool>>, vars: u32) -> Option<Items<bool>>
    ensures { result ≡ first_bits vars least }
{
    let mut bits: Vec<bool> = least?.into();
    bits.truncate(vars as usize);
    Some(bits.into())
}

/// The report of an assertion, as `check`.
fn check_assertion<N: Nodes>(
    alloc: Global,
    nodes: &mut N,
    batch: &Batch<'_>,
    assertion: &Assertion,
    last: &mut Option<Frame>,
) -> Result<Report, AllocError>
    requires made { (N.store nodes.old).made ≡ [] }
    requires ready { IsTaskReady batch.now.mode batch.now.net.now.raw batch.now.vars
        (N.store nodes.old).vars (Ste assertion.now) }
    requires last { IfSome last.old (IsFrame (N.store nodes.old) batch.now.net.now.raw) }
    ensures done { IsDone batch.now.mode batch.now.net.now.raw batch.now.vars
        (N.store nodes.old).limit batch.now.cubes (Ste assertion.now)
        (N.store nodes.old) (N.store nodes.new) result }
    ensures last { IfSome last.new (IsFrame (N.store nodes.new) batch.now.net.now.raw) }
{
    let Batch { net, rows, .. } = batch;
    match batch.mode {
        Mode::Sets => check_ste_from(alloc, nodes, net, rows, assertion, batch.cubes, last),
        Mode::Exact => check_exact(alloc, nodes, net, assertion, batch.vars, batch.cubes),
    }
}

/// The report of a graph, as `check`. Its least assignment is cut to the variables of the tasks.
fn check_vertices<N: Nodes>(
    alloc: Global,
    nodes: &mut N,
    batch: &Batch<'_>,
    graph: &Graph,
) -> Result<Report, AllocError>
    requires made { (N.store nodes.old).made ≡ [] }
    requires ready { IsTaskReady batch.now.mode batch.now.net.now.raw batch.now.vars
        (N.store nodes.old).vars (Gste graph.now) }
    ensures done { IsDone batch.now.mode batch.now.net.now.raw batch.now.vars
        (N.store nodes.old).limit batch.now.cubes (Gste graph.now)
        (N.store nodes.old) (N.store nodes.new) result }
    ensures keeps { Keeps (N.store nodes.old) (N.store nodes.new) }
{
    let mut report = check_graph(alloc, nodes, batch.net, batch.rows, graph, batch.cubes)?;
    report.least = first_bits(report.least, batch.vars);
    Ok(report)
}

/// The report of a task over a store that made nothing yet, from the last frame of another one,
/// where there is one; it leaves one for the next, where there is one.
pub(crate) fn check<N: Nodes>(
    alloc: Global,
    nodes: &mut N,
    batch: &Batch<'_>,
    task: &Task,
    last: &mut Option<Frame>,
) -> Result<Report, AllocError>
    requires made { (N.store nodes.old).made ≡ [] }
    requires ready { IsTaskReady batch.now.mode batch.now.net.now.raw batch.now.vars
        (N.store nodes.old).vars task.now }
    requires last { IfSome last.old (IsFrame (N.store nodes.old) batch.now.net.now.raw) }
    ensures done { IsDone batch.now.mode batch.now.net.now.raw batch.now.vars
        (N.store nodes.old).limit batch.now.cubes task.now
        (N.store nodes.old) (N.store nodes.new) result }
    ensures last { IfSome last.new (IsFrame (N.store nodes.new) batch.now.net.now.raw) }
{
    match task {
        Task::Ste(assertion) => check_assertion(alloc, nodes, batch, assertion, last),
        Task::Gste(graph) => check_vertices(alloc, nodes, batch, graph),
    }
}
