//! The size of tasks; begin with `first_large`.

ghost use Rattle.std.specs.Prelude.{◌≡◌, ◌+◌, ◌-◌, ◌*◌, ◌^◌, length, min, None};
ghost use Rattle.task_binding.specs.Sizes.{cells, head_line, raw_latest};
ghost use Rattle.task_binding.specs.private.Leading.{IsLarge};

use assert_syntax::tasks::{RawQuint, RawTask};
use ste_base::Time;

/// The greatest number of cells of all tasks together.
const MAX_CELLS: u64 = 100_000_000;

/// The greatest `to`, or 0.
fn latest(quints: &[RawQuint]) -> Time
    ensures { result ≡ raw_latest quints.now }
{
    quints
        .iter()
        .map(|quint| quint.to)
        .fold(0, |greatest, to| greatest.max(to))
}

/// So many columns of so many nets, up to 2^64 - 1 cells.
fn table_cells(nets: u32, columns: u64) -> u64
    ensures { result ≡ min (nets * columns) (2 ^ 64 - 1) }
{
    (nets as u64).saturating_mul(columns)
}

/// The number of both together, up to 2^64 - 1.
fn together(vertices: usize, edges: usize) -> u64
    ensures { result ≡ min (vertices + edges) (2 ^ 64 - 1) }
{
    (vertices as u64).saturating_add(edges as u64)
}

/// The cells of a task, up to 2^64 - 1.
#[tactic(auto, using(crate::proofs::Large::short_rows))]
fn cells(nets: u32, task: &RawTask) -> u64
    ensures { result ≡ min (cells nets task.now) (2 ^ 64 - 1) }
{
    match task {
        RawTask::Ste { ant, con, .. } => {
            let depth = latest(ant.as_slice()).max(latest(con.as_slice()));
            table_cells(nets, depth as u64)
        }
        RawTask::Gste {
            vertices,
            edges,
            ..
        } => { table_cells(nets, together(vertices.len(), edges.len())) }
    }
}

/// The number of a task's first line.
fn head_line(task: &RawTask) -> u32
    ensures { result ≡ head_line task.now }
{
    match task {
        RawTask::Ste { line, .. } => *line,
        RawTask::Gste { line, .. } => *line,
    }
}

/// The number of the first line of the first task that is too large over so many nets; None where
/// all fit.
pub fn first_large(nets: u32, tasks: &[RawTask]) -> Option<u32>
    ensures { IsLarge nets tasks.now result }
{
    let mut total: u64 = 0;
    for task in tasks {
        let size = cells(nets, task);
        if size > MAX_CELLS - total {
            return Some(head_line(task));
        }
        total += size;
    }
    None
}
