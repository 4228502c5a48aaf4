//! How many variables the table has over which tasks are checked; begin with `table_width`.

ghost use Rattle.std.specs.Prelude.{◌≡◌, ◌≤◌, length};
ghost use Rattle.ste_base.specs.Limits.{most_variables};
ghost use Rattle.exact_model.specs.Choices.{exact_width, task_width};
ghost use Rattle.work_pool.specs.Pool.{table_width};

use crate::mode::Mode;
use exact_engine::choices;
use net_core::Net;
use ste_model::{Task, Tasks};

/// How many variables the exact check of a task takes: those of the file, and for an assertion its
/// choices.
pub fn task_width(net: &Net, vars: u32, task: &Task) -> u64
    ensures { result ≡ task_width net.now.raw vars task.now }
{
    match task {
        Task::Ste(assertion) => vars as u64 + choices(net, assertion),
        Task::Gste(_) => vars as u64,
    }
}

/// How many variables the exact check of all tasks takes: those of the file, or as many as the task
/// that takes most.
fn exact_width(net: &Net, tasks: &Tasks) -> u64
    requires { length tasks.now.vars ≤ most_variables }
    ensures { result ≡ exact_width net.now.raw tasks.now }
{
    let vars = tasks.vars.len() as u32;
    let mut width = vars as u64;
    for task in tasks.tasks.as_slice() {
        width = width.max(task_width(net, vars, task));
    }
    width
}

/// How many variables the table has over which tasks are checked: those of the file; in exact mode
/// as many as the task that takes most. It takes no memory.
pub fn table_width(mode: Mode, net: &Net, tasks: &Tasks) -> u64
    requires vars { length tasks.now.vars ≤ most_variables }
    ensures { result ≡ table_width mode net.now.raw tasks.now }
{
    match mode {
        Mode::Sets => tasks.vars.len() as u64,
        Mode::Exact => exact_width(net, tasks),
    }
}
