//! Both texts of a pipeline; begin with `pipeline`.

ghost use Rattle.std.specs.Prelude.{◌≡◌, ◌≤◌, IfOk, length};
ghost use Rattle.net_gen.specs.Pipeline.{pipeline_net, pipeline_tasks};

use crate::netlist::net_text;
use crate::task::task_text;
use std::alloc::{AllocError, Global};

/// The netlist and the task file of a pipeline of eight bits and so many stages. Each stage inverts
/// each bit and holds it for one time step; the task is that what goes in comes out.
///
/// The time is linear in the texts.
pub fn pipeline(alloc: Global, n: u32) -> Result<(Vec<u8>, Vec<u8>), AllocError>
    requires { n ≤ 1000 }
    ensures net { IfOk result (λ texts. texts.0.items ≡ pipeline_net n) }
    ensures tasks { IfOk result (λ texts. texts.1.items ≡ pipeline_tasks n) }
    ensures small_net { IfOk result (λ texts. length texts.0.items ≤ 67108864) }
    ensures small_tasks { IfOk result (λ texts. length texts.1.items ≤ 67108864) }
{
    let net = net_text(alloc, n)?;
    let tasks = task_text(alloc, n)?;
    Ok((net, tasks))
}
