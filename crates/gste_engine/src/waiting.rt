//! Vertices that wait for their turn, each of them once; begin with `with_vertex`.

ghost use Rattle.std.specs.Prelude.{◌≡◌, ◌<◌, IfOk, length};
ghost use Rattle.gste_engine.specs.private.Waiting.{IsWaiting, IsWithVertex};

use std::alloc::AllocError;

/// Vertices, in the order in which they came, with a flag for each vertex that is among them.
#[derive(Drop)]
pub struct Waiting {
    pub flags: Vec<bool>,
    pub list: Vec<usize>,
}

/// The same with this vertex, where it does not wait already.
pub fn with_vertex(waiting: Waiting, vertex: usize) -> Result<Waiting, AllocError>
    requires waiting { IsWaiting waiting }
    requires inside { vertex < length waiting.flags.items }
    ensures { IfOk result (λ more. IsWithVertex waiting vertex more) }
{
    let mut more = waiting;
    if more.flags[vertex] {
        return Ok(more);
    }
    more.flags[vertex] = true;
    more.list.push(vertex)?;
    Ok(more)
}
