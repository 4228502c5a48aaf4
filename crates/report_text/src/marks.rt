//! Which nets a run shows, as marks; begin with `shown_nets`.

ghost use Rattle.std.specs.Prelude.{◌≡◌, ◌<◌, ◌||◌, ℕ, IfOk, false, length, nat_eq, slice_index_or};
ghost use Rattle.report_text.specs.Text.{is_shown, names_net};
ghost use Rattle.report_text.specs.private.Marks.{AddsMarks, in_binds, in_edges, in_quints};

use std::alloc::{AllocError, Global};
use ste_base::NodeId;
use ste_model::{Bind, Edge, Quint, Task};

/// Marks a net. A number beyond the marks marks none.
fn mark(marks: &mut [bool], node: NodeId)
    ensures { AddsMarks marks.old marks.new (λ id. nat_eq node.0 id) }
{
    let place = node.0 as usize;
    if place < marks.len() {
        marks[place] = true;
    }
}

/// Marks the nets that quintuples name.
fn mark_quints(marks: &mut [bool], quints: &[Quint])
    ensures { AddsMarks marks.old marks.new (in_quints quints.now) }
{
    for quint in quints {
        mark(marks, quint.node);
    }
}

/// Marks the nets that bindings name.
fn mark_binds(marks: &mut [bool], binds: &[Bind])
    ensures { AddsMarks marks.old marks.new (in_binds binds.now) }
{
    for bind in binds {
        mark(marks, bind.node);
    }
}

/// Marks the nets that the bindings of an edge name.
fn mark_edge(marks: &mut [bool], edge: &Edge)
    ensures { AddsMarks marks.old marks.new
        (λ id. in_binds edge.now.ant id || in_binds edge.now.con id) }
{
    mark_binds(marks, edge.ant.as_slice());
    mark_binds(marks, edge.con.as_slice());
}

/// Marks the nets that the bindings of edges name.
fn mark_edges(marks: &mut [bool], edges: &[Edge])
    ensures { AddsMarks marks.old marks.new (in_edges edges.now) }
{
    for edge in edges {
        mark_edge(marks, edge);
    }
}

/// Marks the nets that a task names.
fn mark_task(marks: &mut [bool], task: &Task)
    ensures { AddsMarks marks.old marks.new (names_net task.now) }
{
    match task {
        Task::Ste(assertion) => {
            mark_quints(marks, assertion.ant.as_slice());
            mark_quints(marks, assertion.con.as_slice());
        }
        Task::Gste(graph) => mark_edges(marks, graph.edges.as_slice()),
    }
}

/// The marks of so many nets: whether a run of a task shows them, with `wave` all of them.
pub fn shown_nets(
    alloc: Global,
    wave: bool,
    task: &Task,
    count: usize,
) -> Result<Vec<bool>, AllocError>
    ensures { IfOk result (λ marks. (id : ℕ) → id < count →
        slice_index_or marks.items id false ≡ is_shown wave task.now id) }
{
    let mut marks = vec![in alloc; wave; count]?;
    mark_task(&mut marks, task);
    Ok(marks)
}
