//! Which models a model reaches; begin with `reached_marks`.

ghost use Rattle.std.specs.Prelude.{◌≡◌, ◌<◌, ◌↔◌, [], ℕ, OnOk, IfOk, All, length, slice_index_or, true, false};
ghost use Rattle.hierarchy.specs.Reach.{Reaches};
ghost use Rattle.hierarchy.specs.private.Search.{Marks};

use std::alloc::{AllocError, Global};
use ste_base::Items;

/// Marks each of the numbers that is not marked yet, and puts it on the work list.
fn mark(marks: &mut Vec<bool>, work: &mut Vec<usize>, numbers: &[usize]) -> Result<(), AllocError>
    requires { All (λ k. k < length marks.old.items) numbers.now }
    ensures { OnOk result
        (Marks marks.old.items work.old.items numbers.now marks.new.items work.new.items) }
{
    for k in numbers {
        if !marks[*k] {
            work.push(*k)?;
            marks[*k] = true;
        }
    }
    Ok(())
}

/// The numbers of the models that a model uses.
fn used_at(graph: &[Items<usize>], model: usize) -> &[usize]
    requires { model < length graph.now }
    ensures { result.now ≡ slice_index_or graph.now model [] }
{
    graph[model].as_slice()
}

/// By model: whether the start reaches it. `graph` has for each model the numbers of those that it
/// uses.
pub(crate) fn reached_marks(
    alloc: Global,
    graph: &[Items<usize>],
    start: usize,
) -> Result<Vec<bool>, AllocError>
    requires in_range { All (λ used. All (λ k. k < length graph.now) used) graph.now }
    requires start { start < length graph.now }
    ensures long { IfOk result (λ marks. length marks.items ≡ length graph.now) }
    ensures exact { IfOk result (λ marks. (k : ℕ) →
        (slice_index_or marks.items k false ≡ true) ↔ Reaches graph.now start k) }
{
    let mut marks = vec![in alloc; false; graph.len()]?;
    let mut work = vec![in alloc]?;
    mark(&mut marks, &mut work, &[start])?;
    while let Some(model) = work.pop() {
        mark(&mut marks, &mut work, used_at(graph, model))?;
    }
    Ok(marks)
}
