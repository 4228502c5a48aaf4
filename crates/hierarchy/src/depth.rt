//! How many steps of uses lead on from the top; begin with `refuse_too_deep`.

ghost use Rattle.std.specs.Prelude.{◌≡◌, ◌<◌, [], ℕ, All, IfErr, IfOk, OnOk, false, length, slice_index_or};
ghost use Rattle.std.specs.List.{list_any};
ghost use Rattle.hierarchy.specs.Faults.{HasTooDeep, HasUnknownModel, IsFree};
ghost use Rattle.hierarchy.specs.Reach.{uses};
ghost use Rattle.hierarchy.specs.private.Depth.{has_steps};

use crate::fault::NetFault;
use blif_syntax::Model;
use std::alloc::{AllocError, Global};
use ste_base::Items;

/// One more step than an instance may lie below the top.
const MOST_STEPS: u32 = 65;

/// Whether one of these models is marked.
fn any_marked(marks: &[bool], models: &[usize]) -> bool
    requires { All (λ k. k < length marks.now) models.now }
    ensures { result ≡ list_any (λ k. slice_index_or marks.now k false) models.now }
{
    for model in models {
        if marks[*model] {
            return true;
        }
    }
    false
}

/// By model: whether it uses a model that is marked.
fn use_marked(
    alloc: Global,
    graph: &[Items<usize>],
    marks: &[bool],
) -> Result<Vec<bool>, AllocError>
    requires in_range { All (λ used. All (λ k. k < length graph.now) used) graph.now }
    requires marks { length marks.now ≡ length graph.now }
    ensures long { IfOk result (λ next. length next.items ≡ length graph.now) }
    ensures each { IfOk result (λ next. (k : ℕ) → k < length graph.now →
        slice_index_or next.items k false
        ≡ list_any (λ j. slice_index_or marks.now j false) (slice_index_or graph.now k [])) }
{
    let mut next = Vec::with_capacity(alloc, graph.len())?;
    for used in graph {
        next.push(any_marked(marks, used.as_slice()))?;
    }
    Ok(next)
}

/// Whether more than 64 steps lead on from the top, which is number 0. `graph` has for each model
/// the numbers of those that it uses.
pub(crate) fn is_deep(alloc: Global, graph: &[Items<usize>]) -> Result<bool, AllocError>
    requires in_range { All (λ used. All (λ k. k < length graph.now) used) graph.now }
    requires some { 0 < length graph.now }
    ensures { IfOk result (λ deep. deep ≡ has_steps graph.now 65 0) }
{
    let mut marks = vec![in alloc; true; graph.len()]?;
    for round in 0..MOST_STEPS {
        marks = use_marked(alloc, graph, marks.as_slice())?;
    }
    Ok(marks[0])
}

/// Refuses a hierarchy with an instance more than 64 levels below the top. `deep` says whether more
/// than 64 steps of uses lead on from the top; each use of a reachable model names a model.
pub(crate) fn refuse_too_deep(models: &[Model], deep: bool) -> Result<(), NetFault>
    requires some { 0 < length models.now }
    requires known { IsFree (HasUnknownModel models.now) }
    requires deep { deep ≡ has_steps (uses models.now) 65 0 }
    ensures ok { OnOk result (IsFree (HasTooDeep models.now)) }
    ensures err { IfErr result (HasTooDeep models.now) }
{
    let _ = models;
    if deep {
        return Err(NetFault::TooDeep);
    }
    Ok(())
}
