//! Numbers of models that never rise along a use, and what they show of what a model reaches; begin
//! with `ranks`.

ghost use Rattle.std.specs.Prelude.{◌≡◌, ◌≤◌, All, IfOk, IsTrue, slice_index_or};
ghost use Rattle.hierarchy.specs.Reach.{Reaches};
ghost use Rattle.hierarchy.specs.private.Ranks.{AreRanks};

use crate::components::components;
use std::alloc::{AllocError, Global};
use ste_base::Items;

/// The rank of a model.
fn rank_of(ranks: &[usize], model: usize) -> usize
    ensures { result ≡ slice_index_or ranks.now model 0 }
{
    ranks.get(model).copied().unwrap_or(0)
}

/// Whether the ranks of these models are at most a number.
fn are_at_most(ranks: &[usize], models: &[usize], most: usize) -> bool
    ensures { IsTrue result → All (λ j. slice_index_or ranks.now j 0 ≤ most) models.now }
{
    for model in models {
        if rank_of(ranks, *model) > most {
            return false;
        }
    }
    true
}

/// Whether no model uses one of a higher rank.
fn never_rise(graph: &[Items<usize>], ranks: &[usize]) -> bool
    ensures { IsTrue result → AreRanks graph.now ranks.now }
{
    for (model, uses) in graph.iter().enumerate() {
        if !are_at_most(ranks, uses.as_slice(), rank_of(ranks, model)) {
            return false;
        }
    }
    true
}

/// A rank for each model: that of a model is at least that of each that it uses. They are the
/// numbers of components, so that two models have the same rank just where each reaches the other;
/// that is not said by a clause, and no answer depends on it.
/// `graph` has for each model the numbers of those that it uses.
pub(crate) fn ranks(alloc: Global, graph: &[Items<usize>]) -> Result<Vec<usize>, AllocError>
    ensures { IfOk result (λ ranks. AreRanks graph.now ranks.items) }
{
    let ranks = components(alloc, graph)?;
    if never_rise(graph, ranks.as_slice()) {
        Ok(ranks)
    } else {
        Ok(Vec::new(alloc))
    }
}

/// Whether ranks alone show that a model does not reach another.
pub(crate) fn is_above(graph: &[Items<usize>], ranks: &[usize], from: usize, to: usize) -> bool
    requires { AreRanks graph.now ranks.now }
    ensures { IsTrue result → Reaches graph.now from to → ⊥ }
{
    let _ = graph;
    rank_of(ranks, from) < rank_of(ranks, to)
}
