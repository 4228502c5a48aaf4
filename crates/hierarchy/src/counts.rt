//! How many nets a hierarchy has and how large it is, before any instance is made; begin with
//! `refuse_too_many_nodes`.

ghost use Rattle.std.specs.Prelude.{◌≡◌, ◌⊎◌, ◌<◌, ◌≤◌, ◌↔◌, ◌+◌, [], ℕ, All, IfErr, IfOk, IsTrue, OnOk, length, min, slice_index_or};
ghost use Rattle.hierarchy.specs.Faults.{HasBadFormal, HasTooManyNodes, HasUnknownModel, IsFree};
ghost use Rattle.hierarchy.specs.Instances.{model_names};
ghost use Rattle.hierarchy.specs.Reach.{uses};
ghost use Rattle.hierarchy.specs.private.Counts.{measure_of, sum_of, weight_below};

use crate::fault::NetFault;
use crate::weights::{Measure, add_capped, model_weights, uses_weights};
use blif_syntax::Model;
use indexmap::IndexSet;
use std::alloc::{AllocError, Global};
use ste_base::{Items, Name};

/// The most levels that an instance may lie below the top.
const MOST_LEVELS: u32 = 64;

/// One more net than there may be.
const TOO_MANY_NETS: usize = 200_001;

/// One more than the size may be.
const TOO_LARGE: usize = 4_000_001;

/// A number and what the models count, each as often as it stands there, or the cap where that is
/// less.
fn with_counts(own: usize, counts: &[usize], models: &[usize], cap: usize) -> usize
    requires { All (λ k. k < length counts.now) models.now }
    ensures { result ≡ min cap (own + sum_of (λ k. slice_index_or counts.now k 0) models.now) }
{
    let mut total = own.min(cap);
    for model in models {
        total = add_capped(total, counts[*model], cap);
    }
    total
}

/// The counts of models with one more level: what a model's uses weigh, and what the models count
/// that it uses.
fn one_level_more(
    alloc: Global,
    graph: &[Items<usize>],
    own: &[usize],
    counts: &[usize],
    cap: usize,
) -> Result<Vec<usize>, AllocError>
    requires in_range { All (λ used. All (λ k. k < length graph.now) used) graph.now }
    requires own { length own.now ≡ length graph.now }
    requires counts { length counts.now ≡ length graph.now }
    ensures long { IfOk result (λ next. length next.items ≡ length graph.now) }
    ensures each { IfOk result (λ next. (k : ℕ) → k < length graph.now →
        slice_index_or next.items k 0
        ≡ min cap (slice_index_or own.now k 0
        + sum_of (λ j. slice_index_or counts.now j 0) (slice_index_or graph.now k []))) }
{
    let mut next = Vec::with_capacity(alloc, graph.len())?;
    for (model, used) in graph.iter().enumerate() {
        next.push(with_counts(own[model], counts, used.as_slice(), cap))?;
    }
    Ok(next)
}

/// What all instances below the top weigh, or the cap where that is less. `own` has what the uses
/// of each model weigh.
fn count_below(
    alloc: Global,
    graph: &[Items<usize>],
    own: &[usize],
    cap: usize,
) -> Result<usize, AllocError>
    requires in_range { All (λ used. All (λ k. k < length graph.now) used) graph.now }
    requires own { length own.now ≡ length graph.now }
    requires some { 0 < length graph.now }
    ensures { IfOk result (λ count. count ≡ min cap (weight_below graph.now own.now 64 0)) }
{
    let mut counts = vec![in alloc; 0; graph.len()]?;
    for level in 0..MOST_LEVELS {
        counts = one_level_more(alloc, graph, own, counts.as_slice(), cap)?;
    }
    Ok(counts[0])
}

/// Whether there are at least as many nets, or the size is at least as large, as the cap says. Each
/// use of a reachable model names a model, and binds formals of it, each once; `names` has the
/// names of all models, and `graph` the numbers of those that each uses.
fn reaches_cap(
    alloc: Global,
    measure: Measure,
    cap: usize,
    models: &[Model],
    names: &IndexSet<Name>,
    graph: &[Items<usize>],
) -> Result<bool, AllocError>
    requires some { 0 < length models.now }
    requires names { names.now.keys ≡ model_names models.now }
    requires graph { graph.now ≡ uses models.now }
    requires known { IsFree (HasUnknownModel models.now) }
    requires bound { IsFree (HasBadFormal models.now) }
    ensures { IfOk result (λ reached. IsTrue reached ↔ (cap ≤ measure_of measure models.now)) }
{
    let weights = model_weights(alloc, measure, cap, models)?;
    let own = uses_weights(alloc, measure, cap, weights.as_slice(), names, models)?;
    let below = count_below(alloc, graph, own.as_slice(), cap)?;
    Ok(add_capped(weights[0], below, cap) == cap)
}

/// Refuses a hierarchy with more than 200,000 nets, or with a size above 4,000,000. Each use of a
/// reachable model names a model, and binds formals of it, each once; `names` has the names of all
/// models, and `graph` the numbers of those that each uses.
pub(crate) fn refuse_too_many_nodes(
    alloc: Global,
    models: &[Model],
    names: &IndexSet<Name>,
    graph: &[Items<usize>],
) -> Result<(), NetFault>
    requires some { 0 < length models.now }
    requires names { names.now.keys ≡ model_names models.now }
    requires graph { graph.now ≡ uses models.now }
    requires known { IsFree (HasUnknownModel models.now) }
    requires bound { IsFree (HasBadFormal models.now) }
    ensures ok { OnOk result (IsFree (HasTooManyNodes models.now)) }
    ensures err { IfErr result (λ fault. (fault ≡ NetFault.OutOfMemory)
        ⊎ HasTooManyNodes models.now fault) }
{
    let many = reaches_cap(alloc, Measure::Nets, TOO_MANY_NETS, models, names, graph)?;
    let large = reaches_cap(alloc, Measure::Size, TOO_LARGE, models, names, graph)?;
    if many || large {
        return Err(NetFault::TooManyNodes);
    }
    Ok(())
}
