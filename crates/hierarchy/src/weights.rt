//! What models and their uses weigh: nets, or sizes; begin with `uses_weights`.

ghost use Rattle.std.specs.Prelude.{◌≡◌, ◌≤◌, ◌^◌, ◌+◌, ◌-◌, IfOk, length, map, min, slice_index_or};
ghost use Rattle.hierarchy.specs.Lines.{signal_words, signals};
ghost use Rattle.hierarchy.specs.Sizes.{words_of_signals};
ghost use Rattle.hierarchy.specs.private.Counts.{kept_weight, use_weight, uses_weight, weight_at};

use crate::signals::signals;
use crate::uses::{UseLine, use_of};
use blif_syntax::{Model, What};
use indexmap::IndexSet;
use std::alloc::{AllocError, Global};
use ste_base::Name;

/// What is counted: the nets, or the size.
#[derive(Clone, Copy, PartialEq, Eq)]
pub(crate) enum Measure {
    Nets,
    Size,
}

/// The sum of two numbers, or the cap where that is less.
pub(crate) fn add_capped(one: usize, other: usize, cap: usize) -> usize
    ensures { result ≡ min cap (one + other) }
{
    one.saturating_add(other).min(cap)
}

/// The number of words of a line that name signals, or the cap where that is less.
fn word_count(what: &What, cap: usize) -> usize
    ensures { result ≡ min cap (length (signal_words what.now)) }
{
    match what {
        What::Inputs(names) | What::Outputs(names) | What::Clock(names) => names.len().min(cap),
        What::Names { inputs, .. } => add_capped(inputs.len(), 1, cap),
        What::Latch { control, .. } => {
            if control.is_some() {
                cap.min(3)
            } else {
                cap.min(2)
            }
        }
        What::Subckt { formals, .. } => formals.len().min(cap),
    }
}

/// One, and the words of a model that name signals, or the cap where that is less.
fn size_of(model: &Model, cap: usize) -> usize
    ensures { result ≡ kept_weight Measure.Size cap model.now }
{
    let mut size = cap.min(1);
    for item in model.items.as_slice() {
        size = add_capped(size, word_count(&item.what, cap), cap);
    }
    size
}

/// What a model weighs by itself.
fn weight_of(
    alloc: Global,
    measure: Measure,
    cap: usize,
    model: &Model,
) -> Result<usize, AllocError>
    ensures { IfOk result (λ weight. weight ≡ kept_weight measure cap model.now) }
{
    match measure {
        Measure::Nets => Ok(signals(alloc, model)?.len()),
        Measure::Size => Ok(size_of(model, cap)),
    }
}

/// What each model weighs by itself.
pub(crate) fn model_weights(
    alloc: Global,
    measure: Measure,
    cap: usize,
    models: &[Model],
) -> Result<Vec<usize>, AllocError>
    ensures { IfOk result (λ weights. weights.items ≡ map (kept_weight measure cap) models.now) }
{
    let mut weights = Vec::with_capacity(alloc, models.len())?;
    for model in models {
        weights.push(weight_of(alloc, measure, cap, model)?)?;
    }
    Ok(weights)
}

/// What an instance weighs that a use makes, of a model of this weight.
fn use_weight(measure: Measure, weight: usize, used: &UseLine) -> usize
    ensures { result ≡ use_weight measure weight used.now }
{
    match measure {
        Measure::Nets => weight.saturating_sub(used.bindings.len()),
        Measure::Size => weight,
    }
}

/// What a use weighs: nothing where it names no model.
fn weight_at(measure: Measure, weights: &[usize], names: &IndexSet<Name>, used: &UseLine) -> usize
    requires { length weights.now ≡ length names.now.keys }
    ensures { result ≡ weight_at measure weights.now names.now.keys used.now }
{
    match names.get_index_of(used.model) {
        Some(number) => use_weight(measure, weights[number], used),
        None => 0,
    }
}

/// What the uses of a model weigh together, or the cap where that is less.
fn uses_weight(
    measure: Measure,
    cap: usize,
    weights: &[usize],
    names: &IndexSet<Name>,
    model: &Model,
) -> usize
    requires { length weights.now ≡ length names.now.keys }
    ensures { result ≡ min cap (uses_weight measure weights.now names.now.keys model.now) }
{
    let mut total = 0;
    for item in model.items.as_slice() {
        if let Some(used) = use_of(item) {
            total = add_capped(total, weight_at(measure, weights, names, &used), cap);
        }
    }
    total
}

/// What the uses of each model weigh together, or the cap where that is less. `weights` has what
/// each model weighs by itself.
pub(crate) fn uses_weights(
    alloc: Global,
    measure: Measure,
    cap: usize,
    weights: &[usize],
    names: &IndexSet<Name>,
    models: &[Model],
) -> Result<Vec<usize>, AllocError>
    requires { length weights.now ≡ length names.now.keys }
    ensures { IfOk result (λ own. own.items
        ≡ map (λ model. min cap (uses_weight measure weights.now names.now.keys model))
        models.now) }
{
    let mut own = Vec::with_capacity(alloc, models.len())?;
    for model in models {
        own.push(uses_weight(measure, cap, weights, names, model))?;
    }
    Ok(own)
}
