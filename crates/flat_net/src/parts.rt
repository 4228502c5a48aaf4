//! What the passes over instances work on; begin with `parts_of`.

ghost use Rattle.std.specs.Prelude.{◌≡◌, ◌<◌, IfOk, length, map};
ghost use Rattle.blif_syntax.specs.Covered.{AreCovered};
ghost use Rattle.hierarchy.specs.Faults.{HasFaultBeforeInstances, IsFree};
ghost use Rattle.hierarchy.specs.Instances.{model_names};
ghost use Rattle.hierarchy.specs.Lines.{signals};
ghost use Rattle.flat_net.specs.private.Parts.{ArePartsOf};

use crate::covers::{Covers, all_covers};
use blif_syntax::Model;
use hierarchy::signals::signals;
use hierarchy::uses::uses;
use indexmap::IndexSet;
use instances::{Numbered, Row, instance_numbers, instance_rows};
use std::alloc::{AllocError, Global};
use ste_base::Name;

/// What the passes over instances work on: the signals of each model, the instances, for these the
/// numbers of their signals' nets with the nets' own names, and the covers.
#[derive(Drop)]
pub(crate) struct Parts {
    pub(crate) signals: Vec<IndexSet<Name>>,
    pub(crate) rows: Vec<Row>,
    pub(crate) numbered: Numbered,
    pub(crate) covers: Covers,
}

/// The signals of each model.
fn all_signals(alloc: Global, models: &[Model]) -> Result<Vec<IndexSet<Name>>, AllocError>
    ensures { IfOk result (λ sets. map (λ set. set.keys) sets.items ≡ map signals models.now) }
{
    let mut sets = Vec::new(alloc);
    for model in models {
        sets.push(signals(alloc, model)?)?;
    }
    Ok(sets)
}

/// The parts of a hierarchy without a fault that can be found before any instance is made. `names`
/// has the names of all models.
pub(crate) fn parts_of(
    alloc: Global,
    models: &[Model],
    names: &IndexSet<Name>,
) -> Result<Parts, AllocError>
    requires some { 0 < length models.now }
    requires names { names.now.keys ≡ model_names models.now }
    requires free { IsFree (HasFaultBeforeInstances models.now) }
    requires covered { AreCovered models.now }
    ensures { IfOk result (λ parts. ArePartsOf models.now
        (map (λ set. set.keys) parts.signals.items) parts.rows.items parts.numbered.numbers.items
        parts.numbered.names parts.covers.firsts.items parts.covers.covers) }
{
    let graph = uses(alloc, names, models)?;
    let signals = all_signals(alloc, models)?;
    let rows = instance_rows(alloc, models, graph.as_slice())?;
    let numbered = instance_numbers(alloc, models, signals.as_slice(), rows.as_slice())?;
    let covers = all_covers(alloc, models, rows.as_slice())?;
    Ok(Parts {
        signals,
        rows,
        numbered,
        covers,
    })
}
