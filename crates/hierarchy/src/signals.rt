//! The signals of a model, in the order of their first mention; begin with `signals`.

ghost use Rattle.std.specs.Prelude.{◌≡◌, OnOk, IfOk, bytes_eq, map};
ghost use Rattle.indexmap.specs.IndexSet.{insert_key, insert_all};
ghost use Rattle.hierarchy.specs.Lines.{formal_words, formals_of, input_words, inputs_of, needed_formals, needed_words, output_words, outputs_of, signal_words, signals};

use blif_syntax::{Model, What};
use indexmap::IndexSet;
use std::alloc::{AllocError, Global};
use ste_base::Name;

/// Adds a name, where it is not there yet.
pub fn add(set: &mut IndexSet<Name>, name: &Name) -> Result<(), AllocError>
    ensures { OnOk result (set.new.keys ≡ insert_key bytes_eq set.old.keys name.now) }
{
    set.insert(name.clone()?)?;
    Ok(())
}

/// Adds each of the names that is not there yet.
fn add_all(set: &mut IndexSet<Name>, names: &[Name]) -> Result<(), AllocError>
    ensures { OnOk result (set.new.keys ≡ insert_all bytes_eq set.old.keys names.now) }
{
    for name in names {
        add(set, name)?;
    }
    Ok(())
}

/// Adds the actual of each binding.
fn add_actuals(set: &mut IndexSet<Name>, formals: &[(Name, Name)]) -> Result<(), AllocError>
    ensures { OnOk result (set.new.keys
        ≡ insert_all bytes_eq set.old.keys (map (λ binding. binding.1) formals.now)) }
{
    for binding in formals {
        add(set, &binding.1)?;
    }
    Ok(())
}

/// Adds the words of a line that name signals.
fn add_signals(set: &mut IndexSet<Name>, what: &What) -> Result<(), AllocError>
    ensures { OnOk result (set.new.keys
        ≡ insert_all bytes_eq set.old.keys (signal_words what.now)) }
{
    match what {
        What::Inputs(names) | What::Outputs(names) | What::Clock(names) => {
            add_all(set, names.as_slice())
        }
        What::Names { inputs, output, .. } => {
            add_all(set, inputs.as_slice())?;
            add(set, output)
        }
        What::Latch {
            input,
            output,
            control,
            ..
        } => {
            add(set, input)?;
            add(set, output)?;
            match control {
                Some(name) => add(set, name),
                None => Ok(()),
            }
        }
        What::Subckt { formals, .. } => add_actuals(set, formals.as_slice()),
    }
}

/// Adds the words of a line that are inputs.
fn add_inputs(set: &mut IndexSet<Name>, what: &What) -> Result<(), AllocError>
    ensures { OnOk result (set.new.keys ≡ insert_all bytes_eq set.old.keys (input_words what.now)) }
{
    match what {
        What::Inputs(names) | What::Clock(names) => add_all(set, names.as_slice()),
        _ => Ok(()),
    }
}

/// Adds the words of a line that are outputs.
fn add_outputs(set: &mut IndexSet<Name>, what: &What) -> Result<(), AllocError>
    ensures { OnOk result (set.new.keys
        ≡ insert_all bytes_eq set.old.keys (output_words what.now)) }
{
    match what {
        What::Outputs(names) => add_all(set, names.as_slice()),
        _ => Ok(()),
    }
}

/// Adds the words of a line that are formals.
fn add_formals(set: &mut IndexSet<Name>, what: &What) -> Result<(), AllocError>
    ensures { OnOk result (set.new.keys
        ≡ insert_all bytes_eq set.old.keys (formal_words what.now)) }
{
    match what {
        What::Inputs(names) | What::Clock(names) | What::Outputs(names) => {
            add_all(set, names.as_slice())
        }
        _ => Ok(()),
    }
}

/// Adds the words of a line that each use of its model has to bind.
fn add_needed(set: &mut IndexSet<Name>, what: &What) -> Result<(), AllocError>
    ensures { OnOk result (set.new.keys
        ≡ insert_all bytes_eq set.old.keys (needed_words what.now)) }
{
    match what {
        What::Inputs(names) => add_all(set, names.as_slice()),
        _ => Ok(()),
    }
}

/// The signals of a model, in the order of first mention.
pub fn signals(alloc: Global, model: &Model) -> Result<IndexSet<Name>, AllocError>
    ensures { IfOk result (λ set. set.keys ≡ signals model.now) }
{
    let mut set = IndexSet::new(alloc);
    for item in model.items.as_slice() {
        add_signals(&mut set, &item.what)?;
    }
    Ok(set)
}

/// The inputs of a model, in order, each once.
pub fn inputs_of(alloc: Global, model: &Model) -> Result<IndexSet<Name>, AllocError>
    ensures { IfOk result (λ set. set.keys ≡ inputs_of model.now) }
{
    let mut set = IndexSet::new(alloc);
    for item in model.items.as_slice() {
        add_inputs(&mut set, &item.what)?;
    }
    Ok(set)
}

/// The outputs of a model, in order, each once.
pub fn outputs_of(alloc: Global, model: &Model) -> Result<IndexSet<Name>, AllocError>
    ensures { IfOk result (λ set. set.keys ≡ outputs_of model.now) }
{
    let mut set = IndexSet::new(alloc);
    for item in model.items.as_slice() {
        add_outputs(&mut set, &item.what)?;
    }
    Ok(set)
}

/// The formals of a model, in order, each once.
pub fn formals_of(alloc: Global, model: &Model) -> Result<IndexSet<Name>, AllocError>
    ensures { IfOk result (λ set. set.keys ≡ formals_of model.now) }
{
    let mut set = IndexSet::new(alloc);
    for item in model.items.as_slice() {
        add_formals(&mut set, &item.what)?;
    }
    Ok(set)
}

/// The formals that each use of a model has to bind, in order, each once.
pub fn needed_formals(alloc: Global, model: &Model) -> Result<IndexSet<Name>, AllocError>
    ensures { IfOk result (λ set. set.keys ≡ needed_formals model.now) }
{
    let mut set = IndexSet::new(alloc);
    for item in model.items.as_slice() {
        add_needed(&mut set, &item.what)?;
    }
    Ok(set)
}
