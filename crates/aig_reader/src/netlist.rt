//! From what a text says to its model; begin with `model_of`.

ghost use Rattle.std.specs.Prelude.{◌≡◌, ◌++◌, IfOk, OnOk, length, map};
ghost use Rattle.std.specs.List.{list_any, zip};
ghost use Rattle.aig_model.specs.Literals.{variable_of};
ghost use Rattle.aig_model.specs.Names.{output_names, variable_name};
ghost use Rattle.blif_syntax.specs.declared.models.What.TheVariants.{Inputs, Outputs};
ghost use Rattle.aig_model.specs.Netlist.{and_item, item_at, latch_item, model_of, opposite_item, opposites, output_item, zero_item};
ghost use Rattle.aig_reader.specs.private.Labelled.{IsFew};
ghost use Rattle.aig_reader.specs.private.Taken.{ands_mention_zero, any_mentions_zero, latches_mention_zero, outputs_mention_zero, zero_items};

use crate::items::{and_item, latch_item, opposite_item, output_item, zero_item};
use crate::naming::Naming;
use crate::opposites::opposites;
use crate::words::variable_of;
use aig_model::{Aig, AigAnd, AigLatch, AigOutput};
use blif_syntax::{Item, Model, What};
use std::alloc::{AllocError, Global};
use ste_base::{Items, Name, copies};

/// The names of these variables.
fn variable_names(alloc: Global, naming: &Naming, vars: &[u32]) -> Result<Items<Name>, AllocError>
    ensures { IfOk result (λ names. names ≡ map (variable_name naming.now) vars.now) }
{
    let mut names = Items::new(alloc);
    for var in vars {
        names.push(naming.variable_name(alloc, *var)?)?;
    }
    Ok(names)
}

/// Adds the items of the latches.
fn add_latches(
    items: &mut Items<Item>,
    alloc: Global,
    naming: &Naming,
    latches: &[AigLatch],
) -> Result<(), AllocError>
    ensures { OnOk result (items.new ≡ items.old ++ map (latch_item naming.now) latches.now) }
{
    for latch in latches {
        items.push(latch_item(alloc, naming, latch)?)?;
    }
    Ok(())
}

/// Adds the items of the ANDs.
fn add_ands(
    items: &mut Items<Item>,
    alloc: Global,
    naming: &Naming,
    ands: &[AigAnd],
) -> Result<(), AllocError>
    ensures { OnOk result (items.new ≡ items.old ++ map (and_item naming.now) ands.now) }
{
    for gate in ands {
        items.push(and_item(alloc, naming, gate)?)?;
    }
    Ok(())
}

/// Adds the items of the outputs, which have these names.
fn add_outputs(
    items: &mut Items<Item>,
    alloc: Global,
    naming: &Naming,
    outputs: &[AigOutput],
    names: &[Name],
) -> Result<(), AllocError>
    requires { length names.now ≡ length outputs.now }
    ensures { OnOk result (items.new ≡ items.old
        ++ map (λ at. output_item naming.now at.0 at.1) (zip outputs.now names.now)) }
{
    for at in 0..outputs.len() {
        items.push(output_item(alloc, naming, &outputs[at], &names[at])?)?;
    }
    Ok(())
}

/// Adds the inverters of these variables.
fn add_opposites(
    items: &mut Items<Item>,
    alloc: Global,
    naming: &Naming,
    vars: &[u32],
) -> Result<(), AllocError>
    ensures { OnOk result (items.new ≡ items.old ++ map (opposite_item naming.now) vars.now) }
{
    for var in vars {
        items.push(opposite_item(alloc, naming, *var)?)?;
    }
    Ok(())
}

/// Whether a latch takes a literal of variable 0.
fn latches_mention_zero(latches: &[AigLatch]) -> bool
    ensures { result ≡ latches_mention_zero latches.now }
{
    latches.iter().any(|latch| variable_of(latch.next) == 0)
}

/// Whether an AND takes a literal of variable 0.
fn ands_mention_zero(ands: &[AigAnd]) -> bool
    ensures { result ≡ ands_mention_zero ands.now }
{
    ands.iter().any(|gate| variable_of(gate.left) == 0 || variable_of(gate.right) == 0)
}

/// Whether an output has a literal of variable 0.
fn outputs_mention_zero(outputs: &[AigOutput]) -> bool
    ensures { result ≡ outputs_mention_zero outputs.now }
{
    outputs
        .iter()
        .any(|output| variable_of(output.literal) == 0)
}

/// Whether a literal of variable 0 is mentioned.
fn mentions_zero(aig: &Aig) -> bool
    ensures { result ≡ any_mentions_zero aig.now }
{
    latches_mention_zero(aig.latches.as_slice())
        || (ands_mention_zero(aig.ands.as_slice()) || outputs_mention_zero(aig.outputs.as_slice()))
}

/// Adds the item of variable 0, where it is mentioned.
fn add_zero(items: &mut Items<Item>, alloc: Global, naming: &Naming) -> Result<(), AllocError>
    ensures { OnOk result (items.new ≡ items.old ++ zero_items naming.now) }
{
    if !mentions_zero(naming.aig()) {
        return Ok(());
    }
    items.push(zero_item(alloc, naming)?)?;
    Ok(())
}

/// The item of the inputs.
fn inputs_item(alloc: Global, naming: &Naming) -> Result<Item, AllocError>
    ensures { IfOk result (λ item. item
        ≡ item_at 1 (Inputs (map (variable_name naming.now) naming.now.inputs))) }
{
    let names = variable_names(alloc, naming, naming.aig().inputs.as_slice())?;
    Ok(Item {
        line: 1,
        what: What::Inputs(names),
    })
}

/// The item of the outputs.
fn outputs_item(alloc: Global, naming: &Naming) -> Result<Item, AllocError>
    ensures { IfOk result (λ item. item ≡ item_at 1 (Outputs (output_names naming.now))) }
{
    let names = copies(alloc, naming.output_names())?;
    Ok(Item {
        line: 1,
        what: What::Outputs(names),
    })
}

/// The items of a model.
fn items_of(alloc: Global, naming: &Naming) -> Result<Items<Item>, AllocError>
    ensures { IfOk result (λ items. items ≡ (model_of naming.now).items) }
{
    let aig = naming.aig();
    let mut items = Items::new(alloc);
    let inputs = inputs_item(alloc, naming)?;
    items.push(inputs)?;
    let outputs = outputs_item(alloc, naming)?;
    items.push(outputs)?;
    add_latches(&mut items, alloc, naming, aig.latches.as_slice())?;
    add_ands(&mut items, alloc, naming, aig.ands.as_slice())?;
    add_outputs(
        &mut items,
        alloc,
        naming,
        aig.outputs.as_slice(),
        naming.output_names(),
    )?;
    let vars = opposites(alloc, aig)?;
    add_opposites(&mut items, alloc, naming, vars.as_slice())?;
    add_zero(&mut items, alloc, naming)?;
    Ok(items)
}

/// The model of what a text says.
pub fn model_of(alloc: Global, aig: &Aig) -> Result<Model, AllocError>
    requires few { IsFew aig.now }
    ensures { IfOk result (λ model. model ≡ model_of aig.now) }
{
    let naming = Naming::of(alloc, aig)?;
    let items = items_of(alloc, &naming)?;
    Ok(Model {
        line: 1,
        name: Name::from_bytes(alloc, "aig".as_bytes())?,
        items,
    })
}
