//! The checks of single lines of reachable models; begin with `marked_items`.

ghost use Rattle.std.specs.Prelude.{◌≡◌, ◌⊎◌, ◌++◌, IfErr, IfOk, None, OnOk, Some, length, map};
ghost use Rattle.hierarchy.specs.Faults.{HasUnknownModel, IsFree, in_use, unknown_model};
ghost use Rattle.hierarchy.specs.Instances.{model_names};
ghost use Rattle.hierarchy.specs.private.Checks.{AreReachable, ItemAt, first_fault_in, item_at, marked_items};

use crate::fault::NetFault;
use crate::uses::{UseLine, use_of};
use blif_syntax::Item;
use indexmap::IndexSet;
use std::alloc::{AllocError, Global};
use std::marker::Model;
use ste_base::Name;

/// An item of the model of that number.
#[derive(Drop)]
pub(crate) struct ItemAt<'a> {
    pub(crate) number: usize,
    pub(crate) item: &'a Item,
}

impl<'a> Model for ItemAt<'a> {
    ghost use Rattle.hierarchy.specs.private.Checks.{ItemAt};

    ghost Value = { ItemAt };

    ghost view = { λ at. record { number = at.number; item = at.item.now } };
}

/// Adds the items of the model of that number.
fn add_items<'a>(
    lines: &mut Vec<ItemAt<'a>>,
    number: usize,
    items: &'a [Item],
) -> Result<(), AllocError>
    ensures { OnOk result (lines.new.items ≡ lines.old.items ++ map (item_at number) items.now) }
{
    for item in items {
        lines.push(ItemAt { number, item })?;
    }
    Ok(())
}

/// The items of the models that are marked, by line.
pub(crate) fn marked_items<'a>(
    alloc: Global,
    models: &'a [blif_syntax::Model],
    marks: &[bool],
) -> Result<Vec<ItemAt<'a>>, AllocError>
    requires { length marks.now ≡ length models.now }
    ensures { IfOk result (λ lines. lines.items ≡ marked_items marks.now models.now) }
{
    let mut lines = Vec::new(alloc);
    for (number, model) in models.iter().enumerate() {
        if marks[number] {
            add_items(&mut lines, number, model.items.as_slice())?;
        }
    }
    Ok(lines)
}

/// Refuses a use that names no model.
fn refuse_unknown(names: &IndexSet<Name>, used: &UseLine) -> Result<(), NetFault>
    ensures ok { OnOk result (unknown_model names.now.keys used.now ≡ None) }
    ensures err { IfErr result (λ fault. (fault ≡ NetFault.OutOfMemory)
        ⊎ (unknown_model names.now.keys used.now ≡ Some fault)) }
{
    if names.get_index_of(used.model).is_some() {
        return Ok(());
    }
    let name = used.model.clone()?;
    Err(NetFault::UnknownModel {
        line: used.line,
        name,
    })
}

/// Refuses the first of the uses that name no model.
fn first_unknown(names: &IndexSet<Name>, lines: &[ItemAt]) -> Result<(), NetFault>
    ensures ok { OnOk result
        (first_fault_in (λ at. in_use (unknown_model names.now.keys) at.item) lines.now ≡ None) }
    ensures err { IfErr result (λ fault. (fault ≡ NetFault.OutOfMemory)
        ⊎ (first_fault_in (λ at. in_use (unknown_model names.now.keys) at.item) lines.now
        ≡ Some fault)) }
{
    for at in lines {
        if let Some(used) = use_of(at.item) {
            refuse_unknown(names, &used)?;
        }
    }
    Ok(())
}

/// Refuses the first line of a reachable model that uses an unknown model. `lines` has the items of
/// just these models, and `names` the names of all.
pub(crate) fn refuse_unknown_models(
    models: &[blif_syntax::Model],
    names: &IndexSet<Name>,
    lines: &[ItemAt],
) -> Result<(), NetFault>
    requires names { names.now.keys ≡ model_names models.now }
    requires lines { AreReachable models.now lines.now }
    ensures ok { OnOk result (IsFree (HasUnknownModel models.now)) }
    ensures err { IfErr result (λ fault. (fault ≡ NetFault.OutOfMemory)
        ⊎ HasUnknownModel models.now fault) }
{
    first_unknown(names, lines)
}
