//! What uses leave unbound; begin with `refuse_missing_formals`.

ghost use Rattle.std.specs.Prelude.{◌≡◌, ◌⊎◌, IfErr, IfOk, None, OnOk, Some, find, map, not, option_map};
ghost use Rattle.blif_syntax.specs.Words.{is_one_of};
ghost use Rattle.hierarchy.specs.Faults.{HasMissingFormal, IsFree, in_use, missing_formal_of};
ghost use Rattle.hierarchy.specs.Instances.{model_names};
ghost use Rattle.hierarchy.specs.Lines.{first_mentions, needed_formals};
ghost use Rattle.hierarchy.specs.private.Checks.{AreReachable, first_fault_in};
ghost use Rattle.hierarchy.specs.private.Kinds.{missing_formal_among};

use crate::checks::ItemAt;
use crate::fault::NetFault;
use crate::formals::number_of;
use crate::signals::{add, needed_formals};
use crate::uses::{UseLine, use_of};
use blif_syntax::Model;
use indexmap::IndexSet;
use std::alloc::{AllocError, Global};
use ste_base::Name;

/// The formals that each use of a model has to bind, by model.
fn all_needed(alloc: Global, models: &[Model]) -> Result<Vec<IndexSet<Name>>, AllocError>
    ensures { IfOk result (λ sets.
        map (λ set. set.keys) sets.items ≡ map needed_formals models.now) }
{
    let mut sets = Vec::new(alloc);
    for model in models {
        sets.push(needed_formals(alloc, model)?)?;
    }
    Ok(sets)
}

/// The names that a use binds.
fn bound_names(alloc: Global, used: &UseLine) -> Result<IndexSet<Name>, AllocError>
    ensures { IfOk result (λ bound.
        bound.keys ≡ first_mentions (map (λ binding. binding.0) used.now.bindings)) }
{
    let mut bound = IndexSet::new(alloc);
    for binding in used.bindings {
        add(&mut bound, &binding.0)?;
    }
    Ok(bound)
}

/// Refuses the line where it leaves one of the names unbound; the fault has the first of them.
fn refuse_unbound(
    bound: &IndexSet<Name>,
    needed: &IndexSet<Name>,
    line: u32,
) -> Result<(), NetFault>
    ensures ok { OnOk result
        (find (λ name. not (is_one_of bound.now.keys name)) needed.now.keys ≡ None) }
    ensures err { IfErr result (λ fault. (fault ≡ NetFault.OutOfMemory)
        ⊎ (option_map (λ name. NetFault.MissingFormal line name)
        (find (λ name. not (is_one_of bound.now.keys name)) needed.now.keys) ≡ Some fault)) }
{
    for name in needed.as_slice() {
        if !bound.contains(name) {
            let name = name.clone()?;
            return Err(NetFault::MissingFormal { line, name });
        }
    }
    Ok(())
}

/// Refuses a use that leaves one of the names unbound.
fn refuse_missing_formal(
    alloc: Global,
    needed: &IndexSet<Name>,
    used: &UseLine,
) -> Result<(), NetFault>
    ensures ok { OnOk result (missing_formal_among needed.now.keys used.now ≡ None) }
    ensures err { IfErr result (λ fault. (fault ≡ NetFault.OutOfMemory)
        ⊎ (missing_formal_among needed.now.keys used.now ≡ Some fault)) }
{
    let bound = bound_names(alloc, used)?;
    refuse_unbound(&bound, needed, used.line)
}

/// Refuses a use that leaves a formal unbound that has to be bound.
fn refuse_missing_formal_of(
    alloc: Global,
    models: &[Model],
    names: &IndexSet<Name>,
    needed: &[IndexSet<Name>],
    used: &UseLine,
) -> Result<(), NetFault>
    requires names { names.now.keys ≡ model_names models.now }
    requires needed { map (λ set. set.keys) needed.now ≡ map needed_formals models.now }
    ensures ok { OnOk result (missing_formal_of models.now used.now ≡ None) }
    ensures err { IfErr result (λ fault. (fault ≡ NetFault.OutOfMemory)
        ⊎ (missing_formal_of models.now used.now ≡ Some fault)) }
{
    let Some(number) = number_of(names, used) else {
        return Ok(())
    };
    let Some(needed) = needed.get(number) else {
        return Ok(())
    };
    refuse_missing_formal(alloc, needed, used)
}

/// Refuses the first of the uses that leave a formal unbound.
fn first_missing_formal(
    alloc: Global,
    models: &[Model],
    names: &IndexSet<Name>,
    lines: &[ItemAt],
) -> Result<(), NetFault>
    requires { names.now.keys ≡ model_names models.now }
    ensures ok { OnOk result
        (first_fault_in (λ at. in_use (missing_formal_of models.now) at.item) lines.now ≡ None) }
    ensures err { IfErr result (λ fault. (fault ≡ NetFault.OutOfMemory)
        ⊎ (first_fault_in (λ at. in_use (missing_formal_of models.now) at.item) lines.now
        ≡ Some fault)) }
{
    let needed = all_needed(alloc, models)?;
    for at in lines {
        if let Some(used) = use_of(at.item) {
            refuse_missing_formal_of(alloc, models, names, needed.as_slice(), &used)?;
        }
    }
    Ok(())
}

/// Refuses the first line of a reachable model that leaves a formal of the model that it uses
/// unbound, where that has to be bound. `lines` has the items of just the reachable models, and
/// `names` the names of all.
pub(crate) fn refuse_missing_formals(
    alloc: Global,
    models: &[Model],
    names: &IndexSet<Name>,
    lines: &[ItemAt],
) -> Result<(), NetFault>
    requires names { names.now.keys ≡ model_names models.now }
    requires lines { AreReachable models.now lines.now }
    ensures ok { OnOk result (IsFree (HasMissingFormal models.now)) }
    ensures err { IfErr result (λ fault. (fault ≡ NetFault.OutOfMemory)
        ⊎ HasMissingFormal models.now fault) }
{
    first_missing_formal(alloc, models, names, lines)
}
