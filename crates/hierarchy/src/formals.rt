//! What uses bind; begin with `refuse_bad_formals`.

ghost use Rattle.std.specs.Prelude.{◌≡◌, ◌⊎◌, [], IfErr, IfOk, None, OnOk, Some, bytes_eq, map, position};
ghost use Rattle.hierarchy.specs.Faults.{HasBadFormal, IsFree, bad_formal_among, bad_formal_of, in_use};
ghost use Rattle.hierarchy.specs.Instances.{model_names};
ghost use Rattle.hierarchy.specs.Lines.{formals_of};
ghost use Rattle.hierarchy.specs.private.Checks.{AreReachable, first_fault_in};

use crate::checks::ItemAt;
use crate::fault::NetFault;
use crate::signals::{add, formals_of};
use crate::uses::{UseLine, use_of};
use blif_syntax::Model;
use indexmap::IndexSet;
use std::alloc::{AllocError, Global};
use ste_base::Name;

/// The formals of each model.
fn all_formals(alloc: Global, models: &[Model]) -> Result<Vec<IndexSet<Name>>, AllocError>
    ensures { IfOk result (λ sets. map (λ set. set.keys) sets.items ≡ map formals_of models.now) }
{
    let mut sets = Vec::new(alloc);
    for model in models {
        sets.push(formals_of(alloc, model)?)?;
    }
    Ok(sets)
}

/// Refuses a use that binds a name that is none of the formals, or binds a formal twice.
fn refuse_bad_formal(
    alloc: Global,
    formals: &IndexSet<Name>,
    used: &UseLine,
) -> Result<(), NetFault>
    ensures ok { OnOk result (bad_formal_among formals.now.keys used.now ≡ None) }
    ensures err { IfErr result (λ fault. (fault ≡ NetFault.OutOfMemory)
        ⊎ (bad_formal_among formals.now.keys used.now ≡ Some fault)) }
{
    let mut bound = IndexSet::new(alloc);
    for binding in used.bindings {
        if !formals.contains(&binding.0) || bound.contains(&binding.0) {
            let name = binding.0.clone()?;
            return Err(NetFault::BadFormal {
                line: used.line,
                name,
            });
        }
        add(&mut bound, &binding.0)?;
    }
    Ok(())
}

/// The number of the model that a use names.
pub(crate) fn number_of(names: &IndexSet<Name>, used: &UseLine) -> Option<usize>
    ensures { result ≡ position (bytes_eq used.now.model) names.now.keys }
{
    names.get_index_of(used.model)
}

/// Refuses a use that binds a name that is no formal of the model that it names, or binds a formal
/// twice.
fn refuse_bad_formal_of(
    alloc: Global,
    models: &[Model],
    names: &IndexSet<Name>,
    formals: &[IndexSet<Name>],
    used: &UseLine,
) -> Result<(), NetFault>
    requires names { names.now.keys ≡ model_names models.now }
    requires formals { map (λ set. set.keys) formals.now ≡ map formals_of models.now }
    ensures ok { OnOk result (bad_formal_of models.now used.now ≡ None) }
    ensures err { IfErr result (λ fault. (fault ≡ NetFault.OutOfMemory)
        ⊎ (bad_formal_of models.now used.now ≡ Some fault)) }
{
    let Some(number) = number_of(names, used) else {
        return Ok(())
    };
    let Some(formals) = formals.get(number) else {
        return Ok(())
    };
    refuse_bad_formal(alloc, formals, used)
}

/// Refuses the first of the uses with a bad formal.
fn first_bad_formal(
    alloc: Global,
    models: &[Model],
    names: &IndexSet<Name>,
    lines: &[ItemAt],
) -> Result<(), NetFault>
    requires { names.now.keys ≡ model_names models.now }
    ensures ok { OnOk result
        (first_fault_in (λ at. in_use (bad_formal_of models.now) at.item) lines.now ≡ None) }
    ensures err { IfErr result (λ fault. (fault ≡ NetFault.OutOfMemory)
        ⊎ (first_fault_in (λ at. in_use (bad_formal_of models.now) at.item) lines.now
        ≡ Some fault)) }
{
    let formals = all_formals(alloc, models)?;
    for at in lines {
        if let Some(used) = use_of(at.item) {
            refuse_bad_formal_of(alloc, models, names, formals.as_slice(), &used)?;
        }
    }
    Ok(())
}

/// Refuses the first line of a reachable model that binds a name that is no formal of the model
/// that it uses, or binds a formal twice. `lines` has the items of just the reachable models, and
/// `names` the names of all.
pub(crate) fn refuse_bad_formals(
    alloc: Global,
    models: &[Model],
    names: &IndexSet<Name>,
    lines: &[ItemAt],
) -> Result<(), NetFault>
    requires names { names.now.keys ≡ model_names models.now }
    requires lines { AreReachable models.now lines.now }
    ensures ok { OnOk result (IsFree (HasBadFormal models.now)) }
    ensures err { IfErr result (λ fault. (fault ≡ NetFault.OutOfMemory)
        ⊎ HasBadFormal models.now fault) }
{
    first_bad_formal(alloc, models, names, lines)
}
