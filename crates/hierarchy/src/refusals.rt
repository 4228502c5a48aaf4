//! What a hierarchy is refused for; begin with `refuse`.

ghost use Rattle.std.specs.Prelude.{◌≡◌, ◌⊎◌, ◌<◌, IfErr, IfOk, OnOk, length};
ghost use Rattle.blif_syntax.specs.Covered.{AreCovered};
ghost use Rattle.hierarchy.specs.Faults.{HasBadFormal, HasFaultBeforeInstances, HasUnknownModel, IsFree};
ghost use Rattle.hierarchy.specs.Instances.{model_names};
ghost use Rattle.hierarchy.specs.Reach.{uses};
ghost use Rattle.hierarchy.specs.private.Checks.{AreReachable};
ghost use Rattle.hierarchy.specs.private.Depth.{has_steps};
ghost use Rattle.hierarchy.specs.private.Kinds.{FromBadFormal, FromGateTooWide, FromMissingFormal, FromRecursive, FromTooDeep, FromUnknownModel};

use crate::checks::{ItemAt, marked_items, refuse_unknown_models};
use crate::circles::refuse_recursive;
use crate::counts::refuse_too_many_nodes;
use crate::depth::{is_deep, refuse_too_deep};
use crate::fault::NetFault;
use crate::formals::refuse_bad_formals;
use crate::gates::refuse_wide_gates;
use crate::reach::reached_marks;
use crate::unbound::refuse_missing_formals;
use crate::uses::{names_of, uses};
use blif_syntax::{Model, Models};
use indexmap::IndexSet;
use std::alloc::{AllocError, Global};
use ste_base::{Items, Name};

/// The items of the models that the top reaches, by line. `graph` has for each model the numbers of
/// those that it uses.
fn reachable_items<'a>(
    alloc: Global,
    models: &'a [Model],
    graph: &[Items<usize>],
) -> Result<Vec<ItemAt<'a>>, AllocError>
    requires some { 0 < length models.now }
    requires graph { graph.now ≡ uses models.now }
    ensures { IfOk result (λ lines. AreReachable models.now lines.items) }
{
    let marks = reached_marks(alloc, graph, 0)?;
    marked_items(alloc, models, marks.as_slice())
}

/// Refuses a hierarchy that is too deep, or one that is not but has too many nodes. `names` has the
/// names of all models, `graph` the numbers of those that each uses, and `deep` says whether more
/// than 64 steps of uses lead on from the top.
fn refuse_from_too_deep(
    alloc: Global,
    models: &[Model],
    names: &IndexSet<Name>,
    graph: &[Items<usize>],
    deep: bool,
) -> Result<(), NetFault>
    requires some { 0 < length models.now }
    requires names { names.now.keys ≡ model_names models.now }
    requires graph { graph.now ≡ uses models.now }
    requires known { IsFree (HasUnknownModel models.now) }
    requires bound { IsFree (HasBadFormal models.now) }
    requires deep { deep ≡ has_steps (uses models.now) 65 0 }
    ensures ok { OnOk result (IsFree (FromTooDeep models.now)) }
    ensures err { IfErr result (λ fault. (fault ≡ NetFault.OutOfMemory)
        ⊎ FromTooDeep models.now fault) }
{
    refuse_too_deep(models, deep)?;
    refuse_too_many_nodes(alloc, models, names, graph)
}

/// Refuses the first gate that is too wide, or where there is none what `refuse_from_too_deep`
/// does. `lines` has the items of just the reachable models.
fn refuse_from_gate_too_wide(
    alloc: Global,
    models: &[Model],
    names: &IndexSet<Name>,
    graph: &[Items<usize>],
    lines: &[ItemAt],
    deep: bool,
) -> Result<(), NetFault>
    requires covered { AreCovered models.now }
    requires some { 0 < length models.now }
    requires names { names.now.keys ≡ model_names models.now }
    requires graph { graph.now ≡ uses models.now }
    requires lines { AreReachable models.now lines.now }
    requires known { IsFree (HasUnknownModel models.now) }
    requires bound { IsFree (HasBadFormal models.now) }
    requires deep { deep ≡ has_steps (uses models.now) 65 0 }
    ensures ok { OnOk result (IsFree (FromGateTooWide models.now)) }
    ensures err { IfErr result (λ fault. (fault ≡ NetFault.OutOfMemory)
        ⊎ FromGateTooWide models.now fault) }
{
    refuse_wide_gates(alloc, models, lines)?;
    refuse_from_too_deep(alloc, models, names, graph, deep)
}

/// Refuses the first use that leaves a formal unbound, or where there is none what
/// `refuse_from_gate_too_wide` does. `names` has the names of all models.
fn refuse_from_missing_formal(
    alloc: Global,
    models: &[Model],
    names: &IndexSet<Name>,
    graph: &[Items<usize>],
    lines: &[ItemAt],
    deep: bool,
) -> Result<(), NetFault>
    requires covered { AreCovered models.now }
    requires some { 0 < length models.now }
    requires names { names.now.keys ≡ model_names models.now }
    requires graph { graph.now ≡ uses models.now }
    requires lines { AreReachable models.now lines.now }
    requires known { IsFree (HasUnknownModel models.now) }
    requires bound { IsFree (HasBadFormal models.now) }
    requires deep { deep ≡ has_steps (uses models.now) 65 0 }
    ensures ok { OnOk result (IsFree (FromMissingFormal models.now)) }
    ensures err { IfErr result (λ fault. (fault ≡ NetFault.OutOfMemory)
        ⊎ FromMissingFormal models.now fault) }
{
    refuse_missing_formals(alloc, models, names, lines)?;
    refuse_from_gate_too_wide(alloc, models, names, graph, lines, deep)
}

/// Refuses the first use with a bad formal, or where there is none what
/// `refuse_from_missing_formal` does.
fn refuse_from_bad_formal(
    alloc: Global,
    models: &[Model],
    names: &IndexSet<Name>,
    graph: &[Items<usize>],
    lines: &[ItemAt],
    deep: bool,
) -> Result<(), NetFault>
    requires covered { AreCovered models.now }
    requires some { 0 < length models.now }
    requires names { names.now.keys ≡ model_names models.now }
    requires graph { graph.now ≡ uses models.now }
    requires lines { AreReachable models.now lines.now }
    requires known { IsFree (HasUnknownModel models.now) }
    requires deep { deep ≡ has_steps (uses models.now) 65 0 }
    ensures ok { OnOk result (IsFree (FromBadFormal models.now)) }
    ensures err { IfErr result (λ fault. (fault ≡ NetFault.OutOfMemory)
        ⊎ FromBadFormal models.now fault) }
{
    refuse_bad_formals(alloc, models, names, lines)?;
    refuse_from_missing_formal(alloc, models, names, graph, lines, deep)
}

/// Refuses the first recursive use, or where there is none what `refuse_from_bad_formal` does.
/// `graph` has for each model the numbers of those that it uses.
fn refuse_from_recursive(
    alloc: Global,
    models: &[Model],
    names: &IndexSet<Name>,
    graph: &[Items<usize>],
    lines: &[ItemAt],
) -> Result<(), NetFault>
    requires covered { AreCovered models.now }
    requires some { 0 < length models.now }
    requires names { names.now.keys ≡ model_names models.now }
    requires graph { graph.now ≡ uses models.now }
    requires lines { AreReachable models.now lines.now }
    requires known { IsFree (HasUnknownModel models.now) }
    ensures ok { OnOk result (IsFree (FromRecursive models.now)) }
    ensures err { IfErr result (λ fault. (fault ≡ NetFault.OutOfMemory)
        ⊎ FromRecursive models.now fault) }
{
    let deep = is_deep(alloc, graph)?;
    refuse_recursive(alloc, models, names, graph, lines, deep)?;
    refuse_from_bad_formal(alloc, models, names, graph, lines, deep)
}

/// Refuses the first use of an unknown model, or where there is none what `refuse_from_recursive`
/// does.
fn refuse_from_unknown_model(
    alloc: Global,
    models: &[Model],
    names: &IndexSet<Name>,
) -> Result<(), NetFault>
    requires covered { AreCovered models.now }
    requires some { 0 < length models.now }
    requires names { names.now.keys ≡ model_names models.now }
    ensures ok { OnOk result (IsFree (FromUnknownModel models.now)) }
    ensures err { IfErr result (λ fault. (fault ≡ NetFault.OutOfMemory)
        ⊎ FromUnknownModel models.now fault) }
{
    let graph = uses(alloc, names, models)?;
    let lines = reachable_items(alloc, models, graph.as_slice())?;
    refuse_unknown_models(models, names, lines.as_slice())?;
    refuse_from_recursive(alloc, models, names, graph.as_slice(), lines.as_slice())
}

/// Refuses a hierarchy for the first fault there is of the kinds that can be found before any
/// instance is made: a double model, then an unknown model, a recursive one, a bad formal, a
/// missing formal, a gate that is too wide, a hierarchy that is too deep, and one with too many
/// nodes. The error is that fault, or out of memory. Each cover has to be sound, with as many
/// inputs as its line names.
pub fn refuse(alloc: Global, models: &Models) -> Result<(), NetFault>
    requires { AreCovered models.now.models }
    ensures ok { OnOk result (IsFree (HasFaultBeforeInstances models.now.models)) }
    ensures err { IfErr result (λ fault. (fault ≡ NetFault.OutOfMemory)
        ⊎ HasFaultBeforeInstances models.now.models fault) }
{
    let models = models.models.as_slice();
    let names = names_of(alloc, models)?;
    refuse_from_unknown_model(alloc, models, &names)
}
