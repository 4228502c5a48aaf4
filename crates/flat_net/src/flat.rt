//! The flat net of a hierarchy; begin with `flatten`.

ghost use Rattle.std.specs.Prelude.{◌≡◌, ◌<◌, ◌≤◌, ◌⊎◌, ℕ, List, [], All, IfErr, IfOk, OnOk, length, map};
ghost use Rattle.net_core.specs.Cases.{cases_of};
ghost use Rattle.net_core.specs.Flat.{HasOneDriver, IsInRange};
ghost use Rattle.net_core.specs.declared.cover.Cover.{Cover};
ghost use Rattle.hierarchy.specs.declared.fault.NetFault.TheVariants.{OutOfMemory};
ghost use Rattle.blif_syntax.specs.Covered.{AreCovered};
ghost use Rattle.hierarchy.specs.Faults.{Else, HasDrivenTwice, HasFaultBeforeInstances, HasMixedClocks, IsFree, IsRefusal};
ghost use Rattle.flat_net.specs.Corresponds.{Corresponds};
ghost use Rattle.hierarchy.specs.Names.{own_name};
ghost use Rattle.hierarchy.specs.Sizes.{IsShallow};
ghost use Rattle.hierarchy.specs.Nets.{nets};
ghost use Rattle.flat_net.specs.Flat.{IsFlat};
ghost use Rattle.flat_net.specs.private.Parts.{ArePartsOf};
ghost use Rattle.flat_net.specs.private.Passes.{AreInstances, AreNumbered, IsInstance, IsNarrow};
ghost use Rattle.net_names.specs.Names.{AreNamesOf};

use crate::clocks::refuse_mixed_clocks;
use crate::covers::Covers;
use crate::drivers::refuse_driven_twice;
use crate::gates::{all_gates, all_latches};
use crate::instance::{Instance, all_instances, nodes_in};
use crate::parts::{Parts, parts_of};
use blif_syntax::{Model, Models};
use hierarchy::signals::{inputs_of, outputs_of};
use hierarchy::uses::names_of;
use hierarchy::{NetFault, refuse};
use indexmap::IndexSet;
use instances::{Numbered, Row};
use net_core::{Cover, RawNet};
use net_names::NetNames;
use std::alloc::{AllocError, Global};
use ste_base::{Items, Name};

/// The flat net with so many nets, and these covers and instances; `top` is the first of these.
fn raw_net(
    alloc: Global,
    models: &[Model],
    count: u32,
    covers: Items<Cover>,
    instances: &[Instance],
    top: &Instance,
) -> Result<RawNet, AllocError>
    requires count { count ≡ length (nets models.now) }
    requires instances { AreInstances models.now covers instances.now }
    requires top { IsInstance models.now covers top.now [] }
    requires few { length covers ≤ 4294967295 }
    ensures { IfOk result (λ raw. IsFlat models.now raw × (raw.covers ≡ covers)) }
{
    let _ = models;
    let inputs = inputs_of(alloc, top.model)?;
    let outputs = outputs_of(alloc, top.model)?;
    Ok(RawNet {
        nets: count,
        inputs: nodes_in(alloc, top, inputs.as_slice())?,
        outputs: nodes_in(alloc, top, outputs.as_slice())?,
        gates: all_gates(alloc, instances)?,
        latches: all_latches(alloc, instances)?,
        covers,
    })
}

/// Refuses the first driver of a net that is driven twice, or where there is none the first latch
/// with another type or control. `names` has the nets' own names, by number, and `top` is the first
/// of the instances.
fn refuse_numbered(
    alloc: Global,
    models: &[Model],
    names: &[Name],
    instances: &[Instance],
    top: &Instance,
) -> Result<(), NetFault>
    ensures ok { OnOk result ((covers : List Cover) →
        AreNumbered models.now names.now covers instances.now top.now →
        IsFree (Else (HasDrivenTwice models.now) (HasMixedClocks models.now))) }
    ensures err { IfErr result (λ fault. (fault ≡ OutOfMemory) ⊎ ((covers : List Cover) →
        AreNumbered models.now names.now covers instances.now top.now →
        Else (HasDrivenTwice models.now) (HasMixedClocks models.now) fault)) }
{
    let _ = models;
    let inputs = inputs_of(alloc, top.model)?;
    let nodes = nodes_in(alloc, top, inputs.as_slice())?;
    match refuse_driven_twice(alloc, instances, nodes.as_slice(), names) {
        Err(fault) => Err(fault),
        Ok(()) => match refuse_mixed_clocks(instances, names) {
            Err(fault) => Err(fault),
            Ok(()) => Ok(()),
        },
    }
}

/// The flat net of these instances, or the fault that the numbers of nets show. `names` has the
/// nets' own names, by number.
fn flat_of(
    alloc: Global,
    models: &[Model],
    names: &[Name],
    covers: Items<Cover>,
    instances: &[Instance],
) -> Result<RawNet, NetFault>
    requires some { 0 < length models.now }
    requires shallow { IsShallow models.now }
    requires names { names.now ≡ map own_name (nets models.now) }
    requires few_nets { length names.now ≤ 4294967295 }
    requires few_covers { length covers ≤ 4294967295 }
    requires instances { AreInstances models.now covers instances.now }
    ensures flat { IfOk result (λ raw. IsFlat models.now raw × (raw.covers ≡ covers)) }
    ensures ok { OnOk result
        (IsFree (Else (HasDrivenTwice models.now) (HasMixedClocks models.now))) }
    ensures err { IfErr result (λ fault. (fault ≡ OutOfMemory)
        ⊎ Else (HasDrivenTwice models.now) (HasMixedClocks models.now) fault) }
{
    let top = &instances[0];
    match refuse_numbered(alloc, models, names, instances, top) {
        Err(fault) => Err(fault),
        Ok(()) => {
            let count = names.len() as u32;
            let raw = raw_net(alloc, models, count, covers, instances, top)?;
            Ok(raw)
        }
    }
}

/// The flat net of a hierarchy of which these are the parts, or the fault that the numbers of nets
/// show.
fn net_of_parts(
    alloc: Global,
    models: &[Model],
    signals: &[IndexSet<Name>],
    rows: &[Row],
    numbered: &Numbered,
    covers: Covers,
) -> Result<RawNet, NetFault>
    requires some { 0 < length models.now }
    requires shallow { IsShallow models.now }
    requires parts { ArePartsOf models.now (map (λ set. set.keys) signals.now) rows.now
        numbered.now.numbers.items numbered.now.names covers.firsts.items covers.covers }
    ensures flat { IfOk result (λ raw. IsFlat models.now raw × (raw.covers ≡ covers.covers)) }
    ensures ok { OnOk result
        (IsFree (Else (HasDrivenTwice models.now) (HasMixedClocks models.now))) }
    ensures err { IfErr result (λ fault. (fault ≡ OutOfMemory)
        ⊎ Else (HasDrivenTwice models.now) (HasMixedClocks models.now) fault) }
{
    let Covers { firsts, covers } = covers;
    let instances = all_instances(
        alloc,
        models,
        signals,
        rows,
        numbered.numbers.as_slice(),
        firsts.as_slice(),
    )?;
    match flat_of(
        alloc,
        models,
        numbered.names.as_slice(),
        covers,
        instances.as_slice(),
    ) {
        Err(fault) => Err(fault),
        Ok(raw) => Ok(raw),
    }
}

/// The flat net, with the names of its nets, of a hierarchy without a fault that can be found
/// before any instance is made, or the fault that the numbers of nets show.
fn flat_behind(alloc: Global, models: &[Model]) -> Result<(RawNet, NetNames), NetFault>
    requires some { 0 < length models.now }
    requires covered { AreCovered models.now }
    requires free { IsFree (HasFaultBeforeInstances models.now) }
    ensures flat { IfOk result (λ made. IsFlat models.now made.0) }
    ensures in_range { IfOk result (λ made. IsInRange made.0) }
    ensures narrow { IfOk result (λ made. All IsNarrow made.0.covers) }
    ensures names { IfOk result (λ made. AreNamesOf models.now made.1) }
    ensures ok { OnOk result
        (IsFree (Else (HasDrivenTwice models.now) (HasMixedClocks models.now))) }
    ensures err { IfErr result (λ fault. (fault ≡ OutOfMemory)
        ⊎ Else (HasDrivenTwice models.now) (HasMixedClocks models.now) fault) }
{
    let names = match names_of(alloc, models) {
        Ok(names) => names,
        Err(_fault) => return Err(NetFault::OutOfMemory),
    };
    let parts = parts_of(alloc, models, &names)?;
    let Parts {
        signals,
        rows,
        numbered,
        covers,
    } = parts;
    match net_of_parts(
        alloc,
        models,
        signals.as_slice(),
        rows.as_slice(),
        &numbered,
        covers,
    ) {
        Err(fault) => Err(fault),
        Ok(raw) => {
            let names = NetNames::new(alloc, models, signals, rows, numbered)?;
            Ok((raw, names))
        }
    }
}

/// The flat net of a netlist, of one model or of a hierarchy, with the names of its nets. The nets
/// of all instances are numbered in preorder, and gates and latches stand by instance and line; a
/// bound formal is on its actual's net. Each cover has to be sound, with as many inputs as its line
/// names. An error is the fault that the hierarchy is refused for, with its line and name, of the
/// first kind for which there is one, or out of memory.
pub fn flatten(alloc: Global, models: &Models) -> Result<(RawNet, NetNames), NetFault>
    requires { AreCovered models.now.models }

    // The net is that of the hierarchy, and its runs are those of the hierarchy.
    ensures flat { IfOk result (λ made. IsFlat models.now.models made.0) }
    ensures runs { IfOk result (λ made. (n : ℕ) → Corresponds models.now.models made.0 n) }

    // What the order of its gates and the rows of its covers ask.
    ensures in_range { IfOk result (λ made. IsInRange made.0) }
    ensures one_driver { IfOk result (λ made. HasOneDriver made.0) }
    ensures inputs { IfOk result (λ made. All (λ cover. cover.inputs ≤ 1000) made.0.covers) }
    ensures cases { IfOk result (λ made.
        All (λ cover. cases_of cover.inputs cover.rows ≤ 65536) made.0.covers) }

    // The names are those of its nets.
    ensures names { IfOk result (λ made. AreNamesOf models.now.models made.1) }

    // Ok exactly where there is no fault, and otherwise the first of them, or out of memory.
    ensures ok { OnOk result (IsFree (IsRefusal models.now.models)) }
    ensures err { IfErr result (λ fault. (fault ≡ OutOfMemory)
        ⊎ IsRefusal models.now.models fault) }
{
    match refuse(alloc, models) {
        Err(fault) => Err(fault),
        Ok(()) => match flat_behind(alloc, models.models.as_slice()) {
            Err(fault) => Err(fault),
            Ok(made) => Ok(made),
        },
    }
}
