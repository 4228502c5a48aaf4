//! That no net is driven twice; begin with `refuse_driven_twice`.

ghost use Rattle.std.specs.Prelude.{◌≡◌, ◌⊎◌, ◌++◌, [], ℕ, List, Some, None, IfErr, OnOk, false, flat_map, length, option_copied, option_map, slice_index_or, slice_set, true};
ghost use Rattle.std.proofs.Common.{replicate};
ghost use Rattle.hierarchy.specs.Lines.{driver_on};
ghost use Rattle.hierarchy.specs.declared.fault.NetFault.TheVariants.{DrivenTwice, OutOfMemory};
ghost use Rattle.flat_net.specs.private.Drivers.{Driver, driven_fault, drivers_in, marks_with, first_driven_twice};

use crate::instance::{Instance, node_in};
use blif_syntax::What;
use hierarchy::NetFault;
use std::alloc::{AllocError, Global};
use ste_base::{Name, NodeId};

/// Marks a net, and says whether it was marked before.
#[tactic(auto, using(crate::proofs::Marks::set_behind))]
fn mark(marks: &mut Vec<bool>, node: NodeId) -> bool
    ensures was { result ≡ slice_index_or marks.old.items node.0 false }
    ensures set { marks.new.items ≡ slice_set marks.old.items node.0 true }
{
    let place = node.0 as usize;
    let was = marks.get(place).copied().unwrap_or(false);
    if place < marks.len() {
        marks[place] = true;
    }
    was
}

/// Marks these nets.
fn mark_all(marks: &mut Vec<bool>, nodes: &[NodeId])
    ensures { marks.new.items ≡ marks_with marks.old.items nodes.now }
{
    for node in nodes {
        let _ = mark(marks, *node);
    }
}

/// The fault of a driver of a net that is driven already.
fn driven_twice(line: u32, node: NodeId, names: &[Name]) -> NetFault
    ensures { (result ≡ OutOfMemory)
        ⊎ (result ≡ DrivenTwice line (slice_index_or names.now node.0 [])) }
{
    let Some(name) = names.get(node.0 as usize) else {
        return NetFault::OutOfMemory;
    };
    match name.clone() {
        Ok(name) => NetFault::DrivenTwice { line, name },
        Err(fault) => NetFault::from(fault),
    }
}

/// The signal that a line drives.
fn driven_by(what: &What) -> Option<&Name>
    ensures { (line : ℕ) → driver_on line what.now
        ≡ option_map (λ output. record { line = line; output = output }) (option_copied result) }
{
    match what {
        What::Names { output, .. } | What::Latch { output, .. } => Some(output),
        _ => None,
    }
}

/// Refuses the first driver in an instance, by line, whose net is marked or has an earlier driver
/// there; the nets of all its drivers are marked. `names` has the nets' own names, by number.
fn refuse_in(instance: &Instance, names: &[Name], marks: &mut Vec<bool>) -> Result<(), NetFault>
    ensures ok { OnOk result ((rest : List Driver) →
        first_driven_twice marks.new.items rest ≡ first_driven_twice marks.old.items
        (drivers_in instance.now ++ rest)) }
    ensures err { IfErr result (λ fault. (fault ≡ OutOfMemory) ⊎ ((rest : List Driver) →
        option_map (driven_fault names.now)
        (first_driven_twice marks.old.items (drivers_in instance.now ++ rest))
        ≡ Some fault)) }
{
    for item in instance.model.items.as_slice() {
        if let Some(output) = driven_by(&item.what) {
            let node = node_in(instance, output);
            if mark(marks, node) {
                return Err(driven_twice(item.line, node, names));
            }
        }
    }
    Ok(())
}

/// Refuses the first driver, by instance and line, of a net that is an input or has an earlier
/// driver. `names` has the nets' own names, by number.
pub(crate) fn refuse_driven_twice(
    alloc: Global,
    instances: &[Instance],
    inputs: &[NodeId],
    names: &[Name],
) -> Result<(), NetFault>
    ensures ok { OnOk result
        (first_driven_twice (marks_with (replicate (length names.now) false) inputs.now)
        (flat_map drivers_in instances.now) ≡ None) }
    ensures err { IfErr result (λ fault. (fault ≡ OutOfMemory)
        ⊎ (option_map (driven_fault names.now) (first_driven_twice
        (marks_with (replicate (length names.now) false)
        inputs.now) (flat_map drivers_in instances.now)) ≡ Some fault)) }
{
    let mut marks = vec![in alloc; false; names.len()]?;
    mark_all(&mut marks, inputs);
    for instance in instances {
        refuse_in(instance, names, &mut marks)?;
    }
    Ok(())
}
