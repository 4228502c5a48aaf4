//! The gates and latches of a flat net, instance by instance; begin with `all_gates`.

ghost use Rattle.std.specs.Prelude.{◌≡◌, ◌≤◌, ◌+◌, ◌++◌, ◌∷◌, [], All, IfOk, OnOk, flat_map, length, map};
ghost use Rattle.hierarchy.specs.Lines.{gate_lines, latch_lines};
ghost use Rattle.flat_net.specs.private.Passes.{gates_from, gates_in, latch_in, latches_in};

use crate::instance::{Instance, node_in, nodes_in};
use blif_syntax::What;
use net_core::{Gate, Latch};
use std::alloc::{AllocError, Global};
use ste_base::Items;

/// Adds the gates of an instance, by line.
fn add_gates(alloc: Global, gates: &mut Items<Gate>, instance: &Instance) -> Result<(), AllocError>
    requires { instance.now.cover + length (gate_lines instance.now.model) ≤ 4294967295 }
    ensures { OnOk result (gates.new ≡ gates.old ++ gates_in instance.now) }
{
    let mut cover = instance.cover;
    for item in instance.model.items.as_slice() {
        if let What::Names { inputs, output, .. } = &item.what {
            gates.push(Gate {
                inputs: nodes_in(alloc, instance, inputs.as_slice())?,
                output: node_in(instance, output),
                cover,
            })?;
            cover += 1;
        }
    }
    Ok(())
}

/// The gates of all instances, by instance and line.
pub(crate) fn all_gates(alloc: Global, instances: &[Instance]) -> Result<Items<Gate>, AllocError>
    requires { All (λ instance.
        instance.cover + length (gate_lines instance.model) ≤ 4294967295) instances.now }
    ensures { IfOk result (λ gates. gates ≡ flat_map gates_in instances.now) }
{
    let mut gates = Items::new(alloc);
    for instance in instances {
        add_gates(alloc, &mut gates, instance)?;
    }
    Ok(gates)
}

/// Adds the latches of an instance, by line.
fn add_latches(latches: &mut Items<Latch>, instance: &Instance) -> Result<(), AllocError>
    ensures { OnOk result (latches.new ≡ latches.old ++ latches_in instance.now) }
{
    for item in instance.model.items.as_slice() {
        if let What::Latch {
            input,
            output,
            init,
            ..
        } = &item.what
        {
            latches.push(Latch {
                input: node_in(instance, input),
                output: node_in(instance, output),
                init: *init,
            })?;
        }
    }
    Ok(())
}

/// The latches of all instances, by instance and line.
pub(crate) fn all_latches(alloc: Global, instances: &[Instance]) -> Result<Items<Latch>, AllocError>
    ensures { IfOk result (λ latches. latches ≡ flat_map latches_in instances.now) }
{
    let mut latches = Items::new(alloc);
    for instance in instances {
        add_latches(&mut latches, instance)?;
    }
    Ok(latches)
}
