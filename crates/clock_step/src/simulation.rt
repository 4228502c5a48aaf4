//! The run of a net on given inputs; begin with `simulate`.

ghost use Rattle.std.specs.Prelude.{◌≡◌, ◌<◌, All, IfOk, IsTrue, length, map};
ghost use Rattle.clock_step.specs.Order.{is_undriven};
ghost use Rattle.clock_step.specs.Simulation.{AreOutputs, first_bit, first_bits, outputs_at};
ghost use Rattle.clock_step.specs.Determined.{bit_at};

use crate::inputs::Inputs;
use crate::settle::{bit_at, settle};
use net_core::{Init, Net};
use std::alloc::{AllocError, Global};
use ste_base::Items;

/// What a latch begins with.
fn first_bit(init: Init) -> bool
    ensures { result ≡ first_bit init }
{
    match init {
        Init::Zero | Init::Free => false,
        Init::One => true,
    }
}

/// What the latches begin with.
fn first_bits(alloc: Global, net: &Net) -> Result<Vec<bool>, AllocError>
    ensures { IfOk result (λ held. held.items ≡ first_bits net.now.raw) }
{
    net.latches()
        .iter()
        .map(|latch| first_bit(latch.init))
        .collect(alloc)
}

/// What the latches hold one time later.
fn next_bits(alloc: Global, net: &Net, bits: &[bool]) -> Result<Vec<bool>, AllocError>
    ensures { IfOk result (λ held. held.items
        ≡ map (λ latch. bit_at bits.now latch.input.0) net.now.raw.latches) }
{
    net.latches()
        .iter()
        .map(|latch| bit_at(bits, latch.input))
        .collect(alloc)
}

/// The bits of the outputs.
fn outputs_at(alloc: Global, net: &Net, bits: &[bool]) -> Result<Vec<bool>, AllocError>
    ensures { IfOk result (λ row. row.items ≡ outputs_at net.now.raw (bit_at bits.now)) }
{
    net.outputs()
        .iter()
        .map(|output| bit_at(bits, *output))
        .collect(alloc)
}

/// The bits of the outputs, time by time. `bits` is a row with a bit for each net, used again at
/// each time.
fn outputs_of(
    alloc: Global,
    net: &Net,
    inputs: &Inputs,
    bits: &mut [bool],
) -> Result<Items<Items<bool>>, AllocError>
    requires within { All (λ node. node.0 < net.now.raw.nets) inputs.now.nodes }
    requires long { length bits.old ≡ net.now.raw.nets }
    ensures { IfOk result (λ outputs. AreOutputs net.now.raw inputs.now outputs) }
{
    let nodes = inputs.nodes.as_slice();
    let mut held = first_bits(alloc, net)?;
    let mut outputs = Items::new(alloc);
    for row in inputs.rows.as_slice() {
        settle(net, nodes, row.as_slice(), &held, bits);
        outputs.push(outputs_at(alloc, net, bits)?.into())?;
        held = next_bits(alloc, net, bits)?;
    }
    Ok(outputs)
}

/// The bits of the outputs at each time of the one run on these inputs, which has a time for each
/// row. An input or free net that is no node of `inputs` is 0; a latch with initial value 0 or 1
/// begins with it, and any other with 0. The nodes have to be inputs or free nets of the net.
///
/// The time is linear in rows times the size of the net. Beside the answer, a byte for each row and
/// output, it takes a byte for each net and two for each latch.
pub fn simulate(alloc: Global, net: &Net, inputs: &Inputs) -> Result<Items<Items<bool>>, AllocError>
    requires { All (λ node. IsTrue (is_undriven net.now.raw node.0)) inputs.now.nodes }
    ensures { IfOk result (λ outputs. AreOutputs net.now.raw inputs.now outputs) }
{
    let mut bits = vec![in alloc; false; net.nets() as usize]?;
    outputs_of(alloc, net, inputs, bits.as_mut_slice())
}
