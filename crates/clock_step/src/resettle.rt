//! The bits of all nets one time later, where few of them change; begin with `resettle`.

ghost use Rattle.std.specs.Prelude.{◌≡◌, ◌≢◌, ◌<◌, ◌+◌, ℕ, Bool, false, List, All, AllPairs, length, map, slice_index_or};
ghost use Rattle.ste_base.specs.declared.id.NodeId.{NodeId};
ghost use Rattle.net_core.specs.Run.{IsUndriven};
ghost use Rattle.clock_step.specs.private.Readers.{AreReaders};
ghost use Rattle.clock_step.specs.Determined.{AreBits, AreDetermined};
ghost use Rattle.clock_step.specs.private.Resettled.{AreNodesPlaced, AreTurned, IsEverySource, IsPlaced};
ghost use Rattle.clock_step.specs.Resting.{AreAtRest};

use crate::readers::Readers;
use crate::settle::cover_bit;
use net_core::Net;
use ste_base::NodeId;

/// Gives a net its bit. Where it had the other one, the gates that read it are marked.
fn place_bit(
    net: &Net,
    readers: &Readers,
    node: NodeId,
    bit: bool,
    bits: &mut [bool],
    due: &mut [bool],
)
    requires node { node.0 < net.now.raw.nets }
    requires readers { AreReaders net.now.raw net.now.settled readers.now }
    requires long { length bits.old ≡ net.now.raw.nets }
    requires due { length due.old ≡ length net.now.settled }
    ensures { IsPlaced net.now.raw net.now.settled node.0 bit bits.old bits.new due.old due.new }
{
    if bits[node.0 as usize] == bit {
        return;
    }
    bits[node.0 as usize] = bit;
    readers.mark(net, node, due);
}

/// Gives each of these nets, which no gate drives, its bit of the row.
fn place_nodes(
    net: &Net,
    readers: &Readers,
    nodes: &[NodeId],
    row: &[bool],
    bits: &mut [bool],
    due: &mut [bool],
)
    requires within { All (λ node. node.0 < net.now.raw.nets) nodes.now }
    requires different { AllPairs (λ one other. one.0 ≢ other.0) nodes.now }
    requires by_gate { All (λ node. All (λ gate. gate.output.0 ≢ node.0) net.now.raw.gates)
        nodes.now }
    requires wide { length row.now ≡ length nodes.now }
    requires readers { AreReaders net.now.raw net.now.settled readers.now }
    requires long { length bits.old ≡ net.now.raw.nets }
    requires due { length due.old ≡ length net.now.settled }
    requires rest { AreAtRest net.now.raw net.now.settled due.old bits.old }
    ensures { AreNodesPlaced net.now.raw net.now.settled nodes.now row.now bits.old bits.new
        due.new }
{
    for (k, node) in nodes.iter().enumerate() {
        place_bit(net, readers, *node, row[k], bits, due);
    }
}

/// Gives the output of the gate at a place the gate's bit, where the gate is marked, and takes the
/// mark away.
fn place_gate(net: &Net, readers: &Readers, place: usize, bits: &mut [bool], due: &mut [bool])
    requires place { place < length net.now.settled }
    requires readers { AreReaders net.now.raw net.now.settled readers.now }
    requires long { length bits.old ≡ net.now.raw.nets }
    requires due { length due.old ≡ length net.now.settled }
    ensures { (begun : List Bool) →
        AreTurned net.now.raw net.now.settled place begun bits.old due.old →
        AreTurned net.now.raw net.now.settled (place + 1) begun bits.new due.new }
{
    if !due[place] {
        return;
    }
    due[place] = false;
    let number = net.settled()[place] as usize;
    let gate = &net.gates()[number];
    let bit = cover_bit(bits, net.cover(gate.cover), gate.inputs.as_slice());
    place_bit(net, readers, gate.output, bit, bits, due);
}

/// Gives the output of each marked gate the gate's bit, one after another.
fn place_gates(net: &Net, readers: &Readers, bits: &mut [bool], due: &mut [bool])
    requires readers { AreReaders net.now.raw net.now.settled readers.now }
    requires begun { AreTurned net.now.raw net.now.settled 0 bits.old bits.old due.old }
    ensures { AreTurned net.now.raw net.now.settled (length net.now.settled) bits.old
        bits.new due.new }
{
    for place in 0..net.settled().len() {
        place_gate(net, readers, place, bits, due);
    }
}

/// Gives each net its bit at one time, from its bit at another time, a row with a bit for each
/// input and free net, and what the latches hold; `outputs` are the latches' outputs. A gate is
/// looked at where it is marked in `due`, by its place in the settled order, or an input gets
/// another bit. No mark is left, and no memory is taken.
pub fn resettle(
    net: &Net,
    readers: &Readers,
    nodes: &[NodeId],
    row: &[bool],
    outputs: &[NodeId],
    held: &[bool],
    bits: &mut [bool],
    due: &mut [bool],
)
    requires readers { AreReaders net.now.raw net.now.settled readers.now }
    requires within { All (λ node. node.0 < net.now.raw.nets) nodes.now }
    requires different { AllPairs (λ one other. one.0 ≢ other.0) nodes.now }
    requires undriven { All (λ node. IsUndriven net.now.raw node.0) nodes.now }
    requires every { IsEverySource net.now.raw nodes.now }
    requires wide { length row.now ≡ length nodes.now }
    requires outputs { outputs.now ≡ map (λ latch. latch.output) net.now.raw.latches }
    requires held { length held.now ≡ length net.now.raw.latches }
    requires long { length bits.old ≡ net.now.raw.nets }
    requires due { length due.old ≡ length net.now.settled }
    requires rest { AreAtRest net.now.raw net.now.settled due.old bits.old }
    ensures long { length bits.new ≡ net.now.raw.nets }
    ensures due { length due.new ≡ length net.now.settled }
    ensures unmarked { All (λ mark. mark ≡ false) due.new }
    ensures rest { AreAtRest net.now.raw net.now.settled due.new bits.new }
    ensures bits { (bit : ℕ → Bool) →
        AreDetermined net.now.raw nodes.now row.now held.now bit →
        AreBits net.now.raw bit bits.new }
{
    place_nodes(net, readers, nodes, row, bits, due);
    place_nodes(net, readers, outputs, held, bits, due);
    place_gates(net, readers, bits, due);
}
