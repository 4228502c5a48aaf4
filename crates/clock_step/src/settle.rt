//! The bits of all nets at one time; begin with `settle`.

ghost use Rattle.std.specs.Prelude.{◌≡◌, ◌≢◌, ◌<◌, ℕ, Bool, All, AllPairs, length, map};
ghost use Rattle.std.specs.List.{list_all, zip};
ghost use Rattle.net_core.specs.Cover.{admits, cover_bit, matches, some_matches};
ghost use Rattle.net_core.specs.Run.{AreGateBits};
ghost use Rattle.clock_step.specs.Simulation.{bit_in};
ghost use Rattle.clock_step.specs.private.Settled.{AreLatched, AreSettled};
ghost use Rattle.clock_step.specs.Determined.{AreBits, AreDetermined, bit_at};

use net_core::{Cover, Lit, Net, Row};
use ste_base::NodeId;

/// The bit of a net in a row; a net that the row lacks has 0.
pub fn bit_at(bits: &[bool], net: NodeId) -> bool
    ensures { result ≡ bit_at bits.now net.0 }
{
    bits.get(net.0 as usize).copied().unwrap_or(false)
}

/// Gives each of these nodes its bit of the row, and each other net 0.
fn place_inputs(bits: &mut [bool], nodes: &[NodeId], row: &[bool])
    requires within { All (λ node. node.0 < length bits.old) nodes.now }
    requires different { AllPairs (λ one other. one.0 ≢ other.0) nodes.now }
    requires wide { length row.now ≡ length nodes.now }
    ensures { (id : ℕ) → bit_at bits.new id ≡ bit_in nodes.now row.now id }
{
    bits.fill(false);
    for (k, node) in nodes.iter().enumerate() {
        bits[node.0 as usize] = row[k];
    }
}

/// Gives each latch output what its latch holds.
fn place_latches(net: &Net, held: &[bool], bits: &mut [bool])
    requires held { length held.now ≡ length net.now.raw.latches }
    requires long { length bits.old ≡ net.now.raw.nets }
    ensures { (bit : ℕ → Bool) →
        held.now ≡ map (λ latch. bit latch.output.0) net.now.raw.latches →
        AreLatched net.now.raw 0 bit bits.old →
        AreLatched net.now.raw (length net.now.raw.latches) bit bits.new }
{
    for (k, latch) in net.latches().iter().enumerate() {
        bits[latch.output.0 as usize] = held[k];
    }
}

/// Whether each literal admits the bit of its net.
fn row_admits(bits: &[bool], row: &[Lit], nets: &[NodeId]) -> bool
    ensures { result ≡ list_all (λ at. admits at.0 (bit_at bits.now at.1.0))
        (zip row.now nets.now) }
{
    row.iter()
        .zip(nets)
        .all(|(lit, net)| lit.admits(bit_at(bits, *net)))
}

/// Whether a row matches the bits of these nets.
fn row_matches(bits: &[bool], row: &[Lit], nets: &[NodeId]) -> bool
    ensures { result ≡ matches row.now (map (λ net. bit_at bits.now net.0) nets.now) }
{
    row_admits(bits, row, nets)
}

/// Whether some row matches the bits of these nets.
fn some_matches(bits: &[bool], rows: &[Row], nets: &[NodeId]) -> bool
    ensures { result ≡ some_matches rows.now (map (λ net. bit_at bits.now net.0) nets.now) }
{
    rows.iter()
        .any(|row| row_matches(bits, row.as_slice(), nets))
}

/// The cover's bit for the bits of these nets, one for each input position. It takes no memory.
pub(crate) fn cover_bit(bits: &[bool], cover: &Cover, nets: &[NodeId]) -> bool
    ensures { result ≡ cover_bit cover.now (map (λ net. bit_at bits.now net.0) nets.now) }
{
    let some = some_matches(bits, cover.rows.as_slice(), nets);
    if cover.on { some } else { !some }
}

/// Gives each gate output the gate's bit, one after another.
fn place_gates(net: &Net, bits: &mut [bool])
    requires { length bits.old ≡ net.now.raw.nets }
    ensures { (bit : ℕ → Bool) → AreGateBits net.now.raw bit →
        AreSettled net.now.raw net.now.settled 0 bit bits.old →
        AreSettled net.now.raw net.now.settled (length net.now.settled) bit bits.new }
{
    for (n, number) in net.settled().iter().enumerate() {
        let gate = &net.gates()[*number as usize];
        let bit = cover_bit(bits, net.cover(gate.cover), gate.inputs.as_slice());
        bits[gate.output.0 as usize] = bit;
    }
}

/// Gives each net its bit at one time, from a row with a bit for each of these nodes and from what
/// the latches hold. It takes no memory.
pub fn settle(net: &Net, nodes: &[NodeId], row: &[bool], held: &[bool], bits: &mut [bool])
    requires within { All (λ node. node.0 < net.now.raw.nets) nodes.now }
    requires different { AllPairs (λ one other. one.0 ≢ other.0) nodes.now }
    requires wide { length row.now ≡ length nodes.now }
    requires held { length held.now ≡ length net.now.raw.latches }
    requires long { length bits.old ≡ net.now.raw.nets }
    ensures { (bit : ℕ → Bool) →
        AreDetermined net.now.raw nodes.now row.now held.now bit →
        AreBits net.now.raw bit bits.new }
{
    place_inputs(bits, nodes, row);
    place_latches(net, held, bits);
    place_gates(net, bits);
}
