//! The bits of all nets at one time, from those that no gate drives; begin with `settle`.

ghost use Rattle.std.specs.Prelude.{◌≡◌, ℕ, All, IfOk, length};
ghost use Rattle.std.specs.declared.vec.Vec.{Vec};
ghost use Rattle.ste_base.specs.Functions.{Function};
ghost use Rattle.dd_nodes.specs.Stores.{IsRef, Keeps};
ghost use Rattle.dual_rail.specs.Rail.{Built};
ghost use Rattle.exact_engine.specs.private.Bits.{AreBits, AreSources, FollowGates, time_work};

use crate::gates::cover_ref;
use dd_nodes::{Nodes, Ref};
use dd_ops::{OpFault, Ops};
use net_core::Net;
use std::alloc::Global;

/// The bits of all nets at one time: those of gates, in a settled order, put among the given ones
/// of the other nets.
pub fn settle<N: Nodes>(
    ops: &Ops,
    nodes: &mut N,
    net: &Net,
    sources: Vec<Ref>,
) -> Result<Vec<Ref>, OpFault>
    requires long { length sources.items ≡ net.now.raw.nets }
    requires refs { All (IsRef (N.store nodes.old)) sources.items }
    ensures built { (bit : ℕ → Function) → FollowGates (N.store nodes.old).vars net.now.raw bit
        → AreSources (N.store nodes.old) net.now.raw bit sources.items
        → Built (time_work net.now.raw bit)
        (λ t (bits : Vec Ref Global). AreBits t net.now.raw.nets bit bits.items)
        (N.store nodes.old) (N.store nodes.new) result }
    ensures keeps { Keeps (N.store nodes.old) (N.store nodes.new) }
    ensures refs { IfOk result (λ bits. All (IsRef (N.store nodes.new)) bits.items) }
    ensures long { IfOk result (λ bits. length bits.items ≡ net.now.raw.nets) }
{
    let mut bits = sources;
    for (n, number) in net.settled().iter().enumerate() {
        let gate = &net.gates()[*number as usize];
        let cover = net.cover(gate.cover);
        let inputs = gate.inputs.as_slice();
        let bit = cover_ref(ops, nodes, cover, inputs, bits.as_slice())?;
        bits[gate.output.0 as usize] = bit;
    }
    Ok(bits)
}
