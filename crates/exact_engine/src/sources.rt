//! The bits at one time of the nets that no gate drives; begin with `first_sources` and
//! `next_sources`.

ghost use Rattle.std.specs.Prelude.{◌≡◌, ◌<◌, ◌≤◌, ◌+◌, ℕ, Bool, List, All, IfOk, IsTrue, Some, length, ◌∷◌, [], if◌then◌else◌, slice_index_or};
ghost use Rattle.std.specs.declared.vec.Vec.{Vec};
ghost use Rattle.ste_base.specs.Functions.{Function};
ghost use Rattle.dd_nodes.specs.Stores.{IsRef, Keeps};
ghost use Rattle.dual_rail.specs.Rail.{Built, HasFunction};
ghost use Rattle.exact_model.specs.Choices.{starts_free};
ghost use Rattle.exact_model.specs.ExactWork.{bit_functions};
ghost use Rattle.exact_engine.specs.private.Bits.{AreBits, AreSources};
ghost use Rattle.exact_engine.specs.private.Counts.{first_count, first_test, open_count, open_test};
ghost use Rattle.exact_engine.specs.private.Sources.{FollowLatches, HasStart, IsFirstTime, IsNextTime, IsSource, IsVariable, StartsAt};

use crate::counting::{is_first_choice, is_open, starts_free};
use dd_nodes::{Nodes, Ref};
use dd_ops::{OpFault, Ops};
use net_core::{Init, Latch, Net, Source};
use std::alloc::Global;
use ste_base::NodeId;

/// The variable of the next choice behind a net: one more where the net is a choice.
pub fn behind(next: u32, passes: bool, limit: u32) -> u32
    requires { IsTrue passes → next < limit }
    ensures { result ≡ (if passes then next + 1 else next) }
{
    let _ = limit;
    if passes { next + 1 } else { next }
}

/// The first bit of a latch: the variable of this choice where it may start with either bit.
fn first_bit<N: Nodes>(
    ops: &Ops,
    nodes: &mut N,
    reset: bool,
    latch: Latch,
    choice: u32,
) -> Result<Ref, OpFault>
    requires { IsTrue (starts_free reset (Some latch)) → choice < (N.store nodes.old).vars }
    ensures built { (f : Function)
        → (IsTrue (starts_free reset (Some latch)) → IsVariable (N.store nodes.old).vars choice f)
        → HasStart (N.store nodes.old).vars reset latch f
        → Built (f ∷ []) (HasFunction f) (N.store nodes.old) (N.store nodes.new) result }
    ensures keeps { Keeps (N.store nodes.old) (N.store nodes.new) }
    ensures held { IfOk result (λ r. IsRef (N.store nodes.new) r) }
{
    if starts_free(reset, latch) {
        return ops.var(nodes, choice);
    }
    match latch.init {
        Init::One => Ok(Ref::TRUE),
        Init::Zero => Ok(Ref::FALSE),
        Init::Free => Ok(Ref::FALSE),
    }
}

/// The bit at time 0 of a net that no gate drives, with the variables of the next choices.
fn first_source<N: Nodes>(
    ops: &Ops,
    nodes: &mut N,
    net: &Net,
    reset: bool,
    node: NodeId,
    first: u32,
    choice: u32,
) -> Result<Ref, OpFault>
    requires inside { node.0 < net.now.raw.nets }
    requires first { IsTrue (first_test net.now.raw reset node.0)
        → first < (N.store nodes.old).vars }
    requires choice { IsTrue (open_test net.now.raw node.0) → choice < (N.store nodes.old).vars }
    ensures built { (bit : ℕ → Function)
        → (IsTrue (first_test net.now.raw reset node.0)
        → IsVariable (N.store nodes.old).vars first (bit node.0))
        → (IsTrue (open_test net.now.raw node.0)
        → IsVariable (N.store nodes.old).vars choice (bit node.0))
        → StartsAt (N.store nodes.old).vars net.now.raw reset bit
        → Built (bit_functions bit net.now.raw.nets) (λ t r. IsSource t net.now.raw bit node.0 r)
        (N.store nodes.old) (N.store nodes.new) result }
    ensures keeps { Keeps (N.store nodes.old) (N.store nodes.new) }
    ensures held { IfOk result (λ r. IsRef (N.store nodes.new) r) }
{
    match net.source(node) {
        Source::Input => ops.var(nodes, choice),
        Source::Free => ops.var(nodes, choice),
        Source::Gate(_) => Ok(Ref::FALSE),
        Source::Latch(number) => {
            first_bit(ops, nodes, reset, net.latches()[number as usize], first)
        }
    }
}

/// The bit at a later time of a net that no gate drives, from the bits of one time earlier, with
/// the variable of the next choice.
fn next_source<N: Nodes>(
    ops: &Ops,
    nodes: &mut N,
    net: &Net,
    last: &[Ref],
    node: NodeId,
    choice: u32,
) -> Result<Ref, OpFault>
    requires inside { node.0 < net.now.raw.nets }
    requires long { length last.now ≡ net.now.raw.nets }
    requires refs { All (IsRef (N.store nodes.old)) last.now }
    requires choice { IsTrue (open_test net.now.raw node.0) → choice < (N.store nodes.old).vars }
    ensures built { (before bit : ℕ → Function)
        → AreBits (N.store nodes.old) net.now.raw.nets before last.now
        → (IsTrue (open_test net.now.raw node.0)
        → IsVariable (N.store nodes.old).vars choice (bit node.0))
        → FollowLatches (N.store nodes.old).vars net.now.raw before bit
        → Built (bit_functions bit net.now.raw.nets) (λ t r. IsSource t net.now.raw bit node.0 r)
        (N.store nodes.old) (N.store nodes.new) result }
    ensures keeps { Keeps (N.store nodes.old) (N.store nodes.new) }
    ensures held { IfOk result (λ r. IsRef (N.store nodes.new) r) }
{
    match net.source(node) {
        Source::Input => ops.var(nodes, choice),
        Source::Free => ops.var(nodes, choice),
        Source::Gate(_) => Ok(Ref::FALSE),
        Source::Latch(number) => Ok(last[net.latches()[number as usize].input.0 as usize]),
    }
}

/// The bits at time 0 of the nets that no gate drives, with the variables of the first choices.
pub fn first_sources<N: Nodes>(
    alloc: Global,
    ops: &Ops,
    nodes: &mut N,
    net: &Net,
    reset: bool,
    first: u32,
    choice: u32,
) -> Result<Vec<Ref>, OpFault>
    requires first { first + first_count net.now.raw reset ≤ (N.store nodes.old).vars }
    requires choice { choice + open_count net.now.raw ≤ (N.store nodes.old).vars }
    ensures built { (bit : ℕ → Function)
        → IsFirstTime (N.store nodes.old).vars net.now.raw reset first choice bit
        → Built (bit_functions bit net.now.raw.nets)
        (λ t (bits : Vec Ref Global). AreSources t net.now.raw bit bits.items)
        (N.store nodes.old) (N.store nodes.new) result }
    ensures keeps { Keeps (N.store nodes.old) (N.store nodes.new) }
    ensures refs { IfOk result (λ bits. All (IsRef (N.store nodes.new)) bits.items) }
    ensures long { IfOk result (λ bits. length bits.items ≡ net.now.raw.nets) }
{
    let limit = nodes.vars();
    let mut bits = Vec::new(alloc);
    let mut first = first;
    let mut choice = choice;
    for id in 0..net.nets() {
        let bit = first_source(ops, nodes, net, reset, NodeId(id), first, choice)?;
        match bits.push(bit) {
            Ok(()) => {}
            Err(_) => return Err(OpFault::OutOfMemory),
        }
        first = behind(first, is_first_choice(net, reset, NodeId(id)), limit);
        choice = behind(choice, is_open(net, NodeId(id)), limit);
    }
    Ok(bits)
}

/// The bits at a later time of the nets that no gate drives, from the bits of one time earlier,
/// with the variable of this time's first choice.
pub fn next_sources<N: Nodes>(
    alloc: Global,
    ops: &Ops,
    nodes: &mut N,
    net: &Net,
    last: &[Ref],
    choice: u32,
) -> Result<Vec<Ref>, OpFault>
    requires long { length last.now ≡ net.now.raw.nets }
    requires refs { All (IsRef (N.store nodes.old)) last.now }
    requires choice { choice + open_count net.now.raw ≤ (N.store nodes.old).vars }
    ensures built { (before bit : ℕ → Function)
        → AreBits (N.store nodes.old) net.now.raw.nets before last.now
        → IsNextTime (N.store nodes.old).vars net.now.raw choice before bit
        → Built (bit_functions bit net.now.raw.nets)
        (λ t (bits : Vec Ref Global). AreSources t net.now.raw bit bits.items)
        (N.store nodes.old) (N.store nodes.new) result }
    ensures keeps { Keeps (N.store nodes.old) (N.store nodes.new) }
    ensures refs { IfOk result (λ bits. All (IsRef (N.store nodes.new)) bits.items) }
    ensures long { IfOk result (λ bits. length bits.items ≡ net.now.raw.nets) }
{
    let limit = nodes.vars();
    let mut bits = Vec::new(alloc);
    let mut choice = choice;
    for id in 0..net.nets() {
        let bit = next_source(ops, nodes, net, last, NodeId(id), choice)?;
        match bits.push(bit) {
            Ok(()) => {}
            Err(_) => return Err(OpFault::OutOfMemory),
        }
        choice = behind(choice, is_open(net, NodeId(id)), limit);
    }
    Ok(bits)
}
