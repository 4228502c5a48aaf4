//! What is asked of nets, which of them are weakened, and the sets of latch outputs; begin with
//! `allowed_at`.

ghost use Rattle.std.specs.Prelude.{◌≡◌, ◌<◌, ◌↔◌, ◌++◌, ◌∷◌, ◌==◌, ◌||◌, [], Bool, ℕ, List, false, length, map, filter, All, IfOk, slice_index_or};
ghost use Rattle.net_core.specs.declared.bit_set.BitSet.{BitSet as Set};
ghost use Rattle.net_core.specs.Run.{Cut};
ghost use Rattle.net_core.specs.Possible.{Asked, ArePossible};
ghost use Rattle.net_core.specs.Sets.{IsIn};
ghost use Rattle.ste_model.specs.Asked.{cuts_at, quint_at, weakened_at, weakens};
ghost use Rattle.ste_model.specs.Edges.{bind_cuts};
ghost use Rattle.plain_check.specs.private.Sets.{Allows, AreFlags, AreLatched};

use bool_expr::value;
use net_core::{BitSet, Net};
use std::alloc::{AllocError, Global};
use ste_base::{NodeId, Time};
use ste_model::{Bind, Quint, Weakening};

/// Whether the quintuple applies at a time.
pub fn applies(quint: &Quint, bits: &[bool], t: Time) -> bool
    ensures { result ≡ (quint_at bits.now t quint.now).on }
{
    value(&quint.guard, bits) && quint.from <= t && t < quint.to
}

/// Cuts the set of a net to a value, where this is on.
fn cut(allowed: &mut Vec<BitSet>, node: NodeId, on: bool, value: bool)
    requires { node.0 < length allowed.old.items }
    ensures long { length allowed.new.items ≡ length allowed.old.items }
    ensures allows { (cuts : List Cut) → Allows cuts allowed.old.items →
        Allows (cuts ++ record { node = node.0; on = on; value = value } ∷ []) allowed.new.items }
{
    if on {
        let net = node.0 as usize;
        let left = allowed[net].meet(BitSet::only(value));
        allowed[net] = left;
    }
}

/// Both bits for each net.
fn all_allowed(alloc: Global, nets: u32) -> Result<Vec<BitSet>, AllocError>
    ensures long { IfOk result (λ allowed. length allowed.items ≡ nets) }
    ensures allows { IfOk result (λ allowed. Allows [] allowed.items) }
{
    vec![in alloc; BitSet::both(); nets as usize]
}

/// The bits that the quintuples which apply at a time leave to each net.
pub fn allowed_at(
    alloc: Global,
    nets: u32,
    quints: &[Quint],
    bits: &[bool],
    t: Time,
) -> Result<Vec<BitSet>, AllocError>
    requires { All (λ quint. quint.node.0 < nets) quints.now }
    ensures long { IfOk result (λ allowed. length allowed.items ≡ nets) }
    ensures allows { IfOk result (λ allowed. Allows (cuts_at quints.now bits.now t) allowed.items) }
{
    let mut allowed = all_allowed(alloc, nets)?;
    for quint in quints {
        let on = applies(quint, bits, t);
        cut(&mut allowed, quint.node, on, value(&quint.value, bits));
    }
    Ok(allowed)
}

/// The bits that the bindings of an edge leave to each net.
pub fn allowed_on(
    alloc: Global,
    nets: u32,
    binds: &[Bind],
    bits: &[bool],
) -> Result<Vec<BitSet>, AllocError>
    requires { All (λ bind. bind.node.0 < nets) binds.now }
    ensures long { IfOk result (λ allowed. length allowed.items ≡ nets) }
    ensures allows { IfOk result (λ allowed. Allows (bind_cuts binds.now bits.now) allowed.items) }
{
    let mut allowed = all_allowed(alloc, nets)?;
    for bind in binds {
        let on = value(&bind.guard, bits);
        cut(&mut allowed, bind.node, on, value(&bind.value, bits));
    }
    Ok(allowed)
}

/// Whether a time is one of the weakening.
fn weakens(weakening: &Weakening, t: Time) -> bool
    ensures { result ≡ weakens t weakening.now }
{
    weakening.from <= t && t < weakening.to
}

/// The nets that are weakened at a time, in order.
fn weakened_at(alloc: Global, weak: &[Weakening], t: Time) -> Result<Vec<NodeId>, AllocError>
    ensures { IfOk result (λ nodes.
        nodes.items ≡ map (λ weakening. weakening.node) (filter (weakens t) weak.now)) }
{
    weak.iter()
        .filter(|weakening| weakens(weakening, t))
        .map(|weakening| weakening.node)
        .collect(alloc)
}

/// A flag for each net that none is weakened.
fn no_flags(alloc: Global, nets: u32) -> Result<Vec<bool>, AllocError>
    ensures long { IfOk result (λ flags. length flags.items ≡ nets) }
    ensures flags { IfOk result (λ flags. AreFlags nets [] flags.items) }
{
    vec![in alloc; false; nets as usize]
}

/// Marks a net as weakened, where there is one of this number.
fn mark(flags: &mut Vec<bool>, node: NodeId)
    ensures long { length flags.new.items ≡ length flags.old.items }
    ensures each { (id : ℕ) → id < length flags.old.items →
        slice_index_or flags.new.items id false
        ≡ (slice_index_or flags.old.items id false || (node.0 == id)) }
{
    let net = node.0 as usize;
    if net < flags.len() {
        flags[net] = true;
    }
}

/// A flag for each net, whether it is among these; no flags at all where there are none of these.
pub fn flags_of(alloc: Global, nets: u32, weak: &[NodeId]) -> Result<Vec<bool>, AllocError>
    ensures { IfOk result (λ flags. AreFlags nets (map (λ node. node.0) weak.now) flags.items) }
{
    if weak.is_empty() {
        return Ok(Vec::new(alloc));
    }
    let mut flags = no_flags(alloc, nets)?;
    for node in weak {
        mark(&mut flags, *node);
    }
    Ok(flags)
}

/// A flag for each net, whether it is weakened at a time; no flags at all where nothing is.
pub fn flags_at(
    alloc: Global,
    nets: u32,
    weak: &[Weakening],
    t: Time,
) -> Result<Vec<bool>, AllocError>
    ensures { IfOk result (λ flags. AreFlags nets (weakened_at weak.now t) flags.items) }
{
    let nodes = weakened_at(alloc, weak, t)?;
    flags_of(alloc, nets, &nodes)
}

/// Whether a net is weakened, by the flags.
pub fn is_weak(weak: &[bool], node: NodeId) -> bool
    ensures { result ≡ slice_index_or weak.now node.0 false }
{
    weak.get(node.0 as usize).copied().unwrap_or(false)
}

/// Both bits where the net is weakened, and else the set.
fn unless_weak(weak: bool, set: BitSet) -> BitSet
    ensures { (bit : Bool) → IsIn bit result ↔ (weak ≡ false → IsIn bit set) }
{
    if weak { BitSet::both() } else { set }
}

/// Gives each latch output what its latch holds, or both bits where it is weakened, as far as it is
/// allowed.
pub fn place_latches(
    net: &Net,
    held: &[BitSet],
    weak: &[bool],
    allowed: &[BitSet],
    sets: &mut Vec<BitSet>,
)
    requires held { length held.now ≡ length net.now.raw.latches }
    requires allowed { length allowed.now ≡ net.now.raw.nets }
    requires long { length sets.old.items ≡ net.now.raw.nets }
    ensures long { length sets.new.items ≡ net.now.raw.nets }
    ensures sets { (asked : Asked) (family : ℕ → Set) → Allows asked.cuts allowed.now →
        AreFlags net.now.raw.nets asked.weak weak.now →
        ArePossible net.now.raw held.now asked family →
        AreLatched net.now.raw 0 family sets.old.items →
        AreLatched net.now.raw (length net.now.raw.latches) family sets.new.items }
{
    for (k, latch) in net.latches().iter().enumerate() {
        let output = latch.output.0 as usize;
        let source = unless_weak(is_weak(weak, latch.output), held[k]);
        let set = source.meet(allowed[output]);
        sets[output] = set;
    }
}
