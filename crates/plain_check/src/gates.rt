//! The sets of gates, over all choices of bits; begin with `place_gates`.

ghost use Rattle.std.specs.Prelude.{◌≡◌, ◌<◌, ◌≤◌, ◌+◌, ◌↔◌, [], Bool, ℕ, List, false, length, map, All, IfOk, OnOk, slice_index_or};
ghost use Rattle.net_core.specs.declared.bit_set.BitSet.{BitSet as Set};
ghost use Rattle.net_core.specs.Cover.{cover_bit};
ghost use Rattle.net_core.specs.Run.{gate_bit};
ghost use Rattle.net_core.specs.Sets.{IsIn};
ghost use Rattle.net_core.specs.Possible.{Asked, ArePossible, MayGive};
ghost use Rattle.plain_check.specs.private.Choices.{AreChoices, lists_of};
ghost use Rattle.plain_check.specs.private.Sets.{Allows, AreFlags, AreSets, fits, may_give_one, may_give_zero, set_at};

use crate::sources::is_weak;
use net_core::{BitSet, Cover, Gate, Net, eval};
use std::alloc::{AllocError, Global};
use ste_base::{Items, NodeId};

/// Whether each bit is in the set at its position.
fn fits(bits: &[bool], sets: &[BitSet]) -> bool
    ensures { result ≡ fits bits.now sets.now }
{
    bits.iter().zip(sets).all(|(bit, set)| set.has(*bit))
}

/// Whether some choice of bits from the sets gives 1.
fn may_give_one(cover: &Cover, sets: &[BitSet], choices: &[Items<bool>]) -> bool
    ensures { result ≡ may_give_one cover.now sets.now choices.now }
{
    choices.iter().any(|bits| fits(bits.as_slice(), sets) && eval(cover, bits.as_slice()))
}

/// Whether some choice of bits from the sets gives 0.
fn may_give_zero(cover: &Cover, sets: &[BitSet], choices: &[Items<bool>]) -> bool
    ensures { result ≡ may_give_zero cover.now sets.now choices.now }
{
    choices.iter().any(|bits| fits(bits.as_slice(), sets) && !eval(cover, bits.as_slice()))
}

/// The set of a gate's outputs over all choices of one bit for each input position.
fn gate_set(cover: &Cover, sets: &[BitSet], choices: &[Items<bool>]) -> BitSet
    requires { choices.now ≡ lists_of (length sets.now) }
    ensures { (bit : Bool) → IsIn bit result ↔ MayGive (cover_bit cover.now) sets.now bit }
{
    BitSet {
        zero: may_give_zero(cover, sets, choices),
        one: may_give_one(cover, sets, choices),
    }
}

/// The sets of these nets.
fn sets_of(alloc: Global, nets: &[NodeId], sets: &[BitSet]) -> Result<Vec<BitSet>, AllocError>
    requires { All (λ net. net.0 < length sets.now) nets.now }
    ensures { IfOk result (λ found. found.items ≡ map (λ net. set_at sets.now net.0) nets.now) }
{
    let mut found = Vec::new(alloc);
    for net in nets {
        found.push(sets[net.0 as usize])?;
    }
    Ok(found)
}

/// The set of a gate's output before what is asked of it: both bits where it is weakened, and else
/// the gate's set. For each number of inputs `choices` has all lists of so many bits.
fn source_set(
    alloc: Global,
    net: &Net,
    choices: &[Items<Items<bool>>],
    weak: &[bool],
    gate: &Gate,
    sets: &[BitSet],
) -> Result<BitSet, AllocError>
    requires choices { AreChoices choices.now }
    requires width { length gate.now.inputs < length choices.now }
    requires cover { gate.now.cover < length net.now.raw.covers }
    requires inputs { All (λ input. input.0 < length sets.now) gate.now.inputs }
    ensures { IfOk result (λ set. (bit : Bool) → IsIn bit set
        ↔ (slice_index_or weak.now gate.now.output.0 false ≡ false →
        MayGive (gate_bit net.now.raw gate.now)
        (map (λ input. set_at sets.now input.0) gate.now.inputs) bit)) }
{
    if is_weak(weak, gate.output) {
        return Ok(BitSet::both());
    }
    let inputs = sets_of(alloc, gate.inputs.as_slice(), sets)?;
    let found = gate_set(
        net.cover(gate.cover),
        &inputs,
        choices[inputs.len()].as_slice(),
    );
    Ok(found)
}

/// Gives each gate output, one after another, the gate's set, or both bits where it is weakened, as
/// far as it is allowed. For each number of inputs `choices` has all lists of so many bits.
pub fn place_gates(
    alloc: Global,
    net: &Net,
    choices: &[Items<Items<bool>>],
    weak: &[bool],
    allowed: &[BitSet],
    sets: &mut Vec<BitSet>,
) -> Result<(), AllocError>
    requires choices { AreChoices choices.now }
    requires widths { All (λ gate. length gate.inputs < length choices.now) net.now.raw.gates }
    requires allowed { length allowed.now ≡ net.now.raw.nets }
    requires long { length sets.old.items ≡ net.now.raw.nets }
    ensures long { OnOk result (length sets.new.items ≡ net.now.raw.nets) }
    ensures sets { OnOk result ((held : List Set) (asked : Asked) (family : ℕ → Set) →
        length held ≡ length net.now.raw.latches → Allows asked.cuts allowed.now →
        AreFlags net.now.raw.nets asked.weak weak.now →
        ArePossible net.now.raw held asked family →
        AreSets net.now.raw net.now.settled 0 family sets.old.items →
        AreSets net.now.raw net.now.settled (length net.now.settled) family sets.new.items) }
{
    for (n, number) in net.settled().iter().enumerate() {
        let gate = &net.gates()[*number as usize];
        let found = source_set(alloc, net, choices, weak, gate, sets)?;
        let output = gate.output.0 as usize;
        let set = found.meet(allowed[output]);
        sets[output] = set;
    }
    Ok(())
}
