//! The possible table, time by time; begin with `table`.

ghost use Rattle.std.specs.Prelude.{◌≡◌, ◌<◌, ◌≤◌, ℕ, Bool, List, length, All, IfOk, slice_index_or};
ghost use Rattle.net_core.specs.Possible.{Asked, ArePossible};
ghost use Rattle.ste_model.specs.Asked.{asked_at};
ghost use Rattle.ste_model.specs.Edges.{asked_on};
ghost use Rattle.net_core.specs.Sets.{first_set, first_sets, next_sets};
ghost use Rattle.ste_model.specs.Table.{IsPossible};
ghost use Rattle.plain_check.specs.private.Choices.{AreChoices, lists_of};
ghost use Rattle.plain_check.specs.private.Outcome.{table_of};
ghost use Rattle.plain_check.specs.private.Sets.{Allows, AreFlags, set_at};

use crate::gates::place_gates;
use crate::sources::{allowed_at, allowed_on, flags_at, flags_of, place_latches};
use net_core::{BitSet, Init, Latch, Net};
use std::alloc::{AllocError, Global};
use ste_base::{Items, Time};
use ste_model::{Assertion, Edge};

/// The first values of a latch.
fn first_set(reset: bool, latch: &Latch) -> BitSet
    ensures { result ≡ first_set reset latch.now }
{
    if reset {
        match latch.init {
            Init::Zero => BitSet::only(false),
            Init::One => BitSet::only(true),
            Init::Free => BitSet::both(),
        }
    } else {
        BitSet::both()
    }
}

/// The first values of the latches.
pub fn first_sets(alloc: Global, net: &Net, reset: bool) -> Result<Vec<BitSet>, AllocError>
    ensures { IfOk result (λ held. held.items ≡ first_sets net.now.raw reset) }
{
    net.latches()
        .iter()
        .map(|latch| first_set(reset, latch))
        .collect(alloc)
}

/// The set of a net in a row; a net that the row lacks has both bits.
pub fn set_at(row: &[BitSet], net: u32) -> BitSet
    ensures { result ≡ set_at row.now net }
{
    row.get(net as usize).copied().unwrap_or(BitSet::both())
}

/// What the latches hold one time later.
pub fn next_sets(alloc: Global, net: &Net, row: &[BitSet]) -> Result<Vec<BitSet>, AllocError>
    ensures { IfOk result (λ held. held.items ≡ next_sets net.now.raw (set_at row.now)) }
{
    net.latches()
        .iter()
        .map(|latch| set_at(row, latch.input.0))
        .collect(alloc)
}

/// The possible sets of one time, from what the latches hold, which nets are weakened, and what is
/// allowed of each net.
pub fn possible_sets(
    alloc: Global,
    net: &Net,
    choices: &[Items<Items<bool>>],
    held: &[BitSet],
    weak: &[bool],
    allowed: &[BitSet],
) -> Result<Items<BitSet>, AllocError>
    requires choices { AreChoices choices.now }
    requires widths { All (λ gate. length gate.inputs < length choices.now) net.now.raw.gates }
    requires held { length held.now ≡ length net.now.raw.latches }
    requires allowed { length allowed.now ≡ net.now.raw.nets }

    ensures long { IfOk result (λ row. length row ≡ net.now.raw.nets) }
    ensures possible { IfOk result (λ row. (asked : Asked) →
        All (λ cut. cut.node < net.now.raw.nets) asked.cuts → Allows asked.cuts allowed.now →
        AreFlags net.now.raw.nets asked.weak weak.now →
        ArePossible net.now.raw held.now asked (set_at row)) }
{
    let mut sets = allowed.to_vec(alloc)?;
    place_latches(net, held, weak, allowed, &mut sets);
    place_gates(alloc, net, choices, weak, allowed, &mut sets)?;
    Ok(Items::from(sets))
}

/// The possible sets of one time, from what the latches hold and what is asked.
fn sets_at(
    alloc: Global,
    net: &Net,
    choices: &[Items<Items<bool>>],
    held: &[BitSet],
    task: &Assertion,
    bits: &[bool],
    t: Time,
) -> Result<Items<BitSet>, AllocError>
    requires choices { AreChoices choices.now }
    requires widths { All (λ gate. length gate.inputs < length choices.now) net.now.raw.gates }
    requires held { length held.now ≡ length net.now.raw.latches }
    requires in_range { All (λ quint. quint.node.0 < net.now.raw.nets) task.now.ant }
    ensures long { IfOk result (λ row. length row ≡ net.now.raw.nets) }
    ensures possible { IfOk result (λ row.
        ArePossible net.now.raw held.now (asked_at task.now bits.now t) (set_at row)) }
{
    let allowed = allowed_at(alloc, net.nets(), task.ant.as_slice(), bits, t)?;
    let weak = flags_at(alloc, net.nets(), task.weak.as_slice(), t)?;
    possible_sets(alloc, net, choices, held, &weak, &allowed)
}

/// The possible sets of an edge's time step, from what the latches hold at its source.
pub fn sets_on(
    alloc: Global,
    net: &Net,
    choices: &[Items<Items<bool>>],
    held: &[BitSet],
    edge: &Edge,
    bits: &[bool],
) -> Result<Items<BitSet>, AllocError>
    requires choices { AreChoices choices.now }
    requires widths { All (λ gate. length gate.inputs < length choices.now) net.now.raw.gates }
    requires held { length held.now ≡ length net.now.raw.latches }
    requires in_range { All (λ bind. bind.node.0 < net.now.raw.nets) edge.now.ant }
    ensures long { IfOk result (λ row. length row ≡ net.now.raw.nets) }
    ensures possible { IfOk result (λ row.
        ArePossible net.now.raw held.now (asked_on edge.now bits.now) (set_at row)) }
{
    let allowed = allowed_on(alloc, net.nets(), edge.ant.as_slice(), bits)?;
    let weak = flags_of(alloc, net.nets(), edge.weak.as_slice())?;
    possible_sets(alloc, net, choices, held, &weak, &allowed)
}

/// The possible table of an assertion under an assignment: a row for each time below the depth,
/// with a set for each net.
pub fn table(
    alloc: Global,
    net: &Net,
    choices: &[Items<Items<bool>>],
    task: &Assertion,
    bits: &[bool],
    depth: Time,
) -> Result<Vec<Items<BitSet>>, AllocError>
    requires choices { AreChoices choices.now }
    requires widths { All (λ gate. length gate.inputs < length choices.now) net.now.raw.gates }
    requires in_range { All (λ quint. quint.node.0 < net.now.raw.nets) task.now.ant }
    ensures long { IfOk result (λ rows. length rows.items ≡ depth) }
    ensures wide { IfOk result (λ rows. All (λ row. length row ≡ net.now.raw.nets) rows.items) }
    ensures possible { IfOk result (λ rows.
        IsPossible net.now.raw task.now.reset (asked_at task.now bits.now) depth
        (table_of rows.items)) }
{
    let mut rows = Vec::new(alloc);
    let mut held = first_sets(alloc, net, task.reset)?;
    for t in 0..depth {
        let row = sets_at(alloc, net, choices, &held, task, bits, t)?;
        held = next_sets(alloc, net, row.as_slice())?;
        rows.push(row)?;
    }
    Ok(rows)
}
