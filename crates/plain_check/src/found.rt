//! What is found in a possible table; begin with `fails_somewhere`.

ghost use Rattle.std.specs.Prelude.{◌≡◌, ◌<◌, ℕ, [], false, length, IsTrue, position, slice_index_or};
ghost use Rattle.std.specs.List.{list_any};
ghost use Rattle.ste_model.specs.Asked.{quint_at};
ghost use Rattle.ste_model.specs.Edges.{bind_at};
ghost use Rattle.plain_check.specs.private.Outcome.{bind_fails, fails, fails_at, fails_cut, has_empty, is_contradictory, is_empty, is_strong, is_weak};
ghost use Rattle.plain_check.specs.private.Sets.{set_at};

use crate::sources::applies;
use crate::table::set_at;
use bool_expr::value;
use net_core::BitSet;
use ste_base::{Items, Time};
use ste_model::{Bind, Quint};

/// What is found under one assignment.
#[derive(Clone, Copy, PartialEq, Eq)]
pub enum Outcome {
    Contradictory,
    Strong,
    Weak,
    Fine,
}

impl Outcome {
    pub fn is_strong(self) -> bool
        ensures { result ≡ is_strong self }
    {
        matches!(self, Outcome::Strong)
    }

    pub fn is_weak(self) -> bool
        ensures { result ≡ is_weak self }
    {
        matches!(self, Outcome::Weak)
    }

    pub fn is_contradictory(self) -> bool
        ensures { result ≡ is_contradictory self }
    {
        matches!(self, Outcome::Contradictory)
    }
}

/// How a value fails on a set: strongly where the set is exactly the opposite bit, weakly where it
/// has both bits.
#[derive(Clone, Copy, PartialEq, Eq)]
pub enum Failure {
    Strong,
    Weak,
}

/// Whether some set of a row has no bit.
pub fn row_has_empty(row: &[BitSet]) -> bool
    ensures { result ≡ list_any is_empty row.now }
{
    row.iter().any(|set| !set.zero && !set.one)
}

/// Whether some set of the table has no bit.
pub fn has_empty(rows: &[Items<BitSet>]) -> bool
    ensures { result ≡ has_empty rows.now }
{
    rows.iter().any(|row| row_has_empty(row.as_slice()))
}

/// Whether a value fails so on a set.
fn fails(failure: Failure, set: BitSet, value: bool) -> bool
    ensures { result ≡ fails failure set value }
{
    match failure {
        Failure::Strong => set.has(!value) && !set.has(value),
        Failure::Weak => set.has(false) && set.has(true),
    }
}

/// Whether a quintuple fails so at a time.
fn quint_fails(failure: Failure, row: &[BitSet], quint: &Quint, bits: &[bool], t: Time) -> bool
    ensures { result ≡ fails_cut failure (set_at row.now) (quint_at bits.now t quint.now) }
{
    applies(quint, bits, t)
        && fails(
            failure,
            set_at(row, quint.node.0),
            value(&quint.value, bits),
        )
}

/// Whether some quintuple fails so at a time.
fn fails_at(failure: Failure, row: &[BitSet], quints: &[Quint], bits: &[bool], t: Time) -> bool
    ensures { result ≡ fails_at failure row.now quints.now bits.now t }
{
    quints
        .iter()
        .any(|quint| quint_fails(failure, row, quint, bits, t))
}

/// Whether some quintuple fails so at some time of a table with a row for each time below the
/// depth.
pub fn fails_somewhere(
    failure: Failure,
    rows: &[Items<BitSet>],
    quints: &[Quint],
    bits: &[bool],
    depth: Time,
) -> bool
    requires { length rows.now ≡ depth }
    ensures some { IsTrue result → (t : ℕ) × (t < depth)
        × IsTrue (fails_at failure (slice_index_or rows.now t []) quints.now bits.now t) }
    ensures none { result ≡ false → (t : ℕ) → t < depth →
        fails_at failure (slice_index_or rows.now t []) quints.now bits.now t ≡ false }
{
    for t in 0..depth {
        if fails_at(failure, rows[t as usize].as_slice(), quints, bits, t) {
            return true;
        }
    }
    false
}

/// Whether a binding fails so on the sets of its edge.
fn bind_fails(failure: Failure, row: &[BitSet], bind: &Bind, bits: &[bool]) -> bool
    ensures { result ≡ fails_cut failure (set_at row.now) (bind_at bits.now bind.now) }
{
    value(&bind.guard, bits) && fails(failure, set_at(row, bind.node.0), value(&bind.value, bits))
}

/// Whether some binding fails so.
pub fn some_bind_fails(failure: Failure, row: &[BitSet], binds: &[Bind], bits: &[bool]) -> bool
    ensures { result ≡ list_any (bind_fails failure row.now bits.now) binds.now }
{
    binds
        .iter()
        .any(|bind| bind_fails(failure, row, bind, bits))
}

/// The number of the first binding that fails so.
pub fn first_failing(
    failure: Failure,
    row: &[BitSet],
    binds: &[Bind],
    bits: &[bool],
) -> Option<usize>
    ensures { result ≡ position (bind_fails failure row.now bits.now) binds.now }
{
    binds
        .iter()
        .position(|bind| bind_fails(failure, row, bind, bits))
}
