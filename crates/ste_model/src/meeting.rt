//! Whether a run meets quintuples; begin with `meets`.

ghost use Rattle.std.specs.Prelude.{◌≡◌, ◌≤◌, ◌<◌, ◌↔◌, ℕ, IsTrue, slice_index_or, []};
ghost use Rattle.ste_model.specs.Asked.{cuts_at};
ghost use Rattle.ste_model.specs.Holds.{RunMeets};
ghost use Rattle.ste_model.specs.Runs.{run_of};
ghost use Rattle.ste_model.specs.private.Meeting.{HasBitFrom, IsMet};

use crate::run::Run;
use crate::task::Quint;
use bool_expr::value;
use ste_base::{NodeId, Time};

/// The bits of a net of a run; there are none of a net without a row.
fn row_of(run: &Run, net: NodeId) -> &[bool]
    ensures { result.now ≡ slice_index_or run.now.rows net.0 [] }
{
    match run.rows.as_slice().get(net.0 as usize) {
        Some(row) => row.as_slice(),
        None => &[],
    }
}

/// Whether a net has the bit at each time from one up to, but not at, another.
fn has_bit_from(row: &[bool], from: Time, to: Time, bit: bool) -> bool
    ensures { IsTrue result ↔ HasBitFrom row.now from to bit }
{
    for t in from..to {
        if row.get(t as usize).copied().unwrap_or(false) != bit {
            return false;
        }
    }
    true
}

/// Whether a run meets a quintuple.
fn is_met(run: &Run, bits: &[bool], quint: &Quint) -> bool
    ensures { IsTrue result ↔ IsMet (run_of run.now) bits.now quint.now }
{
    if !value(&quint.guard, bits) {
        return true;
    }
    let bit = value(&quint.value, bits);
    has_bit_from(row_of(run, quint.node), quint.from, quint.to, bit)
}

/// Whether a run meets quintuples under an assignment: at each time at which one applies its net
/// has its value's bit. A time or net without a bit in the run has 0. It takes no memory.
pub fn meets(run: &Run, bits: &[bool], quints: &[Quint]) -> bool
    ensures { IsTrue result ↔ RunMeets (cuts_at quints.now bits.now) (run_of run.now) }
{
    for quint in quints {
        if !is_met(run, bits, quint) {
            return false;
        }
    }
    true
}
