//! What an antecedent asks, as rows of bits; begin with `put_quints`.

ghost use Rattle.std.specs.Prelude.{◌≡◌, ◌≢◌, ◌<◌, ◌≤◌, ℕ, [], false, All, IfOk, length, map, slice_index_or};
ghost use Rattle.ste_model.specs.Asked.{cuts_at, quint_at};
ghost use Rattle.counter_run.specs.private.Asking.{IsAskedOr, after_cut, start_bit};
ghost use Rattle.counter_run.specs.private.Matrix.{IsMatrix, SameShape, cell};

use crate::matrix::{cell, zeros};
use crate::row::Row;
use bool_expr::value;
use net_core::{Init, Net};
use std::alloc::{AllocError, Global};
use ste_base::Time;
use ste_model::Quint;

/// The first bit of a latch of which nothing is asked.
fn start_bit(reset: bool, init: Init) -> bool
    ensures { result ≡ start_bit reset init }
{
    match init {
        Init::One => reset,
        Init::Zero => false,
        Init::Free => false,
    }
}

/// Puts at time 0 the first bit of each latch of which nothing is asked.
fn put_starts(net: &Net, reset: bool, rows: &mut [Row])
    requires tall { length rows.old ≡ net.now.raw.nets }
    requires wide { All (λ latch. 0 < length (slice_index_or rows.old latch.output.0 []))
        net.now.raw.latches }
    ensures shape { SameShape rows.old rows.new }
    ensures latches { All (λ latch. cell rows.new 0 latch.output.0 ≡ start_bit reset latch.init)
        net.now.raw.latches }
    ensures others { (t id : ℕ) → All (λ latch. latch.output.0 ≢ id) net.now.raw.latches
        → cell rows.new t id ≡ cell rows.old t id }
{
    for latch in net.latches() {
        rows[latch.output.0 as usize].set(0, start_bit(reset, latch.init));
    }
}

/// Rows of zeros for each net, with the first bit of each latch of which nothing is asked at time
/// 0.
pub fn start_rows(
    alloc: Global,
    net: &Net,
    reset: bool,
    times: Time,
) -> Result<Vec<Row>, AllocError>
    ensures matrix { IfOk result (λ rows. IsMatrix net.now.raw.nets times rows.items) }
    ensures latches { IfOk result (λ rows. 0 < times
        → All (λ latch. cell rows.items 0 latch.output.0 ≡ start_bit reset latch.init)
        net.now.raw.latches) }
    ensures others { IfOk result (λ rows. (t id : ℕ)
        → All (λ latch. latch.output.0 ≢ id) net.now.raw.latches → cell rows.items t id ≡ false) }
{
    let mut rows = zeros(alloc, net.nets(), times)?;
    if times > 0 {
        put_starts(net, reset, rows.as_mut_slice());
    }
    Ok(rows)
}

/// Puts what a quintuple asks.
fn put_quint(rows: &mut [Row], bits: &[bool], quint: &Quint)
    requires inside { quint.now.node.0 < length rows.old }
    requires below { quint.now.to ≤ length (slice_index_or rows.old quint.now.node.0 []) }
    ensures shape { SameShape rows.old rows.new }
    ensures each { (t id : ℕ) → cell rows.new t id
        ≡ after_cut (quint_at bits.now t quint.now) id (cell rows.old t id) }
{
    if value(&quint.guard, bits) {
        let bit = value(&quint.value, bits);
        rows[quint.node.0 as usize].fill(quint.from, quint.to, bit);
    }
}

/// Puts what quintuples ask, one after another.
pub fn put_quints(rows: &mut [Row], bits: &[bool], quints: &[Quint])
    requires inside { All (λ quint. quint.node.0 < length rows.old) quints.now }
    requires below { All (λ quint. quint.to ≤ length (slice_index_or rows.old quint.node.0 []))
        quints.now }
    ensures shape { SameShape rows.old rows.new }
    ensures each { (t id : ℕ) → IsAskedOr (cuts_at quints.now bits.now t) id
        (cell rows.old t id) (cell rows.new t id) }
{
    for quint in quints {
        put_quint(rows, bits, quint);
    }
}

/// The first bits of the latches.
pub fn first_bits(alloc: Global, net: &Net, rows: &[Row]) -> Result<Vec<bool>, AllocError>
    ensures { IfOk result (λ first. first.items
        ≡ map (λ latch. cell rows.now 0 latch.output.0) net.now.raw.latches) }
{
    net.latches()
        .iter()
        .map(|latch| cell(rows, latch.output, 0))
        .collect(alloc)
}
