//! Rows of bits, one for each net; begin with `zeros`.

ghost use Rattle.std.specs.Prelude.{◌≡◌, ◌≢◌, ◌<◌, ℕ, All, IfOk, OnOk, false, length, map, replicate};
ghost use Rattle.clock_step.specs.Determined.{bit_at};
ghost use Rattle.counter_run.specs.private.Matrix.{SameShape, cell};

use crate::row::Row;
use std::alloc::{AllocError, Global};
use ste_base::{Items, NodeId, Time};

/// Rows of zeros, one for each net.
pub fn zeros(alloc: Global, nets: u32, times: Time) -> Result<Vec<Row>, AllocError>
    ensures { IfOk result (λ rows. rows.items ≡ replicate nets (replicate times false)) }
{
    let mut rows = Vec::with_capacity(alloc, nets as usize)?;
    for _ in 0..nets {
        rows.push(Row::zeros(alloc, times)?)?;
    }
    Ok(rows)
}

/// The bit of a net at a time, and 0 where there is none.
pub fn cell(rows: &[Row], net: NodeId, t: Time) -> bool
    ensures { result ≡ cell rows.now t net.0 }
{
    match rows.get(net.0 as usize) {
        Some(row) => row.bit(t),
        None => false,
    }
}

/// Puts the bits of these nets at a time into a vector, in place of what it held.
pub fn gather(
    rows: &[Row],
    nodes: &[NodeId],
    t: Time,
    found: &mut Vec<bool>,
) -> Result<(), AllocError>
    ensures { OnOk result (found.new.items ≡ map (λ node. cell rows.now t node.0) nodes.now) }
{
    found.clear();
    for node in nodes {
        found.push(cell(rows, *node, t))?;
    }
    Ok(())
}

/// Puts a bit for each net at a time.
pub fn put_column(rows: &mut [Row], t: Time, bits: &[bool])
    requires wide { All (λ row. t < length row) rows.old }
    requires tall { length bits.now ≡ length rows.old }
    ensures shape { SameShape rows.old rows.new }
    ensures placed { (id : ℕ) → id < length rows.old
        → cell rows.new t id ≡ bit_at bits.now id }
    ensures others { (s id : ℕ) → s ≢ t → cell rows.new s id ≡ cell rows.old s id }
{
    for (id, bit) in bits.iter().enumerate() {
        rows[id].set(t, *bit);
    }
}

/// The rows as lists. It takes one vector.
pub fn lists_of(alloc: Global, rows: Vec<Row>) -> Result<Items<Items<bool>>, AllocError>
    ensures { IfOk result (λ lists. lists ≡ map (λ row. row) rows.items) }
{
    let lists: Vec<Items<bool>> = rows.into_iter().map(|row| row.into_items()).collect(alloc)?;
    Ok(lists.into())
}
