//! Bits of some times in a row, which go into the rows together; begin with `Block`.

ghost use Rattle.std.specs.Prelude.{◌≡◌, ◌≢◌, ◌≤◌, ◌<◌, ◌⊎◌, ◌+◌, ◌-◌, ◌^◌, ℕ, All, IfOk, OnOk, false, length, slice_index_or};
ghost use Rattle.clock_step.specs.Determined.{bit_at};
ghost use Rattle.counter_run.specs.private.Block.{IsBlock, block_bit, over_block};
ghost use Rattle.counter_run.specs.private.Matrix.{SameShape, cell};

use crate::row::Row;
use std::alloc::{AllocError, Global};
use ste_base::Time;

/// So many times are put into the rows together: a row is then written in one place, and not once
/// at each time.
const BLOCK: Time = 32;

/// The bits of all nets at some times in a row that the rows do not have yet.
#[derive(Drop)]
pub struct Block {
    /// How many nets there are.
    nets: usize,
    /// The first of the times.
    from: Time,
    /// The time behind the last.
    to: Time,
    /// Time after time, a bit for each net.
    bits: Vec<bool>,
}

impl Block {
    /// A block of no times, with room for as many as it takes.
    pub fn new(alloc: Global, nets: u32) -> Result<Block, AllocError>
        ensures block { IfOk result (λ block. IsBlock nets block) }
        ensures from { IfOk result (λ block. block.from ≡ 0) }
        ensures to { IfOk result (λ block. block.to ≡ 0) }
    {
        let nets = nets as usize;
        Ok(Block {
            nets,
            from: 0,
            to: 0,
            bits: Vec::with_capacity(alloc, nets * BLOCK as usize)?,
        })
    }

    /// The bit of a net at one of the times.
    fn bit(&self, t: Time, id: usize) -> bool
        requires block { IsBlock self.now.nets self.now }
        requires from { self.now.from ≤ t }
        requires to { t < self.now.to }
        requires id { id < self.now.nets }
        ensures { result ≡ block_bit self.now t id }
    {
        self.bits[(t - self.from) as usize * self.nets + id]
    }

    /// Puts the bits of a net into its row.
    fn put_row(&self, id: usize, row: &mut Row)
        requires block { IsBlock self.now.nets self.now }
        requires id { id < self.now.nets }
        requires wide { self.now.to ≤ length row.old }
        ensures long { length row.new ≡ length row.old }
        ensures inside { (t : ℕ) → self.now.from ≤ t → t < self.now.to
            → slice_index_or row.new t false ≡ block_bit self.now t id }
        ensures outside { (t : ℕ) → (t < self.now.from) ⊎ (self.now.to ≤ t)
            → slice_index_or row.new t false ≡ slice_index_or row.old t false }
    {
        for t in self.from..self.to {
            row.set(t, self.bit(t, id));
        }
    }

    /// Puts the bits of each net into its row.
    fn put_rows(&self, rows: &mut [Row])
        requires block { IsBlock (length rows.old) self.now }
        requires wide { All (λ row. self.now.to ≤ length row) rows.old }
        ensures shape { SameShape rows.old rows.new }
        ensures placed { (s id : ℕ) → id < length rows.old
            → cell rows.new s id ≡ over_block (cell rows.old) self.now s id }
    {
        for id in 0..self.nets {
            self.put_row(id, &mut rows[id]);
        }
    }

    /// Puts the bits into the rows. The block has no times then, and begins behind those that it
    /// had.
    pub fn write_out(&mut self, rows: &mut [Row])
        requires block { IsBlock (length rows.old) self.old }
        requires wide { All (λ row. self.old.to ≤ length row) rows.old }
        ensures block { IsBlock (length rows.old) self.new }
        ensures from { self.new.from ≡ self.old.to }
        ensures to { self.new.to ≡ self.old.to }
        ensures shape { SameShape rows.old rows.new }
        ensures placed { (s id : ℕ) → id < length rows.old
            → cell rows.new s id ≡ over_block (cell rows.old) self.old s id }
    {
        self.put_rows(rows);
        self.bits.clear();
        self.from = self.to;
    }

    /// Adds a time, with a bit for each net.
    fn add(&mut self, bits: &[bool]) -> Result<(), AllocError>
        requires block { IsBlock (length bits.now) self.old }
        requires room { self.old.to < 2 ^ 32 - 1 }
        ensures block { OnOk result (IsBlock (length bits.now) self.new) }
        ensures from { OnOk result (self.new.from ≡ self.old.from) }
        ensures to { OnOk result (self.new.to ≡ self.old.to + 1) }
        ensures placed { OnOk result ((id : ℕ) → id < length bits.now
            → block_bit self.new self.old.to id ≡ bit_at bits.now id) }
        ensures others { OnOk result ((s id : ℕ) → id < length bits.now
            → self.old.from ≤ s → s < self.old.to
            → block_bit self.new s id ≡ block_bit self.old s id) }
    {
        self.bits.extend_from_slice(bits)?;
        self.to += 1;
        Ok(())
    }

    /// Adds a time, with a bit for each net. Where the block is full then, its bits go into the
    /// rows.
    pub fn push(&mut self, rows: &mut [Row], bits: &[bool]) -> Result<(), AllocError>
        requires block { IsBlock (length rows.old) self.old }
        requires wide { All (λ row. self.old.to < length row) rows.old }
        requires tall { length bits.now ≡ length rows.old }
        requires room { self.old.to < 2 ^ 32 - 1 }
        ensures block { OnOk result (IsBlock (length rows.old) self.new) }
        ensures to { OnOk result (self.new.to ≡ self.old.to + 1) }
        ensures shape { OnOk result (SameShape rows.old rows.new) }
        ensures placed { OnOk result ((id : ℕ) → id < length rows.old
            → over_block (cell rows.new) self.new self.old.to id ≡ bit_at bits.now id) }
        ensures others { OnOk result ((s id : ℕ) → id < length rows.old → s ≢ self.old.to
            → over_block (cell rows.new) self.new s id
            ≡ over_block (cell rows.old) self.old s id) }
    {
        self.add(bits)?;
        if self.to - self.from < BLOCK {
            return Ok(());
        }
        self.write_out(rows);
        Ok(())
    }
}
