//! Many results in a table; begin with `Results`.

ghost use Rattle.std.specs.Prelude.{◌≡◌, ◌<◌, ◌≤◌, ◌+◌, ◌%◌, Contains, IfSome, IfNone, IfOk, OnOk, length, true};
ghost use Rattle.std.proofs.Props.{props};
ghost use Rattle.dd_ops.specs.private.Tables.{AddsEntry, HasEntries, IsOnWalk, IsPlaced, entry_of, home, is_used, mixed, taken};

use crate::few::{BLANK, Entry};
use crate::operands::Operands;
use dd_nodes::Ref;
use std::alloc::{AllocError, Global};

/// Many results by their operands. Each lies at the first unused place of a walk that begins at the
/// home of its operands; no more than about half of the places are used. Unused places have
/// constants 0 as their operands, which no result has.
#[derive(Drop)]
pub struct HashedMemo {
    entries: Vec<Entry>,
    count: usize,
    ghost counted: { taken entries.items ≤ count },
    ghost room: { count < length entries.items },
}

/// Whether these are no operands of an unused place.
fn is_used(x: Operands) -> bool
    ensures { result ≡ is_used x }
{
    !(x == BLANK.operands)
}

/// A number that looks like chance, made of the operands (multiplicative hashing).
fn mixed(x: Operands) -> u64
    ensures { result ≡ mixed x }
{
    let first = (x.first.0 as u64).wrapping_mul(11400714819323198485);
    let second = (x.second.0 as u64).wrapping_mul(14029467366897019727);
    let third = (x.third.0 as u64).wrapping_mul(9650029242287828579);
    first.wrapping_add(second).wrapping_add(third)
}

/// The place where the walk of the operands begins, of so many places.
fn home(x: Operands, size: usize) -> usize
    requires { 0 < size }
    ensures { (result ≡ home size x) × (result < size) }
{
    ((mixed(x) as u128 * size as u128) >> 64) as usize
}

/// The place behind a place, and the first one behind the last.
fn next(at: usize, size: usize) -> usize
    requires { at < size }
    ensures { (result ≡ (at + 1) % size) × (result < size) }
{
    if at + 1 == size { 0 } else { at + 1 }
}

/// Puts an entry at the first unused place of its walk.
fn place(entries: &mut [Entry], entry: Entry)
    requires room { taken entries.old < length entries.old }
    requires used { is_used entry.operands ≡ true }
    ensures { IsPlaced entries.old entry entries.new }
{
    let size = entries.len();
    let mut at = home(entry.operands, size);
    for n in 0..size {
        if !is_used(entries[at].operands) {
            entries[at] = entry;
            return;
        }
        at = next(at, size);
    }
    unreachable!()
}

/// Puts an entry into a table, at the first unused place of its walk.
fn put_into(table: &mut Vec<Entry>, entry: Entry)
    requires room { taken table.old.items < length table.old.items }
    requires used { is_used entry.operands ≡ true }
    ensures { IsPlaced table.old.items entry table.new.items }
{
    place(table, entry);
}

/// The size of a table to which one of so many places is widened.
fn wider(places: usize) -> Result<usize, AllocError>
    ensures { IfOk result (λ size. places + 1 < size) }
{
    let times = if places < 64 {
        16
    } else if places < 16384 {
        4
    } else {
        2
    };
    match places.checked_mul(times) {
        Some(size) => match size.checked_add(16) {
            Some(size) => Ok(size),
            None => Err(AllocError),
        },
        None => Err(AllocError),
    }
}

/// A table of so many places with these entries, but for unused ones.
fn table_of(alloc: Global, entries: &[Entry], size: usize) -> Result<Vec<Entry>, AllocError>
    requires { length entries.now < size }
    ensures long { IfOk result (λ table. length table.items ≡ size) }
    ensures has { IfOk result (λ table. HasEntries entries.now table.items) }
{
    let mut table = Vec::from_elem(alloc, BLANK, size)?;
    for entry in entries {
        if is_used(entry.operands) {
            put_into(&mut table, *entry);
        }
    }
    Ok(table)
}

impl HashedMemo {
    /// A table with these entries, with room for as many again and more.
    pub fn of(alloc: Global, entries: &[Entry]) -> Result<HashedMemo, AllocError>
        ensures { IfOk result (λ hashed_memo. HasEntries entries.now hashed_memo.entries.items) }
    {
        let size = wider(entries.len())?;
        Ok(HashedMemo {
            entries: table_of(alloc, entries, size)?,
            count: entries.len(),
        })
    }

    /// What was made of the operands, where it is there.
    pub fn find(&self, x: Operands) -> Option<Ref>
        requires { is_used x ≡ true }
        ensures some { IfSome result (λ r. Contains self.now.entries.items (entry_of x r)) }
        ensures none { IfNone result (IsOnWalk self.now.entries.items x → ⊥) }
    {
        let entries = self.entries.as_slice();
        let size = entries.len();
        let mut at = home(x, size);
        for n in 0..size {
            let entry = entries[at];
            if entry.operands == x {
                return Some(entry.result);
            }
            if !is_used(entry.operands) {
                return None;
            }
            at = next(at, size);
        }
        None
    }

    /// Makes the table larger.
    #[cold]
    #[inline(never)]
    fn widen(&mut self, alloc: Global) -> Result<(), AllocError>
        ensures has { OnOk result (HasEntries self.old.entries.items self.new.entries.items) }
        ensures room { OnOk result (self.new.count + 1 < length self.new.entries.items) }
    {
        let size = wider(self.entries.len())?;
        self.entries = table_of(alloc, &self.entries, size)?;
        Ok(())
    }

    /// Puts an entry behind those of its walk; a table that is half full is made larger first.
    pub fn put(&mut self, alloc: Global, entry: Entry) -> Result<(), AllocError>
        requires { is_used entry.operands ≡ true }
        ensures { OnOk result (AddsEntry self.old.entries.items entry self.new.entries.items) }
    {
        if self.count >= self.entries.len() / 2 {
            self.widen(alloc)?;
        }
        put_into(&mut self.entries, entry);
        self.count += 1;
        Ok(())
    }
}
