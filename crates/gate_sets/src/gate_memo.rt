//! The sets that the recursion of `by_table.rt` has found for one gate, by tables and inputs; begin
//! with `GateMemo`. It is emptied at each gate.

ghost use Rattle.std.specs.Prelude.{◌≡◌, ◌≤◌, ◌<◌, [], All, IsTrue, OnOk, drop, length, take};
ghost use Rattle.dd_nodes.specs.Stores.{Store};
ghost use Rattle.dual_rail.specs.Rail.{AreRails, AreRefs};
ghost use Rattle.gate_sets.specs.private.TruthTables.{AreMet, HasSetOrNot, set_by_tables};

use crate::truth_table::TruthTables;
use dual_rail::Rails;
use std::alloc::{AllocError, Global};

/// The set that was found for tables and the references of inputs, which begin at a place of a
/// list.
#[derive(Clone, Copy, Drop)]
pub struct Entry {
    pub tables: TruthTables,
    pub begin: usize,
    pub rails: Rails,
}

/// The sets that were found for one gate, and the references that they are for, all in one list.
/// Each has a slot by its tables and references, and takes it from what stood there. It takes no
/// memory before the first gate.
#[derive(Drop)]
pub struct GateMemo {
    pub slots: Vec<u32>,
    pub entries: Vec<Entry>,
    pub operands: Vec<Rails>,
}

/// The number of slots.
const SLOTS: usize = 1024;

/// The slot of tables and references, by a hash of them (multiplicative hashing).
pub fn slot_of(tables: TruthTables, operands: &[Rails]) -> usize
    ensures { result < 1024 }
{
    let mut mixed = tables
        .can0
        .wrapping_mul(11400714819323198485)
        .wrapping_add(tables.can1);
    for r in operands {
        let both = ((r.can0.0 as u64) << 32) | r.can1.0 as u64;
        mixed = mixed.wrapping_add(both).wrapping_mul(14029467366897019727);
        mixed = mixed ^ (mixed >> 32);
    }
    (mixed.wrapping_mul(9650029242287828579) >> 54) as usize
}

/// Whether these references stand in a list from a place on.
fn stand_at(list: &[Rails], begin: usize, operands: &[Rails]) -> bool
    ensures { IsTrue result → take (length operands.now) (drop begin list.now) ≡ operands.now }
{
    if begin > list.len() {
        return false;
    }
    let rest = &list[begin..];
    if rest.len() < operands.len() {
        return false;
    }
    for k in 0..operands.len() {
        if rest[k] != operands[k] {
            return false;
        }
    }
    true
}

impl GateMemo {
    /// Nothing, without memory.
    pub fn none(alloc: Global) -> GateMemo {
        GateMemo {
            slots: Vec::new(alloc),
            entries: Vec::new(alloc),
            operands: Vec::new(alloc),
        }
    }

    /// Forgets all, and keeps the memory.
    pub fn forget(&mut self, alloc: Global) -> Result<(), AllocError>
        ensures { OnOk result (self.new.entries.items ≡ []) }
    {
        self.entries.clear();
        self.operands.clear();
        if self.slots.is_empty() {
            self.slots = vec![in alloc; 0u32; SLOTS]?;
        }
        Ok(())
    }

    /// The set that was found for these tables and references, if it still has its slot.
    pub fn find(&self, slot: usize, tables: TruthTables, operands: &[Rails]) -> Option<Rails>
        ensures { (s : Store) → AreMet s (length operands.now) self.now
            → HasSetOrNot (set_by_tables tables s operands.now) s result }
    {
        let number = *self.slots.get(slot)?;
        let entry = *self.entries.get(number as usize)?;
        if entry.tables != tables {
            return None;
        }
        if !stand_at(self.operands.as_slice(), entry.begin, operands) {
            return None;
        }
        Some(entry.rails)
    }

    /// Puts the set that was found for these tables and references in its slot. A slot has room for
    /// 32 bits of an entry's number; where they lead to another entry, its tables and references
    /// show it.
    pub fn put(
        &mut self,
        slot: usize,
        tables: TruthTables,
        operands: &[Rails],
        rails: Rails,
    ) -> Result<(), AllocError>
        ensures { (s : Store) → AreMet s (length operands.now) self.old
            → All (AreRefs s) operands.now
            → AreRails s (set_by_tables tables s operands.now) rails
            → OnOk result (AreMet s (length operands.now) self.new) }
    {
        let begin = self.operands.len();
        self.operands.extend_from_slice(operands)?;
        if slot < self.slots.len() {
            self.slots[slot] = (self.entries.len() % (1 << 32)) as u32;
        }
        self.entries.push(Entry {
            tables,
            begin,
            rails,
        })?;
        Ok(())
    }
}
