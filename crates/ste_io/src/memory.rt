//! Files and sinks in memory, of which contracts know what they hold and take: `MemoryFiles` and
//! `MemorySink`.
ghost use Rattle.std.specs.Prelude.{◌≡◌, ◌⊎◌, ℕ, MatchResult, Some, OnOk, OnErr, IfOk, length, take, vec_capacity, ◌≤◌, ◌<◌, []};
ghost use Rattle.ste_io.specs.Causes.{Rose};
ghost use Rattle.ste_io.specs.InMemory.{FetchFails, WriteFails, next, taken_at_once};
ghost use Rattle.ste_io.specs.Outside.{HasFile, IsFetched, StoredFiles, WhyNotFetched, WriteFailed, took};
ghost use Rattle.std.specs.FinMap.{from_entries, get};
ghost use Rattle.std.specs.FinMap as map;
ghost use Rattle.std.specs.Option.{option_copied};
ghost use Rattle.std.specs.Ordering.{nat_cmp};
ghost use Rattle.std.specs.Cmp.Lexicographic.{slice_cmp};

use crate::files::{FetchFault, Files};
use crate::sink::{Sink, SinkFailed};
use std::alloc::{AllocError, Global};
use ste_base::{Items, Name};

/// Files in memory. A fetch fails where its number, counted from 1, is in `failing`, and for a name
/// that is not there.
#[derive(Drop)]
pub struct MemoryFiles {
    files: Vec<(Name, Items<u8>)>,
    asked: Vec<Name>,
    failing: Vec<u64>,
    fetches: u64,
    faults: u64,
    alloc: Global,
}

impl MemoryFiles {
    /// No files, and nothing asked for.
    pub fn new(alloc: Global, failing: Vec<u64>) -> Self
        ensures holds { (⟦<MemoryFiles as Files>⟧.state result).holds ≡ Some map.empty }
        ensures asked { (⟦<MemoryFiles as Files>⟧.state result).asked ≡ Some [] }
        ensures fails { result.failing.items ≡ failing.items }
        ensures counts { result.fetches ≡ 0 }
        ensures faults { (⟦<MemoryFiles as Files>⟧.state result).faults ≡ 0 }
    {
        MemoryFiles {
            files: Vec::new(alloc),
            asked: Vec::new(alloc),
            failing,
            fetches: 0,
            faults: 0,
            alloc,
        }
    }

    /// Puts a file, or replaces it. When memory runs out, nothing changes.
    pub fn add(&mut self, name: &str, bytes: &[u8]) -> Result<(), AllocError>
        ensures ok { OnOk result (HasFile name.now bytes.now
            (⟦<MemoryFiles as Files>⟧.state self.old) (⟦<MemoryFiles as Files>⟧.state self.new)) }
        ensures err { OnErr result
            (⟦<MemoryFiles as Files>⟧.state self.new ≡ ⟦<MemoryFiles as Files>⟧.state self.old) }
        ensures fails { self.new.failing.items ≡ self.old.failing.items }
        ensures counts { self.new.fetches ≡ self.old.fetches }
    {
        let name = Name::from_bytes(self.alloc, name.as_bytes())?;
        let bytes = Items::from(bytes.to_vec(self.alloc)?);
        self.files.insert(0, (name, bytes))?;
        Ok(())
    }
}

/// A sink in memory. It takes at most `most` bytes at a write. A write fails where its number,
/// counted from 1, is in `failing`, and where no room is left.
#[derive(Drop)]
pub struct MemorySink {
    bytes: Vec<u8>,
    room: usize,
    most: usize,
    failing: Vec<u64>,
    writes: u64,
    faults: u64,
    ghost takes_some: { 0 < most },
    ghost within: { length bytes.items ≤ room },
    ghost reserved: { room ≤ vec_capacity bytes },
}

impl MemorySink {
    /// An empty sink with room for so many bytes, which it takes at once.
    pub fn new(
        alloc: Global,
        room: usize,
        most: usize,
        failing: Vec<u64>,
    ) -> Result<MemorySink, AllocError>
        requires { 0 < most }
        ensures taken { IfOk result (λ sink. (⟦<MemorySink as Sink>⟧.state sink).taken ≡ Some []) }
        ensures limits { IfOk result (λ sink. (sink.room ≡ room) × (sink.most ≡ most)) }
        ensures fails { IfOk result (λ sink. sink.failing.items ≡ failing.items) }
        ensures counts { IfOk result (λ sink. sink.writes ≡ 0) }
        ensures faults { IfOk result (λ sink. (⟦<MemorySink as Sink>⟧.state sink).faults ≡ 0) }
    {
        Ok(MemorySink {
            bytes: Vec::with_capacity(alloc, room)?,
            room,
            most,
            failing,
            writes: 0,
            faults: 0,
        })
    }

    /// What was taken.
    pub fn bytes(&self) -> &[u8]
        ensures { (⟦<MemorySink as Sink>⟧.state self.now).taken ≡ Some result.now }
    {
        &self.bytes
    }
}

impl Sink for MemorySink {
    ghost state = { λ s. record { taken = Some s.bytes.items; faults = s.faults } };

    #[tactic(auto, using(crate::proofs::Taken::told_nothing))]
    fn write(&mut self, piece: &[u8]) -> Result<usize, SinkFailed>
        requires { 0 < length piece.now }
        ensures ok { IfOk result (λ n.
            (0 < n) × (n ≤ length piece.now) × (⟦<MemorySink as Sink>⟧.state self.new
            ≡ took (⟦<MemorySink as Sink>⟧.state self.old) (take n piece.now))) }
        ensures failed { OnErr result
            (WriteFailed (⟦<MemorySink as Sink>⟧.state self.old)
            (⟦<MemorySink as Sink>⟧.state self.new) []) }
        // It fails exactly where its number is listed or no room is left, and takes else as much as
        // it can.
        ensures fails { OnErr result
            (WriteFails self.old.failing.items self.old.writes self.old.room
            (length self.old.bytes.items)) }
        ensures takes { OnOk result
            (¬ WriteFails self.old.failing.items self.old.writes self.old.room
            (length self.old.bytes.items)) }
        ensures at_once { IfOk result (λ n. n
            ≡ taken_at_once self.old.most self.old.room (length self.old.bytes.items)
            (length piece.now)) }
        ensures lists { self.new.failing.items ≡ self.old.failing.items }
        ensures limits { (self.new.room ≡ self.old.room) × (self.new.most ≡ self.old.most) }
        ensures counts { self.new.writes ≡ next self.old.writes }
    {
        self.writes = self.writes.saturating_add(1);
        if self.room <= self.bytes.len() {
            self.faults = self.faults.saturating_add(1);
            return Err(SinkFailed);
        }
        if self.failing.contains(&self.writes) {
            self.faults = self.faults.saturating_add(1);
            return Err(SinkFailed);
        }
        let count = piece.len().min(self.most).min(self.room - self.bytes.len());
        let _ = self.bytes.extend_from_slice(&piece[..count]);
        Ok(count)
    }
}

impl Files for MemoryFiles {
    ghost state = { λ f. record {
      holds = Some (from_entries f.files.items);
      asked = Some f.asked.items;
      faults = f.faults;
    } };

    fn fetch(&mut self, alloc: Global, name: &str, max: u64) -> Result<Vec<u8>, FetchFault>
        requires { max ≤ 67108864 }
        ensures fetch { MatchResult result
            (λ bytes. IsFetched (⟦<MemoryFiles as Files>⟧.state self.old)
            (⟦<MemoryFiles as Files>⟧.state self.new)
            name.now max bytes.items)
            (λ fault. WhyNotFetched (⟦<MemoryFiles as Files>⟧.state self.old)
            (⟦<MemoryFiles as Files>⟧.state self.new) name.now max fault) }
        // It fails exactly where its number is listed or no file has the name.
        ensures fails { result ≡ Err FetchFault.Failed → (store : StoredFiles) →
            (⟦<MemoryFiles as Files>⟧.state self.old).holds ≡ Some store →
            FetchFails self.old.failing.items self.old.fetches store name.now }
        ensures reads { OnOk result ((store : StoredFiles) →
            (⟦<MemoryFiles as Files>⟧.state self.old).holds ≡ Some store →
            ¬ FetchFails self.old.failing.items self.old.fetches store name.now) }
        ensures sees { (seen : ℕ) → result ≡ Err (FetchFault.TooLarge seen) →
            (store : StoredFiles) →
            (⟦<MemoryFiles as Files>⟧.state self.old).holds ≡ Some store →
            ¬ FetchFails self.old.failing.items self.old.fetches store name.now }
        ensures lists { self.new.failing.items ≡ self.old.failing.items }
        ensures counts { (self.new.fetches ≡ next self.old.fetches)
            ⊎ ((result ≡ Err FetchFault.OutOfMemory) × (self.new.fetches ≡ self.old.fetches)) }
    {
        let Ok(wanted) = Name::from_bytes(alloc, name.as_bytes()) else {
            return Err(FetchFault::OutOfMemory);
        };
        if self.asked.push(wanted).is_err() {
            return Err(FetchFault::OutOfMemory);
        }
        self.fetches = self.fetches.saturating_add(1);
        if self.failing.contains(&self.fetches) {
            self.faults = self.faults.saturating_add(1);
            return Err(FetchFault::Failed);
        }
        match stands_at(&self.files, name.as_bytes()) {
            None => {
                self.faults = self.faults.saturating_add(1);
                Err(FetchFault::Failed)
            }
            Some(bytes) => {
                let seen = bytes.len() as u64;
                if seen > max {
                    return Err(FetchFault::TooLarge { seen });
                }
                match bytes.to_vec(alloc) {
                    Ok(copy) => Ok(copy),
                    Err(_) => Err(FetchFault::OutOfMemory),
                }
            }
        }
    }
}

/// The bytes of the first file of that name.
#[tactic(auto, using(crate::proofs::Found::find_all))]
fn stands_at<'a>(files: &'a [(Name, Items<u8>)], name: &[u8]) -> Option<&'a [u8]>
    ensures { option_copied result ≡ get (from_entries {R = slice_cmp nat_cmp} files.now) name.now }
{
    for file in files {
        if name == file.0.bytes() {
            return Some(file.1.as_slice());
        }
    }
    None
}
