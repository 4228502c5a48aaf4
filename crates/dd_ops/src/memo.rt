//! What one call has met; begin with `Memo`.

ghost use Rattle.std.specs.Prelude.{◌≡◌, Contains, IfSome, IfNone, OnOk, true};
ghost use Rattle.dd_ops.specs.private.Met.{HasMet, IsBlank, IsMet, Adds};
ghost use Rattle.dd_ops.specs.private.Tables.{entry_of, is_used};

use crate::few::{Entry, Few};
use crate::hashed_memo::HashedMemo;
use crate::operands::Operands;
use dd_nodes::Ref;
use std::alloc::{AllocError, Global};

/// The results that one call has met: the first few in place, and where there are more, all in a
/// table. So a call that meets few takes no memory.
#[derive(Drop)]
pub enum Memo {
    InPlace(Few),
    InTable(HashedMemo),
}

impl Memo {
    pub fn new() -> Memo
        ensures { IsBlank result }
    {
        Memo::InPlace(Few::new())
    }

    /// What was made of the operands, where it was met.
    pub fn find(&self, x: Operands) -> Option<Ref>
        requires { is_used x ≡ true }
        ensures some { IfSome result (λ r. HasMet self.now x r) }
        ensures none { IfNone result (IsMet self.now x → ⊥) }
    {
        match self {
            Memo::InPlace(few) => find_among(few.as_slice(), x),
            Memo::InTable(hashed_memo) => hashed_memo.find(x),
        }
    }

    /// Remembers what was made of the operands.
    pub fn put(&mut self, alloc: Global, x: Operands, r: Ref) -> Result<(), AllocError>
        requires { is_used x ≡ true }
        ensures { OnOk result (Adds self.old x r self.new) }
    {
        let entry = Entry {
            operands: x,
            result: r,
        };
        match self {
            Memo::InPlace(few) => {
                if few.push(entry) {
                    return Ok(());
                }
                self.spill(alloc, entry)
            }
            Memo::InTable(hashed_memo) => hashed_memo.put(alloc, entry),
        }
    }

    /// Puts all into a table, and the entry with them. It stands apart, since it moves a whole
    /// memo.
    #[cold]
    #[inline(never)]
    fn spill(&mut self, alloc: Global, entry: Entry) -> Result<(), AllocError>
        requires { is_used entry.operands ≡ true }
        ensures { OnOk result (Adds self.old entry.operands entry.result self.new) }
    {
        match self {
            Memo::InPlace(few) => {
                let mut hashed_memo = HashedMemo::of(alloc, few.as_slice())?;
                hashed_memo.put(alloc, entry)?;
                *self = Memo::InTable(hashed_memo);
                Ok(())
            }
            Memo::InTable(hashed_memo) => hashed_memo.put(alloc, entry),
        }
    }
}

/// What was made of the operands, where it is among these.
fn find_among(entries: &[Entry], x: Operands) -> Option<Ref>
    ensures some { IfSome result (λ r. Contains entries.now (entry_of x r)) }
    ensures none { IfNone result ((r : Ref) → Contains entries.now (entry_of x r) → ⊥) }
{
    for entry in entries {
        if entry.operands == x {
            return Some(entry.result);
        }
    }
    None
}
