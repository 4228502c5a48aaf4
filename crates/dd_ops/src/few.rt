//! A few results in place; begin with `Few`.

use crate::operands::Operands;
use dd_nodes::Ref;
use std::marker::Model;

/// Operands, and what was made of them.
#[derive(Clone, Copy, Drop)]
pub struct Entry {
    pub operands: Operands,
    pub result: Ref,
}

/// What stands at a place that is not used yet.
pub const BLANK: Entry = Entry {
    operands: Operands {
        first: Ref::FALSE,
        second: Ref::FALSE,
        third: Ref::FALSE,
    },
    result: Ref::FALSE,
};

/// At most sixteen results, which contracts see as a list. They take no memory.
#[derive(Drop)]
pub struct Few {
    entries: [Entry; 16],
    count: usize,
}

impl Model for Few {
    ghost use Rattle.std.specs.Prelude.{List, take, ◌≤◌};
    ghost use Rattle.dd_ops.specs.declared.few.Entry.{Entry};

    ghost Value = { List Entry };

    ghost view = { λ f. take f.count f.entries };

    ghost invariant = { λ f. f.count ≤ 16 };
}

impl Few {
    ghost use Rattle.std.specs.Prelude.{◌≡◌, ◌++◌, ◌∷◌, [], if◌then◌else◌, ◌↔◌, ◌<◌, IsTrue, length};

    pub fn new() -> Few
        ensures { result ≡ [] }
    {
        Few {
            entries: [BLANK; 16],
            count: 0,
        }
    }

    pub fn as_slice(&self) -> &[Entry]
        ensures { result.now ≡ self.now }
    {
        &self.entries[..self.count]
    }

    /// Whether there is a place for the entry, which is then put behind the others.
    pub fn push(&mut self, entry: Entry) -> bool
        ensures list { self.new ≡ (if result then self.old ++ entry ∷ [] else self.old) }
        ensures room { IsTrue result ↔ (length self.old < 16) }
    {
        if self.count == 16 {
            return false;
        }
        self.entries[self.count] = entry;
        self.count += 1;
        true
    }
}
