//! The table that threads share: `SharedTable::open` and `SharedTable::close`.

ghost use Rattle.std.specs.Prelude.{◌≡◌, ℕ, ◌<◌, ◌≤◌, ◌/◌, List, [], length, IfOk};
ghost use Rattle.std.specs.Mem.Slots.{slots_len, slots_items, IsFull};
ghost use Rattle.std.specs.FinMap as map;
ghost use Rattle.ste_base.specs.Functions.{Function};
ghost use Rattle.dd_nodes.specs.Functions.{node_count};
ghost use Rattle.ste_base.specs.Limits.{most_variables};
ghost use Rattle.dd_table.specs.Layout.{most_slots};
ghost use Rattle.dd_table.specs.Rules.{taken_slots};
ghost use Rattle.dd_table.specs.Sessions.{AreHeld, CountsTaken, store_of};

use crate::rule::{NodeTable, Sizes};
use crate::session::Session;
use crate::steps::TableWords;
use crate::views::View;
use atomic_table::{Closed, Table};
use std::alloc::{AllocError, Global};
use std::marker::Model;

/// A table of nodes, one word each, to which any number of threads add without a lock. Contracts
/// see its name.
#[derive(Drop)]
pub struct SharedTable {
    table: Table<(), View, Sizes, NodeTable, Global>,
}

impl Model for SharedTable {
    ghost use Rattle.atomic_table.specs.Seated.{TableId, table_id_coded};

    ghost Value = { TableId };

    ghost coded = { table_id_coded };

    ghost view = { λ t. t.table.shared.table_id };

    ghost use Rattle.std.specs.Prelude.{◌≡◌};

    ghost invariant = { λ t. t.table.shared.table_id.slots ≡ 0 };
}

impl SharedTable {
    /// A table of `slots` words, all empty, over `vars` variables (at most 1,000), and its first
    /// session, which holds nothing, made nothing, and may make half as many nodes as there are
    /// slots (2 to 32,000,000), rounded down. A table takes 8 bytes a slot, and twice as many while
    /// it is opened.
    pub fn open(alloc: Global, vars: u32, slots: u32) -> Result<(SharedTable, Session), AllocError>
        requires vars { vars ≤ most_variables }
        requires slots { (2 ≤ slots) × (slots ≤ most_slots) }
        ensures table { IfOk result (λ r. r.1.table ≡ r.0) }
        ensures sizes { IfOk result (λ r. (r.1.vars ≡ vars) × (r.1.slots ≡ slots)) }
        ensures limit { IfOk result (λ r. r.1.limit ≡ slots / 2) }
        ensures empty { IfOk result (λ r. (r.1.held ≡ map.empty) × (r.1.made ≡ [])) }
    {
        let zeros = Vec::from_elem(alloc, 0u64, slots as usize)?;
        let sizes = Sizes {
            vars: vars as u64,
            slots: slots as u64,
        };
        let (table, seat) = Table::of_words(alloc, zeros.as_slice(), &sizes)?;
        let session = Session {
            seat,
            vars,
            slots,
            used: 0,
            limit: slots / 2,
            some: 0,
        };
        Ok((SharedTable { table }, session))
    }

    /// The words.
    pub(crate) fn words(&self) -> &TableWords
        ensures { result.now.table_id ≡ self.now }
    {
        &self.table.shared
    }

    /// Ends the table, and gives the number of its taken slots. That is the number of nodes that
    /// were made in all, at least those that this session made or holds, and at least the nodes of
    /// any functions whose nodes all have references in it. A session that has all steps made them
    /// all.
    pub fn close(self, session: Session) -> u32
        requires { session.table ≡ self }

        // The number of taken slots of words that keep the rules, with views of which one shows
        // this session.
        ensures taken { CountsTaken session result }

        // So it has these bounds.
        ensures half { result ≤ session.slots / 2 }
        ensures used { length session.made ≤ result }
        ensures held { map.len session.held ≤ result }
        ensures nodes { (fs : List Function) → AreHeld (store_of session) fs
            → node_count session.vars fs ≤ result }
        ensures whole { session.limit ≡ session.slots / 2 → result ≡ length session.made }
    {
        session.shown();
        let Session {
            seat,
            vars: _,
            slots,
            used: _,
            limit: _,
            some: _,
        } = session;
        let SharedTable { table } = self;
        let closed = table.close_with(seat);
        let count = count_taken(&closed, slots);
        closed.free();
        count
    }
}

/// The number of words that are not 0.
fn count_taken(closed: &Closed<(), Global>, slots: u32) -> u32
    requires words { slots ≡ slots_len closed.now.words }
    requires full { IsFull closed.now.words × (slots ≡ length (slots_items closed.now.words)) }
    ensures { result ≡ taken_slots (slots_items closed.now.words) }
{
    let mut count = 0u32;
    for i in 0..slots {
        if closed.word(i as usize) != 0 {
            count += 1;
        }
    }
    count
}
