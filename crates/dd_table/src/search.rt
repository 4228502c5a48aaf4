//! The search for a word, one step a slot: `search`.

ghost use Rattle.std.specs.Prelude.{◌≡◌, ℕ, ◌<◌, ◌≤◌, ◌+◌, ◌%◌, length, true, false, IfSome, IfNone};
ghost use Rattle.dd_table.specs.Tells.{MayMake, SearchEnds, CameTo};

use crate::steps::{TableSeat, TableWords, look, try_at};
use crate::word::home_of_word;
use dd_nodes::Steps;
use std::sync::ledger::Ledger;

/// The slot behind a slot, and the first one behind the last.
fn next(at: u32, slots: u32) -> u32
    requires { at < slots }
    ensures { (result ≡ (at + 1) % slots) × (result < slots) }
{
    if at + 1 == slots { 0 } else { at + 1 }
}

/// Walks from the home of the word on, until it finds the word or an empty slot. Where a step is
/// left it writes the word to the empty slot, and gives the slot and whether it wrote. Each
/// operation on the table is a counted step: where `once` says so there is one a slot, a
/// compare-exchange or a load; else there are both at an empty slot.
pub(crate) fn search<L: Ledger>(
    words: &TableWords,
    seat: &mut TableSeat,
    word: u64,
    slots: u32,
    left: bool,
    once: bool,
    steps: &mut Steps<L>,
) -> Option<(u32, bool)>
    requires table { seat.old.table_id ≡ words.now.table_id }
    requires size { seat.old.me.0.slots ≡ words.now.table_id.words }
    requires slots { (seat.old.me.0.slots ≡ slots) × (0 < slots) }
    requires may { MayMake seat.old.me.0 word }
    requires left { left ≡ true → length seat.old.me.0.made < seat.old.me.0.limit }
    requires none { left ≡ false → seat.old.me.0.limit ≤ length seat.old.me.0.made }
    ensures table { seat.new.table_id ≡ seat.old.table_id }
    ensures empty { seat.new.me.1 ≡ seat.old.me.1 }
    ensures ends { SearchEnds word seat.old.me.0 seat.new.me.0 result }
    ensures found { once ≡ true →
        IfSome result (λ p. CameTo slots word p.0 steps.old steps.new) }
    ensures cost { once ≡ true → (steps.old < steps.new) × (steps.new ≤ steps.old + slots) }
{
    let mut at = home_of_word(word, slots);
    for n in 0..slots {
        let found = if left {
            try_at(words, seat, word, at as usize, once, steps)
        } else {
            look(words, seat, word, at as usize, steps)
        };
        if found == word {
            return Some((at, false));
        }
        if found == 0 {
            return if left { Some((at, true)) } else { None };
        }
        at = next(at, slots);
    }
    unreachable!()
}
