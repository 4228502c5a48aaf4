//! The single steps on the table, each one compare-exchange or one load of one word, and two of
//! them in a row. Begin with `try_word`.

ghost use Rattle.std.specs.Prelude.{◌≡◌, ◌≢◌, ℕ, ◌<◌, ◌≤◌, ◌+◌, ◌/◌, [], length, true};
ghost use Rattle.std.specs.FinMap.{get};
ghost use Rattle.dd_nodes.specs.declared.node.Node.{Node};
ghost use Rattle.dd_table.specs.Layout.{most_slots};
ghost use Rattle.dd_table.specs.Views.{giving_view, given_view, joined_view, union};
ghost use Rattle.dd_table.specs.Tells.{MayMake, ComesNext, TryTells, LookTells, ReadTells};
ghost use Rattle.dd_table.specs.Tells.{IsSound, HoldsNothing, IsHeldByOne};

use crate::rule::{GivesQuota, Looks, NodeTable, Quota, Reads, Sizes, Sought, TakesIn, Tries};
use crate::views::View;
use atomic_table::{Seat, Shared};
use dd_nodes::Steps;
use std::marker::Brand;
use std::sync::ledger::Ledger;

/// The words of a table.
pub(crate) type TableWords = Shared<(), View, Sizes, NodeTable>;

/// A seat of a table.
pub(crate) type TableSeat = Seat<(), View>;

/// A compare-exchange from 0 to the word, at the next slot on its walk, as one counted step. It
/// gives the word that was there.
fn try_word<L: Ledger>(
    words: &TableWords,
    seat: &mut TableSeat,
    word: u64,
    slot: usize,
    steps: &mut Steps<L>,
) -> u64
    requires table { seat.old.table_id ≡ words.now.table_id }
    requires size { seat.old.me.0.slots ≡ words.now.table_id.words }
    requires live { 0 < seat.old.me.0.slots }
    requires may { MayMake seat.old.me.0 word }
    requires left { length seat.old.me.0.made < seat.old.me.0.limit }
    requires next { ComesNext seat.old.me.0 word slot }
    ensures table { seat.new.table_id ≡ seat.old.table_id }
    ensures told { TryTells slot word seat.old.me result seat.new.me }
    ensures count { steps.new ≡ steps.old + 1 }
{
    steps.tick();
    words.compare_exchange::<Tries>(seat, slot, 0, word)
}

/// A load at the next slot on the walk of the word that is named, as one counted step.
fn look_for<W: Sought, L: Ledger>(
    words: &TableWords,
    seat: &mut TableSeat,
    word: u64,
    slot: usize,
    steps: &mut Steps<L>,
) -> u64
    requires named { word ≡ W.word }
    requires table { seat.old.table_id ≡ words.now.table_id }
    requires size { seat.old.me.0.slots ≡ words.now.table_id.words }
    requires live { 0 < seat.old.me.0.slots }
    requires may { MayMake seat.old.me.0 word }
    requires next { ComesNext seat.old.me.0 word slot }
    ensures table { seat.new.table_id ≡ seat.old.table_id }
    ensures told { LookTells slot word seat.old.me result seat.new.me }
    ensures count { steps.new ≡ steps.old + 1 }
{
    let _ = word;
    steps.tick();
    words.load::<Looks<W>>(seat, slot)
}

/// A load at the next slot on the walk of the word, as one counted step.
pub(crate) fn look<L: Ledger>(
    words: &TableWords,
    seat: &mut TableSeat,
    word: u64,
    slot: usize,
    steps: &mut Steps<L>,
) -> u64
    requires table { seat.old.table_id ≡ words.now.table_id }
    requires size { seat.old.me.0.slots ≡ words.now.table_id.words }
    requires live { 0 < seat.old.me.0.slots }
    requires may { MayMake seat.old.me.0 word }
    requires next { ComesNext seat.old.me.0 word slot }
    ensures table { seat.new.table_id ≡ seat.old.table_id }
    ensures told { LookTells slot word seat.old.me result seat.new.me }
    ensures count { steps.new ≡ steps.old + 1 }
{
    look_for::<Brand, L>(words, seat, word, slot, steps)
}

/// A load at the next slot on the walk of the word, and only where the slot is empty a
/// compare-exchange from 0 to the word. It gives the word that was there. A word that stands in the
/// table already is found without a compare-exchange, which takes several times as long as a load.
fn look_and_try<L: Ledger>(
    words: &TableWords,
    seat: &mut TableSeat,
    word: u64,
    slot: usize,
    steps: &mut Steps<L>,
) -> u64
    requires table { seat.old.table_id ≡ words.now.table_id }
    requires size { seat.old.me.0.slots ≡ words.now.table_id.words }
    requires live { 0 < seat.old.me.0.slots }
    requires may { MayMake seat.old.me.0 word }
    requires left { length seat.old.me.0.made < seat.old.me.0.limit }
    requires next { ComesNext seat.old.me.0 word slot }
    ensures table { seat.new.table_id ≡ seat.old.table_id }
    ensures told { TryTells slot word seat.old.me result seat.new.me }
{
    let seen = look(words, seat, word, slot, steps);
    if seen != 0 {
        return seen;
    }
    try_word(words, seat, word, slot, steps)
}

/// Writes the word to the next slot on its walk, where this is empty, by a compare-exchange alone
/// where `once` says so, and else behind a load. It gives the word that was there.
pub(crate) fn try_at<L: Ledger>(
    words: &TableWords,
    seat: &mut TableSeat,
    word: u64,
    slot: usize,
    once: bool,
    steps: &mut Steps<L>,
) -> u64
    requires table { seat.old.table_id ≡ words.now.table_id }
    requires size { seat.old.me.0.slots ≡ words.now.table_id.words }
    requires live { 0 < seat.old.me.0.slots }
    requires may { MayMake seat.old.me.0 word }
    requires left { length seat.old.me.0.made < seat.old.me.0.limit }
    requires next { ComesNext seat.old.me.0 word slot }
    ensures table { seat.new.table_id ≡ seat.old.table_id }
    ensures told { TryTells slot word seat.old.me result seat.new.me }
    ensures count { once ≡ true → steps.new ≡ steps.old + 1 }
{
    if once {
        try_word(words, seat, word, slot, steps)
    } else {
        look_and_try(words, seat, word, slot, steps)
    }
}

/// A load of any slot, which shows what the rules say of the seat's view.
fn read_any(words: &TableWords, seat: &mut TableSeat, slot: usize) -> u64
    requires table { seat.old.table_id ≡ words.now.table_id }
    requires slot { slot < words.now.table_id.words }
    requires live { 0 < seat.old.me.0.slots }
    ensures table { seat.new.table_id ≡ seat.old.table_id }
    ensures told { ReadTells slot seat.old.me result seat.new.me }
{
    words.load::<Reads>(seat, slot)
}

/// A load of a slot that is held.
pub(crate) fn read(words: &TableWords, seat: &mut TableSeat, slot: usize) -> u64
    requires table { seat.old.table_id ≡ words.now.table_id }
    requires slot { slot < words.now.table_id.words }
    requires live { 0 < seat.old.me.0.slots }
    requires held { (n : Node) × (get seat.old.me.0.held (slot + 2) ≡ Some n) }
    ensures table { seat.new.table_id ≡ seat.old.table_id }
    ensures told { ReadTells slot seat.old.me result seat.new.me }
{
    read_any(words, seat, slot)
}

/// A new seat, which gets the steps that are named.
fn split_by<Q: Quota>(words: &TableWords, seat: &mut TableSeat, quota: u32) -> TableSeat
    requires named { quota ≡ Q.quota }
    requires table { seat.old.table_id ≡ words.now.table_id }
    requires words { 0 < words.now.table_id.words }
    requires live { 0 < seat.old.me.0.slots }
    requires left { quota + length seat.old.me.0.made ≤ seat.old.me.0.limit }
    ensures table { seat.new.table_id ≡ seat.old.table_id }
    ensures old { seat.new.me ≡ (giving_view quota seat.old.me.0, seat.old.me.1) }
    ensures at { result.table_id ≡ seat.old.table_id }
    ensures new { result.me ≡ (given_view quota seat.old.me.0, []) }
{
    let _ = quota;
    words.split_seat::<GivesQuota<Q>>(seat)
}

/// A new seat that holds what this one holds, and gets `quota` of its steps.
pub(crate) fn split(words: &TableWords, seat: &mut TableSeat, quota: u32) -> TableSeat
    requires table { seat.old.table_id ≡ words.now.table_id }
    requires words { 0 < words.now.table_id.words }
    requires live { 0 < seat.old.me.0.slots }
    requires left { quota + length seat.old.me.0.made ≤ seat.old.me.0.limit }
    ensures table { seat.new.table_id ≡ seat.old.table_id }
    ensures old { seat.new.me ≡ (giving_view quota seat.old.me.0, seat.old.me.1) }
    ensures at { result.table_id ≡ seat.old.table_id }
    ensures new { result.me ≡ (given_view quota seat.old.me.0, []) }
{
    split_by::<Brand>(words, seat, quota)
}

/// Takes in another seat. What the other held is known from a later load alone.
fn join(words: &TableWords, seat: &mut TableSeat, other: TableSeat)
    requires table { seat.old.table_id ≡ words.now.table_id }
    requires other { other.table_id ≡ words.now.table_id }
    requires words { 0 < words.now.table_id.words }
    requires live { 0 < seat.old.me.0.slots }
    requires empty { other.me.1 ≡ [] }
    ensures table { seat.new.table_id ≡ seat.old.table_id }
    ensures both { seat.new.me ≡ (joined_view seat.old.me.0 other.me.0, seat.old.me.1) }
{
    words.join_seat::<TakesIn>(seat, other);
}

/// Takes in another seat, and loads the slot of a node that one of them holds: `some` is its
/// reference, or 0 where both hold nothing. The load shows that the union holds no node twice, and
/// that the other's entries stand.
pub(crate) fn unite(words: &TableWords, seat: &mut TableSeat, other: TableSeat, some: u32)
    requires table { seat.old.table_id ≡ words.now.table_id }
    requires other { other.table_id ≡ words.now.table_id }
    requires size { words.now.table_id.words ≡ seat.old.me.0.slots }
    requires live { 0 < seat.old.me.0.slots }
    requires empty { other.me.1 ≡ [] }
    requires sound { IsSound seat.old.me.0 × IsSound other.me.0 }
    requires bare { some ≡ 0 → HoldsNothing seat.old.me.0 × HoldsNothing other.me.0 }
    requires some { some ≢ 0 → IsHeldByOne seat.old.me.0 other.me.0 some }
    ensures table { seat.new.table_id ≡ seat.old.table_id }
    ensures both { seat.new.me ≡ (joined_view seat.old.me.0 other.me.0, seat.old.me.1) }
    ensures sound { IsSound seat.new.me.0 }
{
    join(words, seat, other);
    if some != 0 {
        read(words, seat, some as usize - 2);
    }
}

/// Adds two limits, which together are that of the seat. Where they were too many for the type, a
/// load would show that they are not; so no load is ever made here.
pub(crate) fn add_limits(words: &TableWords, seat: &mut TableSeat, one: u32, two: u32) -> u32
    requires table { seat.old.table_id ≡ words.now.table_id }
    requires size { words.now.table_id.words ≡ seat.old.me.0.slots }
    requires live { (0 < seat.old.me.0.slots) × (seat.old.me.0.slots ≤ most_slots) }
    requires both { seat.old.me.0.limit ≡ one + two }
    ensures sum { result ≡ one + two }
    ensures table { seat.new.table_id ≡ seat.old.table_id }
    ensures same { seat.new.me ≡ seat.old.me }
{
    match one.checked_add(two) {
        Some(sum) => sum,
        None => {
            read_any(words, seat, 0);
            unreachable!()
        }
    }
}
