//! Truth tables of covers of at most six inputs, as words of 64 bits: how they are made
//! (`TruthTables::of`), and what they say of some inputs' sets (`settle`, `decided_set`). The
//! recursion over sets is in `by_table.rt`. No table of nodes, nor of a graph's vertices.

ghost use Rattle.std.specs.Prelude.{◌≡◌, ◌≤◌, ◌<◌, ◌+◌, ℕ, Bool, false, true, not, List, IfSome, get_or, length, set};
ghost use Rattle.std.specs.Int.{bit_at};
ghost use Rattle.net_core.specs.Cover.{admits, matches, some_matches};
ghost use Rattle.net_core.specs.Work.{AreWide};
ghost use Rattle.dual_rail.specs.declared.rails.Rails.{Rails};
ghost use Rattle.gate_sets.specs.private.TruthTables.{AreAlike, AreBothDecided, AreSettled, AreTables, IsDecided, in_table};

use crate::words::{Digits, ones, rows_word, zeros};
use dd_nodes::Ref;
use dual_rail::Rails;
use net_core::Row;

/// The most inputs of a cover with tables.
pub const MOST_INPUTS: usize = 6;

/// For a cover of at most six inputs, its tables: the choices of bits for which its gate is 0, and
/// those for which it is 1, a bit of a word for each choice. The digits of a choice to the base 2,
/// from the lowest on, are the inputs' bits, from the first on. Where there are fewer inputs, all
/// choices that differ in other digits alone are treated alike.
#[derive(Clone, Copy, PartialEq, Eq, Drop)]
pub struct TruthTables {
    pub can0: u64,
    pub can1: u64,
}

/// The table of the choices that are in this one with the input at a place 0.
fn with_zero(table: u64, place: usize) -> u64
    requires { place < 6 }
    ensures { (choice : List Bool) → length choice ≤ 6 → place < length choice
        → in_table result choice ≡ in_table table (set choice place false) }
{
    let low = table & zeros(place);
    low | (low << (1u32 << place))
}

/// The table of the choices that are in this one with the input at a place 1.
fn with_one(table: u64, place: usize) -> u64
    requires { place < 6 }
    ensures { (choice : List Bool) → length choice ≤ 6 → place < length choice
        → in_table result choice ≡ in_table table (set choice place true) }
{
    let high = table & ones(place);
    high | (high >> (1u32 << place))
}

/// The tables with the input at a place free, where its set is a constant: of those choices alone
/// that the constant has.
fn constant_at(tables: TruthTables, place: usize, r: Rails) -> Option<TruthTables>
    requires { place < 6 }
    ensures { IfSome result (λ after. AreSettled tables after place r) }
{
    if r.can0 == Ref::FALSE {
        return Some(TruthTables {
            can0: with_one(tables.can0, place),
            can1: with_one(tables.can1, place),
        });
    }
    if r.can1 == Ref::FALSE {
        return Some(TruthTables {
            can0: with_zero(tables.can0, place),
            can1: with_zero(tables.can1, place),
        });
    }
    if r.can0 == Ref::TRUE && r.can1 == Ref::TRUE {
        return Some(TruthTables {
            can0: with_zero(tables.can0, place) | with_one(tables.can0, place),
            can1: with_zero(tables.can1, place) | with_one(tables.can1, place),
        });
    }
    None
}

/// The tables with the input at a place free, where they do not depend on it.
fn unused_at(tables: TruthTables, place: usize) -> Option<TruthTables>
    requires { place < 6 }
    ensures { IfSome result (λ after. (r : Rails) → AreSettled tables after place r) }
{
    let can0 = with_zero(tables.can0, place);
    if can0 != with_one(tables.can0, place) {
        return None;
    }
    let can1 = with_zero(tables.can1, place);
    if can1 != with_one(tables.can1, place) {
        return None;
    }
    Some(TruthTables { can0, can1 })
}

/// Makes the input at a place free where its set is a constant, and gives the tables then.
fn settle_constant(tables: TruthTables, operands: &mut [Rails], place: usize) -> TruthTables
    requires few { length operands.old ≤ 6 }
    requires place { place < length operands.old }
    ensures { AreAlike tables result operands.old operands.new }
{
    let Some(after) = constant_at(tables, place, operands[place]) else {
        return tables;
    };
    operands[place] = Rails {
        can0: Ref::TRUE,
        can1: Ref::TRUE,
    };
    after
}

/// Whether the set has both bits everywhere.
fn is_free(r: Rails) -> bool {
    r.can0 == Ref::TRUE && r.can1 == Ref::TRUE
}

/// Makes the input at a place free where the tables do not depend on it, and gives the tables then.
/// One that is free already is not looked at again.
fn settle_unused(tables: TruthTables, operands: &mut [Rails], place: usize) -> TruthTables
    requires few { length operands.old ≤ 6 }
    requires place { place < length operands.old }
    ensures { AreAlike tables result operands.old operands.new }
{
    if is_free(operands[place]) {
        return tables;
    }
    let Some(after) = unused_at(tables, place) else {
        return tables;
    };
    operands[place] = Rails {
        can0: Ref::TRUE,
        can1: Ref::TRUE,
    };
    after
}

/// Takes out of the tables what the constants among some sets decide: each of them, and then each
/// set that the tables do not depend on any more, becomes that of both bits. Where the sets have
/// bits that are a choice of a table stays the same, if none of them is empty anywhere.
pub fn settle(tables: TruthTables, operands: &mut [Rails]) -> TruthTables
    requires { length operands.old ≤ 6 }
    ensures { AreAlike tables result operands.old operands.new }
{
    let mut now = tables;
    for place in 0..operands.len() {
        now = settle_constant(now, operands, place);
    }
    for place in 0..operands.len() {
        now = settle_unused(now, operands, place);
    }
    now
}

/// Where some sets, none of which is empty anywhere, have bits that are a choice of the table, if
/// no more than one of them decides; else none.
fn decided_rail(table: u64, operands: &[Rails]) -> Option<Ref>
    requires { length operands.now ≤ 6 }
    ensures { IfSome result (λ r. IsDecided table operands.now r) }
{
    if table == 0 {
        return Some(Ref::FALSE);
    }
    if table == u64::MAX {
        return Some(Ref::TRUE);
    }
    for place in 0..operands.len() {
        if table == ones(place) {
            return Some(operands[place].can1);
        }
        if table == zeros(place) {
            return Some(operands[place].can0);
        }
    }
    None
}

/// The same for both tables.
pub fn decided_set(tables: TruthTables, operands: &[Rails]) -> Option<Rails>
    requires { length operands.now ≤ 6 }
    ensures { IfSome result (λ r. AreBothDecided tables operands.now r) }
{
    let can0 = decided_rail(tables.can0, operands)?;
    let can1 = decided_rail(tables.can1, operands)?;
    Some(Rails { can0, can1 })
}

impl TruthTables {
    /// The tables of a cover with so many inputs, by the rows that match where it is 1, and where
    /// it is 0. Where there are more than six inputs they say nothing.
    pub fn of(width: u32, on: &[Row], off: &[Row]) -> TruthTables
        requires on { AreWide on.now width }
        requires off { AreWide off.now width }
        ensures { width ≤ 6 → AreTables on.now off.now width result }
    {
        if width as usize > MOST_INPUTS {
            return TruthTables { can0: 0, can1: 0 };
        }
        TruthTables {
            can0: rows_word(Digits::Bits, off),
            can1: rows_word(Digits::Bits, on),
        }
    }
}
