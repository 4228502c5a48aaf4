//! What is made once of all covers of a net; begin with `GateRows`. Of each cover it has both lists
//! of rows (`RowList`), the words of constants (`choices.rt`) and the truth tables
//! (`truth_table.rt`); covers that are the same share them.

ghost use Rattle.std.specs.Prelude.{◌≡◌, ◌≤◌, ◌<◌, map, All, IfOk, IsTrue, length};
ghost use Rattle.std.proofs.Props.{props};
ghost use Rattle.net_core.specs.Cases.{cases_of};
ghost use Rattle.net_core.specs.Cover.{IsCover};
ghost use Rattle.net_core.specs.Work.{AreWide};
ghost use Rattle.gate_sets.specs.Lists.{rows_of};
ghost use Rattle.gate_sets.specs.private.Choices.{AreTold};
ghost use Rattle.gate_sets.specs.private.Numbers.{kind_at};
ghost use Rattle.gate_sets.specs.private.TruthTables.{HaveTables};

use crate::choices::Choices;
use crate::row_list::RowList;
use crate::truth_table::TruthTables;
use net_core::{Cover, Lit, Net, Row, other_rows};
use std::alloc::{AllocError, Global};
use std::marker::Model;
use ste_base::Items;

/// Both lists of rows of a cover: the rows that match where its bit is 1, and those that match
/// where it is 0.
#[derive(Drop)]
pub struct CoverRows {
    pub on: RowList,
    pub off: RowList,
}

/// Both lists of rows of a cover, the set of its gate for each choice of constants, and its tables.
/// Contracts see the lists.
#[derive(Drop)]
struct Kind {
    rows: CoverRows,
    choices: Choices,
    tables: TruthTables,
    ghost tabled: { HaveTables rows tables } by { Prim.hlevel props },
    ghost told: { AreTold rows choices } by { Prim.hlevel props },
}

impl Model for Kind {
    ghost use Rattle.gate_sets.specs.declared.rows.CoverRows.{CoverRows};

    ghost Value = { CoverRows };

    ghost view = { λ k. k.rows };
}

impl Kind {
    /// The lists. It takes no memory.
    fn rows(&self) -> &CoverRows
        ensures { result.now ≡ self.now }
    {
        &self.rows
    }

    /// The set of a gate for each choice of constants.
    fn choices(&self) -> Choices
        ensures { AreTold self.now result }
    {
        self.choices
    }

    /// The tables of both lists.
    fn tables(&self) -> TruthTables
        ensures { HaveTables self.now result }
    {
        self.tables
    }
}

/// Both lists of rows of every cover of a net, by the cover's number. The rows that a cover leaves
/// out are found once, and all gates of the cover share them, as do covers that are the same,
/// mostly: a netlist from a tool has a cover for each of its gates. Contracts see both lists of
/// each cover.
#[derive(Drop)]
pub struct GateRows {
    kinds: Items<Kind>,
    numbers: Items<usize>,
    ghost inside: { All (λ k. k < length kinds) numbers },
}

impl Model for GateRows {
    ghost use Rattle.std.specs.Prelude.{map};
    ghost use Rattle.gate_sets.specs.Lists.{CoverLists};
    ghost use Rattle.gate_sets.specs.private.Numbers.{kind_at};

    ghost Value = { CoverLists };

    ghost view = { λ r. record { covers = map (kind_at r.kinds) r.numbers } };
}

/// So many places for covers that were met.
const PLACES: usize = 251;

/// How many rows of a cover, and literals of a row, its place depends on.
const TOLD_BY: usize = 8;

/// Both lists of rows over so many inputs, with the set of a gate for each choice of constants, and
/// the tables.
fn kind_of(alloc: Global, width: u32, on: &[Row], off: &[Row]) -> Result<Kind, AllocError>
    requires width { width ≤ 1000 }
    requires on { AreWide on.now width }
    requires off { AreWide off.now width }
    ensures { IfOk result (λ kind. kind ≡ record {
      on = record { width = width; list = on.now };
      off = record { width = width; list = off.now };
    }) }
{
    let choices = Choices::of(width, on, off);
    let tables = TruthTables::of(width, on, off);
    let on = RowList::of(alloc, width, on)?;
    let off = RowList::of(alloc, width, off)?;
    let rows = CoverRows { on, off };
    Ok(Kind {
        rows,
        choices,
        tables,
    })
}

/// Both lists of rows of one cover.
fn cover_rows(alloc: Global, cover: &Cover) -> Result<Kind, AllocError>
    requires sound { IsCover cover.now }
    requires inputs { cover.now.inputs ≤ 1000 }
    requires cases { cases_of cover.now.inputs cover.now.rows ≤ 65536 }
    ensures { IfOk result (λ rows. rows ≡ rows_of cover.now) }
{
    let others = other_rows(alloc, cover)?;
    let own = cover.rows.as_slice();
    if cover.on {
        kind_of(alloc, cover.inputs, own, others.as_slice())
    } else {
        kind_of(alloc, cover.inputs, others.as_slice(), own)
    }
}

/// The number of a literal.
fn number_of(lit: Lit) -> u32 {
    match lit {
        Lit::Zero => 1,
        Lit::One => 2,
        Lit::Any => 3,
    }
}

/// A sum that goes on with the first literals of a row.
fn row_sum(sum: u32, row: &[Lit]) -> u32 {
    let mut sum = sum.wrapping_mul(31);
    for k in 0..row.len().min(TOLD_BY) {
        sum = sum.wrapping_mul(5).wrapping_add(number_of(row[k]));
    }
    sum
}

/// The place of a cover among those that were met: one place for covers that are the same.
fn place_of(cover: &Cover) -> usize
    ensures { result < 251 }
{
    let rows = cover.rows.as_slice();
    let mut sum = cover.inputs.wrapping_mul(2).wrapping_add(cover.on as u32);
    for k in 0..rows.len().min(TOLD_BY) {
        sum = row_sum(sum, rows[k].as_slice());
    }
    (sum % 251) as usize
}

/// Whether both rows have the same literals.
fn same_row(a: &[Lit], b: &[Lit]) -> bool
    ensures { IsTrue result → a.now ≡ b.now }
{
    if a.len() != b.len() {
        return false;
    }
    for k in 0..a.len() {
        if a[k] != b[k] {
            return false;
        }
    }
    true
}

/// Whether both lists have the same rows.
fn same_rows(a: &[Row], b: &[Row]) -> bool
    ensures { IsTrue result → a.now ≡ b.now }
{
    if a.len() != b.len() {
        return false;
    }
    for k in 0..a.len() {
        if !same_row(a[k].as_slice(), b[k].as_slice()) {
            return false;
        }
    }
    true
}

/// Whether both covers are the same.
fn same_cover(a: &Cover, b: &Cover) -> bool
    ensures { IsTrue result → a.now ≡ b.now }
{
    a.inputs == b.inputs && a.on == b.on && same_rows(a.rows.as_slice(), b.rows.as_slice())
}

impl GateRows {
    /// Both lists of rows of a cover, by its number. It takes no memory.
    pub fn lists(&self, cover: usize) -> &CoverRows
        requires { cover < length self.now.covers }
        ensures { result.now ≡ kind_at self.now.covers cover }
    {
        self.kinds.as_slice()[self.numbers.as_slice()[cover]].rows()
    }

    /// The set of a gate of a cover, by its number, for each choice of constants. It takes no
    /// memory.
    pub(crate) fn choices(&self, cover: usize) -> Choices
        requires { cover < length self.now.covers }
        ensures { AreTold (kind_at self.now.covers cover) result }
    {
        self.kinds.as_slice()[self.numbers.as_slice()[cover]].choices()
    }

    /// The tables of both lists of a cover, by its number. It takes no memory.
    pub(crate) fn tables(&self, cover: usize) -> TruthTables
        requires { cover < length self.now.covers }
        ensures { HaveTables (kind_at self.now.covers cover) result }
    {
        self.kinds.as_slice()[self.numbers.as_slice()[cover]].tables()
    }

    /// Both lists of rows of every cover of the net.
    pub fn of(alloc: Global, net: &Net) -> Result<GateRows, AllocError>
        requires inputs { All (λ cover. cover.inputs ≤ 1000) net.now.raw.covers }
        requires cases { All (λ cover. cases_of cover.inputs cover.rows ≤ 65536)
            net.now.raw.covers }
        ensures { IfOk result (λ rows. rows.covers ≡ map rows_of net.now.raw.covers) }
    {
        let covers = net.covers();
        let mut kinds = Items::new(alloc);
        let mut numbers = Vec::with_capacity(alloc, covers.len())?;
        let mut met = vec![in alloc; 0usize; PLACES]?;
        for k in 0..covers.len() {
            let cover = &covers[k];
            let place = place_of(cover);
            let before = met[place];
            met[place] = k;
            if before < k && same_cover(&covers[before], cover) {
                let number = numbers[before];
                numbers.push(number)?;
            } else {
                numbers.push(kinds.len())?;
                kinds.push(cover_rows(alloc, cover)?)?;
            }
        }
        Ok(GateRows {
            kinds,
            numbers: Items::from(numbers),
        })
    }
}
