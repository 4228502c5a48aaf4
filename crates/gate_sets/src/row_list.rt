//! Lists of rows, each by what it shares with the row before; begin with `RowList`.

ghost use Rattle.std.specs.Prelude.{◌≡◌, ◌↔◌, ◌≤◌, ◌<◌, ◌++◌, ◌∷◌, [], ℕ, true, false, List, length, take, IfOk, OnOk, IsTrue, slice_index_or};
ghost use Rattle.net_core.specs.declared.cover.Lit.{Lit};
ghost use Rattle.net_core.specs.declared.cover.Lit.TheVariants.{Any};
ghost use Rattle.net_core.specs.Work.{AreWide};
ghost use Rattle.gate_sets.specs.declared.piece.Piece.{Piece};
ghost use Rattle.gate_sets.specs.private.Pieces.{rows_from, are_sound, LeadTo};

use crate::piece::Piece;
use net_core::{Lit, Row};
use std::alloc::{AllocError, Global};
use std::marker::Model;
use ste_base::Items;

/// A list of rows over so many inputs. Contracts see the rows; what is stored of a row is its
/// literals behind those that it shares with the row before, up to the last one that is no `-`: 4
/// bytes for each such literal and 4 for the row.
#[derive(Drop)]
pub struct RowList {
    width: u32,
    pieces: Items<Piece>,
    ghost sound: { IsTrue (are_sound width 0 false pieces) },
}

impl Model for RowList {
    ghost use Rattle.std.specs.Prelude.{[]};
    ghost use Rattle.gate_sets.specs.Rows.{Rows};
    ghost use Rattle.gate_sets.specs.private.Pieces.{rows_from};

    ghost Value = { Rows };

    ghost view = { λ r. record { width = r.width; list = rows_from r.width [] r.pieces } };
}

/// The number of first literals, at most `most`, that both rows share.
fn shared_width(a: &[Lit], b: &[Lit], most: usize) -> usize
    requires left { most ≤ length a.now }
    requires right { most ≤ length b.now }
    ensures within { result ≤ most }
    ensures same { take result a.now ≡ take result b.now }
{
    for k in 0..most {
        if a[k] != b[k] {
            return k;
        }
    }
    most
}

/// The number of literals up to the last one that is no `-`.
fn width_without_any(row: &[Lit]) -> usize
    ensures within { result ≤ length row.now }
    ensures blank { (k : ℕ) → result ≤ k → slice_index_or row.now k Any ≡ Any }
{
    let mut end = row.len();
    while end > 0 && row[end - 1] == Lit::Any {
        end -= 1;
    }
    end
}

/// Adds the literals of a row from `from` up to `to`.
fn put_all(pieces: &mut Items<Piece>, row: &[Lit], from: usize, to: usize) -> Result<(), AllocError>
    requires from { from ≤ to }
    requires to { to ≤ length row.now }
    ensures { (width : ℕ) (done : List (List Lit)) → length row.now ≡ width
        → LeadTo width pieces.old done (take from row.now) true
        → OnOk result (LeadTo width pieces.new done (take to row.now) true) }
{
    for k in from..to {
        pieces.push(Piece::Put(row[k]))?;
    }
    Ok(())
}

/// Adds a row that begins with `from` literals of the row before, and gives the number of literals
/// with which the next one begins.
fn add_row(
    pieces: &mut Items<Piece>,
    row: &[Lit],
    from: usize,
    next: &[Lit],
) -> Result<usize, AllocError>
    requires from { from ≤ length row.now }
    requires long { length next.now ≡ length row.now }
    requires short { length row.now ≤ 1000 }
    ensures within { IfOk result (λ kept. kept ≤ length row.now) }
    ensures added { (width : ℕ) (done : List (List Lit)) → length row.now ≡ width
        → LeadTo width pieces.old done (take from row.now) false
        → IfOk result (λ kept.
        LeadTo width pieces.new (done ++ row.now ∷ []) (take kept next.now) false) }
{
    let end = width_without_any(row).max(from);
    put_all(pieces, row, from, end)?;
    let kept = shared_width(row, next, end);
    pieces.push(Piece::Close(kept as u16))?;
    Ok(kept)
}

impl RowList {
    /// The pieces. It takes no memory.
    pub fn pieces(&self) -> &[Piece]
        ensures rows { rows_from self.now.width [] result.now ≡ self.now.list }
        ensures sound { IsTrue (are_sound self.now.width 0 false result.now) }
    {
        self.pieces.as_slice()
    }

    /// The number of pieces; 0 exactly where there is no row. It takes no memory.
    pub fn size(&self) -> usize
        ensures { (result ≡ 0) ↔ (self.now.list ≡ []) }
    {
        self.pieces().len()
    }

    /// The list of these rows, each with a literal for each of `width` inputs.
    pub fn of(alloc: Global, width: u32, rows: &[Row]) -> Result<RowList, AllocError>
        requires width { width ≤ 1000 }
        requires wide { AreWide rows.now width }
        ensures { IfOk result (λ list. list ≡ record { width = width; list = rows.now }) }
    {
        let mut pieces = Items::new(alloc);
        let mut kept = 0;
        for k in 0..rows.len() {
            let next = if k + 1 < rows.len() { k + 1 } else { k };
            kept = add_row(&mut pieces, rows[k].as_slice(), kept, rows[next].as_slice())?;
        }
        Ok(RowList { width, pieces })
    }
}
