//! Pieces of lists of rows; begin with `Piece`.

use net_core::Lit;

/// A piece of a list of rows: the next literal of a row, or the end of a row, behind which only `-`
/// stand in it, with the number of its first literals with which the next row begins.
#[derive(Clone, Copy, PartialEq, Eq, Drop)]
pub enum Piece {
    Put(Lit),
    Close(u16),
}
