//! What one gate gives, under all assignments at once: the set of its output, from the sets of its
//! inputs. `gate_set` finds it, and `constant_set` is the way that is tried before all others;
//! which ways there are, and which is taken, stands above `cover_set` in `ways.rt`. `GateRows` has
//! what is made once of all covers of a net, and `Compiled` is a net with it. The gates of a net,
//! one after another, and the cuts of their outputs are in `sym_step`.
#![tactic(auto)]

mod by_halves;
pub mod by_table;
pub mod choices;
pub mod compiled;
pub mod filling;
pub mod flagged;
pub mod gate_memo;
mod gates;
pub mod net_rails;
mod one_row;
pub mod piece;
pub mod row_list;
pub mod rows;
mod sums;
pub mod truth_table;
pub mod ways;
pub mod words;

pub use by_table::Scratch;
pub use compiled::Compiled;
pub use filling::{Filling, filling_of};
pub use flagged::{FlaggedRails, is_clear, is_constant, is_free};
pub use net_rails::NetRails;
pub use piece::Piece;
pub use row_list::RowList;
pub use rows::{CoverRows, GateRows};
pub use ways::{constant_set, gate_set};
