//! The forms of lines; begin with `Form`, and for a line's form by its words with
//! `forms::entry_of`.

pub(crate) mod forms;
mod latches;
mod rows;
mod uses;

use crate::models::What;
use net_core::Row;
use ste_base::{Items, Name};

/// What is wrong with a faulty line.
#[derive(Drop)]
pub enum LineFault {
    /// It has no form, or stands where it may not.
    Bad,
    /// Its first word, which is this one, begins with a dot and is none that is known.
    Unknown(Name),
    /// It has this word of the lines that are left out.
    LeftOut(Name),
}

/// What the words of a line spell, wherever the line stands.
#[derive(Drop)]
pub enum Form {
    /// A line that is skipped unread.
    Skipped,
    /// A line that starts a model of this name.
    Model(Name),
    /// A line that ends a model.
    End,
    /// A line that is an item by itself.
    Item(What),
    /// A `.names` line: the number of its inputs, the inputs, and the output. Rows may follow it.
    Names(u32, Items<Name>, Name),
    /// A cover row: its literals, and its output character.
    Row(Row, bool),
    /// A line that may stand nowhere.
    Wrong(LineFault),
}

/// A line with its form.
#[derive(Drop)]
pub struct Entry {
    /// The line's number, from 1.
    pub line: u32,
    pub form: Form,
}
