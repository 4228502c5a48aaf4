//! What single lines of a text say; begin with `Entry`.

use crate::aig::{Kind, Symbol};
use net_core::Init;
use ste_base::Name;

/// The numbers of a header `aag M I L O A`: the greatest variable, and how many inputs, latches,
/// outputs and ANDs there are. Each is at most 2,147,483,647.
#[derive(Clone, Copy, PartialEq, Eq)]
pub struct Head {
    pub most: u32,
    pub inputs: u32,
    pub latches: u32,
    pub outputs: u32,
    pub ands: u32,
}

/// What the first line says.
#[derive(Drop)]
pub enum Header {
    /// The numbers of a header.
    Good(Head),
    /// A further number, as it is written, which is not 0.
    LeftOut(Name),
    /// Nothing: it is no header.
    Bad,
}

/// The literals of a line, of which there are one to three.
#[derive(Clone, Copy, PartialEq, Eq)]
pub enum Literals {
    One(u32),
    Two(u32, u32),
    Three(u32, u32, u32),
    /// No words, more than three, or one that is no literal.
    Other,
}

/// What a later line says, by its place.
#[derive(Drop)]
pub enum Said {
    /// The variable of an input.
    Input(u32),
    /// The variable of a latch, its next literal, and its initial value.
    Latch(u32, u32, Init),
    /// The literal of an output.
    Output(u32),
    /// The variable of an AND, and its two literals.
    And(u32, u32, u32),
    /// A symbol, and what it names.
    Symbol(Kind, Symbol),
    /// That what is read ends before this line.
    End,
    /// Nothing: the line has not the form that its place asks for.
    Wrong,
}

/// What a line says, with its number, from 1.
#[derive(Drop)]
pub struct Entry {
    pub line: u32,
    pub said: Said,
}
