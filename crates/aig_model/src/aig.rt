//! What an ASCII AIGER text says, as numbers; begin with `Aig`.

use net_core::Init;
use ste_base::{Items, Name};

/// A latch: the number of its line, its variable, the literal whose bit it takes, and its initial
/// value.
#[derive(Clone, Copy, PartialEq, Eq)]
pub struct AigLatch {
    pub line: u32,
    pub var: u32,
    pub next: u32,
    pub init: Init,
}

/// An output: the number of its line, and its literal.
#[derive(Clone, Copy, PartialEq, Eq)]
pub struct AigOutput {
    pub line: u32,
    pub literal: u32,
}

/// An AND: the number of its line, its variable, and its two literals.
#[derive(Clone, Copy, PartialEq, Eq)]
pub struct AigAnd {
    pub line: u32,
    pub var: u32,
    pub left: u32,
    pub right: u32,
}

/// What a symbol names.
#[derive(Clone, Copy, PartialEq, Eq)]
pub enum Kind {
    Input,
    Latch,
    Output,
}

/// A symbol: the number of what it names among its kind, from 0, and the name.
#[derive(Drop)]
pub struct Symbol {
    pub number: u32,
    pub name: Name,
}

/// All that a text says, each list in the order of lines: the variables of the inputs, the latches,
/// the outputs, the ANDs, and the symbols of each kind. The literal 2k has the bit of the variable
/// k, and 2k + 1 the opposite.
#[derive(Drop)]
pub struct Aig {
    pub inputs: Items<u32>,
    pub latches: Items<AigLatch>,
    pub outputs: Items<AigOutput>,
    pub ands: Items<AigAnd>,
    pub input_symbols: Items<Symbol>,
    pub latch_symbols: Items<Symbol>,
    pub output_symbols: Items<Symbol>,
}
