//! What a netlist says; begin with `Models`.

ghost use Rattle.std.specs.Prelude.{◌<◌, length};

use net_core::{Cover, Init};
use ste_base::{Items, Name};

/// When a latch takes a step, as its line says: it has no type, or the type `re` or `fe`.
#[derive(Clone, Copy, PartialEq, Eq)]
pub enum LatchKind {
    Plain,
    Rising,
    Falling,
}

/// What a line of a model says.
#[derive(Drop)]
pub enum What {
    /// The words of an `.inputs` line, in order.
    Inputs(Items<Name>),
    /// The words of an `.outputs` line, in order.
    Outputs(Items<Name>),
    /// The words of a `.clock` line, in order.
    Clock(Items<Name>),
    /// A `.names` line with the rows that follow it: one input for each input position of the
    /// cover.
    Names {
        inputs: Items<Name>,
        output: Name,
        cover: Cover,
    },
    /// A `.latch` line. `control` is None where there is none, or it is `NIL`. Without an initial
    /// value `init` is free.
    Latch {
        input: Name,
        output: Name,
        kind: LatchKind,
        control: Option<Name>,
        init: Init,
    },
    /// A `.subckt` line: the name of the model that is used, and each formal with its actual, in
    /// order.
    Subckt {
        model: Name,
        formals: Items<(Name, Name)>,
    },
}

/// What a line says, with the line's number, from 1.
#[derive(Drop)]
pub struct Item {
    pub line: u32,
    pub what: What,
}

/// A model: the number of its `.model` line, its name, which may be empty, and its items in order.
#[derive(Drop)]
pub struct Model {
    pub line: u32,
    pub name: Name,
    pub items: Items<Item>,
}

/// The models of a netlist, in order. There is at least one, and the first is the top.
#[derive(Drop)]
pub struct Models {
    pub models: Items<Model>,
    ghost some: { 0 < length models },
}
