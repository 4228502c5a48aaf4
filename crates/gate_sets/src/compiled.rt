//! A net with the rows of its covers; begin with `Compiled`.

ghost use Rattle.std.specs.Prelude.{◌≡◌, ◌<◌, Some, length, slice_get};
ghost use Rattle.net_core.specs.declared.cover.Cover.{Cover as ACover};
ghost use Rattle.net_core.specs.Source.{source_of};
ghost use Rattle.gate_sets.specs.Lists.{rows_of};
ghost use Rattle.gate_sets.specs.private.Choices.{AreTold};
ghost use Rattle.gate_sets.specs.private.TruthTables.{HaveTables};

use crate::choices::Choices;
use crate::rows::{CoverRows, GateRows};
use crate::truth_table::TruthTables;
use net_core::{Cover, Gate, Latch, Net, Source};
use std::marker::Model;
use ste_base::NodeId;

/// A net with the rows of its covers. Contracts see the net.
#[derive(Drop)]
pub struct Compiled<'a> {
    pub net: &'a Net,
    pub rows: &'a GateRows,
}

impl<'a> Model for Compiled<'a> {
    ghost use Rattle.std.specs.Prelude.{◌≡◌, map};
    ghost use Rattle.net_core.specs.declared.net.Net.{Net};
    ghost use Rattle.gate_sets.specs.Lists.{rows_of};

    ghost Value = { Net };

    ghost view = { λ c. c.net.now };

    ghost invariant = { λ c. c.rows.now.covers ≡ map rows_of c.net.now.raw.covers };
}

impl<'a> Compiled<'a> {
    /// The number of nets. Like all that follow it takes no memory.
    pub fn nets(&self) -> u32
        ensures { result ≡ self.now.raw.nets }
    {
        self.net.nets()
    }

    /// The gates of the net.
    pub fn gates(&self) -> &[Gate]
        ensures { result.now ≡ self.now.raw.gates }
    {
        self.net.gates()
    }

    /// The latches of the net.
    pub fn latches(&self) -> &[Latch]
        ensures { result.now ≡ self.now.raw.latches }
    {
        self.net.latches()
    }

    /// What drives a net.
    pub fn source(&self, node: NodeId) -> Source
        requires { node.0 < self.now.raw.nets }
        ensures { result ≡ source_of self.now.raw node.0 }
    {
        self.net.source(node)
    }

    /// A cover, by its number.
    pub(crate) fn cover(&self, number: usize) -> &Cover
        requires { number < length self.now.raw.covers }
        ensures { slice_get self.now.raw.covers number ≡ Some result.now }
    {
        &self.net.covers()[number]
    }

    /// Both lists of rows of a cover, by its number.
    pub(crate) fn lists(&self, number: usize) -> &CoverRows
        requires { number < length self.now.raw.covers }
        ensures { (cover : ACover) → slice_get self.now.raw.covers number ≡ Some cover
            → result.now ≡ rows_of cover }
    {
        self.rows.lists(number)
    }

    /// The tables of both lists of a cover, by its number.
    pub(crate) fn tables(&self, number: usize) -> TruthTables
        requires { number < length self.now.raw.covers }
        ensures { (cover : ACover) → slice_get self.now.raw.covers number ≡ Some cover
            → HaveTables (rows_of cover) result }
    {
        self.rows.tables(number)
    }

    /// The set of a gate of a cover, by its number, for each choice of constants.
    pub(crate) fn choices(&self, number: usize) -> Choices
        requires { number < length self.now.raw.covers }
        ensures { (cover : ACover) → slice_get self.now.raw.covers number ≡ Some cover
            → AreTold (rows_of cover) result }
    {
        self.rows.choices(number)
    }
}
