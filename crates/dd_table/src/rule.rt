//! The rules of the table as `atomic_table` asks for them, and the kinds of step. Begin with
//! `NodeTable`.

ghost use Rattle.std.specs.Prelude.{ℕ};

use crate::views::View;
use atomic_table::{Join, Play, Split, TableRule};
use std::marker::{Brand, PhantomData};

/// What the table is given when it is made: the numbers of variables and of slots.
#[derive(Drop)]
pub struct Sizes {
    /// The number of variables.
    pub vars: u64,
    /// The number of slots.
    pub slots: u64,
}

/// The rules of a table of nodes.
pub struct NodeTable;

impl TableRule<(), View, Sizes> for NodeTable {
    ghost use Rattle.dd_table.specs.Rules.{RulesHold};
    ghost use Rattle.dd_table.specs.Views.{first_view};

    ghost holds = { RulesHold };

    ghost first = { first_view };
}

/// A compare-exchange from 0 to a word.
pub struct Tries;

impl Play<(), View> for Tries {
    ghost use Rattle.dd_table.specs.Tells.{TryTells};

    ghost then = { λ st. TryTells st.word st.second };
}

/// Names the word that a search by loads is for.
pub trait Sought {
    ghost word: { ℕ };
}

impl Sought for Brand {
    ghost word = { 0 };
}

/// A load in a search for a word.
pub struct Looks<W> {
    marker: PhantomData<W>,
}

impl<W: Sought> Play<(), View> for Looks<W> {
    ghost use Rattle.dd_table.specs.Tells.{LookTells};

    ghost then = { λ st. LookTells st.word W.word };
}

/// A load outside of a search.
pub struct Reads;

impl Play<(), View> for Reads {
    ghost use Rattle.dd_table.specs.Tells.{ReadTells};

    ghost then = { λ st. ReadTells st.word };
}

/// Names how many steps a seat gives up.
pub trait Quota {
    ghost quota: { ℕ };
}

impl Quota for Brand {
    ghost quota = { 0 };
}

/// A seat is split, and the new one gets some of its steps.
pub struct GivesQuota<Q> {
    marker: PhantomData<Q>,
}

impl<Q: Quota> Split<View> for GivesQuota<Q> {
    ghost use Rattle.dd_table.specs.Views.{giving_view, given_view};

    ghost left = { giving_view Q.quota };

    ghost right = { given_view Q.quota };
}

/// A seat takes in another.
pub struct TakesIn;

impl Join<View> for TakesIn {
    ghost use Rattle.dd_table.specs.Views.{joined_view, spent_view};

    ghost both = { joined_view };

    ghost spent = { spent_view };
}
