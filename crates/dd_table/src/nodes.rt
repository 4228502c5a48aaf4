//! A session on its table, as a store of nodes that can be split: `TableNodes::on`.

ghost use Rattle.std.specs.Prelude.{◌≡◌};
ghost use Rattle.std.proofs.Props.{props};
ghost use Rattle.dd_recent.specs.Recent.{AreRight};
ghost use Rattle.dd_table.specs.Sessions.{IsGoodSession, store_of};

use crate::calls::{make_node, make_uncounted, read_node, split_off, take_in};
use crate::session::Session;
use crate::table::SharedTable;
use dd_nodes::{MkFault, Node, Nodes, Operator, Ref, Split, Steps};
use dd_recent::{Joined, RecentMemo};
use std::alloc::Global;
use std::sync::ledger::Ledger;

/// A session on its table, and results of operations that it remembers. Contracts see it as the
/// session.
#[derive(Drop)]
pub struct TableNodes<'a> {
    table: &'a SharedTable,
    session: Session,
    recent: RecentMemo,
    ghost same: { session.table ≡ table.now },
    ghost good: { IsGoodSession session } by { Prim.hlevel props },
    ghost right: { AreRight (store_of session) recent } by { Prim.hlevel props },
}

impl<'a> TableNodes<'a> {
    ghost use Rattle.std.specs.Prelude.{◌≡◌, ◌≢◌, ◌+◌, ◌<◌, ◌≤◌, length, IfOk, IfErr, IsOk};
    ghost use Rattle.dd_nodes.specs.Diagram.{IsFrom};
    ghost use Rattle.dd_nodes.specs.Stores.{Keeps, StandsFor, AddsOnly, IsThere, IsRefused, node_of};
    ghost use Rattle.dd_table.specs.Sessions.{store_of, CountsWalk};

    /// The session on its table.
    pub fn on(table: &'a SharedTable, session: Session) -> TableNodes<'a>
        requires { session.table ≡ table.now }
        ensures { result.session ≡ session }
    {
        session.shown();
        TableNodes {
            table,
            session,
            recent: RecentMemo::none(),
        }
    }

    /// The session alone.
    pub fn into_session(self) -> Session
        ensures { result ≡ self.entry.session }
    {
        let TableNodes {
            table: _,
            session,
            recent: _,
        } = self;
        session
    }

    /// As `mk`, and counts its steps: each is one compare-exchange or one load of a word of the
    /// table. Where the children are one there is none. Else there is one for each slot on the walk
    /// of the node's word up to the one where the search ends, so at most one a slot of the table.
    pub fn mk_counted<L: Ledger>(
        &mut self,
        var: u32,
        lo: Ref,
        hi: Ref,
        steps: &mut Steps<L>,
    ) -> Result<Ref, MkFault>
        requires var { var < self.old.session.vars }
        requires lo { IsFrom (store_of self.old.session).held (var + 1) lo }
        requires hi { IsFrom (store_of self.old.session).held (var + 1) hi }

        ensures keeps { Keeps (store_of self.old.session) (store_of self.new.session) }
        ensures limit { self.new.session.limit ≡ self.old.session.limit }
        ensures ok { IfOk result (λ r. StandsFor (store_of self.new.session) var lo hi r) }
        ensures adds { IfOk result
            (λ r. AddsOnly (store_of self.old.session) (store_of self.new.session) r) }
        ensures there { IsThere (store_of self.old.session) var lo hi
            → IsOk result × (self.new.session.made ≡ self.old.session.made) }
        ensures out { IfErr result (λ e. e ≡ MkFault.StepsOut) }
        ensures refused { IfErr result (λ _. IsRefused (store_of self.old.session) var lo hi) }
        ensures unchanged { IfErr result (λ _. self.new.session ≡ self.old.session) }
        ensures slots { self.new.session.slots ≡ self.old.session.slots }

        // The count is 0, or by the place of the answer on the walk, and never more than the slots.
        ensures none { lo ≡ hi → steps.new ≡ steps.old }
        ensures some { lo ≢ hi → steps.old < steps.new }
        ensures found { lo ≢ hi → IfOk result
            (λ r. CountsWalk self.old.session.slots (node_of var lo hi) r.0 steps.old steps.new) }
        ensures cost { steps.new ≤ steps.old + self.old.session.slots }
    {
        if lo == hi {
            return Ok(lo);
        }
        let node = Node { var, lo, hi };
        match make_node(self.table, &mut self.session, node, true, steps) {
            Some(r) => Ok(r),
            None => Err(MkFault::StepsOut),
        }
    }
}

impl<'a> Nodes for TableNodes<'a> {
    ghost use Rattle.std.specs.Prelude.{◌≡◌, ◌+◌, ◌<◌, ◌≤◌, length, IfOk, IfErr, IsOk, OnErr, Err};
    ghost use Rattle.dd_nodes.specs.Diagram.{IsFrom};
    ghost use Rattle.dd_nodes.specs.Stores.{Keeps, StandsFor, AddsOnly, IsThere, IsRefused};
    ghost use Rattle.dd_table.specs.Sessions.{store_of};
    ghost use Rattle.dd_table.specs.StoreLaws.{diagram_of, distinct_of, made_held_of};

    ghost store = { λ n. store_of n.session };

    /// It never answers `OutOfMemory`, whatever other sessions do at the same time. It looks at
    /// each slot of the table at most once, and tries none again.
    fn mk(&mut self, var: u32, lo: Ref, hi: Ref) -> Result<Ref, MkFault>
        requires var { var < self.old.session.vars }
        requires lo { IsFrom (store_of self.old.session).held (var + 1) lo }
        requires hi { IsFrom (store_of self.old.session).held (var + 1) hi }

        ensures keeps { Keeps (store_of self.old.session) (store_of self.new.session) }
        ensures limit { self.new.session.limit ≡ self.old.session.limit }
        ensures ok { IfOk result (λ r. StandsFor (store_of self.new.session) var lo hi r) }
        ensures adds { IfOk result
            (λ r. AddsOnly (store_of self.old.session) (store_of self.new.session) r) }
        ensures there { IsThere (store_of self.old.session) var lo hi
            → IsOk result × (self.new.session.made ≡ self.old.session.made) }
        ensures err { OnErr result (self.new.session.made ≡ self.old.session.made) }
        ensures out { result ≡ Err MkFault.StepsOut
            → IsRefused (store_of self.old.session) var lo hi }
        ensures unchanged { result ≡ Err MkFault.StepsOut
            → store_of self.new.session ≡ store_of self.old.session }
        ensures memory { IfErr result (λ e. e ≡ MkFault.StepsOut) }
        ensures slots { self.new.session.slots ≡ self.old.session.slots }
    {
        if lo == hi {
            return Ok(lo);
        }
        match make_uncounted(self.table, &mut self.session, Node { var, lo, hi }) {
            Some(r) => Ok(r),
            None => Err(MkFault::StepsOut),
        }
    }

    fn node(&mut self, r: Ref) -> Node {
        let node = read_node(self.table, &mut self.session, r);
        self.session.shown();
        node
    }

    fn recall(&self, operator: Operator, first: Ref, second: Ref, third: Ref) -> Option<Ref> {
        self.recent.find(operator, first, second, third)
    }

    /// It takes the place of another result.
    fn remember(
        &mut self,
        alloc: Global,
        operator: Operator,
        first: Ref,
        second: Ref,
        third: Ref,
        r: Ref,
    ) {
        self.recent.put(
            alloc,
            Joined {
                operator,
                first,
                second,
                third,
                result: r,
            },
        );
    }

    /// It holds all that the other holds then. It is three loads at most.
    fn learn(&mut self, other: &mut Self) -> bool {
        let same = self.session.vars() == other.session.vars();
        let session = split_off(other.table, &mut other.session, 0);
        take_in(self.table, &mut self.session, session);
        self.recent.take_over(other.recent.take(), same);
        same
    }

    fn used(&self) -> u32 {
        self.session.used()
    }

    fn limit(&self) -> u32 {
        self.session.limit()
    }

    fn vars(&self) -> u32 {
        self.session.vars()
    }

    ghost diagram = { λ n. diagram_of n.session n.good };

    ghost within = { λ n. n.good.within };

    ghost distinct = { λ n. distinct_of n.session n.good };

    ghost made_held = { λ n. made_held_of n.session n.good };
}

impl<'a> Split for TableNodes<'a> {
    ghost use Rattle.std.specs.Prelude.{◌≡◌, ◌+◌, ◌≤◌, length};
    ghost use Rattle.dd_nodes.specs.Stores.{Unites};
    ghost use Rattle.dd_table.specs.Sessions.{store_of, table_name, SessionsAgree};
    ghost use Rattle.dd_table.specs.Sessions.{gives_quota, gets_quota};

    /// It is one load. The new session has the same slots.
    fn fork(&mut self, quota: u32) -> Self
        requires { quota + length self.old.session.made ≤ self.old.session.limit }
        ensures left { self.new.session ≡ gives_quota quota self.old.session }
        ensures new { result.session ≡ gets_quota quota self.old.session }
    {
        let session = split_off(self.table, &mut self.session, quota);
        TableNodes {
            table: self.table,
            session,
            recent: RecentMemo::none(),
        }
    }

    /// It is two loads at most. What the two sessions held before agrees: no node has two
    /// references, and no reference has two nodes.
    fn merge(&mut self, other: Self)
        requires { table_name other.session.table ≡ table_name self.old.session.table }
        ensures unites { Unites (store_of self.old.session) (store_of other.entry.session)
            (store_of self.new.session) }
        ensures agree { SessionsAgree self.old.session other.entry.session }
        ensures slots { self.new.session.slots ≡ self.old.session.slots }
    {
        let TableNodes {
            table: _,
            session,
            recent: _,
        } = other;
        take_in(self.table, &mut self.session, session);
    }
}
