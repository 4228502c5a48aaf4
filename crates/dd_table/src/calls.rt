//! What a session does on its table: `make_node`, `read_node`, `split_off` and `take_in`.

ghost use Rattle.std.specs.Prelude.{◌≡◌, ◌≢◌, ℕ, ◌<◌, ◌≤◌, ◌+◌, length, true, IfSome, IfNone};
ghost use Rattle.std.specs.FinMap as map;
ghost use Rattle.dd_nodes.specs.declared.node.Node.{Node};
ghost use Rattle.dd_table.specs.Sessions.{IsMakeable, MkGives, IsGoodSession, IsOutFor, CountsWalk};
ghost use Rattle.dd_table.specs.Sessions.{gives_quota, gets_quota, session_union, HeldStays};

use crate::search::search;
use crate::session::Session;
use crate::steps::{add_limits, read, split, unite};
use crate::table::SharedTable;
use crate::word::{node_of_word, word_of_node};
use dd_nodes::{Node, Ref, Steps};
use std::marker::Brand;
use std::sync::ledger::{Blank, Ledger};

/// The reference of a node whose children differ, or none where it is not held and no step is left.
/// Each operation on the table is a counted step: one a slot, a compare-exchange or a load, where
/// `once` says so.
fn make<L: Ledger>(
    table: &SharedTable,
    session: &mut Session,
    node: Node,
    once: bool,
    steps: &mut Steps<L>,
) -> Option<Ref>
    requires table { session.old.table ≡ table.now }
    requires may { IsMakeable session.old node }
    ensures some { IfSome result (λ r. MkGives session.old session.new node r.0) }
    ensures none { IfNone result ((session.new ≡ session.old) × IsOutFor session.old node) }
    ensures found { once ≡ true → IfSome result
        (λ r. CountsWalk session.old.slots node r.0 steps.old steps.new) }
    ensures cost { once ≡ true →
        (steps.old < steps.new) × (steps.new ≤ steps.old + session.old.slots) }
{
    let left = session.used < session.limit;
    let word = word_of_node(node);
    let (at, wrote) = search(
        table.words(),
        &mut session.seat,
        word,
        session.slots,
        left,
        once,
        steps,
    )?;
    if wrote {
        session.used += 1;
    }
    session.some = at + 2;
    Some(Ref(at + 2))
}

/// The same, and it shows what holds of the session.
pub(crate) fn make_node<L: Ledger>(
    table: &SharedTable,
    session: &mut Session,
    node: Node,
    once: bool,
    steps: &mut Steps<L>,
) -> Option<Ref>
    requires table { session.old.table ≡ table.now }
    requires may { IsMakeable session.old node }
    ensures some { IfSome result (λ r. MkGives session.old session.new node r.0) }
    ensures none { IfNone result ((session.new ≡ session.old) × IsOutFor session.old node) }
    ensures good { IsGoodSession session.new }
    ensures found { once ≡ true → IfSome result
        (λ r. CountsWalk session.old.slots node r.0 steps.old steps.new) }
    ensures cost { once ≡ true →
        (steps.old < steps.new) × (steps.new ≤ steps.old + session.old.slots) }
{
    let made = make(table, session, node, once, steps);
    session.shown();
    made
}

/// The same with a counter that is thrown away, and with a load before each compare-exchange.
fn make_from<L: Ledger>(
    table: &SharedTable,
    session: &mut Session,
    node: Node,
    blank: Blank,
) -> Option<Ref>
    requires name { blank.name ≡ L.name }
    requires all { blank.parts ≡ L.parts }
    requires some { 0 < blank.parts }
    requires table { session.old.table ≡ table.now }
    requires may { IsMakeable session.old node }
    ensures some { IfSome result (λ r. MkGives session.old session.new node r.0) }
    ensures none { IfNone result ((session.new ≡ session.old) × IsOutFor session.old node) }
    ensures good { IsGoodSession session.new }
{
    make_node(table, session, node, false, &mut Steps::<L>::new(blank))
}

/// The same for a caller that counts nothing.
pub(crate) fn make_uncounted(table: &SharedTable, session: &mut Session, node: Node) -> Option<Ref>
    requires table { session.old.table ≡ table.now }
    requires may { IsMakeable session.old node }
    ensures some { IfSome result (λ r. MkGives session.old session.new node r.0) }
    ensures none { IfNone result ((session.new ≡ session.old) × IsOutFor session.old node) }
    ensures good { IsGoodSession session.new }
{
    make_from::<Brand>(table, session, node, Blank::new(1))
}

/// The node that a reference holds.
pub(crate) fn read_node(table: &SharedTable, session: &mut Session, r: Ref) -> Node
    requires table { session.old.table ≡ table.now }
    requires held { (n : Node) × (map.get session.old.held r.0 ≡ Some n) }
    ensures node { map.get session.old.held r.0 ≡ Some result }
    ensures same { session.new ≡ session.old }
{
    let _ = &session.seat;
    let word = read(table.words(), &mut session.seat, (r.0 - 2) as usize);
    node_of_word(word)
}

/// A new session that holds what this one holds, and gets `quota` of its steps.
fn part(table: &SharedTable, session: &mut Session, quota: u32) -> Session
    requires table { session.old.table ≡ table.now }
    requires left { quota + length session.old.made ≤ session.old.limit }
    ensures old { session.new ≡ gives_quota quota session.old }
    ensures new { result ≡ gets_quota quota session.old }
{
    let seat = split(table.words(), &mut session.seat, quota);
    session.limit -= quota;
    Session {
        seat,
        vars: session.vars,
        slots: session.slots,
        used: 0,
        limit: quota,
        some: session.some,
    }
}

/// The same, and it shows what holds of both sessions.
pub(crate) fn split_off(table: &SharedTable, session: &mut Session, quota: u32) -> Session
    requires table { session.old.table ≡ table.now }
    requires left { quota + length session.old.made ≤ session.old.limit }
    ensures old { session.new ≡ gives_quota quota session.old }
    ensures new { result ≡ gets_quota quota session.old }
    ensures good { IsGoodSession session.new × IsGoodSession result }
{
    let other = part(table, session, quota);
    session.shown();
    other.shown();
    other
}

/// Takes in another session of the table.
pub(crate) fn take_in(table: &SharedTable, session: &mut Session, other: Session)
    requires table { session.old.table ≡ table.now }
    requires other { other.table ≡ table.now }
    ensures both { session.new ≡ session_union session.old other }
    ensures right { HeldStays other session.new }
    ensures good { IsGoodSession session.new }
{
    let Session {
        seat,
        vars: _,
        slots: _,
        used,
        limit,
        some,
    } = other;
    let some = if session.some == 0 {
        some
    } else {
        session.some
    };
    unite(table.words(), &mut session.seat, seat, some);
    session.limit = add_limits(table.words(), &mut session.seat, session.limit, limit);
    session.used += used;
    session.some = some;
    session.shown();
}
