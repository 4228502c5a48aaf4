//! Results of operations that are remembered; begin with `RecentMemo`.

ghost use Rattle.std.specs.Prelude.{◌≡◌, ◌<◌, ◌⊎◌, [], Contains, IfSome, IsTrue, length};
ghost use Rattle.dd_recent.specs.Recent.{Takes, entries_of, joined_as, nothing};

use dd_nodes::{Operator, Ref};
use std::alloc::Global;

/// What an operator makes of three references.
#[derive(Clone, Copy, Drop)]
pub struct Joined {
    pub operator: Operator,
    pub first: Ref,
    pub second: Ref,
    pub third: Ref,
    pub result: Ref,
}

/// What stands at a place where nothing was put: 0 and 0 is 0.
const NOTHING: Joined = Joined {
    operator: Operator::And,
    first: Ref::FALSE,
    second: Ref::FALSE,
    third: Ref::FALSE,
    result: Ref::FALSE,
};

/// Some of the results that were put here. Each has one place, which the operator and the
/// references give, and takes it from what stood there. Where many were put the places become more,
/// and all is forgotten. It takes no memory before the first one.
#[derive(Drop)]
pub struct RecentMemo {
    entries: Option<Vec<Joined>>,
    count: usize,
}

/// The number of places at first.
const LEAST: usize = 1024;

/// The most places. So many take 320 kB, which a processor keeps near.
const MOST: usize = 16384;

/// The place of a result, of so many, by a hash of the operator and the references (multiplicative
/// hashing).
fn place(operator: Operator, first: Ref, second: Ref, third: Ref, size: usize) -> usize
    requires { 0 < size }
    ensures { result < size }
{
    let kind = match operator {
        Operator::And => 0,
        Operator::Or => 7640891576956012809,
        Operator::Xor => 15352856648520921629,
        Operator::Choice => 4354685564936845355,
    };
    let first = (first.0 as u64).wrapping_mul(11400714819323198485);
    let second = (second.0 as u64).wrapping_mul(14029467366897019727);
    let third = (third.0 as u64).wrapping_mul(9650029242287828579);
    let mixed = first
        .wrapping_add(second)
        .wrapping_add(third)
        .wrapping_add(kind);
    ((mixed as u128 * size as u128) >> 64) as usize
}

/// Whether this is a result of the operator for these references.
fn is_of(joined: Joined, operator: Operator, first: Ref, second: Ref, third: Ref) -> bool
    ensures { IsTrue result → joined ≡ joined_as operator first second third joined.result }
{
    joined.operator == operator
        && joined.first == first
        && joined.second == second
        && joined.third == third
}

/// The result of the operator for these references, where it is among these.
fn find_in(
    entries: &[Joined],
    operator: Operator,
    first: Ref,
    second: Ref,
    third: Ref,
) -> Option<Ref>
    ensures { IfSome result
        (λ r. Contains entries.now (joined_as operator first second third r)) }
{
    if entries.is_empty() {
        return None;
    }
    let joined = entries[place(operator, first, second, third, entries.len())];
    if is_of(joined, operator, first, second, third) {
        return Some(joined.result);
    }
    None
}

/// Puts a result at its place, where there is one.
fn put_in(table: &mut Vec<Joined>, joined: Joined)
    ensures { Takes table.old.items joined table.new.items }
{
    if table.is_empty() {
        return;
    }
    let at = place(
        joined.operator,
        joined.first,
        joined.second,
        joined.third,
        table.len(),
    );
    table[at] = joined;
}

impl RecentMemo {
    /// No results.
    pub fn none() -> RecentMemo
        ensures { entries_of result ≡ [] }
    {
        RecentMemo {
            entries: None,
            count: 0,
        }
    }

    /// All results, which are taken away from here.
    pub fn take(&mut self) -> RecentMemo
        ensures all { entries_of result ≡ entries_of self.old }
        ensures none { entries_of self.new ≡ [] }
    {
        RecentMemo {
            entries: self.entries.take(),
            count: self.count,
        }
    }

    /// The results of another, where it may be and there is no place for any so far.
    pub fn take_over(&mut self, other: RecentMemo, may: bool)
        ensures { (entries_of self.new ≡ entries_of self.old)
            ⊎ (IsTrue may × (entries_of self.new ≡ entries_of other)) }
    {
        if may && self.entries.is_none() {
            *self = other;
        }
    }

    /// The result of the operator for these references, where it is among these.
    pub fn find(&self, operator: Operator, first: Ref, second: Ref, third: Ref) -> Option<Ref>
        ensures { IfSome result
            (λ r. Contains (entries_of self.now) (joined_as operator first second third r)) }
    {
        match &self.entries {
            Some(entries) => find_in(entries, operator, first, second, third),
            None => None,
        }
    }

    /// The number of places.
    fn places(&self) -> usize
        ensures { result ≡ length (entries_of self.now) }
    {
        match &self.entries {
            Some(entries) => entries.len(),
            None => 0,
        }
    }

    /// More places, at which nothing was put, where there is memory for them.
    #[cold]
    #[inline(never)]
    fn widen(&mut self, alloc: Global)
        ensures { Takes (entries_of self.old) nothing (entries_of self.new) }
    {
        let size = self.places().saturating_mul(4).max(LEAST).min(MOST);
        if let Ok(entries) = Vec::from_elem(alloc, NOTHING, size) {
            self.entries = Some(entries);
        }
        self.count = 0;
    }

    /// More places, where many results were put.
    fn make_room(&mut self, alloc: Global)
        ensures { Takes (entries_of self.old) nothing (entries_of self.new) }
    {
        if self.count / 2 < self.places() || self.places() >= MOST {
            return;
        }
        self.widen(alloc);
    }

    /// Puts a result at its place.
    pub fn put(&mut self, alloc: Global, joined: Joined)
        ensures { Takes (entries_of self.old) joined (entries_of self.new) }
    {
        self.make_room(alloc);
        self.count = self.count.wrapping_add(1);
        if let Some(table) = &mut self.entries {
            put_in(table, joined);
        }
    }
}
