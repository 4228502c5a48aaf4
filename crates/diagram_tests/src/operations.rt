//! Tests of the operations over the plain store.

ghost use Rattle.std.specs.Prelude.{◌≡◌, ◌<◌, ◌≤◌};

use crate::shelf::{Act, Shelf};
use dd_nodes::{Nodes, PlainNodes, Ref};
use dd_ops::{OpFault, Ops};
use std::process::Abort;
use std::test::Fail;

/// The place of the function of three variables that is 0 everywhere. The one whose value at
/// assignment k is bit k of t stands t places behind it.
const ZERO: usize = 22;

/// The place of the variable v or of its negation, as assignment k has it.
fn literal(k: usize, v: usize) -> usize
    requires { v < 3 }
{
    if (k >> v) % 2 == 1 { v } else { 3 + v }
}

/// Adds the functions that are 1 at assignment k, and are 0 at all later ones.
fn shelve_functions_to<N: Nodes + Drop>(shelf: &mut Shelf<N>, k: usize) -> Result<(), Fail>
    requires { k < 8 }
{
    for table in 0..1usize << k {
        shelf.put(Act::Or, ZERO + table, 7 + 2 * k, 0)?;
    }
    Ok(())
}

/// Adds the variables, their negations, the product that is 1 at one assignment, for each, and all
/// 256 functions.
fn shelve_functions<N: Nodes + Drop>(shelf: &mut Shelf<N>) -> Result<(), Fail> {
    for v in 0..3 {
        shelf.put_var(v)?;
    }
    for v in 0..3 {
        shelf.put(Act::Not, v, 0, 0)?;
    }
    for k in 0..8 {
        let both = shelf.put(Act::And, literal(k, 2), literal(k, 1), 0)?;
        shelf.put(Act::And, both, literal(k, 0), 0)?;
    }
    shelf.put(Act::And, 0, 3, 0)?;
    for k in 0..8 {
        shelve_functions_to(shelf, k)?;
    }
    Ok(())
}

/// Whether the act gives the function with this table.
fn gives<N: Nodes + Drop>(
    shelf: &mut Shelf<N>,
    act: Act,
    s: u8,
    t: u8,
    u: u8,
    table: u8,
) -> Result<bool, Fail> {
    let first = ZERO + usize::from(s);
    let second = ZERO + usize::from(t);
    let third = ZERO + usize::from(u);
    let made = shelf.put(act, first, second, third)?;
    shelf.are_same(made, ZERO + usize::from(table))
}

/// Whether each act gives on these functions what it gives on their tables.
fn follow_tables<N: Nodes + Drop>(shelf: &mut Shelf<N>, s: u8, t: u8, u: u8) -> Result<bool, Fail> {
    Ok(
        gives(shelf, Act::Not, s, t, u, !s)?
            && gives(shelf, Act::And, s, t, u, s & t)?
            && gives(shelf, Act::Or, s, t, u, s | t)?
            && gives(shelf, Act::Xor, s, t, u, s ^ t)?
            && gives(shelf, Act::Ite, s, t, u, (s & t) | (!s & u))?,
    )
}

/// Compares what each act gives on pairs of all functions with their tables.
fn compare_tables<N: Nodes + Drop>(rt: &impl Abort, shelf: &mut Shelf<N>) -> Result<(), Fail> {
    for pair in 0u32..65536 {
        let s = (pair / 256) as u8;
        let t = (pair % 256) as u8;
        let u = (pair % 257 % 256) as u8;
        assert!(rt; follow_tables(shelf, s, t, u)?, "{s} {t} {u}");
    }
    Ok(())
}

#[test]
fn operations_follow_truth_tables(rt: HostRuntime) -> Result<(), Fail> {
    let nodes = PlainNodes::new(rt.alloc(), 3, 1000)?;
    let mut shelf = Shelf::new(rt.alloc(), nodes);
    shelve_functions(&mut shelf)?;
    compare_tables(&rt, &mut shelf)
}

/// Whether the difference of two variables is one diagram, by `xor` and by `ite`.
fn is_one_difference<N: Nodes + Drop>(shelf: &mut Shelf<N>) -> Result<bool, Fail> {
    let p = shelf.put_var(0)?;
    let q = shelf.put_var(1)?;
    let not_q = shelf.put(Act::Not, q, q, q)?;
    let by_xor = shelf.put(Act::Xor, p, q, q)?;
    let by_ite = shelf.put(Act::Ite, p, not_q, q)?;
    shelf.are_same(by_xor, by_ite)
}

#[test]
fn difference_by_xor_and_by_ite_is_one_reference(rt: HostRuntime) -> Result<(), Fail> {
    let nodes = PlainNodes::new(rt.alloc(), 2, 10)?;
    let mut shelf = Shelf::new(rt.alloc(), nodes);
    assert!(rt; is_one_difference(&mut shelf)?);
    Ok(())
}

/// Whether one step makes one variable, which is found again, and none of which is a constant.
fn is_one_variable<N: Nodes>(ops: &Ops, nodes: &mut N) -> bool
    requires { (N.store nodes.old).vars ≡ 2 }
{
    let first = ops.var(nodes, 0);
    let second = ops.var(nodes, 1);
    let Ok(again) = ops.var(nodes, 0) else {
        return false;
    };
    first == Ok(again)
        && second == Err(OpFault::StepsOut)
        && !ops.is_false(nodes, again)
        && !ops.is_true(nodes, again)
        && ops.is_false(nodes, Ref::FALSE)
        && ops.is_true(nodes, Ref::TRUE)
}

#[test]
fn one_step_makes_one_variable(rt: HostRuntime) -> Result<(), Fail> {
    let mut nodes = PlainNodes::new(rt.alloc(), 2, 1)?;
    let ops = Ops::new(rt.alloc());
    assert!(rt; is_one_variable(&ops, &mut nodes));
    Ok(())
}

/// Whether the product of 4,000 variables is the negation of its negation.
fn is_one_product<N: Nodes + Drop>(shelf: &mut Shelf<N>) -> Result<bool, Fail> {
    let mut all = shelf.put_var(3999)?;
    for v in 1..4000 {
        let x = shelf.put_var(3999 - v)?;
        all = shelf.put(Act::And, x, all, 0)?;
    }
    let none = shelf.put(Act::Not, all, 0, 0)?;
    let back = shelf.put(Act::Not, none, 0, 0)?;
    shelf.are_same(all, back)
}

#[test]
fn a_call_goes_4000_variables_deep(rt: HostRuntime) -> Result<(), Fail> {
    let nodes = PlainNodes::new(rt.alloc(), 4000, 20000)?;
    let mut shelf = Shelf::new(rt.alloc(), nodes);
    assert!(rt; is_one_product(&mut shelf)?);
    Ok(())
}

/// Adds the products of variable i and variable 8 + i to a sum, by `both` and `either`, or with
/// negated variables the other way round.
fn shelve_pairs<N: Nodes + Drop>(
    shelf: &mut Shelf<N>,
    first: usize,
    both: Act,
    either: Act,
) -> Result<usize, Fail>
    requires { first ≤ 16 }
{
    let mut all = shelf.put(both, first, first + 8, 0)?;
    for i in 1..8 {
        let pair = shelf.put(both, first + i, first + 8 + i, 0)?;
        all = shelf.put(either, all, pair, 0)?;
    }
    Ok(all)
}

/// Whether a sum of products of sixteen variables is, negated, the product of the sums of their
/// negations.
fn is_dual<N: Nodes + Drop>(shelf: &mut Shelf<N>) -> Result<bool, Fail> {
    for v in 0..16 {
        shelf.put_var(v)?;
    }
    for v in 0..16 {
        shelf.put(Act::Not, v, 0, 0)?;
    }
    let sum = shelve_pairs(shelf, 0, Act::And, Act::Or)?;
    let dual = shelve_pairs(shelf, 16, Act::Or, Act::And)?;
    let negated = shelf.put(Act::Not, sum, 0, 0)?;
    let differ = shelf.put(Act::Xor, sum, dual, 0)?;
    let always = shelf.put(Act::Ite, differ, differ, negated)?;
    Ok(shelf.are_same(negated, dual)? && shelf.are_same(always, differ)?)
}

#[test]
fn a_memo_grows_within_a_call(rt: HostRuntime) -> Result<(), Fail> {
    let nodes = PlainNodes::new(rt.alloc(), 16, 10000)?;
    let mut shelf = Shelf::new(rt.alloc(), nodes);
    assert!(rt; is_dual(&mut shelf)?);
    Ok(())
}
