//! Tests over real tables: the plain store's own, sessions that are split and joined, operations,
//! threads, a full table.

ghost use Rattle.std.specs.Prelude.{◌≡◌, [], IfOk};
ghost use Rattle.dd_nodes.specs.Stores.{IsRef};

use crate::made_once::{is_made_once, variable};
use dd_nodes::{Nodes, Operator, Ref, Split};
use dd_ops::{OpFault, Ops};
use dd_table::{SharedTable, TableNodes};
use std::test::Fail;
use std::thread::{Threads, join_mut};

#[test]
fn makes_a_node_once_and_no_more_than_the_limit(rt: HostRuntime) -> Result<(), Fail> {
    let (table, session) = SharedTable::open(rt.alloc(), 2, 2)?;
    let mut nodes = TableNodes::on(&table, session);
    assert!(rt; is_made_once(&mut nodes));
    let session = nodes.into_session();
    assert_eq!(rt; table.close(session), 1);
    Ok(())
}

/// Whether a store that is cut from another finds what that one made, and hands on what it makes
/// itself.
fn finds_and_hands_on<N: Split>(nodes: &mut N) -> bool
    requires vars { (N.store nodes.old).vars ≡ 3 }
    requires made { (N.store nodes.old).made ≡ [] }
    requires limit { (N.store nodes.old).limit ≡ 4 }
    ensures { (N.store nodes.new).table ≡ (N.store nodes.old).table }
{
    let mut other = nodes.fork(2);
    let made = variable(nodes, 0);
    let found = variable(&mut other, 0);
    let own = variable(&mut other, 1);
    let one = (nodes.used(), nodes.limit()) == (1, 2);
    let two = (other.used(), other.limit()) == (1, 2);
    nodes.merge(other);
    let Ok(own) = own else {
        return false;
    };
    made.is_ok()
        && found == made
        && one
        && two
        && nodes.node(own).var == 1
        && (nodes.used(), nodes.limit()) == (2, 4)
}

#[test]
fn sessions_find_what_others_made(rt: HostRuntime) -> Result<(), Fail> {
    let (table, session) = SharedTable::open(rt.alloc(), 3, 9)?;
    let mut nodes = TableNodes::on(&table, session);
    assert!(rt; finds_and_hands_on(&mut nodes));
    let session = nodes.into_session();
    assert_eq!(rt; table.close(session), 2);
    Ok(())
}

/// Two variables, their product, and what is recalled of it then, and of their sum.
fn recalled<N: Nodes>(
    ops: &Ops,
    nodes: &mut N,
) -> Result<(Ref, Ref, Ref, Option<Ref>, Option<Ref>), OpFault>
    requires { (N.store nodes.old).vars ≡ 2 }
{
    let p = ops.var(nodes, 0)?;
    let q = ops.var(nodes, 1)?;
    let both = ops.and(nodes, p, q)?;
    let product = nodes.recall(Operator::And, p, q, Ref::FALSE);
    let sum = nodes.recall(Operator::Or, p, q, Ref::FALSE);
    Ok((p, q, both, product, sum))
}

/// Whether a store recalls a result, and one that is cut from it does so once it has learned.
fn remembers_and_hands_on<N: Split>(ops: &Ops, nodes: &mut N) -> Result<bool, OpFault>
    requires { (N.store nodes.old).vars ≡ 2 }
{
    let (p, q, both, product, sum) = recalled(ops, nodes)?;
    let mut other = nodes.fork(0);
    let before = other.recall(Operator::And, p, q, Ref::FALSE);
    other.learn(nodes);
    let behind = other.recall(Operator::And, p, q, Ref::FALSE);
    let left = nodes.recall(Operator::And, p, q, Ref::FALSE);
    Ok(
        product == Some(both)
            && sum.is_none()
            && before.is_none()
            && behind == Some(both)
            && left.is_none(),
    )
}

#[test]
fn results_are_remembered_and_handed_on(rt: HostRuntime) -> Result<(), Fail> {
    let (table, session) = SharedTable::open(rt.alloc(), 2, 16)?;
    let ops = Ops::new(rt.alloc());
    let mut nodes = TableNodes::on(&table, session);
    assert!(rt; remembers_and_hands_on(&ops, &mut nodes) == Ok(true));
    Ok(())
}

/// Whether both are 1 exactly where not one of the negations is.
fn de_morgan<N: Nodes>(ops: &Ops, nodes: &mut N, p: Ref, q: Ref) -> Result<bool, OpFault>
    requires first { IsRef (N.store nodes.old) p }
    requires second { IsRef (N.store nodes.old) q }
    ensures { (N.store nodes.new).vars ≡ (N.store nodes.old).vars }
{
    let both = ops.and(nodes, p, q)?;
    let not_p = ops.not(nodes, p)?;
    let not_q = ops.not(nodes, q)?;
    let one_is_not = ops.or(nodes, not_p, not_q)?;
    let expected = ops.not(nodes, one_is_not)?;
    Ok(both == expected)
}

/// Whether the difference is the choice between the negation and the function itself.
fn difference<N: Nodes>(ops: &Ops, nodes: &mut N, p: Ref, q: Ref) -> Result<bool, OpFault>
    requires first { IsRef (N.store nodes.old) p }
    requires second { IsRef (N.store nodes.old) q }
    ensures { (N.store nodes.new).vars ≡ (N.store nodes.old).vars }
{
    let differ = ops.xor(nodes, p, q)?;
    let not_q = ops.not(nodes, q)?;
    let chosen = ops.ite(nodes, p, not_q, q)?;
    Ok(differ == chosen)
}

/// Whether a product and a sum are constants where they should be.
fn excluded_middle<N: Nodes>(ops: &Ops, nodes: &mut N, p: Ref) -> Result<bool, OpFault>
    requires { IsRef (N.store nodes.old) p }
{
    let not_p = ops.not(nodes, p)?;
    let one = ops.or(nodes, p, not_p)?;
    let zero = ops.and(nodes, p, not_p)?;
    Ok(one == Ref::TRUE && zero == Ref::FALSE)
}

/// Two functions of three variables.
fn two_functions<N: Nodes>(ops: &Ops, nodes: &mut N) -> Result<(Ref, Ref), OpFault>
    requires { (N.store nodes.old).vars ≡ 3 }
    ensures vars { (N.store nodes.new).vars ≡ 3 }
    ensures refs { IfOk result
        (λ r. IsRef (N.store nodes.new) r.0 × IsRef (N.store nodes.new) r.1) }
{
    let p = ops.var(nodes, 0)?;
    let q = ops.var(nodes, 1)?;
    let r = ops.var(nodes, 2)?;
    let first = ops.and(nodes, p, q)?;
    let second = ops.xor(nodes, first, r)?;
    Ok((first, second))
}

/// Whether laws of boolean functions hold of two functions of three variables.
fn laws_hold<N: Nodes>(ops: &Ops, nodes: &mut N) -> Result<bool, OpFault>
    requires { (N.store nodes.old).vars ≡ 3 }
{
    let (f, g) = two_functions(ops, nodes)?;
    let morgan = de_morgan(ops, nodes, f, g)?;
    let (f, g) = two_functions(ops, nodes)?;
    let differ = difference(ops, nodes, f, g)?;
    let (f, g) = two_functions(ops, nodes)?;
    let excluded = excluded_middle(ops, nodes, g)?;
    Ok(f != g && morgan && differ && excluded)
}

#[test]
fn operations_follow_the_laws_of_boolean_functions(rt: HostRuntime) -> Result<(), Fail> {
    let (table, session) = SharedTable::open(rt.alloc(), 3, 100)?;
    let mut nodes = TableNodes::on(&table, session);
    let ops = Ops::new(rt.alloc());
    assert!(rt; laws_hold(&ops, &mut nodes) == Ok(true));
    Ok(())
}

/// A session at work, and a sum of the references that it was given.
#[derive(Drop)]
struct Job<N> {
    nodes: N,
    sum: u64,
}

/// Makes the node of each variable.
fn make_all<N: Nodes>(job: &mut Job<N>)
    ensures { (N.store job.new.nodes).table ≡ (N.store job.old.nodes).table }
{
    let vars = job.nodes.vars();
    for v in 0..vars {
        if let Ok(r) = job.nodes.mk(v, Ref::FALSE, Ref::TRUE) {
            job.sum = job.sum.wrapping_mul(31).wrapping_add(r.0 as u64);
        }
    }
}

fn two_threads<N: Nodes + Send, R: Threads + Sync>(rt: &R, a: &mut Job<N>, b: &mut Job<N>)
    ensures a { (N.store a.new.nodes).table ≡ (N.store a.old.nodes).table }
    ensures b { (N.store b.new.nodes).table ≡ (N.store b.old.nodes).table }
{
    join_mut(rt, &mut || make_all(a), &mut || make_all(b));
}

/// Makes the nodes of all variables on four threads, and says whether all were given the same
/// references.
fn four_threads<N: Split + Send, R: Threads + Sync>(rt: &R, mut nodes: N) -> (N, bool)
    requires made { (N.store nodes).made ≡ [] }
    requires limit { (N.store nodes).limit ≡ 4000 }
    ensures { (N.store result.0).table ≡ (N.store nodes).table }
{
    let mut a = Job {
        nodes: nodes.fork(1000),
        sum: 0,
    };
    let mut b = Job {
        nodes: nodes.fork(1000),
        sum: 0,
    };
    let mut c = Job {
        nodes: nodes.fork(1000),
        sum: 0,
    };
    let mut d = Job {
        nodes: nodes.fork(1000),
        sum: 0,
    };
    join_mut(
        rt,
        &mut || two_threads(rt, &mut a, &mut b),
        &mut || two_threads(rt, &mut c, &mut d),
    );
    let same = a.sum == b.sum && b.sum == c.sum && c.sum == d.sum;
    nodes.merge(a.nodes);
    nodes.merge(b.nodes);
    nodes.merge(c.nodes);
    nodes.merge(d.nodes);
    (nodes, same)
}

#[test]
fn four_threads_make_each_node_once(rt: HostRuntime) -> Result<(), Fail> {
    let (table, session) = SharedTable::open(rt.alloc(), 1000, 8000)?;
    let (nodes, same) = four_threads(&rt, TableNodes::on(&table, session));
    assert!(rt; same);
    assert_eq!(rt; (nodes.used(), nodes.limit()), (1000, 4000));
    let session = nodes.into_session();
    assert_eq!(rt; table.close(session), 1000);
    Ok(())
}

/// Makes the node of each variable, and counts the refusals.
fn refusals<N: Nodes>(nodes: &mut N) -> u32
    ensures { (N.store nodes.new).table ≡ (N.store nodes.old).table }
{
    let mut count = 0u32;
    let vars = nodes.vars();
    for v in 0..vars {
        if nodes.mk(v, Ref::FALSE, Ref::TRUE).is_err() {
            count = count.wrapping_add(1);
        }
    }
    count
}

#[test]
fn a_full_half_finds_what_is_there_and_refuses_the_rest(rt: HostRuntime) -> Result<(), Fail> {
    let (table, session) = SharedTable::open(rt.alloc(), 100, 64)?;
    let mut nodes = TableNodes::on(&table, session);
    assert_eq!(rt; refusals(&mut nodes), 68);
    assert_eq!(rt; refusals(&mut nodes), 68);
    let mut other = nodes.fork(0);
    assert_eq!(rt; refusals(&mut other), 68);
    assert_eq!(rt; (nodes.used(), other.used()), (32, 0));
    drop(nodes);
    let session = other.into_session();
    assert_eq!(rt; table.close(session), 32);
    Ok(())
}

/// Whether a store of 4,000 variables has, for its last variable and for the first one over it, just
/// the nodes that were made.
fn reads_back_the_last_variable<N: Nodes>(nodes: &mut N) -> bool
    requires { (N.store nodes.old).vars ≡ 4000 }
    ensures { (N.store nodes.new).table ≡ (N.store nodes.old).table }
{
    let Ok(last) = variable(nodes, 3999) else {
        return false;
    };
    let held = nodes.node(last);
    let Ok(first) = nodes.mk(0, Ref::FALSE, last) else {
        return false;
    };
    let above = nodes.node(first);
    (held.var, held.lo, held.hi) == (3999, Ref::FALSE, Ref::TRUE)
        && (above.var, above.lo, above.hi) == (0, Ref::FALSE, last)
}

#[test]
fn the_last_of_4000_variables_is_made_and_read_back(rt: HostRuntime) -> Result<(), Fail> {
    let (table, session) = SharedTable::open(rt.alloc(), 4000, 64)?;
    let mut nodes = TableNodes::on(&table, session);
    assert!(rt; reads_back_the_last_variable(&mut nodes));
    let session = nodes.into_session();
    assert_eq!(rt; table.close(session), 2);
    Ok(())
}
