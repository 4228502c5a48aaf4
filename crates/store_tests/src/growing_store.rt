//! Tests of the store that grows.

ghost use Rattle.std.specs.Prelude.{◌≡◌};

use crate::made_once::{is_made_once, variable};
use dd_growing::GrowingNodes;
use dd_nodes::{MkFault, Nodes, Operator, Ref};
use std::alloc::Global;
use std::test::Fail;

#[test]
fn makes_a_node_once_and_no_more_than_the_limit(rt: HostRuntime) -> Result<(), Fail> {
    let mut nodes = GrowingNodes::new(rt.alloc(), 2, 1)?;
    assert!(rt; is_made_once(&mut nodes));
    Ok(())
}

/// Whether an empty store of three variables that may make one node finds, begun anew, the node
/// that it holds, and makes one more; and so once more.
fn begins_again(nodes: &mut GrowingNodes) -> bool
    requires { (⟦<GrowingNodes as Nodes>⟧.store nodes.old).vars ≡ 3 }
{
    let first = variable(nodes, 0);
    nodes.begin(1);
    let begun = (nodes.used(), nodes.limit()) == (0, 1);
    let again = variable(nodes, 0);
    let held = nodes.used() == 0;
    let second = variable(nodes, 1);
    let made = nodes.used() == 1;
    let refused = variable(nodes, 2);
    nodes.begin(1);
    let third = variable(nodes, 2);
    begun
        && first.is_ok()
        && again == first
        && held
        && second.is_ok()
        && second != first
        && made
        && refused == Err(MkFault::StepsOut)
        && third.is_ok()
        && third != second
}

#[test]
fn begins_again_with_the_nodes_that_it_holds(rt: HostRuntime) -> Result<(), Fail> {
    let mut nodes = GrowingNodes::new(rt.alloc(), 3, 1)?;
    assert!(rt; begins_again(&mut nodes));
    Ok(())
}

/// Makes the node of each variable, and sums up their references.
fn make_all<N: Nodes>(nodes: &mut N) -> u64 {
    let mut sum = 0u64;
    let vars = nodes.vars();
    for v in 0..vars {
        if let Ok(r) = nodes.mk(v, Ref::FALSE, Ref::TRUE) {
            sum = sum.wrapping_mul(31).wrapping_add(r.0 as u64);
        }
    }
    sum
}

#[test]
fn finds_each_node_in_a_table_that_has_grown(rt: HostRuntime) -> Result<(), Fail> {
    let mut nodes = GrowingNodes::new(rt.alloc(), 3000, 3000)?;
    let sum = make_all(&mut nodes);
    assert_eq!(rt; nodes.used(), 3000);
    assert_eq!(rt; make_all(&mut nodes), sum);
    assert_eq!(rt; nodes.used(), 3000);
    Ok(())
}

/// Whether a store recalls what it remembers of an operator, and of no other.
fn recalls<N: Nodes>(alloc: Global, nodes: &mut N) -> bool
    requires { (N.store nodes.old).vars ≡ 2 }
{
    let Ok(p) = variable(nodes, 0) else {
        return false;
    };
    nodes.remember(alloc, Operator::And, p, p, Ref::FALSE, p);
    nodes.recall(Operator::And, p, p, Ref::FALSE) == Some(p)
        && nodes.recall(Operator::Or, p, p, Ref::FALSE).is_none()
}

#[test]
fn what_was_remembered_is_recalled(rt: HostRuntime) -> Result<(), Fail> {
    let mut nodes = GrowingNodes::new(rt.alloc(), 2, 2)?;
    assert!(rt; recalls(rt.alloc(), &mut nodes));
    Ok(())
}
