//! A test of the counter of `apply`.

ghost use Rattle.std.specs.Prelude.{◌≡◌, ◌<◌, ◌≤◌, ◌+◌};

use dd_nodes::{Nodes, PlainNodes, Ref, Steps};
use dd_ops::{Op, OpFault, Ops};
use std::marker::Brand;
use std::sync::ledger::{Blank, Ledger};
use std::test::Fail;

/// The product of the first two variables. Each of their diagrams has one node.
fn product_of_two<N: Nodes, L: Ledger>(
    ops: &Ops,
    nodes: &mut N,
    steps: &mut Steps<L>,
) -> Result<Ref, OpFault>
    requires { 1 < (N.store nodes.old).vars }
    ensures { steps.new ≤ steps.old + 9 }
{
    let p = ops.var(nodes, 0)?;
    let q = ops.var(nodes, 1)?;
    ops.apply(nodes, Op::And, p, q, steps)
}

fn counted<N: Nodes, L: Ledger>(ops: &Ops, nodes: &mut N, blank: Blank) -> Result<Ref, OpFault>
    requires name { blank.name ≡ L.name }
    requires all { blank.parts ≡ L.parts }
    requires some { 0 < blank.parts }
    requires vars { 1 < (N.store nodes.old).vars }
{
    product_of_two(ops, nodes, &mut Steps::<L>::new(blank))
}

#[test]
fn two_variables_take_at_most_nine_steps(rt: HostRuntime) -> Result<(), Fail> {
    let mut nodes = PlainNodes::new(rt.alloc(), 2, 3)?;
    let ops = Ops::new(rt.alloc());
    let product = counted::<PlainNodes, Brand>(&ops, &mut nodes, Blank::new(1))?;
    assert!(rt; product.0 >= 2);
    assert_eq!(rt; nodes.used(), 3);
    Ok(())
}
