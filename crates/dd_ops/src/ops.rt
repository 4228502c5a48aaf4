//! The operations; begin with `Ops`.

ghost use Rattle.std.specs.Prelude.{◌≡◌, ◌<◌, ◌≤◌, ◌+◌, ◌*◌, ◌↔◌, ◌&&◌, ◌||◌, not, Bool, true, false, List, length, IsTrue, if◌then◌else◌, slice_index_or};
ghost use Rattle.dd_nodes.specs.Functions.{diagram_size};
ghost use Rattle.dd_nodes.specs.Stores.{IsRef, HaveOneFunction, function};
ghost use Rattle.dd_ops.specs.Answer.{Answer, xor_bit, op_bit};
ghost use Rattle.dd_ops.specs.Expansion.{IsExpansion};
ghost use Rattle.dd_ops.specs.private.Recursion.{AreRefs, named, choice_rule};

use crate::combine::answer;
use crate::connective::{And, Choice, Or, Xor};
use crate::fault::OpFault;
use crate::operands::{Operands, pair};
use dd_nodes::{Nodes, Ref, Steps};
use std::alloc::Global;
use std::marker::Brand;
use std::sync::ledger::{Blank, Ledger};

/// The operations of two functions that `apply` knows.
#[derive(Clone, Copy, PartialEq, Eq, Drop)]
pub enum Op {
    /// 1 where both are 1.
    And,
    /// 1 where at least one of them is 1.
    Or,
    /// 1 where they differ.
    Xor,
}

/// The operations. They take references that are constant or held. Each node that a call makes has
/// a cofactor of the call's result as its function, and what was held stays held with the same
/// node, after an error too. `StepsOut` comes only where the store may make no more nodes and the
/// result wants one that is not held. A call keeps what it has met in memory of this allocator
/// until its end; its result alone is left with the store, which may remember it
/// (`Nodes::remember`).
#[derive(Drop)]
pub struct Ops {
    alloc: Global,
}

impl Ops {
    /// It takes no memory.
    pub fn new(alloc: Global) -> Ops {
        Ops { alloc }
    }

    /// The variable `v`.
    pub fn var<N: Nodes>(&self, nodes: &mut N, v: u32) -> Result<Ref, OpFault>
        requires { v < (N.store nodes.old).vars }
        ensures { Answer (λ bits. slice_index_or bits v false)
            (N.store nodes.old) (N.store nodes.new) result }
    {
        Ok(nodes.mk(v, Ref::FALSE, Ref::TRUE)?)
    }

    /// 1 where `a` is 0.
    pub fn not<N: Nodes>(&self, nodes: &mut N, a: Ref) -> Result<Ref, OpFault>
        requires { IsRef (N.store nodes.old) a }
        ensures { Answer (λ bits. not (function (N.store nodes.old) a bits))
            (N.store nodes.old) (N.store nodes.new) result }
    {
        self.xor(nodes, a, Ref::TRUE)
    }

    /// 1 where both are 1.
    pub fn and<N: Nodes>(&self, nodes: &mut N, a: Ref, b: Ref) -> Result<Ref, OpFault>
        requires left { IsRef (N.store nodes.old) a }
        requires right { IsRef (N.store nodes.old) b }
        ensures { Answer
            (λ bits. function (N.store nodes.old) a bits && function (N.store nodes.old) b bits)
            (N.store nodes.old) (N.store nodes.new) result }
    {
        apply_uncounted::<N, Brand>(self, nodes, Op::And, a, b, Blank::new(1))
    }

    /// 1 where at least one of them is 1.
    pub fn or<N: Nodes>(&self, nodes: &mut N, a: Ref, b: Ref) -> Result<Ref, OpFault>
        requires left { IsRef (N.store nodes.old) a }
        requires right { IsRef (N.store nodes.old) b }
        ensures { Answer
            (λ bits. function (N.store nodes.old) a bits || function (N.store nodes.old) b bits)
            (N.store nodes.old) (N.store nodes.new) result }
    {
        apply_uncounted::<N, Brand>(self, nodes, Op::Or, a, b, Blank::new(1))
    }

    /// 1 where they differ.
    pub fn xor<N: Nodes>(&self, nodes: &mut N, a: Ref, b: Ref) -> Result<Ref, OpFault>
        requires left { IsRef (N.store nodes.old) a }
        requires right { IsRef (N.store nodes.old) b }
        ensures { Answer
            (λ bits. xor_bit (function (N.store nodes.old) a bits)
            (function (N.store nodes.old) b bits))
            (N.store nodes.old) (N.store nodes.new) result }
    {
        apply_uncounted::<N, Brand>(self, nodes, Op::Xor, a, b, Blank::new(1))
    }

    /// `a` where `c` is 1, and `b` where it is 0.
    pub fn ite<N: Nodes>(&self, nodes: &mut N, c: Ref, a: Ref, b: Ref) -> Result<Ref, OpFault>
        requires test { IsRef (N.store nodes.old) c }
        requires left { IsRef (N.store nodes.old) a }
        requires right { IsRef (N.store nodes.old) b }
        ensures { Answer
            (λ bits. if function (N.store nodes.old) c bits
            then function (N.store nodes.old) a bits
            else function (N.store nodes.old) b bits)
            (N.store nodes.old) (N.store nodes.new) result }
    {
        let x = Operands {
            first: c,
            second: a,
            third: b,
        };
        choice::<N, Brand>(self.alloc, nodes, x, Blank::new(1))
    }

    /// The operation `op`, with a counter of its steps. A step is one pair of references that is
    /// expanded, at the first variable that one of both reads (Bryant 1986); no pair is expanded
    /// twice, so that diagrams of m and n nodes take at most (m + 2) * (n + 2) steps. With a result
    /// these are the pair and all halves behind it, down to terminal cases; or there are none,
    /// where the pair is a terminal case or the store remembers its result. A step makes at most
    /// one node.
    pub fn apply<N: Nodes, L: Ledger>(
        &self,
        nodes: &mut N,
        op: Op,
        a: Ref,
        b: Ref,
        steps: &mut Steps<L>,
    ) -> Result<Ref, OpFault>
        requires left { IsRef (N.store nodes.old) a }
        requires right { IsRef (N.store nodes.old) b }
        ensures answer { Answer
            (λ bits. op_bit op (function (N.store nodes.old) a bits)
            (function (N.store nodes.old) b bits))
            (N.store nodes.old) (N.store nodes.new) result }
        ensures expansion { IsExpansion op (N.store nodes.old) (N.store nodes.new) a b
            steps.old steps.new result }
        ensures bound { steps.new
            ≤ steps.old + (diagram_size (N.store nodes.old) a + 2)
            * (diagram_size (N.store nodes.old) b + 2) }
        ensures counted { length (N.store nodes.new).made + steps.old
            ≤ length (N.store nodes.old).made + steps.new }
    {
        let x = pair(a, b);
        match op {
            Op::And => answer::<And, N, L>(self.alloc, nodes, x, steps),
            Op::Or => answer::<Or, N, L>(self.alloc, nodes, x, steps),
            Op::Xor => answer::<Xor, N, L>(self.alloc, nodes, x, steps),
        }
    }

    /// Whether the function is 0 at every assignment. It takes no memory.
    pub fn is_false<N: Nodes>(&self, nodes: &N, a: Ref) -> bool
        requires { IsRef (N.store nodes.now) a }
        ensures { IsTrue result ↔ ((bits : List Bool) → length bits ≡ (N.store nodes.now).vars
            → function (N.store nodes.now) a bits ≡ false) }
    {
        a == Ref::FALSE
    }

    /// Whether the function is 1 at every assignment. It takes no memory.
    pub fn is_true<N: Nodes>(&self, nodes: &N, a: Ref) -> bool
        requires { IsRef (N.store nodes.now) a }
        ensures { IsTrue result ↔ ((bits : List Bool) → length bits ≡ (N.store nodes.now).vars
            → function (N.store nodes.now) a bits ≡ true) }
    {
        a == Ref::TRUE
    }

    /// Whether both functions have one value at every assignment. It takes no memory.
    pub fn same<N: Nodes>(&self, nodes: &N, a: Ref, b: Ref) -> bool
        requires left { IsRef (N.store nodes.now) a }
        requires right { IsRef (N.store nodes.now) b }
        ensures { IsTrue result ↔ HaveOneFunction (N.store nodes.now) a b }
    {
        a == b
    }
}

/// `apply` with a counter that is thrown away.
fn apply_uncounted<N: Nodes, L: Ledger>(
    ops: &Ops,
    nodes: &mut N,
    op: Op,
    a: Ref,
    b: Ref,
    blank: Blank,
) -> Result<Ref, OpFault>
    requires name { blank.name ≡ L.name }
    requires all { blank.parts ≡ L.parts }
    requires some { 0 < blank.parts }
    requires left { IsRef (N.store nodes.old) a }
    requires right { IsRef (N.store nodes.old) b }
    ensures { Answer
        (λ bits. op_bit op (function (N.store nodes.old) a bits)
        (function (N.store nodes.old) b bits))
        (N.store nodes.old) (N.store nodes.new) result }
{
    ops.apply::<N, L>(nodes, op, a, b, &mut Steps::new(blank))
}

/// A choice, with a counter that is thrown away.
fn choice<N: Nodes, L: Ledger>(
    alloc: Global,
    nodes: &mut N,
    x: Operands,
    blank: Blank,
) -> Result<Ref, OpFault>
    requires name { blank.name ≡ L.name }
    requires all { blank.parts ≡ L.parts }
    requires some { 0 < blank.parts }
    requires refs { AreRefs (N.store nodes.old) x }
    ensures { Answer (named choice_rule (N.store nodes.old) x)
        (N.store nodes.old) (N.store nodes.new) result }
{
    answer::<Choice, N, L>(alloc, nodes, x, &mut Steps::new(blank))
}
