//! Diagrams by number, for tests; begin with `Shelf`.

ghost use Rattle.std.specs.Prelude.{All, IfOk};
ghost use Rattle.std.proofs.Props.{props};
ghost use Rattle.dd_nodes.specs.Diagram.{Grows};
ghost use Rattle.dd_nodes.specs.Stores.{IsRef};

use dd_nodes::{Nodes, Ref};
use dd_ops::{OpFault, Ops};
use std::alloc::Global;
use std::test::Fail;

/// What a test makes of the diagrams on a shelf.
#[derive(Clone, Copy, Drop)]
pub enum Act {
    Not,
    And,
    Or,
    Xor,
    Ite,
}

fn act_on<N: Nodes>(
    ops: &Ops,
    nodes: &mut N,
    act: Act,
    a: Ref,
    b: Ref,
    c: Ref,
) -> Result<Ref, OpFault>
    requires first { IsRef (N.store nodes.old) a }
    requires second { IsRef (N.store nodes.old) b }
    requires third { IsRef (N.store nodes.old) c }
    ensures grows { Grows (N.store nodes.old).held (N.store nodes.new).held }
    ensures ok { IfOk result (λ r. IsRef (N.store nodes.new) r) }
{
    match act {
        Act::Not => ops.not(nodes, a),
        Act::And => ops.and(nodes, a, b),
        Act::Or => ops.or(nodes, a, b),
        Act::Xor => ops.xor(nodes, a, b),
        Act::Ite => ops.ite(nodes, a, b, c),
    }
}

/// Diagrams that a test has made, by number.
#[derive(Drop)]
pub struct Shelf<N: Nodes> {
    ops: Ops,
    nodes: N,
    refs: Vec<Ref>,
    ghost held: { All (λ r. IsRef (N.store nodes) r) refs.items } by { Prim.hlevel props },
}

impl<N: Nodes + Drop> Shelf<N> {
    pub fn new(alloc: Global, nodes: N) -> Self {
        Shelf {
            ops: Ops::new(alloc),
            nodes,
            refs: Vec::new(alloc),
        }
    }

    pub fn put_var(&mut self, v: u32) -> Result<usize, Fail> {
        if v >= self.nodes.vars() {
            return Err("no such variable")?;
        }
        match self.ops.var(&mut self.nodes, v) {
            Ok(r) => self.keep(r),
            Err(fault) => Err(fault.into()),
        }
    }

    pub fn put(&mut self, act: Act, i: usize, j: usize, k: usize) -> Result<usize, Fail> {
        let count = self.refs.len();
        if i >= count || j >= count || k >= count {
            return Err("no such diagram".into());
        }
        let a = self.refs[i];
        let b = self.refs[j];
        let c = self.refs[k];
        match act_on(&self.ops, &mut self.nodes, act, a, b, c) {
            Ok(r) => self.keep(r),
            Err(fault) => Err(fault.into()),
        }
    }

    fn keep(&mut self, r: Ref) -> Result<usize, Fail>
        requires { IsRef (N.store self.old.nodes) r }
    {
        let place = self.refs.len();
        self.refs.push(r)?;
        Ok(place)
    }

    pub fn are_same(&self, i: usize, j: usize) -> Result<bool, Fail> {
        if i >= self.refs.len() || j >= self.refs.len() {
            return Err("no such diagram".into());
        }
        Ok(self.ops.same(&self.nodes, self.refs[i], self.refs[j]))
    }

    pub fn used(&self) -> u32 {
        self.nodes.used()
    }
}
