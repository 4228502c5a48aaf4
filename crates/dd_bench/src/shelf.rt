//! Diagrams by number; begin with `Shelf`.

ghost use Rattle.std.specs.Prelude.{All, IfOk};
ghost use Rattle.std.proofs.Props.{props};
ghost use Rattle.dd_nodes.specs.Diagram.{Grows};
ghost use Rattle.dd_nodes.specs.Stores.{IsRef};

use crate::trace::Act;
use dd_nodes::{Nodes, Ref};
use dd_ops::{OpFault, Ops};
use std::alloc::Global;

/// Diagrams that were made, by the places of a trace.
#[derive(Drop)]
pub struct Shelf<N: Nodes> {
    ops: Ops,
    nodes: N,
    refs: Vec<Ref>,
    ghost held: { All (λ r. IsRef (N.store nodes) r) refs.items } by { Prim.hlevel props },
}

/// The operation of an act that is no variable.
fn act_on<N: Nodes>(
    ops: &Ops,
    nodes: &mut N,
    act: Act,
    a: Ref,
    b: Ref,
    c: Ref,
) -> Result<Ref, OpFault>
    requires first { IsRef (N.store nodes.old) a }
    requires second { IsRef (N.store nodes.old) b }
    requires third { IsRef (N.store nodes.old) c }
    ensures grows { Grows (N.store nodes.old).held (N.store nodes.new).held }
    ensures ok { IfOk result (λ r. IsRef (N.store nodes.new) r) }
{
    match act {
        Act::Not(_) => ops.not(nodes, a),
        Act::And(_, _) => ops.and(nodes, a, b),
        Act::Or(_, _) => ops.or(nodes, a, b),
        Act::Xor(_, _) => ops.xor(nodes, a, b),
        _ => ops.ite(nodes, a, b, c),
    }
}

impl<N: Nodes + Drop> Shelf<N> {
    pub fn new(alloc: Global, nodes: N) -> Self {
        Shelf {
            ops: Ops::new(alloc),
            nodes,
            refs: Vec::new(alloc),
        }
    }

    /// Whether both constants could be put first.
    pub fn put_constants(&mut self) -> bool {
        self.keep(Ref::FALSE) && self.keep(Ref::TRUE)
    }

    /// Whether the result of an act could be put behind the others.
    pub fn put(&mut self, act: Act) -> bool {
        match act {
            Act::Var(v) => self.put_var(v),
            Act::Not(a) => self.put_of(act, a, 0, 0),
            Act::And(a, b) => self.put_of(act, a, b, 0),
            Act::Or(a, b) => self.put_of(act, a, b, 0),
            Act::Xor(a, b) => self.put_of(act, a, b, 0),
            Act::Ite(c, a, b) => self.put_of(act, c, a, b),
        }
    }

    fn put_var(&mut self, v: u32) -> bool {
        if v >= self.nodes.vars() {
            return false;
        }
        match self.ops.var(&mut self.nodes, v) {
            Ok(r) => self.keep(r),
            Err(_) => false,
        }
    }

    fn put_of(&mut self, act: Act, i: u32, j: u32, k: u32) -> bool {
        let count = self.refs.len();
        if i as usize >= count || j as usize >= count || k as usize >= count {
            return false;
        }
        let a = self.refs[i as usize];
        let b = self.refs[j as usize];
        let c = self.refs[k as usize];
        match act_on(&self.ops, &mut self.nodes, act, a, b, c) {
            Ok(r) => self.keep(r),
            Err(_) => false,
        }
    }

    fn keep(&mut self, r: Ref) -> bool
        requires { IsRef (N.store self.old.nodes) r }
    {
        self.refs.push(r).is_ok()
    }

    /// The number of nodes made.
    pub fn used(&self) -> u32 {
        self.nodes.used()
    }
}
