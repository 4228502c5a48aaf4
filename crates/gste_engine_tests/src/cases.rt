//! Graphs over an input and a latch; begin with `graph_of`.

ghost use Rattle.std.specs.Prelude.{◌≡◌, ◌<◌, [], All, IfOk, IsTrue, length, map};
ghost use Rattle.net_core.specs.Flat.{HasOneDriver, IsInRange};
ghost use Rattle.gate_sets.specs.Lists.{rows_of};
ghost use Rattle.ste_model.specs.Expressions.{reads};
ghost use Rattle.ste_model.specs.GraphNeed.{BindsReadBelow};
ghost use Rattle.gste_engine_tests.specs.Cases.{IsCase, IsCaseEdge};

use bool_expr::Expr;
use net_core::{Init, Latch, Net, RawNet, order};
use std::alloc::{AllocError, Global};
use std::test::Fail;
use ste_base::{Items, Name, NodeId, VarId};
use ste_model::{Bind, Edge, Graph};
use sym_step::GateRows;

/// An expression over one variable p.
#[derive(Clone, Copy, Drop)]
pub enum Value {
    Zero,
    One,
    P,
    NotP,
}

/// What is asked of a net, where a guard is 1.
pub type Asked = (u32, Value, Value);

/// An edge: its ends, what is given and what has to follow.
pub type EdgeCase = (u32, u32, &'static [Asked], &'static [Asked]);

/// The net of the input.
pub const D: u32 = 0;

/// The net that the latch drives.
pub const Q: u32 = 1;

/// What an edge may be given.
pub const GIVEN: &[&[Asked]] = &[
    &[(D, Value::One, Value::Zero)],
    &[(D, Value::One, Value::One)],
    &[(D, Value::One, Value::P)],
    &[(D, Value::One, Value::NotP)],
    &[(Q, Value::One, Value::P)],
    &[],
];

/// What may have to follow on it.
pub const CLAIMS: &[&[Asked]] = &[
    &[(Q, Value::One, Value::One)],
    &[(Q, Value::One, Value::P)],
    &[(Q, Value::P, Value::Zero)],
    &[],
];

/// A net with its rows.
#[derive(Drop)]
pub struct Ready {
    pub net: Net,
    pub rows: GateRows,
    ghost fit: { rows.covers ≡ map rows_of net.raw.covers },
    ghost nets: { net.raw.nets ≡ 2 },
    ghost gates: { net.raw.gates ≡ [] },
}

/// An input d, and a latch of d that drives q and has the initial value 1.
pub fn latch(alloc: Global) -> Result<RawNet, AllocError>
    ensures in_range { IfOk result (λ raw. IsInRange raw) }
    ensures one_driver { IfOk result (λ raw. HasOneDriver raw) }
    ensures nets { IfOk result (λ raw. raw.nets ≡ 2) }
    ensures gates { IfOk result (λ raw. raw.gates ≡ []) }
    ensures covers { IfOk result (λ raw. raw.covers ≡ []) }
{
    let latches = [Latch {
        input: NodeId(0),
        output: NodeId(1),
        init: Init::One,
    }];
    Ok(RawNet {
        nets: 2,
        inputs: Items::from(Vec::from_array(alloc, [NodeId(0)])?),
        outputs: Items::new(alloc),
        gates: Items::new(alloc),
        latches: Items::from(Vec::from_array(alloc, latches)?),
        covers: Items::new(alloc),
    })
}

/// That net, with its rows.
pub fn lat(alloc: Global) -> Result<Ready, Fail> {
    match order(alloc, latch(alloc)?) {
        Ok(net) => {
            let rows = GateRows::of(alloc, &net)?;
            Ok(Ready { net, rows })
        }
        Err(_) => Err("no order".into()),
    }
}

/// The expression of a value.
pub fn expr_of(alloc: Global, value: Value) -> Result<Expr, AllocError>
    ensures { IfOk result (λ expr. IsTrue (reads 1 expr)) }
{
    match value {
        Value::Zero => Ok(Expr::Const(false)),
        Value::One => Ok(Expr::Const(true)),
        Value::P => Ok(Expr::Var(VarId(0))),
        Value::NotP => Ok(Expr::Not(Box::new(alloc, Expr::Var(VarId(0)))?)),
    }
}

/// The bindings of what is asked.
pub fn binds_of(alloc: Global, asked: &[Asked]) -> Result<Items<Bind>, Fail>
    ensures nets { IfOk result (λ binds. All (λ bind. bind.node.0 < 2) binds) }
    ensures reads { IfOk result (λ binds. BindsReadBelow 1 binds) }
{
    let mut binds = Items::new(alloc);
    for (node, guard, value) in asked {
        if *node >= 2 {
            return Err("no such net".into());
        }
        let guard = expr_of(alloc, *guard)?;
        let value = expr_of(alloc, *value)?;
        binds.push(Bind {
            guard,
            node: NodeId(*node),
            value,
        })?;
    }
    Ok(binds)
}

/// An edge between so many vertices.
pub fn edge_of(alloc: Global, vertices: u32, case: &EdgeCase) -> Result<Edge, Fail>
    ensures { IfOk result (λ edge. IsCaseEdge vertices edge) }
{
    let (from, to, ant, con) = case;
    if *from >= vertices || *to >= vertices {
        return Err("no such vertex".into());
    }
    let ant = binds_of(alloc, ant)?;
    let con = binds_of(alloc, con)?;
    Ok(Edge {
        from: *from,
        to: *to,
        ant,
        con,
        weak: Items::new(alloc),
    })
}

/// The edges of a graph of so many vertices.
pub fn edges_of(alloc: Global, vertices: u32, cases: &[EdgeCase]) -> Result<Items<Edge>, Fail>
    ensures { IfOk result (λ edges. All (IsCaseEdge vertices) edges) }
{
    let mut edges = Items::new(alloc);
    for case in cases {
        edges.push(edge_of(alloc, vertices, case)?)?;
    }
    Ok(edges)
}

/// The names of so many vertices.
pub fn names_of(alloc: Global, vertices: u32) -> Result<Items<Name>, AllocError>
    ensures { IfOk result (λ names. length names ≡ vertices) }
{
    let mut names = Items::new(alloc);
    for _ in 0..vertices {
        names.push(Name::from_bytes(alloc, b"v")?)?;
    }
    Ok(names)
}

/// A graph over the net.
pub fn graph_of(
    alloc: Global,
    ready: &Ready,
    reset: bool,
    vertices: u32,
    cases: &[EdgeCase],
) -> Result<Graph, Fail>
    ensures { IfOk result (λ graph. IsCase ready.now.net.raw graph) }
{
    let _ = ready;
    if vertices == 0 {
        return Err("no vertex".into());
    }
    let names = names_of(alloc, vertices)?;
    let edges = edges_of(alloc, vertices, cases)?;
    Ok(Graph {
        name: Name::from_bytes(alloc, b"g")?,
        reset,
        vertices: names,
        edges,
    })
}
