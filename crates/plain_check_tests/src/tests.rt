//! Worked examples, by hand; begin with `first_values`, `assertions` and `graphs`.

ghost use Rattle.std.specs.Prelude.{◌≡◌, ◌<◌, ◌≤◌, ◌∷◌, [], All, IfOk, length};
ghost use Rattle.net_core.specs.Cover.{IsCover};
ghost use Rattle.net_core.specs.Flat.{HasOneDriver, IsInRange};
ghost use Rattle.plain_check.specs.States.{IsGraphOver};

use bool_expr::Expr;
use net_core::{Cover, Gate, Init, Latch, Lit, Net, RawNet, order};
use plain_check::{GraphFound, Outcome, plain_check_graph, verdict};
use std::alloc::{AllocError, Global};
use std::test::Fail;
use ste_base::{Items, Name, NodeId, Time, VarId};
use ste_model::{Assertion, Bind, Edge, Graph, Quint, Verdict, Weakening};

/// The initial value of a latch, whether its task has reset, and the verdict on the claim that it
/// starts with 1.
const STARTS: &[(Init, bool, Verdict)] = &[
    (Init::One, true, Verdict::Pass),
    (Init::One, false, Verdict::Weak),
    (Init::Zero, true, Verdict::Strong),
    (Init::Zero, false, Verdict::Weak),
    (Init::Free, true, Verdict::Weak),
];

/// The cover of an AND of two inputs.
fn and_cover(alloc: Global) -> Result<Cover, AllocError>
    ensures inputs { IfOk result (λ cover. cover.inputs ≡ 2) }
    ensures sound { IfOk result (λ cover. IsCover cover) }
{
    let row = Items::from(Vec::from_array(alloc, [Lit::One, Lit::One])?);
    Ok(Cover {
        inputs: 2,
        on: true,
        rows: Items::from(Vec::from_array(alloc, [row])?),
    })
}

/// The gate that drives y from q and e.
fn and_gate(alloc: Global) -> Result<Gate, AllocError>
    ensures inputs { IfOk result (λ gate.
        gate.inputs ≡ record { 0 = 1 } ∷ record { 0 = 2 } ∷ []) }
    ensures output { IfOk result (λ gate. gate.output.0 ≡ 3) }
    ensures cover { IfOk result (λ gate. gate.cover ≡ 0) }
{
    Ok(Gate {
        inputs: Items::from(Vec::from_array(alloc, [NodeId(1), NodeId(2)])?),
        output: NodeId(3),
        cover: 0,
    })
}

/// Inputs d and e, a latch of d that drives q, and y = q & e.
fn latch_net(alloc: Global, init: Init) -> Result<RawNet, AllocError>
    ensures in_range { IfOk result (λ raw. IsInRange raw) }
    ensures one_driver { IfOk result (λ raw. HasOneDriver raw) }
    ensures widths { IfOk result (λ raw. All (λ gate. length gate.inputs ≤ 8) raw.gates) }
{
    let latch = Latch {
        input: NodeId(0),
        output: NodeId(1),
        init,
    };
    let gate = and_gate(alloc)?;
    let cover = and_cover(alloc)?;
    Ok(RawNet {
        nets: 4,
        inputs: Items::from(Vec::from_array(alloc, [NodeId(0), NodeId(2)])?),
        outputs: Items::from(Vec::from_array(alloc, [NodeId(1)])?),
        gates: Items::from(Vec::from_array(alloc, [gate])?),
        latches: Items::from(Vec::from_array(alloc, [latch])?),
        covers: Items::from(Vec::from_array(alloc, [cover])?),
    })
}

/// The claim that q has 1 at time 0.
fn starts_with_one(alloc: Global, reset: bool) -> Result<Assertion, AllocError>
    ensures { IfOk result (λ task. task.ant ≡ []) }
{
    let claim = Quint {
        guard: Expr::Const(true),
        node: NodeId(1),
        value: Expr::Const(true),
        from: 0,
        to: 1,
    };
    Ok(Assertion {
        name: Name::from_bytes(alloc, b"r")?,
        reset,
        ant: Items::new(alloc),
        con: Items::from(Vec::from_array(alloc, [claim])?),
        weak: Items::new(alloc),
    })
}

/// The net whose latch has this initial value, in order.
fn net_of(alloc: Global, init: Init) -> Result<Net, Fail>
    ensures { IfOk result (λ net. All (λ gate. length gate.inputs ≤ 8) net.raw.gates) }
{
    match order(alloc, latch_net(alloc, init)?) {
        Ok(net) => Ok(net),
        Err(_) => Err("no order".into()),
    }
}

/// The verdict on the claim that q starts with 1.
fn verdict_on(alloc: Global, net: &Net, reset: bool) -> Result<Verdict, AllocError>
    requires { All (λ gate. length gate.inputs ≤ 8) net.now.raw.gates }
{
    let task = starts_with_one(alloc, reset)?;
    verdict(alloc, net, 0, &task)
}

/// The same on the net whose latch has this initial value.
fn first_verdict(alloc: Global, init: Init, reset: bool) -> Result<Verdict, Fail> {
    let net = net_of(alloc, init)?;
    Ok(verdict_on(alloc, &net, reset)?)
}

#[test]
fn first_values(rt: HostRuntime) -> Result<(), Fail> {
    for (init, reset, want) in STARTS {
        let got = first_verdict(rt.alloc(), *init, *reset)?;
        assert!(rt; got == *want, "at {init:?} with {reset}: {got:?}");
    }
    Ok(())
}

/// The bit that is asked for, over one variable p.
#[derive(Clone, Copy, Drop)]
enum Value {
    Zero,
    One,
    P,
    NotP,
}

/// What is asked of a net.
type Asked = (u32, Value);

/// What is asked of a net at each time from one up to, but not at, another.
type AskedLong = (u32, Value, Time, Time);

/// A net that is weakened at each time from one up to, but not at, another.
type WeakLong = (u32, Time, Time);

/// An assertion, by whether latches begin with their initial values, what is given, what has to
/// follow and what is weakened; and its verdict over one variable.
type AssertionCase = (
    bool,
    &'static [AskedLong],
    &'static [AskedLong],
    &'static [WeakLong],
    Verdict,
);

/// An edge: its ends, what is given, what has to follow and what is weakened.
type EdgeCase = (u32, u32, &'static [Asked], &'static [Asked], &'static [u32]);

/// A graph, by whether latches begin with their initial values, its number of vertices and its
/// edges; an assignment; and what is found under it, with the path, its last time and the number of
/// the consequent that fails there.
type GraphCase = (
    bool,
    u32,
    &'static [EdgeCase],
    &'static [bool],
    Outcome,
    &'static [usize],
    usize,
    usize,
);

const D: u32 = 0;

const Q: u32 = 1;

const E: u32 = 2;

const Y: u32 = 3;

/// q and e are 1 at time 0, so y is.
const ONES: &[AskedLong] = &[(Q, Value::One, 0, 1), (E, Value::One, 0, 1)];

/// y is 1 at time 0.
const Y_ONE: &[AskedLong] = &[(Y, Value::One, 0, 1)];

/// d is p at time 0.
const D_P: &[AskedLong] = &[(D, Value::P, 0, 1)];

/// q is p at time 1.
const Q_P: &[AskedLong] = &[(Q, Value::P, 1, 2)];

/// q is 1 at time 0.
const Q_ONE: &[AskedLong] = &[(Q, Value::One, 0, 1)];

/// q is 0 at time 0.
const Q_ZERO: &[AskedLong] = &[(Q, Value::Zero, 0, 1)];

/// The assertions, and their verdicts.
const ASSERTIONS: &[AssertionCase] = &[
    // a gate: weakened, behind the depth, at no time, and no net of the net
    (false, ONES, Y_ONE, &[], Verdict::Pass),
    (false, ONES, Y_ONE, &[(Y, 0, 1)], Verdict::Weak),
    (false, ONES, Y_ONE, &[(Y, 1, 9)], Verdict::Pass),
    (false, ONES, Y_ONE, &[(Y, 0, 0), (Y, 1, 0)], Verdict::Pass),
    (false, ONES, Y_ONE, &[(4, 0, 9)], Verdict::Pass),
    // listed twice
    (false, ONES, Y_ONE, &[(Y, 0, 1), (Y, 0, 1)], Verdict::Weak),
    // bound too: it has what is asked of it
    (false, ONES, Y_ONE, &[(Q, 0, 1), (E, 0, 2)], Verdict::Pass),
    (false, Y_ONE, Y_ONE, &[(Y, 0, 1)], Verdict::Pass),
    // an input
    (false, D_P, Q_P, &[(D, 0, 1)], Verdict::Pass),
    (
        false,
        D_P,
        &[(E, Value::P, 0, 1)],
        &[(E, 0, 1)],
        Verdict::Weak,
    ),
    // a latch later
    (false, D_P, Q_P, &[], Verdict::Pass),
    (false, D_P, Q_P, &[(Q, 0, 1)], Verdict::Pass),
    (false, D_P, Q_P, &[(Q, 1, 2)], Verdict::Weak),
    (false, D_P, Q_P, &[(Q, 0, 2)], Verdict::Weak),
    // a latch at time 0
    (true, &[], Q_ONE, &[], Verdict::Pass),
    (true, &[], Q_ONE, &[(Q, 0, 1)], Verdict::Weak),
    (true, &[], Q_ONE, &[(Q, 1, 2)], Verdict::Pass),
    // and what reads it
    (true, &[(E, Value::One, 0, 1)], Y_ONE, &[], Verdict::Pass),
    (
        true,
        &[(E, Value::One, 0, 1)],
        Y_ONE,
        &[(Q, 0, 1)],
        Verdict::Weak,
    ),
    // bound against its initial value
    (true, Q_ZERO, Q_ONE, &[], Verdict::Vacuous),
    (true, Q_ZERO, Q_ONE, &[(Q, 0, 1)], Verdict::Strong),
    (true, Q_ZERO, Q_ZERO, &[(Q, 0, 1)], Verdict::Pass),
];

/// A loop that keeps what it is given.
const LOOP: &[EdgeCase] = &[
    (0, 1, &[(D, Value::P)], &[], &[]),
    (1, 1, &[(D, Value::P)], &[(Q, Value::P)], &[]),
];

/// Two edges into one vertex, with opposite bits.
const JOIN: &[EdgeCase] = &[
    (0, 1, &[(D, Value::Zero)], &[], &[]),
    (0, 1, &[(D, Value::One)], &[], &[]),
    (1, 2, &[], &[(Q, Value::One)], &[]),
];

/// A failure whose run is due.
const REFUTED: &[EdgeCase] = &[
    (0, 1, &[(D, Value::P)], &[], &[]),
    (1, 2, &[], &[(Q, Value::NotP)], &[]),
];

/// The same behind a consequent that is met.
const SECOND: &[EdgeCase] = &[
    (0, 1, &[(D, Value::P)], &[], &[]),
    (1, 2, &[], &[(Q, Value::P), (Q, Value::NotP)], &[]),
];

/// An edge that only p = 0 can take, by what is asked of the latch's input.
const BLOCKED: &[EdgeCase] = &[
    (0, 1, &[(D, Value::Zero), (D, Value::P)], &[], &[]),
    (1, 2, &[], &[(Q, Value::One)], &[]),
];

/// The same, by what is asked of another input: the latch's next set is not empty where the edge is
/// blocked.
const BLOCKED_BESIDE: &[EdgeCase] = &[
    (0, 1, &[(E, Value::Zero), (E, Value::P)], &[], &[]),
    (1, 2, &[], &[(Q, Value::One)], &[]),
];

/// A loop at the initial vertex: what it gives is united with the first values.
const RETURN: &[EdgeCase] = &[(0, 0, &[(D, Value::Zero)], &[(Q, Value::One)], &[])];

/// Two ways of three edges, one of two, and one that fails later; the least list of the shortest is
/// shown.
const WAYS: &[EdgeCase] = &[
    (0, 3, &[(D, Value::Zero)], &[], &[]),
    (3, 1, &[(D, Value::Zero)], &[], &[]),
    (0, 1, &[(D, Value::Zero)], &[], &[]),
    (0, 1, &[(D, Value::Zero)], &[], &[]),
    (1, 2, &[], &[(Q, Value::One)], &[]),
    (1, 2, &[], &[(Q, Value::One)], &[]),
];

/// The loop with what it keeps weakened at its second edge, and at its first.
const LOOP_WEAK: &[EdgeCase] = &[
    (0, 1, &[(D, Value::P)], &[], &[]),
    (1, 1, &[(D, Value::P)], &[(Q, Value::P)], &[Q]),
];

const LOOP_WEAK_BEFORE: &[EdgeCase] = &[
    (0, 1, &[(D, Value::P)], &[], &[Q, D, Q]),
    (1, 1, &[(D, Value::P)], &[(Q, Value::P)], &[D]),
];

/// Two edges that say the same, but that the second one weakens the output of the gate.
const GATE_WEAK: &[EdgeCase] = &[
    (0, 1, &[(D, Value::One)], &[], &[]),
    (1, 2, &[(E, Value::One)], &[(Y, Value::One)], &[]),
    (1, 2, &[(E, Value::One)], &[(Y, Value::One)], &[Y]),
];

/// The graphs, and what is found of them.
const GRAPHS: &[GraphCase] = &[
    (false, 2, LOOP, &[false], Outcome::Fine, &[], 0, 0),
    (false, 2, LOOP, &[true], Outcome::Fine, &[], 0, 0),
    (false, 3, JOIN, &[], Outcome::Weak, &[0, 2], 1, 0),
    (false, 3, REFUTED, &[false], Outcome::Strong, &[0, 1], 1, 0),
    (false, 3, REFUTED, &[true], Outcome::Strong, &[0, 1], 1, 0),
    (false, 3, SECOND, &[false], Outcome::Strong, &[0, 1], 1, 1),
    (false, 3, BLOCKED, &[false], Outcome::Strong, &[0, 1], 1, 0),
    (
        false,
        3,
        BLOCKED,
        &[true],
        Outcome::Contradictory,
        &[],
        0,
        0,
    ),
    (
        false,
        3,
        BLOCKED_BESIDE,
        &[false],
        Outcome::Weak,
        &[0, 1],
        1,
        0,
    ),
    (
        false,
        3,
        BLOCKED_BESIDE,
        &[true],
        Outcome::Contradictory,
        &[],
        0,
        0,
    ),
    (false, 1, &[], &[], Outcome::Contradictory, &[], 0, 0),
    (true, 1, RETURN, &[], Outcome::Weak, &[0], 0, 0),
    (false, 4, WAYS, &[], Outcome::Strong, &[2, 4], 1, 0),
    (false, 2, LOOP_WEAK, &[false], Outcome::Weak, &[0, 1], 1, 0),
    (
        false,
        2,
        LOOP_WEAK_BEFORE,
        &[true],
        Outcome::Fine,
        &[],
        0,
        0,
    ),
    (false, 3, GATE_WEAK, &[], Outcome::Weak, &[0, 2], 1, 0),
];

/// The expression of a value.
fn expr_of(alloc: Global, value: Value) -> Result<Expr, AllocError> {
    match value {
        Value::Zero => Ok(Expr::Const(false)),
        Value::One => Ok(Expr::Const(true)),
        Value::P => Ok(Expr::Var(VarId(0))),
        Value::NotP => Ok(Expr::Not(Box::new(alloc, Expr::Var(VarId(0)))?)),
    }
}

/// The quintuples of what is asked.
fn quints_of(alloc: Global, nets: u32, asked: &[AskedLong]) -> Result<Items<Quint>, Fail>
    ensures { IfOk result (λ quints. All (λ quint. quint.node.0 < nets) quints) }
{
    let mut quints = Items::new(alloc);
    for (node, value, from, to) in asked {
        if *node >= nets {
            return Err("no such net".into());
        }
        quints.push(Quint {
            guard: Expr::Const(true),
            node: NodeId(*node),
            value: expr_of(alloc, *value)?,
            from: *from,
            to: *to,
        })?;
    }
    Ok(quints)
}

/// The weakenings of what is weakened.
fn weakenings_of(alloc: Global, weak: &[WeakLong]) -> Result<Items<Weakening>, AllocError> {
    let mut weakenings = Items::new(alloc);
    for (node, from, to) in weak {
        weakenings.push(Weakening {
            node: NodeId(*node),
            from: *from,
            to: *to,
        })?;
    }
    Ok(weakenings)
}

/// The assertion of a case.
fn assertion_of(alloc: Global, nets: u32, case: &AssertionCase) -> Result<Assertion, Fail>
    ensures { IfOk result (λ task. All (λ quint. quint.node.0 < nets) task.ant) }
{
    let (reset, ant, con, weak, _) = case;
    let ant = quints_of(alloc, nets, ant)?;
    let con = quints_of(alloc, nets, con)?;
    Ok(Assertion {
        name: Name::from_bytes(alloc, b"a")?,
        reset: *reset,
        ant,
        con,
        weak: weakenings_of(alloc, weak)?,
    })
}

/// The verdict of the assertion of a case.
fn verdict_of(alloc: Global, net: &Net, case: &AssertionCase) -> Result<Verdict, Fail>
    requires { All (λ gate. length gate.inputs ≤ 8) net.now.raw.gates }
{
    let task = assertion_of(alloc, net.nets(), case)?;
    Ok(verdict(alloc, net, 1, &task)?)
}

/// The same over the net of a latch that begins with 1.
fn verdict_of_latch(alloc: Global, case: &AssertionCase) -> Result<Verdict, Fail> {
    let net = net_of(alloc, Init::One)?;
    verdict_of(alloc, &net, case)
}

#[test]
fn assertions(rt: HostRuntime) -> Result<(), Fail> {
    for (number, case) in ASSERTIONS.iter().enumerate() {
        let got = verdict_of_latch(rt.alloc(), case)?;
        assert!(rt; got == case.4, "assertion {number}: {got:?}");
    }
    Ok(())
}

/// The nets of these numbers.
fn nodes_of(alloc: Global, numbers: &[u32]) -> Result<Items<NodeId>, AllocError> {
    let mut nodes = Items::new(alloc);
    for number in numbers {
        nodes.push(NodeId(*number))?;
    }
    Ok(nodes)
}

/// The bindings of what is asked.
fn binds_of(alloc: Global, nets: u32, asked: &[Asked]) -> Result<Items<Bind>, Fail>
    ensures { IfOk result (λ binds. All (λ bind. bind.node.0 < nets) binds) }
{
    let mut binds = Items::new(alloc);
    for (node, value) in asked {
        if *node >= nets {
            return Err("no such net".into());
        }
        binds.push(Bind {
            guard: Expr::Const(true),
            node: NodeId(*node),
            value: expr_of(alloc, *value)?,
        })?;
    }
    Ok(binds)
}

/// An edge between so many vertices.
fn edge_of(alloc: Global, nets: u32, vertices: u32, case: &EdgeCase) -> Result<Edge, Fail>
    ensures from { IfOk result (λ edge. edge.from < vertices) }
    ensures to { IfOk result (λ edge. edge.to < vertices) }
    ensures asks { IfOk result (λ edge. All (λ bind. bind.node.0 < nets) edge.ant) }
{
    let (from, to, ant, con, weak) = case;
    if *from >= vertices || *to >= vertices {
        return Err("no such vertex".into());
    }
    let ant = binds_of(alloc, nets, ant)?;
    let con = binds_of(alloc, nets, con)?;
    Ok(Edge {
        from: *from,
        to: *to,
        ant,
        con,
        weak: nodes_of(alloc, weak)?,
    })
}

/// The edges of a graph.
fn edges_of(
    alloc: Global,
    nets: u32,
    vertices: u32,
    cases: &[EdgeCase],
) -> Result<Items<Edge>, Fail>
    ensures from { IfOk result (λ edges. All (λ edge. edge.from < vertices) edges) }
    ensures to { IfOk result (λ edges. All (λ edge. edge.to < vertices) edges) }
    ensures asks { IfOk result (λ edges.
        All (λ edge. All (λ bind. bind.node.0 < nets) edge.ant) edges) }
{
    let mut edges = Items::new(alloc);
    for case in cases {
        edges.push(edge_of(alloc, nets, vertices, case)?)?;
    }
    Ok(edges)
}

/// The names of so many vertices.
fn names_of(alloc: Global, vertices: u32) -> Result<Items<Name>, AllocError>
    ensures { IfOk result (λ names. length names ≡ vertices) }
{
    let mut names = Items::new(alloc);
    for _ in 0..vertices {
        names.push(Name::from_bytes(alloc, b"v")?)?;
    }
    Ok(names)
}

/// A graph over a net.
fn graph_of(
    alloc: Global,
    net: &Net,
    reset: bool,
    vertices: u32,
    cases: &[EdgeCase],
) -> Result<Graph, Fail>
    ensures { IfOk result (λ graph. IsGraphOver net.now.raw graph) }
{
    if vertices == 0 {
        return Err("no vertex".into());
    }
    let names = names_of(alloc, vertices)?;
    let edges = edges_of(alloc, net.nets(), vertices, cases)?;
    Ok(Graph {
        name: Name::from_bytes(alloc, b"g")?,
        reset,
        vertices: names,
        edges,
    })
}

/// Whether this is what is to be found.
fn is_found(found: &GraphFound, case: &GraphCase) -> bool {
    let (_, _, _, _, want, path, time, consequent) = case;
    found.outcome == *want
        && match &found.shown {
            Some(shown) => {
                shown.path.as_slice() == *path
                    && shown.time == *time
                    && shown.consequent == *consequent
            }
            None => path.is_empty(),
        }
}

/// Whether of a graph is found what is to be found.
fn graph_is_found(
    alloc: Global,
    net: &Net,
    graph: &Graph,
    case: &GraphCase,
) -> Result<bool, AllocError>
    requires widths { All (λ gate. length gate.inputs ≤ 8) net.now.raw.gates }
    requires graph { IsGraphOver net.now.raw graph.now }
{
    let found = plain_check_graph(alloc, net, graph, case.3)?;
    Ok(is_found(&found, case))
}

/// The same of the graph of a case.
fn case_is_found(alloc: Global, net: &Net, case: &GraphCase) -> Result<bool, Fail>
    requires { All (λ gate. length gate.inputs ≤ 8) net.now.raw.gates }
{
    let graph = graph_of(alloc, net, case.0, case.1, case.2)?;
    Ok(graph_is_found(alloc, net, &graph, case)?)
}

/// The same over the net of a latch.
fn is_found_of_latch(alloc: Global, case: &GraphCase) -> Result<bool, Fail> {
    let net = net_of(alloc, Init::One)?;
    case_is_found(alloc, &net, case)
}

#[test]
fn graphs(rt: HostRuntime) -> Result<(), Fail> {
    for (number, case) in GRAPHS.iter().enumerate() {
        assert!(rt; is_found_of_latch(rt.alloc(), case)?, "graph {number}");
    }
    Ok(())
}
