//! Runs worked by hand; begin with `rows_of_given_bits`.

ghost use Rattle.std.specs.Prelude.{◌≡◌, ◌<◌, ◌↔◌, All, IsTrue, length};

use crate::netlists::net_of;
use bool_expr::Expr;
use counter_run::along::run_along;
use counter_run::printed::run_as_asked;
use counter_run::two_valued;
use counter_run::undriven::undriven_nets;
use net_core::Net;
use std::alloc::{AllocError, Global};
use std::test::Fail;
use ste_base::{Items, Name, NodeId, Time, VarId};
use ste_model::{Assertion, Bind, Edge, Graph, Quint};

/// An input d, which is net 0, and free nets f, which is net 2, and z, which is net 7. Latches: q
/// takes d and has initial value 1, p takes w and has 0, r takes f and has neither. Gates, the
/// later one first: w is y or p, but not both; y is d and f. Net 1 is q, 3 p, 4 r, 5 y and 6 w.
const SAMPLE: &str =
    ".model m\n.inputs d\n.outputs q f p r y w z\n.latch d q 1\n.latch w p 0\n.latch f r\n.names y p w\n10 1\n01 1\n.names d f y\n0- 0\n-0 0\n";

/// An input d, which is net 0, and a latch q, which is net 1, takes d and has initial value 1.
const LATCH: &str = ".model m\n.inputs d\n.latch d q 1\n";

/// The bits of a text of the characters 0 and 1.
fn bits_of(alloc: Global, text: &[u8]) -> Result<Items<bool>, AllocError> {
    let bits: Vec<bool> = text.iter().map(|byte| *byte == b'1').collect(alloc)?;
    Ok(bits.into())
}

/// Rows of bits, each with a blank before it.
fn text_of(alloc: Global, rows: &[Items<bool>]) -> Result<Vec<u8>, AllocError> {
    let mut out = Vec::new(alloc);
    for row in rows {
        out.push(b' ')?;
        for bit in row.as_slice() {
            out.push(if *bit { b'1' } else { b'0' })?;
        }
    }
    Ok(out)
}

/// Whether each row has so many bits.
fn are_as_long(rows: &[Items<bool>], times: Time) -> bool
    ensures { IsTrue result ↔ All (λ row. length row ≡ times) rows.now }
{
    rows.iter().all(|row| row.len() == times as usize)
}

/// The rows of the run with these bits.
fn run_with(
    alloc: Global,
    net: &Net,
    times: Time,
    inputs: &[Items<bool>],
    first: &[bool],
) -> Result<Vec<u8>, Fail> {
    let nodes = undriven_nets(alloc, net)?;
    if inputs.len() != nodes.len() || first.len() != net.latches().len() {
        return Err("a row for each input and free net, and a bit for each latch".into());
    }
    if !are_as_long(inputs, times) {
        return Err("a bit for each time".into());
    }
    let run = two_valued(alloc, net, times, inputs, first)?;
    let text = text_of(alloc, run.rows.as_slice())?;
    Ok(text)
}

/// The rows of these texts.
fn rows_of(alloc: Global, texts: &[&[u8]]) -> Result<Vec<Items<bool>>, AllocError> {
    let mut rows = Vec::new(alloc);
    for text in texts {
        rows.push(bits_of(alloc, text)?)?;
    }
    Ok(rows)
}

/// The rows of the run of the sample with the bits of these texts.
fn rows_given(alloc: Global, times: Time, texts: &[&[u8]]) -> Result<Vec<u8>, Fail> {
    let net = net_of(alloc, SAMPLE)?;
    run_of_texts(alloc, &net, times, texts)
}

/// The rows of the run with the bits of these texts.
fn run_of_texts(alloc: Global, net: &Net, times: Time, texts: &[&[u8]]) -> Result<Vec<u8>, Fail> {
    let rows = rows_of(alloc, texts)?;
    run_with(alloc, net, times, &rows, &[false, true, false])
}

/// Numbers of times, the bits of d, f and z at each, and the rows of the run.
const GIVEN: &[(Time, &[&[u8]], &[u8])] = &[
    (
        3,
        &[b"110", b"101", b"011"],
        b" 110 011 101 100 010 100 000 011",
    ),
    (0, &[b"", b"", b""], b"        "),
];

#[test]
fn rows_of_given_bits(rt: HostRuntime) -> Result<(), Fail> {
    for (times, texts, want) in GIVEN {
        let got = rows_given(rt.alloc(), *times, texts)?;
        assert_eq!(rt; got.as_slice(), *want, "at {times}");
    }
    Ok(())
}

/// The bits at a time, as rows of one bit.
fn rows_at(alloc: Global, rows: &[Items<bool>], t: usize) -> Result<Vec<Items<bool>>, AllocError> {
    let mut found = Vec::new(alloc);
    for row in rows {
        let mut one = Items::new(alloc);
        one.push(row.as_slice().get(t).copied().unwrap_or(false))?;
        found.push(one)?;
    }
    Ok(found)
}

/// Whether a run of 67 times has at this one the bits of a run of one time, from what the latches
/// hold by then; and what they hold next.
fn agrees_at(
    alloc: Global,
    net: &Net,
    inputs: &[Items<bool>],
    long: &[u8],
    held: &mut Vec<bool>,
    t: usize,
) -> Result<bool, Fail>
    requires { t < 67 }
{
    let rows = rows_at(alloc, inputs, t)?;
    let one = run_with(alloc, net, 1, rows.as_slice(), held.as_slice())?;
    for id in 0..net.nets() as usize {
        if one.get(2 * id + 1).copied() != long.get(68 * id + t + 1).copied() {
            return Ok(false);
        }
    }
    held.clear();
    for latch in net.latches() {
        held.push(one.get(2 * latch.input.0 as usize + 1).copied() == Some(b'1'))?;
    }
    Ok(true)
}

/// Whether a run of 67 times has at each of them the bits of a run of one time.
fn is_step_by_step(
    alloc: Global,
    net: &Net,
    inputs: &[Items<bool>],
    long: &[u8],
) -> Result<bool, Fail> {
    let mut held = Vec::new(alloc);
    for bit in [false, true, false] {
        held.push(bit)?;
    }
    for t in 0..67 {
        if !agrees_at(alloc, net, inputs, long, &mut held, t)? {
            return Ok(false);
        }
    }
    Ok(true)
}

/// Whether the run of a net over 67 times with the bits of these texts is step by step.
fn long_agrees(alloc: Global, net: &Net, texts: &[&[u8]]) -> Result<bool, Fail> {
    let inputs = rows_of(alloc, texts)?;
    let long = run_with(alloc, net, 67, &inputs, &[false, true, false])?;
    is_step_by_step(alloc, net, &inputs, &long)
}

/// The same of the sample.
fn sample_agrees(alloc: Global, texts: &[&[u8]]) -> Result<bool, Fail> {
    let net = net_of(alloc, SAMPLE)?;
    long_agrees(alloc, &net, texts)
}

/// The bits of d, f and z at 67 times.
const LONG: &[&[u8]] = &[
    b"0000001100011111111001010110110010101000011111101011011101010010111",
    b"1101000111010001011001011111100110111101110110100001110110001101111",
    b"0000011100000000001000100010100000100000000000100000010000000011001",
];

#[test]
fn a_long_run_is_step_by_step(rt: HostRuntime) -> Result<(), Fail> {
    let same = sample_agrees(rt.alloc(), LONG)?;
    assert!(rt; same);
    Ok(())
}

/// The value of the variable, or 1.
fn variable_or_one(variable: bool) -> Expr {
    if variable {
        Expr::Var(VarId(0))
    } else {
        Expr::Const(true)
    }
}

/// A quintuple that asks for the variable, or for 1, of a net, where the variable is 1, or always.
fn quint(guard: bool, node: u32, value: bool, from: Time, to: Time) -> Quint {
    Quint {
        guard: variable_or_one(guard),
        node: NodeId(node),
        value: variable_or_one(value),
        from,
        to,
    }
}

/// d has the variable at times 0 and 1, and f has 1 at time 1 where the variable is 1; with `latch`
/// q has 1 at time 0. The depth is 3.
fn task(alloc: Global, reset: bool, latch: bool) -> Result<Assertion, AllocError> {
    let mut ant = Items::new(alloc);
    ant.push(quint(false, 0, true, 0, 2))?;
    ant.push(quint(true, 2, false, 1, 2))?;
    if latch {
        ant.push(quint(false, 1, false, 0, 1))?;
    }
    let mut con = Items::new(alloc);
    con.push(quint(false, 6, false, 0, 3))?;
    Ok(Assertion {
        name: Name::from_bytes(alloc, b"t")?,
        reset,
        ant,
        con,
        weak: Items::new(alloc),
    })
}

/// Whether each quintuple asks of a net that there is.
fn ask_of_nets(net: &Net, quints: &[Quint]) -> bool
    ensures { IsTrue result ↔ All (λ quint. quint.node.0 < net.now.raw.nets) quints.now }
{
    let nets = net.nets();
    quints.iter().all(|quint| quint.node.0 < nets)
}

/// The rows of the printed run of such a task.
fn printed_rows(
    alloc: Global,
    net: &Net,
    reset: bool,
    latch: bool,
    bit: bool,
) -> Result<Vec<u8>, Fail> {
    let task = task(alloc, reset, latch)?;
    if !ask_of_nets(net, task.ant.as_slice()) {
        return Err("no such net".into());
    }
    let run = run_as_asked(alloc, net, &task, &[bit])?;
    let text = text_of(alloc, run.rows.as_slice())?;
    Ok(text)
}

/// The rows of the printed run of such a task on the sample.
fn sample_printed(alloc: Global, reset: bool, latch: bool, bit: bool) -> Result<Vec<u8>, Fail> {
    let net = net_of(alloc, SAMPLE)?;
    printed_rows(alloc, &net, reset, latch, bit)
}

/// Whether a task has reset, whether it gives q a bit, the variable's bit, and the rows of the
/// printed run.
const PRINTED: &[(bool, bool, bool, &[u8])] = &[
    (false, true, true, b" 110 111 010 001 001 010 011 000"),
    (false, true, false, b" 000 100 000 000 000 000 000 000"),
    (false, false, false, b" 000 000 000 000 000 000 000 000"),
    (true, false, false, b" 000 100 000 000 000 000 000 000"),
];

#[test]
fn printed_runs_have_what_is_asked_and_0_elsewhere(rt: HostRuntime) -> Result<(), Fail> {
    for (reset, latch, bit, want) in PRINTED {
        let got = sample_printed(rt.alloc(), *reset, *latch, *bit)?;
        assert_eq!(rt; got.as_slice(), *want, "at {reset}, {latch} and {bit}");
    }
    Ok(())
}

/// An edge whose antecedent asks for the variable, or for 1, of d, where the variable is 1, or
/// always.
fn edge(alloc: Global, from: u32, guard: bool, value: bool) -> Result<Edge, AllocError> {
    let mut ant = Items::new(alloc);
    ant.push(Bind {
        guard: variable_or_one(guard),
        node: NodeId(0),
        value: variable_or_one(value),
    })?;
    Ok(Edge {
        from,
        to: 1,
        ant,
        con: Items::new(alloc),
        weak: Items::new(alloc),
    })
}

/// Edges to vertex 1: from vertex 0 d has the variable; from vertex 1 d has 1, or has it where the
/// variable is 1.
fn graph(alloc: Global, reset: bool) -> Result<Graph, AllocError> {
    let mut vertices = Items::new(alloc);
    vertices.push(Name::from_bytes(alloc, b"a")?)?;
    vertices.push(Name::from_bytes(alloc, b"b")?)?;
    let mut edges = Items::new(alloc);
    edges.push(edge(alloc, 0, false, true)?)?;
    edges.push(edge(alloc, 1, false, false)?)?;
    edges.push(edge(alloc, 1, true, false)?)?;
    Ok(Graph {
        name: Name::from_bytes(alloc, b"g")?,
        reset,
        vertices,
        edges,
    })
}

/// Whether each binding asks of a net that there is.
fn bind_nets(net: &Net, binds: &[Bind]) -> bool
    ensures { IsTrue result ↔ All (λ bind. bind.node.0 < net.now.raw.nets) binds.now }
{
    let nets = net.nets();
    binds.iter().all(|bind| bind.node.0 < nets)
}

/// Whether each antecedent asks of nets that there are.
fn edges_bind_nets(net: &Net, edges: &[Edge]) -> bool
    ensures { IsTrue result
        ↔ All (λ edge. All (λ bind. bind.node.0 < net.now.raw.nets) edge.ant) edges.now }
{
    edges.iter().all(|edge| bind_nets(net, edge.ant.as_slice()))
}

/// Whether each is the number of an edge.
fn are_numbers(path: &[u32], edges: &[Edge]) -> bool
    ensures { IsTrue result ↔ All (λ number. number < length edges.now) path.now }
{
    let count = edges.len();
    path.iter().all(|number| (*number as usize) < count)
}

/// The rows of the printed run of a net along a path of the graph.
fn run_on_path(
    alloc: Global,
    net: &Net,
    graph: &Graph,
    path: &[u32],
    bit: bool,
) -> Result<Vec<u8>, Fail> {
    let edges = graph.edges.as_slice();
    if !edges_bind_nets(net, edges) || !are_numbers(path, edges) || path.len() > 9 {
        return Err("a short path of edges over the nets".into());
    }
    let run = run_along(alloc, net, graph, path, &[bit])?;
    let text = text_of(alloc, run.rows.as_slice())?;
    Ok(text)
}

/// The rows of the printed run of the latch along a path.
fn along(alloc: Global, reset: bool, path: &[u32], bit: bool) -> Result<Vec<u8>, Fail> {
    let net = net_of(alloc, LATCH)?;
    let graph = graph(alloc, reset)?;
    run_on_path(alloc, &net, &graph, path, bit)
}

/// Whether a graph has reset, the edges of a path, the variable's bit, and the rows of the printed
/// run.
const ALONG: &[(bool, &[u32], bool, &[u8])] = &[
    (true, &[], true, b"  "),
    (false, &[0], true, b" 1 0"),
    (false, &[0, 1], true, b" 11 01"),
    (false, &[0, 1], false, b" 01 00"),
    (false, &[0, 2, 1], false, b" 001 000"),
    (true, &[0, 2], false, b" 00 10"),
];

#[test]
fn printed_runs_follow_the_edges_of_a_path(rt: HostRuntime) -> Result<(), Fail> {
    for (reset, path, bit, want) in ALONG {
        let got = along(rt.alloc(), *reset, path, *bit)?;
        assert_eq!(rt; got.as_slice(), *want, "at {reset}, {path:?} and {bit}");
    }
    Ok(())
}
