//! The program `step_bench`: times the step of a net of two-input gates, over the plain store.
//! `step_bench MIX GATES VARS STEPS`, where MIX is `and` or `mixed`, prints the nets and the nodes
//! made, and to the error output the time of a first step, that of a step among so many more, and
//! that of a step of which nothing has changed since the step before. VARS, at most 8, is how many
//! of the free nets have a variable.
#![tactic(auto)]

mod nets;

ghost use Rattle.std.specs.Prelude.{◌≡◌, ◌≤◌, [], ℕ, length, map, All, IfOk};
ghost use Rattle.step_bench.specs.Made.{covers_of};
ghost use Rattle.sym_step.specs.Step.{IsCutOf};
ghost use Rattle.gate_sets.specs.Lists.{rows_of};

use crate::nets::{Mix, net};
use dd_nodes::{Nodes, PlainNodes, Ref};
use dd_ops::{OpFault, Ops};
use net_core::Net;
use std::alloc::Global;
use std::time::Instant;
use std::{env, io};
use ste_base::NodeId;
use sym_step::{Cut, Frame, GateRows, renew, step};

/// What is asked: a variable on each of the first nets.
fn cuts<N: Nodes>(
    alloc: Global,
    ops: &Ops,
    nodes: &mut N,
    net: &Net,
    vars: u32,
) -> Result<Vec<Cut>, OpFault>
    requires inside { 8 ≤ net.now.raw.nets }
    requires vars { vars ≤ 8 }
    requires store { 8 ≤ (N.store nodes.old).vars }
    ensures { IfOk result (λ cuts. All (IsCutOf (N.store nodes.new) net.now.raw) cuts.items) }
{
    let _ = net;
    let blank = Cut {
        node: NodeId(0),
        guard: Ref::TRUE,
        value: Ref::TRUE,
    };
    let mut cuts = vec![in alloc; blank; vars as usize]?;
    for v in 0..vars {
        let value = ops.var(nodes, v)?;
        cuts[v as usize] = Cut {
            node: NodeId(v),
            guard: Ref::TRUE,
            value,
        };
    }
    Ok(cuts)
}

/// So many steps; what is made is dropped.
fn steps<N: Nodes>(
    alloc: Global,
    ops: &Ops,
    nodes: &mut N,
    net: &Net,
    rows: &GateRows,
    cuts: &[Cut],
    count: u32,
) -> Result<(), OpFault>
    requires rows { rows.now.covers ≡ map rows_of net.now.raw.covers }
    requires latches { net.now.raw.latches ≡ [] }
    requires cuts { All (IsCutOf (N.store nodes.old) net.now.raw) cuts.now }
    ensures { All (IsCutOf (N.store nodes.new) net.now.raw) cuts.now }
{
    for _ in 0..count {
        step(alloc, ops, nodes, net, rows, &[], &[], cuts)?;
    }
    Ok(())
}

/// So many steps, each from what was kept of the step before.
fn kept_steps<N: Nodes>(
    alloc: Global,
    ops: &Ops,
    nodes: &mut N,
    net: &Net,
    rows: &GateRows,
    cuts: &[Cut],
    count: u32,
) -> Result<(), OpFault>
    requires rows { rows.now.covers ≡ map rows_of net.now.raw.covers }
    requires latches { net.now.raw.latches ≡ [] }
    requires cuts { All (IsCutOf (N.store nodes.old) net.now.raw) cuts.now }
    ensures { All (IsCutOf (N.store nodes.new) net.now.raw) cuts.now }
{
    let mut frame = Frame::blank(alloc, net)?;
    for _ in 0..count {
        renew(alloc, ops, nodes, net, rows, &[], cuts, &mut frame)?;
    }
    Ok(())
}

/// What was measured: nodes made, and nanoseconds of the first step, of the others, and of those
/// with what was kept.
#[derive(Clone, Copy, Drop)]
struct Figures {
    used: u32,
    first: u64,
    others: u64,
    kept: u64,
}

fn nanos(rt: &HostRuntime, start: Instant) -> io::Result<u64> {
    Ok(u64::try_from(start.elapsed(rt)?.as_nanos()).unwrap_or(u64::MAX))
}

/// What is measured with these cuts; none where it was out of memory or nodes.
fn timed<N: Nodes>(
    rt: &HostRuntime,
    alloc: Global,
    ops: &Ops,
    nodes: &mut N,
    net: &Net,
    rows: &GateRows,
    cuts: &[Cut],
    count: u32,
) -> io::Result<Option<Figures>>
    requires rows { rows.now.covers ≡ map rows_of net.now.raw.covers }
    requires latches { net.now.raw.latches ≡ [] }
    requires cuts { All (IsCutOf (N.store nodes.old) net.now.raw) cuts.now }
{
    let start = Instant::now(rt)?;
    if steps(alloc, ops, nodes, net, rows, cuts, 1).is_err() {
        return Ok(None);
    }
    let first = nanos(rt, start)?;
    let start = Instant::now(rt)?;
    if steps(alloc, ops, nodes, net, rows, cuts, count).is_err() {
        return Ok(None);
    }
    let others = nanos(rt, start)?;
    let start = Instant::now(rt)?;
    if kept_steps(alloc, ops, nodes, net, rows, cuts, count).is_err() {
        return Ok(None);
    }
    let kept = nanos(rt, start)?;
    Ok(Some(Figures {
        used: nodes.used(),
        first,
        others,
        kept,
    }))
}

/// What is measured over a store; none where it was out of memory or nodes.
fn figures_over<N: Nodes>(
    rt: &HostRuntime,
    alloc: Global,
    nodes: &mut N,
    net: &Net,
    rows: &GateRows,
    vars: u32,
    count: u32,
) -> io::Result<Option<Figures>>
    requires inside { 8 ≤ net.now.raw.nets }
    requires vars { vars ≤ 8 }
    requires store { 8 ≤ (N.store nodes.old).vars }
    requires rows { rows.now.covers ≡ map rows_of net.now.raw.covers }
    requires latches { net.now.raw.latches ≡ [] }
{
    let ops = Ops::new(alloc);
    let Ok(cuts) = cuts(alloc, &ops, nodes, net, vars) else {
        return Ok(None);
    };
    timed(rt, alloc, &ops, nodes, net, rows, &cuts, count)
}

/// What is measured of a net; none where it was out of memory or nodes.
fn measure_net(
    rt: &HostRuntime,
    alloc: Global,
    net: &Net,
    vars: u32,
    count: u32,
) -> io::Result<Option<Figures>>
    requires inside { 8 ≤ net.now.raw.nets }
    requires latches { net.now.raw.latches ≡ [] }
    requires covers { net.now.raw.covers ≡ covers_of }
    requires vars { vars ≤ 8 }
{
    let Ok(rows) = GateRows::of(alloc, net) else {
        return Ok(None);
    };
    let Ok(mut nodes) = PlainNodes::new(alloc, 8, 32000000) else {
        return Ok(None);
    };
    figures_over(rt, alloc, &mut nodes, net, &rows, vars, count)
}

/// What is measured of a net of so many gates; none where it was out of memory or nodes.
fn measure(
    rt: &HostRuntime,
    alloc: Global,
    mix: Mix,
    gates: u32,
    vars: u32,
    count: u32,
) -> io::Result<Option<Figures>>
    requires gates { gates ≤ 100000 }
    requires vars { vars ≤ 8 }
{
    let Ok(net) = net(alloc, gates, mix) else {
        return Ok(None);
    };
    measure_net(rt, alloc, &net, vars, count)
}

fn number(word: &str, greatest: u32) -> u32
    ensures { result ≤ greatest }
{
    match word.parse::<u32>() {
        Ok(n) => n.min(greatest),
        Err(_) => 0,
    }
}

fn mix(word: &str) -> Mix {
    match word {
        "mixed" => Mix::Mixed,
        _ => Mix::And,
    }
}

fn main(rt: HostRuntime) -> io::Result<()> {
    let alloc = rt.alloc();
    let words = env::args(&rt)?.skip(1).collect::<Vec<String>>(alloc)?;
    let [form, gates, vars, count] = words.as_slice() else {
        return println!(rt; "step_bench MIX GATES VARS STEPS");
    };
    let gates = number(gates, 100000);
    let count = number(count, 100000);
    let Some(found) = measure(&rt, alloc, mix(form), gates, number(vars, 8), count)? else {
        return println!(rt; "no result");
    };
    let nets = gates.saturating_add(8);
    let used = found.used;
    println!(rt; "{form}: {nets} nets, {used} nodes")?;
    let first = found.first;
    let each = found.others.checked_div(count as u64).unwrap_or(0);
    let net = each.checked_div(nets as u64).unwrap_or(0);
    eprintln!(rt; "{form}: first step {first} ns, then {each} ns a step, {net} ns a net")?;
    let kept = found.kept.checked_div(count as u64).unwrap_or(0);
    eprintln!(rt; "{form}: {kept} ns a step of which nothing has changed")
}
