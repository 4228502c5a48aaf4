//! Graphs over an input and a latch, checked for all assignments at once and by the plain checker
//! under each assignment; begin with `graphs_of_four_edges`.

ghost use Rattle.std.specs.Prelude.{◌≤◌, ◌<◌, IfOk};
ghost use Rattle.gste_engine_tests.specs.Cases.{IsCase};

use crate::cases::{Asked, CLAIMS, D, EdgeCase, GIVEN, Q, Ready, Value, graph_of, lat};
use dd_nodes::{Nodes, PlainNodes};
use gste_engine::check_graph;
use net_core::Net;
use plain_check::{GraphFound, Outcome, Shown, plain_check_graph};
use std::alloc::{AllocError, Global};
use std::process::Abort;
use std::test::Fail;
use ste_base::{NodeId, VarId};
use ste_model::{CubeList, Graph, Report, Verdict, are_edges_free};

/// The report with so many steps, and how many of them were used.
fn report_of(
    alloc: Global,
    ready: &Ready,
    graph: &Graph,
    steps: u32,
) -> Result<(Report, u32), AllocError>
    requires steps { steps ≤ 1000 }
    requires graph { IsCase ready.now.net.raw graph.now }
{
    let mut nodes = PlainNodes::new(alloc, 1, steps)?;
    let report = check_graph(alloc, &mut nodes, &ready.net, &ready.rows, graph, 8)?;
    Ok((report, nodes.used()))
}

/// The verdict, from what is found with p = 0 and with p = 1.
fn verdict_of(zero: Outcome, one: Outcome) -> Verdict {
    if zero.is_strong() || one.is_strong() {
        Verdict::Strong
    } else if zero.is_weak() || one.is_weak() {
        Verdict::Weak
    } else if zero.is_contradictory() && one.is_contradictory() {
        Verdict::Vacuous
    } else {
        Verdict::Pass
    }
}

/// Whether a cube has p = 0 just where it should, and p = 1 likewise.
fn is_cube(cube: &[(VarId, bool)], zero: bool, one: bool) -> bool {
    match cube {
        [] => zero && one,
        [(variable, bit)] => variable.0 == 0 && zero != one && *bit == one,
        _ => false,
    }
}

/// Whether a list has p = 0 just where it should, and p = 1 likewise.
fn has_cubes(list: &CubeList, zero: bool, one: bool) -> bool {
    match list.cubes.as_slice() {
        [] => !list.more && !zero && !one,
        [cube] => !list.more && is_cube(cube.as_slice(), zero, one),
        _ => false,
    }
}

/// Whether the lists of a report are those of what is found with p = 0 and with p = 1.
fn has_lists(report: &Report, zero: Outcome, one: Outcome) -> bool {
    let guards = &report.guards;
    has_cubes(&guards.strong, zero.is_strong(), one.is_strong())
        && has_cubes(&guards.weak, zero.is_weak(), one.is_weak())
        && has_cubes(
            &guards.contradictory,
            zero.is_contradictory(),
            one.is_contradictory(),
        )
}

/// The net of a shown consequent.
fn net_shown(graph: &Graph, shown: &Shown) -> Option<NodeId> {
    let last = shown.path.as_slice().last()?;
    let edge = graph.edges.as_slice().get(*last)?;
    let bind = edge.con.as_slice().get(shown.consequent)?;
    Some(bind.node)
}

/// Whether a report shows what is found with p = `bit`.
fn is_shown(report: &Report, graph: &Graph, bit: bool, found: &GraphFound) -> bool {
    let Some(shown) = &found.shown else {
        return false;
    };
    let Some(least) = &report.least else {
        return false;
    };
    let Some((node, time)) = report.fails else {
        return false;
    };
    least.as_slice() == [bit].as_slice()
        && report.path.len() == shown.path.len()
        && report
            .path
            .as_slice()
            .iter()
            .zip(shown.path.as_slice())
            .all(|(number, edge)| *number as usize == *edge)
        && time as usize == shown.time
        && net_shown(graph, shown) == Some(node)
}

/// Whether an assignment is found as the verdict says.
fn is_found(verdict: Verdict, found: &GraphFound) -> bool {
    match verdict {
        Verdict::Strong => found.outcome.is_strong(),
        Verdict::Weak => found.outcome.is_weak(),
        _ => false,
    }
}

/// Whether a report shows what is found with p = 0 and with p = 1, by the least of them that is as
/// its verdict says.
fn shows(report: &Report, graph: &Graph, zero: &GraphFound, one: &GraphFound) -> bool {
    if is_found(report.verdict, zero) {
        return is_shown(report, graph, false, zero);
    }
    if is_found(report.verdict, one) {
        return is_shown(report, graph, true, one);
    }
    report.least.is_none() && report.fails.is_none() && report.path.len() == 0
}

/// Whether a report has a run just where one is due.
fn has_run(report: &Report, net: &Net, graph: &Graph) -> bool
    requires { IsCase net.now.raw graph.now }
{
    let is_free = are_edges_free(net, graph.edges.as_slice());
    report.run.is_some() == (report.verdict == Verdict::Strong && is_free)
}

/// Whether a report of a graph is that of what is found with p = 0 and with p = 1.
fn is_alike(
    alloc: Global,
    ready: &Ready,
    graph: &Graph,
    report: &Report,
) -> Result<bool, AllocError>
    requires { IsCase ready.now.net.raw graph.now }
{
    let zero = plain_check_graph(alloc, &ready.net, graph, &[false])?;
    let one = plain_check_graph(alloc, &ready.net, graph, &[true])?;
    Ok(
        report.verdict == verdict_of(zero.outcome, one.outcome)
            && has_lists(report, zero.outcome, one.outcome)
            && shows(report, graph, &zero, &one)
            && has_run(report, &ready.net, graph),
    )
}

/// The report of a graph, and whether it is that of what is found with p = 0 and with p = 1.
fn compared(alloc: Global, ready: &Ready, graph: &Graph) -> Result<(Report, bool), AllocError>
    requires { IsCase ready.now.net.raw graph.now }
{
    let (report, _) = report_of(alloc, ready, graph, 1000)?;
    let alike = is_alike(alloc, ready, graph, &report)?;
    Ok((report, alike))
}

/// An edge by the numbers of its ends, of what is given and of what has to follow, each a digit.
fn edge_case(ends: u32, kind: u64) -> Result<EdgeCase, Fail> {
    let Some(given) = GIVEN.get((kind % 6) as usize) else {
        return Err("no such antecedent".into());
    };
    let Some(claim) = CLAIMS.get((kind / 6 % 4) as usize) else {
        return Err("no such consequent".into());
    };
    Ok((ends / 3 % 3, ends % 3, *given, *claim))
}

/// How many ways there are to choose the ends of four edges on three vertices.
const ENDS: u32 = 6561;

/// How many ways there are to choose what is given on four edges and what has to follow, with reset
/// and without.
const KINDS: u64 = 663552;

/// How often each choice of the ends is tried, with another choice of kinds each time.
const TURNS: u32 = 4;

/// The graph of a choice of ends, with a choice of kinds that varies with it.
fn graph_by(alloc: Global, ready: &Ready, ends: u32, turn: u32) -> Result<Graph, Fail>
    ensures { IfOk result (λ graph. IsCase ready.now.net.raw graph) }
{
    let seed = ends.wrapping_mul(4).wrapping_add(turn);
    let kinds = seed.wrapping_mul(2654435761) as u64 * KINDS / 4294967296;
    let cases = [
        edge_case(ends, kinds)?,
        edge_case(ends / 9, kinds / 24)?,
        edge_case(ends / 81, kinds / 576)?,
        edge_case(ends / 729, kinds / 13824)?,
    ];
    graph_of(alloc, ready, kinds / 331776 == 1, 3, &cases)
}

/// The place of a verdict among four.
fn place_of(verdict: Verdict) -> usize
    ensures { result < 4 }
{
    match verdict {
        Verdict::Pass => 0,
        Verdict::Weak => 1,
        Verdict::Strong => 2,
        _ => 3,
    }
}

/// The verdict of a graph, whose report has to be that of what is found with p = 0 and with p = 1.
fn verdict_if_alike(
    rt: &impl Abort,
    alloc: Global,
    ready: &Ready,
    graph: &Graph,
) -> Result<Verdict, AllocError>
    requires { IsCase ready.now.net.raw graph.now }
{
    let (report, alike) = compared(alloc, ready, graph)?;
    assert!(rt; alike, "{graph:?}: {report:?}");
    Ok(report.verdict)
}

/// The same of the graph of a choice.
fn verdict_by(
    rt: &impl Abort,
    alloc: Global,
    ready: &Ready,
    ends: u32,
    turn: u32,
) -> Result<Verdict, Fail> {
    let graph = graph_by(alloc, ready, ends, turn)?;
    Ok(verdict_if_alike(rt, alloc, ready, &graph)?)
}

/// How often each verdict is met.
fn verdicts_met(rt: &impl Abort, alloc: Global, ready: &Ready) -> Result<[u32; 4], Fail> {
    let mut met = [0u32; 4];
    for turn in 0..TURNS {
        for ends in 0..ENDS {
            let place = place_of(verdict_by(rt, alloc, ready, ends, turn)?);
            met[place] = met[place].saturating_add(1);
        }
    }
    Ok(met)
}

/// The same over the net of a latch.
fn met_over_latch(rt: &impl Abort, alloc: Global) -> Result<[u32; 4], Fail> {
    let ready = lat(alloc)?;
    verdicts_met(rt, alloc, &ready)
}

#[test]
fn graphs_of_four_edges(rt: HostRuntime) -> Result<(), Fail> {
    let met = met_over_latch(&rt, rt.alloc())?;
    assert!(rt; met.iter().all(|count| *count >= 100), "{met:?}");
    Ok(())
}

/// The report of the graph of these edges, with so many steps, and the steps that were used.
fn report_of_edges(
    alloc: Global,
    ready: &Ready,
    vertices: u32,
    cases: &[EdgeCase],
    steps: u32,
) -> Result<(Report, u32), Fail>
    requires { steps ≤ 1000 }
{
    let graph = graph_of(alloc, ready, false, vertices, cases)?;
    Ok(report_of(alloc, ready, &graph, steps)?)
}

/// The same over the net of a latch.
fn report_over_latch(
    alloc: Global,
    vertices: u32,
    cases: &[EdgeCase],
    steps: u32,
) -> Result<(Report, u32), Fail>
    requires { steps ≤ 1000 }
{
    let ready = lat(alloc)?;
    report_of_edges(alloc, &ready, vertices, cases, steps)
}

/// A chain of so many vertices: d has p on each edge, and on the last one q has to be the opposite.
fn chain(alloc: Global, vertices: u32) -> Result<Vec<EdgeCase>, AllocError> {
    let mut cases: Vec<EdgeCase> = Vec::new(alloc);
    for k in 1..vertices {
        let claim: &[Asked] = if k == vertices - 1 {
            &[(Q, Value::One, Value::NotP)]
        } else {
            &[]
        };
        cases.push((k - 1, k, &[(D, Value::One, Value::P)], claim))?;
    }
    Ok(cases)
}

/// The report of a chain of so many vertices, with so many steps, and the steps that were used.
fn chain_report(alloc: Global, vertices: u32, steps: u32) -> Result<(Report, u32), Fail>
    requires { steps ≤ 1000 }
{
    let cases = chain(alloc, vertices)?;
    report_over_latch(alloc, vertices, &cases, steps)
}

/// Whether a report says that there is a failure for both bits of p on the last edge of a chain of
/// a thousand vertices.
fn fails_at_the_end(report: &Report) -> bool {
    let path = report.path.as_slice();
    report.verdict == Verdict::Strong
        && path.len() == 999
        && path.iter().zip(0u32..999).all(|(number, k)| *number == k)
        && report.fails == Some((NodeId(Q), 998))
        && has_cubes(&report.guards.strong, true, true)
}

#[test]
fn a_chain_of_a_thousand_vertices(rt: HostRuntime) -> Result<(), Fail> {
    let (report, _) = chain_report(rt.alloc(), 1000, 1000)?;
    assert!(rt; fails_at_the_end(&report), "{report:?}");
    Ok(())
}

/// So many edges from vertex 0 to vertex 1, on which d has 0 and 1 in turn, and one on which q has
/// to be 1.
fn parallel(alloc: Global, edges: u32) -> Result<Vec<EdgeCase>, AllocError> {
    let mut cases: Vec<EdgeCase> = Vec::new(alloc);
    for k in 0..edges {
        let given: &[Asked] = if k % 2 == 0 {
            &[(D, Value::One, Value::Zero)]
        } else {
            &[(D, Value::One, Value::One)]
        };
        cases.push((0, 1, given, &[]))?;
    }
    cases.push((1, 2, &[], &[(Q, Value::One, Value::One)]))?;
    Ok(cases)
}

/// How many parallel edges are tried. What is proved takes any number.
fn many() -> u32 {
    10000
}

/// Whether a path has these two edges.
fn is_path(path: &[u32], first: u32, second: u32) -> bool {
    match path {
        [one, other] => *one == first && *other == second,
        _ => false,
    }
}

/// The report of so many parallel edges.
fn parallel_report(alloc: Global, edges: u32) -> Result<Report, Fail> {
    let cases = parallel(alloc, edges)?;
    let (report, _) = report_over_latch(alloc, 3, &cases, 1000)?;
    Ok(report)
}

#[test]
fn ten_thousand_parallel_edges(rt: HostRuntime) -> Result<(), Fail> {
    let count = many();
    let report = parallel_report(rt.alloc(), count)?;
    let is_weak_as_expected = report.verdict == Verdict::Weak
        && is_path(report.path.as_slice(), 0, count)
        && report.fails == Some((NodeId(Q), 1))
        && has_cubes(&report.guards.weak, true, true);
    assert!(rt; is_weak_as_expected, "{report:?}");
    Ok(())
}

/// How many steps the chain of three vertices needs: one for p and one for its opposite.
const NEED: u32 = 2;

/// Whether the report of the chain of three vertices with so many steps is as it should be: with as
/// many as it needs, and with more, it has its verdict; with fewer, but not without any, it may
/// have it too, or it says budget and has used all.
fn is_right(report: &Report, used: u32, steps: u32) -> bool {
    match report.verdict {
        Verdict::Budget => {
            steps < NEED
                && used == steps
                && report.least.is_none()
                && report.path.len() == 0
                && report.run.is_none()
        }
        Verdict::Strong => steps > 0,
        _ => false,
    }
}

#[test]
fn steps_at_the_need_suffice(rt: HostRuntime) -> Result<(), Fail> {
    for steps in 0..10 {
        let (report, used) = chain_report(rt.alloc(), 3, steps)?;
        assert!(rt; is_right(&report, used, steps), "{steps}: {report:?}");
    }
    Ok(())
}
