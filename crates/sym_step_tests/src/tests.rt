//! The sets of two time steps of small nets, under each assignment of two variables, against the
//! verdicts of the plain checker on the claim that a net has 1.

ghost use Rattle.std.specs.Prelude.{◌≡◌, ◌≤◌, ◌<◌, ℕ, All, IfOk, IsTrue, length, map, nat_le, OnOk};
ghost use Rattle.std.specs.List.{list_all};
ghost use Rattle.dd_nodes.specs.Stores.{Store, IsRef, Keeps};
ghost use Rattle.net_core.specs.Cases.{cases_of};
ghost use Rattle.net_core.specs.declared.raw.RawNet.{RawNet};
ghost use Rattle.dual_rail.specs.Rail.{AreRefs};
ghost use Rattle.sym_step.specs.Step.{IsCutOf};
ghost use Rattle.gate_sets.specs.Lists.{rows_of};
ghost use Rattle.sym_step.specs.Frame.{IsFrame, nets_of};

use blif_lines::logical_lines;
use blif_syntax::read_models;
use bool_expr::Expr;
use dd_nodes::{Nodes, PlainNodes, Ref};
use dd_ops::Ops;
use dual_rail::{Rails, free};
use flat_net::flatten;
use net_core::{BitSet, Cover, Gate, Lit, Net, RawNet, Row, cases, order};
use net_names::NetNames;
use plain_check::verdict;
use std::alloc::{AllocError, Global};
use std::test::Fail;
use ste_base::{Items, Name, NodeId, Time};
use ste_model::{Assertion, Quint, Verdict, Weakening};
use sym_step::{Cut, Frame, GateRows, Step, advance, renew, step};

/// A bit, or one of two variables.
#[derive(Clone, Copy, Drop)]
enum Bit {
    Zero,
    One,
    P,
    Q,
}

/// What is asked of a net at time 0.
#[derive(Clone, Copy, Drop)]
struct Asked {
    node: NodeId,
    guard: Bit,
    value: Bit,
}

/// A net with the names of its nets.
#[derive(Drop)]
struct Named {
    net: Net,
    names: NetNames,
}

impl Bit {
    /// Its reference, where the variables have these.
    fn reference(self, p: Ref, q: Ref) -> Ref
        ensures { (s : Store) → IsRef s p → IsRef s q → IsRef s result }
    {
        match self {
            Bit::Zero => Ref::FALSE,
            Bit::One => Ref::TRUE,
            Bit::P => p,
            Bit::Q => q,
        }
    }

    /// Its value under an assignment.
    fn value(self, p: bool, q: bool) -> bool {
        match self {
            Bit::Zero => false,
            Bit::One => true,
            Bit::P => p,
            Bit::Q => q,
        }
    }
}

/// Whether each gate has at most eight inputs.
fn all_narrow(gates: &[Gate]) -> bool
    ensures { result ≡ list_all (λ gate. nat_le (length gate.inputs) 8) gates.now }
{
    gates.iter().all(|gate| gate.inputs.len() <= 8)
}

/// The net of a text.
fn net_of(alloc: Global, text: &[u8]) -> Result<Named, Fail>
    requires { length text.now ≤ 10000 }
{
    let lines = logical_lines(alloc, text)?;
    let Ok(models) = read_models(alloc, lines.as_slice()) else {
        return Err("no models".into());
    };
    let (raw, names) = match flatten(alloc, &models) {
        Ok(made) => made,
        Err(_) => return Err("no flat net".into()),
    };
    match order(alloc, raw) {
        Ok(net) => Ok(Named { net, names }),
        Err(_) => Err("no order".into()),
    }
}

/// Whether each cover is narrow enough for its rows to be made.
fn are_few(alloc: Global, covers: &[Cover]) -> Result<bool, AllocError>
    ensures inputs { IfOk result (λ few. IsTrue few
        → All (λ cover. cover.inputs ≤ 1000) covers.now) }
    ensures cases { IfOk result (λ few. IsTrue few
        → All (λ cover. cases_of cover.inputs cover.rows ≤ 65536) covers.now) }
{
    for cover in covers {
        if cover.inputs > 1000 || cases(alloc, cover)? > 65536 {
            return Ok(false);
        }
    }
    Ok(true)
}

/// What is asked, by number.
fn asked_of(
    alloc: Global,
    names: &NetNames,
    nets: u32,
    asked: &[(&str, Bit, Bit)],
) -> Result<Vec<Asked>, Fail>
    ensures { IfOk result (λ found. All (λ a. a.node.0 < nets) found.items) }
{
    let mut found = Vec::new(alloc);
    for (name, guard, value) in asked {
        let Some(node) = names.resolve(name.as_bytes()) else {
            return Err("no such net".into());
        };
        if node.0 >= nets {
            return Err("no such number".into());
        }
        found.push(Asked {
            node,
            guard: *guard,
            value: *value,
        })?;
    }
    Ok(found)
}

/// The cuts for what is asked.
fn cuts_of<N: Nodes>(
    alloc: Global,
    nodes: &N,
    net: &Net,
    asked: &[Asked],
    p: Ref,
    q: Ref,
) -> Result<Vec<Cut>, AllocError>
    requires p { IsRef (N.store nodes.now) p }
    requires q { IsRef (N.store nodes.now) q }
    requires asked { All (λ a. a.node.0 < net.now.raw.nets) asked.now }
    ensures { IfOk result (λ cuts. All (IsCutOf (N.store nodes.now) net.now.raw) cuts.items) }
{
    let _ = nodes;
    let _ = net;
    let mut cuts = Vec::new(alloc);
    for a in asked {
        cuts.push(Cut {
            node: a.node,
            guard: a.guard.reference(p, q),
            value: a.value.reference(p, q),
        })?;
    }
    Ok(cuts)
}

/// The bit of a diagram under an assignment.
fn bit_of<N: Nodes>(nodes: &mut N, r: Ref, bits: &[bool]) -> bool
    requires { IsRef (N.store nodes.old) r }
    ensures { N.store nodes.new ≡ N.store nodes.old }
{
    let mut at = r;
    for _ in 0..3 {
        if at.0 < 2 {
            return at == Ref::TRUE;
        }
        let node = nodes.node(at);
        at = if bits.get(node.var as usize).copied().unwrap_or(false) {
            node.hi
        } else {
            node.lo
        };
    }
    false
}

/// The sets of nets under an assignment.
fn sets_under<N: Nodes>(
    alloc: Global,
    nodes: &mut N,
    rails: &[Rails],
    bits: &[bool],
) -> Result<Vec<BitSet>, AllocError>
    requires { All (AreRefs (N.store nodes.old)) rails.now }
    ensures { N.store nodes.new ≡ N.store nodes.old }
{
    let mut sets = Vec::new(alloc);
    for r in rails {
        let zero = bit_of(nodes, r.can0, bits);
        let one = bit_of(nodes, r.can1, bits);
        sets.push(BitSet { zero, one })?;
    }
    Ok(sets)
}

/// The bits of p and q under each assignment.
const ASSIGNMENTS: &[(bool, bool)] = &[(false, false), (false, true), (true, false), (true, true)];

/// The sets of nets under each assignment.
fn table_of<N: Nodes>(
    alloc: Global,
    nodes: &mut N,
    rails: &[Rails],
) -> Result<Vec<Vec<BitSet>>, AllocError>
    requires { All (AreRefs (N.store nodes.old)) rails.now }
    ensures { N.store nodes.new ≡ N.store nodes.old }
{
    let mut table = Vec::new(alloc);
    for (p, q) in ASSIGNMENTS {
        table.push(sets_under(alloc, nodes, rails, &[*p, *q])?)?;
    }
    Ok(table)
}

/// A latch set for each latch: both bits.
fn unknowns(alloc: Global, latches: usize) -> Result<Vec<Rails>, AllocError>
    ensures long { IfOk result (λ sets. length sets.items ≡ latches) }
    ensures refs { (s : Store) → IfOk result (λ sets. All (AreRefs s) sets.items) }
{
    let mut sets = Vec::new(alloc);
    for _ in 0..latches {
        sets.push(free())?;
    }
    Ok(sets)
}

/// One step; an error where there are too few nodes.
fn step_of<N: Nodes>(
    alloc: Global,
    ops: &Ops,
    nodes: &mut N,
    net: &Net,
    rows: &GateRows,
    latches: &[Rails],
    weak: &[NodeId],
    cuts: &[Cut],
) -> Result<Step, Fail>
    requires rows { rows.now.covers ≡ map rows_of net.now.raw.covers }
    requires long { length latches.now ≡ length net.now.raw.latches }
    requires latches { All (AreRefs (N.store nodes.old)) latches.now }
    requires weak { All (λ node. node.0 < net.now.raw.nets) weak.now }
    requires cuts { All (IsCutOf (N.store nodes.old) net.now.raw) cuts.now }
    ensures keeps { Keeps (N.store nodes.old) (N.store nodes.new) }
    ensures refs { IfOk result (λ r. All (AreRefs (N.store nodes.new)) r.nets) }
    ensures next { IfOk result (λ r. All (AreRefs (N.store nodes.new)) r.next) }
{
    match step(alloc, ops, nodes, net, rows, latches, weak, cuts) {
        Ok(made) => Ok(made),
        Err(_) => Err("no step".into()),
    }
}

/// The sets of the nets at time 0 under each assignment, and those at time 1.
#[derive(Drop)]
struct Tables {
    now: Vec<Vec<BitSet>>,
    later: Vec<Vec<BitSet>>,
}

/// The cuts for what is asked, where p and q are the first variables.
fn cuts_on<N: Nodes>(
    alloc: Global,
    ops: &Ops,
    nodes: &mut N,
    net: &Net,
    asked: &[Asked],
) -> Result<Vec<Cut>, Fail>
    requires vars { 2 ≤ (N.store nodes.old).vars }
    requires asked { All (λ a. a.node.0 < net.now.raw.nets) asked.now }
    ensures { IfOk result (λ cuts. All (IsCutOf (N.store nodes.new) net.now.raw) cuts.items) }
{
    let Ok(p) = ops.var(nodes, 0) else {
        return Err("no variable".into());
    };
    let Ok(q) = ops.var(nodes, 1) else {
        return Err("no variable".into());
    };
    Ok(cuts_of(alloc, &*nodes, net, asked, p, q)?)
}

/// The sets of the nets under each assignment, where latches have these sets and nothing is asked.
fn table_without_cuts<N: Nodes>(
    alloc: Global,
    ops: &Ops,
    nodes: &mut N,
    net: &Net,
    rows: &GateRows,
    latches: &[Rails],
) -> Result<Vec<Vec<BitSet>>, Fail>
    requires rows { rows.now.covers ≡ map rows_of net.now.raw.covers }
    requires latches { All (AreRefs (N.store nodes.old)) latches.now }
{
    if latches.len() != net.latches().len() {
        return Err("not a set for each latch".into());
    }
    let then = step_of(alloc, ops, nodes, net, rows, latches, &[], &[])?;
    Ok(table_of(alloc, nodes, then.nets.as_slice())?)
}

/// The sets of a step under each assignment, and those of the step behind it, where nothing is
/// asked.
fn tables_after<N: Nodes>(
    alloc: Global,
    ops: &Ops,
    nodes: &mut N,
    net: &Net,
    rows: &GateRows,
    made: &Step,
) -> Result<Tables, Fail>
    requires rows { rows.now.covers ≡ map rows_of net.now.raw.covers }
    requires refs { All (AreRefs (N.store nodes.old)) made.now.nets }
    requires next { All (AreRefs (N.store nodes.old)) made.now.next }
{
    let now = table_of(alloc, nodes, made.nets.as_slice())?;
    let later = table_without_cuts(alloc, ops, nodes, net, rows, made.next.as_slice())?;
    Ok(Tables { now, later })
}

/// The same of the step with these cuts in which each latch has both bits.
fn tables_with<N: Nodes>(
    alloc: Global,
    ops: &Ops,
    nodes: &mut N,
    net: &Net,
    rows: &GateRows,
    cuts: &[Cut],
) -> Result<Tables, Fail>
    requires rows { rows.now.covers ≡ map rows_of net.now.raw.covers }
    requires cuts { All (IsCutOf (N.store nodes.old) net.now.raw) cuts.now }
{
    let latches = unknowns(alloc, net.latches().len())?;
    let made = step_of(alloc, ops, nodes, net, rows, &latches, &[], cuts)?;
    tables_after(alloc, ops, nodes, net, rows, &made)
}

/// The same for what is asked.
fn tables_of<N: Nodes>(
    alloc: Global,
    ops: &Ops,
    nodes: &mut N,
    net: &Net,
    rows: &GateRows,
    asked: &[Asked],
) -> Result<Tables, Fail>
    requires vars { 2 ≤ (N.store nodes.old).vars }
    requires rows { rows.now.covers ≡ map rows_of net.now.raw.covers }
    requires asked { All (λ a. a.node.0 < net.now.raw.nets) asked.now }
{
    let cuts = cuts_on(alloc, ops, nodes, net, asked)?;
    tables_with(alloc, ops, nodes, net, rows, &cuts)
}

/// The same in a store of its own.
fn tables_alone(alloc: Global, net: &Net, rows: &GateRows, asked: &[Asked]) -> Result<Tables, Fail>
    requires rows { rows.now.covers ≡ map rows_of net.now.raw.covers }
    requires asked { All (λ a. a.node.0 < net.now.raw.nets) asked.now }
{
    let ops = Ops::new(alloc);
    let mut nodes = PlainNodes::new(alloc, 2, 100)?;
    tables_of(alloc, &ops, &mut nodes, net, rows, asked)
}

/// The rows of a net's covers.
fn rows_of_net(alloc: Global, net: &Net) -> Result<GateRows, Fail>
    ensures { IfOk result (λ rows. rows.covers ≡ map rows_of net.now.raw.covers) }
{
    if !are_few(alloc, net.covers())? {
        return Err("too many cases".into());
    }
    Ok(GateRows::of(alloc, net)?)
}

/// The times at which a test asks what it asks: each from one on, and before another.
type Spans = &'static [(Time, Time)];

/// Time 0 alone.
const AT_FIRST: Spans = &[(0, 1)];

/// Adds what is asked under an assignment from one time on, and before another, to an antecedent.
fn add_given(
    given: &mut Items<Quint>,
    net: &Net,
    asked: &[Asked],
    bits: (bool, bool),
    span: (Time, Time),
) -> Result<(), AllocError>
    requires { All (λ a. a.node.0 < net.now.raw.nets) asked.now }
    ensures { OnOk result (All (λ quint. quint.node.0 < net.now.raw.nets) given.old
        → All (λ quint. quint.node.0 < net.now.raw.nets) given.new) }
{
    let _ = net;
    for a in asked {
        given.push(Quint {
            guard: Expr::Const(a.guard.value(bits.0, bits.1)),
            node: a.node,
            value: Expr::Const(a.value.value(bits.0, bits.1)),
            from: span.0,
            to: span.1,
        })?;
    }
    Ok(())
}

/// What is asked at these times under an assignment, as the antecedent of a task.
fn given_of(
    alloc: Global,
    net: &Net,
    asked: &[Asked],
    bits: (bool, bool),
    spans: Spans,
    times: Time,
) -> Result<Items<Quint>, AllocError>
    requires { All (λ a. a.node.0 < net.now.raw.nets) asked.now }
    ensures { IfOk result (λ quints. All (λ quint. quint.node.0 < net.now.raw.nets) quints) }
{
    let mut quints = Items::new(alloc);
    for span in spans {
        add_given(&mut quints, net, asked, bits, (span.0, span.1.min(times)))?;
    }
    Ok(quints)
}

/// The weakenings of these nets, at the times at which `weak_at` gives them, up to so many times.
fn weakenings_of(
    alloc: Global,
    weak: &[NodeId],
    times: Time,
) -> Result<Items<Weakening>, AllocError> {
    let mut weakenings = Items::new(alloc);
    for (from, to) in WEAKENED {
        for node in weak {
            weakenings.push(Weakening {
                node: *node,
                from: *from,
                to: (*to).min(times),
            })?;
        }
    }
    Ok(weakenings)
}

/// The plain checker's verdict on the claim that the net has 1 at the time.
fn plain_verdict(
    alloc: Global,
    net: &Net,
    given: Items<Quint>,
    weak: Items<Weakening>,
    id: u32,
    time: Time,
) -> Result<Verdict, AllocError>
    requires widths { All (λ gate. length gate.inputs ≤ 8) net.now.raw.gates }
    requires given { All (λ quint. quint.node.0 < net.now.raw.nets) given }
{
    let claim = Quint {
        guard: Expr::Const(true),
        node: NodeId(id),
        value: Expr::Const(true),
        from: time,
        to: time.saturating_add(1),
    };
    let task = Assertion {
        name: Name::from_bytes(alloc, b"t")?,
        reset: false,
        ant: given,
        con: Items::from(Vec::from_array(alloc, [claim])?),
        weak,
    };
    verdict(alloc, net, 0, &task)
}

/// Whether some net is empty.
fn has_empty(sets: &[BitSet]) -> bool {
    sets.iter().any(|set| !set.zero && !set.one)
}

/// The verdict that these sets of all nets give on the same claim, where it may be that some net is
/// empty at some time.
fn wanted(sets: &[BitSet], is_vacuous: bool, id: usize) -> Verdict {
    if is_vacuous {
        return Verdict::Vacuous;
    }
    match sets.get(id) {
        Some(set) if set.zero && set.one => Verdict::Weak,
        Some(set) if set.zero => Verdict::Strong,
        _ => Verdict::Pass,
    }
}

/// What is asked of a net, under which assignment, and when, over so many times.
#[derive(Clone, Copy, Drop)]
struct Plan<'a> {
    asked: &'a [Asked],
    weak: &'a [NodeId],
    bits: (bool, bool),
    spans: Spans,
    times: Time,
}

/// Whether the plain checker's verdict on each net at a time is what these sets give.
fn agrees_at(
    alloc: Global,
    net: &Net,
    plan: Plan,
    sets: &[BitSet],
    is_vacuous: bool,
    time: Time,
) -> Result<bool, AllocError>
    requires widths { All (λ gate. length gate.inputs ≤ 8) net.now.raw.gates }
    requires asked { All (λ a. a.node.0 < net.now.raw.nets) plan.asked.now }
{
    for id in 0..net.nets() {
        let given = given_of(alloc, net, plan.asked, plan.bits, plan.spans, plan.times)?;
        let weak = weakenings_of(alloc, plan.weak, plan.times)?;
        let verdict = plain_verdict(alloc, net, given, weak, id, time)?;
        if verdict != wanted(sets, is_vacuous, id as usize) {
            return Ok(false);
        }
    }
    Ok(true)
}

/// Whether the tables of a net agree with the plain checker.
fn agrees(alloc: Global, net: &Net, asked: &[Asked], tables: &Tables) -> Result<bool, AllocError>
    requires widths { All (λ gate. length gate.inputs ≤ 8) net.now.raw.gates }
    requires asked { All (λ a. a.node.0 < net.now.raw.nets) asked.now }
{
    for (bits, (now, later)) in ASSIGNMENTS.iter().zip(tables.now.iter().zip(&tables.later)) {
        let plan = Plan {
            asked,
            weak: &[],
            bits: *bits,
            spans: AT_FIRST,
            times: 2,
        };
        let empty = has_empty(now);
        if !agrees_at(alloc, net, plan, now, empty, 0)?
            || !agrees_at(alloc, net, plan, later, empty || has_empty(later), 1)?
        {
            return Ok(false);
        }
    }
    Ok(true)
}

const INVERTER: &str = ".model inv\n.inputs a\n.outputs y\n.names a y\n0 1\n.end\n";

const MUX: &str = ".model mux\n.inputs s a b\n.outputs y\n.names s a b y\n01- 1\n1-1 1\n.end\n";

const AND_NOT: &str =
    ".model an\n.inputs a b\n.outputs y\n.names b n\n0 1\n.names a n y\n11 1\n.end\n";

const NEITHER: &str =
    ".model no\n.inputs a b\n.outputs y z\n.names a b y\n00 1\n.names a y z\n01 0\n.end\n";

const DIFFER: &str =
    ".model xo\n.inputs a b\n.outputs y z\n.names a b y\n10 1\n01 1\n.names a y z\n1- 0\n-1 0\n.end\n";

const THREE: &str =
    ".model th\n.inputs a b c\n.outputs y z\n.names a b c y\n011 1\n.names a b c y z\n1-10 1\n0--1 1\n.end\n";

const RISING: &str =
    ".model ri\n.inputs a b c\n.outputs x y z\n.names a b c x\n111 1\n.names a b c y\n110 0\n.names a c b z\n1-0 1\n.end\n";

const PARITY: &str =
    ".model pa\n.inputs a b\n.outputs x y z\n.names a b x\n11 1\n00 1\n.names a b y\n10 0\n01 0\n.names x y z\n10 1\n01 1\n.end\n";

const BOTH: &str =
    ".model both\n.inputs a\n.outputs y\n.names a n\n0 1\n.names a n y\n11 1\n.end\n";

const TOGGLE: &str =
    ".model toggle\n.inputs a\n.outputs q y\n.names q n\n0 1\n.names q a y\n11 1\n.latch n q\n.end\n";

// each gate has another set at each time at which nothing is asked
const FLIP: &str =
    ".model flip\n.outputs c\n.names q a\n0 1\n.names a b\n0 1\n.names b c\n0 1\n.latch a q\n.end\n";

const SHIFT: &str =
    ".model shift\n.inputs d e\n.outputs c\n.names d e n\n1- 1\n-1 1\n.latch n a\n.latch a b\n.latch b c\n.end\n";

const AND_GATE: &str = ".model and2\n.inputs a b\n.outputs y\n.names a b y\n11 1\n.end\n";

const LATCH: &str = ".model l\n.inputs d\n.outputs q\n.latch d q 1\n.end\n";

const COVERS: &str =
    ".model covers\n.outputs z o n c\n.names z\n.names o\n1\n.names c\n0\n.names a n\n1 0\n.end\n";

const UNDEFINED: &str =
    ".model top\n.inputs clk d\n.outputs q\n.names f\n.names t\n1\n.names u\n.latch d q re clk 2\n.end\n";

const ANDED: &str = ".model top\n.inputs d e\n.outputs q\n.latch n q 0\n.names d e n\n11 1\n.end\n";

const LEVELS: &str =
    ".model top\n.inputs a\n.outputs y\n.subckt mid a=a b=a y=m\n.subckt mid a=m b=a y=y\n.end\n.model mid\n.inputs a b\n.outputs y\n.subckt nor2 p=a q=b r=n\n.names n y\n0 1\n.end\n.model nor2\n.inputs p q\n.outputs r\n.names p q r\n00 1\n.end\n";

const ODD: &str =
    ".model parity\n.inputs d\n.outputs q\n.names d q n\n10 1\n01 1\n.latch n q 0\n.end\n";

/// A net of gates alone by its text, and what is asked at time 0: for a net, guard and value.
const GATES: &[(&str, &[(&str, Bit, Bit)])] = &[
    (INVERTER, &[("a", Bit::One, Bit::P)]),
    (INVERTER, &[("a", Bit::P, Bit::Q), ("y", Bit::Q, Bit::P)]),
    (
        INVERTER,
        &[("a", Bit::One, Bit::P), ("a", Bit::One, Bit::Q)],
    ),
    (
        MUX,
        &[
            ("s", Bit::One, Bit::P),
            ("a", Bit::One, Bit::Q),
            ("b", Bit::One, Bit::Zero),
        ],
    ),
    (MUX, &[("a", Bit::One, Bit::P), ("b", Bit::One, Bit::P)]),
    (MUX, &[("s", Bit::P, Bit::Q), ("a", Bit::Q, Bit::P)]),
    (AND_NOT, &[("a", Bit::One, Bit::P), ("b", Bit::One, Bit::Q)]),
    (
        AND_NOT,
        &[
            ("a", Bit::P, Bit::One),
            ("b", Bit::Q, Bit::P),
            ("n", Bit::P, Bit::Q),
        ],
    ),
    (NEITHER, &[("a", Bit::One, Bit::P), ("b", Bit::One, Bit::Q)]),
    (NEITHER, &[("a", Bit::P, Bit::Q)]),
    (
        NEITHER,
        &[
            ("a", Bit::One, Bit::P),
            ("a", Bit::Q, Bit::Zero),
            ("b", Bit::P, Bit::One),
        ],
    ),
    (DIFFER, &[("a", Bit::One, Bit::P), ("b", Bit::One, Bit::Q)]),
    (DIFFER, &[("a", Bit::One, Bit::P), ("b", Bit::P, Bit::Q)]),
    (DIFFER, &[("a", Bit::One, Bit::P), ("y", Bit::One, Bit::Q)]),
    (THREE, &[("a", Bit::One, Bit::P), ("b", Bit::One, Bit::Q)]),
    (
        THREE,
        &[
            ("a", Bit::P, Bit::Q),
            ("b", Bit::Q, Bit::P),
            ("c", Bit::One, Bit::P),
        ],
    ),
    (RISING, &[]),
    (RISING, &[("a", Bit::P, Bit::Q), ("b", Bit::Q, Bit::P)]),
    (
        RISING,
        &[
            ("a", Bit::One, Bit::P),
            ("b", Bit::P, Bit::Q),
            ("c", Bit::Q, Bit::One),
        ],
    ),
    (
        RISING,
        &[
            ("a", Bit::One, Bit::P),
            ("b", Bit::One, Bit::Q),
            ("c", Bit::One, Bit::P),
        ],
    ),
    (
        RISING,
        &[
            ("a", Bit::One, Bit::P),
            ("a", Bit::Q, Bit::One),
            ("c", Bit::One, Bit::Q),
        ],
    ),
    (PARITY, &[("a", Bit::One, Bit::P), ("b", Bit::One, Bit::Q)]),
    (PARITY, &[("a", Bit::One, Bit::P), ("b", Bit::One, Bit::P)]),
    (PARITY, &[("a", Bit::One, Bit::Q), ("b", Bit::P, Bit::Q)]),
    (
        PARITY,
        &[
            ("a", Bit::One, Bit::P),
            ("b", Bit::One, Bit::One),
            ("x", Bit::Q, Bit::P),
        ],
    ),
    (BOTH, &[("a", Bit::One, Bit::P)]),
    (BOTH, &[]),
];

/// The same of nets with latches, of covers without inputs, and of instances.
const OTHERS: &[(&str, &[(&str, Bit, Bit)])] = &[
    (TOGGLE, &[("q", Bit::One, Bit::P), ("a", Bit::P, Bit::Q)]),
    (TOGGLE, &[("q", Bit::Q, Bit::P), ("a", Bit::One, Bit::Q)]),
    (FLIP, &[("q", Bit::One, Bit::P)]),
    (FLIP, &[("q", Bit::Q, Bit::P), ("b", Bit::P, Bit::Q)]),
    (
        SHIFT,
        &[
            ("d", Bit::One, Bit::P),
            ("e", Bit::Q, Bit::P),
            ("a", Bit::P, Bit::Q),
        ],
    ),
    (
        AND_GATE,
        &[("a", Bit::One, Bit::P), ("b", Bit::One, Bit::Q)],
    ),
    (AND_GATE, &[("a", Bit::P, Bit::Q), ("y", Bit::Q, Bit::One)]),
    (LATCH, &[("d", Bit::One, Bit::P)]),
    (LATCH, &[("q", Bit::P, Bit::Q), ("d", Bit::Q, Bit::P)]),
    (COVERS, &[("a", Bit::One, Bit::P)]),
    (COVERS, &[("z", Bit::P, Bit::One), ("o", Bit::Q, Bit::P)]),
    (UNDEFINED, &[("d", Bit::One, Bit::P), ("u", Bit::Q, Bit::P)]),
    (ANDED, &[("d", Bit::One, Bit::P), ("e", Bit::One, Bit::One)]),
    (ANDED, &[("d", Bit::P, Bit::Q), ("e", Bit::Q, Bit::P)]),
    (LEVELS, &[("a", Bit::One, Bit::P)]),
    (
        LEVELS,
        &[("0/0/r", Bit::P, Bit::Q), ("m", Bit::One, Bit::P)],
    ),
    (ODD, &[("d", Bit::One, Bit::P), ("q", Bit::One, Bit::Q)]),
    (ODD, &[("d", Bit::P, Bit::Q), ("n", Bit::Q, Bit::P)]),
];

/// Nets of gates alone, with what is asked of each.
fn gates() -> &'static [(&'static str, &'static [(&'static str, Bit, Bit)])] {
    GATES
}

/// The other nets, with what is asked of each.
fn others() -> &'static [(&'static str, &'static [(&'static str, Bit, Bit)])] {
    OTHERS
}

/// Whether both steps of a net agree with the plain checker.
fn asked_agrees(alloc: Global, net: &Net, asked: &[Asked]) -> Result<bool, Fail>
    requires widths { All (λ gate. length gate.inputs ≤ 8) net.now.raw.gates }
    requires asked { All (λ a. a.node.0 < net.now.raw.nets) asked.now }
{
    let rows = rows_of_net(alloc, net)?;
    let tables = tables_alone(alloc, net, &rows, asked)?;
    Ok(agrees(alloc, net, asked, &tables)?)
}

/// The same, where what is asked has names.
fn named_agrees(alloc: Global, named: &Named, asked: &[(&str, Bit, Bit)]) -> Result<bool, Fail> {
    if !all_narrow(named.net.gates()) {
        return Err("a wide gate".into());
    }
    let asked = asked_of(alloc, &named.names, named.net.nets(), asked)?;
    asked_agrees(alloc, &named.net, &asked)
}

/// The same of the net of a text.
fn case_agrees(alloc: Global, text: &[u8], asked: &[(&str, Bit, Bit)]) -> Result<bool, Fail>
    requires { length text.now ≤ 10000 }
{
    let named = net_of(alloc, text)?;
    named_agrees(alloc, &named, asked)
}

#[test]
fn steps_agree_with_the_plain_checker(rt: HostRuntime) -> Result<(), Fail> {
    for (text, asked) in gates().iter().chain(others()) {
        let bytes = text.as_bytes();
        assert!(rt; bytes.len() <= 10000);
        assert!(rt; case_agrees(rt.alloc(), bytes, asked)?, "{text}");
    }
    Ok(())
}

/// The step from what was kept of the step before; an error where there are too few nodes.
fn advance_of<N: Nodes>(
    alloc: Global,
    ops: &Ops,
    nodes: &mut N,
    net: &Net,
    rows: &GateRows,
    latches: &[Rails],
    weak: &[NodeId],
    cuts: &[Cut],
    frame: &mut Frame,
) -> Result<Step, Fail>
    requires rows { rows.now.covers ≡ map rows_of net.now.raw.covers }
    requires long { length latches.now ≡ length net.now.raw.latches }
    requires latches { All (AreRefs (N.store nodes.old)) latches.now }
    requires weak { All (λ node. node.0 < net.now.raw.nets) weak.now }
    requires cuts { All (IsCutOf (N.store nodes.old) net.now.raw) cuts.now }
    requires frame { IsFrame (N.store nodes.old) net.now.raw frame.old }
    ensures keeps { Keeps (N.store nodes.old) (N.store nodes.new) }
    ensures refs { IfOk result (λ r. All (AreRefs (N.store nodes.new)) r.nets) }
    ensures next { IfOk result (λ r. All (AreRefs (N.store nodes.new)) r.next) }
    ensures long { IfOk result (λ r. length r.next ≡ length net.now.raw.latches) }
    ensures frame { OnOk result (IsFrame (N.store nodes.new) net.now.raw frame.new) }
{
    let Ok(made) = advance(alloc, ops, nodes, net, rows, latches, weak, cuts, frame) else {
        return Err("no step".into());
    };
    if made.next.len() != net.latches().len() {
        return Err("not a set for each latch".into());
    }
    Ok(made)
}

/// The cuts at a time: none at some times.
fn cuts_at(cuts: &[Cut], time: u32) -> &[Cut]
    ensures { (s : Store) (net : RawNet)
        → All (IsCutOf s net) cuts.now → All (IsCutOf s net) result.now }
{
    match time {
        1 => &[],
        4 => &[],
        _ => cuts,
    }
}

/// The nets that are weakened at a time: none at some times.
fn weak_at(weak: &[NodeId], time: u32) -> &[NodeId]
    ensures { (n : ℕ) → All (λ node. node.0 < n) weak.now → All (λ node. node.0 < n) result.now }
{
    match time {
        2 => &[],
        _ => weak,
    }
}

/// Which nets are weakened.
#[derive(Clone, Copy, Drop)]
enum Weakened {
    /// None.
    None,
    /// Every second one, from the first on.
    Even,
    /// Every second one, from the second on.
    Odd,
    /// All.
    All,
}

const WHICH: &[Weakened] = &[Weakened::None, Weakened::Even, Weakened::Odd, Weakened::All];

/// The nets that are weakened.
fn weak_nets(alloc: Global, net: &Net, which: Weakened) -> Result<Vec<NodeId>, AllocError>
    ensures { IfOk result (λ nodes. All (λ node. node.0 < net.now.raw.nets) nodes.items) }
{
    let mut nodes = Vec::new(alloc);
    for id in 0..net.nets() {
        let is_one = match which {
            Weakened::None => false,
            Weakened::Even => id & 1 == 0,
            Weakened::Odd => id & 1 == 1,
            Weakened::All => true,
        };
        if is_one {
            nodes.push(NodeId(id))?;
        }
    }
    Ok(nodes)
}

/// Whether two steps gave the same.
fn are_one(one: &Step, other: &Step) -> bool {
    one.nets.as_slice() == other.nets.as_slice()
        && one.next.as_slice() == other.next.as_slice()
        && one.contradictory == other.contradictory
}

/// Whether steps that go on from one another give what steps of their own give, over five times at
/// which the cuts and the weakened nets come and go.
fn frames_with<N: Nodes>(
    alloc: Global,
    ops: &Ops,
    nodes: &mut N,
    net: &Net,
    rows: &GateRows,
    weak: &[NodeId],
    cuts: &[Cut],
) -> Result<bool, Fail>
    requires rows { rows.now.covers ≡ map rows_of net.now.raw.covers }
    requires weak { All (λ node. node.0 < net.now.raw.nets) weak.now }
    requires cuts { All (IsCutOf (N.store nodes.old) net.now.raw) cuts.now }
{
    let mut latches = Items::from(unknowns(alloc, net.latches().len())?);
    let mut frame = Frame::blank(alloc, net)?;
    for time in 0..5 {
        let now = cuts_at(cuts, time);
        let free = weak_at(weak, time);
        let held = latches.as_slice();
        let kept = advance_of(alloc, ops, nodes, net, rows, held, free, now, &mut frame)?;
        let anew = step_of(alloc, ops, nodes, net, rows, held, free, now)?;
        if !are_one(&kept, &anew) {
            return Ok(false);
        }
        latches = kept.next;
    }
    Ok(true)
}

/// The same for what is asked.
fn frames_agree<N: Nodes>(
    alloc: Global,
    ops: &Ops,
    nodes: &mut N,
    net: &Net,
    rows: &GateRows,
    weak: &[NodeId],
    asked: &[Asked],
) -> Result<bool, Fail>
    requires weak { All (λ node. node.0 < net.now.raw.nets) weak.now }
    requires vars { 2 ≤ (N.store nodes.old).vars }
    requires rows { rows.now.covers ≡ map rows_of net.now.raw.covers }
    requires asked { All (λ a. a.node.0 < net.now.raw.nets) asked.now }
{
    let cuts = cuts_on(alloc, ops, nodes, net, asked)?;
    frames_with(alloc, ops, nodes, net, rows, weak, &cuts)
}

/// The same in a store of its own.
fn frames_alone(
    alloc: Global,
    net: &Net,
    rows: &GateRows,
    weak: &[NodeId],
    asked: &[Asked],
) -> Result<bool, Fail>
    requires weak { All (λ node. node.0 < net.now.raw.nets) weak.now }
    requires rows { rows.now.covers ≡ map rows_of net.now.raw.covers }
    requires asked { All (λ a. a.node.0 < net.now.raw.nets) asked.now }
{
    let ops = Ops::new(alloc);
    let mut nodes = PlainNodes::new(alloc, 2, 100)?;
    frames_agree(alloc, &ops, &mut nodes, net, rows, weak, asked)
}

/// The same, where what is asked has names, with each list of weakened nets.
fn named_frames_agree(
    alloc: Global,
    named: &Named,
    asked: &[(&str, Bit, Bit)],
) -> Result<bool, Fail> {
    let asked = asked_of(alloc, &named.names, named.net.nets(), asked)?;
    let rows = rows_of_net(alloc, &named.net)?;
    for which in WHICH {
        let weak = weak_nets(alloc, &named.net, *which)?;
        if !frames_alone(alloc, &named.net, &rows, &weak, &asked)? {
            return Ok(false);
        }
    }
    Ok(true)
}

/// The same of the net of a text.
fn case_frames_agree(alloc: Global, text: &[u8], asked: &[(&str, Bit, Bit)]) -> Result<bool, Fail>
    requires { length text.now ≤ 10000 }
{
    let named = net_of(alloc, text)?;
    named_frames_agree(alloc, &named, asked)
}

#[test]
fn steps_with_a_frame_agree_with_steps_without(rt: HostRuntime) -> Result<(), Fail> {
    for (text, asked) in gates().iter().chain(others()) {
        let bytes = text.as_bytes();
        assert!(rt; bytes.len() <= 10000);
        assert!(rt; case_frames_agree(rt.alloc(), bytes, asked)?, "{text}");
    }
    Ok(())
}

/// The number of times at which frames are renewed.
const TIMES: Time = 4;

/// The same of nets that are drawn.
const MORE_TIMES: Time = 6;

/// The times up to it at which `cuts_at` gives cuts, and those at which `weak_at` gives nets.
const COME_AND_GO: Spans = &[(0, 1), (2, 4), (5, MORE_TIMES)];

const WEAKENED: Spans = &[(0, 2), (3, MORE_TIMES)];

/// Renews a frame; an error where there are too few nodes.
fn renew_frame<N: Nodes>(
    alloc: Global,
    ops: &Ops,
    nodes: &mut N,
    net: &Net,
    rows: &GateRows,
    weak: &[NodeId],
    cuts: &[Cut],
    frame: &mut Frame,
) -> Result<(), Fail>
    requires rows { rows.now.covers ≡ map rows_of net.now.raw.covers }
    requires weak { All (λ node. node.0 < net.now.raw.nets) weak.now }
    requires cuts { All (IsCutOf (N.store nodes.old) net.now.raw) cuts.now }
    requires frame { IsFrame (N.store nodes.old) net.now.raw frame.old }
    ensures keeps { Keeps (N.store nodes.old) (N.store nodes.new) }
    ensures frame { OnOk result (IsFrame (N.store nodes.new) net.now.raw frame.new) }
{
    match renew(alloc, ops, nodes, net, rows, weak, cuts, frame) {
        Ok(_) => Ok(()),
        Err(_) => Err("no step".into()),
    }
}

/// The sets of the nets in a frame.
fn frame_rails(alloc: Global, net: &Net, frame: &Frame) -> Result<Vec<Rails>, AllocError>
    requires { length (nets_of frame.now) ≡ net.now.raw.nets }
    ensures { IfOk result (λ rails. (s : Store) → IsFrame s net.now.raw frame.now
        → All (AreRefs s) rails.items) }
{
    let mut rails = Vec::new(alloc);
    for id in 0..net.nets() {
        rails.push(frame.rails(NodeId(id)))?;
    }
    Ok(rails)
}

/// The sets of the nets in a frame under each assignment.
fn table_in<N: Nodes>(
    alloc: Global,
    nodes: &mut N,
    net: &Net,
    frame: &Frame,
) -> Result<Vec<Vec<BitSet>>, AllocError>
    requires { IsFrame (N.store nodes.old) net.now.raw frame.now }
    ensures { N.store nodes.new ≡ N.store nodes.old }
{
    let rails = frame_rails(alloc, net, frame)?;
    table_of(alloc, nodes, &rails)
}

/// The sets of the nets under each assignment, time after time, in a frame that goes on.
fn tables_renewed<N: Nodes>(
    alloc: Global,
    ops: &Ops,
    nodes: &mut N,
    net: &Net,
    rows: &GateRows,
    weak: &[NodeId],
    cuts: &[Cut],
    times: Time,
) -> Result<Vec<Vec<Vec<BitSet>>>, Fail>
    requires rows { rows.now.covers ≡ map rows_of net.now.raw.covers }
    requires weak { All (λ node. node.0 < net.now.raw.nets) weak.now }
    requires cuts { All (IsCutOf (N.store nodes.old) net.now.raw) cuts.now }
{
    let mut frame = Frame::blank(alloc, net)?;
    let mut tables = Vec::new(alloc);
    for time in 0..times {
        renew_frame(
            alloc,
            ops,
            nodes,
            net,
            rows,
            weak_at(weak, time),
            cuts_at(cuts, time),
            &mut frame,
        )?;
        tables.push(table_in(alloc, nodes, net, &frame)?)?;
    }
    Ok(tables)
}

/// The same for what is asked, in a store of its own.
fn tables_of_renew(
    alloc: Global,
    net: &Net,
    rows: &GateRows,
    weak: &[NodeId],
    asked: &[Asked],
    times: Time,
) -> Result<Vec<Vec<Vec<BitSet>>>, Fail>
    requires weak { All (λ node. node.0 < net.now.raw.nets) weak.now }
    requires rows { rows.now.covers ≡ map rows_of net.now.raw.covers }
    requires asked { All (λ a. a.node.0 < net.now.raw.nets) asked.now }
{
    let ops = Ops::new(alloc);
    let mut nodes = PlainNodes::new(alloc, 2, 100)?;
    let cuts = cuts_on(alloc, &ops, &mut nodes, net, asked)?;
    tables_renewed(alloc, &ops, &mut nodes, net, rows, weak, &cuts, times)
}

/// The sets of the nets under the assignment of this number at a time.
fn sets_then(tables: &[Vec<Vec<BitSet>>], time: usize, number: usize) -> Result<&[BitSet], Fail> {
    match tables.get(time).and_then(|table| table.get(number)) {
        Some(sets) => Ok(sets.as_slice()),
        None => Err("no such time".into()),
    }
}

/// Whether some net is empty at some time under the assignment of this number.
fn is_empty_once(tables: &[Vec<Vec<BitSet>>], number: usize) -> Result<bool, Fail> {
    for time in 0..tables.len() {
        if has_empty(sets_then(tables, time, number)?) {
            return Ok(true);
        }
    }
    Ok(false)
}

/// Whether the tables under the assignment of this number agree with the plain checker, net by net,
/// at each time.
fn times_agree(
    alloc: Global,
    net: &Net,
    weak: &[NodeId],
    asked: &[Asked],
    tables: &[Vec<Vec<BitSet>>],
    number: usize,
    times: Time,
) -> Result<bool, Fail>
    requires widths { All (λ gate. length gate.inputs ≤ 8) net.now.raw.gates }
    requires asked { All (λ a. a.node.0 < net.now.raw.nets) asked.now }
    requires number { number < 4 }
{
    let plan = Plan {
        asked,
        weak,
        bits: ASSIGNMENTS[number],
        spans: COME_AND_GO,
        times,
    };
    let empty = is_empty_once(tables, number)?;
    for time in 0..times {
        let sets = sets_then(tables, time as usize, number)?;
        if !agrees_at(alloc, net, plan, sets, empty, time)? {
            return Ok(false);
        }
    }
    Ok(true)
}

/// Whether a frame that goes on agrees with the plain checker, net by net, at each time, where cuts
/// and weakened nets come and go.
fn renew_agrees(
    alloc: Global,
    net: &Net,
    weak: &[NodeId],
    asked: &[Asked],
    times: Time,
) -> Result<bool, Fail>
    requires weak { All (λ node. node.0 < net.now.raw.nets) weak.now }
    requires widths { All (λ gate. length gate.inputs ≤ 8) net.now.raw.gates }
    requires asked { All (λ a. a.node.0 < net.now.raw.nets) asked.now }
{
    let rows = rows_of_net(alloc, net)?;
    let tables = tables_of_renew(alloc, net, &rows, weak, asked, times)?;
    for number in 0..4 {
        if !times_agree(alloc, net, weak, asked, &tables, number, times)? {
            return Ok(false);
        }
    }
    Ok(true)
}

/// The same of the net of a text.
fn case_renew_agrees(
    alloc: Global,
    text: &[u8],
    asked: &[(&str, Bit, Bit)],
    which: Weakened,
) -> Result<bool, Fail>
    requires { length text.now ≤ 10000 }
{
    let named = net_of(alloc, text)?;
    if !all_narrow(named.net.gates()) {
        return Err("a wide gate".into());
    }
    let asked = asked_of(alloc, &named.names, named.net.nets(), asked)?;
    let weak = weak_nets(alloc, &named.net, which)?;
    renew_agrees(alloc, &named.net, &weak, &asked, TIMES)
}

#[test]
fn a_frame_that_is_renewed_agrees_with_the_plain_checker(rt: HostRuntime) -> Result<(), Fail> {
    for (text, asked) in gates().iter().chain(others()) {
        let bytes = text.as_bytes();
        assert!(rt; bytes.len() <= 10000);
        assert!(rt;
            case_renew_agrees(rt.alloc(), bytes, asked, Weakened::None)?,
            "{text}"
        );
    }
    Ok(())
}

#[test]
fn a_frame_with_weakened_nets_agrees_with_the_plain_checker(rt: HostRuntime) -> Result<(), Fail> {
    for (number, (text, asked)) in others().iter().enumerate() {
        let bytes = text.as_bytes();
        assert!(rt; bytes.len() <= 10000);
        let which = match number % 3 {
            0 => Weakened::Even,
            1 => Weakened::Odd,
            _ => Weakened::All,
        };
        assert!(rt;
            case_renew_agrees(rt.alloc(), bytes, asked, which)?,
            "{text}"
        );
    }
    Ok(())
}

/// Draws a number below 128; the numbers are the same each time.
fn drawn(seed: &mut u32) -> u8 {
    *seed = seed.wrapping_mul(1664525).wrapping_add(1013904223);
    (*seed >> 25) as u8
}

/// A net that is drawn: inputs `a` and `b`, latches `c` and `d`, and gates `e` to `h` of two inputs
/// each.
fn drawn_text(alloc: Global, seed: &mut u32) -> Result<Vec<u8>, AllocError> {
    let mut text = ".model r\n.inputs a b\n.outputs h\n"
        .as_bytes()
        .to_vec(alloc)?;
    for latch in [b'c', b'd'] {
        let input = b'e'.wrapping_add(drawn(seed) & 3);
        text.extend_from_slice(".latch ".as_bytes())?;
        text.extend_from_slice(&[input, b' ', latch, b'\n'])?;
    }
    for gate in [b'e', b'f', b'g', b'h'] {
        let left = b'a'.wrapping_add(drawn(seed) & 3);
        let right = gate.wrapping_sub(1).wrapping_sub(drawn(seed) & 1);
        text.extend_from_slice(".names ".as_bytes())?;
        text.extend_from_slice(&[left, b' ', right, b' ', gate, b'\n'])?;
        for row in ["00 1\n", "01 1\n", "10 1\n", "11 1\n"] {
            if drawn(seed) & 1 == 1 {
                text.extend_from_slice(row.as_bytes())?;
            }
        }
    }
    text.extend_from_slice(".end\n".as_bytes())?;
    Ok(text)
}

/// A bit that is drawn.
fn drawn_bit(seed: &mut u32) -> Bit {
    match drawn(seed) & 3 {
        0 => Bit::Zero,
        1 => Bit::One,
        2 => Bit::P,
        _ => Bit::Q,
    }
}

/// Adds what is asked of one of the first eight nets, drawn.
fn add_drawn(found: &mut Vec<Asked>, net: &Net, seed: &mut u32) -> Result<(), AllocError>
    ensures { OnOk result (All (λ a. a.node.0 < net.now.raw.nets) found.old.items
        → All (λ a. a.node.0 < net.now.raw.nets) found.new.items) }
{
    let id = u32::from(drawn(seed) & 7);
    let guard = drawn_bit(seed);
    let value = drawn_bit(seed);
    if id < net.nets() {
        found.push(Asked {
            node: NodeId(id),
            guard,
            value,
        })?;
    }
    Ok(())
}

/// What is asked, drawn.
fn drawn_asked(alloc: Global, net: &Net, seed: &mut u32) -> Result<Vec<Asked>, AllocError>
    ensures { IfOk result (λ found. All (λ a. a.node.0 < net.now.raw.nets) found.items) }
{
    let mut found = Vec::new(alloc);
    add_drawn(&mut found, net, seed)?;
    add_drawn(&mut found, net, seed)?;
    Ok(found)
}

/// Which nets are weakened, drawn.
fn drawn_weak(alloc: Global, net: &Net, seed: &mut u32) -> Result<Vec<NodeId>, AllocError>
    ensures { IfOk result (λ nodes. All (λ node. node.0 < net.now.raw.nets) nodes.items) }
{
    let mut nodes = Vec::new(alloc);
    for id in 0..net.nets() {
        if drawn(seed) & 3 == 0 {
            nodes.push(NodeId(id))?;
        }
    }
    Ok(nodes)
}

/// Whether a frame agrees with the plain checker on a net, with what is asked and weakened, that
/// are drawn.
fn drawn_agrees(alloc: Global, seed: &mut u32) -> Result<bool, Fail> {
    let text = drawn_text(alloc, seed)?;
    if text.len() > 10000 {
        return Err("a long text".into());
    }
    let named = net_of(alloc, &text)?;
    if !all_narrow(named.net.gates()) {
        return Err("a wide gate".into());
    }
    let asked = drawn_asked(alloc, &named.net, seed)?;
    let weak = drawn_weak(alloc, &named.net, seed)?;
    renew_agrees(alloc, &named.net, &weak, &asked, MORE_TIMES)
}

#[test]
fn drawn_nets_with_weakened_nets_agree_with_the_plain_checker(rt: HostRuntime) -> Result<(), Fail> {
    let mut seed = 1;
    for number in 0..6u32 {
        assert!(rt; drawn_agrees(rt.alloc(), &mut seed)?, "{number}");
    }
    Ok(())
}

/// A model of one gate of eight inputs with more than a hundred rows, none with a `-`: the output
/// is 1 where one of `c` and `f` is 1, and where both are and `h` is.
fn long_text(alloc: Global) -> Result<Vec<u8>, AllocError> {
    let head = ".model m\n.inputs a b c d e f g h\n.outputs y\n.names a b c d e f g h y\n";
    let mut text = head.as_bytes().to_vec(alloc)?;
    for number in 0..256u32 {
        let ones = (number >> 5 & 1) + (number >> 2 & 1);
        if ones == 1 || ones == 2 && number & 1 == 1 {
            for place in [7u32, 6, 5, 4, 3, 2, 1, 0] {
                text.push(if number >> place & 1 == 1 { b'1' } else { b'0' })?;
            }
            text.extend_from_slice(" 1\n".as_bytes())?;
        }
    }
    text.extend_from_slice(".end\n".as_bytes())?;
    Ok(text)
}

/// What is asked of its inputs: variables in the order of the inputs, in the other order, one under
/// a guard, one of both inputs, and constants beside one.
const ASKED_OF_MANY: &[&[(&str, Bit, Bit)]] = &[
    &[("c", Bit::One, Bit::P), ("f", Bit::One, Bit::Q)],
    &[("c", Bit::One, Bit::Q), ("f", Bit::One, Bit::P)],
    &[("c", Bit::P, Bit::Q), ("f", Bit::One, Bit::Q)],
    &[("c", Bit::One, Bit::P), ("f", Bit::One, Bit::P)],
    &[
        ("a", Bit::One, Bit::One),
        ("f", Bit::One, Bit::Q),
        ("h", Bit::One, Bit::Zero),
    ],
    &[("h", Bit::One, Bit::P)],
    &[],
];

#[test]
fn long_lists_of_rows_agree_with_the_plain_checker(rt: HostRuntime) -> Result<(), Fail> {
    let alloc = rt.alloc();
    let text = long_text(alloc)?;
    assert!(rt; text.len() <= 10000);
    for (case, asked) in ASKED_OF_MANY.iter().enumerate() {
        assert!(rt; case_agrees(alloc, &text, *asked)?, "{case}");
        assert!(rt; case_frames_agree(alloc, &text, *asked)?, "{case}");
    }
    Ok(())
}

/// Gates of three to six inputs, one behind the others: a choice of four by two, and others with
/// on-rows and off-rows.
const FEW: &str =
    ".model few\n.inputs s t a b c d\n.outputs v\n.names s t a b c d y\n001--- 1\n01-1-- 1\n10--1- 1\n11---1 1\n.names a s b t z\n0011 0\n1-0- 0\n.names s a b c t w\n11--- 1\n1-1-1 1\n-1-11 1\n0000- 1\n.names y z w v\n000 1\n011 1\n101 1\n110 1\n.end\n";

/// What is asked of their nets: for a net, guard and value.
const ASKED_OF_FEW: &[&[(&str, Bit, Bit)]] = &[
    &[],
    &[
        ("s", Bit::One, Bit::One),
        ("t", Bit::One, Bit::Zero),
        ("a", Bit::One, Bit::One),
        ("b", Bit::One, Bit::One),
        ("c", Bit::One, Bit::Zero),
        ("d", Bit::One, Bit::One),
    ],
    &[
        ("s", Bit::One, Bit::P),
        ("t", Bit::One, Bit::Q),
        ("a", Bit::One, Bit::One),
        ("b", Bit::One, Bit::Zero),
    ],
    &[
        ("s", Bit::One, Bit::P),
        ("t", Bit::One, Bit::Q),
        ("a", Bit::Q, Bit::P),
        ("b", Bit::P, Bit::Q),
        ("c", Bit::One, Bit::Zero),
    ],
    &[("s", Bit::Q, Bit::P), ("d", Bit::One, Bit::Q)],
    &[
        ("s", Bit::P, Bit::Zero),
        ("t", Bit::P, Bit::Zero),
        ("a", Bit::P, Bit::Q),
    ],
    &[("s", Bit::One, Bit::P), ("y", Bit::Q, Bit::P)],
    &[
        ("a", Bit::One, Bit::P),
        ("a", Bit::Q, Bit::One),
        ("t", Bit::One, Bit::Q),
    ],
];

#[test]
fn gates_of_few_inputs_agree_with_the_plain_checker(rt: HostRuntime) -> Result<(), Fail> {
    let alloc = rt.alloc();
    let text = FEW.as_bytes();
    assert!(rt; text.len() <= 10000);
    for (case, asked) in ASKED_OF_FEW.iter().enumerate() {
        assert!(rt; case_agrees(alloc, text, *asked)?, "{case}");
        assert!(rt; case_frames_agree(alloc, text, *asked)?, "{case}");
    }
    Ok(())
}

/// A net of one gate, the AND of so many free nets.
fn and_of(alloc: Global, inputs: u32) -> Result<Net, Fail>
    requires { inputs ≤ 1000 }
{
    let mut row: Row = Items::new(alloc);
    let mut nets: Items<NodeId> = Items::new(alloc);
    for k in 0..inputs {
        row.push(Lit::One)?;
        nets.push(NodeId(k))?;
    }
    let cover = Cover {
        inputs,
        on: true,
        rows: Items::from(Vec::from_array(alloc, [row])?),
    };
    let gate = Gate {
        inputs: nets,
        output: NodeId(inputs),
        cover: 0,
    };
    let raw = RawNet {
        nets: inputs + 1,
        inputs: Items::new(alloc),
        outputs: Items::new(alloc),
        gates: Items::from(Vec::from_array(alloc, [gate])?),
        latches: Items::new(alloc),
        covers: Items::from(Vec::from_array(alloc, [cover])?),
    };
    match order(alloc, raw) {
        Ok(net) => Ok(net),
        Err(_) => Err("no order".into()),
    }
}

/// What is asked of 999 nets in turn: one bit under the other, and p under the second.
fn asked_in_turn(alloc: Global, first: Bit, later: Bit) -> Result<Vec<Asked>, AllocError>
    ensures { IfOk result (λ asked. All (λ a. a.node.0 < 999) asked.items) }
{
    let mut asked = Vec::new(alloc);
    for id in 0..999 {
        asked.push(Asked {
            node: NodeId(id),
            guard: if id % 2 == 0 { first } else { later },
            value: if id % 2 == 0 { later } else { Bit::P },
        })?;
    }
    Ok(asked)
}

/// The sets of a net under each assignment.
fn sets_of(alloc: Global, table: &[Vec<BitSet>], id: usize) -> Result<Vec<BitSet>, Fail> {
    let mut sets = Vec::new(alloc);
    for row in table {
        match row.get(id) {
            Some(set) => sets.push(*set)?,
            None => return Err("no such net".into()),
        }
    }
    Ok(sets)
}

/// The sets of net 1000 under each assignment, where this is asked of the nets in turn.
fn last_sets(alloc: Global, net: &Net, asked: &[Asked]) -> Result<Vec<BitSet>, Fail>
    requires asked { All (λ a. a.node.0 < 999) asked.now }
{
    if net.nets() < 1001 {
        return Err("too few nets".into());
    }
    let rows = rows_of_net(alloc, net)?;
    let tables = tables_alone(alloc, net, &rows, asked)?;
    sets_of(alloc, &tables.now, 1000)
}

/// The sets of an AND of a thousand nets under each assignment.
fn wide_sets(alloc: Global, first: Bit, later: Bit) -> Result<Vec<BitSet>, Fail> {
    let net = and_of(alloc, 1000)?;
    let asked = asked_in_turn(alloc, first, later)?;
    last_sets(alloc, &net, &asked)
}

#[test]
fn an_and_of_a_thousand_nets_is_0_where_one_is(rt: HostRuntime) -> Result<(), Fail> {
    // p is asked where q is, q where 1 is; the last net is unknown: so the output may be 1 where
    // both are
    let sets = wide_sets(rt.alloc(), Bit::One, Bit::Q)?;
    assert!(rt; sets.len() == 4);
    for ((p, q), set) in ASSIGNMENTS.iter().zip(sets.as_slice()) {
        assert!(rt; set.zero && set.one == (*q && *p), "{p} {q}");
    }
    Ok(())
}
