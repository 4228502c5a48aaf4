//! Exact results of worked examples, how many steps they need, and how many choices they leave
//! open.

ghost use Rattle.std.specs.Prelude.{◌≡◌, ◌≤◌, ◌<◌, ℕ, All, IfOk, IsTrue, length, map};
ghost use Rattle.dd_nodes.specs.Stores.{IsRef};
ghost use Rattle.gate_sets.specs.Lists.{rows_of};
ghost use Rattle.ste_model.specs.Expressions.{reads};
ghost use Rattle.ste_model.specs.Need.{ReadBelow};

use blif_lines::logical_lines;
use blif_syntax::read_models;
use bool_expr::Expr;
use dd_growing::GrowingNodes;
use dd_nodes::{Nodes, PlainNodes, Ref};
use dd_ops::OpFault;
use dd_query::eval;
use exact_engine::{ExactResults, check_exact, check_exact_with, choices, exact_results};
use flat_net::flatten;
use net_core::{Net, order};
use net_names::NetNames;
use std::alloc::{AllocError, Global};
use std::test::Fail;
use ste_base::{Items, Name, Time, VarId};
use ste_model::{Assertion, CubeList, Quint, Report, Run, Verdict};
use sym_step::GateRows;

/// An expression over two variables.
#[derive(Clone, Copy, Drop)]
enum Value {
    Zero,
    One,
    P,
    Q,
    NotP,
    PAndQ,
}

/// For a net, guard and value, and the times.
type Asked = (&'static str, Value, Value, Time, Time);

/// A net with its rows and the names of its nets.
#[derive(Drop)]
struct Ready {
    net: Net,
    rows: GateRows,
    names: NetNames,
    ghost fit: { rows.covers ≡ map rows_of net.raw.covers },
}

/// The net of a text.
fn net_of(alloc: Global, text: &[u8]) -> Result<Ready, Fail>
    requires { length text.now ≤ 20000 }
{
    let lines = logical_lines(alloc, text)?;
    let Ok(models) = read_models(alloc, lines.as_slice()) else {
        return Err("no models".into());
    };
    let (raw, names) = match flatten(alloc, &models) {
        Ok(made) => made,
        Err(_) => return Err("no flat net".into()),
    };
    match order(alloc, raw) {
        Ok(net) => {
            let rows = GateRows::of(alloc, &net)?;
            Ok(Ready { net, rows, names })
        }
        Err(_) => Err("no order".into()),
    }
}

/// The expression of a value.
fn expr_of(alloc: Global, value: Value) -> Result<Expr, AllocError>
    ensures { IfOk result (λ expr. IsTrue (reads 2 expr)) }
{
    match value {
        Value::Zero => Ok(Expr::Const(false)),
        Value::One => Ok(Expr::Const(true)),
        Value::P => Ok(Expr::Var(VarId(0))),
        Value::Q => Ok(Expr::Var(VarId(1))),
        Value::NotP => Ok(Expr::Not(Box::new(alloc, Expr::Var(VarId(0)))?)),
        Value::PAndQ => {
            let parts = Vec::from_array(alloc, [Expr::Var(VarId(0)), Expr::Var(VarId(1))])?;
            Ok(Expr::All(parts))
        }
    }
}

/// The quintuples of what is asked.
fn quints_of(
    alloc: Global,
    names: &NetNames,
    nets: u32,
    asked: &[Asked],
) -> Result<Items<Quint>, Fail>
    ensures nodes { IfOk result (λ quints. All (λ quint. quint.node.0 < nets) quints) }
    ensures reads { IfOk result (λ quints. ReadBelow 2 quints) }
{
    let mut quints = Items::new(alloc);
    for (name, guard, value, from, to) in asked {
        let Some(node) = names.resolve(name.as_bytes()) else {
            return Err("no such net".into());
        };
        if node.0 >= nets {
            return Err("no such number".into());
        }
        let guard = expr_of(alloc, *guard)?;
        let value = expr_of(alloc, *value)?;
        quints.push(Quint {
            guard,
            node,
            value,
            from: *from,
            to: *to,
        })?;
    }
    Ok(quints)
}

const INVERTER: &str = ".model inv\n.inputs a\n.outputs y\n.names a y\n0 1\n.end\n";

const BOTH_SIGNS: &str =
    ".model both\n.inputs a\n.outputs y\n.names a n\n0 1\n.names a n y\n11 1\n.end\n";

const AND_GATE: &str = ".model and2\n.inputs a b\n.outputs y\n.names a b y\n11 1\n.end\n";

const NOR_GATE: &str = ".model nor2\n.outputs y\n.names a b y\n1- 0\n-1 0\n.end\n";

const OR_GATE: &str =
    ".model or3\n.inputs a b c\n.outputs y\n.names a b c y\n1-- 1\n-1- 1\n--1 1\n.end\n";

const LATCH: &str = ".model l\n.inputs d\n.outputs q\n.latch d q 1\n.end\n";

/// A bit for each of the assignments 00, 01, 10 and 11 of the two variables.
type Set = [bool; 4];

/// The exactly strong and the exactly contradictory assignments, and how many steps were used.
#[derive(Clone, Copy, PartialEq, Eq, Drop)]
struct Reported {
    strong: Set,
    contradictory: Set,
    used: u32,
}

/// The bit of a function of eight variables where the first two are these, and the others 0.
fn bit_at(nodes: &mut PlainNodes, r: Ref, first: bool, second: bool) -> bool
    requires held { IsRef (⟦<PlainNodes as Nodes>⟧.store nodes.old) r }
    requires vars { (⟦<PlainNodes as Nodes>⟧.store nodes.old).vars ≡ 8 }
    ensures held { IsRef (⟦<PlainNodes as Nodes>⟧.store nodes.new) r }
    ensures vars { (⟦<PlainNodes as Nodes>⟧.store nodes.new).vars ≡ 8 }
    ensures store { ⟦<PlainNodes as Nodes>⟧.store nodes.new
        ≡ ⟦<PlainNodes as Nodes>⟧.store nodes.old }
{
    eval(
        nodes,
        r,
        &[first, second, false, false, false, false, false, false],
    )
}

/// The assignments at which a function of eight variables is 1, where the further variables are 0.
fn set_of(nodes: &mut PlainNodes, r: Ref) -> Set
    requires held { IsRef (⟦<PlainNodes as Nodes>⟧.store nodes.old) r }
    requires vars { (⟦<PlainNodes as Nodes>⟧.store nodes.old).vars ≡ 8 }
    ensures store { ⟦<PlainNodes as Nodes>⟧.store nodes.new
        ≡ ⟦<PlainNodes as Nodes>⟧.store nodes.old }
{
    let none = bit_at(nodes, r, false, false);
    let last = bit_at(nodes, r, false, true);
    let first = bit_at(nodes, r, true, false);
    let both = bit_at(nodes, r, true, true);
    [none, last, first, both]
}

/// What the results say.
fn results_of(nodes: &mut PlainNodes, r: ExactResults) -> Reported
    requires strong { IsRef (⟦<PlainNodes as Nodes>⟧.store nodes.old) r.strong }
    requires contradictory { IsRef (⟦<PlainNodes as Nodes>⟧.store nodes.old) r.contradictory }
    requires vars { (⟦<PlainNodes as Nodes>⟧.store nodes.old).vars ≡ 8 }
{
    let strong = set_of(nodes, r.strong);
    let contradictory = set_of(nodes, r.contradictory);
    Reported {
        strong,
        contradictory,
        used: nodes.used(),
    }
}

/// What is reported for a task with so many steps; none where they are out.
fn results_with(
    alloc: Global,
    ready: &Ready,
    task: &Assertion,
    steps: u32,
) -> Result<Option<Reported>, Fail>
    requires steps { steps ≤ 1000 }
    requires ant { All (λ quint. quint.node.0 < ready.now.net.raw.nets) task.now.ant }
    requires con { All (λ quint. quint.node.0 < ready.now.net.raw.nets) task.now.con }
    requires ant_reads { ReadBelow 2 task.now.ant }
    requires con_reads { ReadBelow 2 task.now.con }
{
    if choices(&ready.net, task) > 6 {
        return Err("too many choices".into());
    }
    let mut nodes = PlainNodes::new(alloc, 8, steps)?;
    match exact_results(alloc, &mut nodes, &ready.net, task, 2) {
        Ok(r) => Ok(Some(results_of(&mut nodes, r))),
        Err(OpFault::StepsOut) => Ok(None),
        Err(OpFault::OutOfMemory) => Err("no memory".into()),
    }
}

/// The task of what is given and what is to follow.
fn task_of(
    alloc: Global,
    ready: &Ready,
    reset: bool,
    ant: &[Asked],
    con: &[Asked],
) -> Result<Assertion, Fail>
    ensures ant { IfOk result (λ task.
        All (λ quint. quint.node.0 < ready.now.net.raw.nets) task.ant) }
    ensures con { IfOk result (λ task.
        All (λ quint. quint.node.0 < ready.now.net.raw.nets) task.con) }
    ensures ant_reads { IfOk result (λ task. ReadBelow 2 task.ant) }
    ensures con_reads { IfOk result (λ task. ReadBelow 2 task.con) }
{
    Ok(Assertion {
        name: Name::from_bytes(alloc, b"t")?,
        reset,
        ant: quints_of(alloc, &ready.names, ready.net.nets(), ant)?,
        con: quints_of(alloc, &ready.names, ready.net.nets(), con)?,
        weak: Items::new(alloc),
    })
}

/// A net by its text, a task, its choices, its exact need, and what has to be reported.
type Case = (
    &'static str,
    bool,
    &'static [Asked],
    &'static [Asked],
    u64,
    u32,
    Set,
    Set,
);

const NONE: Set = [false, false, false, false];

const ALL: Set = [true, true, true, true];

/// Worked examples, whose results and needs were found by hand.
const CASES: &[Case] = &[
    // True, and not shown by sets of single nets.
    (
        BOTH_SIGNS,
        false,
        &[],
        &[("y", Value::One, Value::Zero, 0, 1)],
        1,
        20,
        NONE,
        NONE,
    ),
    // Nothing is given: under each assignment some input breaks it.
    (
        INVERTER,
        false,
        &[],
        &[("y", Value::One, Value::NotP, 0, 1)],
        1,
        5,
        ALL,
        NONE,
    ),
    (
        INVERTER,
        false,
        &[("a", Value::One, Value::P, 0, 1)],
        &[("y", Value::One, Value::NotP, 0, 1)],
        1,
        6,
        NONE,
        NONE,
    ),
    // The two variables have to be one; then the output is not the first.
    (
        INVERTER,
        false,
        &[
            ("a", Value::One, Value::P, 0, 1),
            ("a", Value::One, Value::Q, 0, 1),
        ],
        &[("y", Value::One, Value::P, 0, 1)],
        1,
        20,
        [true, false, false, true],
        [false, true, true, false],
    ),
    (
        AND_GATE,
        false,
        &[
            ("a", Value::One, Value::P, 0, 1),
            ("b", Value::One, Value::Q, 0, 1),
        ],
        &[("y", Value::One, Value::PAndQ, 0, 1)],
        2,
        25,
        NONE,
        NONE,
    ),
    // Off-rows, over nets that are free.
    (
        NOR_GATE,
        false,
        &[("a", Value::One, Value::P, 0, 1)],
        &[("y", Value::One, Value::P, 0, 1)],
        2,
        11,
        ALL,
        NONE,
    ),
    (
        OR_GATE,
        false,
        &[],
        &[("y", Value::One, Value::One, 0, 1)],
        3,
        11,
        ALL,
        NONE,
    ),
    (
        LATCH,
        true,
        &[],
        &[("q", Value::One, Value::One, 0, 1)],
        1,
        2,
        NONE,
        NONE,
    ),
    // Without reset the latch may start with 0.
    (
        LATCH,
        false,
        &[],
        &[("q", Value::One, Value::One, 0, 2)],
        3,
        7,
        ALL,
        NONE,
    ),
];

/// Whether a task has just these results, with as many steps as it needs, and with more; and with
/// fewer these, or none.
fn has_results(
    alloc: Global,
    ready: &Ready,
    task: &Assertion,
    need: u32,
    strong: Set,
    contradictory: Set,
) -> Result<bool, Fail>
    requires ant { All (λ quint. quint.node.0 < ready.now.net.raw.nets) task.now.ant }
    requires con { All (λ quint. quint.node.0 < ready.now.net.raw.nets) task.now.con }
    requires ant_reads { ReadBelow 2 task.now.ant }
    requires con_reads { ReadBelow 2 task.now.con }
{
    for steps in 0..40 {
        match results_with(alloc, ready, task, steps)? {
            Some(reported) => {
                if reported.strong != strong || reported.contradictory != contradictory {
                    return Ok(false);
                }
                if reported.used > steps {
                    return Ok(false);
                }
            }
            None => {
                if steps >= need {
                    return Ok(false);
                }
            }
        }
    }
    Ok(true)
}

#[test]
fn worked_examples_have_their_exact_results(rt: HostRuntime) -> Result<(), Fail> {
    for (text, reset, ant, con, count, need, strong, contradictory) in CASES {
        let bytes = text.as_bytes();
        assert!(&rt; bytes.len() <= 20000);
        let ready = net_of(rt.alloc(), bytes)?;
        let task = task_of(rt.alloc(), &ready, *reset, ant, con)?;
        assert_eq!(&rt; choices(&ready.net, &task), *count);
        assert!(&rt; has_results(rt.alloc(), &ready, &task, *need, *strong, *contradictory)?);
    }
    Ok(())
}

/// The literals of cubes, by the numbers of their variables.
type Cubes = &'static [&'static [(u32, bool)]];

/// A task, and what its exact report has to say: the strong and the contradictory assignments, and
/// whether one of these lists has more; the least assignment, the failing place, and the run, a row
/// for each of these nets.
struct Expected {
    text: &'static str,
    reset: bool,
    ant: &'static [Asked],
    con: &'static [Asked],
    max: u32,
    verdict: Verdict,
    strong: Cubes,
    contradictory: Cubes,
    more: bool,
    least: Option<&'static [bool]>,
    fails: Option<(&'static str, Time)>,
    run: Option<&'static [(&'static str, &'static [bool])]>,
}

const MUX: &str = ".model mux\n.inputs s a b\n.outputs y\n.names s a b y\n01- 1\n1-1 1\n.end\n";

const AND_LATCH: &str = ".model al\n.inputs a\n.outputs y\n.latch a b\n.names a b y\n11 1\n.end\n";

/// The second latch is the one whose output has the lesser number.
const TWO_LATCHES: &str =
    ".model two\n.inputs d\n.outputs r y\n.latch d q\n.latch q r\n.names r q y\n01 1\n10 1\n.end\n";

/// The exact reports of worked examples, which were found by hand.
const REPORTS: &[Expected] = &[
    // True, and not shown by sets of single nets.
    Expected {
        text: BOTH_SIGNS,
        reset: false,
        ant: &[],
        con: &[("y", Value::One, Value::Zero, 0, 1)],
        max: 8,
        verdict: Verdict::Pass,
        strong: &[],
        contradictory: &[],
        more: false,
        least: None,
        fails: None,
        run: None,
    },
    // By sets weak: the input that breaks it is 1.
    Expected {
        text: INVERTER,
        reset: false,
        ant: &[],
        con: &[("y", Value::One, Value::NotP, 0, 1)],
        max: 8,
        verdict: Verdict::Strong,
        strong: &[&[]],
        contradictory: &[],
        more: false,
        least: Some(&[false, false]),
        fails: Some(("y", 0)),
        run: Some(&[("a", &[true]), ("y", &[false])]),
    },
    // Nothing can be as it is given, and so it passes.
    Expected {
        text: INVERTER,
        reset: false,
        ant: &[
            ("a", Value::One, Value::Zero, 0, 1),
            ("a", Value::One, Value::One, 0, 1),
        ],
        con: &[("y", Value::One, Value::P, 0, 1)],
        max: 8,
        verdict: Verdict::Pass,
        strong: &[],
        contradictory: &[&[]],
        more: false,
        least: None,
        fails: None,
        run: None,
    },
    // Strong under some assignments and contradictory under others, with room for one cube.
    Expected {
        text: INVERTER,
        reset: false,
        ant: &[
            ("a", Value::One, Value::P, 0, 1),
            ("a", Value::One, Value::Q, 0, 1),
        ],
        con: &[("y", Value::P, Value::One, 0, 1)],
        max: 1,
        verdict: Verdict::Strong,
        strong: &[&[(0, true), (1, true)]],
        contradictory: &[&[(0, false), (1, true)]],
        more: true,
        least: Some(&[true, true]),
        fails: Some(("y", 0)),
        run: Some(&[("a", &[true]), ("y", &[false])]),
    },
    // Two inputs are left open, and one of them decides.
    Expected {
        text: MUX,
        reset: false,
        ant: &[("s", Value::One, Value::P, 0, 1)],
        con: &[("y", Value::One, Value::Q, 0, 1)],
        max: 8,
        verdict: Verdict::Strong,
        strong: &[&[]],
        contradictory: &[],
        more: false,
        least: Some(&[false, false]),
        fails: Some(("y", 0)),
        run: Some(&[
            ("s", &[false]),
            ("a", &[true]),
            ("b", &[false]),
            ("y", &[true]),
        ]),
    },
    // A latch that begins with 1, and what its input is then.
    Expected {
        text: LATCH,
        reset: true,
        ant: &[],
        con: &[("q", Value::One, Value::One, 0, 3)],
        max: 8,
        verdict: Verdict::Strong,
        strong: &[&[]],
        contradictory: &[],
        more: false,
        least: Some(&[false, false]),
        fails: Some(("q", 1)),
        run: Some(&[("d", &[false, false, false]), ("q", &[true, false, false])]),
    },
    // By sets the first consequent is strong, at time 1, and the second one weak, at time 0; in the
    // least run the second one is broken first.
    Expected {
        text: AND_LATCH,
        reset: false,
        ant: &[("a", Value::One, Value::One, 0, 1)],
        con: &[
            ("b", Value::One, Value::Zero, 1, 2),
            ("y", Value::One, Value::One, 0, 1),
        ],
        max: 8,
        verdict: Verdict::Strong,
        strong: &[&[]],
        contradictory: &[],
        more: false,
        least: Some(&[false, false]),
        fails: Some(("y", 0)),
        run: Some(&[
            ("a", &[true, false]),
            ("b", &[false, true]),
            ("y", &[false, false]),
        ]),
    },
    // First values stand by net, and not by latch.
    Expected {
        text: TWO_LATCHES,
        reset: false,
        ant: &[],
        con: &[
            ("y", Value::One, Value::Zero, 0, 1),
            ("r", Value::One, Value::Zero, 1, 2),
        ],
        max: 8,
        verdict: Verdict::Strong,
        strong: &[&[]],
        contradictory: &[],
        more: false,
        least: Some(&[false, false]),
        fails: Some(("y", 0)),
        run: Some(&[
            ("d", &[false, false]),
            ("r", &[false, true]),
            ("q", &[true, false]),
            ("y", &[true, true]),
        ]),
    },
];

/// Whether a cube has these literals.
fn is_cube(cube: &[(VarId, bool)], literals: &[(u32, bool)]) -> bool {
    cube.len() == literals.len()
        && cube
            .iter()
            .zip(literals)
            .all(|(one, other)| one.0.0 == other.0 && one.1 == other.1)
}

/// Whether a list has these cubes.
fn has_cubes(list: &CubeList, cubes: Cubes) -> bool {
    list.cubes.len() == cubes.len()
        && list
            .cubes
            .as_slice()
            .iter()
            .zip(cubes)
            .all(|(cube, literals)| is_cube(cube.as_slice(), literals))
}

/// Whether a report has the lists that it should have.
fn has_lists(report: &Report, expected: &Expected) -> bool {
    let guards = &report.guards;
    has_cubes(&guards.strong, expected.strong)
        && has_cubes(&guards.weak, &[])
        && has_cubes(&guards.contradictory, expected.contradictory)
        && guards.contradictory.more == expected.more
}

/// Whether it has the least assignment.
fn has_least(report: &Report, expected: &Expected) -> bool {
    match (&report.least, expected.least) {
        (None, None) => true,
        (Some(bits), Some(least)) => bits.as_slice() == least,
        _ => false,
    }
}

/// Whether it has the failing place.
fn has_place(report: &Report, names: &NetNames, expected: &Expected) -> bool {
    match (report.fails, expected.fails) {
        (None, None) => true,
        (Some((node, t)), Some((name, time))) => {
            names.resolve(name.as_bytes()) == Some(node) && t == time
        }
        _ => false,
    }
}

/// Whether a run has this row at the net of a name.
fn has_row(run: &Run, names: &NetNames, name: &str, bits: &[bool]) -> bool {
    let Some(node) = names.resolve(name.as_bytes()) else {
        return false;
    };
    match run.rows.as_slice().get(node.0 as usize) {
        Some(row) => row.as_slice() == bits,
        None => false,
    }
}

/// Whether it has the run.
fn has_run(report: &Report, names: &NetNames, expected: &Expected) -> bool {
    match (&report.run, expected.run) {
        (None, None) => true,
        (Some(run), Some(rows)) => {
            rows.iter()
                .all(|(name, bits)| has_row(run, names, name, bits))
        }
        _ => false,
    }
}

/// Whether a report has all that it should have.
fn has_all(report: &Report, names: &NetNames, expected: &Expected) -> bool {
    report.verdict == expected.verdict
        && has_lists(report, expected)
        && has_least(report, expected)
        && has_place(report, names, expected)
        && has_run(report, names, expected)
}

/// The report of a task with so many steps.
fn report_with(
    alloc: Global,
    ready: &Ready,
    task: &Assertion,
    steps: u32,
    max: u32,
) -> Result<Report, Fail>
    requires steps { steps ≤ 1000 }
    requires ant { All (λ quint. quint.node.0 < ready.now.net.raw.nets) task.now.ant }
    requires con { All (λ quint. quint.node.0 < ready.now.net.raw.nets) task.now.con }
    requires ant_reads { ReadBelow 2 task.now.ant }
    requires con_reads { ReadBelow 2 task.now.con }
{
    if choices(&ready.net, task) > 6 {
        return Err("too many choices".into());
    }
    if max == 0 {
        return Err("no cubes".into());
    }
    let mut nodes = PlainNodes::new(alloc, 8, steps)?;
    Ok(check_exact(alloc, &mut nodes, &ready.net, task, 2, max)?)
}

/// The report of a task with so many steps, where a check by sets of bits is tried first.
fn report_tried(
    alloc: Global,
    ready: &Ready,
    task: &Assertion,
    steps: u32,
    max: u32,
) -> Result<Report, Fail>
    requires steps { steps ≤ 1000 }
    requires ant { All (λ quint. quint.node.0 < ready.now.net.raw.nets) task.now.ant }
    requires con { All (λ quint. quint.node.0 < ready.now.net.raw.nets) task.now.con }
    requires ant_reads { ReadBelow 2 task.now.ant }
    requires con_reads { ReadBelow 2 task.now.con }
{
    if choices(&ready.net, task) > 6 {
        return Err("too many choices".into());
    }
    if max == 0 {
        return Err("no cubes".into());
    }
    let mut nodes = PlainNodes::new(alloc, 8, steps)?;
    let mut scratch = GrowingNodes::new(alloc, 8, 0)?;
    Ok(check_exact_with(
        alloc,
        &mut nodes,
        &mut scratch,
        &ready.net,
        &ready.rows,
        task,
        2,
        max,
        &mut None,
    )?)
}

/// Whether the reports of a worked example by both calls have all that they should have.
fn is_reported(alloc: Global, ready: &Ready, expected: &Expected) -> Result<bool, Fail> {
    let task = task_of(alloc, ready, expected.reset, expected.ant, expected.con)?;
    let report = report_with(alloc, ready, &task, 1000, expected.max)?;
    let tried = report_tried(alloc, ready, &task, 1000, expected.max)?;
    Ok(has_all(&report, &ready.names, expected) && has_all(&tried, &ready.names, expected))
}

/// The same for the net of its text.
fn is_reported_by_text(alloc: Global, text: &[u8], expected: &Expected) -> Result<bool, Fail>
    requires { length text.now ≤ 20000 }
{
    let ready = net_of(alloc, text)?;
    is_reported(alloc, &ready, expected)
}

#[test]
fn worked_examples_have_their_exact_reports(rt: HostRuntime) -> Result<(), Fail> {
    for (number, expected) in REPORTS.iter().enumerate() {
        let bytes = expected.text.as_bytes();
        assert!(&rt; bytes.len() <= 20000);
        assert!(&rt;
            is_reported_by_text(rt.alloc(), bytes, expected)?,
            "{number}"
        );
    }
    Ok(())
}

/// Whether a report of no steps has nothing but its name and the verdict.
fn is_blank(report: &Report) -> bool {
    report.verdict == Verdict::Budget
        && report.name.bytes() == b"t".as_slice()
        && has_cubes(&report.guards.strong, &[])
        && has_cubes(&report.guards.contradictory, &[])
        && report.least.is_none()
        && report.fails.is_none()
        && report.run.is_none()
}

/// Whether an inverter's check has a blank report without steps.
fn is_blank_without_steps(alloc: Global) -> Result<bool, Fail> {
    let ready = net_of(alloc, INVERTER.as_bytes())?;
    let claim = &[("y", Value::One, Value::NotP, 0, 1)];
    let task = task_of(alloc, &ready, false, &[], claim)?;
    let report = report_with(alloc, &ready, &task, 0, 8)?;
    let tried = report_tried(alloc, &ready, &task, 0, 8)?;
    Ok(is_blank(&report) && is_blank(&tried))
}

#[test]
fn a_budget_report_is_blank(rt: HostRuntime) -> Result<(), Fail> {
    assert!(&rt; is_blank_without_steps(rt.alloc())?);
    Ok(())
}

/// Both inputs of a gate are bound to variables at three times.
const BOUND: &[Asked] = &[
    ("a", Value::One, Value::P, 0, 3),
    ("b", Value::One, Value::Q, 0, 3),
];

/// Whether a check of an and gate whose inputs are bound passes with a few steps where it is tried
/// by sets of bits first, and runs out of them by need alone.
fn is_passed_with_a_few_steps(alloc: Global) -> Result<bool, Fail> {
    let ready = net_of(alloc, AND_GATE.as_bytes())?;
    let claim = &[("y", Value::One, Value::PAndQ, 0, 3)];
    let task = task_of(alloc, &ready, false, BOUND, claim)?;
    let report = report_with(alloc, &ready, &task, 12, 8)?;
    let tried = report_tried(alloc, &ready, &task, 12, 8)?;
    Ok(report.verdict == Verdict::Budget && tried.verdict == Verdict::Pass)
}

#[test]
fn a_bound_assertion_costs_what_a_plain_check_costs(rt: HostRuntime) -> Result<(), Fail> {
    assert!(&rt; is_passed_with_a_few_steps(rt.alloc())?);
    Ok(())
}

/// Whether a failure that sets of bits decide is found from some number of steps on, which is at
/// most the exact need of 20 steps, and is more than none.
fn is_found_within_need(alloc: Global) -> Result<bool, Fail> {
    let ready = net_of(alloc, INVERTER.as_bytes())?;
    let given = &[
        ("a", Value::One, Value::P, 0, 1),
        ("a", Value::One, Value::Q, 0, 1),
    ];
    let claim = &[("y", Value::One, Value::P, 0, 1)];
    let task = task_of(alloc, &ready, false, given, claim)?;
    let mut budgets = 0;
    for steps in 0..40 {
        let tried = report_tried(alloc, &ready, &task, steps, 8)?;
        if tried.verdict == Verdict::Budget {
            budgets = steps + 1;
        }
    }
    if budgets == 0 || budgets > 20 {
        return Ok(false);
    }
    let enough = report_tried(alloc, &ready, &task, budgets, 8)?;
    Ok(enough.verdict == Verdict::Strong)
}

#[test]
fn steps_are_out_only_where_they_are_too_few(rt: HostRuntime) -> Result<(), Fail> {
    assert!(&rt; is_found_within_need(rt.alloc())?);
    Ok(())
}
