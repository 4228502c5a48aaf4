//! Verdicts of worked examples, and how many steps they need.

ghost use Rattle.std.specs.Prelude.{◌≡◌, ◌≤◌, ◌<◌, ℕ, All, IfOk, IsTrue, length, map};
ghost use Rattle.ste_model.specs.Expressions.{reads};
ghost use Rattle.ste_model.specs.Need.{ReadBelow};
ghost use Rattle.gate_sets.specs.Lists.{rows_of};

use blif_lines::logical_lines;
use blif_syntax::read_models;
use bool_expr::Expr;
use dd_nodes::{Nodes, PlainNodes};
use flat_net::flatten;
use net_core::{Net, order};
use net_names::NetNames;
use std::alloc::{AllocError, Global};
use std::test::Fail;
use ste_base::{Items, Name, Time, VarId};
use ste_engine::check_ste;
use ste_model::{Assertion, CubeList, Quint, Report, Run, Verdict};
use sym_step::GateRows;

/// An expression over two variables.
#[derive(Clone, Copy, Drop)]
enum Value {
    Zero,
    One,
    P,
    Q,
    NotP,
    PAndQ,
}

/// For a net, guard and value, and the times.
type Asked = (&'static str, Value, Value, Time, Time);

/// A net by its text, whether latches begin with their initial values, what is given, what is to
/// follow, and the verdict.
type Case = (
    &'static str,
    bool,
    &'static [Asked],
    &'static [Asked],
    Verdict,
);

/// A net with its rows and the names of its nets.
#[derive(Drop)]
struct Ready {
    net: Net,
    rows: GateRows,
    names: NetNames,
    ghost fit: { rows.covers ≡ map rows_of net.raw.covers },
}

/// The net of a text.
fn net_of(alloc: Global, text: &[u8]) -> Result<Ready, Fail>
    requires { length text.now ≤ 20000 }
{
    let lines = logical_lines(alloc, text)?;
    let Ok(models) = read_models(alloc, lines.as_slice()) else {
        return Err("no models".into());
    };
    let (raw, names) = match flatten(alloc, &models) {
        Ok(made) => made,
        Err(_) => return Err("no flat net".into()),
    };
    match order(alloc, raw) {
        Ok(net) => {
            let rows = GateRows::of(alloc, &net)?;
            Ok(Ready { net, rows, names })
        }
        Err(_) => Err("no order".into()),
    }
}

/// The expression of a value.
fn expr_of(alloc: Global, value: Value) -> Result<Expr, AllocError>
    ensures { IfOk result (λ expr. IsTrue (reads 2 expr)) }
{
    match value {
        Value::Zero => Ok(Expr::Const(false)),
        Value::One => Ok(Expr::Const(true)),
        Value::P => Ok(Expr::Var(VarId(0))),
        Value::Q => Ok(Expr::Var(VarId(1))),
        Value::NotP => Ok(Expr::Not(Box::new(alloc, Expr::Var(VarId(0)))?)),
        Value::PAndQ => {
            let parts = Vec::from_array(alloc, [Expr::Var(VarId(0)), Expr::Var(VarId(1))])?;
            Ok(Expr::All(parts))
        }
    }
}

/// The quintuples of what is asked.
fn quints_of(
    alloc: Global,
    names: &NetNames,
    nets: u32,
    asked: &[Asked],
) -> Result<Items<Quint>, Fail>
    ensures nodes { IfOk result (λ quints. All (λ quint. quint.node.0 < nets) quints) }
    ensures reads { IfOk result (λ quints. ReadBelow 2 quints) }
{
    let mut quints = Items::new(alloc);
    for (name, guard, value, from, to) in asked {
        let Some(node) = names.resolve(name.as_bytes()) else {
            return Err("no such net".into());
        };
        if node.0 >= nets {
            return Err("no such number".into());
        }
        let guard = expr_of(alloc, *guard)?;
        let value = expr_of(alloc, *value)?;
        quints.push(Quint {
            guard,
            node,
            value,
            from: *from,
            to: *to,
        })?;
    }
    Ok(quints)
}

/// The report on a task with so many steps and at most so many cubes in each list, and how many
/// steps were used.
fn report_on(
    alloc: Global,
    ready: &Ready,
    task: &Assertion,
    steps: u32,
    cubes: u32,
) -> Result<(Report, u32), Fail>
    requires steps { steps ≤ 1000 }
    requires ant { All (λ quint. quint.node.0 < ready.now.net.raw.nets) task.now.ant }
    requires con { All (λ quint. quint.node.0 < ready.now.net.raw.nets) task.now.con }
    requires weak { All (λ weakening. weakening.node.0 < ready.now.net.raw.nets) task.now.weak }
    requires ant_reads { ReadBelow 2 task.now.ant }
    requires con_reads { ReadBelow 2 task.now.con }
{
    let mut nodes = PlainNodes::new(alloc, 2, steps)?;
    let report = check_ste(alloc, &mut nodes, &ready.net, &ready.rows, task, cubes)?;
    Ok((report, nodes.used()))
}

/// The same on the task of what is given and what is to follow.
fn report_of(
    alloc: Global,
    ready: &Ready,
    reset: bool,
    ant: &[Asked],
    con: &[Asked],
    steps: u32,
    cubes: u32,
) -> Result<(Report, u32), Fail>
    requires { steps ≤ 1000 }
{
    let task = Assertion {
        name: Name::from_bytes(alloc, b"t")?,
        reset,
        ant: quints_of(alloc, &ready.names, ready.net.nets(), ant)?,
        con: quints_of(alloc, &ready.names, ready.net.nets(), con)?,
        weak: Items::new(alloc),
    };
    report_on(alloc, ready, &task, steps, cubes)
}

/// The verdict with so many steps, and how many of them were used.
fn verdict_of(
    alloc: Global,
    ready: &Ready,
    reset: bool,
    ant: &[Asked],
    con: &[Asked],
    steps: u32,
) -> Result<(Verdict, u32), Fail>
    requires { steps ≤ 1000 }
{
    let (report, used) = report_of(alloc, ready, reset, ant, con, steps, 8)?;
    Ok((report.verdict, used))
}

/// The same for the net of a text.
fn verdict_by_text(
    alloc: Global,
    text: &[u8],
    reset: bool,
    ant: &[Asked],
    con: &[Asked],
) -> Result<(Verdict, u32), Fail>
    requires { length text.now ≤ 20000 }
{
    let ready = net_of(alloc, text)?;
    verdict_of(alloc, &ready, reset, ant, con, 1000)
}

const INVERTER: &str = ".model inv\n.inputs a\n.outputs y\n.names a y\n0 1\n.end\n";

const MUX: &str = ".model mux\n.inputs s a b\n.outputs y\n.names s a b y\n01- 1\n1-1 1\n.end\n";

const BOTH_SIGNS: &str =
    ".model both\n.inputs a\n.outputs y\n.names a n\n0 1\n.names a n y\n11 1\n.end\n";

const LATCH: &str = ".model l\n.inputs d\n.outputs q\n.latch d q 1\n.end\n";

const AND_GATE: &str = ".model and2\n.inputs a b\n.outputs y\n.names a b y\n11 1\n.end\n";

const AND_LATCH: &str = ".model al\n.inputs a\n.outputs y\n.latch a b\n.names a b y\n11 1\n.end\n";

/// Worked examples, whose verdicts were found by hand.
const CASES: &[Case] = &[
    (
        INVERTER,
        false,
        &[("a", Value::One, Value::P, 0, 1)],
        &[("y", Value::One, Value::NotP, 0, 1)],
        Verdict::Pass,
    ),
    (
        INVERTER,
        false,
        &[("a", Value::One, Value::P, 0, 1)],
        &[("y", Value::One, Value::P, 0, 1)],
        Verdict::Strong,
    ),
    (
        INVERTER,
        false,
        &[],
        &[("y", Value::One, Value::NotP, 0, 1)],
        Verdict::Weak,
    ),
    (
        INVERTER,
        false,
        &[
            ("a", Value::One, Value::P, 0, 1),
            ("a", Value::One, Value::NotP, 0, 1),
        ],
        &[("y", Value::One, Value::NotP, 0, 1)],
        Verdict::Vacuous,
    ),
    (
        INVERTER,
        false,
        &[
            ("a", Value::One, Value::P, 0, 1),
            ("a", Value::One, Value::Q, 0, 1),
        ],
        &[("y", Value::One, Value::NotP, 0, 1)],
        Verdict::Pass,
    ),
    // At time 1 the antecedent says nothing.
    (
        INVERTER,
        false,
        &[("a", Value::One, Value::P, 0, 1)],
        &[("y", Value::One, Value::NotP, 0, 2)],
        Verdict::Weak,
    ),
    // Guards.
    (
        INVERTER,
        false,
        &[("a", Value::One, Value::P, 0, 1)],
        &[("y", Value::P, Value::One, 0, 1)],
        Verdict::Strong,
    ),
    (
        INVERTER,
        false,
        &[("a", Value::One, Value::P, 0, 1)],
        &[("y", Value::P, Value::Zero, 0, 1)],
        Verdict::Pass,
    ),
    // Nothing is asked, and what is asked at no time.
    (INVERTER, false, &[], &[], Verdict::Pass),
    (
        INVERTER,
        false,
        &[("a", Value::P, Value::Q, 3, 3)],
        &[("y", Value::Zero, Value::PAndQ, 2, 2)],
        Verdict::Pass,
    ),
    // The unknown select does not matter, for both data inputs are 1.
    (
        MUX,
        false,
        &[
            ("a", Value::One, Value::One, 0, 1),
            ("b", Value::One, Value::One, 0, 1),
        ],
        &[("y", Value::One, Value::One, 0, 1)],
        Verdict::Pass,
    ),
    // True, and not shown by sets of single nets.
    (
        BOTH_SIGNS,
        false,
        &[],
        &[("y", Value::One, Value::Zero, 0, 1)],
        Verdict::Weak,
    ),
    (
        LATCH,
        true,
        &[],
        &[("q", Value::One, Value::One, 0, 1)],
        Verdict::Pass,
    ),
    (
        LATCH,
        false,
        &[],
        &[("q", Value::One, Value::One, 0, 1)],
        Verdict::Weak,
    ),
    (
        LATCH,
        false,
        &[("d", Value::One, Value::P, 0, 1)],
        &[("q", Value::One, Value::P, 1, 2)],
        Verdict::Pass,
    ),
    (
        LATCH,
        false,
        &[("d", Value::One, Value::P, 0, 1)],
        &[("q", Value::One, Value::NotP, 1, 2)],
        Verdict::Strong,
    ),
];

#[test]
fn worked_examples_have_their_verdicts(rt: HostRuntime) -> Result<(), Fail> {
    for (text, reset, ant, con, verdict) in CASES {
        let bytes = text.as_bytes();
        assert!(&rt; bytes.len() <= 20000);
        let found = verdict_by_text(rt.alloc(), bytes, *reset, ant, con)?;
        assert_eq!(&rt; found.0, *verdict);
    }
    Ok(())
}

/// The literals of cubes, by the numbers of their variables.
type Cubes = &'static [&'static [(u32, bool)]];

/// A task, and what its report has to say: the strong, the weak and the contradictory assignments,
/// and whether the lists have more; the least assignment, the failing place, and the run, a row for
/// each net in the order of the netlist.
struct Expected {
    text: &'static str,
    reset: bool,
    ant: &'static [Asked],
    con: &'static [Asked],
    max: u32,
    verdict: Verdict,
    strong: Cubes,
    weak: Cubes,
    contradictory: Cubes,
    more: bool,
    least: Option<&'static [bool]>,
    fails: Option<(&'static str, Time)>,
    run: Option<&'static [&'static [bool]]>,
}

/// The reports of worked examples, which were found by hand.
const REPORTS: &[Expected] = &[
    // Strong under each assignment.
    Expected {
        text: INVERTER,
        reset: false,
        ant: &[("a", Value::One, Value::P, 0, 1)],
        con: &[("y", Value::One, Value::P, 0, 1)],
        max: 8,
        verdict: Verdict::Strong,
        strong: &[&[]],
        weak: &[],
        contradictory: &[],
        more: false,
        least: Some(&[false, false]),
        fails: Some(("y", 0)),
        run: Some(&[&[false], &[true]]),
    },
    // Weak: no run is due.
    Expected {
        text: INVERTER,
        reset: false,
        ant: &[],
        con: &[("y", Value::One, Value::NotP, 0, 1)],
        max: 8,
        verdict: Verdict::Weak,
        strong: &[],
        weak: &[&[]],
        contradictory: &[],
        more: false,
        least: Some(&[false, false]),
        fails: Some(("y", 0)),
        run: None,
    },
    // Contradictory where two variables differ.
    Expected {
        text: INVERTER,
        reset: false,
        ant: &[
            ("a", Value::One, Value::P, 0, 1),
            ("a", Value::One, Value::Q, 0, 1),
        ],
        con: &[("y", Value::One, Value::NotP, 0, 1)],
        max: 8,
        verdict: Verdict::Pass,
        strong: &[],
        weak: &[],
        contradictory: &[&[(0, false), (1, true)], &[(0, true), (1, false)]],
        more: false,
        least: None,
        fails: None,
        run: None,
    },
    // The same with room for one cube.
    Expected {
        text: INVERTER,
        reset: false,
        ant: &[
            ("a", Value::One, Value::P, 0, 1),
            ("a", Value::One, Value::Q, 0, 1),
        ],
        con: &[("y", Value::One, Value::NotP, 0, 1)],
        max: 1,
        verdict: Verdict::Pass,
        strong: &[],
        weak: &[],
        contradictory: &[&[(0, false), (1, true)]],
        more: true,
        least: None,
        fails: None,
        run: None,
    },
    // At time 1 the antecedent says nothing.
    Expected {
        text: INVERTER,
        reset: false,
        ant: &[("a", Value::One, Value::P, 0, 1)],
        con: &[("y", Value::One, Value::NotP, 0, 2)],
        max: 8,
        verdict: Verdict::Weak,
        strong: &[],
        weak: &[&[]],
        contradictory: &[],
        more: false,
        least: Some(&[false, false]),
        fails: Some(("y", 1)),
        run: None,
    },
    // The antecedent asks of a gate's output, so no run is due.
    Expected {
        text: INVERTER,
        reset: false,
        ant: &[("y", Value::One, Value::P, 0, 1)],
        con: &[("y", Value::One, Value::NotP, 0, 1)],
        max: 8,
        verdict: Verdict::Strong,
        strong: &[&[]],
        weak: &[],
        contradictory: &[],
        more: false,
        least: Some(&[false, false]),
        fails: Some(("y", 0)),
        run: None,
    },
    // A guard.
    Expected {
        text: INVERTER,
        reset: false,
        ant: &[("a", Value::One, Value::P, 0, 1)],
        con: &[("y", Value::P, Value::One, 0, 1)],
        max: 8,
        verdict: Verdict::Strong,
        strong: &[&[(0, true)]],
        weak: &[],
        contradictory: &[],
        more: false,
        least: Some(&[true, false]),
        fails: Some(("y", 0)),
        run: Some(&[&[true], &[false]]),
    },
    // A latch begins with its initial value, and follows its input.
    Expected {
        text: LATCH,
        reset: true,
        ant: &[("d", Value::One, Value::P, 0, 1)],
        con: &[("q", Value::One, Value::NotP, 1, 2)],
        max: 8,
        verdict: Verdict::Strong,
        strong: &[&[]],
        weak: &[],
        contradictory: &[],
        more: false,
        least: Some(&[false, false]),
        fails: Some(("q", 1)),
        run: Some(&[&[false, false], &[true, false]]),
    },
    // With p the output is strong and the other input is weak: such an assignment is strong alone.
    // It is the second consequent that fails strongly.
    Expected {
        text: AND_GATE,
        reset: false,
        ant: &[("a", Value::P, Value::Zero, 0, 1)],
        con: &[
            ("b", Value::One, Value::One, 0, 1),
            ("y", Value::One, Value::One, 0, 1),
        ],
        max: 8,
        verdict: Verdict::Strong,
        strong: &[&[(0, true)]],
        weak: &[&[(0, false)]],
        contradictory: &[],
        more: false,
        least: Some(&[true, false]),
        fails: Some(("y", 0)),
        run: Some(&[&[false], &[false], &[false]]),
    },
    // The first time decides, and there the first consequent in text order.
    Expected {
        text: INVERTER,
        reset: false,
        ant: &[("a", Value::One, Value::P, 0, 2)],
        con: &[
            ("y", Value::One, Value::P, 1, 2),
            ("a", Value::One, Value::NotP, 0, 2),
            ("y", Value::One, Value::P, 0, 1),
        ],
        max: 8,
        verdict: Verdict::Strong,
        strong: &[&[]],
        weak: &[],
        contradictory: &[],
        more: false,
        least: Some(&[false, false]),
        fails: Some(("a", 0)),
        run: Some(&[&[false, false], &[true, true]]),
    },
];

/// Whether a list has these cubes.
fn has_cubes(list: &CubeList, cubes: Cubes) -> bool {
    list.cubes.len() == cubes.len()
        && list
            .cubes
            .as_slice()
            .iter()
            .zip(cubes)
            .all(|(cube, literals)| is_cube(cube.as_slice(), literals))
}

/// Whether a cube has these literals.
fn is_cube(cube: &[(VarId, bool)], literals: &[(u32, bool)]) -> bool {
    cube.len() == literals.len()
        && cube
            .iter()
            .zip(literals)
            .all(|(one, other)| one.0.0 == other.0 && one.1 == other.1)
}

/// Whether a run has these rows.
fn has_rows(run: &Run, rows: &[&[bool]]) -> bool {
    run.rows.len() == rows.len()
        && run
            .rows
            .as_slice()
            .iter()
            .zip(rows)
            .all(|(row, bits)| row.as_slice() == *bits)
}

/// Whether a report has the lists that it should have.
fn has_lists(report: &Report, expected: &Expected) -> bool {
    let guards = &report.guards;
    has_cubes(&guards.strong, expected.strong)
        && has_cubes(&guards.weak, expected.weak)
        && has_cubes(&guards.contradictory, expected.contradictory)
        && guards.contradictory.more == expected.more
}

/// Whether it has the least assignment.
fn has_least(report: &Report, expected: &Expected) -> bool {
    match (&report.least, expected.least) {
        (None, None) => true,
        (Some(bits), Some(least)) => bits.as_slice() == least,
        _ => false,
    }
}

/// Whether it has the failing place.
fn has_place(report: &Report, names: &NetNames, expected: &Expected) -> bool {
    match (report.fails, expected.fails) {
        (None, None) => true,
        (Some((node, t)), Some((name, time))) => {
            names.resolve(name.as_bytes()) == Some(node) && t == time
        }
        _ => false,
    }
}

/// Whether it has the run.
fn has_run(report: &Report, expected: &Expected) -> bool {
    match (&report.run, expected.run) {
        (None, None) => true,
        (Some(run), Some(rows)) => has_rows(run, rows),
        _ => false,
    }
}

/// Whether a report has all that it should have.
fn has_all(report: &Report, names: &NetNames, expected: &Expected) -> bool {
    report.verdict == expected.verdict
        && has_lists(report, expected)
        && has_least(report, expected)
        && has_place(report, names, expected)
        && has_run(report, expected)
}

/// Whether the report of a worked example has all that it should have.
fn is_reported(alloc: Global, ready: &Ready, expected: &Expected) -> Result<bool, Fail> {
    let (report, _) = report_of(
        alloc,
        ready,
        expected.reset,
        expected.ant,
        expected.con,
        1000,
        expected.max,
    )?;
    Ok(has_all(&report, &ready.names, expected))
}

/// The same for the net of its text.
fn is_reported_by_text(alloc: Global, text: &[u8], expected: &Expected) -> Result<bool, Fail>
    requires { length text.now ≤ 20000 }
{
    let ready = net_of(alloc, text)?;
    is_reported(alloc, &ready, expected)
}

#[test]
fn worked_examples_have_their_reports(rt: HostRuntime) -> Result<(), Fail> {
    for (number, expected) in REPORTS.iter().enumerate() {
        let bytes = expected.text.as_bytes();
        assert!(&rt; bytes.len() <= 20000);
        assert!(&rt;
            is_reported_by_text(rt.alloc(), bytes, expected)?,
            "{number}"
        );
    }
    Ok(())
}

/// Whether a report of no steps has nothing but its name and the verdict.
fn is_blank(alloc: Global, ready: &Ready) -> Result<bool, Fail> {
    let given = &[("a", Value::One, Value::P, 0, 1)];
    let claim = &[("y", Value::One, Value::P, 0, 1)];
    let (report, used) = report_of(alloc, ready, false, given, claim, 0, 8)?;
    Ok(
        used == 0
            && report.verdict == Verdict::Budget
            && report.guards.strong.cubes.len() == 0
            && report.least.is_none(),
    )
}

/// The same on the inverter.
fn is_blank_on_inverter(alloc: Global) -> Result<bool, Fail> {
    let ready = net_of(alloc, INVERTER.as_bytes())?;
    is_blank(alloc, &ready)
}

#[test]
fn a_budget_report_is_blank(rt: HostRuntime) -> Result<(), Fail> {
    let blank = is_blank_on_inverter(rt.alloc())?;
    assert!(&rt; blank);
    Ok(())
}

/// A net by its text, what is given, what is to follow, the verdict, and how many steps are needed,
/// as counted by a program of its own.
const NEEDS: &[(&str, &[Asked], &[Asked], Verdict, u32)] = &[
    (
        AND_GATE,
        &[
            ("a", Value::One, Value::P, 0, 1),
            ("b", Value::One, Value::Q, 0, 1),
        ],
        &[("y", Value::One, Value::PAndQ, 0, 1)],
        Verdict::Pass,
        7,
    ),
    (
        AND_LATCH,
        &[("a", Value::Q, Value::P, 0, 2)],
        &[("y", Value::Q, Value::P, 1, 2)],
        Verdict::Pass,
        8,
    ),
    (
        INVERTER,
        &[("a", Value::One, Value::One, 0, 2)],
        &[("y", Value::One, Value::Zero, 0, 2)],
        Verdict::Pass,
        0,
    ),
];

/// Whether a task has its verdict with as many steps as are needed, and with more; and with fewer
/// its verdict, or it has used all of them.
fn suffice(
    alloc: Global,
    ready: &Ready,
    ant: &[Asked],
    con: &[Asked],
    verdict: Verdict,
    need: u32,
) -> Result<bool, Fail> {
    for steps in 0..15 {
        let (found, used) = verdict_of(alloc, ready, false, ant, con, steps)?;
        let spent = found == Verdict::Budget && steps < need && used == steps;
        if found != verdict && !spent {
            return Ok(false);
        }
    }
    Ok(true)
}

/// The same for the net of a text.
fn suffice_by_text(
    alloc: Global,
    text: &[u8],
    ant: &[Asked],
    con: &[Asked],
    verdict: Verdict,
    need: u32,
) -> Result<bool, Fail>
    requires { length text.now ≤ 20000 }
{
    let ready = net_of(alloc, text)?;
    suffice(alloc, &ready, ant, con, verdict, need)
}

#[test]
fn steps_at_the_need_suffice(rt: HostRuntime) -> Result<(), Fail> {
    for (text, ant, con, verdict, need) in NEEDS {
        let bytes = text.as_bytes();
        assert!(&rt; bytes.len() <= 20000);
        assert!(&rt;
            suffice_by_text(rt.alloc(), bytes, ant, con, *verdict, *need)?,
            "{need}"
        );
    }
    Ok(())
}

/// The names of a thousand inputs.
fn add_inputs(text: &mut Vec<u8>) -> Result<(), AllocError> {
    for k in 0u32..1000 {
        let digits = [
            b'n',
            b'0' + (k / 100) as u8,
            b'0' + (k / 10 % 10) as u8,
            b'0' + (k % 10) as u8,
            b' ',
        ];
        text.extend_from_slice(&digits)?;
    }
    Ok(())
}

/// A gate of a thousand inputs, which is 1 where each is.
fn wide_gate(alloc: Global) -> Result<Vec<u8>, AllocError> {
    let mut text = Vec::new(alloc);
    text.extend_from_slice(b".model w\n.inputs ")?;
    add_inputs(&mut text)?;
    text.extend_from_slice(b"\n.outputs y\n.names ")?;
    add_inputs(&mut text)?;
    text.extend_from_slice(b"y\n")?;
    text.extend_from_slice(&[b'1'; 1000])?;
    text.extend_from_slice(b" 1\n.end\n")?;
    Ok(text)
}

#[test]
fn a_gate_of_a_thousand_inputs_has_its_verdict(rt: HostRuntime) -> Result<(), Fail> {
    let text = wide_gate(rt.alloc())?;
    assert!(&rt; text.len() <= 20000);
    let given = &[("n999", Value::One, Value::Zero, 0, 1)];
    let claim = &[("y", Value::One, Value::Zero, 0, 1)];
    let found = verdict_by_text(rt.alloc(), &text, false, given, claim)?;
    assert_eq!(&rt; found.0, Verdict::Pass);
    Ok(())
}
