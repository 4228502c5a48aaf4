//! What `run` writes and answers, on worked examples, faulty texts and failing files and sinks.

use program_fixture::texts::{INVERTER, INVERTS, LATCH};
use program_fixture::{Failing, Fixture, NONE, NOTHING, run_on};
use std::alloc::{AllocError, Global};
use std::process::Abort;
use std::test::Fail;
use std::thread::Threads;
use ste_base::{NumberFault, read_number};
use ste_program::run::Status;
use work_pool::NoGate;

const MUX: &str = ".model mux\n.inputs s a b\n.outputs y\n.names s a b y\n01- 1\n1-1 1\n.end\n";

const AND_NOT: &str =
    ".model an\n.inputs a b\n.outputs y\n.names b n\n0 1\n.names a n y\n11 1\n.end\n";

const BOTH: &str =
    ".model both\n.inputs a\n.outputs y\n.names a n\n0 1\n.names a n y\n11 1\n.end\n";

const SHIFT: &str =
    ".model shift\n.inputs d\n.outputs c\n.latch d a\n.latch a b\n.latch b c\n.end\n";

const TOGGLE: &str = ".model toggle\n.inputs\n.outputs q\n.names q n\n0 1\n.latch n q\n.end\n";

/// Runs the program on a fixture, and compares what it answers and writes.
fn compare(
    rt: &(impl Abort + Threads + Sync),
    alloc: Global,
    fixture: &mut Fixture,
    status: Status,
    out: &str,
    err: &str,
    what: &str,
) {
    let found = run_on(rt, alloc, fixture, &NoGate);
    let written = (found, fixture.out(), fixture.err());
    assert_eq!(rt; written, (status, out.as_bytes(), err.as_bytes()), "{what}");
}

/// Runs a check of the files `n` and `t`, and compares what it answers and writes.
pub fn expect(
    rt: &(impl Abort + Threads + Sync),
    alloc: Global,
    net: &str,
    task: &str,
    status: Status,
    out: &str,
    err: &str,
) -> Result<(), AllocError> {
    let files = &[("n", net.as_bytes()), ("t", task.as_bytes())];
    let mut fixture = Fixture::new(alloc, "check n t", files, 200, 3, NOTHING)?;
    compare(rt, alloc, &mut fixture, status, out, err, task);
    Ok(())
}

#[test]
fn examples_of_one_gate(rt: HostRuntime) -> Result<(), Fail> {
    let alloc = rt.alloc();
    for (net, task, status, out) in [
        (INVERTER, INVERTS, Status::Passed, "t1: pass\n"),
        (
            INVERTER,
            ".vars p\n.ste t1\n.ant a = p from 0 to 1\n.con y = p from 0 to 1\n.end\n",
            Status::NotPassed,
            "t1: strong failure\n  strong: 1\n  least: p=0\n  fails: y at 0\n  run:\n    a: 0\n    y: 1\n",
        ),
        (
            INVERTER,
            ".vars p\n.ste t1\n.con y = !p from 0 to 1\n.end\n",
            Status::NotPassed,
            "t1: weak failure\n  weak: 1\n  least: p=0\n  fails: y at 0\n",
        ),
        (
            INVERTER,
            ".vars p\n.ste t1\n.ant a = p from 0 to 1\n.ant a = !p from 0 to 1\n.con y = !p from 0 to 1\n.end\n",
            Status::NotPassed,
            "t1: contradictory antecedent\n  contradictory: 1\n",
        ),
        (
            INVERTER,
            ".vars p q\n.ste t1\n.ant a = p from 0 to 1\n.ant a = q from 0 to 1\n.con y = !p from 0 to 1\n.end\n",
            Status::Passed,
            "t1: pass\n  contradictory: !p & q | p & !q\n",
        ),
        (
            INVERTER,
            ".vars p\n.ste t1\n.ant a = p from 0 to 1\n.con y = !p from 0 to 2\n.end\n",
            Status::NotPassed,
            "t1: weak failure\n  weak: 1\n  least: p=0\n  fails: y at 1\n",
        ),
        (
            INVERTER,
            ".ste empty\n.end\n",
            Status::Passed,
            "empty: pass\n",
        ),
    ] {
        expect(&rt, alloc, net, task, status, out, "")?;
    }
    Ok(())
}

#[test]
fn examples_of_gates_and_latches(rt: HostRuntime) -> Result<(), Fail> {
    let alloc = rt.alloc();
    for (net, task, status, out) in [
        (
            MUX,
            ".ste m\n.ant a = 1 from 0 to 1\n.ant b = 1 from 0 to 1\n.con y = 1 from 0 to 1\n.end\n",
            Status::Passed,
            "m: pass\n",
        ),
        (
            BOTH,
            ".ste g\n.con y = 0 from 0 to 1\n.end\n",
            Status::NotPassed,
            "g: weak failure\n  weak: 1\n  least:\n  fails: y at 0\n",
        ),
        (
            SHIFT,
            ".vars p\n.ste s\n.ant d = p from 0 to 1\n.con c = p from 3 to 4\n.end\n",
            Status::Passed,
            "s: pass\n",
        ),
        (
            SHIFT,
            ".vars p\n.ste s\n.ant d = p from 0 to 1\n.con c = p from 2 to 3\n.end\n",
            Status::NotPassed,
            "s: weak failure\n  weak: 1\n  least: p=0\n  fails: c at 2\n",
        ),
        (
            TOGGLE,
            ".vars p\n.ste f\n.ant q = p from 0 to 1\n.con q = !p from 1 to 2\n.con q = p from 2 to 3\n.end\n",
            Status::Passed,
            "f: pass\n",
        ),
        (
            TOGGLE,
            ".vars p\n.ste f\n.ant q = p from 0 to 1\n.con q = p from 1 to 2\n.end\n",
            Status::NotPassed,
            "f: strong failure\n  strong: 1\n  least: p=0\n  fails: q at 1\n  run:\n    q: 01\n",
        ),
        (
            LATCH,
            ".ste l\n.con q = 1 from 0 to 1\n.end\n",
            Status::NotPassed,
            "l: weak failure\n  weak: 1\n  least:\n  fails: q at 0\n",
        ),
        (
            LATCH,
            ".vars p\n.ste l\n.ant d = p from 0 to 20\n.con q = p from 1 to 20\n.end\n",
            Status::Passed,
            "l: pass\n",
        ),
    ] {
        expect(&rt, alloc, net, task, status, out, "")?;
    }
    Ok(())
}

const FROM_ONE: &str = ".model l\n.inputs d\n.outputs q\n.latch d q 1\n.end\n";

/// A weakened net has both bits before what is asked of it: at the times that a line gives, on its
/// edge in a graph.
#[test]
fn weakened_nets(rt: HostRuntime) -> Result<(), Fail> {
    let alloc = rt.alloc();
    for (net, task, status, out) in [
        (
            INVERTER,
            ".vars p\n.ste t1\n.ant a = p from 0 to 1\n.con y = !p from 0 to 1\n.weak y from 0 to 1\n.end\n",
            Status::NotPassed,
            "t1: weak failure\n  weak: 1\n  least: p=0\n  fails: y at 0\n",
        ),
        // over no time, and a net that is bound all the same
        (
            INVERTER,
            ".vars p\n.ste t1\n.weak y from 0 to 0\n.weak a from 0 to 1\n.ant a = p from 0 to 1\n.con y = !p from 0 to 1\n.end\n",
            Status::Passed,
            "t1: pass\n",
        ),
        (
            FROM_ONE,
            ".ste r reset\n.ant q = 0 from 0 to 1\n.weak q from 0 to 1\n.con q = 1 from 0 to 1\n.end\n",
            Status::NotPassed,
            "r: strong failure\n  strong: 1\n  least:\n  fails: q at 0\n",
        ),
        (
            FROM_ONE,
            ".ste r reset\n.ant q = 0 from 0 to 1\n.con q = 1 from 0 to 1\n.end\n",
            Status::NotPassed,
            "r: contradictory antecedent\n  contradictory: 1\n",
        ),
        (
            LATCH,
            ".vars p\n.gste loop i\n.edge i v\n.ant d = p\n.edge v v\n.ant d = p\n.con q = p\n.weak q\n.end\n",
            Status::NotPassed,
            "loop: weak failure\n  weak: 1\n  least: p=0\n  path: 0 1\n  fails: q at 1\n",
        ),
        // of the first edge alone: q is asked of on the second
        (
            LATCH,
            ".vars p\n.gste loop i\n.edge i v\n.weak q\n.ant d = p\n.edge v v\n.ant d = p\n.con q = p\n.end\n",
            Status::Passed,
            "loop: pass\n",
        ),
    ] {
        expect(&rt, alloc, net, task, status, out, "")?;
    }
    Ok(())
}

#[test]
fn netlists_that_are_refused(rt: HostRuntime) -> Result<(), Fail> {
    let alloc = rt.alloc();
    for (net, message) in [
        ("", "stework: n: no model\n"),
        ("# nothing\n\n.attr a b\n", "stework: n: no model\n"),
        (
            ".model m\n.inputs a b\n.outputs y\n.names a b y\n1\\\n 1\n",
            "stework: n:5: bad line\n",
        ),
        (".model m\n.names a b y\n1\n", "stework: n:3: bad line\n"),
        (".inputs a\n.model m\n", "stework: n:1: bad line\n"),
        (
            ".model m\n.end\n.inputs a\n.foo\n",
            "stework: n:3: bad line\n",
        ),
        (
            ".model m\n.names a y\n0 1\n1 0\n",
            "stework: n:4: bad line\n",
        ),
        (
            ".model m\n.gate nand2 A=a O=y\n",
            "stework: n:2: left out: .gate\n",
        ),
        (
            ".model m\n.latch a b as c 2\n",
            "stework: n:2: left out: as\n",
        ),
        (".model m\n\n.foo\n", "stework: n:3: unknown word .foo\n"),
    ] {
        // the netlist is refused before the task's text is looked at
        for task in [INVERTS, "no task"] {
            expect(&rt, alloc, net, task, Status::Refused, "", message)?;
        }
    }
    Ok(())
}

#[test]
fn netlists_of_every_form(rt: HostRuntime) -> Result<(), Fail> {
    let alloc = rt.alloc();
    for (net, task, status, out) in [
        // a cover without rows, covers without inputs, an off-row, and a free net
        (
            ".model covers\n.outputs z o n c\n.names z\n.names o\n1\n.names c\n0\n.names a n\n1 0\n.end\n",
            ".vars p\n.ste k\n.ant a = p from 0 to 1\n.con z = 0 from 0 to 1\n.con o = 1 from 0 to 1\n.con c = 0 from 0 to 1\n.con n = !p from 0 to 1\n.end\n",
            Status::Passed,
            "k: pass\n",
        ),
        (
            "# Generated by Yosys\n.model top\n.inputs clk d\n.outputs q\n.names $false\n.names $true\n1\n.names $undef\n.latch d q re clk 2\n.end\n",
            ".vars p\n.ste s\n.ant d = p from 0 to 1\n.con q = p from 1 to 2\n.end\n",
            Status::Passed,
            "s: pass\n",
        ),
        (
            "# Benchmark \"top\"\n.model top\n.inputs d \\\n e\n.outputs q\n\n.latch          n1          q  0\n\n.names d e n1\n11 1\n.end\n",
            ".vars p\n.ste s\n.ant d = p from 0 to 1\n.ant e = 1 from 0 to 1\n.con q = p from 1 to 2\n.end\n",
            Status::Passed,
            "s: pass\n",
        ),
        (
            ".model inv\n.inputs a\n.outputs y\n.names a y\n0 1\n",
            INVERTS,
            Status::Passed,
            "t1: pass\n",
        ),
        (
            ".model and2\n.inputs a\n.inputs b a\n.outputs y\n.names a b y\n11 1\n.end\n",
            ".vars p\n.ste t1\n.ant a = p from 0 to 1\n.ant b = 1 from 0 to 1\n.con y = p from 0 to 1\n.end\n",
            Status::Passed,
            "t1: pass\n",
        ),
        // a latch that begins with 1 begins with either bit, since the task asks for no reset
        (
            ".model l\n.inputs d\n.outputs q\n.latch d q 1\n.end\n",
            ".ste f\n.con q = 1 from 0 to 1\n.end\n",
            Status::NotPassed,
            "f: weak failure\n  weak: 1\n  least:\n  fails: q at 0\n",
        ),
    ] {
        expect(&rt, alloc, net, task, status, out, "")?;
    }
    Ok(())
}

/// The set of net `y` as the verdict on `y = 1` shows it, on a fixture of that task: 1, 0 or X.
fn set_on(rt: &(impl Abort + Threads + Sync), alloc: Global, fixture: &mut Fixture) -> u8 {
    let _ = run_on(rt, alloc, fixture, &NoGate);
    if fixture.out() == "t: pass\n".as_bytes() {
        b'1'
    } else if fixture.out().starts_with("t: strong failure\n".as_bytes()) {
        b'0'
    } else {
        let weak = "t: weak failure\n  weak: 1\n  least:\n  fails: y at 0\n";
        assert_eq!(rt; fixture.out(), weak.as_bytes());
        b'X'
    }
}

/// The same of a net and that task.
fn set_of_task(
    rt: &(impl Abort + Threads + Sync),
    alloc: Global,
    net: &str,
    task: &str,
) -> Result<u8, AllocError> {
    let files = &[("n", net.as_bytes()), ("t", task.as_bytes())];
    let mut fixture = Fixture::new(alloc, "check n t", files, 200, 100, NOTHING)?;
    Ok(set_on(rt, alloc, &mut fixture))
}

/// The same of a net with these lines as the antecedent.
fn set_of_output(
    rt: &(impl Abort + Threads + Sync),
    alloc: Global,
    net: &str,
    given: &str,
) -> Result<u8, AllocError> {
    let task = format!(in alloc; ".ste t\n{given}.con y = 1 from 0 to 1\n.end\n")?;
    set_of_task(rt, alloc, net, &task)
}

/// The antecedent that gives these inputs their values, where they are not X.
fn given(alloc: Global, inputs: &[&str], values: &[u8]) -> Result<String, AllocError> {
    let mut lines = String::new(alloc);
    for (input, value) in inputs.iter().zip(values) {
        let name = *input;
        let line = match *value {
            b'0' => format!(in alloc; ".ant {name} = 0 from 0 to 1\n")?,
            b'1' => format!(in alloc; ".ant {name} = 1 from 0 to 1\n")?,
            _ => String::new(alloc),
        };
        lines.push_str(line.as_str())?;
    }
    Ok(lines)
}

/// Compares the sets of net `y` with a table that was made by hand: the values of the inputs, and
/// the set.
fn compare_sets(
    rt: &(impl Abort + Threads + Sync),
    alloc: Global,
    net: &str,
    inputs: &[&str],
    table: &[(&str, u8)],
) -> Result<(), AllocError> {
    for (values, set) in table {
        let lines = given(alloc, inputs, values.as_bytes())?;
        assert_eq!(rt;
            set_of_output(rt, alloc, net, lines.as_str())?,
            *set,
            "at {values}"
        );
    }
    Ok(())
}

#[test]
fn sets_of_a_multiplexer(rt: HostRuntime) -> Result<(), Fail> {
    let alloc = rt.alloc();
    compare_sets(
        &rt,
        alloc,
        MUX,
        &["s", "a", "b"],
        &[
            ("000", b'0'),
            ("001", b'0'),
            ("00X", b'0'),
            ("010", b'1'),
            ("011", b'1'),
            ("01X", b'1'),
            ("0X0", b'X'),
            ("0X1", b'X'),
            ("0XX", b'X'),
            ("100", b'0'),
            ("101", b'1'),
            ("10X", b'X'),
            ("110", b'0'),
            ("111", b'1'),
            ("11X", b'X'),
            ("1X0", b'0'),
            ("1X1", b'1'),
            ("1XX", b'X'),
            ("X00", b'0'),
            ("X01", b'X'),
            ("X0X", b'X'),
            ("X10", b'X'),
            ("X11", b'1'),
            ("X1X", b'X'),
            ("XX0", b'X'),
            ("XX1", b'X'),
            ("XXX", b'X'),
        ],
    )?;
    Ok(())
}

#[test]
fn sets_of_two_gates(rt: HostRuntime) -> Result<(), Fail> {
    let alloc = rt.alloc();
    compare_sets(
        &rt,
        alloc,
        AND_NOT,
        &["a", "b"],
        &[
            ("00", b'0'),
            ("01", b'0'),
            ("0X", b'0'),
            ("10", b'1'),
            ("11", b'0'),
            ("1X", b'X'),
            ("X0", b'X'),
            ("X1", b'0'),
            ("XX", b'X'),
        ],
    )?;
    compare_sets(
        &rt,
        alloc,
        BOTH,
        &["a"],
        &[("0", b'0'), ("1", b'0'), ("X", b'X')],
    )?;
    Ok(())
}

const CANNOT_WRITE: &str = "stework: cannot write the report\n";

const CANNOT_WRITE_TWICE: &str =
    "stework: cannot write the report\nstework: cannot write the report\n";

/// An answer, and what the output and the error sink have taken by then.
type Ending<'a> = (Status, &'a str, &'a str);

/// What fails of a check, the output's room, how the check ends, and how one more ends on the same
/// files and sinks. The sinks take four bytes at a write.
const FAILING: &[(&Failing<'static>, usize, Ending<'static>, Ending<'static>)] = &[
    (
        &(&[1], &[], &[]),
        100,
        (Status::Faulted, "", "stework: cannot read n\n"),
        (Status::Passed, "t1: pass\n", "stework: cannot read n\n"),
    ),
    (
        &(&[2], &[], &[]),
        100,
        (Status::Faulted, "", "stework: cannot read t\n"),
        (Status::Passed, "t1: pass\n", "stework: cannot read t\n"),
    ),
    (
        &(&[], &[1], &[]),
        100,
        (Status::Faulted, "", CANNOT_WRITE),
        (Status::Passed, "t1: pass\n", CANNOT_WRITE),
    ),
    (
        &(&[], &[2], &[]),
        100,
        (Status::Faulted, "t1: ", CANNOT_WRITE),
        (Status::Passed, "t1: t1: pass\n", CANNOT_WRITE),
    ),
    (
        NOTHING,
        5,
        (Status::Faulted, "t1: p", CANNOT_WRITE),
        (Status::Faulted, "t1: p", CANNOT_WRITE_TWICE),
    ),
    (
        &(&[], &[1], &[1]),
        100,
        (Status::Faulted, "", ""),
        (Status::Passed, "t1: pass\n", ""),
    ),
    (
        &(&[1], &[], &[1]),
        100,
        (Status::Faulted, "", ""),
        (Status::Passed, "t1: pass\n", ""),
    ),
    // a message that breaks off
    (
        &(&[1, 2], &[], &[3]),
        100,
        (Status::Faulted, "", "stework:"),
        (Status::Faulted, "", "stework:stework: cannot read n\n"),
    ),
    (
        &(&[], &[3, 4], &[8]),
        100,
        (Status::Faulted, "t1: pass", "stework: cannot write the re"),
        (
            Status::Faulted,
            "t1: pass",
            "stework: cannot write the restework: cannot write the report\n",
        ),
    ),
    (
        &(&[], &[], &[1]),
        100,
        (Status::Passed, "t1: pass\n", ""),
        (Status::Passed, "t1: pass\nt1: pass\n", ""),
    ),
];

#[test]
fn what_fails(rt: HostRuntime) -> Result<(), Fail> {
    let alloc = rt.alloc();
    let files = &[("n", INVERTER.as_bytes()), ("t", INVERTS.as_bytes())];
    for (failing, room, first, second) in FAILING {
        let mut fixture = Fixture::new(alloc, "check n t", files, *room, 4, failing)?;
        for (status, out, err) in [*first, *second] {
            compare(&rt, alloc, &mut fixture, status, out, err, err);
        }
    }
    Ok(())
}

/// A text of 67,108,865 bytes, one more than a file may have.
fn large_text(alloc: Global) -> Result<Vec<u8>, AllocError> {
    let mut text = Vec::new(alloc);
    text.push(b'.')?;
    for _ in 0..26 {
        let half = text.as_slice().to_vec(alloc)?;
        text.extend_from_slice(&half)?;
    }
    text.push(b'.')?;
    Ok(text)
}

/// Runs a check of which one file has this text, and compares what it answers and writes.
fn expect_with(
    rt: &(impl Abort + Threads + Sync),
    alloc: Global,
    file: (&str, &[u8]),
    err: &str,
) -> Result<(), AllocError> {
    let files = &[("n", INVERTER.as_bytes()), ("t", INVERTS.as_bytes()), file];
    let mut fixture = Fixture::new(alloc, "check n t", files, 100, 100, NOTHING)?;
    compare(rt, alloc, &mut fixture, Status::Refused, "", err, err);
    Ok(())
}

#[test]
fn files_that_are_too_large(rt: HostRuntime) -> Result<(), Fail> {
    let large = large_text(rt.alloc())?;
    expect_with(&rt, rt.alloc(), ("n", &large), "stework: n: too large\n")?;
    expect_with(&rt, rt.alloc(), ("t", &large), "stework: t: too large\n")?;
    Ok(())
}

/// Ten tasks that the inverter passes.
fn ten_tasks(alloc: Global) -> Result<String, AllocError> {
    let mut tasks = String::from_str(alloc, ".vars p\n")?;
    for name in ["t1", "t2", "t3", "t4", "t5", "t6", "t7", "t8", "t9", "t10"] {
        tasks.push_str(".ste ")?;
        tasks.push_str(name)?;
        tasks.push_str("\n.ant a = p from 0 to 1\n.con y = !p from 0 to 1\n.end\n")?;
    }
    Ok(tasks)
}

#[test]
fn an_output_that_fails_within_a_line(rt: HostRuntime) -> Result<(), Fail> {
    let alloc = rt.alloc();
    let tasks = ten_tasks(alloc)?;
    let files = &[("n", INVERTER.as_bytes()), ("t", tasks.as_bytes())];
    let failing = &(NONE, &[3u64] as &[u64], NONE);
    let mut fixture = Fixture::new(alloc, "check n t", files, 1000, 4, failing)?;
    let out = "t1: pass";
    compare(
        &rt,
        alloc,
        &mut fixture,
        Status::Faulted,
        out,
        CANNOT_WRITE,
        out,
    );
    Ok(())
}

#[test]
fn numbers(rt: HostRuntime) {
    assert_eq!(&rt; read_number(b"", 100), Err(NumberFault::NotANumber));
    assert_eq!(&rt; read_number(b"12a", 100), Err(NumberFault::NotANumber));
    assert_eq!(&rt; read_number(b"0100", 100), Ok(100));
    assert_eq!(&rt; read_number(b"101", 100), Err(NumberFault::TooLarge));
    assert_eq!(&rt;
        read_number(b"18446744073709551616", u64::MAX),
        Err(NumberFault::TooLarge)
    );
}
