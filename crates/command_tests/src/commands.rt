//! What `run` writes and answers for words of every kind: the counts of a net, simulations,
//! options, refusals of words.

use program_fixture::texts::{INVERTER, INVERTS, TWICE};
use program_fixture::{Failing, Fixture, NONE, NOTHING, run_on};
use std::alloc::{AllocError, Global};
use std::process::Abort;
use std::test::Fail;
use std::thread::Threads;
use ste_program::run::Status;
use work_pool::NoGate;

const USAGE: &str =
    "usage: stework (check NET TASKS or info NET or sim NET INPUTS or bench N) [--workers W] [--steps S] [--cubes C] [--wave] [--nodes]\n";

const LATCH: &str = ".model l\n.inputs d\n.outputs q\n.latch d q 1\n.end\n";

const TWO_TASKS: &str = ".ste e\n.end\n.ste f\n.end\n";

/// Runs the program on a fixture, and compares what it answers and writes.
fn compare(
    rt: &(impl Abort + Threads + Sync),
    alloc: Global,
    fixture: &mut Fixture,
    status: Status,
    out: &str,
    err: &str,
    what: &str,
) {
    let found = run_on(rt, alloc, fixture, &NoGate);
    let written = (found, fixture.out(), fixture.err());
    assert_eq!(rt; written, (status, out.as_bytes(), err.as_bytes()), "{what}");
}

/// Runs the program on the files `n` and `s`, and compares what it answers and writes.
fn expect(
    rt: &(impl Abort + Threads + Sync),
    alloc: Global,
    words: &str,
    net: &str,
    second: &str,
    status: Status,
    out: &str,
    err: &str,
) -> Result<(), AllocError> {
    let files = &[("n", net.as_bytes()), ("s", second.as_bytes())];
    let mut fixture = Fixture::new(alloc, words, files, 200, 200, NOTHING)?;
    compare(rt, alloc, &mut fixture, status, out, err, second);
    Ok(())
}

#[test]
fn words_that_are_no_command(rt: HostRuntime) -> Result<(), Fail> {
    let alloc = rt.alloc();
    for words in [
        "check n",
        "check n s s",
        "Check n s",
        "",
        "info n s",
        "sim n",
        "bench 0",
        "bench 1001",
        "bench 007",
        "check n s --steps 0",
        "check n s --steps 16000001",
        "check n s --workers 65",
        "check n s --cubes",
        "check n s --what",
        "--help",
    ] {
        expect(
            &rt,
            alloc,
            words,
            INVERTER,
            INVERTS,
            Status::Refused,
            "",
            USAGE,
        )?;
    }
    Ok(())
}

#[test]
fn pipelines(rt: HostRuntime) -> Result<(), Fail> {
    let alloc = rt.alloc();
    for (words, out) in [
        ("bench 1", "pipe: pass\nnets 24\n"),
        ("bench 2 --workers 3 --cubes 1", "pipe: pass\nnets 40\n"),
        ("--wave bench 7 --steps 16000000", "pipe: pass\nnets 120\n"),
        (
            "bench 2 --nodes --steps 100",
            "pipe: pass\nshared nodes: 16\nnets 40\n",
        ),
    ] {
        expect(&rt, alloc, words, "?", "?", Status::Passed, out, "")?;
    }
    Ok(())
}

#[test]
fn options_and_steps(rt: HostRuntime) -> Result<(), Fail> {
    let alloc = rt.alloc();
    let both = "e: pass\nf: pass\n";
    for (words, status, out, err) in [
        (
            "--wave check n --workers 2 s --cubes=3",
            Status::Passed,
            both,
            "",
        ),
        ("check n s --steps 8000000", Status::Passed, both, ""),
        (
            "check n s --steps 8000001",
            Status::Refused,
            "",
            "stework: too many steps\n",
        ),
    ] {
        expect(&rt, alloc, words, INVERTER, TWO_TASKS, status, out, err)?;
    }
    let graph = ".gste g v\n.end\n.ste f\n.end\n";
    let many = "stework: too many steps\n";
    let words = "check n s --steps 16000000";
    expect(
        &rt,
        alloc,
        words,
        INVERTER,
        graph,
        Status::Refused,
        "",
        many,
    )?;
    let unknown = ".gste g v\n.end\n.ste f\n.con z = 1 from 0 to 1\n.end\n";
    let named = "stework: s:4: unknown node z\n";
    expect(
        &rt,
        alloc,
        words,
        INVERTER,
        unknown,
        Status::Refused,
        "",
        named,
    )?;
    Ok(())
}

#[test]
fn counts_of_nets(rt: HostRuntime) -> Result<(), Fail> {
    let alloc = rt.alloc();
    for (net, out) in [
        (
            ".model m\n.inputs a\n.clock c\n.outputs y\n.latch f q re c 0\n.names a q y\n11 1\n.end\n",
            "model m\nnets 5\ninputs 2\nfree 1\ngates 1\nlatches 1\n",
        ),
        (
            ".model\n.outputs z y\n",
            "model \nnets 2\ninputs 0\nfree 2\ngates 0\nlatches 0\n",
        ),
        (
            ".model t\n.inputs a\n.subckt u x=a y=b\n.subckt u x=b\n.model u\n.inputs x\n.outputs y\n.names x y\n0 1\n",
            "model t\nnets 3\ninputs 1\nfree 0\ngates 2\nlatches 0\n",
        ),
    ] {
        expect(&rt, alloc, "info n", net, "?", Status::Passed, out, "")?;
    }
    let looped = ".model m\n.names y y\n1 1\n.end\n";
    for (net, err) in [
        (".model m\n.foo\n", "stework: n:2: unknown word .foo\n"),
        (".model m\n.subckt m\n", "stework: n:2: recursive model m\n"),
        (looped, "stework: n: loop at y\n"),
    ] {
        expect(&rt, alloc, "info n", net, "?", Status::Refused, "", err)?;
        expect(&rt, alloc, "sim n s", net, "?", Status::Refused, "", err)?;
    }
    Ok(())
}

#[test]
fn simulations(rt: HostRuntime) -> Result<(), Fail> {
    let alloc = rt.alloc();
    for (inputs, out) in [
        (".order d\n0\n1\n0\n", "outputs q\n1\n0\n1\n"),
        ("", "outputs q\n"),
        (".order\n-\n-\n", "outputs q\n1\n0\n"),
    ] {
        expect(
            &rt,
            alloc,
            "sim n s",
            LATCH,
            inputs,
            Status::Passed,
            out,
            "",
        )?;
    }
    let two = ".model m\n.inputs a b\n.outputs z b y z\n.names a b y\n10 1\n.names z\n.end\n";
    let out = "outputs z b y\n000\n010\n001\n";
    let inputs = ".order b a\n00\n10\n01\n";
    expect(&rt, alloc, "sim n s", two, inputs, Status::Passed, out, "")?;
    let silent = ".model m\n.inputs a\n.end\n";
    let inputs = ".order a\n0\n1\n";
    expect(
        &rt,
        alloc,
        "sim n s",
        silent,
        inputs,
        Status::Passed,
        "outputs\n\n\n",
        "",
    )?;
    for (inputs, err) in [
        (".order d d\n", "stework: s:1: double name d\n"),
        (".order z\n", "stework: s:1: unknown node z\n"),
        (".order q\n", "stework: s:1: not an input: q\n"),
        (".order d\n2\n", "stework: s:2: bad line\n"),
    ] {
        expect(
            &rt,
            alloc,
            "sim n s",
            LATCH,
            inputs,
            Status::Refused,
            "",
            err,
        )?;
    }
    Ok(())
}

#[test]
fn steps_and_budgets(rt: HostRuntime) -> Result<(), Fail> {
    let alloc = rt.alloc();
    let and = ".model and2\n.inputs a b\n.outputs y\n.names a b y\n11 1\n.end\n";
    let task =
        ".vars p q\n.ste t1\n.ant a = p from 0 to 1\n.ant b = q from 0 to 1\n.con y = p & q from 0 to 1\n.end\n";
    for (words, status, out) in [
        ("check n s --steps 1", Status::NotPassed, "t1: budget\n"),
        ("check n s --steps 7", Status::Passed, "t1: pass\n"),
        ("check n s", Status::Passed, "t1: pass\n"),
    ] {
        expect(&rt, alloc, words, and, task, status, out, "")?;
    }
    // without variables no node is needed
    let plain = ".ste e\n.ant a = 1 from 0 to 1\n.con y = 0 from 0 to 1\n.end\n";
    expect(
        &rt,
        alloc,
        "check n s --steps 1",
        INVERTER,
        plain,
        Status::Passed,
        "e: pass\n",
        "",
    )?;
    Ok(())
}

#[test]
fn cubes_and_waves(rt: HostRuntime) -> Result<(), Fail> {
    let alloc = rt.alloc();
    let doubted =
        ".vars p q\n.ste t1\n.ant a = p from 0 to 1\n.ant a = q from 0 to 1\n.con y = !p from 0 to 1\n.end\n";
    let one = "t1: pass\n  contradictory: !p & q | ...\n";
    let two = "t1: pass\n  contradictory: !p & q | p & !q\n";
    for (words, out) in [
        ("check n s --cubes 1", one),
        ("check n s --cubes 2", two),
        ("check n s", two),
    ] {
        expect(
            &rt,
            alloc,
            words,
            INVERTER,
            doubted,
            Status::Passed,
            out,
            "",
        )?;
    }
    let refuted = ".vars p\n.ste h\n.ant a = p from 0 to 1\n.con y = !p from 0 to 1\n.end\n";
    let named =
        "h: strong failure\n  strong: 1\n  least: p=0\n  fails: y at 0\n  run:\n    a: 0\n    y: 0\n";
    let all =
        "h: strong failure\n  strong: 1\n  least: p=0\n  fails: y at 0\n  run:\n    a: 0\n    y: 0\n    m: 0\n    0/n: 1\n    1/n: 1\n";
    for (words, out) in [("check n s", named), ("check n s --wave", all)] {
        expect(
            &rt,
            alloc,
            words,
            TWICE,
            refuted,
            Status::NotPassed,
            out,
            "",
        )?;
    }
    Ok(())
}

/// A text of `1 << doublings` bytes that begins with these and is a comment behind them.
fn padded(alloc: Global, text: &str, doublings: usize) -> Result<Vec<u8>, AllocError> {
    let mut bytes = Vec::new(alloc);
    bytes.push(b'#')?;
    for _ in 0..doublings {
        let half = bytes.as_slice().to_vec(alloc)?;
        bytes.extend_from_slice(&half)?;
    }
    let mut whole = text.as_bytes().to_vec(alloc)?;
    if whole.len() < bytes.len() {
        whole.extend_from_slice(&bytes[whole.len()..])?;
    }
    Ok(whole)
}

#[test]
fn a_large_file(rt: HostRuntime) -> Result<(), Fail> {
    let alloc = rt.alloc();
    let text = padded(alloc, INVERTER, 20)?;
    let mut fixture = Fixture::new(
        alloc,
        "info n",
        &[("n", text.as_slice())],
        200,
        200,
        NOTHING,
    )?;
    let out = "model inv\nnets 2\ninputs 1\nfree 0\ngates 1\nlatches 0\n";
    compare(&rt, alloc, &mut fixture, Status::Passed, out, "", out);
    Ok(())
}

/// A hierarchy with a free net, a gate beside a latch, and an inner name.
const LONG: &str =
    ".model t\n.inputs a\n.outputs y f\n.subckt u x=a y=y\n.model u\n.inputs x\n.outputs y\n.latch n y 0\n.names x z n\n1- 1\n-1 1\n.end\n";

/// These lines, and so many times a line more.
fn with_lines(alloc: Global, front: &str, line: &str, count: usize) -> Result<String, AllocError> {
    let mut text = String::from_str(alloc, front)?;
    for _ in 0..count {
        text.push_str(line)?;
    }
    Ok(text)
}

#[test]
fn a_long_simulation(rt: HostRuntime) -> Result<(), Fail> {
    let alloc = rt.alloc();
    // a continued line
    let inputs = with_lines(alloc, ".order \\\n 0/z f\n10\n", "11\n", 4999)?;
    let out = with_lines(alloc, "outputs y f\n00\n", "11\n", 4999)?;
    let files = &[("n", LONG.as_bytes()), ("s", inputs.as_bytes())];
    let mut fixture = Fixture::new(alloc, "sim n s", files, 20000, 500, NOTHING)?;
    let what = "a long simulation";
    compare(&rt, alloc, &mut fixture, Status::Passed, &out, "", what);
    Ok(())
}

/// Runs the program where something fails, and compares what the error sink has taken; the output
/// has taken nothing, and the status is 3.
fn expect_fault(
    rt: &(impl Abort + Threads + Sync),
    alloc: Global,
    words: &str,
    net: &str,
    second: &str,
    failing: &Failing<'_>,
    err: &str,
) -> Result<(), AllocError> {
    let files = &[("n", net.as_bytes()), ("s", second.as_bytes())];
    let mut fixture = Fixture::new(alloc, words, files, 200, 200, failing)?;
    compare(rt, alloc, &mut fixture, Status::Faulted, "", err, err);
    Ok(())
}

#[test]
fn refusals_and_simulations_that_fail(rt: HostRuntime) -> Result<(), Fail> {
    let alloc = rt.alloc();
    let short_row = ".model m\n.inputs a b\n.outputs y\n.names a b y\n1 1\n.end\n";
    let inputs = ".order d\n1\n";
    let first: &[u64] = &[1];
    let second: &[u64] = &[2];
    for (words, net, failing, err) in [
        (
            "check n s",
            short_row,
            (second, NONE, NONE),
            "stework: cannot read s\n",
        ),
        ("check n s", short_row, (NONE, NONE, first), ""),
        (
            "info n",
            LATCH,
            (NONE, first, NONE),
            "stework: cannot write the report\n",
        ),
        (
            "sim n s",
            LATCH,
            (NONE, first, NONE),
            "stework: cannot write the report\n",
        ),
        (
            "bench 1",
            "?",
            (NONE, first, NONE),
            "stework: cannot write the report\n",
        ),
    ] {
        expect_fault(&rt, alloc, words, net, inputs, &failing, err)?;
    }
    Ok(())
}
