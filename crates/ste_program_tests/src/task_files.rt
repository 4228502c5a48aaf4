//! Task files over small netlists: what is read of them, and each refusal with its line.

use crate::tests::expect;
use program_fixture::texts::{INVERTER, INVERTS, LATCH};
use std::alloc::{AllocError, Global};
use std::process::Abort;
use std::test::Fail;
use ste_program::run::Status;

#[test]
fn task_files_that_are_read(rt: HostRuntime) -> Result<(), Fail> {
    let alloc = rt.alloc();
    for (net, tasks, status, out) in [
        // times above 20, and no line feed behind the last line
        (
            INVERTER,
            ".ste w\n.con y = 0 from 0 to 21\n.end",
            Status::NotPassed,
            "w: weak failure\n  weak: 1\n  least:\n  fails: y at 0\n",
        ),
        // a comment, a continued line, wide blanks
        (
            INVERTER,
            "# both\n.vars p \\\n q\n.ste  t1\n.ant\ta = p & q from 0 to 1\n.con y = !(p & q) from 0 to 1\n.end\n",
            Status::Passed,
            "t1: pass\n",
        ),
        // tasks in order, of which one fails
        (
            INVERTER,
            ".vars p\n.ste a\n.ant a = p from 0 to 1\n.con y = !p from 0 to 1\n.end\n.ste b\n.con y = p from 0 to 1\n.end\n.ste c\n.end\n",
            Status::NotPassed,
            "a: pass\nb: weak failure\n  weak: 1\n  least: p=0\n  fails: y at 0\nc: pass\n",
        ),
    ] {
        expect(&rt, alloc, net, tasks, status, out, "")?;
    }
    Ok(())
}

#[test]
fn guards_and_first_values(rt: HostRuntime) -> Result<(), Fail> {
    let alloc = rt.alloc();
    for (net, tasks, status, out) in [
        // a guard
        (
            INVERTER,
            ".vars p\n.ste t1\n.ant a = p from 0 to 1\n.con y = 1 when p from 0 to 1\n.end\n",
            Status::NotPassed,
            "t1: strong failure\n  strong: p\n  least: p=1\n  fails: y at 0\n  run:\n    a: 1\n    y: 0\n",
        ),
        (
            INVERTER,
            ".vars p\n.ste t1\n.ant a = p from 0 to 1\n.con y = 0 when p from 0 to 1\n.end\n",
            Status::Passed,
            "t1: pass\n",
        ),
        // latches begin with their initial values in a task with reset alone
        (
            ".model l\n.inputs d\n.outputs q\n.latch d q 1\n.end\n",
            ".ste r reset\n.con q = 1 from 0 to 1\n.end\n.ste f\n.con q = 1 from 0 to 1\n.end\n",
            Status::NotPassed,
            "r: pass\nf: weak failure\n  weak: 1\n  least:\n  fails: q at 0\n",
        ),
        // nodes that are called as words of the grammar are
        (
            ".model m\n.inputs = from\n.outputs to\n.names = from to\n11 1\n.end\n",
            ".ste w\n.ant = = 1 from 0 to 1\n.ant from = 1 from 0 to 1\n.con to = 1 from 0 to 1\n.end\n",
            Status::Passed,
            "w: pass\n",
        ),
        // an interval without times asks nothing
        (
            LATCH,
            ".ste n\n.con q = 1 from 3 to 3\n.end\n",
            Status::Passed,
            "n: pass\n",
        ),
    ] {
        expect(&rt, alloc, net, tasks, status, out, "")?;
    }
    Ok(())
}

#[test]
fn task_files_that_are_refused(rt: HostRuntime) -> Result<(), Fail> {
    let alloc = rt.alloc();
    for (tasks, message) in [
        ("", "stework: t: no task\n"),
        (".vars p\n", "stework: t: no task\n"),
        (
            ".ste w\n.con y = 0 from 2 to 1\n.end\n",
            "stework: t:2: bad line\n",
        ),
        (
            ".vars p\n.ste w\n\n.con y = (p from 0 to 1\n.end\n",
            "stework: t:4: bad line\n",
        ),
        (
            ".ste w\n.con y = 0 from 0 to 100001\n.end\n",
            "stework: t:2: too many\n",
        ),
        (
            ".ste w\n.con y = 0 from 100002 to 100001\n.end\n",
            "stework: t:2: too many\n",
        ),
        (
            ".ste w\n.con y = p from 0 to 1\n.end\n",
            "stework: t:2: unknown variable p\n",
        ),
        (".vars p p\n", "stework: t:1: double name p\n"),
        (
            ".ste w\n.end\n.ste w\n.end\n",
            "stework: t:3: double name w\n",
        ),
        (
            ".ste w\n.con z = 0 from 0 to 1\n.end\n",
            "stework: t:2: unknown node z\n",
        ),
        // the first by lines, though it is asked for and not given
        (
            ".ste w\n.con z = 0 from 0 to 1\n.ant x = 0 from 0 to 1\n.end\n",
            "stework: t:2: unknown node z\n",
        ),
    ] {
        expect(&rt, alloc, INVERTER, tasks, Status::Refused, "", message)?;
    }
    Ok(())
}

#[test]
fn weakenings_that_are_refused(rt: HostRuntime) -> Result<(), Fail> {
    let alloc = rt.alloc();
    for (tasks, message) in [
        (".ste w\n.weak y\n.end\n", "stework: t:2: bad line\n"),
        (
            ".ste w\n.weak y from 2 to 1\n.end\n",
            "stework: t:2: bad line\n",
        ),
        (
            ".ste w\n.weak y from 0 to 100001\n.end\n",
            "stework: t:2: too many\n",
        ),
        (
            ".gste g v\n.weak y\n.edge v v\n.end\n",
            "stework: t:2: bad line\n",
        ),
        (
            ".gste g v\n.edge v v\n.weak y from 0 to 1\n.end\n",
            "stework: t:3: bad line\n",
        ),
        (
            ".ste w\n.weak z from 0 to 1\n.ant x = 0 from 0 to 1\n.end\n",
            "stework: t:2: unknown node z\n",
        ),
        (
            ".gste g v\n.edge v v\n.con x = 0\n.weak z\n.end\n",
            "stework: t:3: unknown node x\n",
        ),
    ] {
        expect(&rt, alloc, INVERTER, tasks, Status::Refused, "", message)?;
    }
    Ok(())
}

/// A graph that goes round: what goes in comes out.
const LOOP: &str =
    ".vars p\n.gste loop i\n.edge i v\n.ant d = p\n.edge v v\n.ant d = p\n.con q = p\n.end\n";

/// Two ways to a vertex, on which the latch takes different bits.
const JOIN: &str =
    ".gste g i\n.edge i v\n.ant d = 0\n.edge i v\n.ant d = 1\n.edge v w\n.con q = 1\n.end\n";

/// A path along which the latch is said to invert.
const ALONG: &str = ".vars p\n.gste g i\n.edge i v\n.ant d = p\n.edge v w\n.con q = !p\n.end\n";

/// An edge that only one assignment can take.
const ONCE: &str =
    ".vars p\n.gste g i\n.edge i v\n.ant d = 0\n.ant d = p\n.edge v w\n.con q = 1\n.end\n";

/// The report of an inverter that is said to copy.
const STRONG: &str =
    "t1: strong failure\n  strong: 1\n  least: p=0\n  fails: y at 0\n  run:\n    a: 0\n    y: 1\n";

/// A task whose consequent has so many signs `!` before `p`.
fn turned(alloc: Global, signs: u32) -> Result<String, AllocError> {
    let mut text = String::from_str(alloc, ".vars p\n.ste t1\n.ant a = p from 0 to 1\n.con y = ")?;
    for _ in 0..signs {
        text.push_str("!")?;
    }
    text.push_str("p from 0 to 1\n.end\n")?;
    Ok(text)
}

#[test]
fn nesting(rt: HostRuntime) -> Result<(), Fail> {
    let alloc = rt.alloc();
    for (signs, status, out, err) in [
        (100, Status::NotPassed, STRONG, ""),
        (101, Status::Refused, "", "stework: t:4: too deep\n"),
    ] {
        let tasks = turned(alloc, signs)?;
        expect(&rt, alloc, INVERTER, tasks.as_str(), status, out, err)?;
    }
    Ok(())
}

/// Tasks over net `n0`, so many, each of 10,000 time steps.
fn long_tasks(alloc: Global, count: u32) -> Result<String, AllocError> {
    let mut text = String::new(alloc);
    for number in 0..count {
        let task = format!(in alloc; ".ste t{number}\n.con n0 = 1 from 0 to 10000\n.end\n")?;
        text.push_str(task.as_str())?;
    }
    Ok(text)
}

#[test]
fn sizes_of_tasks(rt: HostRuntime) -> Result<(), Fail> {
    let alloc = rt.alloc();
    let mut net = String::from_str(alloc, ".model wide\n.inputs")?;
    for number in 0..40 {
        net.push_str(format!(in alloc; " n{number}")?.as_str())?;
    }
    net.push_str("\n.end\n")?;
    let tasks = long_tasks(alloc, 256)?;
    let message = "stework: t:751: task too large\n";
    expect(
        &rt,
        alloc,
        net.as_str(),
        tasks.as_str(),
        Status::Refused,
        "",
        message,
    )?;
    Ok(())
}

#[test]
fn assertion_graphs(rt: HostRuntime) -> Result<(), Fail> {
    let alloc = rt.alloc();
    for (net, tasks, status, out) in [
        (
            INVERTER,
            ".ste e\n.end\n.gste g v\n.end\n",
            Status::NotPassed,
            "e: pass\ng: contradictory antecedent\n  contradictory: 1\n",
        ),
        (LATCH, LOOP, Status::Passed, "loop: pass\n"),
        (
            LATCH,
            JOIN,
            Status::NotPassed,
            "g: weak failure\n  weak: 1\n  least:\n  path: 0 2\n  fails: q at 1\n",
        ),
        (
            LATCH,
            ALONG,
            Status::NotPassed,
            "g: strong failure\n  strong: 1\n  least: p=0\n  path: 0 1\n  fails: q at 1\n  run:\n    d: 00\n    q: 00\n",
        ),
        (
            LATCH,
            ONCE,
            Status::NotPassed,
            "g: strong failure\n  strong: !p\n  contradictory: p\n  least: p=0\n  path: 0 1\n  fails: q at 1\n  run:\n    d: 00\n    q: 00\n",
        ),
        (
            LATCH,
            ".gste g i reset\n.edge i i\n.ant d = 0\n.con q = 1\n.end\n",
            Status::NotPassed,
            "g: weak failure\n  weak: 1\n  least:\n  path: 0\n  fails: q at 0\n",
        ),
    ] {
        expect(&rt, alloc, net, tasks, status, out, "")?;
    }
    Ok(())
}

#[test]
fn wide_gates_and_many_variables(rt: HostRuntime) -> Result<(), Fail> {
    let alloc = rt.alloc();
    let nine =
        ".model nine\n.inputs a b c d e f g h i\n.outputs y\n.names a b c d e f g h i y\n111111111 1\n.end\n";
    let fails = ".ste w\n.con y = 0 from 0 to 1\n.end\n";
    expect(
        &rt,
        alloc,
        nine,
        fails,
        Status::NotPassed,
        "w: weak failure\n  weak: 1\n  least:\n  fails: y at 0\n",
        "",
    )?;
    let all =
        ".vars a b c d e f g h i\n.ste w\n.ant a = a from 0 to 1\n.ant b = b from 0 to 1\n.ant c = c from 0 to 1\n.ant d = d from 0 to 1\n.ant e = e from 0 to 1\n.ant f = f from 0 to 1\n.ant g = g from 0 to 1\n.ant h = h from 0 to 1\n.ant i = i from 0 to 1\n.con y = a & b & c & d & e & f & g & h & i from 0 to 1\n.end\n";
    expect(&rt, alloc, nine, all, Status::Passed, "w: pass\n", "")?;
    Ok(())
}
