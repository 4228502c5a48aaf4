//! ASCII AIGER netlists: what `run` writes on them, and how it refuses them.

use crate::tests::expect;
use std::alloc::AllocError;
use ste_program::run::Status;

/// An AND of `a` and `b`.
const AND: &str = "aag 3 2 0 1 1\n2\n4\n6\n6 2 4\ni0 a\ni1 b\no0 y\n";

/// A latch that takes its own opposite, and two outputs, with its bit and the opposite.
const TOGGLE: &str = "aag 1 0 1 2 0\n2 3\n2\n3\n";

#[test]
fn aiger_netlists_are_checked(rt: HostRuntime) -> Result<(), AllocError> {
    let alloc = rt.alloc();
    for (net, task, status, out) in [
        (
            AND,
            ".vars p q\n.ste t1\n.ant a = p from 0 to 1\n.ant b = q from 0 to 1\n.con y = p & q from 0 to 1\n.end\n",
            Status::Passed,
            "t1: pass\n",
        ),
        (
            AND,
            ".vars p\n.ste t1\n.ant a = p from 0 to 1\n.con y = p from 0 to 1\n.end\n",
            Status::NotPassed,
            "t1: weak failure\n  weak: p\n  least: p=1\n  fails: y at 0\n",
        ),
        (
            TOGGLE,
            ".ste t reset\n.con $o0 = 0 from 0 to 1\n.con $o0 = 1 from 1 to 2\n.con $o1 = 1 from 0 to 1\n.end\n",
            Status::Passed,
            "t: pass\n",
        ),
        (
            TOGGLE,
            ".ste t reset\n.con $o1 = 0 from 0 to 1\n.end\n",
            Status::NotPassed,
            "t: strong failure\n  strong: 1\n  least:\n  fails: $o1 at 0\n  run:\n    $o1: 1\n",
        ),
    ] {
        expect(&rt, alloc, net, task, status, out, "")?;
    }
    Ok(())
}

#[test]
fn aiger_netlists_are_refused(rt: HostRuntime) -> Result<(), AllocError> {
    let alloc = rt.alloc();
    for (net, task, err) in [
        ("aag 1 0 1 0 0\n", "?", "stework: n:2: bad line\n"),
        ("aag 1 1 0 0 0 1\n2\n", "?", "stework: n:1: left out: 1\n"),
        ("aag 0 0 0 0 0\n\n", "?", "stework: n:2: bad line\n"),
        ("aag 2147483647 0 0 0 0\n", "?", "stework: t:1: bad line\n"),
        (
            "aag 2 1 0 0 1\n2\n4 5 2\n",
            ".ste t\n.con $v2 = 0 from 0 to 1\n.end\n",
            "stework: n: loop at $v2\n",
        ),
        (
            AND,
            ".ste t\n.con $v1 = 0 from 0 to 1\n.end\n",
            "stework: t:2: unknown node $v1\n",
        ),
        ("aig 3 2 0 1 1\n", "?", "stework: n:1: bad line\n"),
        (" aag 0 0 0 0 0\n", "?", "stework: n:1: bad line\n"),
    ] {
        expect(&rt, alloc, net, task, Status::Refused, "", err)?;
    }
    Ok(())
}
