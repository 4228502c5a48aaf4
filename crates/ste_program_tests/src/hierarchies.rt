//! Hierarchies: what is checked over their inner nets, and each refusal with its line.

use crate::tests::expect;
use program_fixture::texts::TWICE;
use std::alloc::{AllocError, Global};
use std::process::Abort;
use std::test::Fail;
use ste_program::run::Status;

#[test]
fn hierarchies_that_are_checked(rt: HostRuntime) -> Result<(), Fail> {
    let alloc = rt.alloc();
    let two_ways =
        ".model top\n.inputs a b\n.subckt u i=a\n.subckt u i=b\n.end\n.model u\n.inputs i\n.subckt v i=i\n.subckt w i=i\n.end\n.model v\n.inputs i\n.names i x\n1 1\n.end\n.model w\n.inputs i\n.names i x\n0 1\n.end\n";
    let hidden =
        ".model top\n.inputs a\n.outputs 0/n\n.names a 0/n\n1 1\n.subckt u i=a\n.end\n.model u\n.inputs i\n.names i n\n0 1\n.end\n";
    for (net, tasks, status, out) in [
        (
            TWICE,
            ".vars p\n.ste h\n.ant a = p from 0 to 1\n.con y = p from 0 to 1\n.con 0/0/r = !p from 0 to 1\n.end\n",
            Status::Passed,
            "h: pass\n",
        ),
        (
            TWICE,
            ".vars p\n.ste h\n.ant a = p from 0 to 1\n.con y = p from 0 to 1\n.con 0/0/r = p from 0 to 1\n.end\n",
            Status::NotPassed,
            "h: strong failure\n  strong: 1\n  least: p=0\n  fails: 0/n at 0\n  run:\n    a: 0\n    y: 0\n    0/n: 1\n",
        ),
        // an inner net, given
        (
            TWICE,
            ".ste h\n.ant 0/n = 0 from 0 to 1\n.con m = 1 from 0 to 1\n.end\n",
            Status::Passed,
            "h: pass\n",
        ),
        // the first number of a path is that of the outermost instance
        (
            two_ways,
            ".vars p q\n.ste o\n.ant a = p from 0 to 1\n.ant b = q from 0 to 1\n.con 0/0/x = p from 0 to 1\n.con 0/1/x = !p from 0 to 1\n.con 1/0/x = q from 0 to 1\n.con 1/1/x = !q from 0 to 1\n.end\n",
            Status::Passed,
            "o: pass\n",
        ),
        // a signal of the top hides the net of a subcircuit
        (
            hidden,
            ".vars p\n.ste s\n.ant a = p from 0 to 1\n.con 0/n = p from 0 to 1\n.end\n",
            Status::Passed,
            "s: pass\n",
        ),
        // initial values of latches in instances
        (
            ".model top\n.inputs d\n.outputs q\n.subckt l d=d q=q\n.end\n.model l\n.inputs d\n.outputs q\n.latch d q 1\n.end\n",
            ".ste r reset\n.con q = 1 from 0 to 1\n.end\n",
            Status::Passed,
            "r: pass\n",
        ),
        // gates in any order, and more than 200 nets are no matter
        (
            ".model late\n.inputs a\n.outputs y\n.names n y\n1 1\n.names a n\n0 1\n.end\n",
            ".vars p\n.ste l\n.ant a = p from 0 to 1\n.con y = !p from 0 to 1\n.end\n",
            Status::Passed,
            "l: pass\n",
        ),
    ] {
        expect(&rt, alloc, net, tasks, status, out, "")?;
    }
    Ok(())
}

#[test]
fn nodes_that_name_no_net(rt: HostRuntime) -> Result<(), Fail> {
    let alloc = rt.alloc();
    for (node, message) in [
        ("00/n", "stework: t:2: unknown node 00/n\n"),
        ("2/n", "stework: t:2: unknown node 2/n\n"),
        ("0/0/0/r", "stework: t:2: unknown node 0/0/0/r\n"),
        ("0/", "stework: t:2: unknown node 0/\n"),
        ("r", "stework: t:2: unknown node r\n"),
    ] {
        let tasks = format!(in alloc; ".ste h\n.con {node} = 0 from 0 to 1\n.end\n")?;
        expect(
            &rt,
            alloc,
            TWICE,
            tasks.as_str(),
            Status::Refused,
            "",
            message,
        )?;
    }
    Ok(())
}

#[test]
fn hierarchies_that_are_refused(rt: HostRuntime) -> Result<(), Fail> {
    let alloc = rt.alloc();
    for (net, message) in [
        (
            ".model m\n.end\n.model m\n",
            "stework: n:3: double model m\n",
        ),
        (
            ".model m\n.subckt x a=b\n",
            "stework: n:2: unknown model x\n",
        ),
        (".model m\n.subckt m\n", "stework: n:2: recursive model m\n"),
        (
            ".model m\n.subckt u z=a\n.end\n.model u\n.inputs p\n.end\n",
            "stework: n:2: bad formal z\n",
        ),
        (
            ".model m\n.subckt u p=a p=b\n.end\n.model u\n.inputs p\n.end\n",
            "stework: n:2: bad formal p\n",
        ),
        (
            ".model m\n.subckt u\n.end\n.model u\n.inputs p\n.clock c\n.end\n",
            "stework: n:2: missing formal p\n",
        ),
        (
            ".model m\n.inputs a\n.names a y\n0 1\n.names y\n.end\n",
            "stework: n:5: driven twice: y\n",
        ),
        (
            ".model m\n.inputs a y\n.names a y\n0 1\n.end\n",
            "stework: n:3: driven twice: y\n",
        ),
        (
            ".model m\n.subckt u o=y\n.subckt u o=y\n.end\n.model u\n.outputs o\n.names o\n.end\n",
            "stework: n:7: driven twice: y\n",
        ),
        (
            ".model m\n.latch a b re c 2\n.latch a e fe c 2\n",
            "stework: n:3: mixed clocks at e\n",
        ),
        // a clock deep below
        (
            ".model m\n.inputs c k\n.latch a b re c 2\n.subckt u k=k\n.end\n.model u\n.inputs k\n.latch d e re k 2\n.end\n",
            "stework: n:8: mixed clocks at 0/e\n",
        ),
        (
            ".model top\n.inputs a\n.outputs y\n.subckt f u=a v=y w=x\n.subckt f u=a v=x w=y\n.end\n.model f\n.inputs u v\n.outputs w\n.names u v w\n11 1\n.end\n",
            "stework: n: loop at y\n",
        ),
    ] {
        let tasks = ".ste w\n.con nowhere = 0 from 0 to 1\n.end\n";
        expect(&rt, alloc, net, tasks, Status::Refused, "", message)?;
    }
    Ok(())
}

/// Models, so many, each but the last with so many uses of the next; the last drives a signal.
fn tower(alloc: Global, models: u32, uses: u32) -> Result<String, AllocError> {
    let mut text = String::new(alloc);
    for number in 0..models {
        text.push_str(format!(in alloc; ".model m{number}\n")?.as_str())?;
        if number < models - 1 {
            for _ in 0..uses {
                text.push_str(format!(in alloc; ".subckt m{}\n", number + 1)?.as_str())?;
            }
        } else {
            text.push_str(".names x\n")?;
        }
        text.push_str(".end\n")?;
    }
    Ok(text)
}

#[test]
fn depths_and_sizes(rt: HostRuntime) -> Result<(), Fail> {
    let alloc = rt.alloc();
    for (models, uses, status, out, err) in [
        (65, 1, Status::Passed, "e: pass\n", ""),
        (
            66,
            1,
            Status::Refused,
            "",
            "stework: n: hierarchy too deep\n",
        ),
        (12, 2, Status::Passed, "e: pass\n", ""),
        (19, 2, Status::Refused, "", "stework: n: too many nodes\n"),
    ] {
        let net = tower(alloc, models, uses)?;
        expect(&rt, alloc, net.as_str(), ".ste e\n.end\n", status, out, err)?;
    }
    Ok(())
}

#[test]
fn models_that_are_used_nowhere(rt: HostRuntime) -> Result<(), Fail> {
    let alloc = rt.alloc();
    // each of these models is faulty, and none is used
    for unused in [
        ".model u\n.subckt x a=b\n.end\n",
        ".model u\n.subckt u\n.end\n",
        ".model u\n.subckt v z=a\n.end\n.model v\n.inputs p\n.end\n",
        ".model u\n.inputs a\n.names a\n.end\n",
        ".model u\n.latch a b re c 2\n.latch a e fe c 2\n.end\n",
        ".model u\n.names y y\n1 1\n.end\n",
    ] {
        let mut net = String::from_str(alloc, ".model m\n.inputs a\n.end\n")?;
        net.push_str(unused)?;
        expect(
            &rt,
            alloc,
            net.as_str(),
            ".ste e\n.end\n",
            Status::Passed,
            "e: pass\n",
            "",
        )?;
    }
    Ok(())
}
