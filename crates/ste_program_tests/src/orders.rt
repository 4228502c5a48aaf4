//! The order of refusals: texts with several faults are refused for the first by the stages.

use crate::tests::expect;
use std::process::Abort;
use std::test::Fail;
use ste_program::run::Status;

const FAULTY_NET: &str = ".model m\n.foo\n";

const FAULTY_TASKS: &str = ".ste\n";

const FAULTY_HIERARCHY: &str = ".model m\n.names y y\n1 1\n.subckt x\n";

const LOOP: &str = ".model m\n.inputs a\n.names a b c d e f g h y y\n111111111 1\n.end\n";

const WIDE: &str = ".model m\n.inputs a\n.names a b c d e f g h i y\n111111111 1\n.end\n";

const UNKNOWN_NODE: &str = ".gste g v\n.edge v v\n.ant z = 0\n.end\n";

const GRAPH: &str = ".gste g v\n.end\n";

#[test]
fn order_of_refusals(rt: HostRuntime) -> Result<(), Fail> {
    let alloc = rt.alloc();
    for (net, tasks, message) in [
        (
            FAULTY_NET,
            FAULTY_TASKS,
            "stework: n:2: unknown word .foo\n",
        ),
        (
            FAULTY_NET,
            UNKNOWN_NODE,
            "stework: n:2: unknown word .foo\n",
        ),
        (FAULTY_HIERARCHY, FAULTY_TASKS, "stework: t:1: bad line\n"),
        (LOOP, FAULTY_TASKS, "stework: t:1: bad line\n"),
        (
            FAULTY_HIERARCHY,
            UNKNOWN_NODE,
            "stework: n:4: unknown model x\n",
        ),
        (LOOP, UNKNOWN_NODE, "stework: n: loop at y\n"),
        (LOOP, GRAPH, "stework: n: loop at y\n"),
        (WIDE, UNKNOWN_NODE, "stework: t:3: unknown node z\n"),
    ] {
        expect(&rt, alloc, net, tasks, Status::Refused, "", message)?;
    }
    Ok(())
}
