//! Texts with what their tasks are bound to, in one table; begin with `answers_of_texts`.

ghost use Rattle.std.specs.Prelude.{◌≡◌, ◌≤◌, ℕ, length, Some, None, if◌then◌else◌, bytes_eq, codes};
ghost use Rattle.std.specs.Option.{option_map};

use crate::words::add_word;
use assert_syntax::read_tasks;
use blif_lines::logical_lines;
use bool_expr::{Expr, value};
use net_core::Resolve;
use std::alloc::{AllocError, Global};
use std::test::Fail;
use ste_base::{Name, NodeId};
use ste_model::{Bind, Edge, Quint, Task, Tasks, Weakening};
use task_binding::{BindFault, bind_tasks};

/// Names of three nets: `a`, `n/b` and `=`.
struct Three {
    first: u32,
}

impl Resolve for Three {
    ghost net_of = { λ three text.
        if bytes_eq text (codes "a") then Some three.first
        else if bytes_eq text (codes "n/b") then Some 7
        else if bytes_eq text (codes "=") then Some 9
        else None };

    fn resolve(&self, text: &[u8]) -> Option<NodeId> {
        if text == "a".as_bytes() {
            Some(NodeId(self.first))
        } else if text == "n/b".as_bytes() {
            Some(NodeId(7))
        } else if text == "=".as_bytes() {
            Some(NodeId(9))
        } else {
            None
        }
    }
}

/// Texts, numbers of nets, and what the tasks are bound to: for each clause its node, the bits of
/// its guard and of its value under the assignments 00, 01, 10 and 11, and its times; for each
/// weakening its node and its times.
const TABLE: &[(&[u8], u32, &[u8])] = &[
    (
        b".vars p q\n.ste t reset\n.ant a = p & q when !p from 0 to 1\n.con n/b = q from 2 to 5\n.ant = = 0 from 0 to 0",
        10,
        b"p q; t reset; ant 3 1100 0001 0 1; ant 9 1111 0000 0 0; con 7 1111 0101 2 5;",
    ),
    (
        b".vars p\n.gste g v\n.edge v w\n.ant a = p\n.con n/b = 1 when p\n.edge w v\n.con a = 0\n.ste u",
        10,
        b"p; g; v w; edge 0 1; ant 3 1111 0011; con 7 0011 1111; edge 1 0; con 3 1111 0000; u;",
    ),
    // Weakenings.
    (
        b".ste t\n.weak a from 1 to 3\n.con n/b = 1 from 0 to 1\n.weak = from 0 to 0",
        10,
        b"; t; con 7 1111 1111 0 1; weak 3 1 3; weak 9 0 0;",
    ),
    (
        b".gste g v\n.edge v v\n.weak n/b\n.ant a = 1\n.weak =\n.edge v v\n.weak a",
        10,
        b"; g; v; edge 0 0; ant 3 1111 1111; weak 7; weak 9; edge 0 0; weak 3;",
    ),
    // A node that names no net: the least line decides, whichever side it is on.
    (
        b".ste t\n.con x = 1 from 0 to 1\n.ant y = 1 from 0 to 1",
        10,
        b"2: unknown x",
    ),
    (
        b".ste t\n.ant x = 1 from 0 to 1\n.con y = 1 from 0 to 1",
        10,
        b"2: unknown x",
    ),
    (
        b".ste t\n.ant a = 1 from 0 to 1\n.con aa = 1 from 0 to 1",
        10,
        b"3: unknown aa",
    ),
    (b".ste t\n.con b = 1 from 4 to 4", 10, b"2: unknown b"),
    (
        b".gste g v\n.edge v v\n.edge v v\n.con x = 1\n.ant y = 1",
        10,
        b"4: unknown x",
    ),
    (
        b".gste g v\n.edge v v\n.ant a = 1\n.ste t\n.ant = = 1 from 0 to 0\n.con x = 1 from 0 to 0",
        10,
        b"6: unknown x",
    ),
    // So it does where one of them weakens a net.
    (
        b".ste t\n.weak x from 0 to 1\n.ant y = 1 from 0 to 1",
        10,
        b"2: unknown x",
    ),
    (
        b".ste t\n.ant x = 1 from 0 to 1\n.weak y from 0 to 1",
        10,
        b"2: unknown x",
    ),
    (
        b".ste t\n.con a = 1 from 0 to 1\n.weak x from 1 to 1",
        10,
        b"3: unknown x",
    ),
    (
        b".gste g v\n.edge v v\n.ant a = 1\n.weak x\n.con y = 1",
        10,
        b"4: unknown x",
    ),
    (
        b".gste g v\n.edge v v\n.con x = 1\n.edge v v\n.weak y",
        10,
        b"3: unknown x",
    ),
    // Too many cells: nets times depth, or nets times vertices and edges together.
    (
        b".ste t\n.con a = 1 from 0 to 10000",
        10000,
        b"; t; con 3 1111 1111 0 10000;",
    ),
    (
        b".ste t\n.con a = 1 from 0 to 10000",
        10001,
        b"1: too large",
    ),
    (
        b".ste t\n.ant a = 1 from 0 to 10000",
        10001,
        b"1: too large",
    ),
    (
        b".ste t\n.con a = 1 from 0 to 100000",
        1000,
        b"; t; con 3 1111 1111 0 100000;",
    ),
    (
        b".ste t\n.con a = 1 from 0 to 100000",
        1001,
        b"1: too large",
    ),
    (
        b"\n.ste t\n.con a = 1 from 0 to 9999\n.ste u\n.ant a = 1 from 0 to 2",
        10000,
        b"4: too large",
    ),
    (
        b".ste t\n.con a = 1 from 0 to 9999\n.ste u\n.ant a = 1 from 0 to 1",
        10000,
        b"; t; con 3 1111 1111 0 9999; u; ant 3 1111 1111 0 1;",
    ),
    (b".gste g v\n.edge v w", 33333333, b"; g; v w; edge 0 1;"),
    (b".gste g v\n.edge v w", 33333334, b"1: too large"),
    (
        b".gste g v\n.edge v v\n.edge v v",
        33333334,
        b"1: too large",
    ),
    (b".ste t\n.gste g v", 4294967295, b"2: too large"),
    // The times of a weakening do not count.
    (
        b".ste t\n.weak a from 0 to 10000\n.con a = 1 from 0 to 1",
        10001,
        b"; t; con 3 1111 1111 0 1; weak 3 0 10000;",
    ),
    // A node that names no net goes before.
    (
        b".ste t\n.con a = 1 from 0 to 10000\n.ste u\n.con x = 1 from 0 to 1",
        10001,
        b"4: unknown x",
    ),
];

/// The assignments under which an expression is written.
const ASSIGNMENTS: &[&[bool]] = &[
    &[false, false],
    &[false, true],
    &[true, false],
    &[true, true],
];

/// Adds a number, with a blank before it.
fn add_number(alloc: Global, out: &mut Vec<u8>, number: u32) -> Result<(), AllocError> {
    let text = format!(in alloc; "{number}")?;
    add_word(out, text.as_bytes())
}

/// Adds the bits of an expression, with a blank before them.
fn add_bits(out: &mut Vec<u8>, expr: &Expr) -> Result<(), AllocError> {
    out.push(b' ')?;
    for bits in ASSIGNMENTS {
        out.push(if value(expr, bits) { b'1' } else { b'0' })?;
    }
    Ok(())
}

/// Adds quintuples of one side.
fn add_quints(
    alloc: Global,
    out: &mut Vec<u8>,
    side: &[u8],
    quints: &[Quint],
) -> Result<(), AllocError> {
    for quint in quints {
        add_word(out, side)?;
        add_number(alloc, out, quint.node.0)?;
        add_bits(out, &quint.guard)?;
        add_bits(out, &quint.value)?;
        add_number(alloc, out, quint.from)?;
        add_number(alloc, out, quint.to)?;
        out.push(b';')?;
    }
    Ok(())
}

/// Adds bindings of one side.
fn add_binds(
    alloc: Global,
    out: &mut Vec<u8>,
    side: &[u8],
    binds: &[Bind],
) -> Result<(), AllocError> {
    for bind in binds {
        add_word(out, side)?;
        add_number(alloc, out, bind.node.0)?;
        add_bits(out, &bind.guard)?;
        add_bits(out, &bind.value)?;
        out.push(b';')?;
    }
    Ok(())
}

/// Adds weakenings.
fn add_weaks(alloc: Global, out: &mut Vec<u8>, weaks: &[Weakening]) -> Result<(), AllocError> {
    for weak in weaks {
        add_word(out, b"weak")?;
        add_number(alloc, out, weak.node.0)?;
        add_number(alloc, out, weak.from)?;
        add_number(alloc, out, weak.to)?;
        out.push(b';')?;
    }
    Ok(())
}

/// Adds the nets that an edge weakens.
fn add_marks(alloc: Global, out: &mut Vec<u8>, nets: &[NodeId]) -> Result<(), AllocError> {
    for net in nets {
        add_word(out, b"weak")?;
        add_number(alloc, out, net.0)?;
        out.push(b';')?;
    }
    Ok(())
}

/// Adds an edge.
fn add_edge(alloc: Global, out: &mut Vec<u8>, edge: &Edge) -> Result<(), AllocError> {
    add_word(out, b"edge")?;
    add_number(alloc, out, edge.from)?;
    add_number(alloc, out, edge.to)?;
    out.push(b';')?;
    add_binds(alloc, out, b"ant", edge.ant.as_slice())?;
    add_binds(alloc, out, b"con", edge.con.as_slice())?;
    add_marks(alloc, out, edge.weak.as_slice())
}

/// Adds words, and a mark behind the last.
fn add_words(out: &mut Vec<u8>, words: &[Name]) -> Result<(), AllocError> {
    for word in words {
        add_word(out, word.bytes())?;
    }
    Ok(out.push(b';')?)
}

/// Adds the name of a task, and whether it begins with initial values.
fn add_head(out: &mut Vec<u8>, name: &Name, reset: bool) -> Result<(), AllocError> {
    add_word(out, name.bytes())?;
    if reset {
        add_word(out, b"reset")?;
    }
    Ok(out.push(b';')?)
}

/// Adds a task.
fn add_task(alloc: Global, out: &mut Vec<u8>, task: &Task) -> Result<(), AllocError> {
    match task {
        Task::Ste(task) => {
            add_head(out, &task.name, task.reset)?;
            add_quints(alloc, out, b"ant", task.ant.as_slice())?;
            add_quints(alloc, out, b"con", task.con.as_slice())?;
            add_weaks(alloc, out, task.weak.as_slice())
        }
        Task::Gste(task) => {
            add_head(out, &task.name, task.reset)?;
            add_words(out, task.vertices.as_slice())?;
            for edge in task.edges.as_slice() {
                add_edge(alloc, out, edge)?;
            }
            Ok(())
        }
    }
}

/// Tasks, as the table writes them.
fn shown(alloc: Global, tasks: &Tasks) -> Result<Vec<u8>, AllocError> {
    let mut out = Vec::new(alloc);
    add_words(&mut out, tasks.vars.as_slice())?;
    for task in tasks.tasks.as_slice() {
        add_task(alloc, &mut out, task)?;
    }
    Ok(out)
}

/// A fault, as the table writes it.
fn shown_fault(alloc: Global, fault: &BindFault) -> Result<Vec<u8>, AllocError> {
    let mut out = Vec::new(alloc);
    match fault {
        BindFault::UnknownNode { line, name } => {
            add_number(alloc, &mut out, *line)?;
            out.extend_from_slice(b": unknown")?;
            add_word(&mut out, name.bytes())?;
        }
        BindFault::TooLarge { line } => {
            add_number(alloc, &mut out, *line)?;
            out.extend_from_slice(b": too large")?;
        }
        BindFault::OutOfMemory => out.extend_from_slice(b" out of memory")?,
    }
    Ok(out)
}

/// What the tasks of a text are bound to, over so many nets.
fn answer(alloc: Global, text: &[u8], nets: u32) -> Result<Vec<u8>, AllocError>
    requires { length text.now ≤ 1000 }
{
    let lines = logical_lines(alloc, text)?;
    let Ok(raw) = read_tasks(alloc, lines.as_slice()) else {
        return Ok(Vec::new(alloc));
    };
    match bind_tasks(alloc, &raw, &Three { first: 3 }, nets) {
        Ok(tasks) => shown(alloc, &tasks),
        Err(fault) => shown_fault(alloc, &fault),
    }
}

#[test]
fn answers_of_texts(rt: HostRuntime) -> Result<(), Fail> {
    for (text, nets, want) in TABLE {
        assert!(rt; text.len() < 1000);
        let out = answer(rt.alloc(), text, *nets)?;
        let out = out.as_slice();
        assert_eq!(rt;
            if let [b' ', rest @ ..] = out {
                rest
            } else {
                out
            },
            *want,
            "at {text:?}"
        );
    }
    Ok(())
}
