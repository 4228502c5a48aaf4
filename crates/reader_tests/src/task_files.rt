//! Texts with their tasks and faults, in tables; begin with `tasks_of_texts`.

ghost use Rattle.std.specs.Prelude.{◌≤◌, length};

use crate::words::add_word;
use assert_syntax::{
    RawBind, RawEdge, RawMark, RawQuint, RawTask, RawTasks, RawWeak, TaskFault, read_tasks,
};
use blif_lines::logical_lines;
use bool_expr::{Expr, value};
use std::alloc::{AllocError, Global};
use std::process::Abort;
use std::test::Fail;
use ste_base::Name;

/// Texts without a task, with words that begin no form, with variables, heads, edges and ends; and
/// the fault of each.
const FAULTS_OF_HEADS: &[(&[u8], &[u8])] = &[
    // No task.
    (b"", b"no task"),
    (b"# .ste t\n\n", b"no task"),
    (b".vars p\n.vars q", b"no task"),
    // Words that begin no form.
    (b".foo", b"1: bad"),
    (b"ste t", b"1: bad"),
    (b".ste t\n.STE u", b"2: bad"),
    // Variables.
    (b".vars", b"1: bad"),
    (b".vars p 1q", b"1: bad"),
    (b".vars p when", b"1: bad"),
    (b".vars from", b"1: bad"),
    (b".vars to", b"1: bad"),
    (b".vars p-q", b"1: bad"),
    (b".vars p q p", b"1: double p"),
    (b".vars p\n.vars q p q", b"2: double p"),
    (b".vars p p 1q", b"1: bad"),
    (b".vars p\n.ste t\n.vars q", b"3: bad"),
    (b".ste t\n.end\n.vars q", b"3: bad"),
    // Heads of tasks.
    (b".ste", b"1: bad"),
    (b".ste t u", b"1: bad"),
    (b".ste t reset u", b"1: bad"),
    (b".gste g", b"1: bad"),
    (b".gste g v w", b"1: bad"),
    (b".gste g v reset w", b"1: bad"),
    (b".ste t\n.ste t", b"2: double t"),
    (b".ste t\n.gste t v", b"2: double t"),
    (b".gste t v\n.end\n.ste u\n.ste t reset", b"4: double t"),
    // Edges and ends.
    (b".edge a b", b"1: bad"),
    (b".ste t\n.edge a b", b"2: bad"),
    (b".gste g v\n.end\n.edge a b", b"3: bad"),
    (b".gste g v\n.edge v", b"2: bad"),
    (b".gste g v\n.edge v v v", b"2: bad"),
    (b".end", b"1: bad"),
    (b".vars p\n.end", b"2: bad"),
    (b".ste t\n.end\n.end", b"3: bad"),
    (b".ste t\n.end t", b"2: bad"),
];

/// Texts with clauses, and the fault of each.
const FAULTS_OF_CLAUSES: &[(&[u8], &[u8])] = &[
    // Clauses where they may not stand.
    (b".ant a = 1 from 0 to 1", b"1: bad"),
    (b".ste t\n.ant a = 1", b"2: bad"),
    (b".ste t\n.con a = 1 when 1", b"2: bad"),
    (b".gste g v\n.ant a = 1", b"2: bad"),
    (b".gste g v\n.edge v v\n.ant a = 1 from 0 to 1", b"3: bad"),
    (
        b".gste g v\n.edge v v\n.ant a = 1 from 0 to 100001",
        b"3: bad",
    ),
    (b".ste t\n.end\n.con a = 1 from 0 to 1", b"3: bad"),
    // Clauses without their form.
    (b".ste t\n.ant ", b"2: bad"),
    (b".ste t\n.ant a", b"2: bad"),
    (b".ste t\n.ant a 1 from 0 to 1", b"2: bad"),
    (b".ste t\n.ant a =", b"2: bad"),
    (b".ste t\n.ant a = from 0 to 1", b"2: bad"),
    (b".ste t\n.ant a = 1 when from 0 to 1", b"2: bad"),
    (b".ste t\n.ant a = 1 when 1 when 1 from 0 to 1", b"2: bad"),
    (b".ste t\n.ant a = 1 from 0", b"2: bad"),
    (b".ste t\n.ant a = 1 from 0 to", b"2: bad"),
    (b".ste t\n.ant a = 1 from 0 to 1 2", b"2: bad"),
    (b".ste t\n.ant a = 1 from x to 1", b"2: bad"),
    (b".ste t\n.ant a = 1 from 0 to -1", b"2: bad"),
    (b".ste t\n.ant a = 1 from 0 too 1", b"2: bad"),
    (b".ste t\n.ant a = 1 from 2 to 1", b"2: bad"),
    (b".ste t\n.ant a = 1 from 0 to 1 when 1", b"2: bad"),
    (b".ste t\n.ant a = (1 from 0 to 1", b"2: bad"),
    (b".ste t\n.ant a = 1 1 from 0 to 1", b"2: bad"),
    (b".ste t\n.ant a = 1 to 0 from 0 to 1", b"2: bad"),
    (b".ste t\n.ant a == 1 from 0 to 1", b"2: bad"),
];

/// Texts with expressions and times, and the fault of each.
const FAULTS_OF_EXPRESSIONS: &[(&[u8], &[u8])] = &[
    // Expressions and times.
    (b".ste t\n.ant a = p from 0 to 1", b"2: unknown p"),
    (
        b".vars p\n.ste t\n.ant a = p & q when r from 0 to 1",
        b"3: unknown q",
    ),
    (
        b".vars p\n.ste t\n.ant a = p when r ^ q from 0 to 1",
        b"3: unknown r",
    ),
    (b".ste t\n.con a = q when ( from 0 to 1", b"2: bad"),
    (
        b".ste t\n.con a = !!!!!!!!!!!!!!!!!!!!!!!!!!!!!!!!!!!!!!!!!!!!!!!!!!!!!!!!!!!!!!!!!!!!!!!!!!!!!!!!!!!!!!!!!!!!!!!!!!!!!q when r from 0 to 100001",
        b"2: deep",
    ),
    (
        b".ste t\n.con a = q when !!!!!!!!!!!!!!!!!!!!!!!!!!!!!!!!!!!!!!!!!!!!!!!!!!!!!!!!!!!!!!!!!!!!!!!!!!!!!!!!!!!!!!!!!!!!!!!!!!!!!1 from 0 to 1",
        b"2: deep",
    ),
    (
        b".ste t\n.con a = !!!!!!!!!!!!!!!!!!!!!!!!!!!!!!!!!!!!!!!!!!!!!!!!!!!!!!!!!!!!!!!!!!!!!!!!!!!!!!!!!!!!!!!!!!!!!!!!!!!!!1 when 0 1 from 0 to 1",
        b"2: bad",
    ),
    (b".ste t\n.con a = q from 0 to 100001", b"2: unknown q"),
    (b".ste t\n.con a = 1 from 0 to 100001", b"2: many"),
    (b".ste t\n.con a = 1 from 100001 to 0", b"2: many"),
    (b".ste t\n.con a = 1 from 100002 to 100001", b"2: many"),
    (
        b".ste t\n.con a = 1 from 0 to 99999999999999999999999",
        b"2: many",
    ),
    // The first faulty line decides.
    (
        b".vars p\n.ste t\n.con a = q from 0 to 1\n.foo",
        b"3: unknown q",
    ),
    (
        b"# a\n\n.vars \\\n p # b\n.ste t\n.ste \\\nt\n.foo",
        b"6: double t",
    ),
];

/// Texts, and the tasks of each: the variables, and the lines of the tasks. An expression is shown
/// by its bits where the first two variables are 00, 10, 01 and 11.
const TASKS: &[(&[u8], &[u8])] = &[
    // Assertions.
    (b".ste e", b"1: ste e\n"),
    (
        b".ste e reset\n.end\n.ste f\n.ste reset",
        b"1: ste e reset\n3: ste f\n4: ste reset\n",
    ),
    (
        b".vars p\n.ste t1\n.ant a = p from 0 to 1\n.con y = !p from 0 to 1\n.end",
        b"p\n2: ste t1\n3: ant a 0101 if 1111 0..1\n4: con y 1010 if 1111 0..1\n",
    ),
    (
        b".vars p\n.vars q\n.ste t\n.con a = p & q when p | q from 0 to 100000\n.ant b = p^q when q from 0003 to 3\n.con c = 1 from 2 to 3",
        b"p q\n3: ste t\n5: ant b 0110 if 0011 3..3\n4: con a 0001 if 0111 0..100000\n6: con c 1111 if 1111 2..3\n",
    ),
    (
        b".ste t\n.ant = = 1 from 0 to 1\n.ant from = 0 when 0 from 1 to 1\n.con when = 1 from 0 to 1\n.con to = ( 1 ) from 0 to 1",
        b"1: ste t\n2: ant = 1111 if 1111 0..1\n3: ant from 0000 if 0000 1..1\n4: con when 1111 if 1111 0..1\n5: con to 1111 if 1111 0..1\n",
    ),
    (
        b".ste t\n.con a = !!!!!!!!!!!!!!!!!!!!!!!!!!!!!!!!!!!!!!!!!!!!!!!!!!!!!!!!!!!!!!!!!!!!!!!!!!!!!!!!!!!!!!!!!!!!!!!!!!!!1 from 0 to 1",
        b"1: ste t\n2: con a 1111 if 1111 0..1\n",
    ),
    (
        b".vars p q # two\n\n.ste \\\n t\n.con a = p \\\n  &q \\\n when p from 0 \\\n to 1",
        b"p q\n3: ste t\n5: con a 0001 if 0101 0..1\n",
    ),
    // Graphs.
    (b".gste g v", b"1: gste g | v\n"),
    (
        b".gste g reset\n.gste h v reset\n.end",
        b"1: gste g | reset\n2: gste h reset | v\n",
    ),
    (
        b".vars p\n.gste loop i\n.edge i v\n.ant d = p\n.edge v v\n.ant d = p\n.con q = p when !p\n.end",
        b"p\n2: gste loop | i v\n3: edge 0 1\n4: ant d 0101 if 1111\n5: edge 1 1\n6: ant d 0101 if 1111\n7: con q 0101 if 1010\n",
    ),
    (
        b".gste g i\n.edge x i\n.edge y x\n.con a = 1\n.ste t\n.gste h y\n.edge i y",
        b"1: gste g | i x y\n2: edge 1 0\n3: edge 2 1\n4: con a 1111 if 1111\n5: ste t\n6: gste h | y i\n7: edge 1 0\n",
    ),
];

/// Texts that weaken nets, and the tasks of each, or its fault.
const WEAKENINGS: &[(&[u8], &[u8])] = &[
    // In assertions.
    (
        b".ste t\n.weak n from 0 to 1",
        b"1: ste t\n2: weak n 0..1\n",
    ),
    (
        b".ste t\n.weak a from 0 to 2\n.ant a = 1 from 0 to 1\n.weak b from 1 to 100000",
        b"1: ste t\n3: ant a 1111 if 1111 0..1\n2: weak a 0..2\n4: weak b 1..100000\n",
    ),
    (
        b".ste t\n.weak a from 0 to 2\n.end\n.ste u\n.weak b from 1 to 1",
        b"1: ste t\n2: weak a 0..2\n4: ste u\n5: weak b 1..1\n",
    ),
    (
        b".ste t\n.weak from from 0 to 1\n.weak to \\\nfrom 0002 to 3\n.weak = from 0 to 0",
        b"1: ste t\n2: weak from 0..1\n3: weak to 2..3\n5: weak = 0..0\n",
    ),
    (b".ste t\n.weak", b"2: bad"),
    (b".ste t\n.weak n", b"2: bad"),
    (b".ste t\n.weak from 0 to 1", b"2: bad"),
    (b".ste t\n.weak n from 0", b"2: bad"),
    (b".ste t\n.weak n from 0 to 1 2", b"2: bad"),
    (b".ste t\n.weak n m from 0 to 1", b"2: bad"),
    (b".ste t\n.weak n from 0 too 1", b"2: bad"),
    (b".ste t\n.weak n from x to 1", b"2: bad"),
    (b".ste t\n.weak n from 2 to 1", b"2: bad"),
    (b".ste t\n.weak n = 1 from 0 to 1", b"2: bad"),
    (b".ste t\n.weak n when 1 from 0 to 1", b"2: bad"),
    (b".ste t\n.weak n from 0 to 100001\n.foo", b"2: many"),
    (b".ste t\n.weak n from 100001 to 0\n.foo", b"2: many"),
    // Behind edges.
    (
        b".gste g v\n.edge v v\n.weak n\n.con a = 1\n.weak m",
        b"1: gste g | v\n2: edge 0 0\n4: con a 1111 if 1111\n3: weak n\n5: weak m\n",
    ),
    (
        b".gste g v\n.edge v v\n.weak n\n.edge v v\n.weak from",
        b"1: gste g | v\n2: edge 0 0\n3: weak n\n4: edge 0 0\n5: weak from\n",
    ),
    (b".gste g v\n.weak n\n.edge v v", b"2: bad"),
    (b".gste g v\n.edge v v\n.weak", b"3: bad"),
    (b".gste g v\n.edge v v\n.weak n m", b"3: bad"),
    (b".gste g v\n.edge v v\n.weak n from 0 to 1", b"3: bad"),
    (b".gste g v\n.edge v v\n.weak n from 0 to 100001", b"3: bad"),
    // Outside tasks.
    (b".weak n", b"1: bad"),
    (b".vars p\n.weak n from 0 to 1", b"2: bad"),
    (b".ste t\n.end\n.weak n from 0 to 1", b"3: bad"),
    (b".gste g v\n.edge v v\n.end\n.weak n", b"4: bad"),
];

/// The assignments to two variables.
const ASSIGNMENTS: &[[bool; 2]] = &[[false, false], [true, false], [false, true], [true, true]];

/// Adds the bits of an expression, with a blank before them.
fn add_bits(out: &mut Vec<u8>, expr: &Expr) -> Result<(), AllocError> {
    out.push(b' ')?;
    for bits in ASSIGNMENTS {
        out.push(if value(expr, bits) { b'1' } else { b'0' })?;
    }
    Ok(())
}

/// Adds a clause but for its times.
fn add_clause(
    alloc: Global,
    out: &mut Vec<u8>,
    line: u32,
    side: &str,
    node: &Name,
    value: &Expr,
    guard: &Expr,
) -> Result<(), AllocError> {
    out.extend_from_slice(format!(in alloc; "{line}: {side}")?.as_bytes())?;
    add_word(out, node.bytes())?;
    add_bits(out, value)?;
    add_word(out, b"if")?;
    add_bits(out, guard)
}

/// Adds quintuples.
fn add_quints(
    alloc: Global,
    out: &mut Vec<u8>,
    side: &str,
    quints: &[RawQuint],
) -> Result<(), AllocError> {
    for quint in quints {
        add_clause(
            alloc,
            out,
            quint.line,
            side,
            &quint.node,
            &quint.value,
            &quint.guard,
        )?;
        out.extend_from_slice(format!(in alloc; " {}..{}\n", quint.from, quint.to)?.as_bytes())?;
    }
    Ok(())
}

/// Adds bindings.
fn add_binds(
    alloc: Global,
    out: &mut Vec<u8>,
    side: &str,
    binds: &[RawBind],
) -> Result<(), AllocError> {
    for bind in binds {
        add_clause(
            alloc,
            out,
            bind.line,
            side,
            &bind.node,
            &bind.value,
            &bind.guard,
        )?;
        out.push(b'\n')?;
    }
    Ok(())
}

/// Adds weakenings.
fn add_weaks(alloc: Global, out: &mut Vec<u8>, weaks: &[RawWeak]) -> Result<(), AllocError> {
    for weak in weaks {
        out.extend_from_slice(format!(in alloc; "{}: weak", weak.line)?.as_bytes())?;
        add_word(out, weak.node.bytes())?;
        out.extend_from_slice(format!(in alloc; " {}..{}\n", weak.from, weak.to)?.as_bytes())?;
    }
    Ok(())
}

/// Adds the nodes that an edge weakens.
fn add_marks(alloc: Global, out: &mut Vec<u8>, marks: &[RawMark]) -> Result<(), AllocError> {
    for mark in marks {
        out.extend_from_slice(format!(in alloc; "{}: weak", mark.line)?.as_bytes())?;
        add_word(out, mark.node.bytes())?;
        out.push(b'\n')?;
    }
    Ok(())
}

/// Adds an edge with its bindings and with the nodes that it weakens.
fn add_edge(alloc: Global, out: &mut Vec<u8>, edge: &RawEdge) -> Result<(), AllocError> {
    out.extend_from_slice(format!(in alloc;
        "{}: edge {} {}\n",
        edge.line, edge.from, edge.to
    )?.as_bytes())?;
    add_binds(alloc, out, "ant", edge.ant.as_slice())?;
    add_binds(alloc, out, "con", edge.con.as_slice())?;
    add_marks(alloc, out, edge.weak.as_slice())
}

/// Adds the head of a task.
fn add_head(
    alloc: Global,
    out: &mut Vec<u8>,
    line: u32,
    word: &str,
    name: &Name,
    reset: bool,
) -> Result<(), AllocError> {
    out.extend_from_slice(format!(in alloc; "{line}: {word}")?.as_bytes())?;
    add_word(out, name.bytes())?;
    if reset {
        add_word(out, b"reset")?;
    }
    Ok(())
}

/// Adds a task.
fn add_task(alloc: Global, out: &mut Vec<u8>, task: &RawTask) -> Result<(), AllocError> {
    match task {
        RawTask::Ste {
            line,
            name,
            reset,
            ant,
            con,
            weak,
        } => {
            add_head(alloc, out, *line, "ste", name, *reset)?;
            out.push(b'\n')?;
            add_quints(alloc, out, "ant", ant.as_slice())?;
            add_quints(alloc, out, "con", con.as_slice())?;
            add_weaks(alloc, out, weak.as_slice())
        }
        RawTask::Gste {
            line,
            name,
            reset,
            vertices,
            edges,
        } => {
            add_head(alloc, out, *line, "gste", name, *reset)?;
            add_word(out, b"|")?;
            for vertex in vertices.as_slice() {
                add_word(out, vertex.bytes())?;
            }
            out.push(b'\n')?;
            for edge in edges.as_slice() {
                add_edge(alloc, out, edge)?;
            }
            Ok(())
        }
    }
}

/// The tasks as the table writes them.
fn shown(alloc: Global, raw: &RawTasks) -> Result<Vec<u8>, AllocError> {
    let mut out = Vec::new(alloc);
    let mut is_first = true;
    for name in raw.vars() {
        if !is_first {
            out.push(b' ')?;
        }
        is_first = false;
        out.extend_from_slice(name.bytes())?;
    }
    if !is_first {
        out.push(b'\n')?;
    }
    for task in raw.tasks.as_slice() {
        add_task(alloc, &mut out, task)?;
    }
    Ok(out)
}

/// The fault as the table writes it.
fn shown_fault(alloc: Global, fault: &TaskFault) -> Result<Vec<u8>, AllocError> {
    let mut out = Vec::new(alloc);
    let (line, word, name) = match fault {
        TaskFault::BadLine { line } => (*line, "bad", None),
        TaskFault::TooDeep { line } => (*line, "deep", None),
        TaskFault::DoubleName { line, name } => (*line, "double", Some(name)),
        TaskFault::UnknownVar { line, name } => (*line, "unknown", Some(name)),
        TaskFault::TooMany { line } => (*line, "many", None),
        TaskFault::NoTask => {
            out.extend_from_slice(b"no task")?;
            return Ok(out);
        }
        TaskFault::OutOfMemory => {
            out.extend_from_slice(b"out of memory")?;
            return Ok(out);
        }
    };
    out.extend_from_slice(format!(in alloc; "{line}: {word}")?.as_bytes())?;
    if let Some(name) = name {
        add_word(&mut out, name.bytes())?;
    }
    Ok(out)
}

/// What the lines of a text are answered with, as the tables write it.
fn answer(alloc: Global, text: &[u8]) -> Result<Vec<u8>, AllocError>
    requires { length text.now ≤ 1000000 }
{
    let lines = logical_lines(alloc, text)?;
    match read_tasks(alloc, lines.as_slice()) {
        Ok(raw) => shown(alloc, &raw),
        Err(fault) => shown_fault(alloc, &fault),
    }
}

/// A text with numbers from 0 on, each between two others.
fn text_with_numbers(
    alloc: Global,
    head: &str,
    before: &str,
    count: u32,
    after: &str,
    tail: &str,
) -> Result<Vec<u8>, AllocError> {
    let mut out = head.as_bytes().to_vec(alloc)?;
    for number in 0..count {
        out.extend_from_slice(format!(in alloc; "{before}{number}{after}")?.as_bytes())?;
    }
    out.extend_from_slice(tail.as_bytes())?;
    Ok(out)
}

/// Head, what stands before each number, how many there are, what stands behind each, the tail, and
/// the answer.
const COUNTS: &[(&str, &str, u32, &str, &str, &[u8])] = &[
    (".vars", " v", 4000, "", "\n.foo", b"2: bad"),
    (".vars", " v", 4001, "", "\n.foo", b"1: many"),
    (".vars", " v", 4001, "", " v0\n.foo", b"1: double v0"),
    ("", ".ste t", 256, "\n", ".foo", b"257: bad"),
    ("", ".ste t", 257, "\n", ".foo", b"257: many"),
    (".gste g v\n", ".edge v v", 999, "\n", ".foo", b"1001: bad"),
    (
        ".gste g v\n",
        ".edge v v",
        1000,
        "\n",
        ".foo",
        b"1001: many",
    ),
    (
        ".gste g v\n",
        ".edge v v #",
        10000,
        "\n",
        ".foo",
        b"10002: bad",
    ),
    (
        ".gste g v\n",
        ".edge v v #",
        10001,
        "\n",
        ".foo",
        b"10002: many",
    ),
];

/// Compares what texts are answered with.
fn compare(rt: &impl Abort, alloc: Global, table: &[(&[u8], &[u8])]) -> Result<(), AllocError> {
    for (text, want) in table {
        assert!(rt; text.len() < 1000);
        let out = answer(alloc, *text)?;
        assert_eq!(rt; out.as_slice(), *want, "at {text:?}");
    }
    Ok(())
}

#[test]
fn faults_of_heads(rt: HostRuntime) -> Result<(), Fail> {
    compare(&rt, rt.alloc(), FAULTS_OF_HEADS)?;
    Ok(())
}

#[test]
fn faults_of_clauses(rt: HostRuntime) -> Result<(), Fail> {
    compare(&rt, rt.alloc(), FAULTS_OF_CLAUSES)?;
    Ok(())
}

#[test]
fn faults_of_expressions(rt: HostRuntime) -> Result<(), Fail> {
    compare(&rt, rt.alloc(), FAULTS_OF_EXPRESSIONS)?;
    Ok(())
}

#[test]
fn tasks_of_texts(rt: HostRuntime) -> Result<(), Fail> {
    compare(&rt, rt.alloc(), TASKS)?;
    Ok(())
}

#[test]
fn weakenings(rt: HostRuntime) -> Result<(), Fail> {
    compare(&rt, rt.alloc(), WEAKENINGS)?;
    Ok(())
}

#[test]
fn limits(rt: HostRuntime) -> Result<(), Fail> {
    for (head, before, count, after, tail, want) in COUNTS {
        let text = text_with_numbers(rt.alloc(), head, before, *count, after, tail)?;
        assert!(rt; text.len() < 1000000);
        let out = answer(rt.alloc(), text.as_slice())?;
        assert_eq!(rt; out.as_slice(), *want, "at {head:?} {count}");
    }
    Ok(())
}
