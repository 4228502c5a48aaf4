//! Input files with what they are answered with, in two tables; begin with `answers_of_texts`.

ghost use Rattle.std.specs.Prelude.{◌≡◌, ◌≤◌, ◌∷◌, [], IfOk, Some, None, length, if◌then◌else◌, bytes_eq, codes, option_map};
ghost use Rattle.net_core.specs.Cover.{IsCover};
ghost use Rattle.net_core.specs.Flat.{HasOneDriver, IsInRange};

use crate::words::add_word;
use blif_lines::logical_lines;
use clock_step::{InputFault, read_inputs, simulate};
use net_core::{Cover, Gate, Init, Latch, Lit, Net, RawNet, Resolve, order};
use std::alloc::{AllocError, Global};
use std::process::Abort;
use std::test::Fail;
use ste_base::{Items, Name, NodeId};

/// Texts, and what they are answered with: the bits of q, w, r and q again at each time, or the
/// fault.
const ROWS: &[(&[u8], &[u8])] = &[
    // The worked rows: no lines, a name twice, no name, a latch, a bad row, and no names.
    (b"", b""),
    (b".order d d", b"1: double d"),
    (b".order z", b"1: unknown z"),
    (b".order q", b"1: not an input q"),
    (b".order d\n2", b"2: bad"),
    (b".order\n-\n-", b" 1001 0000"),
    (b".order d\n0\n1\n0", b" 1001 0000 1001"),
    // No rows.
    (b".order", b""),
    (b".order d f", b""),
    (b"# none\n\n", b""),
    // Nets in the named order, whatever the net's own.
    (b".order d f\n11\n00\n01\n10", b" 1101 1111 0100 0110"),
    (b".order f d\n11\n00\n10\n01", b" 1101 1111 0100 0110"),
    (b".order f\n1\n0\n1", b" 1001 0010 0000"),
    // Names are cut at blanks, and comments and continued lines are read as in netlists.
    (b" .order \\\n f\td # two\n11 # ones", b" 1101"),
];

/// The same of texts with a fault.
const FAULTS: &[(&[u8], &[u8])] = &[
    // The first line has another form.
    (b"11", b"1: bad"),
    (b"order d", b"1: bad"),
    (b".orders d", b"1: bad"),
    (b"\n.inputs d\n1", b"2: bad"),
    (b"d .order", b"1: bad"),
    // A later line has another form.
    (b".order d\n1\n.order d", b"3: bad"),
    (b".order d\n10", b"2: bad"),
    (b".order d f\n1", b"2: bad"),
    (b".order d f\n1 1", b"2: bad"),
    (b".order d f\n1-", b"2: bad"),
    (b".order d\n-", b"2: bad"),
    (b".order\n0", b"2: bad"),
    (b".order\n--", b"2: bad"),
    (b".order\n- -", b"2: bad"),
    (b".order d\n1\n\n1\nx\n1", b"5: bad"),
    (b".order d\n/\n1", b"2: bad"),
    // Two names of one net, and the second of them is reported; which names stand between does not
    // matter.
    (b".order d 0/d", b"1: double 0/d"),
    (b".order 0/d f d f", b"1: double d"),
    (b".order f d 0/d f", b"1: double 0/d"),
    (b".order far f far", b"1: double far"),
    // A double goes before a name of no net, and that before a driven net; the first of its kind is
    // reported.
    (b".order z q d d", b"1: double d"),
    (b".order q q z", b"1: double q"),
    (b".order z z", b"1: unknown z"),
    (b".order q z d y", b"1: unknown z"),
    (b".order d y z", b"1: unknown y"),
    (b".order d p q f", b"1: not an input p"),
    (b".order d w", b"1: not an input w"),
    (b".order far", b"1: not an input far"),
    // An earlier line goes before.
    (b".order z\n2", b"1: unknown z"),
    (b".order q\n10", b"1: not an input q"),
];

/// Numbers of nets and of rows, each of one `0`, and what such a file is answered with.
const SIZES: &[(u32, usize, &[u8])] = &[
    (7, 10_000, b"10000 rows"),
    (7, 10_001, b"10002: too many"),
    (7, 10_002, b"10002: too many"),
    (10_000, 10_000, b"10000 rows"),
    (10_001, 9_999, b"9999 rows"),
    (10_001, 10_000, b"10001: too many"),
    (2_000_000, 50, b"50 rows"),
    (2_000_000, 51, b"52: too many"),
];

/// Names of some nets of the sample; `0/d` names that of `d`, and `far` none that is there.
struct Names {
    first: u32,
}

impl Resolve for Names {
    ghost net_of = { λ names text.
        if bytes_eq text (codes "d") then Some names.first
        else if bytes_eq text (codes "0/d") then Some names.first
        else if bytes_eq text (codes "q") then Some 1
        else if bytes_eq text (codes "f") then Some 2
        else if bytes_eq text (codes "p") then Some 3
        else if bytes_eq text (codes "w") then Some 6
        else if bytes_eq text (codes "far") then Some 4294967295
        else None };

    fn resolve(&self, text: &[u8]) -> Option<NodeId> {
        if text == "d".as_bytes() {
            Some(NodeId(self.first))
        } else if text == "0/d".as_bytes() {
            Some(NodeId(self.first))
        } else if text == "q".as_bytes() {
            Some(NodeId(1))
        } else if text == "f".as_bytes() {
            Some(NodeId(2))
        } else if text == "p".as_bytes() {
            Some(NodeId(3))
        } else if text == "w".as_bytes() {
            Some(NodeId(6))
        } else if text == "far".as_bytes() {
            Some(NodeId(4_294_967_295))
        } else {
            None
        }
    }
}

/// A gate of two inputs.
fn gate(alloc: Global, one: u32, other: u32, output: u32, cover: u32) -> Result<Gate, AllocError>
    ensures { IfOk result (λ gate. gate ≡ record {
      inputs = record { 0 = one } ∷ (record { 0 = other } ∷ []);
      output = record { 0 = output };
      cover = cover;
    }) }
{
    Ok(Gate {
        inputs: Items::from(Vec::from_array(alloc, [NodeId(one), NodeId(other)])?),
        output: NodeId(output),
        cover,
    })
}

/// A cover of two rows over two inputs.
fn cover(alloc: Global, on: bool, first: [Lit; 2], second: [Lit; 2]) -> Result<Cover, AllocError>
    ensures sound { IfOk result (λ cover. IsCover cover) }
    ensures wide { IfOk result (λ cover. cover.inputs ≡ 2) }
{
    let first = Items::from(Vec::from_array(alloc, first)?);
    let second = Items::from(Vec::from_array(alloc, second)?);
    Ok(Cover {
        inputs: 2,
        on,
        rows: Items::from(Vec::from_array(alloc, [first, second])?),
    })
}

/// An input d, which is net 0, and free nets f, which is net 2, and from 7 on. Latches: q takes d
/// and has initial value 1, p takes w and has 0, r takes f and has neither. Gates, the later one
/// first: w is y or p, but not both; y is d and f. Net 1 is q, 3 p, 4 r, 5 y and 6 w.
fn sample(alloc: Global, nets: u32) -> Result<RawNet, AllocError>
    requires { 7 ≤ nets }
    ensures in_range { IfOk result (λ raw. IsInRange raw) }
    ensures one_driver { IfOk result (λ raw. HasOneDriver raw) }
{
    let latches = [
        Latch {
            input: NodeId(0),
            output: NodeId(1),
            init: Init::One,
        },
        Latch {
            input: NodeId(6),
            output: NodeId(3),
            init: Init::Zero,
        },
        Latch {
            input: NodeId(2),
            output: NodeId(4),
            init: Init::Free,
        },
    ];
    let outputs = [NodeId(1), NodeId(6), NodeId(4), NodeId(1)];
    let either = cover(alloc, true, [Lit::One, Lit::Zero], [Lit::Zero, Lit::One])?;
    let both = cover(alloc, false, [Lit::Zero, Lit::Any], [Lit::Any, Lit::Zero])?;
    let gates = [gate(alloc, 5, 3, 6, 0)?, gate(alloc, 0, 2, 5, 1)?];
    Ok(RawNet {
        nets,
        inputs: Items::from(Vec::from_array(alloc, [NodeId(0)])?),
        outputs: Items::from(Vec::from_array(alloc, outputs)?),
        gates: Items::from(Vec::from_array(alloc, gates)?),
        latches: Items::from(Vec::from_array(alloc, latches)?),
        covers: Items::from(Vec::from_array(alloc, [either, both])?),
    })
}

/// Rows of bits, each with a blank before it.
fn shown(alloc: Global, rows: &[Items<bool>]) -> Result<Vec<u8>, AllocError> {
    let mut out = Vec::new(alloc);
    for row in rows {
        out.push(b' ')?;
        for bit in row.as_slice() {
            out.push(if *bit { b'1' } else { b'0' })?;
        }
    }
    Ok(out)
}

/// A line's number, what is wrong with it, and a name, where there is one.
fn shown_line(
    alloc: Global,
    line: u32,
    kind: &str,
    name: Option<&Name>,
) -> Result<Vec<u8>, AllocError> {
    let mut out = format!(in alloc; "{line}: {kind}")?.into_bytes();
    if let Some(name) = name {
        add_word(&mut out, name.bytes())?;
    }
    Ok(out)
}

/// A fault, as the table writes it.
fn shown_fault(alloc: Global, fault: &InputFault) -> Result<Vec<u8>, AllocError> {
    match fault {
        InputFault::BadLine { line } => shown_line(alloc, *line, "bad", None),
        InputFault::DoubleName { line, name } => shown_line(alloc, *line, "double", Some(name)),
        InputFault::UnknownNode { line, name } => shown_line(alloc, *line, "unknown", Some(name)),
        InputFault::NotAnInput { line, name } => {
            shown_line(alloc, *line, "not an input", Some(name))
        }
        InputFault::TooMany { line } => shown_line(alloc, *line, "too many", None),
        InputFault::OutOfMemory => shown_line(alloc, 0, "out of memory", None),
    }
}

/// A number of rows, as the table writes it.
fn shown_count(alloc: Global, rows: usize) -> Result<Vec<u8>, AllocError> {
    Ok(format!(in alloc; "{rows} rows")?.into_bytes())
}

/// The outputs on the inputs of a text, or its fault.
fn answer(alloc: Global, net: &Net, text: &[u8]) -> Result<Vec<u8>, AllocError>
    requires { length text.now ≤ 1000 }
{
    let lines = logical_lines(alloc, text)?;
    match read_inputs(alloc, lines.as_slice(), net, &Names { first: 0 }) {
        Ok(inputs) => shown(alloc, simulate(alloc, net, &inputs)?.as_slice()),
        Err(fault) => shown_fault(alloc, &fault),
    }
}

/// A text with so many rows.
fn rows_text(alloc: Global, rows: usize) -> Result<Vec<u8>, AllocError> {
    let mut text = b".order d\n".as_slice().to_vec(alloc)?;
    for _ in 0..rows {
        text.extend_from_slice(b"0\n")?;
    }
    Ok(text)
}

/// The number of rows of a text, or its fault.
fn rows_or_fault(alloc: Global, net: &Net, text: &[u8]) -> Result<Vec<u8>, AllocError>
    requires { length text.now ≤ 1000000 }
{
    let lines = logical_lines(alloc, text)?;
    match read_inputs(alloc, lines.as_slice(), net, &Names { first: 0 }) {
        Ok(inputs) => shown_count(alloc, inputs.rows.len()),
        Err(fault) => shown_fault(alloc, &fault),
    }
}

/// The sample with so many nets, in order.
fn net_of(alloc: Global, nets: u32) -> Result<Net, Fail>
    requires { 7 ≤ nets }
{
    match order(alloc, sample(alloc, nets)?) {
        Ok(net) => Ok(net),
        Err(_) => Err("no order".into()),
    }
}

/// Compares what texts are answered with.
fn compare(
    rt: &impl Abort,
    alloc: Global,
    net: &Net,
    table: &[(&[u8], &[u8])],
) -> Result<(), AllocError> {
    for (text, want) in table {
        assert!(rt; text.len() < 1000);
        let out = answer(alloc, net, *text)?;
        assert_eq!(rt; out.as_slice(), *want, "at {text:?}");
    }
    Ok(())
}

#[test]
fn answers_of_texts(rt: HostRuntime) -> Result<(), Fail> {
    let net = net_of(rt.alloc(), 7)?;
    compare(&rt, rt.alloc(), &net, ROWS)?;
    Ok(())
}

#[test]
fn faults_of_texts(rt: HostRuntime) -> Result<(), Fail> {
    let net = net_of(rt.alloc(), 7)?;
    compare(&rt, rt.alloc(), &net, FAULTS)?;
    Ok(())
}

/// The number of rows of a text with so many of them, or its fault.
fn answer_of_size(alloc: Global, net: &Net, rows: usize) -> Result<Vec<u8>, AllocError> {
    let text = rows_text(alloc, rows)?;
    if text.len() > 1_000_000 {
        return Ok(text);
    }
    rows_or_fault(alloc, net, &text)
}

/// The answer to a text with so many rows over so many nets.
fn answer_of(alloc: Global, nets: u32, rows: usize) -> Result<Vec<u8>, Fail>
    requires { 7 ≤ nets }
{
    let net = net_of(alloc, nets)?;
    Ok(answer_of_size(alloc, &net, rows)?)
}

#[test]
fn answers_of_sizes(rt: HostRuntime) -> Result<(), Fail> {
    for (nets, rows, want) in SIZES {
        assert!(rt; *nets >= 7);
        let out = answer_of(rt.alloc(), *nets, *rows)?;
        assert_eq!(rt; out.as_slice(), *want, "at {nets} and {rows}");
    }
    Ok(())
}
