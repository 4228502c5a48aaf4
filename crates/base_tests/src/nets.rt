//! Covers and nets, in two tables; begin with `cases_of_covers`.

ghost use Rattle.std.specs.Prelude.{◌≡◌, ◌<◌, ◌≤◌, IfOk, length};
ghost use Rattle.net_core.specs.Cases.{cases_of};
ghost use Rattle.net_core.specs.Flat.{HasOneDriver, IsInRange};

use net_core::{
    Cover, Gate, Init, Latch, Lit, Net, OrderFault, RawNet, Row, Source, cases, eval, order,
    other_rows,
};
use std::alloc::{AllocError, Global};
use std::process::Abort;
use std::test::Fail;
use ste_base::{Items, NodeId};

/// Covers by their inputs and rows, with their cases and the rows that they leave out.
const COVERS: &[(u32, &[&[u8]], u32, &[&[u8]])] = &[
    // No inputs, with and without a row.
    (0, &[], 1, &[b""]),
    (0, &[b""], 1, &[]),
    // No row, a row of -, and one literal.
    (3, &[], 1, &[b"---"]),
    (3, &[b"---"], 1, &[]),
    (1, &[b"0"], 2, &[b"1"]),
    (2, &[b"-1"], 2, &[b"-0"]),
    // AND, OR and exclusive OR.
    (2, &[b"11"], 3, &[b"0-", b"10"]),
    (2, &[b"1-", b"-1"], 3, &[b"00"]),
    (2, &[b"10", b"01"], 4, &[b"00", b"11"]),
    // The multiplexer, its selection first and last.
    (3, &[b"01-", b"1-1"], 4, &[b"00-", b"1-0"]),
    (3, &[b"1-0", b"-11"], 7, &[b"00-", b"010", b"101"]),
    // A row covered by another, a row twice, and all bits.
    (2, &[b"1-", b"11"], 2, &[b"0-"]),
    (2, &[b"01", b"01"], 3, &[b"00", b"1-"]),
    (1, &[b"0", b"1"], 2, &[]),
    // Runs of - between literals.
    (6, &[b"1----1"], 3, &[b"0-----", b"1----0"]),
    (6, &[b"--0--0", b"--1-0-"], 4, &[b"--0--1", b"--1-1-"]),
    // Rows that are too short and too long.
    (3, &[b"1", b"01"], 3, &[b"00-"]),
    (1, &[b"-1"], 1, &[]),
    (2, &[b"--1", b"1--"], 2, &[]),
];

/// Gates by their three inputs, and the least net that does not settle. Gate k drives net k, and
/// the net behind the last of them is the output of a latch that reads net 0.
const NETS: &[(&[[u32; 3]], Option<u32>)] = &[
    (&[], None),
    // In order, in reverse order, and with an input twice.
    (&[[3, 3, 3], [0, 3, 3], [1, 0, 0]], None),
    (&[[1, 2, 2], [2, 2, 3], [3, 3, 3]], None),
    (&[[2, 3, 1], [3, 3, 3], [3, 1, 1]], None),
    // A latch in a loop is none.
    (&[[1, 1, 1]], None),
    // Its own output.
    (&[[0, 1, 1]], Some(0)),
    (&[[2, 2, 2], [2, 0, 1]], Some(1)),
    // Two loops, the later one of fewer gates.
    (&[[4, 4, 4], [2, 4, 4], [1, 4, 4], [3, 4, 4]], Some(1)),
    // Nets before and behind a loop.
    (&[[1, 1, 1], [2, 2, 2], [1, 1, 1]], Some(0)),
    (&[[3, 3, 3], [0, 0, 0], [2, 1, 1]], Some(2)),
];

/// A literal by its sign.
fn lit(sign: u8) -> Lit {
    match sign {
        b'0' => Lit::Zero,
        b'1' => Lit::One,
        _ => Lit::Any,
    }
}

/// Rows by their texts.
fn rows_of(alloc: Global, texts: &[&[u8]]) -> Result<Items<Row>, AllocError> {
    let mut rows = Items::new(alloc);
    for text in texts {
        let mut row = Items::new(alloc);
        for sign in *text {
            row.push(lit(*sign))?;
        }
        rows.push(row)?;
    }
    Ok(rows)
}

/// Whether a row has these signs.
fn is_row(row: &[Lit], text: &[u8]) -> bool {
    row.len() == text.len() && row.iter().zip(text).all(|(one, sign)| *one == lit(*sign))
}

/// Whether rows have these signs.
fn are_rows(rows: &[Row], texts: &[&[u8]]) -> bool {
    rows.len() == texts.len()
        && rows
            .iter()
            .zip(texts)
            .all(|(row, text)| is_row(row.as_slice(), text))
}

/// So many pairs of inputs, and for each a row that asks for both.
fn pairs(alloc: Global, count: u32) -> Result<Items<Row>, AllocError> {
    let mut rows = Items::new(alloc);
    for pair in 0..count {
        let mut row = Items::new(alloc);
        for other in 0..count {
            let lit = if other == pair { Lit::One } else { Lit::Any };
            row.push(lit)?;
            row.push(lit)?;
        }
        rows.push(row)?;
    }
    Ok(rows)
}

/// So many bits of a number, the last one first.
fn bits_of(alloc: Global, number: u32, count: u32) -> Result<Vec<bool>, AllocError>
    requires { count ≤ 6 }
{
    let mut bits = Vec::new(alloc);
    for position in 0..count {
        bits.push((number >> position) & 1 == 1)?;
    }
    Ok(bits)
}

/// Whether each list of bits is in just one of two covers.
fn are_apart(alloc: Global, cover: &Cover, other: &Cover) -> Result<bool, AllocError>
    requires { cover.now.inputs ≤ 6 }
{
    for code in 0..64_u32 {
        let bits = bits_of(alloc, code, cover.inputs)?;
        if eval(other, &bits) == eval(cover, &bits) {
            return Ok(false);
        }
    }
    Ok(true)
}

/// Whether a cover leaves out these rows, and each list of bits is in it or in them.
fn leaves_out(alloc: Global, cover: &Cover, texts: &[&[u8]]) -> Result<bool, AllocError>
    requires inputs { cover.now.inputs ≤ 6 }
    requires cases { cases_of cover.now.inputs cover.now.rows ≤ 65536 }
{
    let other = Cover {
        inputs: cover.inputs,
        on: true,
        rows: other_rows(alloc, cover)?,
    };
    Ok(are_rows(other.rows.as_slice(), texts) && are_apart(alloc, cover, &other)?)
}

/// Whether a cover has so many cases, and leaves out these rows.
fn has_cases(
    alloc: Global,
    cover: &Cover,
    want: u32,
    others: &[&[u8]],
) -> Result<bool, AllocError> {
    if cover.inputs > 6 {
        return Ok(false);
    }
    let number = cases(alloc, cover)?;
    if number != want || number > 65_536 {
        return Ok(false);
    }
    leaves_out(alloc, cover, others)
}

/// The same of the cover of these rows.
fn rows_have_cases(
    alloc: Global,
    inputs: u32,
    rows: &[&[u8]],
    want: u32,
    others: &[&[u8]],
) -> Result<bool, AllocError> {
    let cover = Cover {
        inputs,
        on: true,
        rows: rows_of(alloc, rows)?,
    };
    has_cases(alloc, &cover, want, others)
}

#[test]
fn cases_of_covers(rt: HostRuntime) -> Result<(), Fail> {
    for (inputs, rows, want, others) in COVERS {
        let right = rows_have_cases(rt.alloc(), *inputs, rows, *want, others)?;
        assert!(rt; right, "at {rows:?}");
    }
    Ok(())
}

#[test]
fn cases_of_pairs(rt: HostRuntime) -> Result<(), Fail> {
    for (count, want) in [(15, 65_535), (16, 65_537)] {
        assert!(rt; count <= 16);
        let cover = Cover {
            inputs: 2 * count,
            on: true,
            rows: pairs(rt.alloc(), count)?,
        };
        assert_eq!(rt; cases(rt.alloc(), &cover)?, want);
    }
    Ok(())
}

/// The net of these gates, as the table has it. An input behind the last net is the last net.
fn net_of(alloc: Global, rows: &[[u32; 3]]) -> Result<RawNet, AllocError>
    requires { length rows.now < 65536 }
    ensures in_range { IfOk result (λ raw. IsInRange raw) }
    ensures one_driver { IfOk result (λ raw. HasOneDriver raw) }
{
    let count = rows.len() as u32;
    let mut gates = Items::new(alloc);
    for (number, row) in rows.iter().enumerate() {
        let inputs = [
            NodeId(row[0].min(count)),
            NodeId(row[1].min(count)),
            NodeId(row[2].min(count)),
        ];
        gates.push(Gate {
            inputs: Items::from(Vec::from_array(alloc, inputs)?),
            output: NodeId(number as u32),
            cover: 0,
        })?;
    }
    let latch = Latch {
        input: NodeId(0),
        output: NodeId(count),
        init: Init::Zero,
    };
    let cover = Cover {
        inputs: 3,
        on: true,
        rows: Items::new(alloc),
    };
    Ok(RawNet {
        nets: count + 1,
        inputs: Items::new(alloc),
        outputs: Items::new(alloc),
        gates,
        latches: Items::from(Vec::from_array(alloc, [latch])?),
        covers: Items::from(Vec::from_array(alloc, [cover])?),
    })
}

/// The least net that does not settle, where there is one, and else the number of settled gates.
fn order_of(alloc: Global, rows: &[[u32; 3]]) -> Result<(Option<u32>, usize), Fail>
    requires { length rows.now < 65536 }
{
    match order(alloc, net_of(alloc, rows)?) {
        Ok(net) => Ok((None, net.settled().len())),
        Err(OrderFault::Loop { net }) => Ok((Some(net.0), 0)),
        Err(OrderFault::OutOfMemory) => Err("out of memory".into()),
    }
}

#[test]
fn orders_of_nets(rt: HostRuntime) -> Result<(), Fail> {
    for (rows, want) in NETS {
        assert!(rt; rows.len() < 100);
        let (looped, settled) = order_of(rt.alloc(), rows)?;
        assert_eq!(rt; looped, *want, "at {rows:?}");
        assert!(rt; want.is_some() || settled == rows.len(), "at {rows:?}");
    }
    Ok(())
}

/// Gates of which each reads the next one, so many.
fn chain(alloc: Global, count: u32) -> Result<Vec<[u32; 3]>, AllocError>
    requires { count ≤ 1000 }
{
    let mut rows = Vec::new(alloc);
    for number in 0..count {
        rows.push([number + 1, number + 1, number + 1])?;
    }
    Ok(rows)
}

/// The net of a chain of a thousand gates, of which the last one reads the latch.
fn chain_net(alloc: Global) -> Result<Net, Fail> {
    let rows = chain(alloc, 1_000)?;
    if rows.len() > 1_000 {
        return Err("a long chain".into());
    }
    match order(alloc, net_of(alloc, &rows)?) {
        Ok(net) => Ok(net),
        Err(_) => Err("no order".into()),
    }
}

/// Compares the sources and the order of the chain's net.
fn compare_chain(rt: &impl Abort, net: &Net) {
    assert!(rt; net.nets() == 1_001);
    assert!(rt; net.source(NodeId(7)) == Source::Gate(7));
    assert!(rt; net.source(NodeId(1_000)) == Source::Latch(0));
    for (place, gate) in net.settled().iter().enumerate() {
        assert!(rt; place < 1_000);
        assert_eq!(rt; *gate as usize, 999 - place);
    }
}

#[test]
fn orders_of_chains(rt: HostRuntime) -> Result<(), Fail> {
    let net = chain_net(rt.alloc())?;
    compare_chain(&rt, &net);
    Ok(())
}

/// A chain, and behind it two gates that read its first gate, and each other.
fn chain_and_loop(alloc: Global) -> Result<Vec<[u32; 3]>, AllocError> {
    let mut rows = chain(alloc, 999)?;
    // the last gate of the chain reads the latch
    rows.push([u32::MAX, u32::MAX, u32::MAX])?;
    rows.push([0, 1_001, 1_001])?;
    rows.push([0, 1_000, 1_000])?;
    Ok(rows)
}

#[test]
fn loop_behind_a_chain(rt: HostRuntime) -> Result<(), Fail> {
    let rows = chain_and_loop(rt.alloc())?;
    assert!(rt; rows.len() <= 1_002);
    let (looped, _) = order_of(rt.alloc(), &rows)?;
    assert_eq!(rt; looped, Some(1_000));
    Ok(())
}
