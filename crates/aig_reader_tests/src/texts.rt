//! Texts with their models and faults, in tables; begin with `models_of_texts`.

ghost use Rattle.std.specs.Prelude.{◌≤◌, length};

use aig_reader::{AigFault, read_aig};
use blif_syntax::{Item, Model, What};
use net_core::{Cover, Init, Lit};
use std::alloc::{AllocError, Global};
use std::process::Abort;
use std::test::Fail;
use ste_base::{Items, Name};

/// Texts with a header that is faulty, or with too few lines behind it, and their faults.
const FAULTS_OF_HEADERS: &[(&[u8], &[u8])] = &[
    (b"", b"1: bad"),
    (b"\n", b"1: bad"),
    (b"aag", b"1: bad"),
    (b"aag 0 0 0 0", b"1: bad"),
    (b"aig 1 1 0 1 0\n2\n", b"1: bad"),
    (b"aag 0 0 0 0 x", b"1: bad"),
    (b"aag -1 0 0 0 0", b"1: bad"),
    (b"aag 2147483648 0 0 0 0", b"1: bad"),
    (b"aag 0 0 0 0 0 0 0 0 0 0", b"1: bad"),
    // A further number that is not 0, as it is written; one that is none comes before.
    (b"aag 1 1 0 0 0 1\n2\n", b"1: left out 1"),
    (b"aag 0 0 0 0 0 0 00 07 1", b"1: left out 07"),
    (b"aag 0 0 0 0 0 1 x", b"1: bad"),
    (b"aag 0 0 0 0 0 1 2147483648", b"1: bad"),
    // The text ends too early: the line behind the last.
    (b"aag 1 0 1 0 0", b"2: bad"),
    (b"aag 1 0 1 0 0\n", b"2: bad"),
    (b"aag 2147483647 2147483647 0 0 0\n", b"2: bad"),
    (b"aag 2 2 0 1 0\n2\n4", b"4: bad"),
    (b"aag 2 2 0 1 0\n2\n4\n", b"4: bad"),
    (b"aag 2 2 0 1 0\n2\n4\n\n", b"4: bad"),
];

/// Texts with a faulty line of literals or a faulty symbol, and their faults.
const FAULTS_OF_LINES: &[(&[u8], &[u8])] = &[
    // Inputs.
    (b"aag 1 1 0 0 0\n0", b"2: bad"),
    (b"aag 1 1 0 0 0\n3", b"2: bad"),
    (b"aag 1 1 0 0 0\n4", b"2: bad"),
    (b"aag 1 1 0 0 0\n2 2", b"2: bad"),
    (b"aag 1 1 0 0 0\n\n2", b"2: bad"),
    (b"aag 2 2 0 0 0\n2\n2", b"3: bad"),
    // Latches.
    (b"aag 1 0 1 0 0\n2", b"2: bad"),
    (b"aag 1 0 1 0 0\n3 2", b"2: bad"),
    (b"aag 1 0 1 0 0\n2 4", b"2: bad"),
    (b"aag 1 0 1 0 0\n2 3 3", b"2: bad"),
    (b"aag 2 1 1 0 0\n2\n4 2 2", b"3: bad"),
    (b"aag 1 0 1 0 0\n2 3 0 0", b"2: bad"),
    (b"aag 1 1 1 0 0\n2\n2 3", b"3: bad"),
    // Outputs: any literal that is small enough, and no line of more.
    (b"aag 0 0 0 1 0\n2", b"2: bad"),
    (b"aag 0 0 0 1 0\n0 0", b"2: bad"),
    (b"aag 0 0 0 1 0\nx", b"2: bad"),
    // ANDs.
    (b"aag 3 1 0 0 1\n2\n6 2", b"3: bad"),
    (b"aag 3 1 0 0 1\n2\n7 2 2", b"3: bad"),
    (b"aag 3 1 0 0 1\n2\n6 2 8", b"3: bad"),
    (b"aag 3 1 0 0 1\n2\n2 6 6", b"3: bad"),
    (b"aag 3 0 0 0 2\n6 2 4\n6 2 4", b"3: bad"),
    (b"aag 3 1 0 0 1\n2\n6 2 4 2", b"3: bad"),
    // Symbols.
    (b"aag 1 1 0 0 0\n2\n\n", b"3: bad"),
    (b"aag 1 1 0 0 0\n2\ni1 a", b"3: bad"),
    (b"aag 1 1 0 0 0\n2\nl0 a", b"3: bad"),
    (b"aag 1 1 0 0 0\n2\no0 a", b"3: bad"),
    (b"aag 1 1 0 0 0\n2\nb0 a", b"3: bad"),
    (b"aag 1 1 0 0 0\n2\ni0", b"3: bad"),
    (b"aag 1 1 0 0 0\n2\ni0 \t ", b"3: bad"),
    (b"aag 1 1 0 0 0\n2\ni a", b"3: bad"),
    (b"aag 1 1 0 0 0\n2\n i0 a", b"3: bad"),
    (b"aag 1 1 0 0 0\n2\ni0\ta", b"3: bad"),
    (b"aag 1 1 0 0 0\n2\ni18446744073709551616 a", b"3: bad"),
    (b"aag 1 1 0 0 0\n2\nc x", b"3: bad"),
    (b"aag 1 1 0 0 0\n2\n c", b"3: bad"),
    // The first faulty line is reported.
    (b"aag 2 2 0 0 0\n2\n2\ni9 a", b"3: bad"),
    (b"aag 2 2 0 1 0\n2\n2", b"3: bad"),
    (b"aag 0 0 0 0 0\nx\ny", b"2: bad"),
];

/// Texts, and their models.
const MODELS: &[(&[u8], &[u8])] = &[
    (b"aag 0 0 0 0 0", b"1: model aig\n1: inputs\n1: outputs\n"),
    (
        b"aag 3 2 0 1 1\n2\n4\n6\n6 2 4\ni0 a\ni1 b\no0 y\n",
        b"1: model aig\n1: inputs a b\n1: outputs y\n5: names a b -> $v3, 2, on /11\n4: names $v3 -> y, 1, on /1\n",
    ),
    // A latch that changes its bit; both signs of it are outputs.
    (
        b"aag 1 0 1 2 0\n2 3\n2\n3\n",
        b"1: model aig\n1: inputs\n1: outputs $o0 $o1\n2: latch $n1 $v1 plain none 0\n3: names $v1 -> $o0, 1, on /1\n4: names $v1 -> $o1, 1, on /0\n1: names $v1 -> $n1, 1, on /0\n",
    ),
    // Initial values; inverters in increasing order and once, whatever the order of the latches.
    (
        b"aag 5 0 4 0 0\n2 11\n4 7 0\n6 11 1\n8 5 8\n",
        b"1: model aig\n1: inputs\n1: outputs\n2: latch $n5 $v1 plain none 0\n3: latch $n3 $v2 plain none 0\n4: latch $n5 $v3 plain none 1\n5: latch $n2 $v4 plain none free\n1: names $v2 -> $n2, 1, on /0\n1: names $v3 -> $n3, 1, on /0\n1: names $v5 -> $n5, 1, on /0\n",
    ),
    // Variable 0 where it is mentioned, by an output, an AND or a latch.
    (
        b"aag 0 0 0 2 0\n0\n1\n",
        b"1: model aig\n1: inputs\n1: outputs $o0 $o1\n2: names $v0 -> $o0, 1, on /1\n3: names $v0 -> $o1, 1, on /0\n1: names -> $v0, 0, on\n",
    ),
    (
        b"aag 1 0 0 0 1\n2 1 0\n",
        b"1: model aig\n1: inputs\n1: outputs\n2: names $v0 $v0 -> $v1, 2, on /01\n1: names -> $v0, 0, on\n",
    ),
    (
        b"aag 1 0 1 0 0\n2 1\n",
        b"1: model aig\n1: inputs\n1: outputs\n2: latch $n0 $v1 plain none 0\n1: names $v0 -> $n0, 1, on /0\n1: names -> $v0, 0, on\n",
    ),
    // A reset value mentions nothing.
    (
        b"aag 2 1 1 0 0\n2\n4 2 0\n",
        b"1: model aig\n1: inputs $v1\n1: outputs\n3: latch $v1 $v2 plain none 0\n",
    ),
    // Symbols: first ones, none with a dollar, none that is taken; inputs first, then latches, then
    // outputs.
    (
        b"aag 4 2 2 2 0\n2\n4\n6 2\n8 4\n6\n8\no0 a\no1 c\nl0 a\nl1 b\ni1 b\ni0 a\ni0 z\n",
        b"1: model aig\n1: inputs a b\n1: outputs $o0 c\n4: latch a $v3 plain none 0\n5: latch b $v4 plain none 0\n6: names $v3 -> $o0, 1, on /1\n7: names $v4 -> c, 1, on /1\n",
    ),
    (
        b"aag 2 2 0 1 0\n4\n2\n4\ni0 $v1\ni1 a\ni1 b\no0 a\n",
        b"1: model aig\n1: inputs $v2 a\n1: outputs $o0\n4: names $v2 -> $o0, 1, on /1\n",
    ),
    // A latch comes before an output, and of two inputs the first, in whatever order the lines of
    // symbols stand.
    (
        b"aag 1 0 1 1 0\n2 3\n2\no0 a\nl0 a\n",
        b"1: model aig\n1: inputs\n1: outputs $o0\n2: latch $n1 a plain none 0\n3: names a -> $o0, 1, on /1\n1: names a -> $n1, 1, on /0\n",
    ),
    (
        b"aag 2 2 0 0 0\n2\n4\ni1 a\ni0 a\n",
        b"1: model aig\n1: inputs a $v2\n1: outputs\n",
    ),
    // Blanks: CR LF, tabs and runs of blanks between literals; a name begins behind one space and
    // ends before blanks.
    (
        b" aag\t1  1 0 1 0 0 0 0 0 \r\n\t2 \r\n 3\r\ni0  a b\t \r\n",
        b"1: model aig\n1: inputs  a b\n1: outputs $o0\n3: names  a b -> $o0, 1, on /0\n",
    ),
    // What follows `c` is not read.
    (
        b"aag 01 1 0 0 0\n02\nc \t\nanything # at all\ni0 a\n",
        b"1: model aig\n1: inputs $v1\n1: outputs\n",
    ),
    (
        b"aag 1 1 0 0 0\n2\ni0 c\nc",
        b"1: model aig\n1: inputs c\n1: outputs\n",
    ),
    // A variable that is mentioned and not defined, and literals up to the greatest.
    (
        b"aag 2 0 0 1 1\n5\n2 4 5\n",
        b"1: model aig\n1: inputs\n1: outputs $o0\n3: names $v2 $v2 -> $v1, 2, on /10\n2: names $v2 -> $o0, 1, on /0\n",
    ),
    (
        b"aag 2147483647 0 0 1 0\n4294967295\n",
        b"1: model aig\n1: inputs\n1: outputs $o0\n2: names $v2147483647 -> $o0, 1, on /0\n",
    ),
];

/// Adds a word, with a blank before it.
fn add_word(out: &mut Vec<u8>, word: &[u8]) -> Result<(), AllocError> {
    out.push(b' ')?;
    out.extend_from_slice(word)?;
    Ok(())
}

/// Adds a word, and names.
fn add_names(out: &mut Vec<u8>, word: &[u8], names: &Items<Name>) -> Result<(), AllocError> {
    add_word(out, word)?;
    for name in names.as_slice() {
        add_word(out, name.bytes())?;
    }
    Ok(())
}

/// Adds the number of the cover's inputs, where its rows say the bit is 1 or 0, and its rows.
fn add_cover(alloc: Global, out: &mut Vec<u8>, cover: &Cover) -> Result<(), AllocError> {
    let on = if cover.on { "on" } else { "off" };
    out.extend_from_slice(format!(in alloc; ", {}, {on}", cover.inputs)?.as_bytes())?;
    for row in cover.rows.as_slice() {
        add_word(out, b"/")?;
        for literal in row.as_slice() {
            out.push(match literal {
                Lit::Zero => b'0',
                Lit::One => b'1',
                Lit::Any => b'-',
            })?;
        }
    }
    Ok(())
}

/// A latch's initial value as the tables write it.
fn init_word(init: Init) -> &'static [u8] {
    match init {
        Init::Zero => b"plain none 0",
        Init::One => b"plain none 1",
        Init::Free => b"plain none free",
    }
}

/// Adds what an item says, but for its line.
fn add_what(alloc: Global, out: &mut Vec<u8>, what: &What) -> Result<(), AllocError> {
    match what {
        What::Inputs(names) => add_names(out, b"inputs", names),
        What::Outputs(names) => add_names(out, b"outputs", names),
        What::Names {
            inputs,
            output,
            cover,
        } => {
            add_names(out, b"names", inputs)?;
            add_word(out, b"->")?;
            add_word(out, output.bytes())?;
            add_cover(alloc, out, cover)
        }
        What::Latch {
            input,
            output,
            kind: _,
            control: _,
            init,
        } => {
            add_word(out, b"latch")?;
            add_word(out, input.bytes())?;
            add_word(out, output.bytes())?;
            add_word(out, init_word(*init))
        }
        What::Clock(_) => add_word(out, b"clock"),
        What::Subckt {
            model: _,
            formals: _,
        } => add_word(out, b"subckt"),
    }
}

/// Adds an item.
fn add_item(alloc: Global, out: &mut Vec<u8>, item: &Item) -> Result<(), AllocError> {
    out.extend_from_slice(format!(in alloc; "{}:", item.line)?.as_bytes())?;
    add_what(alloc, out, &item.what)?;
    Ok(out.push(b'\n')?)
}

/// The models as the table writes them.
fn shown(alloc: Global, models: &[Model]) -> Result<Vec<u8>, AllocError> {
    let mut out = Vec::new(alloc);
    for model in models {
        out.extend_from_slice(format!(in alloc; "{}: model ", model.line)?.as_bytes())?;
        out.extend_from_slice(model.name.bytes())?;
        out.push(b'\n')?;
        for item in model.items.as_slice() {
            add_item(alloc, &mut out, item)?;
        }
    }
    Ok(out)
}

/// The fault as the tables write it.
fn shown_fault(alloc: Global, fault: &AigFault) -> Result<Vec<u8>, AllocError> {
    let mut out = Vec::new(alloc);
    match fault {
        AigFault::BadLine { line } => out.extend_from_slice(format!(in alloc;
            "{line}: bad"
        )?.as_bytes())?,
        AigFault::LeftOut { line, word } => {
            out.extend_from_slice(format!(in alloc; "{line}: left out")?.as_bytes())?;
            add_word(&mut out, word.bytes())?;
        }
        AigFault::OutOfMemory => out.extend_from_slice(b"out of memory")?,
    }
    Ok(out)
}

/// What a text is answered with, as the tables write it.
fn answer(alloc: Global, text: &[u8]) -> Result<Vec<u8>, AllocError>
    requires { length text.now ≤ 1000 }
{
    match read_aig(alloc, text) {
        Ok(models) => shown(alloc, models.models.as_slice()),
        Err(fault) => shown_fault(alloc, &fault),
    }
}

/// Compares what texts are answered with.
fn compare(rt: &impl Abort, alloc: Global, table: &[(&[u8], &[u8])]) -> Result<(), AllocError> {
    for (text, want) in table {
        assert!(rt; text.len() < 1000);
        let out = answer(alloc, *text)?;
        assert_eq!(rt; out.as_slice(), *want, "at {text:?}");
    }
    Ok(())
}

#[test]
fn faults_of_headers(rt: HostRuntime) -> Result<(), Fail> {
    compare(&rt, rt.alloc(), FAULTS_OF_HEADERS)?;
    Ok(())
}

#[test]
fn faults_of_lines(rt: HostRuntime) -> Result<(), Fail> {
    compare(&rt, rt.alloc(), FAULTS_OF_LINES)?;
    Ok(())
}

#[test]
fn models_of_texts(rt: HostRuntime) -> Result<(), Fail> {
    compare(&rt, rt.alloc(), MODELS)?;
    Ok(())
}
