//! Texts with their models and faults, in tables; begin with `models_of_texts`.

ghost use Rattle.std.specs.Prelude.{◌≤◌, length};

use crate::words::add_word;
use blif_lines::logical_lines;
use blif_syntax::{BlifFault, Item, LatchKind, Model, Models, What, read_models};
use net_core::{Cover, Init, Lit};
use std::alloc::{AllocError, Global};
use std::process::Abort;
use std::test::Fail;
use ste_base::{Items, Name};

/// Texts without a model, with lines outside a model, and with words that are not known or left
/// out; and the fault of each.
const FAULTS_OF_WORDS: &[(&[u8], &[u8])] = &[
    // No model.
    (b"", b"no model"),
    (b"# .model m\n\n", b"no model"),
    (
        b".area 1\n.delay\n.wire_load_slope\n.wire\n.input_arrival\n.default_input_arrival\n.output_required\n.default_output_required\n",
        b"no model",
    ),
    (
        b".input_drive\n.default_input_drive\n.output_load\n.default_output_load\n.max_input_load\n.default_max_input_load\n.attr a b\n.param\n.cname =\n",
        b"no model",
    ),
    // Outside a model.
    (b".inputs a\n.model m", b"1: bad"),
    (b".area\n.outputs", b"2: bad"),
    (b".clock", b"1: bad"),
    (b".names a y\n1 1", b"1: bad"),
    (b".latch a b", b"1: bad"),
    (b".subckt m", b"1: bad"),
    (b".end", b"1: bad"),
    (b"11 1", b"1: bad"),
    (b"1", b"1: bad"),
    (b"word", b"1: bad"),
    (b".model m\n.end\n.end", b"3: bad"),
    (b".model m\n.end\n.inputs a\n.model n", b"3: bad"),
    (b".model m\n.names a y\n.end\n1 1", b"4: bad"),
    // Words that are not known, and words that are left out.
    (b".foo", b"1: unknown .foo"),
    (b".model m\n.end\n.Model n", b"3: unknown .Model"),
    (b".model m\n.area_ 1", b"2: unknown .area_"),
    (b".model m\n.", b"2: unknown ."),
    (b".model m\n.names a y\n.1 1", b"3: unknown .1"),
    (b".gate nand2 A=a O=y", b"1: left out .gate"),
    (b".model m\n.end\n.exdc", b"3: left out .exdc"),
    (b".model m\n.mlatch", b"2: left out .mlatch"),
    (b".model m\n.start_kiss", b"2: left out .start_kiss"),
    (b".model m\n.search f", b"2: left out .search"),
    (b".model m\n.blackbox", b"2: left out .blackbox"),
    (b".model m\n.conn a b", b"2: left out .conn"),
    // Models and their ends.
    (b".model a b", b"1: bad"),
    (b".model m\n.end x", b"2: bad"),
    (b".model m\na b c", b"2: bad"),
];

/// Texts with gates, and the fault of each.
const FAULTS_OF_GATES: &[(&[u8], &[u8])] = &[
    // Gates.
    (b".model m\n.names", b"2: bad"),
    (b".model m\n.names a b y\n1 1", b"3: bad"),
    (b".model m\n.names a b y\n11 1\n111 1", b"4: bad"),
    (b".model m\n.names a b y\n1 \\\n1\n11 1", b"3: bad"),
    (b".model m\n.names a b y\n-\\\n- 1", b"3: bad"),
    (b".model m\n.names a y\n1", b"3: bad"),
    (b".model m\n.names y\n1 1", b"3: bad"),
    (b".model m\n.names y\n-", b"3: bad"),
    (b".model m\n.names y\n11", b"3: bad"),
    (b".model m\n.names a y\n2 1", b"3: bad"),
    (b".model m\n.names a y\nx 1", b"3: bad"),
    (b".model m\n.names a y\n1 -", b"3: bad"),
    (b".model m\n.names a y\n1 2", b"3: bad"),
    (b".model m\n.names a y\n1 11", b"3: bad"),
    (b".model m\n.names a b y\n1 1 1", b"3: bad"),
    (b".model m\n.names a y\n1 1\n0 0", b"4: bad"),
    (b".model m\n.names a y\n1 0\n0 1", b"4: bad"),
    (b".model m\n.names a y\n1 1\n- 1\n.area 3\n0 0", b"6: bad"),
    (b".model m\n1 1", b"2: bad"),
    (b".model m\n.names a y\n1 1\n.latch a b\n0 1", b"5: bad"),
    (b".model m\n.names a y\n.inputs a\n0 1", b"4: bad"),
    (b".model m\n.names a y\n.model n\n0 1", b"4: bad"),
];

/// Texts with latches and with uses of models, and the fault of each.
const FAULTS_OF_LATCHES: &[(&[u8], &[u8])] = &[
    // Latches.
    (b".model m\n.latch", b"2: bad"),
    (b".model m\n.latch a", b"2: bad"),
    (b".model m\n.latch a b 4", b"2: bad"),
    (b".model m\n.latch a b 01", b"2: bad"),
    (b".model m\n.latch a b re", b"2: bad"),
    (b".model m\n.latch a b as", b"2: bad"),
    (b".model m\n.latch a b xx c", b"2: bad"),
    (b".model m\n.latch a b re c 4", b"2: bad"),
    (b".model m\n.latch a b as c 1 1", b"2: bad"),
    (b".model m\n.latch a b as c 9", b"2: left out as"),
    (b".model m\n.latch a b al NIL", b"2: left out al"),
    (b".latch a b ah c", b"1: left out ah"),
    // Uses of models.
    (b".model m\n.subckt", b"2: bad"),
    (b".model m\n.subckt n a", b"2: bad"),
    (b".model m\n.subckt n =a", b"2: bad"),
    (b".model m\n.subckt n f=", b"2: bad"),
    (b".model m\n.subckt n =", b"2: bad"),
    (b".model m\n.subckt n f=a g", b"2: bad"),
    // The first faulty line decides.
    (b".model m\n.end x\n.gate", b"2: bad"),
    (b".model m\n.gate\n.end x\n.foo", b"2: left out .gate"),
    (b".model m\n.foo\n.gate", b"2: unknown .foo"),
    (b"# a\n\n.foo \\\n a\n.bar", b"3: unknown .foo"),
];

/// Texts, and the models of each: the lines of the models, with an empty one behind each model.
const MODELS: &[(&[u8], &[u8])] = &[
    // Models and their ends.
    (b".model m", b"1: model m\n\n"),
    (b".model\n.end", b"1: model \n\n"),
    (
        b".area\n\n.model m\n.end\n.attr a\n.model n\n.end\n.param",
        b"3: model m\n\n6: model n\n\n",
    ),
    (
        b".model a\n.inputs x\n.model b\n.outputs y\n.end\n.model a\n.clock k",
        b"1: model a\n2: inputs x\n\n3: model b\n4: outputs y\n\n6: model a\n7: clock k\n\n",
    ),
    // Lists.
    (
        b".model m\n.inputs a b\n.inputs c \\\n d\n.inputs\n.outputs y y\n.outputs\n.clock\n.clock k .end 1 =\n.outputs a",
        b"1: model m\n2: inputs a b\n3: inputs c d\n5: inputs\n6: outputs y y\n7: outputs\n8: clock\n9: clock k .end 1 =\n10: outputs a\n\n",
    ),
    // Gates.
    (
        b".model m\n.names a b y\n11 1\n.names a y\n0 0\n- 0\n.names a b c d\n.names y\n1\n.names y\n0\n.names y\n1\n1\n.names y\n.end",
        b"1: model m\n2: names a b -> y, 2, on /11\n4: names a -> y, 1, off /0 /-\n7: names a b c -> d, 3, on\n8: names -> y, 0, on /\n10: names -> y, 0, off /\n12: names -> y, 0, on / /\n15: names -> y, 0, on\n\n",
    ),
    (
        b".model m\n.names a b y\n.area 1\n10 1\n.attr x\n.cname y\n01 1\n\n-- 1\n.end",
        b"1: model m\n2: names a b -> y, 2, on /10 /01 /--\n\n",
    ),
    (
        b".model m\n.names a y\n1 \\\n1\n0 \\\n 1",
        b"1: model m\n2: names a -> y, 1, on /1 /0\n\n",
    ),
    (
        b".model m\n.names .area .end .x",
        b"1: model m\n2: names .area .end -> .x, 2, on\n\n",
    ),
    // Latches.
    (
        b".model m\n.latch a b\n.latch a b 0\n.latch a b 1\n.latch a b 2\n.latch a b 3\n.latch as re",
        b"1: model m\n2: latch a b plain none free\n3: latch a b plain none 0\n4: latch a b plain none 1\n5: latch a b plain none free\n6: latch a b plain none free\n7: latch as re plain none free\n\n",
    ),
    (
        b".model m\n.latch a b re c\n.latch a b fe NIL\n.latch a b re c 0\n.latch a b fe c 1\n.latch a b re NIL 2\n.latch a b fe nil 3",
        b"1: model m\n2: latch a b rising c free\n3: latch a b falling none free\n4: latch a b rising c 0\n5: latch a b falling c 1\n6: latch a b rising none free\n7: latch a b falling nil free\n\n",
    ),
    // Uses of models.
    (
        b".model m\n.subckt n\n.subckt n f=a g=b=c h==\n.subckt m a=1 a=1",
        b"1: model m\n2: subckt n\n3: subckt n f<a g<b=c h<=\n4: subckt m a<1 a<1\n\n",
    ),
    // In the manner of Yosys.
    (
        b"# Generated by Yosys\n\n.model toggle\n.inputs clk en\n.outputs q\n.names $false\n.names $true\n1\n.names $undef\n.names en q $0\n10 1\n01 1\n.latch $0 q re clk 2\n.names q $1\n1 1\n.end\n",
        b"3: model toggle\n4: inputs clk en\n5: outputs q\n6: names -> $false, 0, on\n7: names -> $true, 0, on /\n9: names -> $undef, 0, on\n10: names en q -> $0, 2, on /10 /01\n13: latch $0 q rising clk free\n14: names q -> $1, 1, on /1\n\n",
    ),
    // In the manner of ABC.
    (
        b"# Benchmark \"top\" written by ABC on Fri Nov 27 10:00:00 2026\n.model top\n.inputs a b c \\\n d\n.outputs y\n\n.latch          n1          q  0\n.latch          n2          r  2\n\n.names a b n1\n11 1\n.names c d n2\n1- 0\n-1 0\n.names q r y\n0- 1\n-0 1\n.end\n",
        b"2: model top\n3: inputs a b c d\n5: outputs y\n7: latch n1 q plain none 0\n8: latch n2 r plain none free\n10: names a b -> n1, 2, on /11\n12: names c d -> n2, 2, off /1- /-1\n15: names q r -> y, 2, on /0- /-0\n\n",
    ),
];

/// Adds a word and the names behind it, each with a blank before it.
fn add_names(out: &mut Vec<u8>, word: &[u8], names: &Items<Name>) -> Result<(), AllocError> {
    add_word(out, word)?;
    for name in names.as_slice() {
        add_word(out, name.bytes())?;
    }
    Ok(())
}

/// Adds the number of the cover's inputs, where its rows say the bit is 1 or 0, and its rows.
fn add_cover(alloc: Global, out: &mut Vec<u8>, cover: &Cover) -> Result<(), AllocError> {
    let on = if cover.on { "on" } else { "off" };
    out.extend_from_slice(format!(in alloc; ", {}, {on}", cover.inputs)?.as_bytes())?;
    for row in cover.rows.as_slice() {
        add_word(out, b"/")?;
        for literal in row.as_slice() {
            out.push(match literal {
                Lit::Zero => b'0',
                Lit::One => b'1',
                Lit::Any => b'-',
            })?;
        }
    }
    Ok(())
}

/// Adds a gate.
fn add_gate(
    alloc: Global,
    out: &mut Vec<u8>,
    inputs: &Items<Name>,
    output: &Name,
    cover: &Cover,
) -> Result<(), AllocError> {
    add_names(out, b"names", inputs)?;
    add_word(out, b"->")?;
    add_word(out, output.bytes())?;
    add_cover(alloc, out, cover)
}

/// A latch's kind as the tables write it.
fn kind_word(kind: LatchKind) -> &'static [u8] {
    match kind {
        LatchKind::Plain => b"plain",
        LatchKind::Rising => b"rising",
        LatchKind::Falling => b"falling",
    }
}

/// A latch's initial value as the tables write it.
fn init_word(init: Init) -> &'static [u8] {
    match init {
        Init::Zero => b"0",
        Init::One => b"1",
        Init::Free => b"free",
    }
}

/// Adds a latch's kind, control and initial value.
fn add_latch(
    out: &mut Vec<u8>,
    kind: LatchKind,
    control: &Option<Name>,
    init: Init,
) -> Result<(), AllocError> {
    add_word(out, kind_word(kind))?;
    match control {
        Some(control) => add_word(out, control.bytes())?,
        None => add_word(out, b"none")?,
    }
    add_word(out, init_word(init))
}

/// Adds a use of a model.
fn add_use(
    out: &mut Vec<u8>,
    model: &Name,
    formals: &Items<(Name, Name)>,
) -> Result<(), AllocError> {
    add_word(out, b"subckt")?;
    add_word(out, model.bytes())?;
    for binding in formals.as_slice() {
        add_word(out, binding.0.bytes())?;
        out.push(b'<')?;
        out.extend_from_slice(binding.1.bytes())?;
    }
    Ok(())
}

/// Adds what a line says, but for its number.
fn add_what(alloc: Global, out: &mut Vec<u8>, what: &What) -> Result<(), AllocError> {
    match what {
        What::Inputs(names) => add_names(out, b"inputs", names),
        What::Outputs(names) => add_names(out, b"outputs", names),
        What::Clock(names) => add_names(out, b"clock", names),
        What::Names {
            inputs,
            output,
            cover,
        } => add_gate(alloc, out, inputs, output, cover),
        What::Latch {
            input,
            output,
            kind,
            control,
            init,
        } => {
            add_word(out, b"latch")?;
            add_word(out, input.bytes())?;
            add_word(out, output.bytes())?;
            add_latch(out, *kind, control, *init)
        }
        What::Subckt { model, formals } => add_use(out, model, formals),
    }
}

/// Adds what a line says.
fn add_item(alloc: Global, out: &mut Vec<u8>, item: &Item) -> Result<(), AllocError> {
    out.extend_from_slice(format!(in alloc; "{}:", item.line)?.as_bytes())?;
    add_what(alloc, out, &item.what)?;
    Ok(out.push(b'\n')?)
}

/// The models as the table writes them.
fn shown(alloc: Global, models: &[Model]) -> Result<Vec<u8>, AllocError> {
    let mut out = Vec::new(alloc);
    for model in models {
        out.extend_from_slice(format!(in alloc; "{}: model ", model.line)?.as_bytes())?;
        out.extend_from_slice(model.name.bytes())?;
        out.push(b'\n')?;
        for item in model.items.as_slice() {
            add_item(alloc, &mut out, item)?;
        }
        out.push(b'\n')?;
    }
    Ok(out)
}

/// The fault as the table writes it.
fn shown_fault(alloc: Global, fault: &BlifFault) -> Result<Vec<u8>, AllocError> {
    let mut out = Vec::new(alloc);
    match fault {
        BlifFault::BadLine { line } => out.extend_from_slice(format!(in alloc;
            "{line}: bad"
        )?.as_bytes())?,
        BlifFault::UnknownWord { line, word } => {
            out.extend_from_slice(format!(in alloc; "{line}: unknown")?.as_bytes())?;
            add_word(&mut out, word.bytes())?;
        }
        BlifFault::LeftOut { line, word } => {
            out.extend_from_slice(format!(in alloc; "{line}: left out")?.as_bytes())?;
            add_word(&mut out, word.bytes())?;
        }
        BlifFault::NoModel => out.extend_from_slice(b"no model")?,
        BlifFault::OutOfMemory => out.extend_from_slice(b"out of memory")?,
    }
    Ok(out)
}

/// What the lines of a text are answered with, as the tables write it.
#[tactic(auto, using(blif_syntax::proofs::Fit::words_fit))]
fn answer(alloc: Global, text: &[u8]) -> Result<Vec<u8>, AllocError>
    requires { length text.now ≤ 1000 }
{
    let lines = logical_lines(alloc, text)?;
    match read_models(alloc, lines.as_slice()) {
        Ok(models) => shown(alloc, models.models.as_slice()),
        Err(fault) => shown_fault(alloc, &fault),
    }
}

/// Compares what texts are answered with.
fn compare(rt: &impl Abort, alloc: Global, table: &[(&[u8], &[u8])]) -> Result<(), AllocError> {
    for (text, want) in table {
        assert!(rt; text.len() < 1000);
        let out = answer(alloc, *text)?;
        assert_eq!(rt; out.as_slice(), *want, "at {text:?}");
    }
    Ok(())
}

#[test]
fn faults_of_words(rt: HostRuntime) -> Result<(), Fail> {
    compare(&rt, rt.alloc(), FAULTS_OF_WORDS)?;
    Ok(())
}

#[test]
fn faults_of_gates(rt: HostRuntime) -> Result<(), Fail> {
    compare(&rt, rt.alloc(), FAULTS_OF_GATES)?;
    Ok(())
}

#[test]
fn faults_of_latches(rt: HostRuntime) -> Result<(), Fail> {
    compare(&rt, rt.alloc(), FAULTS_OF_LATCHES)?;
    Ok(())
}

#[test]
fn models_of_texts(rt: HostRuntime) -> Result<(), Fail> {
    compare(&rt, rt.alloc(), MODELS)?;
    Ok(())
}
