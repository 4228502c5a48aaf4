//! Netlists with what they are refused for, in one table; begin with `refusals`.

ghost use Rattle.std.specs.Prelude.{◌≤◌, length};

use blif_lines::logical_lines;
use blif_syntax::read_models;
use hierarchy::components::components;
use hierarchy::{NetFault, refuse};
use std::alloc::{AllocError, Global};
use std::test::Fail;
use ste_base::{Items, Name};

/// Netlists, and what each is refused for: nothing, or the kind with the number of the line and the
/// name.
const TABLE: &[(&[u8], &[u8])] = &[
    // One model, and a sound hierarchy.
    (b".model m\n", b"nothing"),
    (
        b".model top\n.inputs a\n.outputs y\n.subckt mid a=a b=a y=m\n.subckt mid a=m b=a y=y\n.end\n\
          .model mid\n.inputs a b\n.outputs y\n.subckt nor2 p=a q=b r=n\n.names n y\n0 1\n.end\n\
          .model nor2\n.inputs p q\n.outputs r\n.names p q r\n00 1\n.end\n",
        b"nothing",
    ),
    // A double model, reachable or not, before every other kind; the first in the file.
    (b".model m\n.end\n.model m\n", b"double model 3 m"),
    (b".model\n.end\n.model a\n.model\n", b"double model 4 "),
    (
        b".model m\n.subckt x\n.subckt m\n.end\n.model a\n.model b\n.model b\n.model a\n",
        b"double model 7 b",
    ),
    // An unknown model, in reachable models alone, and before a recursive one.
    (b".model m\n.subckt x a=b\n", b"unknown model 2 x"),
    (b".model m\n.end\n.model n\n.subckt x\n", b"nothing"),
    (
        b".model m\n.subckt n\n.end\n.model k\n.subckt x\n.end\n.model n\n.subckt y\n.subckt z\n",
        b"unknown model 8 y",
    ),
    (
        b".model m\n.subckt m\n.subckt n\n.end\n.model n\n.subckt x\n",
        b"unknown model 6 x",
    ),
    // A recursive model: the first line whose model leads back, not a line that leads into a
    // circle.
    (b".model m\n.subckt m\n", b"recursive model 2 m"),
    (
        b".model m\n.subckt n\n.end\n.model n\n.subckt k\n.subckt n\n.end\n.model k\n",
        b"recursive model 6 n",
    ),
    (
        b".model m\n.subckt a\n.end\n.model a\n.subckt b\n.end\n.model b\n.subckt c\n.subckt a\n.end\n.model c\n",
        b"recursive model 5 b",
    ),
    (
        b".model m\n.subckt a\n.end\n.model a\n.subckt m\n",
        b"recursive model 2 a",
    ),
    (b".model m\n.end\n.model n\n.subckt n\n", b"nothing"),
    (
        b".model m\n.subckt n z=z\n.end\n.model n\n.subckt n\n",
        b"recursive model 5 n",
    ),
    // A bad formal: none of the model's, or bound twice; those of `.clock` and `.outputs` lines are
    // formals too.
    (
        b".model m\n.subckt n a=x z=y\n.end\n.model n\n.inputs a\n.names z\n",
        b"bad formal 2 z",
    ),
    (
        b".model m\n.subckt n a=x b=x c=x\n.end\n.model n\n.inputs a\n.outputs b\n.clock c\n",
        b"nothing",
    ),
    (
        b".model m\n.subckt n a=x b=x a=y q=z\n.end\n.model n\n.inputs a b\n",
        b"bad formal 2 a",
    ),
    (
        b".model m\n.subckt n a=x q=x a=y\n.end\n.model n\n.inputs a\n",
        b"bad formal 2 q",
    ),
    (
        b".model m\n.subckt k\n.end\n.model n\n.subckt k q=x\n.end\n.model k\n",
        b"nothing",
    ),
    (
        b".model m\n.subckt k\n.subckt n\n.end\n.model n\n.subckt k q=x\n.end\n.model k\n.inputs a\n",
        b"bad formal 6 q",
    ),
    // A missing formal: a word of `.inputs` alone has to be bound; the first such; after every bad
    // formal.
    (
        b".model m\n.subckt n b=x\n.end\n.model n\n.inputs a\n.inputs b c\n.outputs d\n.clock e\n",
        b"missing formal 2 a",
    ),
    (
        b".model m\n.subckt n b=x a=y\n.end\n.model n\n.inputs b b a\n.outputs d\n.clock e\n",
        b"nothing",
    ),
    (
        b".model m\n.subckt n e=x\n.end\n.model n\n.clock e f\n.inputs e\n.outputs f\n",
        b"nothing",
    ),
    (
        b".model m\n.subckt n\n.subckt n b=x\n.end\n.model n\n.outputs a\n.inputs b a\n",
        b"missing formal 2 b",
    ),
    (
        b".model m\n.subckt n\n.subckt n a=x q=y\n.end\n.model n\n.inputs a\n",
        b"bad formal 3 q",
    ),
    (
        b".model m\n.end\n.model k\n.subckt n\n.end\n.model n\n.inputs a\n",
        b"nothing",
    ),
];

/// A kind with a line and a name.
fn line_fault(alloc: Global, kind: &[u8], line: u32, name: &Name) -> Result<Vec<u8>, AllocError> {
    let mut out = kind.to_vec(alloc)?;
    out.extend_from_slice(format!(in alloc; " {line} ")?.as_bytes())?;
    out.extend_from_slice(name.bytes())?;
    Ok(out)
}

/// A fault as the table writes it.
fn shown(alloc: Global, fault: &NetFault) -> Result<Vec<u8>, AllocError> {
    match fault {
        NetFault::DoubleModel { line, name } => line_fault(alloc, b"double model", *line, name),
        NetFault::UnknownModel { line, name } => line_fault(alloc, b"unknown model", *line, name),
        NetFault::Recursive { line, name } => line_fault(alloc, b"recursive model", *line, name),
        NetFault::BadFormal { line, name } => line_fault(alloc, b"bad formal", *line, name),
        NetFault::MissingFormal { line, name } => line_fault(alloc, b"missing formal", *line, name),
        NetFault::GateTooWide { line } => {
            Ok(format!(in alloc; "cover too wide {line}")?.into_bytes())
        }
        NetFault::TooDeep => b"hierarchy too deep".to_vec(alloc),
        NetFault::TooManyNodes => b"too many nodes".to_vec(alloc),
        _ => b"another kind".to_vec(alloc),
    }
}

/// What a text is refused for.
#[tactic(auto, using(blif_syntax::proofs::Fit::words_fit))]
fn refusal(alloc: Global, text: &[u8]) -> Result<Vec<u8>, AllocError>
    requires { length text.now ≤ 67108864 }
{
    let lines = logical_lines(alloc, text)?;
    let Ok(models) = read_models(alloc, lines.as_slice()) else {
        return b"no models".to_vec(alloc);
    };
    match refuse(alloc, &models) {
        Ok(()) => b"nothing".to_vec(alloc),
        Err(fault) => shown(alloc, &fault),
    }
}

#[test]
fn refusals(rt: HostRuntime) -> Result<(), Fail> {
    for (text, want) in TABLE {
        assert!(rt; text.len() <= 67_108_864);
        let got = refusal(rt.alloc(), text)?;
        assert_eq!(rt; got.as_slice(), *want, "at {text:?}");
    }
    Ok(())
}

/// A netlist of one model with one gate: it has so many inputs, and then pairs of inputs. There is
/// a row for each pair, which asks that the inputs and the pair are 1; where there is no pair there
/// is no row.
fn gate_text(alloc: Global, singles: u32, pairs: u32) -> Result<Vec<u8>, AllocError> {
    let mut out = b".model m\n.names".to_vec(alloc)?;
    for _ in 0..singles {
        out.extend_from_slice(b" a")?;
    }
    for _ in 0..pairs {
        out.extend_from_slice(b" b c")?;
    }
    out.extend_from_slice(b" y\n")?;
    for row in 0..pairs {
        for _ in 0..singles {
            out.push(b'1')?;
        }
        for pair in 0..pairs {
            out.extend_from_slice(if pair == row { b"11" } else { b"--" })?;
        }
        out.extend_from_slice(b" 1\n")?;
    }
    Ok(out)
}

#[test]
fn widest_gates(rt: HostRuntime) -> Result<(), Fail> {
    // 15 pairs have 65,535 cases, and each single input before them one more.
    let table: &[(u32, u32, &[u8])] = &[
        (1000, 0, b"nothing"),
        (1001, 0, b"cover too wide 2"),
        (0, 15, b"nothing"),
        (1, 15, b"nothing"),
        (2, 15, b"cover too wide 2"),
        (0, 16, b"cover too wide 2"),
        (970, 15, b"cover too wide 2"),
    ];
    for (singles, pairs, want) in table {
        let text = gate_text(rt.alloc(), *singles, *pairs)?;
        assert!(rt; text.len() <= 67_108_864);
        let got = refusal(rt.alloc(), text.as_slice())?;
        assert_eq!(rt; got.as_slice(), *want, "at {singles} and {pairs}");
    }
    Ok(())
}

/// Adds a text so many times.
fn repeat(out: &mut Vec<u8>, text: &[u8], times: u32) -> Result<(), AllocError> {
    for _ in 0..times {
        out.extend_from_slice(text)?;
    }
    Ok(())
}

/// A netlist with a chain of so many models behind its head: each uses the next so many times. The
/// last has these lines.
fn chain_text(
    alloc: Global,
    head: &[u8],
    models: u32,
    times: u32,
    last: &[u8],
) -> Result<Vec<u8>, AllocError> {
    let mut out = head.to_vec(alloc)?;
    for number in 1..models {
        out.extend_from_slice(format!(in alloc; ".model m{}\n", number - 1)?.as_bytes())?;
        let used = format!(in alloc; ".subckt m{number}\n")?;
        repeat(&mut out, used.as_bytes(), times)?;
        out.extend_from_slice(b".end\n")?;
    }
    out.extend_from_slice(last)?;
    Ok(out)
}

/// Heads, how many models there are and how often each uses the next, the last, and what each text
/// is refused for; the n-th of the models is m(n - 1).
const CHAINS: &[(&[u8], u32, u32, &[u8], &[u8])] = &[
    (b"", 65, 1, b".model m64\n", b"nothing"),
    (
        b"",
        65,
        1,
        b".model m64\n.subckt n\n.end\n.model n\n",
        b"hierarchy too deep",
    ),
    (b".model top\n.end\n", 90, 1, b".model m89\n", b"nothing"),
    (
        b".model top\n.subckt m26\n.end\n",
        90,
        1,
        b".model m89\n",
        b"nothing",
    ),
    (
        b".model top\n.subckt m25\n.end\n",
        90,
        1,
        b".model m89\n",
        b"hierarchy too deep",
    ),
    (
        b".model top\n.subckt m1\n.subckt m0\n.end\n",
        65,
        1,
        b".model m64\n",
        b"hierarchy too deep",
    ),
    // Each other kind comes before.
    (
        b"",
        90,
        1,
        b".model m89\n.subckt m85\n",
        b"recursive model 257 m86",
    ),
    (
        b"",
        6000,
        1,
        b".model m5999\n.subckt m5999\n",
        b"recursive model 17999 m5999",
    ),
    (
        b"",
        90,
        1,
        b".model m89\n.inputs a a\n.end\n.model n\n.inputs b\n",
        b"missing formal 266 a",
    ),
    (
        b"",
        90,
        1,
        b".model m89\n.subckt n z=a\n.end\n.model n\n",
        b"bad formal 269 z",
    ),
    // Too many instances to make one by one: up to 2 to the 65th.
    (b"", 22, 2, b".model m21\n", b"too many nodes"),
    (b"", 20, 2, b".model m19\n", b"nothing"),
    (b"", 64, 2, b".model m63\n", b"too many nodes"),
    (b"", 65, 2, b".model m64\n", b"too many nodes"),
    (b"", 66, 2, b".model m65\n", b"hierarchy too deep"),
    (b".model top\n.end\n", 30, 2, b".model m29\n", b"nothing"),
];

#[test]
fn deepest_hierarchies(rt: HostRuntime) -> Result<(), Fail> {
    for (head, models, times, last, want) in CHAINS {
        let text = chain_text(rt.alloc(), head, *models, *times, last)?;
        assert!(rt; text.len() <= 67_108_864);
        let got = refusal(rt.alloc(), text.as_slice())?;
        assert_eq!(rt;
            got.as_slice(),
            *want,
            "at {head:?}, {models}, {times} and {last:?}"
        );
    }
    Ok(())
}

/// A netlist whose first model has these lines, and then so many uses of one with so many outputs.
fn nets_text(alloc: Global, top: &[u8], uses: u32, outputs: u32) -> Result<Vec<u8>, AllocError> {
    let mut out = b".model m\n".to_vec(alloc)?;
    out.extend_from_slice(top)?;
    repeat(&mut out, b".subckt n\n", uses)?;
    out.extend_from_slice(b".end\n.model n\n.outputs")?;
    for number in 0..outputs {
        out.extend_from_slice(format!(in alloc; " s{number}")?.as_bytes())?;
    }
    Ok(out)
}

#[test]
fn most_nets(rt: HostRuntime) -> Result<(), Fail> {
    // A bound formal makes no net, and its actual is a net of the first model.
    let table: &[(&[u8], u32, u32, &[u8])] = &[
        (b"", 1000, 200, b"nothing"),
        (b".inputs a\n", 1000, 200, b"too many nodes"),
        (b".subckt n s0=a\n", 999, 200, b"nothing"),
        (b".subckt n s0=a s1=a\n.inputs c\n", 999, 200, b"nothing"),
        (
            b".subckt n s0=a s1=b\n.inputs c\n",
            999,
            200,
            b"too many nodes",
        ),
        (b"", 10, 20_000, b"nothing"),
        (b"", 10, 20_001, b"too many nodes"),
        (b".end\n.model k\n", 2000, 200, b"nothing"),
    ];
    for (top, uses, outputs, want) in table {
        let text = nets_text(rt.alloc(), top, *uses, *outputs)?;
        assert!(rt; text.len() <= 67_108_864);
        let got = refusal(rt.alloc(), text.as_slice())?;
        assert_eq!(rt; got.as_slice(), *want, "at {top:?}, {uses} and {outputs}");
    }
    Ok(())
}

/// A netlist whose first model has so many words that are signals, and then so many uses of one
/// with so many such words.
fn size_text(alloc: Global, top: u32, uses: u32, words: u32) -> Result<Vec<u8>, AllocError> {
    let mut out = b".model m\n.outputs".to_vec(alloc)?;
    repeat(&mut out, b" a", top)?;
    out.extend_from_slice(b"\n")?;
    repeat(&mut out, b".subckt n\n", uses)?;
    out.extend_from_slice(b".end\n.model n\n.outputs")?;
    repeat(&mut out, b" a", words)?;
    Ok(out)
}

#[test]
fn largest_sizes(rt: HostRuntime) -> Result<(), Fail> {
    let table: &[(u32, u32, u32, &[u8])] = &[
        (3999, 999, 3999, b"nothing"),
        (4000, 999, 3999, b"too many nodes"),
        (0, 1000, 3998, b"nothing"),
        (0, 1000, 4000, b"too many nodes"),
    ];
    for (top, uses, words, want) in table {
        let text = size_text(rt.alloc(), *top, *uses, *words)?;
        assert!(rt; text.len() <= 67_108_864);
        let got = refusal(rt.alloc(), text.as_slice())?;
        assert_eq!(rt; got.as_slice(), *want, "at {top}, {uses} and {words}");
    }
    Ok(())
}

/// What each model uses, and the numbers of their components.
const GRAPHS: &[(&[&[usize]], &[usize])] = &[
    (&[&[]], &[0]),
    (&[&[0]], &[0]),
    (&[&[1], &[2], &[1, 3], &[]], &[2, 1, 1, 0]),
    (&[&[1, 2], &[0], &[3], &[2]], &[1, 1, 0, 0]),
    (&[&[1], &[2], &[0]], &[0, 0, 0]),
    (&[&[], &[0, 2], &[1]], &[0, 1, 1]),
    (&[&[1], &[0, 2], &[3], &[4], &[3]], &[2, 2, 1, 0, 0]),
    (&[&[1], &[2], &[3], &[1, 0]], &[0, 0, 0, 0]),
    (&[&[1, 1, 2], &[2, 2], &[]], &[2, 1, 0]),
    (&[&[3], &[2], &[1, 0], &[3]], &[1, 2, 2, 0]),
];

/// What each model uses, as lists.
fn graph_of(alloc: Global, uses: &[&[usize]]) -> Result<Vec<Items<usize>>, AllocError> {
    let mut graph = Vec::new(alloc);
    for used in uses {
        graph.push(used.to_vec(alloc)?.into())?;
    }
    Ok(graph)
}

#[test]
fn components_of_graphs(rt: HostRuntime) -> Result<(), Fail> {
    for (uses, want) in GRAPHS {
        let graph = graph_of(rt.alloc(), uses)?;
        let got = components(rt.alloc(), graph.as_slice())?;
        assert_eq!(rt; got.as_slice(), *want, "at {uses:?}");
    }
    Ok(())
}
