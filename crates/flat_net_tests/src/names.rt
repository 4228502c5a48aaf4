//! What texts name in a flat net; begin with `texts`.

ghost use Rattle.std.specs.Prelude.{◌≤◌, length};

use blif_lines::logical_lines;
use blif_syntax::read_models;
use flat_net::flatten;
use net_names::NetNames;
use std::alloc::{AllocError, Global};
use std::process::Abort;
use std::test::Fail;
use ste_base::NodeId;

/// Two instances of a model with two of another below each. The top has a signal that is called as
/// a net of its first instance is.
const NESTED: &[u8] = b".model top\n.inputs a 0/n\n.subckt two p=a\n.subckt two p=a\n.end\n\
      .model two\n.inputs p\n.subckt leaf i=p\n.subckt leaf i=p\n.names p n\n1 1\n.end\n\
      .model leaf\n.inputs i\n.names i x\n0 1\n.end\n";

/// Texts, and the number of the net that each names there; nothing where there is none.
const TEXTS: &[(&[u8], &[u8])] = &[
    (b"a", b"0"),
    (b"0/n", b"1"),
    (b"1/n", b"5"),
    (b"0/0/x", b"3"),
    (b"0/1/x", b"4"),
    (b"1/0/x", b"6"),
    (b"1/1/x", b"7"),
    (b"1/1/i", b"0"),
    (b"0/p", b"0"),
    (b"n", b""),
    (b"x", b""),
    (b"2/n", b""),
    (b"0/2/x", b""),
    (b"0/0/n", b""),
    (b"", b""),
];

/// Two instances of a model with two of another below each; the top has signals with slashes in
/// them.
pub const BOUND: &[u8] = b".model top\n.inputs a 0/b 0/0/q 7/x\n.outputs y\n\
      .subckt mid p=a r=m\n.subckt mid p=m r=y\n.end\n\
      .model mid\n.inputs p\n.outputs r s/t\n.subckt leaf i=p o=b\n.subckt leaf i=b o=r\n.end\n\
      .model leaf\n.inputs i\n.outputs o\n.names i x\n1 1\n.names x q\n1 1\n.names q o\n1 1\n";

/// Texts, and the number of the net that each names there.
const BOUND_TEXTS: &[(&[u8], &[u8])] = &[
    // Signals of the top, with a slash in them or not; they hide those of subcircuits.
    (b"a", b"0"),
    (b"0/b", b"1"),
    (b"0/0/q", b"2"),
    (b"7/x", b"3"),
    (b"y", b"4"),
    (b"m", b"5"),
    // Signals of subcircuits: bound formals by their inner names, and others; the first is 6 on, by
    // first mention.
    (b"0/p", b"0"),
    (b"0/r", b"5"),
    (b"1/p", b"5"),
    (b"1/r", b"4"),
    (b"0/s/t", b"6"),
    (b"1/b", b"13"),
    (b"1/s/t", b"12"),
    (b"0/0/x", b"8"),
    (b"0/1/x", b"10"),
    (b"0/1/q", b"11"),
    (b"1/0/x", b"14"),
    (b"1/0/q", b"15"),
    (b"1/1/x", b"16"),
    (b"1/1/q", b"17"),
    // Formals that are bound twice over.
    (b"0/0/i", b"0"),
    (b"0/0/o", b"7"),
    (b"0/1/i", b"7"),
    (b"0/1/o", b"5"),
    (b"1/1/o", b"4"),
];

/// Texts that name nothing there.
const NO_BOUND_TEXTS: &[(&[u8], &[u8])] = &[
    // No signal there, although one elsewhere is called so.
    (b"", b""),
    (b"p", b""),
    (b"x", b""),
    (b"b", b""),
    (b"0/a", b""),
    (b"0/y", b""),
    (b"1/0/q/", b""),
    (b"0/x", b""),
    (b"0/0/s/t", b""),
    (b"1/0/b", b""),
    (b"s/t", b""),
    // No number, or none of a subcircuit.
    (b"/p", b""),
    (b"//p", b""),
    (b"0/", b""),
    (b"0//p", b""),
    (b"0", b""),
    (b"00/p", b""),
    (b"01/p", b""),
    (b"+1/p", b""),
    (b" 1/p", b""),
    (b"1 /p", b""),
    (b"-0/p", b""),
    (b"0x0/p", b""),
    (b"2/p", b""),
    (b"10/p", b""),
    (b"0/2/x", b""),
    (b"0/01/x", b""),
    (b"0/0/0/x", b""),
    (b"7/y", b""),
    (b"18446744073709551615/p", b""),
    (b"18446744073709551616/p", b""),
    (b"18446744073709551617/p", b""),
    (b"100000000000000000000000000000000000000/p", b""),
];

/// The names of the nets of a netlist; None where it is none, or is refused.
#[tactic(auto, using(blif_syntax::proofs::Fit::words_fit))]
fn names_of(alloc: Global, text: &[u8]) -> Result<Option<NetNames>, AllocError>
    requires { length text.now ≤ 67108864 }
{
    let lines = logical_lines(alloc, text)?;
    let Ok(models) = read_models(alloc, lines.as_slice()) else {
        return Ok(None);
    };
    match flatten(alloc, &models) {
        Ok((_net, names)) => Ok(Some(names)),
        Err(_fault) => Ok(None),
    }
}

/// The number of the net that a text names, in decimal digits; nothing where it names none.
fn number_text(alloc: Global, names: &NetNames, text: &[u8]) -> Result<Vec<u8>, AllocError> {
    match names.resolve(text) {
        Some(NodeId(number)) => Ok(format!(in alloc; "{number}")?.into_bytes()),
        None => Ok(Vec::new(alloc)),
    }
}

/// The same of a text behind the first 60 numbers of a path.
fn resolved_behind(alloc: Global, names: &NetNames, behind: &[u8]) -> Result<Vec<u8>, AllocError> {
    let mut text = b"0/".repeat(alloc, 60)?;
    text.extend_from_slice(behind)?;
    number_text(alloc, names, text.as_slice())
}

/// Adds a model that uses the next so often.
fn add_model(
    alloc: Global,
    out: &mut Vec<u8>,
    number: u32,
    next: u32,
    uses: u32,
) -> Result<(), AllocError> {
    out.extend_from_slice(format!(in alloc; ".model m{number}\n")?.as_bytes())?;
    for _ in 0..uses {
        out.extend_from_slice(format!(in alloc; ".subckt m{next}\n")?.as_bytes())?;
    }
    out.extend_from_slice(b".end\n")
}

/// Models that each use the next, the last four of them twice, and below these one with a net: its
/// paths have 64 numbers.
fn deep_text(alloc: Global) -> Result<Vec<u8>, AllocError> {
    let mut out = Vec::new(alloc);
    for number in 0u32..64 {
        add_model(
            alloc,
            &mut out,
            number,
            number + 1,
            if number < 60 { 1 } else { 2 },
        )?;
    }
    out.extend_from_slice(b".model m64\n.names x\n1\n.end\n")?;
    Ok(out)
}

/// Texts behind the first 60 numbers of a path there, and the number of the net that each names;
/// nothing where there is none.
const DEEP_TEXTS: &[(&[u8], &[u8])] = &[
    (b"0/0/0/0/x", b"0"),
    (b"0/0/0/1/x", b"1"),
    (b"0/1/1/0/x", b"6"),
    (b"1/0/0/0/x", b"8"),
    (b"1/1/1/1/x", b"15"),
    (b"1/1/1/x", b""),
    (b"1/1/1/1/0/x", b""),
    (b"1/1/1/2/x", b""),
];

/// Compares what texts behind the first 60 numbers of a path name.
fn compare_deep(rt: &impl Abort, alloc: Global, names: &NetNames) -> Result<(), AllocError> {
    for (behind, want) in DEEP_TEXTS {
        let got = resolved_behind(alloc, names, *behind)?;
        assert_eq!(rt; got.as_slice(), *want, "at {behind:?}");
    }
    Ok(())
}

/// The names of the nets of the deep text.
fn deep_names(alloc: Global) -> Result<Option<NetNames>, AllocError> {
    let netlist = deep_text(alloc)?;
    if netlist.len() > 67_108_864 {
        return Ok(None);
    }
    names_of(alloc, netlist.as_slice())
}

#[test]
fn deepest_texts(rt: HostRuntime) -> Result<(), Fail> {
    let Some(names) = deep_names(rt.alloc())? else {
        return Err(Fail::new("no names"));
    };
    compare_deep(&rt, rt.alloc(), &names)?;
    Ok(())
}

/// Compares the top model's name, and what texts name.
fn compare_texts(
    rt: &impl Abort,
    alloc: Global,
    names: &NetNames,
    texts: &[(&[u8], &[u8])],
) -> Result<(), AllocError> {
    assert_eq!(rt; names.top().bytes(), b"top".as_slice());
    for (text, want) in texts {
        let got = number_text(alloc, names, *text)?;
        assert_eq!(rt; got.as_slice(), *want, "at {text:?}");
    }
    Ok(())
}

#[test]
fn texts(rt: HostRuntime) -> Result<(), Fail> {
    assert!(rt; NESTED.len() <= 67_108_864);
    let Some(names) = names_of(rt.alloc(), NESTED)? else {
        return Err(Fail::new("no names"));
    };
    compare_texts(&rt, rt.alloc(), &names, TEXTS)?;
    Ok(())
}

/// Compares what texts name beside bound formals.
fn compare_bound(rt: &impl Abort, alloc: Global, texts: &[(&[u8], &[u8])]) -> Result<(), Fail> {
    assert!(rt; BOUND.len() <= 67_108_864);
    let Some(names) = names_of(alloc, BOUND)? else {
        return Err(Fail::new("no names"));
    };
    compare_texts(rt, alloc, &names, texts)?;
    Ok(())
}

#[test]
fn texts_beside_bound_formals(rt: HostRuntime) -> Result<(), Fail> {
    compare_bound(&rt, rt.alloc(), BOUND_TEXTS)
}

#[test]
fn texts_that_name_nothing(rt: HostRuntime) -> Result<(), Fail> {
    compare_bound(&rt, rt.alloc(), NO_BOUND_TEXTS)
}
