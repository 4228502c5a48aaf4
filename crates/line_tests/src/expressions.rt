//! Texts with their trees and faults, in tables; begin with `trees_of_texts`.

use bool_expr::{Expr, ExprFault, Variables, copy_expr, read_expr, read_expr_over, value};
use std::alloc::{AllocError, Global};
use std::process::Abort;
use std::test::Fail;
use ste_base::Name;

/// The declared variables, by their numbers from 0. The last is declared a second time.
const VARS: &[&[u8]] = &[b"a", b"b", b"c", b"_", b"p0", b"when1", b"to_", b"a"];

/// Texts by the rules, and what is read from each.
const TREES: &[(&[u8], &[u8])] = &[
    // Each rule alone.
    (b"0", b"0"),
    (b"1", b"1"),
    (b"a", b"v0"),
    (b"!a", b"!v0"),
    (b"(a)", b"v0"),
    (b"a & b", b"(& v0 v1)"),
    (b"a ^ b", b"(^ v0 v1)"),
    (b"a | b", b"(| v0 v1)"),
    (b"a&b&c", b"(& v0 v1 v2)"),
    (b"a^b^c", b"(^ v0 v1 v2)"),
    (b"a|b|c", b"(| v0 v1 v2)"),
    // Two signs.
    (b"a|b^c", b"(| v0 (^ v1 v2))"),
    (b"a^b|c", b"(| (^ v0 v1) v2)"),
    (b"a|b&c", b"(| v0 (& v1 v2))"),
    (b"a&b|c", b"(| (& v0 v1) v2)"),
    (b"a^b&c", b"(^ v0 (& v1 v2))"),
    (b"a&b^c", b"(^ (& v0 v1) v2)"),
    (b"a&b|b&c", b"(| (& v0 v1) (& v1 v2))"),
    (b"a^b&c|a", b"(| (^ v0 (& v1 v2)) v0)"),
    (b"a|b^c&a", b"(| v0 (^ v1 (& v2 v0)))"),
    // A sign and `!`.
    (b"!a&b", b"(& !v0 v1)"),
    (b"a&!b", b"(& v0 !v1)"),
    (b"!a^b", b"(^ !v0 v1)"),
    (b"a|!b", b"(| v0 !v1)"),
    (b"!!a", b"!!v0"),
    // Brackets.
    (b"((a))", b"v0"),
    (b"(a|b)|c", b"(| (| v0 v1) v2)"),
    (b"a|(b|c)", b"(| v0 (| v1 v2))"),
    (b"a^(b^c)^a", b"(^ v0 (^ v1 v2) v0)"),
    (b"(a&b)&c", b"(& (& v0 v1) v2)"),
    (b"(a|b)&c", b"(& (| v0 v1) v2)"),
    (b"a&(b^c)", b"(& v0 (^ v1 v2))"),
    (b"!(a|b)", b"!(| v0 v1)"),
    (b"!(a)&(!b)", b"(& !v0 !v1)"),
    (b"(0)^((1))", b"(^ 0 1)"),
    (b"a|b&c^!(a|1)", b"(| v0 (^ (& v1 v2) !(| v0 1)))"),
];

/// Texts with names, constants and blanks, and what is read from each.
const NAMES_AND_BLANKS: &[(&[u8], &[u8])] = &[
    // Names and constants.
    (b"_", b"v3"),
    (b"p0", b"v4"),
    (b"when1", b"v5"),
    (b"to_", b"v6"),
    (b"p0&_|to_", b"(| (& v4 v3) v6)"),
    (b"when", b"bad"),
    (b"from", b"bad"),
    (b"to", b"bad"),
    (b"a & to", b"bad"),
    (b"From", b"unknown From"),
    (b"a0", b"unknown a0"),
    (b"_0", b"unknown _0"),
    (b"0p", b"bad"),
    (b"0a", b"bad"),
    (b"01", b"bad"),
    (b"2", b"bad"),
    (b"p 0", b"bad"),
    (b"a b", b"bad"),
    // Blanks.
    (b" 0", b"0"),
    (b"1\t", b"1"),
    (b" b", b"v1"),
    (b" \t\ra\r\t ", b"v0"),
    (b"\t! ( a | \rb ) & 1 ", b"(& !(| v0 v1) 1)"),
    (b"a\n|b", b"bad"),
    (b"a\x0b|b", b"bad"),
    (b"", b"bad"),
    (b" \t", b"bad"),
];

/// Texts that are no expressions, or have an unknown variable, and what is read from each.
const NO_EXPRESSIONS: &[(&[u8], &[u8])] = &[
    // What is no expression.
    (b"(", b"bad"),
    (b")", b"bad"),
    (b"()", b"bad"),
    (b"a)", b"bad"),
    (b"(a", b"bad"),
    (b"(a))", b"bad"),
    (b"!", b"bad"),
    (b"a!", b"bad"),
    (b"a!b", b"bad"),
    (b"&a", b"bad"),
    (b"a|", b"bad"),
    (b"a||b", b"bad"),
    (b"a&^b", b"bad"),
    (b"(a|)", b"bad"),
    (b"(a)(b)", b"bad"),
    (b"a(b)", b"bad"),
    (b"(a)b", b"bad"),
    (b"~a", b"bad"),
    (b"a\xff", b"bad"),
    // The first unknown variable.
    (b"x", b"unknown x"),
    (b"y|x", b"unknown y"),
    (b"a&(b|x)^y", b"unknown x"),
    (b"x|", b"bad"),
    (b"x|2", b"bad"),
];

/// A text, and what is read from each front of it, the empty one first.
const FRONTED: &[u8] = b"!(a|b)&p0^1";

const FRONTS: &[&[u8]] = &[
    b"bad",
    b"bad",
    b"bad",
    b"bad",
    b"bad",
    b"bad",
    b"!(| v0 v1)",
    b"bad",
    b"unknown p",
    b"(& !(| v0 v1) v4)",
    b"bad",
    b"(^ (& !(| v0 v1) v4) 1)",
];

/// Texts in three parts, the first and the last of which stand so often, and how what is read
/// begins.
const DEEP: &[(&[u8], usize, &[u8], &[u8], usize, &[u8])] = &[
    (b"!", 100, b"a", b"", 0, b"!"),
    (b"!", 101, b"a", b"", 0, b"deep"),
    (b"(", 100, b"a", b")", 100, b"v0"),
    (b"(", 101, b"a", b")", 101, b"deep"),
    (b"!(", 50, b"a", b")", 50, b"!"),
    (b"!(", 50, b"!a", b")", 50, b"deep"),
    (b"(!", 50, b"(a)", b")", 50, b"deep"),
    (b"(", 101, b"a", b")", 100, b"bad"),
    (b"(", 101, b"a", b")", 102, b"bad"),
    (b"(", 101, b"", b")", 101, b"bad"),
    (b"!", 101, b"", b"", 0, b"bad"),
    (b"!", 101, b"x", b"", 0, b"deep"),
    (b"!", 100, b"x", b"", 0, b"unknown x"),
    (b"a|", 200, b"a", b"", 0, b"(|"),
    (b"(a)&", 200, b"a", b"", 0, b"(&"),
    (b"!a^", 200, b"a", b"", 0, b"(^"),
    (b"", 0, b"(a)|", b"!", 101, b"bad"),
];

fn vars(alloc: Global) -> Result<Vec<Name>, AllocError> {
    let mut vars = Vec::new(alloc);
    for name in VARS {
        vars.push(Name::from_bytes(alloc, name)?)?;
    }
    Ok(vars)
}

/// Writes an expression as the table does.
fn write_expr(out: &mut Vec<u8>, alloc: Global, expr: &Expr) -> Result<(), AllocError> {
    let (sign, parts) = match expr {
        Expr::Const(bit) => {
            return Ok(out.push(if *bit { b'1' } else { b'0' })?);
        }
        Expr::Var(variable) => {
            let text = format!(in alloc; "v{}", variable.0)?;
            return out.extend_from_slice(text.as_bytes());
        }
        Expr::Not(part) => {
            out.push(b'!')?;
            return write_expr(out, alloc, part);
        }
        Expr::All(parts) => (b'&', parts),
        Expr::Odd(parts) => (b'^', parts),
        Expr::Any(parts) => (b'|', parts),
    };
    out.push(b'(')?;
    out.push(sign)?;
    for part in parts {
        out.push(b' ')?;
        write_expr(out, alloc, part)?;
    }
    Ok(out.push(b')')?)
}

/// What is read from a text, as the table writes it.
fn shown(alloc: Global, text: &[u8]) -> Result<Vec<u8>, AllocError> {
    let mut out = Vec::new(alloc);
    let vars = vars(alloc)?;
    if vars.len() > 100 {
        return Ok(out);
    }
    match read_expr(alloc, text, &vars) {
        Ok(expr) => write_expr(&mut out, alloc, &copy_expr(alloc, &expr)?)?,
        Err(ExprFault::BadExpr) => out.extend_from_slice(b"bad")?,
        Err(ExprFault::TooDeep) => out.extend_from_slice(b"deep")?,
        Err(ExprFault::UnknownVar { name }) => {
            out.extend_from_slice(b"unknown ")?;
            out.extend_from_slice(name.bytes())?;
        }
        Err(ExprFault::OutOfMemory) => out.extend_from_slice(b"out of memory")?,
    }
    Ok(out)
}

/// Adds a text so often.
fn add(out: &mut Vec<u8>, text: &[u8], count: usize) -> Result<(), AllocError> {
    for _ in 0..count {
        out.extend_from_slice(text)?;
    }
    Ok(())
}

/// Compares what is read from texts.
fn compare(rt: &impl Abort, alloc: Global, table: &[(&[u8], &[u8])]) -> Result<(), AllocError> {
    for (text, want) in table {
        let out = shown(alloc, *text)?;
        assert_eq!(rt; out.as_slice(), *want, "at {text:?}");
    }
    Ok(())
}

#[test]
fn trees_of_texts(rt: HostRuntime) -> Result<(), Fail> {
    compare(&rt, rt.alloc(), TREES)?;
    Ok(())
}

#[test]
fn names_and_blanks(rt: HostRuntime) -> Result<(), Fail> {
    compare(&rt, rt.alloc(), NAMES_AND_BLANKS)?;
    Ok(())
}

#[test]
fn texts_that_are_no_expressions(rt: HostRuntime) -> Result<(), Fail> {
    compare(&rt, rt.alloc(), NO_EXPRESSIONS)?;
    Ok(())
}

#[test]
fn fronts_of_a_text(rt: HostRuntime) -> Result<(), Fail> {
    for (end, want) in FRONTS.iter().enumerate() {
        assert!(rt; end <= FRONTED.len());
        let out = shown(rt.alloc(), &FRONTED[..end])?;
        assert_eq!(rt; out.as_slice(), *want, "at {end}");
    }
    Ok(())
}

/// What is read from a text in three parts, the first and the last of which stand so often.
fn shown_deep(
    alloc: Global,
    front: (&[u8], usize),
    middle: &[u8],
    back: (&[u8], usize),
) -> Result<Vec<u8>, AllocError> {
    let mut text = Vec::new(alloc);
    add(&mut text, front.0, front.1)?;
    text.extend_from_slice(middle)?;
    add(&mut text, back.0, back.1)?;
    shown(alloc, &text)
}

#[test]
fn deep_texts(rt: HostRuntime) -> Result<(), Fail> {
    for (front, fronts, middle, back, backs, want) in DEEP {
        let out = shown_deep(rt.alloc(), (front, *fronts), middle, (back, *backs))?;
        assert!(rt;
            out.starts_with(want),
            "at {front:?} {fronts} {middle:?} {backs}"
        );
    }
    Ok(())
}

/// The expression of a text over the variables.
fn expr_of(alloc: Global, text: &[u8]) -> Result<Expr, Fail> {
    let vars = vars(alloc)?;
    if vars.len() > 100 {
        return Err("too many variables".into());
    }
    Ok(read_expr(alloc, text, &vars)?)
}

/// Compares an expression's values with those that were worked out by hand.
fn compare_values(rt: &impl Abort, expr: &Expr) {
    let rows: &[(&[bool], bool)] = &[
        (&[false, false, false, false], false),
        (&[true, false, false, false], true),
        (&[true, true, false, false], false),
        (&[false, false, true, false], true),
        (&[false, false, true, true], false),
        (&[true, true, true, true], true),
        (&[], false),
    ];
    for (bits, want) in rows {
        assert_eq!(rt; value(expr, bits), *want, "at {bits:?}");
    }
}

#[test]
fn values_of_a_text(rt: HostRuntime) -> Result<(), Fail> {
    let expr = expr_of(rt.alloc(), b"a ^ b ^ c & !_ | a & b & c")?;
    compare_values(&rt, &expr);
    Ok(())
}

/// The variables, put one by one.
fn variables(alloc: Global) -> Result<Variables, AllocError> {
    let mut variables = Variables::new(alloc);
    for name in VARS {
        variables.push(&Name::from_bytes(alloc, name)?)?;
    }
    Ok(variables)
}

/// Whether a name is that of one of the variables.
fn contains(alloc: Global, variables: &Variables, name: &[u8]) -> Result<bool, AllocError> {
    let name = Name::from_bytes(alloc, name)?;
    Ok(variables.contains(&name))
}

/// What is read from a text over the variables, as the table writes it; nothing where it is no
/// expression.
fn shown_over(alloc: Global, variables: &Variables, text: &[u8]) -> Result<Vec<u8>, AllocError> {
    let mut out = Vec::new(alloc);
    if variables.names().len() > 100 {
        return Ok(out);
    }
    if let Ok(expr) = read_expr_over(alloc, text, variables) {
        write_expr(&mut out, alloc, &expr)?;
    }
    Ok(out)
}

/// Compares what is answered for the variables.
fn compare_variables(
    rt: &impl Abort,
    alloc: Global,
    variables: &Variables,
) -> Result<(), AllocError> {
    let names = variables.names();
    assert_eq!(rt; names.len(), VARS.len());
    assert!(rt;
        names
            .iter()
            .zip(VARS)
            .all(|(name, want)| name.bytes() == *want)
    );
    assert!(rt; contains(alloc, variables, b"to_")?);
    assert!(rt; !contains(alloc, variables, b"to")?);
    let out = shown_over(alloc, variables, b"to_ & a")?;
    assert_eq!(rt; out.as_slice(), b"(& v6 v0)".as_slice());
    Ok(())
}

#[test]
fn variables_one_by_one(rt: HostRuntime) -> Result<(), Fail> {
    let variables = variables(rt.alloc())?;
    compare_variables(&rt, rt.alloc(), &variables)?;
    Ok(())
}

#[test]
fn no_variables(rt: HostRuntime) {
    let none = Variables::new(rt.alloc());
    let expr = read_expr_over(rt.alloc(), b"0 & a", &none);
    assert!(rt; matches!(expr, Err(ExprFault::UnknownVar { .. })));
}
