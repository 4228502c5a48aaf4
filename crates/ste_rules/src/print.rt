//! The text of the last step of a derivation; begin with `print_derived`.

ghost use Rattle.std.specs.Prelude.{◌≡◌, ◌<◌, ◌++◌, [], IfOk, All, codes, length, map, slice_index_or};
ghost use Rattle.std.specs.Fmt.{decimal};
ghost use Rattle.std.specs.List.{flat_map};
ghost use Rattle.bool_expr.specs.Tree.{tree_of, all_of};
ghost use Rattle.ste_model.specs.Trees.{quint_tree};
ghost use Rattle.rule_model.specs.Claims.{claim_of};
ghost use Rattle.ste_rules.specs.private.Held.{listed_text};
ghost use Rattle.ste_rules.specs.Text.{derived_text, expr_text, parts_text, signed_text, quint_line, reset_line, sign_text};
ghost use Rattle.bool_expr.specs.declared.token.Sign.TheVariants.{Or, Xor, And};

use crate::proof::Proof;
use bool_expr::Expr;
use net_names::NetNames;
use std::alloc::{AllocError, Global};
use ste_base::Name;
use ste_model::Quint;

/// Puts a number behind a text, in decimal digits.
fn put_number(alloc: Global, text: &mut Vec<u8>, number: u32) -> Result<(), AllocError>
    ensures { IfOk result (λ _. text.new.items ≡ text.old.items ++ decimal number) }
{
    let digits = format!(in alloc; "{number}")?;
    text.extend_from_slice(digits.as_bytes())?;
    Ok(())
}

/// Puts an expression behind a text.
#[cycle(put)]
fn put_expr(text: &mut Vec<u8>, vars: &[Name], expr: &Expr) -> Result<(), AllocError>
    ensures { IfOk result (λ _. text.new.items
        ≡ text.old.items ++ expr_text vars.now (tree_of expr.now)) }
{
    match expr {
        Expr::Const(bit) => {
            text.push(if *bit { b'1' } else { b'0' })?;
            Ok(())
        }
        Expr::Var(variable) => {
            if let Some(name) = vars.get(variable.0 as usize) {
                text.extend_from_slice(name.bytes())?;
            }
            Ok(())
        }
        Expr::Not(part) => {
            text.push(b'!')?;
            put_expr(text, vars, part)
        }
        Expr::All(parts) => put_list(text, vars, b" & ", parts.as_slice()),
        Expr::Odd(parts) => put_list(text, vars, b" ^ ", parts.as_slice()),
        Expr::Any(parts) => put_list(text, vars, b" | ", parts.as_slice()),
    }
}

/// Puts a list of expressions behind a text, in brackets and with a sign between two of them.
#[cycle(put)]
fn put_list(
    text: &mut Vec<u8>,
    vars: &[Name],
    sign: &[u8],
    parts: &[Expr],
) -> Result<(), AllocError>
    ensures { IfOk result (λ _. text.new.items ≡ text.old.items ++ (codes "("
        ++ (listed_text sign.now (map (λ part. expr_text vars.now (tree_of part)) parts.now)
        ++ codes ")"))) }
{
    text.push(b'(')?;
    if let Some((first, rest)) = parts.split_first() {
        put_expr(text, vars, first)?;
        for part in rest {
            text.extend_from_slice(sign)?;
            put_expr(text, vars, part)?;
        }
    }
    text.push(b')')?;
    Ok(())
}

/// Puts two texts behind a text.
fn put_two(text: &mut Vec<u8>, one: &[u8], other: &[u8]) -> Result<(), AllocError>
    ensures { IfOk result (λ _. text.new.items ≡ text.old.items ++ (one.now ++ other.now)) }
{
    text.extend_from_slice(one)?;
    text.extend_from_slice(other)?;
    Ok(())
}

/// Puts the title of a line and the name of a net behind a text.
fn put_front(text: &mut Vec<u8>, title: &[u8], name: &[u8]) -> Result<(), AllocError>
    ensures { IfOk result (λ _. text.new.items
        ≡ text.old.items ++ ((codes "  " ++ title.now) ++ (codes " " ++ name.now))) }
{
    put_two(text, b"  ", title)?;
    put_two(text, b" ", name)
}

/// Puts a word and an expression behind a text.
fn put_worded(text: &mut Vec<u8>, vars: &[Name], word: &[u8], expr: &Expr) -> Result<(), AllocError>
    ensures { IfOk result (λ _. text.new.items
        ≡ text.old.items ++ (word.now ++ expr_text vars.now (tree_of expr.now))) }
{
    text.extend_from_slice(word)?;
    put_expr(text, vars, expr)
}

/// Puts a word and a number behind a text.
fn put_counted(
    alloc: Global,
    text: &mut Vec<u8>,
    word: &[u8],
    number: u32,
) -> Result<(), AllocError>
    ensures { IfOk result (λ _. text.new.items
        ≡ text.old.items ++ (word.now ++ decimal number)) }
{
    text.extend_from_slice(word)?;
    put_number(alloc, text, number)
}

/// Puts the value and the guard of a quintuple behind a text.
fn put_exprs(text: &mut Vec<u8>, vars: &[Name], quint: &Quint) -> Result<(), AllocError>
    ensures { IfOk result (λ _. text.new.items ≡ text.old.items
        ++ ((codes " = " ++ expr_text vars.now (tree_of quint.now.value))
        ++ (codes " when " ++ expr_text vars.now (tree_of quint.now.guard)))) }
{
    put_worded(text, vars, b" = ", &quint.value)?;
    put_worded(text, vars, b" when ", &quint.guard)
}

/// Puts the times of a quintuple behind a text.
fn put_times(alloc: Global, text: &mut Vec<u8>, from: u32, to: u32) -> Result<(), AllocError>
    ensures { IfOk result (λ _. text.new.items ≡ text.old.items
        ++ ((codes " from " ++ decimal from) ++ (codes " to " ++ decimal to))) }
{
    put_counted(alloc, text, b" from ", from)?;
    put_counted(alloc, text, b" to ", to)
}

/// Puts the line of a quintuple behind a text.
fn put_quint(
    alloc: Global,
    text: &mut Vec<u8>,
    title: &[u8],
    names: &NetNames,
    vars: &[Name],
    quint: &Quint,
) -> Result<(), AllocError>
    requires { quint.now.node.0 < length names.now.own }
    ensures { IfOk result (λ _. text.new.items ≡ text.old.items
        ++ quint_line title.now names.now.own vars.now (quint_tree quint.now)) }
{
    put_front(text, title, names.name(quint.node).bytes())?;
    put_exprs(text, vars, quint)?;
    put_times(alloc, text, quint.from, quint.to)?;
    text.push(b'\n')?;
    Ok(())
}

/// Puts the lines of quintuples behind a text.
fn put_quints(
    alloc: Global,
    text: &mut Vec<u8>,
    title: &[u8],
    names: &NetNames,
    vars: &[Name],
    quints: &[Quint],
) -> Result<(), AllocError>
    requires { All (λ quint. quint.node.0 < length names.now.own) quints.now }
    ensures { IfOk result (λ _. text.new.items ≡ text.old.items
        ++ flat_map (quint_line title.now names.now.own vars.now) (map quint_tree quints.now)) }
{
    for quint in quints {
        put_quint(alloc, text, title, names, vars, quint)?;
    }
    Ok(())
}

/// Puts the line of `reset` behind a text, where there is one.
fn put_reset(text: &mut Vec<u8>, reset: bool) -> Result<(), AllocError>
    ensures { IfOk result (λ _. text.new.items ≡ text.old.items ++ reset_line reset) }
{
    if reset {
        text.extend_from_slice(b"  reset\n")?;
    }
    Ok(())
}

/// The lines of a step before its quintuples.
fn head_of(alloc: Global, name: &[u8], reset: bool) -> Result<Vec<u8>, AllocError>
    ensures { IfOk result (λ text. text.items
        ≡ name.now ++ (codes ": derived\n" ++ reset_line reset)) }
{
    let mut text = name.to_vec(alloc)?;
    text.extend_from_slice(b": derived\n")?;
    put_reset(&mut text, reset)?;
    Ok(text)
}

/// The lines of the last step of a derivation: its name, `reset` where it has it, and its antecedent
/// and consequent, over variables of these names. The depth of calls is at most the levels of an
/// expression.
pub fn print_derived(
    alloc: Global,
    names: &NetNames,
    vars: &[Name],
    proof: &Proof,
) -> Result<Vec<u8>, AllocError>
    requires ant { All (λ quint. quint.node.0 < length names.now.own) proof.now.last.ant }
    requires con { All (λ quint. quint.node.0 < length names.now.own) proof.now.last.con }
    ensures { IfOk result (λ text. text.items ≡ derived_text names.now.own vars.now
        proof.now.last.name (claim_of proof.now.last)) }
{
    let mut text = head_of(alloc, proof.last.name.bytes(), proof.last.reset)?;
    put_quints(
        alloc,
        &mut text,
        b"ant",
        names,
        vars,
        proof.last.ant.as_slice(),
    )?;
    put_quints(
        alloc,
        &mut text,
        b"con",
        names,
        vars,
        proof.last.con.as_slice(),
    )?;
    Ok(text)
}
