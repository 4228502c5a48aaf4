//! A step with an expression for a variable; begin with `special_step`.

ghost use Rattle.std.specs.Prelude.{◌≡◌, ◌-◌, map, nat_le, ◌&&◌, IfOk};
ghost use Rattle.std.specs.List.{list_all};
ghost use Rattle.bool_expr.specs.Tree.{tree_of, all_of};
ghost use Rattle.ste_model.specs.Trees.{quint_tree};
ghost use Rattle.rule_model.specs.Rules.{substitute, substitute_all, substitute_in};
ghost use Rattle.ste_rules.specs.Sizes.{tree_items, list_items, tree_levels, most_levels, quints_items, quint_fits, claim_fits};
ghost use Rattle.ste_rules.specs.Steps.{special_claim};
ghost use Rattle.ste_rules.specs.private.Held.{step_claim};

use crate::sizes::{ABOVE_ITEMS, MAX_LEVELS, MAX_TIME, items_left, levels_fit};
use crate::step::Step;
use bool_expr::{Expr, copy_expr};
use std::alloc::{AllocError, Global};
use ste_base::Items;
use ste_model::Quint;

/// What is left of a number when the items of an expression, with another one for a variable, are
/// taken from it. Nothing is built.
#[cycle(items)]
fn items_left_with(expr: &Expr, x: u32, by: &Expr, left: u32) -> u32
    ensures { result ≡ left - tree_items (substitute x (tree_of by.now) (tree_of expr.now)) }
{
    if left == 0 {
        return 0;
    }
    match expr {
        Expr::Const(_) => left - 1,
        Expr::Var(variable) => {
            if variable.0 == x {
                items_left(by, left)
            } else {
                left - 1
            }
        }
        Expr::Not(part) => items_left_with(part, x, by, left - 1),
        Expr::All(parts) => parts_left_with(parts.as_slice(), x, by, left),
        Expr::Odd(parts) => parts_left_with(parts.as_slice(), x, by, left),
        Expr::Any(parts) => parts_left_with(parts.as_slice(), x, by, left),
    }
}

/// The same of a list of expressions with a sign between two of them.
#[cycle(items)]
fn parts_left_with(parts: &[Expr], x: u32, by: &Expr, left: u32) -> u32
    ensures { result ≡ left - list_items (substitute_all x (tree_of by.now)
        (all_of (map tree_of parts.now))) }
{
    let Some((first, rest)) = parts.split_first() else {
        return left;
    };
    let mut left = items_left_with(first, x, by, left);
    for part in rest {
        left = items_left_with(part, x, by, left.saturating_sub(1));
    }
    left
}

/// Whether an expression, with another one for a variable, has at most so many levels. Nothing is
/// built.
#[cycle(levels)]
fn levels_fit_with(expr: &Expr, x: u32, by: &Expr, most: u32) -> bool
    ensures { result
        ≡ nat_le (tree_levels (substitute x (tree_of by.now) (tree_of expr.now))) most }
{
    if most == 0 {
        return false;
    }
    match expr {
        Expr::Const(_) => true,
        Expr::Var(variable) => variable.0 != x || levels_fit(by, most),
        Expr::Not(part) => levels_fit_with(part, x, by, most - 1),
        Expr::All(parts) => parts_fit_with(parts.as_slice(), x, by, most - 1),
        Expr::Odd(parts) => parts_fit_with(parts.as_slice(), x, by, most - 1),
        Expr::Any(parts) => parts_fit_with(parts.as_slice(), x, by, most - 1),
    }
}

/// The same of each expression of a list.
#[cycle(levels)]
fn parts_fit_with(parts: &[Expr], x: u32, by: &Expr, most: u32) -> bool
    ensures { result ≡ nat_le (most_levels (substitute_all x (tree_of by.now)
        (all_of (map tree_of parts.now)))) most }
{
    for part in parts {
        if !levels_fit_with(part, x, by, most) {
            return false;
        }
    }
    true
}

/// Whether a quintuple with an expression for a variable has no time that is too late and not too
/// many levels.
fn quint_fits_with(quint: &Quint, x: u32, by: &Expr) -> bool
    ensures { result ≡ quint_fits (substitute_in x (tree_of by.now) (quint_tree quint.now)) }
{
    levels_fit_with(&quint.guard, x, by, MAX_LEVELS)
        && levels_fit_with(&quint.value, x, by, MAX_LEVELS)
        && quint.from <= MAX_TIME
        && quint.to <= MAX_TIME
}

/// The same of each quintuple of a list.
fn each_fits_with(quints: &[Quint], x: u32, by: &Expr) -> bool
    ensures { result ≡ list_all (λ quint.
        quint_fits (substitute_in x (tree_of by.now) (quint_tree quint))) quints.now }
{
    quints.iter().all(|quint| quint_fits_with(quint, x, by))
}

/// The same of each quintuple of a list, by their trees.
fn quints_fit_with(quints: &[Quint], x: u32, by: &Expr) -> bool
    ensures { result ≡ list_all quint_fits
        (map (substitute_in x (tree_of by.now)) (map quint_tree quints.now)) }
{
    each_fits_with(quints, x, by)
}

/// What is left of a number when the items of quintuples, with an expression for a variable, are
/// taken from it.
fn quints_left_with(quints: &[Quint], x: u32, by: &Expr, left: u32) -> u32
    ensures { result ≡ left - quints_items
        (map (substitute_in x (tree_of by.now)) (map quint_tree quints.now)) }
{
    let mut left = left;
    for quint in quints {
        left = items_left_with(
            &quint.value,
            x,
            by,
            items_left_with(&quint.guard, x, by, left),
        );
    }
    left
}

/// Whether a step with an expression for a variable is not too large. Items are counted first, so
/// that the rest goes over few of them.
#[tactic(auto, using(crate::proofs::Counts::few_items_first))]
pub fn special_fits(step: &Step, x: u32, by: &Expr) -> bool
    ensures { result ≡ claim_fits (special_claim x (tree_of by.now) (step_claim step.now)) }
{
    quints_left_with(
        step.con.as_slice(),
        x,
        by,
        quints_left_with(step.ant.as_slice(), x, by, ABOVE_ITEMS),
    ) > 0
        && quints_fit_with(step.ant.as_slice(), x, by)
        && quints_fit_with(step.con.as_slice(), x, by)
}

/// An expression with another one for a variable, everywhere at once.
#[cycle(special)]
fn special_expr(alloc: Global, expr: &Expr, x: u32, by: &Expr) -> Result<Expr, AllocError>
    ensures { IfOk result (λ made. tree_of made
        ≡ substitute x (tree_of by.now) (tree_of expr.now)) }
{
    match expr {
        Expr::Const(bit) => Ok(Expr::Const(*bit)),
        Expr::Var(variable) => {
            if variable.0 == x {
                copy_expr(alloc, by)
            } else {
                Ok(Expr::Var(*variable))
            }
        }
        Expr::Not(part) => Ok(Expr::Not(Box::new(alloc, special_expr(alloc, part, x, by)?)?)),
        Expr::All(parts) => Ok(Expr::All(special_parts(alloc, parts.as_slice(), x, by)?)),
        Expr::Odd(parts) => Ok(Expr::Odd(special_parts(alloc, parts.as_slice(), x, by)?)),
        Expr::Any(parts) => Ok(Expr::Any(special_parts(alloc, parts.as_slice(), x, by)?)),
    }
}

/// The same of each expression of a list.
#[cycle(special)]
fn special_parts(alloc: Global, parts: &[Expr], x: u32, by: &Expr) -> Result<Vec<Expr>, AllocError>
    ensures { IfOk result (λ made. all_of (map tree_of made.items)
        ≡ substitute_all x (tree_of by.now) (all_of (map tree_of parts.now))) }
{
    let mut made = Vec::with_capacity(alloc, parts.len())?;
    for part in parts {
        made.push(special_expr(alloc, part, x, by)?)?;
    }
    Ok(made)
}

/// A quintuple with an expression for a variable.
fn special_quint(alloc: Global, quint: &Quint, x: u32, by: &Expr) -> Result<Quint, AllocError>
    ensures { IfOk result (λ made. quint_tree made
        ≡ substitute_in x (tree_of by.now) (quint_tree quint.now)) }
{
    Ok(Quint {
        guard: special_expr(alloc, &quint.guard, x, by)?,
        node: quint.node,
        value: special_expr(alloc, &quint.value, x, by)?,
        from: quint.from,
        to: quint.to,
    })
}

/// Quintuples with an expression for a variable.
fn special_quints(
    alloc: Global,
    quints: &[Quint],
    x: u32,
    by: &Expr,
) -> Result<Items<Quint>, AllocError>
    ensures { IfOk result (λ made. map quint_tree made
        ≡ map (substitute_in x (tree_of by.now)) (map quint_tree quints.now)) }
{
    let mut made = Items::new(alloc);
    for quint in quints {
        made.push(special_quint(alloc, quint, x, by)?)?;
    }
    Ok(made)
}

/// A step with an expression for a variable, everywhere at once.
pub fn special_step(alloc: Global, step: &Step, x: u32, by: &Expr) -> Result<Step, AllocError>
    ensures { IfOk result (λ made. step_claim made
        ≡ special_claim x (tree_of by.now) (step_claim step.now)) }
{
    Ok(Step {
        reset: step.reset,
        ant: special_quints(alloc, step.ant.as_slice(), x, by)?,
        con: special_quints(alloc, step.con.as_slice(), x, by)?,
    })
}
