//! How large a step is; begin with `step_fits`.

ghost use Rattle.std.specs.Prelude.{◌≡◌, ◌-◌, map, nat_le, ◌&&◌};
ghost use Rattle.std.specs.List.{list_all};
ghost use Rattle.bool_expr.specs.Tree.{tree_of, all_of};
ghost use Rattle.ste_model.specs.Trees.{quint_tree};
ghost use Rattle.ste_rules.specs.Sizes.{tree_items, list_items, tree_levels, most_levels, quints_items, quint_fits, claim_fits};
ghost use Rattle.ste_rules.specs.private.Held.{step_claim};

use crate::step::Step;
use bool_expr::Expr;
use ste_model::Quint;

/// The greatest time of a step.
pub const MAX_TIME: u32 = 100_000;

/// The most levels of an expression of a step.
pub const MAX_LEVELS: u32 = 1_000;

/// One more than the most items of a step.
pub const ABOVE_ITEMS: u32 = 20_001;

/// What is left of a number when the items of an expression are taken from it.
#[cycle(items)]
pub fn items_left(expr: &Expr, left: u32) -> u32
    ensures { result ≡ left - tree_items (tree_of expr.now) }
{
    if left == 0 {
        return 0;
    }
    match expr {
        Expr::Const(_) | Expr::Var(_) => left - 1,
        Expr::Not(part) => items_left(part, left - 1),
        Expr::All(parts) => parts_left(parts.as_slice(), left),
        Expr::Odd(parts) => parts_left(parts.as_slice(), left),
        Expr::Any(parts) => parts_left(parts.as_slice(), left),
    }
}

/// The same of a list of expressions with a sign between two of them.
#[cycle(items)]
fn parts_left(parts: &[Expr], left: u32) -> u32
    ensures { result ≡ left - list_items (all_of (map tree_of parts.now)) }
{
    let Some((first, rest)) = parts.split_first() else {
        return left;
    };
    let mut left = items_left(first, left);
    for part in rest {
        left = items_left(part, left.saturating_sub(1));
    }
    left
}

/// Whether an expression has at most so many levels.
#[cycle(levels)]
pub fn levels_fit(expr: &Expr, most: u32) -> bool
    ensures { result ≡ nat_le (tree_levels (tree_of expr.now)) most }
{
    if most == 0 {
        return false;
    }
    match expr {
        Expr::Const(_) | Expr::Var(_) => true,
        Expr::Not(part) => levels_fit(part, most - 1),
        Expr::All(parts) => parts_fit(parts.as_slice(), most - 1),
        Expr::Odd(parts) => parts_fit(parts.as_slice(), most - 1),
        Expr::Any(parts) => parts_fit(parts.as_slice(), most - 1),
    }
}

/// Whether each expression has at most so many levels.
#[cycle(levels)]
fn parts_fit(parts: &[Expr], most: u32) -> bool
    ensures { result ≡ nat_le (most_levels (all_of (map tree_of parts.now))) most }
{
    for part in parts {
        if !levels_fit(part, most) {
            return false;
        }
    }
    true
}

/// Whether a quintuple has no time that is too late and not too many levels.
pub fn quint_fits(quint: &Quint) -> bool
    ensures { result ≡ quint_fits (quint_tree quint.now) }
{
    levels_fit(&quint.guard, MAX_LEVELS)
        && levels_fit(&quint.value, MAX_LEVELS)
        && quint.from <= MAX_TIME
        && quint.to <= MAX_TIME
}

/// Whether each quintuple has no time that is too late and not too many levels.
fn quints_fit(quints: &[Quint]) -> bool
    ensures { result ≡ list_all (λ quint. quint_fits (quint_tree quint)) quints.now }
{
    quints.iter().all(|quint| quint_fits(quint))
}

/// What is left of a number when the items of quintuples are taken from it.
fn quints_left(quints: &[Quint], left: u32) -> u32
    ensures { result ≡ left - quints_items (map quint_tree quints.now) }
{
    let mut left = left;
    for quint in quints {
        left = items_left(&quint.value, items_left(&quint.guard, left));
    }
    left
}

/// Whether a step is not too large.
#[tactic(auto, using(crate::proofs::Counts::few_items, crate::proofs::Exprs::all_fit))]
pub fn step_fits(step: &Step) -> bool
    ensures { result ≡ claim_fits (step_claim step.now) }
{
    quints_fit(step.ant.as_slice())
        && quints_fit(step.con.as_slice())
        && quints_left(
            step.con.as_slice(),
            quints_left(step.ant.as_slice(), ABOVE_ITEMS),
        ) > 0
}
