//! Which quintuples cover others; begin with `is_cut`.

ghost use Rattle.std.specs.Prelude.{◌≡◌, map, ◌&&◌, length, nat_eq};
ghost use Rattle.std.specs.List.{list_all, list_any};
ghost use Rattle.bool_expr.specs.Tree.{tree_of, all_of};
ghost use Rattle.ste_model.specs.Trees.{quint_tree};
ghost use Rattle.ste_rules.specs.Covers.{is_same_tree, are_same_trees, covers, is_covered, are_covered};
ghost use Rattle.ste_rules.specs.Steps.{is_cut};
ghost use Rattle.ste_rules.specs.private.Held.{step_claim};

use crate::step::Step;
use bool_expr::Expr;
use ste_model::Quint;

/// Whether two expressions have the same tree.
#[cycle(same)]
fn is_same_expr(one: &Expr, other: &Expr) -> bool
    ensures { result ≡ is_same_tree (tree_of one.now) (tree_of other.now) }
{
    match (one, other) {
        (Expr::Const(a), Expr::Const(b)) => *a == *b,
        (Expr::Var(a), Expr::Var(b)) => a.0 == b.0,
        (Expr::Not(a), Expr::Not(b)) => is_same_expr(a, b),
        (Expr::All(a), Expr::All(b)) => are_same_parts(a.as_slice(), b.as_slice()),
        (Expr::Odd(a), Expr::Odd(b)) => are_same_parts(a.as_slice(), b.as_slice()),
        (Expr::Any(a), Expr::Any(b)) => are_same_parts(a.as_slice(), b.as_slice()),
        _ => false,
    }
}

/// The same of each two expressions of two lists.
#[cycle(same)]
fn are_same_parts(ones: &[Expr], others: &[Expr]) -> bool
    ensures { result ≡ are_same_trees (all_of (map tree_of ones.now))
        (all_of (map tree_of others.now)) }
{
    let mut left = others;
    for one in ones {
        let Some((other, rest)) = left.split_first() else {
            return false;
        };
        if !is_same_expr(one, other) {
            return false;
        }
        left = rest;
    }
    left.is_empty()
}

/// Whether the first quintuple says the same as the second, of at least its times.
fn covers(other: &Quint, quint: &Quint) -> bool
    ensures { result ≡ covers (quint_tree other.now) (quint_tree quint.now) }
{
    other.node.0 == quint.node.0
        && other.from <= quint.from
        && quint.to <= other.to
        && is_same_expr(&other.value, &quint.value)
        && is_same_expr(&other.guard, &quint.guard)
}

/// Whether one of these quintuples covers another.
fn one_covers(quints: &[Quint], quint: &Quint) -> bool
    ensures { result ≡ list_any (λ other. covers (quint_tree other) (quint_tree quint.now))
        quints.now }
{
    quints.iter().any(|other| covers(other, quint))
}

/// Whether one of these quintuples covers another, by their trees.
fn some_covers(quints: &[Quint], quint: &Quint) -> bool
    ensures { result ≡ list_any (λ other. covers other (quint_tree quint.now))
        (map quint_tree quints.now) }
{
    one_covers(quints, quint)
}

/// Whether a quintuple has no time, or is covered by one of these or of those.
fn is_covered(these: &[Quint], those: &[Quint], quint: &Quint) -> bool
    ensures { result ≡ is_covered (map quint_tree these.now) (map quint_tree those.now)
        (quint_tree quint.now) }
{
    quint.from == quint.to || some_covers(these, quint) || some_covers(those, quint)
}

/// Whether each quintuple is covered by one of these or of those.
fn are_covered(these: &[Quint], those: &[Quint], quints: &[Quint]) -> bool
    ensures { result ≡ list_all (λ quint. is_covered (map quint_tree these.now)
        (map quint_tree those.now) (quint_tree quint)) quints.now }
{
    quints.iter().all(|quint| is_covered(these, those, quint))
}

/// Whether the antecedent of the second step is covered by what the first one claims.
pub fn is_cut(one: &Step, other: &Step) -> bool
    ensures { result ≡ is_cut (step_claim one.now) (step_claim other.now) }
{
    are_covered(one.ant.as_slice(), one.con.as_slice(), other.ant.as_slice())
}
