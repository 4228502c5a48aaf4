//! How functions make one; begin with `Connective`.

ghost use Rattle.std.specs.Prelude.{◌≡◌, Bool, IfSome, IfNone};
ghost use Rattle.dd_nodes.specs.Operators.{operator_bit};
ghost use Rattle.dd_ops.specs.declared.operands.Operands.{Operands};
ghost use Rattle.dd_ops.specs.private.Recursion.{AreRefs, AreHalves, IsOpen, IsSettled, BitRule, and_rule, or_rule, xor_rule, choice_rule, IsPair};

use crate::halves::{halves_of_pair, halves_of_three};
use crate::operands::{Halves, Operands};
use crate::settled::{settled_and, settled_choice, settled_or, settled_xor};
use dd_nodes::{Nodes, Operator, Ref};

/// How the functions of operands make one. The recursion takes a connective as a type, so that each
/// has a body of its own.
pub trait Connective {
    ghost rule: { BitRule };

    ghost takes: { Operands → Type 0 };

    /// The operator that has this rule.
    fn operator() -> Operator
        ensures { (a b c : Bool) → rule a b c ≡ operator_bit result a b c };

    /// The result where the operands settle it without a look at their nodes.
    fn settled_result(x: Operands) -> Option<Ref>
        requires { takes x }
        ensures some { IfSome result (λ r. IsSettled rule x r) }
        ensures none { IfNone result (IsOpen x) };

    /// The operands at the first variable that any of them reads.
    fn halves<N: Nodes>(nodes: &mut N, x: Operands) -> Halves
        requires takes { takes x }
        requires refs { AreRefs (N.store nodes.old) x }
        requires open { IsOpen x }
        ensures halves { AreHalves (N.store nodes.old) x result }
        ensures lo { takes result.lo }
        ensures hi { takes result.hi }
        ensures store { N.store nodes.new ≡ N.store nodes.old };
}

/// 1 where the first and the second are 1.
pub struct And;

/// 1 where the first or the second is 1.
pub struct Or;

/// 1 where the first and the second differ.
pub struct Xor;

/// The second where the first is 1, and the third where it is 0.
pub struct Choice;

impl Connective for And {
    ghost rule = { and_rule };

    ghost takes = { IsPair };

    fn operator() -> Operator {
        Operator::And
    }

    fn settled_result(x: Operands) -> Option<Ref> {
        settled_and(x)
    }

    fn halves<N: Nodes>(nodes: &mut N, x: Operands) -> Halves {
        halves_of_pair(nodes, x)
    }
}

impl Connective for Or {
    ghost rule = { or_rule };

    ghost takes = { IsPair };

    fn operator() -> Operator {
        Operator::Or
    }

    fn settled_result(x: Operands) -> Option<Ref> {
        settled_or(x)
    }

    fn halves<N: Nodes>(nodes: &mut N, x: Operands) -> Halves {
        halves_of_pair(nodes, x)
    }
}

impl Connective for Xor {
    ghost rule = { xor_rule };

    ghost takes = { IsPair };

    fn operator() -> Operator {
        Operator::Xor
    }

    fn settled_result(x: Operands) -> Option<Ref> {
        settled_xor(x)
    }

    fn halves<N: Nodes>(nodes: &mut N, x: Operands) -> Halves {
        halves_of_pair(nodes, x)
    }
}

impl Connective for Choice {
    ghost rule = { choice_rule };

    ghost takes = { λ x. Unit {0} };

    fn operator() -> Operator {
        Operator::Choice
    }

    fn settled_result(x: Operands) -> Option<Ref> {
        settled_choice(x)
    }

    fn halves<N: Nodes>(nodes: &mut N, x: Operands) -> Halves {
        halves_of_three(nodes, x)
    }
}
