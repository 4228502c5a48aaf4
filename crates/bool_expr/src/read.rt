//! From a text to an expression; begin with `read_expr`.

ghost use Rattle.std.specs.Prelude.{◌≡◌, ◌<◌, ◌^◌, ◌∷◌, [], IfOk, IfSome, length};
ghost use Rattle.bool_expr.specs.Grammar.{Expression};
ghost use Rattle.bool_expr.specs.Read.{Spells, IsExprAnswer, HasCause};
ghost use Rattle.bool_expr.specs.Tokens.{tokens_of};
ghost use Rattle.bool_expr.specs.private.Held.{token_of};
ghost use Rattle.bool_expr.specs.Tree.{IsFull, bit, tree_of};

use crate::build::expr_of;
use crate::expr::Expr;
use crate::fault::ExprFault;
use crate::scan::nesting;
use crate::token::{Token, next_token};
use crate::vars::{Variables, variable_of};
use std::alloc::Global;
use ste_base::Name;

/// The greatest nesting of an expression that is read.
pub const MAX_NESTING: u8 = 100;

/// The token of a text of one token, where no blank stands behind it.
fn only_token(text: &[u8]) -> Option<Token<'_>>
    ensures { IfSome result (λ token. tokens_of text.now ≡ token_of token ∷ []) }
{
    let (token, rest) = next_token(text)?;
    if rest.is_empty() { Some(token) } else { None }
}

/// A constant.
fn constant(value: bool) -> Expr
    ensures { tree_of result ≡ bit value }
{
    Expr::Const(value)
}

/// What a text of one token is read as, where this is a constant or a variable. Of a constant it
/// takes no memory.
fn single(alloc: Global, text: &[u8], variables: &Variables) -> Option<Result<Expr, ExprFault>>
    requires { length variables.now < 2 ^ 32 }
    ensures exact { IfSome result (λ answer.
        (d : Expression) → Spells d text.now → IsExprAnswer variables.now d answer) }
    ensures cause { IfSome result (λ answer. HasCause variables.now text.now answer) }
{
    match only_token(text)? {
        Token::Const(value) => Some(Ok(constant(value))),
        Token::Name(word) => Some(variable_of(alloc, variables, word)),
        _ => None,
    }
}

/// Reads a Boolean expression over variables that are declared.
///
/// `BadExpr` comes exactly where the text is no expression, at any nesting. Otherwise `TooDeep`
/// comes exactly where it is nested above 100, and otherwise `UnknownVar` exactly where a variable
/// is not declared, with the first such in the text. `OutOfMemory` may come at any text. No call
/// depth grows with the text. Each list of the expression has two or more parts. The time is that
/// of the text, however many variables there are.
pub fn read_expr_over(alloc: Global, text: &[u8], variables: &Variables) -> Result<Expr, ExprFault>
    requires { length variables.now < 2 ^ 32 }
    ensures exact { (d : Expression) → Spells d text.now → IsExprAnswer variables.now d result }
    ensures cause { HasCause variables.now text.now result }
    ensures full { IfOk result (λ expr. IsFull (tree_of expr)) }
{
    if let Some(answer) = single(alloc, text, variables) {
        return answer;
    }
    let Some(depth) = nesting(alloc, text)? else {
        return Err(ExprFault::BadExpr);
    };
    if depth > MAX_NESTING {
        return Err(ExprFault::TooDeep);
    }
    expr_of(alloc, text, variables)
}

/// Reads a Boolean expression over the variables of these names, as `read_expr_over` does.
pub fn read_expr(alloc: Global, text: &[u8], vars: &[Name]) -> Result<Expr, ExprFault>
    requires { length vars.now < 2 ^ 32 }
    ensures exact { (d : Expression) → Spells d text.now → IsExprAnswer vars.now d result }
    ensures cause { HasCause vars.now text.now result }
    ensures full { IfOk result (λ expr. IsFull (tree_of expr)) }
{
    read_expr_over(alloc, text, &Variables::of(alloc, vars)?)
}
