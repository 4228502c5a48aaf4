//! The tree of an expression, token by token; begin with `expr_of`.

ghost use Rattle.std.specs.Prelude.{◌≡◌, ◌<◌, ◌^◌, ◌∷◌, [], IfOk, IfErr, None, length, map, ◌++◌};
ghost use Rattle.bool_expr.specs.Tokens.{tokens_of, negation};
ghost use Rattle.bool_expr.specs.Tree.{tree_of, tree_of_chain};
ghost use Rattle.bool_expr.specs.Read.{number_in, place_by, first_unknown};
ghost use Rattle.bool_expr.specs.private.Held.{token_of, IsCause};
ghost use Rattle.bool_expr.specs.private.Build.{bracket_of, brackets_of, nothing, behind_signs, with_factor, behind_closing, with_sign, tree_in_bracket, turn, build_from, build_start};

use crate::expr::Expr;
use crate::fault::ExprFault;
use crate::token::{Sign, Token, next_token};
use crate::vars::{Variables, variable_of};
use std::alloc::{AllocError, Global};
use std::collections::VecDeque;

/// What stands in a bracket so far: the number of `!` before the next factor, and the parts of the
/// chains that are open.
#[derive(Drop)]
pub struct Inner {
    pub signs: usize,
    pub any: Vec<Expr>,
    pub odd: Vec<Expr>,
    pub all: Vec<Expr>,
}

/// What stands in the innermost open bracket, and in those round it, from inside to outside.
#[derive(Drop)]
pub struct Build {
    pub inner: Inner,
    pub outer: VecDeque<Inner>,
}

/// The expression that a chain is: its only part, or the list of its parts.
fn chain(sign: Sign, mut parts: Vec<Expr>) -> Expr
    ensures { tree_of result ≡ tree_of_chain sign (map tree_of parts.items) }
{
    if parts.len() == 1
        && let Some(only) = parts.pop()
    {
        return only;
    }
    match sign {
        Sign::Or => Expr::Any(parts),
        Sign::Xor => Expr::Odd(parts),
        Sign::And => Expr::All(parts),
    }
}

/// The expression behind so many `!`.
#[tactic(auto, using(crate::proofs::Parts::one_sign))]
fn behind_signs(alloc: Global, signs: usize, expr: Expr) -> Result<Expr, AllocError>
    ensures { IfOk result (λ whole. tree_of whole ≡ behind_signs signs (tree_of expr)) }
{
    let mut whole = expr;
    let mut left = signs;
    while left > 0 {
        whole = Expr::Not(Box::new(alloc, whole)?);
        left -= 1;
    }
    Ok(whole)
}

/// The expression that a chain is with this last part. Where that is the only one it takes no
/// memory.
fn chain_to(sign: Sign, mut parts: Vec<Expr>, last: Expr) -> Result<Expr, AllocError>
    ensures { IfOk result (λ whole. tree_of whole
        ≡ tree_of_chain sign (map tree_of parts.items ++ tree_of last ∷ [])) }
{
    if parts.is_empty() {
        return Ok(last);
    }
    parts.push(last)?;
    Ok(chain(sign, parts))
}

/// The parts of a chain of `^`, with the chain of `&` that is open.
fn odd_parts(mut odd: Vec<Expr>, all: Vec<Expr>) -> Result<Vec<Expr>, AllocError>
    ensures { IfOk result (λ parts. map tree_of parts.items ≡ map tree_of odd.items
        ++ tree_of_chain Sign.And (map tree_of all.items) ∷ []) }
{
    odd.push(chain(Sign::And, all))?;
    Ok(odd)
}

/// The last part of a chain of `|`: the chains of `^` and `&` that are open.
fn last_part(odd: Vec<Expr>, all: Vec<Expr>) -> Result<Expr, AllocError>
    ensures { IfOk result (λ part. tree_of part ≡ tree_of_chain Sign.Xor (map tree_of odd.items
        ++ tree_of_chain Sign.And (map tree_of all.items) ∷ [])) }
{
    chain_to(Sign::Xor, odd, chain(Sign::And, all))
}

/// The parts of a chain of `|`, with the chains of `^` and `&` that are open.
fn any_parts(mut any: Vec<Expr>, odd: Vec<Expr>, all: Vec<Expr>) -> Result<Vec<Expr>, AllocError>
    ensures { IfOk result (λ parts. map tree_of parts.items ≡ map tree_of any.items
        ++ tree_of_chain Sign.Xor (map tree_of odd.items
        ++ tree_of_chain Sign.And (map tree_of all.items) ∷ []) ∷ []) }
{
    any.push(last_part(odd, all)?)?;
    Ok(any)
}

impl Inner {
    /// An empty bracket.
    fn new(alloc: Global) -> Inner
        ensures { bracket_of result ≡ nothing }
    {
        Inner {
            signs: 0,
            any: Vec::new(alloc),
            odd: Vec::new(alloc),
            all: Vec::new(alloc),
        }
    }

    /// Behind one more factor.
    fn with_factor(self, alloc: Global, part: Expr) -> Result<Inner, AllocError>
        ensures { IfOk result (λ inner. bracket_of inner ≡ with_factor (tree_of part)
            (bracket_of self)) }
    {
        let Inner {
            signs,
            any,
            odd,
            mut all,
        } = self;
        all.push(behind_signs(alloc, signs, part)?)?;
        Ok(Inner {
            signs: 0,
            any,
            odd,
            all,
        })
    }

    /// Behind a sign.
    fn with_sign(self, alloc: Global, sign: Sign) -> Result<Inner, AllocError>
        ensures { IfOk result (λ inner. bracket_of inner ≡ with_sign sign (bracket_of self)) }
    {
        let Inner {
            signs: _,
            any,
            odd,
            all,
        } = self;
        match sign {
            Sign::Or => Ok(Inner {
                signs: 0,
                any: any_parts(any, odd, all)?,
                odd: Vec::new(alloc),
                all: Vec::new(alloc),
            }),
            Sign::Xor => Ok(Inner {
                signs: 0,
                any,
                odd: odd_parts(odd, all)?,
                all: Vec::new(alloc),
            }),
            Sign::And => Ok(Inner {
                signs: 0,
                any,
                odd,
                all,
            }),
        }
    }

    /// The tree of the expression in the bracket.
    fn tree_in_bracket(self) -> Result<Expr, AllocError>
        ensures { IfOk result (λ expr. tree_of expr ≡ tree_in_bracket (bracket_of self)) }
    {
        let Inner {
            signs: _,
            any,
            odd,
            all,
        } = self;
        chain_to(Sign::Or, any, last_part(odd, all)?)
    }
}

impl Build {
    /// Before the first token.
    fn new(alloc: Global) -> Build
        ensures { brackets_of result ≡ build_start }
    {
        Build {
            inner: Inner::new(alloc),
            outer: VecDeque::new(alloc),
        }
    }

    /// Behind one more factor.
    fn with_factor(self, alloc: Global, part: Expr) -> Result<Build, AllocError>
        ensures { IfOk result (λ build. brackets_of build
            ≡ record (brackets_of self)
            { inner = with_factor (tree_of part) (bracket_of self.inner) }) }
    {
        let Build { inner, outer } = self;
        Ok(Build {
            inner: inner.with_factor(alloc, part)?,
            outer,
        })
    }

    /// Behind an opening bracket.
    fn open(self, alloc: Global) -> Result<Build, AllocError>
        ensures { IfOk result (λ build. brackets_of build
            ≡ record {
              inner = nothing;
              outer = bracket_of self.inner ∷
                  map bracket_of self.outer.items;
            }) }
    {
        let Build { inner, mut outer } = self;
        outer.push_front(inner)?;
        Ok(Build {
            inner: Inner::new(alloc),
            outer,
        })
    }

    /// Behind a closing bracket.
    fn close(self, alloc: Global) -> Result<Build, AllocError>
        ensures { IfOk result (λ build. brackets_of build
            ≡ behind_closing (brackets_of self) (map bracket_of self.outer.items)) }
    {
        let Build { inner, mut outer } = self;
        let Some(around) = outer.pop_front() else {
            return Ok(Build { inner, outer });
        };
        Ok(Build {
            inner: around.with_factor(alloc, inner.tree_in_bracket()?)?,
            outer,
        })
    }

    /// Behind one more `!`.
    fn negate(self) -> Build
        requires signs { self.inner.signs < 2 ^ 63 }
        ensures { brackets_of result ≡ turn (λ _. 0) (brackets_of self) negation }
    {
        let Build { mut inner, outer } = self;
        inner.signs += 1;
        Build { inner, outer }
    }

    /// Behind one more token.
    fn turn(
        self,
        alloc: Global,
        variables: &Variables,
        token: Token<'_>,
    ) -> Result<Build, ExprFault>
        requires signs { self.inner.signs < 2 ^ 63 }
        requires vars { length variables.now < 2 ^ 32 }
        ensures ok { IfOk result (λ build. brackets_of build
            ≡ turn (place_by (number_in variables.now)) (brackets_of self) (token_of token.entry)) }
        ensures known { IfOk result (λ _.
            first_unknown (number_in variables.now) (token_of token.entry ∷ []) ≡ None) }
        ensures err { IfErr result (λ fault.
            IsCause (number_in variables.now) (token_of token.entry ∷ []) fault) }
    {
        match token {
            Token::Sign(sign) => {
                let Build { inner, outer } = self;
                Ok(Build {
                    inner: inner.with_sign(alloc, sign)?,
                    outer,
                })
            }
            Token::Not => Ok(self.negate()),
            Token::Open => Ok(self.open(alloc)?),
            Token::Close => Ok(self.close(alloc)?),
            Token::Const(bit) => Ok(self.with_factor(alloc, Expr::Const(bit))?),
            Token::Name(word) => Ok(self.with_factor(alloc, variable_of(alloc, variables, word)?)?),
            Token::Wrong => Ok(self),
        }
    }
}

/// The expression that a text spells, where it spells one, and its variables are declared.
#[tactic(auto, using(crate::proofs::Turns::turn_signs, crate::proofs::Turns::first_known))]
pub fn expr_of(alloc: Global, text: &[u8], variables: &Variables) -> Result<Expr, ExprFault>
    requires { length variables.now < 2 ^ 32 }
    ensures ok { IfOk result (λ expr. tree_of expr
        ≡ build_from (place_by (number_in variables.now)) build_start (tokens_of text.now)) }
    ensures known { IfOk result (λ _. first_unknown (number_in variables.now) (tokens_of text.now)
        ≡ None) }
    ensures err { IfErr result (λ fault. IsCause (number_in variables.now)
        (tokens_of text.now) fault) }
{
    let mut build = Build::new(alloc);
    let mut rest = text;
    while let Some((token, more)) = next_token(rest) {
        build = build.turn(alloc, variables, token)?;
        rest = more;
    }
    Ok(build.inner.tree_in_bracket()?)
}
