//! The expressions of a clause; begin with `exprs_of`.

ghost use Rattle.std.specs.Prelude.{◌≡◌, ◌<◌, ◌^◌, length};
ghost use Rattle.blif_lines.specs.Laws.{text_of_words};
ghost use Rattle.assert_syntax.specs.Parses.{Parse, IsParse};
ghost use Rattle.assert_syntax.specs.private.Drafts.{both_read};
ghost use Rattle.assert_syntax.specs.Reads.{IsRead, IsClauseRead};
ghost use Rattle.assert_syntax.specs.Held.{guard_held, clause_held};

use crate::fault::TaskFault;
use crate::form::{Clause, Guard, Span};
use crate::words::spaced;
use bool_expr::{Expr, ExprFault, Variables, read_expr_over};
use std::alloc::Global;
use ste_base::Name;

/// Reads the text of an expression over these variables.
#[tactic(auto, using(crate::proofs::ReadBoth::read_as))]
fn text_read(alloc: Global, text: &[u8], vars: &Variables) -> Result<Expr, ExprFault>
    requires { length vars.now < 2 ^ 32 }
    ensures { (parse : Parse) → IsParse parse → IsRead vars.now (parse text.now) result }
{
    read_expr_over(alloc, text, vars)
}

/// Reads the expression of some words, whose text has a blank between two of them. One word is read
/// where it lies.
#[tactic(auto, using(crate::proofs::ReadBoth::no_memory))]
pub fn words_read(alloc: Global, words: &[Name], vars: &Variables) -> Result<Expr, ExprFault>
    requires { length vars.now < 2 ^ 32 }
    ensures { (parse : Parse) → IsParse parse →
        IsRead vars.now (parse (text_of_words words.now)) result }
{
    if let [word] = words {
        return text_read(alloc, word.bytes(), vars);
    }
    let text = spaced(alloc, words)?;
    text_read(alloc, text.as_slice(), vars)
}

/// Reads a guard.
fn guard_read(alloc: Global, guard: &Guard, vars: &Variables) -> Result<Expr, ExprFault>
    requires { length vars.now < 2 ^ 32 }
    ensures { (parse : Parse) → IsParse parse →
        IsRead vars.now (parse (guard_held guard.now)) result }
{
    match guard {
        Guard::Absent => text_read(alloc, b"1", vars),
        Guard::Words(words) => words_read(alloc, words, vars),
    }
}

/// The expressions of a clause, or its fault, by what its value and its guard are read as.
fn both_read(
    line: u32,
    value: Result<Expr, ExprFault>,
    guard: Result<Expr, ExprFault>,
    span: Span,
) -> Result<(Expr, Expr), TaskFault>
    ensures { result ≡ both_read line value guard span }
{
    match (value, guard) {
        (Err(ExprFault::OutOfMemory), _) => Err(TaskFault::OutOfMemory),
        (_, Err(ExprFault::OutOfMemory)) => Err(TaskFault::OutOfMemory),
        (Err(ExprFault::BadExpr), _) => Err(TaskFault::BadLine { line }),
        (_, Err(ExprFault::BadExpr)) => Err(TaskFault::BadLine { line }),
        (Err(ExprFault::TooDeep), _) => Err(TaskFault::TooDeep { line }),
        (_, Err(ExprFault::TooDeep)) => Err(TaskFault::TooDeep { line }),
        (Err(ExprFault::UnknownVar { name }), _) => Err(TaskFault::UnknownVar { line, name }),
        (_, Err(ExprFault::UnknownVar { name })) => Err(TaskFault::UnknownVar { line, name }),
        (Ok(value), Ok(guard)) => match span {
            Span::Late => Err(TaskFault::TooMany { line }),
            _ => Ok((value, guard)),
        },
    }
}

/// The expressions of the value and of the guard of a clause on the line of this number.
#[tactic(auto, using(crate::proofs::ReadBoth::clause_read))]
pub fn exprs_of(
    alloc: Global,
    line: u32,
    vars: &Variables,
    clause: &Clause,
) -> Result<(Expr, Expr), TaskFault>
    requires { length vars.now < 2 ^ 32 }
    ensures { (parse : Parse) → IsParse parse →
        IsClauseRead vars.now (parse (clause_held clause.now).value)
        (parse (clause_held clause.now).guard) clause.now.span line result }
{
    let value = words_read(alloc, clause.value, vars);
    let guard = guard_read(alloc, &clause.guard, vars);
    both_read(line, value, guard, clause.span)
}
