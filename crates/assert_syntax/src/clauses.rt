//! What the words of an `.ant` or `.con` line say; begin with `clause_of`.

ghost use Rattle.std.specs.Prelude.{◌≡◌, length, take, drop};
ghost use Rattle.blif_lines.specs.Laws.{text_of_words};
ghost use Rattle.assert_syntax.specs.Forms.{span_between, span_of, expression_length, clause_with, guarded_form, valued_form, clause_of};
ghost use Rattle.assert_syntax.specs.Held.{guard_held, form_held};

use crate::form::{Clause, Form, Guard, Moment, Side, Span};
use crate::words::{expression_end, is, moment_of};
use ste_base::Name;

/// The times from one moment to another.
fn span_between(from: Moment, to: Moment) -> Option<Span>
    ensures { result ≡ span_between from to }
{
    match (from, to) {
        (Moment::At(from), Moment::At(to)) => {
            if from <= to {
                Some(Span::During(from, to))
            } else {
                None
            }
        }
        (Moment::Never, _) => None,
        (_, Moment::Never) => None,
        (_, _) => Some(Span::Late),
    }
}

/// The times that end a line.
pub fn span_of(words: &[Name]) -> Option<Span>
    ensures { result ≡ span_of words.now }
{
    match words {
        [] => Some(Span::Absent),
        [from, first, to, last] => {
            if is(from.bytes(), "from") {
                if is(to.bytes(), "to") {
                    span_between(moment_of(first.bytes()), moment_of(last.bytes()))
                } else {
                    None
                }
            } else {
                None
            }
        }
        _ => None,
    }
}

/// The words up to the first that ends an expression, or to the end of the line, and the words from
/// there on.
fn split_at_end(words: &[Name]) -> (&[Name], &[Name])
    ensures front { result.0.now ≡ take (expression_length words.now) words.now }
    ensures back { result.1.now ≡ drop (expression_length words.now) words.now }
{
    match expression_end(words) {
        Some(at) => (&words[..at], &words[at..]),
        None => (words, &words[words.len()..]),
    }
}

/// A clause, where its line ends in times that have their form.
fn clause_with<'a>(
    side: Side,
    node: &'a Name,
    value: &'a [Name],
    guard: Guard<'a>,
    span: Option<Span>,
) -> Form<'a>
    ensures { form_held result
        ≡ clause_with side node.now (text_of_words value.now) (guard_held guard.entry) span }
{
    match span {
        Some(span) => Form::Clause(Clause {
            side,
            node,
            value,
            guard,
            span,
        }),
        None => Form::Wrong,
    }
}

/// A clause with a guard, by the words behind `when`.
fn guarded_form<'a>(side: Side, node: &'a Name, value: &'a [Name], words: &'a [Name]) -> Form<'a>
    ensures { form_held result ≡ guarded_form side node.now (text_of_words value.now) words.now }
{
    let (guard, rest) = split_at_end(words);
    clause_with(side, node, value, Guard::Words(guard), span_of(rest))
}

/// A clause by the words behind its value.
fn valued_form<'a>(side: Side, node: &'a Name, value: &'a [Name], words: &'a [Name]) -> Form<'a>
    ensures { form_held result ≡ valued_form side node.now (text_of_words value.now) words.now }
{
    if let Some((word, rest)) = words.split_first()
        && is(word.bytes(), "when")
    {
        return guarded_form(side, node, value, rest);
    }
    clause_with(side, node, value, Guard::Absent, span_of(words))
}

/// What the words behind `.ant` or `.con` spell.
pub fn clause_of(side: Side, words: &[Name]) -> Form<'_>
    ensures { form_held result ≡ clause_of side words.now }
{
    let [node, equals, rest @ ..] = words else {
        return Form::Wrong;
    };
    if !is(equals.bytes(), "=") {
        return Form::Wrong;
    }
    let (value, behind) = split_at_end(rest);
    valued_form(side, node, value, behind)
}
