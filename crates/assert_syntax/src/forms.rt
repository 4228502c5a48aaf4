//! The form of a line by its words; begin with `form_of`.

ghost use Rattle.std.specs.Prelude.{◌≡◌};
ghost use Rattle.assert_syntax.specs.Forms.{vars_of, ste_of, gste_of, edge_of, end_of, task_form_of};
ghost use Rattle.assert_syntax.specs.Forms.{weak_with, weak_of};
ghost use Rattle.assert_syntax.specs.Held.{form_held};

use crate::clauses::{clause_of, span_of};
use crate::form::{Form, Side, Span};
use crate::words::{are_variables, is};
use ste_base::Name;

/// What the words behind `.vars` spell.
fn vars_of(words: &[Name]) -> Form<'_>
    ensures { form_held result ≡ vars_of words.now }
{
    if words.is_empty() || !are_variables(words) {
        Form::Wrong
    } else {
        Form::Vars(words)
    }
}

/// What the words behind `.ste` spell.
fn ste_of(words: &[Name]) -> Form<'_>
    ensures { form_held result ≡ ste_of words.now }
{
    match words {
        [name] => Form::Ste(name, false),
        [name, reset] => {
            if is(reset.bytes(), "reset") {
                Form::Ste(name, true)
            } else {
                Form::Wrong
            }
        }
        _ => Form::Wrong,
    }
}

/// What the words behind `.gste` spell.
fn gste_of(words: &[Name]) -> Form<'_>
    ensures { form_held result ≡ gste_of words.now }
{
    match words {
        [name, vertex] => Form::Gste(name, vertex, false),
        [name, vertex, reset] => {
            if is(reset.bytes(), "reset") {
                Form::Gste(name, vertex, true)
            } else {
                Form::Wrong
            }
        }
        _ => Form::Wrong,
    }
}

/// What the words behind `.edge` spell.
fn edge_of(words: &[Name]) -> Form<'_>
    ensures { form_held result ≡ edge_of words.now }
{
    match words {
        [from, to] => Form::Edge(from, to),
        _ => Form::Wrong,
    }
}

/// A weakening, where its line ends in times that have their form.
fn weak_with(node: &Name, times: Option<Span>) -> Form<'_>
    ensures { form_held result ≡ weak_with node.now times }
{
    match times {
        Some(times) => Form::Weak(node, times),
        None => Form::Wrong,
    }
}

/// What the words behind `.weak` spell: a node, and perhaps times.
fn weak_of(words: &[Name]) -> Form<'_>
    ensures { form_held result ≡ weak_of words.now }
{
    match words {
        [node, rest @ ..] => weak_with(node, span_of(rest)),
        [] => Form::Wrong,
    }
}

/// What the words behind `.end` spell.
fn end_of(words: &[Name]) -> Form<'_>
    ensures { form_held result ≡ end_of words.now }
{
    if words.is_empty() {
        Form::End
    } else {
        Form::Wrong
    }
}

/// What the words of a line spell. It takes no memory.
pub fn form_of(words: &[Name]) -> Form<'_>
    ensures { form_held result ≡ task_form_of words.now }
{
    let [first, rest @ ..] = words else {
        return Form::Wrong;
    };
    let word = first.bytes();
    if is(word, ".vars") {
        vars_of(rest)
    } else if is(word, ".ste") {
        ste_of(rest)
    } else if is(word, ".gste") {
        gste_of(rest)
    } else if is(word, ".edge") {
        edge_of(rest)
    } else if is(word, ".ant") {
        clause_of(Side::Antecedent, rest)
    } else if is(word, ".con") {
        clause_of(Side::Consequent, rest)
    } else if is(word, ".weak") {
        weak_of(rest)
    } else if is(word, ".end") {
        end_of(rest)
    } else {
        Form::Wrong
    }
}
