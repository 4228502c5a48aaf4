//! The form of a line by its words; begin with `form_of`.

ghost use Rattle.std.specs.Prelude.{◌≡◌, map, true};
ghost use Rattle.std.specs.List.{list_all};
ghost use Rattle.ste_base.specs.Number.{number_of};
ghost use Rattle.assert_syntax.specs.Held.{clause_held};
ghost use Rattle.assert_syntax.specs.Words.{is_number};
ghost use Rattle.ste_rules.specs.Forms.{are_rising, leaf_of, identity_of, both_of, shift_of, specialise_of, stronger_of, weaker_of, cut_of, given_of, later_form_of, timed, step_form_of};
ghost use Rattle.ste_rules.specs.private.Held.{IsFormed, step_form_held};

use crate::form::Form;
use crate::numbers::is_below;
use assert_syntax::clauses::clause_of;
use assert_syntax::form;
use assert_syntax::form::{Clause, Side, Span};
use assert_syntax::words::{is, is_number};
use ste_base::Name;

/// What the words behind `.leaf` spell.
fn leaf_of(words: &[Name]) -> Form<'_>
    ensures form { step_form_held result ≡ leaf_of words.now }
    ensures formed { IsFormed result }
{
    match words {
        [name, task] => Form::Leaf(name, task),
        _ => Form::Wrong,
    }
}

/// What the words behind `.identity` spell.
fn identity_of(words: &[Name]) -> Form<'_>
    ensures form { step_form_held result ≡ identity_of words.now }
    ensures formed { IsFormed result }
{
    match words {
        [name] => Form::Identity(name),
        _ => Form::Wrong,
    }
}

/// What the words behind `.both` spell.
fn both_of(words: &[Name]) -> Form<'_>
    ensures form { step_form_held result ≡ both_of words.now }
    ensures formed { IsFormed result }
{
    match words {
        [name, one, other] => Form::Both(name, one, other),
        _ => Form::Wrong,
    }
}

/// What the words behind `.shift` spell.
fn shift_of(words: &[Name]) -> Form<'_>
    ensures form { step_form_held result ≡ shift_of words.now }
    ensures formed { IsFormed result }
{
    match words {
        [name, one, number] => {
            if is_number(number.bytes()) {
                Form::Shift(name, one, number)
            } else {
                Form::Wrong
            }
        }
        _ => Form::Wrong,
    }
}

/// What the words behind `.specialise` spell.
#[tactic(auto, unfolding(crate::specs::Forms::specialise_of))]
fn specialise_of(words: &[Name]) -> Form<'_>
    ensures form { step_form_held result ≡ specialise_of words.now }
    ensures formed { IsFormed result }
{
    let [name, one, variable, equals, rest @ ..] = words else {
        return Form::Wrong;
    };
    if is(equals.bytes(), "=") {
        Form::Specialise(name, one, variable, rest)
    } else {
        Form::Wrong
    }
}

/// What the words behind `.stronger` spell.
fn stronger_of(words: &[Name]) -> Form<'_>
    ensures form { step_form_held result ≡ stronger_of words.now }
    ensures formed { IsFormed result }
{
    match words {
        [name, one] => Form::Stronger(name, one),
        _ => Form::Wrong,
    }
}

/// Whether each word is a number.
fn are_numbers(words: &[Name]) -> bool
    ensures { result ≡ list_all is_number words.now }
{
    words.iter().all(|word| is_number(word.bytes()))
}

/// Whether each number is above the one before it.
fn are_rising(words: &[Name]) -> bool
    requires numbers { list_all is_number words.now ≡ true }
    ensures { result ≡ are_rising (map number_of words.now) }
{
    let mut left = words;
    while let [one, rest @ ..] = left {
        if let [other, ..] = rest
            && !is_below(one.bytes(), other.bytes())
        {
            return false;
        }
        left = rest;
    }
    true
}

/// What the words behind `.weaker` spell.
fn weaker_of(words: &[Name]) -> Form<'_>
    ensures form { step_form_held result ≡ weaker_of words.now }
    ensures formed { IsFormed result }
{
    let [name, one, numbers @ ..] = words else {
        return Form::Wrong;
    };
    if are_numbers(numbers) && are_rising(numbers) {
        Form::Weaker(name, one, numbers)
    } else {
        Form::Wrong
    }
}

/// What the words behind `.cut` spell.
fn cut_of(words: &[Name]) -> Form<'_>
    ensures form { step_form_held result ≡ cut_of words.now }
    ensures formed { IsFormed result }
{
    match words {
        [name, one, other] => Form::Cut(name, one, other),
        _ => Form::Wrong,
    }
}

/// A clause with times.
fn timed<'a>(clause: Clause<'a>) -> Form<'a>
    ensures form { step_form_held result ≡ timed (clause_held clause.entry) clause.entry.span }
    ensures formed { IsFormed result }
{
    match clause.span {
        Span::Absent => Form::Wrong,
        _ => Form::Given(clause),
    }
}

/// What the words behind `.ant` spell.
#[tactic(auto, unfolding(crate::specs::Forms::given_of))]
fn given_of(words: &[Name]) -> Form<'_>
    ensures form { step_form_held result ≡ given_of words.now }
    ensures formed { IsFormed result }
{
    match clause_of(Side::Antecedent, words) {
        form::Form::Clause(clause) => timed(clause),
        _ => Form::Wrong,
    }
}

/// What a line spells by its first word and the others.
fn later_form_of<'a>(word: &[u8], rest: &'a [Name]) -> Form<'a>
    ensures form { step_form_held result ≡ later_form_of word.now rest.now }
    ensures formed { IsFormed result }
{
    if is(word, ".specialise") {
        specialise_of(rest)
    } else if is(word, ".stronger") {
        stronger_of(rest)
    } else if is(word, ".weaker") {
        weaker_of(rest)
    } else if is(word, ".cut") {
        cut_of(rest)
    } else if is(word, ".ant") {
        given_of(rest)
    } else {
        Form::Wrong
    }
}

/// What the words of a line spell. It takes no memory.
pub fn form_of(words: &[Name]) -> Form<'_>
    ensures form { step_form_held result ≡ step_form_of words.now }
    ensures formed { IsFormed result }
{
    let [first, rest @ ..] = words else {
        return Form::Wrong;
    };
    let word = first.bytes();
    if is(word, ".leaf") {
        leaf_of(rest)
    } else if is(word, ".identity") {
        identity_of(rest)
    } else if is(word, ".both") {
        both_of(rest)
    } else if is(word, ".shift") {
        shift_of(rest)
    } else {
        later_form_of(word, rest)
    }
}
