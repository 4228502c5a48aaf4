//! The form of a line by its words; begin with `entry_of`.

ghost use Rattle.std.specs.Prelude.{◌≡◌, ◌<◌, ◌^◌, IfOk, length};
ghost use Rattle.blif_syntax.specs.Forms.{form_of_model, form_of_names, form_of_end, form_of};
ghost use Rattle.blif_syntax.specs.Answer.{entry_of};

use super::latches::form_of_latch;
use super::rows::form_of_row;
use super::uses::form_of_use;
use super::{Entry, Form, LineFault};
use crate::models::What;
use crate::words::{begins_with_dot, is, is_left_out, is_skipped};
use blif_lines::Line;
use std::alloc::{AllocError, Global};
use ste_base::{Name, copies};

/// What the words behind `.model` spell.
fn form_of_model(alloc: Global, words: &[Name]) -> Result<Form, AllocError>
    ensures { IfOk result (λ form. form ≡ form_of_model words.now) }
{
    match words {
        [] => Ok(Form::Model(Name::from_bytes(alloc, b"")?)),
        [name] => Ok(Form::Model(name.clone()?)),
        _ => Ok(Form::Wrong(LineFault::Bad)),
    }
}

/// What the words behind `.names` spell.
fn form_of_names(alloc: Global, words: &[Name]) -> Result<Form, AllocError>
    requires { length words.now < 2 ^ 32 }
    ensures { IfOk result (λ form. form ≡ form_of_names words.now) }
{
    match words {
        [inputs @ .., output] => Ok(Form::Names(
            inputs.len() as u32,
            copies(alloc, inputs)?,
            output.clone()?,
        )),
        [] => Ok(Form::Wrong(LineFault::Bad)),
    }
}

/// What the words behind `.end` spell.
fn form_of_end(words: &[Name]) -> Form
    ensures { result ≡ form_of_end words.now }
{
    if words.is_empty() {
        Form::End
    } else {
        Form::Wrong(LineFault::Bad)
    }
}

/// What the words of a line spell.
fn form_of(alloc: Global, words: &[Name]) -> Result<Form, AllocError>
    requires { length words.now < 2 ^ 32 }
    ensures { IfOk result (λ form. form ≡ form_of words.now) }
{
    let [first, rest @ ..] = words else {
        return Ok(Form::Wrong(LineFault::Bad));
    };
    let word = first.bytes();
    if is_skipped(word) {
        Ok(Form::Skipped)
    } else if is(word, ".model") {
        form_of_model(alloc, rest)
    } else if is(word, ".inputs") {
        Ok(Form::Item(What::Inputs(copies(alloc, rest)?)))
    } else if is(word, ".outputs") {
        Ok(Form::Item(What::Outputs(copies(alloc, rest)?)))
    } else if is(word, ".clock") {
        Ok(Form::Item(What::Clock(copies(alloc, rest)?)))
    } else if is(word, ".names") {
        form_of_names(alloc, rest)
    } else if is(word, ".latch") {
        form_of_latch(rest)
    } else if is(word, ".subckt") {
        form_of_use(alloc, rest)
    } else if is(word, ".end") {
        Ok(form_of_end(rest))
    } else if is_left_out(word) {
        Ok(Form::Wrong(LineFault::LeftOut(first.clone()?)))
    } else if begins_with_dot(word) {
        Ok(Form::Wrong(LineFault::Unknown(first.clone()?)))
    } else {
        form_of_row(alloc, word, rest)
    }
}

/// A line with its form.
pub fn entry_of(alloc: Global, line: &Line) -> Result<Entry, AllocError>
    requires { length line.now.words < 2 ^ 32 }
    ensures { IfOk result (λ entry. entry ≡ entry_of line.now) }
{
    Ok(Entry {
        line: line.number,
        form: form_of(alloc, line.words.as_slice())?,
    })
}
