//! What the words of a `.subckt` line say; begin with `form_of_use`.

ghost use Rattle.std.specs.Prelude.{◌≡◌, IfOk, suc, take, drop, length, unwrap_or};
ghost use Rattle.std.specs.List.{position};
ghost use Rattle.blif_syntax.specs.Forms.{is_equals, binding_with, binding_of, bindings_of, form_of_use};

use crate::form::{Form, LineFault};
use crate::models::What;
use std::alloc::{AllocError, Global};
use ste_base::{Items, Name};

/// The place of the first `=`.
fn equals(word: &[u8]) -> Option<usize>
    ensures { result ≡ position is_equals word.now }
{
    word.iter().position(|byte| *byte == b'=')
}

/// What stands before the first `=` of a word, and what stands behind it; without one all of the
/// word, and nothing.
fn sides(word: &[u8]) -> (&[u8], &[u8])
    ensures formal { result.0.now
        ≡ take (unwrap_or (position is_equals word.now) (length word.now)) word.now }
    ensures actual { result.1.now
        ≡ drop (suc (unwrap_or (position is_equals word.now) (length word.now))) word.now }
{
    match equals(word) {
        Some(at) => (&word[..at], &word[at + 1..]),
        None => (word, &word[word.len()..]),
    }
}

/// A formal and its actual, where neither is empty.
fn binding_with(
    alloc: Global,
    formal: &[u8],
    actual: &[u8],
) -> Result<Option<(Name, Name)>, AllocError>
    ensures { IfOk result (λ binding. binding ≡ binding_with formal.now actual.now) }
{
    if formal.is_empty() || actual.is_empty() {
        return Ok(None);
    }
    Ok(Some((
        Name::from_bytes(alloc, formal)?,
        Name::from_bytes(alloc, actual)?,
    )))
}

/// A word cut at its first `=` into a formal and its actual.
#[tactic(auto, using(crate::proofs::Bindings::cut_word))]
fn binding_of(alloc: Global, word: &[u8]) -> Result<Option<(Name, Name)>, AllocError>
    ensures { IfOk result (λ binding. binding ≡ binding_of word.now) }
{
    let (formal, actual) = sides(word);
    binding_with(alloc, formal, actual)
}

/// All words as bindings, or None where one is no binding.
#[tactic(auto, using(crate::proofs::Bindings::no_binding))]
fn bindings_of(alloc: Global, words: &[Name]) -> Result<Option<Items<(Name, Name)>>, AllocError>
    ensures { IfOk result (λ bindings. bindings ≡ bindings_of words.now) }
{
    let mut bindings = Items::new(alloc);
    for word in words {
        let Some(binding) = binding_of(alloc, word.bytes())? else {
            return Ok(None);
        };
        bindings.push(binding)?;
    }
    Ok(Some(bindings))
}

/// What the words behind `.subckt` spell.
pub fn form_of_use(alloc: Global, words: &[Name]) -> Result<Form, AllocError>
    ensures { IfOk result (λ form. form ≡ form_of_use words.now) }
{
    let [model, bindings @ ..] = words else {
        return Ok(Form::Wrong(LineFault::Bad));
    };
    match bindings_of(alloc, bindings)? {
        Some(formals) => Ok(Form::Item(What::Subckt {
            model: model.clone()?,
            formals,
        })),
        None => Ok(Form::Wrong(LineFault::Bad)),
    }
}
