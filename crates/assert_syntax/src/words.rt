//! Single words of task lines; begin with `moment_of`.

ghost use Rattle.std.specs.Prelude.{◌≡◌, ◌++◌, ◌∷◌, IfOk, OnOk, bytes_eq};
ghost use Rattle.std.specs.List.{list_all, position};
ghost use Rattle.ste_base.specs.Bytes.{is_digit};
ghost use Rattle.bool_expr.specs.Tokens.{is_kept, is_name_byte};
ghost use Rattle.blif_lines.specs.Laws.{text_of_words};
ghost use Rattle.assert_syntax.specs.Words.{is_variable, ends_expression, is_number, moment_of};

use crate::form::Moment;
use std::alloc::{AllocError, Global};
use ste_base::{Name, is_digit, is_letter, read_number};

/// The greatest time of a task.
const MAX_TIME: u64 = 100_000;

/// Whether a word has these characters.
pub fn is(word: &[u8], text: &str) -> bool
    ensures { result ≡ bytes_eq word.now text.now }
{
    word == text.as_bytes()
}

/// Whether each byte may stand in a variable.
fn are_name_bytes(bytes: &[u8]) -> bool
    ensures { result ≡ list_all is_name_byte bytes.now }
{
    bytes.iter().all(|byte| is_letter(*byte) || is_digit(*byte))
}

/// Whether task files keep the word for themselves.
fn is_kept(word: &[u8]) -> bool
    ensures { result ≡ is_kept word.now }
{
    is(word, "when") || is(word, "from") || is(word, "to")
}

/// Whether a word is a variable.
pub fn is_variable(word: &[u8]) -> bool
    ensures { result ≡ is_variable word.now }
{
    let Some((byte, bytes)) = word.split_first() else {
        return false;
    };
    is_letter(*byte) && are_name_bytes(bytes) && !is_kept(word)
}

/// Whether each word is a variable.
pub fn are_variables(words: &[Name]) -> bool
    ensures { result ≡ list_all is_variable words.now }
{
    words.iter().all(|word| is_variable(word.bytes()))
}

/// Whether an expression ends before this word.
fn ends_expression(word: &[u8]) -> bool
    ensures { result ≡ ends_expression word.now }
{
    is(word, "when") || is(word, "from")
}

/// The place of the first word that ends an expression.
pub fn expression_end(words: &[Name]) -> Option<usize>
    ensures { result ≡ position ends_expression words.now }
{
    words.iter().position(|word| ends_expression(word.bytes()))
}

/// Whether each byte is a digit.
fn are_digits(bytes: &[u8]) -> bool
    ensures { result ≡ list_all is_digit bytes.now }
{
    bytes.iter().all(|byte| is_digit(*byte))
}

/// Whether a word is a number.
pub fn is_number(word: &[u8]) -> bool
    ensures { result ≡ is_number word.now }
{
    !word.is_empty() && are_digits(word)
}

/// What a word says as a time.
pub fn moment_of(word: &[u8]) -> Moment
    ensures { result ≡ moment_of word.now }
{
    if !is_number(word) {
        return Moment::Never;
    }
    match read_number(word, MAX_TIME) {
        Ok(time) => Moment::At(time as u32),
        Err(_) => Moment::Late,
    }
}

/// Adds a blank and a word.
fn add_word(text: &mut Vec<u8>, word: &[u8]) -> Result<(), AllocError>
    ensures { OnOk result (text.new.items ≡ text.old.items ++ 32 ∷ word.now) }
{
    text.push(b' ')?;
    text.extend_from_slice(word)?;
    Ok(())
}

/// The words with a blank between.
#[tactic(auto, using(crate::proofs::Texts::words_begin, crate::proofs::Texts::words_end, crate::proofs::Texts::word_turn))]
pub fn spaced(alloc: Global, words: &[Name]) -> Result<Vec<u8>, AllocError>
    ensures { IfOk result (λ text. text.items ≡ text_of_words words.now) }
{
    let Some((first, rest)) = words.split_first() else {
        return Ok(Vec::new(alloc));
    };
    let mut text = first.bytes().to_vec(alloc)?;
    for word in rest {
        add_word(&mut text, word.bytes())?;
    }
    Ok(text)
}
