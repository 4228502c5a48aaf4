//! Numbers and literals; begin with `literal`.

ghost use Rattle.std.specs.Prelude.{◌≡◌, ◌≤◌};
ghost use Rattle.std.specs.List.{list_all, list_any};
ghost use Rattle.ste_base.specs.Bytes.{is_digit};
ghost use Rattle.aig_model.specs.Literals.{is_odd, variable_of};
ghost use Rattle.aig_model.specs.Lines.{count_of, is_above_zero, is_count, literal_to};
ghost use Rattle.aig_model.specs.Words.{greatest_number, is_definable, is_aig_number, aig_number_below};

use ste_base::{is_digit, read_number};

/// The greatest number that may stand in a header.
const GREATEST: u64 = 2_147_483_647;

/// Whether each of these bytes is a digit.
fn are_digits(bytes: &[u8]) -> bool
    ensures { result ≡ list_all is_digit bytes.now }
{
    bytes.iter().all(|byte| is_digit(*byte))
}

/// Whether a word is one or more digits.
fn is_aig_number(word: &[u8]) -> bool
    ensures { result ≡ is_aig_number word.now }
{
    !word.is_empty() && are_digits(word)
}

/// The number that a word is, where it is one below `count`.
pub fn aig_number_below(count: u32, word: &[u8]) -> Option<u32>
    ensures { result ≡ aig_number_below count word.now }
{
    if !is_aig_number(word) {
        return None;
    }
    match read_number(word, u64::from(count)) {
        Ok(number) if number < u64::from(count) => Some(number as u32),
        _ => None,
    }
}

/// The number of a header that a word is.
pub fn count_of(word: &[u8]) -> Option<u32>
    ensures { result ≡ count_of word.now }
{
    if !is_aig_number(word) {
        return None;
    }
    match read_number(word, GREATEST) {
        Ok(number) => Some(number as u32),
        Err(_) => None,
    }
}

/// Whether a word is a number of a header.
pub fn is_count(word: &[u8]) -> bool
    ensures { result ≡ is_count word.now }
{
    is_aig_number(word) && read_number(word, GREATEST).is_ok()
}

/// Whether a number is not 0.
pub fn is_above_zero(word: &[u8]) -> bool
    ensures { result ≡ is_above_zero word.now }
{
    word.iter().any(|digit| *digit != b'0')
}

/// The literal that a word is, where variables go up to `most`.
pub fn literal(most: u32, word: &[u8]) -> Option<u32>
    requires { most ≤ greatest_number }
    ensures { result ≡ literal_to most word.now }
{
    if !is_aig_number(word) {
        return None;
    }
    match read_number(word, u64::from(most) + u64::from(most) + 1) {
        Ok(literal) => Some(literal as u32),
        Err(_) => None,
    }
}

/// The variable of a literal.
pub fn variable_of(literal: u32) -> u32
    ensures { result ≡ variable_of literal }
{
    literal / 2
}

/// Whether a literal has the opposite of its variable's bit.
pub fn is_odd(literal: u32) -> bool
    ensures { result ≡ is_odd literal }
{
    literal % 2 == 1
}

/// Whether a line may define the literal.
pub fn is_definable(literal: u32) -> bool
    ensures { result ≡ is_definable literal }
{
    !is_odd(literal) && 1 < literal
}
