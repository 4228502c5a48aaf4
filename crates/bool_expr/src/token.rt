//! The tokens of a text; begin with `next_token`.

ghost use Rattle.std.specs.Prelude.{◌≡◌, ◌<◌, ◌≤◌, ◌∷◌, [], ℕ, List, length, IfSome, IfNone, false};
ghost use Rattle.std.specs.List.{prefix_len};
ghost use Rattle.ste_base.specs.Bytes.{is_blank};
ghost use Rattle.bool_expr.specs.Tokens.{is_name_byte, is_kept, byte_token, word_token, tokens_of};
ghost use Rattle.bool_expr.specs.private.Held.{token_of};

use ste_base::{is_blank, is_digit, is_letter};

/// A sign between the parts of a chain.
#[derive(Clone, Copy)]
pub enum Sign {
    Or,
    Xor,
    And,
}

/// A token of an expression.
#[derive(Clone, Copy)]
pub enum Token<'a> {
    Sign(Sign),
    Not,
    Open,
    Close,
    Const(bool),
    /// A variable's name.
    Name(&'a [u8]),
    /// What is no token: a word that is kept for task files, or another byte.
    Wrong,
}

/// Whether a byte is a letter, `_` or a digit.
fn is_name_byte(byte: u8) -> bool
    ensures { result ≡ is_name_byte byte }
{
    is_letter(byte) || is_digit(byte)
}

/// Whether a word is one that task files keep for themselves.
fn is_kept(word: &[u8]) -> bool
    ensures { result ≡ is_kept word.now }
{
    matches!(word, b"when" | b"from" | b"to")
}

/// The token that a word is.
fn word_token(word: &[u8]) -> Token<'_>
    ensures { token_of result ≡ word_token word.now }
{
    if is_kept(word) {
        Token::Wrong
    } else {
        Token::Name(word)
    }
}

/// The token that a byte is which is neither a letter nor a blank.
fn byte_token(byte: u8) -> Token<'static>
    ensures { token_of result ≡ byte_token byte }
{
    match byte {
        b'|' => Token::Sign(Sign::Or),
        b'^' => Token::Sign(Sign::Xor),
        b'&' => Token::Sign(Sign::And),
        b'!' => Token::Not,
        b'(' => Token::Open,
        b')' => Token::Close,
        b'0' => Token::Const(false),
        b'1' => Token::Const(true),
        _ => Token::Wrong,
    }
}

/// The text without the blanks at its front.
#[tactic(auto, using(crate::proofs::Tokens::blank_first))]
fn without_blanks(text: &[u8]) -> &[u8]
    ensures same { tokens_of result.now ≡ tokens_of text.now }
    ensures within { length result.now ≤ length text.now }
    ensures front { (byte : ℕ) (rest : List ℕ) → result.now ≡ byte ∷ rest → is_blank byte ≡ false }
{
    let mut rest = text;
    while let Some((byte, more)) = rest.split_first() {
        if !is_blank(*byte) {
            return rest;
        }
        rest = more;
    }
    rest
}

/// The number of bytes at the front of a text that go on with a word.
fn word_length(text: &[u8]) -> usize
    ensures length { result ≡ prefix_len is_name_byte text.now }
    ensures within { result ≤ length text.now }
{
    text.iter().take_while(|byte| is_name_byte(**byte)).count()
}

/// The first token of a text, and what stands behind it.
pub fn next_token(text: &[u8]) -> Option<(Token<'_>, &[u8])>
    ensures some { IfSome result (λ read. tokens_of text.now
        ≡ token_of read.0 ∷ tokens_of read.1.now) }
    ensures shorter { IfSome result (λ read. length read.1.now < length text.now) }
    ensures none { IfNone result (tokens_of text.now ≡ []) }
{
    let text = without_blanks(text);
    let (byte, rest) = text.split_first()?;
    if is_letter(*byte) {
        let end = word_length(rest);
        return Some((word_token(&text[..end + 1]), &rest[end..]));
    }
    Some((byte_token(*byte), rest))
}
