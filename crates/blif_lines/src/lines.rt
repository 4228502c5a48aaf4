//! The logical lines of a text; begin with `logical_lines`.

ghost use Rattle.std.specs.Prelude.{◌≡◌, ◌+◌, ◌<◌, ◌≤◌, ◌^◌, ◌++◌, ◌∷◌, [], OnOk, IfOk, length, filter};
ghost use Rattle.blif_lines.specs.Lines.{words_of, lines_of, pieces, is_line_feed, word_lines, is_filled};

use crate::scan::{blank, cut, line_feed, treat, without_backslash};
use std::alloc::{AllocError, Global};
use ste_base::{Items, Name};

/// A logical line of a text.
#[derive(Drop)]
pub struct Line {
    /// The number of its first physical line, from 1.
    pub number: u32,
    /// Its words, in order.
    pub words: Items<Name>,
}

/// Adds a word, where it is not empty.
fn add_word(words: &mut Items<Name>, alloc: Global, word: &[u8]) -> Result<(), AllocError>
    ensures { OnOk result (words.new ≡ words.old ++ filter is_filled (word.now ∷ [])) }
{
    if !word.is_empty() {
        words.push(Name::from_bytes(alloc, word)?)?;
    }
    Ok(())
}

/// Adds the words of a text.
fn add_words(words: &mut Items<Name>, alloc: Global, text: &[u8]) -> Result<(), AllocError>
    ensures { OnOk result (words.new ≡ words.old ++ words_of text.now) }
{
    let mut rest = text;
    while !rest.is_empty() {
        let (word, after) = cut(rest, blank(rest));
        add_word(words, alloc, word)?;
        rest = after;
    }
    Ok(())
}

/// Reads the first logical line, which may have no words, from a text that begins with the physical
/// line of this number: the line, the rest of the text, and the number of the physical line that
/// the rest begins with.
#[tactic(auto, using(crate::proofs::Words::begin, crate::proofs::Words::finish))]
fn read_line(alloc: Global, text: &[u8], number: u32) -> Result<(Line, &[u8], u32), AllocError>
    requires some { 0 < length text.now }
    requires fits { number + length text.now < 2 ^ 32 }
    ensures line { IfOk result (λ read. read.0 ∷ word_lines read.2 (pieces is_line_feed read.1.now)
        ≡ word_lines number (pieces is_line_feed text.now)) }
    ensures fits { IfOk result (λ read. read.2 + length read.1.now ≤ number + length text.now) }
    ensures shorter { IfOk result (λ read. length read.1.now < length text.now) }
{
    let mut rest = text;
    let mut next = number;
    let mut words = Items::new(alloc);
    let mut joins = true;
    while joins && !rest.is_empty() {
        let (line, after) = cut(rest, line_feed(rest));
        let (body, continued) = without_backslash(treat(line));
        add_words(&mut words, alloc, body)?;
        joins = continued;
        rest = after;
        next += 1;
    }
    Ok((Line { number, words }, rest, next))
}

/// The logical lines of a text, in order. A text has at most 67,108,864 bytes. The only error is
/// out of memory.
pub fn logical_lines(alloc: Global, bytes: &[u8]) -> Result<Items<Line>, AllocError>
    requires { length bytes.now ≤ 67108864 }
    ensures { IfOk result (λ lines. lines ≡ lines_of bytes.now) }
{
    let mut lines = Items::new(alloc);
    let mut rest = bytes;
    let mut number: u32 = 1;
    while !rest.is_empty() {
        let (line, after, next) = read_line(alloc, rest, number)?;
        if line.words.len() > 0 {
            lines.push(line)?;
        }
        rest = after;
        number = next;
    }
    Ok(lines)
}
