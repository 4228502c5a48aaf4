//! The first line; begin with `read_header`.

ghost use Rattle.std.specs.Prelude.{◌≡◌, IfOk, find};
ghost use Rattle.std.specs.List.{list_all};
ghost use Rattle.blif_lines.specs.Lines.{words_of};
ghost use Rattle.aig_model.specs.Lines.{count_of, head_of, header_of, header_with, is_above_zero, is_count};

use crate::scan::word;
use crate::words::{count_of, is_above_zero, is_count};
use aig_model::{Head, Header};
use std::alloc::{AllocError, Global};
use ste_base::{Items, Name};

/// One more word than a header has.
const MOST_WORDS: u32 = 11;

/// Whether each of these words is a number of a header.
fn are_counts(words: &[Name]) -> bool
    ensures { result ≡ list_all is_count words.now }
{
    words.iter().all(|word| is_count(word.bytes()))
}

/// The first of these words that is not 0.
fn first_above_zero(words: &[Name]) -> Result<Option<Name>, AllocError>
    ensures { IfOk result (λ found. found ≡ find is_above_zero words.now) }
{
    for word in words {
        if is_above_zero(word.bytes()) {
            return Ok(Some(word.clone()?));
        }
    }
    Ok(None)
}

/// The numbers of a header, where these words are numbers.
fn head_of(most: &Name, inputs: &Name, latches: &Name, outputs: &Name, ands: &Name) -> Option<Head>
    ensures { result ≡ head_of (count_of most.now) (count_of inputs.now) (count_of latches.now)
        (count_of outputs.now) (count_of ands.now) }
{
    Some(Head {
        most: count_of(most.bytes())?,
        inputs: count_of(inputs.bytes())?,
        latches: count_of(latches.bytes())?,
        outputs: count_of(outputs.bytes())?,
        ands: count_of(ands.bytes())?,
    })
}

/// A header, where its numbers are there, unless one of these further numbers is left out.
fn header_with(head: Option<Head>, further: &[Name]) -> Result<Header, AllocError>
    ensures { IfOk result (λ header. header ≡ header_with head (find is_above_zero further.now)) }
{
    let Some(head) = head else {
        return Ok(Header::Bad);
    };
    match first_above_zero(further)? {
        None => Ok(Header::Good(head)),
        Some(word) => Ok(Header::LeftOut(word)),
    }
}

/// What the words of the first line say.
fn header_of(words: &[Name]) -> Result<Header, AllocError>
    ensures { IfOk result (λ header. header ≡ header_of words.now) }
{
    let [tag, most, inputs, latches, outputs, ands, further @ ..] = words else {
        return Ok(Header::Bad);
    };
    if tag.bytes() == "aag".as_bytes() && (are_counts(further) && further.len() <= 4) {
        header_with(head_of(most, inputs, latches, outputs, ands), further)
    } else {
        Ok(Header::Bad)
    }
}

/// The words of the first line, up to one more than a header has.
fn first_words(alloc: Global, line: &[u8]) -> Result<Items<Name>, AllocError>
    ensures { IfOk result (λ words. header_of words ≡ header_of (words_of line.now)) }
{
    let mut words = Items::new(alloc);
    let mut rest = line;
    for count in 0..MOST_WORDS {
        let Some((first, behind)) = word(rest) else {
            return Ok(words);
        };
        words.push(Name::from_bytes(alloc, first)?)?;
        rest = behind;
    }
    Ok(words)
}

/// What the first line says.
pub fn read_header(alloc: Global, line: &[u8]) -> Result<Header, AllocError>
    ensures { IfOk result (λ header. header ≡ header_of (words_of line.now)) }
{
    let words = first_words(alloc, line)?;
    header_of(words.as_slice())
}
