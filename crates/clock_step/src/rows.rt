//! The later lines of an input file; begin with `read_rows`.

ghost use Rattle.std.specs.Prelude.{◌≡◌, IfOk, map};
ghost use Rattle.std.specs.List.{list_all};
ghost use Rattle.clock_step.specs.Faults.{is_too_many};
ghost use Rattle.clock_step.specs.Forms.{word_bits, is_zero_or_one, is_one, row_of};
ghost use Rattle.clock_step.specs.private.Answers.{AreRows};

use crate::fault::InputFault;
use blif_lines::Line;
use std::alloc::{AllocError, Global};
use ste_base::{Items, Name};

/// Whether the character is 0 or 1.
fn is_bit(byte: u8) -> bool
    ensures { result ≡ is_zero_or_one byte }
{
    byte == b'0' || byte == b'1'
}

/// Whether each of these characters is 0 or 1.
fn are_bits(characters: &[u8]) -> bool
    ensures { result ≡ list_all is_zero_or_one characters.now }
{
    characters.iter().all(|byte| is_bit(*byte))
}

/// For each of these characters, whether it is 1.
fn ones_of(alloc: Global, characters: &[u8]) -> Result<Vec<bool>, AllocError>
    ensures { IfOk result (λ bits. bits.items ≡ map is_one characters.now) }
{
    characters.iter().map(|byte| *byte == b'1').collect(alloc)
}

/// The bits of a word, where it has one for each of so many names.
fn bits_of(alloc: Global, width: usize, word: &[u8]) -> Result<Option<Items<bool>>, AllocError>
    ensures { IfOk result (λ bits. bits ≡ word_bits width word.now) }
{
    if width == 0 {
        if word == "-".as_bytes() {
            Ok(Some(Items::new(alloc)))
        } else {
            Ok(None)
        }
    } else if word.len() == width && are_bits(word) {
        Ok(Some(ones_of(alloc, word)?.into()))
    } else {
        Ok(None)
    }
}

/// The bits of a line's words, where they are a row over so many names.
fn row_of(alloc: Global, width: usize, words: &[Name]) -> Result<Option<Items<bool>>, AllocError>
    ensures { IfOk result (λ row. row ≡ row_of width words.now) }
{
    match words {
        [word] => bits_of(alloc, width, word.bytes()),
        _ => Ok(None),
    }
}

/// Whether the row of this number, counted from 1, is one too many over so many nets.
fn is_too_many(nets: u32, number: usize) -> bool
    ensures { result ≡ is_too_many nets number }
{
    number > 10_000 || number as u64 * u64::from(nets) > 100_000_000
}

/// The rows of these lines, over so many names and nets.
pub fn read_rows(
    alloc: Global,
    width: usize,
    nets: u32,
    lines: &[Line],
) -> Result<Items<Items<bool>>, InputFault>
    ensures { AreRows width nets lines.now result }
{
    let mut rows = Items::new(alloc);
    for (before, line) in lines.iter().enumerate() {
        let Some(row) = row_of(alloc, width, line.words.as_slice())? else {
            return Err(InputFault::BadLine { line: line.number });
        };
        if is_too_many(nets, before + 1) {
            return Err(InputFault::TooMany { line: line.number });
        }
        rows.push(row)?;
    }
    Ok(rows)
}
