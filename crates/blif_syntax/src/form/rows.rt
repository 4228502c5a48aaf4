//! What the words of a row of a cover say; begin with `form_of_row`.

ghost use Rattle.std.specs.Prelude.{◌≡◌, ◌∷◌, [], IfOk, map};
ghost use Rattle.std.specs.List.{list_all};
ghost use Rattle.blif_syntax.specs.Words.{is_bit, is_literal, literal_of};
ghost use Rattle.blif_syntax.specs.Forms.{form_of_row, row_with};

use crate::form::{Form, LineFault};
use net_core::Lit;
use std::alloc::{AllocError, Global};
use ste_base::Name;

/// Whether the character is 0 or 1.
fn is_bit(byte: u8) -> bool
    ensures { result ≡ is_bit byte }
{
    byte == b'0' || byte == b'1'
}

/// Whether the character is 0, 1 or -.
fn is_literal(byte: u8) -> bool
    ensures { result ≡ is_literal byte }
{
    is_bit(byte) || byte == b'-'
}

/// The literal of a character.
fn literal_of(byte: u8) -> Lit
    ensures { result ≡ literal_of byte }
{
    match byte {
        b'0' => Lit::Zero,
        b'1' => Lit::One,
        _ => Lit::Any,
    }
}

/// Whether each of these characters is 0, 1 or -.
fn are_literals(characters: &[u8]) -> bool
    ensures { result ≡ list_all is_literal characters.now }
{
    characters.iter().all(|byte| is_literal(*byte))
}

/// The literals of these characters.
fn literals_of(alloc: Global, characters: &[u8]) -> Result<Vec<Lit>, AllocError>
    ensures { IfOk result (λ row. row.items ≡ map literal_of characters.now) }
{
    characters
        .iter()
        .map(|byte| literal_of(*byte))
        .collect(alloc)
}

/// What a row with these characters and this output word spells.
fn row_with(alloc: Global, characters: &[u8], output: &[u8]) -> Result<Form, AllocError>
    ensures { IfOk result (λ form. form ≡ row_with characters.now output.now) }
{
    match output {
        [byte] if is_bit(*byte) && are_literals(characters) => Ok(Form::Row(
            literals_of(alloc, characters)?.into(),
            *byte == b'1',
        )),
        _ => Ok(Form::Wrong(LineFault::Bad)),
    }
}

/// What a line spells whose first word, which does not begin with a dot, is `first`, and whose
/// further words are these.
pub fn form_of_row(alloc: Global, first: &[u8], words: &[Name]) -> Result<Form, AllocError>
    ensures { IfOk result (λ form. form ≡ form_of_row first.now words.now) }
{
    match words {
        [] => row_with(alloc, b"", first),
        [output] if !first.is_empty() => row_with(alloc, first, output.bytes()),
        _ => Ok(Form::Wrong(LineFault::Bad)),
    }
}
