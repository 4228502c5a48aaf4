//! How the tables of several readers write a word: `add_word`.

use std::alloc::AllocError;

/// Adds a word, with a blank before it.
pub(crate) fn add_word(out: &mut Vec<u8>, word: &[u8]) -> Result<(), AllocError> {
    out.push(b' ')?;
    out.extend_from_slice(word)?;
    Ok(())
}
