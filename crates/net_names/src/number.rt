//! The numbers of subcircuits, as they stand in texts; begin with `number_below`.

ghost use Rattle.std.specs.Prelude.{◌≡◌, ◌<◌, ◌↔◌, IsTrue, get_or, length};
ghost use Rattle.hierarchy.specs.Names.{number_below};

use ste_base::number::{NumberFault, read_number};

/// Whether a text has a zero in front of another byte.
fn is_padded(text: &[u8]) -> bool
    ensures { IsTrue result ↔ ((1 < length text.now) × (get_or text.now 0 0 ≡ 48)) }
{
    text.len() > 1 && text[0] == b'0'
}

/// The number below `count` that a text is, in decimal digits without leading zeros. It takes no
/// memory.
pub(crate) fn number_below(count: usize, text: &[u8]) -> Option<usize>
    ensures { result ≡ number_below count text.now }
{
    if is_padded(text) {
        return None;
    }
    match read_number(text, u64::MAX) {
        Ok(number) => {
            if number < count as u64 {
                Some(number as usize)
            } else {
                None
            }
        }
        Err(NumberFault::NotANumber) => None,
        Err(NumberFault::TooLarge) => None,
    }
}
