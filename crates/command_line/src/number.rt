//! Numbers among the words; begin with `number_given`.

ghost use Rattle.std.specs.Prelude.{◌≡◌, ◌≤◌, IfSome};
ghost use Rattle.std.specs.List.{list_all};
ghost use Rattle.ste_base.specs.Bytes.{is_digit};
ghost use Rattle.command_line.specs.Command.{is_positive_number, number_given};

use ste_base::read_number;

/// Whether each byte is a decimal digit.
fn are_digits(text: &[u8]) -> bool
    ensures { result ≡ list_all is_digit text.now }
{
    text.iter().all(|byte| byte.is_ascii_digit())
}

/// Whether a text is decimal digits, the first of which is not 0.
fn is_number(text: &[u8]) -> bool
    ensures { result ≡ is_positive_number text.now }
{
    match text {
        [] => false,
        [first, ..] => *first != b'0' && are_digits(text),
    }
}

/// The number from 1 to `greatest` that a text gives in decimal digits, without a sign and without
/// a leading zero. None for every other text. It takes no memory.
pub fn number_given(text: &str, greatest: u64) -> Option<u64>
    ensures given { result ≡ number_given greatest text.now }
    ensures within { IfSome result (λ number. number ≤ greatest) }
{
    let digits = text.as_bytes();
    if !is_number(digits) {
        return None;
    }
    match read_number(digits, greatest) {
        Ok(number) => Some(number),
        Err(_) => None,
    }
}
