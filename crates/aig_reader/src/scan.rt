//! Where lines, words and names end; begin with `word`.

ghost use Rattle.std.specs.Prelude.{◌≡◌, ◌<◌, ◌∷◌, [], length, suc, take, drop, not, IfSome, MatchOption, unwrap_or};
ghost use Rattle.std.specs.List.{position};
ghost use Rattle.ste_base.specs.Bytes.{is_blank};
ghost use Rattle.blif_lines.specs.Lines.{is_line_feed, trimmed_text, words_of};
ghost use Rattle.aig_model.specs.Lines.{is_space};

use ste_base::is_blank;

/// The place of the first line feed.
pub fn line_feed(text: &[u8]) -> Option<usize>
    ensures { result ≡ position is_line_feed text.now }
{
    text.iter().position(|byte| *byte == b'\n')
}

/// The place of the first space.
pub fn space(text: &[u8]) -> Option<usize>
    ensures { result ≡ position is_space text.now }
{
    text.iter().position(|byte| *byte == b' ')
}

/// The place of the first blank.
fn blank(text: &[u8]) -> Option<usize>
    ensures { result ≡ position is_blank text.now }
{
    text.iter().position(|byte| is_blank(*byte))
}

/// The place of the first byte that is no blank.
fn no_blank(text: &[u8]) -> Option<usize>
    ensures { result ≡ position (λ byte. not (is_blank byte)) text.now }
{
    text.iter().position(|byte| !is_blank(*byte))
}

/// What stands before the byte at this place, and what stands after it; without a place all of the
/// text, and nothing.
pub fn cut(text: &[u8], place: Option<usize>) -> (&[u8], &[u8])
    requires { IfSome place (λ at. at < length text.now) }
    ensures front { result.0.now ≡ take (unwrap_or place (length text.now)) text.now }
    ensures back { result.1.now ≡ drop (suc (unwrap_or place (length text.now))) text.now }
{
    match place {
        Some(at) => (&text[..at], &text[at + 1..]),
        None => (text, &text[text.len()..]),
    }
}

/// The text from the byte at this place on; without a place nothing.
fn from(text: &[u8], place: Option<usize>) -> &[u8]
    requires { IfSome place (λ at. at < length text.now) }
    ensures { result.now ≡ drop (unwrap_or place (length text.now)) text.now }
{
    match place {
        Some(at) => &text[at..],
        None => &text[text.len()..],
    }
}

/// The text without the blanks at its end.
#[tactic(auto, using(blif_lines::proofs::Scanning::trim_back, blif_lines::proofs::Scanning::trim_stop))]
pub fn trimmed_text(text: &[u8]) -> &[u8]
    ensures { result.now ≡ trimmed_text text.now }
{
    let mut end = text.len();
    while end > 0 && is_blank(text[end - 1]) {
        end -= 1;
    }
    &text[..end]
}

/// The first word of a text, and what stands behind it.
pub fn word(text: &[u8]) -> Option<(&[u8], &[u8])>
    ensures { MatchOption result (words_of text.now ≡ [])
        (λ found. words_of text.now ≡ found.0.now ∷ words_of found.1.now) }
{
    let rest = from(text, no_blank(text));
    if rest.is_empty() {
        return None;
    }
    Some(cut(rest, blank(rest)))
}
