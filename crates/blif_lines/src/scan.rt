//! One physical line: where it ends, its comment and its backslash; begin with `cut` and `treat`.

ghost use Rattle.std.specs.Prelude.{◌≡◌, ◌≤◌, ◌-◌, ◌<◌, suc, length, take, drop, IfSome, unwrap_or, if◌then◌else◌};
ghost use Rattle.std.specs.List.{position};
ghost use Rattle.ste_base.specs.Bytes.{is_blank};
ghost use Rattle.blif_lines.specs.Lines.{is_line_feed, is_hash, before, trimmed_text, treated_line, is_continued, without_last};

use ste_base::is_blank;

/// The place of the first line feed.
pub fn line_feed(text: &[u8]) -> Option<usize>
    ensures { result ≡ position is_line_feed text.now }
{
    text.iter().position(|byte| *byte == b'\n')
}

/// The place of the first blank.
pub fn blank(text: &[u8]) -> Option<usize>
    ensures { result ≡ position is_blank text.now }
{
    text.iter().position(|byte| is_blank(*byte))
}

/// The place of the first `#`.
fn hash(text: &[u8]) -> Option<usize>
    ensures { result ≡ position is_hash text.now }
{
    text.iter().position(|byte| *byte == b'#')
}

/// What stands before the byte at this place, and what stands after it; without a place all of the
/// text, and nothing.
pub fn cut(text: &[u8], place: Option<usize>) -> (&[u8], &[u8])
    requires { IfSome place (λ at. at < length text.now) }
    ensures front { result.0.now ≡ take (unwrap_or place (length text.now)) text.now }
    ensures back { result.1.now ≡ drop (suc (unwrap_or place (length text.now))) text.now }
{
    match place {
        Some(at) => (&text[..at], &text[at + 1..]),
        None => (text, &text[text.len()..]),
    }
}

/// The line without its comment.
#[tactic(auto, using(crate::proofs::Scanning::front))]
fn without_comment(line: &[u8]) -> &[u8]
    ensures { result.now ≡ before is_hash line.now }
{
    cut(line, hash(line)).0
}

/// The text without the blanks at its end.
#[tactic(auto, using(crate::proofs::Scanning::trim_back, crate::proofs::Scanning::trim_stop))]
fn trim(text: &[u8]) -> &[u8]
    ensures { result.now ≡ trimmed_text text.now }
{
    let mut end = text.len();
    while end > 0 && is_blank(text[end - 1]) {
        end -= 1;
    }
    &text[..end]
}

/// A physical line without its comment, and then without the blanks at its end.
pub fn treat(line: &[u8]) -> &[u8]
    ensures { result.now ≡ treated_line line.now }
{
    trim(without_comment(line))
}

/// The line without a backslash at its end, and whether there is one.
pub fn without_backslash(line: &[u8]) -> (&[u8], bool)
    ensures body { result.0.now
        ≡ (if is_continued line.now then without_last line.now else line.now) }
    ensures continued { result.1 ≡ is_continued line.now }
{
    match line {
        [body @ .., b'\\'] => (body, true),
        _ => (line, false),
    }
}
