//! The words that lines begin with; begin with `is_skipped`.

ghost use Rattle.std.specs.Prelude.{◌≡◌, bytes_eq, refl};
ghost use Rattle.blif_syntax.specs.Words.{is_one_of, skipped_words, left_out_words, left_out_types, begins_with_dot};

/// Whether a word has these characters.
pub fn is(word: &[u8], text: &str) -> bool
    ensures { result ≡ bytes_eq word.now text.now }
{
    word == text.as_bytes()
}

/// Whether a line with this first word is skipped.
pub fn is_skipped(word: &[u8]) -> bool
    ensures { result ≡ is_one_of skipped_words word.now }
{
    is(word, ".area")
        || is(word, ".delay")
        || is(word, ".wire_load_slope")
        || is(word, ".wire")
        || is(word, ".input_arrival")
        || is(word, ".default_input_arrival")
        || is(word, ".output_required")
        || is(word, ".default_output_required")
        || is(word, ".input_drive")
        || is(word, ".default_input_drive")
        || is(word, ".output_load")
        || is(word, ".default_output_load")
        || is(word, ".max_input_load")
        || is(word, ".default_max_input_load")
        || is(word, ".attr")
        || is(word, ".param")
        || is(word, ".cname")
}

/// Whether a line with this first word is left out.
pub fn is_left_out(word: &[u8]) -> bool
    ensures { result ≡ is_one_of left_out_words word.now }
{
    is(word, ".gate")
        || is(word, ".mlatch")
        || is(word, ".exdc")
        || is(word, ".start_kiss")
        || is(word, ".search")
        || is(word, ".blackbox")
        || is(word, ".conn")
}

/// Whether a latch of this type is left out.
pub fn is_left_out_type(word: &[u8]) -> bool
    ensures { result ≡ is_one_of left_out_types word.now }
{
    is(word, "ah") || is(word, "al") || is(word, "as")
}

/// Whether the word begins with a dot.
pub fn begins_with_dot(word: &[u8]) -> bool
    ensures { result ≡ begins_with_dot word.now }
{
    !word.is_empty() && word[0] == b'.'
}
