// The words of a forward line.
ghost use Rattle.std.specs.Prelude.{◌≡◌, ◌≤◌, ◌+◌, drop, length, option_map};
ghost use Rattle.std.specs.List.{list_any, position_or_len};
ghost use Rattle.px_base.specs.Blanks.{is_blank};
ghost use Rattle.px_decide.specs.Forwards.{first_word, is_word, three_words, two_words, words_of};

use px_base::{is_blank, trim, white_end, white_place};

/// The two words of a value, if it has just two, with white space around them.
#[tactic(auto, unfolding(crate::specs::Forwards::two_words))]
pub(crate) fn two_words(value: &str) -> Option<(&str, &[u8])>
    ensures { option_map (λ words. (words.0.now, words.1.now)) result ≡ two_words value.now }
{
    let (first, rest) = first_word(value);
    if is_word(rest) {
        Some((first, rest))
    } else {
        None
    }
}

/// The three words of a value, if it has just three, with white space around them.
#[tactic(auto, unfolding(crate::specs::Forwards::three_words))]
pub(crate) fn three_words(value: &str) -> Option<(&str, &[u8], &[u8])>
    ensures { option_map (λ words. (words.0.now, (words.1.now, words.2.now))) result ≡ three_words value.now }
{
    let (first, rest) = first_word(value);
    match words_of(rest) {
        Some((second, third)) => Some((first, second, third)),
        None => None,
    }
}

/// The two words of a text without white space at its front, if it has just two.
fn words_of(text: &[u8]) -> Option<(&[u8], &[u8])>
    ensures { option_map (λ words. (words.0.now, words.1.now)) result ≡ words_of text.now }
{
    let end = word_end(text);
    let rest = trim(behind(text, end));
    if is_word(rest) {
        Some((&text[..end], rest))
    } else {
        None
    }
}

/// The first word of a value, and what stands behind it without white space around that.
fn first_word(value: &str) -> (&str, &[u8])
    ensures { (result.0.now, result.1.now) ≡ first_word value.now }
{
    let bytes = value.as_bytes();
    let start = white_end(bytes);
    let end = start + word_end(&bytes[start..]);
    (&value[start..end], trim(behind(bytes, end)))
}

/// Whether a text is one word.
fn is_word(text: &[u8]) -> bool
    ensures { result ≡ is_word text.now }
{
    !(text.is_empty() || has_blank(text))
}

fn has_blank(text: &[u8]) -> bool
    ensures { result ≡ list_any is_blank text.now }
{
    text.iter().any(|byte| is_blank(*byte))
}

/// Where the word ends with which bytes begin: at the first white space, or at their end.
#[tactic(auto, using(crate::proofs::WordLemmas::place_some, crate::proofs::WordLemmas::place_none))]
fn word_end(bytes: &[u8]) -> usize
    ensures end { result ≡ position_or_len is_blank bytes.now }
    ensures within { result ≤ length bytes.now }
{
    match white_place(bytes) {
        Some(at) => at,
        None => bytes.len(),
    }
}

/// What stands behind a place, which may be the end.
fn behind(bytes: &[u8], at: usize) -> &[u8]
    requires within { at ≤ length bytes.now }
    ensures { result.now ≡ drop (at + 1) bytes.now }
{
    if at < bytes.len() {
        &bytes[at + 1..]
    } else {
        &[]
    }
}
