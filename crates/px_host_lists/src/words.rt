// The words of a line of a list.
ghost use Rattle.std.specs.Prelude.{◌≡◌, ◌∷◌, [], ◌<◌, ◌≤◌, MatchOption, IfSome, drop, length};
ghost use Rattle.std.specs.List.{position_or_len, prefix_len};
ghost use Rattle.px_host_lists.specs.Words.{begins_comment, is_space, unmarked, used_words};

use crate::{BANG, CARRIAGE_RETURN, FRONT_MARK, HASH};
use px_base::is_blank;

/// The bytes behind the byte order mark, where they begin with one.
pub(crate) fn unmarked(text: &[u8]) -> &[u8]
    ensures value { result.now ≡ unmarked text.now }
    ensures within { length result.now ≤ length text.now }
{
    if text.starts_with(&FRONT_MARK) {
        &text[FRONT_MARK.len()..]
    } else {
        text
    }
}

/// The next word of a line, and what follows it. From a comment on there is none.
pub(crate) fn next_word(text: &[u8]) -> Option<(&[u8], &[u8])>
    ensures words { MatchOption result (used_words text.now ≡ []) (λ found. used_words text.now ≡ found.0.now ∷ used_words found.1.now) }
    ensures shorter { IfSome result (λ found. length found.1.now < length text.now) }
{
    let rest = without_space(text);
    if rest.is_empty() {
        return None;
    }
    if begins_comment(rest) {
        return None;
    }
    Some(rest.split_at(word_end(rest)))
}

/// Whether a comment begins here.
fn begins_comment(text: &[u8]) -> bool
    ensures { result ≡ begins_comment text.now }
{
    !text.is_empty() && (text[0] == HASH || text[0] == BANG)
}

/// What follows the white space with which a text begins.
fn without_space(text: &[u8]) -> &[u8]
    ensures value { result.now ≡ drop (prefix_len is_space text.now) text.now }
    ensures within { length result.now ≤ length text.now }
{
    &text[space_end(text)..]
}

/// Where the white space ends with which a text begins.
fn space_end(text: &[u8]) -> usize
    ensures end { result ≡ prefix_len is_space text.now }
    ensures within { result ≤ length text.now }
{
    for (at, byte) in text.iter().enumerate() {
        if !is_space(*byte) {
            return at;
        }
    }
    text.len()
}

/// Where the first white space stands, or the text's length.
fn word_end(text: &[u8]) -> usize
    ensures end { result ≡ position_or_len is_space text.now }
    ensures within { result ≤ length text.now }
{
    for (at, byte) in text.iter().enumerate() {
        if is_space(*byte) {
            return at;
        }
    }
    text.len()
}

/// White space, to which the carriage return of CR LF belongs.
fn is_space(byte: u8) -> bool
    ensures { result ≡ is_space byte }
{
    is_blank(byte) || byte == CARRIAGE_RETURN
}
