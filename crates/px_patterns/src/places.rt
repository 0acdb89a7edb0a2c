// Texts, cut before the first byte of a kind.
ghost use Rattle.std.specs.Prelude.{◌≡◌, ◌==◌, ◌<◌, ◌≤◌, false, MatchOption, length, slice_index};
ghost use Rattle.std.specs.List.{before_first, list_all};
ghost use Rattle.px_patterns.specs.Places.{BeginsWithByte, HasPlace, IsCut, LacksPlace};
ghost use Rattle.px_patterns.specs.Urls.{begins_without_case, ends_host, is_address, is_address_byte};

use crate::{COLON, DOT, HASH, QUESTION_MARK, SLASH};
use memchr::memchr3;
use px_base::same_without_case;

/// The place of the first byte that equals `stop`.
pub fn place(stop: u8, bytes: &[u8]) -> Option<usize>
    ensures { MatchOption result (LacksPlace (λ b. b == stop) bytes.now) (HasPlace (λ b. b == stop) bytes.now) }
{
    px_base::place(bytes, stop)
}

/// Where the host part of a URL ends: before the first `/`, `?` or `#`, or at the text's end.
pub fn host_end(bytes: &[u8]) -> usize
    ensures end { result ≡ length (before_first ends_host bytes.now) }
    ensures within { result ≤ length bytes.now }
{
    match memchr3(SLASH, QUESTION_MARK, HASH, bytes) {
        Some(at) => at,
        None => bytes.len(),
    }
}

/// Where a host without brackets ends: before the first colon, or at the text's end.
pub fn name_end(bytes: &[u8]) -> usize
    ensures end { result ≡ length (before_first (λ b. b == COLON) bytes.now) }
    ensures within { result ≤ length bytes.now }
{
    match place(COLON, bytes) {
        Some(at) => at,
        None => bytes.len(),
    }
}

/// What stands before and behind the first `stop`, an ASCII character.
pub fn split_at(text: &str, stop: char) -> Option<(&str, &str)>
    requires { stop < 128 }
    ensures { MatchOption result (LacksPlace (λ b. b == stop) text.now) (λ parts. IsCut (λ b. b == stop) text.now parts.0.now parts.1.now) }
{
    text.split_once(stop)
}

/// What stands behind the first character, where that is `first`, an ASCII character.
pub fn behind_first(text: &str, first: char) -> Option<&str>
    requires some { 0 < first }
    requires ascii { first < 128 }
    ensures { MatchOption result ((slice_index text.now 0 == first) ≡ false) (λ rest. BeginsWithByte first text.now rest.now) }
{
    text.strip_prefix(first)
}

/// Whether a text begins with another, without case.
pub fn begins_with(text: &[u8], front: &[u8]) -> bool
    ensures { result ≡ begins_without_case text.now front.now }
{
    let end = front.len().min(text.len());
    same_without_case(&text[..end], front)
}

/// Whether a text is one or more hexadecimal digits, colons and dots.
pub fn is_address(text: &[u8]) -> bool
    ensures { result ≡ is_address text.now }
{
    !text.is_empty() && are_address_bytes(text)
}

fn are_address_bytes(text: &[u8]) -> bool
    ensures { result ≡ list_all is_address_byte text.now }
{
    text.iter().all(|byte| is_address_byte(*byte))
}

fn is_address_byte(byte: u8) -> bool
    ensures { result ≡ is_address_byte byte }
{
    byte.is_ascii_hexdigit() || byte == COLON || byte == DOT
}
