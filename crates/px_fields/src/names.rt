// Fields by their names, the words of Connection fields, and the fields that a proxy doesn't pass on.
ghost use Rattle.std.specs.Prelude.{◌≡◌, ◌<◌, ◌≤◌, false, length, option_copied};
ghost use Rattle.std.specs.Str.{str_eq_ignore_ascii_case};
ghost use Rattle.px_fields.specs.Names.{has_name as has_name_spec, has_field as has_field_spec, first_field as first_field_spec, lists_word as lists_word_spec, is_connection_word as is_connection_word_spec, begins_with_letter, is_among_names, connection_names, request_names, is_held_back_of_request as is_held_back_of_request_spec, is_held_back_of_response as is_held_back_of_response_spec};

use crate::fields::Field;
use px_base::{cut, same_without_case, trim};

/// Whether the field has that name, without case (RFC 9110, section 5.1). The lengths come first, so that most fields cost no
/// call.
pub fn has_name(field: &Field, name: &[u8]) -> bool
    ensures { result ≡ has_name_spec name.now field.now }
{
    field.name.len() == name.len() && same_without_case(field.name.as_bytes(), name)
}

/// Whether a field of that name stands.
pub fn has_field(fields: &[Field], name: &[u8]) -> bool
    ensures { result ≡ has_field_spec name.now fields.now }
{
    fields.iter().any(|field| has_name(field, name))
}

/// The first field of that name.
pub fn first_field<'a>(fields: &'a [Field], name: &[u8]) -> Option<&'a Field>
    ensures { option_copied result ≡ first_field_spec name.now fields.now }
{
    fields.iter().find(|field| has_name(field, name))
}

/// Whether the word is one of a list between commas, without the white space around it and without case.
#[tactic(auto, unfolding(crate::specs::Names::lists_word))]
pub fn lists_word(word: &[u8], value: &[u8]) -> bool
    ensures { result ≡ lists_word_spec word.now value.now }
{
    let mut rest = Some(value);
    'words: while let Some(bytes) = rest {
        let (first, more) = cut(bytes, b',');
        if same_without_case(trim(first), word) {
            return true;
        }
        rest = more;
    }
    false
}

/// Whether the word is one of those of the Connection fields (RFC 9110, section 7.6.1).
pub fn is_connection_word(word: &[u8], fields: &[Field]) -> bool
    ensures { result ≡ is_connection_word_spec word.now fields.now }
{
    fields.iter().any(|field| has_name(field, b"Connection")
        && lists_word(word, field.value.as_bytes()))
}

/// Whether a field of that name isn't passed on of a request: the eight of a response, Host, Expect and
/// Proxy-Authorization.
#[inline(always)]
#[tactic(auto, unfolding(crate::specs::Names::is_held_back_of_request))]
pub fn is_held_back_of_request(name: &[u8]) -> bool
    ensures { result ≡ is_held_back_of_request_spec name.now }
{
    may_be_held_back(name) && (is_connection_name(name) || is_request_name(name))
}

/// Whether a field of that name isn't passed on of a response: Connection, Proxy-Connection, Keep-Alive, TE, Trailer,
/// Transfer-Encoding, Upgrade and Content-Length.
#[inline(always)]
#[tactic(auto, unfolding(crate::specs::Names::is_held_back_of_response))]
pub fn is_held_back_of_response(name: &[u8]) -> bool
    ensures { result ≡ is_held_back_of_response_spec name.now }
{
    may_be_held_back(name) && is_connection_name(name)
}

/// Whether a name that is held back has the length and the first letter of this one: most fields have others, and cost no more
/// than that.
#[inline(always)]
fn may_be_held_back(name: &[u8]) -> bool
    ensures { result ≡ false → is_held_back_of_request_spec name.now ≡ false }
{
    match name.len() {
        2 => begins_with(name, b't'),
        4 => begins_with(name, b'h'),
        6 => begins_with(name, b'e'),
        7 => begins_with(name, b't') || begins_with(name, b'u'),
        10 => begins_with(name, b'c') || begins_with(name, b'k'),
        14 => begins_with(name, b'c'),
        16 => begins_with(name, b'p'),
        17 => begins_with(name, b't'),
        19 => begins_with(name, b'p'),
        _ => false,
    }
}

/// Whether the first byte is that small letter or its capital.
#[inline(always)]
fn begins_with(name: &[u8], letter: u8) -> bool
    requires some { 0 < length name.now }
    requires letter { 32 ≤ letter }
    ensures { result ≡ false → begins_with_letter name.now letter ≡ false }
{
    name[0] == letter || name[0] == letter - 32
}

/// Whether a name is this one, without case. Most are written as the standards write them, so that is asked first.
#[inline(always)]
fn is_name(own: &[u8], name: &[u8]) -> bool
    ensures { result ≡ str_eq_ignore_ascii_case own.now name.now }
{
    own == name || same_without_case(own, name)
}

/// Whether fields of that name speak of one connection alone (RFC 9110, section 7.6.1), or it is Content-Length. A name is
/// compared only with those of its length.
fn is_connection_name(name: &[u8]) -> bool
    ensures { result ≡ is_among_names connection_names name.now }
{
    match name.len() {
        2 => is_name(b"TE", name),
        7 => is_name(b"Trailer", name) || is_name(b"Upgrade", name),
        10 => is_name(b"Connection", name) || is_name(b"Keep-Alive", name),
        14 => is_name(b"Content-Length", name),
        16 => is_name(b"Proxy-Connection", name),
        17 => is_name(b"Transfer-Encoding", name),
        _ => false,
    }
}

/// Whether it is a further name that a proxy answers for in a request.
fn is_request_name(name: &[u8]) -> bool
    ensures { result ≡ is_among_names request_names name.now }
{
    match name.len() {
        4 => is_name(b"Host", name),
        6 => is_name(b"Expect", name),
        19 => is_name(b"Proxy-Authorization", name),
        _ => false,
    }
}
