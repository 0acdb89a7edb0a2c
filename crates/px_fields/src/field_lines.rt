// Field lines that are read.
ghost use Rattle.std.specs.Prelude.{◌≡◌, MatchOption, Some, None};
ghost use Rattle.std.specs.List.{list_all};
ghost use Rattle.httparse.specs.Grammar.{is_token_byte as is_token_byte_spec, is_token as is_token_spec};
ghost use Rattle.px_fields.specs.FieldLines.{is_value_byte, field_from as field_from_spec, read_field};

use px_base::{place, trim};

/// A field line in its parts.
#[derive(Clone, Copy, Debug)]
pub struct FieldLine<'a> {
    /// A token.
    pub name: &'a [u8],
    /// Without CR, LF and NUL, and without white space around it.
    pub value: &'a [u8],
}

/// The marks of a token, beside letters and digits (RFC 9110, section 5.6.2).
const TOKEN_MARKS: &[u8] = b"!#$%&'*+-.^_`|~";

#[tactic(auto, unfolding(httparse::specs::Grammar::is_token_byte))]
fn is_token_byte(byte: u8) -> bool
    ensures { result ≡ is_token_byte_spec byte }
{
    byte.is_ascii_alphanumeric() || TOKEN_MARKS.contains(&byte)
}

/// Whether a text is a token: one or more letters, digits and marks (RFC 9110, section 5.6.2).
pub fn is_token(text: &[u8]) -> bool
    ensures { result ≡ is_token_spec text.now }
{
    !text.is_empty() && are_token_bytes(text)
}

fn are_token_bytes(text: &[u8]) -> bool
    ensures { result ≡ list_all is_token_byte_spec text.now }
{
    text.iter().all(|byte| is_token_byte(*byte))
}

fn are_value_bytes(text: &[u8]) -> bool
    ensures { result ≡ list_all is_value_byte text.now }
{
    text.iter()
        .all(|byte| *byte != 0 && *byte != b'\n' && *byte != b'\r')
}

/// Reads a field line without its end: a token, a colon, and a value without CR, LF and NUL (RFC 9110, section 5). The white
/// space around the value is dropped.
#[tactic(auto, unfolding(crate::specs::FieldLines::read_field))]
pub fn read_field_line(text: &[u8]) -> Option<FieldLine<'_>>
    ensures { MatchOption result (read_field text.now ≡ None) (λ f. read_field text.now ≡ Some (record { name = f.name.now; value = f.value.now })) }
{
    match place(text, b':') {
        Some(at) => field_from(&text[..at], &text[at + 1..]),
        None => None,
    }
}

fn field_from<'a>(name: &'a [u8], value: &'a [u8]) -> Option<FieldLine<'a>>
    ensures { MatchOption result (field_from_spec name.now value.now ≡ None) (λ f. field_from_spec name.now value.now ≡ Some (record { name = f.name.now; value = f.value.now })) }
{
    if is_token(name) && are_value_bytes(value) {
        Some(FieldLine {
            name,
            value: trim(value),
        })
    } else {
        None
    }
}
