// By which rule a body is read.
ghost use Rattle.std.specs.Prelude.{◌≡◌};
ghost use Rattle.px_framing.specs.Rules.{are_chunked, codings_name, codings_of, end_chunked, body_fault_name, body_fault_number, is_bodiless as is_bodiless_spec, items_of, length_rule, lengths, lengths_name, request_rule, response_rule, has_values as stands_spec, field_values};
ghost use Rattle.px_framing.specs.Seen.{by_lengths as by_lengths_spec, field_seen, with_length_field, length_seen, seen_all, seen_one};

use crate::BODY_LIMIT;
use px_base::{cut, read_decimal, same_without_case, trim};
use px_fields::{Field, has_name};
use px_head::ResponseHead;
use std::error::Error;
use std::fmt;

/// By which rule a body is read.
#[derive(Clone, Copy, Debug, PartialEq, Eq)]
pub enum BodyRule {
    /// There is none.
    Absent,
    /// So many bytes.
    Length(u64),
    /// In chunks.
    Chunked,
    /// All bytes to the close.
    ToClose,
}

/// Why a head gives no rule.
#[derive(Clone, Copy, Debug, PartialEq, Eq)]
pub enum BodyFault {
    /// Two lengths differ.
    TwoLengths,
    /// A length isn't one or more digits of a number below 2^63.
    BadLength,
    /// Both Transfer-Encoding and Content-Length stand.
    LengthAndChunks,
    /// The codings of a request aren't `chunked` alone.
    UnknownCoding,
}

impl BodyFault {
    /// The number of the refusal.
    pub fn number(self) -> u8
        ensures { result ≡ body_fault_number self }
    {
        match self {
            BodyFault::TwoLengths => 37,
            BodyFault::BadLength => 38,
            BodyFault::LengthAndChunks => 39,
            BodyFault::UnknownCoding => 40,
        }
    }

    /// The name of the refusal.
    pub fn name(self) -> &'static str
        ensures { result.now ≡ body_fault_name self }
    {
        match self {
            BodyFault::TwoLengths => "TwoLengths",
            BodyFault::BadLength => "BadLength",
            BodyFault::LengthAndChunks => "LengthAndChunks",
            BodyFault::UnknownCoding => "UnknownCoding",
        }
    }
}

impl fmt::Display for BodyFault {
    ghost use Rattle.std.specs.Prelude.{Some};
    ghost use Rattle.px_framing.specs.Rules.{body_fault_name};

    ghost output = { λ fault. Some (body_fault_name fault) };

    fn fmt<W: fmt::Write>(&self, f: &mut fmt::Formatter<W>) -> fmt::Result {
        let name = self.name();
        write!(f, "{name}")
    }
}

impl Error for BodyFault {}

/// By which rule a request's body is read (RFC 9112, section 6.3). It takes no memory.
///
/// # Errors
/// In this order: `LengthAndChunks`, `UnknownCoding`, `BadLength`, `TwoLengths`.
#[tactic(auto, unfolding(crate::specs::Rules::request_rule))]
pub fn request_body(fields: &[Field]) -> Result<BodyRule, BodyFault>
    ensures { result ≡ request_rule fields.now }
{
    if stands(fields, b"Transfer-Encoding") {
        if stands(fields, b"Content-Length") {
            Err(BodyFault::LengthAndChunks)
        } else if read_codings(fields).alone {
            Ok(BodyRule::Chunked)
        } else {
            Err(BodyFault::UnknownCoding)
        }
    } else {
        read_lengths(fields, BodyRule::Absent)
    }
}

/// By which rule the body of a response to that method is read (RFC 9112, section 6.3). It takes no memory.
///
/// # Errors
/// In this order: `LengthAndChunks`, `BadLength`, `TwoLengths`; none for a response that has no body.
#[tactic(auto, unfolding(crate::specs::Rules::response_rule))]
pub fn response_body(head: &ResponseHead, method: &[u8]) -> Result<BodyRule, BodyFault>
    ensures { result ≡ response_rule head.now method.now }
{
    let fields = head.fields.as_slice();
    if is_bodiless(head.status, method) {
        Ok(BodyRule::Absent)
    } else if stands(fields, b"Transfer-Encoding") {
        if stands(fields, b"Content-Length") {
            Err(BodyFault::LengthAndChunks)
        } else if read_codings(fields).last {
            Ok(BodyRule::Chunked)
        } else {
            Ok(BodyRule::ToClose)
        }
    } else {
        read_lengths(fields, BodyRule::ToClose)
    }
}

/// Whether a response has no body: one to HEAD, or of status 1xx, 204 or 304.
fn is_bodiless(status: u16, method: &[u8]) -> bool
    ensures { result ≡ is_bodiless_spec status method.now }
{
    method == b"HEAD".as_slice()
        || (100 <= status && status <= 199)
        || status == 204
        || status == 304
}

/// Whether a field of that name stands.
fn stands(fields: &[Field], name: &[u8]) -> bool
    ensures { result ≡ stands_spec (field_values name.now fields.now) }
{
    for field in fields {
        if has_name(field, name) {
            return true;
        }
    }
    false
}

/// What codings were seen: whether there were any, whether they are `chunked` alone, and whether the last is `chunked`.
#[derive(Clone, Copy)]
pub struct CodingsSeen {
    pub any: bool,
    pub alone: bool,
    pub last: bool,
}

/// Reads the codings of all Transfer-Encoding fields.
pub fn read_codings(fields: &[Field]) -> CodingsSeen
    ensures alone { result.alone ≡ are_chunked (codings_of fields.now) }
    ensures last { result.last ≡ end_chunked (codings_of fields.now) }
{
    let mut seen = CodingsSeen {
        any: false,
        alone: false,
        last: false,
    };
    for field in fields {
        seen = read_field(field, seen);
    }
    seen
}

/// Goes on with the codings of one field.
fn read_field(field: &Field, seen: CodingsSeen) -> CodingsSeen
    ensures { result ≡ field_seen seen field.now }
{
    if has_name(field, b"Transfer-Encoding") {
        read_items(field.value.as_bytes(), seen)
    } else {
        seen
    }
}

/// Goes on with the codings of a list.
fn read_items(value: &[u8], seen: CodingsSeen) -> CodingsSeen
    ensures { result ≡ seen_all seen (items_of value.now) }
{
    let mut seen = seen;
    let mut rest = Some(value);
    'items: while let Some(bytes) = rest {
        let (first, more) = cut(bytes, b',');
        let coding = trim(first);
        if !coding.is_empty() {
            seen = read_coding(coding, seen);
        }
        rest = more;
    }
    seen
}

/// Goes on with one coding.
fn read_coding(coding: &[u8], seen: CodingsSeen) -> CodingsSeen
    ensures { result ≡ seen_one seen coding.now }
{
    let chunked = same_without_case(coding, b"chunked");
    CodingsSeen {
        any: true,
        alone: !seen.any && chunked,
        last: chunked,
    }
}

/// What lengths were seen: the first one, and whether others differ from it.
#[derive(Clone, Copy)]
pub struct Lengths {
    pub first: Option<u64>,
    pub differ: bool,
}

/// The rule that the Content-Length fields give, and that other rule where there are none.
fn read_lengths(fields: &[Field], other: BodyRule) -> Result<BodyRule, BodyFault>
    ensures { result ≡ length_rule other (lengths (field_values lengths_name fields.now)) }
{
    let mut seen = Lengths {
        first: None,
        differ: false,
    };
    for field in fields {
        match read_length(field, seen) {
            None => return Err(BodyFault::BadLength),
            Some(more) => seen = more,
        }
    }
    by_lengths(seen, other)
}

/// Goes on with one field, unless its value is no length.
fn read_length(field: &Field, seen: Lengths) -> Option<Lengths>
    ensures { result ≡ with_length_field seen field.now }
{
    if has_name(field, b"Content-Length") {
        match read_decimal(field.value.as_bytes(), BODY_LIMIT) {
            None => None,
            Some(length) => Some(add_length(length, seen)),
        }
    } else {
        Some(seen)
    }
}

/// Goes on with one length.
fn add_length(length: u64, seen: Lengths) -> Lengths
    ensures { result ≡ length_seen seen length }
{
    match seen.first {
        None => Lengths {
            first: Some(length),
            differ: seen.differ,
        },
        Some(first) => Lengths {
            first: Some(first),
            differ: seen.differ || length != first,
        },
    }
}

/// The rule that the lengths that were seen give.
fn by_lengths(seen: Lengths, other: BodyRule) -> Result<BodyRule, BodyFault>
    ensures { result ≡ by_lengths_spec other seen.first seen.differ }
{
    match seen.first {
        None => Ok(other),
        Some(length) => {
            if seen.differ {
                Err(BodyFault::TwoLengths)
            } else {
                Ok(BodyRule::Length(length))
            }
        }
    }
}
