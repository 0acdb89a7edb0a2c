// What an answer's head settles.
ghost use Rattle.std.specs.Prelude.{◌≡◌, ◌++◌, [], ◌∷◌, IfOk, OnOk};
ghost use Rattle.std.specs.List.{list_all, list_any};
ghost use Rattle.px_framing.specs.Rules.{codings_of};
ghost use Rattle.px_answers.specs.Framings.{coding_fields, filters_if, form_by, framed_so, framing_of, answer_has_body, is_filter, is_length, is_filterable, is_identity, is_old, is_plainly_coded, joined_codings, length_fields, body_plan, raw_framing, stated_length};
ghost use Rattle.px_answers.specs.Forms.{length_field};

use crate::fields::{push_field, push_length};
use crate::forms::{Form, Framed};
use px_base::{List, Mem, Text, read_decimal, same_without_case};
use px_fields::{Field, has_name};
use px_filter_files::{FilterKind, Filters};
use px_framing::{BODY_LIMIT, BodyRule, is_chunked_alone, transfer_codings};
use px_head::ResponseHead;
use std::alloc::Global;

const CONTENT_ENCODING: &[u8] = b"Content-Encoding";

const TRANSFER_ENCODING: &[u8] = b"Transfer-Encoding";

/// The status of a part of a representation (RFC 9110, section 15.3.7).
const PARTIAL_CONTENT: u16 = 206;

/// What, beside an answer's head, says how it is returned.
#[derive(Drop)]
pub struct Terms {
    /// The minor number of the request's version.
    pub minor: u8,
    /// Whether the request lets the connection be kept, and the connection may have a further one.
    pub keep: bool,
    /// Whether the answer is a text, to which content filters may be applied.
    pub text: bool,
    /// The content filters that are named for the request.
    pub filters: List<Text>,
    /// The most raw bytes of a body that is filtered.
    pub limit: u64,
}

/// What the header actions made of an answer's head: the status line without its end, and the fields without those that frame
/// the body and without Connection.
#[derive(Drop)]
pub struct HeaderLines {
    pub first_line: Text,
    pub fields: List<Field>,
}

/// How the body of an answer is returned, by the answer's head as received.
#[derive(Drop)]
pub struct BodyPlan {
    /// By which rule the body is read.
    pub rule: BodyRule,
    /// Which bytes of an unfiltered body are returned.
    pub form: Form,
    /// What frames an unfiltered body: one field, or none.
    pub framing: List<Field>,
    /// The content filters by name. None: filtering is excluded by the head.
    pub filters: Option<List<Text>>,
    /// The most raw bytes of a body that is filtered.
    pub limit: u64,
    /// Whether the connection may be kept behind the answer.
    pub keep: bool,
}

impl BodyPlan {
    /// How the body of an answer with that head is returned, which is read by that rule. `files` are the filters that there are.
    #[tactic(auto, unfolding(crate::specs::Framings::body_plan))]
    pub fn new(
        alloc: Global,
        files: &Filters,
        head: &ResponseHead,
        rule: BodyRule,
        terms: Terms,
    ) -> Result<BodyPlan, Mem>
        ensures { IfOk result (λ plan. plan ≡ body_plan files.now head.now rule terms) }
    {
        let old = terms.minor == 0;
        let received = head.fields.as_slice();
        let form = form_by(old, rule, received);
        let codings = transfer_codings(alloc, received)?;
        let framing = framing_of(alloc, form, rule, received, codings.as_slice())?;
        let filterable = is_filterable(files, head, rule, &terms, codings.as_slice());
        let Terms {
            minor: _,
            keep,
            text: _,
            filters,
            limit,
        } = terms;
        Ok(BodyPlan {
            rule,
            form,
            framing,
            filters: if filterable { Some(filters) } else { None },
            limit,
            keep: keep && !old,
        })
    }

    /// What the head settles, of which the header actions made those lines.
    pub fn behind(self, lines: HeaderLines) -> Framed
        ensures { result ≡ framed_so self lines }
    {
        Framed {
            first_line: lines.first_line,
            fields: lines.fields,
            rule: self.rule,
            form: self.form,
            framing: self.framing,
            filters: self.filters,
            limit: self.limit,
            keep: self.keep,
        }
    }
}

/// The form of a body to a client of HTTP/1.0 (`old`) or 1.1.
fn form_by(old: bool, rule: BodyRule, received: &[Field]) -> Form
    ensures { result ≡ form_by old rule received.now }
{
    match rule {
        BodyRule::Absent => Form::Raw,
        BodyRule::Length(_) => Form::Raw,
        BodyRule::Chunked => {
            if old && is_chunked_alone(received) {
                Form::Plain
            } else {
                Form::Raw
            }
        }
        BodyRule::ToClose => Form::Raw,
    }
}

/// What frames an unfiltered body: one field, or none.
fn framing_of(
    alloc: Global,
    form: Form,
    rule: BodyRule,
    received: &[Field],
    codings: &[Text],
) -> Result<List<Field>, Mem>
    requires { codings.now ≡ codings_of received.now }
    ensures { IfOk result (λ framing. framing ≡ framing_of form rule received.now) }
{
    match form {
        Form::Raw => raw_framing(alloc, rule, received, codings),
        Form::Plain => Ok(List::new(alloc)),
    }
}

fn raw_framing(
    alloc: Global,
    rule: BodyRule,
    received: &[Field],
    codings: &[Text],
) -> Result<List<Field>, Mem>
    ensures { IfOk result (λ framing. framing ≡ raw_framing rule received.now codings.now) }
{
    match rule {
        BodyRule::Absent => match stated_length(received) {
            Some(len) => length_fields(alloc, len),
            None => Ok(List::new(alloc)),
        },
        BodyRule::Length(len) => length_fields(alloc, len),
        BodyRule::Chunked => coding_fields(alloc, codings),
        BodyRule::ToClose => coding_fields(alloc, codings),
    }
}

fn length_fields(alloc: Global, len: u64) -> Result<List<Field>, Mem>
    ensures { IfOk result (λ fields. fields ≡ length_field len ∷ []) }
{
    let mut fields = List::new(alloc);
    push_length(alloc, &mut fields, len)?;
    Ok(fields)
}

/// The field that names codings; none where there are none.
fn coding_fields(alloc: Global, codings: &[Text]) -> Result<List<Field>, Mem>
    ensures { IfOk result (λ fields. fields ≡ coding_fields codings.now) }
{
    let mut fields = List::new(alloc);
    if let Some((first, rest)) = codings.split_first() {
        let value = joined(alloc, first.as_bytes(), rest)?;
        push_field(alloc, &mut fields, TRANSFER_ENCODING, value)?;
    }
    Ok(fields)
}

/// The codings with a comma and a space between them.
fn joined(alloc: Global, first: &[u8], rest: &[Text]) -> Result<Text, Mem>
    ensures { IfOk result (λ text. text ≡ joined_codings (first.now ∷ rest.now)) }
{
    let mut text = Text::from_bytes(alloc, first)?;
    for coding in rest {
        text.push_all(b", ")?;
        text.push_all(coding.as_bytes())?;
    }
    Ok(text)
}

/// The length that the one Content-Length states.
fn stated_length(received: &[Field]) -> Option<u64>
    ensures { result ≡ stated_length received.now }
{
    for (at, field) in received.iter().enumerate() {
        if is_length(field) {
            if has_length(&received[at + 1..]) {
                return None;
            }
            return read_decimal(field.value.as_bytes(), BODY_LIMIT);
        }
    }
    None
}

#[tactic(auto, unfolding(crate::specs::Framings::is_length))]
fn is_length(field: &Field) -> bool
    ensures { result ≡ is_length field.now }
{
    has_name(field, b"Content-Length")
}

fn has_length(fields: &[Field]) -> bool
    ensures { result ≡ list_any is_length fields.now }
{
    fields.iter().any(|field| is_length(field))
}

/// Whether the head allows filters.
#[tactic(auto, unfolding(crate::specs::Framings::is_filterable))]
fn is_filterable(
    files: &Filters,
    head: &ResponseHead,
    rule: BodyRule,
    terms: &Terms,
    codings: &[Text],
) -> bool
    requires { codings.now ≡ codings_of head.now.fields }
    ensures { result ≡ is_filterable files.now head.now rule terms.now }
{
    let received = head.fields.as_slice();
    has_body(rule)
        && head.status != PARTIAL_CONTENT
        && terms.text
        && has_no_encoding(received)
        && is_plainly_coded(received, codings)
        && has_filter(files, terms.filters.as_slice())
}

/// Whether no coding is applied to the content (RFC 9110, section 8.4).
fn has_no_encoding(received: &[Field]) -> bool
    ensures { result ≡ list_all is_identity received.now }
{
    received.iter().all(|field| is_identity(field))
}

/// Whether one of the names is a content filter's.
fn has_filter(files: &Filters, names: &[Text]) -> bool
    ensures { result ≡ list_any (is_filter files.now) names.now }
{
    names.iter().any(|name| is_filter(files, name.as_bytes()))
}

/// Whether the transfer codings are none, or `chunked` alone.
fn is_plainly_coded(received: &[Field], codings: &[Text]) -> bool
    requires { codings.now ≡ codings_of received.now }
    ensures { result ≡ is_plainly_coded codings.now }
{
    codings.is_empty() || is_chunked_alone(received)
}

/// Whether a content filter has that name.
fn is_filter(files: &Filters, name: &[u8]) -> bool
    ensures { result ≡ is_filter files.now name.now }
{
    files.find(FilterKind::Content, name).is_some()
}

fn has_body(rule: BodyRule) -> bool
    ensures { result ≡ answer_has_body rule }
{
    match rule {
        BodyRule::Absent => false,
        BodyRule::Length(_) => true,
        BodyRule::Chunked => true,
        BodyRule::ToClose => true,
    }
}

/// Whether the field applies no coding to the content.
fn is_identity(field: &Field) -> bool
    ensures { result ≡ is_identity field.now }
{
    !has_name(field, CONTENT_ENCODING) || same_without_case(field.value.as_bytes(), b"identity")
}
