// The head that goes to the next server.
ghost use Rattle.std.specs.Prelude.{◌≡◌, ◌++◌, IfOk, OnOk, if◌then◌else◌};
ghost use Rattle.std.specs.List.{list_any};
ghost use Rattle.px_head.specs.Prints.{crlf, field_lines};
ghost use Rattle.px_sending.specs.Heads.{asks_continue, expects_continue as expects_continue_spec, framing_fields, request_has_body as has_body_spec, next_head as next_head_spec, next_line, next_minor as next_minor_spec};

use itoa::Buffer;
use px_base::{Mem, Text, same_without_case};
use px_fields::{Field, has_name};
use px_framing::BodyRule;
use std::alloc::Global;
use std::marker::Model;

const LINE_END: &[u8] = b"\r\n";

/// What stands between a field's name and its value.
const FIELD_SEPARATOR: &[u8] = b": ";

/// The most bytes of a head beside method, target, host and the fields that are passed on.
const OTHER_ROOM: usize = 79;

/// What the head that goes to the next server says (RFC 9112, section 3.2).
#[derive(Drop)]
pub struct NextHead<'a> {
    pub method: &'a [u8],
    /// The path for an origin, the whole URL for a parent.
    pub target: &'a [u8],
    /// Host and port of the destination, whatever Host the client sent.
    pub host: &'a [u8],
    /// Whether HTTP/1.0 is spoken where the body allows it.
    pub downgrade: bool,
    /// The fields that are passed on, none of which is Host, Connection or says how the body is framed.
    pub fields: &'a [Field],
    pub rule: BodyRule,
}

impl<'a> Model for NextHead<'a> {
    ghost use Rattle.px_sending.specs.Heads.{Next};

    ghost Value = { Next };

    ghost view = { λ n. record { method = n.method.now; target = n.target.now; host = n.host.now; downgrade = n.downgrade; fields = n.fields.now; rule = n.rule } };
}

/// Whether the client waits for `100 Continue` (RFC 9110, section 10.1.1): the request is HTTP/1.1, it has a body, if only one
/// of length 0, and some Expect field's value is `100-continue` without case.
pub fn expects_continue(minor: u8, fields: &[Field], rule: BodyRule) -> bool
    ensures { result ≡ expects_continue_spec minor fields.now rule }
{
    minor == 1 && has_body(rule) && some_asks_continue(fields)
}

fn some_asks_continue(fields: &[Field]) -> bool
    ensures { result ≡ list_any asks_continue fields.now }
{
    fields.iter().any(|field| asks_continue(field))
}

fn asks_continue(field: &Field) -> bool
    ensures { result ≡ asks_continue field.now }
{
    has_name(field, b"Expect") && same_without_case(field.value.as_bytes(), b"100-continue")
}

fn has_body(rule: BodyRule) -> bool
    ensures { result ≡ has_body_spec rule }
{
    match rule {
        BodyRule::Absent => false,
        BodyRule::Length(_) => true,
        BodyRule::Chunked => true,
        BodyRule::ToClose => true,
    }
}

/// The head that goes to the next server, in one allocation: the request line, Host of the destination, the fields, how the
/// body is framed, and `Connection: close` (RFC 9112, sections 3.2, 6 and 9.6).
#[tactic(auto, unfolding(crate::specs::Heads::next_head))]
pub fn next_head(alloc: Global, next: &NextHead<'_>) -> Result<Text, Mem>
    ensures { IfOk result (λ head. head ≡ next_head_spec next.now) }
{
    let mut head = Vec::with_capacity(alloc, room_of(next))?;
    push_next_line(&mut head, next)?;
    push_line(&mut head, b"Host: ", next.host)?;
    push_fields(&mut head, next.fields)?;
    push_framing(&mut head, next.rule)?;
    head.extend_from_slice(b"Connection: close\r\n\r\n")?;
    Ok(Text::from_vec(head))
}

/// Room for the whole head.
fn room_of(next: &NextHead<'_>) -> usize {
    let mut room = OTHER_ROOM
        .saturating_add(next.method.len())
        .saturating_add(next.target.len())
        .saturating_add(next.host.len());
    for field in next.fields {
        room = room
            .saturating_add(field.name.len())
            .saturating_add(FIELD_SEPARATOR.len())
            .saturating_add(field.value.len())
            .saturating_add(LINE_END.len());
    }
    room
}

/// Adds the request line with its end.
#[tactic(auto, unfolding(px_head::specs::Prints::request_line))]
fn push_next_line(head: &mut Vec<u8>, next: &NextHead<'_>) -> Result<(), Mem>
    ensures { OnOk result (head.new.items ≡ head.old.items ++ next_line next.now ++ crlf) }
{
    head.extend_from_slice(next.method)?;
    head.extend_from_slice(b" ")?;
    head.extend_from_slice(next.target)?;
    push_line(
        head,
        b" HTTP/1.",
        Buffer::new()
            .format(next_minor(next.downgrade, next.rule))
            .as_bytes(),
    )
}

/// The minor version: chunks need HTTP/1.1.
fn next_minor(downgrade: bool, rule: BodyRule) -> u8
    ensures { result ≡ next_minor_spec downgrade rule }
{
    match rule {
        BodyRule::Chunked => 1,
        BodyRule::Absent => lower(downgrade),
        BodyRule::Length(_) => lower(downgrade),
        BodyRule::ToClose => lower(downgrade),
    }
}

fn lower(downgrade: bool) -> u8
    ensures { result ≡ (if downgrade then 0 else 1) }
{
    if downgrade { 0 } else { 1 }
}

/// Adds a line's start and its rest, with the line's end.
fn push_line(head: &mut Vec<u8>, start: &[u8], rest: &[u8]) -> Result<(), Mem>
    ensures { OnOk result (head.new.items ≡ head.old.items ++ (start.now ++ rest.now ++ crlf)) }
{
    head.extend_from_slice(start)?;
    head.extend_from_slice(rest)?;
    head.extend_from_slice(LINE_END)?;
    Ok(())
}

/// Adds the lines of fields, each with its end.
#[tactic(auto, unfolding(px_head::specs::Prints::field_lines))]
fn push_fields(head: &mut Vec<u8>, fields: &[Field]) -> Result<(), Mem>
    ensures { OnOk result (head.new.items ≡ head.old.items ++ field_lines fields.now) }
{
    for field in fields {
        head.extend_from_slice(field.name.as_bytes())?;
        push_line(head, FIELD_SEPARATOR, field.value.as_bytes())?;
    }
    Ok(())
}

/// Adds the line that says how the body is framed.
#[tactic(auto, unfolding(px_head::specs::Prints::field_lines))]
fn push_framing(head: &mut Vec<u8>, rule: BodyRule) -> Result<(), Mem>
    ensures { OnOk result (head.new.items ≡ head.old.items ++ field_lines (framing_fields rule)) }
{
    match rule {
        BodyRule::Absent => Ok(()),
        BodyRule::Length(count) => {
            push_line(
                head,
                b"Content-Length: ",
                Buffer::new().format(count).as_bytes(),
            )
        }
        BodyRule::Chunked => push_line(head, b"Transfer-Encoding: ", b"chunked"),
        BodyRule::ToClose => Ok(()),
    }
}
