// Heads of responses.
ghost use Rattle.std.specs.Prelude.{◌≡◌, ◌==◌, ◌≤◌, [], length, map, count_by, All, IfOk, IfSome, IfNone};
ghost use Rattle.httparse.specs.Grammar as grammar;
ghost use Rattle.httparse.specs.Spans.{IsWithin, IsHeaderWithin, IsResponseWithin, IsResponseOf, span_bytes};
ghost use Rattle.px_head.specs.Fields.{field_at};
ghost use Rattle.px_head.specs.Heads.{IsNoResponse, is_interim};

use crate::FIELD_LIMIT;
use crate::faults::HeadFault;
use crate::fields::{copy_fields, room_for};
use crate::prints::{push_reason, push_status, push_version};
use httparse::Status;
use httparse::spans::{HeaderSpan, ResponseSpans, parse_response};
use px_base::{List, Mem, Text};
use px_fields::Field;
use std::alloc::Global;

/// Room for the version, the status and two spaces in a status line.
const STATUS_ROOM: usize = 17;

/// The head of a response of HTTP/1.0 or 1.1.
#[derive(Drop)]
pub struct ResponseHead {
    /// The minor number of the version.
    pub minor: u8,
    pub status: u16,
    /// The reason phrase as its bytes came.
    pub reason: Text,
    pub fields: List<Field>,
}

impl ResponseHead {
    ghost use Rattle.px_head.specs.Faults.{ComesExactly, IsHeadReadAs};
    ghost use Rattle.px_head.specs.Heads.{IsResponse, IsNoResponse, HasManyResponseFields};
    ghost use Rattle.px_head.specs.Prints.{status_line};

    /// Reads a block that is one whole head (RFC 9112, sections 2, 4 and 5), as `httparse` reads it in its default
    /// configuration.
    ///
    /// # Errors
    /// `Malformed` where the block isn't one whole head, `TooManyFields` where it is one of more than `FIELD_LIMIT` fields.
    pub fn read(alloc: Global, block: &[u8]) -> Result<ResponseHead, HeadFault>
        ensures head { IfOk result (IsResponse block.now) }
        ensures malformed { ComesExactly result HeadFault.Malformed (IsNoResponse block.now) }
        ensures too_many { ComesExactly result HeadFault.TooManyFields (HasManyResponseFields block.now) }
        ensures read { (head : ResponseHead) → IsResponse block.now head → IsHeadReadAs result head }
    {
        let mut room = room_for(alloc, block)?;
        let spans = room.as_mut_slice();
        let Some(found) = whole_response(block, spans) else {
            return Err(HeadFault::Malformed);
        };
        if found.headers > FIELD_LIMIT {
            return Err(HeadFault::TooManyFields);
        }
        Ok(build(alloc, block, found, &spans[..found.headers])?)
    }

    /// The status line without its end: version, status and reason (RFC 9112, section 4). Without a reason it ends behind
    /// the status.
    #[tactic(auto, unfolding(crate::specs::Prints::status_line))]
    pub fn first_line(&self, alloc: Global) -> Result<Text, Mem>
        ensures { IfOk result (λ line. line ≡ status_line self.now) }
    {
        let room = self.reason.len().saturating_add(STATUS_ROOM);
        let mut line = Text::with_capacity(alloc, room)?;
        push_version(&mut line, self.minor)?;
        line.push(b' ')?;
        push_status(&mut line, self.status)?;
        push_reason(&mut line, self.reason.as_bytes())?;
        Ok(line)
    }
}

/// Whether a head of this status comes before the answer's own: 1xx but 101, which changes the protocol (RFC 9110, section
/// 15.2).
pub fn is_interim(status: u16) -> bool
    ensures { result ≡ is_interim status }
{
    100 <= status && status <= 199 && status != 101
}

/// Where the parts of the head are that the whole block is.
fn whole_response(block: &[u8], room: &mut [HeaderSpan]) -> Option<ResponseSpans>
    requires { length room.old ≡ count_by (λ b. b == 10) block.now }
    ensures within { IfSome result (IsResponseWithin block.now room.new) }
    ensures whole { IfSome result (λ found. found.len ≡ length block.now) }
    ensures reads { IfSome result (IsResponseOf block.now room.new) }
    ensures none { IfNone result (IsNoResponse block.now) }
{
    match parse_response(block, room) {
        Ok(Status::Complete(found)) => {
            if found.len == block.len() {
                Some(found)
            } else {
                None
            }
        }
        Ok(Status::Partial) => None,
        Err(_) => None,
    }
}

/// Copies the parts.
fn build(
    alloc: Global,
    block: &[u8],
    found: ResponseSpans,
    spans: &[HeaderSpan],
) -> Result<ResponseHead, Mem>
    requires reason { IsWithin (length block.now) found.reason }
    requires spans { All (IsHeaderWithin (length block.now)) spans.now }
    ensures { IfOk result (λ head. head ≡ record {
      minor = found.version;
      status = found.code;
      reason = span_bytes block.now found.reason;
      fields = map (field_at block.now) spans.now;
    }) }
{
    Ok(ResponseHead {
        minor: found.version,
        status: found.code,
        reason: Text::from_bytes(alloc, found.reason.of(block))?,
        fields: copy_fields(alloc, block, spans)?,
    })
}
