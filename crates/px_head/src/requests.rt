// Heads of requests.
ghost use Rattle.std.specs.Prelude.{◌≡◌, ◌==◌, ◌≤◌, [], length, map, count_by, All, IfOk, IfSome, IfNone};
ghost use Rattle.httparse.specs.Grammar as grammar;
ghost use Rattle.httparse.specs.Spans.{IsWithin, IsHeaderWithin, IsRequestWithin, IsRequestOf, span_bytes};
ghost use Rattle.px_head.specs.Fields.{field_at};
ghost use Rattle.px_head.specs.Heads.{IsNoRequest};

use crate::FIELD_LIMIT;
use crate::faults::HeadFault;
use crate::fields::{copy_fields, room_for};
use crate::prints::push_version;
use httparse::Status;
use httparse::spans::{HeaderSpan, RequestSpans, parse_request};
use px_base::{List, Mem, Text};
use px_fields::Field;
use std::alloc::Global;

/// Room for two spaces and the version in a request line.
const VERSION_ROOM: usize = 12;

/// The head of a request of HTTP/1.0 or 1.1.
#[derive(Drop)]
pub struct RequestHead {
    pub method: Text,
    pub target: Text,
    /// The minor number of the version.
    pub minor: u8,
    pub fields: List<Field>,
}

impl RequestHead {
    ghost use Rattle.px_head.specs.Faults.{ComesExactly, IsHeadReadAs};
    ghost use Rattle.px_head.specs.Heads.{IsRequest, IsNoRequest, HasManyRequestFields};
    ghost use Rattle.px_head.specs.Prints.{request_line};

    /// Reads a block that is one whole head (RFC 9112, sections 2, 3 and 5), as `httparse` reads it in its default
    /// configuration.
    ///
    /// # Errors
    /// `Malformed` where the block isn't one whole head, `TooManyFields` where it is one of more than `FIELD_LIMIT` fields.
    pub fn read(alloc: Global, block: &[u8]) -> Result<RequestHead, HeadFault>
        ensures head { IfOk result (IsRequest block.now) }
        ensures malformed { ComesExactly result HeadFault.Malformed (IsNoRequest block.now) }
        ensures too_many { ComesExactly result HeadFault.TooManyFields (HasManyRequestFields block.now) }
        ensures read { (head : RequestHead) → IsRequest block.now head → IsHeadReadAs result head }
    {
        let mut room = room_for(alloc, block)?;
        let spans = room.as_mut_slice();
        let Some(found) = whole_request(block, spans) else {
            return Err(HeadFault::Malformed);
        };
        if found.headers > FIELD_LIMIT {
            return Err(HeadFault::TooManyFields);
        }
        Ok(build(alloc, block, found, &spans[..found.headers])?)
    }

    /// The request line without its end: method, target and version (RFC 9112, section 3).
    #[tactic(auto, unfolding(crate::specs::Prints::request_line))]
    pub fn first_line(&self, alloc: Global) -> Result<Text, Mem>
        ensures { IfOk result (λ line. line ≡ request_line self.now) }
    {
        let room = self.method.len().saturating_add(self.target.len());
        let mut line = Text::with_capacity(alloc, room.saturating_add(VERSION_ROOM))?;
        line.push_all(self.method.as_bytes())?;
        line.push(b' ')?;
        line.push_all(self.target.as_bytes())?;
        line.push(b' ')?;
        push_version(&mut line, self.minor)?;
        Ok(line)
    }
}

/// Where the parts of the head are that the whole block is.
fn whole_request(block: &[u8], room: &mut [HeaderSpan]) -> Option<RequestSpans>
    requires { length room.old ≡ count_by (λ b. b == 10) block.now }
    ensures within { IfSome result (IsRequestWithin block.now room.new) }
    ensures whole { IfSome result (λ found. found.len ≡ length block.now) }
    ensures reads { IfSome result (IsRequestOf block.now room.new) }
    ensures none { IfNone result (IsNoRequest block.now) }
{
    match parse_request(block, room) {
        Ok(Status::Complete(found)) => {
            if found.len == block.len() {
                Some(found)
            } else {
                None
            }
        }
        Ok(Status::Partial) => None,
        Err(_) => None,
    }
}

/// Copies the parts.
fn build(
    alloc: Global,
    block: &[u8],
    found: RequestSpans,
    spans: &[HeaderSpan],
) -> Result<RequestHead, Mem>
    requires method { IsWithin (length block.now) found.method }
    requires path { IsWithin (length block.now) found.path }
    requires spans { All (IsHeaderWithin (length block.now)) spans.now }
    ensures { IfOk result (λ head. head ≡ record {
      method = span_bytes block.now found.method;
      target = span_bytes block.now found.path;
      minor = found.version;
      fields = map (field_at block.now) spans.now;
    }) }
{
    Ok(RequestHead {
        method: Text::from_bytes(alloc, found.method.of(block))?,
        target: Text::from_bytes(alloc, found.path.of(block))?,
        minor: found.version,
        fields: copy_fields(alloc, block, spans)?,
    })
}
