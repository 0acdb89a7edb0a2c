// The head at the front of a client's stream.
ghost use Rattle.std.specs.Prelude.{◌≡◌};
ghost use Rattle.px_serve.specs.Ends.{end_of_bytes};
ghost use Rattle.px_serve.specs.Sessions.{TakesHead};

use crate::ends::is_empty_lines;
use px_ends::{Ends, Outside};
use px_head::HEAD_LIMIT;
use px_judging::HeadSeen;
use px_notes::SessionEnd;
use px_streams::{ReadFault, StreamFront, read_front};
use std::alloc::Global;

/// How a session ends where the client's bytes end: in nothing but empty lines, or elsewhere in a head.
fn end_of_bytes(bytes: &[u8]) -> SessionEnd
    ensures { result ≡ end_of_bytes bytes.now }
{
    if is_empty_lines(bytes) {
        SessionEnd::Ended
    } else {
        SessionEnd::Cut
    }
}

/// The head of the next request, or how the session ends before it.
pub fn next_head<A: Outside>(alloc: Global, ends: &mut Ends<A>) -> Result<HeadSeen, SessionEnd>
    ensures { TakesHead ends.old ends.new result }
{
    match read_front(
        alloc,
        &mut ends.client.source,
        &mut ends.client.ahead,
        HEAD_LIMIT,
    ) {
        Ok(StreamFront::Block(block)) => Ok(HeadSeen::Block(block)),
        Ok(StreamFront::Over) => Ok(HeadSeen::Over),
        Ok(StreamFront::End) => Err(end_of_bytes(ends.client.ahead.as_bytes())),
        Err(ReadFault::Failed) => Err(SessionEnd::ReadFailed),
        Err(ReadFault::Mem) => Err(SessionEnd::NoMemory),
    }
}
