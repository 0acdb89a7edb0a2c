// Sends a message.
ghost use Rattle.std.specs.Prelude.{◌≡◌, ◌++◌, [], IsTrue};
ghost use Rattle.px_base.specs.Sinks.{SinkGoesOn};
ghost use Rattle.px_base.specs.Sources.{SourceGoesOn};
ghost use Rattle.px_sending.specs.Sends.{RoseWhere, Sends, interim_for, is_link_failed, is_read_failed, is_write_failed};

use crate::pieces::send_body;
use px_base::{Sink, SinkFault, Source, write_all};
use px_notes::{Message, Sent};
use px_streams::Ahead;
use std::alloc::Global;

/// What is written to a client that waits for it (RFC 9110, section 15.2.1).
const CONTINUE: &[u8] = b"HTTP/1.1 100 Continue\r\n\r\n";

/// Sends a message's head, asks the client for the body where it waits for that, and sends the body as it comes, each piece of
/// at most 8,192 bytes before the next is read. Bytes behind the body stay in `ahead`.
pub fn send<S: Source, P: Sink, O: Sink>(
    alloc: Global,
    message: &Message,
    client_in: &mut S,
    ahead: &mut Ahead,
    link_out: &mut P,
    client_out: &mut O,
) -> Sent
    ensures sends { IsTrue (S.state client_in.old).tells → IsTrue (P.state link_out.old).tells → IsTrue (O.state client_out.old).tells
        → Sends message.now (ahead.old ++ (S.state client_in.old).left) (ahead.new ++ (S.state client_in.new).left) (P.state link_out.old).taken (P.state link_out.new).taken (O.state client_out.old).taken (O.state client_out.new).taken result }
    ensures all_read { result ≡ Sent.ReadFailed → ahead.new ≡ [] }
    ensures read_cause { RoseWhere (is_read_failed result) (S.state client_in.old).faults (S.state client_in.new).faults }
    ensures link_cause { RoseWhere (is_link_failed result) (P.state link_out.old).faults (P.state link_out.new).faults }
    ensures write_cause { RoseWhere (is_write_failed result) (O.state client_out.old).faults (O.state client_out.new).faults }
    ensures link_open { (P.state link_out.new).finished ≡ (P.state link_out.old).finished }
    ensures open { (O.state client_out.new).finished ≡ (O.state client_out.old).finished }
    ensures in_goes_on { SourceGoesOn (S.state client_in.old) (S.state client_in.new) }
    ensures link_goes_on { SinkGoesOn (P.state link_out.old) (P.state link_out.new) }
    ensures out_goes_on { SinkGoesOn (O.state client_out.old) (O.state client_out.new) }
{
    match write_all(link_out, message.head.as_bytes()) {
        Err(SinkFault::Failed) => Sent::LinkFailed,
        Err(SinkFault::Mem) => Sent::NoMemory,
        Ok(()) => match write_all(client_out, interim(message.expects)) {
            Err(SinkFault::Failed) => Sent::WriteFailed,
            Err(SinkFault::Mem) => Sent::NoMemory,
            Ok(()) => send_body(alloc, message.rule, client_in, ahead, link_out),
        },
    }
}

/// What is written to the client between head and body.
fn interim(expects: bool) -> &'static [u8]
    ensures { result.now ≡ interim_for expects }
{
    if expects { CONTINUE } else { b"" }
}
