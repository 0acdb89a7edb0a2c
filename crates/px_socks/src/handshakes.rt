// The handshake of RFC 1928 (sections 3, 4 and 6), as the client that offers no authentication and asks to be connected.
ghost use Rattle.std.specs.Prelude.{◌≡◌, ◌<◌, ◌≤◌, length, IsTrue, ◌++◌, IfOk, IfErr, OnOk, Err};
ghost use Rattle.px_base.specs.Causes.{Rose};
ghost use Rattle.px_base.specs.Sources.{SourceGoesOn};
ghost use Rattle.px_base.specs.Sinks.{SinkGoesOn};
ghost use Rattle.px_socks.specs.Messages.{messages, IsAccepted, Took};
ghost use Rattle.px_socks.specs.Shaking.{SendsToServer, SendsDue, IsHandshakeRefused};

use crate::replies::{read_method, read_reply};
use px_base::{Failed, LocalSink, LocalSource, Mem, SinkFault, Text, write_all};
use std::alloc::Global;

/// The length of the greeting in bytes.
pub const GREETING_LENGTH: usize = 3;

/// Why a handshake gives no link.
#[derive(Clone, Copy, Debug, PartialEq, Eq)]
pub enum Refusal {
    /// A read or a write of the link failed, or the server's bytes aren't those of a server that accepts.
    NotReached,
    /// Memory was wanting.
    Mem,
}

/// The greeting and the request (RFC 1928, sections 3 and 4), one behind the other: no authentication, and CONNECT to a
/// domain name. `Mem` where memory is wanting.
pub fn greeting_and_request(alloc: Global, target: &[u8], port: u16) -> Result<Text, Mem>
    requires short { length target.now < 256 }
    ensures messages { IfOk result (λ text. text ≡ messages target.now port) }
{
    let mut text = Text::with_capacity(alloc, 10 + target.len())?;
    text.push_all(&[5, 1, 0, 5, 1, 0, 3])?;
    text.push(target.len() as u8)?;
    text.push_all(target)?;
    text.push((port / 256) as u8)?;
    text.push((port % 256) as u8)?;
    Ok(text)
}

/// Sends one of the messages. After a refusal a front of it was sent.
fn send<O: LocalSink>(link_out: &mut O, message: &[u8]) -> Result<(), Refusal>
    ensures sent { SendsToServer (O.state link_out.old) (O.state link_out.new) result message.now }
    ensures ok { OnOk result ((O.state link_out.new).faults ≡ (O.state link_out.old).faults) }
    ensures refused { result ≡ Err Refusal.NotReached → Rose (O.state link_out.old).faults (O.state link_out.new).faults }
    ensures open { (O.state link_out.new).finished ≡ (O.state link_out.old).finished }
    ensures goes_on { SinkGoesOn (O.state link_out.old) (O.state link_out.new) }
{
    match write_all(link_out, message) {
        Ok(()) => Ok(()),
        Err(SinkFault::Failed) => Err(Refusal::NotReached),
        Err(SinkFault::Mem) => Err(Refusal::Mem),
    }
}

/// Sends the greeting, reads the method that the server selects, sends the request, and reads the reply. Gives how many bytes
/// of the server's were read; no byte behind the reply is one of them. `NotReached` comes where a read or a write failed, or
/// the server's bytes end before or leave the accepted form; `Mem` where the sink wants memory.
pub fn handshake<S: LocalSource, O: LocalSink>(
    link_in: &mut S,
    link_out: &mut O,
    messages: &[u8],
) -> Result<usize, Refusal>
    requires whole { GREETING_LENGTH ≤ length messages.now }
    ensures sent { IsTrue (O.state link_out.old).tells → IfOk result (λ _. (O.state link_out.new).taken ≡ (O.state link_out.old).taken ++ messages.now) }
    ensures due { IsTrue (S.state link_in.old).tells → IsTrue (O.state link_out.old).tells → IfErr result (SendsDue (S.state link_in.old) (S.state link_in.new) (O.state link_out.old) (O.state link_out.new) messages.now) }
    ensures accepted { IsTrue (S.state link_in.old).tells → IfOk result (λ count. Took IsAccepted count (S.state link_in.old).left (S.state link_in.new).left) }
    ensures ok_in { OnOk result ((S.state link_in.new).faults ≡ (S.state link_in.old).faults) }
    ensures ok_out { OnOk result ((O.state link_out.new).faults ≡ (O.state link_out.old).faults) }
    ensures refused { result ≡ Err Refusal.NotReached → IsHandshakeRefused (S.state link_in.old) (S.state link_in.new) (O.state link_out.old) (O.state link_out.new) }
    ensures open { (O.state link_out.new).finished ≡ (O.state link_out.old).finished }
    ensures in_goes_on { SourceGoesOn (S.state link_in.old) (S.state link_in.new) }
    ensures out_goes_on { SinkGoesOn (O.state link_out.old) (O.state link_out.new) }
{
    match send(link_out, &messages[..GREETING_LENGTH]) {
        Ok(()) => {}
        Err(refusal) => return Err(refusal),
    }
    let Ok(chosen) = read_method(link_in) else {
        return Err(Refusal::NotReached);
    };
    if !chosen {
        return Err(Refusal::NotReached);
    }
    match send(link_out, &messages[GREETING_LENGTH..]) {
        Ok(()) => {}
        Err(refusal) => return Err(refusal),
    }
    match read_reply(link_in) {
        Ok(Some(count)) => Ok(2 + count),
        Ok(None) => Err(Refusal::NotReached),
        Err(Failed) => Err(Refusal::NotReached),
    }
}
