// A dial of a server, and the handshake with it.
ghost use Rattle.std.specs.Prelude.{◌≡◌, ◌≤◌, IsTrue, IfOk, IfErr, length, ◌≢◌, Err};
ghost use Rattle.px_base.specs.Dials.{DialerGoesOn, IsFresh, met};
ghost use Rattle.px_socks.specs.Serving.{ServesDial, IsBehindHandshake, IsOpenLink, IsBegun, Hung, CameOf, LeavesBehind};

use crate::handshakes::{GREETING_LENGTH, Refusal, handshake};
use crate::{HandshakePassage, SocksSink, SocksSource};
use px_base::{DialFault, LocalDialer, Text};

/// Why a server gave no link.
#[derive(Clone, Copy, Debug, PartialEq, Eq)]
pub enum ServerStop {
    /// The server's name wasn't found, it wasn't reached, or the handshake was refused and the link hung up.
    Refused,
    /// Memory was wanting in the handshake, and the link was hung up.
    Lost,
    /// Memory was wanting in the dial, and nothing was dialled.
    Mem,
}

/// The handshake over a link that is just dialled. Where it gives no link, that link is hung up.
fn handshake_over<D: LocalDialer>(
    inner: &mut D,
    link: (D::In, D::Out),
    messages: Text,
    again: Text,
) -> Result<(SocksSource<D::In>, SocksSink<D::Out>), ServerStop>
    requires whole { GREETING_LENGTH ≤ length messages }
    requires twice { again ≡ messages }
    requires fresh { IsFresh (record { link_in = D.In.state link.0; link_out = D.Out.state link.1 }) }
    requires told { IsTrue (D.state inner.old).tells → IsOpenLink (D.state inner.old) (D.In.state link.0) (D.Out.state link.1) }
    ensures behind { IfOk result (IsBehindHandshake (D.In.state link.0) (D.Out.state link.1) messages) }
    ensures same { IfOk result (λ _. D.state inner.new ≡ D.state inner.old) }
    ensures never_mem { result ≢ Err ServerStop.Mem }
    ensures hung { IfErr result (Hung (D.state inner.old) (D.state inner.new) (D.In.state link.0) (D.Out.state link.1) messages) }
    ensures goes_on { DialerGoesOn (D.state inner.old) (D.state inner.new) }
{
    let (mut link_in, mut link_out) = link;
    match handshake(&mut link_in, &mut link_out, messages.as_bytes()) {
        Ok(heard) => Ok((
            SocksSource::new(link_in, HandshakePassage { heard, messages }),
            SocksSink::new(
                link_out,
                HandshakePassage {
                    heard,
                    messages: again,
                },
            ),
        )),
        Err(Refusal::NotReached) => {
            inner.hang_up(link_in, link_out);
            Err(ServerStop::Refused)
        }
        Err(Refusal::Mem) => {
            inner.hang_up(link_in, link_out);
            Err(ServerStop::Lost)
        }
    }
}

/// Dials the server, and asks it for a link to the target by these messages. `again` is a copy of them: each end keeps them.
pub fn dial_server<D: LocalDialer>(
    inner: &mut D,
    host: &[u8],
    port: u16,
    messages: Text,
    again: Text,
) -> Result<(SocksSource<D::In>, SocksSink<D::Out>), ServerStop>
    requires whole { GREETING_LENGTH ≤ length messages }
    requires twice { again ≡ messages }
    ensures dials { IsTrue (D.state inner.old).tells → ServesDial (D.state inner.old) (D.state inner.new) host.now port messages result }
    ensures begun { IfOk result (λ link. IsBegun link.1.passage link.0.source link.1.sink) }
    ensures one_passage { IfOk result (λ link. link.0.passage ≡ link.1.passage) }
    ensures messages_sent { IfOk result (λ link. link.1.passage.messages ≡ messages) }
    ensures came { IsTrue (D.state inner.old).tells → IsTrue (D.state inner.old).tells_coming → CameOf (met (D.state inner.old) host.now) result }
    ensures coming_left { IsTrue (D.state inner.old).tells_coming → LeavesBehind (D.state inner.old) (D.state inner.new) host.now result }
    ensures goes_on { DialerGoesOn (D.state inner.old) (D.state inner.new) }
{
    match inner.dial(host, port) {
        Ok(link) => handshake_over(inner, link, messages, again),
        Err(DialFault::NoName) => Err(ServerStop::Refused),
        Err(DialFault::NotReached) => Err(ServerStop::Refused),
        Err(DialFault::Mem) => Err(ServerStop::Mem),
    }
}
