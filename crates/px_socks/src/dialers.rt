// A dialer through SOCKS servers over any dialer.
ghost use Rattle.std.specs.Prelude.{◌≡◌, ◌<◌, ◌≤◌, ◌++◌, ◌∷◌, [], IsTrue, IfOk, MatchBool, Some, false, length, vec_len, vec_capacity};
ghost use Rattle.px_base.specs.Dials.{linked, dialed, IsFresh, IsTold, met, agrees, LeavesComing, DialCause, DialerGoesOn};
ghost use Rattle.px_socks.specs.Ends.{socks_source, socks_sink};
ghost use Rattle.px_socks.specs.Dialers.{outer_state};
ghost use Rattle.px_socks.specs.Handshakes.{Handshakes};
ghost use Rattle.px_base.specs.DialNames.{is_dial_name, target_of, server_of};
ghost use Rattle.px_socks.specs.Notes.{no_handshake, IsTooLong};

use crate::handshakes::greeting_and_request;
use crate::servers::{ServerStop, dial_server};
use crate::{DialNote, HandshakePassage, SocksSink, SocksSource};
use px_base::{DialFault, Dialer, LocalDialer, Text, raised};
use px_dial_names::{DialName, read_name};
use std::alloc::Global;
use std::marker::Model;

/// The longest host of a target in bytes: a request tells its length in one byte (RFC 1928, section 5).
const LONGEST_HOST: usize = 255;

/// A dialer over another one. A host that is a dial name, `socks5://SERVER:PORT/TARGET`, is reached through that server by
/// SOCKS5 (RFC 1928), without authentication, by CONNECT and with the target's name sent on; every other host is dialled as it
/// is. A dial by a dial name is `NotReached` where the target's host has more than 255 bytes, the server's name isn't found or
/// it isn't reached, or the handshake is refused: a read or a write of its link failed, or the server's bytes end before or
/// aren't those of one that accepts. The link of a refused handshake is hung up. `NoName` comes from plain hosts alone.
#[derive(Drop)]
pub struct SocksDialer<D: LocalDialer> {
    inner: D,
    alloc: Global,
    // one for each dial that isn't left out for want of memory
    notes: Vec<DialNote>,
    names: u64,
    reach: u64,
    link_reads: u64,
    link_writes: u64,
    opened: u64,
    hung_up: u64,
}

impl<D: LocalDialer> Model for SocksDialer<D> {
    ghost use Rattle.std.specs.Prelude.{IsTrue};
    ghost use Rattle.px_socks.specs.Dialers.{KeptDialer};
    ghost use Rattle.px_socks.specs.Notes.{KeepsNotes};

    ghost Value = { KeptDialer };

    ghost view = { λ d. record { inner = D.state d.inner; notes = d.notes.items; names = d.names; reach = d.reach; link_reads = d.link_reads; link_writes = d.link_writes; opened = d.opened; hung_up = d.hung_up } };

    ghost invariant = { λ d. IsTrue (D.state d.inner).tells → KeepsNotes d.notes.items (D.state d.inner).dials };
}

/// Adds a note, for which there is room.
fn note_down(notes: &mut Vec<DialNote>, note: DialNote)
    requires room { vec_len notes.old < vec_capacity notes.old }
    ensures noted { notes.new.items ≡ notes.old.items ++ note ∷ [] }
{
    let _noted = notes.push(note);
}

/// The passage of a link to a plain host. Takes no memory.
fn no_handshake(alloc: Global) -> HandshakePassage
    ensures passage { result ≡ no_handshake }
{
    HandshakePassage {
        heard: 0,
        messages: Text::new(alloc),
    }
}

impl<D: LocalDialer> SocksDialer<D> {
    /// A dialer over one that, if it tells its dials, has dialled nothing. It takes no memory; its dials take their memory, a
    /// note for each, from `alloc`.
    pub fn new(alloc: Global, inner: D) -> SocksDialer<D>
        requires first { IsTrue (D.state inner).tells → (D.state inner).dials ≡ [] }
        ensures made { result ≡ record { inner = D.state inner; notes = []; names = 0; reach = 0; link_reads = 0; link_writes = 0; opened = 0; hung_up = 0 } }
    {
        SocksDialer {
            inner,
            alloc,
            notes: Vec::new(alloc),
            names: 0,
            reach: 0,
            link_reads: 0,
            link_writes: 0,
            opened: 0,
            hung_up: 0,
        }
    }

    /// Hands back the dialer below, whose dials are those behind this one's. Takes no memory.
    pub fn into_inner(self) -> D
        ensures inner { D.state result ≡ self.inner }
        ensures handshakes { IsTrue self.inner.tells → Handshakes (outer_state self).dials self.inner.dials }
    {
        let SocksDialer {
            inner,
            alloc: _,
            notes: _,
            names: _,
            reach: _,
            link_reads: _,
            link_writes: _,
            opened: _,
            hung_up: _,
        } = self;
        inner
    }

    /// A dial of a host that isn't a dial name: that of the dialer below.
    fn dial_plain(
        &mut self,
        host: &[u8],
        port: u16,
    ) -> Result<(SocksSource<D::In>, SocksSink<D::Out>), DialFault>
        requires plain { is_dial_name host.now ≡ false }
        ensures dials { IsTrue (outer_state self.old).tells → (outer_state self.new).dials ≡ (outer_state self.old).dials ++ dialed host.now port (linked socks_source socks_sink result) }
        ensures told { IsTrue (outer_state self.old).tells → IfOk (linked socks_source socks_sink result) (IsTold (outer_state self.old)) }
        ensures fresh { IfOk (linked socks_source socks_sink result) IsFresh }
        ensures coming { IsTrue (outer_state self.old).tells_coming → agrees (met (outer_state self.old) host.now) (linked socks_source socks_sink result) }
        ensures coming_left { IsTrue (outer_state self.old).tells_coming → LeavesComing (outer_state self.old) (outer_state self.new) host.now (linked socks_source socks_sink result) }
        ensures cause { DialCause (outer_state self.old) (outer_state self.new) result }
        ensures goes_on { DialerGoesOn (outer_state self.old) (outer_state self.new) }
    {
        if self.notes.reserve(1).is_err() {
            return Err(DialFault::Mem);
        }
        match self.inner.dial(host, port) {
            Ok((link_in, link_out)) => {
                note_down(&mut self.notes, DialNote::Plain);
                self.opened = raised(self.opened, true);
                Ok((
                    SocksSource::new(link_in, no_handshake(self.alloc)),
                    SocksSink::new(link_out, no_handshake(self.alloc)),
                ))
            }
            Err(DialFault::NoName) => {
                note_down(&mut self.notes, DialNote::Plain);
                self.names = raised(self.names, true);
                Err(DialFault::NoName)
            }
            Err(DialFault::NotReached) => {
                note_down(&mut self.notes, DialNote::Plain);
                self.reach = raised(self.reach, true);
                Err(DialFault::NotReached)
            }
            Err(DialFault::Mem) => Err(DialFault::Mem),
        }
    }

    /// A dial of a target whose host doesn't fit into a request: nothing is dialled. Always refused: `NotReached`, or `Mem`
    /// where memory for its note is wanting.
    fn refuse_long(
        &mut self,
        host: &[u8],
        port: u16,
    ) -> Result<(SocksSource<D::In>, SocksSink<D::Out>), DialFault>
        requires long { IsTooLong host.now }
        ensures dials { IsTrue (outer_state self.old).tells → (outer_state self.new).dials ≡ (outer_state self.old).dials ++ dialed host.now port (linked socks_source socks_sink result) }
        ensures told { IsTrue (outer_state self.old).tells → IfOk (linked socks_source socks_sink result) (IsTold (outer_state self.old)) }
        ensures fresh { IfOk (linked socks_source socks_sink result) IsFresh }
        ensures coming { IsTrue (outer_state self.old).tells_coming → agrees (met (outer_state self.old) host.now) (linked socks_source socks_sink result) }
        ensures coming_left { IsTrue (outer_state self.old).tells_coming → LeavesComing (outer_state self.old) (outer_state self.new) host.now (linked socks_source socks_sink result) }
        ensures cause { DialCause (outer_state self.old) (outer_state self.new) result }
        ensures goes_on { DialerGoesOn (outer_state self.old) (outer_state self.new) }
    {
        let name = Text::from_bytes(self.alloc, host)?;
        if self.notes.reserve(1).is_err() {
            return Err(DialFault::Mem);
        }
        note_down(&mut self.notes, DialNote::TooLong { name, port });
        self.reach = raised(self.reach, true);
        Err(DialFault::NotReached)
    }

    /// A dial of a target through a server: one dial of the server, and the handshake.
    fn dial_target(
        &mut self,
        host: &[u8],
        port: u16,
        parts: DialName<'_>,
    ) -> Result<(SocksSource<D::In>, SocksSink<D::Out>), DialFault>
        requires named { IsTrue (is_dial_name host.now) }
        requires target { parts.target.now ≡ target_of host.now }
        requires short { length (target_of host.now) ≤ 255 }
        requires server { server_of host.now ≡ Some (record { host = parts.server.now; port = parts.port }) }
        ensures dials { IsTrue (outer_state self.old).tells → (outer_state self.new).dials ≡ (outer_state self.old).dials ++ dialed host.now port (linked socks_source socks_sink result) }
        ensures told { IsTrue (outer_state self.old).tells → IfOk (linked socks_source socks_sink result) (IsTold (outer_state self.old)) }
        ensures fresh { IfOk (linked socks_source socks_sink result) IsFresh }
        ensures coming { IsTrue (outer_state self.old).tells_coming → agrees (met (outer_state self.old) host.now) (linked socks_source socks_sink result) }
        ensures coming_left { IsTrue (outer_state self.old).tells_coming → LeavesComing (outer_state self.old) (outer_state self.new) host.now (linked socks_source socks_sink result) }
        ensures cause { DialCause (outer_state self.old) (outer_state self.new) result }
        ensures goes_on { DialerGoesOn (outer_state self.old) (outer_state self.new) }
    {
        let name = Text::from_bytes(self.alloc, host)?;
        if self.notes.reserve(1).is_err() {
            return Err(DialFault::Mem);
        }
        let messages = greeting_and_request(self.alloc, parts.target, port)?;
        let again = Text::from_bytes(self.alloc, messages.as_bytes())?;
        match dial_server(&mut self.inner, parts.server, parts.port, messages, again) {
            Ok((link_in, link_out)) => {
                let heard = link_in.heard();
                note_down(&mut self.notes, DialNote::Accepted { name, port, heard });
                self.opened = raised(self.opened, true);
                Ok((link_in, link_out))
            }
            Err(ServerStop::Refused) => {
                note_down(&mut self.notes, DialNote::Refused { name, port });
                self.reach = raised(self.reach, true);
                Err(DialFault::NotReached)
            }
            Err(ServerStop::Lost) => {
                note_down(&mut self.notes, DialNote::Lost { name, port });
                Err(DialFault::Mem)
            }
            Err(ServerStop::Mem) => Err(DialFault::Mem),
        }
    }
}

impl<D: Dialer> Dialer for SocksDialer<D> {
    type In = SocksSource<D::In>;

    type Out = SocksSink<D::Out>;

    ghost state = { λ d. outer_state d };

    fn dial(
        &mut self,
        host: &[u8],
        port: u16,
    ) -> Result<(SocksSource<D::In>, SocksSink<D::Out>), DialFault> {
        match read_name(host) {
            Some(parts) => {
                if parts.target.len() > LONGEST_HOST {
                    self.refuse_long(host, port)
                } else {
                    self.dial_target(host, port, parts)
                }
            }
            None => self.dial_plain(host, port),
        }
    }

    fn hang_up(&mut self, link_in: SocksSource<D::In>, link_out: SocksSink<D::Out>) {
        self.link_reads = raised(self.link_reads, link_in.has_failed());
        self.link_writes = raised(self.link_writes, link_out.has_failed());
        self.hung_up = raised(self.hung_up, true);
        self.inner
            .hang_up(link_in.into_inner(), link_out.into_inner());
    }
}
