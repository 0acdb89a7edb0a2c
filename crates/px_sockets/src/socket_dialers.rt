// A dialer over TCP.
ghost use Rattle.std.specs.Prelude.{◌≡◌, ◌≢◌, ◌↔◌, Err, true, false, IfErr, IfOk};
ghost use Rattle.std.specs.IoError.{error_kind};
ghost use Rattle.std.specs.Net.Grammar.{IsIpText};
ghost use Rattle.std.specs.Str.{is_utf8};
ghost use Rattle.std.specs.declared.net.ip_addr.IpAddr.{IpAddr};
ghost use Rattle.px_sockets.specs.Untold.{untold_dialer, AreNew};

use crate::ends::{EndsFault, ends_with};
use crate::shared_sockets::{SocketSide, Work};
use crate::times::{between, now_millis};
use crate::tries::{NetTries, try_in_turn};
use crate::{SocketSink, SocketSource, Times, both_ends};
use px_base::{DialFault, Dialer, Sink, Source, as_text, raised};
use std::alloc::Global;
use std::io::ErrorKind;
use std::net::{HostAddrs, Net, TcpListener, TcpStream, ToSocketAddrs};
use std::sync::Arc;
use std::time::Duration;
use std::{io, rt};

/// Dials hosts over TCP. The ends of its links have its own mark.
#[derive(Drop)]
pub struct SocketDialer<'r> {
    alloc: Global,
    rt: &'r HostRuntime,
    times: Times,
    /// What the connection is at for which it dials: its client's socket waits otherwise while a link is in use.
    work: Option<Arc<Work>>,
    names: u64,
    reach: u64,
    link_reads: u64,
    link_writes: u64,
    opened: u64,
    hung_up: u64,
    mark: u64,
}

impl<'r> SocketDialer<'r> {
    /// A dialer over a network, with a mark and no faults.
    pub fn new(alloc: Global, rt: &'r HostRuntime, times: Times, mark: u64) -> SocketDialer<'r>
        ensures { ⟦<SocketDialer<'r> as Dialer>⟧.state result ≡ untold_dialer 0 0 0 0 0 0 mark }
    {
        SocketDialer {
            alloc,
            rt,
            times,
            work: None,
            names: 0,
            reach: 0,
            link_reads: 0,
            link_writes: 0,
            opened: 0,
            hung_up: 0,
            mark,
        }
    }

    /// A dialer for a client, whose reads wait longer while a link is in use.
    pub fn of_client(
        alloc: Global,
        rt: &'r HostRuntime,
        times: Times,
        client: &SocketSource<'r>,
        mark: u64,
    ) -> SocketDialer<'r>
        ensures { ⟦<SocketDialer<'r> as Dialer>⟧.state result ≡ untold_dialer 0 0 0 0 0 0 mark }
    {
        let mut dialer = SocketDialer::new(alloc, rt, times, mark);
        dialer.work = client.work();
        dialer
    }
}

/// Why a name has no addresses: it isn't found, or memory was wanting.
fn name_fault(error: &io::Error) -> DialFault
    ensures mem { (result ≡ DialFault.Mem) ↔ (error_kind error.now ≡ ErrorKind.OutOfMemory) }
    ensures never_not_reached { result ≢ DialFault.NotReached }
{
    if error.kind() == ErrorKind::OutOfMemory {
        DialFault::Mem
    } else {
        DialFault::NoName
    }
}

/// A stream to the first of these addresses that answers, within the time that is left. Each that others follow is tried for as
/// long as the times grant one address. Its one refusal is that none was reached.
pub fn connect_in_turn<R: Net<Listener = TcpListener, Stream = TcpStream> + rt::Clock>(
    rt: &R,
    times: &Times,
    left: Duration,
    addresses: HostAddrs,
) -> Result<TcpStream, DialFault>
    ensures refusal { IfErr result (λ fault. fault ≡ DialFault.NotReached) }
{
    let left = u64::try_from(left.as_millis()).unwrap_or(u64::MAX);
    let until = now_millis(rt).saturating_add(left);
    try_in_turn(&mut NetTries::new(rt), times.address, until, addresses)
}

/// A stream to the first address of a host that answers in time. An address in text isn't looked up, and a host that isn't UTF-8
/// is no name.
fn connect<'r>(
    rt: &'r HostRuntime,
    times: &Times,
    host: &[u8],
    port: u16,
) -> Result<TcpStream, DialFault>
    ensures no_text { is_utf8 host.now ≡ false → result ≡ Err DialFault.NoName }
    ensures address { is_utf8 host.now ≡ true → (ip : IpAddr) → IsIpText host.now ip → result ≢ Err DialFault.NoName }
{
    let began = now_millis(rt);
    let Some(name) = as_text(host) else {
        return Err(DialFault::NoName);
    };
    let addresses = match (name, port).to_socket_addrs(rt) {
        Ok(addresses) => addresses,
        Err(error) => return Err(name_fault(&error)),
    };
    let left = times.dial.saturating_sub(between(began, now_millis(rt)));
    connect_in_turn(rt, times, left, addresses)
}

impl<'r> SocketDialer<'r> {
    /// Both ends of a link over a stream.
    fn link_over(&self, stream: TcpStream) -> Result<(SocketSource<'r>, SocketSink<'r>), DialFault>
        ensures new { IfOk result (λ ends. AreNew self.now.mark (⟦<SocketSource<'r> as Source>⟧.state ends.0) (⟦<SocketSink<'r> as Sink>⟧.state ends.1)) }
        ensures refused { result ≢ Err DialFault.NoName }
    {
        let SocketDialer {
            alloc,
            rt,
            times,
            mark,
            ..
        } = *self;
        let work = match &self.work {
            Some(work) => Arc::try_clone(work).ok(),
            None => None,
        };
        let ends = match work {
            Some(work) => ends_with(alloc, rt, times, SocketSide::Link, work, stream, mark),
            None => both_ends(alloc, rt, times, SocketSide::Link, stream, mark),
        };
        match ends {
            Ok(ends) => Ok(ends),
            Err(EndsFault::Failed) => Err(DialFault::NotReached),
            Err(EndsFault::Mem) => Err(DialFault::Mem),
        }
    }

    /// A link to a host.
    fn link_to(
        &self,
        host: &[u8],
        port: u16,
    ) -> Result<(SocketSource<'r>, SocketSink<'r>), DialFault>
        ensures no_text { is_utf8 host.now ≡ false → result ≡ Err DialFault.NoName }
        ensures address { is_utf8 host.now ≡ true → (ip : IpAddr) → IsIpText host.now ip → result ≢ Err DialFault.NoName }
        ensures new { IfOk result (λ ends. AreNew self.now.mark (⟦<SocketSource<'r> as Source>⟧.state ends.0) (⟦<SocketSink<'r> as Sink>⟧.state ends.1)) }
    {
        match connect(self.rt, &self.times, host, port) {
            Ok(stream) => self.link_over(stream),
            Err(fault) => Err(fault),
        }
    }
}

impl<'r> Dialer for SocketDialer<'r> {
    type In = SocketSource<'r>;

    type Out = SocketSink<'r>;

    ghost state = { λ d. untold_dialer d.names d.reach d.link_reads d.link_writes d.opened d.hung_up d.mark };

    fn dial(
        &mut self,
        host: &[u8],
        port: u16,
    ) -> Result<(SocketSource<'r>, SocketSink<'r>), DialFault> {
        let link = self.link_to(host, port);
        self.names = raised(self.names, matches!(&link, Err(DialFault::NoName)));
        self.reach = raised(self.reach, matches!(&link, Err(DialFault::NotReached)));
        self.opened = raised(self.opened, matches!(&link, Ok(_)));
        link
    }

    fn hang_up(&mut self, link_in: SocketSource<'r>, link_out: SocketSink<'r>) {
        self.link_reads = raised(self.link_reads, link_in.has_failed());
        self.link_writes = raised(self.link_writes, link_out.has_failed());
        self.hung_up = raised(self.hung_up, true);
        link_in.rests();
    }
}
