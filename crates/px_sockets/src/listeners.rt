// A listener over TCP, for clients of this machine.
ghost use Rattle.std.specs.Prelude.{◌≡◌, IsErr, false, IfOk};
ghost use Rattle.std.specs.List.{Contains};
ghost use Rattle.std.specs.Net.Text.{ip_text};
ghost use Rattle.std.specs.Str.{is_utf8};
ghost use Rattle.std.specs.Net.Socket.{socket_port};
ghost use Rattle.std.specs.Net.ToAddrs.{host_addrs};
ghost use Rattle.px_sockets.specs.Bounds.{IsLoopback, IsAddressOf, IsAddressText};
ghost use Rattle.px_sockets.specs.Untold.{AreNew};

use crate::ends::EndsFault;
use crate::guests::Guests;
use crate::times::{PAUSE_MILLIS, SWEEP_MILLIS, WATCH_MILLIS, between, now_millis};
use crate::{SocketSide, SocketSink, SocketSource, Times, both_ends};
use px_base::{Mem, Peer, Sink, Source, Text, as_text};
use std::alloc::Global;
use std::fmt::{Display, Formatter, Write};
use std::io::ErrorKind;
use std::net::{HostAddrs, IpAddr, Net, SocketAddr, TcpListener, TcpStream, ToSocketAddrs};
use std::os::fd::OwnedFd;
use std::time::Duration;
use std::{fmt, io, thread};

/// A connection that came: both its ends, and who called.
#[derive(Drop)]
pub struct Caller<'r> {
    pub client_in: SocketSource<'r>,
    pub client_out: SocketSink<'r>,
    pub peer: Peer,
}

/// Why no connection was accepted: accepting it failed, or memory was wanting.
#[derive(Clone, Copy, Debug, PartialEq, Eq)]
pub enum CallerFault {
    Failed,
    Mem,
}

/// Why an address isn't listened at.
#[derive(Clone, Copy, Debug, PartialEq, Eq)]
pub enum ListenFault {
    /// Somebody listens there already.
    InUse,
    /// The system doesn't allow it, as for ports below 1024.
    NotAllowed,
    /// The host isn't text, isn't found or has no address of this machine alone.
    NoAddress,
    /// The system refused for another reason.
    Refused(ErrorKind),
}

impl Display for ListenFault {
    fn fmt<W: Write>(&self, f: &mut Formatter<W>) -> fmt::Result {
        match self {
            ListenFault::InUse => f.write_str("in use"),
            ListenFault::NotAllowed => f.write_str("not allowed"),
            ListenFault::NoAddress => f.write_str("no such address"),
            ListenFault::Refused(kind) => Display::fmt(kind, f),
        }
    }
}

/// Why a bind failed.
fn listen_fault(error: &io::Error) -> ListenFault {
    match error.kind() {
        ErrorKind::AddrInUse => ListenFault::InUse,
        ErrorKind::PermissionDenied => ListenFault::NotAllowed,
        ErrorKind::AddrNotAvailable => ListenFault::NoAddress,
        kind => ListenFault::Refused(kind),
    }
}

/// An address of this machine alone, and what listens at it.
#[derive(Drop)]
struct Bound {
    listener: TcpListener,
    address: SocketAddr,
}

/// Binds an address, which no other machine can reach. Nothing else binds one.
fn bind_loopback(rt: &HostRuntime, address: SocketAddr) -> io::Result<Bound>
    requires here { IsLoopback address }
    ensures address { IfOk result (λ bound. bound.address ≡ address) }
{
    match rt.bind(address) {
        Ok(listener) => Ok(Bound { listener, address }),
        Err(error) => Err(error),
    }
}

/// Binds the first of these addresses that has that port, is one of this machine alone and can be bound.
fn bind_first(rt: &HostRuntime, mut addresses: HostAddrs, port: u16) -> Result<Bound, ListenFault>
    ensures here { IfOk result (λ bound. IsLoopback bound.address) }
    ensures port { IfOk result (λ bound. socket_port bound.address ≡ port) }
    ensures among { IfOk result (λ bound. Contains (host_addrs addresses) bound.address) }
{
    let mut fault = ListenFault::NoAddress;
    for _ in 0..u64::MAX {
        let Some(address) = addresses.next() else {
            return Err(fault);
        };
        if address.ip().is_loopback() && address.port() == port {
            match bind_loopback(rt, address) {
                Ok(bound) => return Ok(bound),
                Err(error) => fault = listen_fault(&error),
            }
        }
    }
    Err(fault)
}

/// Takes connections at an address of this machine, and looks after those that end. Letting it go waits until all that ended are
/// closed, for as long as the times say at most.
#[derive(Drop)]
pub struct SocketListener<'r> {
    gate: Gate<'r>,
    /// The address that was bound.
    bound: SocketAddr,
    /// The host for which it listens.
    pub host: Text,
    /// The port for which it listens; 0 is any that is free.
    pub asked: u16,
    /// The port at which it listens: for port 0 the one that was free.
    pub port: u16,
}

/// What listens, and the connections that it gave. Letting it go waits for those that ended.
struct Gate<'r> {
    alloc: Global,
    rt: &'r HostRuntime,
    times: Times,
    listener: TcpListener,
    /// A second handle of the listener, by which its waits are bounded.
    handle: TcpStream,
    /// How long one accept of the system waits; none waits for good.
    wait: Option<Duration>,
    guests: Guests,
}

/// What becomes of an accept that failed.
#[derive(Clone, Copy)]
enum Outcome {
    /// Nobody came in time, or a client gave up: the next is waited for.
    Passed,
    /// Descriptors, buffers or the network are wanting, which may pass.
    Wanting,
    Fault,
}

/// Linux's numbers of errors that have no kind of their own: too many open files, of the system and of the process; a protocol
/// error, by which a client gave up; no buffers.
const ENFILE: i32 = 23;

const EMFILE: i32 = 24;

const EPROTO: i32 = 71;

const ENOBUFS: i32 = 105;

/// What becomes of an accept that failed so.
fn outcome_of(error: &io::Error) -> Outcome {
    match error.kind() {
        ErrorKind::WouldBlock | ErrorKind::Interrupted | ErrorKind::ConnectionAborted => {
            Outcome::Passed
        }
        ErrorKind::OutOfMemory
        | ErrorKind::NetworkDown
        | ErrorKind::NetworkUnreachable
        | ErrorKind::HostUnreachable => Outcome::Wanting,
        _ => match error.raw_os_error() {
            Some(EPROTO) => Outcome::Passed,
            Some(ENFILE | EMFILE | ENOBUFS) => Outcome::Wanting,
            _ => Outcome::Fault,
        },
    }
}

impl<'r> SocketListener<'r> {
    /// Listens at the first loopback address of a host that can be bound, at no other and at no other port; port 0 is any free port. A
    /// host that isn't UTF-8 is refused, and so is one with no loopback address.
    pub fn listen(
        alloc: Global,
        rt: &'r HostRuntime,
        times: Times,
        host: &[u8],
        port: u16,
    ) -> Result<SocketListener<'r>, ListenFault>
        ensures no_text { is_utf8 host.now ≡ false → IsErr result }
        ensures host { IfOk result (λ listener. listener.host ≡ host.now) }
        ensures port { IfOk result (λ listener. listener.asked ≡ port) }
        ensures here { IfOk result (λ listener. IsLoopback listener.bound) }
        ensures there { IfOk result (λ listener. IsAddressOf host.now port listener.bound) }
    {
        let Some(name) = as_text(host) else {
            return Err(ListenFault::NoAddress);
        };
        let Ok(kept) = Text::from_bytes(alloc, host) else {
            return Err(ListenFault::Refused(ErrorKind::OutOfMemory));
        };
        let Ok(addresses) = (name, port).to_socket_addrs(rt) else {
            return Err(ListenFault::NoAddress);
        };
        match bind_first(rt, addresses, port) {
            Ok(bound) => SocketListener::over(alloc, rt, times, kept, port, bound),
            Err(fault) => Err(fault),
        }
    }

    /// The listener with its port, which the system tells.
    fn over(
        alloc: Global,
        rt: &'r HostRuntime,
        times: Times,
        host: Text,
        asked: u16,
        bound: Bound,
    ) -> Result<SocketListener<'r>, ListenFault>
        ensures host { IfOk result (λ listener. listener.host ≡ host) }
        ensures port { IfOk result (λ listener. listener.asked ≡ asked) }
        ensures bound { IfOk result (λ listener. listener.bound ≡ bound.address) }
    {
        let Bound {
            listener,
            address: bound,
        } = bound;
        let second = listener.try_clone();
        match (listener.local_addr(), second) {
            (Ok(address), Ok(second)) => Ok(SocketListener {
                gate: Gate {
                    alloc,
                    rt,
                    times,
                    listener,
                    handle: TcpStream::from(OwnedFd::from(second)),
                    wait: None,
                    guests: Guests::new(alloc),
                },
                bound,
                host,
                asked,
                port: address.port(),
            }),
            (Err(error), _) | (_, Err(error)) => Err(listen_fault(&error)),
        }
    }

    /// Waits for a connection, and gives its ends that mark. One that its client gave up before it was accepted is passed
    /// over, and so is one that can't be set up, as where its client is gone. Where descriptors or buffers are wanting it is tried
    /// again, for as long as the times say. At a refusal the connection is closed. While it waits, it looks after connections that
    /// ended: what their clients still send is thrown away before they are closed.
    pub fn accept(&mut self, mark: u64) -> Result<Caller<'r>, CallerFault>
        ensures new { IfOk result (λ caller. AreNew mark (⟦<SocketSource<'r> as Source>⟧.state caller.client_in) (⟦<SocketSink<'r> as Sink>⟧.state caller.client_out)) }
        ensures peer { IfOk result (λ caller. IsAddressText caller.peer.address) }
        ensures host_same { self.new.host ≡ self.old.host }
        ensures asked_same { self.new.asked ≡ self.old.asked }
        ensures bound_same { self.new.bound ≡ self.old.bound }
    {
        self.gate.accept(mark)
    }
}

impl<'r> Gate<'r> {
    /// The next connection, as the listener gives it.
    fn accept(&mut self, mark: u64) -> Result<Caller<'r>, CallerFault>
        ensures new { IfOk result (λ caller. AreNew mark (⟦<SocketSource<'r> as Source>⟧.state caller.client_in) (⟦<SocketSink<'r> as Sink>⟧.state caller.client_out)) }
        ensures peer { IfOk result (λ caller. IsAddressText caller.peer.address) }
    {
        if self.guests.make_room().is_err() {
            return Err(CallerFault::Mem);
        }
        let pause = Duration::from_millis(PAUSE_MILLIS);
        let mut wanted = Duration::ZERO;
        for _ in 0..u64::MAX {
            self.look_after_guests();
            match self.listener.accept() {
                Ok((stream, address)) => match self.receive(stream, address.ip(), mark) {
                    Ok(caller) => return Ok(caller),
                    Err(CallerFault::Mem) => return Err(CallerFault::Mem),
                    Err(CallerFault::Failed) => wanted = Duration::ZERO,
                },
                Err(error) => match outcome_of(&error) {
                    Outcome::Passed => wanted = Duration::ZERO,
                    Outcome::Wanting if wanted < self.times.accept => {
                        thread::sleep(self.rt, pause);
                        wanted = wanted.saturating_add(pause);
                    }
                    _ => return Err(CallerFault::Failed),
                },
            }
        }
        Err(CallerFault::Failed)
    }

    /// Looks after connections that ended, and lets the next accept wait for so long that it comes back to them in time.
    fn look_after_guests(&mut self) {
        self.guests.look_after(now_millis(self.rt));
        let wait = if self.guests.is_empty() {
            None
        } else if self.guests.linger() {
            Some(Duration::from_millis(SWEEP_MILLIS))
        } else {
            Some(Duration::from_millis(WATCH_MILLIS))
        };
        if self.wait != wait && self.handle.set_read_timeout(wait).is_ok() {
            self.wait = wait;
        }
    }

    /// The ends of a connection, and its client's address in text.
    fn receive(
        &mut self,
        stream: TcpStream,
        address: IpAddr,
        mark: u64,
    ) -> Result<Caller<'r>, CallerFault>
        ensures peer { IfOk result (λ caller. caller.peer.address ≡ ip_text address) }
        ensures new { IfOk result (λ caller. AreNew mark (⟦<SocketSource<'r> as Source>⟧.state caller.client_in) (⟦<SocketSink<'r> as Sink>⟧.state caller.client_out)) }
    {
        let Ok(address) = address_text(self.alloc, address) else {
            return Err(CallerFault::Mem);
        };
        match both_ends(
            self.alloc,
            self.rt,
            self.times,
            SocketSide::Client,
            stream,
            mark,
        ) {
            Ok((client_in, client_out)) => {
                if let Some(socket) = client_in.shared() {
                    self.guests.add(socket);
                }
                Ok(Caller {
                    client_in,
                    client_out,
                    peer: Peer { address },
                })
            }
            Err(EndsFault::Mem) => Err(CallerFault::Mem),
            Err(EndsFault::Failed) => Err(CallerFault::Failed),
        }
    }
}

impl Drop for Gate<'_> {
    fn drop(self) {
        let Gate {
            alloc: _,
            rt,
            times,
            listener: _,
            handle: _,
            wait: _,
            guests,
        } = self;
        guests.see_out(rt, times.linger);
    }
}

/// An address in text: four numbers with dots, or groups with colons and no brackets (RFC 5952, section 4).
fn address_text(alloc: Global, address: IpAddr) -> Result<Text, Mem>
    ensures { IfOk result (λ text. text ≡ ip_text address) }
{
    let text = format!(in alloc; "{address}")?;
    Ok(Text::from_vec(text.into_bytes()))
}
