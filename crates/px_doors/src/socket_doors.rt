// Doors over TCP.
ghost use Rattle.std.specs.Prelude.{◌≡◌, IfOk, None, option_map};
ghost use Rattle.px_sockets.specs.Untold.{AreNew};
ghost use Rattle.px_sockets.specs.Bounds.{IsAddressText};
ghost use Rattle.px_ends.specs.Ends.{IsFreshEnds};
ghost use Rattle.px_ends.specs.Marks.{HasMark};
ghost use Rattle.px_doors.specs.Doors.{DoorsGoesOn, Parts, untold_doors};
ghost use Rattle.px_doors.specs.SocketDoors.{told_address};

use crate::{AcceptFault, Doors, ListenAddress, Parted};
use px_base::{Clock, Dialer, Failed, Sink, Source, SystemClock, as_text};
use px_ends::{Ends, Outside};
use px_sockets::{
    Caller, CallerFault, ListenFault, SocketDialer, SocketListener, SocketSink, SocketSource, Times,
};
use px_socks::SocksDialer;
use std::alloc::Global;
use std::fmt;
use std::fmt::{Display, Formatter, Write};
use std::marker::PhantomData;

/// The types of the ends of a connection over TCP.
#[derive(Drop)]
pub struct SocketConn<'r> {
    rt: PhantomData<&'r HostRuntime>,
}

impl<'r> Outside for SocketConn<'r> {
    type In = SocketSource<'r>;

    type Out = SocketSink<'r>;

    type Dial = SocksDialer<SocketDialer<'r>>;

    type Time = SystemClock<'r, HostRuntime>;
}

/// The ends of a connection over TCP.
pub type SocketEnds<'r> = Ends<SocketConn<'r>>;

/// A connection over TCP that was served.
pub type SocketParted<'r> = Parted<SocketConn<'r>>;

/// Takes connections over TCP from clients of this machine, and says on the error output where it listens, or why it can't. What
/// clients still send to connections that ended is thrown away for a while before they are closed. Each connection's dialer goes
/// through SOCKS servers where a host is a dial name. Letting the doors go waits until the connections that ended are closed.
#[derive(Drop)]
pub struct SocketDoors<'r> {
    alloc: Global,
    rt: &'r HostRuntime,
    times: Times,
    listener: Option<SocketListener<'r>>,
    accepted: u64,
    faults: u64,
}

impl<'r> SocketDoors<'r> {
    /// Doors that don't listen yet, whose connections wait by those times.
    pub fn new(alloc: Global, rt: &'r HostRuntime, times: Times) -> SocketDoors<'r>
        ensures { ⟦<SocketDoors<'r> as Doors>⟧.state result ≡ untold_doors None 0 0 }
    {
        SocketDoors {
            alloc,
            rt,
            times,
            listener: None,
            accepted: 0,
            faults: 0,
        }
    }

    /// The port at which the doors listen, if they do: for port 0 the one that was free.
    pub fn port(&self) -> Option<u16>
        ensures { result ≡ option_map (λ l. l.port) self.now.listener }
    {
        match &self.listener {
            Some(listener) => Some(listener.port),
            None => None,
        }
    }
}

/// An address as it stands in a configuration: a host with colons in brackets.
#[derive(Clone, Copy)]
struct Shown<'a> {
    address: &'a ListenAddress,
}

impl<'a> Display for Shown<'a> {
    fn fmt<W: Write>(&self, f: &mut Formatter<W>) -> fmt::Result {
        let host = as_text(self.address.host.as_bytes()).unwrap_or("?");
        let port = self.address.port;
        if host.contains(':') {
            write!(f, "[{host}]:{port}")
        } else {
            write!(f, "{host}:{port}")
        }
    }
}

/// Says on the error output where the doors listen. Where nobody reads it, nothing is lost.
fn tell_listening(rt: &HostRuntime, address: &ListenAddress) {
    let shown = Shown { address };
    let _told = eprintln!(rt; "helmthread: listens at {shown}");
}

/// Says on the error output why the doors can't listen.
fn tell_refusal(rt: &HostRuntime, address: &ListenAddress, fault: ListenFault) {
    let shown = Shown { address };
    let _told = eprintln!(rt; "helmthread: can't listen at {shown}: {fault}");
}

/// The next connection of a listener, with that mark. Without a listener the call fails.
fn next_caller<'r>(
    listener: &mut Option<SocketListener<'r>>,
    mark: u64,
) -> Result<Caller<'r>, CallerFault>
    ensures new { IfOk result (λ caller. AreNew mark (⟦<SocketSource<'r> as Source>⟧.state caller.client_in) (⟦<SocketSink<'r> as Sink>⟧.state caller.client_out)) }
    ensures peer { IfOk result (λ caller. IsAddressText caller.peer.address) }
    ensures told_same { told_address listener.new ≡ told_address listener.old }
{
    match listener {
        Some(listener) => listener.accept(mark),
        None => Err(CallerFault::Failed),
    }
}

/// The ends of a caller's connection: its dialer goes through SOCKS servers where a host is a dial name, and has its mark.
fn ends_of<'r>(
    alloc: Global,
    rt: &'r HostRuntime,
    times: Times,
    caller: Caller<'r>,
    mark: u64,
) -> SocketEnds<'r>
    requires new { AreNew mark (⟦<SocketSource<'r> as Source>⟧.state caller.client_in) (⟦<SocketSink<'r> as Sink>⟧.state caller.client_out) }
    ensures fresh { IsFreshEnds result }
    ensures mark { HasMark mark result }
    ensures peer { result.peer ≡ caller.entry.peer.address }
{
    let Caller {
        client_in,
        client_out,
        peer,
    } = caller;
    let dialer = SocketDialer::of_client(alloc, rt, times, &client_in, mark);
    Ends::new(
        alloc,
        client_in,
        client_out,
        SocksDialer::new(alloc, dialer),
        SystemClock::new(rt),
        peer,
    )
}

impl<'r> Doors for SocketDoors<'r> {
    type Conn = SocketConn<'r>;

    ghost state = { λ d. untold_doors (told_address d.listener) d.accepted d.faults };

    fn listen(&mut self, address: ListenAddress) -> Result<(), Failed> {
        let host = address.host.as_bytes();
        match SocketListener::listen(self.alloc, self.rt, self.times, host, address.port) {
            Ok(listener) => {
                tell_listening(self.rt, &address);
                self.listener = Some(listener);
                Ok(())
            }
            Err(fault) => {
                tell_refusal(self.rt, &address, fault);
                self.faults = self.faults.saturating_add(1);
                Err(Failed)
            }
        }
    }

    /// Waits for a connection. Doors that don't listen fail.
    fn accept(&mut self) -> Result<Option<SocketEnds<'r>>, AcceptFault> {
        match next_caller(&mut self.listener, self.accepted) {
            Ok(caller) => {
                let ends = ends_of(self.alloc, self.rt, self.times, caller, self.accepted);
                self.accepted += 1;
                Ok(Some(ends))
            }
            Err(CallerFault::Failed) => {
                self.faults = self.faults.saturating_add(1);
                Err(AcceptFault::Failed)
            }
            Err(CallerFault::Mem) => Err(AcceptFault::Mem),
        }
    }

    /// The client's socket is left to the doors' listener, which closes it when its client has had the time to read to the end.
    fn leave(client_in: &mut SocketSource<'r>, client_out: &mut SocketSink<'r>) {
        client_in.close();
        client_out.close();
    }

    /// It keeps none.
    fn rest(_dialer: &mut SocksDialer<SocketDialer<'r>>) {}

    fn part(&mut self, parted: &mut Option<SocketParted<'r>>) {
        drop(parted.take());
    }
}
