// The two ends of a TCP stream.
ghost use Rattle.std.specs.Prelude.{◌≡◌, ◌==◌, not, IfOk};
ghost use Rattle.std.specs.Io.{ReadsAtMost, WritesAtMost};
ghost use Rattle.px_base.specs.Sources.{untold_source};
ghost use Rattle.px_base.specs.Sinks.{untold_sink};
ghost use Rattle.px_sockets.specs.Untold.{AreNew};

use crate::Times;
use crate::shared_sockets::{SharedSocket, SocketSide, Work};
use crate::times::{LOOK_MILLIS, now_millis};
use px_base::{Failed, Rests, Sink, SinkFault, Source};
use px_socks::Looks;
use std::alloc::Global;
use std::io;
use std::io::{ErrorKind, Read, Write};
use std::net::TcpStream;
use std::sync::Arc;
use std::time::Duration;

/// Reads from a socket for as long as it may be waited for.
#[derive(Drop)]
struct SocketReader<'r> {
    rt: &'r HostRuntime,
    /// Its socket, until it is let go.
    socket: Option<Arc<SharedSocket>>,
    /// How long one read of the system waits, as it was last set.
    wait: Option<Duration>,
}

/// A source over a TCP stream. A reset is a fault, and so is a read that waits for longer than its times say: while nothing
/// moves on its socket, either way, or at a client without a link for a head.
#[derive(Drop)]
pub struct SocketSource<'r> {
    reader: SocketReader<'r>,
    faults: u64,
    mark: u64,
}

/// A sink over a TCP stream. A piece of which nothing is taken in time is a fault.
#[derive(Drop)]
pub struct SocketSink<'r> {
    rt: &'r HostRuntime,
    /// Its socket, until it is let go.
    socket: Option<Arc<SharedSocket>>,
    faults: u64,
    mark: u64,
}

/// Why a stream has no ends: it can't be set up, or memory was wanting.
#[derive(Clone, Copy, Debug, PartialEq, Eq)]
pub enum EndsFault {
    Failed,
    Mem,
}

/// Both ends of a stream, which share its socket. Bytes are sent at once, and reads and writes wait by those times. A stream that
/// can't be set so is closed.
pub fn both_ends<'r>(
    alloc: Global,
    rt: &'r HostRuntime,
    times: Times,
    side: SocketSide,
    stream: TcpStream,
    mark: u64,
) -> Result<(SocketSource<'r>, SocketSink<'r>), EndsFault>
    ensures { IfOk result (λ ends. AreNew mark (⟦<SocketSource<'r> as Source>⟧.state ends.0) (⟦<SocketSink<'r> as Sink>⟧.state ends.1)) }
{
    let Ok(work) = Arc::new(alloc, Work::none(now_millis(rt))) else {
        return Err(EndsFault::Mem);
    };
    ends_with(alloc, rt, times, side, work, stream, mark)
}

/// The same of a connection that is at something.
pub(crate) fn ends_with<'r>(
    alloc: Global,
    rt: &'r HostRuntime,
    times: Times,
    side: SocketSide,
    work: Arc<Work>,
    stream: TcpStream,
    mark: u64,
) -> Result<(SocketSource<'r>, SocketSink<'r>), EndsFault>
    ensures { IfOk result (λ ends. AreNew mark (⟦<SocketSource<'r> as Source>⟧.state ends.0) (⟦<SocketSink<'r> as Sink>⟧.state ends.1)) }
{
    let Ok(socket) = SharedSocket::new(stream, times, side, work, now_millis(rt)) else {
        return Err(EndsFault::Failed);
    };
    let Ok(socket) = Arc::new(alloc, socket) else {
        return Err(EndsFault::Mem);
    };
    let Ok(second) = Arc::try_clone(&socket) else {
        return Err(EndsFault::Mem);
    };
    socket.is_used();
    Ok((
        SocketSource {
            reader: SocketReader {
                rt,
                socket: Some(socket),
                wait: None,
            },
            faults: 0,
            mark,
        },
        SocketSink {
            rt,
            socket: Some(second),
            faults: 0,
            mark,
        },
    ))
}

impl<'r> SocketSource<'r> {
    /// Whether a read has failed.
    pub fn has_failed(&self) -> bool
        ensures { result ≡ not ((⟦<SocketSource<'r> as Source>⟧.state self.now).faults == 0) }
    {
        self.faults != 0
    }

    /// One more owner of the socket, for whoever looks after its end.
    pub(crate) fn shared(&self) -> Option<Arc<SharedSocket>> {
        match &self.reader.socket {
            Some(socket) => Arc::try_clone(socket).ok(),
            None => None,
        }
    }

    /// What its connection is at, to be shared with its links.
    pub(crate) fn work(&self) -> Option<Arc<Work>> {
        match &self.reader.socket {
            Some(socket) => socket.work(),
            None => None,
        }
    }

    /// Nobody uses it any more.
    pub(crate) fn rests(&self) {
        if let Some(socket) = &self.reader.socket {
            socket.rests(now_millis(self.reader.rt));
        }
    }

    /// Lets its socket go; every later read fails. A socket that nobody else has is closed, and one that its listener gave is left to
    /// whoever looks after its end.
    pub fn close(&mut self)
        ensures same { ⟦<SocketSource<'r> as Source>⟧.state self.new ≡ ⟦<SocketSource<'r> as Source>⟧.state self.old }
    {
        self.rests();
        self.reader.socket = None;
    }
}

impl<'r> SocketReader<'r> {
    /// Reads, as long as the socket isn't let go.
    fn read_some(&mut self, buf: &mut [u8]) -> io::Result<usize>
        ensures { ReadsAtMost result buf.new }
    {
        match &self.socket {
            Some(socket) => read_from(self.rt, socket, &mut self.wait, buf),
            None => Err(io::Error::from(ErrorKind::NotConnected)),
        }
    }
}

/// Lets one read of the system wait for so long, where it is set otherwise.
fn wait_at_most(
    socket: &SharedSocket,
    set: &mut Option<Duration>,
    wait: Duration,
) -> io::Result<()> {
    if *set != Some(wait) {
        socket.stream.set_read_timeout(Some(wait))?;
        *set = Some(wait);
    }
    Ok(())
}

/// Reads, and again where the wait was cut short or the other half of the socket moved in it.
fn read_from(
    rt: &HostRuntime,
    socket: &SharedSocket,
    set: &mut Option<Duration>,
    buf: &mut [u8],
) -> io::Result<usize>
    ensures { ReadsAtMost result buf.new }
{
    socket.is_read();
    let began = now_millis(rt);
    let mut now = began;
    for _ in 0..u64::MAX {
        let left = socket.left(began, now);
        if left.is_zero() {
            return Err(io::Error::from(ErrorKind::TimedOut));
        }
        wait_at_most(socket, set, left.min(Duration::from_millis(LOOK_MILLIS)))?;
        let mut stream = &socket.stream;
        let read = stream.read(buf);
        now = now_millis(rt);
        match read {
            Ok(count) => {
                socket.came(count, now);
                return Ok(count);
            }
            Err(error) => {
                if !is_short(error.kind()) {
                    socket.drained();
                    return Err(error);
                }
            }
        }
    }
    Err(io::Error::from(ErrorKind::TimedOut))
}

/// Whether a call of the system only ended before its time, or at its end without a byte.
fn is_short(kind: ErrorKind) -> bool {
    kind == ErrorKind::WouldBlock || kind == ErrorKind::Interrupted
}

impl<'r> Source for SocketSource<'r> {
    ghost state = { λ s. untold_source s.faults s.mark };

    fn read(&mut self, buf: &mut [u8]) -> Result<usize, Failed> {
        match self.reader.read_some(buf) {
            Ok(count) => Ok(count),
            Err(_) => {
                self.faults = self.faults.saturating_add(1);
                Err(Failed)
            }
        }
    }
}

impl<'r> Looks for SocketSource<'r> {
    /// So has a socket that is let go, or one that failed.
    fn is_spent(&mut self) -> bool {
        match &self.reader.socket {
            Some(socket) => socket.is_spent(),
            None => true,
        }
    }
}

impl<'r> Rests for SocketSource<'r> {
    fn has_ended(&mut self) -> bool {
        self.is_spent()
    }
}

impl<'r> SocketSink<'r> {
    /// Whether a write has failed.
    pub fn has_failed(&self) -> bool
        ensures { result ≡ not ((⟦<SocketSink<'r> as Sink>⟧.state self.now).faults == 0) }
    {
        self.faults != 0
    }

    /// Writes, as long as the socket isn't let go.
    fn write_some(&self, bytes: &[u8]) -> io::Result<usize>
        ensures { WritesAtMost result bytes.now }
    {
        match &self.socket {
            Some(socket) => write_to(self.rt, socket, bytes),
            None => Err(io::Error::from(ErrorKind::NotConnected)),
        }
    }

    /// Lets its socket go; every later write fails. A socket that nobody else has is closed, and one that its listener gave is left to
    /// whoever looks after its end.
    pub fn close(&mut self)
        ensures same { ⟦<SocketSink<'r> as Sink>⟧.state self.new ≡ ⟦<SocketSink<'r> as Sink>⟧.state self.old }
    {
        self.socket = None;
    }
}

/// Writes, and says that it does.
fn write_to(rt: &HostRuntime, socket: &SharedSocket, bytes: &[u8]) -> io::Result<usize>
    ensures { WritesAtMost result bytes.now }
{
    socket.is_written();
    let written = write_once(socket, bytes);
    socket.went(written.is_ok(), now_millis(rt));
    written
}

/// Writes, and again where the call was only interrupted.
fn write_once(socket: &SharedSocket, bytes: &[u8]) -> io::Result<usize>
    ensures { WritesAtMost result bytes.now }
{
    for _ in 0..u64::MAX {
        let mut stream = &socket.stream;
        match stream.write(bytes) {
            Ok(count) => return Ok(count),
            Err(error) => {
                if error.kind() != ErrorKind::Interrupted {
                    return Err(error);
                }
            }
        }
    }
    Err(io::Error::from(ErrorKind::TimedOut))
}

impl<'r> Sink for SocketSink<'r> {
    ghost state = { λ s. untold_sink s.faults s.mark };

    fn write(&mut self, bytes: &[u8]) -> Result<usize, SinkFault> {
        match self.write_some(bytes) {
            Ok(count) if count > 0 || bytes.is_empty() => Ok(count),
            _ => {
                self.faults = self.faults.saturating_add(1);
                Err(SinkFault::Failed)
            }
        }
    }

    /// Closes the outgoing side. A socket that is closed already or let go stays so. A client's connection of which no link is in use ends with it.
    fn finish(&mut self) {
        if let Some(socket) = &self.socket {
            socket.finish(now_millis(self.rt));
        }
    }
}
