// A TCP socket and the moments by which its reads wait, shared by its two halves and by whoever looks after its end.
use crate::Times;
use crate::times::between;
use std::io;
use std::io::ErrorKind;
use std::net::{Shutdown, TcpStream};
use std::sync::Arc;
use std::sync::atomic::{AtomicBool, AtomicU64, Ordering};
use std::time::Duration;

/// What a connection is at, shared by its client's socket and the sockets of its links.
#[derive(Drop)]
pub(crate) struct Work {
    /// How many links are in use, and whether its client is written to.
    going_on: AtomicU64,
    /// When a link was last in use, or its client was last written to.
    served: AtomicU64,
}

impl Work {
    /// Nothing goes on.
    pub(crate) fn none(now: u64) -> Work {
        Work {
            going_on: AtomicU64::new(0),
            served: AtomicU64::new(now),
        }
    }

    /// Whether its client is asked for nothing but a head.
    fn rests(&self) -> bool {
        self.going_on.load(Ordering::SeqCst) == 0
    }

    fn begin(&self) {
        self.going_on.fetch_add(1, Ordering::SeqCst);
    }

    fn end(&self, now: u64) {
        self.served.store(now, Ordering::SeqCst);
        self.going_on.fetch_sub(1, Ordering::SeqCst);
    }
}

/// Whose socket it is: a client's, which is asked for heads, or a link's.
#[derive(Clone, Copy, Debug, PartialEq, Eq)]
pub enum SocketSide {
    Client,
    Link,
}

/// A socket, and when what happened to it. Moments are readings of `now_millis`.
#[derive(Drop)]
pub(crate) struct SharedSocket {
    pub(crate) stream: TcpStream,
    times: Times,
    side: SocketSide,
    /// What its connection is at. A link that belongs to no client has its own.
    work: Arc<Work>,
    /// When bytes last moved, either way.
    moved: AtomicU64,
    /// Whether a link is in use: from when it is made or written to, or a read of it begins, until a read gives bytes. So one
    /// that is kept behind a whole answer isn't.
    in_use: AtomicBool,
    /// When its connection ended; 0 as long as it goes on.
    ended: AtomicU64,
    /// Whether no more bytes come from it: its other side said so, or it failed.
    is_drained: AtomicBool,
}

impl SharedSocket {
    /// The socket of a stream. Bytes are sent at once, and a write of which nothing is taken fails in time. A stream that can't be
    /// set so is closed.
    pub(crate) fn new(
        stream: TcpStream,
        times: Times,
        side: SocketSide,
        work: Arc<Work>,
        now: u64,
    ) -> io::Result<SharedSocket> {
        stream.set_nodelay(true)?;
        stream.set_write_timeout(Some(times.idle))?;
        Ok(SharedSocket {
            stream,
            times,
            side,
            work,
            moved: AtomicU64::new(now),
            in_use: AtomicBool::new(false),
            ended: AtomicU64::new(0),
            is_drained: AtomicBool::new(false),
        })
    }

    pub(crate) fn times(&self) -> Times {
        self.times
    }

    /// What its connection is at, to be shared with a link.
    pub(crate) fn work(&self) -> Option<Arc<Work>> {
        Arc::try_clone(&self.work).ok()
    }

    /// Whether it is a client's that is asked for a head.
    fn awaits_head(&self) -> bool {
        self.side == SocketSide::Client && self.work.rests()
    }

    /// How long a read that began then may still wait: of a client that is asked for a head as long as a piece of it and the whole
    /// may take, else as long as nothing moves.
    pub(crate) fn left(&self, began: u64, now: u64) -> Duration {
        let quiet = between(self.moved.load(Ordering::SeqCst).max(began), now);
        if !self.awaits_head() {
            return self.times.idle.saturating_sub(quiet);
        }
        let whole = between(self.work.served.load(Ordering::SeqCst), now);
        let piece = self.times.piece.saturating_sub(quiet);
        piece.min(self.times.head.saturating_sub(whole))
    }

    /// A link is in use.
    pub(crate) fn is_used(&self) {
        if self.side == SocketSide::Link && !self.in_use.swap(true, Ordering::SeqCst) {
            self.work.begin();
        }
    }

    /// A link isn't in use any more.
    pub(crate) fn rests(&self, now: u64) {
        if self.side == SocketSide::Link && self.in_use.swap(false, Ordering::SeqCst) {
            self.work.end(now);
        }
    }

    /// A read begins.
    pub(crate) fn is_read(&self) {
        self.is_used();
    }

    /// Bytes came, or the end of them.
    pub(crate) fn came(&self, count: usize, now: u64) {
        self.moved.store(now, Ordering::SeqCst);
        if count == 0 {
            self.drained();
        } else {
            self.rests(now);
        }
    }

    /// A write begins.
    pub(crate) fn is_written(&self) {
        match self.side {
            SocketSide::Client => self.work.begin(),
            SocketSide::Link => self.is_used(),
        }
    }

    /// A write is over; bytes were taken, or it was refused.
    pub(crate) fn went(&self, has_moved: bool, now: u64) {
        if has_moved {
            self.moved.store(now, Ordering::SeqCst);
        }
        if self.side == SocketSide::Client {
            self.work.end(now);
        }
    }

    /// No more bytes come.
    pub(crate) fn drained(&self) {
        self.is_drained.store(true, Ordering::SeqCst);
    }

    pub(crate) fn is_drained(&self) -> bool {
        self.is_drained.load(Ordering::SeqCst)
    }

    /// Whether it can't be used again: its other side has said the end, or has sent bytes that nobody read (RFC 9112, section 9.2),
    /// or it failed. The look takes no byte and doesn't wait, and reads and writes wait behind it as before.
    pub(crate) fn is_spent(&self) -> bool {
        if self.stream.set_nonblocking(true).is_err() {
            return true;
        }
        let is_quiet = is_quiet(&self.stream);
        self.stream.set_nonblocking(false).is_err() || !is_quiet
    }

    /// Shuts the outgoing side. Where no link of its connection is in use, nothing is left to do for a client, and the connection has
    /// ended.
    pub(crate) fn finish(&self, now: u64) {
        let _shut = self.stream.shutdown(Shutdown::Write);
        if self.awaits_head() {
            self.end(now);
        }
    }

    /// The connection has ended, if it hadn't before.
    pub(crate) fn end(&self, now: u64) {
        let ended = now.max(1);
        let _before = self
            .ended
            .compare_exchange(0, ended, Ordering::SeqCst, Ordering::SeqCst);
    }

    pub(crate) fn has_ended(&self) -> bool {
        self.ended.load(Ordering::SeqCst) != 0
    }

    /// How long ago the connection ended.
    pub(crate) fn since_end(&self, now: u64) -> Duration {
        between(self.ended.load(Ordering::SeqCst), now)
    }
}

/// Whether neither a byte nor the end of them nor a fault waits at a stream that doesn't block.
fn is_quiet(stream: &TcpStream) -> bool {
    let mut byte = [0; 1];
    match stream.peek(&mut byte) {
        Ok(_) => false,
        Err(error) => error.kind() == ErrorKind::WouldBlock,
    }
}
