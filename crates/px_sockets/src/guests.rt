// Connections that were accepted, until they are closed: at its end each is read on, and what comes is thrown away, so that the
// system doesn't reset it and its client gets the whole answer (RFC 9112, section 9.6).
ghost use Rattle.std.specs.Prelude.{◌≡◌, ◌<◌, IsTrue, false, slice_index_or, length, vec_len};
ghost use Rattle.px_sockets.specs.Guests.{in_use};
ghost use Rattle.px_sockets.specs.declared.guests.Guest.{Guest};

use crate::shared_sockets::SharedSocket;
use crate::times::{SWEEP_MILLIS, between, now_millis};
use std::alloc::{AllocError, Global};
use std::io::{ErrorKind, Read};
use std::net::Shutdown;
use std::sync::Arc;
use std::thread;
use std::time::Duration;

/// The most connections that linger at once; one more is closed as it ends.
const LINGER_MOST: usize = 128;

/// After so many connections more the list is gone through, however short ago that was.
const SWEEP_MORE: usize = 32;

/// So many bytes are thrown away at once.
const PIECE: usize = 16_384;

/// The socket of a connection, and what was thrown away since it ended.
#[derive(Drop)]
pub(crate) struct Guest {
    socket: Arc<SharedSocket>,
    /// Whether its connection was seen to have ended.
    ended: bool,
    thrown: u64,
    /// Whether its reads don't wait any more.
    is_swift: bool,
}

/// Whether a connection has ended: its last answer was finished, or nobody else has its socket any more.
fn has_ended(socket: &Arc<SharedSocket>, now: u64) -> bool {
    if !socket.has_ended() && Arc::strong_count(socket) == 1 {
        socket.finish(now);
        socket.end(now);
    }
    socket.has_ended()
}

/// Throws away what has come. Whether nothing more is to be waited for.
fn is_over(socket: &SharedSocket, thrown: &mut u64, is_swift: &mut bool, now: u64) -> bool {
    let times = socket.times();
    if socket.is_drained() {
        return true;
    }
    if socket.since_end(now) >= times.linger {
        return true;
    }
    if !*is_swift {
        if socket.stream.set_nonblocking(true).is_err() {
            return true;
        }
        *is_swift = true;
    }
    throw_away(socket, thrown, times.linger_bytes)
}

/// Throws away what has come, up to so many bytes in all. Whether that was the end, or as much as is thrown away.
fn throw_away(socket: &SharedSocket, thrown: &mut u64, most: u64) -> bool {
    let mut piece = [0; PIECE];
    'pieces: for _ in 0..u64::MAX {
        let mut stream = &socket.stream;
        match stream.read(&mut piece) {
            Ok(0) => return true,
            Ok(count) => {
                *thrown = thrown.saturating_add(count as u64);
                if *thrown >= most {
                    return true;
                }
            }
            Err(error) => {
                let kind = error.kind();
                return kind != ErrorKind::WouldBlock && kind != ErrorKind::Interrupted;
            }
        }
    }
    true
}

impl Guest {
    /// Whether its connection has ended and is to be closed: no more may linger, or nothing more is to be waited for. One that is in use
    /// stays as it is.
    fn is_done(&mut self, is_full: bool, now: u64) -> bool
        ensures ended_same { self.new.ended ≡ self.old.ended }
        ensures used_same { self.old.ended ≡ false → self.new ≡ self.old }
        ensures ended { IsTrue result → IsTrue self.old.ended }
    {
        if !self.ended {
            return false;
        }
        is_full || is_over(&self.socket, &mut self.thrown, &mut self.is_swift, now)
    }
}

/// Sees which connections have ended.
fn look(all: &mut Vec<Guest>, now: u64)
    ensures len { vec_len all.new ≡ vec_len all.old }
{
    for guest in all.iter_mut() {
        guest.ended = guest.ended || has_ended(&guest.socket, now);
    }
}

/// Whether the connection at that place is to be closed.
fn is_done_at(all: &mut Vec<Guest>, at: usize, is_full: bool, now: u64) -> bool
    requires within { at < length all.old.items }
    ensures len { length all.new.items ≡ length all.old.items }
    ensures used { in_use all.new.items ≡ in_use all.old.items }
    ensures ended { IsTrue result → (g : Guest) → IsTrue (slice_index_or all.new.items at g).ended }
{
    all[at].is_done(is_full, now)
}

/// Closes those that have ended and of which nothing more is to be waited for; how many linger. At most so many do, and all that
/// are in use stay.
fn close_ended(all: &mut Vec<Guest>, now: u64) -> usize
    ensures used { in_use all.new.items ≡ in_use all.old.items }
{
    let mut lingering = 0usize;
    let mut at = 0;
    while at < all.len() {
        if is_done_at(all, at, lingering >= LINGER_MOST, now) {
            let guest = all.remove(at);
            let _shut = guest.socket.stream.shutdown(Shutdown::Both);
        } else {
            if all[at].ended {
                lingering = lingering.saturating_add(1);
            }
            at += 1;
        }
    }
    lingering
}

/// The connections that a listener gave and that aren't closed.
#[derive(Drop)]
pub(crate) struct Guests {
    all: Vec<Guest>,
    /// How many came since the list was last gone through.
    more: usize,
    /// When it was last gone through.
    swept: u64,
    /// How many of them lingered then.
    lingering: usize,
}

impl Guests {
    pub(crate) fn new(alloc: Global) -> Guests {
        Guests {
            all: Vec::new(alloc),
            more: 0,
            swept: 0,
            lingering: 0,
        }
    }

    pub(crate) fn is_empty(&self) -> bool {
        self.all.is_empty()
    }

    /// Whether some have ended and aren't closed yet, as was last seen.
    pub(crate) fn linger(&self) -> bool {
        self.lingering > 0
    }

    /// Makes room for one more.
    pub(crate) fn make_room(&mut self) -> Result<(), AllocError> {
        self.all.reserve(1)
    }

    /// Adds a connection. Without room for it, it is closed as its halves are.
    pub(crate) fn add(&mut self, socket: Arc<SharedSocket>) {
        let guest = Guest {
            socket,
            ended: false,
            thrown: 0,
            is_swift: false,
        };
        let _added = self.all.push(guest);
        self.more = self.more.saturating_add(1);
    }

    /// Looks after those that have ended, where it is time for it.
    pub(crate) fn look_after(&mut self, now: u64) {
        if self.more >= SWEEP_MORE
            || between(self.swept, now) >= Duration::from_millis(SWEEP_MILLIS)
        {
            self.sweep(now);
        }
    }

    /// Throws away what those that have ended still send, and closes those that are over.
    pub(crate) fn sweep(&mut self, now: u64) {
        look(&mut self.all, now);
        self.lingering = close_ended(&mut self.all, now);
        self.more = 0;
        self.swept = now;
    }

    /// Looks after those that have ended, until all are closed or so long has passed.
    pub(crate) fn see_out(mut self, rt: &HostRuntime, linger: Duration) {
        let began = now_millis(rt);
        'sweeps: for _ in 0..u64::MAX {
            let now = now_millis(rt);
            self.sweep(now);
            if !self.linger() || between(began, now) >= linger {
                return;
            }
            thread::sleep(rt, Duration::from_millis(SWEEP_MILLIS));
        }
    }
}
