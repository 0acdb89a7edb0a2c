//! How long sockets wait, with short times, and what becomes of what clients send at the end.
ghost use Rattle.std.specs.Prelude.{◌≤◌, length, IfOk};
ghost use Rattle.px_sockets.specs.Tried.{tried_of};

use crate::common::{holds, same};
use crate::sockets::{Pair, open_pair, short_times};
use px_base::{DialFault, Dialer, Failed, Sink, SinkFault, Source, write_all};
use px_sockets::*;
use std::io::{self, ErrorKind};
use std::net::{IpAddr, Ipv4Addr, Net, SocketAddr, TcpListener, TcpStream, ToSocketAddrs};
use std::snapshot::Snapshot;
use std::thread::{self, join_mut};
use std::time::{Clock, Duration, Instant};

/// The milliseconds since a moment.
fn millis_since(rt: &HostRuntime, start: &Instant) -> u128 {
    match start.elapsed(rt) {
        Ok(time) => time.as_millis(),
        Err(_) => 0,
    }
}

/// Writes a byte and waits, so often.
fn write_slowly(rt: &HostRuntime, sink: &mut SocketSink<'_>, times: u64, wait: Duration) {
    'bytes: for _ in 0..times {
        if write_all(sink, b"x").is_err() {
            return;
        }
        thread::sleep(rt, wait);
    }
}

/// Reads until a read fails or the bytes end; how many bytes came.
fn read_all(source: &mut SocketSource<'_>) -> u64 {
    let mut piece = [0; 4_096];
    let mut count = 0u64;
    'pieces: for _ in 0..1_000_000u64 {
        match source.read(&mut piece) {
            Ok(0) => return count,
            Ok(more) => count = count.saturating_add(more as u64),
            Err(Failed) => return count,
        }
    }
    count
}

#[test]
fn a_silent_socket_is_idle_for_its_time_alone(rt: HostRuntime) {
    let Some(mut pair) = open_pair(&rt) else {
        panic!(rt; "no link");
    };
    let start = Instant::now(&rt).ok().expect(&rt, "a clock");
    same(&rt, pair.link_in.read(&mut [0; 4]), Err(Failed));
    let waited = millis_since(&rt, &start);
    holds(&rt, waited >= 990, "it waits for its time");
    holds(&rt, waited < 5_000, "and no longer");
    same(&rt, pair.link_in.has_failed(), true);
}

#[test]
fn a_read_waits_while_the_other_half_moves(rt: HostRuntime) {
    let Some(
        Pair {
            mut link_in,
            mut link_out,
            caller,
            listener,
        },
    ) = open_pair(&rt)
    else {
        panic!(rt; "no link");
    };
    let start = Instant::now(&rt).ok().expect(&rt, "a clock");
    let wait = Duration::from_millis(250);
    let (count, _) = join_mut(
        &rt,
        &mut || read_all(&mut link_in),
        &mut || write_slowly(&rt, &mut link_out, 8, wait),
    );
    same(&rt, count, 0);
    let waited = millis_since(&rt, &start);
    holds(
        &rt,
        waited >= 2_700,
        "it waits from the last byte that was taken",
    );
}

#[test]
fn a_client_without_a_link_has_less_time(rt: HostRuntime) {
    let Some(mut pair) = open_pair(&rt) else {
        panic!(rt; "no link");
    };
    let start = Instant::now(&rt).ok().expect(&rt, "a clock");
    same(&rt, pair.caller.client_in.read(&mut [0; 4]), Err(Failed));
    let waited = millis_since(&rt, &start);
    holds(&rt, waited >= 190, "it waits for a piece of a head");
    holds(&rt, waited < 900, "and no longer");
}

#[test]
fn a_head_that_comes_byte_by_byte_has_a_time_in_all(rt: HostRuntime) {
    let Some(
        Pair {
            mut link_out,
            mut caller,
            link_in,
            listener,
        },
    ) = open_pair(&rt)
    else {
        panic!(rt; "no link");
    };
    let wait = Duration::from_millis(100);
    let start = Instant::now(&rt).ok().expect(&rt, "a clock");
    let (seen, _) = join_mut(
        &rt,
        &mut || (read_all(&mut caller.client_in), millis_since(&rt, &start)),
        &mut || write_slowly(&rt, &mut link_out, 20, wait),
    );
    holds(&rt, seen.0 > 1, "pieces come");
    holds(&rt, seen.1 >= 590, "until the time in all is over");
    holds(&rt, seen.1 < 1_500, "and no longer");
    drop((link_in, listener));
}

/// Reads from a client in vain; how many milliseconds it took.
fn wait_in_vain(rt: &HostRuntime, client_in: &mut SocketSource<'_>) -> u128 {
    let Ok(start) = Instant::now(rt) else {
        return 0;
    };
    match client_in.read(&mut [0; 4]) {
        Ok(_) => 0,
        Err(Failed) => millis_since(rt, &start),
    }
}

#[test]
fn a_client_waits_longer_while_its_connection_holds_a_link(rt: HostRuntime) {
    let Some(mut pair) = open_pair(&rt) else {
        panic!(rt; "no link");
    };
    let port = pair.listener.port;
    let client_in = &mut pair.caller.client_in;
    let mut dialer = SocketDialer::of_client(rt.alloc(), &rt, short_times(), client_in, 7);
    let Ok((link_in, link_out)) = dialer.dial(b"127.0.0.1", port) else {
        panic!(rt; "no link");
    };
    holds(
        &rt,
        wait_in_vain(&rt, client_in) >= 990,
        "the time of a link",
    );
    dialer.hang_up(link_in, link_out);
    let waited = wait_in_vain(&rt, client_in);
    holds(&rt, waited >= 190, "a piece of a head");
    holds(&rt, waited < 900, "and no longer");
}

#[test]
fn a_client_whose_link_rests_is_asked_for_a_head(rt: HostRuntime) {
    let Some(
        Pair {
            link_in: own_in,
            link_out: own_out,
            mut caller,
            mut listener,
        },
    ) = open_pair(&rt)
    else {
        panic!(rt; "no link");
    };
    let port = listener.port;
    let client_in = &mut caller.client_in;
    let mut dialer = SocketDialer::of_client(rt.alloc(), &rt, short_times(), client_in, 7);
    let Ok((mut link_in, mut link_out)) = dialer.dial(b"127.0.0.1", port) else {
        panic!(rt; "no link");
    };
    let Ok(mut origin) = listener.accept(8) else {
        panic!(rt; "no origin");
    };
    same(&rt, write_all(&mut origin.client_out, b"whole"), Ok(()));
    same(&rt, link_in.read(&mut [0; 8]), Ok(5));
    let waited = wait_in_vain(&rt, client_in);
    holds(&rt, waited >= 190, "a piece of a head");
    holds(&rt, waited < 900, "and no longer");
    same(&rt, write_all(&mut link_out, b"more"), Ok(()));
    holds(
        &rt,
        wait_in_vain(&rt, client_in) >= 990,
        "the time of a link that is written to",
    );
    dialer.hang_up(link_in, link_out);
    drop((own_in, own_out));
}

#[test]
fn a_dial_that_nobody_answers_ends_in_time(rt: HostRuntime) {
    let (alloc, times) = (rt.alloc(), short_times());
    let Ok(listener) = SocketListener::listen(alloc, &rt, times, b"127.0.0.1", 0) else {
        panic!(rt; "no listener");
    };
    let mut dialer = SocketDialer::new(alloc, &rt, times, 0);
    let mut links = Vec::new(alloc);
    let mut fault = None;
    let mut waited = 0;
    'dials: for _ in 0..400u64 {
        let start = Instant::now(&rt).ok().expect(&rt, "a clock");
        match dialer.dial(b"127.0.0.1", listener.port) {
            Ok(link) => holds(&rt, links.push(link).is_ok(), "memory"),
            Err(seen) => {
                fault = Some(seen);
                waited = millis_since(&rt, &start);
                break;
            }
        }
    }
    same(&rt, fault, Some(DialFault::NotReached));
    holds(&rt, waited >= 490, "it waits for its time");
    holds(&rt, waited < 4_000, "and no longer");
}

/// A network of which each name has three addresses, of which the first two never answer.
#[derive(Drop)]
struct SlowNames<'r> {
    rt: &'r HostRuntime,
}

impl<'r> Clock for SlowNames<'r> {
    fn monotonic(&self) -> io::Result<Duration> {
        self.rt.monotonic()
    }

    fn since_1970(&self) -> io::Result<Duration> {
        self.rt.since_1970()
    }
}

impl<'r> Net for SlowNames<'r> {
    type Stream = TcpStream;

    type Listener = TcpListener;

    fn bind(&self, addr: SocketAddr) -> io::Result<TcpListener> {
        self.rt.bind(addr)
    }

    fn connect(&self, addr: SocketAddr) -> io::Result<TcpStream> {
        self.rt.connect(addr)
    }

    fn connect_timeout(&self, addr: SocketAddr, timeout: Duration) -> io::Result<TcpStream> {
        if addr.ip() == IpAddr::V4(Ipv4Addr::LOCALHOST) {
            return self.rt.connect_timeout(addr, timeout);
        }
        thread::sleep(self.rt, timeout);
        Err(io::Error::from(ErrorKind::TimedOut))
    }

    fn lookup_host(&self, _host: &str, port: u16, found: &mut [SocketAddr]) -> io::Result<usize>
        ensures { IfOk result (λ n. n ≤ length found.new) }
    {
        if found.len() < 3 {
            return Err(io::Error::from(ErrorKind::Unsupported));
        }
        found[0] = SocketAddr::from((Ipv4Addr::new(127, 0, 0, 2), port));
        found[1] = SocketAddr::from((Ipv4Addr::new(127, 0, 0, 3), port));
        found[2] = SocketAddr::from((Ipv4Addr::LOCALHOST, port));
        Ok(3)
    }
}

/// Whether the third address of a name is reached at that port within so long, and how many milliseconds it took.
fn reached(rt: &HostRuntime, port: u16, left: u64) -> Option<(bool, u128)> {
    let names = SlowNames { rt };
    let start = Instant::now(rt).ok()?;
    let addresses = ("many.test", port).to_socket_addrs(&names).ok()?;
    let left = Duration::from_millis(left);
    let stream = connect_in_turn(&names, &short_times(), left, addresses);
    Some((stream.is_ok(), millis_since(rt, &start)))
}

/// Tries of which one address answers, by a clock that counts them.
#[derive(Drop)]
struct CountedTries {
    answers: IpAddr,
    tried: Tried,
    count: u64,
}

impl Tries for CountedTries {
    type Stream = SocketAddr;

    ghost tried = { λ t. tried_of t.tried };

    ghost said = { λ t. t.count };

    fn try_once(&mut self, address: SocketAddr, _wait: Duration) -> Option<SocketAddr> {
        self.tried = Tried::Behind {
            before: Snapshot::of(&self.tried),
            address,
        };
        self.count = self.count.saturating_add(1);
        if address.ip() == self.answers {
            Some(address)
        } else {
            None
        }
    }

    fn now(&mut self) -> u64 {
        self.count
    }
}

/// Whether an address is reached where 127.0.0.2, 127.0.0.3 and 127.0.0.1 are tried in turn and the one that ends so answers, by a
/// clock that says how many were tried; and how many were.
fn tried(rt: &HostRuntime, last: u8, until: u64) -> Option<(bool, u64)> {
    let names = SlowNames { rt };
    let addresses = ("many.test", 80).to_socket_addrs(&names).ok()?;
    let mut tries = CountedTries {
        answers: IpAddr::V4(Ipv4Addr::new(127, 0, 0, last)),
        tried: Tried::Nothing,
        count: 0,
    };
    let reached = try_in_turn(&mut tries, Duration::from_millis(1), until, addresses);
    Some((reached.is_ok(), tries.count))
}

#[test]
fn addresses_are_tried_in_turn_until_one_answers_or_it_is_too_late(rt: HostRuntime) {
    same(&rt, tried(&rt, 3, 9), Some((true, 2)));
    same(&rt, tried(&rt, 1, 9), Some((true, 3)));
    same(&rt, tried(&rt, 4, 9), Some((false, 3)));
    same(&rt, tried(&rt, 1, 1), Some((false, 1)));
    same(&rt, tried(&rt, 2, 0), Some((false, 0)));
}

#[test]
fn addresses_that_do_not_answer_leave_time_for_the_next(rt: HostRuntime) {
    let (alloc, times) = (rt.alloc(), short_times());
    let Ok(listener) = SocketListener::listen(alloc, &rt, times, b"127.0.0.1", 0) else {
        panic!(rt; "no listener");
    };
    let Some((is_reached, waited)) = reached(&rt, listener.port, 5_000) else {
        panic!(rt; "no addresses");
    };
    same(&rt, is_reached, true);
    holds(&rt, waited >= 390, "two addresses took their time");
    holds(&rt, waited < 3_000, "and no longer");
    let Some((is_reached, waited)) = reached(&rt, listener.port, 300) else {
        panic!(rt; "no addresses");
    };
    same(&rt, is_reached, false);
    holds(&rt, waited >= 290, "the dial took its time");
    holds(&rt, waited < 3_000, "and no longer");
}

/// Writes pieces until one is refused.
fn fill(sink: &mut SocketSink<'_>) -> Result<(), SinkFault> {
    let piece = [b'x'; 16_384];
    'pieces: for _ in 0..100_000u64 {
        write_all(sink, &piece)?;
    }
    Ok(())
}

#[test]
fn a_write_of_which_nothing_is_taken_fails(rt: HostRuntime) {
    let Some(mut pair) = open_pair(&rt) else {
        panic!(rt; "no link");
    };
    let start = Instant::now(&rt).ok().expect(&rt, "a clock");
    same(&rt, fill(&mut pair.link_out), Err(SinkFault::Failed));
    holds(
        &rt,
        millis_since(&rt, &start) >= 990,
        "it waits for its time",
    );
    same(&rt, pair.link_out.has_failed(), true);
}

/// Writes an answer of so many pieces, and says that it was all.
fn answer(sink: &mut SocketSink<'_>, pieces: u64) -> Result<(), SinkFault> {
    let piece = [b'a'; 1_000];
    'pieces: for _ in 0..pieces {
        write_all(sink, &piece)?;
    }
    sink.finish();
    Ok(())
}

#[test]
fn what_comes_late_does_not_take_the_end_of_an_answer(rt: HostRuntime) {
    let Some(
        Pair {
            mut link_in,
            mut link_out,
            mut caller,
            listener,
        },
    ) = open_pair(&rt)
    else {
        panic!(rt; "no link");
    };
    same(&rt, answer(&mut caller.client_out, 60), Ok(()));
    same(&rt, write_all(&mut link_out, b"\r\n"), Ok(()));
    drop(caller);
    let start = Instant::now(&rt).ok().expect(&rt, "a clock");
    drop(listener);
    let waited = millis_since(&rt, &start);
    holds(&rt, waited >= 390, "it waits for the client");
    holds(&rt, waited < 3_000, "and no longer");
    same(&rt, read_all(&mut link_in), 60_000);
    same(&rt, link_in.has_failed(), false);
}

#[test]
fn a_client_that_closes_is_not_waited_for(rt: HostRuntime) {
    let Some(
        Pair {
            link_in,
            link_out,
            mut caller,
            listener,
        },
    ) = open_pair(&rt)
    else {
        panic!(rt; "no link");
    };
    same(&rt, answer(&mut caller.client_out, 1), Ok(()));
    drop((link_in, link_out, caller));
    let start = Instant::now(&rt).ok().expect(&rt, "a clock");
    drop(listener);
    holds(&rt, millis_since(&rt, &start) < 300, "it is gone");
}

/// Sends what nobody asked for, until it isn't taken any more; how many pieces were.
fn send_on(sink: &mut SocketSink<'_>) -> u64 {
    let piece = [b'x'; 16_384];
    let mut count = 0u64;
    'pieces: for _ in 0..100_000u64 {
        if write_all(sink, &piece).is_err() {
            return count;
        }
        count = count.saturating_add(1);
    }
    count
}

#[test]
fn what_is_sent_without_end_is_thrown_away_and_then_refused(rt: HostRuntime) {
    let Some(
        Pair {
            mut link_in,
            mut link_out,
            mut caller,
            mut listener,
        },
    ) = open_pair(&rt)
    else {
        panic!(rt; "no link");
    };
    same(&rt, answer(&mut caller.client_out, 60), Ok(()));
    let mut dialer = SocketDialer::new(rt.alloc(), &rt, short_times(), 8);
    let port = listener.port;
    let (count, next) = join_mut(
        &rt,
        &mut || {
            let count = send_on(&mut link_out);
            (count, dialer.dial(b"127.0.0.1", port).is_ok())
        },
        &mut || listener.accept(8).is_ok(),
    );
    holds(&rt, count.0 < 100_000, "it is refused in the end");
    same(&rt, (count.1, next), (true, true));
    drop(caller);
    same(&rt, read_all(&mut link_in), 60_000);
}
