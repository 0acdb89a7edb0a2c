use crate::common::{same, same_text};
use px_base::{DialFault, Dialer, Failed, Rests, Sink, SinkFault, Source, write_all};
use px_sockets::*;
use std::process::Abort;
use std::time::Duration;

/// Short times, so that nothing waits for long.
pub(crate) fn short_times() -> Times {
    Times {
        idle: Duration::from_millis(1_000),
        piece: Duration::from_millis(200),
        head: Duration::from_millis(600),
        dial: Duration::from_millis(500),
        address: Duration::from_millis(200),
        linger: Duration::from_millis(400),
        linger_bytes: 100_000,
        accept: Duration::from_millis(300),
    }
}

/// Both sides of a link over this machine, and the listener that accepted it.
#[derive(Drop)]
pub(crate) struct Pair<'r> {
    pub(crate) link_in: SocketSource<'r>,
    pub(crate) link_out: SocketSink<'r>,
    pub(crate) caller: Caller<'r>,
    pub(crate) listener: SocketListener<'r>,
}

/// Listens on a free port, dials it and accepts.
pub(crate) fn open_pair(rt: &HostRuntime) -> Option<Pair<'_>> {
    let (alloc, times) = (rt.alloc(), short_times());
    let Ok(mut listener) = SocketListener::listen(alloc, rt, times, b"127.0.0.1", 0) else {
        return None;
    };
    let mut dialer = SocketDialer::new(alloc, rt, times, 7);
    let Ok((link_in, link_out)) = dialer.dial(b"127.0.0.1", listener.port) else {
        return None;
    };
    let Ok(caller) = listener.accept(7) else {
        return None;
    };
    Some(Pair {
        link_in,
        link_out,
        caller,
        listener,
    })
}

/// Asserts that a source gives just those bytes at its next read.
fn same_read<S: Source>(rt: &impl Abort, source: &mut S, bytes: &str) {
    let mut piece = [0; 16];
    let count = source.read(&mut piece).ok().expect(rt, "a read");
    assert!(rt; count <= piece.len());
    same(rt, &piece[..count], bytes.as_bytes());
}

#[test]
fn a_link_carries_bytes_both_ways_to_their_end(rt: HostRuntime) {
    let Some(
        Pair {
            mut link_in,
            mut link_out,
            caller,
            ..
        },
    ) = open_pair(&rt)
    else {
        panic!(rt; "no link");
    };
    let Caller {
        mut client_in,
        mut client_out,
        peer,
    } = caller;
    same_text(&rt, &peer.address, "127.0.0.1");
    same(&rt, write_all(&mut link_out, b"asked"), Ok(()));
    link_out.finish();
    link_out.finish();
    same_read(&rt, &mut client_in, "asked");
    same_read(&rt, &mut client_in, "");
    same(&rt, write_all(&mut client_out, b"answered"), Ok(()));
    same_read(&rt, &mut link_in, "answered");
    same(&rt, link_out.has_failed(), false);
    same(
        &rt,
        write_all(&mut link_out, b"more"),
        Err(SinkFault::Failed),
    );
    same(&rt, link_out.has_failed(), true);
}

#[test]
fn a_reset_and_a_write_to_a_closed_peer_are_faults(rt: HostRuntime) {
    let Some(
        Pair {
            mut link_in,
            mut link_out,
            caller,
            listener,
        },
    ) = open_pair(&rt)
    else {
        panic!(rt; "no link");
    };
    same(&rt, write_all(&mut link_out, b"unread"), Ok(()));
    drop(listener);
    drop(caller);
    let mut piece = [0; 4];
    same(&rt, link_in.read(&mut piece), Err(Failed));
    same(&rt, link_in.has_failed(), true);
    same(
        &rt,
        write_all(&mut link_out, b"late"),
        Err(SinkFault::Failed),
    );
    same(&rt, link_out.has_failed(), true);
    SocketDialer::new(rt.alloc(), &rt, short_times(), 0).hang_up(link_in, link_out);
}

#[test]
fn dials_that_reach_nothing_say_why(rt: HostRuntime) {
    let (alloc, times) = (rt.alloc(), short_times());
    let Ok(listener) = SocketListener::listen(alloc, &rt, times, b"127.0.0.1", 0) else {
        panic!(rt; "no listener");
    };
    let port = listener.port;
    drop(listener);
    let mut dialer = SocketDialer::new(alloc, &rt, times, 0);
    let not_reached = dialer.dial(b"127.0.0.1", port).err();
    same(&rt, not_reached, Some(DialFault::NotReached));
    let no_name = dialer.dial(b"\xff.test", port).err();
    same(&rt, no_name, Some(DialFault::NoName));
}

/// Why an address isn't listened at.
fn listen_fault(rt: &HostRuntime, host: &[u8], port: u16) -> Option<ListenFault> {
    SocketListener::listen(rt.alloc(), rt, short_times(), host, port).err()
}

#[test]
fn an_address_that_cannot_be_listened_at_says_why(rt: HostRuntime) {
    let (alloc, times) = (rt.alloc(), short_times());
    let Ok(listener) = SocketListener::listen(alloc, &rt, times, b"127.0.0.1", 0) else {
        panic!(rt; "no listener");
    };
    let taken = listen_fault(&rt, b"127.0.0.1", listener.port);
    same(&rt, taken, Some(ListenFault::InUse));
    let elsewhere = listen_fault(&rt, b"192.0.2.1", 0);
    same(&rt, elsewhere, Some(ListenFault::NoAddress));
    let anywhere = listen_fault(&rt, b"0.0.0.0", 0);
    same(&rt, anywhere, Some(ListenFault::NoAddress));
    let no_text = listen_fault(&rt, b"\xff", 0);
    same(&rt, no_text, Some(ListenFault::NoAddress));
}

/// Asserts whether a link at rest has ended, at two looks.
fn same_look(rt: &impl Abort, source: &mut SocketSource<'_>, ended: bool) {
    same(rt, source.has_ended(), ended);
    same(rt, source.has_ended(), ended);
}

#[test]
fn a_look_at_a_link_takes_nothing_and_sees_bytes_and_their_end(rt: HostRuntime) {
    let Some(
        Pair {
            mut link_in,
            link_out,
            caller,
            listener,
        },
    ) = open_pair(&rt)
    else {
        panic!(rt; "no link");
    };
    let Caller {
        client_in,
        mut client_out,
        ..
    } = caller;
    same_look(&rt, &mut link_in, false);
    same(&rt, write_all(&mut client_out, b"unasked"), Ok(()));
    same_look(&rt, &mut link_in, true);
    same_read(&rt, &mut link_in, "unasked");
    same_look(&rt, &mut link_in, false);
    client_out.finish();
    same_look(&rt, &mut link_in, true);
    same_read(&rt, &mut link_in, "");
    same(&rt, link_in.has_failed(), false);
    drop((link_out, client_in, listener));
}

#[test]
fn a_look_at_a_link_that_was_reset_sees_it(rt: HostRuntime) {
    let Some(
        Pair {
            mut link_in,
            mut link_out,
            caller,
            listener,
        },
    ) = open_pair(&rt)
    else {
        panic!(rt; "no link");
    };
    same(&rt, write_all(&mut link_out, b"unread"), Ok(()));
    drop(listener);
    drop(caller);
    same_look(&rt, &mut link_in, true);
}

/// Asserts that both ends are let go: their reads and writes fail, and are counted.
fn same_closed(rt: &impl Abort, source: &mut SocketSource<'_>, sink: &mut SocketSink<'_>) {
    same(rt, source.has_failed(), false);
    let mut piece = [0; 4];
    same(rt, source.read(&mut piece), Err(Failed));
    same(rt, source.has_failed(), true);
    same(rt, source.has_ended(), true);
    sink.finish();
    same(rt, sink.has_failed(), false);
    same(rt, write_all(sink, b"late"), Err(SinkFault::Failed));
    same(rt, sink.has_failed(), true);
}

#[test]
fn ends_that_let_their_socket_go_leave_what_was_written(rt: HostRuntime) {
    let Some(
        Pair {
            mut link_in,
            mut link_out,
            caller,
            listener,
        },
    ) = open_pair(&rt)
    else {
        panic!(rt; "no link");
    };
    let Caller {
        mut client_in,
        mut client_out,
        ..
    } = caller;
    same(&rt, write_all(&mut client_out, b"answer"), Ok(()));
    client_in.close();
    client_in.close();
    client_out.close();
    same_closed(&rt, &mut client_in, &mut client_out);
    same_read(&rt, &mut link_in, "answer");
    drop(listener);
    same_read(&rt, &mut link_in, "");
    link_in.close();
    link_out.close();
    same_closed(&rt, &mut link_in, &mut link_out);
}
