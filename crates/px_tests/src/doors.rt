ghost use Rattle.std.specs.Prelude.{◌≡◌, ◌≤◌, ◌<◌, ◌+◌, ◌-◌, ◌^◌, false, IfOk, IfSome, length};
ghost use Rattle.px_ends.specs.Ends.{IsFreshEnds};

use crate::common::same;
use px_base::{
    Clock, Dialer, Failed, FixedClock, List, Mem, MemDialer, Peer, Sink, Source, TapeIn, TapeOut,
    Text, write_all,
};
use px_doors::*;
use px_ends::{Ends, Outside};
use px_notes::{Session, SessionEnd};
use px_sockets::{SocketDialer, SocketSource};
use std::alloc::Global;
use std::test::Fail;
use std::time::Duration;

/// A connection in memory whose client says those bytes.
fn client(alloc: Global, bytes: &[u8]) -> Result<MemEnds, Mem>
    ensures { IfOk result (λ conn. IsFreshEnds conn) }
{
    let client_in = TapeIn::new(alloc, bytes, &[], &[])?;
    let client_out = TapeOut::new(alloc, &[], &[])?;
    let dialer = MemDialer::new(alloc, List::new(alloc))?;
    let clock = FixedClock::new(List::new(alloc));
    let peer = Peer {
        address: Text::from_bytes(alloc, b"127.0.0.1")?,
    };
    Ok(Ends::new(alloc, client_in, client_out, dialer, clock, peer))
}

/// Doors with three connections, of which those calls fail.
fn three_clients(alloc: Global, fails: &[u64]) -> Result<MemDoors, Mem>
    ensures { IfOk result (λ doors. ((⟦<MemDoors as Doors>⟧.state doors).accepted ≡ 0) × (length (⟦<MemDoors as Doors>⟧.state doors).parted ≡ 0)) }
{
    let conns = vec![in alloc;
        client(alloc, b"zero")?,
        client(alloc, b"one")?,
        client(alloc, b"two")?,
    ]?;
    MemDoors::new(alloc, List::from_vec(conns), fails)
}

/// Accepts a connection and parts it unserved, with the configuration 7. Tells whether one came.
fn pass_by(alloc: Global, doors: &mut MemDoors, number: u64) -> Result<bool, AcceptFault>
    requires below { (⟦<MemDoors as Doors>⟧.state doors.old).accepted < 2 ^ 64 - 1 }
    requires all_parted { length (⟦<MemDoors as Doors>⟧.state doors.old).parted ≡ (⟦<MemDoors as Doors>⟧.state doors.old).accepted }
    ensures at_most_one { (⟦<MemDoors as Doors>⟧.state doors.new).accepted ≤ (⟦<MemDoors as Doors>⟧.state doors.old).accepted + 1 }
    ensures all_parted { length (⟦<MemDoors as Doors>⟧.state doors.new).parted ≡ (⟦<MemDoors as Doors>⟧.state doors.new).accepted }
{
    match doors.accept()? {
        Some(ends) => {
            let session = Session {
                exchanges: List::new(alloc),
                end: SessionEnd::Ended,
            };
            let mut parted = Some(Parted {
                number,
                handed: 7,
                session,
                ends,
            });
            doors.part(&mut parted);
            Ok(true)
        }
        None => Ok(false),
    }
}

/// The host and port at which doors were told to listen.
fn told(doors: &MemDoors) -> Option<(&[u8], u16)> {
    match doors.listens_at() {
        Some(address) => Some((address.host.as_bytes(), address.port)),
        None => None,
    }
}

#[test]
fn doors_in_memory_give_their_connections_in_order(rt: HostRuntime) -> Result<(), Fail> {
    let alloc = rt.alloc();
    let mut doors = three_clients(alloc, &[])?;
    let address = ListenAddress::copied(alloc, b"127.0.0.1", 8118)?;
    same(&rt, doors.listen(address), Ok(()));
    same(&rt, told(&doors), Some(("127.0.0.1".as_bytes(), 8118)));
    same(&rt, pass_by(alloc, &mut doors, 0), Ok(true));
    same(&rt, pass_by(alloc, &mut doors, 1), Ok(true));
    same(&rt, pass_by(alloc, &mut doors, 2), Ok(true));
    same(&rt, pass_by(alloc, &mut doors, 3), Ok(false));
    same(&rt, doors.parted().len(), 3);
    for (parted, mark) in doors.parted().iter().zip(0..) {
        let seen = (
            parted.number,
            parted.handed,
            parted.ends.client.source.mark(),
        );
        same(&rt, seen, (mark, 7, mark));
    }
    Ok(())
}

#[test]
fn the_calls_of_doors_in_memory_fail_by_their_numbers(rt: HostRuntime) -> Result<(), Fail> {
    let alloc = rt.alloc();
    let mut doors = three_clients(alloc, &[0, 2])?;
    let address = ListenAddress::copied(alloc, b"127.0.0.1", 8118)?;
    same(&rt, doors.listen(address), Err(Failed));
    same(&rt, told(&doors), None);
    same(&rt, pass_by(alloc, &mut doors, 0), Ok(true));
    same(&rt, pass_by(alloc, &mut doors, 1), Err(AcceptFault::Failed));
    same(&rt, pass_by(alloc, &mut doors, 1), Ok(true));
    same(&rt, doors.parted().len(), 2);
    for (parted, mark) in doors.parted().iter().zip(0..) {
        same(&rt, parted.ends.client.source.mark(), mark);
    }
    Ok(())
}

/// Short times, so that nothing waits for long.
fn short_times() -> Times {
    Times {
        idle: Duration::from_millis(2_000),
        piece: Duration::from_millis(1_000),
        linger: Duration::from_millis(400),
        ..Times::usual()
    }
}

/// Doors over TCP that listen on a free port, and the port.
fn open_doors<'r>(rt: &'r HostRuntime) -> Option<(SocketDoors<'r>, u16)>
    ensures none_accepted { IfSome result (λ pair. (⟦<SocketDoors<'r> as Doors>⟧.state pair.0).accepted ≡ 0) }
{
    let alloc = rt.alloc();
    let mut doors = SocketDoors::new(alloc, rt, short_times());
    let address = ListenAddress::copied(alloc, b"127.0.0.1", 0).ok()?;
    if doors.listen(address).is_err() {
        return None;
    }
    let port = doors.port()?;
    Some((doors, port))
}

/// Whether doors fail where a connection is asked for.
fn fails_to_accept<D: Doors>(doors: &mut D) -> bool
where
    <D::Conn as Outside>::In: Drop,
    <D::Conn as Outside>::Out: Drop,
    <D::Conn as Outside>::Dial: Drop,
    <D::Conn as Outside>::Time: Drop,
    requires { (D.state doors.old).accepted < 2 ^ 64 - 1 }
{
    matches!(doors.accept(), Err(AcceptFault::Failed))
}

#[test]
fn doors_that_do_not_listen_fail(rt: HostRuntime) {
    let mut doors = SocketDoors::new(rt.alloc(), &rt, short_times());
    same(&rt, fails_to_accept(&mut doors), true);
}

/// The first four bytes of a client, its address, and the moment at which they came.
#[derive(Drop)]
struct Call {
    said: [u8; 4],
    address: Text,
    moment: u64,
}

/// What the client of the next connection says.
fn next_call<D: Doors>(doors: &mut D) -> Option<Call>
where
    <D::Conn as Outside>::In: Drop,
    <D::Conn as Outside>::Out: Drop,
    <D::Conn as Outside>::Dial: Drop,
    <D::Conn as Outside>::Time: Drop,
    requires { (D.state doors.old).accepted < 2 ^ 64 - 1 }
{
    let Ok(Some(ends)) = doors.accept() else {
        return None;
    };
    let Ends {
        mut client,
        client_out: _client_out,
        dialer: _dialer,
        mut clock,
        peer,
    } = ends;
    let mut said = [0; 4];
    if client.read(&mut said) != Ok(4) {
        return None;
    }
    Some(Call {
        said,
        address: peer.address,
        moment: clock.now(),
    })
}

#[test]
fn doors_over_tcp_give_who_calls(rt: HostRuntime) {
    let Some((mut doors, port)) = open_doors(&rt) else {
        panic!(rt; "no doors");
    };
    let mut dialer = SocketDialer::new(rt.alloc(), &rt, short_times(), 0);
    let Ok((_link_in, mut link_out)) = dialer.dial(b"127.0.0.1", port) else {
        panic!(rt; "no link");
    };
    same(&rt, write_all(&mut link_out, b"call"), Ok(()));
    let Some(call) = next_call(&mut doors) else {
        panic!(rt; "no call");
    };
    same(&rt, call.said, *b"call");
    same(&rt, call.address.as_bytes(), "127.0.0.1".as_bytes());
    same(&rt, call.moment > 1_700_000_000, true);
}

/// Answers a connection that was accepted with so many thousand bytes, and parts it.
fn answer_and_part<D: Doors>(alloc: Global, doors: &mut D, thousands: u64) -> bool
where
    <D::Conn as Outside>::In: Drop,
    <D::Conn as Outside>::Out: Drop,
    <D::Conn as Outside>::Dial: Drop,
    <D::Conn as Outside>::Time: Drop,
    requires more { (D.state doors.old).accepted < 2 ^ 64 - 1 }
    requires untold { (D.state doors.old).tells ≡ false }
{
    let Ok(Some(mut ends)) = doors.accept() else {
        return false;
    };
    let piece = [b'a'; 1_000];
    'pieces: for _ in 0..thousands {
        if write_all(&mut ends.client_out, &piece).is_err() {
            return false;
        }
    }
    ends.client_out.finish();
    let mut parted = Some(Parted {
        number: 0,
        handed: 0,
        session: Session {
            exchanges: List::new(alloc),
            end: SessionEnd::Closed,
        },
        ends,
    });
    doors.part(&mut parted);
    true
}

/// The bytes that come until the end; none where a read fails.
fn count_to_end(source: &mut SocketSource<'_>) -> Option<u64> {
    let mut piece = [0; 4_096];
    let mut count = 0u64;
    'pieces: for _ in 0..1_000_000u64 {
        match source.read(&mut piece) {
            Ok(0) => return Some(count),
            Ok(more) => count = count.saturating_add(more as u64),
            Err(Failed) => return None,
        }
    }
    None
}

#[test]
fn a_late_byte_does_not_take_the_end_of_an_answer(rt: HostRuntime) {
    let Some((mut doors, port)) = open_doors(&rt) else {
        panic!(rt; "no doors");
    };
    let mut dialer = SocketDialer::new(rt.alloc(), &rt, short_times(), 0);
    let Ok((mut link_in, mut link_out)) = dialer.dial(b"127.0.0.1", port) else {
        panic!(rt; "no link");
    };
    same(&rt, write_all(&mut link_out, b"\r\n"), Ok(()));
    same(&rt, answer_and_part(rt.alloc(), &mut doors, 60), true);
    drop(doors);
    same(&rt, count_to_end(&mut link_in), Some(60_000));
}

/// Takes what may go to another thread.
fn sent<T: Send>(value: &T) {
    let _ = value;
}

#[test]
fn doors_in_memory_may_go_to_another_thread(rt: HostRuntime) -> Result<(), Fail> {
    let doors = three_clients(rt.alloc(), &[])?;
    sent(&doors);
    Ok(())
}
