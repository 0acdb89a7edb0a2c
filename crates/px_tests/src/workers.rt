//! Two workers over doors and an origin that wait: while the origin of connection 0 waits, connection 1 is answered and the files
//! change.
ghost use Rattle.std.specs.Prelude.{◌≡◌, true, false, [], None, IfOk};
ghost use Rattle.px_base.specs.Dials.{IsFresh};
ghost use Rattle.px_ends.specs.Ends.{IsFreshEnds};
ghost use Rattle.px_ends.specs.Marks.{HasMark};
ghost use Rattle.px_doors.specs.Doors.{untold_doors};

use crate::common::{NoLogs, same};
use px_base::{
    Clock, DialFault, Dialer, Failed, FixedClock, List, Mem, MemFiles, Peer, Rests, Sink,
    SinkFault, Source, TapeIn, TapeOut, Text,
};
use px_doors::{AcceptFault, Doors, ListenAddress, Parted};
use px_ends::{Ends, Outside};
use px_serve_command::{DeskParts, Proxied, ReloadCounts, run_proxy};
use std::alloc::Global;
use std::marker::PhantomData;
use std::sync::Wait;
use std::sync::atomic::{AtomicU64, Ordering};
use std::test::Fail;
use std::thread::{self, Threads};

/// How often a side that waits looks, yielding its thread between two looks.
const LOOKS: u64 = 1_000_000;

const TWO_REQUESTS: &[u8] = b"GET http://a.test/x HTTP/1.1\r\nHost: a.test\r\n\r\n\
GET http://a.test/y HTTP/1.1\r\nHost: a.test\r\n\r\n";

const ONE_REQUEST: &[u8] = b"GET http://a.test/x HTTP/1.1\r\nHost: a.test\r\n\r\n";

const ANSWER: &[u8] = b"HTTP/1.1 200 OK\r\nContent-Length: 2\r\n\r\nhi";

/// What the sides tell each other.
#[derive(Drop)]
struct Seen {
    /// How often an origin was dialled.
    dialled: AtomicU64,
    /// How many bytes the clients were answered, by their connection.
    answered: [AtomicU64; 3],
}

/// Waits until a count isn't 0, and tells whether it is so.
fn has_risen(count: &AtomicU64) -> bool {
    'looks: for _ in 0..LOOKS {
        if count.load(Ordering::SeqCst) > 0 {
            return true;
        }
        thread::yield_now();
    }
    false
}

/// A sink that adds what it takes to a count that others see.
#[derive(Drop)]
struct Told<'c> {
    tape: TapeOut,
    taken: &'c AtomicU64,
}

impl<'c> Sink for Told<'c> {
    ghost state = { λ told. ⟦<TapeOut as Sink>⟧.state told.tape };

    fn write(&mut self, bytes: &[u8]) -> Result<usize, SinkFault> {
        let count = self.tape.write(bytes)?;
        self.taken.fetch_add(count as u64, Ordering::SeqCst);
        Ok(count)
    }

    fn finish(&mut self) {
        self.tape.finish();
    }
}

/// A source that gives its bytes once a count isn't 0. One that waits in vain fails.
#[derive(Drop)]
struct Waiting<'c> {
    tape: TapeIn,
    until: &'c AtomicU64,
    faults: u64,
}

impl<'c> Source for Waiting<'c> {
    ghost state = { λ w. record {
      tells = true;
      offered = (⟦<TapeIn as Source>⟧.state w.tape).offered;
      left = (⟦<TapeIn as Source>⟧.state w.tape).left;
      faults = w.faults;
      steady = false;
      mark = (⟦<TapeIn as Source>⟧.state w.tape).mark;
    } };

    fn read(&mut self, buf: &mut [u8]) -> Result<usize, Failed> {
        if has_risen(self.until) {
            if let Ok(count) = self.tape.read(buf) {
                return Ok(count);
            }
        }
        self.faults = self.faults.saturating_add(1);
        Err(Failed)
    }
}

impl<'c> Rests for Waiting<'c> {
    fn has_ended(&mut self) -> bool {
        false
    }
}

/// Counts its dials where others see them. The answer of each link waits for a count.
#[derive(Drop)]
struct Origin<'c> {
    alloc: Global,
    dialled: &'c AtomicU64,
    until: &'c AtomicU64,
    link_reads: u64,
    link_writes: u64,
    opened: u64,
    hung_up: u64,
    mark: u64,
}

/// A link to an origin whose answer waits for a count.
fn link<'c>(alloc: Global, until: &'c AtomicU64) -> Result<(Waiting<'c>, TapeOut), Mem>
    ensures fresh { IfOk result (λ link. IsFresh (record { link_in = ⟦<Waiting<'c> as Source>⟧.state link.0; link_out = ⟦<TapeOut as Sink>⟧.state link.1 })) }
{
    let tape = TapeIn::new(alloc, ANSWER, &[], &[])?;
    let sent = TapeOut::new(alloc, &[], &[])?;
    Ok((
        Waiting {
            tape,
            until,
            faults: 0,
        },
        sent,
    ))
}

impl<'c> Dialer for Origin<'c> {
    type In = Waiting<'c>;

    type Out = TapeOut;

    ghost state = { λ d. record {
      tells = false;
      dials = [];
      tells_coming = false;
      coming = [];
      through_servers = false;
      names = 0;
      reach = 0;
      link_reads = d.link_reads;
      link_writes = d.link_writes;
      opened = d.opened;
      hung_up = d.hung_up;
      mark = d.mark;
    } };

    fn dial(&mut self, _host: &[u8], _port: u16) -> Result<(Waiting<'c>, TapeOut), DialFault> {
        self.dialled.fetch_add(1, Ordering::SeqCst);
        match link(self.alloc, self.until) {
            Ok(link) => {
                self.opened = self.opened.saturating_add(1);
                Ok(link)
            }
            Err(Mem) => Err(DialFault::Mem),
        }
    }

    fn hang_up(&mut self, link_in: Waiting<'c>, link_out: TapeOut) {
        self.hung_up = self.hung_up.saturating_add(1);
        if link_in.faults != 0 {
            self.link_reads = self.link_reads.saturating_add(1);
        }
        if link_out.has_failed() {
            self.link_writes = self.link_writes.saturating_add(1);
        }
    }
}

/// The types of the ends of a connection.
#[derive(Drop)]
struct RowConn<'c> {
    seen: PhantomData<&'c Seen>,
}

impl<'c> Outside for RowConn<'c> {
    type In = TapeIn;

    type Out = Told<'c>;

    type Dial = Origin<'c>;

    type Time = FixedClock;
}

type RowEnds<'c> = Ends<RowConn<'c>>;

type RowParted<'c> = Parted<RowConn<'c>>;

/// Three connections. The second is given once an origin was dialled.
#[derive(Drop)]
struct WaitingDoors<'c> {
    alloc: Global,
    seen: &'c Seen,
    parted: Vec<RowParted<'c>>,
    lost: u64,
    listens_at: Option<ListenAddress>,
    accepted: u64,
    faults: u64,
}

impl<'c> WaitingDoors<'c> {
    fn new(alloc: Global, seen: &'c Seen) -> WaitingDoors<'c>
        ensures { ⟦<WaitingDoors<'c> as Doors>⟧.state result ≡ untold_doors None 0 0 }
    {
        WaitingDoors {
            alloc,
            seen,
            parted: Vec::new(alloc),
            lost: 0,
            listens_at: None,
            accepted: 0,
            faults: 0,
        }
    }
}

/// A connection with that mark. The origin of connection 0 answers once connection 1 was answered, and that of another at once.
fn row_conn<'c>(alloc: Global, seen: &'c Seen, mark: u64) -> Result<RowEnds<'c>, Mem>
    ensures fresh { IfOk result (λ ends. IsFreshEnds ends) }
    ensures mark { IfOk result (λ ends. HasMark mark ends) }
{
    let (requests, until) = match mark {
        0 => (TWO_REQUESTS, &seen.answered[1]),
        _ => (ONE_REQUEST, &seen.dialled),
    };
    let taken = &seen.answered[(mark % 3) as usize];
    let mut client_in = TapeIn::new(alloc, requests, &[], &[])?;
    client_in.set_mark(mark);
    let mut tape = TapeOut::new(alloc, &[], &[])?;
    tape.set_mark(mark);
    let client_out = Told { tape, taken };
    let dialer = Origin {
        alloc,
        dialled: &seen.dialled,
        until,
        link_reads: 0,
        link_writes: 0,
        opened: 0,
        hung_up: 0,
        mark,
    };
    let clock = FixedClock::new(List::new(alloc));
    let peer = Peer {
        address: Text::from_bytes(alloc, b"127.0.0.1")?,
    };
    Ok(Ends::new(alloc, client_in, client_out, dialer, clock, peer))
}

/// Keeps a thing that there may be, or lets it go where memory is wanting for it. It says whether nothing was let go.
fn keeps<T: Drop>(kept: &mut Vec<T>, thing: Option<T>) -> bool {
    match thing {
        Some(thing) => kept.push(thing).is_ok(),
        None => true,
    }
}

impl<'c> Doors for WaitingDoors<'c> {
    type Conn = RowConn<'c>;

    ghost state = { λ d. untold_doors d.listens_at d.accepted d.faults };

    fn listen(&mut self, address: ListenAddress) -> Result<(), Failed> {
        self.listens_at = Some(address);
        Ok(())
    }

    fn accept(&mut self) -> Result<Option<RowEnds<'c>>, AcceptFault> {
        if self.accepted == 1 && !has_risen(&self.seen.dialled) {
            self.faults = self.faults.saturating_add(1);
            return Err(AcceptFault::Failed);
        }
        match row_conn(self.alloc, self.seen, self.accepted) {
            Ok(ends) => {
                self.accepted += 1;
                Ok(Some(ends))
            }
            Err(Mem) => Err(AcceptFault::Mem),
        }
    }

    fn leave(_client_in: &mut TapeIn, _client_out: &mut Told<'c>) {}

    fn rest(_dialer: &mut Origin<'c>) {}

    fn part(&mut self, parted: &mut Option<RowParted<'c>>) {
        if !keeps(&mut self.parted, parted.take()) {
            self.lost = self.lost.saturating_add(1);
        }
    }
}

/// A main file's text at each turn: as at first, another that is good, and a faulty one.
const TURNS: [&[u8]; 4] = [
    b"",
    b"",
    b"buffer-limit 8\n",
    b"listen-address 0.0.0.0:8118\n",
];

fn turning_files(alloc: Global) -> Result<MemFiles, Mem> {
    let mut states = List::new(alloc);
    for main in TURNS {
        let mut state = List::new(alloc);
        state.add((
            Text::from_bytes(alloc, b"c")?,
            Text::from_bytes(alloc, main)?,
        ))?;
        states.add(state)?;
    }
    MemFiles::new(alloc, states, &[])
}

fn proxied<'c, R: Threads + Wait + Sync>(
    rt: &R,
    alloc: Global,
    seen: &'c Seen,
) -> Result<Proxied<MemFiles, WaitingDoors<'c>, TapeOut>, Mem> {
    let parts = DeskParts {
        files: turning_files(alloc)?,
        doors: WaitingDoors::new(alloc, seen),
        err: TapeOut::new(alloc, &[], &[])?,
    };
    let mut words = Vec::new(alloc);
    for word in ["serve", "c", "2", "3"] {
        words.push(String::from_str(alloc, word)?)?;
    }
    Ok(run_proxy(alloc, rt, &words, parts, &NoLogs))
}

/// The numbers of the configurations that the exchanges of a connection used: at most two.
fn numbers(doors: &WaitingDoors<'_>, number: u64) -> [Option<u64>; 2] {
    for parted in doors.parted.iter() {
        if parted.number == number {
            let notes = parted.session.exchanges.as_slice();
            return [
                notes.get(0).map(|note| note.config),
                notes.get(1).map(|note| note.config),
            ];
        }
    }
    [None, None]
}

#[test]
fn a_connection_is_served_while_another_waits_and_the_files_change(
    rt: HostRuntime,
) -> Result<(), Fail> {
    let seen = Seen {
        dialled: AtomicU64::new(0),
        answered: [AtomicU64::new(0), AtomicU64::new(0), AtomicU64::new(0)],
    };
    let proxied = proxied(&rt, rt.alloc(), &seen)?;
    same(&rt, (proxied.status, proxied.workers), (0, 2));
    let doors = &proxied.parts.doors;
    same(&rt, (doors.parted.len(), doors.lost), (3, 0));
    same(&rt, numbers(doors, 0), [Some(0), Some(1)]);
    same(&rt, numbers(doors, 1), [Some(1), None]);
    same(&rt, numbers(doors, 2), [Some(1), None]);
    let counts = ReloadCounts {
        same: 1,
        published: 1,
        kept: 1,
        read_faults: 0,
        wanting: 0,
    };
    same(&rt, proxied.counts, counts);
    let printed = proxied.parts.err.taken();
    same(&rt, printed, b"c:1: 30 NotLoopback\n".as_slice());
    Ok(())
}
