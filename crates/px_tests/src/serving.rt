//! The command `serve` over doors in memory.
ghost use Rattle.std.specs.Prelude.{All, IfOk};
ghost use Rattle.px_ends.specs.Ends.{IsFreshEnds};
ghost use Rattle.px_desk.specs.Facts.{DoorsBegun};

use crate::common::{NoLogs, same, same_at};
use px_base::{Answer, FixedClock, List, Mem, MemDialer, MemFiles, Peer, TapeIn, TapeOut, Text};
use px_doors::{Doors, MemDoors, MemEnds};
use px_ends::Ends;
use px_serve_command::{DeskParts, Proxied, run_proxy};
use std::alloc::Global;
use std::sync::Wait;
use std::test::Fail;
use std::thread::Threads;

const GET: &[u8] = b"GET http://a.test/x HTTP/1.1\r\nHost: a.test\r\n\r\n";

const ANSWER: &[u8] = b"HTTP/1.1 200 OK\r\nContent-Length: 2\r\n\r\nhi";

pub(crate) const REPLY: &[u8] =
    b"HTTP/1.1 200 OK\r\nContent-Length: 2\r\nConnection: keep-alive\r\n\r\nhi";

/// The ends of a client with that address that says those bytes, whose dials have those answers.
pub(crate) fn ends_from(
    alloc: Global,
    address: &[u8],
    said: &[u8],
    answers: List<Answer>,
) -> Result<MemEnds, Mem>
    ensures { IfOk result (λ conn. IsFreshEnds conn) }
{
    let client_in = TapeIn::new(alloc, said, &[], &[])?;
    let client_out = TapeOut::new(alloc, &[], &[])?;
    let dialer = MemDialer::new(alloc, answers)?;
    let clock = FixedClock::new(List::new(alloc));
    let peer = Peer {
        address: Text::from_bytes(alloc, address)?,
    };
    Ok(Ends::new(alloc, client_in, client_out, dialer, clock, peer))
}

/// The same of a client of this machine.
fn ends_of(alloc: Global, said: &[u8], answers: List<Answer>) -> Result<MemEnds, Mem>
    ensures { IfOk result (λ conn. IsFreshEnds conn) }
{
    ends_from(alloc, b"127.0.0.1", said, answers)
}

/// The answers of a server that is dialled once and answers once.
pub(crate) fn one_answer(alloc: Global) -> Result<List<Answer>, Mem> {
    let mut answers = List::new(alloc);
    answers.add(Answer::Link {
        bytes: Text::from_bytes(alloc, ANSWER)?,
        cuts: List::new(alloc),
        read_fails: List::new(alloc),
        write_fails: List::new(alloc),
    })?;
    Ok(answers)
}

/// A connection with one request, whose one dial has one answer.
fn conn(alloc: Global) -> Result<MemEnds, Mem>
    ensures { IfOk result (λ conn. IsFreshEnds conn) }
{
    ends_of(alloc, GET, one_answer(alloc)?)
}

/// A connection with two requests. Each of its two dials would give an answer to both, one at a time.
fn conn_of_two(alloc: Global) -> Result<MemEnds, Mem>
    ensures { IfOk result (λ conn. IsFreshEnds conn) }
{
    let mut answers = List::new(alloc);
    answers.add(two_answers(alloc)?)?;
    answers.add(two_answers(alloc)?)?;
    let mut asked = Text::from_bytes(alloc, GET)?;
    asked.push_all(GET)?;
    ends_of(alloc, asked.as_bytes(), answers)
}

/// A link with two answers, of which a read brings one.
fn two_answers(alloc: Global) -> Result<Answer, Mem> {
    let mut bytes = Text::from_bytes(alloc, ANSWER)?;
    bytes.push_all(ANSWER)?;
    let cuts = vec![in alloc; ANSWER.len(), ANSWER.len()]?;
    Ok(Answer::Link {
        bytes,
        cuts: List::from_vec(cuts),
        read_fails: List::new(alloc),
        write_fails: List::new(alloc),
    })
}

/// Three connections with one request each.
pub(crate) fn three_conns(alloc: Global) -> Result<List<MemEnds>, Mem>
    ensures { IfOk result (λ conns. All IsFreshEnds conns) }
{
    three_of(alloc, conn(alloc)?, conn(alloc)?, conn(alloc)?)
}

/// Those three connections.
pub(crate) fn three_of(
    alloc: Global,
    first: MemEnds,
    second: MemEnds,
    third: MemEnds,
) -> Result<List<MemEnds>, Mem>
    requires fresh_first { IsFreshEnds first }
    requires fresh_second { IsFreshEnds second }
    requires fresh_third { IsFreshEnds third }
    ensures { IfOk result (λ conns. All IsFreshEnds conns) }
{
    let conns = vec![in alloc; first, second, third]?;
    Ok(List::from_vec(conns))
}

/// One connection with two requests.
fn one_conn(alloc: Global) -> Result<List<MemEnds>, Mem>
    ensures { IfOk result (λ conns. All IsFreshEnds conns) }
{
    let conns = vec![in alloc; conn_of_two(alloc)?]?;
    Ok(List::from_vec(conns))
}

/// Files of which `c` is the one.
fn files_of(alloc: Global, main: &[u8]) -> Result<MemFiles, Mem> {
    let name = Text::from_bytes(alloc, b"c")?;
    let main = Text::from_bytes(alloc, main)?;
    let mut files = List::new(alloc);
    files.add((name, main))?;
    let mut states = List::new(alloc);
    states.add(files)?;
    MemFiles::new(alloc, states, &[])
}

/// What `serve` is run with: such files, and doors with those connections, of which those calls fail.
fn parts_of(
    alloc: Global,
    main: &[u8],
    conns: List<MemEnds>,
    fails: &[u64],
) -> Result<DeskParts<MemFiles, MemDoors, TapeOut>, Mem>
    requires fresh { All IsFreshEnds conns }
    ensures begun { IfOk result (λ parts. DoorsBegun (⟦<MemDoors as Doors>⟧.state parts.doors)) }
{
    let doors = MemDoors::new(alloc, conns, fails)?;
    let files = files_of(alloc, main)?;
    let err = TapeOut::new(alloc, &[], &[])?;
    Ok(DeskParts { files, doors, err })
}

pub(crate) fn words_of(alloc: Global, words: &[&str]) -> Result<Vec<String>, Fail> {
    let mut owned = Vec::new(alloc);
    for word in words {
        owned.push(String::from_str(alloc, word)?)?;
    }
    Ok(owned)
}

/// Runs `serve` by words, over a main file and connections, those calls of the doors failing.
fn proxied<R: Threads + Wait + Sync>(
    alloc: Global,
    rt: &R,
    words: &[&str],
    main: &[u8],
    conns: List<MemEnds>,
    fails: &[u64],
) -> Result<Proxied<MemFiles, MemDoors, TapeOut>, Fail>
    requires fresh { All IsFreshEnds conns }
{
    let parts = parts_of(alloc, main, conns, fails)?;
    let words = words_of(alloc, words)?;
    Ok(run_proxy(alloc, rt, &words, parts, &NoLogs))
}

/// Two of three connections are to be served by one worker.
const TWO: [&str; 4] = ["serve", "c", "1", "2"];

#[test]
fn two_of_three_connections_are_served(rt: HostRuntime) -> Result<(), Fail> {
    let conns = three_conns(rt.alloc())?;
    let proxied = proxied(rt.alloc(), &rt, &TWO, b"", conns, &[])?;
    same(&rt, proxied.status, 0);
    let address = proxied.parts.doors.listens_at().expect(&rt, "an address");
    same(&rt, address.host.as_bytes(), b"127.0.0.1".as_slice());
    same(&rt, address.port, 8118);
    let parted = proxied.parts.doors.parted();
    same(&rt, parted.len(), 2);
    for (number, one) in parted.iter().enumerate() {
        same(&rt, one.number, number as u64);
        same(&rt, one.ends.client_out.taken(), REPLY);
    }
    Ok(())
}

/// The calls of the doors that fail, listening being the first, the status, whether they listened, how many workers served and how
/// many connections.
const FAULTS: [(&[u64], u8, bool, u64, usize); 3] = [
    (&[0], 7, false, 0, 0),
    (&[1], 7, true, 1, 0),
    (&[2], 7, true, 1, 1),
];

#[test]
fn doors_that_fail_are_status_7(rt: HostRuntime) -> Result<(), Fail> {
    for (fails, status, listened, workers, count) in FAULTS {
        let conns = three_conns(rt.alloc())?;
        let proxied = proxied(rt.alloc(), &rt, &TWO, b"", conns, fails)?;
        let doors = &proxied.parts.doors;
        let seen = (
            proxied.status,
            doors.listens_at().is_some(),
            doors.parted().len(),
        );
        same_at(&rt, fails, seen, (status, listened, count));
        same_at(&rt, fails, proxied.workers, workers);
    }
    Ok(())
}

/// What is sent over a link of its own, and twice over one that is shared.
const CLOSED: &[u8] = b"GET /x HTTP/1.1\r\nHost: a.test\r\nConnection: close\r\n\r\n";

const KEPT_TWICE: &[u8] = b"GET /x HTTP/1.1\r\nHost: a.test\r\nConnection: keep-alive\r\n\r\n\
GET /x HTTP/1.1\r\nHost: a.test\r\nConnection: keep-alive\r\n\r\n";

/// The main file, how many links are dialled for two requests, and what is sent over each.
const SHARING: [(&[u8], usize, &[u8]); 3] = [
    (b"", 2, CLOSED),
    (b"link-reuse 0\n", 2, CLOSED),
    (b"link-reuse 1\n", 1, KEPT_TWICE),
];

#[test]
fn the_requests_of_a_connection_share_a_link_where_the_main_file_says_so(
    rt: HostRuntime,
) -> Result<(), Fail> {
    for (main, links, sent) in SHARING {
        let conns = one_conn(rt.alloc())?;
        let proxied = proxied(rt.alloc(), &rt, &["serve", "c", "1"], main, conns, &[])?;
        same_at(&rt, main, proxied.status, 0);
        for parted in proxied.parts.doors.parted() {
            same_at(&rt, main, parted.ends.dialer.links().len(), links);
            for link in parted.ends.dialer.links() {
                same_at(&rt, main, link.sent.as_bytes(), sent);
            }
        }
        same_at(&rt, main, proxied.parts.doors.parted().len(), 1);
    }
    Ok(())
}
