//! Tags that clients set by a page of `serve`: each for its own address, over all its connections.
ghost use Rattle.std.specs.Prelude.{All, IfOk};
ghost use Rattle.px_desk.specs.Facts.{DoorsBegun};
ghost use Rattle.px_ends.specs.Ends.{IsFreshEnds};

use crate::common::{NoLogs, same, same_at};
use crate::serving::{REPLY, ends_from, one_answer, three_of, words_of};
use px_base::{List, Mem, MemFiles, TapeOut, Text};
use px_doors::{Doors, MemDoors, MemEnds};
use px_serve_command::{DeskParts, Proxied, run_proxy};
use std::alloc::Global;
use std::sync::Wait;
use std::test::Fail;
use std::thread::Threads;

const MAIN: &[u8] = b"client-specific-tag ads ads\nactionsfile u.action\n";

const ACTIONS: &[u8] = b"{+block{t}}\nCLIENT-TAG:^ads$\n";

/// A request, and one behind another that puts the tag on or takes it off.
const GET: &[u8] = b"GET http://a.test/ HTTP/1.1\r\nHost: a.test\r\n\r\n";

const ON: &[u8] = b"GET http://p.p/client-tags/on?ads HTTP/1.1\r\nHost: p.p\r\n\r\n\
GET http://a.test/ HTTP/1.1\r\nHost: a.test\r\n\r\n";

const OFF: &[u8] = b"GET http://p.p/client-tags/off?%61ds HTTP/1.1\r\nHost: p.p\r\n\r\n\
GET http://a.test/ HTTP/1.1\r\nHost: a.test\r\n\r\n";

/// The page of the tags that are on, and the page of a block.
const IS_ON: &[u8] = b"HTTP/1.1 200 OK\r\nContent-Type: text/plain\r\nContent-Length: 10\r\n\
Cache-Control: no-cache\r\nConnection: keep-alive\r\n\r\ntags:\nads\n\
HTTP/1.1 403 Forbidden\r\nContent-Type: text/html\r\nContent-Length: 37\r\n\
Cache-Control: no-cache\r\nConnection: keep-alive\r\n\r\n<html><body>blocked: t</body></html>\n";

/// The page where none is on, and the server's answer.
const IS_OFF: &[u8] = b"HTTP/1.1 200 OK\r\nContent-Type: text/plain\r\nContent-Length: 6\r\n\
Cache-Control: no-cache\r\nConnection: keep-alive\r\n\r\ntags:\n\
HTTP/1.1 200 OK\r\nContent-Length: 2\r\nConnection: keep-alive\r\n\r\nhi";

/// The files of a configuration that blocks all that clients with the tag ask for.
fn files_of(alloc: Global) -> Result<MemFiles, Mem> {
    let mut files = List::new(alloc);
    files.add((
        Text::from_bytes(alloc, b"c")?,
        Text::from_bytes(alloc, MAIN)?,
    ))?;
    files.add((
        Text::from_bytes(alloc, b"u.action")?,
        Text::from_bytes(alloc, ACTIONS)?,
    ))?;
    let mut states = List::new(alloc);
    states.add(files)?;
    MemFiles::new(alloc, states, &[])
}

/// A client that puts the tag on itself, one with another address, and the first again, which takes it off.
fn clients(alloc: Global) -> Result<List<MemEnds>, Mem>
    ensures { IfOk result (λ conns. All IsFreshEnds conns) }
{
    let first = ends_from(alloc, b"127.0.0.1", ON, one_answer(alloc)?)?;
    let second = ends_from(alloc, b"127.0.0.2", GET, one_answer(alloc)?)?;
    let third = ends_from(alloc, b"127.0.0.1", OFF, one_answer(alloc)?)?;
    three_of(alloc, first, second, third)
}

/// What `serve` is run with.
fn parts_of(
    alloc: Global,
    conns: List<MemEnds>,
) -> Result<DeskParts<MemFiles, MemDoors, TapeOut>, Mem>
    requires fresh { All IsFreshEnds conns }
    ensures begun { IfOk result (λ parts. DoorsBegun (⟦<MemDoors as Doors>⟧.state parts.doors)) }
{
    let doors = MemDoors::new(alloc, conns, &[])?;
    let files = files_of(alloc)?;
    let err = TapeOut::new(alloc, &[], &[])?;
    Ok(DeskParts { files, doors, err })
}

/// Serves the three, one after the other.
fn served<R: Threads + Wait + Sync>(
    rt: &R,
    alloc: Global,
) -> Result<Proxied<MemFiles, MemDoors, TapeOut>, Fail> {
    let conns = clients(alloc)?;
    let parts = parts_of(alloc, conns)?;
    let words = words_of(alloc, &["serve", "c", "1", "3"])?;
    Ok(run_proxy(alloc, rt, &words, parts, &NoLogs))
}

/// What each of the three is answered, and how many of its dials are made.
const ANSWERS: [(&[u8], usize); 3] = [(IS_ON, 0), (REPLY, 1), (IS_OFF, 1)];

#[test]
fn a_client_puts_a_tag_on_its_own_address_by_a_page(rt: HostRuntime) -> Result<(), Fail> {
    let proxied = served(&rt, rt.alloc())?;
    same(&rt, proxied.status, 0);
    let parted = proxied.parts.doors.parted();
    same(&rt, parted.len(), 3);
    for one in parted {
        for (number, (answer, links)) in ANSWERS.iter().enumerate() {
            if one.number == number as u64 {
                same_at(&rt, number, one.ends.client_out.taken(), *answer);
                same_at(&rt, number, one.ends.dialer.links().len(), *links);
            }
        }
    }
    Ok(())
}
