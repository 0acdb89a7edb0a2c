//! SOCKS5 servers in memory: what a dialer sends them, and what it makes of what they send, cut at each place. The bytes are
//! those of RFC 1928.
ghost use Rattle.px_base.specs.Sources.{SourceGoesOn};

use crate::common::{holds, same, same_at, text};
use px_base::{
    Answer, DialFault, Dialer, Failed, LinkNote, List, MemDialer, Source, Text, write_all,
};
use px_socks::SocksDialer;
use std::alloc::Global;
use std::process::Abort;

/// A target behind a server.
const NAME: &[u8] = b"socks5://s.test:1080/a.test";

/// The greeting, three bytes, and the request for that target and the port 80 (sections 3 and 4).
const MESSAGES: &[u8] = b"\x05\x01\x00\x05\x01\x00\x03\x06a.test\x00\x50";

/// What accepting servers send: the method that is offered, and replies that say "succeeded" (sections 3 and 6).
const ACCEPTED: [(&str, &[u8]); 5] = [
    (
        "an IPv4 address",
        b"\x05\x00\x05\x00\x00\x01\x7f\x00\x00\x01\x04\x38",
    ),
    ("a domain name", b"\x05\x00\x05\x00\x00\x03\x02ab\x12\x34"),
    (
        "a domain name of no byte",
        b"\x05\x00\x05\x00\x00\x03\x00\x12\x34",
    ),
    (
        "an IPv6 address",
        b"\x05\x00\x05\x00\x00\x040123456789abcdef\x12\x34",
    ),
    (
        "another reserved byte",
        b"\x05\x00\x05\x00\x09\x01\x00\x00\x00\x00\x00\x00",
    ),
];

/// What other servers send, and how many bytes of both messages they were sent.
const REFUSED: [(&str, &[u8], usize); 9] = [
    ("no acceptable method", b"\x05\xff", 3),
    ("a method that wasn't offered", b"\x05\x02\x05\x00", 3),
    ("a method of another version", b"\x04\x00\x05\x00", 3),
    (
        "a reply of another version",
        b"\x05\x00\x04\x00\x00\x01\x00\x00\x00\x00\x00\x00",
        16,
    ),
    (
        "a general failure",
        b"\x05\x00\x05\x01\x00\x01\x00\x00\x00\x00\x00\x00",
        16,
    ),
    (
        "a refused connection",
        b"\x05\x00\x05\x05\x00\x01\x00\x00\x00\x00\x00\x00",
        16,
    ),
    (
        "an address of type 0",
        b"\x05\x00\x05\x00\x00\x00\x00\x00\x00\x00\x00\x00",
        16,
    ),
    (
        "an address of type 2",
        b"\x05\x00\x05\x00\x00\x02\x00\x00\x00\x00\x00\x00",
        16,
    ),
    ("a page of HTTP", b"HTTP/1.1 400 Bad Request\r\n\r\n", 3),
];

/// Hosts that aren't dial names.
const PLAIN: [&[u8]; 7] = [
    b"a.test",
    b"socks5://s.test/a.test",
    b"socks5://s.test:/a.test",
    b"socks5://s.test:0/a.test",
    b"socks5://[::1]9050/a.test",
    b"socks5://s.test:1080",
    b"SOCKS5://s.test:1080/a.test",
];

/// The first bytes, so many at most.
fn front(bytes: &[u8], len: usize) -> &[u8] {
    &bytes[..len.min(bytes.len())]
}

/// The bytes and then the others.
fn joined(rt: &impl Abort, alloc: Global, first: &[u8], second: &[u8]) -> Text {
    let mut text = Text::from_bytes(alloc, first).expect(rt, "memory");
    text.push_all(second).expect(rt, "memory");
    text
}

/// A list of so many times that number.
fn times(rt: &impl Abort, alloc: Global, count: usize, number: usize) -> List<usize> {
    let mut cuts = List::new(alloc);
    for _ in 0..count {
        cuts.add(number).expect(rt, "memory");
    }
    cuts
}

/// A list of the number, if there is one.
fn one(rt: &impl Abort, alloc: Global, number: Option<u64>) -> List<u64> {
    let mut list = List::new(alloc);
    if let Some(number) = number {
        list.add(number).expect(rt, "memory");
    }
    list
}

/// A link with those bytes whose reads are cut so.
fn cut_link(rt: &impl Abort, alloc: Global, bytes: &[u8], cuts: List<usize>) -> Answer {
    Answer::Link {
        bytes: joined(rt, alloc, bytes, b""),
        cuts,
        read_fails: List::new(alloc),
        write_fails: List::new(alloc),
    }
}

/// A link of an accepting server, of which that read or that write fails, from 0; each read gives one byte.
fn failing_link(
    rt: &impl Abort,
    alloc: Global,
    read_fails: Option<u64>,
    write_fails: Option<u64>,
) -> Answer {
    let bytes = ACCEPTED[0].1;
    Answer::Link {
        bytes: joined(rt, alloc, bytes, b""),
        cuts: times(rt, alloc, bytes.len(), 1),
        read_fails: one(rt, alloc, read_fails),
        write_fails: one(rt, alloc, write_fails),
    }
}

/// Adds the first so many bytes of a piece to a text.
fn add_front(rt: &impl Abort, text: &mut Text, piece: &[u8], count: usize) {
    assert!(rt; count <= piece.len());
    text.push_all(&piece[..count]).expect(rt, "memory");
}

/// All that a source gives.
fn listen<S: Source>(rt: &impl Abort, alloc: Global, source: &mut S) -> Text
    ensures goes_on { SourceGoesOn (S.state source.old) (S.state source.new) }
{
    let mut text = Text::new(alloc);
    let mut piece = [0; 8];
    for _ in 0..1000 {
        let Ok(count) = source.read(&mut piece) else {
            return text;
        };
        add_front(rt, &mut text, &piece, count);
        if count == 0 {
            return text;
        }
    }
    text
}

/// The answers of a dialer whose first dial gives that.
fn answers(rt: &impl Abort, alloc: Global, answer: Answer) -> List<Answer> {
    let mut answers = List::new(alloc);
    answers.add(answer).expect(rt, "memory");
    answers
}

/// What a dial gave, and the dialer below.
#[derive(Drop)]
struct Visited {
    given: Result<Text, DialFault>,
    below: MemDialer,
}

/// Dials the host and the port 80, and over the link sends `hi`, listens to the end and hangs up.
fn visit(rt: &impl Abort, alloc: Global, answers: List<Answer>, host: &[u8]) -> Visited {
    let below = MemDialer::new(alloc, answers).expect(rt, "memory");
    let mut dialer = SocksDialer::new(alloc, below);
    match dialer.dial(host, 80) {
        Ok((mut link_in, mut link_out)) => {
            let _ = write_all(&mut link_out, b"hi");
            let heard = listen(rt, alloc, &mut link_in);
            dialer.hang_up(link_in, link_out);
            Visited {
                given: Ok(heard),
                below: dialer.into_inner(),
            }
        }
        Err(fault) => Visited {
            given: Err(fault),
            below: dialer.into_inner(),
        },
    }
}

/// Asserts where the one link was dialled to, and what went over it.
fn went(rt: &impl Abort, row: &str, below: &MemDialer, host: &[u8], port: u16, sent: &[u8]) {
    let links: &[LinkNote] = below.links();
    same_at(rt, row, links.len(), 1);
    for link in links {
        same_at(rt, row, link.host.as_bytes(), host);
        same_at(rt, row, link.port, port);
        same_at(rt, row, link.sent.as_bytes(), sent);
    }
}

/// Asserts that the origin's bytes are given, and that both messages and `hi` were sent.
fn reaches(rt: &impl Abort, alloc: Global, row: &str, bytes: &[u8], cuts: List<usize>) {
    let all = joined(rt, alloc, bytes, b"answer");
    let answer = cut_link(rt, alloc, all.as_bytes(), cuts);
    let Visited { given, below } = visit(rt, alloc, answers(rt, alloc, answer), NAME);
    let sent = joined(rt, alloc, MESSAGES, b"hi");
    went(rt, row, &below, b"s.test", 1080, sent.as_bytes());
    match given {
        Ok(heard) => same_at(rt, row, heard.as_bytes(), b"answer".as_slice()),
        Err(_) => holds(rt, false, row),
    }
}

#[test]
fn what_stands_behind_a_reply_is_the_origins_at_each_cut(rt: HostRuntime) {
    let alloc = rt.alloc();
    for (row, bytes) in ACCEPTED {
        for cut in 1..40usize {
            reaches(&rt, alloc, row, bytes, times(&rt, alloc, 1, cut));
            reaches(&rt, alloc, row, bytes, times(&rt, alloc, 40, cut));
        }
    }
}

#[test]
fn a_reply_has_a_domain_name_of_255_bytes(rt: HostRuntime) {
    let alloc = rt.alloc();
    let mut bytes = joined(&rt, alloc, b"\x05\x00\x05\x00\x00\x03\xff", b"");
    for _ in 0..257 {
        bytes.push(b'a').expect(&rt, "memory");
    }
    for cut in [1, 7, 300] {
        let cuts = times(&rt, alloc, 300, cut);
        reaches(&rt, alloc, "255 bytes", bytes.as_bytes(), cuts);
    }
}

/// Asserts that the server isn't reached, and that it was sent so many bytes of both messages.
fn refuses(rt: &impl Abort, alloc: Global, row: &str, answer: Answer, count: usize) {
    let Visited { given, below } = visit(rt, alloc, answers(rt, alloc, answer), NAME);
    holds(rt, given.err() == Some(DialFault::NotReached), row);
    let sent = front(MESSAGES, count);
    went(rt, row, &below, b"s.test", 1080, sent);
}

#[test]
fn a_server_that_ends_in_the_handshake_isnt_reached(rt: HostRuntime) {
    let alloc = rt.alloc();
    for (row, bytes) in ACCEPTED {
        for end in 0..bytes.len() {
            let count = if end < 2 { 3 } else { 16 };
            let ended = front(bytes, end);
            let answer = cut_link(&rt, alloc, ended, times(&rt, alloc, end, 1));
            refuses(&rt, alloc, row, answer, count);
            let whole = cut_link(&rt, alloc, ended, List::new(alloc));
            refuses(&rt, alloc, row, whole, count);
        }
    }
}

#[test]
fn a_server_that_doesnt_accept_isnt_reached(rt: HostRuntime) {
    let alloc = rt.alloc();
    for (row, bytes, count) in REFUSED {
        for cut in [1, 3, 40] {
            let cuts = times(&rt, alloc, 40, cut);
            let answer = cut_link(&rt, alloc, bytes, cuts);
            refuses(&rt, alloc, row, answer, count);
        }
    }
}

#[test]
fn a_link_that_fails_in_the_handshake_is_hung_up(rt: HostRuntime) {
    let alloc = rt.alloc();
    for (read, count) in [(0, 3), (1, 3), (2, 16), (11, 16)] {
        let answer = failing_link(&rt, alloc, Some(read), None);
        refuses(&rt, alloc, "a failed read", answer, count);
    }
    for (write, count) in [(0, 0), (1, 3)] {
        let answer = failing_link(&rt, alloc, None, Some(write));
        refuses(&rt, alloc, "a failed write", answer, count);
    }
}

/// A target's host of so many bytes behind that server.
fn long_name(rt: &impl Abort, alloc: Global, len: usize) -> Text {
    let mut name = text(rt, alloc, "socks5://s.test:1080/");
    for _ in 0..len {
        name.push(b'a').expect(rt, "memory");
    }
    name
}

#[test]
fn targets_of_up_to_255_bytes_are_asked_for(rt: HostRuntime) {
    let alloc = rt.alloc();
    for (len, tells) in [(0usize, 0u8), (1, 1), (254, 254), (255, 255)] {
        let answer = cut_link(&rt, alloc, ACCEPTED[0].1, List::new(alloc));
        let name = long_name(&rt, alloc, len);
        let Visited { given, below } = visit(
            &rt,
            alloc,
            answers(&rt, alloc, answer),
            name.as_bytes(),
        );
        holds(&rt, given.is_ok(), "a link");
        let mut sent = joined(&rt, alloc, b"\x05\x01\x00\x05\x01\x00\x03", &[tells]);
        for _ in 0..len {
            sent.push(b'a').expect(&rt, "memory");
        }
        sent.push_all(b"\x00\x50hi").expect(&rt, "memory");
        went(&rt, "its length", &below, b"s.test", 1080, sent.as_bytes());
    }
}

#[test]
fn for_a_longer_target_nothing_is_dialled(rt: HostRuntime) {
    let alloc = rt.alloc();
    let answer = cut_link(&rt, alloc, ACCEPTED[0].1, List::new(alloc));
    let name = long_name(&rt, alloc, 256);
    let Visited { given, below } = visit(&rt, alloc, answers(&rt, alloc, answer), name.as_bytes());
    holds(
        &rt,
        given.err() == Some(DialFault::NotReached),
        "not reached",
    );
    same(&rt, below.links().len(), 0);
}

#[test]
fn a_host_that_is_no_dial_name_is_dialled_as_it_is(rt: HostRuntime) {
    let alloc = rt.alloc();
    for host in PLAIN {
        let answer = cut_link(&rt, alloc, b"answer", List::new(alloc));
        let Visited { given, below } = visit(&rt, alloc, answers(&rt, alloc, answer), host);
        went(&rt, "a plain host", &below, host, 80, b"hi");
        match given {
            Ok(heard) => same(&rt, heard.as_bytes(), b"answer".as_slice()),
            Err(_) => holds(&rt, false, "a link"),
        }
    }
}

#[test]
fn a_dial_name_names_its_server(rt: HostRuntime) {
    let alloc = rt.alloc();
    let rows: [(&[u8], &[u8], u16); 4] = [
        (b"socks5://s.test:1/a.test", b"s.test", 1),
        (b"socks5://127.0.0.1:65535/a.test", b"127.0.0.1", 65535),
        (b"socks5://[::1]:9050/a.test", b"::1", 9050),
        (b"socks5://s.test:1080/a.test", b"s.test", 1080),
    ];
    for (name, host, port) in rows {
        let answer = cut_link(&rt, alloc, ACCEPTED[0].1, List::new(alloc));
        let Visited { given, below } = visit(&rt, alloc, answers(&rt, alloc, answer), name);
        let sent = joined(&rt, alloc, MESSAGES, b"hi");
        went(&rt, "a server", &below, host, port, sent.as_bytes());
    }
}

/// What a dial of the host gives where the one below gives that.
fn fault(rt: &impl Abort, alloc: Global, answer: Answer, host: &[u8]) -> Option<DialFault> {
    visit(rt, alloc, answers(rt, alloc, answer), host)
        .given
        .err()
}

#[test]
fn a_server_without_a_name_isnt_reached(rt: HostRuntime) {
    let alloc = rt.alloc();
    let not_reached = Some(DialFault::NotReached);
    same(&rt, fault(&rt, alloc, Answer::NoName, NAME), not_reached);
    same(
        &rt,
        fault(&rt, alloc, Answer::NotReached, NAME),
        not_reached,
    );
    same(
        &rt,
        fault(&rt, alloc, Answer::NotReached, b"a.test"),
        not_reached,
    );
    same(
        &rt,
        fault(&rt, alloc, Answer::NoName, b"a.test"),
        Some(DialFault::NoName),
    );
}
