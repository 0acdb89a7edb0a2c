//! Shared links over a dialer in memory.
use crate::common::{holds, same, same_text};
use px_base::{Answer, Dialer, LinkNote, List, MemDialer, Sink, Source, Text, write_all};
use px_link_pool::LinkPool;
use std::alloc::Global;
use std::process::Abort;

/// A request that asks to close its link.
pub(crate) const CLOSES: &str = "GET / HTTP/1.1\r\nHost: a.test\r\nConnection: close\r\n\r\n";

/// The same as it goes out over a shared link.
const STAYS: &str = "GET / HTTP/1.1\r\nHost: a.test\r\nConnection: keep-alive\r\n\r\n";

/// An answer of 40 bytes.
pub(crate) const ANSWER: &str = "HTTP/1.1 200 OK\r\nContent-Length: 2\r\n\r\nhi";

/// Adds a link of those bytes, which come in those cuts, and whose sink fails in those writes.
fn add_link(
    rt: &impl Abort,
    alloc: Global,
    answers: &mut List<Answer>,
    bytes: &[u8],
    cuts: &[usize],
    write_fails: &[u64],
) {
    let cuts = cuts.to_vec(alloc).expect(rt, "memory");
    let write_fails = write_fails.to_vec(alloc).expect(rt, "memory");
    answers
        .add(Answer::Link {
            bytes: Text::from_bytes(alloc, bytes).expect(rt, "memory"),
            cuts: List::from_vec(cuts),
            read_fails: List::new(alloc),
            write_fails: List::from_vec(write_fails),
        })
        .expect(rt, "memory");
}

/// A pool over a dialer whose first dial gives a link of those bytes in those cuts, and whose others aren't reached.
fn over_one(rt: &impl Abort, alloc: Global, bytes: &[u8], cuts: &[usize]) -> LinkPool<MemDialer> {
    let mut answers = List::new(alloc);
    add_link(rt, alloc, &mut answers, bytes, cuts, &[]);
    LinkPool::new(alloc, MemDialer::new(alloc, answers).expect(rt, "memory"))
}

/// Dials, sends the request, reads once, and hangs up. Gives how many bytes were heard, and `None` where no link was had.
pub(crate) fn visit<D: Dialer>(
    dialer: &mut D,
    host: &str,
    port: u16,
    request: &str,
) -> Option<usize> {
    match dialer.dial(host.as_bytes(), port) {
        Ok((mut link_in, mut link_out)) => {
            let sent = write_all(&mut link_out, request.as_bytes());
            let mut piece = [0; 128];
            let heard = link_in.read(&mut piece).unwrap_or(0);
            dialer.hang_up(link_in, link_out);
            if sent.is_ok() { Some(heard) } else { None }
        }
        Err(_) => None,
    }
}

/// Twice the answer.
fn two_answers(rt: &impl Abort, alloc: Global) -> Text {
    let mut bytes = Text::new(alloc);
    bytes.push_all(ANSWER.as_bytes()).expect(rt, "memory");
    bytes.push_all(ANSWER.as_bytes()).expect(rt, "memory");
    bytes
}

/// Asserts what was heard, and that the request was sent so often as it goes out over a shared link.
fn was_shared(rt: &impl Abort, link: &LinkNote, heard: usize, requests: usize) {
    same(rt, link.heard.as_bytes().len(), heard);
    same(
        rt,
        link.sent.as_bytes().len(),
        STAYS.len().saturating_mul(requests),
    );
}

#[test]
fn two_requests_share_a_link(rt: HostRuntime) {
    let alloc = rt.alloc();
    let bytes = two_answers(&rt, alloc);
    let mut pool = over_one(&rt, alloc, bytes.as_bytes(), &[40, 40]);
    same(&rt, visit(&mut pool, "a.test", 80, CLOSES), Some(40));
    same(&rt, visit(&mut pool, "a.test", 80, CLOSES), Some(40));
    same(&rt, visit(&mut pool, "a.test", 80, CLOSES), Some(0));
    same(&rt, visit(&mut pool, "a.test", 80, CLOSES), None);
    same(&rt, pool.wanting(), 0);
    let dialer = pool.into_inner();
    same(&rt, dialer.links().len(), 1);
    for link in dialer.links() {
        was_shared(&rt, link, 80, 3);
    }
}

#[test]
fn a_link_with_unread_bytes_is_not_kept(rt: HostRuntime) {
    let alloc = rt.alloc();
    let bytes = two_answers(&rt, alloc);
    let mut pool = over_one(&rt, alloc, bytes.as_bytes(), &[80]);
    same(&rt, visit(&mut pool, "a.test", 80, CLOSES), Some(80));
    same(&rt, visit(&mut pool, "a.test", 80, CLOSES), None);
    let dialer = pool.into_inner();
    same(&rt, dialer.links().len(), 1);
    for link in dialer.links() {
        same_text(&rt, &link.sent, STAYS);
    }
}

#[test]
fn hosts_and_ports_are_kept_apart(rt: HostRuntime) {
    let alloc = rt.alloc();
    let bytes = two_answers(&rt, alloc);
    let mut pool = over_one(&rt, alloc, bytes.as_bytes(), &[40, 40]);
    same(&rt, visit(&mut pool, "a.test", 80, CLOSES), Some(40));
    same(&rt, visit(&mut pool, "b.test", 80, CLOSES), None);
    same(&rt, visit(&mut pool, "A.test", 80, CLOSES), None);
    same(&rt, visit(&mut pool, "a.test", 81, CLOSES), None);
    same(&rt, visit(&mut pool, "a.test", 80, CLOSES), Some(40));
    same(&rt, pool.into_inner().links().len(), 1);
}

#[test]
fn a_link_kept_for_one_port_is_none_of_another(rt: HostRuntime) {
    let alloc = rt.alloc();
    let bytes = two_answers(&rt, alloc);
    let mut answers = List::new(alloc);
    add_link(&rt, alloc, &mut answers, bytes.as_bytes(), &[40, 40], &[]);
    add_link(&rt, alloc, &mut answers, ANSWER.as_bytes(), &[], &[]);
    let dialer = MemDialer::new(alloc, answers).expect(&rt, "memory");
    let mut pool = LinkPool::<MemDialer>::new(alloc, dialer);
    same(&rt, visit(&mut pool, "a.test", 8080, CLOSES), Some(40));
    same(&rt, visit(&mut pool, "a.test", 80, CLOSES), Some(40));
    same(&rt, visit(&mut pool, "a.test", 8080, CLOSES), Some(40));
    let dialer = pool.into_inner();
    same(&rt, dialer.links().len(), 2);
    for link in dialer.links() {
        let requests = if link.port == 8080 { 2 } else { 1 };
        was_shared(&rt, link, ANSWER.len().saturating_mul(requests), requests);
    }
}

#[test]
fn a_pool_at_rest_keeps_none(rt: HostRuntime) {
    let alloc = rt.alloc();
    let bytes = two_answers(&rt, alloc);
    let mut pool = over_one(&rt, alloc, bytes.as_bytes(), &[40, 40]);
    same(&rt, visit(&mut pool, "a.test", 80, CLOSES), Some(40));
    pool.rest();
    same(&rt, visit(&mut pool, "a.test", 80, CLOSES), None);
    let dialer = pool.into_inner();
    same(&rt, dialer.links().len(), 1);
    for link in dialer.links() {
        was_shared(&rt, link, 40, 1);
    }
}

/// Whether a second dial finds the link kept, where the first one sent that request and heard that answer.
fn is_kept(rt: &impl Abort, alloc: Global, request: &str, answer: &str) -> bool {
    let mut pool = over_one(rt, alloc, answer.as_bytes(), &[]);
    let first = visit(&mut pool, "a.test", 80, request);
    same(rt, first, Some(answer.len()));
    let second = visit(&mut pool, "a.test", 80, request);
    let _dialer = pool.into_inner();
    second.is_some()
}

#[test]
fn what_is_no_answer_is_not_kept(rt: HostRuntime) {
    let alloc = rt.alloc();
    for (answer, kept) in [
        ("HTTP/1.1 200 OK\r\nContent-Length: 2\r\n\r\nhi", true),
        (
            "HTTP/1.1 100 Continue\r\n\r\nHTTP/1.1 200 OK\r\nContent-Length: 2\r\n\r\nhi",
            true,
        ),
        (
            "HTTP/1.1 200 OK\r\nTransfer-Encoding: chunked\r\n\r\n2\r\nhi\r\n0\r\n\r\n",
            true,
        ),
        ("HTTP/1.1 204 No Content\r\n\r\n", true),
        ("HTTP/1.1 304 Not Modified\r\n\r\n", true),
        ("HTTP/1.1 101 Switching Protocols\r\n\r\n", false),
        ("HTTP/1.1 100 Continue\r\n\r\n", false),
        ("HTTP/1.1 200 OK\r\n\r\nhi", false),
        ("HTTP/1.1 200 OK\r\nContent-Length: 2\r\n\r\nhi!", false),
        ("HTTP/1.1 200 OK\r\nContent-Length: 3\r\n\r\nhi", false),
        ("HTTP/1.0 200 OK\r\nContent-Length: 2\r\n\r\nhi", false),
        (
            "HTTP/1.1 200 OK\r\nConnection: x, Close\r\nContent-Length: 2\r\n\r\nhi",
            false,
        ),
        ("\x01\x02\r\n\r\n", false),
    ] {
        holds(&rt, is_kept(&rt, alloc, CLOSES, answer) == kept, answer);
    }
}

#[test]
fn only_a_request_that_was_altered_leaves_a_link(rt: HostRuntime) {
    let alloc = rt.alloc();
    for (request, kept) in [
        (
            "GET / HTTP/1.1\r\nHost: a.test\r\nConnection: close\r\n\r\n",
            true,
        ),
        (
            "POST / HTTP/1.1\r\nContent-Length: 1\r\nConnection: close\r\n\r\nx",
            true,
        ),
        (
            "HEAD / HTTP/1.1\r\nHost: a.test\r\nConnection: close\r\n\r\n",
            false,
        ),
        (
            "GET / HTTP/1.1\r\nConnection: close\r\nHost: a.test\r\n\r\n",
            false,
        ),
        (
            "GET / HTTP/1.1\r\nHost: a.test\r\nconnection: close\r\n\r\n",
            false,
        ),
        (
            "GET / HTTP/1.1\r\nHost: a.test\r\nConnection: keep-alive\r\n\r\n",
            false,
        ),
        (
            "GET / HTTP/1.1\r\nHost: a.test\nConnection: close\r\n\r\n",
            false,
        ),
        ("GET / HTTP/1.1\r\nHost: a.test\r\n\r\n", false),
        ("\x16\x03\x01", false),
        ("GET / HT", false),
    ] {
        holds(&rt, is_kept(&rt, alloc, request, ANSWER) == kept, request);
    }
}

#[test]
fn a_fifth_link_hangs_up_the_oldest(rt: HostRuntime) {
    let alloc = rt.alloc();
    let bytes = two_answers(&rt, alloc);
    let mut answers = List::new(alloc);
    for _ in 0..5 {
        add_link(&rt, alloc, &mut answers, bytes.as_bytes(), &[40, 40], &[]);
    }
    let mut pool: LinkPool<MemDialer> = LinkPool::new(
        alloc,
        MemDialer::new(alloc, answers).expect(&rt, "memory"),
    );
    for host in ["a.test", "b.test", "c.test", "d.test", "e.test"] {
        same(&rt, visit(&mut pool, host, 80, CLOSES), Some(40));
    }
    same(&rt, visit(&mut pool, "a.test", 80, CLOSES), None);
    for host in ["b.test", "c.test", "d.test", "e.test"] {
        same(&rt, visit(&mut pool, host, 80, CLOSES), Some(40));
    }
    same(&rt, pool.into_inner().links().len(), 5);
}

#[test]
fn a_request_is_altered_at_each_cut(rt: HostRuntime) {
    let alloc = rt.alloc();
    for cut in 1..CLOSES.len() {
        let mut pool = over_one(&rt, alloc, ANSWER.as_bytes(), &[]);
        holds(
            &rt,
            visit_in_two(&mut pool, CLOSES.as_bytes(), cut),
            "all is written",
        );
        let dialer = pool.into_inner();
        for link in dialer.links() {
            same_text(&rt, &link.sent, STAYS);
        }
    }
}

/// Dials, sends the bytes in two writes, reads once, and hangs up. Tells whether both were taken.
fn visit_in_two<D: Dialer>(dialer: &mut D, bytes: &[u8], cut: usize) -> bool {
    match dialer.dial(b"a.test", 80) {
        Ok((mut link_in, mut link_out)) => {
            let (front, back) = bytes.split_at(cut.min(bytes.len()));
            let first = write_all(&mut link_out, front);
            let second = write_all(&mut link_out, back);
            let mut piece = [0; 128];
            let _heard = link_in.read(&mut piece);
            dialer.hang_up(link_in, link_out);
            first.is_ok() && second.is_ok()
        }
        Err(_) => false,
    }
}

/// A request with a body of one byte behind a head of 57.
const POSTS: &str = "POST / HTTP/1.1\r\nContent-Length: 1\r\nConnection: close\r\n\r\nx";

/// Whether the link is kept where its head and its body are written apart, and its sink fails in those writes. What is sent is
/// the same.
fn is_kept_though(rt: &impl Abort, alloc: Global, write_fails: &[u64]) -> bool {
    let mut answers = List::new(alloc);
    add_link(rt, alloc, &mut answers, ANSWER.as_bytes(), &[], write_fails);
    let mut pool: LinkPool<MemDialer> = LinkPool::new(
        alloc,
        MemDialer::new(alloc, answers).expect(rt, "memory"),
    );
    holds(
        rt,
        visit_in_two(&mut pool, POSTS.as_bytes(), 57),
        "both writes are taken",
    );
    let second = visit(&mut pool, "a.test", 80, "");
    let dialer = pool.into_inner();
    for link in dialer.links() {
        same_text(
            rt,
            &link.sent,
            "POST / HTTP/1.1\r\nContent-Length: 1\r\nConnection: keep-alive\r\n\r\nx",
        );
    }
    second.is_some()
}

#[test]
fn a_link_on_which_a_sending_was_refused_is_not_kept(rt: HostRuntime) {
    holds(&rt, is_kept_though(&rt, rt.alloc(), &[]), "no write fails");
    holds(
        &rt,
        !is_kept_though(&rt, rt.alloc(), &[0]),
        "the head's first sending fails",
    );
}
