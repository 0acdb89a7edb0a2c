//! Sessions whose requests share links to origins.
ghost use Rattle.std.specs.Prelude.{◌≡◌, []};

use crate::common::{same, same_text, text};
use px_base::{
    Answer, Dialer, FixedClock, LinkNote, List, MemDialer, MemFiles, Peer, TapeIn, TapeOut, Text,
};
use px_config::{Config, load};
use px_ends::{Ends, Joined, Outside};
use px_link_pool::{Look, Sees};
use px_notes::{Session, SessionEnd};
use px_pages::BarePages;
use px_publish::FixedConfig;
use px_serve::serve_cold;
use px_shared::{with_pool, without_pool};
use px_ways::Way;
use std::alloc::Global;
use std::process::Abort;
use std::sync::Arc;
use std::thread::Threads;

const GET: &str = "GET http://a.test/x HTTP/1.1\r\nHost: a.test\r\n\r\n";

/// A request as it goes out over a shared link.
const SENT: &str = "GET /x HTTP/1.1\r\nHost: a.test\r\nConnection: keep-alive\r\n\r\n";

/// An answer of 40 bytes.
const ANSWER: &str = "HTTP/1.1 200 OK\r\nContent-Length: 2\r\n\r\nhi";

const REPLY: &str = "HTTP/1.1 200 OK\r\nContent-Length: 2\r\nConnection: keep-alive\r\n\r\nhi";

/// A text twice.
fn twice(rt: &impl Abort, alloc: Global, text: &str) -> Text {
    let mut both = Text::new(alloc);
    both.push_all(text.as_bytes()).expect(rt, "memory");
    both.push_all(text.as_bytes()).expect(rt, "memory");
    both
}

/// The configuration of an empty main file.
fn config(rt: &impl Abort, alloc: Global) -> Config {
    let mut state = List::new(alloc);
    state
        .add((text(rt, alloc, "c"), Text::new(alloc)))
        .expect(rt, "memory");
    let mut states = List::new(alloc);
    states.add(state).expect(rt, "memory");
    let mut files = MemFiles::new(alloc, states, &[]).expect(rt, "memory");
    load(alloc, &mut files, "c")
        .ok()
        .expect(rt, "an empty file is a configuration")
}

/// A dialer whose first dial gives a link with two answers that come in those cuts, and whose others aren't reached.
fn dialer(rt: &impl Abort, alloc: Global, cuts: &[usize]) -> MemDialer
    ensures { (⟦<MemDialer as Dialer>⟧.state result).dials ≡ [] }
{
    let mut answers = List::new(alloc);
    answers
        .add(Answer::Link {
            bytes: twice(rt, alloc, ANSWER),
            cuts: List::from_vec(cuts.to_vec(alloc).expect(rt, "memory")),
            read_fails: List::new(alloc),
            write_fails: List::new(alloc),
        })
        .expect(rt, "memory");
    MemDialer::new(alloc, answers).expect(rt, "memory")
}

/// The types of the ends of a session in memory.
type TwiceConn = Joined<TapeIn, TapeOut, MemDialer, FixedClock>;

/// The ends of a client that asks twice, over such a dialer.
fn ends(rt: &impl Abort, alloc: Global, cuts: &[usize]) -> Ends<TwiceConn>
    ensures { result.dialer.dials ≡ [] }
{
    let asked = twice(rt, alloc, GET);
    let client_in = TapeIn::new(alloc, asked.as_bytes(), &[], &[]).expect(rt, "memory");
    let client_out = TapeOut::new(alloc, &[], &[]).expect(rt, "memory");
    let dialer = dialer(rt, alloc, cuts);
    let clock = FixedClock::new(List::new(alloc));
    let peer = Peer {
        address: text(rt, alloc, "127.0.0.1"),
    };
    Ends::new(alloc, client_in, client_out, dialer, clock, peer)
}

/// What came of a session over a pool of links.
#[derive(Drop)]
struct SharedSession {
    session: Session,
    taken: Text,
    dialer: MemDialer,
    wanting: u64,
}

/// Serves a client over a pool of links of its ends' dialer. It says for how many links memory was wanting.
fn over_pool<R: Threads + Sync, A: Outside>(
    rt: &R,
    alloc: Global,
    config: Arc<Config>,
    ends: Ends<A>,
) -> (Session, Ends<A>, u64)
where
    Look: Sees<<A::Dial as Dialer>::In>,
    requires undialled { ends.dialer.dials ≡ [] }
{
    let mut pooled = with_pool(alloc, ends);
    let session = serve_cold(
        alloc,
        &Way::AtOnce(rt),
        &mut FixedConfig::new(config),
        &mut BarePages,
        &mut pooled,
    );
    let (ends, wanting) = without_pool(pooled);
    (session, ends, wanting)
}

/// Serves a client that asks twice over a pool of links.
fn shared<R: Threads + Sync + Abort>(rt: &R, alloc: Global, cuts: &[usize]) -> SharedSession {
    let config = Arc::new(alloc, config(rt, alloc)).expect(rt, "memory");
    let (session, ends, wanting) = over_pool(rt, alloc, config, ends(rt, alloc, cuts));
    let Ends {
        client: _,
        client_out,
        dialer,
        clock: _,
        peer: _,
    } = ends;
    SharedSession {
        session,
        taken: client_out.into_taken(),
        dialer,
        wanting,
    }
}

fn was_asked_twice(rt: &impl Abort, alloc: Global, link: &LinkNote) {
    let sent = twice(rt, alloc, SENT);
    same(rt, link.sent.as_bytes(), sent.as_bytes());
    same(rt, link.heard.as_bytes().len(), 80);
}

#[test]
fn two_requests_of_a_client_share_a_link(rt: HostRuntime) {
    let alloc = rt.alloc();
    let shared = shared(&rt, alloc, &[40, 40]);
    let replies = twice(&rt, alloc, REPLY);
    same(&rt, shared.taken.as_bytes(), replies.as_bytes());
    same(&rt, shared.session.end, SessionEnd::Ended);
    same(&rt, shared.wanting, 0);
    same(&rt, shared.dialer.links().len(), 1);
    for link in shared.dialer.links() {
        was_asked_twice(&rt, alloc, link);
    }
}

#[test]
fn a_link_that_gave_too_much_is_not_shared(rt: HostRuntime) {
    let shared = shared(&rt, rt.alloc(), &[80]);
    same(&rt, shared.session.end, SessionEnd::Closed);
    begins_with_one_reply(&rt, shared.taken.as_bytes());
    for link in shared.dialer.links() {
        same(&rt, link.heard.as_bytes().len(), 80);
    }
}

/// Asserts that one answer was returned, and behind it that nothing was reached.
fn begins_with_one_reply(rt: &impl Abort, taken: &[u8]) {
    match taken.strip_prefix(REPLY.as_bytes()) {
        Some(page) => same(
            rt,
            page.starts_with(b"HTTP/1.1 503 Service Unavailable\r\n"),
            true,
        ),
        None => same(rt, taken, REPLY.as_bytes()),
    }
}
