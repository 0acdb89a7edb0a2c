//! Answers that are put out as they come: how many bytes a pump holds, and that nothing waits for the next read.
ghost use Rattle.std.specs.Prelude.{◌≡◌, true, false};

use crate::common::{same, same_at, text};
use crate::sides::Told;
use px_actions::{ActionSet, Update};
use px_base::{Failed, List, MemFiles, Source, TapeIn, TapeOut, Text};
use px_config::{Config, Running, load};
use px_notes::{After, Asked, Conclusion, Ending};
use px_pumps::{Flow, Pump, Talked, return_answer};
use px_subst::Vars;
use px_templates::Page;
use std::alloc::Global;
use std::process::Abort;
use std::sync::atomic::{AtomicU64, Ordering};

/// The configuration of a filter that turns `a` into `bb`, for bodies of at most 1,024 bytes.
fn config(rt: &impl Abort, alloc: Global) -> Config {
    let mut state = List::new(alloc);
    for (name, bytes) in [
        ("c", "buffer-limit 1\nfilterfile f.filter\n"),
        ("f.filter", "FILTER: f x\ns/a/bb/g\n"),
    ] {
        state
            .add((text(rt, alloc, name), text(rt, alloc, bytes)))
            .expect(rt, "memory");
    }
    let mut states = List::new(alloc);
    states.add(state).expect(rt, "memory");
    let mut files = MemFiles::new(alloc, states, &[]).expect(rt, "memory");
    load(alloc, &mut files, "c")
        .ok()
        .expect(rt, "files that load")
}

/// What a GET asks, with an action or with none.
fn asked(rt: &impl Abort, alloc: Global, words: &[&str]) -> Asked {
    let mut set = ActionSet::empty(alloc);
    for word in words {
        let update = Update::read(alloc, word).ok().expect(rt, "an update");
        set.apply(&update).expect(rt, "memory");
    }
    Asked {
        method: text(rt, alloc, "GET"),
        minor: 1,
        keep: true,
        set,
        tags: List::new(alloc),
        vars: Vars {
            host: Text::new(alloc),
            origin: Text::new(alloc),
            path: Text::new(alloc),
            url: Text::new(alloc),
        },
        moment: 0,
    }
}

/// Feeds a piece.
fn feed(
    rt: &impl Abort,
    pump: &mut Pump<'_>,
    running: &mut Running<'_>,
    piece: &[u8],
    out: &mut Text,
) -> Flow
    requires of { running.old ≡ pump.old.config }
    ensures of { running.new ≡ pump.new.config }
{
    pump.feed(running, piece, out).expect(rt, "memory")
}

/// Feeds an answer in pieces of one size, and gives the flow behind the last of them.
fn feed_all(
    rt: &impl Abort,
    pump: &mut Pump<'_>,
    running: &mut Running<'_>,
    answer: &[u8],
    size: usize,
    out: &mut Text,
) -> Flow
    requires of { running.old ≡ pump.old.config }
    ensures of { running.new ≡ pump.new.config }
{
    assert!(rt; size > 0);
    let mut flow = Flow::More;
    'pieces: for piece in answer.chunks(size) {
        flow = feed(rt, pump, running, piece, out);
    }
    flow
}

/// What a pump put out, its flow, and how many bytes it holds.
#[derive(Drop)]
struct SoFar {
    out: Text,
    flow: Flow,
    held: u64,
}

/// Feeds an answer in pieces of one size, and doesn't end it.
fn fed(
    rt: &impl Abort,
    alloc: Global,
    config: &Config,
    words: &[&str],
    answer: &[u8],
    size: usize,
) -> SoFar {
    let mut running = Running::new(alloc, config).expect(rt, "memory");
    let mut pump = Pump::new(alloc, config, asked(rt, alloc, words));
    let mut out = Text::new(alloc);
    let flow = feed_all(rt, &mut pump, &mut running, answer, size, &mut out);
    SoFar {
        out,
        flow,
        held: pump.held(),
    }
}

const HEAD: &[u8] = b"HTTP/1.1 200 OK\r\nContent-Length: 2\r\nConnection: keep-alive\r\n\r\n";

const RETURNED: &[u8] = b"HTTP/1.1 200 OK\r\nContent-Length: 2\r\nConnection: keep-alive\r\n\r\nhi";

/// The actions, the front of an answer, what is put out of it, how many bytes are held, and the flow.
const FRONTS: [(&[&str], &[u8], &[u8], u64, Flow); 5] = [
    (
        &[],
        b"HTTP/1.1 200 OK\r\nContent-Length: 2\r\n\r",
        b"",
        37,
        Flow::More,
    ),
    (
        &[],
        b"HTTP/1.1 200 OK\r\nContent-Length: 2\r\n\r\n",
        HEAD,
        0,
        Flow::More,
    ),
    (
        &[],
        b"HTTP/1.1 200 OK\r\nContent-Length: 2\r\n\r\nhi",
        RETURNED,
        0,
        Flow::Done(Ending::Passed),
    ),
    // A text that may still be filtered is held, chunk lines and all.
    (
        &["+filter{f}"],
        b"HTTP/1.1 200 OK\r\nContent-Type: text/html\r\nTransfer-Encoding: chunked\r\n\r\n5\r\nabc",
        b"",
        6,
        Flow::More,
    ),
    (
        &["+filter{f}"],
        b"HTTP/1.1 200 OK\r\nContent-Type: image/png\r\nContent-Length: 3\r\n\r\naa",
        b"HTTP/1.1 200 OK\r\nContent-Type: image/png\r\nContent-Length: 3\r\nConnection: keep-alive\r\n\r\naa",
        0,
        Flow::More,
    ),
];

#[test]
fn an_answer_without_a_filter_is_put_out_as_it_comes(rt: HostRuntime) {
    let config = config(&rt, rt.alloc());
    for (words, front, put, held, flow) in FRONTS {
        for size in [1, 7, 4096] {
            let fed = fed(&rt, rt.alloc(), &config, words, front, size);
            let seen = (fed.out.as_bytes(), fed.held, fed.flow);
            same_at(&rt, size, seen, (put, held, flow));
        }
    }
}

/// How many pieces come without an end of a head, how many bytes of them are held, and the flow.
const ENDLESS: [(usize, u64, Flow); 2] = [
    (15, 122_880, Flow::More),
    (16, 0, Flow::Refused(Page::BadReply)),
];

/// A sixteenth of a head's limit.
const LETTERS: [u8; 8_192] = [b'x'; 8_192];

#[test]
fn a_head_is_held_up_to_its_limit(rt: HostRuntime) {
    let config = config(&rt, rt.alloc());
    for (count, held, flow) in ENDLESS {
        let mut head = Text::new(rt.alloc());
        for _ in 0..count {
            head.push_all(&LETTERS).expect(&rt, "memory");
        }
        let fed = fed(
            &rt,
            rt.alloc(),
            &config,
            &[],
            head.as_bytes(),
            LETTERS.len(),
        );
        let seen = (fed.out.len(), fed.held, fed.flow);
        same_at(&rt, count, seen, (0, held, flow));
    }
}

/// How many bytes an origin gives at most beyond what the client has taken.
const LEAD: u64 = 16_384;

/// An origin that gives a byte only once the client has taken all but 16,384 of those before it, and else fails.
#[derive(Drop)]
struct Leading<'c> {
    tape: TapeIn,
    given: u64,
    taken: &'c AtomicU64,
    faults: u64,
}

impl<'c> Source for Leading<'c> {
    ghost state = { λ l. record {
      tells = true;
      offered = (⟦<TapeIn as Source>⟧.state l.tape).offered;
      left = (⟦<TapeIn as Source>⟧.state l.tape).left;
      faults = l.faults;
      steady = false;
      mark = (⟦<TapeIn as Source>⟧.state l.tape).mark;
    } };

    fn read(&mut self, buf: &mut [u8]) -> Result<usize, Failed> {
        let last = self.given.saturating_add(buf.len() as u64);
        if last <= self.taken.load(Ordering::SeqCst).saturating_add(LEAD) {
            if let Ok(count) = self.tape.read(buf) {
                self.given = self.given.saturating_add(count as u64);
                return Ok(count);
            }
        }
        self.faults = self.faults.saturating_add(1);
        Err(Failed)
    }
}

/// An answer of a megabyte.
fn long_answer(rt: &impl Abort, alloc: Global) -> Text {
    let mut answer = text(
        rt,
        alloc,
        "HTTP/1.1 200 OK\r\nContent-Length: 1048576\r\n\r\n",
    );
    for _ in 0..128 {
        answer.push_all(&LETTERS).expect(rt, "memory");
    }
    answer
}

#[test]
fn what_comes_is_written_before_the_next_read(rt: HostRuntime) {
    let alloc = rt.alloc();
    let taken = AtomicU64::new(0);
    let answer = long_answer(&rt, alloc);
    let mut link = Leading {
        tape: TapeIn::new(alloc, answer.as_bytes(), &[], &[]).expect(&rt, "memory"),
        given: 0,
        taken: &taken,
        faults: 0,
    };
    let mut client = Told {
        tape: TapeOut::new(alloc, &[], &[]).expect(&rt, "memory"),
        taken: &taken,
    };
    let config = config(&rt, alloc);
    let mut running = Running::new(alloc, &config).expect(&rt, "memory");
    let asked = asked(&rt, alloc, &[]);
    let talked = return_answer(alloc, &mut running, asked, &mut link, &mut client);
    let whole = Talked::Ended(Conclusion {
        ending: Ending::Passed,
        after: After::Keep,
    });
    same(&rt, talked, whole);
}
