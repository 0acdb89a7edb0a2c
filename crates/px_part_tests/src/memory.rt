//! Objects in memory, and the adapters over the system.
use crate::common::{holds, same, same_text, text};
use px_base::{
    Answer, Clock, Content, Dialer, DiskFiles, Failed, Files, FilesFault, FixedClock, LinkNote,
    List, Mem, MemDialer, MemFiles, ReaderSource, Sink, SinkFault, Source, SystemClock, TapeIn,
    TapeOut, Text, WriterSink, write_all,
};
use std::alloc::Global;
use std::process::Abort;

/// Adds the first so many bytes of a piece to a text.
fn add_front(rt: &impl Abort, text: &mut Text, piece: &[u8], count: usize) {
    assert!(rt; count <= piece.len());
    text.push_all(&piece[..count]).expect(rt, "memory");
}

/// What a source gives to the end, or until a read fails, and whether one failed.
fn read_all<S: Source>(rt: &impl Abort, alloc: Global, source: &mut S) -> (Text, bool) {
    let mut text = Text::new(alloc);
    let mut piece = [0; 4];
    for _ in 0..100 {
        match source.read(&mut piece) {
            Ok(0) => return (text, false),
            Ok(count) => add_front(rt, &mut text, &piece, count),
            Err(Failed) => return (text, true),
        }
    }
    (text, false)
}

/// Asserts what a source gives, and whether a read fails behind it.
fn gives<S: Source>(rt: &impl Abort, alloc: Global, source: &mut S, bytes: &str, fails: bool) {
    let (text, failed) = read_all(rt, alloc, source);
    same_text(rt, &text, bytes);
    same(rt, failed, fails);
}

/// A tape of eight bytes.
fn tape_in(rt: &impl Abort, alloc: Global, cuts: &[usize], fails: &[u64]) -> TapeIn {
    TapeIn::new(alloc, b"abcdefgh", cuts, fails).expect(rt, "memory")
}

#[test]
fn a_tape_gives_its_bytes_in_pieces_until_a_read_fails(rt: HostRuntime) {
    let alloc = rt.alloc();
    let mut whole = tape_in(&rt, alloc, &[1, 0, 3], &[]);
    gives(&rt, alloc, &mut whole, "abcdefgh", false);
    let mut failing = tape_in(&rt, alloc, &[1, 2], &[2]);
    gives(&rt, alloc, &mut failing, "abc", true);
    let mut reader = ReaderSource::new(&b"abcdefgh"[..], 0);
    gives(&rt, alloc, &mut reader, "abcdefgh", false);
}

/// A tape that takes one byte, then two, then the rest.
fn tape_out(rt: &impl Abort, alloc: Global, fails: &[u64]) -> TapeOut {
    TapeOut::new(alloc, &[1, 2], fails).expect(rt, "memory")
}

/// Asserts what a tape took, and whether a write failed.
fn took(rt: &impl Abort, out: &TapeOut, bytes: &[u8], failed: bool) {
    same(rt, out.taken(), bytes);
    same(rt, out.has_failed(), failed);
}

#[test]
fn a_tape_takes_its_bytes_in_pieces_until_a_write_fails(rt: HostRuntime) {
    let mut out = tape_out(&rt, rt.alloc(), &[]);
    out.reserve(8).expect(&rt, "memory");
    same(&rt, write_all(&mut out, b"abcdefgh"), Ok(()));
    took(&rt, &out, b"abcdefgh", false);
    let mut failing = tape_out(&rt, rt.alloc(), &[2]);
    same(
        &rt,
        write_all(&mut failing, b"abcdefgh"),
        Err(SinkFault::Failed),
    );
    took(&rt, &failing, b"abc", true);
}

#[test]
fn a_write_behind_the_end_of_a_tape_fails(rt: HostRuntime) {
    let mut out = tape_out(&rt, rt.alloc(), &[]);
    same(&rt, write_all(&mut out, b"ab"), Ok(()));
    holds(&rt, !out.finished(), "it isn't finished");
    out.finish();
    holds(&rt, out.finished(), "it is finished");
    took(&rt, &out, b"ab", false);
    same(&rt, write_all(&mut out, b"c"), Err(SinkFault::Failed));
    took(&rt, &out, b"ab", true);
}

/// Writes to five bytes of memory until they are full, and gives what each write answers, and the bytes.
fn fill_five() -> ([Result<usize, SinkFault>; 3], [u8; 5]) {
    let mut short = [0; 5];
    let mut out = WriterSink::new(&mut short[..], 0);
    let counts = [out.write(b"abc"), out.write(b"defgh"), out.write(b"fgh")];
    (counts, short)
}

#[test]
fn a_writer_takes_the_bytes_that_it_counts(rt: HostRuntime) {
    let mut bytes = Vec::<u8>::new(rt.alloc());
    let written = write_all(&mut WriterSink::new(&mut bytes, 0), b"abcdefgh");
    same(&rt, written, Ok(()));
    same(&rt, bytes.as_slice(), b"abcdefgh");
    let (counts, short) = fill_five();
    same(&rt, counts, [Ok(3), Ok(2), Err(SinkFault::Failed)]);
    same(&rt, short, *b"abcde");
}

/// A link that gives `heard`, cut so.
fn link(rt: &impl Abort, alloc: Global, cuts: List<usize>) -> Answer {
    Answer::Link {
        bytes: text(rt, alloc, "heard"),
        cuts,
        read_fails: List::new(alloc),
        write_fails: List::new(alloc),
    }
}

/// A link whose first read gives two bytes at most.
fn one_cut_link(rt: &impl Abort, alloc: Global) -> List<Answer> {
    let mut cuts = List::new(alloc);
    cuts.add(2).expect(rt, "memory");
    let mut answers = List::new(alloc);
    answers.add(link(rt, alloc, cuts)).expect(rt, "memory");
    answers
}

/// Dials the first of those links, reads with room for eight bytes and then for one, and hangs up. Gives what the reads answer.
fn listen_twice(
    rt: &impl Abort,
    alloc: Global,
    answers: List<Answer>,
) -> Result<(MemDialer, [Result<usize, Failed>; 2]), Mem> {
    let mut dialer = MemDialer::new(alloc, answers)?;
    let Ok(link) = dialer.dial(b"a.test", 80) else {
        panic!(rt; "no link");
    };
    let (mut link_in, link_out) = link;
    let mut piece = [0; 8];
    let counts = [link_in.read(&mut piece), link_in.read(&mut piece[..1])];
    dialer.hang_up(link_in, link_out);
    Ok((dialer, counts))
}

#[test]
fn a_link_in_memory_keeps_its_cuts(rt: HostRuntime) {
    let alloc = rt.alloc();
    let answers = one_cut_link(&rt, alloc);
    let (dialer, counts) = listen_twice(&rt, alloc, answers).expect(&rt, "memory");
    same(&rt, counts, [Ok(2), Ok(1)]);
    same(&rt, dialer.links().len(), 1);
    for link in dialer.links() {
        same_text(&rt, &link.heard, "hea");
    }
}

/// A dialer whose first dial finds no name, and whose next two have links.
fn three_dials(rt: &impl Abort, alloc: Global) -> MemDialer {
    let mut answers = List::new(alloc);
    answers.add(Answer::NoName).expect(rt, "memory");
    for _ in 0..2 {
        let link = link(rt, alloc, List::new(alloc));
        answers.add(link).expect(rt, "memory");
    }
    MemDialer::new(alloc, answers).expect(rt, "memory")
}

/// Dials, sends bytes, and hangs up at once. Tells whether it was a link.
fn visit(dialer: &mut MemDialer, host: &str, bytes: &str) -> bool {
    match dialer.dial(host.as_bytes(), 80) {
        Ok(link) => {
            let (link_in, mut link_out) = link;
            let sent = write_all(&mut link_out, bytes.as_bytes());
            dialer.hang_up(link_in, link_out);
            sent.is_ok()
        }
        Err(_) => false,
    }
}

/// Asserts what a link was dialled to and what was sent over it. Nothing was heard.
fn was_sent(rt: &impl Abort, link: &LinkNote, host: &str, sent: &str) {
    same_text(rt, &link.host, host);
    same(rt, link.port, 80);
    same_text(rt, &link.heard, "");
    same_text(rt, &link.sent, sent);
}

#[test]
fn a_dialer_in_memory_notes_its_links(rt: HostRuntime) {
    let mut dialer = three_dials(&rt, rt.alloc());
    let visits = [
        visit(&mut dialer, "a.test", "one"),
        visit(&mut dialer, "b.test", "two"),
        visit(&mut dialer, "c.test", "three"),
        visit(&mut dialer, "d.test", "four"),
    ];
    same(&rt, visits, [false, true, true, false]);
    let expected = [("b.test", "two"), ("c.test", "three")];
    same(&rt, dialer.links().len(), expected.len());
    for (link, (host, sent)) in dialer.links().iter().zip(expected) {
        was_sent(&rt, link, host, sent);
    }
}

/// What reading a file gives.
#[derive(Clone, Copy, Debug, PartialEq, Eq)]
enum Reading {
    Wanted,
    Other,
    Missing,
    Over,
    Failed,
}

/// Reads a file of so many bytes at most, where `wanted` is hoped for.
fn read<F: Files>(files: &mut F, name: &str, limit: u64, wanted: &str) -> Reading {
    match files.read(name, limit) {
        Ok(Content::Found(text)) => {
            if text.as_bytes() == wanted.as_bytes() {
                Reading::Wanted
            } else {
                Reading::Other
            }
        }
        Ok(Content::Missing) => Reading::Missing,
        Ok(Content::Over) => Reading::Over,
        Err(FilesFault::Failed) => Reading::Failed,
        Err(FilesFault::Mem) => Reading::Other,
    }
}

/// The files of a moment: one with the name `c`.
fn one_file(rt: &impl Abort, alloc: Global, bytes: &str) -> List<(Text, Text)> {
    let mut state = List::new(alloc);
    let file = (text(rt, alloc, "c"), text(rt, alloc, bytes));
    state.add(file).expect(rt, "memory");
    state
}

/// The file `c` holds `old` and then `new`, and the fifth call fails.
fn changing_files(rt: &impl Abort, alloc: Global) -> MemFiles {
    let mut states = List::new(alloc);
    for bytes in ["old", "new"] {
        let state = one_file(rt, alloc, bytes);
        states.add(state).expect(rt, "memory");
    }
    MemFiles::new(alloc, states, &[4]).expect(rt, "memory")
}

#[test]
fn files_in_memory_change_at_their_turns(rt: HostRuntime) {
    let mut files = changing_files(&rt, rt.alloc());
    same(&rt, read(&mut files, "c", 100, "old"), Reading::Wanted);
    same(&rt, read(&mut files, "c", 2, "old"), Reading::Over);
    same(&rt, read(&mut files, "d", 2, ""), Reading::Missing);
    same(&rt, files.turn(), true);
    same(&rt, read(&mut files, "c", 100, "new"), Reading::Wanted);
    same(&rt, read(&mut files, "c", 2, "new"), Reading::Failed);
    same(&rt, files.put("c", b"put"), Ok(()));
    files.turn();
    same(&rt, read(&mut files, "c", 100, "put"), Reading::Wanted);
}

#[test]
fn the_files_of_the_system_are_put_and_read(rt: HostRuntime) {
    let mut files = DiskFiles::new(rt.alloc(), &rt);
    let name = "px_base-test-file";
    same(&rt, files.put(name, b"bytes"), Ok(()));
    same(&rt, read(&mut files, name, 100, "bytes"), Reading::Wanted);
    same(&rt, read(&mut files, name, 4, "bytes"), Reading::Over);
    holds(&rt, std::fs::remove_file(&rt, name).is_ok(), "it goes");
    same(&rt, read(&mut files, name, 4, "bytes"), Reading::Missing);
    same(&rt, read(&mut files, "/", 4, ""), Reading::Failed);
}

/// The first three moments of a clock that has two.
fn three_moments(rt: &impl Abort, alloc: Global) -> [u64; 3] {
    let mut moments = List::new(alloc);
    moments.add(7).expect(rt, "memory");
    moments.add(9).expect(rt, "memory");
    let mut clock = FixedClock::new(moments);
    [clock.now(), clock.now(), clock.now()]
}

#[test]
fn clocks_give_their_moments(rt: HostRuntime) {
    same(&rt, three_moments(&rt, rt.alloc()), [7, 9, 9]);
    same(&rt, FixedClock::new(List::new(rt.alloc())).now(), 0);
    let now = SystemClock::new(&rt).now();
    assert!(rt;
        now > 1_700_000_000 && now < 10_000_000_000,
        "{now} isn't in seconds"
    );
}
