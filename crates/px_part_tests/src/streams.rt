//! Streams over a tape.
use px_base::{Failed, Source, TapeIn};
use px_streams::{Ahead, Feed, fill};

/// A tape that keeps how many bytes its greatest read asked for.
#[derive(Drop)]
struct Counted {
    tape: TapeIn,
    most: usize,
}

impl Source for Counted {
    ghost state = { λ c. ⟦<TapeIn as Source>⟧.state c.tape };

    fn read(&mut self, buf: &mut [u8]) -> Result<usize, Failed> {
        self.most = self.most.max(buf.len());
        self.tape.read(buf)
    }
}

const BYTES: [u8; 20_000] = [7; 20_000];

#[test]
fn a_read_asks_for_at_most_a_piece(rt: HostRuntime) {
    let mut source = Counted {
        tape: TapeIn::new(rt.alloc(), &BYTES, &[], &[]).expect(&rt, "memory"),
        most: 0,
    };
    let mut ahead = Ahead::new(rt.alloc());
    assert_eq!(rt; fill(&mut source, &mut ahead), Ok(true));
    assert_eq!(rt; source.most, 8_192);
    assert_eq!(rt; ahead.as_bytes().len(), 8_192);
}

#[test]
fn a_feed_reads_as_its_source(rt: HostRuntime) {
    let source = TapeIn::new(rt.alloc(), b"abcdef", &[4], &[]).expect(&rt, "memory");
    let mut feed = Feed::new(rt.alloc(), source).expect(&rt, "memory");
    let mut buf = [0u8; 3];
    assert_eq!(rt; feed.read(&mut buf), Ok(3));
    assert_eq!(rt; buf, *b"abc");
    assert_eq!(rt; feed.read(&mut buf), Ok(3));
    assert_eq!(rt; buf, *b"def");
    assert_eq!(rt; feed.read(&mut buf), Ok(0));
}
