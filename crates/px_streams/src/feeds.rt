// A source with the bytes that were read ahead of it.
ghost use Rattle.std.specs.Prelude.{◌≡◌, ◌≤◌, [], length, take, IfOk};
ghost use Rattle.px_streams.specs.Feeds.{fed_source};

use crate::ahead::Ahead;
use px_base::{Failed, Mem, Source};
use std::alloc::Global;
use std::marker::Model;

/// A source with the bytes that were read ahead of it, which come first: one stream to contracts.
#[derive(Drop)]
pub struct Feed<S: Source> {
    pub source: S,
    pub ahead: Ahead,
}

impl<S: Source> Model for Feed<S> {
    ghost use Rattle.px_streams.specs.Feeds.{FeedState};

    ghost Value = { FeedState };

    ghost view = { λ f. record { source = S.state f.source; ahead = f.ahead } };
}

impl<S: Source> Feed<S> {
    /// A feed that has read nothing ahead.
    pub fn new(alloc: Global, source: S) -> Result<Feed<S>, Mem>
        ensures { IfOk result (λ feed. feed ≡ record { source = S.state source; ahead = [] }) }
    {
        Ok(Feed {
            source,
            ahead: Ahead::new(alloc),
        })
    }
}

impl<S: Source> Source for Feed<S> {
    ghost state = { λ f. fed_source f };

    fn read(&mut self, buf: &mut [u8]) -> Result<usize, Failed> {
        let waiting = self.ahead.as_bytes().len();
        if waiting == 0 {
            return self.source.read(buf);
        }
        let count = waiting.min(buf.len());
        copy_front(self.ahead.as_bytes(), buf, count);
        self.ahead.skip(count);
        Ok(count)
    }
}

fn copy_front(from: &[u8], buf: &mut [u8], count: usize)
    requires from { count ≤ length from.now }
    requires room { count ≤ length buf.old }
    ensures { take count buf.new ≡ take count from.now }
{
    buf[..count].copy_from_slice(&from[..count]);
}
