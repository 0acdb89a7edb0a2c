// The incoming side of a link.
ghost use Rattle.std.specs.Prelude.{◌≡◌, ◌==◌, not, ◌<◌, ◌↔◌, ◌++◌, IsTrue, length, false, true};
ghost use Rattle.px_base.specs.Causes.{HasCause};
ghost use Rattle.px_base.specs.Sources.{Reads, SourceGoesOn, given};
ghost use Rattle.px_pool_ends.specs.Answers.{IsAnswer, is_answered as is_answered_spec, is_lost as is_lost_spec};
ghost use Rattle.px_pool_ends.specs.Incomings.{Hearing, IsLaterSource, outer_source, heard};

use crate::followers::{Following, first, follow, is_answered, is_lost};
use px_base::{Failed, LocalSink, LocalSource, Sink, Source, Text};
use std::alloc::Global;
use std::marker::Model;
use std::mem::replace;
use std::snapshot::Snapshot;

/// The incoming side of a link that is lent: it follows the answer as it is heard, and knows where the link was dialled to.
/// To callers it offers what the inner source had left when the link was lent.
#[derive(Drop)]
pub struct Incoming<S: LocalSource, O: LocalSink> {
    alloc: Global,
    source: S,
    begun: Snapshot<S>,
    begun_out: Snapshot<O>,
    host: Text,
    port: u16,
    following: Following,
    faults: u64,
}

impl<S: LocalSource, O: LocalSink> Model for Incoming<S, O> {
    ghost use Rattle.px_pool_ends.specs.Incomings.{Hearing, KeepsHearing};

    ghost Value = { Hearing };

    ghost view = { λ s. record { source = S.state s.source; begun = S.state s.begun.value; begun_out = O.state s.begun_out.value; host = s.host; port = s.port; following = s.following; faults = s.faults } };

    ghost invariant = { λ s. KeepsHearing (record { source = S.state s.source; begun = S.state s.begun.value; begun_out = O.state s.begun_out.value; host = s.host; port = s.port; following = s.following; faults = s.faults }) };
}

impl<S: LocalSource, O: LocalSink> Incoming<S, O> {
    /// The incoming side of a link to that host and port, from here on. `begun_out` is the inner sink as it is now.
    pub fn new(
        alloc: Global,
        source: S,
        begun_out: Snapshot<O>,
        host: Text,
        port: u16,
    ) -> Incoming<S, O>
        requires whole { IsTrue (S.state source).tells → (S.state source).offered ≡ given (S.state source) ++ (S.state source).left }
        ensures source { result.source ≡ S.state source }
        ensures begun { result.begun ≡ S.state source }
        ensures begun_out { result.begun_out ≡ O.state begun_out.value }
        ensures host { result.host ≡ host }
        ensures port { result.port ≡ port }
        ensures no_faults { result.faults ≡ 0 }
    {
        Incoming {
            alloc,
            begun: Snapshot::of(&source),
            source,
            begun_out,
            host,
            port,
            following: first(alloc),
            faults: 0,
        }
    }

    /// Whether one whole answer was heard since the link was lent, and nothing more.
    pub fn has_answer(&self) -> bool
        ensures value { result ≡ is_answered_spec self.now.following }
        ensures answered { IsTrue self.now.source.tells → is_lost_spec self.now.following ≡ false → (result ≡ true) ↔ IsAnswer 8 (heard self.now) }
    {
        is_answered(&self.following)
    }

    /// Whether memory was wanting while the answer was followed. Then no answer is known.
    pub fn has_lost(&self) -> bool
        ensures { result ≡ is_lost_spec self.now.following }
    {
        is_lost(&self.following)
    }

    /// Whether a read of this side has failed.
    pub fn has_failed(&self) -> bool
        ensures { result ≡ not (self.now.faults == 0) }
    {
        self.faults != 0
    }

    /// Hands back the inner source, and where the link was dialled to. What the source has given in all is what it had given
    /// when the link was lent and what was heard since then.
    pub fn into_parts(self) -> (S, Text, u16)
        ensures source { S.state result.0 ≡ self.source }
        ensures host { result.1 ≡ self.host }
        ensures port { result.2 ≡ self.port }
        ensures later { IsTrue self.source.tells → IsLaterSource self.begun self.source }
    {
        let Incoming {
            alloc: _,
            source,
            begun: _,
            begun_out: _,
            host,
            port,
            following: _,
            faults: _,
        } = self;
        (source, host, port)
    }

    fn take(&mut self, buf: &mut [u8]) -> Result<usize, Failed>
        requires { 0 < length buf.old }
        ensures bytes { Reads (outer_source self.old) (outer_source self.new) result buf.new }
        ensures cause { HasCause (outer_source self.old).faults (outer_source self.new).faults result }
        ensures goes_on { SourceGoesOn (outer_source self.old) (outer_source self.new) }
    {
        match self.source.read(buf) {
            Ok(count) => {
                let following = replace(&mut self.following, Following::Lost);
                self.following = follow(self.alloc, following, &buf[..count]);
                Ok(count)
            }
            Err(Failed) => {
                self.faults = self.faults.saturating_add(1);
                Err(Failed)
            }
        }
    }
}

impl<S: Source, O: Sink> Source for Incoming<S, O> {
    ghost state = { outer_source };

    fn read(&mut self, buf: &mut [u8]) -> Result<usize, Failed> {
        self.take(buf)
    }
}
