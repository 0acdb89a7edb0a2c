// Both ends of a link behind a handshake. What went over the link in the handshake isn't among the bytes that they tell.
ghost use Rattle.std.specs.Prelude.{◌≡◌, IsTrue};
ghost use Rattle.px_base.specs.Sources.{SourceState};
ghost use Rattle.px_socks.specs.Ends.{socks_source, socks_sink, has_failed, BeginsWithMessages};

use crate::Looks;
use px_base::{Failed, LocalSink, LocalSource, Rests, Sink, SinkFault, Source, Text};
use std::marker::Model;

/// What a handshake took of a link. That of a plain host, with which there is none, has 0 and no message.
#[derive(Drop)]
pub struct HandshakePassage {
    /// How many bytes of the server's were heard: the method that it selected, and its reply.
    pub heard: usize,
    /// The greeting and the request, as they were sent.
    pub messages: Text,
}

/// The incoming side of a link: what the source below gives behind the handshake, with its faults.
#[derive(Drop)]
pub struct SocksSource<S: LocalSource> {
    inner: S,
    passage: HandshakePassage,
    failed: bool,
}

impl<S: LocalSource> Model for SocksSource<S> {
    ghost use Rattle.std.specs.Prelude.{◌≡◌};
    ghost use Rattle.px_socks.specs.Ends.{InnerSource, has_failed};

    ghost Value = { InnerSource };

    ghost view = { λ s. record { source = S.state s.inner; passage = s.passage } };

    ghost invariant = { λ s. s.failed ≡ has_failed (S.state s.inner).faults };
}

/// The outgoing side of a link: what the sink below takes behind the handshake, with its faults.
#[derive(Drop)]
pub struct SocksSink<O: LocalSink> {
    inner: O,
    passage: HandshakePassage,
    failed: bool,
}

impl<O: LocalSink> Model for SocksSink<O> {
    ghost use Rattle.std.specs.Prelude.{◌≡◌};
    ghost use Rattle.px_socks.specs.Ends.{InnerSink, BeginsWithMessages, has_failed};

    ghost Value = { InnerSink };

    ghost view = { λ s. record { sink = O.state s.inner; passage = s.passage } };

    ghost invariant = { λ s. (s.failed ≡ has_failed (O.state s.inner).faults) × BeginsWithMessages s.passage.messages (O.state s.inner) };
}

impl<S: LocalSource> SocksSource<S> {
    /// A source behind a handshake, none of whose reads has failed.
    pub(crate) fn new(inner: S, passage: HandshakePassage) -> SocksSource<S>
        requires calm { (S.state inner).faults ≡ 0 }
        ensures made { result ≡ record { source = S.state inner; passage = passage } }
    {
        SocksSource {
            inner,
            passage,
            failed: false,
        }
    }

    /// How many bytes of the server's were heard in the handshake.
    pub(crate) fn heard(&self) -> usize
        ensures heard { result ≡ self.now.passage.heard }
    {
        self.passage.heard
    }

    /// Whether a read has failed.
    pub(crate) fn has_failed(&self) -> bool
        ensures failed { result ≡ has_failed self.now.source.faults }
    {
        self.failed
    }

    /// The source below.
    pub(crate) fn into_inner(self) -> S
        ensures inner { S.state result ≡ self.source }
    {
        let SocksSource {
            inner,
            passage: _,
            failed: _,
        } = self;
        inner
    }
}

impl<O: LocalSink> SocksSink<O> {
    /// A sink behind a handshake, none of whose writes has failed.
    pub(crate) fn new(inner: O, passage: HandshakePassage) -> SocksSink<O>
        requires calm { (O.state inner).faults ≡ 0 }
        requires begins { BeginsWithMessages passage.messages (O.state inner) }
        ensures made { result ≡ record { sink = O.state inner; passage = passage } }
    {
        SocksSink {
            inner,
            passage,
            failed: false,
        }
    }

    /// Whether a write has failed.
    pub(crate) fn has_failed(&self) -> bool
        ensures failed { result ≡ has_failed self.now.sink.faults }
    {
        self.failed
    }

    /// The sink below, and that the messages are the first bytes that it took.
    pub(crate) fn into_inner(self) -> O
        ensures inner { O.state result ≡ self.sink }
        ensures begins { BeginsWithMessages self.passage.messages self.sink }
    {
        let SocksSink {
            inner,
            passage: _,
            failed: _,
        } = self;
        inner
    }
}

impl<S: Source> Source for SocksSource<S> {
    ghost state = { socks_source };

    fn read(&mut self, buf: &mut [u8]) -> Result<usize, Failed> {
        match self.inner.read(buf) {
            Ok(count) => Ok(count),
            Err(Failed) => {
                self.failed = true;
                Err(Failed)
            }
        }
    }
}

impl<S: Looks> Rests for SocksSource<S> {
    fn has_ended(&mut self) -> bool {
        self.inner.is_spent()
    }
}

impl<O: Sink> Sink for SocksSink<O> {
    ghost state = { socks_sink };

    fn write(&mut self, bytes: &[u8]) -> Result<usize, SinkFault> {
        match self.inner.write(bytes) {
            Ok(count) => Ok(count),
            Err(SinkFault::Failed) => {
                self.failed = true;
                Err(SinkFault::Failed)
            }
            Err(SinkFault::Mem) => Err(SinkFault::Mem),
        }
    }

    fn finish(&mut self) {
        self.inner.finish();
    }
}
