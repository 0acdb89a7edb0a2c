// The outgoing side of a link.
ghost use Rattle.std.specs.Prelude.{◌≡◌, ◌==◌, not, ◌<◌, ◌≤◌, IsTrue, length, OnOk, [], false, true};
ghost use Rattle.px_base.specs.Causes.{Rose};
ghost use Rattle.px_base.specs.Sinks.{SinkState, SinkCause, Finishes, SinkGoesOn};
ghost use Rattle.px_pool_ends.specs.Closings.{IsMethodOf};
ghost use Rattle.px_pool_ends.specs.Outgoings.{Sending, outer_sink, last_refusal as last_refusal_spec, SendsBytes, FinishesBehind, StopCause, Wrote, IsSent};

use crate::steps::{Step, step_on};
use px_base::{LocalSink, LocalSource, Sink, SinkFault, Source, Text};
use std::alloc::Global;
use std::marker::Model;
use std::snapshot::Snapshot;

/// The outgoing side of a link. It holds back the start of a request head until the head is whole, and asks to keep the link
/// where the head asks to close it.
#[derive(Drop)]
pub struct Outgoing<S: LocalSource, O: LocalSink> {
    alloc: Global,
    sink: O,
    begun: Snapshot<O>,
    begun_in: Snapshot<S>,
    host: Snapshot<Text>,
    port: Snapshot<u16>,
    head: Snapshot<Text>,
    out: Text,
    at: usize,
    holding: bool,
    replaced: bool,
    method: Text,
    stopped: Option<SinkFault>,
    faults: u64,
    finished: bool,
}

impl<S: LocalSource, O: LocalSink> Model for Outgoing<S, O> {
    ghost use Rattle.px_pool_ends.specs.Outgoings.{Sending, KeepsSending};

    ghost Value = { Sending };

    ghost view = { λ s. record { sink = O.state s.sink; begun = O.state s.begun.value; begun_in = S.state s.begun_in.value; host = s.host.value; port = s.port.value; head = s.head.value; out = s.out; at = s.at; holding = s.holding; replaced = s.replaced; method = s.method; stopped = s.stopped; faults = s.faults; finished = s.finished } };

    ghost invariant = { λ s. KeepsSending (record { sink = O.state s.sink; begun = O.state s.begun.value; begun_in = S.state s.begun_in.value; host = s.host.value; port = s.port.value; head = s.head.value; out = s.out; at = s.at; holding = s.holding; replaced = s.replaced; method = s.method; stopped = s.stopped; faults = s.faults; finished = s.finished }) };
}

/// Sends the bytes from a place on to a sink whose end wasn't said. It moves the place behind what was sent.
fn send<O: LocalSink>(sink: &mut O, bytes: &[u8], at: &mut usize) -> Result<(), SinkFault>
    requires within { at.old ≤ length bytes.now }
    requires open { (O.state sink.old).finished ≡ false }
    ensures sends { SendsBytes (O.state sink.old) (O.state sink.new) bytes.now at.old at.new }
    ensures all { OnOk result (at.new ≡ length bytes.now) }
    ensures cause { StopCause (O.state sink.old) (O.state sink.new) result }
{
    'send: while *at < bytes.len() {
        match sink.write(&bytes[*at..]) {
            Ok(count) => *at += count,
            Err(fault) => return Err(fault),
        }
    }
    Ok(())
}

/// Sends the bytes from a place on, and then says the end, also where a sending was refused.
fn send_last<O: LocalSink>(sink: &mut O, bytes: &[u8], at: &mut usize) -> Result<(), SinkFault>
    requires within { at.old ≤ length bytes.now }
    requires open { (O.state sink.old).finished ≡ false }
    ensures ends { FinishesBehind (O.state sink.old) (O.state sink.new) bytes.now at.old at.new }
    ensures all { OnOk result (at.new ≡ length bytes.now) }
    ensures cause { StopCause (O.state sink.old) (O.state sink.new) result }
{
    let sent = send(sink, bytes, at);
    sink.finish();
    sent
}

/// Why a sending was refused, the last time that one was: this one, if it was, or one before it.
fn last_refusal(stopped: Option<SinkFault>, sent: Result<(), SinkFault>) -> Option<SinkFault>
    ensures { result ≡ last_refusal_spec stopped sent }
{
    match sent {
        Ok(()) => stopped,
        Err(fault) => Some(fault),
    }
}

impl<S: LocalSource, O: LocalSink> Outgoing<S, O> {
    /// The outgoing side of a link to that host and port over that sink, to which nothing was written yet. `begun_in` is the
    /// inner source as it is now.
    pub fn new(
        alloc: Global,
        sink: O,
        begun_in: Snapshot<S>,
        host: Snapshot<Text>,
        port: u16,
    ) -> Outgoing<S, O>
        requires fresh { (O.state sink).finished ≡ false }
        ensures sink { result.sink ≡ O.state sink }
        ensures begun { result.begun ≡ O.state sink }
        ensures begun_in { result.begun_in ≡ S.state begun_in.value }
        ensures host { result.host ≡ host.value }
        ensures port { result.port ≡ port }
        ensures none { (outer_sink result).taken ≡ [] }
        ensures replaced { result.replaced ≡ false }
        ensures faults { result.faults ≡ 0 }
        ensures finished { result.finished ≡ false }
    {
        let none = Text::new(alloc);
        Outgoing {
            alloc,
            begun: Snapshot::of(&sink),
            begun_in,
            host,
            port: Snapshot::of(&port),
            sink,
            head: Snapshot::of(&none),
            out: none,
            at: 0,
            holding: true,
            replaced: false,
            method: Text::new(alloc),
            stopped: None,
            faults: 0,
            finished: false,
        }
    }

    /// Whether the line was replaced in the head.
    pub fn replaced(&self) -> bool
        ensures { result ≡ self.now.replaced }
    {
        self.replaced
    }

    /// Why a sending of bytes that were taken was refused, the last time that one was, if any was.
    pub fn stopped(&self) -> Option<SinkFault>
        ensures { result ≡ self.now.stopped }
    {
        self.stopped
    }

    /// The method of the head in which the line was replaced.
    pub fn method(&self) -> &[u8]
        ensures value { result.now ≡ self.now.method }
        ensures of_head { IsTrue self.now.replaced → IsMethodOf self.now.head result.now }
    {
        self.method.as_bytes()
    }

    /// The bytes up to the end of the head as they go out.
    pub fn head(&self) -> &[u8]
        ensures { result.now ≡ self.now.out }
    {
        self.out.as_bytes()
    }

    /// Whether a write of this side has failed.
    pub fn has_failed(&self) -> bool
        ensures { result ≡ not (self.now.faults == 0) }
    {
        self.faults != 0
    }

    /// Whether its end was said.
    pub fn is_finished(&self) -> bool
        ensures { result ≡ self.now.finished }
    {
        self.finished
    }

    /// Hands back the inner sink. What it took is what is sent for the bytes written, less what is held back.
    pub fn into_inner(self) -> O
        ensures inner { O.state result ≡ self.sink }
        ensures sent { IsTrue self.sink.tells → IsSent self }
        ensures unfinished { self.finished ≡ false → self.sink.finished ≡ false }
    {
        let Outgoing {
            alloc: _,
            sink,
            begun: _,
            begun_in: _,
            host: _,
            port: _,
            head: _,
            out: _,
            at: _,
            holding: _,
            replaced: _,
            method: _,
            stopped: _,
            faults: _,
            finished: _,
        } = self;
        sink
    }

    /// A write while bytes are held back.
    fn hold(&mut self, bytes: &[u8]) -> Result<usize, SinkFault>
        requires holding { IsTrue self.old.holding }
        requires some { 0 < length bytes.now }
        ensures { Wrote (outer_sink self.old) (outer_sink self.new) result bytes.now }
    {
        let Ok(step) = step_on(self.alloc, self.out.as_bytes(), bytes) else {
            return Err(SinkFault::Mem);
        };
        let Step {
            head,
            out,
            count,
            holding,
            replaced,
            method,
        } = step;
        self.head = head;
        self.out = out;
        self.holding = holding;
        self.replaced = replaced;
        self.method = method;
        if holding {
            return Ok(count);
        }
        let sent = send(&mut self.sink, self.out.as_bytes(), &mut self.at);
        self.stopped = last_refusal(self.stopped, sent);
        Ok(count)
    }

    /// A write once nothing is held back any more.
    fn pass(&mut self, bytes: &[u8]) -> Result<usize, SinkFault>
        requires passing { self.old.holding ≡ false }
        requires open { self.old.finished ≡ false }
        requires some { 0 < length bytes.now }
        ensures { Wrote (outer_sink self.old) (outer_sink self.new) result bytes.now }
    {
        match send(&mut self.sink, self.out.as_bytes(), &mut self.at) {
            Ok(()) => {}
            Err(SinkFault::Failed) => {
                self.stopped = Some(SinkFault::Failed);
                self.faults = self.faults.saturating_add(1);
                return Err(SinkFault::Failed);
            }
            Err(SinkFault::Mem) => {
                self.stopped = Some(SinkFault::Mem);
                return Err(SinkFault::Mem);
            }
        }
        match self.sink.write(bytes) {
            Ok(count) => Ok(count),
            Err(SinkFault::Failed) => {
                self.faults = self.faults.saturating_add(1);
                Err(SinkFault::Failed)
            }
            Err(SinkFault::Mem) => Err(SinkFault::Mem),
        }
    }

    /// Behind the end no write is taken, and it counts as one that failed.
    fn put(&mut self, bytes: &[u8]) -> Result<usize, SinkFault>
        ensures { Wrote (outer_sink self.old) (outer_sink self.new) result bytes.now }
    {
        if bytes.is_empty() {
            return Ok(0);
        }
        if self.finished {
            self.faults = self.faults.saturating_add(1);
            return Err(SinkFault::Failed);
        }
        if self.holding {
            return self.hold(bytes);
        }
        self.pass(bytes)
    }

    /// Sends what is held back, and says the end, once. Where the inner sink fails in that, its count alone rises.
    fn end(&mut self)
        ensures finishes { Finishes (outer_sink self.old) (outer_sink self.new) }
        ensures goes_on { SinkGoesOn (outer_sink self.old) (outer_sink self.new) }
        ensures passed_on { IsTrue self.new.sink.tells → self.new.sink.finished ≡ true }
    {
        if self.finished {
            return;
        }
        let sent = send_last(&mut self.sink, self.out.as_bytes(), &mut self.at);
        self.stopped = last_refusal(self.stopped, sent);
        self.holding = false;
        self.finished = true;
    }
}

impl<S: Source, O: Sink> Sink for Outgoing<S, O> {
    ghost state = { outer_sink };

    fn write(&mut self, bytes: &[u8]) -> Result<usize, SinkFault> {
        self.put(bytes)
    }

    fn finish(&mut self) {
        self.end();
    }
}
