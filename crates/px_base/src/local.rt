// Sources, sinks and dialers as one thread knows them: the same three traits without `Send`. In a method of an impl the checker
// knows a bound of that method's own thread alone, so code that wraps a source, a sink or a dialer is written over these; each
// source is a local source, each sink a local sink and each dialer a local dialer.
ghost use Rattle.std.specs.Prelude.{◌≡◌, ◌<◌, ◌++◌, length, IsTrue, IfOk, true};
ghost use Rattle.px_base.specs.Causes.{HasCause};
ghost use Rattle.px_base.specs.Sources.{SourceState, Reads, SourceGoesOn};
ghost use Rattle.px_base.specs.Sinks.{SinkState, Writes, SinkCause, SinkGoesOn, Finishes};
ghost use Rattle.px_base.specs.Dials.{DialerState, DialerGoesOn, linked, dialed, is_open, IsFresh, IsTold, met, agrees, LeavesComing, DialCause, HangsUp};

use crate::{DialFault, Dialer, Failed, Sink, SinkFault, Source};

/// Bytes that are read in order, as one thread knows them: `Source` without `Send`.
pub trait LocalSource {
    ghost state: { Self → SourceState };

    fn read(&mut self, buf: &mut [u8]) -> Result<usize, Failed>
        requires { 0 < length buf.old }
        ensures bytes { Reads (state self.old) (state self.new) result buf.new }
        ensures cause { HasCause (state self.old).faults (state self.new).faults result }
        ensures goes_on { SourceGoesOn (state self.old) (state self.new) };
}

impl<S: Source> LocalSource for S {
    ghost state = { λ s. S.Source.state s };

    fn read(&mut self, buf: &mut [u8]) -> Result<usize, Failed> {
        Source::read(self, buf)
    }
}

/// Bytes that are written in order, as one thread knows them: `Sink` without `Send`.
pub trait LocalSink {
    ghost state: { Self → SinkState };

    fn write(&mut self, bytes: &[u8]) -> Result<usize, SinkFault>
        ensures bytes { Writes (state self.old) (state self.new) result bytes.now }
        ensures cause { SinkCause (state self.old) (state self.new) (length bytes.now) result }
        ensures open { (state self.new).finished ≡ (state self.old).finished }
        ensures goes_on { SinkGoesOn (state self.old) (state self.new) };

    fn finish(&mut self)
        ensures finishes { Finishes (state self.old) (state self.new) }
        ensures goes_on { SinkGoesOn (state self.old) (state self.new) };
}

impl<O: Sink> LocalSink for O {
    ghost state = { λ s. O.Sink.state s };

    fn write(&mut self, bytes: &[u8]) -> Result<usize, SinkFault> {
        Sink::write(self, bytes)
    }

    fn finish(&mut self) {
        Sink::finish(self);
    }
}

/// Gives links to hosts, as one thread knows them: `Dialer` without `Send`.
pub trait LocalDialer {
    type In: LocalSource;

    type Out: LocalSink;

    ghost state: { Self → DialerState };

    fn dial(&mut self, host: &[u8], port: u16) -> Result<(Self::In, Self::Out), DialFault>
        ensures dials { IsTrue (state self.old).tells → (state self.new).dials ≡ (state self.old).dials ++ dialed host.now port (linked Self.In.state Self.Out.state result) }
        ensures told { IsTrue (state self.old).tells → IfOk (linked Self.In.state Self.Out.state result) (IsTold (state self.old)) }
        ensures fresh { IfOk (linked Self.In.state Self.Out.state result) IsFresh }
        ensures coming { IsTrue (state self.old).tells_coming → agrees (met (state self.old) host.now) (linked Self.In.state Self.Out.state result) }
        ensures coming_left { IsTrue (state self.old).tells_coming → LeavesComing (state self.old) (state self.new) host.now (linked Self.In.state Self.Out.state result) }
        ensures cause { DialCause (state self.old) (state self.new) result }
        ensures goes_on { DialerGoesOn (state self.old) (state self.new) };

    fn hang_up(&mut self, link_in: Self::In, link_out: Self::Out)
        requires open { IsTrue (state self.old).tells → is_open (Self.In.state link_in).mark (state self.old).dials ≡ true }
        requires one_mark { IsTrue (state self.old).tells → (Self.Out.state link_out).mark ≡ (Self.In.state link_in).mark }
        ensures hung_up { HangsUp (state self.old) (state self.new) (Self.In.state link_in) (Self.Out.state link_out) }
        ensures goes_on { DialerGoesOn (state self.old) (state self.new) };
}

impl<D: Dialer> LocalDialer for D {
    type In = <D as Dialer>::In;

    type Out = <D as Dialer>::Out;

    ghost state = { λ d. D.Dialer.state d };

    fn dial(
        &mut self,
        host: &[u8],
        port: u16,
    ) -> Result<(<D as Dialer>::In, <D as Dialer>::Out), DialFault> {
        Dialer::dial(self, host, port)
    }

    fn hang_up(&mut self, link_in: <D as Dialer>::In, link_out: <D as Dialer>::Out) {
        Dialer::hang_up(self, link_in, link_out);
    }
}
