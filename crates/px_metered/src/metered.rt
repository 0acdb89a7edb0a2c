// A sink that measures what is taken through it.
ghost use Rattle.std.specs.Prelude.{◌≡◌, IsTrue};
ghost use Rattle.px_metered.specs.Measured.{IsMeasured, MeasuresSink};

use crate::Tally;
use crate::meters::Meter;
use px_base::{Sink, SinkFault};
use std::marker::{Brand, PhantomData};

/// What a call that measures a sink picks: the sink, what it had taken before, and whether it is measured.
pub trait Began {
    ghost use Rattle.std.specs.Prelude.{ℕ, List, Bool};

    /// The name of the reference to the sink.
    ghost name: { ℕ };

    /// The bytes that the sink had taken before.
    ghost before: { List ℕ };

    /// Whether the sink is measured.
    ghost on: { Bool };
}

impl Began for Brand {
    ghost use Rattle.std.specs.Prelude.{[], false};

    ghost name = { 0 };

    ghost before = { [] };

    ghost on = { false };
}

/// A sink that passes on to another one, and measures what that takes of an exchange. Where it isn't on it only passes on.
pub struct Metered<'a, N: Began, O: Sink> {
    sink: &'a mut O,
    meter: Meter,
    on: bool,
    began: PhantomData<N>,
    ghost same: { sink.ghost_name ≡ N.name },
    ghost switched: { on ≡ N.on },
    ghost measured: { IsTrue on → IsTrue (O.state sink.now).tells → MeasuresSink N.before (O.state sink.now) meter },
}

impl<'a, N: Began, O: Sink> Metered<'a, N, O> {
    /// A measured sink over this one, before an exchange.
    pub fn new(sink: &'a mut O, on: bool) -> Metered<'a, N, O>
        requires name { sink.ghost_name ≡ N.name }
        requires before { (O.state sink.old).taken ≡ N.before }
        requires on { on ≡ N.on }
        ensures same { result.sink.ghost_name ≡ sink.entry.ghost_name }
        ensures now { result.sink.now ≡ sink.old }
    {
        Metered {
            sink,
            meter: Meter::new(),
            on,
            began: PhantomData,
        }
    }

    /// What was returned, where it was measured, and the sink.
    pub fn into_parts(self) -> (Option<Tally>, &'a mut O)
        ensures same { result.1.ghost_name ≡ N.name }
        ensures now { result.1.now ≡ self.entry.sink.now }
        ensures measured { IsMeasured N.on N.before (O.state result.1.now) result.0 }
    {
        let Metered {
            sink,
            meter,
            on,
            began: _began,
        } = self;
        let returned = if on { Some(meter.returned()) } else { None };
        (returned, sink)
    }
}

impl<'a, N: Began + Send, O: Sink> Sink for Metered<'a, N, O> {
    ghost state = { λ m. O.state m.sink.now };

    fn write(&mut self, bytes: &[u8]) -> Result<usize, SinkFault> {
        let taken = self.sink.write(bytes)?;
        if self.on {
            self.meter.take(&bytes[..taken]);
        }
        Ok(taken)
    }

    fn finish(&mut self) {
        self.sink.finish();
    }
}
