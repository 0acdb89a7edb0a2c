//! A sink that tells others how much it took, and a source that waits until a sink took some.
ghost use Rattle.std.specs.Prelude.{true, false};

use px_base::{Failed, Sink, SinkFault, Source, TapeIn, TapeOut};
use std::sync::atomic::{AtomicU64, Ordering};
use std::thread;

/// How often a side that waits for what comes looks, yielding its thread between two looks.
pub(crate) const LOOKS: u64 = 1_000_000;

/// Waits until a count isn't 0, at most so many looks, and tells whether it is so.
pub(crate) fn has_risen(count: &AtomicU64, looks: u64) -> bool {
    'looks: for _ in 0..looks {
        if count.load(Ordering::SeqCst) > 0 {
            return true;
        }
        thread::yield_now();
    }
    false
}

/// A sink in memory that adds what it takes to a count that others see.
#[derive(Drop)]
pub(crate) struct Told<'c> {
    pub tape: TapeOut,
    pub taken: &'c AtomicU64,
}

impl<'c> Sink for Told<'c> {
    ghost state = { λ told. ⟦<TapeOut as Sink>⟧.state told.tape };

    fn write(&mut self, bytes: &[u8]) -> Result<usize, SinkFault> {
        let count = self.tape.write(bytes)?;
        self.taken.fetch_add(count as u64, Ordering::SeqCst);
        Ok(count)
    }

    fn finish(&mut self) {
        self.tape.finish();
    }
}

/// A source in memory that gives its bytes once a count isn't 0. One that waits in vain fails.
#[derive(Drop)]
pub(crate) struct Waiting<'c> {
    pub tape: TapeIn,
    pub until: &'c AtomicU64,
    pub looks: u64,
    pub faults: u64,
}

impl<'c> Source for Waiting<'c> {
    ghost state = { λ w. record {
      tells = true;
      offered = (⟦<TapeIn as Source>⟧.state w.tape).offered;
      left = (⟦<TapeIn as Source>⟧.state w.tape).left;
      faults = w.faults;
      steady = false;
      mark = (⟦<TapeIn as Source>⟧.state w.tape).mark;
    } };

    fn read(&mut self, buf: &mut [u8]) -> Result<usize, Failed> {
        if has_risen(self.until, self.looks) {
            if let Ok(count) = self.tape.read(buf) {
                return Ok(count);
            }
        }
        self.faults = self.faults.saturating_add(1);
        Err(Failed)
    }
}
