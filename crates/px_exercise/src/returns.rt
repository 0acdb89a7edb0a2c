// What a client of the job gets back.
ghost use Rattle.std.specs.Prelude.{◌≡◌, [], ◌-◌, true, vec_capacity, vec_len};

use px_base::{Sink, SinkFault, Text};
use std::alloc::Global;

/// Takes bytes into memory. No write fails: at most memory is wanting.
#[derive(Drop)]
pub struct Returns {
    taken: Vec<u8>,
    finished: bool,
}

impl Returns {
    /// A sink before its first byte.
    pub fn new(alloc: Global) -> Returns
        ensures { (⟦<Returns as Sink>⟧.state result).taken ≡ [] }
    {
        Returns {
            taken: Vec::new(alloc),
            finished: false,
        }
    }

    pub fn into_taken(self) -> Text
        ensures { result ≡ (⟦<Returns as Sink>⟧.state self).taken }
    {
        Text::from_vec(self.taken)
    }
}

impl Sink for Returns {
    ghost state = { λ r. record {
      tells = true;
      taken = r.taken.items;
      finished = r.finished;
      faults = 0;
      steady = true;
      room = vec_capacity r.taken - vec_len r.taken;
      mark = 0;
    } };

    fn write(&mut self, bytes: &[u8]) -> Result<usize, SinkFault> {
        match self.taken.extend_from_slice(bytes) {
            Ok(()) => Ok(bytes.len()),
            Err(_) => Err(SinkFault::Mem),
        }
    }

    fn finish(&mut self) {
        self.finished = true;
    }
}
