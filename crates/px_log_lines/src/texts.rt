// The text of a line, which takes no memory of the heap.
ghost use Rattle.std.specs.Prelude.{◌≡◌, ◌+◌, ◌≤◌, ◌++◌, ◌∷◌, [], length, take};
ghost use Rattle.px_log_lines.specs.Lines.{Keeps};

use arrayvec::ArrayVec;
use std::marker::Model;

/// The most bytes of a line without its end: with that it goes to a pipe in one piece (POSIX, `PIPE_BUF` of Linux).
pub const LINE_SHOWN: usize = 4_095;

/// The most bytes of a line.
pub const LINE_ROOM: usize = 4_096;

/// The text of a line: what doesn't fit is left away.
pub(crate) struct LineText {
    bytes: ArrayVec<u8, LINE_ROOM>,
}

impl Model for LineText {
    ghost use Rattle.std.specs.Prelude.{ℕ, List, ◌≤◌, length};
    ghost use Rattle.px_log_lines.specs.declared.texts.TheConstants.{LINE_SHOWN};

    ghost Value = { List ℕ };

    ghost view = { λ t. t.bytes.items };

    ghost invariant = { λ t. length t.bytes.items ≤ LINE_SHOWN };
}

impl LineText {
    /// No text.
    pub(crate) fn new() -> LineText
        ensures { result ≡ [] }
    {
        LineText {
            bytes: ArrayVec::new(),
        }
    }

    /// Adds bytes that fit.
    fn add(&mut self, bytes: &[u8])
        requires { length self.old + length bytes.now ≤ LINE_SHOWN }
        ensures { self.new ≡ self.old ++ bytes.now }
    {
        match self.bytes.try_extend_from_slice(bytes) {
            Ok(()) => {}
            Err(_) => unreachable!(),
        }
    }

    /// Adds bytes, or as many as fit.
    pub(crate) fn push(&mut self, bytes: &[u8])
        ensures { Keeps self.old self.new bytes.now }
    {
        let room = LINE_SHOWN - self.bytes.len();
        if bytes.len() <= room {
            self.add(bytes);
        } else {
            self.add(&bytes[..room]);
        }
    }

    /// The line: the text with its end.
    pub(crate) fn end(self) -> ArrayVec<u8, LINE_ROOM>
        ensures { result.items ≡ take LINE_SHOWN self ++ 10 ∷ [] }
    {
        let LineText { bytes: mut line } = self;
        line.push(b'\n');
        line
    }
}
