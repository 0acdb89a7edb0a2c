// The logical lines of a file.
ghost use Rattle.std.specs.Prelude.{◌≡◌, ◌≤◌, length, None, IfErr, IfOk, OnOk};
ghost use Rattle.px_text.specs.Faults.{IsTextRefusal, first_text_fault};
ghost use Rattle.px_text.specs.Lines.{logical};

use crate::TextFault;
use crate::joinings::Joining;
use crate::parts::{split_line, without_mark};
use px_base::{List, Text};
use std::alloc::Global;

/// A line of a file: comments cut, continued lines joined, without white space at its ends.
#[derive(Drop)]
pub struct Line {
    /// The number of its first physical line, from 1.
    pub number: u32,
    pub text: Text,
}

/// The lines that a file's bytes stand for, as Privoxy's manual describes them in "The Main Configuration File": lines
/// end with LF or CRLF; a line whose last byte is a backslash is continued by the next; a `#` with no backslash directly
/// before it begins a comment, and `\#` is a `#`; white space at both ends is dropped, and empty lines are left out.
///
/// A physical line that isn't UTF-8 is `NotText`; a joined line of more than `LINE_LIMIT` bytes is `TooLong`. The refusal
/// at the smallest line is answered, at the same line `NotText`.
pub fn logical_lines(alloc: Global, text: &[u8]) -> Result<List<Line>, TextFault>
    requires { length text.now ≤ 4294967294 }
    ensures lines { IfOk result (λ lines. lines ≡ logical text.now) }
    ensures sound { OnOk result (first_text_fault text.now ≡ None) }
    ensures fault { IfErr result (IsTextRefusal (first_text_fault text.now)) }
{
    let mut rest = without_mark(text);
    let mut joining = Joining::begin(alloc);
    while !rest.is_empty() {
        let (line, after) = split_line(rest);
        joining.add(alloc, line)?;
        rest = after;
    }
    joining.end(alloc)
}
