// What a line shows of a request's head.
ghost use Rattle.std.specs.Prelude.{◌≡◌, ◌≤◌, length, take};
ghost use Rattle.std.specs.List.{position_or_len, prefix_len};
ghost use Rattle.px_log_lines.specs.Lines.{Keeps, is_line_end, asked_line, shown_line};
ghost use Rattle.px_log_lines.specs.declared.requests.TheConstants.{REQUEST_SHOWN};

use crate::escapes::push_escaped;
use crate::texts::LineText;

/// The most bytes that are shown of a request line, so that what stands behind it has room in a line.
pub const REQUEST_SHOWN: usize = 900;

/// The first line of a head that isn't empty, without its end (RFC 9112, section 2.2).
#[tactic(auto, unfolding(crate::specs::Lines::asked_line))]
pub(crate) fn asked_line(head: &[u8]) -> &[u8]
    ensures { result.now ≡ asked_line head.now }
{
    let rest = &head[line_begin(head)..];
    &rest[..line_end(rest)]
}

/// Adds the front of a request line, or `-` where there is none.
#[tactic(auto, unfolding(crate::specs::Lines::shown_line))]
pub(crate) fn push_line(line: &[u8], out: &mut LineText)
    ensures { Keeps out.old out.new (shown_line line.now) }
{
    if line.is_empty() {
        out.push(b"-");
    } else {
        push_escaped(shown_front(line), out);
    }
}

/// The bytes of a request line that are shown.
fn shown_front(line: &[u8]) -> &[u8]
    ensures { result.now ≡ take REQUEST_SHOWN line.now }
{
    &line[..REQUEST_SHOWN.min(line.len())]
}

fn is_line_end(byte: u8) -> bool
    ensures { result ≡ is_line_end byte }
{
    byte == b'\r' || byte == b'\n'
}

/// With how many CR and LF the bytes begin.
fn line_begin(bytes: &[u8]) -> usize
    ensures begin { result ≡ prefix_len is_line_end bytes.now }
    ensures within { result ≤ length bytes.now }
{
    for (at, byte) in bytes.iter().enumerate() {
        if !is_line_end(*byte) {
            return at;
        }
    }
    bytes.len()
}

/// Where the first CR or LF stands, or where the bytes end.
fn line_end(bytes: &[u8]) -> usize
    ensures end { result ≡ position_or_len is_line_end bytes.now }
    ensures within { result ≤ length bytes.now }
{
    for (at, byte) in bytes.iter().enumerate() {
        if is_line_end(*byte) {
            return at;
        }
    }
    bytes.len()
}
