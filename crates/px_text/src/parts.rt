// One physical line of a file: where it ends, and what it adds to its joined line.
ghost use Rattle.std.specs.Prelude.{◌≡◌, ◌++◌, ◌∷◌, ◌<◌, length, OnOk};
ghost use Rattle.std.specs.Str.Lines.{lines, strip_carriage_return};
ghost use Rattle.px_text.specs.Lines.{is_continued, uncommented, unescaped_line, without_continuation, without_mark};

use crate::{BACKSLASH, BYTE_ORDER_MARK, CARRIAGE_RETURN, HASH, LINE_FEED};
use memchr::memchr;
use px_base::{Mem, Text};

/// The bytes behind the byte order mark, where they begin with one.
pub fn without_mark(text: &[u8]) -> &[u8]
    ensures { result.now ≡ without_mark text.now }
{
    if text.starts_with(&BYTE_ORDER_MARK) {
        &text[BYTE_ORDER_MARK.len()..]
    } else {
        text
    }
}

/// The first line, without its LF or CRLF, and what follows it.
pub fn split_line(text: &[u8]) -> (&[u8], &[u8])
    requires { 0 < length text.now }
    ensures split { lines text.now ≡ result.0.now ∷ lines result.1.now }
    ensures shorter { length result.1.now < length text.now }
{
    match memchr(LINE_FEED, text) {
        None => (text, &text[text.len()..]),
        Some(at) => (without_return(&text[..at]), &text[at + 1..]),
    }
}

/// The line without a carriage return at its end.
fn without_return(line: &[u8]) -> &[u8]
    ensures { result.now ≡ strip_carriage_return line.now }
{
    if line.ends_with(&[CARRIAGE_RETURN]) {
        &line[..line.len() - 1]
    } else {
        line
    }
}

/// The line without the backslash at its end, and whether there was one: then the next line continues it.
pub fn split_continuation(line: &[u8]) -> (&[u8], bool)
    ensures line { result.0.now ≡ without_continuation line.now }
    ensures continued { result.1 ≡ is_continued line.now }
{
    if line.ends_with(&[BACKSLASH]) {
        (&line[..line.len() - 1], true)
    } else {
        (line, false)
    }
}

/// Adds to the joined line what a physical line holds: its bytes up to a comment, with each `\#` as `#`.
pub fn push_part(line: &[u8], joined: &mut Text) -> Result<(), Mem>
    ensures { OnOk result (joined.new ≡ joined.old ++ unescaped_line (uncommented 0 line.now)) }
{
    let mut rest = line;
    while let Some(at) = memchr(HASH, rest) {
        let (front, after) = rest.split_at(at);
        if at == 0 || rest[at - 1] != BACKSLASH {
            joined.push_all(front)?;
            return Ok(());
        }
        joined.push_all(&rest[..at - 1])?;
        joined.push(HASH)?;
        rest = &after[1..];
    }
    joined.push_all(rest)?;
    Ok(())
}
