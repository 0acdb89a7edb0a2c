// The printed form of a head.
ghost use Rattle.std.specs.Prelude.{◌≡◌, ◌-◌, ◌^◌, ◌++◌, length, min, OnOk, OnErr};
ghost use mathlib.Core.List.{IsPrefix};
ghost use Rattle.px_fields.specs.FieldLines.{field_line};
ghost use Rattle.px_head.specs.Prints.{field_lines, printed_head, reason_part, status_text, version_text};

use itoa::Buffer;
use px_base::{Mem, Text};
use px_fields::{FIELD_SEPARATOR, Field, push_field};

/// What ends a printed line, and is the empty line at the end of a head.
const LINE_END: &[u8] = b"\r\n";

/// Adds a head to `out`: the first line, the fields' lines and the empty line, each ended by CR LF (RFC 9112, section 2.1).
/// It takes its room first, in one allocation at most. After `Mem`, `out` is as it was.
pub fn print_head(first_line: &[u8], fields: &[Field], out: &mut Text) -> Result<(), Mem>
    ensures ok { OnOk result (out.new ≡ out.old ++ printed_head first_line.now fields.now) }
    ensures err { OnErr result (out.new ≡ out.old) }
{
    let len = out.len();
    out.reserve(printed_len(first_line, fields))?;
    match push_head(out, first_line, fields) {
        Ok(()) => Ok(()),
        Err(Mem) => {
            out.truncate(len);
            Err(Mem)
        }
    }
}

/// The length of a printed head, or the greatest number that there is.
#[tactic(auto, unfolding(crate::specs::Prints::printed_head))]
fn printed_len(first_line: &[u8], fields: &[Field]) -> usize
    ensures { result ≡ min (length (printed_head first_line.now fields.now)) (2 ^ 64 - 1) }
{
    let mut len = first_line.len() + 2 * LINE_END.len();
    for field in fields {
        len = len
            .saturating_add(field.name.len())
            .saturating_add(FIELD_SEPARATOR.len())
            .saturating_add(field.value.len())
            .saturating_add(LINE_END.len());
    }
    len
}

#[tactic(auto, unfolding(crate::specs::Prints::printed_head))]
fn push_head(out: &mut Text, first_line: &[u8], fields: &[Field]) -> Result<(), Mem>
    ensures ok { OnOk result (out.new ≡ out.old ++ printed_head first_line.now fields.now) }
    ensures err { OnErr result (IsPrefix out.old out.new) }
{
    out.push_all(first_line)?;
    out.push_all(LINE_END)?;
    push_fields(out, fields)?;
    out.push_all(LINE_END)
}

/// Adds the fields' lines, each with its end.
#[tactic(auto, unfolding(crate::specs::Prints::field_lines))]
fn push_fields(out: &mut Text, fields: &[Field]) -> Result<(), Mem>
    ensures ok { OnOk result (out.new ≡ out.old ++ field_lines fields.now) }
    ensures err { OnErr result (IsPrefix out.old out.new) }
{
    for field in fields {
        push_field(out, field)?;
        out.push_all(LINE_END)?;
    }
    Ok(())
}

/// Adds the version HTTP/1 with that minor number.
pub fn push_version(out: &mut Text, minor: u8) -> Result<(), Mem>
    ensures { OnOk result (out.new ≡ out.old ++ version_text minor) }
{
    out.push_all(b"HTTP/1.")?;
    out.push_all(Buffer::new().format(minor).as_bytes())
}

/// Adds the status in at least three digits.
#[tactic(auto, unfolding(crate::specs::Prints::status_text))]
pub fn push_status(out: &mut Text, status: u16) -> Result<(), Mem>
    ensures { OnOk result (out.new ≡ out.old ++ status_text status) }
{
    let mut buffer = Buffer::new();
    let digits = buffer.format(status).as_bytes();
    let zeros = 3usize.saturating_sub(digits.len());
    out.push_all(&b"000"[..zeros])?;
    out.push_all(digits)
}

/// Adds a space and the reason, and nothing where the reason is empty.
pub fn push_reason(out: &mut Text, reason: &[u8]) -> Result<(), Mem>
    ensures { OnOk result (out.new ≡ out.old ++ reason_part reason.now) }
{
    if reason.is_empty() {
        return Ok(());
    }
    out.push(b' ')?;
    out.push_all(reason)
}
