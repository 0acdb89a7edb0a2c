// The head of an answer that is returned: the status line, the fields behind the header actions, those that frame the body, and
// Connection. No field is copied.
ghost use Rattle.std.specs.Prelude.{◌≡◌, ◌++◌, ◌∷◌, [], OnOk, OnErr, length};
ghost use Rattle.px_fields.specs.FieldLines.{field_line};
ghost use Rattle.px_head.specs.Prints.{crlf, field_lines};
ghost use Rattle.px_framing.specs.Reading.{added};
ghost use Rattle.px_answers.specs.Forms.{connection_field, ends_by, has_end, head_with, keeps_behind_answer, length_field, passed_head};
ghost use Rattle.px_answers.specs.Heads.{head_front};

use crate::forms::{Form, Framed};
use itoa::Buffer;
use px_base::{Mem, Text};
use px_fields::Field;
use px_framing::BodyRule;
use px_head::print_head;

/// What ends a printed line, and is the empty line at the end of a head.
const LINE_END: &[u8] = b"\r\n";

fn ends_by(form: Form, rule: BodyRule) -> bool
    ensures { result ≡ ends_by form rule }
{
    match form {
        Form::Plain => false,
        Form::Raw => match rule {
            BodyRule::Absent => true,
            BodyRule::Length(_) => true,
            BodyRule::Chunked => true,
            BodyRule::ToClose => false,
        },
    }
}

/// Whether the connection is kept behind an unfiltered body that is whole.
pub fn keeps(framed: &Framed) -> bool
    ensures { result ≡ keeps_behind_answer framed.now }
{
    framed.keep && ends_by(framed.form, framed.rule)
}

/// Adds the head of an unfiltered body.
pub fn push_passed_head(framed: &Framed, out: &mut Text) -> Result<(), Mem>
    ensures pushed { OnOk result (out.new ≡ out.old ++ passed_head framed.now) }
    ensures kept { OnErr result (out.new ≡ out.old ++ added out.old out.new) }
{
    push_front(framed, out)?;
    push_fields(framed.framing.as_slice(), out)?;
    push_end(keeps(framed), out)
}

/// Adds the head of a filtered body of so many bytes.
pub fn push_filtered_head(framed: &Framed, len: usize, out: &mut Text) -> Result<(), Mem>
    ensures pushed { OnOk result (out.new ≡ out.old ++ head_with framed.now (length_field len ∷ []) framed.now.keep) }
    ensures kept { OnErr result (out.new ≡ out.old ++ added out.old out.new) }
{
    push_front(framed, out)?;
    push_line(b"Content-Length", Buffer::new().format(len).as_bytes(), out)?;
    push_end(framed.keep, out)
}

/// Adds a head without its end, so that further fields may follow.
fn push_front(framed: &Framed, out: &mut Text) -> Result<(), Mem>
    ensures pushed { OnOk result (out.new ≡ out.old ++ head_front framed.now) }
    ensures kept { OnErr result (out.new ≡ out.old ++ added out.old out.new) }
{
    print_head(framed.first_line.as_bytes(), framed.fields.as_slice(), out)?;
    let len = out.len().saturating_sub(LINE_END.len());
    out.truncate(len);
    Ok(())
}

/// Adds whether the connection is kept (RFC 9112, section 9.3), and the end of the head.
fn push_end(keep: bool, out: &mut Text) -> Result<(), Mem>
    ensures pushed { OnOk result (out.new ≡ out.old ++ field_line (connection_field keep) ++ crlf ++ crlf) }
    ensures kept { OnErr result (out.new ≡ out.old ++ added out.old out.new) }
{
    if keep {
        push_line(b"Connection", b"keep-alive", out)?;
    } else {
        push_line(b"Connection", b"close", out)?;
    }
    out.push_all(LINE_END)
}

/// Adds the lines of fields, each with its end.
#[tactic(auto, unfolding(px_head::specs::Prints::field_lines))]
fn push_fields(fields: &[Field], out: &mut Text) -> Result<(), Mem>
    ensures pushed { OnOk result (out.new ≡ out.old ++ field_lines fields.now) }
    ensures kept { OnErr result (out.new ≡ out.old ++ added out.old out.new) }
{
    for field in fields {
        push_line(field.name.as_bytes(), field.value.as_bytes(), out)?;
    }
    Ok(())
}

/// Adds the line of a field, with its end.
fn push_line(name: &[u8], value: &[u8], out: &mut Text) -> Result<(), Mem>
    ensures pushed { OnOk result (out.new ≡ out.old ++ field_line (record { name = name.now; value = value.now }) ++ crlf) }
    ensures kept { OnErr result (out.new ≡ out.old ++ added out.old out.new) }
{
    out.push_all(name)?;
    out.push_all(b": ")?;
    out.push_all(value)?;
    out.push_all(LINE_END)
}
