// The bytes of a body, taken from its pieces.
ghost use Rattle.std.specs.Prelude.{◌≡◌, ◌++◌, ◌+◌, length, IfOk, OnOk, OnErr, List, ℕ};
ghost use Rattle.px_framing.specs.Passing.{bytes_left};
ghost use Rattle.px_framing.specs.Reading.{IsSettled, stage_state, added};
ghost use Rattle.px_framing.specs.declared.places.State.TheVariants as state;
ghost use Rattle.px_framing.specs.declared.rules.BodyRule.{BodyRule};
ghost use Rattle.px_answers.specs.Forms.{body_of, formed, state_at_end as stands_spec};
ghost use Rattle.px_answers.specs.Passages.{AreOwn, AreWholeChunks, Read, TakesOn};

use crate::forms::Form;
use px_base::{Mem, Text};
use px_framing::{BodyReader, BodyRule, State, body_is_read, data_of_whole};
use std::alloc::Global;

/// Takes the next piece of a body, and adds what is returned of it in that form.
pub fn take(form: Form, reader: &mut BodyReader, piece: &[u8], out: &mut Text) -> Result<(), Mem>
    ensures takes { OnOk result (TakesOn form reader.old piece.now (added out.old out.new) reader.new) }
    ensures grows { OnOk result (out.new ≡ out.old ++ added out.old out.new) }
    ensures kept { OnErr result (out.new ≡ out.old ++ added out.old out.new) }
    ensures left { OnOk result (stage_state reader.new.stage ≡ state.More → bytes_left reader.new.stage + length piece.now ≡ bytes_left reader.old.stage) }
{
    match form {
        Form::Raw => {
            let passed = reader.pass(piece, out)?;
            out.push_all(&piece[..passed.whole])
        }
        Form::Plain => {
            reader.decode(piece, out)?;
            Ok(())
        }
    }
}

/// Adds what is returned in that form of the raw bytes of a body.
pub fn push_formed(
    alloc: Global,
    form: Form,
    rule: BodyRule,
    raw: &[u8],
    out: &mut Text,
) -> Result<(), Mem>
    ensures pushed { OnOk result (out.new ≡ out.old ++ formed form raw.now (body_of rule raw.now).plain) }
    ensures kept { OnErr result (out.new ≡ out.old ++ added out.old out.new) }
{
    match form {
        Form::Raw => out.push_all(raw),
        Form::Plain => {
            let mut reader = BodyReader::new(alloc, rule);
            reader.decode(raw, out)?;
            Ok(())
        }
    }
}

/// The data of a whole body, in the memory of its raw bytes where they have some.
pub fn data_of(rule: BodyRule, raw: Text) -> Result<Text, Mem>
    requires own { AreOwn rule raw }
    requires whole { AreWholeChunks rule raw }
    ensures { IfOk result (λ plain. plain ≡ (body_of rule raw).plain) }
{
    match rule {
        BodyRule::Absent => Ok(raw),
        BodyRule::Length(_) => Ok(raw),
        BodyRule::Chunked => {
            body_is_read();
            data_of_whole(raw)
        }
        BodyRule::ToClose => Ok(raw),
    }
}

/// How a body stands where no more bytes come. `failed` says that their reading failed.
pub fn stands(reader: BodyReader, failed: bool) -> State
    ensures settled { IsSettled reader }
    ensures state { (r : BodyRule) (rest raw plain : List ℕ) → Read r rest raw plain reader → result ≡ stands_spec r failed (stage_state reader.stage) }
{
    let mut reader = reader;
    if failed {
        match reader.state() {
            State::More => State::Cut,
            state => state,
        }
    } else {
        reader.end()
    }
}
