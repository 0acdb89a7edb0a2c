// Fields of heads, and their printed lines.
ghost use Rattle.std.specs.Prelude.{◌≡◌, ◌++◌, IfOk, OnErr, OnOk};
ghost use mathlib.Core.List.{IsPrefix};
ghost use Rattle.px_fields.specs.FieldLines.{field_line};

use px_base::{Mem, Text};
use std::alloc::Global;

/// What stands between a field's name and its value.
pub const FIELD_SEPARATOR: &[u8] = b": ";

/// A field of a head: its name, and its value without the white space around it.
#[derive(Drop)]
pub struct Field {
    pub name: Text,
    pub value: Text,
}

impl Field {
    /// The field's line without its end: the name, a colon, a space and the value (RFC 9112, section 5).
    pub fn line(&self, alloc: Global) -> Result<Text, Mem>
        ensures { IfOk result (λ line. line ≡ field_line self.now) }
    {
        let room = self.name.len().saturating_add(self.value.len());
        let mut line = Text::with_capacity(alloc, room.saturating_add(FIELD_SEPARATOR.len()))?;
        push_field(&mut line, self)?;
        Ok(line)
    }
}

/// Adds the field's line without its end. After `Mem`, a front of it may have been added.
pub fn push_field(out: &mut Text, field: &Field) -> Result<(), Mem>
    ensures ok { OnOk result (out.new ≡ out.old ++ field_line field.now) }
    ensures err { OnErr result (IsPrefix out.old out.new) }
{
    out.push_all(field.name.as_bytes())?;
    out.push_all(FIELD_SEPARATOR)?;
    out.push_all(field.value.as_bytes())
}
