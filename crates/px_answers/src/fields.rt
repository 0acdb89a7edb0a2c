// Fields that are added to a head.
ghost use Rattle.std.specs.Prelude.{◌≡◌, ◌∷◌, [], ◌++◌, IfOk, OnOk};
ghost use Rattle.std.specs.Fmt.{decimal};
ghost use Rattle.px_answers.specs.Forms.{length_field};

use itoa::Buffer;
use px_base::{List, Mem, Text};
use px_fields::Field;
use std::alloc::Global;

/// Adds a field of that name and value at the end.
pub fn push_field(
    alloc: Global,
    fields: &mut List<Field>,
    name: &[u8],
    value: Text,
) -> Result<(), Mem>
    ensures { OnOk result (fields.new ≡ fields.old ++ record { name = name.now; value = value } ∷ []) }
{
    fields.add(Field {
        name: Text::from_bytes(alloc, name)?,
        value,
    })
}

/// Adds the length of a body (RFC 9110, section 8.6).
pub fn push_length(alloc: Global, fields: &mut List<Field>, len: u64) -> Result<(), Mem>
    ensures { OnOk result (fields.new ≡ fields.old ++ length_field len ∷ []) }
{
    let digits = digits(alloc, len)?;
    push_field(alloc, fields, b"Content-Length", digits)
}

/// The number in decimal digits.
fn digits(alloc: Global, number: u64) -> Result<Text, Mem>
    ensures { IfOk result (λ text. text ≡ decimal number) }
{
    let mut buffer = Buffer::new();
    Text::from_bytes(alloc, buffer.format(number).as_bytes())
}
