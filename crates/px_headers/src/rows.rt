// What header actions do to the fields of a head.
ghost use Rattle.std.specs.Prelude.{◌≡◌, ◌++◌, ◌∷◌, [], IfOk, OnOk};
ghost use Rattle.px_fields.specs.FieldLines.{field_line};
ghost use Rattle.px_headers.specs.Rows.{holds_word, with_more, with_value, without_field, without_holding};

use memchr::memmem::Finder;
use px_base::{List, Mem, Text};
use px_fields::{Field, has_field, has_name};
use std::alloc::Global;

/// What stands between a field's name and its value.
const FIELD_SEPARATOR: &[u8] = b": ";

/// Without the fields of that name.
#[tactic(auto, unfolding(crate::specs::Rows::without_field))]
pub(crate) fn without(fields: List<Field>, name: &[u8]) -> List<Field>
    ensures { result ≡ without_field name.now fields }
{
    let mut kept = fields.into_vec();
    kept.retain(|field| !has_name(field, name));
    List::from_vec(kept)
}

/// The fields of that name with this value; none is added. Where there is none, nothing is moved.
#[tactic(auto, using(crate::proofs::RowLemmas::with_values_none), unfolding(crate::specs::Rows::with_value))]
pub(crate) fn with_value(
    alloc: Global,
    fields: List<Field>,
    name: &[u8],
    value: &[u8],
) -> Result<List<Field>, Mem>
    ensures { IfOk result (λ changed. changed ≡ with_value name.now value.now fields) }
{
    if !has_field(fields.as_slice(), name) {
        return Ok(fields);
    }
    let mut changed = List::with_capacity(alloc, fields.len())?;
    let mut rest = fields.into_vec().into_iter();
    'fields: while let Some(mut field) = rest.next() {
        if has_name(&field, name) {
            field.value = Text::from_bytes(alloc, value)?;
        }
        changed.add(field)?;
    }
    Ok(changed)
}

/// Writes the field's line in the place of what stands in a text.
pub(crate) fn write_line(line: &mut Text, field: &Field) -> Result<(), Mem>
    ensures { OnOk result (line.new ≡ field_line field.now) }
{
    line.clear();
    line.push_all(field.name.as_bytes())?;
    line.push_all(FIELD_SEPARATOR)?;
    line.push_all(field.value.as_bytes())
}

/// Whether the word stands in the text, with case.
fn holds(word: &Finder<'_>, text: &[u8]) -> bool
    ensures { result ≡ holds_word word.now text.now }
{
    word.find(text).is_some()
}

/// Without the fields whose printed line holds the word, with case.
#[tactic(auto, unfolding(crate::specs::Rows::without_holding))]
pub(crate) fn without_holding(
    alloc: Global,
    fields: List<Field>,
    word: &[u8],
) -> Result<List<Field>, Mem>
    ensures { IfOk result (λ kept. kept ≡ without_holding word.now fields) }
{
    let word = Finder::new(word);
    let mut line = Text::new(alloc);
    let mut kept = List::with_capacity(alloc, fields.len())?;
    let mut rest = fields.into_vec().into_iter();
    'fields: while let Some(field) = rest.next() {
        write_line(&mut line, &field)?;
        if !holds(&word, line.as_bytes()) {
            kept.add(field)?;
        }
    }
    Ok(kept)
}

/// Puts more behind the value of the first field of that name, or adds such a field at the end.
#[tactic(auto, using(crate::proofs::RowLemmas::with_more_none), unfolding(crate::specs::Rows::with_more))]
pub(crate) fn with_more(
    alloc: Global,
    fields: List<Field>,
    name: &[u8],
    separator: &[u8],
    more: &[u8],
) -> Result<List<Field>, Mem>
    ensures { IfOk result (λ changed. changed ≡ with_more name.now separator.now more.now fields) }
{
    if !has_field(fields.as_slice(), name) {
        return with_new(alloc, fields, name, more);
    }
    let mut found = false;
    let mut changed = List::with_capacity(alloc, fields.len())?;
    let mut rest = fields.into_vec().into_iter();
    'fields: while let Some(mut field) = rest.next() {
        if !found && has_name(&field, name) {
            field.value.push_all(separator)?;
            field.value.push_all(more)?;
            found = true;
        }
        changed.add(field)?;
    }
    Ok(changed)
}

/// The fields with one of that name and value at the end.
fn with_new(
    alloc: Global,
    fields: List<Field>,
    name: &[u8],
    value: &[u8],
) -> Result<List<Field>, Mem>
    ensures { IfOk result (λ more. more ≡ fields ++ record { name = name.now; value = value.now } ∷ []) }
{
    let mut more = fields;
    push_field(alloc, &mut more, name, value)?;
    Ok(more)
}

/// Adds a field of that name and value at the end.
pub(crate) fn push_field(
    alloc: Global,
    fields: &mut List<Field>,
    name: &[u8],
    value: &[u8],
) -> Result<(), Mem>
    ensures { OnOk result (fields.new ≡ fields.old ++ record { name = name.now; value = value.now } ∷ []) }
{
    fields.add(Field {
        name: Text::from_bytes(alloc, name)?,
        value: Text::from_bytes(alloc, value)?,
    })
}
