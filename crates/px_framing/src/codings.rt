// The codings of a head's Transfer-Encoding fields.
ghost use Rattle.std.specs.Prelude.{◌≡◌, ◌++◌, [], if◌then◌else◌, OnOk, IfOk};
ghost use Rattle.px_fields.specs.Names.{has_name as has_name_spec};
ghost use Rattle.px_framing.specs.Rules.{are_chunked, codings_name, codings_of, items_of};

use crate::rules::read_codings;
use px_base::{List, Mem, Text, cut, trim};
use px_fields::{Field, has_name};
use std::alloc::Global;

/// Whether the codings of all Transfer-Encoding fields are `chunked` alone, without case (RFC 9112, section 6.1). It takes no
/// memory.
pub fn is_chunked_alone(fields: &[Field]) -> bool
    ensures { result ≡ are_chunked (codings_of fields.now) }
{
    read_codings(fields).alone
}

/// The codings of all Transfer-Encoding fields as received, in order. Empty items of a list are left out (RFC 9110, section
/// 5.6.1).
pub fn codings(alloc: Global, fields: &[Field]) -> Result<List<Text>, Mem>
    ensures { IfOk result (λ items. items ≡ codings_of fields.now) }
{
    let mut items = List::new(alloc);
    for field in fields {
        add_codings(alloc, field, &mut items)?;
    }
    Ok(items)
}

/// Adds the codings of a field, if it is a Transfer-Encoding field.
fn add_codings(alloc: Global, field: &Field, items: &mut List<Text>) -> Result<(), Mem>
    ensures { OnOk result (items.new ≡ items.old ++ (if has_name_spec codings_name field.now then items_of field.now.value else [])) }
{
    if has_name(field, b"Transfer-Encoding") {
        add_items(alloc, field.value.as_bytes(), items)
    } else {
        Ok(())
    }
}

/// Adds the items of a list between commas.
fn add_items(alloc: Global, value: &[u8], items: &mut List<Text>) -> Result<(), Mem>
    ensures { OnOk result (items.new ≡ items.old ++ items_of value.now) }
{
    let mut rest = Some(value);
    'items: while let Some(bytes) = rest {
        let (first, more) = cut(bytes, b',');
        let item = trim(first);
        if !item.is_empty() {
            items.add(Text::from_bytes(alloc, item)?)?;
        }
        rest = more;
    }
    Ok(())
}
