// A job's text is cut at its delimiters.
ghost use Rattle.std.specs.Prelude.{◌≡◌, ◌++◌, ◌∷◌, [], ◌<◌, false, length, IfOk, IfSome, OnOk, if◌then◌else◌, ◌==◌};
ghost use Rattle.px_subst.specs.Fields.{is_delimiter, field_end, unescaped_field, backslash};

use std::alloc::{AllocError, Global};

const BACKSLASH: u8 = b'\\';

/// Whether the byte may be a job's delimiter.
pub(crate) fn is_delimiter(byte: u8) -> bool
    ensures { result ≡ is_delimiter byte }
{
    byte.is_ascii()
        && !(byte.is_ascii_alphanumeric() || (byte == b' ' || (byte == b'\t' || byte == BACKSLASH)))
}

/// Where the field ends with which the text begins.
pub(crate) fn field_end(delimiter: u8, text: &[u8]) -> Option<usize>
    ensures end { result ≡ field_end delimiter false text.now }
    ensures within { IfSome result (λ end. end < length text.now) }
{
    let mut taken = false;
    for (at, byte) in text.iter().enumerate() {
        if taken {
            taken = false;
        } else if *byte == delimiter {
            return Some(at);
        } else {
            taken = *byte == BACKSLASH;
        }
    }
    None
}

/// Adds a byte that a backslash takes along.
fn push_taken(field: &mut Vec<u8>, delimiter: u8, byte: u8) -> Result<(), AllocError>
    ensures { OnOk result (field.new.items
        ≡ field.old.items ++ (if byte == delimiter then byte ∷ [] else backslash ∷ byte ∷ [])) }
{
    if byte != delimiter {
        field.push(BACKSLASH)?;
    }
    field.push(byte)?;
    Ok(())
}

/// What the bytes of a field stand for.
pub(crate) fn unescaped(alloc: Global, delimiter: u8, raw: &[u8]) -> Result<Vec<u8>, AllocError>
    ensures { IfOk result (λ field. field.items ≡ unescaped_field delimiter false raw.now) }
{
    let mut field = Vec::with_capacity(alloc, raw.len())?;
    let mut taken = false;
    for byte in raw {
        if taken {
            push_taken(&mut field, delimiter, *byte)?;
            taken = false;
        } else if *byte == BACKSLASH {
            taken = true;
        } else {
            field.push(*byte)?;
        }
    }
    Ok(field)
}
