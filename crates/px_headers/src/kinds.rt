// Which answers are texts.
ghost use Rattle.std.specs.Prelude.{◌≡◌, ◌∷◌, ℕ, List, false, length, take};
ghost use Rattle.std.specs.Str.{str_eq_ignore_ascii_case};
ghost use Rattle.px_headers.specs.Kinds.{holds_without_case, is_text as is_text_spec, is_text_type};

use px_actions::{ActionSet, Kind};
use px_base::same_without_case;
use px_fields::{Field, first_field};

/// Whether a byte may be the first of the word, without case.
fn may_begin(word: &[u8], byte: u8) -> bool
    ensures { result ≡ false → (more : List ℕ) → str_eq_ignore_ascii_case (take (length word.now) (byte ∷ more)) word.now ≡ false }
{
    match word.first() {
        Some(letter) => letter.eq_ignore_ascii_case(&byte),
        None => true,
    }
}

/// Whether the word stands in the text, without case.
#[tactic(auto, unfolding(crate::specs::Kinds::holds_without_case))]
fn holds_without_case(word: &[u8], text: &[u8]) -> bool
    ensures { result ≡ holds_without_case word.now text.now }
{
    let mut rest = text;
    'places: while let Some((first, more)) = rest.split_first() {
        if may_begin(word, *first) {
            let front = &rest[..word.len().min(rest.len())];
            if same_without_case(front, word) {
                return true;
            }
        }
        rest = more;
    }
    false
}

/// Whether a content type is one of a text.
#[tactic(auto, unfolding(crate::specs::Kinds::is_text_type))]
fn is_text_type(value: &[u8]) -> bool
    ensures { result ≡ is_text_type value.now }
{
    (holds_without_case(b"text/", value) && !holds_without_case(b"plain", value))
        || holds_without_case(b"xml", value)
        || holds_without_case(b"script", value)
}

/// Whether an answer with these fields, as received, is a text: its first Content-Type holds `text/` and not `plain`, or `xml`,
/// or `script`, without case; or `force-text-mode` is on. It takes no memory.
#[tactic(auto, unfolding(crate::specs::Kinds::is_text))]
pub fn is_text(fields: &[Field], set: &ActionSet) -> bool
    ensures { result ≡ is_text_spec set.now fields.now }
{
    set.is_on(Kind::ForceTextMode)
        || match first_field(fields, b"Content-Type") {
            Some(field) => is_text_type(field.value.as_bytes()),
            None => false,
        }
}
