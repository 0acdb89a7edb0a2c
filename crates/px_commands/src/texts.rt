// Words as texts.
ghost use Rattle.std.specs.Prelude.{◌≡◌, IfOk, map, string_bytes};

use px_base::{List, Mem, Text};
use std::alloc::Global;

/// The client's tags as texts.
pub fn tag_texts(alloc: Global, words: &[String]) -> Result<List<Text>, Mem>
    ensures { IfOk result (λ tags. tags ≡ map string_bytes words.now) }
{
    let mut tags = Vec::new(alloc);
    'words: for word in words {
        tags.push(Text::from_bytes(alloc, word.as_bytes())?)?;
    }
    Ok(List::from_vec(tags))
}
