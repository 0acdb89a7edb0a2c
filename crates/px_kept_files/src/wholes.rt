// Reading a file to its end.
ghost use Rattle.std.specs.Prelude.{◌≡◌, ◌<◌, ◌^◌, ◌-◌, IfOk, IfSome, Some};
ghost use Rattle.px_base.specs.Contents.{FitsLimit, content_of};

use px_base::{Content, Text};
use std::alloc::Global;
use std::io::{ErrorKind, Read};

/// Why a file wasn't read to its end.
pub(crate) enum ReadFault {
    Io,
    Mem,
}

/// Reads to the end, or until more than `limit` bytes came.
#[tactic(auto, using(crate::proofs::WholeLemmas::front_is_enough))]
pub(crate) fn read_whole<F: Read>(
    alloc: Global,
    file: &mut F,
    limit: u64,
) -> Result<Content, ReadFault>
    ensures fits { IfOk result (FitsLimit limit) }
    ensures content { limit < 2 ^ 64 - 1 → IfSome (F.remaining file.old) (λ bytes. IfOk result (λ c. c ≡ content_of limit (Some bytes))) }
{
    let mut bytes = Vec::new(alloc);
    if let Err(error) = file.take(limit.saturating_add(1)).read_to_end(&mut bytes) {
        return match error.kind() {
            ErrorKind::OutOfMemory => Err(ReadFault::Mem),
            _ => Err(ReadFault::Io),
        };
    }
    Ok(content_within(bytes, limit))
}

/// The content that is so many bytes.
fn content_within(bytes: Vec<u8>, limit: u64) -> Content
    ensures { result ≡ content_of limit (Some bytes.items) }
{
    if bytes.len() as u64 > limit {
        Content::Over
    } else {
        Content::Found(Text::from_vec(bytes))
    }
}
