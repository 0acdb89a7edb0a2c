// What stands at the front of a stream.
ghost use Rattle.std.specs.Prelude.{◌≡◌, ◌<◌, ◌≤◌, ◌++◌, [], length, IsTrue, IfOk, IfErr, Err};
ghost use Rattle.px_base.specs.Sources.{SourceGoesOn};
ghost use Rattle.px_head.specs.Blocks.{head_end};
ghost use Rattle.px_streams.specs.Streams.{KeepsBytes, ReadCause, StandsAtFront};

use crate::ahead::{Ahead, ReadFault, fill};
use px_base::{Source, Text};
use px_head::{HeadEnd, HeadSearch};
use std::alloc::Global;

/// What stands at the front of a stream.
#[derive(Drop)]
pub enum StreamFront {
    /// A head block.
    Block(Text),
    /// No block within the limit.
    Over,
    /// The stream ends before a block is whole.
    End,
}

/// Reads on until a head block is whole, and uses it up.
///
/// # Errors
/// `Failed` where a read failed before. Then no head block is whole in the bytes that are read ahead. After an error no byte is lost.
pub fn read_front<S: Source>(
    alloc: Global,
    source: &mut S,
    ahead: &mut Ahead,
    limit: usize,
) -> Result<StreamFront, ReadFault>
    ensures stands { IsTrue (S.state source.old).tells → IfOk result (λ front. StandsAtFront limit (ahead.old ++ (S.state source.old).left) front (ahead.new ++ (S.state source.new).left)) }
    ensures end { IsTrue (S.state source.old).tells → IfOk result (λ front. front ≡ StreamFront.End → (S.state source.new).left ≡ []) }
    ensures failed { result ≡ Err ReadFault.Failed → head_end limit ahead.new ≡ HeadEnd.NotYet }
    ensures bytes { IfErr result (λ _. KeepsBytes (S.state source.old) (S.state source.new) ahead.old ahead.new) }
    ensures cause { ReadCause (S.state source.old) (S.state source.new) result }
    ensures goes_on { SourceGoesOn (S.state source.old) (S.state source.new) }
{
    let mut search = HeadSearch::new();
    'more: loop {
        match search.go_on(ahead.as_bytes(), limit) {
            HeadEnd::At(count) => {
                let block = Text::from_bytes(alloc, &ahead.as_bytes()[..count])?;
                ahead.skip(count);
                return Ok(StreamFront::Block(block));
            }
            HeadEnd::Over => return Ok(StreamFront::Over),
            HeadEnd::NotYet => {
                if !fill(source, ahead)? {
                    return Ok(StreamFront::End);
                }
            }
        }
    }
}
