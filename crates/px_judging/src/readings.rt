// What the bytes read as that were seen where a request begins.
ghost use Rattle.std.specs.Prelude.{IfOk};
ghost use Rattle.px_judging.specs.Readings.{ReadsAs, BlockReads, HeadReads};

use crate::targets::{read_body, read_target};
use px_base::{Mem, Text};
use px_framing::{BodyFault, BodyRule};
use px_head::{HeadFault, RequestHead};
use px_patterns::{Url, UrlFault};
use std::alloc::Global;

/// What was seen where a request begins.
#[derive(Drop)]
pub enum HeadSeen {
    /// A head block.
    Block(Text),
    /// No block within the limit.
    Over,
}

/// What the bytes that were seen read as.
#[derive(Drop)]
pub enum HeadReading {
    /// No block within the limit.
    Overlong,
    /// A block that isn't one whole head.
    Malformed,
    /// A head of too many fields.
    TooManyFields,
    /// A head whose target is refused.
    NoTarget {
        head: RequestHead,
        fault: UrlFault,
    },
    /// A head, the URL that it asks for, and by which rule its body is read.
    Request {
        head: RequestHead,
        url: Url,
        rule: Result<BodyRule, BodyFault>,
    },
}

/// Reads what was seen.
pub fn read_request(alloc: Global, seen: &HeadSeen) -> Result<HeadReading, Mem>
    ensures { IfOk result (ReadsAs seen.now) }
{
    match seen {
        HeadSeen::Block(block) => read_block(alloc, block.as_bytes()),
        HeadSeen::Over => Ok(HeadReading::Overlong),
    }
}

fn read_block(alloc: Global, block: &[u8]) -> Result<HeadReading, Mem>
    ensures { IfOk result (BlockReads block.now) }
{
    match RequestHead::read(alloc, block) {
        Ok(head) => read_head(alloc, head),
        Err(HeadFault::Malformed) => Ok(HeadReading::Malformed),
        Err(HeadFault::TooManyFields) => Ok(HeadReading::TooManyFields),
        Err(HeadFault::Mem) => Err(Mem),
    }
}

/// Reads the target of a head, and the rule of its body.
fn read_head(alloc: Global, head: RequestHead) -> Result<HeadReading, Mem>
    ensures { IfOk result (HeadReads head) }
{
    match read_target(alloc, &head)? {
        Ok(url) => {
            let rule = read_body(&head);
            Ok(HeadReading::Request { head, url, rule })
        }
        Err(fault) => Ok(HeadReading::NoTarget { head, fault }),
    }
}
