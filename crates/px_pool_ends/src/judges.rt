// What a response head says of the answer that it begins.
ghost use Rattle.std.specs.Prelude.{◌≤◌, length};
ghost use Rattle.px_pool_ends.specs.Answers.{Judges, JudgedSays};

use px_fields::is_connection_word;
use px_framing::{BodyRule, response_body};
use px_head::{HEAD_LIMIT, HeadFault, ResponseHead, is_interim};
use std::alloc::Global;

/// The status of an answer behind which the link speaks another protocol (RFC 9110, section 15.2.2).
const SWITCHING_PROTOCOLS: u16 = 101;

/// What a block is.
#[derive(Clone, Copy, Debug, PartialEq, Eq)]
pub enum Judged {
    /// A head before the final one.
    Interim,
    /// A final head of HTTP/1.1 after which the link stays one of HTTP, with the rule of its body, which says where the body
    /// ends.
    Final(BodyRule),
    /// Neither.
    Never,
    /// Memory was wanting.
    Lost,
}

/// Judges a block of an answer to any method but HEAD.
pub fn judge(alloc: Global, block: &[u8]) -> Judged
    requires { length block.now ≤ HEAD_LIMIT }
    ensures { Judges block.now result }
{
    match ResponseHead::read(alloc, block) {
        Ok(head) => judge_head(&head),
        Err(HeadFault::Mem) => Judged::Lost,
        Err(HeadFault::Malformed) => Judged::Never,
        Err(HeadFault::TooManyFields) => Judged::Never,
    }
}

fn judge_head(head: &ResponseHead) -> Judged
    ensures { JudgedSays head.now result }
{
    if is_interim(head.status) {
        return Judged::Interim;
    }
    if head.minor != 1 || head.status == SWITCHING_PROTOCOLS {
        return Judged::Never;
    }
    if is_connection_word(b"close", head.fields.as_slice()) {
        return Judged::Never;
    }
    match response_body(head, b"") {
        Ok(BodyRule::ToClose) => Judged::Never,
        Ok(rule) => Judged::Final(rule),
        Err(_) => Judged::Never,
    }
}
