// Reads the heads of an answer: the interim ones, and its own.
ghost use Rattle.std.specs.Prelude.{◌≡◌, ◌&&◌, ◌==◌, ℕ, List, [], length, IfOk};
ghost use Rattle.px_head.specs.Searches.{BeginsSearched, Searched};
ghost use Rattle.px_pumps.specs.Answering.{Seen, seen_final};
ghost use Rattle.px_pumps.specs.Heads.{BlockShows, EndsBehind, IsFinalRead, ReadsHead, ReadsHeads, seen_of};

use px_base::Mem;
use px_framing::{BodyRule, response_body};
use px_head::{HEAD_LIMIT, HeadEnd, HeadFault, HeadSearch, ResponseHead, is_interim};
use std::alloc::Global;

/// What the bytes of an answer show of the head at their front.
#[derive(Drop)]
pub enum HeadRead {
    /// It isn't whole.
    NotYet,
    /// No answer that has it is returned.
    Refused,
    /// It is an interim one, of so many bytes.
    Interim {
        count: usize,
    },
    /// It is the answer's own, with its body's rule, of so many bytes.
    Final {
        head: ResponseHead,
        rule: BodyRule,
        count: usize,
    },
}

/// What the bytes of an answer show of its heads.
#[derive(Drop)]
pub enum HeadsRead {
    /// A head isn't whole. It begins behind so many bytes, and was searched so far; with it at most `left` heads are read.
    Waiting {
        left: u8,
        from: usize,
        search: HeadSearch,
    },
    /// No answer that begins so is returned.
    Refused,
    /// The answer's own head is whole, and its body begins behind so many bytes.
    Final {
        head: ResponseHead,
        rule: BodyRule,
        from: usize,
    },
}

/// What a head is that isn't an interim one.
#[tactic(auto, unfolding(crate::specs::Answering::seen_final))]
fn read_final(method: &[u8], head: ResponseHead, count: usize) -> HeadRead
    ensures seen { (rest : List ℕ) → seen_of result rest ≡ seen_final method.now head rest }
    ensures kind { IsFinalRead result }
    ensures count { EndsBehind count result }
{
    if head.status == 101 {
        return HeadRead::Refused;
    }
    match response_body(&head, method) {
        Ok(rule) => HeadRead::Final { head, rule, count },
        Err(_) => HeadRead::Refused,
    }
}

/// Reads a whole block.
fn read_block(alloc: Global, method: &[u8], block: &[u8]) -> Result<HeadRead, Mem>
    ensures shows { IfOk result (λ read. BlockShows method.now block.now read) }
    ensures count { IfOk result (λ read. EndsBehind (length block.now) read) }
{
    match ResponseHead::read(alloc, block) {
        Ok(head) => {
            if is_interim(head.status) {
                Ok(HeadRead::Interim { count: block.len() })
            } else {
                Ok(read_final(method, head, block.len()))
            }
        }
        Err(HeadFault::Malformed) => Ok(HeadRead::Refused),
        Err(HeadFault::TooManyFields) => Ok(HeadRead::Refused),
        Err(HeadFault::Mem) => Err(Mem),
    }
}

/// Reads the head at the front of bytes, which begin with those that were searched. Behind a whole head the search begins anew.
fn read_head(
    alloc: Global,
    method: &[u8],
    bytes: &[u8],
    search: &mut HeadSearch,
) -> Result<HeadRead, Mem>
    requires { BeginsSearched HEAD_LIMIT bytes.now search.old }
    ensures read { IfOk result (λ read. ReadsHead method.now bytes.now read) }
    ensures searched { IfOk result (λ read. read ≡ HeadRead.NotYet → Searched HEAD_LIMIT bytes.now search.new) }
    ensures anew { IfOk result (λ read. (count : ℕ) → read ≡ HeadRead.Interim count → (limit : ℕ) → Searched limit [] search.new) }
{
    match search.go_on(bytes, HEAD_LIMIT) {
        HeadEnd::NotYet => Ok(HeadRead::NotYet),
        HeadEnd::Over => Ok(HeadRead::Refused),
        HeadEnd::At(count) => {
            let read = read_block(alloc, method, &bytes[..count])?;
            Ok(read)
        }
    }
}

/// Reads the heads at the front of an answer's bytes, which begin with those that were searched: at most `left` of them, of
/// which all but the last may be interim ones.
pub fn read_heads(
    alloc: Global,
    method: &[u8],
    left: u8,
    bytes: &[u8],
    search: HeadSearch,
) -> Result<HeadsRead, Mem>
    requires { BeginsSearched HEAD_LIMIT bytes.now search }
    ensures { IfOk result (ReadsHeads left method.now bytes.now) }
{
    let mut left = left;
    let mut from = 0;
    let mut search = search;
    'heads: while left > 0 {
        match read_head(alloc, method, &bytes[from..], &mut search)? {
            HeadRead::NotYet => return Ok(HeadsRead::Waiting { left, from, search }),
            HeadRead::Refused => return Ok(HeadsRead::Refused),
            HeadRead::Interim { count } => {
                from += count;
                left -= 1;
            }
            HeadRead::Final { head, rule, count } => {
                return Ok(HeadsRead::Final {
                    head,
                    rule,
                    from: from + count,
                });
            }
        }
    }
    Ok(HeadsRead::Refused)
}
