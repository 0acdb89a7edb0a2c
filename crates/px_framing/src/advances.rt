// A piece further: what of it is settled, and the stage behind it.
ghost use Rattle.std.specs.Prelude.{◌≡◌, ◌+◌, ◌++◌, [], ◌<◌, ◌≤◌, length, take, drop, min, false, List, ℕ, OnOk, OnErr, IfOk, vec_len, vec_capacity};
ghost use Rattle.px_framing.specs.declared.TheConstants.{LINE_LIMIT};
ghost use Rattle.px_framing.specs.Reading.{IsHeld, IsSettledAt, Room, is_last};
ghost use Rattle.px_framing.specs.Passing.{HasLineRoom, IsDataOf, Passes, settled};

use crate::LINE_LIMIT;
use crate::extracts::keep_whole;
use crate::lines::front;
use crate::passes::pass_piece;
use crate::places::{ChunkPlace, State};
use crate::stages::{Stage, is_ended, stage_before};
use px_base::Mem;

/// How far a piece was passed.
#[derive(Clone, Copy)]
pub struct Far {
    /// How many bytes at its front end with a whole element.
    pub whole: usize,
    /// How many bytes belong to the body, or were looked at as a faulty element.
    pub used: usize,
    pub stage: Stage,
}

/// Adds the bytes, for which there is room.
pub fn append(out: &mut Vec<u8>, bytes: &[u8])
    requires { Room out.old (length bytes.now) }
    ensures items { out.new.items ≡ out.old.items ++ bytes.now }
    ensures len { vec_len out.new ≡ vec_len out.old + length bytes.now }
    ensures capacity { vec_capacity out.old ≤ vec_capacity out.new }
{
    let _added = out.extend_from_slice(bytes);
}

/// Room for the unfinished line that a piece of a chunked body may leave.
pub fn line_room(stage: Stage, kept: &mut Vec<u8>, piece: &[u8]) -> Result<(), Mem>
    requires short { length kept.old.items ≤ LINE_LIMIT }
    ensures same { kept.new.items ≡ kept.old.items }
    ensures room { OnOk result (HasLineRoom stage (length kept.new.items + length piece.now) (vec_capacity kept.new)) }
{
    match stage {
        Stage::Chunks(_, _) => reserve_line(kept, piece.len()),
        Stage::Ended(_) => Ok(()),
        Stage::Bytes(_) => Ok(()),
        Stage::Rest(_) => Ok(()),
    }
}

fn reserve_line(kept: &mut Vec<u8>, len: usize) -> Result<(), Mem>
    requires short { length kept.old.items ≤ LINE_LIMIT }
    ensures same { kept.new.items ≡ kept.old.items }
    ensures room { OnOk result (min LINE_LIMIT (length kept.new.items + len) ≤ vec_capacity kept.new) }
{
    let most = LINE_LIMIT - kept.len();
    if len < most {
        kept.reserve(len)?;
    } else {
        kept.reserve(most)?;
    }
    Ok(())
}

/// Passes the bytes of a piece that belong to the body.
pub fn pass_on(stage: Stage, kept: &mut Vec<u8>, piece: &[u8]) -> Far
    requires settled { IsSettledAt stage kept.old.items }
    requires short { length kept.old.items ≤ LINE_LIMIT }
    requires room { HasLineRoom stage (length kept.old.items + length piece.now) (vec_capacity kept.old) }
    ensures { Passes stage kept.old.items piece.now result kept.new.items }
{
    match stage {
        Stage::Ended(state) => Far {
            whole: 0,
            used: 0,
            stage: Stage::Ended(state),
        },
        Stage::Bytes(left) => pass_bytes(left, piece),
        Stage::Rest(room) => pass_rest(room, piece),
        Stage::Chunks(place, room) => pass_chunks(place, room, kept, piece),
    }
}

/// Passes bytes of a body that has so many more.
fn pass_bytes(left: u64, piece: &[u8]) -> Far
    requires { 0 < left }
    ensures { Passes (Stage.Bytes left) [] piece.now result [] }
{
    if left <= piece.len() as u64 {
        Far {
            whole: left as usize,
            used: left as usize,
            stage: Stage::Ended(State::Whole),
        }
    } else {
        Far {
            whole: piece.len(),
            used: piece.len(),
            stage: Stage::Bytes(left - piece.len() as u64),
        }
    }
}

/// Passes bytes of a body to the close that may take so many more.
fn pass_rest(room: u64, piece: &[u8]) -> Far
    requires { 0 < room }
    ensures { Passes (Stage.Rest room) [] piece.now result [] }
{
    if room <= piece.len() as u64 {
        Far {
            whole: room as usize,
            used: room as usize,
            stage: Stage::Ended(State::Cut),
        }
    } else {
        Far {
            whole: piece.len(),
            used: piece.len(),
            stage: Stage::Rest(room - piece.len() as u64),
        }
    }
}

/// Passes bytes of a chunked body that may take so many more.
fn pass_chunks(place: ChunkPlace, room: u64, kept: &mut Vec<u8>, piece: &[u8]) -> Far
    requires held { IsHeld place kept.old.items }
    requires more { is_last place ≡ false }
    requires some { 0 < room }
    requires room { min LINE_LIMIT (length kept.old.items + length piece.now) ≤ vec_capacity kept.old }
    ensures { Passes (Stage.Chunks place room) kept.old.items piece.now result kept.new.items }
{
    let bytes = front(piece, room);
    let reach = pass_piece(place, kept, bytes);
    let stage = stage_before(reach.next, room - reach.used as u64);
    if is_ended(stage) {
        kept.clear();
    }
    Far {
        whole: reach.whole,
        used: reach.used,
        stage,
    }
}

/// Passes the bytes of a piece, and adds to `out`, which has room for them, those that are settled.
pub fn add_settled(stage: Stage, kept: &mut Vec<u8>, piece: &[u8], out: &mut Vec<u8>) -> Far
    requires settled { IsSettledAt stage kept.old.items }
    requires short { length kept.old.items ≤ LINE_LIMIT }
    requires room { HasLineRoom stage (length kept.old.items + length piece.now) (vec_capacity kept.old) }
    requires out { Room out.old (length kept.old.items + length piece.now) }
    ensures passes { Passes stage kept.old.items piece.now result kept.new.items }
    ensures out { out.new.items ≡ out.old.items ++ settled kept.old.items piece.now result.whole }
{
    let len = out.len();
    append(out, kept.as_slice());
    let far = pass_on(stage, kept, piece);
    settle(out, len, front(piece, far.whole as u64));
    far
}

/// Adds the bytes behind the line that was put behind the first `len` bytes, and drops that line where there are none.
fn settle(out: &mut Vec<u8>, len: usize, bytes: &[u8])
    requires { Room out.old (length bytes.now) }
    ensures none { length bytes.now ≡ 0 → out.new.items ≡ take len out.old.items }
    ensures some { 0 < length bytes.now → out.new.items ≡ out.old.items ++ bytes.now }
{
    if bytes.is_empty() {
        out.truncate(len);
    } else {
        append(out, bytes);
    }
}

/// Keeps of the settled bytes behind the first `from` bytes their data alone.
pub fn keep_data(stage: Stage, out: &mut Vec<u8>, from: usize)
    requires { from ≤ vec_len out.old }
    ensures { (data_bytes : List ℕ) → IsDataOf stage (drop from out.old.items) data_bytes → out.new.items ≡ take from out.old.items ++ data_bytes }
{
    match stage {
        Stage::Chunks(place, _) => keep_whole(place, out, from),
        Stage::Ended(_) => {}
        Stage::Bytes(_) => {}
        Stage::Rest(_) => {}
    }
}
