// How far a body is read.
ghost use Rattle.std.specs.Prelude.{◌≡◌, ◌==◌, if◌then◌else◌};
ghost use Rattle.px_framing.specs.Reading.{end_state as end_state_spec, first_stage as first_stage_spec, is_ended as is_ended_spec, stage_before as stage_before_spec, stage_state};

use crate::BODY_LIMIT;
use crate::places::{ChunkPlace, State};
use crate::rules::BodyRule;

/// The stage of a body: what it may still take.
#[derive(Clone, Copy, Debug, PartialEq, Eq)]
pub enum Stage {
    /// It takes no more bytes.
    Ended(State),
    /// So many bytes are still to come.
    Bytes(u64),
    /// All bytes to the close belong to it, and it may take so many more.
    Rest(u64),
    /// It is chunked, stands at that place, and may take so many more bytes.
    Chunks(ChunkPlace, u64),
}

/// How a body at that stage stands.
pub fn state_of(stage: Stage) -> State
    ensures { result ≡ stage_state stage }
{
    match stage {
        Stage::Ended(state) => state,
        Stage::Bytes(_) => State::More,
        Stage::Rest(_) => State::More,
        Stage::Chunks(_, _) => State::More,
    }
}

/// How a body at that stage stands where no more bytes come.
pub fn end_state(stage: Stage) -> State
    ensures { result ≡ end_state_spec stage }
{
    match stage {
        Stage::Ended(state) => state,
        Stage::Bytes(_) => State::Cut,
        Stage::Rest(_) => State::Whole,
        Stage::Chunks(_, _) => State::Cut,
    }
}

/// The stage of a body of that rule before its first byte.
pub fn first_stage(rule: BodyRule) -> Stage
    ensures { result ≡ first_stage_spec rule }
{
    match rule {
        BodyRule::Absent => Stage::Ended(State::Whole),
        BodyRule::Length(len) => {
            if len == 0 {
                Stage::Ended(State::Whole)
            } else {
                Stage::Bytes(len)
            }
        }
        BodyRule::Chunked => Stage::Chunks(ChunkPlace::Size, BODY_LIMIT),
        BodyRule::ToClose => Stage::Rest(BODY_LIMIT),
    }
}

/// The stage of a chunked body that stands before that place and may take so many more bytes.
pub fn stage_before(place: ChunkPlace, room: u64) -> Stage
    ensures { result ≡ stage_before_spec place room }
{
    match place {
        ChunkPlace::Done => Stage::Ended(State::Whole),
        ChunkPlace::Wrong => Stage::Ended(State::Misframed),
        ChunkPlace::Size => chunks(place, room),
        ChunkPlace::Data(_) => chunks(place, room),
        ChunkPlace::Gap => chunks(place, room),
        ChunkPlace::Trailers(_) => chunks(place, room),
    }
}

/// The stage of a chunked body that goes on, unless it may take no more bytes.
fn chunks(place: ChunkPlace, room: u64) -> Stage
    ensures { result ≡ (if room == 0 then Stage.Ended State.Cut else Stage.Chunks place room) }
{
    if room == 0 {
        Stage::Ended(State::Cut)
    } else {
        Stage::Chunks(place, room)
    }
}

/// Whether the stage takes no more bytes.
pub fn is_ended(stage: Stage) -> bool
    ensures { result ≡ is_ended_spec stage }
{
    match stage {
        Stage::Ended(_) => true,
        Stage::Bytes(_) => false,
        Stage::Rest(_) => false,
        Stage::Chunks(_, _) => false,
    }
}
