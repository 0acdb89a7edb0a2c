// Follows an answer as it is heard.
ghost use Rattle.std.specs.Prelude.{◌≡◌, ◌≤◌, ◌-◌, ◌++◌, ◌↔◌, List, ℕ, [], length, true, false};
ghost use Rattle.px_framing.specs.Reading.{goes_on};
ghost use Rattle.px_head.specs.declared.TheConstants.{HEAD_LIMIT};
ghost use Rattle.px_head.specs.Searches.{Searched, BeginsSearched};
ghost use Rattle.px_pool_ends.specs.Answers.{AnswerStands, Leaves, EndsWhole, IsFollowingSettled, IsAnswer, is_answered as is_answered_spec, is_lost as is_lost_spec};

use crate::judges::{Judged, judge};
use px_base::{Mem, Text};
use px_framing::{BodyReader, State};
use px_head::{HEAD_LIMIT, HeadEnd, HeadSearch};
use std::alloc::Global;

/// The most heads before the final one.
const INTERIM_LIMIT: u8 = 8;

/// How far an answer was heard.
#[derive(Drop)]
pub enum Following {
    /// So many interim heads, and then these bytes of a head that isn't whole, with the search for its end.
    Heads(u8, Text, HeadSearch),
    /// The heads, and a part of the body.
    Body(BodyReader),
    /// The whole answer, and nothing more.
    Answered,
    /// No answer, whatever follows.
    Never,
    /// Memory was wanting.
    Lost,
}

/// Nothing was heard.
pub fn first(alloc: Global) -> Following
    ensures stands { AnswerStands [] result }
    ensures settled { IsFollowingSettled result }
{
    Following::Heads(0, Text::new(alloc), HeadSearch::new())
}

/// Hears a piece.
pub fn follow(alloc: Global, following: Following, piece: &[u8]) -> Following
    requires settled { IsFollowingSettled following }
    ensures stands { (heard : List ℕ) → AnswerStands heard following → AnswerStands (heard ++ piece.now) result }
    ensures settled { IsFollowingSettled result }
{
    match following {
        Following::Heads(count, bytes, search) => hear_heads(alloc, count, bytes, search, piece),
        Following::Body(reader) => hear_body(alloc, reader, piece),
        Following::Answered => {
            if piece.is_empty() {
                Following::Answered
            } else {
                Following::Never
            }
        }
        Following::Never => Following::Never,
        Following::Lost => Following::Lost,
    }
}

/// Whether the whole answer was heard, and nothing more.
pub fn is_answered(following: &Following) -> bool
    requires settled { IsFollowingSettled following.now }
    ensures answered { is_lost_spec following.now ≡ false → (heard : List ℕ) → AnswerStands heard following.now → (result ≡ true) ↔ IsAnswer 8 heard }
    ensures value { result ≡ is_answered_spec following.now }
{
    match following {
        Following::Heads(_, _, _) => false,
        Following::Body(_) => false,
        Following::Answered => true,
        Following::Never => false,
        Following::Lost => false,
    }
}

/// Whether memory was wanting.
pub fn is_lost(following: &Following) -> bool
    ensures { result ≡ is_lost_spec following.now }
{
    match following {
        Following::Heads(_, _, _) => false,
        Following::Body(_) => false,
        Following::Answered => false,
        Following::Never => false,
        Following::Lost => true,
    }
}

fn hear_heads(alloc: Global, count: u8, bytes: Text, search: HeadSearch, piece: &[u8]) -> Following
    requires few { count ≤ 8 }
    requires searched { Searched HEAD_LIMIT bytes search }
    ensures due { Leaves result (λ more. IsAnswer (8 - count) (bytes ++ (piece.now ++ more))) }
    ensures settled { IsFollowingSettled result }
{
    let mut all = bytes;
    match all.push_all(piece) {
        Ok(()) => pass_heads(alloc, count, all, search),
        Err(Mem) => Following::Lost,
    }
}

/// Passes the heads that are whole.
fn pass_heads(alloc: Global, count: u8, bytes: Text, search: HeadSearch) -> Following
    requires few { count ≤ 8 }
    requires begins { BeginsSearched HEAD_LIMIT bytes search }
    ensures due { Leaves result (λ more. IsAnswer (8 - count) (bytes ++ more)) }
    ensures settled { IsFollowingSettled result }
{
    let mut passed = count;
    let mut rest = bytes;
    let mut search = search;
    'heads: loop {
        let len = match search.go_on(rest.as_bytes(), HEAD_LIMIT) {
            HeadEnd::At(len) => len,
            HeadEnd::NotYet => return Following::Heads(passed, rest, search),
            HeadEnd::Over => return Following::Never,
        };
        match judge(alloc, &rest.as_bytes()[..len]) {
            Judged::Interim => {
                if INTERIM_LIMIT <= passed {
                    return Following::Never;
                }
                passed += 1;
                match Text::from_bytes(alloc, &rest.as_bytes()[len..]) {
                    Ok(more) => rest = more,
                    Err(Mem) => return Following::Lost,
                }
            }
            Judged::Final(rule) => {
                let reader = BodyReader::new(alloc, rule);
                return hear_body(alloc, reader, &rest.as_bytes()[len..]);
            }
            Judged::Never => return Following::Never,
            Judged::Lost => return Following::Lost,
        }
    }
}

fn hear_body(alloc: Global, reader: BodyReader, piece: &[u8]) -> Following
    ensures due { Leaves result (λ more. EndsWhole (goes_on reader (piece.now ++ more)) (piece.now ++ more)) }
    ensures settled { IsFollowingSettled result }
{
    let mut reader = reader;
    let mut line = Text::new(alloc);
    let Ok(passed) = reader.pass(piece, &mut line) else {
        return Following::Lost;
    };
    match passed.state {
        State::More => Following::Body(reader),
        State::Whole => {
            if passed.used == piece.len() {
                Following::Answered
            } else {
                Following::Never
            }
        }
        State::Cut => Following::Never,
        State::Misframed => Following::Never,
    }
}
