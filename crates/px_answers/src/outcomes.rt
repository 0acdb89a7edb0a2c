// What comes of an answer, by what its head settled and by how its body stands.
ghost use Rattle.std.specs.Prelude.{◌≡◌};
ghost use Rattle.px_answers.specs.Forms.{allows_filters, is_open_to_filters, is_more, is_whole};
ghost use Rattle.px_answers.specs.Finished.{passed_as, passed_or_cut, passed_outcome};

use crate::forms::{AnswerOutcome, Framed, Returned};
use crate::heads::keeps;
use px_base::{List, Text};
use px_framing::{BodyRule, State};

pub fn is_more(state: State) -> bool
    ensures { result ≡ is_more state }
{
    match state {
        State::More => true,
        State::Whole => false,
        State::Cut => false,
        State::Misframed => false,
    }
}

pub fn is_whole(state: State) -> bool
    ensures { result ≡ is_whole state }
{
    match state {
        State::More => false,
        State::Whole => true,
        State::Cut => false,
        State::Misframed => false,
    }
}

fn passed_or_cut(whole: bool) -> Returned
    ensures { result ≡ passed_or_cut whole }
{
    if whole {
        Returned::Passed
    } else {
        Returned::CutFront
    }
}

/// How an unfiltered answer is returned.
fn passed_as(rule: BodyRule, whole: bool) -> Returned
    ensures { result ≡ passed_as rule whole }
{
    match rule {
        BodyRule::Absent => Returned::Bodiless,
        BodyRule::Length(_) => passed_or_cut(whole),
        BodyRule::Chunked => passed_or_cut(whole),
        BodyRule::ToClose => passed_or_cut(whole),
    }
}

/// What comes of an unfiltered answer whose body is at its end.
pub fn passed_outcome(framed: &Framed, whole: bool) -> AnswerOutcome
    ensures { result ≡ passed_outcome framed.now whole }
{
    AnswerOutcome {
        returned: passed_as(framed.rule, whole),
        keep: keeps(framed) && whole,
    }
}

fn allows(names: &Option<List<Text>>) -> bool
    ensures { result ≡ allows_filters names.now }
{
    match names {
        None => false,
        Some(_) => true,
    }
}

/// Whether the head allows filters, and so many raw bytes are within the limit.
pub fn is_open(framed: &Framed, count: usize) -> bool
    ensures { result ≡ is_open_to_filters framed.now count }
{
    allows(&framed.filters) && count as u64 <= framed.limit
}
