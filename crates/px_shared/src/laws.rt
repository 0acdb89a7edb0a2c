// What follows a whole answer, and sessions over links whose sources offer just that.
ghost use Rattle.std.specs.Prelude.{◌↔◌, ◌≢◌, ◌++◌, List, ℕ, Bool, false};
ghost use Rattle.px_base.specs.Dials.{DialerState};
ghost use Rattle.px_base.specs.declared.dials.Dial.{Dial};
ghost use Rattle.px_pool_ends.specs.Answers.{IsAnswer};
ghost use Rattle.px_pool_ends.specs.Incomings.{Hearing};
ghost use Rattle.px_pool_ends.specs.Outgoings.{Sending};
ghost use Rattle.px_link_pool.specs.Histories.{Views};
ghost use Rattle.px_link_pool.specs.declared.histories.History.{History};
ghost use Rattle.px_notes.specs.declared.sessions.SessionEnd.{SessionEnd};
ghost use Rattle.px_notes.specs.declared.sessions.SessionEnd.TheVariants as end;
ghost use Rattle.px_pumps.specs.Answering.{Ask, Answered};
ghost use Rattle.px_pumps.specs.declared.dues.Due.{Due};
ghost use Rattle.px_serve.specs.Histories.{Begun};
ghost use Rattle.px_serve.specs.Sessions.{IsSession};
ghost use Rattle.px_shared.specs.Answers.{IsAnswerTo};
ghost use Rattle.px_shared.specs.Links.{EachAnswered, EachHeardFront, NoTunnel, with_heard};
ghost use Rattle.px_shared.specs.Sharing.{PoolTells};

/// What follows a whole answer changes nothing of what is due to the client for it: neither more bytes nor that their reading
/// failed. So it is of an answer to a request of that method, and of what a pool of links takes for one, whatever the method.
#[tactic(auto, using(crate::proofs::AnswerLemmas::answered_to, crate::proofs::AnswerLemmas::answered_any))]
pub fn answers_end()
    ensures to_method { (ask : Ask) (answer more : List ℕ) (failed : Bool) (due : Due) → IsAnswerTo ask.method 8 answer
        → Answered ask (answer ++ more) failed due ↔ Answered ask answer false due }
    ensures to_any { (ask : Ask) (answer more : List ℕ) (failed : Bool) (due : Due) → IsAnswer 8 answer
        → Answered ask (answer ++ more) failed due ↔ Answered ask answer false due }
{}

/// A session over links each of whose origins answered one request by itself is the session over links of which each offers
/// just what was heard, with the same bytes sent and returned: where no tunnel was carried and memory wasn't wanting. What was
/// heard over each is the front of what it offered; of the links of a pool that is so.
#[tactic(auto, using(crate::proofs::LinkLemmas::session_alone))]
pub fn heard_is_enough()
    ensures { (peer stream left : List ℕ) (old new : DialerState) (taken taken' : List ℕ) (begun : List Begun) (e : SessionEnd)
        → IsSession peer stream left old new taken taken' begun e → EachHeardFront new.dials → EachAnswered new.dials → NoTunnel begun → e ≢ end.NoMemory
        → IsSession peer stream left (with_heard old) (with_heard new) taken taken' begun e }
{}

/// Where the history of a pool tells its dials, what was heard over each of its links is the front of what the link offered. So the
/// law on sessions holds for those over pools.
pub fn pools_hear_fronts<S, T>()
    ensures { (v : Views S T) (before pool_dials inner_dials : List Dial) (history : History Hearing Sending S T)
        → PoolTells v before pool_dials inner_dials history → EachHeardFront pool_dials }
{}
