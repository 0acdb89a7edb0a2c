// A session of the job: what its client sends, and what its dials give.
ghost use Rattle.std.specs.Prelude.{◌≡◌, ◌++◌, ◌∷◌, [], ℕ, ◌+◌, IfOk, OnOk, OnErr};
ghost use Rattle.px_generated.specs.Draws.{after_draws};
ghost use Rattle.px_generated.specs.Sessions.{answer_bytes, answer_from, answers, plain_link, generated_request, request_from, requests, session_from};
ghost use Rattle.px_generated.specs.Jobs.{draws_before, session_at};

use crate::Draws;
use crate::files::push_place;
use itoa::Buffer;
use px_base::{Answer, List, Mem, Text};
use std::alloc::Global;

/// How many requests a session has.
const REQUESTS: usize = 100;

/// What the client of a session sends, and what the session's dials give, one answer a request.
#[derive(Drop)]
pub struct JobSession {
    pub input: Text,
    pub answers: List<Answer>,
}

/// The session that begins with the next draw. After `Mem` the draws are as they were.
#[tactic(auto, using(crate::proofs::DrawLemmas::draws_before_more), unfolding(crate::specs::Sessions::session_from, crate::specs::Jobs::session_at))]
pub fn job_session(alloc: Global, draws: &mut Draws) -> Result<JobSession, Mem>
    ensures session { IfOk result (λ session. session ≡ session_from draws.old) }
    ensures draws { OnOk result (draws.new ≡ after_draws 300 draws.old) }
    ensures err { OnErr result (draws.new ≡ draws.old) }

    // Behind so many sessions of a job, it is the job's next one.
    ensures of_job { (seed count : ℕ) → draws.old ≡ draws_before count seed → IfOk result (λ session. session ≡ session_at count seed) }
    ensures next_of_job { (seed count : ℕ) → draws.old ≡ draws_before count seed → OnOk result (draws.new ≡ draws_before (count + 1) seed) }
{
    let mut ahead = *draws;
    let mut session = JobSession {
        input: Text::new(alloc),
        answers: List::with_capacity(alloc, REQUESTS)?,
    };
    push_requests(alloc, &mut session, &mut ahead)?;
    *draws = ahead;
    Ok(session)
}

/// Adds all requests, and the answers to them.
#[tactic(auto, using(std::proofs::lemmas::Grind::common_steps, crate::proofs::StepLemmas::requests_none, crate::proofs::StepLemmas::requests_more, crate::proofs::StepLemmas::answers_none, crate::proofs::StepLemmas::answers_more, crate::proofs::DrawLemmas::after_draws_none, crate::proofs::DrawLemmas::three_more))]
fn push_requests(alloc: Global, session: &mut JobSession, draws: &mut Draws) -> Result<(), Mem>
    ensures input { OnOk result (session.new.input ≡ session.old.input ++ requests 100 draws.old) }
    ensures answers { OnOk result (session.new.answers ≡ session.old.answers ++ answers 100 draws.old) }
    ensures draws { OnOk result (draws.new ≡ after_draws 300 draws.old) }
{
    'requests: for _ in 0..REQUESTS {
        push_drawn_request(alloc, session, draws)?;
    }
    Ok(())
}

/// Adds the request that the next three draws make, and the answer to it.
#[tactic(auto, unfolding(crate::specs::Sessions::request_from, crate::specs::Sessions::answer_from, crate::specs::Draws::after_draws))]
fn push_drawn_request(alloc: Global, session: &mut JobSession, draws: &mut Draws) -> Result<(), Mem>
    ensures input { OnOk result (session.new.input ≡ session.old.input ++ request_from draws.old) }
    ensures answers { OnOk result (session.new.answers ≡ session.old.answers ++ answer_from draws.old ∷ []) }
    ensures draws { draws.new ≡ after_draws 3 draws.old }
{
    let host = draws.draw(100);
    let path = draws.draw(50);
    let count = draws.draw(2_000);
    push_request(&mut session.input, host, path)?;
    session.answers.add(answer(alloc, count)?)
}

/// Adds a request for a host and a path.
#[tactic(auto, unfolding(crate::specs::Sessions::generated_request))]
fn push_request(out: &mut Text, host: u32, path: u32) -> Result<(), Mem>
    ensures { OnOk result (out.new ≡ out.old ++ generated_request host path) }
{
    out.push_all(b"GET http://")?;
    push_place(out, host, path)?;
    out.push_all(b" HTTP/1.1\r\n\r\n")
}

/// A link whose answer has so many bytes of body.
fn answer(alloc: Global, count: u32) -> Result<Answer, Mem>
    ensures { IfOk result (λ answer. answer ≡ plain_link (answer_bytes count)) }
{
    Ok(Answer::Link {
        bytes: answer_bytes(alloc, count)?,
        cuts: List::new(alloc),
        read_fails: List::new(alloc),
        write_fails: List::new(alloc),
    })
}

/// The bytes of an answer.
#[tactic(auto, unfolding(crate::specs::Sessions::answer_bytes, crate::specs::Sessions::answer_front))]
fn answer_bytes(alloc: Global, count: u32) -> Result<Text, Mem>
    ensures { IfOk result (λ text. text ≡ answer_bytes count) }
{
    let mut text = Text::from_bytes(
        alloc,
        b"HTTP/1.1 200 OK\r\nContent-Type: text/html\r\nSet-Cookie: s=1\r\nContent-Length: ",
    )?;
    text.push_all(Buffer::new().format(count).as_bytes())?;
    text.push_all(b"\r\n\r\n")?;
    text.push_all(&vec![in alloc; b'a'; count as usize]?)?;
    Ok(text)
}
