// Answering: reads an answer, feeds the pump, writes what comes out, and reads again.
ghost use Rattle.std.specs.Prelude.{◌≡◌, ◌≢◌, ◌<◌, ◌++◌, ℕ, Bool, [], List, IsTrue, IfNone, IfOk, IfSome, MatchResult, length};
ghost use Rattle.px_base.specs.Sources.{SourceGoesOn};
ghost use Rattle.px_base.specs.Sinks.{SinkGoesOn};
ghost use Rattle.px_templates.specs.declared.pages.Page as page;
ghost use Rattle.px_pumps.specs.declared.dues.Due as due;
ghost use Rattle.px_pumps.specs.Answering.{Ask};
ghost use Rattle.px_pumps.specs.Asking.{ask_of};
ghost use Rattle.px_pumps.specs.Pumps.{PumpAfter, IsOfAnswer, pieces_left, EndsTalk};
ghost use Rattle.px_pumps.specs.Hearing.{AnswerGives, EndsHere, TalkGoesOn, HeardOut, Hears, FedOn, Stopped, FeedCause, talk_refused};
ghost use Rattle.px_pumps.specs.Returning.{TalkCause, IsHeard};

use crate::flows::Flow;
use crate::pumps::Pump;
use crate::talks::Talked;
use px_base::{Failed, Mem, Sink, SinkFault, Source, Text, write_all};
use px_config::Running;
use px_notes::{After, Asked, Conclusion, after_whole, broken};
use px_streams::PIECE;
use std::alloc::Global;

/// The most bytes that the first read of an answer asks for. Most answers that have no long body come whole by it, and no larger
/// room has to be cleared for them.
const FIRST_PIECE: usize = 2_048;

/// Room for what such an answer becomes: what is added to its head is shorter.
const FIRST_ROOM: usize = FIRST_PIECE + 128;

/// Feeds a piece, and writes what comes out.
fn feed_on<O: Sink>(
    pump: &mut Pump<'_>,
    running: &mut Running<'_>,
    piece: &[u8],
    out: &mut Text,
    client_out: &mut O,
) -> Result<Flow, SinkFault>
    requires of { running.old ≡ pump.old.config }
    ensures fed { IsTrue (O.state client_out.old).tells → (ask : Ask) (fed put : List ℕ) → PumpAfter ask fed put pump.old
        → MatchResult result (λ f. FedOn ask (fed ++ piece.now) put (O.state client_out.old).taken (O.state client_out.new).taken f pump.new)
        (λ e. Stopped ask fed piece.now put (O.state client_out.old).taken (O.state client_out.new).taken e) }
    ensures kind { IfOk result IsOfAnswer }
    ensures progress { IfOk result (λ f. f ≡ Flow.More → 0 < length piece.now → pieces_left pump.new.stage < pieces_left pump.old.stage) }
    ensures cause { FeedCause (O.state client_out.old) (O.state client_out.new) result }
    ensures open { (O.state client_out.new).finished ≡ (O.state client_out.old).finished }
    ensures goes_on { SinkGoesOn (O.state client_out.old) (O.state client_out.new) }
    ensures config { pump.new.config ≡ pump.old.config }
    ensures same { running.new ≡ running.old }
{
    out.clear();
    match pump.feed(running, piece, out) {
        Err(Mem) => Err(SinkFault::Mem),
        Ok(flow) => match write_all(client_out, out.as_bytes()) {
            Ok(()) => Ok(flow),
            Err(fault) => Err(fault),
        },
    }
}

/// What came of a talk whose flow is at its end.
fn end_talk(flow: Flow, keeps: bool) -> Talked
    requires { flow ≢ Flow.More }
    ensures value { EndsTalk flow keeps result }
    ensures heard { IsOfAnswer flow → IsHeard result }
{
    match flow {
        Flow::More => unreachable!(),
        Flow::Done(ending) => Talked::Ended(Conclusion {
            ending,
            after: after_whole(keeps),
        }),
        Flow::Refused(page) => Talked::Page(page),
    }
}

/// What came of a talk in which a write was refused.
fn end_refused(fault: SinkFault) -> Talked
    ensures value { result ≡ talk_refused fault }
    ensures heard { IsHeard result }
{
    match fault {
        SinkFault::Failed => Talked::Ended(broken(After::WriteFailed)),
        SinkFault::Mem => Talked::Ended(broken(After::NoMemory)),
    }
}

/// Ends the answer, and writes what comes out.
fn end_on<O: Sink>(
    pump: &mut Pump<'_>,
    running: &mut Running<'_>,
    failed: bool,
    out: &mut Text,
    client_out: &mut O,
) -> Talked
    requires of { running.old ≡ pump.old.config }
    ensures ended { IsTrue (O.state client_out.old).tells → (ask : Ask) (fed put taken : List ℕ) → PumpAfter ask fed put pump.old → (O.state client_out.old).taken ≡ taken ++ put
        → AnswerGives ask fed failed taken (O.state client_out.new).taken result }
    ensures cause { TalkCause (O.state client_out.old) (O.state client_out.new) result }
    ensures heard { IsHeard result }
    ensures open { (O.state client_out.new).finished ≡ (O.state client_out.old).finished }
    ensures goes_on { SinkGoesOn (O.state client_out.old) (O.state client_out.new) }
    ensures same { running.new ≡ running.old }
{
    out.clear();
    match pump.end(running, failed, out) {
        Err(Mem) => Talked::Ended(broken(After::NoMemory)),
        Ok(flow) => match write_all(client_out, out.as_bytes()) {
            Ok(()) => end_talk(flow, pump.keeps()),
            Err(fault) => end_refused(fault),
        },
    }
}

/// Reads a piece of an answer, and writes what comes out of it. None where the answer goes on.
fn pass_piece<I: Source, O: Sink>(
    pump: &mut Pump<'_>,
    running: &mut Running<'_>,
    buf: &mut [u8],
    out: &mut Text,
    link_in: &mut I,
    client_out: &mut O,
) -> Option<Talked>
    requires room { 0 < length buf.old }
    requires of { running.old ≡ pump.old.config }
    ensures goes_on { IfNone result (TalkGoesOn (I.state link_in.old) (I.state link_in.new) (O.state client_out.old) (O.state client_out.new) pump.old pump.new) }
    ensures fewer { IfNone result (pieces_left pump.new.stage < pieces_left pump.old.stage) }
    ensures ends { IfSome result (EndsHere (I.state link_in.old) (I.state link_in.new) (O.state client_out.old) (O.state client_out.new) pump.old) }
    ensures config { IfNone result (pump.new.config ≡ pump.old.config) }
    ensures same { running.new ≡ running.old }
{
    match link_in.read(buf) {
        Err(Failed) => Some(end_on(pump, running, true, out, client_out)),
        Ok(count) => {
            if count == 0 {
                return Some(end_on(pump, running, false, out, client_out));
            }
            match feed_on(pump, running, &buf[..count], out, client_out) {
                Err(fault) => Some(end_refused(fault)),
                Ok(flow) => match flow {
                    Flow::More => None,
                    Flow::Done(ending) => Some(Talked::Ended(Conclusion {
                        ending,
                        after: after_whole(pump.keeps()),
                    })),
                    Flow::Refused(page) => Some(Talked::Page(page)),
                },
            }
        }
    }
}

/// Reads the rest of an answer, and returns it to the client, each piece before the next is read.
fn pass_rest<I: Source, O: Sink>(
    pump: &mut Pump<'_>,
    running: &mut Running<'_>,
    out: &mut Text,
    link_in: &mut I,
    client_out: &mut O,
) -> Talked
    requires of { running.old ≡ pump.old.config }
    ensures ends { EndsHere (I.state link_in.old) (I.state link_in.new) (O.state client_out.old) (O.state client_out.new) pump.old result }
    ensures same { running.new ≡ running.old }
{
    let mut buf = [0u8; PIECE];
    'pieces: loop {
        if let Some(talked) = pass_piece(pump, running, &mut buf, out, link_in, client_out) {
            return talked;
        }
    }
}

/// No bytes yet, with room for a short answer where there is memory for it; else the room is taken as bytes come.
fn first_room(alloc: Global) -> Text
    ensures { result ≡ [] }
{
    match Text::with_capacity(alloc, FIRST_ROOM) {
        Ok(room) => room,
        Err(Mem) => Text::new(alloc),
    }
}

/// Reads an answer to its end, and returns it to the client, each piece before the next is read.
fn pass_on<I: Source, O: Sink>(
    alloc: Global,
    pump: &mut Pump<'_>,
    running: &mut Running<'_>,
    link_in: &mut I,
    client_out: &mut O,
) -> Talked
    requires of { running.old ≡ pump.old.config }
    ensures heard { HeardOut pump.old (I.state link_in.old) (I.state link_in.new) (O.state client_out.old) (O.state client_out.new) result }
    ensures same { running.new ≡ running.old }
{
    let mut buf = [0u8; FIRST_PIECE];
    let mut out = first_room(alloc);
    match pass_piece(pump, running, &mut buf, &mut out, link_in, client_out) {
        Some(talked) => talked,
        None => pass_rest(pump, running, &mut out, link_in, client_out),
    }
}

/// Reads an answer over a link, and returns it to the client. Where a page is due in its place, nothing was returned.
pub fn return_answer<I: Source, O: Sink>(
    alloc: Global,
    running: &mut Running<'_>,
    asked: Asked,
    link_in: &mut I,
    client_out: &mut O,
) -> Talked
    ensures hears { (page_due : page.Page → due.Due) → Hears (ask_of running.old asked page_due) (I.state link_in.old) (I.state link_in.new) (O.state client_out.old) (O.state client_out.new) result }
    ensures cause { TalkCause (O.state client_out.old) (O.state client_out.new) result }
    ensures heard { IsHeard result }
    ensures open { (O.state client_out.new).finished ≡ (O.state client_out.old).finished }
    ensures in_goes_on { SourceGoesOn (I.state link_in.old) (I.state link_in.new) }
    ensures out_goes_on { SinkGoesOn (O.state client_out.old) (O.state client_out.new) }
    ensures same { running.new ≡ running.old }
{
    let mut pump = Pump::new(alloc, running.config(), asked);
    pass_on(alloc, &mut pump, running, link_in, client_out)
}
