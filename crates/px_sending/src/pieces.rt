// Sends a body, each piece before the next is read.
ghost use Rattle.std.specs.Prelude.{◌≡◌, ◌≢◌, ◌++◌, ℕ, [], List, false, IsTrue, IfOk, ◌+◌, length, MatchResult};
ghost use Rattle.px_base.specs.Sinks.{AddsAll, SinkGoesOn};
ghost use Rattle.px_base.specs.Sources.{SourceGoesOn};
ghost use Rattle.px_framing.specs.Reading.{ReaderAfter, IsSettled, stage_state};
ghost use Rattle.px_framing.specs.Passing.{bytes_left};
ghost use Rattle.px_framing.specs.declared.rules.BodyRule.{BodyRule as Rule};
ghost use Rattle.px_sending.specs.Sends.{RoseWhere, Sends, is_link_failed, is_read_failed, is_write_failed};
ghost use Rattle.px_sending.specs.Pieces.{PassesPiece, PieceCause, PieceStopsBy, bare, link_refused as link_refused_spec, sent_at};

use px_base::{Mem, Sink, SinkFault, Source, Text, write_all};
use px_framing::{BodyReader, BodyRule, State};
use px_notes::Sent;
use px_streams::{Ahead, ReadFault, fill};
use std::alloc::Global;

/// What came of a body where a write to the link was refused.
fn link_refused(fault: SinkFault) -> Sent
    ensures value { result ≡ link_refused_spec fault }
    ensures unwritten { is_write_failed result ≡ false }
{
    match fault {
        SinkFault::Failed => Sent::LinkFailed,
        SinkFault::Mem => Sent::NoMemory,
    }
}

/// What came of a body that stands so, behind its last byte or at the end of the stream.
fn body_sent(state: State) -> Sent
    requires { state ≢ State.More }
    ensures value { result ≡ sent_at state }
    ensures unwritten { is_write_failed result ≡ false }
{
    match state {
        State::More => unreachable!(),
        State::Whole => Sent::Whole,
        State::Cut => Sent::Cut,
        State::Misframed => Sent::Misframed,
    }
}

/// Writes bytes and others behind them. A refusal means that a proper front of them was taken.
fn write_both<P: Sink>(link_out: &mut P, first: &[u8], second: &[u8]) -> Result<(), SinkFault>
    ensures bytes { AddsAll (P.state link_out.old) (P.state link_out.new) result (first.now ++ second.now) }
    ensures cause { PieceCause (P.state link_out.old) (P.state link_out.new) result }
    ensures open { (P.state link_out.new).finished ≡ (P.state link_out.old).finished }
    ensures goes_on { SinkGoesOn (P.state link_out.old) (P.state link_out.new) }
{
    match write_all(link_out, first) {
        Err(fault) => Err(fault),
        Ok(()) => match write_all(link_out, second) {
            Err(fault) => Err(fault),
            Ok(()) => Ok(()),
        },
    }
}

/// Sends what the bytes read ahead settle of a body, and uses up those that belong to it.
fn send_piece<P: Sink>(
    reader: &mut BodyReader,
    ahead: &mut Ahead,
    line: &mut Text,
    link_out: &mut P,
) -> Result<State, SinkFault>
    ensures passes { IsTrue (P.state link_out.old).tells → (rule : Rule) (fed put plain : List ℕ) → ReaderAfter rule fed put plain (length fed) reader.old
        → MatchResult result (λ state. PassesPiece rule fed put plain ahead.old ahead.new (P.state link_out.old).taken (P.state link_out.new).taken state reader.new)
        (λ fault. PieceStopsBy rule fed put plain ahead.old (P.state link_out.old).taken (P.state link_out.new).taken fault) }
    ensures state { IfOk result (λ state. state ≡ stage_state reader.new.stage) }
    ensures settled { IfOk result (λ _. IsSettled reader.new) }
    ensures used_up { IfOk result (λ state. state ≡ State.More → ahead.new ≡ []) }
    ensures progress { IfOk result (λ state. state ≡ State.More → bytes_left reader.new.stage + length ahead.old ≡ bytes_left reader.old.stage) }
    ensures cause { PieceCause (P.state link_out.old) (P.state link_out.new) result }
    ensures open { (P.state link_out.new).finished ≡ (P.state link_out.old).finished }
    ensures goes_on { SinkGoesOn (P.state link_out.old) (P.state link_out.new) }
{
    line.clear();
    match reader.pass(ahead.as_bytes(), line) {
        Err(Mem) => Err(SinkFault::Mem),
        Ok(passed) => {
            match write_both(link_out, line.as_bytes(), &ahead.as_bytes()[..passed.whole]) {
                Err(fault) => Err(fault),
                Ok(()) => {
                    ahead.skip(passed.used);
                    Ok(reader.state())
                }
            }
        }
    }
}

/// Sends a body, each piece before the next is read.
pub fn send_body<S: Source, P: Sink>(
    alloc: Global,
    rule: BodyRule,
    client_in: &mut S,
    ahead: &mut Ahead,
    link_out: &mut P,
) -> Sent
    ensures sends { IsTrue (S.state client_in.old).tells → IsTrue (P.state link_out.old).tells
        → Sends (bare rule) (ahead.old ++ (S.state client_in.old).left) (ahead.new ++ (S.state client_in.new).left) (P.state link_out.old).taken (P.state link_out.new).taken [] [] result }
    ensures read_cause { RoseWhere (is_read_failed result) (S.state client_in.old).faults (S.state client_in.new).faults }
    ensures link_cause { RoseWhere (is_link_failed result) (P.state link_out.old).faults (P.state link_out.new).faults }
    ensures unwritten { is_write_failed result ≡ false }
    ensures all_read { result ≡ Sent.ReadFailed → ahead.new ≡ [] }
    ensures open { (P.state link_out.new).finished ≡ (P.state link_out.old).finished }
    ensures in_goes_on { SourceGoesOn (S.state client_in.old) (S.state client_in.new) }
    ensures link_goes_on { SinkGoesOn (P.state link_out.old) (P.state link_out.new) }
{
    let mut reader = BodyReader::new(alloc, rule);
    let mut line = Text::new(alloc);
    'pieces: loop {
        match send_piece(&mut reader, ahead, &mut line, link_out) {
            Err(fault) => return link_refused(fault),
            Ok(state) => {
                if state != State::More {
                    return body_sent(state);
                }
                match fill(client_in, ahead) {
                    Ok(more) => {
                        if !more {
                            return body_sent(reader.end());
                        }
                    }
                    Err(ReadFault::Failed) => return Sent::ReadFailed,
                    Err(ReadFault::Mem) => return Sent::NoMemory,
                }
            }
        }
    }
}
