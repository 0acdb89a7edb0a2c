// Reads a body that comes in pieces.
ghost use Rattle.std.specs.Prelude.{◌≡◌, ◌≢◌, ◌+◌, ◌++◌, [], ◌<◌, ◌≤◌, length, take, List, ℕ, OnErr, IfOk};
ghost use Rattle.px_framing.specs.declared.TheConstants.{LINE_LIMIT};
ghost use Rattle.px_framing.specs.Reading.{IsSettledAt, Uses, end_state as end_state_spec, stage_state};
ghost use Rattle.px_framing.specs.Passing.{IsDataOf, Passes, settled};

use crate::advances::{Far, add_settled, append, keep_data, line_room, pass_on};
use crate::buffers::{take_both, take_bytes};
use crate::places::State;
use crate::rules::BodyRule;
use crate::stages::{Stage, end_state, first_stage, state_of};
use px_base::{Mem, Text};
use std::alloc::Global;
use std::marker::Model;

/// What a call of `feed` did.
#[derive(Clone, Copy, Debug, PartialEq, Eq)]
pub struct Fed {
    /// How many bytes of the piece belong to the body, or were looked at as a faulty element.
    pub used: usize,
    /// How the body stands behind them.
    pub state: State,
}

/// What a call of `pass` did. The raw bytes that it settled are the line that it added and then the first `whole` bytes of the
/// piece.
#[derive(Clone, Copy, Debug, PartialEq, Eq)]
pub struct Passed {
    /// How many bytes at the front of the piece end with a whole element.
    pub whole: usize,
    /// How many bytes of the piece belong to the body, or were looked at as a faulty element.
    pub used: usize,
    /// How the body stands behind them.
    pub state: State,
}

/// A reader of one body. It keeps the bytes of an unfinished element alone, at most 8,192.
#[derive(Drop)]
pub struct BodyReader {
    stage: Stage,
    kept: Vec<u8>,
}

impl Model for BodyReader {
    ghost use Rattle.px_framing.specs.Reading.{Reading, IsSettled};

    ghost Value = { Reading };

    ghost view = { λ r. record { stage = r.stage; kept = r.kept.items } };

    ghost invariant = { λ r. IsSettled (record { stage = r.stage; kept = r.kept.items }) };
}

impl BodyReader {
    ghost use Rattle.px_framing.specs.Body.{Body, at_end};
    ghost use Rattle.px_framing.specs.declared.rules.BodyRule.{BodyRule};
    ghost use Rattle.px_framing.specs.Reading.{ReaderAfter, IsSettled, ReaderSteps, added, before, first};
    ghost use Rattle.px_framing.specs.Passing.{bytes_left, data_in, due_part, raw_in};

    /// A reader at the start of a body, which has put out nothing. It takes no memory.
    pub fn new(alloc: Global, rule: BodyRule) -> BodyReader
        ensures first { result ≡ first rule }
        ensures after { ReaderAfter rule [] [] [] 0 result }
    {
        BodyReader {
            stage: first_stage(rule),
            kept: Vec::new(alloc),
        }
    }

    /// How the body stands.
    pub fn state(&self) -> State
        ensures state { result ≡ stage_state self.now.stage }
        ensures settled { IsSettled self.now }
    {
        state_of(self.stage)
    }

    /// Takes the next piece and copies none of its bytes: the raw bytes that are settled by it are those that go to the end of
    /// `line`, of a line that an earlier piece began, and then the first `whole` bytes of the piece. After `Mem` nothing has
    /// changed.
    pub fn pass(&mut self, piece: &[u8], line: &mut Text) -> Result<Passed, Mem>
        ensures steps { IfOk result (λ p. ReaderSteps self.old piece.now (added line.old line.new ++ take p.whole piece.now) (data_in self.old piece.now) p.used self.new) }
        ensures due { IfOk result (λ p. (rest : List ℕ) → due_part self.old (piece.now ++ rest) ≡ before (added line.old line.new ++ take p.whole piece.now) (data_in self.old piece.now) p.used (due_part self.new rest)) }
        ensures line { IfOk result (λ p. line.new ≡ line.old ++ added line.old line.new) }
        ensures short { IfOk result (λ p. length (added line.old line.new) ≤ 8192) }
        ensures whole { IfOk result (λ p. p.whole ≤ p.used) }
        ensures state { IfOk result (λ p. p.state ≡ stage_state self.new.stage) }
        ensures used { IfOk result (λ p. Uses piece.now p.used p.state) }
        ensures left { IfOk result (λ p. p.state ≡ State.More → bytes_left self.new.stage + p.used ≡ bytes_left self.old.stage) }
        ensures stays { stage_state self.old.stage ≢ State.More → IfOk result (λ p. (p.used ≡ 0) × (self.new ≡ self.old)) }
        ensures after { IfOk result (λ p. (rule : BodyRule) (bytes raw_put plain_put : List ℕ) (count : ℕ) → ReaderAfter rule bytes raw_put plain_put count self.old
            → ReaderAfter rule (bytes ++ piece.now) (raw_put ++ (added line.old line.new ++ take p.whole piece.now)) (plain_put ++ data_in self.old piece.now) (count + p.used) self.new) }
        ensures body { IfOk result (λ p. (rule : BodyRule) (bytes raw_put plain_put : List ℕ) (count : ℕ) → ReaderAfter rule bytes raw_put plain_put count self.old
            → Body rule (bytes ++ piece.now) (record { raw = raw_put ++ (added line.old line.new ++ take p.whole piece.now); plain = plain_put ++ data_in self.old piece.now; used = count + p.used; state = p.state })) }
        ensures kept { length self.new.kept ≤ 8192 }
        ensures err { OnErr result ((self.new ≡ self.old) × (line.new ≡ line.old)) }
    {
        line_room(self.stage, &mut self.kept, piece)?;
        let len = line.len();
        line.push_all(self.kept.as_slice())?;
        let far = pass_on(self.stage, &mut self.kept, piece);
        settle_line(line, len, far.whole);
        self.stage = far.stage;
        Ok(Passed {
            whole: far.whole,
            used: far.used,
            state: state_of(far.stage),
        })
    }

    /// Takes the next piece of the body: bytes of whole elements go to the end of `raw`, and their data to the end of
    /// `plain`. Once the state isn't `More` it stays, and no byte is used. After `Mem` nothing has changed.
    pub fn feed(&mut self, piece: &[u8], raw: &mut Text, plain: &mut Text) -> Result<Fed, Mem>
        ensures steps { IfOk result (λ fed. ReaderSteps self.old piece.now (added raw.old raw.new) (added plain.old plain.new) fed.used self.new) }
        ensures due { IfOk result (λ fed. (rest : List ℕ) → due_part self.old (piece.now ++ rest) ≡ before (added raw.old raw.new) (added plain.old plain.new) fed.used (due_part self.new rest)) }
        ensures raw { IfOk result (λ fed. raw.new ≡ raw.old ++ added raw.old raw.new) }
        ensures plain { IfOk result (λ fed. plain.new ≡ plain.old ++ added plain.old plain.new) }
        ensures state { IfOk result (λ fed. fed.state ≡ stage_state self.new.stage) }
        ensures used { IfOk result (λ fed. Uses piece.now fed.used fed.state) }
        ensures left { IfOk result (λ fed. fed.state ≡ State.More → bytes_left self.new.stage + fed.used ≡ bytes_left self.old.stage) }
        ensures stays { stage_state self.old.stage ≢ State.More → IfOk result (λ fed. (fed.used ≡ 0) × (self.new ≡ self.old)) }

        // After any list of pieces: what was put out, and how the body stands, is what is said of the whole bytes.
        ensures after { IfOk result (λ fed. (rule : BodyRule) (bytes raw_put plain_put : List ℕ) (count : ℕ) → ReaderAfter rule bytes raw_put plain_put count self.old
            → ReaderAfter rule (bytes ++ piece.now) (raw_put ++ added raw.old raw.new) (plain_put ++ added plain.old plain.new) (count + fed.used) self.new) }
        ensures body { IfOk result (λ fed. (rule : BodyRule) (bytes raw_put plain_put : List ℕ) (count : ℕ) → ReaderAfter rule bytes raw_put plain_put count self.old
            → Body rule (bytes ++ piece.now) (record { raw = raw_put ++ added raw.old raw.new; plain = plain_put ++ added plain.old plain.new; used = count + fed.used; state = fed.state })) }
        ensures kept { length self.new.kept ≤ 8192 }
        ensures err { OnErr result ((self.new ≡ self.old) × (raw.new ≡ raw.old) × (plain.new ≡ plain.old)) }
    {
        let alloc = *self.kept.allocator();
        let mut taken = take_both(alloc, raw, plain)?;
        let advanced = advance(
            self.stage,
            &mut self.kept,
            piece,
            &mut taken.raw,
            &mut taken.plain,
        );
        *raw = Text::from_vec(taken.raw);
        *plain = Text::from_vec(taken.plain);
        match advanced {
            Ok(far) => {
                self.stage = far.stage;
                Ok(Fed {
                    used: far.used,
                    state: state_of(far.stage),
                })
            }
            Err(Mem) => Err(Mem),
        }
    }

    /// Takes the next piece of the body, and puts its data alone at the end of `plain`. Once the state isn't `More` it stays, and
    /// no byte is used. After `Mem` nothing has changed.
    pub fn decode(&mut self, piece: &[u8], plain: &mut Text) -> Result<Fed, Mem>
        ensures steps { IfOk result (λ fed. ReaderSteps self.old piece.now (raw_in self.old piece.now) (added plain.old plain.new) fed.used self.new) }
        ensures due { IfOk result (λ fed. (rest : List ℕ) → due_part self.old (piece.now ++ rest) ≡ before (raw_in self.old piece.now) (added plain.old plain.new) fed.used (due_part self.new rest)) }
        ensures plain { IfOk result (λ fed. plain.new ≡ plain.old ++ added plain.old plain.new) }
        ensures state { IfOk result (λ fed. fed.state ≡ stage_state self.new.stage) }
        ensures used { IfOk result (λ fed. Uses piece.now fed.used fed.state) }
        ensures left { IfOk result (λ fed. fed.state ≡ State.More → bytes_left self.new.stage + fed.used ≡ bytes_left self.old.stage) }
        ensures stays { stage_state self.old.stage ≢ State.More → IfOk result (λ fed. (fed.used ≡ 0) × (self.new ≡ self.old)) }
        ensures after { IfOk result (λ fed. (rule : BodyRule) (bytes raw_put plain_put : List ℕ) (count : ℕ) → ReaderAfter rule bytes raw_put plain_put count self.old
            → ReaderAfter rule (bytes ++ piece.now) (raw_put ++ raw_in self.old piece.now) (plain_put ++ added plain.old plain.new) (count + fed.used) self.new) }
        ensures body { IfOk result (λ fed. (rule : BodyRule) (bytes raw_put plain_put : List ℕ) (count : ℕ) → ReaderAfter rule bytes raw_put plain_put count self.old
            → Body rule (bytes ++ piece.now) (record { raw = raw_put ++ raw_in self.old piece.now; plain = plain_put ++ added plain.old plain.new; used = count + fed.used; state = fed.state })) }
        ensures kept { length self.new.kept ≤ 8192 }
        ensures err { OnErr result ((self.new ≡ self.old) × (plain.new ≡ plain.old)) }
    {
        let alloc = *self.kept.allocator();
        let mut plain_bytes = take_bytes(alloc, plain)?;
        let advanced = extract(self.stage, &mut self.kept, piece, &mut plain_bytes);
        *plain = Text::from_vec(plain_bytes);
        match advanced {
            Ok(far) => {
                self.stage = far.stage;
                Ok(Fed {
                    used: far.used,
                    state: state_of(far.stage),
                })
            }
            Err(Mem) => Err(Mem),
        }
    }

    /// Takes the end of the bytes: a body to the close is whole, and any other that isn't is cut. It takes no memory.
    pub fn end(&mut self) -> State
        ensures state { result ≡ end_state_spec self.old.stage }
        ensures due { result ≡ (due_part self.old []).state }
        ensures ended { self.new ≡ record { stage = Stage.Ended result; kept = [] } }
        ensures by_rule { (rule : BodyRule) (bytes raw plain : List ℕ) (count : ℕ) → ReaderAfter rule bytes raw plain count self.old → result ≡ at_end rule (stage_state self.old.stage) }
    {
        let state = end_state(self.stage);
        self.stage = Stage::Ended(state);
        self.kept.clear();
        state
    }
}

/// Drops the line that was put behind the first `len` bytes, unless whole elements end.
fn settle_line(line: &mut Text, len: usize, whole: usize)
    ensures none { whole ≡ 0 → line.new ≡ take len line.old }
    ensures some { 0 < whole → line.new ≡ line.old }
{
    if whole == 0 {
        line.truncate(len);
    }
}

/// Takes a piece, its whole elements into `raw` and their data into `plain`.
fn advance(
    stage: Stage,
    kept: &mut Vec<u8>,
    piece: &[u8],
    raw: &mut Vec<u8>,
    plain: &mut Vec<u8>,
) -> Result<Far, Mem>
    requires settled { IsSettledAt stage kept.old.items }
    requires short { length kept.old.items ≤ LINE_LIMIT }
    ensures passes { IfOk result (λ far. Passes stage kept.old.items piece.now far kept.new.items) }
    ensures raw { IfOk result (λ far. raw.new.items ≡ raw.old.items ++ settled kept.old.items piece.now far.whole) }
    ensures plain { IfOk result (λ far. (data_bytes : List ℕ) → IsDataOf stage (settled kept.old.items piece.now far.whole) data_bytes → plain.new.items ≡ plain.old.items ++ data_bytes) }
    ensures err { OnErr result ((kept.new.items ≡ kept.old.items) × (raw.new.items ≡ raw.old.items) × (plain.new.items ≡ plain.old.items)) }
{
    line_room(stage, kept, piece)?;
    raw.reserve(kept.len() + piece.len())?;
    plain.reserve(kept.len() + piece.len())?;
    let from = raw.len();
    let far = add_settled(stage, kept, piece, raw);
    let len = plain.len();
    append(plain, &raw[from..]);
    keep_data(stage, plain, len);
    Ok(far)
}

/// Takes a piece, its data into `plain`.
fn extract(stage: Stage, kept: &mut Vec<u8>, piece: &[u8], plain: &mut Vec<u8>) -> Result<Far, Mem>
    requires settled { IsSettledAt stage kept.old.items }
    requires short { length kept.old.items ≤ LINE_LIMIT }
    ensures passes { IfOk result (λ far. Passes stage kept.old.items piece.now far kept.new.items) }
    ensures plain { IfOk result (λ far. (data_bytes : List ℕ) → IsDataOf stage (settled kept.old.items piece.now far.whole) data_bytes → plain.new.items ≡ plain.old.items ++ data_bytes) }
    ensures err { OnErr result ((kept.new.items ≡ kept.old.items) × (plain.new.items ≡ plain.old.items)) }
{
    line_room(stage, kept, piece)?;
    plain.reserve(kept.len() + piece.len())?;
    let len = plain.len();
    let far = add_settled(stage, kept, piece, plain);
    keep_data(stage, plain, len);
    Ok(far)
}
