// The pump: what is returned of an answer that comes in pieces.
ghost use Rattle.std.specs.Prelude.{◌≡◌, ◌≢◌, ◌+◌, ◌^◌, ◌<◌, ◌≤◌, ◌++◌, ℕ, List, [], length, drop, None, IfOk, OnErr};
ghost use Rattle.px_head.specs.Searches.{BeginsSearched};
ghost use Rattle.px_answers.specs.Finished.{Work};
ghost use Rattle.px_answers.specs.declared.forms.Framed as framed;
ghost use Rattle.px_answers.specs.Passages as passages;
ghost use Rattle.px_templates.specs.declared.pages.Page as page;
ghost use Rattle.px_pumps.specs.declared.dues.Due as due;
ghost use Rattle.px_pumps.specs.Answering.{Ask, most_heads};
ghost use Rattle.px_pumps.specs.Asking.{ask_of};
ghost use Rattle.px_pumps.specs.Heads.{LeadsPastInterims, heads_room};
ghost use Rattle.px_pumps.specs.Pumps.{EndsAnswer, flow_at, flow_by, front_bytes, held_at, IsOfAnswer, IsStageSettled, keeps_at, keeps_by, PassageAfter, pieces_left, PumpAfter, Pumped, SoFar, StageAfter, StaysAtEnd};
ghost use Rattle.px_framing.specs.Reading.{added};

use crate::dues::ending_of;
use crate::flows::Flow;
use crate::framings::{Settled, settle};
use crate::heads::{HeadsRead, read_heads};
use crate::laws::passage_tells;
use px_answers::{AnswerOutcome, Passage};
use px_base::{Mem, Text};
use px_config::{Config, Running};
use px_filter_files::WarmFilters;
use px_head::{HEAD_LIMIT, HeadSearch};
use px_notes::Asked;
use px_templates::Page;
use std::alloc::Global;
use std::marker::Model;
use std::mem::replace;

/// So many heads of an answer are read at most: eight interim ones, and its own.
const MOST_HEADS: u8 = 9;

/// An answer's head that isn't whole.
#[derive(Drop)]
pub struct UnfinishedHead {
    pub asked: Asked,
    /// With it at most so many heads are read.
    pub left: u8,
    /// Its bytes so far, and how far they were searched.
    pub held: Text,
    pub search: HeadSearch,
}

/// How far an answer has come.
#[derive(Drop)]
pub enum PumpStage {
    Heading(UnfinishedHead),
    /// The answer's own head is whole.
    Behind(Passage),
    Refused(Page),
    /// Memory was wanting.
    Wanting,
}

fn flow_by(outcome: Option<AnswerOutcome>) -> Flow
    ensures { result ≡ flow_by outcome }
{
    match outcome {
        None => Flow::More,
        Some(outcome) => Flow::Done(ending_of(outcome.returned)),
    }
}

fn keeps_by(outcome: Option<AnswerOutcome>) -> bool
    ensures { result ≡ keeps_by outcome }
{
    match outcome {
        None => false,
        Some(outcome) => outcome.keep,
    }
}

impl PumpStage {
    fn flow(&self) -> Flow
        ensures { result ≡ flow_at self.now }
    {
        match self {
            PumpStage::Heading(_) => Flow::More,
            PumpStage::Behind(passage) => flow_by(passage.ended()),
            PumpStage::Refused(page) => Flow::Refused(*page),
            PumpStage::Wanting => Flow::More,
        }
    }

    fn keeps(&self) -> bool
        ensures { result ≡ keeps_at self.now }
    {
        match self {
            PumpStage::Heading(_) => false,
            PumpStage::Behind(passage) => keeps_by(passage.ended()),
            PumpStage::Refused(_) => false,
            PumpStage::Wanting => false,
        }
    }
}

/// The bytes at whose front heads are read: those of the first piece as they came, or those that are held.
#[derive(Drop)]
pub enum HeadFront<'p> {
    Piece(&'p [u8]),
    Held(Text),
}

impl<'p> HeadFront<'p> {
    /// The bytes that are held with a piece behind them. Where none are held the piece is not copied.
    fn joined(held: Text, piece: &'p [u8]) -> Result<HeadFront<'p>, Mem>
        ensures { IfOk result (λ front. front_bytes front ≡ held ++ piece.now) }
    {
        if held.is_empty() {
            return Ok(HeadFront::Piece(piece));
        }
        let mut held = held;
        held.push_all(piece)?;
        Ok(HeadFront::Held(held))
    }

    fn as_bytes(&self) -> &[u8]
        ensures { result.now ≡ front_bytes self.now }
    {
        match self {
            HeadFront::Piece(piece) => piece,
            HeadFront::Held(held) => held.as_bytes(),
        }
    }

    /// The bytes from there on, to be held. Those of a piece are copied, held ones only where there are others before them.
    fn hold_from(self, alloc: Global, from: usize) -> Result<Text, Mem>
        requires { from ≤ length (front_bytes self) }
        ensures { IfOk result (λ rest. rest ≡ drop from (front_bytes self.entry)) }
    {
        match self {
            HeadFront::Piece(piece) => Text::from_bytes(alloc, &piece[from..]),
            HeadFront::Held(held) => bytes_from(alloc, held, from),
        }
    }
}

/// The bytes from there on.
fn bytes_from(alloc: Global, held: Text, from: usize) -> Result<Text, Mem>
    requires { from ≤ length held }
    ensures { IfOk result (λ rest. rest ≡ drop from held) }
{
    if from == 0 {
        Ok(held)
    } else {
        Text::from_bytes(alloc, &held.as_bytes()[from..])
    }
}

/// The machine behind a head, fed with what follows it so far.
fn begin_behind(
    alloc: Global,
    warm: &mut WarmFilters<'_>,
    settled: Settled,
    rest: &[u8],
    out: &mut Text,
) -> Result<Passage, Mem>
    ensures after { IfOk result (λ p. PassageAfter (record { filters = warm.old; vars = settled.vars }) settled.framed rest.now (added out.old out.new) p) }
    ensures grows { IfOk result (λ _. out.new ≡ out.old ++ added out.old out.new) }
    ensures kept { OnErr result (out.new ≡ out.old ++ added out.old out.new) }
    ensures framed { IfOk result (λ p. p.framed ≡ settled.framed) }
    ensures room { IfOk result (λ p. passages.ended_of p.course ≡ None → passages.room_of p.course < 2 ^ 64) }
    ensures same { warm.new ≡ warm.old }
{
    let Settled { framed, vars } = settled;
    let mut passage = Passage::new(alloc, warm, vars, framed, out)?;
    passage.feed(warm, rest, out)?;
    Ok(passage)
}

/// Goes on from the bytes at whose front heads are read, the last of them new; with the first head at most `left` are read.
fn pass_heads(
    alloc: Global,
    running: &mut Running<'_>,
    asked: Asked,
    left: u8,
    front: HeadFront<'_>,
    search: HeadSearch,
    out: &mut Text,
) -> Result<PumpStage, Mem>
    requires begins { BeginsSearched HEAD_LIMIT (front_bytes front) search }
    ensures after { IfOk result (λ next. (ask : Ask) (fed : List ℕ) → ask ≡ ask_of running.old asked ask.page_due → LeadsPastInterims most_heads ask.method fed left (front_bytes front.entry)
        → StageAfter ask fed (added out.old out.new) running.old next) }
    ensures grows { IfOk result (λ _. out.new ≡ out.old ++ added out.old out.new) }
    ensures kept { OnErr result (out.new ≡ out.old ++ added out.old out.new) }
    ensures settled { IfOk result (IsStageSettled running.old) }
    ensures pieces { IfOk result (λ next. (count : ℕ) → count < length (front_bytes front.entry) → count < HEAD_LIMIT → flow_at next ≡ Flow.More
        → pieces_left next < 2 ^ 64 + heads_room left count) }
    ensures same { running.new ≡ running.old }
{
    match read_heads(
        alloc,
        asked.method.as_bytes(),
        left,
        front.as_bytes(),
        search,
    )? {
        HeadsRead::Waiting { left, from, search } => {
            let held = front.hold_from(alloc, from)?;
            Ok(PumpStage::Heading(UnfinishedHead {
                asked,
                left,
                held,
                search,
            }))
        }
        HeadsRead::Refused => Ok(PumpStage::Refused(Page::BadReply)),
        HeadsRead::Final { head, rule, from } => {
            let settled = settle(alloc, running, asked, head, rule)?;
            let passage = begin_behind(
                alloc,
                &mut running.filters,
                settled,
                &front.as_bytes()[from..],
                out,
            )?;
            Ok(PumpStage::Behind(passage))
        }
    }
}

/// Feeds a piece to a stage.
fn advance(
    alloc: Global,
    running: &mut Running<'_>,
    stage: PumpStage,
    piece: &[u8],
    out: &mut Text,
) -> Result<PumpStage, Mem>
    requires settled { IsStageSettled running.old stage }
    ensures after { IfOk result (λ next. (ask : Ask) (fed put : List ℕ) → StageAfter ask fed put running.old stage → StageAfter ask (fed ++ piece.now) (put ++ added out.old out.new) running.old next) }
    ensures grows { IfOk result (λ _. out.new ≡ out.old ++ added out.old out.new) }
    ensures kept { OnErr result (out.new ≡ out.old ++ added out.old out.new) }
    ensures settled { IfOk result (IsStageSettled running.old) }
    ensures repeats { IfOk result (λ next. StaysAtEnd stage next out.old out.new) }
    ensures live { IfOk result (λ _. stage ≢ PumpStage.Wanting) }
    ensures pieces { IfOk result (λ next. flow_at next ≡ Flow.More → 0 < length piece.now → pieces_left next < pieces_left stage) }
    ensures same { running.new ≡ running.old }
{
    match stage {
        PumpStage::Heading(heading) => {
            let UnfinishedHead {
                asked,
                left,
                held,
                search,
            } = heading;
            let front = HeadFront::joined(held, piece)?;
            let next = pass_heads(alloc, running, asked, left, front, search, out)?;
            Ok(next)
        }
        PumpStage::Behind(passage) => {
            let mut passage = passage;
            passage.feed(&mut running.filters, piece, out)?;
            Ok(PumpStage::Behind(passage))
        }
        PumpStage::Refused(page) => Ok(PumpStage::Refused(page)),
        PumpStage::Wanting => Err(Mem),
    }
}

/// Ends the bytes.
fn finish(
    running: &mut Running<'_>,
    stage: PumpStage,
    failed: bool,
    out: &mut Text,
) -> Result<PumpStage, Mem>
    requires settled { IsStageSettled running.old stage }
    ensures ended { IfOk result (λ next. (ask : Ask) (fed put : List ℕ) → StageAfter ask fed put running.old stage
        → EndsAnswer ask (flow_at next) (keeps_at next) fed failed (put ++ added out.old out.new)) }
    ensures grows { IfOk result (λ _. out.new ≡ out.old ++ added out.old out.new) }
    ensures kept { OnErr result (out.new ≡ out.old ++ added out.old out.new) }
    ensures settled { IfOk result (IsStageSettled running.old) }
    ensures repeats { IfOk result (λ next. StaysAtEnd stage next out.old out.new) }
    ensures over { IfOk result (λ next. flow_at next ≢ Flow.More) }
    ensures live { IfOk result (λ _. stage ≢ PumpStage.Wanting) }
    ensures same { running.new ≡ running.old }
{
    match stage {
        PumpStage::Heading(_) => Ok(PumpStage::Refused(Page::NoServerData)),
        PumpStage::Behind(passage) => {
            let mut passage = passage;
            passage.end(&mut running.filters, failed, out)?;
            Ok(PumpStage::Behind(passage))
        }
        PumpStage::Refused(page) => Ok(PumpStage::Refused(page)),
        PumpStage::Wanting => Err(Mem),
    }
}

/// Returns an answer that comes in pieces: it holds each head until it is whole, drops the interim ones, and then puts out what is
/// due of each piece. An answer that may still be filtered is held. What filters keep from run to run is lent by each call.
#[derive(Drop)]
pub struct Pump<'a> {
    alloc: Global,
    config: &'a Config,
    stage: PumpStage,
}

impl<'a> Model for Pump<'a> {
    ghost use Rattle.px_pumps.specs.Pumps.{Pumping, IsStageSettled};

    ghost Value = { Pumping };

    ghost view = { λ p. record { config = p.config.now; stage = p.stage } };

    ghost invariant = { λ p. IsStageSettled p.config.now p.stage };
}

impl<'a> Pump<'a> {
    /// A pump that was fed nothing.
    pub fn new(alloc: Global, config: &'a Config, asked: Asked) -> Pump<'a>
        ensures after { (page_due : page.Page → due.Due) → PumpAfter (ask_of config.now asked page_due) [] [] result }
        ensures config { result.config ≡ config.now }
    {
        Pump {
            alloc,
            config,
            stage: PumpStage::Heading(UnfinishedHead {
                asked,
                left: MOST_HEADS,
                held: Text::new(alloc),
                search: HeadSearch::new(),
            }),
        }
    }

    /// Feeds a piece, and adds what it puts out. What runs is its configuration. Once the
    /// flow isn't `More` it stays, and nothing is put out. After `Mem` each further call gives `Mem`,
    /// and `out` still begins with what it held.
    pub fn feed(
        &mut self,
        running: &mut Running<'_>,
        piece: &[u8],
        out: &mut Text,
    ) -> Result<Flow, Mem>
        requires of { running.old ≡ self.old.config }
        ensures after { IfOk result (λ _. (ask : Ask) (fed put : List ℕ) → PumpAfter ask fed put self.old → PumpAfter ask (fed ++ piece.now) (put ++ added out.old out.new) self.new) }
        ensures pumped { IfOk result (λ f. (ask : Ask) (fed put : List ℕ) → PumpAfter ask fed put self.old → Pumped ask (fed ++ piece.now) (put ++ added out.old out.new) f (keeps_at self.new.stage)) }
        ensures grows { IfOk result (λ _. out.new ≡ out.old ++ added out.old out.new) }
        ensures kept { OnErr result (out.new ≡ out.old ++ added out.old out.new) }
        ensures shows { IfOk result (λ f. f ≡ flow_at self.new.stage) }
        ensures kind { IfOk result IsOfAnswer }
        ensures repeats { IfOk result (λ _. StaysAtEnd self.old.stage self.new.stage out.old out.new) }
        ensures progress { IfOk result (λ f. f ≡ Flow.More → 0 < length piece.now → pieces_left self.new.stage < pieces_left self.old.stage) }
        ensures so_far { (ask : Ask) (fed put : List ℕ) → PumpAfter ask fed put self.old → SoFar ask fed put }
        ensures live { IfOk result (λ _. self.old.stage ≢ PumpStage.Wanting) }
        ensures wanting { OnErr result (self.new.stage ≡ PumpStage.Wanting) }
        ensures config { self.new.config ≡ self.old.config }
        ensures same { running.new ≡ running.old }
    {
        passage_tells();
        let stage = replace(&mut self.stage, PumpStage::Wanting);
        let next = advance(self.alloc, running, stage, piece, out)?;
        let flow = next.flow();
        self.stage = next;
        Ok(flow)
    }

    /// Ends the answer, and adds what it puts out. `failed` says that its source failed. The flow is
    /// then at its end. What runs is its configuration. After `Mem` each further call
    /// gives `Mem`, and `out` still begins with what it held.
    pub fn end(
        &mut self,
        running: &mut Running<'_>,
        failed: bool,
        out: &mut Text,
    ) -> Result<Flow, Mem>
        requires of { running.old ≡ self.old.config }
        ensures ended { IfOk result (λ f. (ask : Ask) (fed put : List ℕ) → PumpAfter ask fed put self.old → EndsAnswer ask f (keeps_at self.new.stage) fed failed (put ++ added out.old out.new)) }
        ensures grows { IfOk result (λ _. out.new ≡ out.old ++ added out.old out.new) }
        ensures kept { OnErr result (out.new ≡ out.old ++ added out.old out.new) }
        ensures shows { IfOk result (λ f. f ≡ flow_at self.new.stage) }
        ensures kind { IfOk result IsOfAnswer }
        ensures repeats { IfOk result (λ _. StaysAtEnd self.old.stage self.new.stage out.old out.new) }
        ensures over { IfOk result (λ f. f ≢ Flow.More) }
        ensures so_far { (ask : Ask) (fed put : List ℕ) → PumpAfter ask fed put self.old → SoFar ask fed put }
        ensures live { IfOk result (λ _. self.old.stage ≢ PumpStage.Wanting) }
        ensures wanting { OnErr result (self.new.stage ≡ PumpStage.Wanting) }
        ensures config { self.new.config ≡ self.old.config }
        ensures same { running.new ≡ running.old }
    {
        passage_tells();
        let stage = replace(&mut self.stage, PumpStage::Wanting);
        let next = finish(running, stage, failed, out)?;
        let flow = next.flow();
        self.stage = next;
        Ok(flow)
    }

    /// How many of the answer's bytes are held: those of a head that isn't whole, or the raw ones of a body that may still be
    /// filtered. With an unfinished line of at most 8,192 bytes they are all that are kept.
    pub fn held(&self) -> u64
        ensures kept { held_at self.now.stage ≤ result + 8192 }
        ensures within { result ≤ self.now.config.settings.buffer_limit + HEAD_LIMIT }
    {
        match &self.stage {
            PumpStage::Heading(heading) => heading.held.len() as u64,
            PumpStage::Behind(passage) => passage.held(),
            PumpStage::Refused(_) => 0,
            PumpStage::Wanting => 0,
        }
    }

    /// Whether the client's connection is kept behind an answer that is done.
    pub fn keeps(&self) -> bool
        ensures { result ≡ keeps_at self.now.stage }
    {
        self.stage.keeps()
    }
}
