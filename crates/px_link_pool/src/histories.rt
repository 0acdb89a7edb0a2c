// What was done with a pool, without bytes when it runs: each event has snapshots of what it was about.
ghost use Rattle.std.specs.Prelude.{◌≡◌, ◌++◌, ◌&&◌, ◌==◌, not, ℕ, List, [], IfOk};
ghost use Rattle.px_base.specs.Sources.{SourceState};
ghost use Rattle.px_base.specs.Sinks.{SinkState};
ghost use Rattle.px_base.specs.Dials.{DialerState, Coming, linked, dialed, finish, traffic, met, agrees, LeavesComing};
ghost use Rattle.px_link_pool.specs.Coming.{with_coming, MeetsComing};
ghost use Rattle.px_link_pool.specs.Joins.{over, inner_at_end, anew, joined_with, inner_by, with_joined, dials_over, is_home, are_home, again_over, fresh_over};
ghost use Rattle.px_base.specs.declared.dials.Dial.{Dial};
ghost use Rattle.px_pool_ends.specs.Incomings.{Hearing, outer_source, inner_source};
ghost use Rattle.px_pool_ends.specs.Outgoings.{Sending, outer_sink, inner_sink};
ghost use Rattle.px_link_pool.specs.Histories.{Views, dials_of, inner_of, kept_links, are_due, with_closed, gone_from, has_place, back_on, may_keep, from_there, counted_up, is_link_wanting, wanting_count, all_closed, IsJudged, AreJudged};
ghost use Rattle.px_link_pool.specs.Shelves.{items};
ghost use Rattle.px_link_pool.specs.Standing.{kept_states};

use crate::shelves::{KeptLink, Shelf};
use px_base::{DialFault, LocalSink, LocalSource, Text};
use px_pool_ends::{Incoming, Outgoing};
use std::snapshot::Snapshot;

/// What was dialled and hung up, from the newest back. I and O are the ends of a link of the pool, S and T those of an inner one.
#[derive(Drop)]
pub enum History<I, O, S, T> {
    Start,
    /// A dial of the inner dialer, and what it gave.
    Dialled {
        before: Snapshot<History<I, O, S, T>>,
        host: Snapshot<Text>,
        port: Snapshot<u16>,
        asked: Snapshot<Result<(S, T), DialFault>>,
        given: Snapshot<Result<(I, O), DialFault>>,
    },
    /// A dial that took a kept link.
    Again {
        before: Snapshot<History<I, O, S, T>>,
        host: Snapshot<Text>,
        port: Snapshot<u16>,
        given: Snapshot<Result<(I, O), DialFault>>,
    },
    /// A link that was hung up: where it was dialled to, and which link was hung up at the inner dialer, if any.
    HungUp {
        before: Snapshot<History<I, O, S, T>>,
        host: Snapshot<Text>,
        port: Snapshot<u16>,
        link_in: Snapshot<I>,
        link_out: Snapshot<O>,
        closing: Snapshot<Option<KeptLink<S, T>>>,
    },
    /// All kept links were hung up, the oldest first.
    Rested {
        before: Snapshot<History<I, O, S, T>>,
        kept: Snapshot<Shelf<KeptLink<S, T>>>,
    },
}

/// What a pool of such inner links has done.
pub type Past<S, O> = History<Incoming<S, O>, Outgoing<S, O>, S, O>;

/// What a dial of such a pool gives.
pub type Lent<S, O> = Result<(Incoming<S, O>, Outgoing<S, O>), DialFault>;

/// The history behind an inner dial.
pub fn dialled<S: LocalSource, O: LocalSink>(
    before: &Past<S, O>,
    host: Snapshot<Text>,
    port: u16,
    asked: Snapshot<Result<(S, O), DialFault>>,
    link: &Lent<S, O>,
) -> Past<S, O>
    requires host { IfOk link.now (λ l. l.0.host ≡ host.value) }
    requires port { IfOk link.now (λ l. l.0.port ≡ port) }
    ensures dials { (ins : Hearing → SourceState) (outs : Sending → SinkState) → dials_of ins outs result ≡ dials_of ins outs before.now ++ dialed host.value port (linked ins outs link.now) }
    ensures inner { (base : List Dial) (ins : S → SourceState) (outs : O → SinkState) → inner_of base ins outs result ≡ inner_of base ins outs before.now ++ dialed host.value port (linked ins outs asked.value) }
    ensures kept { (v : Views S O) → kept_links v result ≡ gone_from host.value port (kept_links v before.now) }
    ensures due { (v : Views S O) → are_due v result ≡ (not (has_place host.value port (kept_links v before.now)) && are_due v before.now) }
    ensures over { (v : Views S O) → over v result ≡ (λ mark. anew host.value port mark (linked v.ins v.outs asked.value) (over v before.now mark)) }
    ensures joined { (base : List Dial) (v : Views S O) → inner_by base v result ≡ inner_by base v before.now ++ dialed host.value port (linked v.ins v.outs asked.value) }
    ensures home { (v : Views S O) → are_home v result ≡ are_home v before.now }
    ensures lent { (v : Views S O) → dials_over v result ≡ dials_over v before.now ++ fresh_over host.value port (linked v.ins v.outs asked.value) }
    ensures wanted { wanting_count result ≡ wanting_count before.now }
    ensures judged { AreJudged before.now → AreJudged result }
    ensures coming { (v : Views S O) (first : DialerState) (was left : List Coming) → MeetsComing v first before.now was → agrees (met (with_coming first was) host.value) (linked v.ins v.outs asked.value)
        → LeavesComing (with_coming first was) (with_coming first left) host.value (linked v.ins v.outs asked.value) → MeetsComing v first result left }
    ensures host { IfOk link.now (λ l. l.0.host ≡ host.value) }
    ensures port { IfOk link.now (λ l. l.0.port ≡ port) }
{
    History::Dialled {
        before: Snapshot::of(before),
        host,
        port: Snapshot::of(&port),
        asked,
        given: Snapshot::of(link),
    }
}

/// The history behind a dial that took a kept link.
pub fn taken_again<S: LocalSource, O: LocalSink>(
    before: &Past<S, O>,
    host: Snapshot<Text>,
    port: u16,
    link: &Lent<S, O>,
) -> Past<S, O>
    requires host { IfOk link.now (λ l. l.0.host ≡ host.value) }
    requires port { IfOk link.now (λ l. l.0.port ≡ port) }
    ensures dials { (ins : Hearing → SourceState) (outs : Sending → SinkState) → dials_of ins outs result ≡ dials_of ins outs before.now ++ dialed host.value port (linked ins outs link.now) }
    ensures inner { (base : List Dial) (ins : S → SourceState) (outs : O → SinkState) → inner_of base ins outs result ≡ inner_of base ins outs before.now }
    ensures kept { (v : Views S O) → kept_links v result ≡ gone_from host.value port (kept_links v before.now) }
    ensures due { (v : Views S O) → are_due v result ≡ (has_place host.value port (kept_links v before.now) && are_due v before.now) }
    ensures over { (v : Views S O) → over v result ≡ over v before.now }
    ensures joined { (base : List Dial) (v : Views S O) → inner_by base v result ≡ inner_by base v before.now }
    ensures home { (v : Views S O) → are_home v result ≡ (is_home host.value port (over v before.now) (from_there host.value port (kept_links v before.now)) && are_home v before.now) }
    ensures lent { (v : Views S O) → dials_over v result ≡ dials_over v before.now ++ again_over host.value port (over v before.now) (from_there host.value port (kept_links v before.now)) }
    ensures wanted { wanting_count result ≡ wanting_count before.now }
    ensures judged { AreJudged before.now → AreJudged result }
    ensures coming { (v : Views S O) (first : DialerState) (left : List Coming) → MeetsComing v first before.now left → MeetsComing v first result left }
    ensures host { IfOk link.now (λ l. l.0.host ≡ host.value) }
    ensures port { IfOk link.now (λ l. l.0.port ≡ port) }
{
    History::Again {
        before: Snapshot::of(before),
        host,
        port: Snapshot::of(&port),
        given: Snapshot::of(link),
    }
}

/// The history behind a link that is hung up.
pub fn hung_up<S: LocalSource, O: LocalSink>(
    before: &Past<S, O>,
    host: Snapshot<Text>,
    port: u16,
    link_in: Snapshot<Incoming<S, O>>,
    link_out: Snapshot<Outgoing<S, O>>,
    closing: &Option<KeptLink<S, O>>,
) -> Past<S, O>
    ensures dials { (ins : Hearing → SourceState) (outs : Sending → SinkState) → dials_of ins outs result ≡ finish (ins link_in.value).mark (traffic (ins link_in.value) (outs link_out.value)) (dials_of ins outs before.now) }
    ensures inner { (base : List Dial) (ins : S → SourceState) (outs : O → SinkState) → inner_of base ins outs result ≡ with_closed ins outs closing.now (inner_of base ins outs before.now) }
    ensures kept { (v : Views S O) → kept_links v result ≡ back_on (may_keep link_in.value link_out.value) (record { host = host.value; port = port; link_in = inner_source link_in.value; link_out = inner_sink link_out.value }) (kept_links v before.now) }
    ensures due { (v : Views S O) → are_due v result ≡ are_due v before.now }
    ensures over { (v : Views S O) → over v result ≡ (λ mark. joined_with ((inner_source link_in.value).mark == mark) link_in.value link_out.value (over v before.now mark)) }
    ensures joined { (base : List Dial) (v : Views S O) → inner_by base v result ≡ with_joined v.ins v.outs (over v result) closing.now (inner_by base v before.now) }
    ensures home { (v : Views S O) → are_home v result ≡ are_home v before.now }
    ensures lent { (v : Views S O) → dials_over v result ≡ finish (outer_source link_in.value).mark (traffic (outer_source link_in.value) (outer_sink link_out.value)) (dials_over v before.now) }
    ensures wanted { wanting_count result ≡ counted_up (is_link_wanting link_in.value link_out.value) (wanting_count before.now) }
    ensures judged { IsJudged link_in.value link_out.value → AreJudged before.now → AreJudged result }
    ensures coming { (v : Views S O) (first : DialerState) (left : List Coming) → MeetsComing v first before.now left → MeetsComing v first result left }
{
    History::HungUp {
        before: Snapshot::of(before),
        host,
        port: Snapshot::of(&port),
        link_in,
        link_out,
        closing: Snapshot::of(closing),
    }
}

/// The history behind the kept links' end.
pub fn rested<S: LocalSource, O: LocalSink>(
    before: &Past<S, O>,
    kept: Snapshot<Shelf<KeptLink<S, O>>>,
) -> Past<S, O>
    ensures dials { (ins : Hearing → SourceState) (outs : Sending → SinkState) → dials_of ins outs result ≡ dials_of ins outs before.now }
    ensures inner { (base : List Dial) (ins : S → SourceState) (outs : O → SinkState) → inner_of base ins outs result ≡ all_closed (kept_states ins outs (items kept.value)) (inner_of base ins outs before.now) }
    ensures kept { (v : Views S O) → kept_links v result ≡ [] }
    ensures due { (v : Views S O) → are_due v result ≡ are_due v before.now }
    ensures over { (v : Views S O) → over v result ≡ over v before.now }
    ensures joined { (base : List Dial) (v : Views S O) → inner_by base v result ≡ inner_at_end base v before.now }
    ensures home { (v : Views S O) → are_home v result ≡ are_home v before.now }
    ensures lent { (v : Views S O) → dials_over v result ≡ dials_over v before.now }
    ensures wanted { wanting_count result ≡ wanting_count before.now }
    ensures judged { AreJudged before.now → AreJudged result }
    ensures coming { (v : Views S O) (first : DialerState) (left : List Coming) → MeetsComing v first before.now left → MeetsComing v first result left }
{
    History::Rested {
        before: Snapshot::of(before),
        kept,
    }
}
