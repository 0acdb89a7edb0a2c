// The dialer that keeps links.
ghost use Rattle.std.specs.Prelude.{◌≡◌, ◌≤◌, ◌-◌, length, ◌++◌, ◌∷◌, [], List, true, false, not, ◌==◌, ◌&&◌, IsTrue, IfOk, ℕ};
ghost use Rattle.std.specs.Option.{ForSome};
ghost use Rattle.px_base.specs.Causes.{RisesWith, IsOneMore};
ghost use Rattle.px_base.specs.Dials.{DialerGoesOn, DialCause, HangsUp, IsFresh, IsTold, linked, dialed, is_open};
ghost use Rattle.px_base.specs.declared.dials.Dial.{Dial};
ghost use Rattle.px_pool_ends.specs.Incomings.{outer_source, inner_source};
ghost use Rattle.px_pool_ends.specs.Outgoings.{outer_sink, inner_sink};
ghost use Rattle.px_link_pool.specs.Histories.{dials_of, are_due, inner_of, kept_links, all_closed, wanting_count, HistoryTells, AreJudged};
ghost use Rattle.px_link_pool.specs.Joins.{Joins, dials_over, are_home, inner_at_end};
ghost use Rattle.px_link_pool.specs.Coming.{MeetsComing};
ghost use Rattle.px_link_pool.specs.Pools.{counts_on, pool_state};
ghost use Rattle.px_link_pool.specs.declared.histories.History.{Start};
ghost use Rattle.px_link_pool.specs.Balances.{HangsUpOthers, IsBalanced};
ghost use Rattle.px_link_pool.specs.Shelves.{items};
ghost use Rattle.px_link_pool.specs.Standing.{PoolStands, kept_state, kept_states, is_told};

use crate::bases::{Anew, Base};
use crate::histories::{History, Past, dialled, hung_up, rested, taken_again};
use crate::lending::{handed, lacks_memory, lend};
use crate::resting::{Look, Sees, take_resting};
use crate::shelves::{KeptLink, Shelf, done, fill, pop, shelve};
use px_base::{DialFault, Dialer, LocalDialer, LocalSink, LocalSource, Sink, Source, Text, raised};
use px_pool_ends::{Incoming, Outgoing};
use std::alloc::Global;
use std::marker::PhantomData;
use std::mem;
use std::snapshot::Snapshot;

/// A dialer over another one that keeps up to four links that were hung up, and gives them again. The history, what the inner
/// dialer had dialled before and how it was then are there for contracts alone, and take no bytes.
pub struct LinkPool<D: LocalDialer, N: Base = Anew> {
    alloc: Global,
    inner: D,
    base: PhantomData<N>,
    /// The inner dialer as the pool was made.
    made_over: Snapshot<D>,
    kept: Shelf<KeptLink<D::In, D::Out>>,
    history: Past<D::In, D::Out>,
    link_reads: u64,
    link_writes: u64,
    opened: u64,
    hung_up: u64,
    wanting: u64,
    ghost stands: { PoolStands (D.state inner) (dials_of inner_source inner_sink history) (kept_states D.In.state D.Out.state (items kept)) },
    ghost told: { IsTrue (D.state inner).tells → HistoryTells (record { ins = D.In.state; outs = D.Out.state }) N.dialled (D.state inner).dials (kept_states D.In.state D.Out.state (items kept)) history },
    ghost joins: { IsTrue (D.state inner).tells → Joins (record { ins = D.In.state; outs = D.Out.state }) N.dialled (D.state inner).dials (kept_states D.In.state D.Out.state (items kept)) history },
    ghost counts: { wanting ≡ wanting_count history },
    ghost judged: { IsTrue (D.state inner).tells → ∥ AreJudged history ∥₁ },
    ghost servers: { ForSome N.first (λ d. (D.state inner).through_servers ≡ d.through_servers) },
    ghost coming: { ForSome N.first (λ d. IsTrue (D.state inner).tells → IsTrue (D.state inner).tells_coming → ∥ MeetsComing (record { ins = D.In.state; outs = D.Out.state }) d history (D.state inner).coming ∥₁) },
    ghost balance: { IsBalanced (D.state inner) (counts_on (D.state made_over.value).opened opened) (counts_on (D.state made_over.value).hung_up hung_up) (length (items kept)) },
}

impl<D: LocalDialer, N: Base> LinkPool<D, N> {
    /// A pool over a dialer, with no kept links. It takes no memory.
    pub fn new(alloc: Global, inner: D) -> LinkPool<D, N>
        requires base { (D.state inner).dials ≡ N.dialled }
        requires first { ForSome N.first (λ d. D.state inner ≡ d) }
        ensures inner { result.inner ≡ inner }
        ensures made_over { result.made_over.value ≡ inner }
        ensures history { result.history ≡ Start }
        ensures no_link_read_failed { result.link_reads ≡ 0 }
        ensures no_link_write_failed { result.link_writes ≡ 0 }
        ensures none_opened { result.opened ≡ 0 }
        ensures none_hung_up { result.hung_up ≡ 0 }
    {
        let made_over = Snapshot::of(&inner);
        LinkPool {
            alloc,
            inner,
            base: PhantomData,
            made_over,
            kept: Shelf::Empty,
            history: History::Start,
            link_reads: 0,
            link_writes: 0,
            opened: 0,
            hung_up: 0,
            wanting: 0,
        }
    }

    /// For how many links memory was wanting while their answer was followed or their bytes were sent; none of these was kept. At
    /// its end the number stays.
    pub fn wanting(&self) -> u64
        ensures { result ≡ wanting_count self.now.history }
    {
        self.wanting
    }

    /// What was dialled and hung up so far. It takes no bytes.
    pub fn history(&self) -> Snapshot<Past<D::In, D::Out>>
        ensures { result.value ≡ self.now.history }
    {
        Snapshot::of(&self.history)
    }

    /// Hangs up the kept links, the oldest first, and hands the inner dialer back.
    pub fn into_inner(self) -> D
        ensures joined { IsTrue (D.state self.inner).tells → (D.state result).dials ≡ inner_at_end N.dialled (record { ins = D.In.state; outs = D.Out.state }) self.history }
        ensures told { IsTrue (D.state self.inner).tells → dials_of outer_source outer_sink self.history ≡ dials_over (record { ins = D.In.state; outs = D.Out.state }) self.history }
        ensures home { IsTrue (D.state self.inner).tells → IsTrue (are_home (record { ins = D.In.state; outs = D.Out.state }) self.history) }
        ensures due { IsTrue (D.state self.inner).tells → are_due (record { ins = D.In.state; outs = D.Out.state }) self.history ≡ true }
        ensures kept { IsTrue (D.state self.inner).tells → kept_states D.In.state D.Out.state (items self.kept) ≡ kept_links (record { ins = D.In.state; outs = D.Out.state }) self.history }
        ensures dials { IsTrue (D.state self.inner).tells → (D.state result).dials ≡ all_closed (kept_states D.In.state D.Out.state (items self.kept)) (inner_of N.dialled D.In.state D.Out.state self.history) }
        ensures judged { IsTrue (D.state self.inner).tells → ∥ AreJudged self.history ∥₁ }
        ensures coming { ForSome N.first (λ d. IsTrue (D.state self.inner).tells → IsTrue (D.state self.inner).tells_coming → ∥ MeetsComing (record { ins = D.In.state; outs = D.Out.state }) d self.history (D.state result).coming ∥₁) }
        ensures balance { IsBalanced (D.state result) (counts_on (D.state self.made_over.value).opened self.opened) (counts_on (D.state self.made_over.value).hung_up self.hung_up) 0 }
        ensures goes_on { DialerGoesOn (D.state self.inner) (D.state result) }
    {
        let LinkPool {
            alloc: _,
            mut inner,
            base: _,
            made_over: _,
            kept,
            history: _,
            link_reads: _,
            link_writes: _,
            opened: _,
            hung_up: _,
            wanting: _,
        } = self;
        close_all(&mut inner, kept);
        inner
    }

    /// Hangs up the kept links, the oldest first, so that none is kept. As a dialer the pool stays what it was.
    pub fn rest(&mut self)
        ensures same { pool_state (D.state self.new.made_over.value) (D.state self.new.inner) self.new.history self.new.link_reads self.new.link_writes self.new.opened self.new.hung_up ≡ pool_state (D.state self.old.made_over.value) (D.state self.old.inner) self.old.history self.old.link_reads self.old.link_writes self.old.opened self.old.hung_up }
        ensures none_kept { items self.new.kept ≡ [] }
        ensures wanting { self.new.wanting ≡ self.old.wanting }
        ensures balance { IsBalanced (D.state self.new.inner) (counts_on (D.state self.new.made_over.value).opened self.new.opened) (counts_on (D.state self.new.made_over.value).hung_up self.new.hung_up) 0 }
        ensures joined { IsTrue (D.state self.old.inner).tells → (D.state self.new.inner).dials ≡ inner_at_end N.dialled (record { ins = D.In.state; outs = D.Out.state }) self.old.history }
        ensures goes_on { DialerGoesOn (D.state self.old.inner) (D.state self.new.inner) }
    {
        let kept = mem::replace(&mut self.kept, Shelf::Empty);
        let noted = Snapshot::of(&kept);
        close_all(&mut self.inner, kept);
        self.history = rested(&self.history, noted);
    }
}

/// Hangs up the kept links, the oldest first.
fn close_all<D: LocalDialer>(inner: &mut D, kept: Shelf<KeptLink<D::In, D::Out>>)
    requires { (outer : List Dial) × PoolStands (D.state inner.old) outer (kept_states D.In.state D.Out.state (items kept)) }
    ensures stands { (outer : List Dial) → PoolStands (D.state inner.old) outer (kept_states D.In.state D.Out.state (items kept)) → PoolStands (D.state inner.new) outer [] }
    ensures dials { IsTrue (D.state inner.old).tells → (D.state inner.new).dials ≡ all_closed (kept_states D.In.state D.Out.state (items kept)) (D.state inner.old).dials }
    ensures coming { IsTrue (D.state inner.old).tells_coming → (D.state inner.new).coming ≡ (D.state inner.old).coming }
    ensures hung_up { HangsUpOthers (D.state inner.old) (D.state inner.new) (length (items kept)) 0 }
    ensures tells { (D.state inner.new).tells ≡ (D.state inner.old).tells }
    ensures names { (D.state inner.new).names ≡ (D.state inner.old).names }
    ensures reach { (D.state inner.new).reach ≡ (D.state inner.old).reach }
    ensures goes_on { DialerGoesOn (D.state inner.old) (D.state inner.new) }
{
    let kept = close_oldest(inner, kept);
    let kept = close_oldest(inner, kept);
    let kept = close_oldest(inner, kept);
    let kept = close_oldest(inner, kept);
    done(kept);
}

/// Hangs up the oldest kept link, if there is one.
fn close_oldest<D: LocalDialer>(
    inner: &mut D,
    kept: Shelf<KeptLink<D::In, D::Out>>,
) -> Shelf<KeptLink<D::In, D::Out>>
    requires { (outer : List Dial) × PoolStands (D.state inner.old) outer (kept_states D.In.state D.Out.state (items kept)) }
    ensures stands { (outer : List Dial) → PoolStands (D.state inner.old) outer (kept_states D.In.state D.Out.state (items kept)) → PoolStands (D.state inner.new) outer (kept_states D.In.state D.Out.state (items result)) }
    ensures dials { IsTrue (D.state inner.old).tells → all_closed (kept_states D.In.state D.Out.state (items result)) (D.state inner.new).dials ≡ all_closed (kept_states D.In.state D.Out.state (items kept)) (D.state inner.old).dials }
    ensures tells { (D.state inner.new).tells ≡ (D.state inner.old).tells }
    ensures names { (D.state inner.new).names ≡ (D.state inner.old).names }
    ensures reach { (D.state inner.new).reach ≡ (D.state inner.old).reach }
    ensures goes_on { DialerGoesOn (D.state inner.old) (D.state inner.new) }
    ensures coming { IsTrue (D.state inner.old).tells_coming → (D.state inner.new).coming ≡ (D.state inner.old).coming }
    ensures hung_up { HangsUpOthers (D.state inner.old) (D.state inner.new) (length (items kept)) (length (items result)) }
    ensures fewer { length (items result) ≡ length (items kept) - 1 }
    ensures most { length (items kept) ≤ 4 }
{
    let (rest, oldest) = pop(kept);
    match oldest {
        Some(oldest) => {
            let KeptLink {
                source,
                sink,
                host: _,
                port: _,
            } = oldest;
            inner.hang_up(source, sink);
            rest
        }
        None => rest,
    }
}

impl<D: Dialer, N: Base + Send> Dialer for LinkPool<D, N>
where
    Look: Sees<D::In>,
{
    type In = Incoming<D::In, D::Out>;

    type Out = Outgoing<D::In, D::Out>;

    ghost state = { λ p. pool_state (D.state p.made_over.value) (D.state p.inner) p.history p.link_reads p.link_writes p.opened p.hung_up };

    fn dial(
        &mut self,
        host: &[u8],
        port: u16,
    ) -> Result<(Incoming<D::In, D::Out>, Outgoing<D::In, D::Out>), DialFault> {
        let name = Text::from_bytes(self.alloc, host)?;
        let noted = Snapshot::of(&name);
        let shelf = mem::replace(&mut self.kept, Shelf::Empty);
        let (rest, found) = take_resting(&mut self.inner, shelf, host, port);
        fill(&mut self.kept, rest);
        match found {
            Some(kept) => {
                let KeptLink {
                    source,
                    sink,
                    host: kept_host,
                    port: kept_port,
                } = kept;
                let result = Ok(lend(self.alloc, source, sink, kept_host, kept_port));
                self.history = taken_again(&self.history, noted, port, &result);
                self.opened = raised(self.opened, true);
                result
            }
            None => {
                let asked = self.inner.dial(host, port);
                let noted_asked = Snapshot::of(&asked);
                match asked {
                    Ok((source, sink)) => {
                        let result = Ok(lend(self.alloc, source, sink, name, port));
                        self.history = dialled(&self.history, noted, port, noted_asked, &result);
                        self.opened = raised(self.opened, true);
                        result
                    }
                    Err(fault) => {
                        let result = Err(fault);
                        self.history = dialled(&self.history, noted, port, noted_asked, &result);
                        result
                    }
                }
            }
        }
    }

    fn hang_up(&mut self, link_in: Incoming<D::In, D::Out>, link_out: Outgoing<D::In, D::Out>) {
        let noted_in = Snapshot::of(&link_in);
        let noted_out = Snapshot::of(&link_out);
        self.link_reads = raised(self.link_reads, link_in.has_failed());
        self.link_writes = raised(self.link_writes, link_out.has_failed());
        self.wanting = raised(self.wanting, lacks_memory(&link_in, &link_out));
        self.hung_up = raised(self.hung_up, true);
        let (link, keeps) = handed(link_in, link_out);
        let noted_host = Snapshot::of(&link.host);
        let port = link.port;
        let shelf = mem::replace(&mut self.kept, Shelf::Empty);
        let (rest, closing) = shelve(shelf, link, keeps);
        fill(&mut self.kept, rest);
        self.history = hung_up(
            &self.history,
            noted_host,
            port,
            noted_in,
            noted_out,
            &closing,
        );
        match closing {
            Some(closing) => {
                let KeptLink {
                    source,
                    sink,
                    host: _,
                    port: _,
                } = closing;
                self.inner.hang_up(source, sink);
            }
            None => {}
        }
    }
}
