// The published list of states.
ghost use Rattle.std.specs.Prelude.{◌≡◌, ◌+◌, ◌<◌, ◌≤◌, ◌^◌, ◌++◌, ◌∷◌, ◌↔◌, [], IsTrue, IfOk, OnOk, OnErr, length, vec_len};
ghost use Rattle.px_publish.specs.Published.{published, pair_of, told_by, receipt_pair, seen_by, reader_pair};
ghost use Rattle.px_tag_board.specs.Chains.{IsChained, newest_of};
ghost use Rattle.px_tag_board.specs.Readers.{AreFreshReaders};

use crate::entries::{BoardEntry, PublishedState};
use px_base::Mem;
use px_publish::{ConfigReader, Publisher, Receipt, publish_pair};
use std::alloc::Global;
use std::marker::Model;
use std::sync::{Arc, Wait};

/// The one publisher of a board with the newest state, seen as the published list and the pair. That list is chained.
pub(crate) struct Chain {
    publisher: Publisher<PublishedState>,
    newest: Vec<BoardEntry>,
}

impl Model for Chain {
    ghost use Rattle.px_publish.specs.Published.{published, pair_of};
    ghost use Rattle.px_tag_board.specs.Chains.{EndsChain};
    ghost use Rattle.px_tag_board.specs.Shown.{Shown};

    ghost Value = { Shown };

    ghost view = { λ c. record { states = published c.publisher; pair = pair_of c.publisher } };

    ghost invariant = { λ c. EndsChain (published c.publisher) c.newest.items };
}

impl Chain {
    /// The empty state alone, and its readers. It may wait, in giving up what was begun.
    pub(crate) fn begin<R: Wait>(
        rt: &R,
        alloc: Global,
        readers: u32,
    ) -> Result<(Chain, Vec<ConfigReader<PublishedState>>), Mem>
        requires some { 0 < readers }
        requires places { readers ≤ 64 }
        ensures states { IfOk result (λ c. c.0.states ≡ [] ∷ []) }
        ensures count { IfOk result (λ c. vec_len c.1 ≡ readers) }
        ensures fresh { IfOk result (λ c. AreFreshReaders c.0.pair c.1.items) }
    {
        let newest = Vec::new(alloc);
        let first = Arc::new(alloc, PublishedState::of(&newest))?;
        let (publisher, readers) = publish_pair(rt, alloc, first, readers)?;
        Ok((Chain { publisher, newest }, readers))
    }

    /// Gives the publisher up.
    pub(crate) fn end<R: Wait>(self, rt: &R) {
        let Chain {
            publisher,
            newest: _newest,
        } = self;
        drop(publisher.end(rt));
    }

    /// How many entries the newest state has.
    pub(crate) fn len(&self) -> usize
        ensures entries { result ≡ length (newest_of self.now.states) }
        ensures states { length self.now.states ≡ result + 1 }
        ensures chained { IsChained self.now.states }
    {
        self.newest.len()
    }

    /// Whether the published list has all that the reader has seen.
    pub(crate) fn covers(&self, reader: &ConfigReader<PublishedState>) -> bool
        requires { reader_pair reader.now ≡ self.now.pair }
        ensures { IsTrue result → length (seen_by reader.now) ≤ length self.now.states }
    {
        self.publisher.covers(reader)
    }

    /// The receipt of the newest state.
    pub(crate) fn receipt(&self) -> Result<Receipt<PublishedState>, Mem>
        ensures list { IfOk result (λ r. told_by r ≡ self.now.states) }
        ensures pair { IfOk result (λ r. receipt_pair r ≡ self.now.pair) }
        ensures chained { IsChained self.now.states }
    {
        self.publisher.receipt()
    }

    /// Publishes the newest state with one entry more. After `Mem` nothing was added.
    pub(crate) fn add<R: Wait>(
        &mut self,
        rt: &R,
        alloc: Global,
        entry: BoardEntry,
    ) -> Result<Receipt<PublishedState>, Mem>
        requires { length (newest_of self.old.states) < 2 ^ 32 }
        ensures pair { self.new.pair ≡ self.old.pair }
        ensures added { OnOk result (self.new.states ≡ self.old.states ++ (newest_of self.old.states ++ entry ∷ []) ∷ []) }
        ensures newest { OnOk result (newest_of self.new.states ≡ newest_of self.old.states ++ entry ∷ []) }
        ensures chained { OnOk result (IsChained self.new.states) }
        ensures list { IfOk result (λ r. told_by r ≡ self.new.states) }
        ensures receipt_pair { IfOk result (λ r. receipt_pair r ≡ self.new.pair) }
        ensures err { OnErr result (self.new.states ≡ self.old.states) }
    {
        let Chain { publisher, newest } = self;
        newest.push(entry)?;
        let Ok(receipt) = published(rt, alloc, publisher, newest) else {
            newest.pop();
            return Err(Mem);
        };
        Ok(receipt)
    }
}

fn published<R: Wait>(
    rt: &R,
    alloc: Global,
    publisher: &mut Publisher<PublishedState>,
    state: &Vec<BoardEntry>,
) -> Result<Receipt<PublishedState>, Mem>
    requires { length (published publisher.old) < 2 ^ 64 }
    ensures pair { pair_of publisher.new ≡ pair_of publisher.old }
    ensures added { OnOk result (published publisher.new ≡ published publisher.old ++ state.now.items ∷ []) }
    ensures list { IfOk result (λ r. told_by r ≡ published publisher.new) }
    ensures receipt_pair { IfOk result (λ r. receipt_pair r ≡ pair_of publisher.new) }
    ensures err { OnErr result (published publisher.new ≡ published publisher.old) }
{
    publisher.publish(rt, Arc::new(alloc, PublishedState::of(state))?)
}
