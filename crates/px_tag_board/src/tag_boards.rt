// The board under its lock.
ghost use Rattle.std.specs.Prelude.{◌≡◌, ◌≢◌, ◌+◌, ◌<◌, ◌≤◌, ◌∷◌, [], ℕ, List, IsTrue, IfOk, OnErr, length, option_copied};
ghost use Rattle.px_publish.specs.Published.{told_by, receipt_pair, seen_by, reader_pair};
ghost use Rattle.px_tag_board.specs.declared.answers.TheConstants.{ENTRY_LIMIT};
ghost use Rattle.px_tag_board.specs.TagMaps.{worn};
ghost use Rattle.px_tag_board.specs.States.{worn_by};
ghost use Rattle.px_tag_board.specs.Tags.{tags_after};
ghost use Rattle.px_tag_board.specs.Chains.{IsChained, newest_of};

use crate::answers::{BoardAnswer, ChangeOutcome, ENTRY_LIMIT, Worn};
use crate::chains::Chain;
use crate::changes::{TagChange, alters, changed, copy_tags};
use crate::entries::{BoardEntry, PublishedState};
use crate::names::BoardName;
use crate::tag_maps::TagMap;
use px_base::{List, Mem, Text};
use px_publish::ConfigReader;
use std::alloc::Global;
use std::sync::Wait;
use std::sync::ledger::{Book, Share};

/// The published list of states, what each address wears in the newest one, and a book of the changes that seats made.
pub(crate) struct TagBoard<N: BoardName> {
    chain: Chain,
    tag_map: TagMap,
    book: Book<N>,
    ghost pair: { chain.pair ≡ N.pair },
    ghost wearing: { (address : List ℕ) → worn tag_map address ≡ worn_by address (newest_of chain.states) },
    ghost counted: { book.total ≡ length (newest_of chain.states) },
    ghost few: { book.total ≤ ENTRY_LIMIT },
}

impl<N: BoardName> TagBoard<N> {
    ghost use Rattle.px_tag_board.specs.Answers.{IsWorn, IsChangeSettled, IsMade};
    ghost use Rattle.px_tag_board.specs.Outcomes.{ComesOfChange, made_by};
    ghost use Rattle.px_tag_board.specs.declared.answers.ChangeOutcome.TheVariants.{Made};

    /// A board before its first change.
    pub(crate) fn over(alloc: Global, chain: Chain, book: Book<N>) -> TagBoard<N>
        requires states { chain.states ≡ [] ∷ [] }
        requires pair { chain.pair ≡ N.pair }
        requires total { book.total ≡ 0 }
    {
        TagBoard {
            chain,
            tag_map: TagMap::new(alloc),
            book,
        }
    }

    /// Gives the board up.
    pub(crate) fn end<R: Wait>(self, rt: &R) {
        let TagBoard {
            chain,
            tag_map: _tag_map,
            book: _book,
        } = self;
        chain.end(rt);
    }

    /// The length of the history, of which a share with every part counts each change.
    pub(crate) fn history_length(&mut self, all: &mut Share<N>) -> u64
        requires { all.old.parts ≡ N.parts }
        ensures made { result ≡ all.old.amount }
        ensures states { length self.old.chain.states ≡ result + 1 }
    {
        self.book.audit(all);
        self.chain.len() as u64
    }

    /// Whether the board has all that the reader has seen.
    pub(crate) fn covers(&self, reader: &ConfigReader<PublishedState>) -> bool
        requires { reader_pair reader.now ≡ N.pair }
        ensures { IsTrue result → length (seen_by reader.now) ≤ length self.now.chain.states }
    {
        self.chain.covers(reader)
    }

    // The answer that leaves the board as it is.
    fn unchanged(&self, tags: List<Text>, outcome: ChangeOutcome) -> Result<BoardAnswer, Mem>
        ensures list { IfOk result (λ a. told_by a.receipt ≡ self.now.chain.states) }
        ensures pair { IfOk result (λ a. receipt_pair a.receipt ≡ N.pair) }
        ensures chained { IsChained self.now.chain.states }
        ensures place { IfOk result (λ a. length self.now.chain.states ≡ a.worn.place + 1) }
        ensures tags { IfOk result (λ a. a.worn.tags ≡ tags) }
        ensures outcome { IfOk result (λ a. a.outcome ≡ outcome) }
    {
        let receipt = self.chain.receipt()?;
        let place = receipt.snapshot().number;
        Ok(BoardAnswer {
            worn: Worn { place, tags },
            receipt,
            outcome,
        })
    }

    // Makes a change that alters what the address wears.
    fn make<R: Wait>(
        &mut self,
        rt: &R,
        alloc: Global,
        share: &mut Share<N>,
        address: &[u8],
        change: &TagChange,
        tags: List<Text>,
    ) -> Result<BoardAnswer, Mem>
        requires part { 0 < share.old.parts }
        requires room { length (newest_of self.old.chain.states) < ENTRY_LIMIT }
        requires tags { tags ≡ worn_by address.now (newest_of self.old.chain.states) }
        requires alters { tags_after tags change.now ≢ tags }
        ensures parts { share.new.parts ≡ share.old.parts }
        ensures pair { IfOk result (λ a. receipt_pair a.receipt ≡ N.pair) }
        ensures chained { IfOk result (λ a. IsChained (told_by a.receipt)) }
        ensures worn { IfOk result (λ a. IsWorn (told_by a.receipt) address.now a.worn) }
        ensures settled { IfOk result (λ a. IsChangeSettled (Some change.now) a.worn.tags) }
        ensures made { IfOk result (λ a. IsMade self.old.chain.states (told_by a.receipt) address.now (Some change.now)) }
        ensures outcome { IfOk result (λ a. a.outcome ≡ Made) }
        ensures amount { IfOk result (λ a. share.new.amount ≡ share.old.amount + 1) }
        ensures few { IfOk result (λ a. share.new.amount ≤ ENTRY_LIMIT) }
        ensures err { OnErr result (share.new.amount ≡ share.old.amount) }
    {
        let tags = changed(alloc, tags, change)?;
        let kept = copy_tags(alloc, tags.as_slice())?;
        let entry = BoardEntry {
            address: Text::from_bytes(alloc, address)?,
            change: change.copy(alloc)?,
        };
        let TagBoard {
            chain,
            tag_map,
            book,
        } = self;
        tag_map.reserve(alloc, address)?;
        let receipt = chain.add(rt, alloc, entry)?;
        tag_map.put(address, kept);
        book.add(share, 1);
        book.audit(share);
        let place = receipt.snapshot().number;
        Ok(BoardAnswer {
            worn: Worn { place, tags },
            receipt,
            outcome: ChangeOutcome::Made,
        })
    }

    /// What an address wears, once the change is made that is wanted, where it alters that and there is room.
    pub(crate) fn answer<R: Wait>(
        &mut self,
        rt: &R,
        alloc: Global,
        share: &mut Share<N>,
        address: &[u8],
        change: Option<&TagChange>,
    ) -> Result<BoardAnswer, Mem>
        requires part { 0 < share.old.parts }
        ensures parts { share.new.parts ≡ share.old.parts }
        ensures pair { IfOk result (λ a. receipt_pair a.receipt ≡ N.pair) }
        ensures no_shorter { IfOk result (λ a. length self.old.chain.states ≤ length (told_by a.receipt)) }
        ensures chained { IfOk result (λ a. IsChained (told_by a.receipt)) }
        ensures worn { IfOk result (λ a. IsWorn (told_by a.receipt) address.now a.worn) }
        ensures comes { IfOk result (λ a. ComesOfChange a.outcome self.old.chain.states (told_by a.receipt) address.now (option_copied change.entry) a.worn.tags) }
        ensures amount { IfOk result (λ a. share.new.amount ≡ share.old.amount + made_by a.outcome) }
        ensures few { IfOk result (λ a. a.outcome ≡ Made → share.new.amount ≤ ENTRY_LIMIT) }
        ensures err { OnErr result (share.new.amount ≡ share.old.amount) }
    {
        let tags = self.tag_map.worn(alloc, address)?;
        let Some(change) = change else {
            return self.unchanged(tags, ChangeOutcome::Stood);
        };
        if !alters(tags.as_slice(), change) {
            return self.unchanged(tags, ChangeOutcome::Stood);
        }
        if self.chain.len() == ENTRY_LIMIT {
            return self.unchanged(tags, ChangeOutcome::Full);
        }
        self.make(rt, alloc, share, address, change, tags)
    }
}
