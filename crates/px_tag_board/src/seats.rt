// Seats at a board.
ghost use Rattle.std.specs.Prelude.{◌≡◌, ◌⊎◌, ◌+◌, ◌<◌, ◌≤◌, ◌∷◌, [], IfOk, IfErr, OnOk, OnErr, length, option_copied};
ghost use mathlib.Core.List.{IsPrefix};
ghost use Rattle.px_publish.specs.Published.{told_by, receipt_pair, seen_by, reader_pair};
ghost use Rattle.px_publish.specs.Views.{GoesOn};
ghost use Rattle.px_tag_board.specs.Chains.{IsChained};
ghost use Rattle.px_tag_board.specs.Answers.{IsWorn, IsChangeSettled};
ghost use Rattle.px_tag_board.specs.Outcomes.{ComesOfChange, FullOnly, made_by};
ghost use Rattle.px_tag_board.specs.Readers.{IsFreshReader};
ghost use Rattle.px_tag_board.specs.Seats.{MadeAtMostOne};
ghost use Rattle.px_tag_board.specs.declared.answers.TheConstants.{ENTRY_LIMIT};
ghost use Rattle.px_tag_board.specs.declared.answers.ChangeOutcome.TheVariants.{Made};

use crate::answers::{BoardAnswer, ChangeOutcome, WearFault, Worn};
use crate::changes::TagChange;
use crate::entries::PublishedState;
use crate::names::BoardName;
use crate::tag_boards::TagBoard;
use px_base::Mem;
use px_publish::{ConfigReader, Configs, Receipt};
use std::alloc::Global;
use std::marker::Model;
use std::sync::ledger::Share;
use std::sync::{Arc, Mutex, MutexGuard, Wait};

/// A seat at the board that N names, seen as the states that it has seen and the number of changes that it made. It isn't
/// dropped: `close` takes all seats of a board.
pub struct Seat<N: BoardName> {
    alloc: Global,
    shared: Arc<Mutex<TagBoard<N>>>,
    reader: ConfigReader<PublishedState>,
    share: Share<N>,
    made: u64,
}

impl<N: BoardName> Model for Seat<N> {
    ghost use Rattle.std.specs.Prelude.{◌≡◌};
    ghost use Rattle.px_publish.specs.Published.{seen_by, reader_pair};
    ghost use Rattle.px_tag_board.specs.Chains.{IsChained};
    ghost use Rattle.px_tag_board.specs.Seats.{SeatState};

    ghost Value = { SeatState };

    ghost view = { λ s. record { seen = seen_by s.reader; made = s.made } };

    ghost invariant = { λ s. (reader_pair s.reader ≡ N.pair) × IsChained (seen_by s.reader) × (s.share.parts ≡ 1) × (s.share.amount ≡ s.made) };
}

/// Learns the receipt of a list that isn't shorter than what the reader has seen, which takes no memory. That list is then
/// what it has seen.
fn learn(reader: &mut ConfigReader<PublishedState>, receipt: Receipt<PublishedState>)
    requires pair { receipt_pair receipt ≡ reader_pair reader.old }
    requires no_shorter { length (seen_by reader.old) ≤ length (told_by receipt) }
    ensures pair { reader_pair reader.new ≡ reader_pair reader.old }
    ensures goes_on { GoesOn (seen_by reader.old) (seen_by reader.new) }
    ensures seen { seen_by reader.new ≡ told_by receipt }
{
    reader.learn(receipt);
}

/// The board's answer, given under its lock once the board has all that the reader has seen.
fn locked<N: BoardName, R: Wait>(
    rt: &R,
    alloc: Global,
    shared: &Mutex<TagBoard<N>>,
    reader: &ConfigReader<PublishedState>,
    share: &mut Share<N>,
    address: &[u8],
    change: Option<&TagChange>,
) -> Result<BoardAnswer, Mem>
    requires pair { reader_pair reader.now ≡ N.pair }
    requires part { 0 < share.old.parts }
    ensures parts { share.new.parts ≡ share.old.parts }
    ensures pair { IfOk result (λ a. receipt_pair a.receipt ≡ N.pair) }
    ensures no_shorter { IfOk result (λ a. length (seen_by reader.now) ≤ length (told_by a.receipt)) }
    ensures chained { IfOk result (λ a. IsChained (told_by a.receipt)) }
    ensures worn { IfOk result (λ a. IsWorn (told_by a.receipt) address.now a.worn) }
    ensures comes { IfOk result (λ a. ComesOfChange a.outcome (seen_by reader.now) (told_by a.receipt) address.now (option_copied change.entry) a.worn.tags) }
    ensures amount { IfOk result (λ a. share.new.amount ≡ share.old.amount + made_by a.outcome) }
    ensures few { IfOk result (λ a. a.outcome ≡ Made → share.new.amount ≤ ENTRY_LIMIT) }
    ensures err { OnErr result (share.new.amount ≡ share.old.amount) }
{
    'again: for _ in rt.forever() {
        let mut board = shared.lock(rt);
        if board.covers(reader) {
            let answer = board.answer(rt, alloc, share, address, change);
            MutexGuard::unlock(board);
            return answer;
        }
        MutexGuard::unlock(board);
    }
    unreachable!()
}

impl<N: BoardName> Seat<N> {
    ghost use Rattle.std.specs.Prelude.{Err};

    /// A seat whose reader has seen the empty state alone.
    pub(crate) fn over(
        alloc: Global,
        shared: Arc<Mutex<TagBoard<N>>>,
        reader: ConfigReader<PublishedState>,
        share: Share<N>,
    ) -> Seat<N>
        requires fresh { IsFreshReader N.pair reader }
        requires part { share.parts ≡ 1 }
        requires amount { share.amount ≡ 0 }
        ensures { result ≡ record { seen = [] ∷ []; made = 0 } }
    {
        Seat {
            alloc,
            shared,
            reader,
            share,
            made: 0,
        }
    }

    /// The shared board, the reader, and its part of the ledger with the changes that it made.
    pub(crate) fn into_parts(
        self,
    ) -> (
        Arc<Mutex<TagBoard<N>>>,
        ConfigReader<PublishedState>,
        Share<N>,
    )
        ensures pair { reader_pair result.1 ≡ N.pair }
        ensures seen { seen_by result.1 ≡ self.seen }
        ensures part { result.2.parts ≡ 1 }
        ensures amount { result.2.amount ≡ self.made }
    {
        let Seat {
            alloc: _alloc,
            shared,
            reader,
            share,
            made: _made,
        } = self;
        (shared, reader, share)
    }

    /// The tags that an address wears in the newest state, once the change that is wanted is made. A change that would alter
    /// nothing isn't made. After `Full` no change was made, and after `Mem` nothing has changed. It may wait for the board.
    pub fn take<R: Wait>(
        &mut self,
        rt: &R,
        address: &[u8],
        change: Option<&TagChange>,
    ) -> Result<Worn, WearFault>
        ensures goes_on { GoesOn self.old.seen self.new.seen }
        ensures chained { IsChained self.new.seen }
        ensures worn { IfOk result (λ w. IsWorn self.new.seen address.now w) }
        ensures settled { IfOk result (λ w. IsChangeSettled (option_copied change.entry) w.tags) }
        ensures made { OnOk result (MadeAtMostOne self.old self.new address.now (option_copied change.entry)) }
        ensures full { IfErr result (λ f. FullOnly f self.new.seen address.now (option_copied change.entry)) }
        ensures err { OnErr result (self.new.made ≡ self.old.made) }
        ensures memory { result ≡ Err WearFault.Mem → self.new ≡ self.old }
    {
        let Seat {
            alloc,
            shared,
            reader,
            share,
            made,
        } = self;
        let Ok(answer) = locked(rt, *alloc, shared, reader, share, address, change) else {
            return Err(WearFault::Mem);
        };
        let BoardAnswer {
            worn,
            receipt,
            outcome,
        } = answer;
        learn(reader, receipt);
        match outcome {
            ChangeOutcome::Stood => Ok(worn),
            ChangeOutcome::Made => {
                *made += 1;
                Ok(worn)
            }
            ChangeOutcome::Full => Err(WearFault::Full(worn)),
        }
    }

    /// Two seats of a board see one history: of what they have seen the one begins the other. It changes nothing, takes no memory and
    /// waits for nobody.
    pub fn one_history(&self, other: &Seat<N>)
        ensures { IsPrefix self.now.seen other.now.seen ⊎ IsPrefix other.now.seen self.now.seen }
    {
        self.reader.sees_one_list(&other.reader);
    }

    /// The number of the newest state that it has seen. It takes no memory.
    pub fn place(&self) -> u64
        ensures { length self.now.seen ≡ result + 1 }
    {
        self.reader.current().number
    }

    /// How many changes it made. It takes no memory.
    pub fn made(&self) -> u64
        ensures { result ≡ self.now.made }
    {
        self.made
    }
}
