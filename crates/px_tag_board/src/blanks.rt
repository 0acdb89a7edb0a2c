// Boards that no type names yet.
ghost use Rattle.std.specs.Prelude.{◌≡◌, ◌<◌, ◌≤◌, ◌∷◌, [], IfOk, vec_len};
ghost use Rattle.px_tag_board.specs.Readers.{AreFreshReaders};

use crate::chains::Chain;
use crate::entries::PublishedState;
use px_base::Mem;
use px_publish::ConfigReader;
use std::alloc::Global;
use std::marker::Model;
use std::sync::Wait;
use std::sync::ledger::Blank;

/// A board before its first change that no type names yet. It isn't dropped: `board` makes seats of it.
pub struct BlankBoard {
    alloc: Global,
    ledger: Blank,
    chain: Chain,
    readers: Vec<ConfigReader<PublishedState>>,
}

impl Model for BlankBoard {
    ghost use Rattle.std.specs.Prelude.{◌≡◌, ◌∷◌, [], vec_len};
    ghost use Rattle.px_tag_board.specs.Blanks.{Naming};
    ghost use Rattle.px_tag_board.specs.Readers.{AreFreshReaders};

    ghost Value = { Naming };

    ghost view = { λ b. record { name = b.ledger.name; seats = b.ledger.parts; pair = b.chain.pair } };

    ghost invariant = { λ b. (b.chain.states ≡ [] ∷ []) × (vec_len b.readers ≡ b.ledger.parts) × AreFreshReaders b.chain.pair b.readers.items };
}

/// A board for so many seats, 64 at most. It and its seats take their memory by this allocator. It may wait, in giving up
/// what was begun.
pub fn blank_board<R: Wait>(rt: &R, alloc: Global, seats: u32) -> Result<BlankBoard, Mem>
    requires some { 0 < seats }
    requires places { seats ≤ 64 }
    ensures { IfOk result (λ b. b.seats ≡ seats) }
{
    let (chain, readers) = Chain::begin(rt, alloc, seats)?;
    Ok(BlankBoard {
        alloc,
        ledger: Blank::new(seats as u64),
        chain,
        readers,
    })
}

impl BlankBoard {
    /// The allocator, and what the seats are made of.
    pub(crate) fn into_parts(self) -> (Global, Blank, Chain, Vec<ConfigReader<PublishedState>>)
        ensures name { result.1.name ≡ self.name }
        ensures parts { result.1.parts ≡ self.seats }
        ensures pair { result.2.pair ≡ self.pair }
        ensures states { result.2.states ≡ [] ∷ [] }
        ensures count { vec_len result.3 ≡ self.seats }
        ensures fresh { AreFreshReaders self.pair result.3.items }
    {
        let BlankBoard {
            alloc,
            ledger,
            chain,
            readers,
        } = self;
        (alloc, ledger, chain, readers)
    }
}
