// Entries of a board, and its states.
ghost use Rattle.std.specs.Prelude.{◌≡◌};

use crate::changes::TagChange;
use px_base::Text;
use std::marker::Model;
use std::snapshot::Snapshot;

/// A change that was made, with the address that it was made for.
#[derive(Drop)]
pub(crate) struct BoardEntry {
    pub address: Text,
    pub change: TagChange,
}

/// A state of the board as the published pair has it, seen as its entries. It has no bytes: the board answers under its
/// lock, so nobody reads the entries of a published state.
#[derive(Drop)]
pub(crate) struct PublishedState {
    entries: Snapshot<Vec<BoardEntry>>,
}

impl Model for PublishedState {
    ghost use Rattle.px_tag_board.specs.States.{BoardState};

    ghost Value = { BoardState };

    ghost view = { λ p. p.entries.value.items };
}

impl PublishedState {
    /// The state of these entries, which takes no memory.
    pub(crate) fn of(entries: &Vec<BoardEntry>) -> PublishedState
        ensures { result ≡ entries.now.items }
    {
        PublishedState {
            entries: Snapshot::of(entries),
        }
    }
}
