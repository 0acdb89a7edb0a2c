// What a board answers.
use crate::entries::PublishedState;
use px_base::{List, Text};
use px_publish::Receipt;

/// How many changes a board holds at most.
pub const ENTRY_LIMIT: usize = 10_000;

/// The tags that an address wears, in the order in which they were put on.
#[derive(Drop)]
pub struct Worn {
    /// The number of the state in which it wears them: how many changes, of all addresses, were made before.
    pub place: u64,
    pub tags: List<Text>,
}

/// Why a change wasn't made.
#[derive(Drop)]
pub enum WearFault {
    /// The board holds `ENTRY_LIMIT` changes already. What the address wears there.
    Full(Worn),
    /// Memory was wanting.
    Mem,
}

/// What came of the change that was wanted.
#[derive(Drop)]
pub(crate) enum ChangeOutcome {
    /// No change was wanted, or it would have altered nothing.
    Stood,
    Made,
    /// The board has no room for it.
    Full,
}

/// What a board answers under its lock.
#[derive(Drop)]
pub(crate) struct BoardAnswer {
    pub worn: Worn,
    /// The receipt of the newest state.
    pub receipt: Receipt<PublishedState>,
    pub outcome: ChangeOutcome,
}
