//! The tags that clients put on their own addresses: one history of changes, and seats that take turns to change it.
#![tactic(auto)]

mod answers;
mod blanks;
mod boards;
mod chains;
mod changes;
mod entries;
mod laws;
mod names;
mod seats;
mod tag_boards;
mod tag_maps;

pub use answers::{ENTRY_LIMIT, WearFault, Worn};
pub use blanks::{BlankBoard, blank_board};
pub use boards::{board, close};
pub use changes::TagChange;
pub use laws::{constants, settled_changes, tags_are_a_map};
pub use names::BoardName;
pub use seats::Seat;
