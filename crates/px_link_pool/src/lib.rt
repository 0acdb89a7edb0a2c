//! A dialer that keeps links to origins and uses them again (RFC 9112, section 9.3): a link that was hung up may be kept where
//! one whole answer was heard over it and nothing more, and a dial to the same host and port takes it.
#![tactic(auto)]

mod bases;
mod histories;
mod laws;
mod lending;
mod pools;
mod resting;
mod shelves;

pub use bases::{Anew, Base};
pub use histories::{History, Past};
pub use laws::{kept_links_are_seen, marks_are_one};
pub use pools::LinkPool;
pub use resting::{LocalSees, Look, Sees};
pub use shelves::{KeptLink, Shelf};
