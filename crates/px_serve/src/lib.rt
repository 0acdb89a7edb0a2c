//! Sessions: the requests of one client's connection, one after the other.
#![tactic(auto)]

ghost use Rattle.std.specs.Prelude.{◌≡◌};

mod ends;
mod heads;
mod keeping;
mod logging;
mod measuring;
mod notes;
mod receiving;
mod sessions;

pub use ends::REQUEST_LIMIT;
pub use keeping::{KeptEntry, Store};
pub use logging::{Logging, Logs};
pub use measuring::Answered;
pub use receiving::Received;
pub use sessions::{serve_cold, serve_connection};

/// What the constant of this crate is.
pub fn constants()
    ensures { REQUEST_LIMIT ≡ 100 }
{}
