//! Streams: bytes that are read ahead of a source, and what stands at their front.
#![tactic(auto)]

ghost use Rattle.std.specs.Prelude.{◌≡◌};

mod ahead;
mod feeds;
mod fronts;

pub use ahead::{Ahead, PIECE, ReadFault, fill};
pub use feeds::Feed;
pub use fronts::{StreamFront, read_front};

/// What the constant of this crate is.
pub fn constants()
    ensures { PIECE ≡ 8192 }
{}
