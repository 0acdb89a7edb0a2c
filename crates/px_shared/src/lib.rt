//! Ends of a session whose dialer keeps links to origins and uses them again: what is returned is what new links would give, where
//! the origins answer each request by itself.
#![tactic(auto)]

mod laws;
mod openings;
mod partings;
mod pooled;
mod shared_doors;

pub use laws::{answers_end, heard_is_enough, pools_hear_fronts};
pub use openings::Opening;
pub use partings::Partings;
pub use pooled::{Pooled, with_pool, without_pool};
pub use shared_doors::{SharedDoors, SharedEnds, SharedParted};
