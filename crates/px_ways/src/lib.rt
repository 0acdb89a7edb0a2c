//! Ways to carry the bytes of a tunnel: one direction after the other, or both at once.
#![tactic(auto)]

mod directions;
mod ways;

pub use directions::{DIRECTION_LIMIT, DirectionStop, carry_direction, constants};
pub use ways::{Carried, Way, carry};
