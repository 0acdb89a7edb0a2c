//! A sink that measures what it takes of an exchange: the status of the response, and how many bytes of its body came.
#![tactic(auto)]

mod metered;
mod meters;
mod responses;

pub use metered::{Began, Metered};
pub use responses::Tally;
