//! What is shown of a URL under a configuration, and what a check of a configuration prints.
#![tactic(auto)]

mod checks;
mod places;
mod shows;

pub use checks::check;
pub use shows::show;
