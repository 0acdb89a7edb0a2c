//! The command `serve`: the connections of doors, served by workers with a configuration that is loaded again with each.
#![tactic(auto)]

mod boards;
mod endings;
mod proxies;

pub use proxies::{Proxied, run_proxy};
pub use px_desk::{DeskParts, ReloadCounts};
