//! The laws that a list of hosts says the same as a section with a pattern `.host` for each of its hosts.
#![tactic(auto)]

mod laws;

pub use laws::{lists_are_patterns, lists_are_sections};
