//! Tags that are made of header lines, and what the sections of actions files set for them.
#![tactic(auto)]

mod lines;
mod taggers;
mod tags;
mod turns;

pub use lines::{has_taggers, tag_headers, tag_headers_with};
pub use turns::TaggerLines;
