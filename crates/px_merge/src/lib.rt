//! What lists of hosts and the sections of actions files set for a URL, and sections for a tag, and where tags are absent.
#![tactic(auto)]

mod building;
mod expressions;
mod finders;
mod host_lists;
mod hosts;
mod indexes;
mod keys;
mod labels;
mod lists;
mod matchers;
mod numbers;
mod parts;
mod places;
mod sections;
mod selections;
mod sides;
mod tag_walks;
mod tries;
mod walks;
mod warm;

pub use host_lists::{ListRef, ListedHosts};
pub use places::{Placed, SectionCounts, SectionRef};
pub use sections::Sections;
pub use sides::Side;
pub use warm::WarmSections;
