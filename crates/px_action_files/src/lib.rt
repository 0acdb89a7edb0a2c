//! Actions files: sections of updates and patterns, and aliases.
#![tactic(auto)]

mod alias_tables;
mod aliases;
mod faults;
mod files;
mod headings;
mod laws;
mod patterns;
mod readings;
mod section_readings;
mod sections;
mod words;

pub use faults::{FileFault, refusal_name};
pub use files::ActionFile;
pub use laws::numbers_name_refusals;
pub use patterns::Pattern;
pub use sections::Section;
