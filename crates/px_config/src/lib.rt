//! Configurations: which files they are made of, what the files stand for, and the first fault where they stand for nothing.
#![tactic(auto)]

mod actions;
mod addresses;
mod configs;
mod contents;
mod directives;
mod fault_lines;
mod faults;
mod filters;
mod gathering;
mod indexes;
mod insides;
mod laws;
mod listings;
mod main_files;
mod mains;
mod names;
mod pages;
mod running;
mod sets;
mod settings;
mod spelling;
mod templates;

pub use configs::Config;
pub use faults::LoadFault;
pub use gathering::gather;
pub use insides::{Inside, InsidePage, Taking};
pub use laws::constants;
pub use running::Running;
pub use sets::{FILE_LIMIT, FileSet, LIST_LIMIT};
pub use settings::{Note, Settings};
pub use spelling::{load, spell};
