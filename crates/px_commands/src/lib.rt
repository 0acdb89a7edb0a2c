//! The commands of the program: words, files and statuses around sessions.
#![tactic(auto)]

mod answers;
mod clients;
mod commands;
mod exercises;
mod loads;
mod origins;
mod parses;
mod passes;
mod reports;
mod sents;
mod statuses;
mod texts;
mod tools;
mod words;

pub use commands::run_tool;
pub use loads::report_load;
pub use parses::parse_serve;
pub use reports::report;
pub use statuses::{Status, USAGE, constants};
pub use tools::{RanTool, ToolParts};
pub use words::{ServeWords, read_serve};
