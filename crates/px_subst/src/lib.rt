//! Substitution jobs, `s/pattern/substitute/flags`, and filters, which are lists of them.
#![tactic(auto)]

mod expressions;
mod faults;
mod fields;
mod filters;
mod flags;
mod items;
mod jobs;
mod kept_jobs;
mod outcomes;
mod replacers;
mod searches;
mod worded;
mod words;

pub use faults::JobFault;
pub use filters::{Filter, KeptFilter};
pub use flags::Flags;
pub use items::SubstituteItem;
pub use jobs::Job;
pub use kept_jobs::KeptJob;
pub use outcomes::JobOutcome;
pub use words::Vars;
