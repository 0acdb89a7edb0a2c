//! Filter files: named filters of substitution jobs.
#![tactic(auto)]

mod faults;
mod files;
mod filters;
mod kinds;
mod places;
mod warm_filters;

pub use faults::FilterFault;
pub use files::{FilterFile, NamedFilter};
pub use filters::{FilterCounts, Filters};
pub use kinds::FilterKind;
pub use warm_filters::WarmFilters;
