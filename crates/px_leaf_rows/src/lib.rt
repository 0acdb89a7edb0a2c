//! Leaf rows of the product's rules: a line each, of which the function of its kind makes a text; and what cases share with them,
//! the escapes, the faults and the report.
#![tactic(auto)]

mod escapes;
mod faults;
mod kinds;
mod leaves;
mod reports;

pub use escapes::decoded;
pub use faults::{Fault, Misread};
pub use leaves::run;
pub use reports::{Difference, Report};
