//! Heads of HTTP/1.x messages (RFC 9112, sections 2 to 5): where a head ends, what it reads as, and how it is printed.
#![tactic(auto)]

mod blocks;
mod faults;
mod fields;
mod laws;
mod prints;
mod requests;
mod responses;
mod searches;

pub use blocks::{HeadEnd, find_head};
pub use faults::{HeadFault, TOO_LONG_NAME, TOO_LONG_NUMBER};
pub use laws::{constants, fields_read_back, readings_are_one};
pub use prints::print_head;
pub use requests::RequestHead;
pub use responses::{ResponseHead, is_interim};
pub use searches::HeadSearch;

/// The most bytes of a head.
pub const HEAD_LIMIT: usize = 131_072;

/// The most fields of a head.
pub const FIELD_LIMIT: usize = 256;
