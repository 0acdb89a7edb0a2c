//! The two ends of a link that a pool of links lends: an incoming side that follows the answer, so that the pool knows whether
//! the link may be kept, and an outgoing side that asks the origin to keep the link where the head of the request asks to close
//! it (RFC 9112, section 9.3). Both are over any source and any sink.
#![tactic(auto)]

mod followers;
mod heads;
mod incomings;
mod judges;
mod outgoings;
mod steps;

pub use followers::{Following, first, follow, is_answered, is_lost};
pub use incomings::Incoming;
pub use outgoings::Outgoing;
