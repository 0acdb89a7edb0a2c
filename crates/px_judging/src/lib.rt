//! Judging: what is done for a request, before any dial.
#![tactic(auto)]

mod connects;
mod handed;
mod judgements;
mod judging;
mod plans;
mod readings;
mod replies;
mod requests;
mod tagging;
mod targets;

pub use handed::Handed;
pub use judgements::{Errand, Judgement, Plan, TunnelPlan};
pub use judging::judge;
pub use readings::{HeadReading, HeadSeen, read_request};
pub use replies::{LocalReply, ReplyKind, reply_bytes, url_symbols};
pub use targets::is_page_request;
