//! One exchange: what a request asks for, what is sent on, and what is returned.
#![tactic(auto)]

mod dialling;
mod exchanges;
mod forwarding;
mod replies;
mod tunnels;

pub use exchanges::exchange;
