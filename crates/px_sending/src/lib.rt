//! A request that is sent on: its head as it goes to the next server, and the sending of head and body, piece by piece as the
//! body is read.
#![tactic(auto)]

mod heads;
mod pieces;
mod sends;

pub use heads::{NextHead, expects_continue, next_head};
pub use sends::send;
