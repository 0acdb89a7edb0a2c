//! The outside over TCP: both ends of a stream, a dialer and a listener. They count faults, and tell nothing.
#![tactic(auto)]

mod ends;
mod guests;
mod listeners;
mod shared_sockets;
mod socket_dialers;
mod times;
mod tries;

pub use ends::{EndsFault, SocketSink, SocketSource, both_ends};
pub use listeners::{Caller, CallerFault, ListenFault, SocketListener};
pub use shared_sockets::SocketSide;
pub use socket_dialers::{SocketDialer, connect_in_turn};
pub use times::Times;
pub use tries::{NetTries, Tried, Tries, try_in_turn};
