//! A dialer through SOCKS5 servers (RFC 1928) over any dialer. A host of the form `socks5://SERVER:PORT/TARGET` is reached
//! through that server, and every other host as the dialer below reaches it.
#![tactic(auto)]

mod dialers;
mod ends;
mod handshakes;
mod laws;
mod looks;
mod notes;
mod replies;
mod servers;

pub use dialers::SocksDialer;
pub use ends::{HandshakePassage, SocksSink, SocksSource};
pub use laws::{accepted_bytes_are_counted, accepted_bytes_are_prefix_free};
pub use looks::Looks;
pub use notes::DialNote;
