//! Dial names: a SOCKS server and the target behind it as one host, `socks5://SERVER:PORT/TARGET`. How they are read, and that what
//! is printed in that form is read back.
#![tactic(auto)]

mod laws;
mod names;

pub use laws::printed_names_are_read;
pub use names::{DialName, read_name};
