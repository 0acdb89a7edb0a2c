// What a dialer keeps of each of its dials.
use px_base::Text;

/// What came of a dial, beside what the dialer below keeps of it. A name is a dial name as it was dialled, and a port is the
/// target's.
#[derive(Drop)]
pub enum DialNote {
    /// Of a host that isn't a dial name: what the dialer below made of it.
    Plain,
    /// The server accepted the request; so many bytes of its own were heard in the handshake.
    Accepted { name: Text, port: u16, heard: usize },
    /// The server wasn't reached, or the handshake with it was refused.
    Refused { name: Text, port: u16 },
    /// The target's host has more than 255 bytes: nothing was dialled.
    TooLong { name: Text, port: u16 },
    /// Memory was wanting in the handshake, and the link was hung up.
    Lost { name: Text, port: u16 },
}
