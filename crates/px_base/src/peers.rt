// Who is at the other end.
use crate::Text;

/// A client, by its address in text.
#[derive(Drop)]
pub struct Peer {
    pub address: Text,
}
