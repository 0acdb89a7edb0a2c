// Where requests are sent: the second word of a forward line.
ghost use Rattle.std.specs.Prelude.{◌≡◌, ◌&&◌, None, Option, Some, if◌then◌else◌, option_map};
ghost use Rattle.std.specs.List.{list_all};
ghost use Rattle.px_actions.specs.Hops.{is_host_byte, is_hop_address_byte, is_made_of, hop_port, parent_hop, bracketed_hop, hop_by_name, next_hop, seen_hop, parent};

use px_base::{place, read_port};

/// The port of a parent where none is written.
const PARENT_PORT: u16 = 8000;

/// Where a request is sent.
#[derive(Clone, Copy, Debug)]
pub enum Hop<'a> {
    /// To the origin itself.
    Direct,
    /// To a parent, whose host stands without brackets.
    Parent { host: &'a [u8], port: u16 },
}

#[tactic(auto, unfolding(crate::specs::Hops::is_host_byte))]
fn is_host_byte(byte: u8) -> bool
    ensures { result ≡ is_host_byte byte }
{
    byte.is_ascii_alphanumeric() || byte == b'.' || byte == b'-' || byte == b'_'
}

#[tactic(auto, unfolding(crate::specs::Hops::is_hop_address_byte))]
fn is_address_byte(byte: u8) -> bool
    ensures { result ≡ is_hop_address_byte byte }
{
    byte.is_ascii_hexdigit() || byte == b':' || byte == b'.'
}

fn are_host_bytes(text: &[u8]) -> bool
    ensures { result ≡ list_all is_host_byte text.now }
{
    text.iter().all(|byte| is_host_byte(*byte))
}

fn are_address_bytes(text: &[u8]) -> bool
    ensures { result ≡ list_all is_hop_address_byte text.now }
{
    text.iter().all(|byte| is_address_byte(*byte))
}

fn is_name(host: &[u8]) -> bool
    ensures { result ≡ is_made_of is_host_byte host.now }
{
    !host.is_empty() && are_host_bytes(host)
}

fn is_address(host: &[u8]) -> bool
    ensures { result ≡ is_made_of is_hop_address_byte host.now }
{
    !host.is_empty() && are_address_bytes(host)
}

/// The port of what stands behind a host: a colon and a port, or nothing.
fn port_behind(text: &[u8]) -> Option<u16>
    ensures { result ≡ hop_port text.now }
{
    match text.split_first() {
        None => Some(PARENT_PORT),
        Some((b':', port)) => read_port(port),
        Some(_) => None,
    }
}

/// The parent of a host, if it is one, and of what stands behind it.
fn parent_of<'a>(is_host: bool, host: &'a [u8], behind: &[u8]) -> Option<Hop<'a>>
    ensures { option_map seen_hop result ≡ (if is_host then option_map (λ p. parent host.now p) (hop_port behind.now) else None) }
{
    if !is_host {
        return None;
    }
    match port_behind(behind) {
        Some(port) => Some(Hop::Parent { host, port }),
        None => None,
    }
}

/// What stands behind an opening bracket: an address, the closing bracket, and the port.
fn bracketed(text: &[u8]) -> Option<Hop<'_>>
    ensures { option_map seen_hop result ≡ bracketed_hop text.now }
{
    match place(text, b']') {
        Some(at) => parent_of(is_address(&text[..at]), &text[..at], &text[at + 1..]),
        None => None,
    }
}

/// A host, and its port behind the first colon.
fn by_name(text: &[u8]) -> Option<Hop<'_>>
    ensures { option_map seen_hop result ≡ hop_by_name text.now }
{
    match place(text, b':') {
        Some(at) => parent_of(is_name(&text[..at]), &text[..at], &text[at..]),
        None => parent_of(is_name(text), text, b""),
    }
}

/// The next hop that a text names: `.` for the origin itself, or a host and optionally a colon and a port from 1 to
/// 65,535, 8000 where none is written. A host is one or more letters, digits, dots, hyphens and underscores, or brackets
/// round one or more hexadecimal digits, colons and dots.
#[tactic(auto, unfolding(crate::specs::Hops::next_hop))]
pub fn read_hop(text: &[u8]) -> Option<Hop<'_>>
    ensures { option_map seen_hop result ≡ next_hop text.now }
{
    if text == b".".as_slice() {
        return Some(Hop::Direct);
    }
    match text.split_first() {
        None => None,
        Some((b'[', rest)) => bracketed(rest),
        Some(_) => by_name(text),
    }
}
