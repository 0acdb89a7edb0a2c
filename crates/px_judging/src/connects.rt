// What a tunnel begins with.
ghost use Rattle.std.specs.Prelude.{◌≡◌, IfOk};
ghost use Rattle.px_judging.specs.Sending.{authority_text, connect_head, tunnel_head, tunnel_greeting};

use itoa::Buffer;
use px_base::{List, Mem, Text};
use px_fields::Field;
use px_head::print_head;
use px_patterns::Url;
use std::alloc::Global;

/// What tells the client that a tunnel stands.
const ESTABLISHED: &[u8] = b"HTTP/1.1 200 Connection established\r\n\r\n";

/// Host and port, the host in brackets where it holds a colon, the port always written.
fn authority_text(alloc: Global, url: &Url) -> Result<Text, Mem>
    ensures { IfOk result (λ text. text ≡ authority_text url.now) }
{
    let mut text = Text::new(alloc);
    if url.host.as_bytes().contains(&b':') {
        text.push(b'[')?;
        text.push_all(url.host.as_bytes())?;
        text.push(b']')?;
    } else {
        text.push_all(url.host.as_bytes())?;
    }
    text.push(b':')?;
    text.push_all(Buffer::new().format(url.port).as_bytes())?;
    Ok(text)
}

/// The head that asks a parent for a tunnel (RFC 9110, section 9.3.6).
#[tactic(auto, unfolding(crate::specs::Sending::connect_head))]
fn connect_head(alloc: Global, url: &Url) -> Result<Text, Mem>
    ensures { IfOk result (λ text. text ≡ connect_head url.now) }
{
    let authority = authority_text(alloc, url)?;
    let mut line = Text::from_bytes(alloc, b"CONNECT ")?;
    line.push_all(authority.as_bytes())?;
    line.push_all(b" HTTP/1.1")?;
    let host = Field {
        name: Text::from_bytes(alloc, b"Host")?,
        value: authority,
    };
    let mut head = Text::new(alloc);
    print_head(line.as_bytes(), &[host], &mut head)?;
    Ok(head)
}

/// What the link is sent before anything is carried.
pub fn tunnel_head(alloc: Global, parent: bool, url: &Url) -> Result<Text, Mem>
    ensures { IfOk result (λ text. text ≡ tunnel_head parent url.now) }
{
    if parent {
        connect_head(alloc, url)
    } else {
        Ok(Text::new(alloc))
    }
}

/// What the client is told before anything is carried.
pub fn greeting(alloc: Global, parent: bool) -> Result<Text, Mem>
    ensures { IfOk result (λ text. text ≡ tunnel_greeting parent) }
{
    if parent {
        Ok(Text::new(alloc))
    } else {
        Text::from_bytes(alloc, ESTABLISHED)
    }
}
