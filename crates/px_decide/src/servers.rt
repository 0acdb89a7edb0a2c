// SOCKS servers of forward lines, and the hosts under which targets behind them are dialled.
ghost use Rattle.std.specs.Prelude.{◌≡◌, ◌∷◌, [], ◌++◌, IfOk, OnOk, option_map};
ghost use Rattle.std.specs.List.{list_any};
ghost use Rattle.px_dial_names.specs.Printed.{has_colon, printed_host};
ghost use Rattle.px_decide.specs.Servers.{dial_name, kept_server, word_lacks_port, named_server};
ghost use Rattle.px_actions.specs.Hops.{is_colon};

use itoa::Buffer;
use px_actions::{Hop, read_hop};
use px_base::{Mem, Text};
use std::alloc::Global;

/// The port of a SOCKS server where none is written.
const SOCKS_PORT: u16 = 1080;

/// What a dial name has beside both hosts at most: the scheme, two brackets, a colon, five digits and a slash.
const AROUND_HOSTS: usize = 18;

/// A SOCKS server as a line keeps it.
#[derive(Drop)]
pub(crate) struct KeptServer {
    /// The host, without brackets.
    pub(crate) host: Text,
    pub(crate) port: u16,
}

impl KeptServer {
    pub(crate) fn of(alloc: Global, host: &[u8], port: u16) -> Result<KeptServer, Mem>
        ensures { IfOk result (λ server. kept_server server ≡ record { host = host.now; port = port }) }
    {
        Ok(KeptServer {
            host: Text::from_bytes(alloc, host)?,
            port,
        })
    }
}

/// Whether a word that names that host has no port.
fn lacks_port(word: &[u8], host: &[u8]) -> bool
    ensures { result ≡ word_lacks_port word.now host.now }
{
    word == host || word.ends_with(b"]")
}

/// The host and the port of the SOCKS server that a word names: as of a parent, but 1080 where no port is written. A dot is
/// a host here.
#[tactic(auto, unfolding(crate::specs::Servers::named_server))]
pub(crate) fn read_server(word: &[u8]) -> Option<(&[u8], u16)>
    ensures { option_map (λ s. record { host = s.0.now; port = s.1 }) result ≡ named_server word.now }
{
    match read_hop(word) {
        Some(Hop::Direct) => Some((word, SOCKS_PORT)),
        Some(Hop::Parent { host, port }) => {
            if lacks_port(word, host) {
                Some((host, SOCKS_PORT))
            } else {
                Some((host, port))
            }
        }
        None => None,
    }
}

fn any_colon(host: &[u8]) -> bool
    ensures { result ≡ list_any is_colon host.now }
{
    host.iter().any(|byte| *byte == b':')
}

#[tactic(auto, using(crate::proofs::ServerLemmas::colons))]
fn has_colon(host: &[u8]) -> bool
    ensures { result ≡ has_colon host.now }
{
    any_colon(host)
}

/// Adds a host, in brackets where it holds a colon.
fn push_host(name: &mut Text, host: &[u8]) -> Result<(), Mem>
    ensures { OnOk result (name.new ≡ name.old ++ printed_host host.now) }
{
    if has_colon(host) {
        name.push(b'[')?;
        name.push_all(host)?;
        name.push(b']')
    } else {
        name.push_all(host)
    }
}

/// The dial name of a target's host behind a server, as px_dial_names reads it: `socks5://`, the server's host, in brackets where it
/// holds a colon, `:`, its port, `/`, and the target's host.
pub(crate) fn dial_name(alloc: Global, server: &KeptServer, target: &[u8]) -> Result<Text, Mem>
    ensures { IfOk result (λ name. name ≡ dial_name (kept_server server.now) target.now) }
{
    let host = server.host.as_bytes();
    let room = host.len().saturating_add(target.len());
    let mut name = Text::with_capacity(alloc, room.saturating_add(AROUND_HOSTS))?;
    name.push_all(b"socks5://")?;
    push_host(&mut name, host)?;
    name.push(b':')?;
    name.push_all(Buffer::new().format(server.port).as_bytes())?;
    name.push(b'/')?;
    name.push_all(target)?;
    Ok(name)
}
