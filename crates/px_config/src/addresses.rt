// Where connections are taken.
ghost use Rattle.std.specs.Prelude.{◌≡◌};
ghost use Rattle.std.specs.List.{slice_split};
ghost use Rattle.px_config.specs.Addresses.{address_of, are_numbers, are_small, bracketed_address, address_by_name, is_dot, is_local_address, is_local_name, is_small, address_port, address_with_port};
ghost use Rattle.px_config.specs.Seen.{seen_host};
ghost use Rattle.px_base.specs.Results.{result_map};

use crate::faults::{BAD_VALUE, NOT_LOOPBACK};
use px_base::{cut, place, read_decimal, read_port};

/// A name of this machine.
const LOCALHOST: &[u8] = b"localhost";

/// The first number of addresses of this machine.
const LOOPBACK_NET: &[u8] = b"127";

/// The address of this machine that stands in brackets.
const LOOPBACK_ADDRESS: &[u8] = b"::1";

/// The port where none is written.
pub(crate) const DEFAULT_PORT: u16 = 8118;

/// A host, without brackets, and a port.
#[derive(Clone, Copy)]
pub(crate) struct HostPort<'v> {
    pub(crate) host: &'v [u8],
    pub(crate) port: u16,
}

/// The host and the port of `listen-address` (Privoxy's manual, "The Main Configuration File"), or the number of the
/// refusal. The host is `localhost`, `127.` and three numbers to 255, or `[::1]`.
#[tactic(auto, unfolding(crate::specs::Addresses::address_of))]
pub(crate) fn read_address(value: &[u8]) -> Result<HostPort<'_>, u8>
    ensures { result_map seen_host result ≡ address_of value.now }
{
    match value.split_first() {
        Some((b'[', rest)) => bracketed(rest),
        Some(_) => by_name(value),
        None => by_name(value),
    }
}

/// The address of what stands behind an opening bracket.
fn bracketed(text: &[u8]) -> Result<HostPort<'_>, u8>
    ensures { result_map seen_host result ≡ bracketed_address text.now }
{
    match place(text, b']') {
        Some(at) => {
            let host = &text[..at];
            with_port(host, host == LOOPBACK_ADDRESS, port_behind(&text[at + 1..]))
        }
        None => Err(BAD_VALUE),
    }
}

/// The address of a host that goes to the first colon.
fn by_name(text: &[u8]) -> Result<HostPort<'_>, u8>
    ensures { result_map seen_host result ≡ address_by_name text.now }
{
    match place(text, b':') {
        Some(at) => {
            let host = &text[..at];
            with_port(host, is_local_name(host), port_behind(&text[at..]))
        }
        None => with_port(text, is_local_name(text), Some(DEFAULT_PORT)),
    }
}

/// A value of another form is refused before a host that other machines reach.
fn with_port(host: &[u8], is_local: bool, port: Option<u16>) -> Result<HostPort<'_>, u8>
    ensures { result_map seen_host result ≡ address_with_port host.now is_local port }
{
    match port {
        Some(port) => if is_local {
            Ok(HostPort { host, port })
        } else {
            Err(NOT_LOOPBACK)
        },
        None => Err(BAD_VALUE),
    }
}

/// The port of what stands behind a host: a colon and a port, or nothing.
fn port_behind(behind: &[u8]) -> Option<u16>
    ensures { result ≡ address_port behind.now }
{
    match behind.split_first() {
        Some((first, rest)) => if *first == b':' {
            read_port(rest)
        } else {
            None
        },
        None => Some(DEFAULT_PORT),
    }
}

fn is_local_name(host: &[u8]) -> bool
    ensures { result ≡ is_local_name host.now }
{
    host == LOCALHOST || are_numbers(host)
}

/// Whether a host is 127 and three numbers to 255, with dots between them.
#[tactic(auto, using(crate::proofs::AddressLemmas::five_parts))]
fn are_numbers(host: &[u8]) -> bool
    ensures { result ≡ are_numbers (slice_split is_dot host.now) }
{
    let (first, behind) = cut(host, b'.');
    let Some(behind) = behind else {
        return false;
    };
    let (second, behind) = cut(behind, b'.');
    let Some(behind) = behind else {
        return false;
    };
    let (third, behind) = cut(behind, b'.');
    let Some(behind) = behind else {
        return false;
    };
    match cut(behind, b'.') {
        (_, Some(_)) => false,
        (fourth, None) => first == LOOPBACK_NET && are_small(second, third, fourth),
    }
}

/// Whether each of three texts is a number to 255.
fn are_small(second: &[u8], third: &[u8], fourth: &[u8]) -> bool
    ensures { result ≡ are_small second.now third.now fourth.now }
{
    is_small(second) && is_small(third) && is_small(fourth)
}

/// Whether a text is a number to 255.
fn is_small(text: &[u8]) -> bool
    ensures { result ≡ is_small text.now }
{
    read_decimal(text, 255).is_some()
}
