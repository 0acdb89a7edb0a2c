// Reads URLs.
ghost use Rattle.std.specs.Prelude.{◌≡◌, None, Some, Ok, IfErr, IfOk, MatchOption};
ghost use Rattle.std.specs.List.{list_any};
ghost use Rattle.px_patterns.specs.Faults.{IsUrlRefusal};
ghost use Rattle.px_patterns.specs.Urls.{bracketed_host, has_bad_byte, host_of, is_bad, named_host, path_of, port_of, url_of_part};

use crate::places::{is_address, name_end, place};
use crate::{AT, BRACKET_BEGIN, BRACKET_END, COLON, DEFAULT_PORT, SLASH, Url, UrlFault};
use px_base::{Mem, Text, is_text, read_port};
use std::alloc::Global;

/// Whether a text isn't UTF-8, or has a byte that no URL holds.
pub fn has_bad_byte(text: &[u8]) -> bool
    ensures { result ≡ has_bad_byte text.now }
{
    !is_text(text) || has_bad(text)
}

/// Whether a space or a control byte stands in the text.
fn has_bad(text: &[u8]) -> bool
    ensures { result ≡ list_any is_bad text.now }
{
    text.iter().any(|byte| is_bad(*byte))
}

fn is_bad(byte: u8) -> bool
    ensures { result ≡ is_bad byte }
{
    byte < 33 || byte == 127
}

/// Reads a host part: the host, and a port, which may be absent or empty unless it is `needed`. The path goes with them.
pub fn read_part(alloc: Global, part: &[u8], needed: bool, behind: &[u8]) -> Result<Url, UrlFault>
    ensures url { IfOk result (λ url. url_of_part needed part.now (path_of behind.now) ≡ Ok url) }
    ensures refused { IfErr result (IsUrlRefusal (url_of_part needed part.now (path_of behind.now))) }
{
    match place(AT, part) {
        Some(_) => Err(UrlFault::HasUser),
        None => match host_of(part) {
            None => Err(UrlFault::NoHost),
            Some((host, port_part)) => match port_of(needed, port_part) {
                None => Err(UrlFault::BadPort),
                Some(port) => {
                    let host = Text::from_bytes(alloc, host)?;
                    let path = path_of(alloc, behind)?;
                    Ok(Url { host, port, path })
                }
            },
        },
    }
}

/// The host at the front of a host part, and what follows it.
fn host_of(part: &[u8]) -> Option<(&[u8], &[u8])>
    ensures { MatchOption result (host_of part.now ≡ None) (λ parts. host_of part.now ≡ Some (parts.0.now, parts.1.now)) }
{
    if !part.is_empty() && part[0] == BRACKET_BEGIN {
        bracketed_host(&part[1..])
    } else {
        named_host(part)
    }
}

/// A host in brackets, behind the first of them.
fn bracketed_host(text: &[u8]) -> Option<(&[u8], &[u8])>
    ensures { MatchOption result (bracketed_host text.now ≡ None) (λ parts. bracketed_host text.now ≡ Some (parts.0.now, parts.1.now)) }
{
    match place(BRACKET_END, text) {
        Some(at) => {
            let (inside, rest) = text.split_at(at);
            if is_address(inside) {
                Some((inside, &rest[1..]))
            } else {
                None
            }
        }
        None => None,
    }
}

/// A host that ends before the first colon.
fn named_host(part: &[u8]) -> Option<(&[u8], &[u8])>
    ensures { MatchOption result (named_host part.now ≡ None) (λ parts. named_host part.now ≡ Some (parts.0.now, parts.1.now)) }
{
    let end = name_end(part);
    if end == 0 {
        return None;
    }
    Some(part.split_at(end))
}

/// The port behind a host: a colon and up to five digits.
#[tactic(auto, unfolding(crate::specs::Urls::port_of))]
fn port_of(needed: bool, behind: &[u8]) -> Option<u16>
    ensures { result ≡ port_of needed behind.now }
{
    if behind.is_empty() || (behind.len() == 1 && behind[0] == COLON) {
        if needed {
            return None;
        }
        return Some(DEFAULT_PORT);
    }
    if behind[0] == COLON && behind.len() <= 6 {
        return read_port(&behind[1..]);
    }
    None
}

/// The path of what stands behind a host part, with a slash put before it where it begins with none.
fn path_of(alloc: Global, behind: &[u8]) -> Result<Text, Mem>
    ensures { IfOk result (λ path. path ≡ path_of behind.now) }
{
    if !behind.is_empty() && behind[0] == SLASH {
        return Text::from_bytes(alloc, behind);
    }
    let mut path = Text::from_bytes(alloc, &[SLASH])?;
    path.push_all(behind)?;
    Ok(path)
}
