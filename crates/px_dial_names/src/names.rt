// Dial names: a SOCKS server and the target behind it, as one host.
ghost use Rattle.std.specs.Prelude.{◌≡◌, ◌==◌, false, IsTrue, IfSome, IsSome, IsNone, Some, None};
ghost use Rattle.std.specs.Str.{byte};
ghost use Rattle.std.specs.List.{position};
ghost use Rattle.px_base.specs.DialNames.{target_of, server_of, server_in, bracketed_server, unbracketed, is_dial_name};

use px_base::{place, read_port};

/// The parts of a dial name: `socks5://`, the server's host (in brackets where it holds a colon), `:`, its port, `/` and the
/// target's host.
#[derive(Clone, Copy)]
pub struct DialName<'a> {
    /// The server's host, without brackets.
    pub server: &'a [u8],
    /// The server's port.
    pub port: u16,
    /// The target's host.
    pub target: &'a [u8],
}

/// The server's host and port, as they stand before the slash.
fn read_server(bytes: &[u8]) -> Option<(&[u8], u16)>
    ensures some { IfSome result (λ s. server_in bytes.now ≡ Some (record { host = s.0.now; port = s.1 })) }
    ensures none { IsNone result → server_in bytes.now ≡ None }
{
    if bytes.starts_with(b"[") {
        read_bracketed(&bytes[1..])
    } else {
        read_unbracketed(bytes)
    }
}

/// A host before the first colon, and the port behind it.
fn read_unbracketed(bytes: &[u8]) -> Option<(&[u8], u16)>
    ensures some { IfSome result (λ s. unbracketed bytes.now (position (λ b. b == byte ":") bytes.now) ≡ Some (record { host = s.0.now; port = s.1 })) }
    ensures none { IsNone result → unbracketed bytes.now (position (λ b. b == byte ":") bytes.now) ≡ None }
{
    let Some(end) = place(bytes, b':') else {
        return None;
    };
    match read_port(&bytes[end + 1..]) {
        Some(port) => Some((&bytes[..end], port)),
        None => None,
    }
}

/// Behind an opening bracket: a host before the first closing one, and behind that a colon and the port.
fn read_bracketed(bytes: &[u8]) -> Option<(&[u8], u16)>
    ensures some { IfSome result (λ s. bracketed_server bytes.now (position (λ b. b == byte "]") bytes.now) ≡ Some (record { host = s.0.now; port = s.1 })) }
    ensures none { IsNone result → bracketed_server bytes.now (position (λ b. b == byte "]") bytes.now) ≡ None }
{
    let Some(end) = place(bytes, b']') else {
        return None;
    };
    let behind = &bytes[end + 1..];
    if !behind.starts_with(b":") {
        return None;
    }
    match read_port(&behind[1..]) {
        Some(port) => Some((&bytes[..end], port)),
        None => None,
    }
}

/// The parts of a host, if it is a dial name. Takes no memory.
pub fn read_name(host: &[u8]) -> Option<DialName<'_>>
    ensures target { IfSome result (λ name. name.target.now ≡ target_of host.now) }
    ensures server { IfSome result (λ name. server_of host.now ≡ Some (record { host = name.server.now; port = name.port })) }
    ensures some { IsSome result → IsTrue (is_dial_name host.now) }
    ensures none { IsNone result → is_dial_name host.now ≡ false }
{
    let Some(rest) = host.strip_prefix(b"socks5://") else {
        return None;
    };
    let Some(slash) = place(rest, b'/') else {
        return None;
    };
    match read_server(&rest[..slash]) {
        Some((server, port)) => Some(DialName {
            server,
            port,
            target: &rest[slash + 1..],
        }),
        None => None,
    }
}
