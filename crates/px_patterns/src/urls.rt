// URLs of HTTP.
ghost use Rattle.std.specs.Prelude.{◌≡◌, ◌++◌, Ok, IfErr, IfOk, OnOk};
ghost use Rattle.px_patterns.specs.Urls.{shown_host, shown_port};

use crate::places::{begins_with, host_end, place};
use crate::url_readings::{has_bad_byte, read_part};
use crate::{BRACKET_BEGIN, BRACKET_END, COLON, DEFAULT_PORT, UrlFault};
use itoa::Buffer;
use px_base::{Mem, Text};
use std::alloc::Global;

/// What a URL begins with.
const SCHEME: &[u8] = b"http://";

/// The most bytes that stand around a host: brackets, a colon and a port of five digits.
const AROUND_HOST: usize = 8;

/// A URL that begins with `http://`, without user information.
#[derive(Drop)]
pub struct Url {
    /// The host, without the brackets in which it may stand.
    pub host: Text,
    pub port: u16,
    /// The path with the query and the fragment; it begins with `/`.
    pub path: Text,
}

impl Url {
    ghost use Rattle.px_patterns.specs.Faults.{IsUrlRefusal};
    ghost use Rattle.px_patterns.specs.Urls.{IsUrl, authority_of, shown_host_port, shown_url, url_of};

    /// Reads a URL: `http://` without case, the host, a port that may be absent or empty, and the rest. The first
    /// refusal is answered, in the order `BadByte`, `NotHttp`, `HasUser`, `NoHost`, `BadPort`.
    pub fn read(alloc: Global, text: &[u8]) -> Result<Url, UrlFault>
        ensures url { IfOk result (λ url. url_of text.now ≡ Ok url) }
        ensures is_url { IfOk result IsUrl }
        ensures refused { IfErr result (IsUrlRefusal (url_of text.now)) }
    {
        if has_bad_byte(text) {
            return Err(UrlFault::BadByte);
        }
        if !begins_with(text, SCHEME) {
            return Err(UrlFault::NotHttp);
        }
        let rest = &text[7..];
        let (part, behind) = rest.split_at(host_end(rest));
        read_part(alloc, part, false, behind)
    }

    /// Reads a host and a port, as CONNECT asks for them (RFC 9112, section 3.2.3); the path is `/`. The refusals are
    /// those of `read` but `NotHttp`; a port that is absent or empty, and `/`, `?` and `#`, are `BadPort`.
    pub fn authority(alloc: Global, text: &[u8]) -> Result<Url, UrlFault>
        ensures url { IfOk result (λ url. authority_of text.now ≡ Ok url) }
        ensures is_url { IfOk result IsUrl }
        ensures refused { IfErr result (IsUrlRefusal (authority_of text.now)) }
    {
        if has_bad_byte(text) {
            return Err(UrlFault::BadByte);
        }
        let (part, behind) = text.split_at(host_end(text));
        let url = read_part(alloc, part, true, b"/")?;
        if !behind.is_empty() {
            return Err(UrlFault::BadPort);
        }
        Ok(url)
    }

    /// `http://`, then host and port as `host_port` gives them, then the path. Reading it gives the URL, where this is one
    /// that `read` or `authority` gives.
    #[tactic(auto, unfolding(crate::specs::Urls::shown_url))]
    pub fn print(&self, alloc: Global) -> Result<Text, Mem>
        ensures text { IfOk result (λ text. text ≡ shown_url self.now) }
        ensures reads { IfOk result (λ text. IsUrl self.now → url_of text ≡ Ok self.now) }
    {
        let around = self.path.len().saturating_add(SCHEME.len() + AROUND_HOST);
        let mut text = Text::with_capacity(alloc, self.host.len().saturating_add(around))?;
        text.push_all(SCHEME)?;
        push_host(&mut text, self.host.as_bytes())?;
        push_port(&mut text, self.port)?;
        text.push_all(self.path.as_bytes())?;
        Ok(text)
    }

    /// The host, in brackets where it holds a colon, and a colon and the port where it isn't 80.
    #[tactic(auto, unfolding(crate::specs::Urls::shown_host_port))]
    pub fn host_port(&self, alloc: Global) -> Result<Text, Mem>
        ensures { IfOk result (λ text. text ≡ shown_host_port self.now) }
    {
        let mut text = Text::with_capacity(alloc, self.host.len().saturating_add(AROUND_HOST))?;
        push_host(&mut text, self.host.as_bytes())?;
        push_port(&mut text, self.port)?;
        Ok(text)
    }
}

/// Adds a host, in brackets where it holds a colon.
fn push_host(text: &mut Text, host: &[u8]) -> Result<(), Mem>
    ensures { OnOk result (text.new ≡ text.old ++ shown_host host.now) }
{
    match place(COLON, host) {
        Some(_) => {
            text.push(BRACKET_BEGIN)?;
            text.push_all(host)?;
            text.push(BRACKET_END)?;
        }
        None => text.push_all(host)?,
    }
    Ok(())
}

/// Adds a colon and the port, where it isn't the default.
fn push_port(text: &mut Text, port: u16) -> Result<(), Mem>
    ensures { OnOk result (text.new ≡ text.old ++ shown_port port) }
{
    if port == DEFAULT_PORT {
        return Ok(());
    }
    let mut buffer = Buffer::new();
    text.push(COLON)?;
    text.push_all(buffer.format(port).as_bytes())?;
    Ok(())
}
