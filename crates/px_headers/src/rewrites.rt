// First lines that header filters changed.
ghost use Rattle.std.specs.Prelude.{◌≡◌, IfOk, Some, option_map};
ghost use Rattle.std.specs.List.{list_all};
ghost use Rattle.std.specs.Result.{result_ok};
ghost use Rattle.px_fields.specs.FieldLines.{is_value_byte};
ghost use Rattle.px_patterns.specs.Urls.{url_of};
ghost use Rattle.px_headers.specs.Rewrites.{before_version, behind_prefix, behind_version, is_reason_part, is_status, is_status_line, is_status_part, kept_status_line, leads_to, rewritten, target_in};

use px_base::{Mem, Text, read_decimal};
use px_patterns::{Url, UrlFault};
use std::alloc::Global;

/// What stands before a space and `HTTP/1.0` or `HTTP/1.1`.
#[tactic(auto, unfolding(crate::specs::Rewrites::before_version))]
fn before_version(rest: &[u8]) -> Option<&[u8]>
    ensures { option_map (λ target. target.now) result ≡ before_version rest.now }
{
    if rest.ends_with(b" HTTP/1.0") || rest.ends_with(b" HTTP/1.1") {
        Some(&rest[..rest.len() - 9])
    } else {
        None
    }
}

/// What stands behind a front.
#[tactic(auto, unfolding(crate::specs::Rewrites::behind_prefix))]
fn behind<'l>(front: &[u8], line: &'l [u8]) -> Option<&'l [u8]>
    ensures { option_map (λ rest. rest.now) result ≡ behind_prefix front.now line.now }
{
    if line.starts_with(front) {
        Some(&line[front.len()..])
    } else {
        None
    }
}

/// The target of a request line of that method.
#[tactic(auto, unfolding(crate::specs::Rewrites::target_in))]
fn target_in<'l>(method: &[u8], line: &'l [u8]) -> Option<&'l [u8]>
    ensures { option_map (λ target. target.now) result ≡ target_in method.now line.now }
{
    match behind(method, line) {
        Some(rest) => match behind(b" ", rest) {
            Some(target) => before_version(target),
            None => None,
        },
        None => None,
    }
}

/// The URL that a text stands for, if it stands for one.
fn read_url(alloc: Global, text: &[u8]) -> Result<Option<Url>, Mem>
    ensures { IfOk result (λ url. url ≡ result_ok (url_of text.now)) }
{
    match Url::read(alloc, text) {
        Ok(url) => Ok(Some(url)),
        Err(UrlFault::Mem) => Err(Mem),
        Err(UrlFault::BadByte) => Ok(None),
        Err(UrlFault::NotHttp) => Ok(None),
        Err(UrlFault::HasUser) => Ok(None),
        Err(UrlFault::NoHost) => Ok(None),
        Err(UrlFault::BadPort) => Ok(None),
    }
}

/// Where a changed request line leads.
#[tactic(auto, unfolding(crate::specs::Rewrites::rewritten))]
fn rewritten(alloc: Global, method: &[u8], line: &[u8]) -> Result<Option<Url>, Mem>
    ensures { IfOk result (λ url. url ≡ rewritten method.now line.now) }
{
    match target_in(method, line) {
        Some(target) => read_url(alloc, target),
        None => Ok(None),
    }
}

/// Where a request line leads of which header filters made that.
pub(crate) fn leads_to(
    alloc: Global,
    url: Url,
    method: &[u8],
    line: &[u8],
    new: Text,
) -> Result<Option<Url>, Mem>
    ensures { IfOk result (λ to. to ≡ leads_to url method.now line.now (Some new)) }
{
    if new.as_bytes() == line {
        Ok(Some(url))
    } else {
        rewritten(alloc, method, new.as_bytes())
    }
}

fn are_value_bytes(text: &[u8]) -> bool
    ensures { result ≡ list_all is_value_byte text.now }
{
    text.iter()
        .all(|byte| *byte != 0 && *byte != b'\n' && *byte != b'\r')
}

/// Whether a text is nothing, or a space and a reason.
fn is_reason_part(text: &[u8]) -> bool
    ensures { result ≡ is_reason_part text.now }
{
    match text.split_first() {
        Some((first, reason)) => *first == b' ' && are_value_bytes(reason),
        None => true,
    }
}

/// Whether a text is three digits of that status, and a reason.
#[tactic(auto, unfolding(crate::specs::Rewrites::is_status_part))]
fn is_status_part(status: u16, rest: &[u8]) -> bool
    ensures { result ≡ is_status_part status rest.now }
{
    rest.len() >= 3 && is_status(status, &rest[..3]) && is_reason_part(&rest[3..])
}

fn is_status(status: u16, digits: &[u8]) -> bool
    ensures { result ≡ is_status status digits.now }
{
    match read_decimal(digits, 999) {
        Some(number) => number == u64::from(status),
        None => false,
    }
}

/// What stands behind `HTTP/1.0` or `HTTP/1.1` and a space.
#[tactic(auto, unfolding(crate::specs::Rewrites::behind_version))]
fn behind_version(line: &[u8]) -> Option<&[u8]>
    ensures { option_map (λ rest. rest.now) result ≡ behind_version line.now }
{
    match behind(b"HTTP/1.0 ", line) {
        Some(rest) => Some(rest),
        None => behind(b"HTTP/1.1 ", line),
    }
}

/// Whether a line is a status line of that status (RFC 9112, section 4).
fn is_status_line(status: u16, line: &[u8]) -> bool
    ensures { result ≡ is_status_line status line.now }
{
    match behind_version(line) {
        Some(rest) => is_status_part(status, rest),
        None => false,
    }
}

/// The status line of an answer of which header filters made that.
pub(crate) fn kept_status_line(status: u16, line: Text, new: Text) -> Text
    ensures { result ≡ kept_status_line status line (Some new) }
{
    if is_status_line(status, new.as_bytes()) {
        new
    } else {
        line
    }
}
