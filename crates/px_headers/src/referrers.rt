// What hide-referrer does.
ghost use Rattle.std.specs.Prelude.{◌≡◌, ◌+◌, ◌≤◌, codes, IfOk, IfSome, length};
ghost use Rattle.std.specs.Char.{is_ascii_digit};
ghost use Rattle.std.specs.List.{list_all};
ghost use Rattle.memchr.specs.Find.{first_of, matches};
ghost use Rattle.px_headers.specs.Referrers.{ends_referrer_host, has_foreign_referrer, host_behind, host_len, is_foreign, part_len, root_of, with_hidden_referrer, without_brackets};
ghost use Rattle.px_headers.specs.Rows.{with_values, without_those};

use crate::rows::{with_value, without};
use px_base::{List, Mem, Text, same_without_case};
use px_fields::{Field, has_field, has_name};
use px_patterns::Url;
use std::alloc::Global;

const REFERRER: &[u8] = b"Referer";

const SCHEME: &[u8] = b"http://";

const SCHEME_END: &[u8] = b"://";

fn are_digits(bytes: &[u8]) -> bool
    ensures { result ≡ list_all is_ascii_digit bytes.now }
{
    bytes.iter().all(|byte| byte.is_ascii_digit())
}

fn ends_host(byte: u8) -> bool
    ensures { result ≡ ends_referrer_host byte }
{
    byte == b'/' || byte == b'?' || byte == b'#'
}

/// How far a host and its port go: up to `/`, `?` or `#`.
fn part_len(text: &[u8]) -> usize
    ensures len { result ≡ part_len text.now }
    ensures within { result ≤ length text.now }
{
    let mut len = 0;
    let mut rest = text;
    'bytes: while let Some((first, more)) = rest.split_first() {
        if ends_host(*first) {
            return len;
        }
        len += 1;
        rest = more;
    }
    len
}

/// How far a host goes in front of a port.
fn host_len(part: &[u8]) -> usize
    ensures len { result ≡ host_len part.now }
    ensures within { result ≤ length part.now }
{
    let mut len = 0;
    let mut rest = part;
    'bytes: while let Some((first, more)) = rest.split_first() {
        if *first == b':' && are_digits(more) {
            return len;
        }
        len += 1;
        rest = more;
    }
    len
}

/// A host without the brackets around an address.
#[tactic(auto, unfolding(crate::specs::Referrers::without_brackets))]
fn without_brackets(host: &[u8]) -> &[u8]
    ensures { result.now ≡ without_brackets host.now }
{
    if host.len() >= 2 && host[0] == b'[' && host[host.len() - 1] == b']' {
        &host[1..host.len() - 1]
    } else {
        host
    }
}

/// The host in what stands behind `://`.
fn host_behind(rest: &[u8]) -> &[u8]
    ensures { result.now ≡ host_behind rest.now }
{
    let part = &rest[..part_len(rest)];
    without_brackets(&part[..host_len(part)])
}

/// The first place at which `://` stands. It mostly stands near the front, so that no search is prepared for it.
#[tactic(auto, using(crate::proofs::SchemeLemmas::first_here, crate::proofs::SchemeLemmas::first_later, crate::proofs::SchemeLemmas::first_none))]
fn scheme_end(text: &[u8]) -> Option<usize>
    ensures value { result ≡ first_of (matches text.now (codes "://") 0) }
    ensures within { IfSome result (λ at. at + 3 ≤ length text.now) }
{
    for at in 0..text.len() {
        if text[at..].starts_with(SCHEME_END) {
            return Some(at);
        }
    }
    None
}

/// Whether a referrer's host differs from this one, or it has no `://`.
#[tactic(auto, unfolding(crate::specs::Referrers::is_foreign))]
fn is_foreign(host: &[u8], referrer: &[u8]) -> bool
    ensures { result ≡ is_foreign host.now referrer.now }
{
    match scheme_end(referrer) {
        Some(at) => !same_without_case(host_behind(&referrer[at..][SCHEME_END.len()..]), host),
        None => true,
    }
}

fn has_foreign_referrer(host: &[u8], field: &Field) -> bool
    ensures { result ≡ has_foreign_referrer host.now field.now }
{
    has_name(field, REFERRER) && is_foreign(host, field.value.as_bytes())
}

/// The root of a URL: `http://`, its host and port, and a slash.
#[tactic(auto, unfolding(crate::specs::Referrers::root_of))]
fn root_of(alloc: Global, url: &Url) -> Result<Text, Mem>
    ensures { IfOk result (λ root. root ≡ root_of url.now) }
{
    let place = url.host_port(alloc)?;
    let mut root = Text::with_capacity(alloc, place.len().saturating_add(SCHEME.len() + 1))?;
    root.push_all(SCHEME)?;
    root.push_all(place.as_bytes())?;
    root.push(b'/')?;
    Ok(root)
}

/// Without the referrers of another host.
fn without_foreign(fields: List<Field>, host: &[u8]) -> List<Field>
    ensures { result ≡ without_those (has_foreign_referrer host.now) fields }
{
    let mut kept = fields.into_vec();
    kept.retain(|field| !has_foreign_referrer(host, field));
    List::from_vec(kept)
}

/// The referrers of another host with this value.
fn with_foreign(
    alloc: Global,
    fields: List<Field>,
    host: &[u8],
    value: &[u8],
) -> Result<List<Field>, Mem>
    ensures { IfOk result (λ changed. changed ≡ with_values (has_foreign_referrer host.now) (λ _. value.now) fields) }
{
    let mut changed = List::with_capacity(alloc, fields.len())?;
    let mut rest = fields.into_vec().into_iter();
    'fields: while let Some(mut field) = rest.next() {
        if has_foreign_referrer(host, &field) {
            field.value = Text::from_bytes(alloc, value)?;
        }
        changed.add(field)?;
    }
    Ok(changed)
}

/// What a value of hide-referrer makes of fields: `block`, `forge`, `conditional-block`, `conditional-forge`, or a text that
/// is set.
#[tactic(auto, using(crate::proofs::RowLemmas::hidden_none), unfolding(crate::specs::Referrers::with_hidden_referrer))]
pub(crate) fn with_hidden_referrer(
    alloc: Global,
    fields: List<Field>,
    url: &Url,
    value: &[u8],
) -> Result<List<Field>, Mem>
    ensures { IfOk result (λ changed. changed ≡ with_hidden_referrer url.now value.now fields) }
{
    if !has_field(fields.as_slice(), REFERRER) {
        return Ok(fields);
    }
    if value == b"block".as_slice() {
        Ok(without(fields, REFERRER))
    } else if value == b"forge".as_slice() {
        with_value(alloc, fields, REFERRER, root_of(alloc, url)?.as_bytes())
    } else if value == b"conditional-block".as_slice() {
        Ok(without_foreign(fields, url.host.as_bytes()))
    } else if value == b"conditional-forge".as_slice() {
        with_foreign(
            alloc,
            fields,
            url.host.as_bytes(),
            root_of(alloc, url)?.as_bytes(),
        )
    } else {
        with_value(alloc, fields, REFERRER, value)
    }
}
