// What actions do to the fields of an answer.
ghost use Rattle.std.specs.Prelude.{◌≡◌, ◌≤◌, codes, IfOk, option_copied};
ghost use Rattle.px_fields.specs.Names.{has_name};
ghost use Rattle.px_headers.specs.Cookies.{capped_cookie};
ghost use Rattle.px_headers.specs.Rows.{with_values};
ghost use Rattle.px_headers.specs.ServerRows.{crunch_incoming_cookies, crunch_server_header, hide_content_disposition, limit_cookies, new_content_type, overwrite_content_type, overwrite_last_modified, reset_modified, server_rows, with_capped_cookies, with_limited_cookies, with_modified, with_session_cookies};

use crate::client_rows::blocked_or_set;
use crate::cookies::{Cap, session_cookie};
use crate::dates::date_at;
use crate::kinds::is_text;
use crate::rows::{with_value, without, without_holding};
use px_actions::{ActionSet, Kind, lifetime_minutes};
use px_base::{List, Mem};
use px_fields::{Field, has_field, has_name};
use std::alloc::Global;

const COOKIE: &[u8] = b"Set-Cookie";

#[tactic(auto, unfolding(crate::specs::ServerRows::crunch_incoming_cookies))]
fn crunch_incoming_cookies(fields: List<Field>, set: &ActionSet) -> List<Field>
    ensures { result ≡ crunch_incoming_cookies set.now fields }
{
    if set.is_on(Kind::CrunchIncomingCookies) {
        without(fields, COOKIE)
    } else {
        fields
    }
}

/// Makes each cookie one of a session.
#[tactic(auto, unfolding(crate::specs::ServerRows::with_session_cookies))]
fn with_session_cookies(alloc: Global, fields: List<Field>) -> Result<List<Field>, Mem>
    ensures { IfOk result (λ changed. changed ≡ with_session_cookies fields) }
{
    let mut changed = List::with_capacity(alloc, fields.len())?;
    let mut rest = fields.into_vec().into_iter();
    'fields: while let Some(mut field) = rest.next() {
        if has_name(&field, COOKIE) {
            field.value = session_cookie(alloc, field.value.as_bytes())?;
        }
        changed.add(field)?;
    }
    Ok(changed)
}

/// Caps each cookie.
fn with_cap(alloc: Global, fields: List<Field>, cap: &Cap) -> Result<List<Field>, Mem>
    ensures { IfOk result (λ changed. changed ≡ with_values (has_name (codes "Set-Cookie")) (capped_cookie cap.now) fields) }
{
    let mut changed = List::with_capacity(alloc, fields.len())?;
    let mut rest = fields.into_vec().into_iter();
    'fields: while let Some(mut field) = rest.next() {
        if has_name(&field, COOKIE) {
            field.value = cap.capped_cookie(alloc, field.value.as_bytes())?;
        }
        changed.add(field)?;
    }
    Ok(changed)
}

/// Caps each cookie at so many minutes.
#[tactic(auto, unfolding(crate::specs::ServerRows::with_capped_cookies))]
fn with_capped_cookies(
    alloc: Global,
    fields: List<Field>,
    moment: u64,
    minutes: u64,
) -> Result<List<Field>, Mem>
    requires { minutes ≤ 100000000 }
    ensures { IfOk result (λ changed. changed ≡ with_capped_cookies moment minutes fields) }
{
    match Cap::of(alloc, moment, minutes)? {
        Some(cap) => with_cap(alloc, fields, &cap),
        None => Ok(fields),
    }
}

/// Caps each cookie at so many minutes; no minutes make it one of a session.
#[tactic(auto, unfolding(crate::specs::ServerRows::with_limited_cookies))]
fn with_limited_cookies(
    alloc: Global,
    fields: List<Field>,
    moment: u64,
    minutes: u64,
) -> Result<List<Field>, Mem>
    requires { minutes ≤ 100000000 }
    ensures { IfOk result (λ changed. changed ≡ with_limited_cookies moment minutes fields) }
{
    if minutes == 0 {
        with_session_cookies(alloc, fields)
    } else {
        with_capped_cookies(alloc, fields, moment, minutes)
    }
}

#[tactic(auto, using(crate::proofs::RowLemmas::limit_none), unfolding(crate::specs::ServerRows::limit_cookies))]
fn limit_cookies(
    alloc: Global,
    fields: List<Field>,
    set: &ActionSet,
    moment: u64,
) -> Result<List<Field>, Mem>
    ensures { IfOk result (λ changed. changed ≡ limit_cookies set.now moment fields) }
{
    if !has_field(fields.as_slice(), COOKIE) {
        return Ok(fields);
    }
    if set.is_on(Kind::SessionCookiesOnly) {
        return with_session_cookies(alloc, fields);
    }
    match set.value(Kind::LimitCookieLifetime) {
        Some(value) => with_limited_cookies(alloc, fields, moment, lifetime_minutes(value)),
        None => Ok(fields),
    }
}

/// The content type that is set where the answer, by its fields as received, is a text.
#[tactic(auto, unfolding(crate::specs::ServerRows::new_content_type))]
pub(crate) fn new_content_type<'s>(set: &'s ActionSet, received: &[Field]) -> Option<&'s [u8]>
    ensures { option_copied result ≡ new_content_type set.now received.now }
{
    let value = set.value(Kind::ContentTypeOverwrite)?;
    if is_text(received, set) {
        Some(value)
    } else {
        None
    }
}

#[tactic(auto, unfolding(crate::specs::ServerRows::overwrite_content_type))]
fn overwrite_content_type(
    alloc: Global,
    fields: List<Field>,
    content_type: Option<&[u8]>,
) -> Result<List<Field>, Mem>
    ensures { IfOk result (λ changed. changed ≡ overwrite_content_type (option_copied content_type.entry) fields) }
{
    match content_type {
        Some(value) => with_value(alloc, fields, b"Content-Type", value),
        None => Ok(fields),
    }
}

const LAST_MODIFIED: &[u8] = b"Last-Modified";

/// Sets the date of the last change to a moment, where that isn't past the year 9999.
fn reset_modified(alloc: Global, fields: List<Field>, moment: u64) -> Result<List<Field>, Mem>
    ensures { IfOk result (λ changed. changed ≡ reset_modified moment fields) }
{
    match date_at(alloc, moment)? {
        Some(date) => with_value(alloc, fields, LAST_MODIFIED, date.as_bytes()),
        None => Ok(fields),
    }
}

#[tactic(auto, unfolding(crate::specs::ServerRows::with_modified))]
fn with_modified(
    alloc: Global,
    fields: List<Field>,
    moment: u64,
    value: &[u8],
) -> Result<List<Field>, Mem>
    ensures { IfOk result (λ changed. changed ≡ with_modified moment value.now fields) }
{
    if value == b"block".as_slice() {
        Ok(without(fields, LAST_MODIFIED))
    } else if value == b"reset-to-request-time".as_slice() {
        reset_modified(alloc, fields, moment)
    } else {
        Ok(fields)
    }
}

#[tactic(auto, unfolding(crate::specs::ServerRows::overwrite_last_modified))]
fn overwrite_last_modified(
    alloc: Global,
    fields: List<Field>,
    set: &ActionSet,
    moment: u64,
) -> Result<List<Field>, Mem>
    ensures { IfOk result (λ changed. changed ≡ overwrite_last_modified set.now moment fields) }
{
    match set.value(Kind::OverwriteLastModified) {
        Some(value) => with_modified(alloc, fields, moment, value),
        None => Ok(fields),
    }
}

#[tactic(auto, unfolding(crate::specs::ServerRows::hide_content_disposition))]
fn hide_content_disposition(
    alloc: Global,
    fields: List<Field>,
    set: &ActionSet,
) -> Result<List<Field>, Mem>
    ensures { IfOk result (λ changed. changed ≡ hide_content_disposition set.now fields) }
{
    match set.value(Kind::HideContentDisposition) {
        Some(value) => blocked_or_set(alloc, fields, b"Content-Disposition", value),
        None => Ok(fields),
    }
}

#[tactic(auto, unfolding(crate::specs::ServerRows::crunch_server_header))]
fn crunch_server_header(
    alloc: Global,
    fields: List<Field>,
    set: &ActionSet,
) -> Result<List<Field>, Mem>
    ensures { IfOk result (λ kept. kept ≡ crunch_server_header set.now fields) }
{
    match set.value(Kind::CrunchServerHeader) {
        Some(word) => without_holding(alloc, fields, word),
        None => Ok(fields),
    }
}

/// The rows of single fields, in their order. `moment` is in seconds since 1970, and `content_type` what is set.
#[tactic(auto, unfolding(crate::specs::ServerRows::server_rows))]
pub(crate) fn server_rows(
    alloc: Global,
    fields: List<Field>,
    set: &ActionSet,
    moment: u64,
    content_type: Option<&[u8]>,
) -> Result<List<Field>, Mem>
    ensures { IfOk result (λ changed. changed ≡ server_rows set.now moment (option_copied content_type.entry) fields) }
{
    let fields = crunch_incoming_cookies(fields, set);
    let fields = limit_cookies(alloc, fields, set, moment)?;
    let fields = overwrite_content_type(alloc, fields, content_type)?;
    let fields = overwrite_last_modified(alloc, fields, set, moment)?;
    let fields = hide_content_disposition(alloc, fields, set)?;
    crunch_server_header(alloc, fields, set)
}
