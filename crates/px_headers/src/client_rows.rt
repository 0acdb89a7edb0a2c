// What actions do to the fields of a request.
ghost use Rattle.std.specs.Prelude.{◌≡◌, ◌++◌, IfOk, IsTrue, filter_map};
ghost use Rattle.std.specs.List.{list_all};
ghost use Rattle.px_actions.specs.Kinds.{entry_of};
ghost use Rattle.px_actions.specs.Rules.{keeps_rule};
ghost use Rattle.px_fields.specs.FieldLines.{read_field};
ghost use Rattle.px_headers.specs.ClientRows.{add_headers, blocked_fields, blocked_or_set, change_forwarded_for, client_rows, crunch_client_header, crunch_if_none_match, crunch_outgoing_cookies, hide_accept_language, hide_from_header, hide_if_modified_since, hide_referrer, hide_user_agent, prevent_compression};

use crate::referrers::with_hidden_referrer;
use crate::rows::{push_field, with_more, with_value, without, without_holding};
use px_actions::{ActionSet, Kind, added_field};
use px_base::{List, Mem, Text};
use px_fields::Field;
use px_patterns::Url;
use std::alloc::Global;

/// `block` removes the fields of that name.
#[tactic(auto, unfolding(crate::specs::ClientRows::blocked_fields))]
fn blocked(fields: List<Field>, name: &[u8], value: &[u8]) -> List<Field>
    ensures { result ≡ blocked_fields name.now value.now fields }
{
    if value == b"block".as_slice() {
        without(fields, name)
    } else {
        fields
    }
}

/// `block` removes the fields of that name, any other text is set.
#[tactic(auto, unfolding(crate::specs::ClientRows::blocked_or_set))]
pub(crate) fn blocked_or_set(
    alloc: Global,
    fields: List<Field>,
    name: &[u8],
    value: &[u8],
) -> Result<List<Field>, Mem>
    ensures { IfOk result (λ changed. changed ≡ blocked_or_set name.now value.now fields) }
{
    if value == b"block".as_slice() {
        Ok(without(fields, name))
    } else {
        with_value(alloc, fields, name, value)
    }
}

#[tactic(auto, unfolding(crate::specs::ClientRows::crunch_outgoing_cookies))]
fn crunch_outgoing_cookies(fields: List<Field>, set: &ActionSet) -> List<Field>
    ensures { result ≡ crunch_outgoing_cookies set.now fields }
{
    if set.is_on(Kind::CrunchOutgoingCookies) {
        without(fields, b"Cookie")
    } else {
        fields
    }
}

#[tactic(auto, unfolding(crate::specs::ClientRows::hide_referrer))]
fn hide_referrer(
    alloc: Global,
    fields: List<Field>,
    set: &ActionSet,
    url: &Url,
) -> Result<List<Field>, Mem>
    ensures { IfOk result (λ changed. changed ≡ hide_referrer set.now url.now fields) }
{
    match set.value(Kind::HideReferrer) {
        Some(value) => with_hidden_referrer(alloc, fields, url, value),
        None => Ok(fields),
    }
}

#[tactic(auto, unfolding(crate::specs::ClientRows::hide_user_agent))]
fn hide_user_agent(alloc: Global, fields: List<Field>, set: &ActionSet) -> Result<List<Field>, Mem>
    ensures { IfOk result (λ changed. changed ≡ hide_user_agent set.now fields) }
{
    match set.value(Kind::HideUserAgent) {
        Some(value) => with_value(alloc, fields, b"User-Agent", value),
        None => Ok(fields),
    }
}

#[tactic(auto, unfolding(crate::specs::ClientRows::hide_from_header))]
fn hide_from_header(alloc: Global, fields: List<Field>, set: &ActionSet) -> Result<List<Field>, Mem>
    ensures { IfOk result (λ changed. changed ≡ hide_from_header set.now fields) }
{
    match set.value(Kind::HideFromHeader) {
        Some(value) => blocked_or_set(alloc, fields, b"From", value),
        None => Ok(fields),
    }
}

#[tactic(auto, unfolding(crate::specs::ClientRows::hide_accept_language))]
fn hide_accept_language(
    alloc: Global,
    fields: List<Field>,
    set: &ActionSet,
) -> Result<List<Field>, Mem>
    ensures { IfOk result (λ changed. changed ≡ hide_accept_language set.now fields) }
{
    match set.value(Kind::HideAcceptLanguage) {
        Some(value) => blocked_or_set(alloc, fields, b"Accept-Language", value),
        None => Ok(fields),
    }
}

#[tactic(auto, unfolding(crate::specs::ClientRows::hide_if_modified_since))]
fn hide_if_modified_since(fields: List<Field>, set: &ActionSet) -> List<Field>
    ensures { result ≡ hide_if_modified_since set.now fields }
{
    match set.value(Kind::HideIfModifiedSince) {
        Some(value) => blocked(fields, b"If-Modified-Since", value),
        None => fields,
    }
}

#[tactic(auto, unfolding(crate::specs::ClientRows::crunch_if_none_match))]
fn crunch_if_none_match(fields: List<Field>, set: &ActionSet) -> List<Field>
    ensures { result ≡ crunch_if_none_match set.now fields }
{
    if set.is_on(Kind::CrunchIfNoneMatch) {
        without(fields, b"If-None-Match")
    } else {
        fields
    }
}

#[tactic(auto, unfolding(crate::specs::ClientRows::prevent_compression))]
fn prevent_compression(fields: List<Field>, set: &ActionSet) -> List<Field>
    ensures { result ≡ prevent_compression set.now fields }
{
    if set.is_on(Kind::PreventCompression) {
        without(fields, b"Accept-Encoding")
    } else {
        fields
    }
}

const FORWARDED_FOR: &[u8] = b"X-Forwarded-For";

#[tactic(auto, unfolding(crate::specs::ClientRows::change_forwarded_for))]
fn change_forwarded_for(
    alloc: Global,
    fields: List<Field>,
    set: &ActionSet,
    peer: &[u8],
) -> Result<List<Field>, Mem>
    ensures { IfOk result (λ changed. changed ≡ change_forwarded_for set.now peer.now fields) }
{
    match set.value(Kind::ChangeXForwardedFor) {
        Some(value) => {
            if value == b"block".as_slice() {
                Ok(without(fields, FORWARDED_FOR))
            } else {
                with_more(alloc, fields, FORWARDED_FOR, b", ", peer)
            }
        }
        None => Ok(fields),
    }
}

#[tactic(auto, unfolding(crate::specs::ClientRows::crunch_client_header))]
fn crunch_client_header(
    alloc: Global,
    fields: List<Field>,
    set: &ActionSet,
) -> Result<List<Field>, Mem>
    ensures { IfOk result (λ kept. kept ≡ crunch_client_header set.now fields) }
{
    match set.value(Kind::CrunchClientHeader) {
        Some(word) => without_holding(alloc, fields, word),
        None => Ok(fields),
    }
}

/// The rows of single fields, in their order. `peer` is the client's address.
#[tactic(auto, unfolding(crate::specs::ClientRows::client_rows))]
pub(crate) fn client_rows(
    alloc: Global,
    fields: List<Field>,
    set: &ActionSet,
    url: &Url,
    peer: &[u8],
) -> Result<List<Field>, Mem>
    ensures { IfOk result (λ changed. changed ≡ client_rows set.now url.now peer.now fields) }
{
    let fields = crunch_outgoing_cookies(fields, set);
    let fields = hide_referrer(alloc, fields, set, url)?;
    let fields = hide_user_agent(alloc, fields, set)?;
    let fields = hide_from_header(alloc, fields, set)?;
    let fields = hide_accept_language(alloc, fields, set)?;
    let fields = hide_if_modified_since(fields, set);
    let fields = crunch_if_none_match(fields, set);
    let fields = prevent_compression(fields, set);
    let fields = change_forwarded_for(alloc, fields, set, peer)?;
    crunch_client_header(alloc, fields, set)
}

/// Adds the field of each value at the end.
fn add_fields(alloc: Global, fields: List<Field>, values: &[Text]) -> Result<List<Field>, Mem>
    requires { IsTrue (list_all (keeps_rule (entry_of Kind.AddHeader).rule) values.now) }
    ensures { IfOk result (λ more. more ≡ fields ++ filter_map read_field values.now) }
{
    let mut more = fields;
    let mut rest = values;
    'values: while let Some((value, behind)) = rest.split_first() {
        let field = added_field(value.as_bytes());
        push_field(alloc, &mut more, field.name, field.value)?;
        rest = behind;
    }
    Ok(more)
}

/// Adds the field of each value of add-header at the end.
#[tactic(auto, unfolding(crate::specs::ClientRows::add_headers))]
pub(crate) fn add_headers(
    alloc: Global,
    fields: List<Field>,
    set: &ActionSet,
) -> Result<List<Field>, Mem>
    ensures { IfOk result (λ more. more ≡ add_headers set.now fields) }
{
    add_fields(alloc, fields, set.values(Kind::AddHeader))
}
