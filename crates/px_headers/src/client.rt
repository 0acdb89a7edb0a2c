// What becomes of the head of a request.
ghost use Rattle.std.specs.Prelude.{◌≡◌, [], None, Some, IfErr, IfOk};
ghost use Rattle.px_headers.specs.ClientRows.{client_fields, client_out, IsClientRefusal};
ghost use Rattle.px_headers.specs.Rewrites.{destination};
ghost use Rattle.px_head.specs.Prints.{request_line};

use crate::client_rows::{add_headers, client_rows};
use crate::faults::HeaderFault;
use crate::filtering::{filter_lines, filtered_line, has_filters};
use crate::held_back::{HeldBack, MessageKind, pass_on};
use crate::rewrites::leads_to;
use crate::rules::HeaderRules;
use px_base::{List, Mem, Peer};
use px_fields::Field;
use px_filter_files::WarmFilters;
use px_head::RequestHead;
use px_patterns::Url;
use std::alloc::Global;
use std::mem;

/// Where a request goes, and with which fields.
#[derive(Drop)]
pub struct ClientOut {
    pub url: Url,
    /// Without Host and the other fields that a proxy answers for.
    pub fields: List<Field>,
}

/// The fields of a request that is sent on.
#[tactic(auto, unfolding(crate::specs::ClientRows::client_fields))]
fn client_fields(
    alloc: Global,
    received: List<Field>,
    url: &Url,
    rules: &HeaderRules<'_>,
    warm: &mut WarmFilters<'_>,
    peer: &Peer,
) -> Result<List<Field>, Mem>
    requires { warm.old ≡ rules.now.filters.now }
    ensures value { IfOk result (λ fields. fields ≡ client_fields rules.now.set.now rules.now.filters.now rules.now.vars.now url.now peer.now.address received) }
    ensures same { warm.new ≡ warm.old }
{
    let held = HeldBack::of(alloc, MessageKind::Request, received.as_slice())?;
    let fields = pass_on(received, &held);
    let fields = client_rows(alloc, fields, rules.set, url, peer.address.as_bytes())?;
    let fields = filter_lines(alloc, fields, &held, rules, warm)?;
    add_headers(alloc, fields, rules.set)
}

/// Where a request goes behind the header filters, or None where its line was rewritten badly.
#[tactic(auto, unfolding(crate::specs::Rewrites::destination, crate::specs::Filtering::filter_line))]
fn destination(
    alloc: Global,
    head: &RequestHead,
    url: Url,
    rules: &HeaderRules<'_>,
    warm: &mut WarmFilters<'_>,
) -> Result<Option<Url>, Mem>
    requires { warm.old ≡ rules.now.filters.now }
    ensures value { IfOk result (λ to. to ≡ destination rules.now.set.now rules.now.filters.now rules.now.vars.now url head.now.method (request_line head.now)) }
    ensures same { warm.new ≡ warm.old }
{
    if !has_filters(MessageKind::Request, rules) {
        return Ok(Some(url));
    }
    let line = head.first_line(alloc)?;
    let new = filtered_line(alloc, MessageKind::Request, rules, warm, line.as_bytes())?;
    leads_to(alloc, url, head.method.as_bytes(), line.as_bytes(), new)
}

/// Where a request goes and with which fields, by its actions (Privoxy's manual, "Actions"). `url` is its target;
/// `warm` is the store of the filters. The fields are taken out of the head, also where the call
/// is refused, and those that nothing changes are moved.
///
/// Host, Expect, Proxy-Authorization, the fields that speak of one connection and those that a Connection field names are
/// taken out first. Then come crunch-outgoing-cookies, hide-referrer, hide-user-agent, hide-from-header,
/// hide-accept-language, hide-if-modified-since, crunch-if-none-match, prevent-compression, change-x-forwarded-for,
/// crunch-client-header, client-header-filter and add-header, each of all fields.
///
/// # Errors
/// `BadRewrite` where header filters made something of the request line that isn't the same method, a URL that `Url::read`
/// reads, and `HTTP/1.0` or `HTTP/1.1`.
#[tactic(auto, unfolding(crate::specs::ClientRows::client_out, px_head::specs::Prints::request_line))]
pub fn client_headers(
    alloc: Global,
    head: &mut RequestHead,
    url: Url,
    rules: &HeaderRules<'_>,
    warm: &mut WarmFilters<'_>,
    peer: &Peer,
) -> Result<ClientOut, HeaderFault>
    requires { warm.old ≡ rules.now.filters.now }
    ensures out { IfOk result (λ out. client_out rules.now.set.now rules.now.filters.now rules.now.vars.now url peer.now.address head.old ≡ Some out) }
    ensures refused { IfErr result (IsClientRefusal (client_out rules.now.set.now rules.now.filters.now rules.now.vars.now url peer.now.address head.old)) }
    ensures taken { head.new.fields ≡ [] }
    ensures method { head.new.method ≡ head.old.method }
    ensures target { head.new.target ≡ head.old.target }
    ensures minor { head.new.minor ≡ head.old.minor }
    ensures same { warm.new ≡ warm.old }
{
    let received = mem::replace(&mut head.fields, List::new(alloc));
    let fields = client_fields(alloc, received, &url, rules, warm, peer)?;
    match destination(alloc, head, url, rules, warm)? {
        Some(url) => Ok(ClientOut { url, fields }),
        None => Err(HeaderFault::BadRewrite),
    }
}
