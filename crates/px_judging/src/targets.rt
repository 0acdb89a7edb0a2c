// What the target of a request asks for, and by which rule its body is read.
ghost use Rattle.std.specs.Prelude.{◌≡◌, ◌≢◌, Ok, Err, IfOk};
ghost use Rattle.px_judging.specs.Requests.{is_connect, is_head, is_page_request, lacks_body, target_read, body_read, keeps_behind_request};

use px_base::Mem;
use px_fields::is_connection_word;
use px_framing::{BodyFault, BodyRule, request_body};
use px_head::RequestHead;
use px_patterns::{Url, UrlFault};
use std::alloc::Global;

/// Whether a tunnel is asked for (RFC 9110, section 9.3.6).
pub fn is_connect(head: &RequestHead) -> bool
    ensures { result ≡ is_connect head.now }
{
    head.method.as_bytes() == b"CONNECT".as_slice()
}

/// Whether the reply has no body (RFC 9110, section 9.3.2).
pub fn is_head(head: &RequestHead) -> bool
    ensures { result ≡ is_head head.now }
{
    head.method.as_bytes() == b"HEAD".as_slice()
}

/// Whether a page of the proxy's own may answer the request: GET or HEAD without a body.
pub fn is_page_request(head: &RequestHead, rule: &Result<BodyRule, BodyFault>) -> bool
    ensures { result ≡ is_page_request head.now rule.now }
{
    (head.method.as_bytes() == b"GET".as_slice() || is_head(head)) && lacks_body(rule)
}

/// Whether the body is known to be absent.
fn lacks_body(rule: &Result<BodyRule, BodyFault>) -> bool
    ensures { result ≡ lacks_body rule.now }
{
    match rule {
        Ok(rule) => *rule == BodyRule::Absent,
        Err(_) => false,
    }
}

/// Whether the connection may be kept behind the request, as far as its head says (RFC 9112, section 9.3). `last` is the last
/// request of a connection.
#[tactic(auto, unfolding(crate::specs::Requests::keeps_behind_request))]
pub fn keeps(last: bool, head: &RequestHead) -> bool
    ensures { result ≡ keeps_behind_request last head.now }
{
    head.minor == 1 && !last && !is_connection_word(b"close", head.fields.as_slice())
}

/// Want of memory apart from the refusals.
fn settled(read: Result<Url, UrlFault>) -> Result<Result<Url, UrlFault>, Mem>
    ensures { IfOk result (λ r. (r ≡ read) × (r ≢ Err UrlFault.Mem)) }
{
    match read {
        Ok(url) => Ok(Ok(url)),
        Err(UrlFault::BadByte) => Ok(Err(UrlFault::BadByte)),
        Err(UrlFault::NotHttp) => Ok(Err(UrlFault::NotHttp)),
        Err(UrlFault::HasUser) => Ok(Err(UrlFault::HasUser)),
        Err(UrlFault::NoHost) => Ok(Err(UrlFault::NoHost)),
        Err(UrlFault::BadPort) => Ok(Err(UrlFault::BadPort)),
        Err(UrlFault::Mem) => Err(Mem),
    }
}

/// The URL that is asked for (RFC 9112, section 3.2), or its refusal.
pub fn read_target(alloc: Global, head: &RequestHead) -> Result<Result<Url, UrlFault>, Mem>
    ensures read { IfOk result (λ r. r ≡ target_read head.now) }
{
    let target = head.target.as_bytes();
    if is_connect(head) {
        settled(Url::authority(alloc, target))
    } else {
        settled(Url::read(alloc, target))
    }
}

/// By which rule the body is read, or its refusal. A tunnel has none.
pub fn read_body(head: &RequestHead) -> Result<BodyRule, BodyFault>
    ensures { result ≡ body_read head.now }
{
    if is_connect(head) {
        Ok(BodyRule::Absent)
    } else {
        request_body(head.fields.as_slice())
    }
}
