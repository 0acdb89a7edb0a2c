// Judging: what is done for a request, before any dial. Each step refuses, or goes on to the next.
ghost use Rattle.std.specs.Prelude.{◌≡◌, IfOk};
ghost use Rattle.px_judging.specs.Judging.{judged, body_refused, by_reading, by_page, by_rule, inside_reply, SpeaksOfNoDial, by_request, by_tags, by_decision, by_method, by_headers, front_of, closing_page, invalid, reply_to, blocked_reply, image_or_page};
ghost use Rattle.px_judging.specs.Given.{given_for};
ghost use Rattle.px_judging.specs.Replies.{job_symbols};
ghost use Rattle.px_headers.specs.ClientRows.{client_out};
ghost use Rattle.px_headers.specs.Faults.{header_fault_name};

use crate::handed::{Handed, Terms};
use crate::judgements::Judgement;
use crate::plans::{RequestFront, plan_by, tunnel_of};
use crate::readings::HeadReading;
use crate::replies::{LocalReply, ReplyKind, bare_symbols, job_symbols, url_symbols};
use crate::requests::{Asked, Request, RequestTags};
use crate::tagging::{tag_request, vars_of};
use crate::targets::{is_connect, is_head, keeps};
use px_actions::Kind;
use px_base::{Mem, Peer, Text};
use px_config::{InsidePage, Running};
use px_decide::{Decision, decide};
use px_framing::{BodyFault, BodyRule};
use px_head::{HeadFault, RequestHead};
use px_headers::{HeaderFault, HeaderRules, client_headers};
use px_patterns::Url;
use px_sending::expects_continue;
use px_subst::Vars;
use px_templates::{Page, Symbols};
use std::alloc::Global;

/// A page behind which the connection closes.
fn closing_page(page: Page, symbols: Symbols, bodiless: bool) -> Judgement
    ensures { result ≡ closing_page page symbols bodiless }
{
    Judgement::Local(LocalReply {
        kind: ReplyKind::Page { page, symbols },
        close: true,
        bodiless,
    })
}

/// The page of a request that isn't read, with the refusal's name.
fn invalid(alloc: Global, error: &[u8], bodiless: bool) -> Result<Judgement, Mem>
    ensures { IfOk result (λ j. j ≡ invalid error.now bodiless) }
{
    let symbols = bare_symbols(alloc, error)?;
    Ok(closing_page(Page::InvalidRequest, symbols, bodiless))
}

/// A reply to a request. The connection is kept where the request lets it and has no body.
fn reply_to(last: bool, request: &Request, kind: ReplyKind) -> Judgement
    ensures { result ≡ reply_to last request.now kind }
{
    let kept = keeps(last, &request.head) && request.rule == BodyRule::Absent;
    Judgement::Local(LocalReply {
        kind,
        close: !kept,
        bodiless: is_head(&request.head),
    })
}

/// The page of a blocked request.
fn blocked(alloc: Global, last: bool, request: &Request, reason: &[u8]) -> Result<Judgement, Mem>
    ensures { IfOk result (λ j. j ≡ blocked_reply last request.now reason.now) }
{
    let symbols = url_symbols(alloc, &request.url, reason, &[], &[])?;
    let page = Page::Blocked;
    Ok(reply_to(last, request, ReplyKind::Page { page, symbols }))
}

/// An image, or the page of a blocked request where the image is missing.
fn image_or_page(
    alloc: Global,
    last: bool,
    request: &Request,
    tags: &RequestTags,
    image: &Option<Text>,
    kind: ReplyKind,
) -> Result<Judgement, Mem>
    ensures { IfOk result (λ j. j ≡ image_or_page last request.now tags.now image.now kind) }
{
    match image {
        Some(_) => Ok(reply_to(last, request, kind)),
        None => {
            let reason = tags.set.value(Kind::Block).unwrap_or(&[]);
            blocked(alloc, last, request, reason)
        }
    }
}

/// What of a request's head is needed when its fields are gone.
fn front_of(alloc: Global, last: bool, request: &Request) -> Result<RequestFront, Mem>
    ensures { IfOk result (λ front. front ≡ front_of last request.now) }
{
    let head = &request.head;
    Ok(RequestFront {
        method: Text::from_bytes(alloc, head.method.as_bytes())?,
        minor: head.minor,
        rule: request.rule,
        keep: keeps(last, head),
        expects: expects_continue(head.minor, head.fields.as_slice(), request.rule),
        bodiless: is_head(head),
    })
}

/// The page of a request whose line was rewritten badly.
fn bad_rewrite(alloc: Global, vars: &Vars, port: u16, bodiless: bool) -> Result<Judgement, Mem>
    ensures { IfOk result (λ j. j ≡ closing_page Page.BadRewrite (job_symbols vars.now port (header_fault_name HeaderFault.BadRewrite)) bodiless) }
{
    let error = HeaderFault::BadRewrite.name();
    let symbols = job_symbols(alloc, vars, port, error.as_bytes())?;
    Ok(closing_page(Page::BadRewrite, symbols, bodiless))
}

/// By what the header actions make of the head.
fn judge_headers(
    alloc: Global,
    terms: &Terms<'_>,
    peer: &Peer,
    running: &mut Running<'_>,
    request: Request,
    tags: RequestTags,
) -> Result<Judgement, Mem>
    ensures value { IfOk result (λ j. j ≡ by_headers (given_for running.old terms.now peer.now.address) request tags (client_out tags.set running.old.filters request.vars request.url peer.now.address request.head)) }
    ensures same { running.new ≡ running.old }
{
    let config = running.config();
    let front = front_of(alloc, terms.last, &request)?;
    let Request {
        mut head,
        url,
        rule: _,
        vars,
    } = request;
    let port = url.port;
    let out = client_headers(
        alloc,
        &mut head,
        url,
        &HeaderRules {
            set: &tags.set,
            filters: &config.filters,
            vars: &vars,
        },
        &mut running.filters,
        peer,
    );
    match out {
        Ok(out) => Ok(Judgement::Forward(plan_by(
            alloc,
            config,
            terms.moment,
            front,
            tags,
            vars,
            out,
        )?)),
        Err(HeaderFault::BadRewrite) => bad_rewrite(alloc, &vars, port, front.bodiless),
        Err(HeaderFault::Mem) => Err(Mem),
    }
}

/// A request that passes.
fn judge_method(
    alloc: Global,
    terms: &Terms<'_>,
    peer: &Peer,
    running: &mut Running<'_>,
    request: Request,
    tags: RequestTags,
) -> Result<Judgement, Mem>
    ensures value { IfOk result (λ j. j ≡ by_method (given_for running.old terms.now peer.now.address) request tags) }
    ensures same { running.new ≡ running.old }
{
    if is_connect(&request.head) {
        Ok(Judgement::Tunnel(tunnel_of(alloc, running.config(), request, tags)?))
    } else {
        judge_headers(alloc, terms, peer, running, request, tags)
    }
}

/// By what the actions decide.
fn judge_decision(
    alloc: Global,
    terms: &Terms<'_>,
    peer: &Peer,
    running: &mut Running<'_>,
    request: Request,
    tags: RequestTags,
    decision: Decision,
) -> Result<Judgement, Mem>
    ensures value { IfOk result (λ j. j ≡ by_decision (given_for running.old terms.now peer.now.address) request tags decision) }
    ensures same { running.new ≡ running.old }
{
    let config = running.config();
    let last = terms.last;
    match decision {
        Decision::Pass => judge_method(alloc, terms, peer, running, request, tags),
        Decision::Blocked(reason) => blocked(alloc, last, &request, reason.as_bytes()),
        Decision::ImageBlank => image_or_page(
            alloc,
            last,
            &request,
            &tags,
            &config.image_blank,
            ReplyKind::BlankImage,
        ),
        Decision::ImagePattern => image_or_page(
            alloc,
            last,
            &request,
            &tags,
            &config.image_pattern,
            ReplyKind::PatternImage,
        ),
        Decision::Empty => Ok(reply_to(last, &request, ReplyKind::EmptyDocument)),
        Decision::Redirect(target) => Ok(reply_to(last, &request, ReplyKind::Redirect(target))),
        Decision::ConnectDenied => {
            let symbols = url_symbols(alloc, &request.url, &[], &[], &[])?;
            Ok(closing_page(Page::ConnectDenied, symbols, false))
        }
    }
}

/// By the actions that are set for the request.
fn judge_tags(
    alloc: Global,
    terms: &Terms<'_>,
    peer: &Peer,
    running: &mut Running<'_>,
    request: Request,
    tags: RequestTags,
) -> Result<Judgement, Mem>
    ensures value { IfOk result (λ j. j ≡ by_tags (given_for running.old terms.now peer.now.address) request tags) }
    ensures same { running.new ≡ running.old }
{
    let connect = is_connect(&request.head);
    let decision = decide(alloc, &request.url, connect, &tags.set, &request.vars)?;
    judge_decision(alloc, terms, peer, running, request, tags, decision)
}

/// A request whose target and body rule are read.
fn judge_request(
    alloc: Global,
    terms: &Terms<'_>,
    peer: &Peer,
    running: &mut Running<'_>,
    request: Request,
) -> Result<Judgement, Mem>
    ensures value { IfOk result (λ j. j ≡ by_request (given_for running.old terms.now peer.now.address) request) }
    ensures same { running.new ≡ running.old }
{
    let tags = tag_request(alloc, running, terms.tags, &request)?;
    judge_tags(alloc, terms, peer, running, request, tags)
}

/// The page of a request whose body can't be read.
fn refuse_body(
    alloc: Global,
    head: &RequestHead,
    url: &Url,
    fault: BodyFault,
) -> Result<Judgement, Mem>
    ensures { IfOk result (λ j. j ≡ body_refused head.now url.now fault) }
{
    let symbols = url_symbols(alloc, url, &[], fault.name().as_bytes(), &[])?;
    Ok(closing_page(Page::InvalidRequest, symbols, is_head(head)))
}

/// By the rule of the body.
fn judge_body(
    alloc: Global,
    terms: &Terms<'_>,
    peer: &Peer,
    running: &mut Running<'_>,
    asked: Asked,
) -> Result<Judgement, Mem>
    ensures value { IfOk result (λ j. j ≡ by_rule (given_for running.old terms.now peer.now.address) asked.head asked.url asked.rule) }
    ensures same { running.new ≡ running.old }
{
    let Asked { head, url, rule } = asked;
    match rule {
        Ok(rule) => {
            let vars = vars_of(alloc, peer, &url)?;
            let request = Request {
                head,
                url,
                rule,
                vars,
            };
            judge_request(alloc, terms, peer, running, request)
        }
        Err(fault) => refuse_body(alloc, &head, &url, fault),
    }
}

/// A page of the proxy's own, as the answer to a request without a body.
fn inside_reply(last: bool, head: &RequestHead, page: InsidePage) -> Judgement
    ensures { result ≡ inside_reply last head.now page }
{
    Judgement::Local(LocalReply {
        kind: ReplyKind::Inside(page),
        close: !keeps(last, head),
        bodiless: is_head(head),
    })
}

/// By the page of the proxy's own that answers it, if one does.
fn judge_page(
    alloc: Global,
    terms: &Terms<'_>,
    peer: &Peer,
    running: &mut Running<'_>,
    asked: Asked,
    page: Option<InsidePage>,
) -> Result<Judgement, Mem>
    ensures value { IfOk result (λ j. j ≡ by_page (given_for running.old terms.now peer.now.address) asked.head asked.url asked.rule page) }
    ensures same { running.new ≡ running.old }
{
    match page {
        Some(page) => Ok(inside_reply(terms.last, &asked.head, page)),
        None => judge_body(alloc, terms, peer, running, asked),
    }
}

/// By what its head reads as.
fn judge_reading(
    alloc: Global,
    terms: &Terms<'_>,
    peer: &Peer,
    running: &mut Running<'_>,
    reading: HeadReading,
    page: Option<InsidePage>,
) -> Result<Judgement, Mem>
    ensures value { IfOk result (λ j. j ≡ by_reading (given_for running.old terms.now peer.now.address) reading page) }
    ensures same { running.new ≡ running.old }
{
    match reading {
        HeadReading::Overlong => {
            let symbols = bare_symbols(alloc, &[])?;
            Ok(closing_page(Page::HeadTooLong, symbols, false))
        }
        HeadReading::Malformed => invalid(alloc, HeadFault::Malformed.name().as_bytes(), false),
        HeadReading::TooManyFields => invalid(
            alloc,
            HeadFault::TooManyFields.name().as_bytes(),
            false,
        ),
        HeadReading::NoTarget { head, fault } => {
            invalid(alloc, fault.name().as_bytes(), is_head(&head))
        }
        HeadReading::Request { head, url, rule } => {
            judge_page(alloc, terms, peer, running, Asked { head, url, rule }, page)
        }
    }
}

/// What is done for a request that reads so. In this order: an overlong head, one that isn't read, and its target are refused; a
/// page of the proxy's own answers it; the rule of its body is refused; then the actions of its URL and its tags decide; then it is
/// sent on as the header actions have it, unless they rewrote its line badly.
pub fn judge(
    alloc: Global,
    handed: Handed,
    peer: &Peer,
    running: &mut Running<'_>,
) -> Result<Judgement, Mem>
    ensures value { IfOk result (λ j. j ≡ judged running.old handed peer.now.address) }
    ensures quiet { IfOk result SpeaksOfNoDial }
    ensures same { running.new ≡ running.old }
{
    let Handed {
        reading,
        last,
        tags,
        page,
        moment,
    } = handed;
    let terms = Terms {
        last,
        tags: tags.as_slice(),
        moment,
    };
    judge_reading(alloc, &terms, peer, running, reading, page)
}
