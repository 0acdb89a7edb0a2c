// Replies without an origin's answer, returned to the client.
ghost use Rattle.std.specs.Prelude.{◌≡◌, ◌≢◌, ◌⊎◌, IfOk, IsTrue};
ghost use Rattle.px_base.specs.Sinks.{SinkGoesOn};
ghost use Rattle.px_pumps.specs.Returning.{WriteCause};
ghost use Rattle.px_exchange.specs.Replies.{reply_ending, error_of, local_due, page_reply, parent_value, parent_text, url_page};
ghost use Rattle.px_exchange.specs.Standing.{ReturnsDue};

use itoa::Buffer;
use px_base::{Mem, Sink, SinkFault, Text, write_all};
use px_config::Config;
use px_decide::Route;
use px_judging::{LocalReply, ReplyKind, reply_bytes, url_symbols};
use px_notes::{After, Conclusion, Ending, after_whole, broken};
use px_patterns::Url;
use px_templates::Page;
use std::alloc::Global;

/// What a reply of a kind is.
fn ending_of(kind: &ReplyKind) -> Ending
    ensures { result ≡ reply_ending kind.now }
{
    match kind {
        ReplyKind::Page { page, symbols: _ } => Ending::Page(*page),
        ReplyKind::BlankImage => Ending::Image,
        ReplyKind::PatternImage => Ending::Image,
        ReplyKind::EmptyDocument => Ending::Empty,
        ReplyKind::Redirect(_) => Ending::Redirect,
        ReplyKind::Inside(_) => Ending::Inside,
    }
}

/// Returns a reply to the client.
pub fn return_reply<O: Sink>(
    alloc: Global,
    config: &Config,
    reply: &LocalReply,
    client_out: &mut O,
) -> Conclusion
    ensures returns { IsTrue (O.state client_out.old).tells → ReturnsDue (local_due config.now reply.now) (O.state client_out.old).taken (O.state client_out.new).taken result }
    ensures cause { WriteCause (O.state client_out.old) (O.state client_out.new) result.after }
    ensures unread { result.after ≢ After.ReadFailed }
    ensures page { (p : Page) → result.ending ≡ Ending.Page p → reply_ending reply.now.kind ≡ Ending.Page p }
    ensures ending { (result.ending ≡ reply_ending reply.now.kind) ⊎ (result.ending ≡ Ending.Broken) }
    ensures open { (O.state client_out.new).finished ≡ (O.state client_out.old).finished }
    ensures goes_on { SinkGoesOn (O.state client_out.old) (O.state client_out.new) }
{
    match reply_bytes(alloc, config, reply) {
        Err(Mem) => broken(After::NoMemory),
        Ok(bytes) => match write_all(client_out, bytes.as_bytes()) {
            Ok(()) => Conclusion {
                ending: ending_of(&reply.kind),
                after: after_whole(!reply.close),
            },
            Err(SinkFault::Failed) => broken(After::WriteFailed),
            Err(SinkFault::Mem) => broken(After::NoMemory),
        },
    }
}

/// The value of `error` on a page of a request that was sent on.
fn error_of(page: Page) -> &'static [u8]
    ensures { result.now ≡ error_of page }
{
    match page {
        Page::InvalidRequest => b"Misframed",
        _ => b"",
    }
}

/// A parent as a page names it: its host, a colon and its port.
fn parent_text(alloc: Global, route: &Route) -> Result<Text, Mem>
    ensures { IfOk result (λ text. text ≡ parent_text route.now) }
{
    let mut text = Text::from_bytes(alloc, route.host.as_bytes())?;
    text.push(b':')?;
    text.push_all(Buffer::new().format(route.port).as_bytes())?;
    Ok(text)
}

/// The value of `parent` on a page of a request that was sent on.
fn parent_of(alloc: Global, route: &Route, page: Page) -> Result<Text, Mem>
    ensures { IfOk result (λ text. text ≡ parent_value route.now page) }
{
    match page {
        Page::ForwardingFailed => parent_text(alloc, route),
        _ => Ok(Text::new(alloc)),
    }
}

/// A page about a URL, behind which the connection closes.
fn url_page(
    alloc: Global,
    page: Page,
    url: &Url,
    error: &[u8],
    parent: &[u8],
    bodiless: bool,
) -> Result<LocalReply, Mem>
    ensures { IfOk result (λ reply. reply ≡ url_page page url.now error.now parent.now bodiless) }
{
    let symbols = url_symbols(alloc, url, &[], error, parent)?;
    Ok(LocalReply {
        kind: ReplyKind::Page { page, symbols },
        close: true,
        bodiless,
    })
}

/// The page that is returned in place of the answer to a request that was sent on. `bodiless` is whether it is one to HEAD.
pub fn page_reply(
    alloc: Global,
    url: &Url,
    route: &Route,
    bodiless: bool,
    page: Page,
) -> Result<LocalReply, Mem>
    ensures { IfOk result (λ reply. reply ≡ page_reply url.now route.now bodiless page) }
{
    let parent = parent_of(alloc, route, page)?;
    url_page(
        alloc,
        page,
        url,
        error_of(page),
        parent.as_bytes(),
        bodiless,
    )
}
