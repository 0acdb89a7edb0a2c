// What is returned without an origin's answer.
ghost use Rattle.std.specs.Prelude.{◌≡◌, IfOk, unwrap_or, []};
ghost use Rattle.px_templates.specs.Replies.{reply_of};
ghost use Rattle.px_judging.specs.Replies.{bare_symbols, job_symbols, url_symbols as url_symbols_of, page_text, kind_bytes, reply_bytes as bytes_of_reply};

use itoa::Buffer;
use px_base::{Mem, Text};
use px_config::{Config, InsidePage};
use px_patterns::Url;
use px_subst::Vars;
use px_templates::{Local, Page, Symbols, local_reply};
use std::alloc::Global;

/// What kind of reply it is.
#[derive(Drop)]
pub enum ReplyKind {
    /// A page, with the values of its symbols.
    Page { page: Page, symbols: Symbols },
    BlankImage,
    PatternImage,
    EmptyDocument,
    /// A redirect to this target, as it is written.
    Redirect(Text),
    /// A page of the proxy's own.
    Inside(InsidePage),
}

/// A reply that is returned without an origin's answer.
#[derive(Drop)]
pub struct LocalReply {
    pub kind: ReplyKind,
    /// Whether the connection closes behind it.
    pub close: bool,
    /// Whether its body is left away, as in a reply to HEAD (RFC 9110, section 9.3.2).
    pub bodiless: bool,
}

/// The values of a page's symbols where no URL was read.
pub(crate) fn bare_symbols(alloc: Global, error: &[u8]) -> Result<Symbols, Mem>
    ensures { IfOk result (λ symbols. symbols ≡ bare_symbols error.now) }
{
    Ok(Symbols {
        hostname: Text::new(alloc),
        port: Text::new(alloc),
        path: Text::new(alloc),
        url: Text::new(alloc),
        block_reason: Text::new(alloc),
        error: Text::from_bytes(alloc, error)?,
        parent: Text::new(alloc),
    })
}

/// The values of a page's symbols for a URL: with the reason of a block, the name of a refusal and a parent, each of which may
/// be empty.
#[tactic(auto, unfolding(crate::specs::Replies::url_symbols))]
pub fn url_symbols(
    alloc: Global,
    url: &Url,
    reason: &[u8],
    error: &[u8],
    parent: &[u8],
) -> Result<Symbols, Mem>
    ensures { IfOk result (λ symbols. symbols ≡ url_symbols_of url.now reason.now error.now parent.now) }
{
    Ok(Symbols {
        hostname: Text::from_bytes(alloc, url.host.as_bytes())?,
        port: Text::from_bytes(alloc, Buffer::new().format(url.port).as_bytes())?,
        path: Text::from_bytes(alloc, url.path.as_bytes())?,
        url: url.print(alloc)?,
        block_reason: Text::from_bytes(alloc, reason)?,
        error: Text::from_bytes(alloc, error)?,
        parent: Text::from_bytes(alloc, parent)?,
    })
}

/// The same, of the words of a job and the URL's port.
pub(crate) fn job_symbols(
    alloc: Global,
    vars: &Vars,
    port: u16,
    error: &[u8],
) -> Result<Symbols, Mem>
    ensures { IfOk result (λ symbols. symbols ≡ job_symbols vars.now port error.now) }
{
    Ok(Symbols {
        hostname: Text::from_bytes(alloc, vars.host.as_bytes())?,
        port: Text::from_bytes(alloc, Buffer::new().format(port).as_bytes())?,
        path: Text::from_bytes(alloc, vars.path.as_bytes())?,
        url: Text::from_bytes(alloc, vars.url.as_bytes())?,
        block_reason: Text::new(alloc),
        error: Text::from_bytes(alloc, error)?,
        parent: Text::new(alloc),
    })
}

/// The bytes of a page.
fn page_bytes(
    alloc: Global,
    config: &Config,
    page: Page,
    symbols: &Symbols,
    reply: &LocalReply,
) -> Result<Text, Mem>
    ensures { IfOk result (λ bytes. bytes ≡ kind_bytes config.now (ReplyKind.Page page symbols.now) reply.now.close reply.now.bodiless) }
{
    let body = config.page(page).render(alloc, symbols)?;
    local_reply(
        alloc,
        &Local::Page(page),
        body.as_bytes(),
        reply.close,
        reply.bodiless,
    )
}

/// The bytes of an image's reply.
fn image_bytes(alloc: Global, image: &Option<Text>, reply: &LocalReply) -> Result<Text, Mem>
    ensures { IfOk result (λ bytes. bytes ≡ reply_of Local.Image (unwrap_or image.now []) reply.now.close reply.now.bodiless) }
{
    match image {
        Some(bytes) => local_reply(
            alloc,
            &Local::Image,
            bytes.as_bytes(),
            reply.close,
            reply.bodiless,
        ),
        None => local_reply(alloc, &Local::Image, &[], reply.close, reply.bodiless),
    }
}

/// The bytes of a reply, head and body.
#[tactic(auto, unfolding(crate::specs::Replies::reply_bytes))]
pub fn reply_bytes(alloc: Global, config: &Config, reply: &LocalReply) -> Result<Text, Mem>
    ensures { IfOk result (λ bytes. bytes ≡ bytes_of_reply config.now reply.now) }
{
    match &reply.kind {
        ReplyKind::Page { page, symbols } => page_bytes(alloc, config, *page, symbols, reply),
        ReplyKind::BlankImage => image_bytes(alloc, &config.image_blank, reply),
        ReplyKind::PatternImage => image_bytes(alloc, &config.image_pattern, reply),
        ReplyKind::EmptyDocument => {
            let kind = Local::Empty(config.settings.empty_returns_ok);
            local_reply(alloc, &kind, &[], reply.close, reply.bodiless)
        }
        ReplyKind::Redirect(target) => {
            let kind = Local::Redirect(Text::from_bytes(alloc, target.as_bytes())?);
            local_reply(alloc, &kind, &[], reply.close, reply.bodiless)
        }
        ReplyKind::Inside(page) => {
            let kind = Local::Inside(page.found);
            local_reply(
                alloc,
                &kind,
                page.body.as_bytes(),
                reply.close,
                reply.bodiless,
            )
        }
    }
}
