// Replies that are returned in place of an origin's answer.
ghost use Rattle.std.specs.Prelude.{◌≡◌, ◌++◌, IfOk, OnOk, length};
ghost use Rattle.std.specs.Fmt.{decimal};
ghost use Rattle.px_templates.specs.Replies.{close_word, reply_field, head_of, reply_of, reply_status_line};

use crate::pages::Page;
use itoa::Buffer;
use px_base::{Mem, Text};
use std::alloc::Global;

/// The bytes of a head besides its target: no status, length and field name of the table takes more.
const HEAD_ROOM: usize = 256;

const LINE_END: &[u8] = b"\r\n";

/// What a local reply is.
#[derive(Drop)]
pub enum Local {
    /// A page. The body is the page's text.
    Page(Page),
    /// An image that blocks. The body is the image.
    Image,
    /// An empty document, with status 200 where this is true, else 403. Its body is one space.
    Empty(bool),
    /// A redirect to this target.
    Redirect(Text),
    /// A page of the proxy's own, which was found or wasn't. The body is its text.
    Inside(bool),
}

impl Local {
    ghost use Rattle.px_templates.specs.Replies.{reply_body, first_name, first_value, status_of};

    fn status(&self) -> &'static [u8]
        ensures { result.now ≡ status_of self.now }
    {
        match self {
            Local::Page(page) => page.status().as_bytes(),
            Local::Image => b"403 Forbidden",
            Local::Empty(true) => b"200 OK",
            Local::Empty(false) => b"403 Forbidden",
            Local::Redirect(_) => b"302 Found",
            Local::Inside(true) => b"200 OK",
            Local::Inside(false) => b"404 Not Found",
        }
    }

    /// The name of the first field.
    fn first_name(&self) -> &'static [u8]
        ensures { result.now ≡ first_name self.now }
    {
        match self {
            Local::Page(_) => b"Content-Type",
            Local::Image => b"Content-Type",
            Local::Empty(_) => b"Content-Type",
            Local::Redirect(_) => b"Location",
            Local::Inside(_) => b"Content-Type",
        }
    }

    /// The value of the first field.
    fn first_value(&self) -> &[u8]
        ensures { result.now ≡ first_value self.now }
    {
        match self {
            Local::Page(_) => b"text/html",
            Local::Image => b"image/gif",
            Local::Empty(_) => b"text/html",
            Local::Redirect(target) => target.as_bytes(),
            Local::Inside(_) => b"text/plain",
        }
    }

    fn body<'b>(&self, body: &'b [u8]) -> &'b [u8]
        ensures { result.now ≡ reply_body self.now body.now }
    {
        match self {
            Local::Page(_) => body,
            Local::Image => body,
            Local::Empty(_) => b" ",
            Local::Redirect(_) => b"",
            Local::Inside(_) => body,
        }
    }
}

/// The reply with its head. `body` is the page's text or the image; it isn't looked at for an empty document and a redirect.
/// `close` says whether the connection closes behind the reply. A `bodiless` reply has the fields and no body.
#[tactic(auto, unfolding(crate::specs::Replies::reply_of))]
pub fn local_reply(
    alloc: Global,
    kind: &Local,
    body: &[u8],
    close: bool,
    bodiless: bool,
) -> Result<Text, Mem>
    ensures { IfOk result (λ reply. reply ≡ reply_of kind.now body.now close bodiless) }
{
    let body = kind.body(body);
    let sent = if bodiless { b"" } else { body };
    let room = kind.first_value().len().saturating_add(sent.len());
    let mut out = Text::with_capacity(alloc, room.saturating_add(HEAD_ROOM))?;
    push_head(kind, body.len(), close, &mut out)?;
    out.push_all(sent)?;
    Ok(out)
}

#[tactic(auto, unfolding(crate::specs::Replies::head_of))]
fn push_head(kind: &Local, len: usize, close: bool, out: &mut Text) -> Result<(), Mem>
    ensures { OnOk result (out.new ≡ out.old ++ head_of kind.now len close) }
{
    let mut buffer = Buffer::new();
    push_status(kind.status(), out)?;
    push_field(kind.first_name(), kind.first_value(), out)?;
    push_field(b"Content-Length", buffer.format(len).as_bytes(), out)?;
    push_field(b"Cache-Control", b"no-cache", out)?;
    push_field(b"Connection", close_word(close), out)?;
    out.push_all(LINE_END)
}

fn push_status(status: &[u8], out: &mut Text) -> Result<(), Mem>
    ensures { OnOk result (out.new ≡ out.old ++ reply_status_line status.now) }
{
    out.push_all(b"HTTP/1.1 ")?;
    out.push_all(status)?;
    out.push_all(LINE_END)
}

fn push_field(name: &[u8], value: &[u8], out: &mut Text) -> Result<(), Mem>
    ensures { OnOk result (out.new ≡ out.old ++ reply_field name.now value.now) }
{
    out.push_all(name)?;
    out.push_all(b": ")?;
    out.push_all(value)?;
    out.push_all(LINE_END)
}

fn close_word(close: bool) -> &'static [u8]
    ensures { result.now ≡ close_word close }
{
    if close { b"close" } else { b"keep-alive" }
}
