//! Templates, and the replies that are made here.
use crate::faults::Fault;
use crate::kinds::made::said;
use crate::leaves::Row;
use px_base::{List, Text};
use px_templates::{Local, PAGES, Page, Symbols, Template, built_in, local_reply};
use std::alloc::Global;

/// The values of a page of `http://h:81/p`.
fn symbols(alloc: Global, host: &[u8], reason: &[u8], error: &[u8]) -> Result<Symbols, Fault> {
    Ok(Symbols {
        hostname: Text::from_bytes(alloc, host)?,
        port: Text::from_bytes(alloc, b"81")?,
        path: Text::from_bytes(alloc, b"/p")?,
        url: Text::from_bytes(alloc, b"http://h:81/p")?,
        block_reason: Text::from_bytes(alloc, reason)?,
        error: Text::from_bytes(alloc, error)?,
        parent: Text::new(alloc),
    })
}

/// The page of a template, beside which the template `head` stands.
pub(crate) fn templates(row: &Row<'_>) -> Result<Text, Fault> {
    let template = template_of(row)?;
    let host = row.bytes("host")?;
    let reason = row.bytes("reason")?;
    let symbols = symbols(row.alloc, host.as_slice(), reason.as_slice(), b"")?;
    Ok(template.render(row.alloc, &symbols)?)
}

fn template_of(row: &Row<'_>) -> Result<Template, Fault> {
    let text = row.bytes("template")?;
    let mut beside = List::new(row.alloc);
    beside.add((said(row.alloc, "head")?, row.text("head")?))?;
    Ok(Template::read(row.alloc, text.as_slice(), beside.as_slice())?)
}

/// A built-in page, with the reason `no` and the error `TwoLengths`.
fn built_in_page(alloc: Global, page: Page) -> Result<Text, Fault> {
    let template = Template::read(alloc, built_in(page), &[])?;
    let symbols = symbols(alloc, b"", b"no", b"TwoLengths")?;
    Ok(template.render(alloc, &symbols)?)
}

/// A reply by its name, and its body: a page, `image`, `empty`, `empty ok`, or else a redirect to the URL that it names.
fn reply_named(row: &Row<'_>, name: &str) -> Result<(Local, Text), Fault> {
    let body = row.text("body")?;
    match name {
        "image" => Ok((Local::Image, body)),
        "empty" => Ok((Local::Empty(false), body)),
        "empty ok" => Ok((Local::Empty(true), body)),
        _ => match PAGES.iter().copied().find(|page| page.name() == name) {
            Some(page) => Ok((Local::Page(page), built_in_page(row.alloc, page)?)),
            None => Ok((Local::Redirect(said(row.alloc, name)?), body)),
        },
    }
}

/// A whole reply.
pub(crate) fn replies(row: &Row<'_>) -> Result<Text, Fault> {
    let (kind, body) = reply_named(row, row.word("reply")?)?;
    let close = row.is("close")?;
    let bodiless = row.is("bodiless")?;
    Ok(local_reply(row.alloc, &kind, body.as_bytes(), close, bodiless)?)
}
