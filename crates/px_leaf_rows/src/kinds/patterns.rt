//! Ports, URLs, and patterns of URLs and tags.
ghost use Rattle.std.specs.Prelude.{◌≡◌, ◌<◌};

use crate::faults::Fault;
use crate::kinds::made::{push_item, said, url_of, yes_or_no};
use crate::leaves::Row;
use px_base::{Ports, PortsFault, Steps, Text};
use px_patterns::{TagPattern, Url, UrlPattern};
use std::alloc::Global;
use std::marker::Brand;
use std::sync::ledger::{Blank, Ledger};

/// Those of the asked ports that a list of ports allows, or `refused`.
pub(crate) fn ports(row: &Row<'_>) -> Result<Text, Fault> {
    match Ports::read(row.alloc, row.string("ports")?.as_str()) {
        Ok(ports) => allowed(row, &ports),
        Err(PortsFault::Bad) => said(row.alloc, "refused"),
        Err(PortsFault::Mem) => Err(Fault::Mem),
    }
}

fn allowed(row: &Row<'_>, ports: &Ports) -> Result<Text, Fault> {
    let mut out = Text::new(row.alloc);
    for port in row.numbers::<u16>("asked")?.iter() {
        if ports.allow(*port) {
            push_item(&mut out, format!(in row.alloc; "{port}")?.as_bytes())?;
        }
    }
    Ok(out)
}

/// The host, port and path of a URL or of a tunnel's target, its printed form, and its host and port as in a Host field.
pub(crate) fn urls(row: &Row<'_>) -> Result<Text, Fault> {
    parts_of(row.alloc, &url_of(row, row.is("tunnel")?)?)
}

fn parts_of(alloc: Global, url: &Url) -> Result<Text, Fault> {
    let mut out = Text::from_bytes(alloc, url.host.as_bytes())?;
    push_item(&mut out, format!(in alloc; "{}", url.port)?.as_bytes())?;
    let (printed, host_port) = (url.print(alloc)?, url.host_port(alloc)?);
    for part in [&url.path, &printed, &host_port] {
        push_item(&mut out, part.as_bytes())?;
    }
    Ok(out)
}

/// Whether a pattern matches a URL.
pub(crate) fn matches(row: &Row<'_>) -> Result<Text, Fault> {
    let pattern = UrlPattern::read(row.alloc, row.string("pattern")?.as_str())?;
    answer(row, &pattern)
}

/// Whether a pattern whose host is an expression matches a URL.
pub(crate) fn expressions(row: &Row<'_>) -> Result<Text, Fault> {
    let expression = row.string("expression")?;
    let pattern = UrlPattern::read_expression(row.alloc, expression.as_str())?;
    answer(row, &pattern)
}

fn answer(row: &Row<'_>, pattern: &UrlPattern) -> Result<Text, Fault> {
    let url = url_of(row, false)?;
    let yes = matches_counted::<Brand>(row.alloc, pattern, &url, Blank::new(1))?;
    yes_or_no(row.alloc, yes)
}

fn matches_counted<L: Ledger>(
    alloc: Global,
    pattern: &UrlPattern,
    url: &Url,
    blank: Blank,
) -> Result<bool, Fault>
    requires name { blank.name ≡ L.name }
    requires parts { blank.parts ≡ L.parts }
    requires some { 0 < L.parts }
{
    let mut steps: Steps<L> = Steps::begin(blank);
    Ok(pattern.matches(alloc, url, &mut steps)?)
}

/// Whether the expression of a tag pattern is found in a tag.
pub(crate) fn tags(row: &Row<'_>) -> Result<Text, Fault> {
    let pattern = TagPattern::read(row.alloc, row.string("expression")?.as_str())?;
    let yes = pattern.matches(row.alloc, row.bytes("tag")?.as_slice())?;
    yes_or_no(row.alloc, yes)
}
