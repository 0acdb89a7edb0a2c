//! Requests behind header actions and filters, and tags.
use crate::faults::Fault;
use crate::kinds::made::{
    filters_of, head_of, push_fields, push_item, push_set, said, sections_of, set_of, side_of,
    vars_of,
};
use crate::leaves::Row;
use px_actions::ActionSet;
use px_base::{List, Peer, Text};
use px_filter_files::Filters;
use px_head::RequestHead;
use px_headers::{ClientOut, HeaderRules, client_headers};
use px_merge::Sections;
use px_patterns::Url;
use px_subst::Vars;
use px_taggers::{TaggerLines, tag_headers};
use std::alloc::Global;

/// Where a request with that head goes and its fields, behind the actions of the row's words. The client's address is 127.0.0.1.
fn sent(row: &Row<'_>, filters: &Filters, mut head: RequestHead) -> Result<ClientOut, Fault> {
    let set = set_of(row)?;
    let vars = vars_of(row.alloc, b"")?;
    sent_by(row.alloc, filters, &mut head, &set, &vars)
}

fn sent_by(
    alloc: Global,
    filters: &Filters,
    head: &mut RequestHead,
    set: &ActionSet,
    vars: &Vars,
) -> Result<ClientOut, Fault> {
    let peer = Peer {
        address: said(alloc, "127.0.0.1")?,
    };
    let url = Url::read(alloc, head.target.as_bytes())?;
    let mut warm = filters.warm(alloc)?;
    let rules = HeaderRules { set, filters, vars };
    let out = client_headers(alloc, head, url, &rules, &mut warm, &peer)?;
    Ok(out)
}

/// The URL of a request and its fields, behind the actions of words.
pub(crate) fn requests(row: &Row<'_>) -> Result<Text, Fault> {
    let head = RequestHead::read(row.alloc, head_of(row)?.as_bytes())?;
    let sent = sent(row, &filters_of(row)?, head)?;
    let mut out = sent.url.print(row.alloc)?;
    push_fields(row.alloc, &mut out, sent.fields.as_slice())?;
    Ok(out)
}

/// The tags that the lines of a message make, which apply their sections to the set.
fn tags(row: &Row<'_>, set: &mut ActionSet) -> Result<List<Text>, Fault> {
    let sections = sections_of(row)?;
    let filters = filters_of(row)?;
    tags_by(row, &sections, &filters, set)
}

fn tags_by(
    row: &Row<'_>,
    sections: &Sections,
    filters: &Filters,
    set: &mut ActionSet,
) -> Result<List<Text>, Fault> {
    let side = side_of(row)?;
    let lines = row.items("lines")?;
    let vars = vars_of(row.alloc, b"")?;
    let mut tags = List::new(row.alloc);
    let headers = TaggerLines {
        lines: lines.as_slice(),
        side,
        vars: &vars,
    };
    tag_headers(row.alloc, sections, filters, set, &mut tags, &headers)?;
    Ok(tags)
}

/// The tags that the lines of a message make, and behind `set` the lines of its set.
pub(crate) fn taggers(row: &Row<'_>) -> Result<Text, Fault> {
    let mut set = set_of(row)?;
    let tags = tags(row, &mut set)?;
    let mut out = Text::new(row.alloc);
    for tag in tags.as_slice() {
        push_item(&mut out, tag.as_bytes())?;
    }
    push_item(&mut out, b"set")?;
    push_set(&mut out, &set)?;
    Ok(out)
}
