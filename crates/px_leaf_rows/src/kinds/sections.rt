//! What sections set for URLs and tags, and what actions decide.
ghost use Rattle.std.specs.Prelude.{◌≡◌, ◌<◌};

use crate::faults::Fault;
use crate::kinds::made::{
    as_str, push_item, push_set, said, sections_of, set_of, side_of, url_of, vars_of,
};
use crate::leaves::Row;
use px_actions::ActionSet;
use px_base::{Steps, Text};
use px_decide::{Decision, Forwards, Route, decide, route};
use px_merge::{SectionRef, Sections};
use px_patterns::Url;
use std::alloc::Global;
use std::marker::Brand;
use std::sync::ledger::{Blank, Ledger};

fn lines_of_set(alloc: Global, set: &ActionSet) -> Result<Text, Fault> {
    let mut out = Text::new(alloc);
    push_set(&mut out, set)?;
    Ok(out)
}

/// The sections of files that match a URL and the tags of a client, each as FILE:LINE with the files numbered from 0, and
/// the lines of the set that they make.
pub(crate) fn sections(row: &Row<'_>) -> Result<Text, Fault> {
    let sections = sections_of(row)?;
    let url = url_of(row, false)?;
    let tags = row.items("tags")?;
    matched::<Brand>(row.alloc, &sections, &url, tags.as_slice(), Blank::new(1))
}

fn matched<L: Ledger>(
    alloc: Global,
    sections: &Sections,
    url: &Url,
    tags: &[Text],
    blank: Blank,
) -> Result<Text, Fault>
    requires name { blank.name ≡ L.name }
    requires parts { blank.parts ≡ L.parts }
    requires some { 0 < L.parts }
{
    let mut steps: Steps<L> = Steps::begin(blank);
    let places = sections.matched(alloc, url, tags, &mut steps)?;
    let set = sections.url_actions(alloc, url, tags, &mut steps)?;
    told_places(alloc, places.as_slice(), &set)
}

/// Places as FILE:LINE, and the lines of a set.
fn told_places(alloc: Global, places: &[SectionRef], set: &ActionSet) -> Result<Text, Fault> {
    let mut out = Text::new(alloc);
    for place in places {
        let (file, line) = (place.file, place.line);
        let told = format!(in alloc; "{file}:{line}")?;
        push_item(&mut out, told.as_bytes())?;
    }
    push_set(&mut out, set)?;
    Ok(out)
}

/// The lines of an empty set to which the sections on a tag are applied.
pub(crate) fn tagged(row: &Row<'_>) -> Result<Text, Fault> {
    let tag = row.bytes("tag")?;
    let sections = sections_of(row)?;
    let mut set = ActionSet::empty(row.alloc);
    sections.apply_tag(row.alloc, &mut set, tag.as_slice())?;
    lines_of_set(row.alloc, &set)
}

/// The lines of an empty set to which the sections on tags are applied that are absent on a side.
pub(crate) fn absent(row: &Row<'_>) -> Result<Text, Fault> {
    let side = side_of(row)?;
    let tags = row.items("tags")?;
    let sections = sections_of(row)?;
    let mut set = ActionSet::empty(row.alloc);
    sections.apply_absent(row.alloc, &mut set, tags.as_slice(), side)?;
    lines_of_set(row.alloc, &set)
}

/// What the words of actions decide on a request or a tunnel.
pub(crate) fn decisions(row: &Row<'_>) -> Result<Text, Fault> {
    let tunnel = row.is("tunnel")?;
    let set = set_of(row)?;
    let decision = decision_by(row, tunnel, &set)?;
    told_decision(row.alloc, &decision)
}

fn decision_by(row: &Row<'_>, tunnel: bool, set: &ActionSet) -> Result<Decision, Fault> {
    let url = url_of(row, tunnel)?;
    let vars = vars_of(row.alloc, b"")?;
    Ok(decide(row.alloc, &url, tunnel, set, &vars)?)
}

fn told_decision(alloc: Global, decision: &Decision) -> Result<Text, Fault> {
    let (kind, text) = match decision {
        Decision::Pass => ("pass", None),
        Decision::Blocked(reason) => ("blocked ", Some(reason)),
        Decision::ImageBlank => ("blank image", None),
        Decision::ImagePattern => ("pattern image", None),
        Decision::Empty => ("empty document", None),
        Decision::Redirect(target) => ("redirect ", Some(target)),
        Decision::ConnectDenied => ("denied", None),
    };
    let mut out = said(alloc, kind)?;
    if let Some(text) = text {
        out.push_all(text.as_bytes())?;
    }
    Ok(out)
}

/// Where the request of a URL is sent by forward lines and the words of actions.
pub(crate) fn routes(row: &Row<'_>) -> Result<Text, Fault> {
    let route = route_by(row, &forwards_of(row)?)?;
    let (parent, port) = (route.parent, route.port);
    let mut out = said(row.alloc, if parent { "parent " } else { "origin " })?;
    out.push_all(route.host.as_bytes())?;
    let told = format!(in row.alloc; " {port}")?;
    out.push_all(told.as_bytes())?;
    Ok(out)
}

fn forwards_of(row: &Row<'_>) -> Result<Forwards, Fault> {
    let mut forwards = Forwards::empty(row.alloc);
    for line in row.items("lines")?.as_slice() {
        let line = as_str(line.as_bytes())?;
        match line.strip_prefix("forward-socks5 ") {
            Some(value) => forwards.add_socks(value)?,
            None => forwards.add(line)?,
        }
    }
    Ok(forwards)
}

fn route_by(row: &Row<'_>, forwards: &Forwards) -> Result<Route, Fault> {
    let url = url_of(row, false)?;
    let set = set_of(row)?;
    Ok(route(row.alloc, &url, &set, forwards)?)
}
