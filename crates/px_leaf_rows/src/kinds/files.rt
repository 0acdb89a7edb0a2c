//! The lines of files, and the sections, filters and jobs in them.
use crate::faults::Fault;
use crate::kinds::actions::push_update;
use crate::kinds::made::{as_str, filter_file_of, lines_of, push_item, said, vars_of};
use crate::leaves::Row;
use px_action_files::{ActionFile, Pattern, refusal_name};
use px_base::{List, Text};
use px_host_lists::{ListNotes, read_list};
use px_subst::{Filter, Job, JobOutcome, Vars};
use std::alloc::Global;

/// The lines that a file's bytes stand for, each behind its number.
pub(crate) fn lines(row: &Row<'_>) -> Result<Text, Fault> {
    let lines = lines_of(row.alloc, row.bytes("file")?.as_slice())?;
    let mut out = Text::new(row.alloc);
    for line in lines.as_slice() {
        push_item(
            &mut out,
            format!(in row.alloc; "{} ", line.number)?.as_bytes(),
        )?;
        out.push_all(line.text.as_bytes())?;
    }
    Ok(out)
}

/// The line that a list's file has for each asked host, or `-`, and behind them how many hosts it has, and on how many lines
/// something else stands, and the first of these.
pub(crate) fn lists(row: &Row<'_>) -> Result<Text, Fault> {
    let read = read_list(row.alloc, row.file("file")?.as_bytes())?;
    let mut out = Text::new(row.alloc);
    for host in row.items("asked")?.as_slice() {
        match read.list.find(host.as_bytes()) {
            Some(line) => push_item(&mut out, format!(in row.alloc; "{line}")?.as_bytes())?,
            None => push_item(&mut out, b"-")?,
        }
    }
    push_notes(row.alloc, &mut out, &read.notes)?;
    Ok(out)
}

/// Adds the notes on a list's file.
fn push_notes(alloc: Global, out: &mut Text, notes: &ListNotes) -> Result<(), Fault> {
    let (taken, passed) = (notes.taken, notes.passed);
    push_item(out, format!(in alloc; "{taken} hosts")?.as_bytes())?;
    match notes.first_passed {
        Some(line) => push_item(
            out,
            format!(in alloc; "{passed} passed, first {line}")?.as_bytes(),
        ),
        None => Ok(()),
    }
}

/// The name of the refusal that a number names in an actions file.
pub(crate) fn refusals(row: &Row<'_>) -> Result<Text, Fault> {
    said(row.alloc, refusal_name(row.number("number")?))
}

/// The sections of an actions file: each its line, the updates of its words, and the lines and kinds of its patterns.
pub(crate) fn actions(row: &Row<'_>) -> Result<Text, Fault> {
    let lines = lines_of(row.alloc, row.file("file")?.as_bytes())?;
    let file = ActionFile::read(row.alloc, lines.as_slice())?;
    let mut out = Text::new(row.alloc);
    let mut patterns = 0usize;
    for section in file.sections.as_slice() {
        push_item(
            &mut out,
            format!(in row.alloc; "{}", section.line)?.as_bytes(),
        )?;
        for update in section.updates.as_slice() {
            push_update(row.alloc, &mut out, update)?;
        }
        for pattern in section.patterns.as_slice() {
            let line = ActionFile::line_of_pattern(lines.as_slice(), patterns).unwrap_or(0);
            let kind = kind_of(pattern);
            out.push_all(format!(in row.alloc; ", {line} {kind}")?.as_bytes())?;
            patterns = patterns.saturating_add(1);
        }
    }
    Ok(out)
}

fn kind_of(pattern: &Pattern) -> &'static str {
    match pattern {
        Pattern::Url(_) => "URL",
        Pattern::Tag(_) => "TAG",
        Pattern::NoRequestTag(_) => "NO-REQUEST-TAG",
        Pattern::NoResponseTag(_) => "NO-RESPONSE-TAG",
        Pattern::ClientTag(_) => "CLIENT-TAG",
    }
}

/// The filters of a file, each its line, kind and name, and the lines of the jobs that are left out.
pub(crate) fn filters(row: &Row<'_>) -> Result<Text, Fault> {
    let file = filter_file_of(row)?;
    let mut out = Text::new(row.alloc);
    for named in file.filters.as_slice() {
        let (line, kind) = (named.line, named.kind);
        let told = format!(in row.alloc; "{line} {kind:?} ")?;
        push_item(&mut out, told.as_bytes())?;
        out.push_all(named.name.as_bytes())?;
    }
    push_skipped(row.alloc, &mut out, file.skipped.as_slice())?;
    Ok(out)
}

/// Adds the lines of the jobs that are left out.
fn push_skipped(alloc: Global, out: &mut Text, skipped: &[u32]) -> Result<(), Fault> {
    for line in skipped {
        let told = format!(in alloc; "{line} left out")?;
        push_item(out, told.as_bytes())?;
    }
    Ok(())
}

/// The hits of jobs on a text, and what they make of it.
pub(crate) fn jobs(row: &Row<'_>) -> Result<Text, Fault> {
    let mut jobs = List::new(row.alloc);
    for text in row.items("jobs")?.as_slice() {
        jobs.add(Job::read(row.alloc, as_str(text.as_bytes())?)?)?;
    }
    run(row, &Filter::new(jobs))
}

/// What a filter makes of a text, if each way to run it gives the same: afresh, or kept and run twice.
fn run(row: &Row<'_>, filter: &Filter) -> Result<Text, Fault> {
    let host = row.bytes("host")?;
    let vars = vars_of(row.alloc, host.as_slice())?;
    let text = row.bytes("text")?;
    run_on(row.alloc, filter, text.as_slice(), &vars)
}

fn run_on(alloc: Global, filter: &Filter, text: &[u8], vars: &Vars) -> Result<Text, Fault> {
    let afresh = filter.run(alloc, text, vars)?;
    if !gives_again(alloc, filter, text, vars, &afresh)? {
        return said(alloc, "a kept filter gives something else");
    }
    let hits = afresh.hits;
    let told = format!(in alloc; "{hits} ")?;
    let mut out = said(alloc, told.as_str())?;
    out.push_all(afresh.text.as_bytes())?;
    Ok(out)
}

/// Whether a filter that is kept gives the same twice.
fn gives_again(
    alloc: Global,
    filter: &Filter,
    text: &[u8],
    vars: &Vars,
    afresh: &JobOutcome,
) -> Result<bool, Fault> {
    let mut kept = filter.keep(alloc)?;
    let first = kept.run(alloc, text, vars)?;
    let second = kept.run(alloc, text, vars)?;
    Ok(is_same(&first, afresh) && is_same(&second, afresh))
}

fn is_same(one: &JobOutcome, other: &JobOutcome) -> bool {
    one.hits == other.hits && one.text.as_bytes() == other.text.as_bytes()
}
