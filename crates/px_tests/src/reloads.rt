//! Reloads in which a file is missing or can't be read: what is printed, and by which configuration the connections are served.
ghost use Rattle.std.specs.Prelude.{All, IfOk};
ghost use Rattle.px_desk.specs.Facts.{DoorsBegun};
ghost use Rattle.px_ends.specs.Ends.{IsFreshEnds};

use crate::common::{NoLogs, same_at};
use crate::serving::{three_conns, words_of};
use px_base::{List, Mem, MemFiles, TapeOut, Text};
use px_doors::{Doors, MemDoors, MemEnds};
use px_serve_command::{DeskParts, Proxied, ReloadCounts, run_proxy};
use std::alloc::Global;
use std::process::Abort;
use std::sync::Wait;
use std::test::Fail;
use std::thread::Threads;

/// The files of a configuration that refuses every request, in the order in which they are read: the name, the text, and what is
/// printed where it can't be read.
const FILES: [(&str, &[u8], &[u8]); 19] = [
    (
        "c",
        b"actionsfile u.action\nactionsfile v.action\nfilterfile f.filter\n\
host-list h.hosts spies\n",
        b"c:0: 33 ReadFault\n",
    ),
    (
        "u.action",
        b"{+block{no}}\n/\n",
        b"u.action:0: 33 ReadFault\n",
    ),
    (
        "v.action",
        b"{+filter{f}}\n/\n",
        b"v.action:0: 33 ReadFault\n",
    ),
    (
        "f.filter",
        b"FILTER: f x\ns/a/b/\n",
        b"f.filter:0: 33 ReadFault\n",
    ),
    (
        "templates/blocked",
        b"#include part\n@block-reason@\n",
        b"blocked:0: 33 ReadFault\n",
    ),
    (
        "templates/connect-failed",
        b"x\n",
        b"connect-failed:0: 33 ReadFault\n",
    ),
    (
        "templates/no-such-domain",
        b"x\n",
        b"no-such-domain:0: 33 ReadFault\n",
    ),
    (
        "templates/forwarding-failed",
        b"x\n",
        b"forwarding-failed:0: 33 ReadFault\n",
    ),
    (
        "templates/no-server-data",
        b"x\n",
        b"no-server-data:0: 33 ReadFault\n",
    ),
    (
        "templates/invalid-request",
        b"x\n",
        b"invalid-request:0: 33 ReadFault\n",
    ),
    (
        "templates/head-too-long",
        b"x\n",
        b"head-too-long:0: 33 ReadFault\n",
    ),
    (
        "templates/bad-reply",
        b"x\n",
        b"bad-reply:0: 33 ReadFault\n",
    ),
    (
        "templates/send-failed",
        b"x\n",
        b"send-failed:0: 33 ReadFault\n",
    ),
    (
        "templates/connect-denied",
        b"x\n",
        b"connect-denied:0: 33 ReadFault\n",
    ),
    (
        "templates/bad-rewrite",
        b"x\n",
        b"bad-rewrite:0: 33 ReadFault\n",
    ),
    (
        "templates/image-blank",
        b"GIF89a",
        b"image-blank:0: 33 ReadFault\n",
    ),
    (
        "templates/image-pattern",
        b"GIF89b",
        b"image-pattern:0: 33 ReadFault\n",
    ),
    ("templates/part", b"kept\n", b"part:0: 33 ReadFault\n"),
    ("h.hosts", b"b.test\n", b"h.hosts:0: 33 ReadFault\n"),
];

/// How many files were read before the reload of the first connection.
const READ_BEFORE: u64 = 19;

/// The folder of the files that may be missing.
const OPTIONAL: &str = "templates/";

/// What is printed where one of the others is missing.
const MISSING: [(&str, &[u8]); 5] = [
    ("c", b"c:0: 32 Missing\n"),
    ("u.action", b"u.action:0: 32 Missing\n"),
    ("v.action", b"v.action:0: 32 Missing\n"),
    ("f.filter", b"f.filter:0: 32 Missing\n"),
    ("h.hosts", b"h.hosts:0: 32 Missing\n"),
];

/// The page of the configuration: its template, which includes `part`, with the reason.
const PAGE: &[u8] = b"HTTP/1.1 403 Forbidden\r\nContent-Type: text/html\r\nContent-Length: 8\r\n\
Cache-Control: no-cache\r\nConnection: keep-alive\r\n\r\nkept\nno\n";

/// The page where nothing is included, and the one without a template.
const SHORT_PAGE: &[u8] =
    b"HTTP/1.1 403 Forbidden\r\nContent-Type: text/html\r\nContent-Length: 3\r\n\
Cache-Control: no-cache\r\nConnection: keep-alive\r\n\r\nno\n";

const OWN_PAGE: &[u8] =
    b"HTTP/1.1 403 Forbidden\r\nContent-Type: text/html\r\nContent-Length: 38\r\n\
Cache-Control: no-cache\r\nConnection: keep-alive\r\n\r\n<html><body>blocked: no</body></html>\n";

/// The page of a configuration without that file.
fn page_without(name: &str) -> &'static [u8] {
    match name {
        "templates/blocked" => OWN_PAGE,
        "templates/part" => SHORT_PAGE,
        _ => PAGE,
    }
}

/// The files but for that one.
fn files_without(alloc: Global, missing: &str) -> Result<List<(Text, Text)>, Mem> {
    let mut files = List::new(alloc);
    for (name, text, _) in FILES {
        if name != missing {
            files.add((
                Text::from_bytes(alloc, name.as_bytes())?,
                Text::from_bytes(alloc, text)?,
            ))?;
        }
    }
    Ok(files)
}

/// Files that are all there when they are loaded, of which one is missing when the first connection comes, and that are all there
/// again from the second one on. Those calls fail.
fn turning_files(alloc: Global, missing: &str, fails: &[u64]) -> Result<MemFiles, Mem> {
    let mut states = List::new(alloc);
    states.add(files_without(alloc, "")?)?;
    states.add(files_without(alloc, missing)?)?;
    states.add(files_without(alloc, "")?)?;
    MemFiles::new(alloc, states, fails)
}

/// What `serve` is run with.
fn parts_of(
    alloc: Global,
    files: MemFiles,
    conns: List<MemEnds>,
    err: TapeOut,
) -> Result<DeskParts<MemFiles, MemDoors, TapeOut>, Mem>
    requires fresh { All IsFreshEnds conns }
    ensures begun { IfOk result (λ parts. DoorsBegun (⟦<MemDoors as Doors>⟧.state parts.doors)) }
{
    let doors = MemDoors::new(alloc, conns, &[])?;
    Ok(DeskParts { files, doors, err })
}

/// Serves three connections, one after the other, over those files and that error output.
fn reloaded<R: Threads + Wait + Sync>(
    rt: &R,
    alloc: Global,
    files: MemFiles,
    err: TapeOut,
) -> Result<Proxied<MemFiles, MemDoors, TapeOut>, Fail> {
    let conns = three_conns(alloc)?;
    let parts = parts_of(alloc, files, conns, err)?;
    let words = words_of(alloc, &["serve", "c", "1", "3"])?;
    Ok(run_proxy(alloc, rt, &words, parts, &NoLogs))
}

/// The configuration of a connection, and what its client was answered.
fn answer_of(doors: &MemDoors, number: u64) -> (Option<u64>, &[u8]) {
    for parted in doors.parted() {
        if parted.number == number {
            let notes = parted.session.exchanges.as_slice();
            return (
                notes.get(0).map(|note| note.config),
                parted.ends.client_out.taken(),
            );
        }
    }
    (None, &[])
}

/// What a reload is to give: what it prints, the counts, and by which configuration the first connection is served and with which page.
/// The two behind it are served by the last configuration.
#[derive(Clone, Copy)]
struct Wanted<'w> {
    printed: &'w [u8],
    counts: ReloadCounts,
    first: u64,
    page: &'w [u8],
    last: u64,
}

/// Holds what was served against what is wanted of a file's row.
fn hold(
    rt: &impl Abort,
    row: &str,
    proxied: &Proxied<MemFiles, MemDoors, TapeOut>,
    wanted: Wanted<'_>,
) {
    let doors = &proxied.parts.doors;
    same_at(rt, row, proxied.status, 0);
    same_at(rt, row, proxied.parts.err.taken(), wanted.printed);
    same_at(rt, row, proxied.counts, wanted.counts);
    same_at(rt, row, doors.parted().len(), 3);
    hold_answer(rt, row, doors, 0, wanted.first, wanted.page);
    hold_answer(rt, row, doors, 1, wanted.last, PAGE);
    hold_answer(rt, row, doors, 2, wanted.last, PAGE);
}

/// Holds by which configuration a connection was served, and what its client was answered.
fn hold_answer(
    rt: &impl Abort,
    row: &str,
    doors: &MemDoors,
    number: u64,
    config: u64,
    page: &[u8],
) {
    let (used, answer) = answer_of(doors, number);
    same_at(rt, row, used, Some(config));
    same_at(rt, row, answer, page);
}

/// What is wanted where a set was kept away from: the next one is published.
fn shunned(printed: &[u8]) -> Wanted<'_> {
    Wanted {
        printed,
        counts: ReloadCounts {
            same: 1,
            published: 1,
            kept: 1,
            read_faults: 0,
            wanting: 0,
        },
        first: 0,
        page: PAGE,
        last: 1,
    }
}

#[test]
fn a_file_that_is_missing_at_a_reload_keeps_the_former_configuration(
    rt: HostRuntime,
) -> Result<(), Fail> {
    for (missing, printed) in MISSING {
        let files = turning_files(rt.alloc(), missing, &[])?;
        let err = TapeOut::new(rt.alloc(), &[], &[])?;
        let proxied = reloaded(&rt, rt.alloc(), files, err)?;
        hold(&rt, missing, &proxied, shunned(printed));
    }
    Ok(())
}

#[test]
fn a_template_an_image_or_an_included_text_may_be_missing_at_a_reload(
    rt: HostRuntime,
) -> Result<(), Fail> {
    for (missing, _, _) in FILES {
        if !missing.starts_with(OPTIONAL) {
            continue;
        }
        let files = turning_files(rt.alloc(), missing, &[])?;
        let err = TapeOut::new(rt.alloc(), &[], &[])?;
        let proxied = reloaded(&rt, rt.alloc(), files, err)?;
        let counts = ReloadCounts {
            same: 1,
            published: 2,
            kept: 0,
            read_faults: 0,
            wanting: 0,
        };
        let wanted = Wanted {
            printed: b"",
            counts,
            first: 1,
            page: page_without(missing),
            last: 2,
        };
        hold(&rt, missing, &proxied, wanted);
    }
    Ok(())
}

#[test]
fn a_file_that_cant_be_read_at_a_reload_keeps_the_former_configuration_and_is_read_again(
    rt: HostRuntime,
) -> Result<(), Fail> {
    for (place, (name, _, printed)) in FILES.iter().enumerate() {
        let call = READ_BEFORE.saturating_add(place as u64);
        let files = turning_files(rt.alloc(), "", &[call])?;
        let err = TapeOut::new(rt.alloc(), &[], &[])?;
        let proxied = reloaded(&rt, rt.alloc(), files, err)?;
        let counts = ReloadCounts {
            same: 2,
            published: 0,
            kept: 0,
            read_faults: 1,
            wanting: 0,
        };
        let wanted = Wanted {
            printed,
            counts,
            first: 0,
            page: PAGE,
            last: 0,
        };
        hold(&rt, name, &proxied, wanted);
    }
    Ok(())
}

#[test]
fn a_file_that_cant_be_read_at_the_start_is_named_and_nothing_is_served(
    rt: HostRuntime,
) -> Result<(), Fail> {
    for (place, (name, _, printed)) in FILES.iter().enumerate() {
        let files = turning_files(rt.alloc(), "", &[place as u64])?;
        let err = TapeOut::new(rt.alloc(), &[], &[])?;
        let proxied = reloaded(&rt, rt.alloc(), files, err)?;
        let doors = &proxied.parts.doors;
        same_at(&rt, *name, proxied.status, 3);
        same_at(&rt, *name, proxied.parts.err.taken(), *printed);
        same_at(&rt, *name, doors.listens_at().is_some(), false);
        same_at(&rt, *name, doors.parted().len(), 0);
    }
    Ok(())
}

/// The sizes of the error output's writes, which of them fails, and what it took of the line.
const ERROR_FAULTS: [(&[usize], u64, &[u8]); 3] = [
    (&[], 0, b""),
    (&[5], 1, b"u.act"),
    (&[5, 17], 2, b"u.action:0: 32 Missing"),
];

#[test]
fn an_error_output_that_fails_at_a_reload_changes_nothing_else(
    rt: HostRuntime,
) -> Result<(), Fail> {
    for (cuts, fails, printed) in ERROR_FAULTS {
        let files = turning_files(rt.alloc(), "u.action", &[])?;
        let err = TapeOut::new(rt.alloc(), cuts, &[fails])?;
        let proxied = reloaded(&rt, rt.alloc(), files, err)?;
        hold(&rt, "u.action", &proxied, shunned(printed));
    }
    Ok(())
}
