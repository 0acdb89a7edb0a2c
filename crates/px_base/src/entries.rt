// What a dialer in memory keeps of its dials.
ghost use Rattle.std.specs.Prelude.{◌≡◌, ◌<◌, ◌≤◌, ℕ, length, true, suc, take, slice_set, slice_index_or, vec_capacity, if◌then◌else◌};
ghost use Rattle.std.specs.List.{insert};
ghost use Rattle.px_base.specs.Entries.{merged, opens_at, finished_in, more_finished, ended, entry_host, entry_port, entry_note};
ghost use Rattle.px_base.specs.Dials.{is_open, finish};
ghost use Rattle.px_base.specs.declared.entries.DialEntry.{DialEntry};

use crate::{LinkNote, Text};
use std::alloc::Global;
use std::mem;

/// What is kept of a dial. The host, the port and the bytes of a finished link stand in its note.
#[derive(Drop)]
pub enum DialEntry {
    NoName {
        host: Text,
        port: u16,
    },
    NotReached {
        host: Text,
        port: u16,
    },
    Open {
        host: Text,
        port: u16,
        offered: Text,
    },
    Finished {
        offered: Text,
        end: LinkEnd,
    },
}

/// How a link ended: whether its source and its sink had failed, and whether the end of the sent bytes was said.
#[derive(Clone, Copy)]
pub struct LinkEnd {
    pub read_failed: bool,
    pub write_failed: bool,
    pub finished: bool,
}

/// The entry of a link that is hung up, with its host and port.
#[derive(Drop)]
struct End {
    entry: DialEntry,
    host: Text,
    port: u16,
}

/// What went over a link that is hung up.
#[derive(Drop)]
pub struct LinkPassage {
    pub heard: Text,
    pub sent: Text,
    pub end: LinkEnd,
}

/// Hangs up the open link with that number, and puts its note among those of the finished links.
pub fn end_link(
    alloc: Global,
    entries: &mut Vec<DialEntry>,
    links: &mut Vec<LinkNote>,
    number: usize,
    passage: LinkPassage,
)
    requires is_open { is_open number (merged 0 entries.old.items links.old.items) ≡ true }
    requires notes { finished_in entries.old.items ≡ length links.old.items }
    requires room { length entries.old.items ≤ vec_capacity links.old }
    ensures dials { merged 0 entries.new.items links.new.items ≡ finish number (record { heard = passage.heard; sent = passage.sent; read_failed = passage.end.read_failed; write_failed = passage.end.write_failed; finished = passage.end.finished }) (merged 0 entries.old.items links.old.items) }
    ensures notes { finished_in entries.new.items ≡ length links.new.items }
    ensures room { length entries.new.items ≤ vec_capacity links.new }
{
    note_end(alloc, entries, links, number, passage)
}

#[tactic(auto, using(crate::proofs::EntryLemmas::counts))]
/// Ends the open link at a place, and inserts its note behind those of the links that were dialled before.
fn note_end(
    alloc: Global,
    entries: &mut Vec<DialEntry>,
    links: &mut Vec<LinkNote>,
    at: usize,
    passage: LinkPassage,
)
    requires is_open { opens_at at entries.old.items ≡ true }
    requires notes { finished_in entries.old.items ≡ length links.old.items }
    requires room { length entries.old.items ≤ vec_capacity links.old }
    ensures entries { (e : DialEntry) → entries.new.items ≡ slice_set entries.old.items at (ended passage.end (slice_index_or entries.old.items at e)) }
    ensures links { (e : DialEntry) → links.new.items ≡ insert links.old.items (finished_in (take at entries.old.items)) (entry_note passage.heard passage.sent (slice_index_or entries.old.items at e)) }
    ensures room { vec_capacity links.old ≤ vec_capacity links.new }
{
    let before = finished_before(entries, at);
    let LinkPassage { heard, sent, end } = passage;
    let (host, port) = end_at(alloc, entries, at, end);
    match links.insert(
        before,
        LinkNote {
            host,
            port,
            heard,
            sent,
        },
    ) {
        Ok(()) => {}
        Err(_) => {}
    }
}

/// How many of the entries before a place are finished links.
fn finished_before(entries: &[DialEntry], at: usize) -> usize
    requires { at ≤ length entries.now }
    ensures { result ≡ finished_in (take at entries.now) }
{
    let before = &entries[..at];
    let mut count = 0;
    'entries: for entry in before {
        if is_finished(entry) {
            count += 1;
        }
    }
    count
}

fn is_finished(entry: &DialEntry) -> bool
    ensures { (n : ℕ) → more_finished entry.now n ≡ (if result then suc n else n) }
{
    match entry {
        DialEntry::NoName { .. } => false,
        DialEntry::NotReached { .. } => false,
        DialEntry::Open { .. } => false,
        DialEntry::Finished { .. } => true,
    }
}

/// Ends the link at a place, and gives its host and port.
fn end_at(alloc: Global, entries: &mut Vec<DialEntry>, at: usize, end: LinkEnd) -> (Text, u16)
    requires { at < length entries.old.items }
    ensures entries { (e : DialEntry) → entries.new.items ≡ slice_set entries.old.items at (ended end (slice_index_or entries.old.items at e)) }
    ensures host { (e : DialEntry) → result.0 ≡ entry_host (slice_index_or entries.old.items at e) }
    ensures port { (e : DialEntry) → result.1 ≡ entry_port (slice_index_or entries.old.items at e) }
{
    let slot = &mut entries[at];
    let placeholder = DialEntry::Finished {
        offered: Text::new(alloc),
        end,
    };
    let old = mem::replace(slot, placeholder);
    let End { entry, host, port } = end_entry(alloc, old, end);
    *slot = entry;
    (host, port)
}

fn end_entry(alloc: Global, entry: DialEntry, end: LinkEnd) -> End
    ensures entry { result.entry ≡ ended end entry }
    ensures host { result.host ≡ entry_host entry }
    ensures port { result.port ≡ entry_port entry }
{
    match entry {
        DialEntry::Open {
            host,
            port,
            offered,
        } => End {
            entry: DialEntry::Finished { offered, end },
            host,
            port,
        },
        other => End {
            entry: other,
            host: Text::new(alloc),
            port: 0,
        },
    }
}
