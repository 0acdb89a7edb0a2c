// Reads a list's file.
ghost use Rattle.std.specs.Prelude.{◌≡◌, ◌+◌, ◌<◌, ◌≤◌, ◌^◌, None, IfErr, IfOk, length};
ghost use Rattle.px_host_lists.specs.Hosts.{SameLines};
ghost use Rattle.px_host_lists.specs.Readings.{IsListRefusal, host_refusal, line_of_byte, list_entries, list_notes, list_refusal};
ghost use Rattle.px_host_lists.specs.Slots.{IsGathered, gathered_entries};
ghost use Rattle.px_host_lists.specs.declared.faults.ListFault.TheVariants as ListFault;

use crate::addresses::count_of;
use crate::faults::ListFault;
use crate::gathering::Gathered;
use crate::lists::HostList;
use crate::words::unmarked;
use crate::{BYTE_LIMIT, LINE_FEED};
use px_base::cut;
use std::alloc::Global;

/// How many hosts a file has, and how many lines on which something stands that is none, and the first of these.
#[derive(Clone, Copy, Debug, PartialEq, Eq)]
pub struct ListNotes {
    pub taken: u32,
    pub passed: u32,
    pub first_passed: Option<u32>,
}

/// A list and the notes on its file.
#[derive(Drop)]
pub struct ReadList {
    pub list: HostList,
    pub notes: ListNotes,
}

/// Reads a list's file.
pub fn read_list(alloc: Global, text: &[u8]) -> Result<ReadList, ListFault>
    ensures list { IfOk result (λ read. SameLines read.list (list_entries text.now)) }
    ensures notes { IfOk result (λ read. read.notes ≡ list_notes text.now) }
    ensures read { IfOk result (λ _. list_refusal text.now ≡ None) }
    ensures refused { IfErr result (IsListRefusal (list_refusal text.now)) }
{
    if text.len() > BYTE_LIMIT {
        return Err(ListFault::TooLong {
            line: line_of_byte(BYTE_LIMIT, text),
        });
    }
    read_lines(alloc, text)
}

/// Lines that are passed over: how many there are, and the first.
#[derive(Clone, Copy)]
struct PassedLines {
    count: u32,
    first: Option<u32>,
}

impl PassedLines {
    ghost use Rattle.std.specs.Prelude.{◌≡◌, ◌+◌, ◌<◌, ◌^◌, Some, if◌then◌else◌};
    ghost use Rattle.std.specs.Option.{option_or};

    /// With a line more, where something else than hosts stands there.
    fn with(self, line: u32, other: bool) -> PassedLines
        requires room { self.count + 1 < 2 ^ 32 }
        ensures count { result.count ≡ (if other then self.count + 1 else self.count) }
        ensures first { result.first ≡ (if other then option_or self.first (Some line) else self.first) }
    {
        if other {
            PassedLines {
                count: self.count + 1,
                first: self.first.or(Some(line)),
            }
        } else {
            self
        }
    }
}

/// Reads the lines of a file within the limit of bytes.
fn read_lines(alloc: Global, text: &[u8]) -> Result<ReadList, ListFault>
    requires { length text.now ≤ BYTE_LIMIT }
    ensures list { IfOk result (λ read. SameLines read.list (list_entries text.now)) }
    ensures notes { IfOk result (λ read. read.notes ≡ list_notes text.now) }
    ensures read { IfOk result (λ _. host_refusal (list_entries text.now) ≡ None) }
    ensures refused { IfErr result (IsListRefusal (host_refusal (list_entries text.now))) }
{
    let mut hosts = Gathered::new(alloc);
    let mut passed = PassedLines {
        count: 0,
        first: None,
    };
    let mut number: u32 = 0;
    let mut rest = unmarked(text);
    'lines: loop {
        let (line, behind) = cut(rest, LINE_FEED);
        number += 1;
        let other = hosts.take_line(number, line)?;
        passed = passed.with(number, other);
        match behind {
            Some(more) => rest = more,
            None => return noted(hosts, passed),
        }
    }
}

/// The list of hosts, and the notes.
fn noted(hosts: Gathered, passed: PassedLines) -> Result<ReadList, ListFault>
    requires gathered { IsGathered hosts }
    ensures list { IfOk result (λ read. SameLines read.list (gathered_entries hosts)) }
    ensures notes { IfOk result (λ read. read.notes ≡ record { taken = length (gathered_entries hosts); passed = passed.count; first_passed = passed.first }) }
    ensures memory { IfErr result (λ fault. fault ≡ ListFault.Mem) }
{
    let taken = hosts.len() as u32;
    let list = HostList::from_gathered(hosts)?;
    Ok(ReadList {
        list,
        notes: ListNotes {
            taken,
            passed: passed.count,
            first_passed: passed.first,
        },
    })
}

/// The number of the line in which the byte at a place stands.
#[tactic(auto, unfolding(crate::specs::Readings::line_of_byte))]
fn line_of_byte(place: usize, text: &[u8]) -> u32
    requires within { place ≤ length text.now }
    requires limit { place ≤ BYTE_LIMIT }
    ensures { result ≡ line_of_byte place text.now }
{
    count_of(&text[..place], LINE_FEED) as u32 + 1
}
