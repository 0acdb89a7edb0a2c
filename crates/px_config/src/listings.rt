// The lists of hosts of a configuration.
ghost use Rattle.std.specs.Prelude.{◌≡◌, ◌++◌, ◌∷◌, [], Ok, IfErr, IfOk, OnOk, map, option_copied};
ghost use Rattle.px_action_files.specs.Faults.{IsReported, reported_word};
ghost use Rattle.px_action_files.specs.Meanings.{seen_update};
ghost use Rattle.px_host_lists.specs.Readings.{list_refusal};
ghost use Rattle.px_config.specs.Faults.{IsFault};
ghost use Rattle.px_config.specs.Listings.{block_update, block_word, content_hosts, file_hosts, host_lists, hosts_or, more_totals, no_lists, note_at, note_on_lines, seen_hosts, seen_list, seen_list_fault, seen_lists, with_hosts, with_list, with_list_file, with_listed};

use crate::contents::fault_in;
use crate::faults::{LoadFault, MISSING, TOO_LARGE};
use crate::names::full_name;
use crate::sets::{FileSet, find};
use crate::settings::{ListLine, Note};
use itoa::Buffer;
use px_action_files::FileFault;
use px_actions::{ActionFault, Update};
use px_base::{Content, List, Mem, Text};
use px_host_lists::{BYTE_LIMIT, HOST_LIMIT, ListFault, ReadList, read_list};
use px_merge::ListedHosts;
use std::alloc::Global;

/// How many hosts and bytes lists have together.
#[derive(Clone, Copy)]
pub(crate) struct Totals {
    pub(crate) hosts: usize,
    pub(crate) bytes: usize,
}

/// Lists of hosts, what they have together, and the notes so far.
#[derive(Drop)]
pub(crate) struct HostLists {
    pub(crate) lists: List<ListedHosts>,
    pub(crate) totals: Totals,
    pub(crate) notes: List<Note>,
}

/// What was read of a file of hosts.
#[derive(Drop)]
pub(crate) struct HostsFile {
    pub(crate) read: ReadList,
    pub(crate) bytes: usize,
}

/// The refusal of a reason as that of a line.
fn word_fault(line: u32, fault: ActionFault) -> FileFault
    ensures { result ≡ reported_word line fault }
{
    let number = fault.number();
    if number == 0 {
        FileFault::Mem
    } else {
        FileFault::At { line, number }
    }
}

/// The refusal of a list's file as that of a file.
fn list_fault(fault: ListFault) -> FileFault
    ensures { result ≡ seen_list_fault fault }
{
    match fault {
        ListFault::TooLong { line } => FileFault::At {
            line,
            number: TOO_LARGE,
        },
        ListFault::TooMany { line } => FileFault::At {
            line,
            number: TOO_LARGE,
        },
        ListFault::Mem => FileFault::Mem,
    }
}

/// The word that blocks for a reason.
fn block_word(alloc: Global, reason: &[u8]) -> Result<Text, Mem>
    ensures { IfOk result (λ word. word ≡ block_word reason.now) }
{
    let mut word = Text::from_bytes(alloc, b"+block{")?;
    word.push_all(reason)?;
    word.push_all(b"}")?;
    Ok(word)
}

/// What the list of a line sets for its hosts: what `+block{REASON}` sets in an actions file.
#[tactic(auto, unfolding(crate::specs::Listings::block_update), using(crate::proofs::ListingLemmas::word_reported))]
fn block_update(alloc: Global, line: &ListLine) -> Result<Update, FileFault>
    ensures update { IfOk result (λ update. block_update line.now ≡ Ok (seen_update update)) }
    ensures refused { IfErr result (IsReported (block_update line.now)) }
{
    let word = block_word(alloc, line.reason.as_bytes())?;
    match Update::read_bytes(alloc, word.as_bytes()) {
        Ok(update) => Ok(update),
        Err(fault) => Err(word_fault(line.number, fault)),
    }
}

/// The hosts of a text within the limits.
#[tactic(auto, using(crate::proofs::ListingLemmas::hosts_rules))]
fn read_hosts(alloc: Global, text: &[u8]) -> Result<HostsFile, FileFault>
    ensures hosts { IfOk result (λ file. hosts_or (list_refusal text.now) text.now ≡ Ok (seen_hosts file)) }
    ensures refused { IfErr result (IsReported (hosts_or (list_refusal text.now) text.now)) }
{
    match read_list(alloc, text) {
        Ok(read) => Ok(HostsFile {
            read,
            bytes: text.len(),
        }),
        Err(fault) => Err(list_fault(fault)),
    }
}

/// The hosts of a file that is there and within the limits.
#[tactic(auto, unfolding(crate::specs::Listings::content_hosts))]
fn content_hosts(alloc: Global, content: &Content) -> Result<HostsFile, FileFault>
    ensures hosts { IfOk result (λ file. content_hosts content.now ≡ Ok (seen_hosts file)) }
    ensures refused { IfErr result (IsReported (content_hosts content.now)) }
{
    match content {
        Content::Missing => Err(FileFault::At {
            line: 0,
            number: MISSING,
        }),
        Content::Over => Err(FileFault::At {
            line: 0,
            number: TOO_LARGE,
        }),
        Content::Found(text) => read_hosts(alloc, text.as_bytes()),
    }
}

/// The hosts of a file of a set.
#[tactic(auto, unfolding(crate::specs::Listings::content_hosts))]
fn file_hosts(
    alloc: Global,
    lists: &[(Text, Content)],
    folder: Option<&[u8]>,
    name: &[u8],
) -> Result<HostsFile, FileFault>
    ensures hosts { IfOk result (λ file. file_hosts lists.now (option_copied folder.entry) name.now ≡ Ok (seen_hosts file)) }
    ensures refused { IfErr result (IsReported (file_hosts lists.now (option_copied folder.entry) name.now)) }
{
    let name = full_name(alloc, folder, name)?;
    match find(lists, name.as_bytes()) {
        Some(content) => content_hosts(alloc, content),
        None => Err(FileFault::At {
            line: 0,
            number: MISSING,
        }),
    }
}

/// The note on lines of a file that name no host, by how many they are and the first of them.
fn note_at(alloc: Global, name: &[u8], passed: u32, line: u32) -> Result<Note, Mem>
    ensures { IfOk result (λ note. note ≡ note_at name.now passed line) }
{
    let mut text = Text::from_bytes(alloc, b"lines that name no host: ")?;
    text.push_all(Buffer::new().format(passed).as_bytes())?;
    let file = Text::from_bytes(alloc, name)?;
    Ok(Note { file, line, text })
}

/// Adds the note on the lines of a file that name no host, if there are any.
fn add_note(
    alloc: Global,
    name: &[u8],
    passed: u32,
    first: Option<u32>,
    notes: &mut List<Note>,
) -> Result<(), Mem>
    ensures { OnOk result (notes.new ≡ notes.old ++ note_on_lines name.now passed first) }
{
    match first {
        Some(line) => notes.add(note_at(alloc, name, passed, line)?),
        None => Ok(()),
    }
}

impl Totals {
    /// With so many hosts and bytes more. More than all lists may have together are refused at the line.
    #[tactic(auto, unfolding(crate::specs::Listings::more_totals))]
    fn with(self, line: u32, hosts: usize, bytes: usize) -> Result<Totals, FileFault>
        ensures more { IfOk result (λ totals. more_totals line self hosts bytes ≡ Ok totals) }
        ensures refused { IfErr result (IsReported (more_totals line self hosts bytes)) }
    {
        let Some(hosts) = self.hosts.checked_add(hosts) else {
            return Err(FileFault::Mem);
        };
        let Some(bytes) = self.bytes.checked_add(bytes) else {
            return Err(FileFault::Mem);
        };
        if hosts > HOST_LIMIT || bytes > BYTE_LIMIT {
            Err(FileFault::At {
                line,
                number: TOO_LARGE,
            })
        } else {
            Ok(Totals { hosts, bytes })
        }
    }
}

impl HostLists {
    /// Reads the lists of hosts of these lines, behind some notes. The first fault is answered.
    #[tactic(auto, unfolding(crate::specs::Listings::host_lists))]
    pub(crate) fn read(
        alloc: Global,
        set: &FileSet,
        folder: Option<&[u8]>,
        lines: &[ListLine],
        notes: List<Note>,
    ) -> Result<HostLists, LoadFault>
        ensures lists { IfOk result (λ lists. host_lists set.now (option_copied folder.entry) (no_lists notes) lines.now ≡ Ok (seen_lists lists)) }
        ensures refused { IfErr result (IsFault (host_lists set.now (option_copied folder.entry) (no_lists notes) lines.now)) }
    {
        let mut lists = HostLists {
            lists: List::new(alloc),
            totals: Totals { hosts: 0, bytes: 0 },
            notes,
        };
        let mut rest = lines;
        'lines: while let Some((line, others)) = rest.split_first() {
            match lists.add(alloc, set, folder, line) {
                Ok(()) => {}
                Err(fault) => return Err(fault),
            }
            rest = others;
        }
        Ok(lists)
    }

    /// Adds the list of a line.
    #[tactic(auto, unfolding(crate::specs::Listings::with_list), using(crate::proofs::FaultLemmas::fault_of))]
    fn add(
        &mut self,
        alloc: Global,
        set: &FileSet,
        folder: Option<&[u8]>,
        line: &ListLine,
    ) -> Result<(), LoadFault>
        ensures added { OnOk result (with_list set.now (option_copied folder.entry) (seen_lists self.old) line.now ≡ Ok (seen_lists self.new)) }
        ensures refused { IfErr result (IsFault (with_list set.now (option_copied folder.entry) (seen_lists self.old) line.now)) }
    {
        match block_update(alloc, line) {
            Ok(update) => self.add_file(alloc, set, folder, line, update),
            Err(fault) => Err(fault_in(alloc, set.main.as_bytes(), fault)),
        }
    }

    /// Adds the list of a line that sets this.
    #[tactic(auto, unfolding(crate::specs::Listings::with_list_file), using(crate::proofs::FaultLemmas::fault_of))]
    fn add_file(
        &mut self,
        alloc: Global,
        set: &FileSet,
        folder: Option<&[u8]>,
        line: &ListLine,
        update: Update,
    ) -> Result<(), LoadFault>
        ensures added { OnOk result (with_list_file set.now (option_copied folder.entry) (seen_lists self.old) line.now (seen_update update) ≡ Ok (seen_lists self.new)) }
        ensures refused { IfErr result (IsFault (with_list_file set.now (option_copied folder.entry) (seen_lists self.old) line.now (seen_update update))) }
    {
        let name = line.name.as_bytes();
        match file_hosts(alloc, set.lists.as_slice(), folder, name) {
            Ok(file) => self.add_hosts(alloc, set.main.as_bytes(), line, update, file),
            Err(fault) => Err(fault_in(alloc, name, fault)),
        }
    }

    /// Adds a list whose file was read, unless all lists have too much together.
    #[tactic(auto, unfolding(crate::specs::Listings::with_hosts), using(crate::proofs::FaultLemmas::fault_of))]
    fn add_hosts(
        &mut self,
        alloc: Global,
        main: &[u8],
        line: &ListLine,
        update: Update,
        file: HostsFile,
    ) -> Result<(), LoadFault>
        ensures added { OnOk result (with_hosts main.now (seen_lists self.old) line.now (seen_update update) (seen_hosts file) ≡ Ok (seen_lists self.new)) }
        ensures refused { IfErr result (IsFault (with_hosts main.now (seen_lists self.old) line.now (seen_update update) (seen_hosts file))) }
    {
        let hosts = file.read.notes.taken as usize;
        match self.totals.with(line.number, hosts, file.bytes) {
            Ok(totals) => {
                self.push(alloc, line.name.as_bytes(), update, file, totals)?;
                Ok(())
            }
            Err(fault) => Err(fault_in(alloc, main, fault)),
        }
    }

    fn push(
        &mut self,
        alloc: Global,
        name: &[u8],
        update: Update,
        file: HostsFile,
        totals: Totals,
    ) -> Result<(), Mem>
        ensures { OnOk result (seen_lists self.new ≡ with_listed (seen_lists self.old) name.now (seen_update update) (seen_hosts file) totals) }
    {
        let HostsFile { read, bytes: _ } = file;
        let ReadList { list, notes } = read;
        add_note(
            alloc,
            name,
            notes.passed,
            notes.first_passed,
            &mut self.notes,
        )?;
        let name = Text::from_bytes(alloc, name)?;
        self.lists.add(ListedHosts {
            name,
            update,
            hosts: list,
        })?;
        self.totals = totals;
        Ok(())
    }
}
