// The filter files of a configuration.
ghost use Rattle.std.specs.Prelude.{◌≡◌, ◌++◌, [], All, Ok, IfErr, IfOk, OnOk, map, option_copied};
ghost use Rattle.px_action_files.specs.Faults.{IsReported, and_then};
ghost use Rattle.px_filter_files.specs.FilterFiles.{file_of};
ghost use Rattle.px_config.specs.Faults.{IsFault};
ghost use Rattle.px_config.specs.Filters.{filter_files, filters_or, lines_filters, seen_filter_fault, skip_note, with_filter_file, with_filters};
ghost use Rattle.px_config.specs.Parts.{file_lines};
ghost use Rattle.px_config.specs.Sets.{FitsItem};

use crate::contents::{fault_in, file_lines};
use crate::faults::LoadFault;
use crate::settings::Note;
use px_action_files::FileFault;
use px_base::{Content, List, Mem, Text};
use px_filter_files::{FilterFault, FilterFile};
use px_text::Line;
use std::alloc::Global;

/// Filter files, and the notes so far.
#[derive(Drop)]
pub(crate) struct FilterFiles {
    pub(crate) files: List<FilterFile>,
    pub(crate) notes: List<Note>,
}

/// The refusal of a filter file as that of a file.
fn filter_fault(fault: FilterFault) -> FileFault
    ensures { result ≡ seen_filter_fault fault }
{
    match fault {
        FilterFault::At { line, number } => FileFault::At { line, number },
        FilterFault::Mem => FileFault::Mem,
    }
}

/// The filters of lines.
fn read_lines(alloc: Global, lines: &[Line]) -> Result<FilterFile, FileFault>
    ensures filters { IfOk result (λ file. filters_or (file_of lines.now) ≡ Ok file) }
    ensures refused { IfErr result (IsReported (filters_or (file_of lines.now))) }
{
    match FilterFile::read(alloc, lines) {
        Ok(file) => Ok(file),
        Err(fault) => Err(filter_fault(fault)),
    }
}

/// The filters of a filter file.
fn read_file(
    alloc: Global,
    items: &[(Text, Content)],
    folder: Option<&[u8]>,
    name: &[u8],
) -> Result<FilterFile, FileFault>
    requires { All FitsItem items.now }
    ensures filters { IfOk result (λ file. and_then (file_lines items.now (option_copied folder.entry) name.now) lines_filters ≡ Ok file) }
    ensures refused { IfErr result (IsReported (and_then (file_lines items.now (option_copied folder.entry) name.now) lines_filters)) }
{
    match file_lines(alloc, items, folder, name) {
        Ok(lines) => read_lines(alloc, lines.as_slice()),
        Err(fault) => Err(fault),
    }
}

/// Adds a note for each job that was left out.
fn add_notes(alloc: Global, name: &[u8], skipped: &[u32], notes: &mut List<Note>) -> Result<(), Mem>
    ensures { OnOk result (notes.new ≡ notes.old ++ map (skip_note name.now) skipped.now) }
{
    let mut rest = skipped;
    'lines: while let Some((line, others)) = rest.split_first() {
        notes.add(Note {
            file: Text::from_bytes(alloc, name)?,
            line: *line,
            text: Text::from_bytes(alloc, b"job skipped")?,
        })?;
        rest = others;
    }
    Ok(())
}

impl FilterFiles {
    /// Reads the filter files of these names, behind the notes of the main file. The first fault is answered.
    #[tactic(auto, unfolding(crate::specs::Filters::filter_files))]
    pub(crate) fn read(
        alloc: Global,
        items: &[(Text, Content)],
        folder: Option<&[u8]>,
        names: &[Text],
        notes: List<Note>,
    ) -> Result<FilterFiles, LoadFault>
        requires { All FitsItem items.now }
        ensures files { IfOk result (λ files. filter_files items.now (option_copied folder.entry) (record { files = []; notes = notes }) names.now ≡ Ok files) }
        ensures refused { IfErr result (IsFault (filter_files items.now (option_copied folder.entry) (record { files = []; notes = notes }) names.now)) }
    {
        let mut files = FilterFiles {
            files: List::new(alloc),
            notes,
        };
        let mut rest = names;
        'names: while let Some((name, others)) = rest.split_first() {
            match files.add(alloc, items, folder, name.as_bytes()) {
                Ok(()) => {}
                Err(fault) => return Err(fault),
            }
            rest = others;
        }
        Ok(files)
    }

    /// Adds the filter file of a name.
    #[tactic(auto, unfolding(crate::specs::Filters::with_filters), using(crate::proofs::FaultLemmas::fault_of))]
    fn add(
        &mut self,
        alloc: Global,
        items: &[(Text, Content)],
        folder: Option<&[u8]>,
        name: &[u8],
    ) -> Result<(), LoadFault>
        requires { All FitsItem items.now }
        ensures added { OnOk result (with_filters items.now (option_copied folder.entry) self.old name.now ≡ Ok self.new) }
        ensures refused { IfErr result (IsFault (with_filters items.now (option_copied folder.entry) self.old name.now)) }
    {
        match read_file(alloc, items, folder, name) {
            Ok(file) => {
                self.push(alloc, name, file)?;
                Ok(())
            }
            Err(fault) => Err(fault_in(alloc, name, fault)),
        }
    }

    fn push(&mut self, alloc: Global, name: &[u8], file: FilterFile) -> Result<(), Mem>
        ensures { OnOk result (self.new ≡ with_filter_file self.old name.now file) }
    {
        add_notes(alloc, name, file.skipped.as_slice(), &mut self.notes)?;
        self.files.add(file)
    }
}
