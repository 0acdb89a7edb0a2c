// The action files of a configuration.
ghost use Rattle.std.specs.Prelude.{◌≡◌, All, Ok, IfErr, IfOk, OnOk, map, option_copied};
ghost use Rattle.px_action_files.specs.Faults.{IsReported};
ghost use Rattle.px_action_files.specs.Meanings.{seen_section};
ghost use Rattle.px_config.specs.Actions.{action_files, file_actions, no_actions, pattern_total, limited_sections, seen_actions, with_actions, with_sections};
ghost use Rattle.px_config.specs.Faults.{IsFault};
ghost use Rattle.px_config.specs.Listings.{seen_list};
ghost use Rattle.px_config.specs.Sets.{FitsItem};

use crate::contents::{fault_in, file_lines};
use crate::faults::{LoadFault, TOO_LARGE};
use px_action_files::{ActionFile, FileFault, Section};
use px_base::{Content, List, Mem, Text};
use px_merge::ListedHosts;
use px_text::Line;
use std::alloc::Global;

/// Lists of hosts, action files by their names, and how many patterns these have.
#[derive(Drop)]
pub(crate) struct ActionFiles {
    pub(crate) lists: List<ListedHosts>,
    pub(crate) files: List<(Text, ActionFile)>,
    pub(crate) patterns: usize,
}

/// How many patterns stand in sections.
fn patterns_in(sections: &[Section]) -> Result<usize, Mem>
    ensures { IfOk result (λ count. count ≡ pattern_total (map seen_section sections.now)) }
{
    let mut count = 0usize;
    let mut rest = sections;
    'sections: while let Some((section, others)) = rest.split_first() {
        match count.checked_add(section.patterns.len()) {
            Some(more) => count = more,
            None => return Err(Mem),
        }
        rest = others;
    }
    Ok(count)
}

/// The sections of lines, where all files may have so many patterns, and files before them have some.
#[tactic(auto, unfolding(crate::specs::Actions::limited_sections), using(crate::proofs::FaultLemmas::within_rules))]
fn read_sections(
    alloc: Global,
    lines: &[Line],
    limit: usize,
    so_far: usize,
) -> Result<ActionFile, FileFault>
    ensures sections { IfOk result (λ file. limited_sections limit so_far lines.now ≡ Ok (map seen_section file.sections)) }
    ensures refused { IfErr result (IsReported (limited_sections limit so_far lines.now)) }
{
    let file = match ActionFile::read(alloc, lines) {
        Ok(file) => file,
        Err(fault) => return Err(fault),
    };
    match ActionFile::line_of_pattern(lines, limit.saturating_sub(so_far)) {
        Some(line) => Err(FileFault::At {
            line,
            number: TOO_LARGE,
        }),
        None => Ok(file),
    }
}

/// The sections of an actions file, where files before it have so many patterns.
fn read_file(
    alloc: Global,
    items: &[(Text, Content)],
    folder: Option<&[u8]>,
    limit: usize,
    so_far: usize,
    name: &[u8],
) -> Result<ActionFile, FileFault>
    requires { All FitsItem items.now }
    ensures sections { IfOk result (λ file. file_actions items.now (option_copied folder.entry) limit so_far name.now ≡ Ok (map seen_section file.sections)) }
    ensures refused { IfErr result (IsReported (file_actions items.now (option_copied folder.entry) limit so_far name.now)) }
{
    match file_lines(alloc, items, folder, name) {
        Ok(lines) => read_sections(alloc, lines.as_slice(), limit, so_far),
        Err(fault) => Err(fault),
    }
}

impl ActionFiles {
    /// Reads the action files of these names, which may have so many patterns together, behind lists of hosts. The first fault is answered.
    #[tactic(auto, unfolding(crate::specs::Actions::action_files))]
    pub(crate) fn read(
        alloc: Global,
        items: &[(Text, Content)],
        folder: Option<&[u8]>,
        limit: usize,
        names: &[Text],
        lists: List<ListedHosts>,
    ) -> Result<ActionFiles, LoadFault>
        requires { All FitsItem items.now }
        ensures files { IfOk result (λ files. action_files items.now (option_copied folder.entry) limit (no_actions (map seen_list lists)) names.now ≡ Ok (seen_actions files)) }
        ensures refused { IfErr result (IsFault (action_files items.now (option_copied folder.entry) limit (no_actions (map seen_list lists)) names.now)) }
    {
        let mut files = ActionFiles {
            lists,
            files: List::new(alloc),
            patterns: 0,
        };
        let mut rest = names;
        'names: while let Some((name, others)) = rest.split_first() {
            match files.add(alloc, items, folder, limit, name.as_bytes()) {
                Ok(()) => {}
                Err(fault) => return Err(fault),
            }
            rest = others;
        }
        Ok(files)
    }

    /// Adds the actions file of a name.
    #[tactic(auto, unfolding(crate::specs::Actions::with_actions), using(crate::proofs::FaultLemmas::fault_of))]
    fn add(
        &mut self,
        alloc: Global,
        items: &[(Text, Content)],
        folder: Option<&[u8]>,
        limit: usize,
        name: &[u8],
    ) -> Result<(), LoadFault>
        requires { All FitsItem items.now }
        ensures added { OnOk result (with_actions items.now (option_copied folder.entry) limit (seen_actions self.old) name.now ≡ Ok (seen_actions self.new)) }
        ensures refused { IfErr result (IsFault (with_actions items.now (option_copied folder.entry) limit (seen_actions self.old) name.now)) }
    {
        match read_file(alloc, items, folder, limit, self.patterns, name) {
            Ok(file) => {
                self.push(alloc, name, file)?;
                Ok(())
            }
            Err(fault) => Err(fault_in(alloc, name, fault)),
        }
    }

    fn push(&mut self, alloc: Global, name: &[u8], file: ActionFile) -> Result<(), Mem>
        ensures { OnOk result (seen_actions self.new ≡ with_sections (seen_actions self.old) name.now (map seen_section file.sections)) }
    {
        let count = patterns_in(file.sections.as_slice())?;
        let Some(patterns) = self.patterns.checked_add(count) else {
            return Err(Mem);
        };
        self.files.add((Text::from_bytes(alloc, name)?, file))?;
        self.patterns = patterns;
        Ok(())
    }
}
