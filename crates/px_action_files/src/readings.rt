// Reading the blocks of a file one after another.
use crate::alias_tables::AliasTable;
use crate::aliases::read_aliases;
use crate::faults::{FileFault, LATE_ALIAS_BLOCK, SECOND_ALIAS_BLOCK};
use crate::headings::{BlockHeading, read_heading};
use crate::section_readings::read_section;
use crate::sections::Section;
use px_base::List;
use px_text::Line;
use std::alloc::Global;

/// The most updates for which the aliases and the sections of a file may stand; more are want of memory. A file of
/// 1,048,576 bytes has fewer updates of its own, since the shortest word and the white space behind it take seven bytes.
/// Without this bound a chain of aliases, each of which names the one before twice, would take memory that doubles with
/// each line.
const MOST_UPDATES: usize = 262_144;

/// What the blocks of a file gave so far.
#[derive(Drop)]
pub struct FileReading {
    /// Whether the alias block came.
    pub aliases_came: bool,
    pub known: AliasTable,
    pub sections: List<Section>,
    /// How many updates the blocks to come may stand for.
    pub room: usize,
}

impl FileReading {
    ghost use Rattle.std.specs.Prelude.{◌≡◌, ◌==◌, [], Ok, false, IfErr, IfOk, OnOk, not, length, map};
    ghost use Rattle.px_action_files.specs.Faults.{IsReported};
    ghost use Rattle.px_action_files.specs.Files.{lines_under, after_block, after_heading, alias_block_of, section_of};
    ghost use Rattle.px_action_files.specs.Meanings.{seen_alias, seen_section};
    ghost use Rattle.px_action_files.specs.Readings.{seen_heading, seen_reading};

    /// No block came.
    pub(crate) fn begin(alloc: Global) -> FileReading
        ensures came { result.aliases_came ≡ false }
        ensures known { result.known ≡ [] }
        ensures sections { result.sections ≡ [] }
    {
        FileReading {
            aliases_came: false,
            known: AliasTable::new(alloc),
            sections: List::new(alloc),
            room: MOST_UPDATES,
        }
    }

    /// Reads one more block: a heading, and the lines up to the next heading.
    #[tactic(auto, unfolding(crate::specs::Files::after_block))]
    pub(crate) fn add(
        &mut self,
        alloc: Global,
        heading: &Line,
        body: &[Line],
    ) -> Result<(), FileFault>
        ensures added { OnOk result (after_block (seen_reading self.old) (lines_under heading.now body.now) ≡ Ok (seen_reading self.new)) }
        ensures refused { IfErr result (IsReported (after_block (seen_reading self.old) (lines_under heading.now body.now))) }
    {
        match read_heading(heading.text.as_bytes()) {
            Ok(headed) => self.add_headed(alloc, heading.number, body, headed),
            Err(number) => Err(FileFault::At {
                line: heading.number,
                number,
            }),
        }
    }

    #[tactic(auto, using(crate::proofs::ResultLemmas::reported_map, std::proofs::lemmas::List::map_push))]
    fn add_headed(
        &mut self,
        alloc: Global,
        line: u32,
        body: &[Line],
        headed: BlockHeading<'_>,
    ) -> Result<(), FileFault>
        ensures added { OnOk result (after_heading (seen_reading self.old) line body.now (seen_heading headed.entry) ≡ Ok (seen_reading self.new)) }
        ensures refused { IfErr result (IsReported (after_heading (seen_reading self.old) line body.now (seen_heading headed.entry))) }
    {
        match headed {
            BlockHeading::Aliases => {
                let aliases = self.alias_block(alloc, line, body)?;
                self.room = self.room.saturating_sub(aliases.update_count());
                self.known = aliases;
                self.aliases_came = true;
                Ok(())
            }
            BlockHeading::Ignored => Ok(()),
            BlockHeading::Section(words) => {
                let section = read_section(alloc, &self.known, words, line, body, self.room)?;
                self.room = self.room.saturating_sub(section.updates.len());
                self.sections.add(section)?;
                Ok(())
            }
        }
    }

    /// The aliases of an alias block, which is the only one and stands before the first section.
    #[tactic(auto, unfolding(crate::specs::Files::alias_block_of))]
    fn alias_block(&self, alloc: Global, line: u32, body: &[Line]) -> Result<AliasTable, FileFault>
        ensures aliases { IfOk result (λ known. alias_block_of (seen_reading self.now) line body.now ≡ Ok (map seen_alias known)) }
        ensures refused { IfErr result (IsReported (alias_block_of (seen_reading self.now) line body.now)) }
    {
        if self.aliases_came {
            return Err(FileFault::At {
                line,
                number: SECOND_ALIAS_BLOCK,
            });
        }
        if self.has_sections() {
            return Err(FileFault::At {
                line,
                number: LATE_ALIAS_BLOCK,
            });
        }
        read_aliases(alloc, body, self.room)
    }

    fn has_sections(&self) -> bool
        ensures { result ≡ not (length (seen_reading self.now).sections == 0) }
    {
        !self.sections.is_empty()
    }
}
