// Reading a section: the words of its heading, and the lines below it.
ghost use Rattle.std.specs.Prelude.{◌≡◌, map, Ok, IfErr, IfOk};
ghost use Rattle.px_action_files.specs.Faults.{IsReported};
ghost use Rattle.px_action_files.specs.Files.{section_of};
ghost use Rattle.px_action_files.specs.Meanings.{seen_alias, seen_section};

use crate::alias_tables::AliasTable;
use crate::faults::FileFault;
use crate::patterns::read_patterns;
use crate::sections::Section;
use crate::words::read_words;
use px_text::Line;
use std::alloc::Global;

/// The section of a heading's words, which stand for at most so many updates, and of the lines below it.
#[tactic(auto, using(crate::proofs::ResultLemmas::reported_map, crate::proofs::ResultLemmas::word_reported, crate::proofs::ResultLemmas::reported_then), unfolding(crate::specs::Files::section_of))]
pub(crate) fn read_section(
    alloc: Global,
    known: &AliasTable,
    words: &[u8],
    line: u32,
    body: &[Line],
    most: usize,
) -> Result<Section, FileFault>
    ensures section { IfOk result (λ s. section_of (map seen_alias known.now) words.now line body.now ≡ Ok (seen_section s)) }
    ensures refused { IfErr result (IsReported (section_of (map seen_alias known.now) words.now line body.now)) }
{
    match read_words(alloc, known, words, most) {
        Ok(updates) => {
            let patterns = read_patterns(alloc, body)?;
            Ok(Section {
                line,
                updates,
                patterns,
            })
        }
        Err(fault) => Err(FileFault::of_word(line, fault)),
    }
}
