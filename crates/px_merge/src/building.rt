// Sections taken out of their files.
ghost use Rattle.std.specs.Prelude.{◌≡◌, ◌+◌, ◌++◌, IfOk, OnOk, length, map};
ghost use Rattle.px_merge.specs.Merged.{names_of, pattern_count, placed, sections_from};

use crate::places::{Placed, SectionCounts};
use px_action_files::{ActionFile, Section};
use px_base::{List, Mem, Text};

/// Adds the sections of a file.
fn add_sections(number: u32, sections: List<Section>, all: &mut Vec<Placed>) -> Result<(), Mem>
    ensures { OnOk result (all.new.items ≡ all.old.items ++ map (placed number) sections) }
{
    let mut rest = sections.into_vec().into_iter();
    'sections: while let Some(section) = rest.next() {
        all.push(Placed {
            file: number,
            section,
        })?;
    }
    Ok(())
}

/// Adds the names of files and their sections.
pub fn add_files(
    files: List<(Text, ActionFile)>,
    names: &mut Vec<Text>,
    all: &mut Vec<Placed>,
) -> Result<(), Mem>
    ensures names { OnOk result (names.new.items ≡ names.old.items ++ names_of files) }
    ensures sections { OnOk result (all.new.items ≡ all.old.items ++ sections_from 0 files) }
{
    let mut number = 0u32;
    let mut rest = files.into_vec().into_iter();
    'files: while let Some(file) = rest.next() {
        let (name, file) = file;
        names.push(name)?;
        add_sections(number, file.sections, all)?;
        number = next(number)?;
    }
    Ok(())
}

/// The next number of a file.
fn next(number: u32) -> Result<u32, Mem>
    ensures { IfOk result (λ n. n ≡ number + 1) }
{
    match number.checked_add(1) {
        Some(next) => Ok(next),
        None => Err(Mem),
    }
}

/// A count, where it is below 2^32.
fn as_count(count: usize) -> Result<u32, Mem>
    ensures { IfOk result (λ n. n ≡ count) }
{
    if count > u32::MAX as usize {
        return Err(Mem);
    }
    Ok(count as u32)
}

/// How many patterns stand in sections.
fn count_patterns(sections: &[Placed]) -> Result<usize, Mem>
    ensures { IfOk result (λ count. count ≡ pattern_count sections.now) }
{
    let mut count = 0usize;
    let mut rest = sections;
    'sections: while let Some((placed, others)) = rest.split_first() {
        match count.checked_add(placed.section.patterns.len()) {
            Some(more) => count = more,
            None => return Err(Mem),
        }
        rest = others;
    }
    Ok(count)
}

/// How many files, sections and patterns there are, where each is below 2^32.
pub fn counts_of(names: &[Text], sections: &[Placed]) -> Result<SectionCounts, Mem>
    ensures files { IfOk result (λ counts. counts.files ≡ length names.now) }
    ensures sections { IfOk result (λ counts. counts.sections ≡ length sections.now) }
    ensures patterns { IfOk result (λ counts. counts.patterns ≡ pattern_count sections.now) }
{
    let patterns = count_patterns(sections)?;
    Ok(SectionCounts {
        files: as_count(names.len())?,
        sections: as_count(sections.len())?,
        patterns: as_count(patterns)?,
    })
}
