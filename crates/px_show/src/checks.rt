// What a check of a configuration prints.
ghost use Rattle.std.specs.Prelude.{◌≡◌, ◌++◌, IfOk, OnOk};
ghost use Rattle.px_show.specs.Showing.{checked, count_line, shown_count, file_counts, filter_counts, note_line, note_lines, pattern_counts};

use crate::places::push_place;
use itoa::Buffer;
use px_base::{Mem, Text};
use px_config::{Config, Note};
use px_filter_files::FilterCounts;
use px_merge::SectionCounts;
use std::alloc::Global;

/// A line for each note, and then the numbers of files, sections, patterns and filters.
#[tactic(auto, unfolding(crate::specs::Showing::checked))]
pub fn check(alloc: Global, config: &Config) -> Result<Text, Mem>
    ensures { IfOk result (λ text. text ≡ checked config.now) }
{
    let mut out = Text::new(alloc);
    push_notes(config.notes.as_slice(), &mut out)?;
    push_counts(config, &mut out)?;
    Ok(out)
}

#[tactic(auto, unfolding(crate::specs::Showing::note_lines))]
fn push_notes(notes: &[Note], out: &mut Text) -> Result<(), Mem>
    ensures { OnOk result (out.new ≡ out.old ++ note_lines notes.now) }
{
    let mut rest = notes;
    'notes: while let Some((note, others)) = rest.split_first() {
        push_note(note, out)?;
        rest = others;
    }
    Ok(())
}

fn push_note(note: &Note, out: &mut Text) -> Result<(), Mem>
    ensures { OnOk result (out.new ≡ out.old ++ note_line note.now) }
{
    push_place(note.file.as_bytes(), note.line, out)?;
    out.push_all(b": note: ")?;
    out.push_all(note.text.as_bytes())?;
    out.push(b'\n')
}

/// Adds a number and what it counts.
#[tactic(auto, unfolding(crate::specs::Showing::shown_count))]
fn push_count(count: u32, what: &[u8], out: &mut Text) -> Result<(), Mem>
    ensures { OnOk result (out.new ≡ out.old ++ shown_count count what.now) }
{
    out.push_all(Buffer::new().format(count).as_bytes())?;
    out.push_all(what)
}

fn push_counts(config: &Config, out: &mut Text) -> Result<(), Mem>
    ensures { OnOk result (out.new ≡ out.old ++ count_line config.now) }
{
    let sections = config.sections.counts();
    push_file_counts(sections, out)?;
    push_pattern_counts(sections, out)?;
    push_filter_counts(config.filters.counts(), out)
}

#[tactic(auto, unfolding(crate::specs::Showing::file_counts))]
fn push_file_counts(counts: SectionCounts, out: &mut Text) -> Result<(), Mem>
    ensures { OnOk result (out.new ≡ out.old ++ file_counts counts.files) }
{
    out.push_all(b"ok: ")?;
    push_count(counts.files, b" action files, ", out)
}

#[tactic(auto, unfolding(crate::specs::Showing::pattern_counts))]
fn push_pattern_counts(counts: SectionCounts, out: &mut Text) -> Result<(), Mem>
    ensures { OnOk result (out.new ≡ out.old ++ pattern_counts counts.sections counts.patterns) }
{
    push_count(counts.sections, b" sections, ", out)?;
    push_count(counts.patterns, b" patterns, ", out)
}

#[tactic(auto, unfolding(crate::specs::Showing::filter_counts))]
fn push_filter_counts(counts: FilterCounts, out: &mut Text) -> Result<(), Mem>
    ensures { OnOk result (out.new ≡ out.old ++ filter_counts counts.files counts.filters) }
{
    push_count(counts.files, b" filter files, ", out)?;
    push_count(counts.filters, b" filters\n", out)
}
