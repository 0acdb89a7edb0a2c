// Actions files.
ghost use Rattle.std.specs.Prelude.{◌≡◌, ◌≤◌, [], length, map, option_map, slice_get, Ok, IfErr, IfOk, OnOk};
ghost use Rattle.std.specs.List.{position_or_len};
ghost use Rattle.px_action_files.specs.Faults.{IsReported};
ghost use Rattle.px_text.specs.declared.lines.Line.{Line};
ghost use Rattle.px_action_files.specs.Files.{file_sections, cut, heading_of, is_heading};
ghost use Rattle.px_action_files.specs.PatternLines.{pattern_lines, patterns_under};
ghost use Rattle.px_action_files.specs.Meanings.{seen_section};

use crate::faults::{FileFault, PATTERN_BEFORE_SECTION};
use crate::headings::{is_heading, read_heading};
use crate::readings::FileReading;
use crate::sections::Section;
use px_base::List;
use px_text::Line;
use std::alloc::Global;

/// The sections of an actions file, in their order.
#[derive(Drop)]
pub struct ActionFile {
    pub sections: List<Section>,
}

impl ActionFile {
    /// Reads the lines of an actions file. The refusal at the first line that has one is answered.
    ///
    /// A line that begins with `{` is a heading. `{{alias}}`, `{{settings}}` and `{{description}}` begin blocks; the
    /// lines of the latter two have no effect. Any other heading begins a section: its words stand between its braces,
    /// and the lines below it are patterns. Aliases are seen in their own file alone.
    pub fn read(alloc: Global, lines: &[Line]) -> Result<ActionFile, FileFault>
        ensures sections { IfOk result (λ file. file_sections lines.now ≡ Ok (map seen_section file.sections)) }
        ensures refused { IfErr result (IsReported (file_sections lines.now)) }
    {
        let mut reading = FileReading::begin(alloc);
        let mut rest = without_front(lines)?;
        'headings: while let Some((heading, others)) = rest.split_first() {
            let (body, later) = split_body(others);
            match reading.add(alloc, heading, body) {
                Ok(()) => {}
                Err(fault) => return Err(fault),
            }
            rest = later;
        }
        Ok(ActionFile {
            sections: reading.sections,
        })
    }

    /// The number of the line of a file's pattern number `n`, from 0, if its lines have so many patterns.
    pub fn line_of_pattern(lines: &[Line], n: usize) -> Option<u32>
        ensures { result ≡ option_map (λ (l : Line). l.number) (slice_get (pattern_lines lines.now) n) }
    {
        let (_, mut rest) = split_body(lines);
        let mut left = n;
        'headings: while let Some((heading, others)) = rest.split_first() {
            let (body, later) = split_body(others);
            let patterns = patterns_under(heading, body);
            if left < patterns.len() {
                return Some(patterns[left].number);
            }
            left -= patterns.len();
            rest = later;
        }
        None
    }
}

/// The lines below a heading that are patterns: all of them where it begins a section, else none.
fn patterns_under<'l>(heading: &Line, body: &'l [Line]) -> &'l [Line]
    ensures { result.now ≡ patterns_under (heading_of heading.now.text) body.now }
{
    match read_heading(heading.text.as_bytes()) {
        Ok(headed) => { if headed.begins_section() { body } else { &[] } }
        Err(_) => &[],
    }
}

/// The lines, where no line stands before the first heading.
#[tactic(auto, unfolding(crate::specs::Files::file_sections))]
fn without_front(lines: &[Line]) -> Result<&[Line], FileFault>
    ensures same { IfOk result (λ rest. rest.now ≡ lines.now) }
    ensures front { OnOk result ((cut lines.now).front ≡ []) }
    ensures refused { IfErr result (IsReported (file_sections lines.now)) }
{
    match lines.split_first() {
        Some((line, _)) => {
            if is_heading(line) {
                Ok(lines)
            } else {
                Err(FileFault::At {
                    line: line.number,
                    number: PATTERN_BEFORE_SECTION,
                })
            }
        }
        None => Ok(lines),
    }
}

/// The lines up to the next heading, and the lines from it on.
#[tactic(auto, using(crate::proofs::CutLemmas::cut_laws))]
fn split_body(lines: &[Line]) -> (&[Line], &[Line])
    ensures body { result.0.now ≡ (cut lines.now).front }
    ensures later { (cut result.1.now).blocks ≡ (cut lines.now).blocks }
    ensures front { (cut result.1.now).front ≡ [] }
    ensures shorter { length result.1.now ≤ length lines.now }
{
    lines.split_at(body_length(lines))
}

/// How many lines stand before the next heading.
fn body_length(lines: &[Line]) -> usize
    ensures value { result ≡ position_or_len is_heading lines.now }
    ensures within { result ≤ length lines.now }
{
    let mut rest = lines;
    let mut len = 0;
    'lines: while let Some((line, others)) = rest.split_first() {
        if is_heading(line) {
            return len;
        }
        rest = others;
        len += 1;
    }
    len
}
