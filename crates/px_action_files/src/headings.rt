// The headings of blocks.
ghost use Rattle.std.specs.Prelude.{◌≡◌, Ok, Err, drop};
ghost use Rattle.px_action_files.specs.Files.{begins_open, between_ends, is_heading, block_named, heading_within, heading_of};
ghost use Rattle.px_action_files.specs.Readings.{seen_heading};
ghost use Rattle.px_base.specs.Results.{result_map};
ghost use Rattle.px_base.specs.Lists.{without_last};

use crate::faults::{BAD_BLOCK, OPEN_BRACE};
use px_actions::is_closed;
use px_base::{same_without_case, trim};
use px_text::Line;

/// What a heading begins.
#[derive(Clone, Copy)]
pub(crate) enum BlockHeading<'a> {
    Aliases,
    /// A block that has no effect.
    Ignored,
    /// A section of these words.
    Section(&'a [u8]),
}

impl BlockHeading<'_> {
    ghost use Rattle.std.specs.Prelude.{◌≡◌, List, [], Ok, if◌then◌else◌};
    ghost use Rattle.px_text.specs.declared.lines.Line.{Line};
    ghost use Rattle.px_action_files.specs.PatternLines.{patterns_under};
    ghost use Rattle.px_action_files.specs.Readings.{seen_heading};

    /// Whether the lines below are patterns.
    pub(crate) fn begins_section(&self) -> bool
        ensures { (body : List Line) → patterns_under (Ok (seen_heading self.now)) body ≡ (if result then body else []) }
    {
        match self {
            BlockHeading::Aliases => false,
            BlockHeading::Ignored => false,
            BlockHeading::Section(_) => true,
        }
    }
}

fn begins_open(text: &[u8]) -> bool
    ensures { result ≡ begins_open text.now }
{
    match text.split_first() {
        Some((byte, _)) => *byte == b'{',
        None => false,
    }
}

/// Whether a line begins with an open brace.
pub(crate) fn is_heading(line: &Line) -> bool
    ensures { result ≡ is_heading line.now }
{
    begins_open(line.text.as_bytes())
}

/// The block of a name in braces of its own, without case.
fn block_named(name: &[u8]) -> Result<BlockHeading<'static>, u8>
    ensures { result_map seen_heading result ≡ block_named name.now }
{
    if same_without_case(name, b"alias") {
        Ok(BlockHeading::Aliases)
    } else if same_without_case(name, b"settings") || same_without_case(name, b"description") {
        Ok(BlockHeading::Ignored)
    } else {
        Err(BAD_BLOCK)
    }
}

/// What stands between the braces of a heading: a name in braces of its own, or words.
fn heading_within(inner: &[u8]) -> Result<BlockHeading<'_>, u8>
    ensures { result_map seen_heading result ≡ heading_within inner.now }
{
    if !begins_open(inner) {
        return Ok(BlockHeading::Section(inner));
    }
    block_named(trim(without_last(behind_first(inner))))
}

/// Without the last byte.
fn without_last(text: &[u8]) -> &[u8]
    ensures { result.now ≡ without_last text.now }
{
    match text.split_last() {
        Some((_, rest)) => rest,
        None => text,
    }
}

/// Without the first byte.
fn behind_first(text: &[u8]) -> &[u8]
    ensures { result.now ≡ drop 1 text.now }
{
    match text.split_first() {
        Some((_, rest)) => rest,
        None => text,
    }
}

/// The heading of a text that begins with an open brace.
#[tactic(auto, unfolding(crate::specs::Files::heading_of))]
pub(crate) fn read_heading(text: &[u8]) -> Result<BlockHeading<'_>, u8>
    ensures { result_map seen_heading result ≡ heading_of text.now }
{
    let rest = behind_first(text);
    if is_closed(rest) {
        heading_within(without_last(rest))
    } else {
        Err(OPEN_BRACE)
    }
}
