// The pieces of a template as they are kept.
ghost use Rattle.std.specs.Prelude.{◌≡◌, ◌++◌, ◌∷◌, [], ◌-◌, ◌^◌, OnOk, length, min, option_map, unwrap_or};
ghost use Rattle.px_templates.specs.Pieces.{PiecePart, part_in, parts_behind, plain};
ghost use Rattle.px_templates.specs.Rendering.{escaped, escaped_byte, rendered, run_stands};
ghost use Rattle.px_templates.specs.Runs.{held_pieces};

use crate::conditions::Condition;
use crate::symbols::{Symbol, Symbols};
use px_base::{Mem, Text};
use std::alloc::Global;

/// Bytes that stand together, or the value of a symbol.
#[derive(Drop)]
pub(crate) enum RunContent {
    Bytes(Text),
    Value(Symbol),
}

/// A content, and the condition of the block that it stands in, if it stands in one.
#[derive(Drop)]
pub(crate) struct TemplateRun {
    pub(crate) condition: Option<Condition>,
    pub(crate) content: RunContent,
}

/// Adds bytes as they are.
#[tactic(auto, unfolding(crate::specs::Runs::held_pieces))]
pub(crate) fn push_bytes(
    alloc: Global,
    condition: Option<Condition>,
    bytes: &[u8],
    runs: &mut Vec<TemplateRun>,
) -> Result<(), Mem>
    ensures { OnOk result (held_pieces runs.new.items ≡ held_pieces runs.old.items ++ plain condition bytes.now) }
{
    if bytes.is_empty() {
        return Ok(());
    }
    runs.push(TemplateRun {
        condition,
        content: RunContent::Bytes(Text::from_bytes(alloc, bytes)?),
    })?;
    Ok(())
}

/// Adds the value of a symbol.
#[tactic(auto, unfolding(crate::specs::Runs::held_pieces))]
pub(crate) fn push_value(
    condition: Option<Condition>,
    symbol: Symbol,
    runs: &mut Vec<TemplateRun>,
) -> Result<(), Mem>
    ensures { OnOk result (held_pieces runs.new.items ≡ held_pieces runs.old.items ++ part_in condition (PiecePart.value symbol) ∷ []) }
{
    runs.push(TemplateRun {
        condition,
        content: RunContent::Value(symbol),
    })?;
    Ok(())
}

/// Adds the bytes and the symbols of a text in which no block begins.
pub(crate) fn push_parts(
    alloc: Global,
    condition: Option<Condition>,
    text: &[u8],
    runs: &mut Vec<TemplateRun>,
) -> Result<(), Mem>
    ensures { OnOk result (held_pieces runs.new.items ≡ held_pieces runs.old.items ++ parts_behind condition 0 text.now) }
{
    let mut from = 0;
    let mut at = 0;
    'parts: while at < text.len() {
        match Symbol::at(&text[at..]) {
            None => at += 1,
            Some(symbol) => {
                push_bytes(alloc, condition, &text[from..at], runs)?;
                push_value(condition, symbol, runs)?;
                at += symbol.mark().len();
                from = at;
            }
        }
    }
    push_bytes(alloc, condition, &text[from..], runs)
}

impl TemplateRun {
    ghost use Rattle.px_templates.specs.Runs.{run_pieces};

    /// Adds what the run gives with these values.
    pub(crate) fn write(&self, symbols: &Symbols, out: &mut Text) -> Result<(), Mem>
        ensures { OnOk result (out.new ≡ out.old ++ rendered symbols.now (run_pieces self.now)) }
    {
        if !self.stands(symbols) {
            return Ok(());
        }
        match &self.content {
            RunContent::Bytes(bytes) => out.push_all(bytes.as_bytes()),
            RunContent::Value(symbol) => push_escaped(symbols.value(*symbol), out),
        }
    }

    /// How many bytes the run gives with these values, up to the greatest `usize`.
    pub(crate) fn room(&self, symbols: &Symbols) -> usize
        ensures { result ≡ min (length (rendered symbols.now (run_pieces self.now))) (2 ^ 64 - 1) }
    {
        if !self.stands(symbols) {
            return 0;
        }
        match &self.content {
            RunContent::Bytes(bytes) => bytes.len(),
            RunContent::Value(symbol) => escaped_room(symbols.value(*symbol)),
        }
    }

    /// Whether the block that the run stands in stands, if it stands in one.
    fn stands(&self, symbols: &Symbols) -> bool
        ensures { result ≡ run_stands symbols.now self.now.condition }
    {
        match self.condition {
            Some(condition) => condition.holds(symbols),
            None => true,
        }
    }
}

/// Adds a value as it stands in HTML.
#[tactic(auto, unfolding(crate::specs::Rendering::escaped))]
fn push_escaped(value: &[u8], out: &mut Text) -> Result<(), Mem>
    ensures { OnOk result (out.new ≡ out.old ++ escaped value.now) }
{
    for byte in value {
        match escape(*byte) {
            Some(escape) => out.push_all(escape)?,
            None => out.push(*byte)?,
        }
    }
    Ok(())
}

/// How many bytes a value takes in HTML, up to the greatest `usize`.
fn escaped_room(value: &[u8]) -> usize
    ensures { result ≡ min (length (escaped value.now)) (2 ^ 64 - 1) }
{
    let mut room: usize = 0;
    for byte in value {
        room = room.saturating_add(escaped_len(*byte));
    }
    room
}

fn escaped_len(byte: u8) -> usize
    ensures { result ≡ length (escaped_byte byte) }
{
    match escape(byte) {
        Some(escape) => escape.len(),
        None => 1,
    }
}

/// What a byte is written as in HTML, where that isn't itself.
fn escape(byte: u8) -> Option<&'static [u8]>
    ensures { unwrap_or (option_map (λ e. e.now) result) (byte ∷ []) ≡ escaped_byte byte }
{
    match byte {
        b'&' => Some(b"&amp;"),
        b'<' => Some(b"&lt;"),
        b'>' => Some(b"&gt;"),
        b'"' => Some(b"&quot;"),
        _ => None,
    }
}
