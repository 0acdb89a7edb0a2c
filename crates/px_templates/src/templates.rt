// Templates of pages.
ghost use Rattle.std.specs.Prelude.{◌≡◌, ◌-◌, ◌^◌, ◌≤◌, length, min, None, IfErr, IfOk, OnOk};
ghost use Rattle.px_templates.specs.Faults.{IsAt};
ghost use Rattle.px_templates.specs.Lines.{assembled};
ghost use Rattle.px_templates.specs.Pieces.{line_at, open_line, pieces_of};
ghost use Rattle.px_templates.specs.Rendering.{rendered};
ghost use Rattle.px_templates.specs.Runs.{held_pieces};

use crate::assembling::assemble;
use crate::faults::TemplateFault;
use crate::fronts::TemplateFront;
use crate::runs::{TemplateRun, push_bytes, push_parts, push_value};
use crate::symbols::Symbols;
use px_base::{Mem, Text};
use std::alloc::Global;
use std::marker::Model;

/// The template of a page, seen as its pieces (Privoxy's manual, "Privoxy's Template Files").
#[derive(Drop)]
pub struct Template {
    runs: Vec<TemplateRun>,
}

impl Model for Template {
    ghost use Rattle.std.specs.Prelude.{List};
    ghost use Rattle.px_templates.specs.Pieces.{Piece};
    ghost use Rattle.px_templates.specs.Runs.{held_pieces};

    ghost Value = { List Piece };

    ghost view = { λ t. held_pieces t.runs.items };
}

impl Template {
    /// Reads a template. Lines that begin with `#` are left out; a line `#include NAME` stands for the first text of that
    /// name in `includes`, without its own lines that begin with `#`, and for nothing where there is none. Then come bytes,
    /// `@name@` for each symbol, and blocks from `@if-block-reason-start` to the first `if-block-reason-end@` behind it, and
    /// likewise for `parent`. A block that isn't ended is refused.
    pub fn read(
        alloc: Global,
        text: &[u8],
        includes: &[(Text, Text)],
    ) -> Result<Template, TemplateFault>
        ensures pieces { IfOk result (λ template. template ≡ pieces_of (assembled includes.now text.now)) }
        ensures ended { OnOk result (open_line (assembled includes.now text.now) ≡ None) }
        ensures refused { IfErr result (IsAt (open_line (assembled includes.now text.now))) }
    {
        let text = assemble(alloc, text, includes)?;
        let runs = read_runs(alloc, text.as_bytes())?;
        Ok(Template { runs })
    }

    /// The page with these values. In a value `&`, `<`, `>` and `"` are escaped, and it isn't searched for symbols. A block
    /// is left out where its value is empty.
    #[tactic(auto, unfolding(crate::specs::Rendering::rendered, crate::specs::Runs::held_pieces))]
    pub fn render(&self, alloc: Global, symbols: &Symbols) -> Result<Text, Mem>
        ensures { IfOk result (λ page. page ≡ rendered symbols.now self.now) }
    {
        let mut page = Text::with_capacity(alloc, self.room(symbols))?;
        for run in self.runs.as_slice() {
            run.write(symbols, &mut page)?;
        }
        Ok(page)
    }

    /// How many bytes the page has, up to the greatest `usize`.
    fn room(&self, symbols: &Symbols) -> usize
        ensures { result ≡ min (length (rendered symbols.now self.now)) (2 ^ 64 - 1) }
    {
        let mut room: usize = 0;
        for run in self.runs.as_slice() {
            room = room.saturating_add(run.room(symbols));
        }
        room
    }
}

/// The pieces of a text.
fn read_runs(alloc: Global, text: &[u8]) -> Result<Vec<TemplateRun>, TemplateFault>
    ensures pieces { IfOk result (λ runs. held_pieces runs.items ≡ pieces_of text.now) }
    ensures ended { OnOk result (open_line text.now ≡ None) }
    ensures refused { IfErr result (IsAt (open_line text.now)) }
{
    let mut runs = Vec::new(alloc);
    let mut from = 0;
    let mut at = 0;
    'fronts: while at < text.len() {
        match TemplateFront::at(&text[at..]) {
            TemplateFront::Byte => at += 1,
            TemplateFront::Value(symbol) => {
                push_bytes(alloc, None, &text[from..at], &mut runs)?;
                push_value(None, symbol, &mut runs)?;
                at += symbol.mark().len();
                from = at;
            }
            TemplateFront::Block(condition, len) => {
                push_bytes(alloc, None, &text[from..at], &mut runs)?;
                let begin = at + condition.start().len();
                push_parts(alloc, Some(condition), &text[begin..begin + len], &mut runs)?;
                at = begin + len + condition.end().len();
                from = at;
            }
            TemplateFront::Open => {
                return Err(TemplateFault::OpenCondition {
                    line: line_at(text, at),
                });
            }
        }
    }
    push_bytes(alloc, None, &text[from..], &mut runs)?;
    Ok(runs)
}

/// The number of the line in which a place lies.
fn line_at(text: &[u8], at: usize) -> u32
    requires { at ≤ length text.now }
    ensures { result ≡ line_at text.now at }
{
    let before = text[..at].iter().filter(|byte| **byte == b'\n').count();
    if before < u32::MAX as usize {
        before as u32 + 1
    } else {
        u32::MAX
    }
}
