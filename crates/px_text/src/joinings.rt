// The lines of a file as far as they are joined.
ghost use Rattle.std.specs.Prelude.{◌≡◌, ◌+◌, ◌++◌, ◌∷◌, [], ◌<◌, ◌^◌, None, Some, IfErr, IfOk, OnOk};
ghost use Rattle.px_text.specs.Faults.{IsTextRefusal};
ghost use Rattle.px_text.specs.Joinings.{AddsPhysicalLine, IsFirst, IsJoining, IsLaterLine, IsNoted, RefusesLine, with_ended_line, fault_after, kept_line, lines_after, noted_not_text};

use crate::parts::{push_part, split_continuation};
use crate::{LINE_LIMIT, Line, TextFault};
use px_base::{List, Mem, Text, is_text, trim};
use std::alloc::Global;

/// The lines that are whole, and the one that is being joined.
#[derive(Drop)]
pub struct Joining {
    /// The whole lines, trimmed, empty ones left out.
    pub lines: List<Line>,
    /// What the physical lines since `number` add up to.
    pub text: Text,
    /// The first physical line of the line that is being joined.
    pub number: u32,
    /// The physical line that comes next.
    pub next: u32,
    /// The first physical line of the line that is being joined that isn't UTF-8.
    pub not_text: Option<u32>,
}

impl Joining {
    /// Before the first line.
    pub fn begin(alloc: Global) -> Joining
        ensures joining { IsJoining result }
        ensures next { result.next ≡ 1 }
        ensures first { IsFirst result }
    {
        Joining {
            lines: List::new(alloc),
            text: Text::new(alloc),
            number: 1,
            next: 1,
            not_text: None,
        }
    }

    /// Adds one physical line.
    pub fn add(&mut self, alloc: Global, line: &[u8]) -> Result<(), TextFault>
        requires joining { IsJoining self.old }
        requires next { self.old.next + 1 < 2 ^ 32 }
        ensures joining { OnOk result (IsJoining self.new) }
        ensures next { OnOk result (self.new.next ≡ self.old.next + 1) }
        ensures added { OnOk result (AddsPhysicalLine self.old line.now self.new) }
        ensures refused { IfErr result (RefusesLine self.old line.now) }
    {
        self.note(line)?;
        let (part, continued) = split_continuation(line);
        push_part(part, &mut self.text)?;
        if self.text.len() > LINE_LIMIT {
            return Err(TextFault::TooLong { line: self.number });
        }
        self.next += 1;
        if continued {
            return Ok(());
        }
        self.finish(alloc)?;
        Ok(())
    }

    /// The lines, where no physical line is left.
    pub fn end(mut self, alloc: Global) -> Result<List<Line>, TextFault>
        requires joining { IsJoining self }
        ensures lines { IfOk result (λ lines. lines ≡ lines_after self []) }
        ensures fault { OnOk result (fault_after self [] ≡ None) }
        ensures refused { IfErr result (IsTextRefusal (fault_after self [])) }
    {
        self.finish(alloc)?;
        Ok(self.lines)
    }

    /// Keeps in mind the first physical line of the joined line that isn't UTF-8. Where that is the line by which the
    /// joined line goes, no fault can come before it.
    fn note(&mut self, line: &[u8]) -> Result<(), TextFault>
        requires joining { IsJoining self.old }
        ensures noted { OnOk result (self.new ≡ record self.old { not_text = noted_not_text self.old line.now }) }
        ensures later { OnOk result (IsLaterLine self.old.number (self.old.next + 1) (noted_not_text self.old line.now)) }
        ensures refused { IfErr result (λ e. (e ≡ TextFault.NotText self.old.number) × (noted_not_text self.old line.now ≡ Some self.old.number)) }
    {
        if is_text(line) {
            return Ok(());
        }
        if self.next == self.number {
            return Err(TextFault::NotText { line: self.number });
        }
        if self.not_text.is_none() {
            self.not_text = Some(self.next);
        }
        Ok(())
    }

    /// Ends the line that is being joined, before the physical line that comes next.
    fn finish(&mut self, alloc: Global) -> Result<(), TextFault>
        ensures text { OnOk result (self.old.not_text ≡ None) }
        ensures ended { OnOk result (self.new ≡ with_ended_line self.old) }
        ensures refused { IfErr result (IsNoted self.old) }
    {
        if let Some(line) = self.not_text {
            return Err(TextFault::NotText { line });
        }
        keep(alloc, self.number, self.text.as_bytes(), &mut self.lines)?;
        self.text.clear();
        self.number = self.next;
        Ok(())
    }
}

/// Adds a joined line to the whole lines, trimmed and unless it is empty.
fn keep(alloc: Global, number: u32, text: &[u8], lines: &mut List<Line>) -> Result<(), Mem>
    ensures { OnOk result (lines.new ≡ lines.old ++ kept_line number text.now) }
{
    let text = trim(text);
    if text.is_empty() {
        return Ok(());
    }
    let line = Line {
        number,
        text: Text::from_bytes(alloc, text)?,
    };
    match lines.push(line) {
        Ok(()) => Ok(()),
        Err(_) => Err(Mem),
    }
}
