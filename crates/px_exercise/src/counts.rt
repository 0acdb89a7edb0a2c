// What the five lines count, and how they are spelled.
ghost use Rattle.std.specs.Prelude.{◌≡◌, ◌++◌, IfOk, OnOk, codes};
ghost use Rattle.px_exercise.specs.Counts.{ending_count, is_blocked, is_filtered, is_passed, named_count, lines};

use crate::runs::Total;
use itoa::Buffer;
use px_base::{Mem, Text};
use px_notes::{Ending, ExchangeNote};
use px_templates::Page;
use std::alloc::Global;

/// Whether the page of a block was returned.
fn is_blocked(ending: Ending) -> bool
    ensures { result ≡ is_blocked ending }
{
    ending == Ending::Page(Page::Blocked)
}

/// How many exchanges were blocked.
fn count_blocked(notes: &[ExchangeNote]) -> usize
    ensures { result ≡ ending_count is_blocked notes.now }
{
    notes.iter().filter(|note| is_blocked(note.ending)).count()
}

/// How many answers were returned filtered.
fn count_filtered(notes: &[ExchangeNote]) -> usize
    ensures { result ≡ ending_count is_filtered notes.now }
{
    notes
        .iter()
        .filter(|note| note.ending == Ending::Filtered)
        .count()
}

/// How many answers were returned unfiltered with their bodies.
fn count_passed(notes: &[ExchangeNote]) -> usize
    ensures { result ≡ ending_count is_passed notes.now }
{
    notes
        .iter()
        .filter(|note| note.ending == Ending::Passed)
        .count()
}

/// Adds a name and a number, ended by LF.
fn push_line(out: &mut Text, name: &str, number: u128) -> Result<(), Mem>
    ensures { OnOk result (out.new ≡ out.old ++ named_count name.now number) }
{
    out.push_all(name.as_bytes())?;
    out.push_all(b" ")?;
    out.push_all(Buffer::new().format(number).as_bytes())?;
    out.push_all(b"\n")
}

/// The five lines of a job.
#[tactic(auto, unfolding(crate::specs::Counts::lines))]
pub fn print_lines(alloc: Global, total: &Total) -> Result<Text, Mem>
    ensures { IfOk result (λ text. text ≡ lines total.now) }
{
    let notes = total.notes.as_slice();
    let mut text = Text::new(alloc);
    push_line(&mut text, "requests", notes.len() as u128)?;
    push_line(&mut text, "blocked", count_blocked(notes) as u128)?;
    push_line(&mut text, "filtered", count_filtered(notes) as u128)?;
    push_line(&mut text, "passed", count_passed(notes) as u128)?;
    push_line(&mut text, "returned", total.returned)?;
    Ok(text)
}
