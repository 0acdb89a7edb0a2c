// The files of the job.
ghost use Rattle.std.specs.Prelude.{◌≡◌, ◌++◌, IfOk, OnOk, OnErr};
ghost use Rattle.px_generated.specs.Draws.{after_draws};
ghost use Rattle.px_generated.specs.Files.{files_from, files_with, host_and_path, section, section_from, sections, update_of};

use crate::Draws;
use itoa::Buffer;
use px_base::{List, Mem, Text};
use std::alloc::Global;

/// The name of the main file.
pub const MAIN_FILE: &str = "config";

/// How many sections the actions file has.
const SECTIONS: usize = 1_000;

/// The files of a job that begins with the next draw: names and contents, the main file first. After `Mem` the draws are
/// as they were.
#[tactic(auto, unfolding(crate::specs::Files::files_from))]
pub fn job_files(alloc: Global, draws: &mut Draws) -> Result<List<(Text, Text)>, Mem>
    ensures files { IfOk result (λ files. files ≡ files_from draws.old) }
    ensures draws { OnOk result (draws.new ≡ after_draws 3000 draws.old) }
    ensures err { OnErr result (draws.new ≡ draws.old) }
{
    let mut ahead = *draws;
    let mut actions = Text::new(alloc);
    push_sections(&mut actions, &mut ahead)?;
    let files = named_files(alloc, actions)?;
    *draws = ahead;
    Ok(files)
}

/// The files with their names, where the actions file has this text.
#[tactic(auto, unfolding(crate::specs::Files::files_with, crate::specs::Files::main_text, crate::specs::Files::filter_text))]
fn named_files(alloc: Global, actions: Text) -> Result<List<(Text, Text)>, Mem>
    ensures { IfOk result (λ files. files ≡ files_with actions) }
{
    let mut files = List::with_capacity(alloc, 3)?;
    files.add((
        Text::from_bytes(alloc, MAIN_FILE.as_bytes())?,
        Text::from_bytes(
            alloc,
            b"actionsfile generated.action\nfilterfile generated.filter\n",
        )?,
    ))?;
    files.add((Text::from_bytes(alloc, b"generated.action")?, actions))?;
    files.add((
        Text::from_bytes(alloc, b"generated.filter")?,
        Text::from_bytes(alloc, b"FILTER: f gen\ns/a/b/g\n")?,
    ))?;
    Ok(files)
}

/// Adds all sections.
#[tactic(auto, using(std::proofs::lemmas::Grind::common_steps, crate::proofs::StepLemmas::sections_none, crate::proofs::StepLemmas::sections_more, crate::proofs::DrawLemmas::after_draws_none, crate::proofs::DrawLemmas::three_more))]
fn push_sections(out: &mut Text, draws: &mut Draws) -> Result<(), Mem>
    ensures text { OnOk result (out.new ≡ out.old ++ sections 1000 draws.old) }
    ensures draws { OnOk result (draws.new ≡ after_draws 3000 draws.old) }
{
    'sections: for _ in 0..SECTIONS {
        push_drawn_section(out, draws)?;
    }
    Ok(())
}

/// Adds the section that the next three draws make.
#[tactic(auto, unfolding(crate::specs::Files::section_from, crate::specs::Draws::after_draws))]
fn push_drawn_section(out: &mut Text, draws: &mut Draws) -> Result<(), Mem>
    ensures text { OnOk result (out.new ≡ out.old ++ section_from draws.old) }
    ensures draws { draws.new ≡ after_draws 3 draws.old }
{
    let host = draws.draw(100);
    let path = draws.draw(50);
    let kind = draws.draw(5);
    push_section(out, host, path, kind)
}

/// Adds a section of one update and one pattern.
#[tactic(auto, unfolding(crate::specs::Files::section))]
fn push_section(out: &mut Text, host: u32, path: u32, kind: u32) -> Result<(), Mem>
    ensures { OnOk result (out.new ≡ out.old ++ section host path kind) }
{
    out.push_all(b"{")?;
    out.push_all(update(kind))?;
    out.push_all(b"}\n.")?;
    push_place(out, host, path)?;
    out.push_all(b"\n")
}

/// The update that a number from 0 to 4 stands for.
#[tactic(auto, unfolding(crate::specs::Files::update_of))]
fn update(kind: u32) -> &'static [u8]
    ensures { result.now ≡ update_of kind }
{
    match kind {
        0 => b"+block{b}",
        1 => b"+filter{f}",
        2 => b"-filter{f}",
        3 => b"+crunch-incoming-cookies",
        _ => b"-block",
    }
}

/// Adds a host and a path, with their numbers in decimal.
#[tactic(auto, unfolding(crate::specs::Files::host_and_path))]
pub fn push_place(out: &mut Text, host: u32, path: u32) -> Result<(), Mem>
    ensures { OnOk result (out.new ≡ out.old ++ host_and_path host path) }
{
    out.push_all(b"h")?;
    out.push_all(Buffer::new().format(host).as_bytes())?;
    out.push_all(b".test/p")?;
    out.push_all(Buffer::new().format(path).as_bytes())
}
