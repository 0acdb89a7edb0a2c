// The command `exercise`.
ghost use Rattle.std.specs.Prelude.{◌≡◌, IfErr, IfOk, Ok, true};
ghost use Rattle.px_base.specs.Folders.{holds};
ghost use Rattle.px_config.specs.Faults.{IsFault};
ghost use Rattle.px_config.specs.Spelling.{seen_config};
ghost use Rattle.px_exercise.specs.Exercises.{Exercises, IsExerciseFault, spelled_by};

use crate::ExerciseFault;
use crate::counts::print_lines;
use crate::runs::run_all;
use px_base::{Files, List, Mem, MemFiles, Text};
use px_config::{Config, LoadFault, load};
use px_generated::{GeneratedJob, MAIN_FILE};
use px_ways::Way;
use std::alloc::Global;
use std::thread::Threads;

/// Files in memory that stay as they are.
fn mem_files(alloc: Global, files: List<(Text, Text)>) -> Result<MemFiles, Mem>
    ensures tells { IfOk result (λ made. (⟦<MemFiles as Files>⟧.state made).tells ≡ true) }
    ensures contents { IfOk result (λ made. (⟦<MemFiles as Files>⟧.state made).contents ≡ holds files) }
    ensures calm { IfOk result (λ made. ((⟦<MemFiles as Files>⟧.state made).read_faults ≡ 0) × ((⟦<MemFiles as Files>⟧.state made).steady ≡ true)) }
{
    let mut states = List::with_capacity(alloc, 1)?;
    states.add(files)?;
    MemFiles::new(alloc, states, &[])
}

/// The configuration that files spell whose first one is the main file.
fn load_files(alloc: Global, files: List<(Text, Text)>) -> Result<Config, LoadFault>
    ensures config { IfOk result (λ config. spelled_by files ≡ Ok (seen_config config)) }
    ensures refused { IfErr result (IsFault (spelled_by files)) }
{
    let mut files = mem_files(alloc, files)?;
    load(alloc, &mut files, MAIN_FILE)
}

/// Runs the job of a number, and gives its five lines.
pub fn exercise<R: Threads + Sync>(
    alloc: Global,
    way: &Way<'_, R>,
    number: u32,
) -> Result<Text, ExerciseFault>
    ensures lines { IfOk result (Exercises number) }
    ensures refused { IfErr result (IsExerciseFault number) }
{
    let GeneratedJob { files, draws } = GeneratedJob::new(alloc, number)?;
    let config = load_files(alloc, files)?;
    let total = run_all(alloc, way, config, draws)?;
    Ok(print_lines(alloc, &total)?)
}
