// The command `exercise`: the generated job, and its five lines.
ghost use Rattle.px_base.specs.Contents.{FilesState};
ghost use Rattle.px_base.specs.Moments.{ClockState};
ghost use Rattle.px_base.specs.Sinks.{SinkGoesOn};
ghost use Rattle.px_base.specs.Sources.{SourceState};
ghost use Rattle.px_commands.specs.Exercising.{RunsExercise};

use crate::loads::report_load;
use crate::reports::report;
use crate::statuses::Status;
use px_base::Sink;
use px_exercise::{ExerciseFault, exercise};
use px_ways::Way;
use std::alloc::Global;
use std::thread::Threads;

/// Runs `exercise`: makes the job of a number, runs its sessions over memory, and prints its five lines.
#[tactic(auto, using(crate::proofs::ExerciseLemmas::exercise_rules))]
pub fn run_exercise<R: Threads + Sync, O: Sink, E: Sink>(
    alloc: Global,
    way: &Way<'_, R>,
    number: u32,
    out: &mut O,
    err: &mut E,
) -> Status
    ensures runs { (files : FilesState) (input : SourceState) (clock : ClockState) → RunsExercise number
        (record { files = files; input = input; out = O.state out.old; errors = E.state err.old; clock = clock })
        (record { files = files; input = input; out = O.state out.new; errors = E.state err.new; clock = clock }) result }
    ensures out_goes_on { SinkGoesOn (O.state out.old) (O.state out.new) }
    ensures err_goes_on { SinkGoesOn (E.state err.old) (E.state err.new) }
{
    match exercise(alloc, way, number) {
        Ok(text) => report(out, text.as_bytes(), Status::Done),
        Err(ExerciseFault::NotLoaded(fault)) => report_load(alloc, err, &fault),
        Err(ExerciseFault::Mem) => Status::NoMemory,
    }
}
