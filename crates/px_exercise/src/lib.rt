//! The command `exercise`: the generated job of a number, spelled by the readers and run in ten sessions over memory, and
//! the five lines that count what came of it.
#![tactic(auto)]

mod counts;
mod exercises;
mod faults;
mod returns;
mod runs;

pub use exercises::exercise;
pub use faults::ExerciseFault;
