// The whole job by its number.
ghost use Rattle.std.specs.Prelude.{◌≡◌, ℕ, ◌+◌, ◌++◌, ◌∷◌, [], codes, IfOk};
ghost use Rattle.px_generated.specs.Files.{files_from};
ghost use Rattle.px_generated.specs.Jobs.{draws_before, first_sessions, job_sessions, session_at};

use crate::{Draws, MAIN_FILE, job_files};
use px_base::{List, Mem, Text};
use std::alloc::Global;

/// How many sessions the job has.
pub const SESSIONS: usize = 10;

/// What the constants of the job are.
pub fn constants()
    ensures main_file { MAIN_FILE.now ≡ codes "config" }
    ensures sessions { SESSIONS ≡ 10 }
{}

/// The sessions of a job, one by one.
#[tactic(auto, using(crate::proofs::StepLemmas::sessions_none, crate::proofs::StepLemmas::sessions_more), unfolding(crate::specs::Jobs::job_sessions))]
pub fn sessions_in_order()
    ensures none { (seed : ℕ) → first_sessions 0 seed ≡ [] }
    ensures more { (count seed : ℕ) → first_sessions (count + 1) seed ≡ first_sessions count seed ++ session_at count seed ∷ [] }
    ensures all { (seed : ℕ) → first_sessions 10 seed ≡ job_sessions seed }
{}

/// The files of a job, and the draws that its ten sessions go on from, by `job_session`.
#[derive(Drop)]
pub struct GeneratedJob {
    /// Names and contents, the main file first.
    pub files: List<(Text, Text)>,
    pub draws: Draws,
}

impl GeneratedJob {
    /// The job of a number, before its first session.
    #[tactic(auto, unfolding(crate::specs::Jobs::draws_before))]
    pub fn new(alloc: Global, seed: u32) -> Result<GeneratedJob, Mem>
        ensures files { IfOk result (λ job. job.files ≡ files_from seed) }
        ensures draws { IfOk result (λ job. job.draws ≡ draws_before 0 seed) }
    {
        let mut draws = Draws::new(seed);
        let files = job_files(alloc, &mut draws)?;
        Ok(GeneratedJob { files, draws })
    }
}
