// A filter: jobs in order.
ghost use Rattle.std.specs.Prelude.{◌≡◌, ◌<◌, false, true, unwrap_or, IfOk, IfSome};
ghost use Rattle.px_subst.specs.Jobs.{run_next, run_filter, unchanged, with_hits};

use crate::jobs::Job;
use crate::kept_jobs::KeptJob;
use crate::outcomes::JobOutcome;
use crate::words::Vars;
use px_base::{List, Mem};
use std::alloc::Global;
use std::marker::Model;

/// Jobs in order, seen as the list of them.
#[derive(Drop)]
pub struct Filter {
    jobs: List<Job>,
}

impl Model for Filter {
    ghost use Rattle.std.specs.Prelude.{List};
    ghost use Rattle.px_subst.specs.Jobs.{JobParts};

    ghost Value = { List JobParts };

    ghost view = { λ f. f.jobs };
}

/// A filter that is lent, seen as the list of its jobs, with what each keeps from run to run.
#[derive(Drop)]
pub struct KeptFilter<'r> {
    jobs: Vec<KeptJob<'r>>,
}

impl<'r> Model for KeptFilter<'r> {
    ghost use Rattle.std.specs.Prelude.{List};
    ghost use Rattle.px_subst.specs.Jobs.{JobParts};

    ghost Value = { List JobParts };

    ghost view = { λ f. f.jobs.items };
}

/// The text after some of the jobs.
fn text_of<'t>(done: &'t Option<JobOutcome>, given: &'t [u8]) -> &'t [u8]
    ensures { result.now ≡ (unwrap_or done.now (unchanged given.now)).text }
{
    match done {
        Some(outcome) => outcome.text.as_bytes(),
        None => given,
    }
}

fn hits_of(done: &Option<JobOutcome>) -> u64
    ensures { (given : _) → result ≡ (unwrap_or done.now (unchanged given)).hits }
{
    match done {
        Some(outcome) => outcome.hits,
        None => 0,
    }
}

/// What some of the jobs give, with what the next found in their text.
fn added(done: Option<JobOutcome>, found: Option<JobOutcome>, given: &[u8]) -> Option<JobOutcome>
    requires done { IfSome done (λ outcome. 0 < outcome.hits) }
    requires found { IfSome found (λ outcome. 0 < outcome.hits) }
    ensures value { unwrap_or result (unchanged given.now)
        ≡ with_hits (unwrap_or done (unchanged given.now)).hits (unwrap_or found (unchanged (unwrap_or done (unchanged given.now)).text)) }
    ensures hit { IfSome result (λ outcome. 0 < outcome.hits) }
{
    match found {
        Some(outcome) => Some(JobOutcome {
            text: outcome.text,
            hits: hits_of(&done).saturating_add(outcome.hits),
        }),
        None => done,
    }
}

/// Runs one job more. `done` is what the jobs before gave, or None while nothing was hit, so that no copy is made.
fn run_next(
    alloc: Global,
    done: Option<JobOutcome>,
    job: &mut KeptJob<'_>,
    given: &[u8],
    vars: &Vars,
) -> Result<Option<JobOutcome>, Mem>
    requires { IfSome done (λ outcome. 0 < outcome.hits) }
    ensures value { IfOk result (λ next. unwrap_or next (unchanged given.now)
        ≡ run_next vars.now (unwrap_or done (unchanged given.now)) job.old) }
    ensures hit { IfOk result (λ next. IfSome next (λ outcome. 0 < outcome.hits)) }
    ensures same { job.new ≡ job.old }
{
    let found = job.try_run(alloc, text_of(&done, given), vars)?;
    Ok(added(done, found, given))
}

impl Filter {
    /// The filter of these jobs, which takes no memory.
    pub fn new(jobs: List<Job>) -> Filter
        ensures { result ≡ jobs }
    {
        Filter { jobs }
    }

    /// The filter with what its jobs keep from run to run. What searches is made at the first.
    pub fn keep(&self, alloc: Global) -> Result<KeptFilter<'_>, Mem>
        ensures { IfOk result (λ kept. kept ≡ self.now) }
    {
        let lent = self.jobs.as_slice();
        let mut jobs = Vec::with_capacity(alloc, lent.len())?;
        'jobs: for job in lent {
            jobs.push(job.keep())?;
        }
        Ok(KeptFilter { jobs })
    }

    /// What the jobs make of a text, each of the text of the one before. The hits are added, up to the greatest u64.
    pub fn run(&self, alloc: Global, text: &[u8], vars: &Vars) -> Result<JobOutcome, Mem>
        ensures { IfOk result (λ outcome. outcome ≡ run_filter self.now vars.now text.now) }
    {
        let mut kept = self.keep(alloc)?;
        kept.run(alloc, text, vars)
    }

    /// The same, or None where nothing is hit, so that no copy is made.
    pub fn try_run(
        &self,
        alloc: Global,
        text: &[u8],
        vars: &Vars,
    ) -> Result<Option<JobOutcome>, Mem>
        ensures value { IfOk result (λ found. unwrap_or found (unchanged text.now) ≡ run_filter self.now vars.now text.now) }
        ensures hit { IfOk result (λ found. IfSome found (λ outcome. 0 < outcome.hits)) }
    {
        let mut kept = self.keep(alloc)?;
        kept.try_run(alloc, text, vars)
    }
}

impl<'r> KeptFilter<'r> {
    /// Whether the jobs hit something in a text, which is cheap where they hit nothing and have run before. After want of
    /// memory it may be asked again.
    pub fn finds(&mut self, alloc: Global, text: &[u8], vars: &Vars) -> Result<bool, Mem>
        ensures miss { IfOk result (λ yes. yes ≡ false → run_filter self.old vars.now text.now ≡ unchanged text.now) }
        ensures hit { IfOk result (λ yes. yes ≡ true → 0 < (run_filter self.old vars.now text.now).hits) }
        ensures same { self.new ≡ self.old }
    {
        'jobs: for index in 0..self.jobs.len() {
            if self.jobs[index].finds(alloc, text, vars)? {
                return Ok(true);
            }
        }
        Ok(false)
    }

    /// What the jobs make of a text, as `Filter::run`. After want of memory it may be run again.
    pub fn run(&mut self, alloc: Global, text: &[u8], vars: &Vars) -> Result<JobOutcome, Mem>
        ensures value { IfOk result (λ outcome. outcome ≡ run_filter self.old vars.now text.now) }
        ensures same { self.new ≡ self.old }
    {
        let found = self.try_run(alloc, text, vars)?;
        JobOutcome::or_unchanged(alloc, found, text)
    }

    /// The same, or None where nothing is hit, so that no copy is made.
    pub fn try_run(
        &mut self,
        alloc: Global,
        text: &[u8],
        vars: &Vars,
    ) -> Result<Option<JobOutcome>, Mem>
        ensures value { IfOk result (λ found. unwrap_or found (unchanged text.now) ≡ run_filter self.old vars.now text.now) }
        ensures hit { IfOk result (λ found. IfSome found (λ outcome. 0 < outcome.hits)) }
        ensures same { self.new ≡ self.old }
    {
        let mut done = None;
        'jobs: for index in 0..self.jobs.len() {
            done = run_next(alloc, done, &mut self.jobs[index], text, vars)?;
        }
        Ok(done)
    }
}
