// Jobs with the flag `D`, which are built for the values of their words.
ghost use Rattle.std.specs.Prelude.{◌≡◌, ◌<◌, false, true, unwrap_or, IfOk, IfSome};
ghost use Rattle.px_subst.specs.Jobs.{run_job, unchanged};
ghost use Rattle.px_subst.specs.Parts.{IsMadeOf, worded_job};

use crate::flags::Flags;
use crate::outcomes::JobOutcome;
use crate::replacers::Replacer;
use crate::words::{Vars, filled};
use px_base::{Mem, Text};
use std::alloc::Global;
use std::marker::Model;

/// A job with the flag `D`.
#[derive(Drop)]
pub(crate) struct WordedJob {
    pub(crate) pattern: Text,
    pub(crate) substitute: Text,
    pub(crate) flags: Flags,
}

/// What was built of a job with the flag `D` for these values: None where its expression isn't read.
#[derive(Drop)]
pub(crate) struct Made {
    vars: Vars,
    replacer: Option<Replacer>,
}

/// A job with the flag `D` that is lent, seen as that job, and what was built of it at the last run.
#[derive(Drop)]
pub(crate) struct KeptWorded<'r> {
    job: &'r WordedJob,
    made: Option<Made>,
}

impl<'r> Model for KeptWorded<'r> {
    ghost use Rattle.std.specs.Prelude.{IfSome};
    ghost use Rattle.px_subst.specs.declared.worded.WordedJob.{WordedJob};
    ghost use Rattle.px_subst.specs.Parts.{IsMadeOf};

    ghost Value = { WordedJob };

    ghost view = { λ k. k.job.now };

    ghost invariant = { λ k. IfSome k.made (λ made. IsMadeOf k.job.now made.vars made.replacer) };
}

impl Made {
    /// What the job makes of a text, or None where it hits nothing. What searches is made anew.
    fn run(&self, alloc: Global, job: &WordedJob, text: &[u8]) -> Result<Option<JobOutcome>, Mem>
        requires { IsMadeOf job.now self.now.vars self.now.replacer }
        ensures value { IfOk result (λ found. unwrap_or found (unchanged text.now)
            ≡ run_job (worded_job job.now) self.now.vars text.now) }
        ensures hit { IfOk result (λ found. IfSome found (λ outcome. 0 < outcome.hits)) }
    {
        match &self.replacer {
            Some(replacer) => {
                let mut search = replacer.search(alloc)?;
                replacer.run(alloc, &mut search, text)
            }
            None => Ok(None),
        }
    }
}

impl WordedJob {
    /// Builds the job for these values.
    fn make(&self, alloc: Global, vars: &Vars) -> Result<Made, Mem>
        ensures vars { IfOk result (λ made. made.vars ≡ vars.now) }
        ensures made { IfOk result (λ made. IsMadeOf self.now vars.now made.replacer) }
    {
        let pattern = filled(alloc, vars, self.pattern.as_bytes())?;
        let substitute = filled(alloc, vars, self.substitute.as_bytes())?;
        let pattern = pattern.as_slice();
        let replacer = Replacer::new(alloc, self.flags, pattern, substitute.as_slice())?;
        let vars = vars.copy(alloc)?;
        Ok(Made { vars, replacer })
    }
}

impl<'r> KeptWorded<'r> {
    /// What is kept of a job that has not run.
    pub(crate) fn new(job: &'r WordedJob) -> KeptWorded<'r>
        ensures { result ≡ job.now }
    {
        KeptWorded { job, made: None }
    }

    /// Whether the job hits something in a text.
    pub(crate) fn finds(&mut self, alloc: Global, text: &[u8], vars: &Vars) -> Result<bool, Mem>
        ensures miss { IfOk result (λ yes. yes ≡ false → run_job (worded_job self.old) vars.now text.now ≡ unchanged text.now) }
        ensures hit { IfOk result (λ yes. yes ≡ true → 0 < (run_job (worded_job self.old) vars.now text.now).hits) }
        ensures same { self.new ≡ self.old }
    {
        let found = self.try_run(alloc, text, vars)?;
        Ok(found.is_some())
    }

    /// What the job makes of a text, or None where it hits nothing. It is built where what is kept isn't of these values.
    pub(crate) fn try_run(
        &mut self,
        alloc: Global,
        text: &[u8],
        vars: &Vars,
    ) -> Result<Option<JobOutcome>, Mem>
        ensures value { IfOk result (λ found. unwrap_or found (unchanged text.now)
            ≡ run_job (worded_job self.old) vars.now text.now) }
        ensures hit { IfOk result (λ found. IfSome found (λ outcome. 0 < outcome.hits)) }
        ensures same { self.new ≡ self.old }
    {
        let job = self.job;
        if let Some(made) = &self.made {
            if made.vars.is_same(vars) {
                return made.run(alloc, job, text);
            }
        }
        let made = job.make(alloc, vars)?;
        let found = made.run(alloc, job, text)?;
        self.made = Some(made);
        Ok(found)
    }
}
