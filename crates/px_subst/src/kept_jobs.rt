// Jobs that keep what searches for their expression.
ghost use Rattle.std.specs.Prelude.{◌≡◌, ◌<◌, false, true, unwrap_or, IfOk, IfSome};
ghost use Rattle.px_subst.specs.Jobs.{run_job, unchanged};
ghost use Rattle.px_subst.specs.Replacers.{replaces};
ghost use Rattle.px_subst.specs.Parts.{fixed_job, worded_job};

use crate::outcomes::JobOutcome;
use crate::replacers::Replacer;
use crate::searches::JobSearch;
use crate::worded::{KeptWorded, WordedJob};
use crate::words::Vars;
use px_base::Mem;
use std::alloc::Global;
use std::marker::Model;

/// A replacer that is lent, seen as that replacer, and what searches for its expression, made at the first run.
#[derive(Drop)]
pub(crate) struct KeptReplacer<'r> {
    replacer: &'r Replacer,
    search: Option<JobSearch<'r>>,
}

impl<'r> Model for KeptReplacer<'r> {
    ghost use Rattle.std.specs.Prelude.{IfSome};
    ghost use Rattle.px_subst.specs.Replacers.{Built, IsSearchOf};

    ghost Value = { Built };

    ghost view = { λ k. k.replacer.now };

    ghost invariant = { λ k. IfSome k.search (IsSearchOf k.replacer.now) };
}

/// The two kinds of jobs, with what each keeps.
#[derive(Drop)]
pub(crate) enum KeptForm<'r> {
    Fixed(KeptReplacer<'r>),
    Worded(KeptWorded<'r>),
}

/// A job that is lent, seen as that job. What searches for its expression is made at the first run and kept. Of a job with
/// the flag `D` the expression is kept, as long as the values of the words stay the same.
#[derive(Drop)]
pub struct KeptJob<'r> {
    form: KeptForm<'r>,
}

impl<'r> Model for KeptJob<'r> {
    ghost use Rattle.px_subst.specs.Jobs.{JobParts};
    ghost use Rattle.px_subst.specs.Kept.{job_kept};

    ghost Value = { JobParts };

    ghost view = { λ k. job_kept k.form };
}

impl<'r> KeptReplacer<'r> {
    /// Whether the replacer matches somewhere in a text.
    fn finds(&mut self, alloc: Global, text: &[u8]) -> Result<bool, Mem>
        ensures miss { IfOk result (λ yes. yes ≡ false → replaces self.old text.now ≡ unchanged text.now) }
        ensures hit { IfOk result (λ yes. yes ≡ true → 0 < (replaces self.old text.now).hits) }
        ensures same { self.new ≡ self.old }
    {
        let replacer = self.replacer;
        if let Some(search) = &mut self.search {
            return Ok(replacer.finds(search, text));
        }
        let found = self.try_run(alloc, text)?;
        Ok(found.is_some())
    }

    /// What the replacer makes of a text, or None where nothing matches.
    fn try_run(&mut self, alloc: Global, text: &[u8]) -> Result<Option<JobOutcome>, Mem>
        ensures value { IfOk result (λ found. unwrap_or found (unchanged text.now) ≡ replaces self.old text.now) }
        ensures hit { IfOk result (λ found. IfSome found (λ outcome. 0 < outcome.hits)) }
        ensures same { self.new ≡ self.old }
    {
        let replacer = self.replacer;
        if let Some(search) = &mut self.search {
            return replacer.run(alloc, search, text);
        }
        let mut search = replacer.search(alloc)?;
        let found = replacer.run(alloc, &mut search, text)?;
        self.search = Some(search);
        Ok(found)
    }
}

impl<'r> KeptJob<'r> {
    /// What is kept of a job that has not run.
    pub(crate) fn fixed(replacer: &'r Replacer) -> KeptJob<'r>
        ensures { result ≡ fixed_job replacer.now }
    {
        KeptJob {
            form: KeptForm::Fixed(KeptReplacer {
                replacer,
                search: None,
            }),
        }
    }

    /// The same of a job with the flag `D`.
    pub(crate) fn worded(job: &'r WordedJob) -> KeptJob<'r>
        ensures { result ≡ worded_job job.now }
    {
        KeptJob {
            form: KeptForm::Worded(KeptWorded::new(job)),
        }
    }

    /// Whether the job hits something in a text.
    pub(crate) fn finds(&mut self, alloc: Global, text: &[u8], vars: &Vars) -> Result<bool, Mem>
        ensures miss { IfOk result (λ yes. yes ≡ false → run_job self.old vars.now text.now ≡ unchanged text.now) }
        ensures hit { IfOk result (λ yes. yes ≡ true → 0 < (run_job self.old vars.now text.now).hits) }
        ensures same { self.new ≡ self.old }
    {
        match &mut self.form {
            KeptForm::Fixed(replacer) => replacer.finds(alloc, text),
            KeptForm::Worded(job) => job.finds(alloc, text, vars),
        }
    }

    /// What the job makes of a text, or None where it hits nothing, so that no copy is made. After want of memory it may be
    /// run again.
    pub fn try_run(
        &mut self,
        alloc: Global,
        text: &[u8],
        vars: &Vars,
    ) -> Result<Option<JobOutcome>, Mem>
        ensures value { IfOk result (λ found. unwrap_or found (unchanged text.now) ≡ run_job self.old vars.now text.now) }
        ensures hit { IfOk result (λ found. IfSome found (λ outcome. 0 < outcome.hits)) }
        ensures same { self.new ≡ self.old }
    {
        match &mut self.form {
            KeptForm::Fixed(replacer) => replacer.try_run(alloc, text),
            KeptForm::Worded(job) => job.try_run(alloc, text, vars),
        }
    }
}
