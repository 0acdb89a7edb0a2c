// A substitution job.
ghost use Rattle.std.specs.Prelude.{◌≡◌, ◌≢◌, Err, IfOk};
ghost use Rattle.px_subst.specs.Jobs.{job_of, job_with, with_delimiter, run_job};

use crate::faults::JobFault;
use crate::fields::{field_end, is_delimiter, unescaped};
use crate::flags::Flags;
use crate::kept_jobs::KeptJob;
use crate::outcomes::JobOutcome;
use crate::replacers::Replacer;
use crate::worded::WordedJob;
use crate::words::Vars;
use px_base::{Mem, Text};
use std::alloc::Global;
use std::marker::Model;

/// The two kinds of jobs. Both are boxed, so that a job is small.
#[derive(Drop)]
pub(crate) enum JobForm {
    /// The expression is built when the job is read.
    Fixed(Box<Replacer>),
    /// A job with the flag `D`: the expression is built at a run.
    Worded(Box<WordedJob>),
}

/// A substitution job, seen as its pattern, what it writes and its flags.
#[derive(Drop)]
pub struct Job {
    form: JobForm,
}

impl Model for Job {
    ghost use Rattle.px_subst.specs.Jobs.{JobParts};
    ghost use Rattle.px_subst.specs.Kept.{job_in_form};

    ghost Value = { JobParts };

    ghost view = { λ j. job_in_form j.form };
}

impl Job {
    /// Reads a job: `s`, a delimiter, a pattern, the delimiter, a substitute, the delimiter and flags. The first refusal
    /// in the order of `JobFault` is given (Privoxy's manual, "Filter Files").
    pub fn read(alloc: Global, text: &str) -> Result<Job, JobFault>
        ensures { result ≢ Err JobFault.Mem → result ≡ job_of text.now }
    {
        let bytes = text.as_bytes();
        if bytes.len() < 2 || bytes[0] != b's' || !is_delimiter(bytes[1]) {
            return Err(JobFault::NoDelimiter);
        }
        Job::read_fields(alloc, bytes[1], &bytes[2..])
    }

    /// Reads what follows the first delimiter.
    fn read_fields(alloc: Global, delimiter: u8, rest: &[u8]) -> Result<Job, JobFault>
        ensures { result ≢ Err JobFault.Mem → result ≡ with_delimiter delimiter rest.now }
    {
        let Some(first) = field_end(delimiter, rest) else {
            return Err(JobFault::Unfinished);
        };
        let behind = &rest[first + 1..];
        let Some(second) = field_end(delimiter, behind) else {
            return Err(JobFault::Unfinished);
        };
        let Some(flags) = Flags::read(&behind[second + 1..]) else {
            return Err(JobFault::BadFlag);
        };
        let pattern = unescaped(alloc, delimiter, &rest[..first])?;
        let substitute = unescaped(alloc, delimiter, &behind[..second])?;
        Job::from_parts(alloc, pattern, substitute, flags)
    }

    /// The job of these parts.
    fn from_parts(
        alloc: Global,
        pattern: Vec<u8>,
        substitute: Vec<u8>,
        flags: Flags,
    ) -> Result<Job, JobFault>
        ensures { result ≢ Err JobFault.Mem → result ≡ job_with pattern.items substitute.items flags }
    {
        if flags.dynamic {
            let worded = WordedJob {
                pattern: Text::from_vec(pattern),
                substitute: Text::from_vec(substitute),
                flags,
            };
            return Ok(Job {
                form: JobForm::Worded(Box::new(alloc, worded)?),
            });
        }
        match Replacer::new(alloc, flags, pattern.as_slice(), substitute.as_slice())? {
            Some(replacer) => Ok(Job {
                form: JobForm::Fixed(Box::new(alloc, replacer)?),
            }),
            None => Err(JobFault::BadRegex),
        }
    }

    /// The job with what it keeps from run to run. Nothing is made before the first.
    pub fn keep(&self) -> KeptJob<'_>
        ensures { result ≡ self.now }
    {
        match &self.form {
            JobForm::Fixed(replacer) => KeptJob::fixed(replacer),
            JobForm::Worded(worded) => KeptJob::worded(worded),
        }
    }

    /// What the job makes of a text.
    pub fn run(&self, alloc: Global, text: &[u8], vars: &Vars) -> Result<JobOutcome, Mem>
        ensures { IfOk result (λ outcome. outcome ≡ run_job self.now vars.now text.now) }
    {
        let mut kept = self.keep();
        let found = kept.try_run(alloc, text, vars)?;
        JobOutcome::or_unchanged(alloc, found, text)
    }
}
