// Why a job isn't read.
ghost use Rattle.std.specs.Prelude.{◌≡◌, ◌≢◌};

use px_base::Mem;
use std::alloc::{AllocError, AllocFailed};
use std::fmt;

/// Why a job isn't read. The order of the variants is that in which they are looked for.
#[derive(Clone, Copy, Debug, PartialEq, Eq)]
pub enum JobFault {
    /// The text doesn't begin with `s` and a delimiter.
    NoDelimiter,
    /// The second or the third delimiter is missing.
    Unfinished,
    /// Behind the third delimiter stands a letter that is no flag.
    BadFlag,
    /// The library reads no expression in the pattern, or one that nests too deep.
    BadRegex,
    /// Want of memory.
    Mem,
}

impl JobFault {
    ghost use Rattle.px_subst.specs.Refusals.{job_fault_number, job_fault_name};

    /// The number of the refusal. Want of memory has none.
    pub fn number(self) -> u8
        requires { self ≢ JobFault.Mem }
        ensures { result ≡ job_fault_number self }
    {
        match self {
            JobFault::NoDelimiter => 21,
            JobFault::Unfinished => 22,
            JobFault::BadFlag => 23,
            JobFault::BadRegex => 24,
            JobFault::Mem => 0,
        }
    }

    /// The name of the refusal.
    pub fn name(self) -> &'static str
        ensures { result.now ≡ job_fault_name self }
    {
        match self {
            JobFault::NoDelimiter => "NoDelimiter",
            JobFault::Unfinished => "Unfinished",
            JobFault::BadFlag => "BadFlag",
            JobFault::BadRegex => "BadRegex",
            JobFault::Mem => "Mem",
        }
    }
}

impl fmt::Display for JobFault {
    ghost use Rattle.std.specs.Prelude.{Some};
    ghost use Rattle.px_subst.specs.Refusals.{job_fault_name};

    ghost output = { λ fault. Some (job_fault_name fault) };

    fn fmt<W: fmt::Write>(&self, f: &mut fmt::Formatter<W>) -> fmt::Result {
        let name = self.name();
        write!(f, "{name}")
    }
}

impl std::error::Error for JobFault {}

impl From<Mem> for JobFault {
    ghost use Rattle.px_subst.specs.declared.faults.JobFault.TheVariants as fault;

    ghost from_gives = { λ _ e. e ≡ fault.Mem };

    fn from(_: Mem) -> Self {
        JobFault::Mem
    }
}

impl From<AllocError> for JobFault {
    ghost use Rattle.px_subst.specs.declared.faults.JobFault.TheVariants as fault;

    ghost from_gives = { λ _ e. e ≡ fault.Mem };

    fn from(_: AllocError) -> Self {
        JobFault::Mem
    }
}

impl<T: Drop> From<AllocFailed<T>> for JobFault {
    ghost use Rattle.px_subst.specs.declared.faults.JobFault.TheVariants as fault;

    ghost from_gives = { λ _ e. e ≡ fault.Mem };

    fn from(_: AllocFailed<T>) -> Self {
        JobFault::Mem
    }
}
