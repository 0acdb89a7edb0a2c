// Why a filter file isn't read.
ghost use Rattle.std.specs.Prelude.{◌≡◌, ◌≢◌, ◌==◌, codes, if◌then◌else◌};

use px_base::Mem;
use std::fmt;

/// A job that stands below no filter.
pub(crate) const JOB_BEFORE_FILTER: u8 = 25;

/// A part with no name.
pub(crate) const NAME_MISSING: u8 = 26;

/// A filter with the kind and the name of one before it in the file.
pub(crate) const NAME_TWICE: u8 = 27;

/// Why a filter file isn't read.
#[derive(Clone, Copy, Debug, PartialEq, Eq)]
pub enum FilterFault {
    /// The line's number in the file and the number of the refusal: 25 `JobBeforeFilter`, 26 `NameMissing` or 27
    /// `NameTwice`.
    At { line: u32, number: u8 },
    /// Want of memory.
    Mem,
}

impl FilterFault {
    ghost use Rattle.px_filter_files.specs.Faults.{filter_fault_number, filter_fault_name};

    /// The number of the refusal. Want of memory has none.
    pub fn number(self) -> u8
        requires { self ≢ FilterFault.Mem }
        ensures { result ≡ filter_fault_number self }
    {
        match self {
            FilterFault::At { line: _, number } => number,
            FilterFault::Mem => 0,
        }
    }

    /// The name of the refusal.
    pub fn name(self) -> &'static str
        ensures { result.now ≡ filter_fault_name self }
    {
        match self {
            FilterFault::At { line: _, number } => refusal_name(number),
            FilterFault::Mem => "Mem",
        }
    }
}

fn refusal_name(number: u8) -> &'static str
    ensures { result.now ≡ (if number == 25 then codes "JobBeforeFilter" else if number == 26 then codes "NameMissing" else codes "NameTwice") }
{
    if number == JOB_BEFORE_FILTER {
        "JobBeforeFilter"
    } else if number == NAME_MISSING {
        "NameMissing"
    } else {
        "NameTwice"
    }
}

impl fmt::Display for FilterFault {
    ghost use Rattle.std.specs.Prelude.{Some};
    ghost use Rattle.px_filter_files.specs.Faults.{filter_fault_name};

    ghost output = { λ fault. Some (filter_fault_name fault) };

    fn fmt<W: fmt::Write>(&self, f: &mut fmt::Formatter<W>) -> fmt::Result {
        let name = self.name();
        write!(f, "{name}")
    }
}

impl std::error::Error for FilterFault {}

impl From<Mem> for FilterFault {
    ghost use Rattle.px_filter_files.specs.declared.faults.FilterFault.TheVariants as fault;

    ghost from_gives = { λ _ e. e ≡ fault.Mem };

    fn from(_: Mem) -> Self {
        FilterFault::Mem
    }
}
