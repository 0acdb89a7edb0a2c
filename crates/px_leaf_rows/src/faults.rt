//! Why a row isn't run, or what refuses its values.
ghost use Rattle.std.specs.Prelude.{◌≡◌};

use px_action_files::{FileFault, refusal_name};
use px_actions::ActionFault;
use px_base::Mem;
use px_decide::ForwardFault;
use px_filter_files::FilterFault;
use px_framing::BodyFault;
use px_head::HeadFault;
use px_headers::HeaderFault;
use px_host_lists::ListFault;
use px_patterns::{PatternFault, UrlFault};
use px_subst::JobFault;
use px_templates::TemplateFault;
use px_text::TextFault;
use std::alloc::{AllocError, AllocFailed, Global};

/// Why a row isn't run to its end.
#[derive(Clone, Copy)]
pub enum Fault {
    /// Memory was wanting.
    Mem,
    /// The row isn't of its form, and what is wrong with it.
    Form(&'static str),
    /// What the row is about is refused: with this number and name, and at this line of a file, 0 where it is of none.
    Refused {
        number: u8,
        name: &'static str,
        line: u32,
    },
}

impl Fault {
    /// The fault at a line of a file of rows.
    pub fn at(self, line: usize) -> Misread
        ensures { result ≡ record { line = line; fault = self } }
    {
        Misread { line, fault: self }
    }

    /// The text of a refusal, which is what its row gives.
    pub(crate) fn refusal(self, alloc: Global) -> Result<String, Fault> {
        match self {
            Fault::Refused {
                number,
                name,
                line: 0,
            } => Ok(format!(in alloc; "{number} {name}")?),
            Fault::Refused { number, name, line } => {
                Ok(format!(in alloc; "{number} {name} at line {line}")?)
            }
            Fault::Mem => Err(Fault::Mem),
            Fault::Form(what) => Err(Fault::Form(what)),
        }
    }
}

/// A fault at a line of a file of rows: 0 where it is the file's own.
#[derive(Clone, Copy)]
pub struct Misread {
    pub line: usize,
    pub fault: Fault,
}

fn refused(number: u8, name: &'static str) -> Fault {
    Fault::Refused {
        number,
        name,
        line: 0,
    }
}

fn refused_at(number: u8, name: &'static str, line: u32) -> Fault {
    Fault::Refused { number, name, line }
}

impl From<Mem> for Fault {
    fn from(_: Mem) -> Fault {
        Fault::Mem
    }
}

impl From<AllocError> for Fault {
    fn from(_: AllocError) -> Fault {
        Fault::Mem
    }
}

impl<T: Drop> From<AllocFailed<T>> for Fault {
    fn from(_: AllocFailed<T>) -> Fault {
        Fault::Mem
    }
}

impl From<ActionFault> for Fault {
    fn from(fault: ActionFault) -> Fault {
        match fault {
            ActionFault::Mem => Fault::Mem,
            _ => refused(fault.number(), fault.name()),
        }
    }
}

impl From<BodyFault> for Fault {
    fn from(fault: BodyFault) -> Fault {
        refused(fault.number(), fault.name())
    }
}

impl From<HeadFault> for Fault {
    fn from(fault: HeadFault) -> Fault {
        match fault {
            HeadFault::Mem => Fault::Mem,
            _ => refused(fault.number(), fault.name()),
        }
    }
}

impl From<ListFault> for Fault {
    fn from(fault: ListFault) -> Fault {
        match fault {
            ListFault::Mem => Fault::Mem,
            ListFault::TooLong { line: _ } => Fault::Form("the list has too many bytes"),
            ListFault::TooMany { line: _ } => Fault::Form("the list has too many hosts"),
        }
    }
}

impl From<HeaderFault> for Fault {
    fn from(fault: HeaderFault) -> Fault {
        match fault {
            HeaderFault::Mem => Fault::Mem,
            _ => refused(fault.number(), fault.name()),
        }
    }
}

impl From<JobFault> for Fault {
    fn from(fault: JobFault) -> Fault {
        match fault {
            JobFault::Mem => Fault::Mem,
            _ => refused(fault.number(), fault.name()),
        }
    }
}

impl From<PatternFault> for Fault {
    fn from(fault: PatternFault) -> Fault {
        match fault {
            PatternFault::Mem => Fault::Mem,
            _ => refused(fault.number(), fault.name()),
        }
    }
}

impl From<UrlFault> for Fault {
    fn from(fault: UrlFault) -> Fault {
        match fault {
            UrlFault::Mem => Fault::Mem,
            _ => refused(fault.number(), fault.name()),
        }
    }
}

impl From<ForwardFault> for Fault {
    fn from(fault: ForwardFault) -> Fault {
        match fault {
            ForwardFault::Mem => Fault::Mem,
            _ => refused(fault.number(), "of a forward line"),
        }
    }
}

impl From<TextFault> for Fault {
    fn from(fault: TextFault) -> Fault {
        match fault {
            TextFault::NotText { line } => refused_at(fault.number(), fault.name(), line),
            TextFault::TooLong { line } => refused_at(fault.number(), fault.name(), line),
            TextFault::Mem => Fault::Mem,
        }
    }
}

impl From<FileFault> for Fault {
    fn from(fault: FileFault) -> Fault {
        match fault {
            FileFault::At { line, number } => refused_at(number, refusal_name(number), line),
            FileFault::Mem => Fault::Mem,
        }
    }
}

impl From<FilterFault> for Fault {
    fn from(fault: FilterFault) -> Fault {
        match fault {
            FilterFault::At { line, number } => refused_at(number, fault.name(), line),
            FilterFault::Mem => Fault::Mem,
        }
    }
}

impl From<TemplateFault> for Fault {
    fn from(fault: TemplateFault) -> Fault {
        match fault {
            TemplateFault::OpenCondition { line } => {
                refused_at(fault.number(), fault.name(), line)
            }
            TemplateFault::Mem => Fault::Mem,
        }
    }
}
