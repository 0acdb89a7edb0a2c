// Why a template isn't read.
ghost use Rattle.std.specs.Prelude.{◌≡◌, ◌≢◌};

use px_base::Mem;
use std::fmt;

/// Why a template isn't read.
#[derive(Clone, Copy, Debug, PartialEq, Eq)]
pub enum TemplateFault {
    /// A block isn't ended. The line is that of the mark that begins it, in the text without the lines that are left out and
    /// with the texts that are included, from 1; a greater number than a `u32` holds is given as the greatest.
    OpenCondition { line: u32 },
    /// Want of memory.
    Mem,
}

impl TemplateFault {
    ghost use Rattle.px_templates.specs.Faults.{template_fault_name, template_fault_number};

    /// The number under which the refusal is printed. Want of memory has none.
    pub fn number(self) -> u8
        requires { self ≢ TemplateFault.Mem }
        ensures { result ≡ template_fault_number self }
    {
        match self {
            TemplateFault::OpenCondition { line: _ } => 28,
            TemplateFault::Mem => 0,
        }
    }

    /// The name under which the refusal is printed.
    pub fn name(self) -> &'static str
        ensures { result.now ≡ template_fault_name self }
    {
        match self {
            TemplateFault::OpenCondition { line: _ } => "OpenCondition",
            TemplateFault::Mem => "Mem",
        }
    }
}

impl fmt::Display for TemplateFault {
    ghost use Rattle.std.specs.Prelude.{Some};
    ghost use Rattle.px_templates.specs.Faults.{template_fault_name};

    ghost output = { λ fault. Some (template_fault_name fault) };

    fn fmt<W: fmt::Write>(&self, f: &mut fmt::Formatter<W>) -> fmt::Result {
        let name = self.name();
        write!(f, "{name}")
    }
}

impl std::error::Error for TemplateFault {}

impl From<Mem> for TemplateFault {
    ghost use Rattle.px_templates.specs.declared.faults.TemplateFault.TheVariants as fault;

    ghost from_gives = { λ _ e. e ≡ fault.Mem };

    fn from(_: Mem) -> Self {
        TemplateFault::Mem
    }
}
