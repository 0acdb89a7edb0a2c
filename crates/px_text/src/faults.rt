// Why a file has no lines.
ghost use Rattle.std.specs.Prelude.{◌≡◌, ◌≢◌};

use px_base::Mem;
use std::fmt;

/// Why a file's bytes have no logical lines, with the line by which it is reported.
#[derive(Clone, Copy, Debug, PartialEq, Eq)]
pub enum TextFault {
    /// The physical line isn't UTF-8.
    NotText { line: u32 },
    /// The joined line that begins here is longer than `LINE_LIMIT`.
    TooLong { line: u32 },
    /// Want of memory.
    Mem,
}

impl TextFault {
    ghost use Rattle.px_text.specs.Faults.{text_fault_name, text_fault_number};

    /// The number under which the refusal is printed. Want of memory has none.
    pub fn number(self) -> u8
        requires { self ≢ TextFault.Mem }
        ensures { result ≡ text_fault_number self }
    {
        match self {
            TextFault::NotText { line: _ } => 1,
            TextFault::TooLong { line: _ } => 2,
            TextFault::Mem => 0,
        }
    }

    /// The name under which the refusal is printed.
    pub fn name(self) -> &'static str
        ensures { result.now ≡ text_fault_name self }
    {
        match self {
            TextFault::NotText { line: _ } => "NotText",
            TextFault::TooLong { line: _ } => "TooLong",
            TextFault::Mem => "Mem",
        }
    }
}

impl fmt::Display for TextFault {
    ghost use Rattle.std.specs.Prelude.{Some};
    ghost use Rattle.px_text.specs.Faults.{text_fault_name};

    ghost output = { λ fault. Some (text_fault_name fault) };

    fn fmt<W: fmt::Write>(&self, f: &mut fmt::Formatter<W>) -> fmt::Result {
        let name = self.name();
        write!(f, "{name}")
    }
}

impl std::error::Error for TextFault {}

impl From<Mem> for TextFault {
    ghost use Rattle.px_text.specs.declared.faults.TextFault.TheVariants as fault;

    ghost from_gives = { λ _ e. e ≡ fault.Mem };

    fn from(_: Mem) -> Self {
        TextFault::Mem
    }
}
