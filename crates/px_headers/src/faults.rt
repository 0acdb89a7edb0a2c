// What header actions refuse.
ghost use Rattle.std.specs.Prelude.{◌≡◌, ◌≢◌};

use px_base::Mem;
use std::error::Error;
use std::fmt;

/// Why the head of a request isn't sent on.
#[derive(Clone, Copy, Debug, PartialEq, Eq)]
pub enum HeaderFault {
    /// Header filters made something of the request line that is no request line of the same method.
    BadRewrite,
    /// Want of memory.
    Mem,
}

impl HeaderFault {
    ghost use Rattle.px_headers.specs.Faults.{header_fault_number, header_fault_name};

    /// The number of the refusal. Want of memory has none.
    pub fn number(self) -> u8
        requires { self ≢ HeaderFault.Mem }
        ensures { result ≡ header_fault_number self }
    {
        match self {
            HeaderFault::BadRewrite => 41,
            HeaderFault::Mem => 0,
        }
    }

    /// The name of the refusal.
    pub fn name(self) -> &'static str
        ensures { result.now ≡ header_fault_name self }
    {
        match self {
            HeaderFault::BadRewrite => "BadRewrite",
            HeaderFault::Mem => "Mem",
        }
    }
}

impl fmt::Display for HeaderFault {
    ghost use Rattle.std.specs.Prelude.{Some};
    ghost use Rattle.px_headers.specs.Faults.{header_fault_name};

    ghost output = { λ fault. Some (header_fault_name fault) };

    fn fmt<W: fmt::Write>(&self, f: &mut fmt::Formatter<W>) -> fmt::Result {
        let name = self.name();
        write!(f, "{name}")
    }
}

impl Error for HeaderFault {}

impl From<Mem> for HeaderFault {
    ghost use Rattle.px_headers.specs.declared.faults.HeaderFault.TheVariants as fault;

    ghost from_gives = { λ _ e. e ≡ fault.Mem };

    fn from(_: Mem) -> Self {
        HeaderFault::Mem
    }
}
