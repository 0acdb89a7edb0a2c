// What a head reader refuses.
ghost use Rattle.std.specs.Prelude.{◌≡◌, ◌≢◌};
ghost use Rattle.px_head.specs.Faults.{head_fault_number, head_fault_name};

use px_base::Mem;
use std::alloc::AllocError;
use std::error::Error;
use std::fmt;

/// Why a block isn't read.
#[derive(Clone, Copy, Debug, PartialEq, Eq)]
pub enum HeadFault {
    /// The block isn't one whole head of the grammar.
    Malformed,
    /// It is one, and has more than `FIELD_LIMIT` fields.
    TooManyFields,
    /// Want of memory.
    Mem,
}

/// The number of the refusal of a head over the limit, which `find_head` answers as `HeadEnd::Over`.
pub const TOO_LONG_NUMBER: u8 = 36;

/// The name of that refusal.
pub const TOO_LONG_NAME: &str = "TooLong";

impl HeadFault {
    /// The number of the refusal. Want of memory has none.
    pub fn number(self) -> u8
        requires { self ≢ HeadFault.Mem }
        ensures { result ≡ head_fault_number self }
    {
        match self {
            HeadFault::Malformed => 34,
            HeadFault::TooManyFields => 35,
            HeadFault::Mem => unreachable!(),
        }
    }

    /// The name of the refusal.
    pub fn name(self) -> &'static str
        ensures { result.now ≡ head_fault_name self }
    {
        match self {
            HeadFault::Malformed => "Malformed",
            HeadFault::TooManyFields => "TooManyFields",
            HeadFault::Mem => "Mem",
        }
    }
}

impl fmt::Display for HeadFault {
    ghost use Rattle.std.specs.Prelude.{Some};
    ghost use Rattle.px_head.specs.Faults.{head_fault_name};

    ghost output = { λ fault. Some (head_fault_name fault) };

    fn fmt<W: fmt::Write>(&self, f: &mut fmt::Formatter<W>) -> fmt::Result {
        let name = self.name();
        write!(f, "{name}")
    }
}

impl Error for HeadFault {}

impl From<Mem> for HeadFault {
    ghost use Rattle.px_head.specs.declared.faults.HeadFault.TheVariants as fault;

    ghost from_gives = { λ _ e. e ≡ fault.Mem };

    fn from(_: Mem) -> Self {
        HeadFault::Mem
    }
}

impl From<AllocError> for HeadFault {
    ghost use Rattle.px_head.specs.declared.faults.HeadFault.TheVariants as fault;

    ghost from_gives = { λ _ e. e ≡ fault.Mem };

    fn from(_: AllocError) -> Self {
        HeadFault::Mem
    }
}
