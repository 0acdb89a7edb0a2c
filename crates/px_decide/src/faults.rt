// Why a forward line isn't read.
ghost use Rattle.std.specs.Prelude.{◌≡◌, ◌≢◌};

use px_base::Mem;

/// Why a value isn't a forward line.
#[derive(Clone, Copy, Debug, PartialEq, Eq)]
pub enum ForwardFault {
    /// It isn't two words, or three for a line with a SOCKS server; or the second of three names no server; or the last is no
    /// next hop. This is looked for first.
    Bad,
    /// The first word is no URL pattern: the number of that refusal.
    Pattern(u8),
    /// Want of memory.
    Mem,
}

impl ForwardFault {
    ghost use Rattle.px_decide.specs.Forwards.{forward_fault_number};

    /// The number under which the refusal is printed; `Bad` is a bad value of a directive. Want of memory has none.
    pub fn number(self) -> u8
        requires { self ≢ ForwardFault.Mem }
        ensures { result ≡ forward_fault_number self }
    {
        match self {
            ForwardFault::Bad => 29,
            ForwardFault::Pattern(number) => number,
            ForwardFault::Mem => 0,
        }
    }
}

impl From<Mem> for ForwardFault {
    ghost use Rattle.px_decide.specs.declared.faults.ForwardFault.TheVariants as fault;

    ghost from_gives = { λ _ e. e ≡ fault.Mem };

    fn from(_: Mem) -> Self {
        ForwardFault::Mem
    }
}
