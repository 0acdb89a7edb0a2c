// Why a text is no pattern or no URL.
ghost use Rattle.std.specs.Prelude.{◌≡◌, ◌≢◌};

use px_base::Mem;
use std::alloc::{AllocError, AllocFailed};
use std::error::Error;
use std::fmt;

/// Why a text is no pattern, or want of memory.
#[derive(Clone, Copy, Debug, PartialEq, Eq)]
pub enum PatternFault {
    /// It begins with `http://` or `https://`.
    HasProtocol,
    /// The port part is empty or no list of ports.
    BadPort,
    /// A class isn't closed in its label, is empty, or has a range that ends before it begins.
    BadClass,
    /// The library reads no expression there, or it nests too deep.
    BadRegex,
    /// A label between two dots is empty.
    EmptyLabel,
    /// An address isn't closed, is empty, has another byte than hexadecimal digits, colons and dots, or is followed by
    /// something other than a colon.
    BadAddress,
    /// Want of memory.
    Mem,
}

impl PatternFault {
    ghost use Rattle.px_patterns.specs.Faults.{pattern_fault_name, pattern_fault_number};

    /// The number under which the refusal is printed. Want of memory has none.
    pub fn number(self) -> u8
        requires { self ≢ PatternFault.Mem }
        ensures { result ≡ pattern_fault_number self }
    {
        match self {
            PatternFault::HasProtocol => 3,
            PatternFault::BadPort => 4,
            PatternFault::BadClass => 5,
            PatternFault::BadRegex => 6,
            PatternFault::EmptyLabel => 7,
            PatternFault::BadAddress => 42,
            PatternFault::Mem => 0,
        }
    }

    /// The name under which the refusal is printed.
    pub fn name(self) -> &'static str
        ensures { result.now ≡ pattern_fault_name self }
    {
        match self {
            PatternFault::HasProtocol => "HasProtocol",
            PatternFault::BadPort => "BadPort",
            PatternFault::BadClass => "BadClass",
            PatternFault::BadRegex => "BadRegex",
            PatternFault::EmptyLabel => "EmptyLabel",
            PatternFault::BadAddress => "BadAddress",
            PatternFault::Mem => "Mem",
        }
    }
}

impl fmt::Display for PatternFault {
    ghost use Rattle.std.specs.Prelude.{Some};
    ghost use Rattle.px_patterns.specs.Faults.{pattern_fault_name};

    ghost output = { λ fault. Some (pattern_fault_name fault) };

    fn fmt<W: fmt::Write>(&self, f: &mut fmt::Formatter<W>) -> fmt::Result {
        let name = self.name();
        write!(f, "{name}")
    }
}

impl Error for PatternFault {}

impl From<Mem> for PatternFault {
    ghost use Rattle.px_patterns.specs.declared.faults.PatternFault.TheVariants as fault;

    ghost from_gives = { λ _ e. e ≡ fault.Mem };

    fn from(_: Mem) -> Self {
        PatternFault::Mem
    }
}

impl From<AllocError> for PatternFault {
    ghost use Rattle.px_patterns.specs.declared.faults.PatternFault.TheVariants as fault;

    ghost from_gives = { λ _ e. e ≡ fault.Mem };

    fn from(_: AllocError) -> Self {
        PatternFault::Mem
    }
}

impl<T: Drop> From<AllocFailed<T>> for PatternFault {
    ghost use Rattle.px_patterns.specs.declared.faults.PatternFault.TheVariants as fault;

    ghost from_gives = { λ _ e. e ≡ fault.Mem };

    fn from(_: AllocFailed<T>) -> Self {
        PatternFault::Mem
    }
}

/// Why a text is no URL of HTTP, or want of memory.
#[derive(Clone, Copy, Debug, PartialEq, Eq)]
pub enum UrlFault {
    /// The text isn't UTF-8, or has a space or a control byte.
    BadByte,
    /// It doesn't begin with `http://`.
    NotHttp,
    /// The host part holds an `@`.
    HasUser,
    /// The host is empty, or a bracket isn't closed or holds no address.
    NoHost,
    /// Behind the host stands something other than a port.
    BadPort,
    /// Want of memory.
    Mem,
}

impl UrlFault {
    ghost use Rattle.px_patterns.specs.Faults.{url_fault_name, url_fault_number};

    /// The number under which the refusal is printed. Want of memory has none.
    pub fn number(self) -> u8
        requires { self ≢ UrlFault.Mem }
        ensures { result ≡ url_fault_number self }
    {
        match self {
            UrlFault::BadByte => 43,
            UrlFault::NotHttp => 8,
            UrlFault::HasUser => 10,
            UrlFault::NoHost => 9,
            UrlFault::BadPort => 11,
            UrlFault::Mem => 0,
        }
    }

    /// The name under which the refusal is printed.
    pub fn name(self) -> &'static str
        ensures { result.now ≡ url_fault_name self }
    {
        match self {
            UrlFault::BadByte => "BadByte",
            UrlFault::NotHttp => "NotHttp",
            UrlFault::HasUser => "HasUser",
            UrlFault::NoHost => "NoHost",
            UrlFault::BadPort => "BadPort",
            UrlFault::Mem => "Mem",
        }
    }
}

impl fmt::Display for UrlFault {
    ghost use Rattle.std.specs.Prelude.{Some};
    ghost use Rattle.px_patterns.specs.Faults.{url_fault_name};

    ghost output = { λ fault. Some (url_fault_name fault) };

    fn fmt<W: fmt::Write>(&self, f: &mut fmt::Formatter<W>) -> fmt::Result {
        let name = self.name();
        write!(f, "{name}")
    }
}

impl Error for UrlFault {}

impl From<Mem> for UrlFault {
    ghost use Rattle.px_patterns.specs.declared.faults.UrlFault.TheVariants as fault;

    ghost from_gives = { λ _ e. e ≡ fault.Mem };

    fn from(_: Mem) -> Self {
        UrlFault::Mem
    }
}
