// Why a configuration isn't loaded.
use px_base::{Mem, Text};

/// A value of another form.
pub(crate) const BAD_VALUE: u8 = 29;

/// A host that other machines reach.
pub(crate) const NOT_LOOPBACK: u8 = 30;

/// More files of a kind, patterns or bytes than there may be.
pub(crate) const TOO_LARGE: u8 = 31;

/// A file that isn't there.
pub(crate) const MISSING: u8 = 32;

/// Why a configuration isn't loaded.
#[derive(Drop)]
pub enum LoadFault {
    /// The files don't spell one: the first fault, with the name of its file as it is written after the directive, the line
    /// from 1, or 0 where the whole file is meant, and the number of the refusal.
    Spelled { file: Text, line: u32, number: u8 },
    /// A file couldn't be read, and the count of faults rose. The name is as it is written after the directive.
    Read { file: Text },
    /// Want of memory.
    Mem,
}

impl From<Mem> for LoadFault {
    ghost use Rattle.std.specs.Prelude.{◌≡◌};
    ghost use Rattle.px_config.specs.declared.faults.LoadFault.TheVariants as fault;

    ghost from_gives = { λ _ e. e ≡ fault.Mem };

    fn from(_: Mem) -> Self {
        LoadFault::Mem
    }
}
