// Why a file is no list of hosts.
ghost use Rattle.std.specs.Prelude.{◌≡◌};

use px_base::Mem;
use std::alloc::{AllocError, AllocFailed};

/// Why a file is no list.
#[derive(Clone, Copy, Debug, PartialEq, Eq)]
pub enum ListFault {
    /// The file has more than `BYTE_LIMIT` bytes. The first of them beyond stands in that line.
    TooLong { line: u32 },
    /// The line names the first host beyond `HOST_LIMIT`.
    TooMany { line: u32 },
    /// Want of memory.
    Mem,
}

impl From<Mem> for ListFault {
    ghost use Rattle.px_host_lists.specs.declared.faults.ListFault.TheVariants as fault;

    ghost from_gives = { λ _ e. e ≡ fault.Mem };

    fn from(_: Mem) -> Self {
        ListFault::Mem
    }
}

impl From<AllocError> for ListFault {
    ghost use Rattle.px_host_lists.specs.declared.faults.ListFault.TheVariants as fault;

    ghost from_gives = { λ _ e. e ≡ fault.Mem };

    fn from(_: AllocError) -> Self {
        ListFault::Mem
    }
}

impl<T: Drop> From<AllocFailed<T>> for ListFault {
    ghost use Rattle.px_host_lists.specs.declared.faults.ListFault.TheVariants as fault;

    ghost from_gives = { λ _ e. e ≡ fault.Mem };

    fn from(_: AllocFailed<T>) -> Self {
        ListFault::Mem
    }
}
