// What an update does to a kind of action.
ghost use Rattle.std.specs.Prelude.{◌≡◌, IfOk};

use px_base::{Mem, Text};
use std::alloc::Global;

/// What an update does to a kind of action.
#[derive(Drop)]
pub enum Change {
    /// Switches a flag on.
    On,
    /// Switches a flag off, or takes the value of a single kind away.
    Off,
    /// Sets the value of a single kind.
    Set(Text),
    /// Puts a value last into a list, unless it is there.
    Add(Text),
    /// Takes a value out of a list.
    Remove(Text),
    /// Takes all values out of a list.
    Clear,
}

impl Change {
    pub(crate) fn copy(&self, alloc: Global) -> Result<Change, Mem>
        ensures { IfOk result (λ c. c ≡ self.now) }
    {
        match self {
            Change::On => Ok(Change::On),
            Change::Off => Ok(Change::Off),
            Change::Set(text) => Ok(Change::Set(Text::from_bytes(alloc, text.as_bytes())?)),
            Change::Add(text) => Ok(Change::Add(Text::from_bytes(alloc, text.as_bytes())?)),
            Change::Remove(text) => Ok(Change::Remove(Text::from_bytes(alloc, text.as_bytes())?)),
            Change::Clear => Ok(Change::Clear),
        }
    }
}
