// What a publish tells.
ghost use Rattle.std.specs.Prelude.{◌≡◌, ◌+◌, Some, length, slice_get};

use crate::configs::Snapshot;
use crate::shared::Held;

/// An entry of the published list, the newest as the receipt was given. It tells the whole list up to that entry.
#[derive(Drop)]
pub struct Receipt<C: Drop> {
    held: Held<C>,
}

impl<C: Drop> Receipt<C> {
    ghost use Rattle.px_publish.specs.Published.{told_by};

    pub(crate) fn over(held: Held<C>) -> Receipt<C>
        ensures { result.held ≡ held }
    {
        Receipt { held }
    }

    pub(crate) fn into_held(self) -> Held<C>
        ensures { result ≡ self.held }
    {
        self.held
    }

    /// Lends the entry, whole.
    pub fn snapshot(&self) -> Snapshot<'_, C>
        ensures number { length (told_by self.now) ≡ result.number + 1 }
        ensures config { slice_get (told_by self.now) result.number ≡ Some result.config.now }
    {
        Snapshot {
            number: self.held.front.number,
            config: &self.held.config,
        }
    }
}
