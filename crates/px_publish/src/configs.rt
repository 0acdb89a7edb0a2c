// Where configurations come from.
ghost use Rattle.std.specs.Prelude.{◌≡◌, ◌+◌, List, Bool, Option, IsTrue, IfOk, Some, length, slice_get};
ghost use Rattle.std.specs.Arc.{arc_value};
ghost use Rattle.px_base.specs.Repeating.{behind_first};
ghost use Rattle.px_publish.specs.Views.{Entry, GoesOn, IsLast, LookGives, Pair};

use std::sync::Arc;

/// An entry of a list of configurations: its number, which is its place from 0, and the configuration.
#[derive(Drop)]
pub struct Snapshot<'a, C> {
    pub number: u64,
    pub config: &'a C,
}

/// One more owner of a configuration can't be counted.
#[derive(Clone, Copy, Debug, PartialEq, Eq)]
pub struct CountFull;

/// Gives configurations, one at each look, and none older than the one before. No call waits, takes memory or is
/// refused, but for `owner` where the count of a configuration's owners is full.
pub trait Configs {
    /// The type of its configurations.
    type Held;

    /// Its view: the entries that it has had, in order. It holds the last one.
    ghost view: { Self → List Self.Held };

    /// The pair of a publisher and its readers that it is of, if it is of one.
    ghost pair: { Self → Option Pair };

    /// Whether the type tells its looks to come.
    ghost tells: { Bool };

    /// The entries that the next looks will give, where it tells: at least one, and the last comes again.
    ghost coming: { Self → List (Entry Self.Held) };

    /// Takes the newest entry.
    fn look(&mut self)
        ensures goes_on { GoesOn (view self.old) (view self.new) }
        ensures pair { pair self.new ≡ pair self.old }
        ensures given { IsTrue tells → LookGives (coming self.old) (view self.new) }
        ensures coming { IsTrue tells → coming self.new ≡ behind_first (coming self.old) };

    /// Lends the entry that it holds, whole.
    fn current(&self) -> Snapshot<'_, Self::Held>
        ensures number { length (view self.now) ≡ result.number + 1 }
        ensures config { slice_get (view self.now) result.number ≡ Some result.config.now };

    /// One more owner of the configuration that it holds. It is refused only where the count of owners is full.
    fn owner(&self) -> Result<Arc<Self::Held>, CountFull>
        ensures { IfOk result (λ owner. IsLast (view self.now) (arc_value owner)) };
}

/// One more owner, where it can be counted.
pub(crate) fn another_owner<C>(config: &Arc<C>) -> Result<Arc<C>, CountFull>
    ensures { IfOk result (λ owner. arc_value owner ≡ arc_value config.now) }
{
    match Arc::try_clone(config) {
        Ok(owner) => Ok(owner),
        Err(_) => Err(CountFull),
    }
}
