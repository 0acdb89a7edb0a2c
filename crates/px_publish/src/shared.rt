// An entry with the list that it ends: as one holder has it, and as left_right shares it.
ghost use Rattle.std.specs.Prelude.{◌≡◌, Some, IfOk, slice_get};
ghost use Rattle.std.specs.Option.{ForSome};
ghost use Rattle.std.specs.Arc.{arc_value};

use crate::configs::{CountFull, another_owner};
use crate::fronts::{Law, ListFront};
use left_right::Absorb;
use logbook::Seen;
use std::alloc::AllocError;
use std::sync::Arc;

/// An entry, and the list that it ends.
#[derive(Drop)]
pub struct Held<C: Drop> {
    pub config: Arc<C>,
    pub front: ListFront<C>,
    pub ghost last: { slice_get front.seen.log front.number ≡ Some (arc_value config) },
}

impl<C: Drop> Held<C> {
    /// One more holder of the entry.
    pub fn again(&self) -> Result<Held<C>, CountFull>
        ensures { IfOk result (λ held. held.front ≡ self.now.front) }
    {
        let config = another_owner(&self.config)?;
        Ok(Held {
            config,
            front: self.front.again(),
        })
    }
}

/// The newest entry, and the list that it ends. The entry is missing where one more owner can't be counted.
#[derive(Drop)]
pub struct SharedList<C: Drop> {
    pub front: ListFront<C>,
    pub config: Option<Arc<C>>,
    pub ghost last: { ForSome config (λ a. slice_get front.seen.log front.number ≡ Some (arc_value a)) },
}

impl<C: Drop> SharedList<C> {
    /// What is shared of an entry.
    pub fn of(held: &Held<C>) -> SharedList<C>
        ensures { result.front ≡ held.now.front }
    {
        SharedList {
            front: held.front.again(),
            config: another_owner(&held.config).ok(),
        }
    }
}

impl<C: Drop> Absorb<SharedList<C>> for SharedList<C> {
    type State = Seen<C, (), Law<C>>;

    ghost state = { λ s. s.front.seen };

    ghost applied = { λ _ op. op.front.seen };

    ghost never_fails = { Unit {0} };

    fn absorb_first(
        &mut self,
        operation: &SharedList<C>,
        _other: &SharedList<C>,
    ) -> Result<(), AllocError> {
        let config = match &operation.config {
            Some(config) => another_owner(config).ok(),
            None => None,
        };
        *self = SharedList {
            front: operation.front.again(),
            config,
        };
        Ok(())
    }
}
