// A reader of published configurations.
ghost use Rattle.std.specs.Prelude.{◌≡◌, ◌⊎◌, Some, false, max, length};
ghost use Rattle.left_right.specs.Sides.{view};
ghost use mathlib.Core.List.{IsPrefix};
ghost use Rattle.px_publish.specs.Views.{GoesOn};

use crate::configs::{Configs, CountFull, Snapshot, another_owner};
use crate::fronts::{Law, ListFront};
use crate::receipts::Receipt;
use crate::rules::{ListReader, Seeing};
use crate::shared::{Held, SharedList};
use core::mem::replace_with;
use logbook::Seen;
use std::sync::Arc;

/// A reader of a pair. It holds an entry of the published list, and its view is that list up to this entry. It waits for
/// nobody, takes no memory and can't be refused: where the library lets it in to no entry, or one more owner of what it
/// found can't be counted, it keeps the newest entry that it has had.
#[derive(Drop)]
pub struct ConfigReader<C: Drop> {
    reader: ListReader<C>,
    // What the library's rule knows of this reader.
    found: Seen<C, (), Law<C>>,
    held: Held<C>,
    ghost known: { view reader.place ≡ Some found },
    ghost one_list: { found.book ≡ held.front.seen.book },
}

/// The newer of the two, where the shared entry can have one more owner.
fn newer<C: Drop>(shared: &SharedList<C>, held: Held<C>) -> Held<C>
    requires { shared.now.front.seen.book ≡ held.front.seen.book }
    ensures pair { result.front.seen.book ≡ held.front.seen.book }
    ensures goes_on { GoesOn held.front.seen.log result.front.seen.log }
{
    if held.front.is_behind(&shared.front) {
        if let Some(config) = &shared.config {
            if let Ok(config) = another_owner(config) {
                return Held {
                    config,
                    front: shared.front.again(),
                };
            }
        }
    }
    held
}

impl<C: Drop> ConfigReader<C> {
    ghost use Rattle.px_publish.specs.Published.{told_by, receipt_pair, seen_by, reader_pair};

    pub(crate) fn over(reader: ListReader<C>, held: Held<C>) -> ConfigReader<C>
        requires { view reader.place ≡ Some held.front.seen }
        ensures { result.held.front ≡ held.front }
    {
        ConfigReader {
            reader,
            found: held.front.seen.again(),
            held,
        }
    }

    /// What it has seen of the published list.
    pub(crate) fn front(&self) -> &ListFront<C>
        ensures { result.now ≡ self.now.held.front }
    {
        &self.held.front
    }

    /// Of what two readers of one pair have seen the one begins the other. It changes nothing, takes no memory and waits for nobody.
    pub fn sees_one_list(&self, other: &ConfigReader<C>)
        requires { reader_pair other.now ≡ reader_pair self.now }
        ensures { IsPrefix (seen_by self.now) (seen_by other.now) ⊎ IsPrefix (seen_by other.now) (seen_by self.now) }
    {
        if self.front().is_behind(other.front()) {
            return;
        }
    }

    fn looked(self) -> ConfigReader<C>
        ensures pair { reader_pair result ≡ reader_pair self }
        ensures goes_on { GoesOn (seen_by self) (seen_by result) }
    {
        let ConfigReader {
            reader,
            found,
            held,
        } = self;
        let reading = match reader.enter_as::<Seeing>() {
            Ok(reading) => reading,
            Err(reader) => {
                return ConfigReader {
                    reader,
                    found,
                    held,
                };
            }
        };
        let shared = reading.get();
        let found = shared.front.seen.again();
        let held = newer(shared, held);
        ConfigReader {
            reader: reading.leave(),
            found,
            held,
        }
    }

    /// Takes the entry that a receipt tells, where that is newer than the one that it holds.
    pub fn learn(&mut self, receipt: Receipt<C>)
        requires { receipt_pair receipt ≡ reader_pair self.old }
        ensures pair { reader_pair self.new ≡ reader_pair self.old }
        ensures goes_on { GoesOn (seen_by self.old) (seen_by self.new) }
        ensures heard { GoesOn (told_by receipt) (seen_by self.new) }
        ensures longer { length (seen_by self.new) ≡ max (length (seen_by self.old)) (length (told_by receipt)) }
    {
        let told = receipt.into_held();
        if self.held.front.is_behind(&told.front) {
            self.held = told;
        }
    }
}

impl<C: Drop> Configs for ConfigReader<C> {
    ghost use Rattle.std.specs.Prelude.{Some, false, []};
    ghost use Rattle.std.specs.Arc.{arc_value};
    ghost use Rattle.px_publish.specs.Published.{seen_by, reader_pair};

    type Held = C;

    ghost view = { λ r. r.held.front.seen.log };

    ghost pair = { λ r. Some r.held.front.seen.book };

    ghost tells = { false };

    // The type tells nothing, so this says nothing.
    ghost coming = { λ r. [] };

    fn look(&mut self) {
        replace_with(
            self,
            (),
            |reader: ConfigReader<C>, _: ()| -> (ConfigReader<C>, ())
                ensures { (reader_pair result.0 ≡ reader_pair reader) × GoesOn (seen_by reader) (seen_by result.0) }
            { (reader.looked(), ()) },
        )
    }

    fn current(&self) -> Snapshot<'_, C> {
        Snapshot {
            number: self.held.front.number,
            config: &self.held.config,
        }
    }

    fn owner(&self) -> Result<Arc<C>, CountFull> {
        another_owner(&self.held.config)
    }
}
