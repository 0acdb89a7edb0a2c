// A publisher of configurations.
ghost use Rattle.std.specs.Prelude.{◌≡◌, ◌<◌, ◌≤◌, ◌^◌, ◌++◌, ◌∷◌, ◌↔◌, [], length, IsTrue, IfOk, OnOk, OnErr};
ghost use Rattle.std.specs.Arc.{arc_value};
ghost use Rattle.px_publish.specs.Lists.{IsFront};
ghost use Rattle.px_publish.specs.Views.{GoesOn};

use crate::configs::another_owner;
use crate::fronts::Head;
use crate::readers::ConfigReader;
use crate::receipts::Receipt;
use crate::rules::ListWriter;
use crate::shared::{Held, SharedList};
use crate::writers::show;
use core::mem::replace_with;
use left_right::Absorb;
use px_base::Mem;
use std::sync::{Arc, Wait};

/// The one publisher of a pair. It isn't dropped: `end` gives it up.
pub struct Publisher<C: Drop>
where
    SharedList<C>: Absorb<SharedList<C>>,
{
    writer: ListWriter<C>,
    head: Head<C>,
    newest: Held<C>,
    ghost one_list: { head.word.book ≡ newest.front.seen.book },
    ghost shown_list: { writer.desk.shown.value.front.seen.book ≡ newest.front.seen.book },
    ghost shown_front: { IsFront writer.desk.shown.value.front.seen.log newest.front.seen.log },
}

impl<C: Drop> Publisher<C> {
    ghost use Rattle.px_publish.specs.Rules.{BeginsSameList};
    ghost use Rattle.px_publish.specs.Published.{published, pair_of, told_by, receipt_pair, seen_by, reader_pair};

    pub(crate) fn over(writer: ListWriter<C>, head: Head<C>, newest: Held<C>) -> Publisher<C>
        requires pair { head.word.book ≡ newest.front.seen.book }
        requires shown { BeginsSameList writer.desk.shown.value.front.seen newest.front.seen }
        ensures { result.newest ≡ newest }
    {
        Publisher {
            writer,
            head,
            newest,
        }
    }

    /// Adds the configuration at the end of the published list, and gives the receipt of it. It may wait for readers to
    /// leave. After want of memory nothing was added.
    pub fn publish<R: Wait>(&mut self, rt: &R, config: Arc<C>) -> Result<Receipt<C>, Mem>
        requires { length (published self.old) < 2 ^ 64 }
        ensures pair { pair_of self.new ≡ pair_of self.old }
        ensures added { OnOk result (published self.new ≡ published self.old ++ arc_value config ∷ []) }
        ensures receipt { IfOk result (λ r. told_by r ≡ published self.new) }
        ensures receipt_pair { IfOk result (λ r. receipt_pair r ≡ pair_of self.new) }
        ensures err { OnErr result (published self.new ≡ published self.old) }
    {
        replace_with(
            self,
            (rt, config),
            |publisher: Publisher<C>, lent: (&R, Arc<C>)| -> (Publisher<C>, Result<Receipt<C>, Mem>)
                requires { length (published publisher) < 2 ^ 64 }
                ensures { (pair_of result.0 ≡ pair_of publisher)
                    × OnOk result.1 (published result.0 ≡ published publisher ++ arc_value lent.entry.1 ∷ [])
                    × IfOk result.1 (λ r. told_by r ≡ published result.0)
                    × IfOk result.1 (λ r. receipt_pair r ≡ pair_of result.0)
                    × OnErr result.1 (published result.0 ≡ published publisher) }
            { publisher.published_by(lent.0, lent.1) },
        )
    }

    fn published_by<R: Wait>(
        self,
        rt: &R,
        config: Arc<C>,
    ) -> (Publisher<C>, Result<Receipt<C>, Mem>)
        requires { length (published self) < 2 ^ 64 }
        ensures pair { pair_of result.0 ≡ pair_of self }
        ensures added { OnOk result.1 (published result.0 ≡ published self ++ arc_value config ∷ []) }
        ensures receipt { IfOk result.1 (λ r. told_by r ≡ published result.0) }
        ensures receipt_pair { IfOk result.1 (λ r. receipt_pair r ≡ pair_of result.0) }
        ensures err { OnErr result.1 (published result.0 ≡ published self) }
    {
        let Ok(given) = another_owner(&config) else {
            return (self, Err(Mem));
        };
        let Publisher {
            writer,
            head,
            newest,
        } = self;
        let mut front = newest.front.again();
        if !front.add(&head, &config) {
            let publisher = Publisher {
                writer,
                head,
                newest,
            };
            return (publisher, Err(Mem));
        }
        let receipt = Receipt::over(Held {
            config: given,
            front: front.again(),
        });
        let newest = Held { config, front };
        let (writer, _) = show(rt, writer, SharedList::of(&newest));
        (Publisher::over(writer, head, newest), Ok(receipt))
    }

    /// The receipt of the newest entry. It is refused where the owners of that configuration can't be counted any more.
    pub fn receipt(&self) -> Result<Receipt<C>, Mem>
        ensures list { IfOk result (λ r. told_by r ≡ published self.now) }
        ensures pair { IfOk result (λ r. receipt_pair r ≡ pair_of self.now) }
    {
        match self.newest.again() {
            Ok(held) => Ok(Receipt::over(held)),
            Err(_) => Err(Mem),
        }
    }

    /// Whether the reader's number is at most the newest one. Then the published list has all that the reader has seen.
    pub fn covers(&self, reader: &ConfigReader<C>) -> bool
        requires { reader_pair reader.now ≡ pair_of self.now }
        ensures exact { IsTrue result ↔ (length (seen_by reader.now) ≤ length (published self.now)) }
        ensures prefix { IsTrue result → GoesOn (seen_by reader.now) (published self.now) }
    {
        !self.newest.front.is_behind(reader.front())
    }

    /// Gives the publisher up, and hands out the receipt of its newest entry. It may wait for readers to leave, takes no memory
    /// and can't be refused.
    pub fn end<R: Wait>(self, rt: &R) -> Receipt<C>
        ensures list { told_by result ≡ published self }
        ensures pair { receipt_pair result ≡ pair_of self }
    {
        let Publisher {
            writer,
            head: _head,
            newest,
        } = self;
        drop(writer.take(rt));
        Receipt::over(newest)
    }
}
