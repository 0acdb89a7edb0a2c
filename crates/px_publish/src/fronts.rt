// The published list: it only grows, and a front is a beginning of it that was seen.
ghost use Rattle.std.specs.Prelude.{◌≡◌, true, ◌+◌, ◌<◌, ◌^◌, ◌++◌, ◌∷◌, ◌↔◌, [], Some, length, slice_get, IsTrue, IsFalse};
ghost use mathlib.Core.List.{IsPrefix};

use logbook::{Gain, Offer, Opening, Plain, Play, Rule, Seen, Start, Word};
use std::marker::PhantomData;

/// The rule of the list: it has an entry, and the word that threads share is the number of its last one.
pub struct Law<C> {
    of: PhantomData<C>,
}

impl<C> Rule<C, ()> for Law<C> {
    ghost use Rattle.std.specs.Prelude.{[]};
    ghost use base.Fml.{ftrue};
    ghost use Rattle.px_publish.specs.Lists.{IsKeptList};

    ghost holds = { λ cells log. IsKeptList cells log };

    ghost first = { [] };

    ghost hinted = { λ n log. Unit {0} };

    ghost shows = { λ log. [] };

    ghost keeps = { λ names log. ftrue };

    ghost moves = { λ ask before after answer. Unit {0} };
}

/// A list begins with one entry.
struct Alone;

impl<C> Opening<C, C> for Alone {
    ghost use Rattle.std.specs.Prelude.{◌∷◌, []};

    ghost log = { λ words config. config ∷ [] };
}

/// Callers trade nothing.
struct Nothing;

impl<C> Gain<C, ()> for Nothing {
    ghost use base.Fml.{ftrue};

    ghost after = { λ names about answer. ftrue };
}

/// A step that adds an entry.
struct Add;

impl<C> Play<C, ()> for Add {
    ghost use Rattle.px_publish.specs.Lists.{AddsToSeen};

    ghost then = { AddsToSeen };
}

impl<C> Plain<C, C, ()> for Add {
    ghost use Rattle.std.specs.Prelude.{None};

    ghost ask = { λ config. config };

    ghost state = { λ config. None };
}

/// The word that holds the number of the list's last entry.
#[derive(Drop)]
pub struct Head<C> {
    word: Word<C, (), Law<C>>,
    pub ghost head_is: { (word.tracked ≡ true) × (word.key ≡ 0) },
}

/// A beginning of the list that was seen, with the number of its last entry.
#[derive(Drop)]
pub struct ListFront<C> {
    pub number: u64,
    pub seen: Seen<C, (), Law<C>>,
    pub ghost newest: { length seen.log ≡ number + 1 },
}

/// A new list of one entry. It takes no memory.
pub fn open<C>(first: &C) -> (Head<C>, ListFront<C>)
    ensures pair { result.0.word.book ≡ result.1.seen.book }
    ensures list { result.1.seen.log ≡ first.now ∷ [] }
    ensures last { slice_get result.1.seen.log result.1.number ≡ Some first.now }
{
    let (seen, mut pens) = Seen::open_row::<C, Alone>(first, Start::alone(), 1);
    let mut pen = pens.take();
    let word = Word::tracked(0, &mut pen);
    (Head { word }, ListFront { number: 0, seen })
}

impl<C> ListFront<C> {
    /// A copy.
    pub fn again(&self) -> ListFront<C>
        ensures { result ≡ self.now }
    {
        ListFront {
            number: self.number,
            seen: self.seen.again(),
        }
    }

    /// Whether it is shorter than the other, of the same list. The one that isn't longer begins the other.
    pub fn is_behind(&self, other: &ListFront<C>) -> bool
        requires { other.now.seen.book ≡ self.now.seen.book }
        ensures exact { IsTrue result ↔ (length self.now.seen.log < length other.now.seen.log) }
        ensures behind { IsTrue result → IsPrefix self.now.seen.log other.now.seen.log }
        ensures ahead { IsFalse result → IsPrefix other.now.seen.log self.now.seen.log }
    {
        let mut both = self.seen.again();
        both.learn(&other.seen);
        self.number < other.number
    }

    /// Adds an entry to all that was seen, and says whether it did. It did not where the list is longer.
    pub fn add(&mut self, head: &Head<C>, config: &C) -> bool
        requires pair { head.now.word.book ≡ self.old.seen.book }
        requires room { length self.old.seen.log < 2 ^ 64 }
        ensures book { self.new.seen.book ≡ self.old.seen.book }
        ensures stays { IsFalse result → self.new ≡ self.old }
        ensures list { IsTrue result → self.new.seen.log ≡ self.old.seen.log ++ config.now ∷ [] }
        ensures last { IsTrue result → slice_get self.new.seen.log self.new.number ≡ Some config.now }
    {
        let mut seen = self.seen.again();
        let mut offer: Offer<C, (), Law<C>, Nothing> = seen.plain::<Nothing, C, Add>(config);
        let mut pen = seen.no_pen();
        let number = self.number;
        let found = head
            .word
            .compare_exchange::<Add, Nothing>(number, number + 1, &mut seen, &mut offer, &mut pen);
        if found != number {
            return false;
        }
        *self = ListFront {
            number: number + 1,
            seen,
        };
        true
    }
}
