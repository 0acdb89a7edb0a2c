// The rule that left_right keeps, and the steps.
ghost use Rattle.std.specs.Prelude.{None};
ghost use Rattle.px_publish.specs.Rules.{EachBegins, Sees};

use crate::fronts::Law;
use crate::shared::SharedList;
use atomic_table::{Join, Split};
use crossbeam_utils::rule::{Outcome, Protocol};
use left_right::reader::Reader;
use left_right::writer::Writer;
use logbook::Seen;
use std::marker::PhantomData;

/// What a thread knows of the list, if anything.
pub type Knowledge<C> = Option<Seen<C, (), Law<C>>>;

/// Each view that knows something begins the shared list.
pub struct Prefixes<C> {
    of: PhantomData<C>,
}

impl<C: Drop> Protocol<SharedList<C>, Knowledge<C>> for Prefixes<C> {
    ghost holds = { EachBegins };

    ghost first = { None };
}

/// A look or a publish: afterwards all that is shared is known.
pub struct Seeing;

impl<C: Drop> Outcome<SharedList<C>, Knowledge<C>> for Seeing {
    ghost then = { Sees };
}

/// The writer tells all that it knows.
pub struct Whole;

impl<C> Split<Knowledge<C>> for Whole {
    ghost left = { λ v. v };

    ghost right = { λ v. v };
}

/// A reader takes what it is told.
pub struct Taken;

impl<C> Join<Knowledge<C>> for Taken {
    ghost use Rattle.std.specs.Prelude.{None};

    ghost both = { λ v w. w };

    ghost spent = { None };
}

pub type ListReader<C> = Reader<SharedList<C>, Knowledge<C>, Prefixes<C>>;

pub type ListWriter<C> = Writer<SharedList<C>, SharedList<C>, Knowledge<C>, Prefixes<C>>;
