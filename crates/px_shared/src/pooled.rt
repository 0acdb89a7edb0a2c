// Ends over a pool of links.
ghost use Rattle.std.specs.Prelude.{◌≡◌, []};
ghost use Rattle.px_shared.specs.Sharing.{Unpools, pooled_ends};

use px_base::Dialer;
use px_ends::{Ends, Outside};
use px_link_pool::{LinkPool, Look, Sees};
use std::alloc::Global;
use std::marker::PhantomData;

/// The types of the same ends, whose dialer keeps links to origins and uses them again.
pub struct Pooled<B> {
    below: PhantomData<B>,
}

impl<B: Outside> Outside for Pooled<B>
where
    Look: Sees<<B::Dial as Dialer>::In>,
{
    type In = B::In;

    type Out = B::Out;

    type Dial = LinkPool<B::Dial>;

    type Time = B::Time;
}

/// The same ends, with a pool of links over their dialer, which has dialled nothing. The pool is made for these ends alone, so that
/// no link is shared with another client. It takes no memory.
pub fn with_pool<B: Outside>(alloc: Global, ends: Ends<B>) -> Ends<Pooled<B>>
where
    Look: Sees<<B::Dial as Dialer>::In>,
    requires undialled { ends.dialer.dials ≡ [] }
    ensures { result ≡ pooled_ends ends }
{
    let Ends {
        client,
        client_out,
        dialer,
        clock,
        peer,
    } = ends;
    Ends {
        client,
        client_out,
        dialer: LinkPool::new(alloc, dialer),
        clock,
        peer,
    }
}

/// The ends with the dialer below the pool, which is taken apart: every link that it kept is hung up. Beside them, for how many
/// links memory was wanting while their answer was followed.
pub fn without_pool<B: Outside>(ends: Ends<Pooled<B>>) -> (Ends<B>, u64)
where
    Look: Sees<<B::Dial as Dialer>::In>,
    ensures { Unpools (record { ins = B.Dial.In.state; outs = B.Dial.Out.state }) ends result.0 result.1 }
{
    let Ends {
        client,
        client_out,
        dialer,
        clock,
        peer,
    } = ends;
    let wanting = dialer.wanting();
    let ends = Ends {
        client,
        client_out,
        dialer: dialer.into_inner(),
        clock,
        peer,
    };
    (ends, wanting)
}
