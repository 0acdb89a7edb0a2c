// Doors over doors: each connection's dialer keeps links to origins and uses them again.
ghost use Rattle.std.specs.Prelude.{◌≡◌, [], IsTrue, length};
ghost use Rattle.px_doors.specs.Doors.{DoorsGoesOn};
ghost use Rattle.px_link_pool.specs.Pools.{pool_state};
ghost use Rattle.px_link_pool.specs.Shelves.{items};
ghost use Rattle.px_shared.specs.Partings.{over_pool, parted_of};
ghost use Rattle.px_shared.specs.SharedDoors.{EachComesOf, IsBelow, with_pools};

use crate::openings::Opening;
use crate::partings::{Partings, with_parting};
use crate::pooled::Pooled;
use px_base::{Dialer, Failed, LocalDialer, LocalSink, LocalSource};
use px_doors::{AcceptFault, Doors, ListenAddress, Parted};
use px_ends::{Ends, Outside};
use px_link_pool::{LinkPool, Look, Sees};
use std::alloc::Global;
use std::marker::PhantomData;
use std::snapshot::Snapshot;

/// The ends of a connection whose dialer keeps links.
pub type SharedEnds<A> = Ends<Pooled<<A as Doors>::Conn>>;

/// Such a connection that was served.
pub type SharedParted<A> = Parted<Pooled<<A as Doors>::Conn>>;

/// Doors whose connections each have a pool of links of their own over their dialer. A pool is taken apart when its connection is
/// parted, and the doors below get the connection back with its own dialer. What was parted is there for contracts alone, and
/// takes no bytes.
pub struct SharedDoors<A: Doors, N: Opening>
where
    <A::Conn as Outside>::Dial: LocalDialer,
{
    alloc: Global,
    inner: A,
    opening: PhantomData<N>,
    partings: Partings<Parted<A::Conn>, LinkPool<<A::Conn as Outside>::Dial>>,
    ghost goes_on: { DoorsGoesOn N.doors (A.state inner) },
    ghost below: { IsTrue (A.state inner).tells → ∥ EachComesOf (record { ins = ⟦<<<A::Conn as Outside>::Dial as LocalDialer>::In as LocalSource>⟧.state; outs = ⟦<<<A::Conn as Outside>::Dial as LocalDialer>::Out as LocalSink>⟧.state }) (parted_of (over_pool (λ p. pool_state (⟦<<A::Conn as Outside>::Dial as LocalDialer>⟧.state p.made_over.value) (⟦<<A::Conn as Outside>::Dial as LocalDialer>⟧.state p.inner) p.history p.link_reads p.link_writes p.opened p.hung_up)) partings) (A.state inner).parted ∥₁ },
    ghost none_lost: { IsTrue (A.state inner).tells → length (parted_of (over_pool (λ p. pool_state (⟦<<A::Conn as Outside>::Dial as LocalDialer>⟧.state p.made_over.value) (⟦<<A::Conn as Outside>::Dial as LocalDialer>⟧.state p.inner) p.history p.link_reads p.link_writes p.opened p.hung_up)) partings) ≡ length (A.state inner).parted },
}

impl<A: Doors, N: Opening + Send> SharedDoors<A, N>
where
    Look: Sees<<<A::Conn as Outside>::Dial as Dialer>::In>,
{
    /// Puts sharing over doors that have parted nothing.
    pub fn new(alloc: Global, inner: A) -> SharedDoors<A, N>
        requires opening { A.state inner ≡ N.doors }
        requires none_parted { IsTrue (A.state inner).tells → (A.state inner).parted ≡ [] }
        ensures { ⟦<SharedDoors<A, N> as Doors>⟧.state result ≡ with_pools (A.state inner) [] }
    {
        SharedDoors {
            alloc,
            inner,
            opening: PhantomData,
            partings: Partings::Nothing,
        }
    }

    /// Takes the sharing off again. The doors below are left.
    pub fn into_inner(self) -> A
        ensures below { IsBelow (record { ins = A.Conn.Dial.In.state; outs = A.Conn.Dial.Out.state }) (⟦<SharedDoors<A, N> as Doors>⟧.state self) (A.state result) }
        ensures goes_on { DoorsGoesOn N.doors (A.state result) }
    {
        let SharedDoors {
            alloc: _,
            inner,
            opening: _,
            partings: _,
        } = self;
        inner
    }
}

impl<A: Doors, N: Opening + Send> Doors for SharedDoors<A, N>
where
    Look: Sees<<<A::Conn as Outside>::Dial as Dialer>::In>,
{
    type Conn = Pooled<A::Conn>;

    ghost state = { λ d. with_pools (A.state d.inner) (parted_of (over_pool ⟦<LinkPool<<A::Conn as Outside>::Dial> as Dialer>⟧.state) d.partings) };

    #[tactic(auto, using(crate::proofs::SharedDoorLemmas::goes_on_over, crate::proofs::SharedDoorLemmas::stays_over, crate::proofs::SharedDoorLemmas::same_parted, crate::proofs::SharedDoorLemmas::same_count))]
    fn listen(&mut self, address: ListenAddress) -> Result<(), Failed> {
        self.inner.listen(address)
    }

    /// Puts a pool over the connection's dialer.
    #[tactic(auto, using(crate::proofs::SharedDoorLemmas::goes_on_over, crate::proofs::SharedDoorLemmas::stays_over, crate::proofs::SharedDoorLemmas::comes_over, crate::proofs::SharedDoorLemmas::ends_over, crate::proofs::SharedDoorLemmas::same_parted, crate::proofs::SharedDoorLemmas::same_count))]
    fn accept(&mut self) -> Result<Option<SharedEnds<A>>, AcceptFault> {
        match self.inner.accept() {
            Ok(found) => match found {
                Some(ends) => {
                    let Ends {
                        client,
                        client_out,
                        dialer,
                        clock,
                        peer,
                    } = ends;
                    Ok(Some(Ends {
                        client,
                        client_out,
                        dialer: LinkPool::new(self.alloc, dialer),
                        clock,
                        peer,
                    }))
                }
                None => Ok(None),
            },
            Err(fault) => Err(fault),
        }
    }

    fn leave(client_in: &mut <A::Conn as Outside>::In, client_out: &mut <A::Conn as Outside>::Out) {
        A::leave(client_in, client_out);
    }

    /// Hangs up the links that the connection's pool keeps.
    fn rest(dialer: &mut LinkPool<<A::Conn as Outside>::Dial>)
        ensures dialer_same { ⟦<LinkPool<<A::Conn as Outside>::Dial> as Dialer>⟧.state dialer.new ≡ ⟦<LinkPool<<A::Conn as Outside>::Dial> as Dialer>⟧.state dialer.old }
        ensures none_kept { items dialer.new.kept ≡ [] }
    {
        dialer.rest();
    }

    /// Takes the connection's pool apart, which hangs up the links that it kept.
    #[tactic(auto, using(crate::proofs::SharedDoorLemmas::goes_on_over, crate::proofs::SharedDoorLemmas::room_below, crate::proofs::SharedDoorLemmas::more_count))]
    fn part(&mut self, parted: &mut Option<SharedParted<A>>) {
        match parted.take() {
            Some(parted) => {
                let Parted {
                    number,
                    handed,
                    session,
                    ends,
                } = parted;
                let Ends {
                    client,
                    client_out,
                    dialer,
                    clock,
                    peer,
                } = ends;
                let pool = Snapshot::of(&dialer);
                let ends = Ends {
                    client,
                    client_out,
                    dialer: dialer.into_inner(),
                    clock,
                    peer,
                };
                let below = Parted {
                    number,
                    handed,
                    session,
                    ends,
                };
                let noted = Snapshot::of(&below);
                let mut place = Some(below);
                self.inner.part(&mut place);
                match place {
                    None => {}
                    Some(_left) => unreachable!(),
                }
                self.partings = with_parting(&self.partings, noted, pool);
            }
            None => {}
        }
    }
}
