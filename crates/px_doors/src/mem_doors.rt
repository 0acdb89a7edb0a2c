// Doors in memory.
ghost use Rattle.std.specs.Prelude.{◌≡◌, ◌==◌, ◌≤◌, ◌<◌, All, IfOk, IsTrue, MatchBool, false, drop, length, option_copied, slice_get, Some, true, vec_capacity, vec_len};
ghost use Rattle.px_base.specs.Causes.{Rose};
ghost use Rattle.px_ends.specs.Ends.{IsFreshEnds};
ghost use Rattle.px_ends.specs.Marks.{HasMark, numbered_ends};
ghost use Rattle.px_doors.specs.Doors.{DoorsGoesOn, Parts, fresh_doors};

use crate::{AcceptFault, Doors, ListenAddress, Parted};
use px_base::{Failed, FixedClock, List, Mem, MemDialer, TapeIn, TapeOut};
use px_ends::{Ends, Joined};
use std::alloc::Global;
use std::snapshot::Snapshot;

/// The types of the ends of a connection in memory.
pub type MemConn = Joined<TapeIn, TapeOut, MemDialer, FixedClock>;

/// The ends of a connection in memory.
pub type MemEnds = Ends<MemConn>;

/// A connection in memory that was served.
pub type MemParted = Parted<MemConn>;

/// The numbers of the calls that fail, how many calls came, and how many failed.
#[derive(Drop)]
struct Failures {
    fails: Vec<u64>,
    calls: u64,
    faults: u64,
}

/// Gives the connections of a list in order, the k-th with the mark k, and keeps those that were parted. The calls of
/// `listen` and `accept`, numbered in one row, whose numbers are on the list of failures fail.
#[derive(Drop)]
pub struct MemDoors {
    waiting: Vec<MemEnds>,
    accepted: u64,
    parted: Vec<MemParted>,
    failures: Failures,
    listens_at: Option<ListenAddress>,
    all: Snapshot<List<MemEnds>>,
    ghost rest: { waiting.items ≡ drop accepted all.value },
    ghost fewer: { vec_len parted ≤ accepted },
    ghost room: { accepted ≤ vec_capacity parted },
    ghost fresh: { All IsFreshEnds waiting.items },
}

impl MemDoors {
    /// Doors before their first call.
    pub fn new(alloc: Global, conns: List<MemEnds>, fails: &[u64]) -> Result<MemDoors, Mem>
        requires fresh { All IsFreshEnds conns }
        ensures { IfOk result (λ doors. ⟦<MemDoors as Doors>⟧.state doors ≡ fresh_doors (numbered_ends 0 conns) (length fails.now == 0)) }
    {
        let failures = Failures {
            fails: fails.to_vec(alloc)?,
            calls: 0,
            faults: 0,
        };
        Ok(MemDoors {
            all: Snapshot::of(&conns),
            waiting: conns.into_vec(),
            accepted: 0,
            parted: Vec::new(alloc),
            failures,
            listens_at: None,
        })
    }

    /// The address at which the doors were told to listen, if they were.
    pub fn listens_at(&self) -> Option<&ListenAddress>
        ensures { option_copied result ≡ (⟦<MemDoors as Doors>⟧.state self.now).listens_at }
    {
        self.listens_at.as_ref()
    }

    /// The connections that were parted, in order.
    pub fn parted(&self) -> &[MemParted]
        ensures { result.now ≡ (⟦<MemDoors as Doors>⟧.state self.now).parted }
    {
        self.parted.as_slice()
    }
}

impl Failures {
    /// Counts a call, and tells whether it fails.
    fn next_fails(&mut self) -> bool
        ensures fault { MatchBool result (Rose self.old.faults self.new.faults) (self.new.faults ≡ self.old.faults) }
        ensures later { self.old.faults ≤ self.new.faults }
        ensures steady { length self.old.fails.items ≡ 0 → result ≡ false }
        ensures fails_same { self.new.fails.items ≡ self.old.fails.items }
    {
        let call = self.calls;
        self.calls = self.calls.saturating_add(1);
        let fails = self.fails.contains(&call);
        if fails {
            self.faults = self.faults.saturating_add(1);
        }
        fails
    }
}

/// Takes the first connection, with that mark.
fn take_first(waiting: &mut Vec<MemEnds>, mark: u64) -> MemEnds
    requires some { 0 < vec_len waiting.old }
    requires fresh { All IsFreshEnds waiting.old.items }
    ensures left { waiting.new.items ≡ drop 1 waiting.old.items }
    ensures first { slice_get (numbered_ends mark waiting.old.items) 0 ≡ Some result }
    ensures mark { HasMark mark result }
    ensures fresh { IsFreshEnds result }
    ensures fresh_left { All IsFreshEnds waiting.new.items }
{
    let mut ends = waiting.remove(0);
    ends.client.source.set_mark(mark);
    ends.client_out.set_mark(mark);
    ends.dialer.set_mark(mark);
    ends
}

impl Doors for MemDoors {
    type Conn = MemConn;

    ghost state = { λ d. record {
      listens_at = d.listens_at;
      tells = true;
      conns = numbered_ends 0 d.all.value;
      accepted = d.accepted;
      parted = d.parted.items;
      faults = d.failures.faults;
      steady = length d.failures.fails.items == 0;
    } };

    fn listen(&mut self, address: ListenAddress) -> Result<(), Failed> {
        if self.failures.next_fails() {
            return Err(Failed);
        }
        self.listens_at = Some(address);
        Ok(())
    }

    #[tactic(auto, using(crate::proofs::DoorLemmas::drop_more, crate::proofs::DoorLemmas::none_left))]
    fn accept(&mut self) -> Result<Option<MemEnds>, AcceptFault> {
        if self.failures.next_fails() {
            return Err(AcceptFault::Failed);
        }
        if self.waiting.is_empty() {
            return Ok(None);
        }
        let out = self.accepted as usize - self.parted.len();
        if self.parted.reserve(out + 1).is_err() {
            return Err(AcceptFault::Mem);
        }
        let ends = take_first(&mut self.waiting, self.accepted);
        self.accepted += 1;
        Ok(Some(ends))
    }

    fn leave(_client_in: &mut TapeIn, _client_out: &mut TapeOut) {}

    fn rest(_dialer: &mut MemDialer) {}

    fn part(&mut self, parted: &mut Option<MemParted>) {
        match parted.take() {
            Some(parted) => self.parted.push_reserved(parted),
            None => {}
        }
    }
}
