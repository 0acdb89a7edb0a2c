// A list of hosts in memory.
ghost use Rattle.std.specs.Prelude.{◌≡◌, ◌++◌, ◌∷◌, ◌<◌, IfOk, IfSome, length, option_copied, List, ℕ, None, false};
ghost use Rattle.px_host_lists.specs.Hosts.{SameLines, behind_dot, first_listed, is_listed, line_of, listed_line, without_end_dot};
ghost use Rattle.px_host_lists.specs.Slots.{IsGathered, gathered_entries};

use crate::DOT;
use crate::gathering::Gathered;
use crate::slots::{Slot, by_hash, line_in};
use px_base::Mem;
use std::marker::Model;

/// A list of hosts, by which line each is named.
#[derive(Drop)]
pub struct HostList {
    text: Vec<u8>,
    slots: Vec<Slot>,
}

impl Model for HostList {
    ghost use Rattle.std.specs.Prelude.{List};
    ghost use Rattle.std.specs.List.Sorted.{IsNonDecreasingBy};
    ghost use Rattle.px_host_lists.specs.Hosts.{HostEntry};
    ghost use Rattle.px_host_lists.specs.Slots.{AreSlots, slot_entries};

    ghost Value = { List HostEntry };

    ghost view = { λ l. slot_entries l.text.items l.slots.items };

    ghost invariant = { λ l. AreSlots l.text.items l.slots.items × IsNonDecreasingBy (λ s. s.hash) l.slots.items };
}

impl HostList {
    /// The list of gathered hosts, in order of their numbers.
    pub(crate) fn from_gathered(gathered: Gathered) -> Result<HostList, Mem>
        requires gathered { IsGathered gathered }
        ensures { IfOk result (λ list. SameLines list (gathered_entries gathered)) }
    {
        let Gathered { text, slots } = gathered;
        let slots = by_hash(slots)?;
        Ok(HostList { text, slots })
    }

    /// The line that names a host or, of the hosts above it, the longest; of equal names the first. A dot at the host's end is
    /// passed over.
    #[tactic(auto, unfolding(crate::specs::Hosts::listed_line))]
    pub fn find(&self, host: &[u8]) -> Option<u32>
        ensures { result ≡ listed_line self.now host.now }
    {
        self.find_name(without_end_dot(host))
    }

    /// Whether a host, or what stands behind one of its dots, is named. A dot at the host's end is passed over.
    pub fn is_listed(&self, host: &[u8]) -> bool
        ensures value { result ≡ is_listed self.now host.now }
        ensures exact { result ≡ false → line_of self.now (without_end_dot host.now) ≡ None }
        ensures above { result ≡ false → (front behind : List ℕ) → without_end_dot host.now ≡ front ++ 46 ∷ behind → line_of self.now behind ≡ None }
    {
        self.find(host).is_some()
    }

    /// The line that names a host or, of the hosts above it, the longest.
    fn find_name(&self, host: &[u8]) -> Option<u32>
        ensures { result ≡ first_listed self.now host.now }
    {
        let mut rest = host;
        'labels: loop {
            match self.line_of(rest) {
                Some(line) => return Some(line),
                None => {}
            }
            match behind_dot(rest) {
                None => return None,
                Some(more) => rest = more,
            }
        }
    }

    /// The line that names exactly a host.
    fn line_of(&self, host: &[u8]) -> Option<u32>
        ensures { result ≡ line_of self.now host.now }
    {
        line_in(self.text.as_slice(), self.slots.as_slice(), host)
    }
}

/// The bytes without a dot at their end.
fn without_end_dot(host: &[u8]) -> &[u8]
    ensures { result.now ≡ without_end_dot host.now }
{
    if !host.is_empty() && host[host.len() - 1] == DOT {
        &host[..host.len() - 1]
    } else {
        host
    }
}

/// What stands behind the first dot, if there is one.
#[tactic(auto, unfolding(crate::specs::Hosts::behind_dot))]
fn behind_dot(host: &[u8]) -> Option<&[u8]>
    ensures value { option_copied result ≡ behind_dot host.now }
    ensures shorter { IfSome result (λ more. length more.now < length host.now) }
{
    let mut rest = host;
    'bytes: while let Some((first, more)) = rest.split_first() {
        if *first == DOT {
            return Some(more);
        }
        rest = more;
    }
    None
}
