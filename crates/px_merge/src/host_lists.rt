// Lists of hosts before the first actions file: which of them name a host, and what they set.
ghost use Rattle.std.specs.Prelude.{◌≡◌, ◌<◌, All, IfOk, OnOk, length};
ghost use Rattle.px_actions.specs.Sets.{updated_all};
ghost use Rattle.px_merge.specs.Merging.{list_refs, listed_updates};

use px_actions::{ActionSet, Update};
use px_base::{List, Mem, Text};
use px_host_lists::HostList;
use std::alloc::Global;

/// A list of hosts and what it sets for them, as a section with a pattern `.host` for each of its hosts would.
#[derive(Drop)]
pub struct ListedHosts {
    /// The name of its file, as it is written.
    pub name: Text,
    /// What it sets for its hosts: `+block{REASON}`.
    pub update: Update,
    pub hosts: HostList,
}

/// Where a list names a host.
#[derive(Clone, Copy, Debug, PartialEq, Eq)]
pub struct ListRef {
    /// The number of the list, counted from 0.
    pub list: usize,
    /// The number of the line, counted from 1.
    pub line: u32,
}

/// Applies the updates of the lists that name a host or a host above it, in the order of the lists.
pub fn apply_lists(lists: &[ListedHosts], host: &[u8], set: &mut ActionSet) -> Result<(), Mem>
    ensures { OnOk result (set.new ≡ updated_all set.old (listed_updates lists.now host.now)) }
{
    let mut rest = lists;
    'lists: while let Some((list, others)) = rest.split_first() {
        if list.hosts.is_listed(host) {
            set.apply(&list.update)?;
        }
        rest = others;
    }
    Ok(())
}

/// Where each list names a host or, of the hosts above it, the longest, in the order of the lists.
pub fn list_refs(alloc: Global, lists: &[ListedHosts], host: &[u8]) -> Result<List<ListRef>, Mem>
    ensures value { IfOk result (λ refs. refs ≡ list_refs lists.now host.now) }
    ensures lists { IfOk result (λ refs. All (λ r. r.list < length lists.now) refs) }
{
    let mut refs = Vec::new(alloc);
    for (number, list) in lists.iter().enumerate() {
        if let Some(line) = list.hosts.find(host) {
            refs.push(ListRef { list: number, line })?;
        }
    }
    Ok(List::from_vec(refs))
}
