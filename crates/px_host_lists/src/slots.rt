// Slots: where the hosts of a list stand in its text.
ghost use Rattle.std.specs.Prelude.{◌≡◌, IfOk};
ghost use Rattle.std.specs.List.Sorted.{IsNonDecreasingBy, IsPermutation, IsStableByKey};
ghost use Rattle.std.specs.Ordering.{nat_cmp};
ghost use Rattle.px_host_lists.specs.Hosts.{line_of};
ghost use Rattle.px_host_lists.specs.Slots.{AreSlots, IsSlot, slot_entries, slot_host};

use crate::hashes::hash_of;
use px_base::{Mem, same_without_case};

/// Where a host stands in the text, and its line in the file.
#[derive(Clone, Copy)]
pub(crate) struct Slot {
    pub hash: u32,
    pub start: u32,
    pub line: u32,
    pub len: u8,
}

/// The slots in order of their numbers, those of one number in the order that they had.
pub(crate) fn by_hash(slots: Vec<Slot>) -> Result<Vec<Slot>, Mem>
    ensures rising { IfOk result (λ sorted. IsNonDecreasingBy (λ s. s.hash) sorted.items) }
    ensures permutation { IfOk result (λ sorted. IsPermutation slots.items sorted.items) }
    ensures stable { IfOk result (λ sorted. IsStableByKey (λ s. s.hash) nat_cmp slots.items sorted.items) }
{
    let mut sorted = slots;
    sorted.sort_by_key(|slot| slot.hash)?;
    Ok(sorted)
}

/// The line of the first slot that has exactly a host.
pub(crate) fn line_in(text: &[u8], slots: &[Slot], host: &[u8]) -> Option<u32>
    requires slots { AreSlots text.now slots.now }
    requires rising { IsNonDecreasingBy (λ s. s.hash) slots.now }
    ensures { result ≡ line_of (slot_entries text.now slots.now) host.now }
{
    let hash = hash_of(host);
    let start = slots.partition_point(|slot| slot.hash < hash);
    let mut rest = &slots[start..];
    'slots: while let Some((slot, more)) = rest.split_first() {
        if slot.hash != hash {
            return None;
        }
        if same_without_case(slot_host(text, slot), host) {
            return Some(slot.line);
        }
        rest = more;
    }
    None
}

/// The bytes of a slot's host.
fn slot_host<'a>(text: &'a [u8], slot: &Slot) -> &'a [u8]
    requires { IsSlot text.now slot.now }
    ensures { result.now ≡ slot_host text.now slot.now }
{
    let start = slot.start as usize;
    &text[start..start + slot.len as usize]
}
