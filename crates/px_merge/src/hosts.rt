// The slots in which patterns for a host are kept.
ghost use Rattle.std.specs.Prelude.{◌≡◌, ◌++◌, ℕ, Bool, IfOk, OnOk, map, true};
ghost use Rattle.std.specs.List.{list_any};
ghost use Rattle.std.specs.List.Sorted.{IsStrictlyIncreasing};
ghost use Rattle.px_patterns.specs.Hosts.{labels_in};
ghost use Rattle.px_merge.specs.Indexes.{host_keys};
ghost use Rattle.px_merge.specs.Keys.{slot_number};

use crate::keys::slot_number;
use crate::numbers::put_in_order;
use px_base::{Mem, cut};
use px_patterns::without_last_dot;
use std::alloc::Global;

const DOT: u8 = b'.';

/// Adds the slots of a host's labels, where the host has no dot at its end.
fn add_labels(count: usize, host: &[u8], numbers: &mut Vec<usize>) -> Result<(), Mem>
    ensures { OnOk result (numbers.new.items ≡ numbers.old.items ++ map (slot_number count) (labels_in host.now)) }
{
    let mut rest = Some(host);
    'labels: while let Some(bytes) = rest {
        let (label, behind) = cut(bytes, DOT);
        numbers.push(slot_number(count, label))?;
        rest = behind;
    }
    Ok(())
}

/// The slots of a host and of its labels, in ascending order.
pub fn host_slots(alloc: Global, count: usize, host: &[u8]) -> Result<Vec<usize>, Mem>
    ensures rises { IfOk result (λ numbers. IsStrictlyIncreasing numbers.items) }
    ensures keeps { IfOk result (λ numbers. (test : ℕ → Bool) → list_any test (map (slot_number count) (host_keys host.now)) ≡ true → list_any test numbers.items ≡ true) }
{
    let mut numbers = Vec::new(alloc);
    numbers.push(slot_number(count, host))?;
    add_labels(count, without_last_dot(host), &mut numbers)?;
    put_in_order(&mut numbers);
    Ok(numbers)
}
