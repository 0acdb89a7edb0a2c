// Laws on the constants of this crate.
ghost use Rattle.std.specs.Prelude.{◌≡◌, IsTrue, length, map, slice_index_or};
ghost use Rattle.px_actions.specs.Kinds.{are_in_byte_order, entry_of};
ghost use Rattle.px_actions.specs.declared.kinds.Kind.{Kind};

use crate::kinds::KINDS;

/// The list of kinds has each kind at its place, and the names are in byte order.
pub fn constants()
    ensures count { length KINDS ≡ 41 }
    ensures places { (kind other : Kind) → slice_index_or KINDS (entry_of kind).place other ≡ kind }
    ensures order { IsTrue (are_in_byte_order (map (λ kind. (entry_of kind).name) KINDS)) }
{}
