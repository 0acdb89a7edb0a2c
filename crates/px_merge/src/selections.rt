// Sections that are picked by their numbers.
ghost use Rattle.std.specs.Prelude.{◌≡◌, IfOk, OnErr, OnOk, map, option_copied, option_map, option_to_list, slice_get};
ghost use Rattle.px_actions.specs.Sets.{IsUpdatedByFront};
ghost use Rattle.px_merge.specs.Merging.{applied, ref_of, updates_in};
ghost use Rattle.px_merge.specs.Selections.{picked};

use crate::places::{Placed, SectionRef};
use px_actions::ActionSet;
use px_base::{List, Mem};
use std::alloc::Global;

/// The section with a number, if there is one.
pub fn section_at(sections: &[Placed], number: usize) -> Option<&Placed>
    ensures { option_copied result ≡ slice_get sections.now number }
{
    if number < sections.len() {
        Some(&sections[number])
    } else {
        None
    }
}

/// Applies the updates of the section with a number, if there is one. After `Mem` the set has had a front of them.
fn apply_one(sections: &[Placed], number: usize, set: &mut ActionSet) -> Result<(), Mem>
    ensures ok { OnOk result (set.new ≡ applied set.old (option_to_list (slice_get sections.now number))) }
    ensures err { OnErr result (IsUpdatedByFront set.old (updates_in (option_to_list (slice_get sections.now number))) set.new) }
{
    match section_at(sections, number) {
        Some(placed) => set.apply_all(placed.section.updates.as_slice()),
        None => Ok(()),
    }
}

/// Applies the updates of the sections with some numbers. After `Mem` the set has had a front of them.
#[tactic(auto, using(crate::proofs::FrontLemmas::fronts))]
pub fn apply_picked(sections: &[Placed], numbers: &[usize], set: &mut ActionSet) -> Result<(), Mem>
    ensures ok { OnOk result (set.new ≡ applied set.old (picked sections.now numbers.now)) }
    ensures err { OnErr result (IsUpdatedByFront set.old (updates_in (picked sections.now numbers.now)) set.new) }
{
    let mut rest = numbers;
    'numbers: while let Some((number, others)) = rest.split_first() {
        apply_one(sections, *number, set)?;
        rest = others;
    }
    Ok(())
}

/// Where the section with a number stands, if there is one.
fn ref_at(sections: &[Placed], number: usize) -> Option<SectionRef>
    ensures { result ≡ option_map ref_of (slice_get sections.now number) }
{
    match section_at(sections, number) {
        Some(placed) => Some(SectionRef {
            file: placed.file,
            line: placed.section.line,
        }),
        None => None,
    }
}

/// Where the sections with some numbers stand.
pub fn refs_of(
    alloc: Global,
    sections: &[Placed],
    numbers: &[usize],
) -> Result<List<SectionRef>, Mem>
    ensures { IfOk result (λ refs. refs ≡ map ref_of (picked sections.now numbers.now)) }
{
    let mut refs = Vec::new(alloc);
    let mut rest = numbers;
    'numbers: while let Some((number, others)) = rest.split_first() {
        if let Some(place) = ref_at(sections, *number) {
            refs.push(place)?;
        }
        rest = others;
    }
    Ok(List::from_vec(refs))
}
