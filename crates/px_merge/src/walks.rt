// Candidates that are tried.
ghost use Rattle.std.specs.Prelude.{◌≡◌, ◌+◌, ◌++◌, ◌≤◌, IfOk, OnOk};
ghost use Rattle.std.specs.List.{flat_map};
ghost use Rattle.px_merge.specs.Candidates.{candidate_count};
ghost use Rattle.px_merge.specs.Finders.{AreAsked, CanFind};
ghost use Rattle.px_merge.specs.Indexes.{cost_at, hits_in, slot_at, weight};
ghost use Rattle.px_merge.specs.Merging.{is_for_url};
ghost use Rattle.px_merge.specs.Selections.{Selects};

use crate::finders::Finder;
use crate::hosts::host_slots;
use crate::indexes::PlaceIndex;
use crate::matchers::Matchers;
use crate::numbers::put_in_order;
use crate::places::PatternPlace;
use crate::sides::UrlTest;
use px_base::{Mem, Steps};
use px_patterns::KeptUnion;
use std::alloc::Global;
use std::sync::ledger::Ledger;

/// Adds the sections of those places at which a pattern matches.
#[tactic(auto, using(crate::proofs::WalkLemmas::hit_found, crate::proofs::WalkLemmas::hit_none))]
fn try_places<L: Ledger>(
    alloc: Global,
    matchers: &mut Matchers<'_>,
    places: &[PatternPlace],
    test: &UrlTest<'_>,
    hits: &mut Vec<usize>,
    steps: &mut Steps<L>,
) -> Result<(), Mem>
    ensures hits { OnOk result (hits.new.items ≡ hits.old.items ++ hits_in matchers.old (is_for_url test.now.url.now test.now.tags.now) places.now) }
    ensures steps { steps.new ≤ steps.old + weight (cost_at matchers.old test.now.url.now.host) places.now }
    ensures same { matchers.new ≡ matchers.old }
{
    let mut rest = places;
    'places: while let Some((place, others)) = rest.split_first() {
        if matchers.try_url(alloc, *place, test, steps)? {
            hits.push(place.section)?;
        }
        rest = others;
    }
    Ok(())
}

/// The same of the places whose expressions are asked together, and of none of them where the union finds nothing.
fn try_paths<L: Ledger>(
    alloc: Global,
    places: &[PatternPlace],
    union: &mut KeptUnion<'_>,
    matchers: &mut Matchers<'_>,
    test: &UrlTest<'_>,
    hits: &mut Vec<usize>,
    steps: &mut Steps<L>,
) -> Result<(), Mem>
    requires { AreAsked matchers.old union.old places.now }
    ensures hits { OnOk result (hits.new.items ≡ hits.old.items ++ hits_in matchers.old (is_for_url test.now.url.now test.now.tags.now) places.now) }
    ensures steps { steps.new ≤ steps.old + weight (cost_at matchers.old test.now.url.now.host) places.now }
    ensures same { matchers.new ≡ matchers.old }
    ensures union { union.new ≡ union.old }
{
    if places.is_empty() {
        return Ok(());
    }
    if !union.finds_any(alloc, test.url.path.as_bytes())? {
        return Ok(());
    }
    try_places(alloc, matchers, places, test, hits, steps)
}

/// The same of the places that are kept under no label.
fn try_every<L: Ledger>(
    alloc: Global,
    finder: &Finder,
    union: &mut KeptUnion<'_>,
    matchers: &mut Matchers<'_>,
    test: &UrlTest<'_>,
    hits: &mut Vec<usize>,
    steps: &mut Steps<L>,
) -> Result<(), Mem>
    requires { AreAsked matchers.old union.old finder.now.paths }
    ensures hits { OnOk result (hits.new.items ≡ hits.old.items ++ hits_in matchers.old (is_for_url test.now.url.now test.now.tags.now) (finder.now.index.always ++ finder.now.paths)) }
    ensures steps { steps.new ≤ steps.old + weight (cost_at matchers.old test.now.url.now.host) (finder.now.index.always ++ finder.now.paths) }
    ensures same { matchers.new ≡ matchers.old }
    ensures union { union.new ≡ union.old }
{
    let always = finder.index.always.as_slice();
    try_places(alloc, matchers, always, test, hits, steps)?;
    let paths = finder.paths.as_slice();
    try_paths(alloc, paths, union, matchers, test, hits, steps)?;
    Ok(())
}

/// The same of the places in some slots.
fn try_slots<L: Ledger>(
    alloc: Global,
    index: &PlaceIndex,
    matchers: &mut Matchers<'_>,
    numbers: &[usize],
    test: &UrlTest<'_>,
    hits: &mut Vec<usize>,
    steps: &mut Steps<L>,
) -> Result<(), Mem>
    ensures hits { OnOk result (hits.new.items ≡ hits.old.items ++ hits_in matchers.old (is_for_url test.now.url.now test.now.tags.now) (flat_map (slot_at index.now.slots.items) numbers.now)) }
    ensures steps { steps.new ≤ steps.old + weight (cost_at matchers.old test.now.url.now.host) (flat_map (slot_at index.now.slots.items) numbers.now) }
    ensures same { matchers.new ≡ matchers.old }
{
    let mut rest = numbers;
    'numbers: while let Some((number, others)) = rest.split_first() {
        try_places(alloc, matchers, index.slot(*number), test, hits, steps)?;
        rest = others;
    }
    Ok(())
}

/// The numbers of the sections that apply to a URL and the tags of a client, in ascending order. Of URL patterns only
/// candidates are tried, each once.
pub fn url_hits<L: Ledger>(
    alloc: Global,
    finder: &Finder,
    union: &mut KeptUnion<'_>,
    matchers: &mut Matchers<'_>,
    test: &UrlTest<'_>,
    steps: &mut Steps<L>,
) -> Result<Vec<usize>, Mem>
    requires finder { CanFind finder.now matchers.old }
    requires union { union.old ≡ finder.now.union }
    ensures selects { IfOk result (λ hits. Selects (is_for_url test.now.url.now test.now.tags.now) matchers.old hits.items) }
    ensures steps { steps.new ≤ steps.old + candidate_count matchers.old test.now.url.now.host }
    ensures same { matchers.new ≡ matchers.old }
    ensures union { union.new ≡ union.old }
{
    let index = &finder.index;
    let mut hits = Vec::new(alloc);
    let numbers = host_slots(alloc, index.slots.len(), test.url.host.as_bytes())?;
    try_every(alloc, finder, union, matchers, test, &mut hits, steps)?;
    try_slots(
        alloc,
        index,
        matchers,
        numbers.as_slice(),
        test,
        &mut hits,
        steps,
    )?;
    put_in_order(&mut hits);
    Ok(hits)
}
