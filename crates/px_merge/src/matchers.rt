// Patterns with what they keep from search to search.
ghost use Rattle.std.specs.Prelude.{◌≡◌, ◌+◌, ◌≤◌, IfOk, length, slice_get};
ghost use Rattle.px_merge.specs.Indexes.{cost_of, passes, pattern_at};
ghost use Rattle.px_merge.specs.Merging.{is_for_url};
ghost use Rattle.px_merge.specs.Selections.{is_for_test, patterns_in};

use crate::expressions::{kept_at, number_at, pattern_at};
use crate::places::{PatternPlace, Placed};
use crate::selections::section_at;
use crate::sides::{TagTest, UrlTest};
use crate::tries::{may_fit, try_tags, try_url};
use px_base::{Mem, Steps};
use px_patterns::KeptPattern;
use std::alloc::Global;
use std::marker::Model;
use std::sync::ledger::Ledger;

/// Sections that are lent, seen as those sections in file order, with what their patterns keep from search to search.
#[derive(Drop)]
pub struct Matchers<'c> {
    sections: &'c [Placed],
    /// Where patterns with an expression stand, in ascending order.
    places: &'c [PatternPlace],
    /// At each of these places, the expressions of the pattern and what they keep.
    kept: Vec<KeptPattern<'c>>,
}

impl<'c> Model for Matchers<'c> {
    ghost use Rattle.std.specs.Prelude.{◌≡◌, List, map};
    ghost use Rattle.px_merge.specs.declared.places.Placed.{Placed};
    ghost use Rattle.px_merge.specs.Expressions.{kept_at};

    ghost Value = { List Placed };

    ghost view = { λ m. m.sections.now };

    ghost invariant = { λ m. m.kept.items ≡ map (kept_at m.sections.now) m.places.now };
}

impl<'c> Matchers<'c> {
    /// Sections whose patterns haven't searched, and the places of their expressions.
    pub fn new(
        alloc: Global,
        sections: &'c [Placed],
        places: &'c [PatternPlace],
    ) -> Result<Matchers<'c>, Mem>
        ensures { IfOk result (λ matchers. matchers ≡ sections.now) }
    {
        let mut kept = Vec::with_capacity(alloc, places.len())?;
        'places: for place in places {
            kept.push(kept_at(sections, *place))?;
        }
        Ok(Matchers {
            sections,
            places,
            kept,
        })
    }

    /// The sections.
    pub fn sections(&self) -> &'c [Placed]
        ensures { result.now ≡ self.now }
    {
        self.sections
    }

    /// How many patterns the section with a number has.
    pub fn count_patterns(&self, section: usize) -> usize
        ensures { result ≡ length (patterns_in (slice_get self.now section)) }
    {
        match section_at(self.sections, section) {
            Some(placed) => placed.section.patterns.len(),
            None => 0,
        }
    }

    /// Whether the pattern at a place, if there is one, passes a test of tags.
    pub fn try_tags(
        &mut self,
        alloc: Global,
        place: PatternPlace,
        test: TagTest<'_>,
    ) -> Result<bool, Mem>
        ensures value { IfOk result (λ yes. yes ≡ passes (is_for_test test.entry) (pattern_at self.old place)) }
        ensures same { self.new ≡ self.old }
    {
        let Some(pattern) = pattern_at(self.sections, place) else {
            return Ok(false);
        };
        match number_at(self.places, place, pattern) {
            Some(number) => try_tags(alloc, pattern, &mut self.kept[number], test),
            None => try_tags(alloc, pattern, &mut KeptPattern::none(), test),
        }
    }

    /// Whether the pattern at a place, if there is one, matches a URL or one of a client's tags.
    pub fn try_url<L: Ledger>(
        &mut self,
        alloc: Global,
        place: PatternPlace,
        test: &UrlTest<'_>,
        steps: &mut Steps<L>,
    ) -> Result<bool, Mem>
        ensures value { IfOk result (λ yes. yes ≡ passes (is_for_url test.now.url.now test.now.tags.now) (pattern_at self.old place)) }
        ensures steps { steps.new ≤ steps.old + cost_of test.now.url.now.host (pattern_at self.old place) }
        ensures same { self.new ≡ self.old }
    {
        let Some(pattern) = pattern_at(self.sections, place) else {
            return Ok(false);
        };
        if !may_fit(pattern, test.url) {
            return Ok(false);
        }
        match number_at(self.places, place, pattern) {
            Some(number) => try_url(alloc, pattern, &mut self.kept[number], test, steps),
            None => try_url(alloc, pattern, &mut KeptPattern::none(), test, steps),
        }
    }
}
