// Places of patterns, found by the labels of a host.
ghost use Rattle.std.specs.Prelude.{◌≡◌, ◌+◌, ◌≤◌, ℕ, List, true, IfOk, OnOk, length};
ghost use Rattle.std.specs.List.{list_any};
ghost use Rattle.std.specs.Str.{str_eq_ignore_ascii_case};
ghost use Rattle.px_patterns.specs.Patterns.{url_matches};
ghost use Rattle.px_patterns.specs.declared.urls.Url.{Url};
ghost use Rattle.px_merge.specs.declared.places.PatternPlace.{PatternPlace};
ghost use Rattle.px_merge.specs.Indexes.{Finds, FindsUnder, Grows, HasFirstPatterns, IsIndexed, host_keys, index_weight, patterns_weight, slot_at};

use crate::keys::slot_number;
use crate::labels::{key_of, label_counts};
use crate::places::{PatternPlace, Placed};
use px_action_files::Pattern;
use px_base::{List, Mem};
use px_patterns::UrlPattern;
use std::alloc::Global;

/// The places of patterns: those that may match every host, and the others by the number of a label or an address.
#[derive(Drop)]
pub struct PlaceIndex {
    pub always: List<PatternPlace>,
    pub slots: Vec<List<PatternPlace>>,
}

impl PlaceIndex {
    /// The places in the slot with a number.
    pub fn slot(&self, number: usize) -> &[PatternPlace]
        ensures { result.now ≡ slot_at self.now.slots.items number }
    {
        if number < self.slots.len() {
            self.slots[number].as_slice()
        } else {
            &[]
        }
    }

    /// Adds a place that is found by each text that is this one without case.
    fn add_key(&mut self, text: &[u8], place: PatternPlace) -> Result<(), Mem>
        ensures kept { OnOk result (Grows self.old self.new) }
        ensures added { OnOk result ((keys : List (List ℕ)) → list_any (str_eq_ignore_ascii_case text.now) keys ≡ true → FindsUnder self.new place keys) }
        ensures once { OnOk result ((weigh : PatternPlace → ℕ) → index_weight weigh self.new ≤ index_weight weigh self.old + weigh place) }
    {
        let count = self.slots.len();
        let at = slot_number(count, text);
        if at >= count {
            return self.add_always(place);
        }
        match self.slots[at].push(place) {
            Ok(()) => Ok(()),
            Err(_) => Err(Mem),
        }
    }

    /// Adds a place that is found by every host.
    fn add_always(&mut self, place: PatternPlace) -> Result<(), Mem>
        ensures kept { OnOk result (Grows self.old self.new) }
        ensures added { OnOk result ((keys : List (List ℕ)) → FindsUnder self.new place keys) }
        ensures once { OnOk result ((weigh : PatternPlace → ℕ) → index_weight weigh self.new ≤ index_weight weigh self.old + weigh place) }
    {
        match self.always.push(place) {
            Ok(()) => Ok(()),
            Err(_) => Err(Mem),
        }
    }

    /// Adds the place of a URL pattern.
    fn add_url(
        &mut self,
        counts: &[usize],
        pattern: &UrlPattern,
        place: PatternPlace,
    ) -> Result<(), Mem>
        ensures kept { OnOk result (Grows self.old self.new) }
        ensures added { OnOk result ((url : Url) → url_matches pattern.now url ≡ true → FindsUnder self.new place (host_keys url.host)) }
        ensures once { OnOk result ((weigh : PatternPlace → ℕ) → index_weight weigh self.new ≤ index_weight weigh self.old + weigh place) }
    {
        match key_of(counts, pattern) {
            Some(text) => {
                self.add_key(text, place)?;
                Ok(())
            }
            None => {
                self.add_always(place)?;
                Ok(())
            }
        }
    }

    /// Adds the place of a pattern. TAG, NO-REQUEST-TAG and NO-RESPONSE-TAG patterns apply to no URL, so they are left out.
    fn add(&mut self, counts: &[usize], pattern: &Pattern, place: PatternPlace) -> Result<(), Mem>
        ensures kept { OnOk result (Grows self.old self.new) }
        ensures added { OnOk result (Finds self.new place pattern.now) }
        ensures once { OnOk result ((weigh : PatternPlace → ℕ) → index_weight weigh self.new ≤ index_weight weigh self.old + weigh place) }
    {
        match pattern {
            Pattern::Url(pattern) => {
                self.add_url(counts, pattern, place)?;
                Ok(())
            }
            Pattern::ClientTag(_) => {
                self.add_always(place)?;
                Ok(())
            }
            Pattern::Tag(_) => Ok(()),
            Pattern::NoRequestTag(_) => Ok(()),
            Pattern::NoResponseTag(_) => Ok(()),
        }
    }

    /// Adds the patterns of the section with a number.
    fn add_section(
        &mut self,
        counts: &[usize],
        number: usize,
        patterns: &[Pattern],
    ) -> Result<(), Mem>
        ensures kept { OnOk result (Grows self.old self.new) }
        ensures added { OnOk result (HasFirstPatterns self.new number patterns.now (length patterns.now)) }
        ensures once { OnOk result ((weigh : PatternPlace → ℕ) → index_weight weigh self.new ≤ index_weight weigh self.old + patterns_weight weigh number 0 patterns.now) }
    {
        for (at, shown) in patterns.iter().enumerate() {
            self.add(
                counts,
                shown,
                PatternPlace {
                    section: number,
                    pattern: at,
                },
            )?;
        }
        Ok(())
    }

    /// An index with this many slots, in which no pattern is kept.
    fn empty(alloc: Global, count: usize) -> Result<PlaceIndex, Mem>
        ensures { IfOk result (λ index. (weigh : PatternPlace → ℕ) → index_weight weigh index ≡ 0) }
    {
        let mut slots = Vec::new(alloc);
        'slots: for _ in 0..count {
            let none = List::new(alloc);
            slots.push(none)?;
        }
        let always = List::new(alloc);
        Ok(PlaceIndex { always, slots })
    }

    /// The patterns of sections, indexed by about as many slots as there are patterns.
    pub fn new(alloc: Global, sections: &[Placed], count: usize) -> Result<PlaceIndex, Mem>
        ensures { IfOk result (λ index. IsIndexed index sections.now) }
    {
        let counts = label_counts(alloc, sections, count)?;
        let mut index = PlaceIndex::empty(alloc, count)?;
        for (at, shown) in sections.iter().enumerate() {
            index.add_section(&counts, at, shown.section.patterns.as_slice())?;
        }
        Ok(index)
    }
}
