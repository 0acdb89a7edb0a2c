// The matches of an expression in a text, one by one, and the text with them replaced.
ghost use Rattle.std.specs.Prelude.{◌≡◌, ◌++◌, ◌<◌, ◌≤◌, false, [], take, drop, flat_map, length, unwrap_or, is_some, None, Some, IfOk, OnOk, IfSome, IfNone};
ghost use Rattle.regex_hir.specs.Find.{find};
ghost use Rattle.regex.specs.Search.{matches_after, LiesWithin};
ghost use Rattle.regex.specs.Locations.{location_count};
ghost use Rattle.regex.specs.Bytes.{regex_pattern, matcher_pattern, matcher_names};

use crate::items::Part;
use crate::outcomes::JobOutcome;
use px_base::{Mem, Text};
use regex::bytes::{CaptureLocations, Matcher, Regex};
use std::alloc::{AllocError, Global};

/// What searches for an expression, with room for the places of its groups.
#[derive(Drop)]
pub(crate) struct JobSearch<'r> {
    matcher: Matcher<'r>,
    places: CaptureLocations,
}

/// Takes room for a text, at the first match.
fn make_room(out: &mut Vec<u8>, hits: u64, len: usize) -> Result<(), AllocError>
    ensures { out.new.items ≡ out.old.items }
{
    if hits == 0 {
        out.reserve(len)?;
    }
    Ok(())
}

/// Adds what stands behind the last match.
fn push_rest(out: &mut Vec<u8>, text: &[u8], last: usize) -> Result<(), AllocError>
    requires { last ≤ length text.now }
    ensures { OnOk result (out.new.items ≡ out.old.items ++ drop last text.now) }
{
    out.extend_from_slice(&text[last..])
}

ghost use Rattle.px_subst.specs.Replacers.{AreWithin, part_bytes};

/// Adds what one part writes at a match.
fn write_part(
    out: &mut Vec<u8>,
    text: &[u8],
    places: &CaptureLocations,
    part: &Part,
) -> Result<(), AllocError>
    requires { AreWithin text.now places.now }
    ensures { OnOk result (out.new.items ≡ out.old.items ++ part_bytes text.now places.now part.now) }
{
    match part {
        Part::Text(bytes) => out.extend_from_slice(bytes.as_slice()),
        Part::Group(group) => match places.get(*group as usize) {
            Some(place) => out.extend_from_slice(&text[place.0..place.1]),
            None => Ok(()),
        },
    }
}

/// Adds the gap before a match, and what the parts write at it.
fn write_match(
    out: &mut Vec<u8>,
    gap: &[u8],
    text: &[u8],
    places: &CaptureLocations,
    parts: &[Part],
) -> Result<(), AllocError>
    requires { AreWithin text.now places.now }
    ensures { OnOk result (out.new.items
        ≡ out.old.items ++ (gap.now ++ flat_map (part_bytes text.now places.now) parts.now)) }
{
    out.extend_from_slice(gap)?;
    for part in parts {
        write_part(out, text, places, part)?;
    }
    Ok(())
}

impl<'r> JobSearch<'r> {
    ghost use Rattle.px_subst.specs.Jobs.{unchanged};
    ghost use Rattle.px_subst.specs.Replacers.{LiesAt, TakesNext, items_in_all, replaced_up_to};

    /// What searches for an expression.
    pub(crate) fn new(alloc: Global, expression: &'r Regex) -> Result<JobSearch<'r>, Mem>
        ensures searches { IfOk result (λ s. matcher_pattern s.matcher ≡ regex_pattern expression.now) }
        ensures room { IfOk result (λ s. location_count s.places ≡ length (matcher_names s.matcher)) }
    {
        Ok(JobSearch {
            matcher: expression.matcher(alloc)?,
            places: expression.capture_locations(alloc)?,
        })
    }

    /// Whether there is a match.
    pub(crate) fn finds(&mut self, text: &[u8]) -> bool
        requires { location_count self.old.places ≡ length (matcher_names self.old.matcher) }
        ensures value { result ≡ is_some (find (matcher_pattern self.old.matcher) text.now 0) }
        ensures same { matcher_pattern self.new.matcher ≡ matcher_pattern self.old.matcher }
        ensures room { location_count self.new.places ≡ length (matcher_names self.new.matcher) }
    {
        self.matcher.is_match(text)
    }

    /// The leftmost match from a place on. Its groups are written to `places`.
    fn find_from(&mut self, text: &[u8], start: usize) -> Option<(usize, usize)>
        requires { location_count self.old.places ≡ length (matcher_names self.old.matcher) }
        ensures none { IfNone result (find (matcher_pattern self.old.matcher) text.now start ≡ None) }
        ensures some { IfSome result (λ place. (m : _)
            × (find (matcher_pattern self.old.matcher) text.now start ≡ Some m) × LiesAt text.now m place self.new.places) }
        ensures within { IfSome result (λ place. LiesWithin 0 (length text.now) place) }
        ensures same { matcher_pattern self.new.matcher ≡ matcher_pattern self.old.matcher }
        ensures room { location_count self.new.places ≡ length (matcher_names self.new.matcher) }
    {
        let found = self
            .matcher
            .captures_read_at(&mut self.places, text, start)?;
        Some((found.start(), found.end()))
    }

    /// The next match, if one more is wanted. `after` is one more than the end of the match before, or 0. An empty match
    /// where that one ended is passed over.
    fn next_wanted(&mut self, wanted: u64, text: &[u8], after: usize) -> Option<(usize, usize)>
        requires { location_count self.old.places ≡ length (matcher_names self.old.matcher) }
        ensures none { IfNone result
            (take wanted (matches_after false (matcher_pattern self.old.matcher) text.now after) ≡ []) }
        ensures some { IfSome result (λ place. (m : _)
            × TakesNext wanted (matcher_pattern self.old.matcher) text.now after m place self.new.places) }
        ensures within { IfSome result (λ place. LiesWithin 0 (length text.now) place) }
        ensures same { matcher_pattern self.new.matcher ≡ matcher_pattern self.old.matcher }
        ensures room { location_count self.new.places ≡ length (matcher_names self.new.matcher) }
    {
        if wanted == 0 {
            return None;
        }
        let first = self.find_from(text, after.saturating_sub(1))?;
        if first.1 >= after {
            return Some(first);
        }
        self.find_from(text, after)
    }

    /// The text with its first `limit` matches replaced, or None where there is none.
    pub(crate) fn replace_matches(
        &mut self,
        alloc: Global,
        parts: &[Part],
        limit: u64,
        text: &[u8],
    ) -> Result<Option<JobOutcome>, AllocError>
        requires { location_count self.old.places ≡ length (matcher_names self.old.matcher) }
        ensures value { IfOk result (λ found. unwrap_or found (unchanged text.now)
            ≡ replaced_up_to limit (items_in_all parts.now) (matcher_pattern self.old.matcher) text.now) }
        ensures hit { IfOk result (λ found. IfSome found (λ outcome. 0 < outcome.hits)) }
        ensures same { matcher_pattern self.new.matcher ≡ matcher_pattern self.old.matcher }
        ensures room { location_count self.new.places ≡ length (matcher_names self.new.matcher) }
    {
        let mut out = Vec::new(alloc);
        let mut last = 0;
        let mut after = 0;
        let mut hits = 0;
        'matches: while let Some(place) = self.next_wanted(limit - hits, text, after) {
            make_room(&mut out, hits, text.len())?;
            write_match(&mut out, &text[last..place.0], text, &self.places, parts)?;
            last = place.1;
            after = last + 1;
            hits += 1;
        }
        if hits == 0 {
            return Ok(None);
        }
        push_rest(&mut out, text, last)?;
        Ok(Some(JobOutcome {
            text: Text::from_vec(out),
            hits,
        }))
    }
}
