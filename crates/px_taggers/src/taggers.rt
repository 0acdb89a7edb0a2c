// Taggers that run on a line.
ghost use Rattle.std.specs.Prelude.{◌≡◌, ◌<◌, IfOk, IfSome, OnErr, false, unwrap_or};
ghost use Rattle.px_filter_files.specs.Places.{jobs_at_place};
ghost use Rattle.px_subst.specs.Jobs.{unchanged};
ghost use Rattle.px_taggers.specs.Fronts.{IsWithinLine};
ghost use Rattle.px_taggers.specs.Places.{AreInForce, IsPlaceOf, IsWithinPlace, after_place, tag_by};
ghost use Rattle.px_taggers.specs.Tagging.{action_of, after_line, filters_of, rules, state, tag_in};

use crate::tags::{is_left_out, put};
use crate::turns::Turn;
use px_actions::{ActionSet, Kind};
use px_base::{List, Mem, Text};
use px_filter_files::{FilterKind, WarmFilters};
use px_merge::{Side, WarmSections};
use px_subst::JobOutcome;
use std::alloc::Global;

/// The action that names the taggers of a side.
pub fn action_of(side: Side) -> Kind
    ensures { result ≡ action_of side }
{
    match side {
        Side::Request => Kind::ClientHeaderTagger,
        Side::Response => Kind::ServerHeaderTagger,
    }
}

/// The filters that are taggers of a side.
pub fn filters_of(side: Side) -> FilterKind
    ensures { result ≡ filters_of side }
{
    match side {
        Side::Request => FilterKind::ClientTagger,
        Side::Response => FilterKind::ServerTagger,
    }
}

/// The tag that a tagger makes, by what it found in a line.
fn tag_in(found: Option<JobOutcome>, line: &[u8]) -> Option<Text>
    requires { IfSome found (λ outcome. 0 < outcome.hits) }
    ensures { result ≡ tag_in (unwrap_or found (unchanged line.now)) }
{
    let outcome = found?;
    if outcome.text.is_empty() {
        return None;
    }
    Some(outcome.text)
}

/// The tag that the tagger at a place makes of a line. Where there is no place there is no tag.
#[tactic(auto, unfolding(crate::specs::Places::tag_by), using(crate::proofs::PlaceLemmas::no_tag))]
fn make_tag(
    alloc: Global,
    filters: &mut WarmFilters<'_>,
    place: Option<usize>,
    turn: &Turn<'_>,
) -> Result<Option<Text>, Mem>
    requires { IsPlaceOf filters.old place }
    ensures value { IfOk result (λ tag. tag ≡ tag_by (jobs_at_place filters.old place) turn.now.vars.now turn.now.line.now) }
    ensures same { filters.new ≡ filters.old }
{
    let Some(at) = place else {
        return Ok(None);
    };
    if !filters.finds_at(alloc, at, turn.line, turn.vars)? {
        return Ok(None);
    }
    let found = filters.try_run_at(alloc, at, turn.line, turn.vars)?;
    Ok(tag_in(found, turn.line))
}

/// Runs the tagger at a place on a line. Whether its tag is new.
#[tactic(auto, using(crate::proofs::FrontLemmas::made_none, crate::proofs::FrontLemmas::made_left_out, crate::proofs::FrontLemmas::made_new, crate::proofs::FrontLemmas::put_stopped, crate::proofs::FrontLemmas::tag_begins))]
fn run_tagger(
    alloc: Global,
    sections: &mut WarmSections<'_>,
    filters: &mut WarmFilters<'_>,
    set: &mut ActionSet,
    tags: &mut List<Text>,
    place: Option<usize>,
    turn: &Turn<'_>,
) -> Result<bool, Mem>
    requires { IsPlaceOf filters.old place }
    ensures done { IfOk result (λ _. state set.new tags.new ≡ after_place (rules sections.old.sections filters.old turn.now.side turn.now.vars.now) turn.now.line.now (state set.old tags.old) place) }
    ensures still { IfOk result (λ is_new. is_new ≡ false → set.new ≡ set.old) }
    ensures err { OnErr result (IsWithinPlace (rules sections.old.sections filters.old turn.now.side turn.now.vars.now) turn.now.line.now (state set.old tags.old) place (state set.new tags.new)) }
    ensures sections { sections.new ≡ sections.old }
    ensures filters { filters.new ≡ filters.old }
{
    let Some(tag) = make_tag(alloc, filters, place, turn)? else {
        return Ok(false);
    };
    if is_left_out(set, tags.as_slice(), tag.as_bytes()) {
        return Ok(false);
    }
    put(alloc, sections, set, tags, tag)?;
    Ok(true)
}

/// Runs the taggers in force, which stand at these places, on a line. Whether one of their tags is new.
pub fn run_taggers(
    alloc: Global,
    sections: &mut WarmSections<'_>,
    filters: &mut WarmFilters<'_>,
    set: &mut ActionSet,
    tags: &mut List<Text>,
    places: &[Option<usize>],
    turn: &Turn<'_>,
) -> Result<bool, Mem>
    requires { AreInForce filters.old turn.now.side set.old places.now }
    ensures done { IfOk result (λ _. state set.new tags.new ≡ after_line (rules sections.old.sections filters.old turn.now.side turn.now.vars.now) (state set.old tags.old) turn.now.line.now) }
    ensures still { IfOk result (λ is_new. is_new ≡ false → set.new ≡ set.old) }
    ensures err { OnErr result (IsWithinLine (rules sections.old.sections filters.old turn.now.side turn.now.vars.now) (state set.old tags.old) turn.now.line.now (state set.new tags.new)) }
    ensures sections { sections.new ≡ sections.old }
    ensures filters { filters.new ≡ filters.old }
{
    let mut has_new = false;
    let mut rest = places;
    'places: while let Some((place, others)) = rest.split_first() {
        let is_new = run_tagger(alloc, sections, filters, set, tags, *place, turn)?;
        has_new = has_new || is_new;
        rest = others;
    }
    Ok(has_new)
}
