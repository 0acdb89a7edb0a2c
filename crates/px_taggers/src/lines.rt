// Header lines of which tags are made.
ghost use Rattle.std.specs.Prelude.{◌≡◌, [], IfOk, List, OnErr, OnOk, false, ℕ};
ghost use Rattle.px_taggers.specs.Fronts.{IsWithinLines, IsWithinTagging};
ghost use Rattle.px_taggers.specs.Places.{AreInForce};
ghost use Rattle.px_taggers.specs.Tagging.{TagsLike, after_lines, rules, state, tag_headers};

use crate::taggers::{action_of, filters_of, run_taggers};
use crate::turns::{TaggerLines, Turn};
use px_actions::ActionSet;
use px_base::{List, Mem, Text};
use px_filter_files::{Filters, WarmFilters};
use px_merge::{Sections, Side, WarmSections};
use std::alloc::Global;

/// The places of the taggers in force among the filters. A name that no filter has gives none.
fn places_in_force(
    alloc: Global,
    filters: &WarmFilters<'_>,
    set: &ActionSet,
    side: Side,
) -> Result<Vec<Option<usize>>, Mem>
    ensures { IfOk result (λ places. AreInForce filters.now side set.now places.items) }
{
    let mut places = Vec::new(alloc);
    'names: for name in set.values(action_of(side)) {
        places.push(filters.place(filters_of(side), name.as_bytes()))?;
    }
    Ok(places)
}

/// The places of the taggers in force, by those before a turn in which a tag was new or none was.
fn places_behind(
    alloc: Global,
    filters: &WarmFilters<'_>,
    places: Vec<Option<usize>>,
    is_new: bool,
    set: &ActionSet,
    side: Side,
) -> Result<Vec<Option<usize>>, Mem>
    requires { is_new ≡ false → AreInForce filters.now side set.now places.items }
    ensures { IfOk result (λ places. AreInForce filters.now side set.now places.items) }
{
    if is_new {
        places_in_force(alloc, filters, set, side)
    } else {
        Ok(places)
    }
}

/// Runs on each line the taggers in force when its turn begins.
fn tag_lines(
    alloc: Global,
    sections: &mut WarmSections<'_>,
    filters: &mut WarmFilters<'_>,
    set: &mut ActionSet,
    tags: &mut List<Text>,
    headers: &TaggerLines<'_>,
) -> Result<(), Mem>
    ensures done { OnOk result (state set.new tags.new ≡ after_lines (rules sections.old.sections filters.old headers.now.side headers.now.vars.now) (state set.old tags.old) headers.now.lines.now) }
    ensures err { OnErr result (IsWithinLines (rules sections.old.sections filters.old headers.now.side headers.now.vars.now) (state set.old tags.old) headers.now.lines.now (state set.new tags.new)) }
    ensures sections { sections.new ≡ sections.old }
    ensures filters { filters.new ≡ filters.old }
{
    let mut places = places_in_force(alloc, filters, set, headers.side)?;
    let mut rest = headers.lines;
    'lines: while let Some((line, others)) = rest.split_first() {
        let turn = Turn {
            line: line.as_bytes(),
            side: headers.side,
            vars: headers.vars,
        };
        let is_new = run_taggers(
            alloc,
            sections,
            filters,
            set,
            tags,
            places.as_slice(),
            &turn,
        )?;
        places = places_behind(alloc, filters, places, is_new, set, headers.side)?;
        rest = others;
    }
    Ok(())
}

/// Whether taggers of a side are in force. Where none is, no line makes a tag, so `tag_headers_with` needs none of them.
pub fn has_taggers(set: &ActionSet, side: Side) -> bool
    ensures needless { result ≡ false → (lines : List (List ℕ)) → TagsLike set.now side [] lines }
{
    !set.values(action_of(side)).is_empty()
}

/// Makes tags of header lines and applies what the sections set for them. On each line the taggers run that are in force
/// when its turn begins, in the order of the list. A tagger makes a tag where it hits and its text isn't empty, unless the
/// set at that moment has the same text, with case, as a value of `suppress-tag`; a tag that isn't among `tags` goes last,
/// and the sections that apply to it are applied at once. Behind the last line those on absent tags of the side are
/// applied. A name that no filter has does nothing. After `Mem` set and tags are those of a front of this work (Privoxy's
/// manual, "Actions Files", `client-header-tagger`, `server-header-tagger`, `suppress-tag` and "The Tag Pattern").
#[tactic(auto, unfolding(crate::specs::Tagging::tag_headers))]
pub fn tag_headers_with(
    alloc: Global,
    sections: &mut WarmSections<'_>,
    filters: &mut WarmFilters<'_>,
    set: &mut ActionSet,
    tags: &mut List<Text>,
    headers: &TaggerLines<'_>,
) -> Result<(), Mem>
    ensures set { OnOk result (set.new ≡ (tag_headers sections.old.sections filters.old set.old tags.old headers.now.lines.now headers.now.side headers.now.vars.now).set) }
    ensures tags { OnOk result (tags.new ≡ (tag_headers sections.old.sections filters.old set.old tags.old headers.now.lines.now headers.now.side headers.now.vars.now).tags) }
    ensures err { OnErr result (IsWithinTagging (rules sections.old.sections filters.old headers.now.side headers.now.vars.now) (state set.old tags.old) headers.now.lines.now (state set.new tags.new)) }
    ensures sections { sections.new ≡ sections.old }
    ensures filters { filters.new ≡ filters.old }
{
    tag_lines(alloc, sections, filters, set, tags, headers)?;
    sections.apply_absent(alloc, set, tags.as_slice(), headers.side)
}

/// The same, where nothing is kept from search to search.
pub fn tag_headers(
    alloc: Global,
    sections: &Sections,
    filters: &Filters,
    set: &mut ActionSet,
    tags: &mut List<Text>,
    headers: &TaggerLines<'_>,
) -> Result<(), Mem>
    ensures set { OnOk result (set.new ≡ (tag_headers sections.now.sections filters.now set.old tags.old headers.now.lines.now headers.now.side headers.now.vars.now).set) }
    ensures tags { OnOk result (tags.new ≡ (tag_headers sections.now.sections filters.now set.old tags.old headers.now.lines.now headers.now.side headers.now.vars.now).tags) }
    ensures err { OnErr result (IsWithinTagging (rules sections.now.sections filters.now headers.now.side headers.now.vars.now) (state set.old tags.old) headers.now.lines.now (state set.new tags.new)) }
{
    let mut warm = sections.warm(alloc)?;
    let mut kept = filters.warm(alloc)?;
    tag_headers_with(alloc, &mut warm, &mut kept, set, tags, headers)
}
