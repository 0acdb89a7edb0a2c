// Tags that stand in a list.
ghost use Rattle.std.specs.Prelude.{◌≡◌, ◌⊎◌, ◌++◌, ◌∷◌, [], OnErr, OnOk};
ghost use Rattle.px_actions.specs.Sets.{IsUpdatedByFront, is_among};
ghost use Rattle.px_merge.specs.Merging.{applied, tagged_sections, updates_in};
ghost use Rattle.px_taggers.specs.Tagging.{is_left_out, state};

use px_actions::{ActionSet, Kind};
use px_base::{List, Mem, Text};
use px_merge::WarmSections;
use std::alloc::Global;

/// Whether a set has a tag as a value of `suppress-tag`, or it stands among others already: then it isn't made.
pub fn is_left_out(set: &ActionSet, tags: &[Text], tag: &[u8]) -> bool
    ensures { result ≡ is_left_out (state set.now tags.now) tag.now }
{
    is_among(tag, set.values(Kind::SuppressTag)) || is_among(tag, tags)
}

/// Whether a tag stands among others.
fn is_among(tag: &[u8], tags: &[Text]) -> bool
    ensures { result ≡ is_among tag.now tags.now }
{
    tags.iter().any(|other| other.as_bytes() == tag)
}

/// Adds a tag at the end and applies the sections that apply to it. After `Mem` nothing has changed, or the tag stands and
/// a front of the updates is made.
pub fn put(
    alloc: Global,
    sections: &mut WarmSections<'_>,
    set: &mut ActionSet,
    tags: &mut List<Text>,
    tag: Text,
) -> Result<(), Mem>
    ensures set { OnOk result (set.new ≡ applied set.old (tagged_sections sections.old.sections tag)) }
    ensures tags { OnOk result (tags.new ≡ tags.old ++ tag ∷ []) }
    ensures err { OnErr result (((set.new ≡ set.old) × (tags.new ≡ tags.old))
        ⊎ ((tags.new ≡ tags.old ++ tag ∷ []) × IsUpdatedByFront set.old (updates_in (tagged_sections sections.old.sections tag)) set.new)) }
    ensures same { sections.new ≡ sections.old }
{
    let at = tags.len();
    tags.add(tag)?;
    sections.apply_tag(alloc, set, tags.as_slice()[at].as_bytes())
}
