// What is shown of a URL.
ghost use Rattle.std.specs.Prelude.{◌≡◌, ◌++◌, ◌<◌, All, IfOk, OnOk, codes, length, map};
ghost use Rattle.px_merge.specs.Merged.{list_names};
ghost use Rattle.px_merge.specs.Merging.{list_refs, matching, ref_of, url_actions};
ghost use Rattle.px_patterns.specs.Urls.{shown_url};
ghost use Rattle.px_show.specs.Showing.{action_lines, list_ref_line, list_ref_lines, ref_line, ref_lines, shown};

use crate::places::push_place;
use px_actions::ActionSet;
use px_base::{List, Mem, Steps, Text};
use px_config::Config;
use px_merge::{ListRef, SectionRef, Sections};
use px_patterns::Url;
use std::alloc::Global;
use std::marker::Brand;
use std::sync::ledger::{Blank, Ledger};

/// The printed URL, the places of the lists that name its host and of the sections that match it or one of the client's tags,
/// and the actions that they set, a line each. With `toggle 0` no action is shown. No tagger runs.
#[tactic(auto, unfolding(crate::specs::Showing::shown))]
pub fn show(alloc: Global, config: &Config, url: &Url, tags: &[Text]) -> Result<Text, Mem>
    ensures { IfOk result (λ text. text ≡ shown config.now url.now tags.now) }
{
    let mut out = url.print(alloc)?;
    out.push_all(b"\nsections:\n")?;
    push_lists(alloc, &config.sections, url.host.as_bytes(), &mut out)?;
    push_sections(alloc, &config.sections, url, tags, &mut out)?;
    out.push_all(b"actions:\n")?;
    push_actions(alloc, config, url, tags, &mut out)?;
    Ok(out)
}

/// Adds the places of the lists that name a host.
fn push_lists(alloc: Global, sections: &Sections, host: &[u8], out: &mut Text) -> Result<(), Mem>
    ensures { OnOk result (out.new ≡ out.old ++ list_ref_lines (list_names sections.now.lists) (list_refs sections.now.lists host.now)) }
{
    let refs = sections.listed(alloc, host)?;
    push_list_refs(sections, refs.as_slice(), out)
}

/// Adds where lists name a host.
#[tactic(auto, unfolding(crate::specs::Showing::list_ref_lines))]
fn push_list_refs(sections: &Sections, refs: &[ListRef], out: &mut Text) -> Result<(), Mem>
    requires { All (λ r. r.list < length sections.now.lists) refs.now }
    ensures { OnOk result (out.new ≡ out.old ++ list_ref_lines (list_names sections.now.lists) refs.now) }
{
    'refs: for place in refs {
        push_list_ref(sections, place, out)?;
    }
    Ok(())
}

/// Adds where a list names a host.
#[tactic(auto, using(crate::proofs::PlaceLemmas::name_at))]
fn push_list_ref(sections: &Sections, place: &ListRef, out: &mut Text) -> Result<(), Mem>
    requires { place.now.list < length sections.now.lists }
    ensures { OnOk result (out.new ≡ out.old ++ list_ref_line (list_names sections.now.lists) place.now) }
{
    push_place(sections.list_name(place.list), place.line, out)?;
    out.push(b'\n')
}

/// Adds the places of the sections that match.
fn push_sections(
    alloc: Global,
    sections: &Sections,
    url: &Url,
    tags: &[Text],
    out: &mut Text,
) -> Result<(), Mem>
    ensures { OnOk result (out.new ≡ out.old ++ ref_lines sections.now.names (map ref_of (matching sections.now.sections url.now tags.now))) }
{
    let refs = matched::<Brand>(alloc, sections, url, tags, Blank::new(1))?;
    push_refs(sections, refs.as_slice(), out)
}

/// The sections that match, where L is the name of the blank.
fn matched<L: Ledger>(
    alloc: Global,
    sections: &Sections,
    url: &Url,
    tags: &[Text],
    blank: Blank,
) -> Result<List<SectionRef>, Mem>
    requires name { blank.name ≡ L.name }
    requires parts { blank.parts ≡ L.parts }
    requires some { 0 < L.parts }
    ensures value { IfOk result (λ refs. refs ≡ map ref_of (matching sections.now.sections url.now tags.now)) }
    ensures files { IfOk result (λ refs. All (λ r. r.file < length sections.now.names) refs) }
{
    let mut steps = Steps::<L>::begin(blank);
    sections.matched(alloc, url, tags, &mut steps)
}

/// Adds where sections stand.
#[tactic(auto, unfolding(crate::specs::Showing::ref_lines))]
fn push_refs(sections: &Sections, refs: &[SectionRef], out: &mut Text) -> Result<(), Mem>
    requires { All (λ r. r.file < length sections.now.names) refs.now }
    ensures { OnOk result (out.new ≡ out.old ++ ref_lines sections.now.names refs.now) }
{
    'refs: for place in refs {
        push_ref(sections, place, out)?;
    }
    Ok(())
}

/// Adds where a section stands.
#[tactic(auto, using(crate::proofs::PlaceLemmas::name_at))]
fn push_ref(sections: &Sections, place: &SectionRef, out: &mut Text) -> Result<(), Mem>
    requires { place.now.file < length sections.now.names }
    ensures { OnOk result (out.new ≡ out.old ++ ref_line sections.now.names place.now) }
{
    push_place(sections.file_name(place.file), place.line, out)?;
    out.push(b'\n')
}

/// Adds the actions that are set, unless all actions are switched off.
fn push_actions(
    alloc: Global,
    config: &Config,
    url: &Url,
    tags: &[Text],
    out: &mut Text,
) -> Result<(), Mem>
    ensures { OnOk result (out.new ≡ out.old ++ action_lines config.now url.now tags.now) }
{
    if !config.settings.toggle {
        return Ok(());
    }
    let set = actions::<Brand>(alloc, &config.sections, url, tags, Blank::new(1))?;
    let lines = set.print()?;
    out.push_all(lines.as_bytes())
}

/// The actions that are set, where L is the name of the blank.
fn actions<L: Ledger>(
    alloc: Global,
    sections: &Sections,
    url: &Url,
    tags: &[Text],
    blank: Blank,
) -> Result<ActionSet, Mem>
    requires name { blank.name ≡ L.name }
    requires parts { blank.parts ≡ L.parts }
    requires some { 0 < L.parts }
    ensures { IfOk result (λ set. set ≡ url_actions sections.now url.now tags.now) }
{
    let mut steps = Steps::<L>::begin(blank);
    sections.url_actions(alloc, url, tags, &mut steps)
}
