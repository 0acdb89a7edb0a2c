// Lists of hosts and sections, and what they set.
ghost use Rattle.std.specs.Prelude.{◌≡◌, ◌+◌, ◌<◌, ◌≤◌, All, IfOk, OnErr, OnOk, Some, length, map, slice_get};
ghost use Rattle.px_actions.specs.Sets.{IsUpdatedByFront};
ghost use Rattle.px_merge.specs.Candidates.{candidate_count};
ghost use Rattle.px_merge.specs.Finders.{CanFind};
ghost use Rattle.px_merge.specs.Merged.{list_names, names_of, pattern_count, sections_of};
ghost use Rattle.px_merge.specs.Merging.{absent, applied, list_refs, matching, ref_of, tagged_sections, updates_in, url_actions};
ghost use Rattle.px_merge.specs.Selections.{Selects, is_of_purpose};
ghost use Rattle.px_merge.specs.declared.lists.Purpose.TheVariants.{Absent, Tag};

use crate::building::{add_files, counts_of};
use crate::expressions::expression_places;
use crate::finders::Finder;
use crate::host_lists::{ListRef, ListedHosts, list_refs};
use crate::lists::{Purpose, numbers_of};
use crate::places::{PatternPlace, Placed, SectionCounts, SectionRef};
use crate::sides::Side;
use crate::warm::WarmSections;
use px_action_files::ActionFile;
use px_actions::ActionSet;
use px_base::{List, Mem, Steps, Text};
use px_patterns::Url;
use std::alloc::Global;
use std::marker::Model;
use std::sync::ledger::Ledger;

/// Lists of hosts and the sections of actions files, seen as the lists, the names of the files and their sections in file order.
#[derive(Drop)]
pub struct Sections {
    lists: List<ListedHosts>,
    names: Vec<Text>,
    sections: Vec<Placed>,
    counts: SectionCounts,
    /// The places of all patterns that apply to URLs.
    finder: Finder,
    /// The places of all patterns with an expression, in ascending order.
    expressions: Vec<PatternPlace>,
    /// The sections with TAG patterns.
    tags: Vec<usize>,
    /// The sections with NO-REQUEST-TAG patterns.
    requests: Vec<usize>,
    /// The sections with NO-RESPONSE-TAG patterns.
    responses: Vec<usize>,
}

impl Model for Sections {
    ghost use Rattle.px_merge.specs.Merged.{Merged};

    ghost Value = { Merged };

    ghost use Rattle.px_merge.specs.Selections.{AreKept};

    ghost view = { λ s. record { lists = s.lists; names = s.names.items; sections = s.sections.items } };

    ghost invariant = { λ s. AreKept s.names.items s.sections.items s.counts s.finder s.tags.items s.requests.items s.responses.items };
}

impl Sections {
    /// Lists of hosts, and the sections of files in the order of the files. Where there are 2^32 files, sections or patterns, or
    /// more, it is as if memory were wanting.
    pub fn new(
        alloc: Global,
        lists: List<ListedHosts>,
        files: List<(Text, ActionFile)>,
    ) -> Result<Sections, Mem>
        ensures lists { IfOk result (λ s. s.lists ≡ lists) }
        ensures names { IfOk result (λ s. s.names ≡ names_of files) }
        ensures sections { IfOk result (λ s. s.sections ≡ sections_of files) }
    {
        let mut names = Vec::new(alloc);
        let mut sections = Vec::new(alloc);
        add_files(files, &mut names, &mut sections)?;
        let counts = counts_of(names.as_slice(), sections.as_slice())?;
        let finder = Finder::new(alloc, sections.as_slice(), counts.patterns as usize)?;
        let expressions = expression_places(alloc, sections.as_slice())?;
        let tags = numbers_of(alloc, sections.as_slice(), Purpose::Tag)?;
        let requests = numbers_of(alloc, sections.as_slice(), Purpose::Absent(Side::Request))?;
        let responses = numbers_of(alloc, sections.as_slice(), Purpose::Absent(Side::Response))?;
        Ok(Sections {
            lists,
            names,
            sections,
            counts,
            finder,
            expressions,
            tags,
            requests,
            responses,
        })
    }

    /// The name of a list's file, by the list's number counted from 0.
    #[tactic(auto, using(crate::proofs::HostListLemmas::name_of_list))]
    pub fn list_name(&self, list: usize) -> &[u8]
        requires { list < length self.now.lists }
        ensures { slice_get (list_names self.now.lists) list ≡ Some result.now }
    {
        self.lists.as_slice()[list].name.as_bytes()
    }

    /// The name of a file, by its number counted from 0.
    pub fn file_name(&self, file: u32) -> &[u8]
        requires { file < length self.now.names }
        ensures { slice_get self.now.names file ≡ Some result.now }
    {
        self.names[file as usize].as_bytes()
    }

    /// How many files, sections and patterns there are. It takes no memory.
    pub fn counts(&self) -> SectionCounts
        ensures files { result.files ≡ length self.now.names }
        ensures sections { result.sections ≡ length self.now.sections }
        ensures patterns { result.patterns ≡ pattern_count self.now.sections }
    {
        self.counts
    }

    /// The sections with what their patterns keep from search to search. What searches is made at the first search.
    pub fn warm(&self, alloc: Global) -> Result<WarmSections<'_>, Mem>
        ensures { IfOk result (λ warm. warm ≡ self.now) }
    {
        WarmSections::new(alloc, self)
    }

    /// What lists and sections set for a URL and the tags of a client: from the empty set, the updates of each list that names
    /// the URL's host or a host above it, in the order of the lists, and then those of each section that has a URL pattern that
    /// matches the URL or a CLIENT-TAG pattern that matches one of the tags, in file order.
    /// Of URL patterns at most the candidates for the host take a step. Nothing is kept from search to search.
    pub fn url_actions<L: Ledger>(
        &self,
        alloc: Global,
        url: &Url,
        tags: &[Text],
        steps: &mut Steps<L>,
    ) -> Result<ActionSet, Mem>
        ensures value { IfOk result (λ set. set ≡ url_actions self.now url.now tags.now) }
        ensures steps { steps.new ≤ steps.old + candidate_count self.now.sections url.now.host }
    {
        let mut warm = self.warm(alloc)?;
        warm.url_actions(alloc, url, tags, steps)
    }

    /// Where each list names a host or, of the hosts above it, the longest, in the order of the lists.
    pub fn listed(&self, alloc: Global, host: &[u8]) -> Result<List<ListRef>, Mem>
        ensures value { IfOk result (λ refs. refs ≡ list_refs self.now.lists host.now) }
        ensures lists { IfOk result (λ refs. All (λ r. r.list < length self.now.lists) refs) }
    {
        list_refs(alloc, self.lists.as_slice(), host)
    }

    /// Where the sections stand that `url_actions` applies, in file order.
    pub fn matched<L: Ledger>(
        &self,
        alloc: Global,
        url: &Url,
        tags: &[Text],
        steps: &mut Steps<L>,
    ) -> Result<List<SectionRef>, Mem>
        ensures value { IfOk result (λ refs. refs ≡ map ref_of (matching self.now.sections url.now tags.now)) }
        ensures files { IfOk result (λ refs. All (λ r. r.file < length self.now.names) refs) }
        ensures steps { steps.new ≤ steps.old + candidate_count self.now.sections url.now.host }
    {
        let mut warm = self.warm(alloc)?;
        warm.matched(alloc, url, tags, steps)
    }

    /// Applies to a set, in file order, the updates of each section that has a TAG pattern that matches the tag. After
    /// `Mem` the set has had a front of these updates.
    pub fn apply_tag(&self, alloc: Global, set: &mut ActionSet, tag: &[u8]) -> Result<(), Mem>
        ensures ok { OnOk result (set.new ≡ applied set.old (tagged_sections self.now.sections tag.now)) }
        ensures err { OnErr result (IsUpdatedByFront set.old (updates_in (tagged_sections self.now.sections tag.now)) set.new) }
    {
        let mut warm = self.warm(alloc)?;
        warm.apply_tag(alloc, set, tag)
    }

    /// Applies to a set, in file order, the updates of each section that has a NO-REQUEST-TAG pattern, or for the
    /// response a NO-RESPONSE-TAG pattern, that matches none of the tags. After `Mem` the set has had a front of these
    /// updates.
    pub fn apply_absent(
        &self,
        alloc: Global,
        set: &mut ActionSet,
        tags: &[Text],
        side: Side,
    ) -> Result<(), Mem>
        ensures ok { OnOk result (set.new ≡ applied set.old (absent self.now.sections tags.now side)) }
        ensures err { OnErr result (IsUpdatedByFront set.old (updates_in (absent self.now.sections tags.now side)) set.new) }
    {
        let mut warm = self.warm(alloc)?;
        warm.apply_absent(alloc, set, tags, side)
    }

    /// The lists of hosts.
    pub(crate) fn lists(&self) -> &[ListedHosts]
        ensures { result.now ≡ self.now.lists }
    {
        self.lists.as_slice()
    }

    /// The sections in file order, each with the number of its file.
    pub(crate) fn placed(&self) -> &[Placed]
        ensures sections { result.now ≡ self.now.sections }
        ensures files { All (λ p. p.file < length self.now.names) result.now }
    {
        self.sections.as_slice()
    }

    /// The places of all patterns that apply to URLs.
    pub(crate) fn finder(&self) -> &Finder
        ensures { CanFind result.now self.now.sections }
    {
        &self.finder
    }

    /// The places of all patterns with an expression, in ascending order.
    pub(crate) fn expressions(&self) -> &[PatternPlace] {
        self.expressions.as_slice()
    }

    /// The sections with TAG patterns.
    pub(crate) fn tag_numbers(&self) -> &[usize]
        ensures { Selects (is_of_purpose Tag) self.now.sections result.now }
    {
        self.tags.as_slice()
    }

    /// The sections with NO-REQUEST-TAG patterns, or for the response with NO-RESPONSE-TAG patterns.
    pub(crate) fn absence_numbers(&self, side: Side) -> &[usize]
        ensures { Selects (is_of_purpose (Absent side)) self.now.sections result.now }
    {
        match side {
            Side::Request => self.requests.as_slice(),
            Side::Response => self.responses.as_slice(),
        }
    }
}
