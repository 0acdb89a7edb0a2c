// Where the filters of each kind and name stand, so that finding one looks at few.
ghost use Rattle.std.specs.Prelude.{◌≡◌, IfOk, OnOk};
ghost use Rattle.px_filter_files.specs.FilterFiles.{has_key};

use crate::files::NamedFilter;
use crate::kinds::FilterKind;
use px_base::Mem;
use std::alloc::Global;
use std::collections::BTreeMap;

/// For each kind the place of the first filter of each name.
#[derive(Drop)]
pub(crate) struct Places {
    content: BTreeMap<Vec<u8>, usize>,
    client_header: BTreeMap<Vec<u8>, usize>,
    server_header: BTreeMap<Vec<u8>, usize>,
    client_tagger: BTreeMap<Vec<u8>, usize>,
    server_tagger: BTreeMap<Vec<u8>, usize>,
}

ghost use Rattle.px_filter_files.specs.Places.{HasPlacesOf, or_here, place_in};

/// Notes the place of a filter, if it is of the kind and the first of its name.
fn add_place(
    alloc: Global,
    map: &mut BTreeMap<Vec<u8>, usize>,
    kind: FilterKind,
    filter: &NamedFilter,
    at: usize,
) -> Result<(), Mem>
    ensures { OnOk result ((name : _) → place_in map.new name
        ≡ or_here (place_in map.old name) (has_key (record { kind = kind; name = name }) filter.now) at) }
{
    let name = filter.name.as_bytes();
    if !kind.is(filter.kind) || map.contains_key(name) {
        return Ok(());
    }
    map.insert(name.to_vec(alloc)?, at)?;
    Ok(())
}

/// The places of the filters of one kind.
fn places_of(
    alloc: Global,
    kind: FilterKind,
    filters: &[NamedFilter],
) -> Result<BTreeMap<Vec<u8>, usize>, Mem>
    ensures { IfOk result (HasPlacesOf filters.now kind) }
{
    let mut map = BTreeMap::new(alloc);
    for (at, filter) in filters.iter().enumerate() {
        add_place(alloc, &mut map, kind, filter, at)?;
    }
    Ok(map)
}

impl Places {
    ghost use Rattle.px_filter_files.specs.Places.{ArePlacesOf, first_place};

    pub(crate) fn new(alloc: Global, filters: &[NamedFilter]) -> Result<Places, Mem>
        ensures { IfOk result (ArePlacesOf filters.now) }
    {
        Ok(Places {
            content: places_of(alloc, FilterKind::Content, filters)?,
            client_header: places_of(alloc, FilterKind::ClientHeader, filters)?,
            server_header: places_of(alloc, FilterKind::ServerHeader, filters)?,
            client_tagger: places_of(alloc, FilterKind::ClientTagger, filters)?,
            server_tagger: places_of(alloc, FilterKind::ServerTagger, filters)?,
        })
    }

    /// The place of the first filter of this kind and name.
    pub(crate) fn get(&self, kind: FilterKind, name: &[u8]) -> Option<usize>
        ensures { (filters : _) → ArePlacesOf filters self.now
            → result ≡ first_place (has_key (record { kind = kind; name = name.now })) filters }
    {
        match kind {
            FilterKind::Content => self.content.get(name).copied(),
            FilterKind::ClientHeader => self.client_header.get(name).copied(),
            FilterKind::ServerHeader => self.server_header.get(name).copied(),
            FilterKind::ClientTagger => self.client_tagger.get(name).copied(),
            FilterKind::ServerTagger => self.server_tagger.get(name).copied(),
        }
    }
}
