// The filters of all files.
ghost use Rattle.std.specs.Prelude.{◌≡◌, ◌++◌, ◌<◌, ◌^◌, length, sum_by, IfOk, IfSome};
ghost use Rattle.std.specs.Option.{option_copied};
ghost use Rattle.px_filter_files.specs.FilterFiles.{found, filters_of_all, has_key};
ghost use Rattle.px_filter_files.specs.Places.{first_place};

use crate::files::{FilterFile, NamedFilter};
use crate::kinds::FilterKind;
use crate::places::Places;
use crate::warm_filters::WarmFilters;
use px_base::{List, Mem};
use px_subst::Filter;
use std::alloc::Global;
use std::marker::Model;

/// How many filter files and filters there are.
#[derive(Clone, Copy, Debug, PartialEq, Eq)]
pub struct FilterCounts {
    pub files: u32,
    pub filters: u32,
}

/// The filters of files, seen as the number of the files and their filters in order.
#[derive(Drop)]
pub struct Filters {
    files: u32,
    filters: Vec<NamedFilter>,
    places: Places,
}

impl Model for Filters {
    ghost use Rattle.std.specs.Prelude.{length, ◌<◌, ◌^◌};
    ghost use Rattle.px_filter_files.specs.FilterFiles.{FiltersOfFiles};
    ghost use Rattle.px_filter_files.specs.Places.{ArePlacesOf};

    ghost Value = { FiltersOfFiles };

    ghost view = { λ f. record { files = f.files; filters = f.filters.items } };

    ghost invariant = { λ f. (length f.filters.items < 2 ^ 32) × ArePlacesOf f.filters.items f.places };
}

/// The filters of files in order.
fn joined(alloc: Global, files: Vec<FilterFile>) -> Result<Vec<NamedFilter>, Mem>
    ensures { IfOk result (λ filters. filters.items ≡ filters_of_all files.items) }
{
    let mut rest = files;
    let mut joined = Vec::new(alloc);
    'files: while !rest.is_empty() {
        let FilterFile {
            filters,
            skipped: _skipped,
        } = rest.remove(0);
        let mut filters = filters.into_vec();
        joined.append(&mut filters)?;
    }
    Ok(joined)
}

impl Filters {
    /// The filters of files in order.
    pub fn new(alloc: Global, files: List<FilterFile>) -> Result<Filters, Mem>
        requires files { length files < 2 ^ 32 }
        requires filters { sum_by (λ file. length file.filters) files < 2 ^ 32 }
        ensures { IfOk result (λ filters. filters ≡ record { files = length files; filters = filters_of_all files }) }
    {
        let count = files.len() as u32;
        let filters = joined(alloc, files.into_vec())?;
        let places = Places::new(alloc, filters.as_slice())?;
        Ok(Filters {
            files: count,
            filters,
            places,
        })
    }

    /// The place of the first filter of this kind and name.
    pub(crate) fn place(&self, kind: FilterKind, name: &[u8]) -> Option<usize>
        ensures place { result ≡ first_place (has_key (record { kind = kind; name = name.now })) self.now.filters }
        ensures within { IfSome result (λ at. at < length self.now.filters) }
    {
        self.places.get(kind, name)
    }

    pub(crate) fn as_slice(&self) -> &[NamedFilter]
        ensures { result.now ≡ self.now.filters }
    {
        self.filters.as_slice()
    }

    /// The first filter of this kind and name. It takes no memory, and looks at few filters.
    pub fn find(&self, kind: FilterKind, name: &[u8]) -> Option<&Filter>
        ensures { option_copied result ≡ found self.now (record { kind = kind; name = name.now }) }
    {
        match self.place(kind, name) {
            Some(at) => Some(&self.as_slice()[at].filter),
            None => None,
        }
    }

    /// The filters with what each keeps from run to run. What searches is made at the first.
    pub fn warm(&self, alloc: Global) -> Result<WarmFilters<'_>, Mem>
        ensures { IfOk result (λ warm. warm ≡ self.now) }
    {
        WarmFilters::new(alloc, self)
    }

    /// How many files and filters there are.
    pub fn counts(&self) -> FilterCounts
        ensures files { result.files ≡ self.now.files }
        ensures filters { result.filters ≡ length self.now.filters }
    {
        FilterCounts {
            files: self.files,
            filters: self.filters.len() as u32,
        }
    }
}
