// Where the patterns that apply to URLs are found.
ghost use Rattle.std.specs.Prelude.{IfOk};
ghost use Rattle.px_merge.specs.Finders.{CanFind};

use crate::indexes::PlaceIndex;
use crate::parts::PlaceParts;
use crate::places::{PatternPlace, Placed};
use px_base::{List, Mem};
use px_patterns::Union;
use std::alloc::Global;

/// The places of patterns that apply to URLs: by an index, and apart from it those that search in the path of every host.
#[derive(Drop)]
pub struct Finder {
    pub index: PlaceIndex,
    /// Patterns for every host that are tried where the union of their expressions finds something in the path.
    pub paths: List<PatternPlace>,
    /// Their expressions.
    pub union: Union,
}

impl Finder {
    /// The places of the patterns of sections. The index has so many slots.
    pub fn new(alloc: Global, sections: &[Placed], count: usize) -> Result<Finder, Mem>
        ensures { IfOk result (λ finder. CanFind finder sections.now) }
    {
        let index = PlaceIndex::new(alloc, sections, count)?;
        let parts = PlaceParts::new(alloc, sections, index.always.as_slice())?;
        let PlaceIndex { always: _, slots } = index;
        let PlaceParts {
            always,
            paths,
            union,
        } = parts;
        Ok(Finder {
            index: PlaceIndex { always, slots },
            paths,
            union: union.build(),
        })
    }
}
