// What each address wears.
ghost use Rattle.std.specs.Prelude.{◌≡◌, [], IfOk, OnOk, IsSome, if◌then◌else◌};
ghost use Rattle.std.specs.Str.{bytes_eq};
ghost use Rattle.px_tag_board.specs.TagMaps.{kept_tags, worn};

use crate::changes::copy_tags;
use px_base::{List, Mem, Text};
use std::alloc::Global;
use std::collections::BTreeMap;

/// The tags of each address that wore some.
#[derive(Drop)]
pub(crate) struct TagMap {
    worn: BTreeMap<Vec<u8>, List<Text>>,
}

impl TagMap {
    /// Nothing is worn, which takes no memory.
    pub(crate) fn new(alloc: Global) -> TagMap
        ensures { (address : _) → worn result address ≡ [] }
    {
        TagMap {
            worn: BTreeMap::new(alloc),
        }
    }

    /// A copy of what an address wears.
    pub(crate) fn worn(&self, alloc: Global, address: &[u8]) -> Result<List<Text>, Mem>
        ensures { IfOk result (λ tags. tags ≡ worn self.now address.now) }
    {
        match self.worn.get(address) {
            Some(tags) => copy_tags(alloc, tags.as_slice()),
            None => Ok(List::new(alloc)),
        }
    }

    /// Makes room for the tags of an address, so that `put` takes no memory. What is worn stays.
    pub(crate) fn reserve(&mut self, alloc: Global, address: &[u8]) -> Result<(), Mem>
        ensures room { OnOk result (IsSome (kept_tags self.new address.now)) }
        ensures same { (other : _) → worn self.new other ≡ worn self.old other }
    {
        if self.worn.contains_key(address) {
            return Ok(());
        }
        self.worn.insert(address.to_vec(alloc)?, List::new(alloc))?;
        Ok(())
    }

    /// Puts tags on an address, for which there is room, in place of those that it wore. It takes no memory.
    pub(crate) fn put(&mut self, address: &[u8], tags: List<Text>)
        requires { IsSome (kept_tags self.old address.now) }
        ensures { (other : _) → worn self.new other ≡ (if bytes_eq address.now other then tags else worn self.old other) }
    {
        if let Some(place) = self.worn.get_mut(address) {
            *place = tags;
        }
    }
}
