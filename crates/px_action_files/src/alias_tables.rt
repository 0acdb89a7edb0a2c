// The aliases of a block, found by their names without case.
ghost use Rattle.std.specs.Prelude.{◌≡◌, ◌<◌, ◌++◌, ◌∷◌, [], false, is_some, length, map, slice_index_or, option_map, IfOk};
ghost use Rattle.std.specs.Str.{str_to_ascii_lowercase};
ghost use Rattle.px_action_files.specs.Aliases.{alias_named};
ghost use Rattle.px_action_files.specs.Meanings.{seen_alias};

use crate::aliases::Alias;
use px_base::{List, Mem, Text};
use std::alloc::Global;
use std::collections::BTreeMap;
use std::marker::Model;

/// The aliases of a block, seen as their list in the order of their lines.
#[derive(Drop)]
pub struct AliasTable {
    list: List<Alias>,
    /// The place of each alias, by its name in small letters.
    places: BTreeMap<Vec<u8>, usize>,
}

impl Model for AliasTable {
    ghost use Rattle.std.specs.Prelude.{List};
    ghost use Rattle.px_action_files.specs.declared.aliases.Alias.{Alias};

    ghost Value = { List Alias };

    ghost use Rattle.px_action_files.specs.AliasTables.{IsIndex};

    ghost view = { λ t. t.list };

    ghost invariant = { λ t. IsIndex t.places t.list };
}

fn in_small_letters(alloc: Global, name: &[u8]) -> Result<Vec<u8>, Mem>
    ensures { IfOk result (λ key. key.items ≡ str_to_ascii_lowercase name.now) }
{
    let mut key = name.to_vec(alloc)?;
    key.as_mut_slice().make_ascii_lowercase();
    Ok(key)
}

fn alias_at(list: &[Alias], at: usize) -> &Alias
    requires { at < length list.now }
    ensures { result.now ≡ slice_index_or list.now at result.now }
{
    &list[at]
}

impl AliasTable {
    /// No alias, which takes no memory.
    pub(crate) fn new(alloc: Global) -> AliasTable
        ensures { result ≡ [] }
    {
        AliasTable {
            list: List::new(alloc),
            places: BTreeMap::new(alloc),
        }
    }

    /// With one more alias, whose name none has yet.
    pub(crate) fn with(self, alloc: Global, alias: Alias) -> Result<AliasTable, Mem>
        requires { is_some (alias_named (map seen_alias self) alias.name) ≡ false }
        ensures { IfOk result (λ table. table ≡ self ++ alias ∷ []) }
    {
        let AliasTable {
            mut list,
            mut places,
        } = self;
        let key = in_small_letters(alloc, alias.name.as_bytes())?;
        places.insert(key, list.len())?;
        list.add(alias)?;
        Ok(AliasTable { list, places })
    }

    /// The alias of that name, if there is one. Names are compared without case.
    pub(crate) fn find(&self, alloc: Global, name: &[u8]) -> Result<Option<&Alias>, Mem>
        ensures { IfOk result (λ found. option_map (λ a. seen_alias a.now) found ≡ alias_named (map seen_alias self.now) name.now) }
    {
        let key = in_small_letters(alloc, name)?;
        match self.places.get(key.as_slice()) {
            Some(at) => Ok(Some(alias_at(self.list.as_slice(), *at))),
            None => Ok(None),
        }
    }

    /// How many updates the aliases stand for.
    pub(crate) fn update_count(&self) -> usize {
        let mut count = 0usize;
        for alias in self.list.as_slice() {
            count = count.saturating_add(alias.updates.len());
        }
        count
    }
}
