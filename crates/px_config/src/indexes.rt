// Files by their names, so that finding one looks at few.
ghost use Rattle.std.specs.Prelude.{◌≡◌, ◌++◌, ◌∷◌, [], IfOk, OnOk, option_copied, unwrap_or};
ghost use Rattle.px_base.specs.declared.files.Content.TheVariants as content;
ghost use Rattle.px_config.specs.Indexes.{HasContents};
ghost use Rattle.px_config.specs.Sets.{content_in, is_in};

use px_base::{Content, List, Mem, Text};
use std::alloc::Global;
use std::collections::{BTreeMap, BTreeSet};
use std::marker::Model;
use std::mem::replace;

/// The files of a set that is lent, with what it has of each name, seen as the list of its items.
#[derive(Drop)]
pub(crate) struct Index<'s> {
    items: &'s [(Text, Content)],
    contents: BTreeMap<Vec<u8>, &'s Content>,
}

impl<'s> Model for Index<'s> {
    ghost use Rattle.std.specs.Prelude.{List};
    ghost use Rattle.px_config.specs.Indexes.{HasContents};
    ghost use Rattle.px_config.specs.Sets.{Item};

    ghost Value = { List Item };

    ghost view = { λ i. i.items.now };

    ghost invariant = { λ i. HasContents i.items.now i.contents };
}

/// What items have of each name. The first item of a name counts, so they are put in from the last.
fn contents_of<'s>(
    alloc: Global,
    items: &'s [(Text, Content)],
) -> Result<BTreeMap<Vec<u8>, &'s Content>, Mem>
    ensures { IfOk result (λ contents. HasContents items.now contents) }
{
    let mut contents = BTreeMap::new(alloc);
    let mut rest = items;
    'items: while let Some((item, front)) = rest.split_last() {
        contents.insert(item.0.as_bytes().to_vec(alloc)?, &item.1)?;
        rest = front;
    }
    Ok(contents)
}

impl<'s> Index<'s> {
    pub(crate) fn new(alloc: Global, items: &'s [(Text, Content)]) -> Result<Index<'s>, Mem>
        ensures { IfOk result (λ index. index ≡ items.now) }
    {
        let contents = contents_of(alloc, items)?;
        Ok(Index { items, contents })
    }

    /// The items, in their order.
    pub(crate) fn as_slice(&self) -> &'s [(Text, Content)]
        ensures { result.now ≡ self.now }
    {
        self.items
    }

    /// What the set has of a name. A name without an item is missing.
    pub(crate) fn find(&self, name: &[u8]) -> Option<&'s Content>
        ensures { unwrap_or (option_copied result) content.Missing ≡ content_in self.now name.now }
    {
        self.contents.get(name).copied()
    }
}

/// Files that were read, with their names, seen as the list of the items.
#[derive(Drop)]
pub(crate) struct Gathered {
    items: List<(Text, Content)>,
    names: BTreeSet<Vec<u8>>,
}

impl Model for Gathered {
    ghost use Rattle.std.specs.Prelude.{List};
    ghost use Rattle.px_config.specs.Indexes.{HasNames};
    ghost use Rattle.px_config.specs.Sets.{Item};

    ghost Value = { List Item };

    ghost view = { λ g. g.items };

    ghost invariant = { λ g. HasNames g.items g.names };
}

impl Gathered {
    /// No file was read.
    pub(crate) fn new(alloc: Global) -> Gathered
        ensures { result ≡ [] }
    {
        Gathered {
            items: List::new(alloc),
            names: BTreeSet::new(alloc),
        }
    }

    /// The items, in their order.
    pub(crate) fn as_slice(&self) -> &[(Text, Content)]
        ensures { result.now ≡ self.now }
    {
        self.items.as_slice()
    }

    /// The items, in their order.
    pub(crate) fn into_items(self) -> List<(Text, Content)>
        ensures { result ≡ self }
    {
        let Gathered { items, names } = self;
        drop(names);
        items
    }

    /// Whether a file of a name was read.
    pub(crate) fn has(&self, name: &[u8]) -> bool
        ensures { result ≡ is_in self.now name.now }
    {
        self.names.contains(name)
    }

    /// Adds a file at the end. Where memory is wanting none is kept.
    pub(crate) fn add(&mut self, alloc: Global, name: Text, content: Content) -> Result<(), Mem>
        ensures { OnOk result (self.new ≡ self.old ++ (name, content) ∷ []) }
    {
        let Gathered {
            mut items,
            mut names,
        } = replace(self, Gathered::new(alloc));
        names.insert(name.as_bytes().to_vec(alloc)?)?;
        items.add((name, content))?;
        *self = Gathered { items, names };
        Ok(())
    }
}
