// Sets of files.
ghost use Rattle.std.specs.Prelude.{◌≡◌, ◌==◌, ◌++◌, IfOk, OnOk, filter, option_copied, unwrap_or};
ghost use Rattle.std.specs.List.{list_any};
ghost use Rattle.px_base.specs.declared.files.Content.TheVariants as content;
ghost use Rattle.px_config.specs.Sets.{all_included, content_in, included_by, included_on, may_include, names_included};

use crate::names::{SLASH, full_name, page_names};
use px_base::{Content, List, Mem, Text, is_text};
use px_templates::included_names;
use std::alloc::Global;

/// The most bytes of a configuration file that is no list of hosts, a template or an image.
pub const FILE_LIMIT: u64 = 1_048_576;

/// The most bytes of a file of a list of hosts.
pub const LIST_LIMIT: u64 = 67_108_864;

/// The files of a configuration by their names, with what reading each gave. The first item of a name counts, and a file
/// without an item is missing.
#[derive(Drop)]
pub struct FileSet {
    /// The name of the main file.
    pub main: Text,
    pub items: List<(Text, Content)>,
    /// The files of lists of hosts, in the same way.
    pub lists: List<(Text, Content)>,
}

/// What a set has of a name. A name without an item is missing.
pub(crate) fn find<'s>(items: &'s [(Text, Content)], name: &[u8]) -> Option<&'s Content>
    ensures { unwrap_or (option_copied result) content.Missing ≡ content_in items.now name.now }
{
    let mut rest = items;
    'items: while let Some((item, others)) = rest.split_first() {
        if item.0.as_bytes() == name {
            return Some(&item.1);
        }
        rest = others;
    }
    None
}

/// Whether a text may be included by a name: one that is UTF-8 and has no slash.
pub(crate) fn may_include(name: &[u8]) -> bool
    ensures { result ≡ may_include name.now }
{
    is_text(name) && !has_slash(name)
}

fn has_slash(name: &[u8]) -> bool
    ensures { result ≡ list_any (λ b. b == SLASH) name.now }
{
    name.iter().any(|byte| *byte == SLASH)
}

/// Adds the names of the texts that a template includes.
#[tactic(auto, unfolding(crate::specs::Sets::names_included))]
fn add_included(alloc: Global, content: &Content, names: &mut Vec<Text>) -> Result<(), Mem>
    ensures { OnOk result (names.new.items ≡ names.old.items ++ names_included content.now) }
{
    match content {
        Content::Missing => Ok(()),
        Content::Over => Ok(()),
        Content::Found(text) => keep_names(included_names(alloc, text.as_bytes())?, names),
    }
}

/// Adds the names by which a text may be included.
fn keep_names(found: List<Text>, names: &mut Vec<Text>) -> Result<(), Mem>
    ensures { OnOk result (names.new.items ≡ names.old.items ++ filter may_include found) }
{
    let mut rest = found.into_vec().into_iter();
    'names: while let Some(name) = rest.next() {
        if may_include(name.as_bytes()) {
            names.push(name)?;
        }
    }
    Ok(())
}

/// The names of the texts that all templates in a folder include, in the order of the pages.
pub(crate) fn all_included(
    alloc: Global,
    items: &[(Text, Content)],
    folder: &[u8],
) -> Result<List<Text>, Mem>
    ensures { IfOk result (λ names. names ≡ all_included items.now folder.now) }
{
    let pages = page_names(alloc)?;
    included_by(alloc, items, folder, pages.as_slice())
}

/// The names of the texts that these templates in a folder include.
#[tactic(auto, unfolding(crate::specs::Sets::included_by))]
fn included_by(
    alloc: Global,
    items: &[(Text, Content)],
    folder: &[u8],
    pages: &[Text],
) -> Result<List<Text>, Mem>
    ensures { IfOk result (λ names. names ≡ included_by items.now folder.now pages.now) }
{
    let mut names = Vec::new(alloc);
    let mut rest = pages;
    'pages: while let Some((page, others)) = rest.split_first() {
        add_page(alloc, items, folder, page.as_bytes(), &mut names)?;
        rest = others;
    }
    Ok(List::from_vec(names))
}

/// Adds the names of the texts that the template of a name includes.
#[tactic(auto, unfolding(crate::specs::Sets::names_included))]
fn add_page(
    alloc: Global,
    items: &[(Text, Content)],
    folder: &[u8],
    page: &[u8],
    names: &mut Vec<Text>,
) -> Result<(), Mem>
    ensures { OnOk result (names.new.items ≡ names.old.items ++ included_on items.now folder.now page.now) }
{
    let full = full_name(alloc, Some(folder), page)?;
    match find(items, full.as_bytes()) {
        Some(content) => add_included(alloc, content, names),
        None => Ok(()),
    }
}
