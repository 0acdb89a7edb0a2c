// Where the files of a configuration stand.
ghost use Rattle.std.specs.Prelude.{◌≡◌, ◌++◌, ◌∷◌, IfOk, map, option_copied};
ghost use Rattle.px_templates.specs.Pages.{page_name};
ghost use Rattle.px_config.specs.Names.{folder_of, full_name, image_names, is_rooted, joined_path, page_names, template_names};

use px_base::{List, Mem, Text};
use px_templates::{PAGES, Page};
use std::alloc::Global;

/// The byte between folders and names.
pub(crate) const SLASH: u8 = b'/';

/// The most action files, the most filter files, and the most lists of hosts.
pub(crate) const FILES_OF_A_KIND: usize = 16;

/// The name of the image of one transparent dot, in the templates' folder.
pub(crate) const IMAGE_BLANK: &[u8] = b"image-blank";

/// The name of the image of a pattern, in the templates' folder.
pub(crate) const IMAGE_PATTERN: &[u8] = b"image-pattern";

/// Which files the main file's lines name, and where they stand. The names are as written.
#[derive(Drop)]
pub(crate) struct Places {
    /// The names of the action files. More than sixteen are refused, and left out here.
    pub(crate) action_files: List<Text>,
    /// The names of the filter files. More than sixteen are refused, and left out here.
    pub(crate) filter_files: List<Text>,
    /// The names of the files of lists of hosts. More than sixteen are refused, and left out here.
    pub(crate) host_lists: List<Text>,
    /// The folder of action files, filter files and lists of hosts: the last `confdir`, or the main file's folder.
    pub(crate) confdir: Option<Text>,
    /// The folder of templates and images: the last `templdir`, or `templates` in confdir.
    pub(crate) templdir: Text,
}

impl Places {
    /// The folder of action files, filter files and lists of hosts, if there is one.
    pub(crate) fn folder(&self) -> Option<&[u8]>
        ensures { option_copied result ≡ self.now.confdir }
    {
        bytes_of(&self.confdir)
    }
}

/// The bytes of a text, if there is one.
pub(crate) fn bytes_of(text: &Option<Text>) -> Option<&[u8]>
    ensures { option_copied result ≡ text.now }
{
    match text {
        Some(text) => Some(text.as_bytes()),
        None => None,
    }
}

/// The folder in which a file stands: the text before the last slash of its name, if there is one.
#[tactic(auto, unfolding(crate::specs::Names::folder_of), using(crate::proofs::NameLemmas::folder_rules))]
pub(crate) fn folder_of(name: &[u8]) -> Option<&[u8]>
    ensures { option_copied result ≡ folder_of name.now }
{
    let mut rest = name;
    'bytes: while let Some((last, front)) = rest.split_last() {
        if *last == SLASH {
            return Some(front);
        }
        rest = front;
    }
    None
}

fn is_rooted(name: &[u8]) -> bool
    ensures { result ≡ is_rooted name.now }
{
    match name.split_first() {
        Some((first, _)) => *first == SLASH,
        None => false,
    }
}

/// The name of a file in a folder. One that begins with a slash is used as written.
pub(crate) fn full_name(alloc: Global, folder: Option<&[u8]>, name: &[u8]) -> Result<Text, Mem>
    ensures { IfOk result (λ full. full ≡ full_name (option_copied folder.entry) name.now) }
{
    if is_rooted(name) {
        return Text::from_bytes(alloc, name);
    }
    joined(alloc, folder, name)
}

/// A folder and a name, joined by a slash.
pub(crate) fn joined(alloc: Global, folder: Option<&[u8]>, name: &[u8]) -> Result<Text, Mem>
    ensures { IfOk result (λ full. full ≡ joined_path (option_copied folder.entry) name.now) }
{
    let Some(folder) = folder else {
        return Text::from_bytes(alloc, name);
    };
    let mut full = Text::from_bytes(alloc, folder)?;
    full.push(SLASH)?;
    full.push_all(name)?;
    Ok(full)
}

/// The names of the templates, in the order of the pages.
#[tactic(auto, unfolding(crate::specs::Names::page_names))]
pub(crate) fn page_names(alloc: Global) -> Result<Vec<Text>, Mem>
    ensures { IfOk result (λ names. names.items ≡ page_names) }
{
    names_of(alloc, &PAGES)
}

/// The names of some pages' templates.
fn names_of(alloc: Global, pages: &[Page]) -> Result<Vec<Text>, Mem>
    ensures { IfOk result (λ names. names.items ≡ map page_name pages.now) }
{
    let mut names = Vec::new(alloc);
    let mut rest = pages;
    'pages: while let Some((page, others)) = rest.split_first() {
        names.push(Text::from_bytes(alloc, page.name().as_bytes())?)?;
        rest = others;
    }
    Ok(names)
}

/// The names of the two images.
fn image_names(alloc: Global) -> Result<Vec<Text>, Mem>
    ensures { IfOk result (λ names. names.items ≡ image_names) }
{
    let mut names = Vec::new(alloc);
    names.push(Text::from_bytes(alloc, IMAGE_BLANK)?)?;
    names.push(Text::from_bytes(alloc, IMAGE_PATTERN)?)?;
    Ok(names)
}

/// The names of the templates and of the two images.
pub(crate) fn template_names(alloc: Global) -> Result<List<Text>, Mem>
    ensures { IfOk result (λ names. names ≡ template_names) }
{
    let mut names = page_names(alloc)?;
    let mut images = image_names(alloc)?;
    names.append(&mut images)?;
    Ok(List::from_vec(names))
}
