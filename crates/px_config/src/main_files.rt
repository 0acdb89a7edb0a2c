// The main file, whose lines are read once.
ghost use Rattle.std.specs.Prelude.{◌≡◌, IfOk, OnOk, codes, option_copied, take, unwrap_or};
ghost use Rattle.px_config.specs.MainFiles.{nothing_named, places_with, with_named};
ghost use Rattle.px_config.specs.Names.{folder_of, joined_path, or_else, places_of};

use crate::directives::{add_list_file, add_value, keep_value, split_directive};
use crate::names::{FILES_OF_A_KIND, Places, bytes_of, folder_of, joined};
use px_base::{List, Mem, Text};
use px_text::Line;
use std::alloc::Global;

/// The lines of the main file, and what they say of other files.
#[derive(Drop)]
pub(crate) struct MainFile {
    pub(crate) lines: List<Line>,
    pub(crate) places: Places,
}

/// The files and folders that lines name so far.
#[derive(Drop)]
pub(crate) struct Named {
    pub(crate) action_files: List<Text>,
    pub(crate) filter_files: List<Text>,
    pub(crate) host_lists: List<Text>,
    /// The last `confdir`.
    pub(crate) confdir: Option<Text>,
    /// The last `templdir`.
    pub(crate) templdir: Option<Text>,
}

impl MainFile {
    /// The main file of lines, which are gone through once. All lines may name files and folders, also those behind one that
    /// is refused.
    pub(crate) fn of(alloc: Global, file: &[u8], lines: List<Line>) -> Result<MainFile, Mem>
        ensures lines { IfOk result (λ main. main.lines ≡ lines) }
        ensures places { IfOk result (λ main. main.places ≡ places_of file.now lines) }
    {
        let places = read_places(alloc, file, lines.as_slice())?;
        Ok(MainFile { lines, places })
    }
}

/// What lines of a main file of this name say of other files.
fn read_places(alloc: Global, file: &[u8], lines: &[Line]) -> Result<Places, Mem>
    ensures { IfOk result (λ places. places ≡ places_of file.now lines.now) }
{
    let mut named = Named::begin(alloc);
    let mut rest = lines;
    'lines: while let Some((line, others)) = rest.split_first() {
        let (name, value) = split_directive(line.text.as_bytes());
        named.add(alloc, name, value)?;
        rest = others;
    }
    named.into_places(alloc, file)
}

impl Named {
    /// Nothing is named.
    fn begin(alloc: Global) -> Named
        ensures { result ≡ nothing_named }
    {
        Named {
            action_files: List::new(alloc),
            filter_files: List::new(alloc),
            host_lists: List::new(alloc),
            confdir: None,
            templdir: None,
        }
    }

    /// Adds what a line of this name and value names.
    fn add(&mut self, alloc: Global, name: &[u8], value: &[u8]) -> Result<(), Mem>
        ensures { OnOk result (self.new ≡ with_named name.now value.now self.old) }
    {
        add_value(alloc, b"actionsfile", name, value, &mut self.action_files)?;
        add_value(alloc, b"filterfile", name, value, &mut self.filter_files)?;
        add_list_file(alloc, name, value, &mut self.host_lists)?;
        keep_value(alloc, b"confdir", name, value, &mut self.confdir)?;
        keep_value(alloc, b"templdir", name, value, &mut self.templdir)
    }

    /// Where the files of a main file of this name stand.
    fn into_places(self, alloc: Global, main: &[u8]) -> Result<Places, Mem>
        ensures { IfOk result (λ places. places ≡ places_with main.now self) }
    {
        let Named {
            action_files,
            filter_files,
            host_lists,
            confdir,
            templdir,
        } = self;
        let confdir = folder_or(alloc, confdir, main)?;
        let templdir = templates_or(alloc, templdir, bytes_of(&confdir))?;
        Ok(Places {
            action_files: first_names(action_files),
            filter_files: first_names(filter_files),
            host_lists: first_names(host_lists),
            confdir,
            templdir,
        })
    }
}

/// The names of a kind that aren't refused.
fn first_names(names: List<Text>) -> List<Text>
    ensures { result ≡ take FILES_OF_A_KIND names }
{
    let mut names = names.into_vec();
    names.truncate(FILES_OF_A_KIND);
    List::from_vec(names)
}

/// A folder, or the one in which the main file of this name stands.
fn folder_or(alloc: Global, folder: Option<Text>, main: &[u8]) -> Result<Option<Text>, Mem>
    ensures { IfOk result (λ it. it ≡ or_else folder (folder_of main.now)) }
{
    match folder {
        Some(folder) => Ok(Some(folder)),
        None => match folder_of(main) {
            Some(folder) => Ok(Some(Text::from_bytes(alloc, folder)?)),
            None => Ok(None),
        },
    }
}

/// The folder of templates, or `templates` in confdir.
fn templates_or(alloc: Global, templdir: Option<Text>, confdir: Option<&[u8]>) -> Result<Text, Mem>
    ensures { IfOk result (λ folder. folder ≡ unwrap_or templdir (joined_path (option_copied confdir.entry) (codes "templates"))) }
{
    match templdir {
        Some(folder) => Ok(folder),
        None => joined(alloc, confdir, b"templates"),
    }
}
