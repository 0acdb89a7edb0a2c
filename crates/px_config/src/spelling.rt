// What the files of a configuration stand for.
ghost use Rattle.std.specs.Prelude.{◌≡◌, [], All, IsTrue, Ok, None, IfErr, IfOk, OnOk, length, sum_by};
ghost use Rattle.px_base.specs.Contents.{FilesGoOn};
ghost use Rattle.px_config.specs.Actions.{seen_actions};
ghost use Rattle.px_config.specs.Faults.{IsFault, IsNoRead};
ghost use Rattle.px_config.specs.Gathering.{GatherCauses, OnlyReads, ReadsOneOf, ReadsSet, gathered, names_read};
ghost use Rattle.px_config.specs.Listings.{seen_lists};
ghost use Rattle.px_config.specs.MainFiles.{IsMainOf};
ghost use Rattle.px_config.specs.Names.{places_of};
ghost use Rattle.px_config.specs.Parts.{file_lines};
ghost use Rattle.px_config.specs.Sets.{FitsItem};
ghost use Rattle.px_config.specs.Spelling.{behind_filters, behind_lines, behind_lists, behind_main, behind_actions, behind_sizes, config_of, filters_seen, seen_config, sizes, spelled};
ghost use Rattle.px_config.specs.Loading.{IsLoadFault, LoadCauses};

use crate::actions::ActionFiles;
use crate::configs::Config;
use crate::contents::{fault_in, file_lines};
use crate::faults::LoadFault;
use crate::filters::FilterFiles;
use crate::gathering::{FilesRead, gather_files};
use crate::indexes::Index;
use crate::listings::HostLists;
use crate::main_files::MainFile;
use crate::mains::Main;
use crate::names::{IMAGE_BLANK, IMAGE_PATTERN, Places, template_names};
use crate::sets::{FileSet, all_included};
use crate::settings::{MainParts, Note, Settings};
use crate::templates::{check_sizes, image_in, read_pages};
use px_action_files::FileFault;
use px_base::{Content, Files, List, Mem, Text};
use px_decide::Forwards;
use px_filter_files::{FilterFile, Filters};
use px_merge::Sections;
use px_templates::Template;
use std::alloc::Global;

/// The configuration for which a set of files stands, or its first fault, in this order: the main file as a whole, its
/// lines, the lists of hosts, the action files, the filter files, the sizes of templates, images and included texts, and the templates.
pub fn spell(alloc: Global, set: &FileSet) -> Result<Config, LoadFault>
    requires { All FitsItem set.now.items }
    ensures config { IfOk result (λ config. spelled set.now ≡ Ok (seen_config config)) }
    ensures refused { IfErr result (IsFault (spelled set.now)) }
{
    let main = read_main(alloc, set);
    spell_with(alloc, set, main)
}

/// What the main file of a set gives, or the refusal of the whole file.
fn read_main(alloc: Global, set: &FileSet) -> Result<MainFile, FileFault>
    requires { All FitsItem set.now.items }
    ensures { IsMainOf set.now.main (file_lines set.now.items None set.now.main) result }
{
    let main = set.main.as_bytes();
    match file_lines(alloc, set.items.as_slice(), None, main) {
        Ok(lines) => Ok(MainFile::of(alloc, main, lines)?),
        Err(refusal) => Err(refusal),
    }
}

/// The configuration for which a set of files stands, or its first fault, by what its main file gives.
#[tactic(auto, unfolding(crate::specs::Spelling::spelled), using(crate::proofs::FaultLemmas::fault_of))]
fn spell_with(
    alloc: Global,
    set: &FileSet,
    main: Result<MainFile, FileFault>,
) -> Result<Config, LoadFault>
    requires { All FitsItem set.now.items }
    ensures config { IsMainOf set.now.main (file_lines set.now.items None set.now.main) main → IfOk result (λ config. spelled set.now ≡ Ok (seen_config config)) }
    ensures refused { IsMainOf set.now.main (file_lines set.now.items None set.now.main) main → IfErr result (IsFault (spelled set.now)) }
    ensures no_read { IfErr result IsNoRead }
{
    match main {
        Ok(main) => spell_lines(alloc, set, &main),
        Err(fault) => Err(fault_in(alloc, set.main.as_bytes(), fault)),
    }
}

/// Goes on with the lines of the main file.
#[tactic(auto, unfolding(crate::specs::Spelling::behind_lines), using(crate::proofs::FaultLemmas::fault_of))]
fn spell_lines(alloc: Global, set: &FileSet, main: &MainFile) -> Result<Config, LoadFault>
    requires { All FitsItem set.now.items }
    ensures config { main.now.places ≡ places_of set.now.main main.now.lines → IfOk result (λ config. behind_lines set.now main.now.lines ≡ Ok (seen_config config)) }
    ensures refused { main.now.places ≡ places_of set.now.main main.now.lines → IfErr result (IsFault (behind_lines set.now main.now.lines)) }
    ensures no_read { IfErr result IsNoRead }
{
    let file = set.main.as_bytes();
    match Main::read(alloc, file, main.lines.as_slice()) {
        Ok(lines) => {
            let parts = lines.into_parts(alloc)?;
            spell_lists(alloc, set, &main.places, parts)
        }
        Err(fault) => Err(fault_in(alloc, file, fault)),
    }
}

/// Goes on with the lists of hosts.
#[tactic(auto, unfolding(crate::specs::Spelling::behind_main))]
fn spell_lists(
    alloc: Global,
    set: &FileSet,
    places: &Places,
    parts: MainParts,
) -> Result<Config, LoadFault>
    requires { All FitsItem set.now.items }
    ensures config { IfOk result (λ config. behind_main set.now places.now parts ≡ Ok (seen_config config)) }
    ensures refused { IfErr result (IsFault (behind_main set.now places.now parts)) }
{
    let MainParts {
        settings,
        forwards,
        lists,
        notes,
    } = parts;
    match HostLists::read(alloc, set, places.folder(), lists.as_slice(), notes) {
        Ok(lists) => spell_actions(alloc, set, places, settings, forwards, lists),
        Err(fault) => Err(fault),
    }
}

/// Goes on with the action files.
#[tactic(auto, unfolding(crate::specs::Spelling::behind_lists))]
fn spell_actions(
    alloc: Global,
    set: &FileSet,
    places: &Places,
    settings: Settings,
    forwards: Forwards,
    lists: HostLists,
) -> Result<Config, LoadFault>
    requires { All FitsItem set.now.items }
    ensures config { IfOk result (λ config. behind_lists set.now places.now settings forwards (seen_lists lists) ≡ Ok (seen_config config)) }
    ensures refused { IfErr result (IsFault (behind_lists set.now places.now settings forwards (seen_lists lists))) }
{
    let HostLists {
        lists,
        totals: _,
        notes,
    } = lists;
    let items = set.items.as_slice();
    let names = places.action_files.as_slice();
    let limit = settings.pattern_limit as usize;
    match ActionFiles::read(alloc, items, places.folder(), limit, names, lists) {
        Ok(actions) => spell_filters(alloc, set, places, settings, forwards, notes, actions),
        Err(fault) => Err(fault),
    }
}

/// Goes on with the filter files.
#[tactic(auto, unfolding(crate::specs::Spelling::behind_actions))]
fn spell_filters(
    alloc: Global,
    set: &FileSet,
    places: &Places,
    settings: Settings,
    forwards: Forwards,
    notes: List<Note>,
    actions: ActionFiles,
) -> Result<Config, LoadFault>
    requires { All FitsItem set.now.items }
    ensures config { IfOk result (λ config. behind_actions set.now places.now settings forwards notes (seen_actions actions) ≡ Ok (seen_config config)) }
    ensures refused { IfErr result (IsFault (behind_actions set.now places.now settings forwards notes (seen_actions actions))) }
{
    let names = places.filter_files.as_slice();
    let templates = places.templdir.as_bytes();
    let items = set.items.as_slice();
    match FilterFiles::read(alloc, items, places.folder(), names, notes) {
        Ok(filters) => {
            spell_templates(
                alloc, items, templates, settings, forwards, actions, filters,
            )
        }
        Err(fault) => Err(fault),
    }
}

/// Goes on with the sizes of templates, images and included texts.
#[tactic(auto, unfolding(crate::specs::Spelling::behind_filters))]
fn spell_templates(
    alloc: Global,
    items: &[(Text, Content)],
    folder: &[u8],
    settings: Settings,
    forwards: Forwards,
    actions: ActionFiles,
    filters: FilterFiles,
) -> Result<Config, LoadFault>
    ensures config { IfOk result (λ config. behind_filters items.now folder.now settings forwards (seen_actions actions) filters ≡ Ok (seen_config config)) }
    ensures refused { IfErr result (IsFault (behind_filters items.now folder.now settings forwards (seen_actions actions) filters)) }
{
    let items = Index::new(alloc, items)?;
    match check_all(alloc, &items, folder) {
        Ok(()) => spell_pages(alloc, &items, folder, settings, forwards, actions, filters),
        Err(fault) => Err(fault),
    }
}

/// Refuses the first template, image or included text that is over the limit.
fn check_all(alloc: Global, items: &Index<'_>, folder: &[u8]) -> Result<(), LoadFault>
    ensures fit { OnOk result (sizes items.now folder.now ≡ Ok tt) }
    ensures refused { IfErr result (IsFault (sizes items.now folder.now)) }
{
    let names = template_names(alloc)?;
    let included = all_included(alloc, items.as_slice(), folder)?;
    match check_sizes(alloc, items, folder, names.as_slice()) {
        Ok(()) => check_sizes(alloc, items, folder, included.as_slice()),
        Err(fault) => Err(fault),
    }
}

/// Goes on with the templates.
#[tactic(auto, unfolding(crate::specs::Spelling::behind_sizes))]
fn spell_pages(
    alloc: Global,
    items: &Index<'_>,
    folder: &[u8],
    settings: Settings,
    forwards: Forwards,
    actions: ActionFiles,
    filters: FilterFiles,
) -> Result<Config, LoadFault>
    ensures config { IfOk result (λ config. behind_sizes items.now folder.now settings forwards (seen_actions actions) filters ≡ Ok (seen_config config)) }
    ensures refused { IfErr result (IsFault (behind_sizes items.now folder.now settings forwards (seen_actions actions) filters)) }
{
    match read_pages(alloc, items, folder) {
        Ok(pages) => {
            let config = build(
                alloc, items, folder, settings, forwards, actions, filters, pages,
            )?;
            Ok(config)
        }
        Err(fault) => Err(fault),
    }
}

/// The configuration of its parts.
#[tactic(auto, using(crate::proofs::SpellLemmas::same_sections))]
fn build(
    alloc: Global,
    items: &Index<'_>,
    folder: &[u8],
    settings: Settings,
    forwards: Forwards,
    actions: ActionFiles,
    filters: FilterFiles,
    pages: List<Template>,
) -> Result<Config, Mem>
    requires { length pages ≡ 11 }
    ensures { IfOk result (λ config. seen_config config ≡ config_of items.now folder.now settings forwards (seen_actions actions) filters pages) }
{
    let image_blank = image_in(alloc, items, folder, IMAGE_BLANK)?;
    let image_pattern = image_in(alloc, items, folder, IMAGE_PATTERN)?;
    let ActionFiles {
        lists,
        files,
        patterns: _,
    } = actions;
    let sections = Sections::new(alloc, lists, files)?;
    let FilterFiles { files, notes } = filters;
    let filters = join_filters(alloc, files)?;
    Ok(Config {
        settings,
        sections,
        filters,
        forwards,
        pages,
        image_blank,
        image_pattern,
        notes,
    })
}

/// The filters of files. Where there are 2^32 filters or more, it is as if memory were wanting.
fn join_filters(alloc: Global, files: List<FilterFile>) -> Result<Filters, Mem>
    ensures { IfOk result (λ filters. filters ≡ filters_seen files) }
{
    let count = filter_count(files.as_slice())?;
    if files.len() > u32::MAX as usize || count > u32::MAX as usize {
        return Err(Mem);
    }
    Filters::new(alloc, files)
}

/// How many filters stand in files.
fn filter_count(files: &[FilterFile]) -> Result<usize, Mem>
    ensures { IfOk result (λ count. count ≡ sum_by (λ file. length file.filters) files.now) }
{
    let mut count = 0usize;
    let mut rest = files;
    'files: while let Some((file, others)) = rest.split_first() {
        match count.checked_add(file.filters.len()) {
            Some(more) => count = more,
            None => return Err(Mem),
        }
        rest = others;
    }
    Ok(count)
}

/// Gathers the files of a configuration, and gives the configuration for which they stand, or the first fault. `Read` comes
/// only where the files' count of faults rose, with the name of one of the files as it is written.
pub fn load<F: Files>(alloc: Global, files: &mut F, main: &str) -> Result<Config, LoadFault>
    ensures config { IsTrue (F.state files.old).tells → IfOk result (λ config. spelled (gathered (F.state files.old).contents main.now) ≡ Ok (seen_config config)) }
    ensures refused { IsTrue (F.state files.old).tells → IfErr result (IsLoadFault (spelled (gathered (F.state files.old).contents main.now))) }
    ensures named { IsTrue (F.state files.old).tells → IfErr result (ReadsOneOf (names_read (F.state files.old).contents main.now)) }
    ensures once { IsTrue (F.state files.old).tells → OnOk result (ReadsSet (F.state files.old) (F.state files.new) [] (gathered (F.state files.old).contents main.now)) }
    ensures cause { LoadCauses (F.state files.old) (F.state files.new) result }
    ensures only_reads { OnlyReads (F.state files.old) (F.state files.new) }
    ensures go_on { FilesGoOn (F.state files.old) (F.state files.new) }
{
    let FilesRead { set, main } = gather_files(alloc, files, main)?;
    spell_with(alloc, &set, main)
}
