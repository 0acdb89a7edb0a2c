// Reading the files of a configuration.
ghost use Rattle.std.specs.Prelude.{◌≡◌, ◌≤◌, ◌+◌, ◌++◌, ◌∷◌, [], ℕ, All, Err, IfOk, IfErr, IsTrue, Ok, OnOk, Some, option_copied};
ghost use Rattle.px_base.specs.Contents.{FilesGoOn, FitsLimit, content_of};
ghost use Rattle.px_config.specs.Gathering.{GatherCauses, IsReadFault, OnlyReads, ReadsEach, ReadsOneOf, ReadsSet, all_items, all_lists, gathered, item_of, names_behind, names_read, names_with_lists, set_behind, with_files, with_item};
ghost use Rattle.px_config.specs.MainFiles.{IsMainOf};
ghost use Rattle.px_config.specs.Names.{places_of, template_names};
ghost use Rattle.px_config.specs.Parts.{content_lines};
ghost use Rattle.px_config.specs.Sets.{FitsItem, FitsWithin, all_included};

use crate::contents::content_lines;
use crate::faults::LoadFault;
use crate::indexes::Gathered;
use crate::main_files::MainFile;
use crate::names::{Places, full_name, template_names};
use crate::sets::{FILE_LIMIT, FileSet, LIST_LIMIT, all_included};
use px_action_files::FileFault;
use px_base::{Content, Files, FilesFault, List, Mem, Text, as_text};
use px_text::Line;
use std::alloc::Global;

/// Reads a file up to a limit, whose name is written so in the configuration.
fn read_content<F: Files>(
    alloc: Global,
    files: &mut F,
    limit: u64,
    name: &str,
    written: &[u8],
) -> Result<Content, LoadFault>
    ensures content { IsTrue (F.state files.old).tells → IfOk result (λ c. c ≡ content_of limit ((F.state files.old).contents name.now)) }
    ensures fits { IfOk result (FitsLimit limit) }
    ensures once { (F.state files.new).reads ≤ (F.state files.old).reads + 1 }
    ensures named { IfErr result (IsReadFault written.now) }
    ensures cause { GatherCauses (F.state files.old) (F.state files.new) result }
    ensures only_reads { OnlyReads (F.state files.old) (F.state files.new) }
    ensures go_on { FilesGoOn (F.state files.old) (F.state files.new) }
{
    let file = Text::from_bytes(alloc, written)?;
    match files.read(name, limit) {
        Ok(content) => Ok(content),
        Err(FilesFault::Failed) => Err(LoadFault::Read { file }),
        Err(FilesFault::Mem) => Err(LoadFault::Mem),
    }
}

/// Reads a file up to a limit, unless it was read.
fn read_item<F: Files>(
    alloc: Global,
    files: &mut F,
    limit: u64,
    name: Text,
    written: &[u8],
    items: &mut Gathered,
) -> Result<(), LoadFault>
    ensures items { IsTrue (F.state files.old).tells → OnOk result (items.new ≡ with_item limit (F.state files.old).contents items.old name) }
    ensures fits { OnOk result (All (FitsWithin limit) items.old → All (FitsWithin limit) items.new) }
    ensures once { OnOk result (ReadsEach (F.state files.old) (F.state files.new) items.old items.new) }
    ensures named { IfErr result (IsReadFault written.now) }
    ensures cause { GatherCauses (F.state files.old) (F.state files.new) result }
    ensures only_reads { OnlyReads (F.state files.old) (F.state files.new) }
    ensures go_on { FilesGoOn (F.state files.old) (F.state files.new) }
{
    if items.has(name.as_bytes()) {
        return Ok(());
    }
    match as_text(name.as_bytes()) {
        Some(text) => {
            let content = read_content(alloc, files, limit, text, written)?;
            items.add(alloc, name, content)?;
            Ok(())
        }
        None => Ok(()),
    }
}

/// Reads the files of these names in a folder up to a limit, each unless it was read.
#[tactic(auto, unfolding(crate::specs::Gathering::with_files))]
fn read_files<F: Files>(
    alloc: Global,
    files: &mut F,
    limit: u64,
    folder: Option<&[u8]>,
    names: &[Text],
    items: &mut Gathered,
) -> Result<(), LoadFault>
    ensures items { IsTrue (F.state files.old).tells → OnOk result (items.new ≡ with_files limit (F.state files.old).contents (option_copied folder.entry) items.old names.now) }
    ensures fits { OnOk result (All (FitsWithin limit) items.old → All (FitsWithin limit) items.new) }
    ensures once { OnOk result (ReadsEach (F.state files.old) (F.state files.new) items.old items.new) }
    ensures named { IfErr result (ReadsOneOf names.now) }
    ensures cause { GatherCauses (F.state files.old) (F.state files.new) result }
    ensures only_reads { OnlyReads (F.state files.old) (F.state files.new) }
    ensures go_on { FilesGoOn (F.state files.old) (F.state files.new) }
{
    let mut rest = names;
    'names: while let Some((name, others)) = rest.split_first() {
        let full = full_name(alloc, folder, name.as_bytes())?;
        read_item(alloc, files, limit, full, name.as_bytes(), items)?;
        rest = others;
    }
    Ok(())
}

/// Files that were read, and what the main file among them gives, or the refusal of the whole main file.
#[derive(Drop)]
pub(crate) struct FilesRead {
    pub(crate) set: FileSet,
    pub(crate) main: Result<MainFile, FileFault>,
}

/// Reads the files that the main file's lines name, and then the texts that the templates include.
#[tactic(auto, using(crate::proofs::GatherLemmas::reads_rules), unfolding(crate::specs::Gathering::all_items, crate::specs::Gathering::named_items, crate::specs::Gathering::names_behind))]
fn read_named<F: Files>(
    alloc: Global,
    files: &mut F,
    main: &[u8],
    places: &Places,
    items: &mut Gathered,
) -> Result<(), LoadFault>
    ensures items { IsTrue (F.state files.old).tells → items.old ≡ item_of FILE_LIMIT (F.state files.old).contents main.now ∷ [] → OnOk result (items.new ≡ all_items (F.state files.old).contents main.now places.now) }
    ensures fits { OnOk result (All FitsItem items.old → All FitsItem items.new) }
    ensures once { OnOk result (ReadsEach (F.state files.old) (F.state files.new) items.old items.new) }
    ensures named { IsTrue (F.state files.old).tells → items.old ≡ item_of FILE_LIMIT (F.state files.old).contents main.now ∷ [] → IfErr result (ReadsOneOf (names_behind (F.state files.old).contents main.now places.now)) }
    ensures cause { GatherCauses (F.state files.old) (F.state files.new) result }
    ensures only_reads { OnlyReads (F.state files.old) (F.state files.new) }
    ensures go_on { FilesGoOn (F.state files.old) (F.state files.new) }
{
    let folder = places.templdir.as_bytes();
    read_listed(alloc, files, places, items)?;
    read_templates(alloc, files, folder, items)?;
    read_included(alloc, files, folder, items)?;
    Ok(())
}

/// Reads the action files and the filter files.
#[tactic(auto, using(crate::proofs::GatherLemmas::reads_rules))]
fn read_listed<F: Files>(
    alloc: Global,
    files: &mut F,
    places: &Places,
    items: &mut Gathered,
) -> Result<(), LoadFault>
    ensures items { IsTrue (F.state files.old).tells → OnOk result (items.new ≡ with_files FILE_LIMIT (F.state files.old).contents places.now.confdir items.old (places.now.action_files ++ places.now.filter_files)) }
    ensures fits { OnOk result (All FitsItem items.old → All FitsItem items.new) }
    ensures once { OnOk result (ReadsEach (F.state files.old) (F.state files.new) items.old items.new) }
    ensures named { IfErr result (ReadsOneOf (places.now.action_files ++ places.now.filter_files)) }
    ensures cause { GatherCauses (F.state files.old) (F.state files.new) result }
    ensures only_reads { OnlyReads (F.state files.old) (F.state files.new) }
    ensures go_on { FilesGoOn (F.state files.old) (F.state files.new) }
{
    let folder = places.folder();
    let names = places.action_files.as_slice();
    read_files(alloc, files, FILE_LIMIT, folder, names, items)?;
    let names = places.filter_files.as_slice();
    read_files(alloc, files, FILE_LIMIT, folder, names, items)?;
    Ok(())
}

/// Reads the templates and the images.
fn read_templates<F: Files>(
    alloc: Global,
    files: &mut F,
    folder: &[u8],
    items: &mut Gathered,
) -> Result<(), LoadFault>
    ensures items { IsTrue (F.state files.old).tells → OnOk result (items.new ≡ with_files FILE_LIMIT (F.state files.old).contents (Some folder.now) items.old template_names) }
    ensures fits { OnOk result (All FitsItem items.old → All FitsItem items.new) }
    ensures once { OnOk result (ReadsEach (F.state files.old) (F.state files.new) items.old items.new) }
    ensures named { IfErr result (ReadsOneOf template_names) }
    ensures cause { GatherCauses (F.state files.old) (F.state files.new) result }
    ensures only_reads { OnlyReads (F.state files.old) (F.state files.new) }
    ensures go_on { FilesGoOn (F.state files.old) (F.state files.new) }
{
    let names = template_names(alloc)?;
    read_files(
        alloc,
        files,
        FILE_LIMIT,
        Some(folder),
        names.as_slice(),
        items,
    )
}

/// Reads the texts that the templates include.
fn read_included<F: Files>(
    alloc: Global,
    files: &mut F,
    folder: &[u8],
    items: &mut Gathered,
) -> Result<(), LoadFault>
    ensures items { IsTrue (F.state files.old).tells → OnOk result (items.new ≡ with_files FILE_LIMIT (F.state files.old).contents (Some folder.now) items.old (all_included items.old folder.now)) }
    ensures fits { OnOk result (All FitsItem items.old → All FitsItem items.new) }
    ensures once { OnOk result (ReadsEach (F.state files.old) (F.state files.new) items.old items.new) }
    ensures named { IfErr result (ReadsOneOf (all_included items.old folder.now)) }
    ensures cause { GatherCauses (F.state files.old) (F.state files.new) result }
    ensures only_reads { OnlyReads (F.state files.old) (F.state files.new) }
    ensures go_on { FilesGoOn (F.state files.old) (F.state files.new) }
{
    let names = all_included(alloc, items.as_slice(), folder)?;
    read_files(
        alloc,
        files,
        FILE_LIMIT,
        Some(folder),
        names.as_slice(),
        items,
    )
}

/// The items of the main file and of the files that its lines name.
fn read_items<F: Files>(
    alloc: Global,
    files: &mut F,
    main: &[u8],
    content: Content,
    places: &Places,
) -> Result<List<(Text, Content)>, LoadFault>
    ensures items { IsTrue (F.state files.old).tells → content ≡ content_of FILE_LIMIT ((F.state files.old).contents main.now) → IfOk result (λ items. items ≡ all_items (F.state files.old).contents main.now places.now) }
    ensures fits { FitsLimit FILE_LIMIT content → IfOk result (All FitsItem) }
    ensures once { IfOk result (ReadsEach (F.state files.old) (F.state files.new) ((main.now, content) ∷ [])) }
    ensures named { IsTrue (F.state files.old).tells → content ≡ content_of FILE_LIMIT ((F.state files.old).contents main.now) → IfErr result (ReadsOneOf (names_behind (F.state files.old).contents main.now places.now)) }
    ensures cause { GatherCauses (F.state files.old) (F.state files.new) result }
    ensures only_reads { OnlyReads (F.state files.old) (F.state files.new) }
    ensures go_on { FilesGoOn (F.state files.old) (F.state files.new) }
{
    let mut items = Gathered::new(alloc);
    items.add(alloc, Text::from_bytes(alloc, main)?, content)?;
    read_named(alloc, files, main, places, &mut items)?;
    Ok(items.into_items())
}

/// Reads the lists of hosts that the main file's lines name.
#[tactic(auto, unfolding(crate::specs::Gathering::all_lists))]
fn read_lists<F: Files>(
    alloc: Global,
    files: &mut F,
    places: &Places,
) -> Result<List<(Text, Content)>, LoadFault>
    ensures lists { IsTrue (F.state files.old).tells → IfOk result (λ lists. lists ≡ all_lists (F.state files.old).contents places.now) }
    ensures once { IfOk result (ReadsEach (F.state files.old) (F.state files.new) []) }
    ensures named { IfErr result (ReadsOneOf places.now.host_lists) }
    ensures cause { GatherCauses (F.state files.old) (F.state files.new) result }
    ensures only_reads { OnlyReads (F.state files.old) (F.state files.new) }
    ensures go_on { FilesGoOn (F.state files.old) (F.state files.new) }
{
    let mut lists = Gathered::new(alloc);
    let names = places.host_lists.as_slice();
    read_files(alloc, files, LIST_LIMIT, places.folder(), names, &mut lists)?;
    Ok(lists.into_items())
}

/// Goes on with a main file whose lines can be read.
#[tactic(auto, using(crate::proofs::GatherLemmas::reads_rules))]
fn read_behind<F: Files>(
    alloc: Global,
    files: &mut F,
    main: &[u8],
    content: Content,
    lines: List<Line>,
) -> Result<FilesRead, LoadFault>
    ensures set { IsTrue (F.state files.old).tells → content ≡ content_of FILE_LIMIT ((F.state files.old).contents main.now) → IfOk result (λ read. read.set ≡ set_behind (F.state files.old).contents main.now (places_of main.now lines)) }
    ensures file { IfOk result (λ read. IsMainOf main.now (Ok lines) read.main) }
    ensures fits { FitsLimit FILE_LIMIT content → IfOk result (λ read. All FitsItem read.set.items) }
    ensures once { IfOk result (λ read. ReadsSet (F.state files.old) (F.state files.new) ((main.now, content) ∷ []) read.set) }
    ensures named { IsTrue (F.state files.old).tells → content ≡ content_of FILE_LIMIT ((F.state files.old).contents main.now) → IfErr result (ReadsOneOf (names_with_lists (F.state files.old).contents main.now (places_of main.now lines))) }
    ensures cause { GatherCauses (F.state files.old) (F.state files.new) result }
    ensures only_reads { OnlyReads (F.state files.old) (F.state files.new) }
    ensures go_on { FilesGoOn (F.state files.old) (F.state files.new) }
{
    let file = MainFile::of(alloc, main, lines)?;
    let items = read_items(alloc, files, main, content, &file.places)?;
    let lists = read_lists(alloc, files, &file.places)?;
    let main = Text::from_bytes(alloc, main)?;
    Ok(FilesRead {
        set: FileSet { main, items, lists },
        main: Ok(file),
    })
}

/// A main file whose lines can't be read, which is the only one.
fn only_main(
    alloc: Global,
    main: &[u8],
    content: Content,
    refusal: FileFault,
) -> Result<FilesRead, Mem>
    ensures set { IfOk result (λ read. read.set ≡ record { main = main.now; items = (main.now, content) ∷ []; lists = [] }) }
    ensures file { IfOk result (λ read. read.main ≡ Err refusal) }
{
    let mut items = List::new(alloc);
    items.add((Text::from_bytes(alloc, main)?, content))?;
    let main = Text::from_bytes(alloc, main)?;
    Ok(FilesRead {
        set: FileSet {
            main,
            items,
            lists: List::new(alloc),
        },
        main: Err(refusal),
    })
}

/// Reads the files of a configuration, and gives what the main file among them gives.
#[tactic(auto, using(crate::proofs::GatherLemmas::reads_rules), unfolding(crate::specs::Gathering::gathered, crate::specs::Gathering::names_read))]
pub(crate) fn gather_files<F: Files>(
    alloc: Global,
    files: &mut F,
    main: &str,
) -> Result<FilesRead, LoadFault>
    ensures set { IsTrue (F.state files.old).tells → IfOk result (λ read. read.set ≡ gathered (F.state files.old).contents main.now) }
    ensures file { IsTrue (F.state files.old).tells → IfOk result (λ read. IsMainOf main.now (content_lines (content_of FILE_LIMIT ((F.state files.old).contents main.now))) read.main) }
    ensures fits { IfOk result (λ read. All FitsItem read.set.items) }
    ensures once { IfOk result (λ read. ReadsSet (F.state files.old) (F.state files.new) [] read.set) }
    ensures named { IsTrue (F.state files.old).tells → IfErr result (ReadsOneOf (names_read (F.state files.old).contents main.now)) }
    ensures cause { GatherCauses (F.state files.old) (F.state files.new) result }
    ensures only_reads { OnlyReads (F.state files.old) (F.state files.new) }
    ensures go_on { FilesGoOn (F.state files.old) (F.state files.new) }
{
    let content = read_content(alloc, files, FILE_LIMIT, main, main.as_bytes())?;
    match content_lines(alloc, &content) {
        Ok(lines) => read_behind(alloc, files, main.as_bytes(), content, lines),
        Err(FileFault::Mem) => Err(LoadFault::Mem),
        Err(FileFault::At { line, number }) => {
            let refusal = FileFault::At { line, number };
            Ok(only_main(alloc, main.as_bytes(), content, refusal)?)
        }
    }
}

/// Reads the files of a configuration: the main file of this name, the action files and the filter files that its lines
/// name, the templates and the two images, the texts that the templates include, and the lists of hosts. Each is read once, and
/// what reading gave is kept; so on a disk, where a file may change meanwhile, one reading of a file gives both what it names and
/// what it says.
/// Where the main file has no lines that can be read, it is the only one.
///
/// `Read` comes only where the files' count of faults rose, with the name of one of these files as it is written, and no other
/// fault than that and `Mem`.
pub fn gather<F: Files>(alloc: Global, files: &mut F, main: &str) -> Result<FileSet, LoadFault>
    ensures set { IsTrue (F.state files.old).tells → IfOk result (λ set. set ≡ gathered (F.state files.old).contents main.now) }
    ensures fits { IfOk result (λ set. All FitsItem set.items) }
    ensures once { IfOk result (λ set. ReadsSet (F.state files.old) (F.state files.new) [] set) }
    ensures named { IsTrue (F.state files.old).tells → IfErr result (ReadsOneOf (names_read (F.state files.old).contents main.now)) }
    ensures cause { GatherCauses (F.state files.old) (F.state files.new) result }
    ensures only_reads { OnlyReads (F.state files.old) (F.state files.new) }
    ensures go_on { FilesGoOn (F.state files.old) (F.state files.new) }
{
    let FilesRead { set, main } = gather_files(alloc, files, main)?;
    drop(main);
    Ok(set)
}
