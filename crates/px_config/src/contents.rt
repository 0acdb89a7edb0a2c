// The lines of the files of a set.
ghost use Rattle.std.specs.Prelude.{◌≡◌, All, Ok, IfErr, IfOk, option_copied};
ghost use Rattle.px_base.specs.Contents.{FitsLimit};
ghost use Rattle.px_action_files.specs.Faults.{IsReported};
ghost use Rattle.px_config.specs.Faults.{IsRefusalOf};
ghost use Rattle.px_config.specs.Parts.{content_lines, file_lines, seen_text_fault};
ghost use Rattle.px_config.specs.Sets.{FitsItem};

use crate::faults::{LoadFault, MISSING, TOO_LARGE};
use crate::names::full_name;
use crate::sets::{FILE_LIMIT, find};
use px_action_files::FileFault;
use px_base::{Content, List, Text};
use px_text::{Line, TextFault, logical_lines};
use std::alloc::Global;

/// A fault in a file, with the file's name.
pub(crate) fn fault_in(alloc: Global, file: &[u8], fault: FileFault) -> LoadFault
    ensures { IsRefusalOf file.now fault result }
{
    match fault {
        FileFault::At { line, number } => match Text::from_bytes(alloc, file) {
            Ok(file) => LoadFault::Spelled { file, line, number },
            Err(_) => LoadFault::Mem,
        },
        FileFault::Mem => LoadFault::Mem,
    }
}

/// The refusal of a text as that of a file.
fn text_fault(fault: TextFault) -> FileFault
    ensures { result ≡ seen_text_fault fault }
{
    match fault {
        TextFault::NotText { line } => FileFault::At { line, number: 1 },
        TextFault::TooLong { line } => FileFault::At { line, number: 2 },
        TextFault::Mem => FileFault::Mem,
    }
}

/// The refusal of a whole file.
fn file_fault(number: u8) -> FileFault
    ensures { result ≡ FileFault.At 0 number }
{
    FileFault::At { line: 0, number }
}

/// The lines of a file: it isn't over the limit, and its lines can be read.
#[tactic(auto, unfolding(crate::specs::Parts::content_lines), using(crate::proofs::FaultLemmas::text_rules))]
pub(crate) fn content_lines(alloc: Global, content: &Content) -> Result<List<Line>, FileFault>
    requires { FitsLimit FILE_LIMIT content.now }
    ensures lines { IfOk result (λ lines. content_lines content.now ≡ Ok lines) }
    ensures refused { IfErr result (IsReported (content_lines content.now)) }
{
    match content {
        Content::Missing => Err(file_fault(MISSING)),
        Content::Over => Err(file_fault(TOO_LARGE)),
        Content::Found(text) => match logical_lines(alloc, text.as_bytes()) {
            Ok(lines) => Ok(lines),
            Err(fault) => Err(text_fault(fault)),
        },
    }
}

/// The lines of a file of a set: it is there, isn't over the limit, and its lines can be read.
#[tactic(auto, unfolding(crate::specs::Parts::content_lines))]
pub(crate) fn file_lines(
    alloc: Global,
    items: &[(Text, Content)],
    folder: Option<&[u8]>,
    name: &[u8],
) -> Result<List<Line>, FileFault>
    requires { All FitsItem items.now }
    ensures lines { IfOk result (λ lines. file_lines items.now (option_copied folder.entry) name.now ≡ Ok lines) }
    ensures refused { IfErr result (IsReported (file_lines items.now (option_copied folder.entry) name.now)) }
{
    let name = full_name(alloc, folder, name)?;
    match find(items, name.as_bytes()) {
        Some(content) => content_lines(alloc, content),
        None => Err(file_fault(MISSING)),
    }
}
