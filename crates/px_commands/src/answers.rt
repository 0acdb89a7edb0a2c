// The answers of ORIGIN.
ghost use Rattle.std.specs.Prelude.{◌≡◌, ℕ, List, Option, IsTrue};
ghost use Rattle.px_base.specs.Contents.{FilesGoOn, Unchanged, content_of, FilesState};
ghost use Rattle.px_commands.specs.Reads.{OriginReads, OriginCause};

use crate::origins::{OriginFault, read_origin};
use px_base::{Answer, Content, Files, FilesFault, List};
use std::alloc::Global;

/// The most bytes of ORIGIN.
pub const ORIGIN_LIMIT: u64 = 67_108_864;

/// What reading ORIGIN gave.
#[derive(Drop)]
pub enum OriginRead {
    /// The answers of the dials to come.
    Answers(List<Answer>),
    /// It is missing, too large, or not of its format.
    Refused,
    /// It couldn't be read.
    Failed,
    NoMemory,
}

/// Reads ORIGIN.
pub fn read_answers<F: Files>(alloc: Global, files: &mut F, name: &str) -> OriginRead
    ensures reads { IsTrue (F.state files.old).tells → OriginReads ((F.state files.old).contents name.now) result }
    ensures unchanged { IsTrue (F.state files.old).tells → Unchanged (F.state files.old).contents (F.state files.new).contents }
    ensures cause { OriginCause (F.state files.old) (F.state files.new) result }
    ensures unput { (F.state files.new).puts ≡ (F.state files.old).puts }
    ensures go_on { FilesGoOn (F.state files.old) (F.state files.new) }
{
    match files.read(name, ORIGIN_LIMIT) {
        Ok(content) => read_content(alloc, content),
        Err(fault) => match fault {
            FilesFault::Failed => OriginRead::Failed,
            FilesFault::Mem => OriginRead::NoMemory,
        },
    }
}

/// What the content of ORIGIN gives.
#[tactic(auto, using(crate::proofs::ReadLemmas::origin_rules))]
fn read_content(alloc: Global, content: Content) -> OriginRead
    ensures reads { (held : Option (List ℕ)) → content ≡ content_of ORIGIN_LIMIT held → OriginReads held result }
    ensures came { (old new : FilesState) → new.read_faults ≡ old.read_faults → new.put_faults ≡ old.put_faults → OriginCause old new result }
{
    match content {
        Content::Missing => OriginRead::Refused,
        Content::Over => OriginRead::Refused,
        Content::Found(text) => match read_origin(alloc, text.as_bytes()) {
            Ok(answers) => OriginRead::Answers(answers),
            Err(fault) => match fault {
                OriginFault::BadForm => OriginRead::Refused,
                OriginFault::Mem => OriginRead::NoMemory,
            },
        },
    }
}
