// The files of the system, of which those that were read are kept.
ghost use Rattle.std.specs.Prelude.{◌≡◌, ◌≤◌, ℕ, List, IfErr, IfOk, IfSome, length, Some};
ghost use Rattle.px_base.specs.Causes.{Rose};
ghost use Rattle.px_base.specs.Contents.{FilesCause, FilesGoOn, FilesState, FitsLimit, ReadsFile, content_of, untold_files};
ghost use Rattle.px_kept_files.specs.Readings.{IsFoundAs, IsLastRead, ReadsOnly};
ghost use Rattle.px_kept_files.specs.Contents.{FitsReading};
ghost use Rattle.px_kept_files.specs.Lookings.{GivenByLook};
ghost use Rattle.px_kept_files.specs.Stores.{IsSeenAsRead};

use crate::looks::{Look, is_missing, look_at};
use crate::readings::Readings;
use crate::stamps::FileStamp;
use crate::stores::{FileStore, SeenFile};
use crate::wholes::{ReadFault, read_whole};
use px_base::{Clock, Content, DiskFiles, Files, FilesFault, SystemClock, Text};
use std::alloc::Global;
use std::fs::{File, OpenFile};
use std::rt;

/// The files of the system. The bytes of a file that was read are kept with its look, and given again where it looks so still: it is
/// neither opened nor read then. At a turn each name that was asked since the turn before is looked at: where all look as they did,
/// the turn answers that nothing changed, and they count as asked. Else what no name asked for between two turns is let go.
#[derive(Drop)]
pub struct KeptFiles<'r, R> {
    rt: &'r R,
    alloc: Global,
    disk: DiskFiles<'r, R>,
    clock: SystemClock<'r, R>,
    store: FileStore,
    read_faults: u64,
    reads: u64,
    turns: u64,
}

/// How an open file looks.
fn stamp_of<F: OpenFile>(file: &F) -> Option<FileStamp> {
    match file.metadata() {
        Ok(metadata) => FileStamp::of(&metadata),
        Err(_) => None,
    }
}

/// How a file looked both times.
fn same_stamp(before: Option<FileStamp>, behind: Option<FileStamp>) -> Option<FileStamp> {
    if before == behind { before } else { None }
}

/// What reading a file gave.
enum Reading {
    Missing,
    Over,
    /// Its bytes, and how it looked before and behind that, where it is the same.
    Whole {
        bytes: Text,
        stamp: Option<FileStamp>,
    },
}

/// Opens a file and reads it.
fn read_file<R: rt::Files>(
    rt: &R,
    alloc: Global,
    name: &str,
    limit: u64,
) -> Result<Reading, ReadFault>
    ensures { IfOk result (FitsReading limit) }
{
    let mut file = match File::open(rt, name) {
        Ok(file) => file,
        Err(error) => {
            if is_missing(error.kind()) {
                return Ok(Reading::Missing);
            }
            return Err(ReadFault::Io);
        }
    };
    let before = stamp_of(&file);
    match read_whole(alloc, &mut file, limit) {
        Ok(Content::Found(bytes)) => {
            let stamp = same_stamp(before, stamp_of(&file));
            Ok(Reading::Whole { bytes, stamp })
        }
        Ok(Content::Over) => Ok(Reading::Over),
        Ok(Content::Missing) => Ok(Reading::Missing),
        Err(fault) => Err(fault),
    }
}

/// The content of a file that was seen, if it looks so still and its bytes are kept.
#[tactic(auto, using(crate::proofs::StoreLemmas::read_as))]
fn kept_content(
    alloc: Global,
    seen: &SeenFile,
    stamp: FileStamp,
    limit: u64,
) -> Option<Result<Content, FilesFault>>
    ensures looks { IfSome result (λ _. seen.now.stamp ≡ stamp) }
    ensures content { IfSome seen.now.bytes (λ bytes. IfSome result (λ r. IfOk r (λ c. c ≡ content_of limit (Some bytes)))) }
    ensures last { (readings : Readings) → (name : List ℕ) → IsSeenAsRead readings name seen.now → IfSome result (λ r. IfOk r (IsLastRead readings name)) }
    ensures found { (readings : Readings) → (name : List ℕ) → IsSeenAsRead readings name seen.now → IfSome result (λ r. IfOk r (IsFoundAs readings name stamp)) }
    ensures fits { IfSome result (λ r. IfOk r (FitsLimit limit)) }
    ensures mem { IfSome result (λ r. IfErr r (λ fault. fault ≡ FilesFault.Mem)) }
{
    let Some(bytes) = &seen.bytes else {
        return None;
    };
    if seen.stamp != stamp {
        return None;
    }
    if bytes.len() as u64 > limit {
        return Some(Ok(Content::Over));
    }
    match Text::from_bytes(alloc, bytes.as_bytes()) {
        Ok(bytes) => Some(Ok(Content::Found(bytes))),
        Err(_) => Some(Err(FilesFault::Mem)),
    }
}

impl<'r, R: rt::Files + rt::Clock + Sync> KeptFiles<'r, R> {
    /// The files of a runtime, with no faults, before the first call. None is kept.
    pub fn new(alloc: Global, rt: &'r R) -> KeptFiles<'r, R>
        ensures { ⟦<KeptFiles<'r, R> as Files>⟧.state result ≡ untold_files 0 0 0 0 0 }
    {
        KeptFiles {
            rt,
            alloc,
            disk: DiskFiles::new(alloc, rt),
            clock: SystemClock::new(rt),
            store: FileStore::new(alloc),
            read_faults: 0,
            reads: 0,
            turns: 0,
        }
    }
}

impl<'r, R: rt::Files> KeptFiles<'r, R> {
    /// What a look at a name gives already: there is no such file, or it looks as it did when the bytes were read that are kept.
    fn read_kept(
        &mut self,
        name: &str,
        limit: u64,
        look: Look,
    ) -> Option<Result<Content, FilesFault>>
        ensures fits { IfSome result (λ r. IfOk r (FitsLimit limit)) }
        ensures last { IfSome result (λ r. IfOk r (IsLastRead self.old.store.readings name.now)) }
        ensures given { IfSome result (λ r. IfOk r (GivenByLook self.old.store.readings name.now look)) }
        ensures mem { IfSome result (λ r. IfErr r (λ fault. fault ≡ FilesFault.Mem)) }
        ensures readings { self.new.store.readings ≡ self.old.store.readings }
        ensures read_faults { self.new.read_faults ≡ self.old.read_faults }
        ensures disk { self.new.disk ≡ self.old.disk }
        ensures reads { self.new.reads ≡ self.old.reads }
        ensures turns { self.new.turns ≡ self.old.turns }
    {
        let kept = self.store.take(name.as_bytes());
        match look {
            Look::Missing => {
                self.store.put_missing(name.as_bytes());
                Some(Ok(Content::Missing))
            }
            Look::Unknown => None,
            Look::Stamp(stamp) => {
                let kept = kept?;
                let Some(seen) = &kept.seen else {
                    return None;
                };
                let content = kept_content(self.alloc, seen, stamp, limit)?;
                self.store.put(kept);
                Some(content)
            }
        }
    }

    /// Reads a file, at a time that is that of now or before, and keeps its bytes where a look will tell whether it was changed.
    fn read_anew(&mut self, name: &str, limit: u64, begun: u64) -> Result<Content, FilesFault>
        ensures fits { IfOk result (FitsLimit limit) }
        ensures last { IfOk result (IsLastRead self.new.store.readings name.now) }
        ensures only { ReadsOnly name.now self.old.store.readings self.new.store.readings }
        ensures cause { FilesCause self.old.read_faults self.new.read_faults result }
        ensures faults_later { self.old.read_faults ≤ self.new.read_faults }
        ensures disk { self.new.disk ≡ self.old.disk }
        ensures reads { self.new.reads ≡ self.old.reads }
        ensures turns { self.new.turns ≡ self.old.turns }
    {
        let Ok(copy) = Text::from_bytes(self.alloc, name.as_bytes()) else {
            self.store.lose();
            return Err(FilesFault::Mem);
        };
        let reading = read_file(self.rt, self.alloc, name, limit);
        if !matches!(reading, Ok(Reading::Whole { .. })) {
            self.store.lose();
        }
        match reading {
            Ok(Reading::Whole { bytes, stamp }) => {
                self.store.add(copy, stamp, &bytes, begun);
                Ok(Content::Found(bytes))
            }
            Ok(Reading::Over) => Ok(Content::Over),
            Ok(Reading::Missing) => Ok(Content::Missing),
            Err(ReadFault::Io) => {
                self.read_faults = self.read_faults.saturating_add(1);
                Err(FilesFault::Failed)
            }
            Err(ReadFault::Mem) => Err(FilesFault::Mem),
        }
    }
}

impl<'r, R: rt::Files + rt::Clock + Sync> Files for KeptFiles<'r, R> {
    ghost state = { λ f. untold_files f.read_faults (⟦<DiskFiles<'r, R> as Files>⟧.state f.disk).put_faults (⟦<DiskFiles<'r, R> as Files>⟧.state f.disk).puts f.reads f.turns };

    fn turn(&mut self) -> bool {
        self.turns = self.turns.saturating_add(1);
        if self.store.is_still(self.rt) {
            return false;
        }
        self.store.turn();
        true
    }

    fn read(&mut self, name: &str, limit: u64) -> Result<Content, FilesFault>
        ensures reads { ReadsFile (untold_files self.old.read_faults (⟦<DiskFiles<'r, R> as Files>⟧.state self.old.disk).put_faults (⟦<DiskFiles<'r, R> as Files>⟧.state self.old.disk).puts self.old.reads self.old.turns) (untold_files self.new.read_faults (⟦<DiskFiles<'r, R> as Files>⟧.state self.new.disk).put_faults (⟦<DiskFiles<'r, R> as Files>⟧.state self.new.disk).puts self.new.reads self.new.turns) name.now limit result }
        ensures go_on { FilesGoOn (untold_files self.old.read_faults (⟦<DiskFiles<'r, R> as Files>⟧.state self.old.disk).put_faults (⟦<DiskFiles<'r, R> as Files>⟧.state self.old.disk).puts self.old.reads self.old.turns) (untold_files self.new.read_faults (⟦<DiskFiles<'r, R> as Files>⟧.state self.new.disk).put_faults (⟦<DiskFiles<'r, R> as Files>⟧.state self.new.disk).puts self.new.reads self.new.turns) }
        ensures last { IfOk result (IsLastRead self.new.store.readings name.now) }
        ensures only { ReadsOnly name.now self.old.store.readings self.new.store.readings }
    {
        self.reads = self.reads.saturating_add(1);
        let look = look_at(self.rt, name);
        match self.read_kept(name, limit, look) {
            Some(given) => given,
            None => {
                let begun = self.clock.now();
                self.read_anew(name, limit, begun)
            }
        }
    }

    fn put(&mut self, name: &str, bytes: &[u8]) -> Result<(), FilesFault> {
        self.disk.put(name, bytes)
    }
}
