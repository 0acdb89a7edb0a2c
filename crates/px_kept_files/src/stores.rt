// The names that were asked, and the files that are kept.
ghost use Rattle.std.specs.Prelude.{◌≡◌, ◌≢◌, ◌≤◌, ◌<◌, ◌+◌, not, All, IfSome, IsTrue, Some, None, length, vec_len, filter, get_or, option_to_list, [], false};
ghost use Rattle.std.specs.Str.{bytes_eq};
ghost use Rattle.std.proofs.Props.{props};
ghost use Rattle.px_kept_files.specs.Readings.{WholeReading, ReadsOnly, last_reading};
ghost use Rattle.px_kept_files.specs.Stores.{AreBytes, IsKeptAsRead, look_of};

use crate::looks::{Look, look_at};
use crate::readings::{Readings, with_whole};
use crate::stamps::FileStamp;
use px_base::Text;
use std::alloc::Global;
use std::{mem, rt, str};

/// So many names are noted at most.
const MOST_FILES: usize = 1_024;

/// The bytes of a file that has more aren't kept.
const MOST_BYTES: usize = 1_048_576;

/// A file that was read whole: how it looked, so that it will look another way once it is changed, and its bytes, if they are kept.
#[derive(Drop)]
pub(crate) struct SeenFile {
    pub(crate) stamp: FileStamp,
    pub(crate) bytes: Option<Text>,
}

/// A name that was asked, of which a look will tell whether it holds what it held: it was missing, or its file was seen.
#[derive(Drop)]
pub(crate) struct AskedFile {
    pub(crate) name: Text,
    pub(crate) seen: Option<SeenFile>,
}

impl AskedFile {
    /// The look that tells that the name holds what it held.
    pub(crate) fn look(&self) -> Look
        ensures { result ≡ look_of self.now.seen }
    {
        match &self.seen {
            None => Look::Missing,
            Some(seen) => Look::Stamp(seen.stamp),
        }
    }
}

/// The names that were asked and all whole readings. Those that were asked since the last turn stand apart from those of the turn
/// before that weren't asked yet, of which the one that was asked first stands last.
#[derive(Drop)]
pub(crate) struct FileStore {
    alloc: Global,
    asked: Vec<AskedFile>,
    waiting: Vec<AskedFile>,
    // Whether each name that was asked since the last turn is among those.
    all_told: bool,
    pub(crate) readings: Readings,
    ghost asked_kept: { All (IsKeptAsRead readings) asked.items } by { Prim.hlevel props },
    ghost waiting_kept: { All (IsKeptAsRead readings) waiting.items } by { Prim.hlevel props },
    ghost few: { vec_len asked + vec_len waiting ≤ 1024 },
}

/// The place of the last file of a name.
fn place_of(files: &[AskedFile], name: &[u8]) -> Option<usize>
    ensures within { IfSome result (λ i. i < length files.now) }
    ensures name { IfSome result (λ i. (d : AskedFile) → (get_or files.now i d).name ≡ name.now) }
{
    'files: for back in 0..files.len() {
        let at = files.len() - 1 - back;
        if files[at].name.as_bytes() == name {
            return Some(at);
        }
    }
    None
}

/// Takes the last file of a name out.
fn take_last(files: &mut Vec<AskedFile>, name: &[u8]) -> Option<AskedFile>
    ensures name { IfSome result (λ kept. kept.name ≡ name.now) }
    ensures taken { (readings : Readings) → All (IsKeptAsRead readings) files.old.items → IfSome result (IsKeptAsRead readings) }
    ensures others { (readings : Readings) → All (IsKeptAsRead readings) files.old.items → All (IsKeptAsRead readings) files.new.items }
    ensures fewer { vec_len files.new ≤ vec_len files.old }
{
    let at = place_of(files.as_slice(), name)?;
    Some(files.remove(at))
}

/// Takes all files of a name out.
fn forget(files: &mut Vec<AskedFile>, name: &Text)
    ensures others { files.new.items ≡ filter (λ (kept : AskedFile). not (bytes_eq kept.name name.now)) files.old.items }
    ensures fewer { vec_len files.new ≤ vec_len files.old }
{
    files.retain(|kept| kept.name.as_bytes() != name.as_bytes());
}

/// A copy of the bytes, if they are few and there is memory for it.
fn few_bytes(alloc: Global, bytes: &Text) -> Option<Text>
    ensures { AreBytes bytes.now result }
{
    if bytes.len() > MOST_BYTES {
        return None;
    }
    Text::from_bytes(alloc, bytes.as_bytes()).ok()
}

impl FileStore {
    /// Nothing was asked or read.
    pub(crate) fn new(alloc: Global) -> FileStore
        ensures { result.readings ≡ Readings.Start }
    {
        FileStore {
            alloc,
            asked: Vec::new(alloc),
            waiting: Vec::new(alloc),
            all_told: true,
            readings: Readings::Start,
        }
    }

    /// Whether looks tell that each name that was asked since the last turn, of which there are some, holds what it held.
    pub(crate) fn is_still<R: rt::Files>(&self, rt: &R) -> bool
        ensures told { IsTrue result → IsTrue self.now.all_told }
        ensures some { IsTrue result → self.now.asked.items ≢ [] }
    {
        if !self.all_told || self.asked.is_empty() {
            return false;
        }
        'asked: for asked in &self.asked {
            let Ok(name) = str::from_utf8(asked.name.as_bytes()) else {
                return false;
            };
            if look_at(rt, name) != asked.look() {
                return false;
            }
        }
        true
    }

    /// Lets the files go that weren't asked since the last turn.
    #[tactic(auto, using(crate::proofs::StoreLemmas::kept_shuffled))]
    pub(crate) fn turn(&mut self)
        ensures { self.new.readings ≡ self.old.readings }
    {
        mem::swap(&mut self.asked, &mut self.waiting);
        self.asked.clear();
        self.waiting.reverse();
        self.all_told = true;
    }

    /// A name was asked of which no look will tell.
    pub(crate) fn lose(&mut self)
        ensures lost { self.new.all_told ≡ false }
        ensures readings { self.new.readings ≡ self.old.readings }
    {
        self.all_told = false;
    }

    /// Takes the file of a name out.
    pub(crate) fn take(&mut self, name: &[u8]) -> Option<AskedFile>
        ensures name { IfSome result (λ kept. kept.name ≡ name.now) }
        ensures kept { IfSome result (IsKeptAsRead self.old.readings) }
        ensures readings { self.new.readings ≡ self.old.readings }
    {
        match take_last(&mut self.waiting, name) {
            Some(kept) => Some(kept),
            None => take_last(&mut self.asked, name),
        }
    }

    /// Puts a file to those that were asked, unless there are too many or memory is wanting.
    pub(crate) fn put(&mut self, kept: AskedFile)
        requires kept { IsKeptAsRead self.old.readings kept }
        ensures { self.new.readings ≡ self.old.readings }
    {
        if self.asked.len() + self.waiting.len() >= MOST_FILES {
            self.all_told = false;
        } else if let Err(refused) = self.asked.push(kept) {
            drop(refused);
            self.all_told = false;
        }
    }

    /// Puts a missing name to those that were asked.
    pub(crate) fn put_missing(&mut self, name: &[u8])
        ensures { self.new.readings ≡ self.old.readings }
    {
        match Text::from_bytes(self.alloc, name) {
            Ok(name) => self.put(AskedFile { name, seen: None }),
            Err(_) => self.lose(),
        }
    }

    /// Notes a whole reading. What was kept of the name is let go.
    fn note(&mut self, name: &Text, begun: u64, stamp: Option<FileStamp>, bytes: &Text)
        ensures noted { last_reading self.new.readings name.now ≡ Some (record { begun = begun; stamp = stamp; bytes = bytes.now }) }
        ensures only { ReadsOnly name.now self.old.readings self.new.readings }
    {
        forget(&mut self.asked, name);
        forget(&mut self.waiting, name);
        self.readings = with_whole(&self.readings, name, begun, stamp, bytes);
    }

    /// Notes a whole reading that was begun at that time, where the file looked the same before and behind it, had as many bytes,
    /// and will look another way once it is changed. A copy of its bytes is kept if they are few and there is memory for it.
    pub(crate) fn add(&mut self, name: Text, stamp: Option<FileStamp>, bytes: &Text, begun: u64)
        ensures noted { last_reading self.new.readings name ≡ Some (record { begun = begun; stamp = stamp; bytes = bytes.now }) }
        ensures only { ReadsOnly name self.old.readings self.new.readings }
    {
        self.note(&name, begun, stamp, bytes);
        let Some(stamp) = stamp else {
            return self.lose();
        };
        if !stamp.is_settled(begun) || stamp.size != bytes.len() as u64 {
            return self.lose();
        }
        let bytes = few_bytes(self.alloc, bytes);
        self.put(AskedFile {
            name,
            seen: Some(SeenFile { stamp, bytes }),
        });
    }
}
