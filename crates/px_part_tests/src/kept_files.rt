//! Files that are kept: which of them are opened again, over files of this system and a clock that may be ahead.
use crate::common::{holds, same};
use px_base::{Content, Files, FilesFault};
use px_kept_files::KeptFiles;
use std::alloc::Allocator;
use std::fs::{self, File, Metadata, OpenFile, OpenOptions};
use std::io::{Read, Seek, SeekFrom, Write};
use std::process::Abort;
use std::sync::atomic::{AtomicU64, Ordering};
use std::thread::sleep;
use std::time::Duration;
use std::{io, rt};

/// The seconds by which a clock is ahead for which all files are old.
const AHEAD: u64 = 100;

/// The files and the clock of a runtime, which count what is opened. The clock may be ahead. Where a file is to be changed in its
/// reading, that is done behind the first read.
#[derive(Drop)]
struct Watch<'r> {
    rt: &'r HostRuntime,
    opened: AtomicU64,
    ahead: AtomicU64,
    changes: AtomicU64,
}

/// An open file.
#[derive(Drop)]
struct WatchedFile<'r> {
    rt: &'r HostRuntime,
    file: File,
    change: bool,
}

impl<'r> Read for WatchedFile<'r> {
    fn read(&mut self, buf: &mut [u8]) -> io::Result<usize> {
        let count = self.file.read(buf);
        if self.change {
            self.change = false;
            fs::write(self.rt, CHANGED, "later")?;
        }
        count
    }
}

impl<'r> Write for WatchedFile<'r> {
    fn write(&mut self, buf: &[u8]) -> io::Result<usize> {
        self.file.write(buf)
    }

    fn flush(&mut self) -> io::Result<()> {
        self.file.flush()
    }
}

impl<'r> Seek for WatchedFile<'r> {
    fn seek(&mut self, to: SeekFrom) -> io::Result<u64> {
        self.file.seek(to)
    }
}

impl<'r> OpenFile for WatchedFile<'r> {
    fn metadata(&self) -> io::Result<Metadata> {
        self.file.metadata()
    }

    fn set_len(&self, size: u64) -> io::Result<()> {
        self.file.set_len(size)
    }

    fn sync_all(&self) -> io::Result<()> {
        self.file.sync_all()
    }

    fn sync_data(&self) -> io::Result<()> {
        self.file.sync_data()
    }
}

impl<'r> rt::Files for Watch<'r> {
    type File = WatchedFile<'r>;

    type Dir = <HostRuntime as rt::Files>::Dir;

    fn open_file(&self, how: &OpenOptions, path: &str) -> io::Result<WatchedFile<'r>> {
        self.opened.fetch_add(1, Ordering::SeqCst);
        let file = self.rt.open_file(how, path)?;
        let change = self.changes.swap(0, Ordering::SeqCst) > 0;
        Ok(WatchedFile {
            rt: self.rt,
            file,
            change,
        })
    }

    fn open_dir(&self, path: &str) -> io::Result<<HostRuntime as rt::Files>::Dir> {
        self.rt.open_dir(path)
    }

    fn metadata(&self, path: &str) -> io::Result<Metadata> {
        self.rt.metadata(path)
    }

    fn symlink_metadata(&self, path: &str) -> io::Result<Metadata> {
        self.rt.symlink_metadata(path)
    }

    fn copy(&self, from: &str, to: &str) -> io::Result<u64> {
        self.rt.copy(from, to)
    }

    fn rename(&self, from: &str, to: &str) -> io::Result<()> {
        self.rt.rename(from, to)
    }

    fn remove_file(&self, path: &str) -> io::Result<()> {
        self.rt.remove_file(path)
    }

    fn create_dir(&self, path: &str) -> io::Result<()> {
        self.rt.create_dir(path)
    }

    fn remove_dir(&self, path: &str) -> io::Result<()> {
        self.rt.remove_dir(path)
    }

    fn remove_dir_all<B: Allocator>(&self, alloc: B, path: &str) -> io::Result<()> {
        self.rt.remove_dir_all(alloc, path)
    }
}

impl<'r> rt::Clock for Watch<'r> {
    fn monotonic(&self) -> io::Result<Duration> {
        self.rt.monotonic()
    }

    fn since_1970(&self) -> io::Result<Duration> {
        let now = self.rt.since_1970()?;
        let ahead = self.ahead.load(Ordering::SeqCst);
        Ok(now.saturating_add(Duration::from_secs(ahead)))
    }
}

/// A runtime that is watched, whose clock is so many seconds ahead.
fn watching(rt: &HostRuntime, ahead: u64) -> Watch<'_> {
    Watch {
        rt,
        opened: AtomicU64::new(0),
        ahead: AtomicU64::new(ahead),
        changes: AtomicU64::new(0),
    }
}

/// The file of each test.
const SAME: &str = "px_kept_files-same";

const REPLACED: &str = "px_kept_files-replaced";

const REMOVED: &str = "px_kept_files-removed";

const YOUNG: &str = "px_kept_files-young";

const CHANGED: &str = "px_kept_files-changed";

const UNASKED: &str = "px_kept_files-unasked";

const BESIDE: &str = "px_kept_files-beside";

const LONG: &str = "px_kept_files-long";

/// Writes a file, so much later than it was last written that the system's times differ.
fn write<R: rt::Files + rt::Clock + Abort>(rt: &R, name: &str, bytes: &str) {
    sleep(rt, Duration::from_millis(40));
    holds(rt, fs::write(rt, name, bytes).is_ok(), "it is written");
}

/// What a read gives: whether it is these bytes, and how many files it opened.
fn read<'r>(
    watched: &Watch<'r>,
    files: &mut KeptFiles<'_, Watch<'r>>,
    name: &str,
    limit: u64,
    bytes: &str,
) -> (bool, u64) {
    let before = watched.opened.load(Ordering::SeqCst);
    let is_it = match files.read(name, limit) {
        Ok(Content::Found(found)) => found.as_bytes() == bytes.as_bytes(),
        Ok(Content::Over) => bytes == "OVER",
        Ok(Content::Missing) => bytes == "MISSING",
        Err(FilesFault::Failed) => bytes == "FAILED",
        Err(FilesFault::Mem) => false,
    };
    let after = watched.opened.load(Ordering::SeqCst);
    (is_it, after.saturating_sub(before))
}

#[test]
fn a_file_that_looks_the_same_is_opened_once(rt: HostRuntime) {
    let watched = watching(&rt, AHEAD);
    let mut files = KeptFiles::new(rt.alloc(), &watched);
    write(&rt, SAME, "first");
    same(
        &rt,
        read(&watched, &mut files, SAME, 10, "first"),
        (true, 1),
    );
    same(&rt, files.turn(), false);
    same(
        &rt,
        read(&watched, &mut files, SAME, 10, "first"),
        (true, 0),
    );
    same(&rt, read(&watched, &mut files, SAME, 4, "OVER"), (true, 0));
    same(&rt, files.turn(), false);
    write(&rt, SAME, "other");
    same(&rt, files.turn(), true);
    same(
        &rt,
        read(&watched, &mut files, SAME, 10, "other"),
        (true, 1),
    );
    write(&rt, SAME, "oth");
    same(&rt, read(&watched, &mut files, SAME, 10, "oth"), (true, 1));
    same(&rt, read(&watched, &mut files, SAME, 10, "oth"), (true, 0));
    holds(&rt, fs::remove_file(&rt, SAME).is_ok(), "it goes");
}

#[test]
fn a_file_that_is_renamed_over_another_is_read(rt: HostRuntime) {
    let watched = watching(&rt, AHEAD);
    let mut files = KeptFiles::new(rt.alloc(), &watched);
    write(&rt, REPLACED, "first");
    write(&rt, "px_kept_files-new", "other");
    same(
        &rt,
        read(&watched, &mut files, REPLACED, 10, "first"),
        (true, 1),
    );
    let renamed = fs::rename(&rt, "px_kept_files-new", REPLACED);
    holds(&rt, renamed.is_ok(), "it is renamed");
    same(
        &rt,
        read(&watched, &mut files, REPLACED, 10, "other"),
        (true, 1),
    );
    holds(&rt, fs::remove_file(&rt, REPLACED).is_ok(), "it goes");
}

#[test]
fn a_file_that_is_gone_is_missing_until_it_is_back(rt: HostRuntime) {
    let watched = watching(&rt, AHEAD);
    let mut files = KeptFiles::new(rt.alloc(), &watched);
    write(&rt, REMOVED, "first");
    same(
        &rt,
        read(&watched, &mut files, REMOVED, 10, "first"),
        (true, 1),
    );
    holds(&rt, fs::remove_file(&rt, REMOVED).is_ok(), "it goes");
    same(&rt, files.turn(), true);
    same(
        &rt,
        read(&watched, &mut files, REMOVED, 10, "MISSING"),
        (true, 0),
    );
    same(&rt, files.turn(), false);
    write(&rt, REMOVED, "again");
    same(&rt, files.turn(), true);
    same(
        &rt,
        read(&watched, &mut files, REMOVED, 10, "again"),
        (true, 1),
    );
    same(
        &rt,
        read(&watched, &mut files, "/", 10, "FAILED"),
        (true, 1),
    );
    same(&rt, files.turn(), true);
    holds(&rt, fs::remove_file(&rt, REMOVED).is_ok(), "it goes");
}

#[test]
fn a_file_that_was_just_written_is_read_again(rt: HostRuntime) {
    let watched = watching(&rt, 0);
    let mut files = KeptFiles::new(rt.alloc(), &watched);
    for bytes in ["first", "other"] {
        holds(&rt, fs::write(&rt, YOUNG, bytes).is_ok(), "it is written");
        same(&rt, read(&watched, &mut files, YOUNG, 10, bytes), (true, 1));
        same(&rt, read(&watched, &mut files, YOUNG, 10, bytes), (true, 1));
    }
    same(&rt, files.turn(), true);
    watched.ahead.store(AHEAD, Ordering::SeqCst);
    same(
        &rt,
        read(&watched, &mut files, YOUNG, 10, "other"),
        (true, 1),
    );
    same(&rt, files.turn(), false);
    same(
        &rt,
        read(&watched, &mut files, YOUNG, 10, "other"),
        (true, 0),
    );
    holds(&rt, fs::remove_file(&rt, YOUNG).is_ok(), "it goes");
}

#[test]
fn a_file_that_is_changed_in_its_reading_is_read_again(rt: HostRuntime) {
    let watched = watching(&rt, AHEAD);
    let mut files = KeptFiles::new(rt.alloc(), &watched);
    write(&rt, CHANGED, "first");
    sleep(&rt, Duration::from_millis(40));
    watched.changes.store(1, Ordering::SeqCst);
    same(
        &rt,
        read(&watched, &mut files, CHANGED, 10, "first"),
        (true, 1),
    );
    same(
        &rt,
        read(&watched, &mut files, CHANGED, 10, "later"),
        (true, 1),
    );
    same(
        &rt,
        read(&watched, &mut files, CHANGED, 10, "later"),
        (true, 0),
    );
    holds(&rt, fs::remove_file(&rt, CHANGED).is_ok(), "it goes");
}

#[test]
fn a_file_that_isn_t_asked_for_a_turn_is_let_go(rt: HostRuntime) {
    let watched = watching(&rt, AHEAD);
    let mut files = KeptFiles::new(rt.alloc(), &watched);
    write(&rt, UNASKED, "first");
    same(
        &rt,
        read(&watched, &mut files, UNASKED, 10, "first"),
        (true, 1),
    );
    for bytes in ["one", "another"] {
        write(&rt, BESIDE, bytes);
        same(
            &rt,
            read(&watched, &mut files, BESIDE, 10, bytes),
            (true, 1),
        );
        write(&rt, BESIDE, "new");
        same(&rt, files.turn(), true);
    }
    same(
        &rt,
        read(&watched, &mut files, UNASKED, 10, "first"),
        (true, 1),
    );
    holds(&rt, fs::remove_file(&rt, UNASKED).is_ok(), "it goes");
    holds(&rt, fs::remove_file(&rt, BESIDE).is_ok(), "it goes");
}

#[test]
fn a_file_of_more_than_a_mebibyte_is_read_once_for_all_turns_that_leave_it(rt: HostRuntime) {
    let watched = watching(&rt, AHEAD);
    let mut files = KeptFiles::new(rt.alloc(), &watched);
    let mut bytes = String::new(rt.alloc());
    for _ in 0..65_537 {
        bytes.push_str("0123456789abcdef").expect(&rt, "memory");
    }
    write(&rt, LONG, bytes.as_str());
    same(&rt, files.turn(), true);
    same(
        &rt,
        read(&watched, &mut files, LONG, 2_000_000, bytes.as_str()),
        (true, 1),
    );
    same(&rt, files.turn(), false);
    same(&rt, files.turn(), false);
    write(&rt, LONG, "short");
    same(&rt, files.turn(), true);
    same(
        &rt,
        read(&watched, &mut files, LONG, 2_000_000, "short"),
        (true, 1),
    );
    holds(&rt, fs::remove_file(&rt, LONG).is_ok(), "it goes");
}
